//! Which files are at the path of a database and beside it.

use crate::opening::{Unfit, Unopened};
use std::fs::{self, File};
use std::io::{self, ErrorKind, Read};
use std::os::unix::fs::MetadataExt;

/// What is at a path.
#[derive(Clone, Copy)]
pub(crate) enum Found {
    /// No file that can be opened.
    Nothing(io::Error),
    /// A file in which there is no database yet.
    Empty,
    /// A file that may be a database.
    Database,
    /// A file that does not begin like a database. Opening it as one would leave an empty log
    /// beside it.
    Other,
}

/// The first bytes of a database, if its file is not empty. While it is being made, the first byte
/// is 0. If that is cut off, it stays 0, and the next open makes the database anew.
const FRONT: [u8; 16] = *b"SQLite format 3\0";

pub(crate) fn found_at(rt: &HostRuntime, path: &str) -> Found {
    let mut file = match fs::open(rt, path) {
        Ok(file) => file,
        Err(error) => return Found::Nothing(error),
    };
    let mut front = [0; 16];
    match file.read(&mut front) {
        Ok(_) if front[0] == 0 => Found::Empty,
        Ok(_) if front == FRONT => Found::Database,
        Ok(_) => Found::Other,
        Err(error) => Found::Nothing(error),
    }
}

/// Returns whether there is a link at a path that leads to nothing.
pub(crate) fn is_dangling(rt: &HostRuntime, path: &str) -> bool {
    fs::symlink_metadata(rt, path).is_ok() && fs::metadata(rt, path).is_err()
}

/// Opens a file, if there is one. Anything but a regular file with a single name is refused, as
/// when a database is opened.
pub(crate) fn file_at(rt: &HostRuntime, path: &str) -> Result<Option<File>, Unopened> {
    match fs::symlink_metadata(rt, path) {
        Ok(found) if found.is_dir() => Err(Unopened::Unfit(Unfit::Folder)),
        Ok(found) if !found.is_file() => Err(Unopened::Unfit(Unfit::NoFile)),
        Ok(found) if found.nlink() != 1 => Err(Unopened::Unfit(Unfit::OtherName)),
        Ok(_) => Ok(Some(fs::open(rt, path)?)),
        Err(error) if error.kind() == ErrorKind::NotFound => Ok(None),
        Err(error) => Err(Unopened::Unread(error)),
    }
}

/// Returns the first 32 bytes of a file, which are the header of a log. Bytes that are missing are
/// zeros.
pub(crate) fn front_of(rt: &HostRuntime, path: &str) -> Result<[u8; 32], Unopened> {
    let mut front = [0; 32];
    if let Some(mut file) = file_at(rt, path)? {
        let _ = file.read(&mut front)?;
    }
    Ok(front)
}

/// Returns the header of the log at a path, or zeros if there is none. A file that is no log is
/// refused.
pub(crate) fn log_front(rt: &HostRuntime, path: &str) -> Result<[u8; 32], Unopened> {
    match front_of(rt, path) {
        Ok(front) if is_log(&front) => Ok(front),
        Ok(_) => Err(Unopened::LogUnfit(Unfit::NoLog)),
        Err(cause) => Err(cause.of_log()),
    }
}

/// Returns whether a log begins like this. Its first byte is 0 while it is begun anew.
fn is_log(front: &[u8; 32]) -> bool {
    let [first, second, third, fourth, ..] = *front;
    (first == 0 && second == 0)
        || ((first == 0 || first == 0x37)
            && second == 0x7f
            && third == 0x06
            && fourth & 0xfe == 0x82)
}

/// Returns whether there is a log with more than a header beside a database. The path may have no
/// database.
pub(crate) fn has_log(rt: &HostRuntime, path: &str) -> Result<bool, Unopened> {
    let log_path = format!(in rt.alloc(); "{path}-wal")?;
    let _front = log_front(rt, log_path.as_str())?;
    match fs::metadata(rt, log_path.as_str()) {
        Ok(found) => Ok(found.len() > 64),
        Err(_) => Ok(false),
    }
}
