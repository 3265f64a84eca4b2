//! The files of the machine: opening one to read it, and making one for a certificate.

use crate::own::Own;
use std::fs::{self, File, Metadata, OpenOptions};
use std::io::{self, ErrorKind, Read};
use std::os::fd::AsRawFd;
use std::os::unix::fs::{FileExt, FileTypeExt, MetadataExt};

/// The first bytes of each certificate.
const FRONT: [u8; 19] = *b"sokoban-certificate";

/// Opens a file that exists, or the standard input for the path `-`.
pub(crate) fn opened(rt: &HostRuntime, path: &str) -> io::Result<File> {
    above_streams(fs::open(rt, machine_path(path))?)
}

/// Returns the machine's path for a path that is read.
fn machine_path(path: &str) -> &str {
    if path == "-" { "/dev/stdin" } else { path }
}

/// Returns the file with a descriptor above those of the standard streams. If one of these was
/// closed when the program started, a file may get its number, and output for the stream would go
/// to the file.
fn above_streams(file: File) -> io::Result<File> {
    if file.as_raw_fd() <= 2 {
        return file.try_clone();
    }
    Ok(file)
}

/// Makes a file for a certificate, or empties the one at `path`. Refuses a file that holds anything
/// but a certificate, and the run's own under any name, before it is opened for writing.
pub(crate) fn for_certificate(rt: &HostRuntime, path: &str, own: &Own<'_>) -> io::Result<File> {
    match fs::metadata(rt, path) {
        Ok(found) if found.is_file() => emptied(rt, path, own),
        // A disk holds more than a certificate.
        Ok(found) if found.file_type().is_block_device() => Err(no_certificate()),
        // Anything else that is no regular file keeps nothing. A folder can't be opened for
        // writing.
        Ok(_) => above_streams(to_write().open(rt, path)?),
        Err(error) if error.kind() == ErrorKind::NotFound => made(rt, path),
        Err(error) => Err(error),
    }
}

fn to_write() -> OpenOptions {
    let mut options = OpenOptions::new();
    options.write(true);
    options
}

/// Makes a file that does not exist yet. If the path is a link, the file is made where it leads.
fn made(rt: &HostRuntime, path: &str) -> io::Result<File> {
    let file = above_streams(to_write().create(true).open(rt, path)?)?;
    // If another process has made the file meanwhile, it is not emptied.
    if file.metadata()?.len() > 0 {
        return Err(no_certificate());
    }
    Ok(file)
}

/// Empties a file that holds a certificate or nothing.
fn emptied(rt: &HostRuntime, path: &str, own: &Own<'_>) -> io::Result<File> {
    let mut there = fs::open(rt, path)?;
    let found = there.metadata()?;
    if is_own(rt, &found, own)? {
        return Err(own.error());
    }
    if !begins_as_certificate(&mut there)? {
        return Err(no_certificate());
    }
    let file = above_streams(to_write().open(rt, path)?)?;
    if !are_one(&found, &file.metadata()?) {
        return Err(io::Error::other("another file has this name now"));
    }
    file.set_len(0)?;
    Ok(file)
}

/// Empties the file that was made at `path`. Removes it if it is still there and not behind a link.
pub(crate) fn remove(rt: &HostRuntime, path: &str, file: &File) {
    let _ = file.set_len(0);
    let (Ok(made), Ok(there)) = (file.metadata(), fs::symlink_metadata(rt, path)) else {
        return;
    };
    if made.is_file() && are_one(&made, &there) {
        let _ = fs::remove_file(rt, path);
    }
}

fn no_certificate() -> io::Error {
    io::Error::other("no certificate stands in this file")
}

/// Returns whether a file is empty or begins like a certificate.
fn begins_as_certificate(file: &mut File) -> io::Result<bool> {
    let mut front = [0; 19];
    let count = file.read(&mut front)?;
    Ok(count == 0 || front == FRONT)
}

/// Returns whether both are the same file.
fn are_one(one: &Metadata, other: &Metadata) -> bool {
    one.dev() == other.dev() && one.ino() == other.ino()
}

/// Returns whether a file is the one at `path`, if there is one.
fn is_at(rt: &HostRuntime, found: &Metadata, path: &str) -> bool {
    match fs::metadata(rt, path) {
        Ok(other) => are_one(found, &other),
        Err(_) => false,
    }
}

/// Returns whether a file is the run's own, or the log (`-wal`) beside that.
fn is_own(rt: &HostRuntime, found: &Metadata, own: &Own<'_>) -> io::Result<bool> {
    let path = machine_path(own.path);
    if is_at(rt, found, path) {
        return Ok(true);
    }
    match fs::canonicalize(rt, path) {
        Ok(real) => {
            let log = format!(in rt.alloc(); "{}-wal", real.as_str())?;
            Ok(is_at(rt, found, log.as_str()))
        }
        Err(_) => Ok(false),
    }
}

/// Returns whether there is a whole certificate at `path`: a file that begins like a certificate
/// and whose last line is `end`.
pub(crate) fn has_whole_certificate(rt: &HostRuntime, path: &str) -> io::Result<bool> {
    let found = match fs::metadata(rt, path) {
        Ok(found) => found,
        Err(error) if error.kind() == ErrorKind::NotFound => return Ok(false),
        Err(error) => return Err(error),
    };
    if !found.is_file() || found.len() == 0 {
        return Ok(false);
    }
    let mut file = fs::open(rt, path)?;
    Ok(begins_as_certificate(&mut file)? && ends_whole(&file, found.len())?)
}

/// Returns whether the last line of a file of `length` bytes is `end`.
fn ends_whole(file: &File, length: u64) -> io::Result<bool> {
    let mut tail = [0; 6];
    let count = file.read_at(&mut tail, length.saturating_sub(6))?;
    let tail = &tail[..count];
    Ok(tail.ends_with(b"\nend") || tail.ends_with(b"\nend\n") || tail.ends_with(b"\nend\r\n"))
}

/// Checks that `path` is a folder in which files can be made. For that it makes a file with a name
/// that no level has, and removes it, unless that file exists already.
pub(crate) fn try_folder(rt: &HostRuntime, path: &str) -> io::Result<()> {
    if !fs::metadata(rt, path)?.is_dir() {
        return Err(io::Error::from(ErrorKind::NotADirectory));
    }
    let probe = format!(in rt.alloc(); "{path}/0.cert")?;
    match to_write().create_new(true).open(rt, probe.as_str()) {
        Ok(_made) => fs::remove_file(rt, probe.as_str()),
        Err(error) if error.kind() == ErrorKind::AlreadyExists => Ok(()),
        Err(error) => Err(error),
    }
}
