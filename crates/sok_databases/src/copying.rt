//! A copy of a database in memory, for a command that changes nothing. It holds what was last
//! committed. No lock is taken and nothing is written, so the database may be read-only, and other
//! processes may be using it.
//!
//! A process that changes a database writes a page to the log first, and to the database file only
//! once the log has it. The page stays in the log until the log is begun anew, with another salt in
//! its header. So if the header is the same before the database file is read and after the log is,
//! each page written in between is in the log, and the file under the log is what was last
//! committed. A write to the log in progress ends the log, as after a crash. A log may also be
//! made, copied and emptied in between: then the database file was written, and its time of change
//! shows it.

ghost use Rattle.std.specs.Prelude.{◌≡◌, IfOk, IsTrue};
ghost use Rattle.sqlite_disk.specs.Memory.{memory_bytes, memory_is_usable};
ghost use Rattle.sqlite.specs.State.{HasCleanDisk};
ghost use Rattle.sqlite.specs.Start.{FindsIn};
ghost use Rattle.sqlite.specs.Files.{file_state};

use crate::book_file::BookFile;
use crate::opening::{Unfit, Unopened, in_turn};
use crate::standing::{file_at, front_of, log_front};
use sqlite::{Connection, Error, ErrorCode, FileStore, Files, Options};
use sqlite_disk::{Disk, Memory};
use std::alloc::Global;
use std::fs;
use std::io::{self, ErrorKind, Read};
use std::os::unix::fs::MetadataExt;

/// Opens a copy of the database at a path.
pub(crate) fn copy(
    rt: &HostRuntime,
    path: &str,
) -> Result<Connection<FileStore<BookFile>>, Unopened> {
    // The log is beside the file that a link leads to, as when a database is opened.
    let real = fs::canonicalize(rt, path)?;
    let contents = in_turn(rt, || read(rt, real.as_str()))?;
    connect(rt.alloc(), contents)
}

/// What the files of a database hold.
#[derive(Drop)]
struct Contents {
    log: Vec<u8>,
    db: Vec<u8>,
}

/// Reads the files of a database. Returns `BUSY` if the log is begun anew or the database file is
/// written in the meantime.
fn read(rt: &HostRuntime, path: &str) -> Result<Contents, Unopened> {
    let log_path = format!(in rt.alloc(); "{path}-wal")?;
    let journal_path = format!(in rt.alloc(); "{path}-journal")?;
    let begun = log_front(rt, log_path.as_str())?;
    let written = written_at(rt, path)?;
    let Some(db) = bytes_of(rt, path)? else {
        return Err(Unopened::Unread(io::Error::from(ErrorKind::NotFound)));
    };
    let log = match bytes_of(rt, log_path.as_str()) {
        Ok(log) => log.unwrap_or(Vec::new(rt.alloc())),
        Err(cause) => return Err(cause.of_log()),
    };
    // A rollback journal can only be played back by SQLite. One that is empty or begins with a zero
    // has nothing to play back.
    if front_of(rt, journal_path.as_str())?[0] != 0 {
        return Err(Unopened::Unfit(Unfit::Journal));
    }
    if log_front(rt, log_path.as_str())? != begun || written_at(rt, path)? != written {
        return Err(Unopened::BUSY);
    }
    Ok(Contents { log, db })
}

/// Returns the bytes of a file, if there is one.
fn bytes_of(rt: &HostRuntime, path: &str) -> Result<Option<Vec<u8>>, Unopened> {
    let Some(mut file) = file_at(rt, path)? else {
        return Ok(None);
    };
    let mut bytes = Vec::new(rt.alloc());
    file.read_to_end(&mut bytes)?;
    Ok(Some(bytes))
}

/// Returns when a file was last written: seconds and nanoseconds.
fn written_at(rt: &HostRuntime, path: &str) -> Result<(i64, i64), Unopened> {
    let found = fs::metadata(rt, path)?;
    Ok((found.mtime(), found.mtime_nsec()))
}

/// Opens a database whose files are in memory.
fn connect(alloc: Global, contents: Contents) -> Result<Connection<FileStore<BookFile>>, Unopened>
    ensures { IfOk result (λ c. HasCleanDisk (file_state c)
        → FindsIn (record { log = contents.log.items; db = contents.db.items }) (file_state c)) }
{
    let files = Files {
        log: BookFile::Copy(file_of(alloc, contents.log)?),
        db: BookFile::Copy(file_of(alloc, contents.db)?),
    };
    // No other process reads the log of a copy, so its salts need not differ from those of others.
    match Connection::open_files(alloc, files, Options::new(0)) {
        Ok(connection) => Ok(connection),
        // A file in memory fails only for want of memory.
        Err((Error::SqliteFailure(ErrorCode::SystemIoFailure), _)) => Err(Unopened::MEMORY),
        Err((error, _)) => Err(Unopened::Refused(error)),
    }
}

/// Returns a file in memory that holds these bytes.
fn file_of(alloc: Global, bytes: Vec<u8>) -> io::Result<Memory>
    ensures holds { IfOk result (λ file. memory_bytes file ≡ bytes.items) }
    ensures usable { IfOk result (λ file. IsTrue (memory_is_usable file)) }
{
    let mut file = Memory::new(alloc);
    file.write_at(0, bytes.as_slice())?;
    Ok(file)
}
