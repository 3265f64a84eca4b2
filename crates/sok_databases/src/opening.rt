//! Opening the databases in files of the machine, and why one can't be opened.

ghost use Rattle.std.specs.Prelude.{◌≡◌, ◌⊎◌};
ghost use Rattle.sok_book.specs.declared.fault.BookFault.TheVariants as refusal;
ghost use Rattle.sok_engine.specs.declared.fault.ToolFault.TheVariants as tool;

use crate::book_file::BookFile;
use crate::copying::copy;
use crate::databases::Access;
use crate::standing::{Found, found_at, has_log, is_dangling};
use sok_book::fault::BookFault;
use sok_engine::fault::ToolFault;
use sok_files::notes::Name;
use sok_files::watched::Watched;
use sok_store::fault::fault_of;
use sqlite::{Connection, Error, ErrorCode, FileStore, Files, Options, Unknown};
use sqlite_std_file::OpenError;
use std::alloc::AllocError;
use std::fmt::InlineText;
use std::hash::{BuildHasher, RandomState};
use std::io::{self, ErrorKind};
use std::thread;
use std::time::Duration;

/// Why a file at a path, or beside it, is not opened.
#[derive(Clone, Copy)]
pub(crate) enum Unfit {
    NoPath,
    Dangling,
    Folder,
    NoFile,
    OtherName,
    NoDatabase,
    NoBook,
    Journal,
    NoLog,
    LostDatabase,
    NoSeed,
}

impl Unfit {
    fn words(self) -> &'static str {
        match self {
            Unfit::NoPath => "SQLite reads this word as no path",
            Unfit::Dangling => "a link with this name leads nowhere",
            Unfit::Folder => "a folder has this name",
            Unfit::NoFile => "what has this name is no file",
            Unfit::OtherName => "the file has another name, too",
            Unfit::NoDatabase => "the file is no database",
            Unfit::NoBook => "there is no book in this database",
            Unfit::Journal => "a rollback journal is beside it, which only SQLite can play back",
            Unfit::NoLog => "the file is no log of a database",
            Unfit::LostDatabase => "it has changes of a database that is not there",
            Unfit::NoSeed => "no random number can be had",
        }
    }
}

/// Why a database is not opened.
#[derive(Clone, Copy)]
pub(crate) enum Unopened {
    /// There is no file that can be read, and none may be made.
    Unread(io::Error),
    /// What is at the path can't be opened as a database.
    Unfit(Unfit),
    /// The log can't be read.
    LogUnread(io::Error),
    /// What has the name of its log can't be used as the log.
    LogUnfit(Unfit),
    /// The database was refused with this error.
    Refused(Error),
}

impl Unopened {
    /// Memory was refused.
    pub(crate) const MEMORY: Unopened = Unopened::Refused(Error::SqliteFailure(
        ErrorCode::OutOfMemory,
    ));

    /// Another process has the database open, or has changed it.
    pub(crate) const BUSY: Unopened = Unopened::Refused(Error::SqliteFailure(
        ErrorCode::DatabaseBusy,
    ));

    pub(crate) fn fault(self) -> ToolFault
        ensures { (result ≡ tool.Memory) ⊎ (result ≡ tool.Book refusal.Database) }
    {
        match self {
            Unopened::Refused(error) => ToolFault::from(fault_of(error)),
            _ => ToolFault::Book(BookFault::Database),
        }
    }

    /// Returns the same reason, but about the log and not its database.
    pub(crate) fn of_log(self) -> Unopened {
        match self {
            Unopened::Unread(error) => Unopened::LogUnread(error),
            Unopened::Unfit(cause) => Unopened::LogUnfit(cause),
            other => other,
        }
    }

    /// Returns the reason in words.
    pub(crate) fn error(self) -> io::Error {
        match self {
            Unopened::Unread(error) | Unopened::LogUnread(error) => error,
            Unopened::Unfit(cause) | Unopened::LogUnfit(cause) => io::Error::other(cause.words()),
            Unopened::Refused(error) => io::Error::other(InlineText::<80>::of(error).as_str()),
        }
    }

    /// Notes the reason under the path of the database or that of its log.
    pub(crate) fn note<F>(self, watched: &Watched<'_, F>, path: &str) {
        match self {
            Unopened::LogUnread(_) | Unopened::LogUnfit(_) => {
                watched.fail(
                    Name::of(format_args!("{path}-wal")).as_str(),
                    Some(self.error()),
                );
            }
            _ => watched.fail(path, Some(self.error())),
        }
    }
}

impl From<AllocError> for Unopened {
    fn from(_error: AllocError) -> Unopened {
        Unopened::MEMORY
    }
}

impl From<io::Error> for Unopened {
    fn from(error: io::Error) -> Unopened {
        match error.kind() {
            ErrorKind::OutOfMemory => Unopened::MEMORY,
            _ => Unopened::Unread(error),
        }
    }
}

impl From<OpenError> for Unopened {
    fn from(error: OpenError) -> Unopened {
        match error {
            OpenError::OutOfMemory => Unopened::MEMORY,
            OpenError::Busy => Unopened::BUSY,
            OpenError::HotJournal => Unopened::Unfit(Unfit::Journal),
            OpenError::Io(error) => Unopened::from(error),
        }
    }
}

/// Opens the database at a path, or makes an empty one if there is none and `access` allows it. It
/// is first read into memory to see that it has a book, so that nothing is written to the database
/// of another program. For `Access::Read`, this copy is returned.
pub(crate) fn open(
    rt: &HostRuntime,
    path: &str,
    access: Access,
) -> Result<Connection<FileStore<BookFile>>, Unopened> {
    if path == ":memory:" || path.starts_with("file:") {
        return Err(Unopened::Unfit(Unfit::NoPath));
    }
    match found_at(rt, path) {
        Found::Nothing(_) if is_dangling(rt, path) => { Err(Unopened::Unfit(Unfit::Dangling)) }
        Found::Nothing(error) if access == Access::Make && error.kind() == ErrorKind::NotFound => {
            make(rt, path)
        }
        Found::Nothing(error) => Err(Unopened::Unread(error)),
        Found::Empty if access == Access::Make => make(rt, path),
        Found::Empty => Err(Unopened::Unfit(Unfit::NoBook)),
        Found::Database => open_there(rt, path, access),
        Found::Other => Err(Unopened::Unfit(Unfit::NoDatabase)),
    }
}

/// Makes a database where there is no file or an empty one.
fn make(rt: &HostRuntime, path: &str) -> Result<Connection<FileStore<BookFile>>, Unopened> {
    if has_log(rt, path)? {
        return Err(Unopened::LogUnfit(Unfit::LostDatabase));
    }
    in_turn(rt, || connect(rt, path, Access::Make))
}

/// Opens a database that exists.
fn open_there(
    rt: &HostRuntime,
    path: &str,
    access: Access,
) -> Result<Connection<FileStore<BookFile>>, Unopened> {
    let copied = copy(rt, path)?;
    match tables_in(&copied) {
        Tables::Levels => {}
        Tables::None if access == Access::Make => {}
        _ => return Err(Unopened::Unfit(Unfit::NoBook)),
    }
    if access == Access::Read {
        return Ok(copied);
    }
    drop(copied);
    in_turn(rt, || connect(rt, path, access))
}

/// Which tables a database has.
#[derive(Clone, Copy)]
pub(crate) enum Tables {
    None,
    /// One of levels, and perhaps others.
    Levels,
    /// Others alone.
    Others,
}

/// Returns which tables a database has.
pub(crate) fn tables_in(connection: &Connection<FileStore<BookFile>>) -> Tables {
    let tables = connection.schema().tables.as_slice();
    if tables.is_empty() {
        return Tables::None;
    }
    for table in tables {
        if table.name.as_slice() == b"level".as_slice() {
            return Tables::Levels;
        }
    }
    Tables::Others
}

/// Returns how many pages the log of a database may have before it is copied into the database
/// file. A page takes up to two waits for the disk, and a copy takes four. With 128 pages, lines of
/// offers lose a twentieth of their speed, and on a disk that answers within 8 ms the changes are
/// in the file within a second. `Settle` writes rarely, so each change is copied at once.
fn pages_of_log(access: Access) -> usize {
    match access {
        Access::Settle => 1,
        _ => 128,
    }
}

/// Opens a database in its own files, and makes those that are missing.
fn connect(
    rt: &HostRuntime,
    path: &str,
    access: Access,
) -> Result<Connection<FileStore<BookFile>>, Unopened> {
    let Ok(state) = RandomState::new(rt) else {
        return Err(Unopened::Unfit(Unfit::NoSeed));
    };
    let Files { log, db } = sqlite_std_file::open(rt, path, Unknown)?;
    let files = Files {
        log: BookFile::Machine(log),
        db: BookFile::Machine(db),
    };
    let options = Options {
        checkpoint_frames: pages_of_log(access),
        ..Options::new(state.hash_one(&0u8))
    };
    match Connection::open_files(rt.alloc(), files, options) {
        Ok(connection) => Ok(connection),
        Err((error, _)) => Err(Unopened::Refused(error)),
    }
}

/// How often a database is tried that another process is using.
const TRIES: u32 = 40;

/// The pause after such a try, in milliseconds.
const PAUSE: u64 = 50;

/// Returns the result of `attempt`. While the database is busy, tries again, for about two seconds.
pub(crate) fn in_turn<T, F: Fn() -> Result<T, Unopened>>(
    rt: &HostRuntime,
    attempt: F,
) -> Result<T, Unopened>
    requires { F.IsAlwaysCallable attempt }
{
    for _ in 0..TRIES {
        match attempt() {
            Err(Unopened::Refused(Error::SqliteFailure(ErrorCode::DatabaseBusy))) => {
                thread::sleep(rt, Duration::from_millis(PAUSE));
            }
            ended => return ended,
        }
    }
    Err(Unopened::BUSY)
}
