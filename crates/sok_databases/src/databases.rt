//! Databases by their paths.

ghost use Rattle.std.specs.Prelude.{◌≡◌, ◌⊎◌, IfErr, IfOk, MatchBool, ⊤};
ghost use Rattle.sok_book.specs.declared.fault.BookFault.TheVariants as refusal;
ghost use Rattle.sok_engine.specs.declared.fault.ToolFault.TheVariants as tool;
ghost use Rattle.sok_databases.specs.Known.{KnownDatabases, MayOpen, unknown_databases};

use crate::book_file::BookFile;
use crate::opening::{Tables, Unopened, open, tables_in};
use sok_book::fault::BookFault;
use sok_engine::fault::ToolFault;
use sok_files::notes::{Notes, OpenedFile};
use sok_files::watched::Watched;
use sok_sql::reading::count;
use sok_store::rule::broken_rule;
use sqlite::{Connection, FileStore};
use std::io;

/// How a database is opened.
#[derive(Clone, Copy, PartialEq, Eq)]
pub enum Access {
    /// To be changed. If there is none, an empty one is made.
    Make,
    /// To be changed. It is refused if there is none.
    Change,
    /// Like `Change`, for changes that are rare: each is copied into the database file at once.
    Settle,
    /// To be read, as it was last committed. It may be in use or read-only: nothing is written to
    /// it or beside it. It is refused if there is none.
    Read,
}

/// Databases by their paths. Those in files of the machine are one implementation.
pub trait Databases {
    type Opened: Drop;

    // What is known of the databases, and which of them may be made or changed.
    ghost databases: { Self → KnownDatabases Self.Opened };

    /// Opens the database at a path, or makes an empty one if there is none and `access` allows it.
    /// Errors: `Memory`; `Database` if it can't be opened for another reason.
    fn database(&self, path: &str, access: Access) -> Result<Self::Opened, ToolFault>
        requires { MayOpen (databases self.now) access path.now }
        ensures opened { IfOk result ((databases self.now).opens_as access path.now) }
        ensures refuses { IfErr result ((databases self.now).refuses path.now) }
        ensures refused { IfErr result
            (λ fault. (fault ≡ tool.Memory) ⊎ (fault ≡ tool.Book refusal.Database)) };

    /// Returns whether the path of the database that was last opened to be changed still leads to
    /// its file, or true if none was. If it does not, the book that has the path now lacks the
    /// changes.
    fn stands(&self) -> bool
        ensures { MatchBool result (databases self.now).stood (databases self.now).moves };

    /// Takes a connection back when the work on the database at a path is done.
    fn close(&self, path: &str, connection: Self::Opened)
        ensures { (databases self.now).closes_as path.now connection };

    /// Takes a connection back to a database that is no book, for this fault. Notes which rule a
    /// row breaks.
    fn refuse(&self, path: &str, connection: Self::Opened, fault: BookFault)
        ensures { (databases self.now).closes_as path.now connection };

    /// Returns the notes of the run.
    fn notes(&self) -> &Notes;
}

/// The databases of the machine. No contract knows what they hold. The reason why one can't be
/// opened is noted.
impl Databases for Watched<'_, HostRuntime> {
    type Opened = Connection<FileStore<BookFile>>;

    ghost databases = { λ _. unknown_databases };

    fn database(
        &self,
        path: &str,
        access: Access,
    ) -> Result<Connection<FileStore<BookFile>>, ToolFault> {
        match noted(self, path, access) {
            Ok(connection) => Ok(connection),
            Err(cause) => {
                cause.note(self, path);
                Err(cause.fault())
            }
        }
    }

    fn stands(&self) -> bool {
        self.notes().database_stands(self.inner())
    }

    fn close(&self, path: &str, connection: Connection<FileStore<BookFile>>)
        ensures { ⊤ }
    {
        // Closing copies the log into the database file. If that fails, the next open reads the
        // log. The files of a copy are both in memory.
        let cause = match connection.close() {
            Ok(()) => None,
            Err(error) => Some(Unopened::Refused(error).error()),
        };
        // If nothing else was noted, a device fault is one of the database. Without a device fault
        // the note is not reported.
        self.fail(path, cause);
    }

    fn refuse(&self, path: &str, connection: Connection<FileStore<BookFile>>, fault: BookFault)
        ensures { ⊤ }
    {
        let mut connection = connection;
        if let BookFault::BadBook(id) = fault {
            if let Some(rule) = broken_rule(&mut connection, self.inner().alloc(), id) {
                self.fail(path, Some(io::Error::other(rule.words())));
            }
        }
        self.close(path, connection);
    }

    fn notes(&self) -> &Notes {
        Watched::notes(self)
    }
}

/// Opens a database. If it is to be changed, notes its file, and how many levels are in it.
fn noted(
    watched: &Watched<'_, HostRuntime>,
    path: &str,
    access: Access,
) -> Result<Connection<FileStore<BookFile>>, Unopened> {
    let mut connection = open(watched.inner(), path, access)?;
    if access != Access::Read {
        let levels = levels_in(&mut connection)?;
        let file = OpenedFile::at(watched.inner(), path)?;
        watched
            .notes()
            .set_database(file, levels, access == Access::Make);
    }
    Ok(connection)
}

/// Returns how many levels are in a database. An empty one has none.
fn levels_in(connection: &mut Connection<FileStore<BookFile>>) -> Result<u32, Unopened> {
    if !matches!(tables_in(connection), Tables::Levels) {
        return Ok(0);
    }
    match count(connection) {
        Ok(levels) => Ok(levels),
        Err(error) => Err(Unopened::Refused(error)),
    }
}
