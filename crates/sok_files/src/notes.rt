//! What is reported beside the answer of a command: what failed, which certificates are too long to
//! be read, which lines of the input are almost lines of a board or begin with no id, why a text has
//! no level, and what the answer of `add`, `offers` or `settle` comes to. It is noted while the command
//! runs and reported when it has ended; only how many levels `settle` has left is shown meanwhile.

use crate::foreign::Foreign;
use crate::progress::Progress;
use crate::summary::Summary;
use crate::unnumbered::OfferScan;
use sok_book::escape::escape;
use sok_engine::output::write_whole;
use sok_near::scan::NearScan;
use std::cell::{Cell, RefCell};
use std::fmt::{self, InlineText, Write as _};
use std::fs;
use std::io::{self, Write};
use std::os::unix::fs::MetadataExt;

/// The path of a file, or the name of a stream, as it is reported. If it has more than 1,000 bytes,
/// it is cut and ends with three dots.
pub type Name = InlineText<1000>;

/// Returns the name of a file or stream as it is reported.
pub fn name_of(text: &str) -> Name {
    Name::of(Shown(text))
}

/// A text whose control characters are shown as `\x1b` is, so that a name can't look like another
/// line or move the cursor.
#[derive(Drop)]
struct Shown<'a>(&'a str);

impl fmt::Display for Shown<'_> {
    fn fmt<W: fmt::Write>(&self, f: &mut fmt::Formatter<W>) -> fmt::Result {
        for c in self.0.chars() {
            match u8::try_from(c as u32) {
                Ok(code) if c.is_control() => write_escaped(f, code)?,
                _ => f.write_char(c)?,
            }
        }
        Ok(())
    }
}

fn write_escaped<W: fmt::Write>(f: &mut fmt::Formatter<W>, code: u8) -> fmt::Result {
    for byte in escape(code) {
        f.write_char(char::from(byte))?;
    }
    Ok(())
}

/// What failed, and the reason if it is known.
#[derive(Clone, Copy)]
struct Failure {
    name: Name,
    cause: Option<io::Error>,
}

impl fmt::Display for Failure {
    fn fmt<W: fmt::Write>(&self, f: &mut fmt::Formatter<W>) -> fmt::Result {
        f.write_str("  ")?;
        f.write_str(self.name.as_str())?;
        match self.cause {
            Some(cause) => write!(f, ": {cause}"),
            None => Ok(()),
        }
    }
}

/// A file that was opened: its path, its device and its inode number.
#[derive(Drop)]
pub struct OpenedFile {
    path: String,
    device: u64,
    number: u64,
}

impl OpenedFile {
    /// Returns the file at a path.
    pub fn at(rt: &HostRuntime, path: &str) -> io::Result<OpenedFile> {
        let found = fs::metadata(rt, path)?;
        Ok(OpenedFile {
            path: String::from_str(rt.alloc(), path)?,
            device: found.dev(),
            number: found.ino(),
        })
    }

    /// Returns whether the path still leads to the file.
    fn is_there(&self, rt: &HostRuntime) -> io::Result<bool> {
        let found = fs::metadata(rt, self.path.as_str())?;
        Ok(found.dev() == self.device && found.ino() == self.number)
    }
}

/// A database that was opened to be changed, and what the answer says of it so far.
#[derive(Drop)]
struct Changing {
    file: OpenedFile,
    /// Whether the command takes levels from the text that it reads.
    takes_levels: bool,
    summary: Summary,
}

/// What is noted while a command runs.
#[derive(Drop)]
pub struct Notes {
    failure: Cell<Option<Failure>>,
    /// Whether the text that is read is a certificate. `None` until its first bytes are read.
    is_other: Cell<Option<bool>>,
    near: RefCell<NearScan>,
    foreign: RefCell<Foreign>,
    /// The lines that begin with no id, if the text that is read is one of offers.
    offers: RefCell<Option<OfferScan>>,
    /// Whether a text was read to its end.
    has_read: Cell<bool>,
    database: RefCell<Option<Changing>>,
    progress: Progress,
    /// The first certificate that is longer than one that is read, and how many follow.
    long: Cell<Option<Name>>,
    more_long: Cell<u64>,
    /// Whether the answer has bytes.
    has_answered: Cell<bool>,
    /// Whether nobody reads the answer any more, as behind `| head`.
    is_unread: Cell<bool>,
}

impl Notes {
    /// Returns empty notes.
    pub fn new(rt: HostRuntime) -> Notes {
        Notes {
            failure: Cell::new(None),
            is_other: Cell::new(None),
            near: RefCell::new(NearScan::new()),
            foreign: RefCell::new(Foreign::new()),
            offers: RefCell::new(None),
            has_read: Cell::new(false),
            database: RefCell::new(None),
            progress: Progress::new(rt),
            long: Cell::new(None),
            more_long: Cell::new(0),
            has_answered: Cell::new(false),
            is_unread: Cell::new(false),
        }
    }

    /// Notes the file that was opened as a database to be changed, how many levels are in it, and
    /// whether the command adds the levels of a text to them.
    pub fn set_database(&self, file: OpenedFile, levels: u32, takes_levels: bool) {
        if let Ok(mut database) = self.database.try_borrow_mut() {
            *database = Some(Changing {
                file,
                takes_levels,
                summary: Summary::new(levels),
            });
        }
    }

    /// Notes that the text that is read is one of offers.
    pub fn expect_offers(&self) {
        if let Ok(mut offers) = self.offers.try_borrow_mut() {
            *offers = Some(OfferScan::new());
        }
    }

    /// Returns how far `settle` has come.
    pub fn progress(&self) -> &Progress {
        &self.progress
    }

    /// Returns whether the path of that file still leads to it, or true if there is none. If it
    /// does not, that is noted as a failure.
    pub fn database_stands(&self, rt: &HostRuntime) -> bool {
        match self.database.try_borrow() {
            Ok(database) => match &*database {
                Some(changing) => self.stands(rt, &changing.file),
                None => true,
            },
            Err(_) => true,
        }
    }

    fn stands(&self, rt: &HostRuntime, file: &OpenedFile) -> bool {
        match file.is_there(rt) {
            Ok(true) => true,
            Ok(false) => {
                let cause = io::Error::other("another file has this name now");
                self.fail(name_of(file.path.as_str()), Some(cause));
                false
            }
            Err(error) => {
                self.fail(name_of(file.path.as_str()), Some(error));
                false
            }
        }
    }

    /// Notes what failed, unless a failure was noted before: the first one is what ends a command.
    pub fn fail(&self, name: Name, cause: Option<io::Error>) {
        if self.failure.get().is_none() {
            self.failure.set(Some(Failure { name, cause }));
        }
    }

    /// Notes a certificate that is longer than one that is read.
    pub fn add_long(&self, name: Name) {
        if self.long.get().is_none() {
            self.long.set(Some(name));
        } else {
            self.more_long.set(self.more_long.get().saturating_add(1));
        }
    }

    /// Notes bytes of the answer that were written. Its lines are counted if they are about a
    /// database that is changed.
    pub fn answer(&self, bytes: &[u8]) {
        if !bytes.is_empty() {
            self.has_answered.set(true);
        }
        if let Ok(mut database) = self.database.try_borrow_mut() {
            if let Some(changing) = &mut *database {
                changing.summary.pass(bytes);
            }
        }
    }

    /// Notes that nobody reads the answer any more.
    pub fn set_unread(&self) {
        self.is_unread.set(true);
    }

    /// Returns whether nobody reads the answer any more.
    pub fn is_unread(&self) -> bool {
        self.is_unread.get()
    }

    /// Searches bytes that were read for lines that are almost lines of a board, and for signs that
    /// no level can be read from them. No bytes mean that the text has ended. A certificate is
    /// skipped: it is long and has no such line.
    pub fn pass(&self, bytes: &[u8]) {
        let is_other = match self.is_other.get() {
            Some(is_other) => is_other,
            None => bytes.starts_with(b"sokoban-certificate "),
        };
        let has_ended = bytes.is_empty();
        self.is_other
            .set(if has_ended { None } else { Some(is_other) });
        if has_ended {
            self.has_read.set(true);
        }
        if !self.is_of_offers(bytes) && !is_other {
            self.look(bytes);
        }
    }

    /// Returns whether the text is one of offers. If it is, its bytes are searched for lines that
    /// begin with no id.
    fn is_of_offers(&self, bytes: &[u8]) -> bool {
        match self.offers.try_borrow_mut() {
            Ok(mut offers) => match &mut *offers {
                Some(scan) => {
                    scan.pass(bytes);
                    true
                }
                None => false,
            },
            Err(_) => false,
        }
    }

    fn look(&self, bytes: &[u8]) {
        if let Ok(mut near) = self.near.try_borrow_mut() {
            if bytes.is_empty() {
                near.end();
            } else {
                near.pass(bytes);
            }
        }
        if let Ok(mut foreign) = self.foreign.try_borrow_mut() {
            if bytes.is_empty() {
                foreign.end();
            } else {
                foreign.pass(bytes);
            }
        }
    }

    /// Writes what was noted: what failed, if the exit status is 5, that of a device; the level at
    /// which it is 6, since memory was refused; certificates that are too long to be read; the first
    /// ten of the noted lines, and how many more there are; that no level was found; and what the
    /// answer comes to.
    pub fn tell<E: Write>(&self, status: u8, err: &mut E) {
        self.progress.clear();
        match (status, self.failure.get(), self.progress.level()) {
            (5, Some(failure), _) => tell_line(failure, err),
            (6, _, Some(id)) => tell_line(format_args!("  level {id}"), err),
            _ => {}
        }
        self.tell_long(err);
        if let Ok(near) = self.near.try_borrow() {
            tell_first(near.first(), near.count(), err);
        }
        if let Ok(offers) = self.offers.try_borrow() {
            if let Some(scan) = &*offers {
                tell_first(scan.first(), scan.count(), err);
            }
        }
        if self.takes_levels() {
            self.tell_no_level(status, err);
        }
        if let Ok(database) = self.database.try_borrow() {
            if let Some(changing) = &*database {
                tell_summary(&changing.summary, err);
            }
        }
    }

    /// Writes the first certificate that is longer than one that is read, and how many follow.
    fn tell_long<E: Write>(&self, err: &mut E) {
        if let Some(name) = self.long.get() {
            let name = name.as_str();
            tell_line(
                format_args!("{name}: longer than check and prove read"),
                err,
            );
        }
        let more = self.more_long.get();
        if more > 0 {
            tell_line(format_args!("{more} more such files"), err);
        }
    }

    /// Returns whether a text that the command reads is one of levels.
    fn takes_levels(&self) -> bool {
        match self.database.try_borrow() {
            Ok(database) => match &*database {
                Some(changing) => changing.takes_levels,
                None => true,
            },
            Err(_) => false,
        }
    }

    /// Writes that no level was found, if a text was read and there is nothing to answer of it, or
    /// if an input is refused and no level can be read from it. Says why, if its bytes show that.
    fn tell_no_level<E: Write>(&self, status: u8, err: &mut E) {
        let sign = match self.foreign.try_borrow() {
            Ok(foreign) => foreign.sign(),
            Err(_) => None,
        };
        let is_empty = status == 0 && self.has_read.get() && !self.has_answered.get();
        match sign {
            Some(sign) if is_empty || status == 3 => {
                tell_line(format_args!("no level was found: {sign}"), err);
            }
            None if is_empty => tell_line("no level was found", err),
            _ => {}
        }
    }
}

/// Writes what the lines of an answer come to, if some were counted.
fn tell_summary<E: Write>(summary: &Summary, err: &mut E) {
    if !summary.is_empty() {
        tell_line(summary, err);
    }
}

/// Writes the first ten of `count` noted lines, and how many more there are.
fn tell_first<D: fmt::Display + Copy, E: Write>(first: &[D], count: u64, err: &mut E) {
    for noted in first {
        tell_line(*noted, err);
    }
    let more = count.saturating_sub(10);
    if more > 0 {
        tell_line(format_args!("{more} more such lines"), err);
    }
}

/// Writes a line, by one write if the stream takes it whole.
fn tell_line<D: fmt::Display + Drop, E: Write>(words: D, err: &mut E) {
    let mut line = InlineText::<1400>::new();
    let _ = line.writeln(words);
    let _ = write_whole(err, line.as_str().as_bytes());
}
