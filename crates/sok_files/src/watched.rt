//! Wrappers that watch files and streams. They pass each call on, so the contracts are those of the
//! inner value, and note what fails and what is read.

ghost use Rattle.std.specs.Prelude.{◌≡◌};
ghost use Rattle.sok_files.specs.Files.{with_makes};

use crate::folder::Folder;
use crate::notes::{Name, Notes, name_of};
use crate::own::Own;
use sok_engine::input::CERT_LIMIT;
use std::alloc::Global;
use std::cell::Cell;
use std::io::{self, ErrorKind, Read, Write};

/// A watched folder, or anything else that opens by paths.
#[derive(Drop)]
pub struct Watched<'a, F> {
    inner: &'a F,
    notes: &'a Notes,
}

impl<'a, F> Watched<'a, F> {
    pub fn new(inner: &'a F, notes: &'a Notes) -> Watched<'a, F>
        ensures { result.inner.now ≡ inner.now }
    {
        Watched { inner, notes }
    }

    /// Returns the inner value.
    pub fn inner(&self) -> &'a F
        ensures { result.now ≡ self.now.inner.now }
    {
        self.inner
    }

    /// Returns the notes.
    pub fn notes(&self) -> &'a Notes {
        self.notes
    }

    /// Notes that the file at `path` failed.
    pub fn fail(&self, path: &str, cause: Option<io::Error>) {
        self.notes.fail(name_of(path), cause);
    }
}

impl<'a, F: AllocGlobal> Alloc for Watched<'a, F> {
    type A = Global;

    fn alloc(&self) -> Global {
        self.inner.alloc()
    }
}

impl<'a, F: Folder> Folder for Watched<'a, F> {
    type Input = WatchedInput<'a, F::Input>;

    type Output = WatchedOutput<'a, F::Output>;

    ghost files = { λ watched. with_makes (F.files watched.inner.now)
        (λ path file. (F.files watched.inner.now).makes path file.inner) };

    fn open(&self, path: &str) -> io::Result<WatchedInput<'a, F::Input>> {
        match self.inner.open(path) {
            Ok(file) => Ok(WatchedInput::new(file, path, self.notes)),
            Err(error) => {
                self.fail(path, Some(error));
                Err(error)
            }
        }
    }

    fn create(&self, path: &str, own: &Own<'_>) -> io::Result<WatchedOutput<'a, F::Output>> {
        match self.inner.create(path, own) {
            Ok(file) => Ok(WatchedOutput::new(file, path, self.notes)),
            Err(error) => {
                self.fail(path, Some(error));
                Err(error)
            }
        }
    }

    fn has_certificate(&self, path: &str) -> io::Result<bool> {
        match self.inner.has_certificate(path) {
            Ok(whole) => Ok(whole),
            Err(error) => {
                self.fail(path, Some(error));
                Err(error)
            }
        }
    }

    fn try_folder(&self, path: &str) -> io::Result<()> {
        match self.inner.try_folder(path) {
            Ok(()) => Ok(()),
            Err(error) => {
                self.fail(path, Some(error));
                Err(error)
            }
        }
    }

    fn remove(&self, path: &str, file: &WatchedOutput<'a, F::Output>) {
        self.inner.remove(path, &file.inner);
    }

    fn note(&self, path: &str, cause: &'static str) {
        self.fail(path, Some(io::Error::other(cause)));
    }
}

/// A watched reader.
#[derive(Drop)]
pub struct WatchedInput<'a, R> {
    inner: R,
    name: Name,
    notes: &'a Notes,
}

impl<'a, R> WatchedInput<'a, R> {
    /// Watches `inner`. Failures are reported under `name`.
    pub fn new(inner: R, name: &str, notes: &'a Notes) -> WatchedInput<'a, R>
        ensures { result.inner ≡ inner }
    {
        WatchedInput {
            inner,
            name: name_of(name),
            notes,
        }
    }
}

impl<'a, R: Read> Read for WatchedInput<'a, R> {
    ghost remaining = { λ input. R.remaining input.inner };

    fn read(&mut self, buf: &mut [u8]) -> io::Result<usize> {
        match self.inner.read(buf) {
            Ok(count) => {
                self.notes.pass(&buf[..count]);
                Ok(count)
            }
            Err(error) => {
                self.notes.fail(self.name, Some(error));
                Err(error)
            }
        }
    }
}

/// A watched writer.
#[derive(Drop)]
pub struct WatchedOutput<'a, W> {
    inner: W,
    name: Name,
    /// Whether the answer of the command is written to it. If not, it is a certificate.
    is_answer: bool,
    /// How many bytes of a certificate were written.
    length: Cell<usize>,
    notes: &'a Notes,
}

impl<'a, W> WatchedOutput<'a, W> {
    /// Watches the file for a certificate at a path.
    pub fn new(inner: W, path: &str, notes: &'a Notes) -> WatchedOutput<'a, W>
        ensures { result.inner ≡ inner }
    {
        WatchedOutput {
            inner,
            name: name_of(path),
            is_answer: false,
            length: Cell::new(0),
            notes,
        }
    }

    /// Watches the standard output, to which the answer is written.
    pub fn of_answer(inner: W, notes: &'a Notes) -> WatchedOutput<'a, W>
        ensures { result.inner ≡ inner }
    {
        WatchedOutput {
            inner,
            name: name_of("standard output"),
            is_answer: true,
            length: Cell::new(0),
            notes,
        }
    }

    /// Notes that these bytes were written.
    fn note(&self, bytes: &[u8]) {
        if self.is_answer {
            self.notes.answer(bytes);
        } else {
            self.count(bytes.len());
        }
    }

    /// Notes the certificate once it is longer than one that is read.
    fn count(&self, more: usize) {
        let before = self.length.get();
        let length = before.saturating_add(more);
        self.length.set(length);
        if before <= CERT_LIMIT && length > CERT_LIMIT {
            self.notes.add_long(self.name);
        }
    }

    /// Notes why nothing was written.
    fn fail(&self, cause: io::Error) {
        if self.is_answer && cause.kind() == ErrorKind::BrokenPipe {
            self.notes.set_unread();
        }
        self.notes.fail(self.name, Some(cause));
    }
}

impl<'a, W: Write> Write for WatchedOutput<'a, W> {
    ghost contents = { λ output. W.contents output.inner };

    fn write(&mut self, buf: &[u8]) -> io::Result<usize> {
        if self.is_answer {
            self.notes.progress().make_room();
        }
        match self.inner.write(buf) {
            Ok(0) => {
                self.fail(io::Error::from(ErrorKind::WriteZero));
                Ok(0)
            }
            Ok(count) => {
                self.note(&buf[..count]);
                Ok(count)
            }
            Err(error) => {
                self.fail(error);
                Err(error)
            }
        }
    }

    fn flush(&mut self) -> io::Result<()> {
        self.inner.flush()
    }
}

/// The error stream. It takes nothing once nobody reads the answer any more, as behind `| head`.
#[derive(Drop)]
pub struct WatchedErrors<'a, E> {
    inner: E,
    notes: &'a Notes,
}

impl<'a, E> WatchedErrors<'a, E> {
    pub fn new(inner: E, notes: &'a Notes) -> WatchedErrors<'a, E>
        ensures { result.inner ≡ inner }
    {
        WatchedErrors { inner, notes }
    }
}

impl<'a, E: Write> Write for WatchedErrors<'a, E> {
    ghost contents = { λ errors. E.contents errors.inner };

    fn write(&mut self, buf: &[u8]) -> io::Result<usize> {
        if self.notes.is_unread() {
            return Err(io::Error::from(ErrorKind::BrokenPipe));
        }
        self.notes.progress().clear();
        self.inner.write(buf)
    }

    fn flush(&mut self) -> io::Result<()> {
        self.inner.flush()
    }
}
