//! The output of a command that changes a book.

ghost use Rattle.std.specs.Prelude.{◌≡◌, OnOk};
ghost use Rattle.std.specs.Io.{WritesAtMost};
ghost use Rattle.std.specs.Io.KnownBytes.{WriteAppends};

use crate::databases::Databases;
use std::io::{self, ErrorKind, Write};

/// An output that writes only while the path of its database leads to the file that was opened.
/// Otherwise the book that has the path by then would lack the changes that are reported.
#[derive(Drop)]
pub struct Guarded<'a, F, W> {
    databases: &'a F,
    out: W,
}

impl<'a, F, W> Guarded<'a, F, W> {
    pub fn new(databases: &'a F, out: W) -> Guarded<'a, F, W>
        ensures { result.out ≡ out }
    {
        Guarded { databases, out }
    }
}

impl<F: Databases, W: Write> Write for Guarded<'_, F, W> {
    ghost contents = { λ guarded. W.contents guarded.out };

    fn write(&mut self, buf: &[u8]) -> io::Result<usize>
        ensures bound { WritesAtMost result buf.now }
        ensures bytes { WriteAppends (W.contents self.old.out) (W.contents self.new.out) result buf.now }
        ensures stood { OnOk result (F.databases self.old.databases.now).stood }
    {
        if !self.databases.stands() {
            return Err(io::Error::from(ErrorKind::Other));
        }
        self.out.write(buf)
    }

    fn flush(&mut self) -> io::Result<()> {
        self.out.flush()
    }
}
