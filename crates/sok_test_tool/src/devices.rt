//! Readers and writers that fail, or that return and take little.

use std::alloc::Global;
use std::io;
use std::io::{Read, Write};

/// Returns the same bytes at each read, and counts the reads. The read with the number `fails_at`,
/// counted from 1, fails; with 0 none does.
#[derive(Drop)]
pub(crate) struct Source {
    pub bytes: &'static [u8],
    pub reads: u32,
    pub fails_at: u32,
}

impl Source {
    pub(crate) fn new(bytes: &'static [u8], fails_at: u32) -> Source {
        Source {
            bytes,
            reads: 0,
            fails_at,
        }
    }
}

impl Read for Source {
    fn read(&mut self, buf: &mut [u8]) -> io::Result<usize> {
        self.reads = self.reads.saturating_add(1);
        if self.fails_at == self.reads {
            return Err(io::Error::from(io::ErrorKind::Interrupted));
        }
        let count = buf.len().min(self.bytes.len());
        buf[..count].copy_from_slice(&self.bytes[..count]);
        Ok(count)
    }
}

/// How a write fails.
#[derive(Clone, Copy)]
pub(crate) enum Failure {
    /// It fails.
    Error,
    /// It takes no byte.
    Nothing,
}

/// Takes one byte at each write, and counts the writes. The write with one number, counted from 1,
/// fails, and those after it succeed.
#[derive(Drop)]
pub(crate) struct Sink {
    pub taken: Vec<u8>,
    pub writes: usize,
    pub fails_at: usize,
    pub failure: Failure,
}

impl Sink {
    pub(crate) fn new(alloc: Global, fails_at: usize, failure: Failure) -> Sink {
        Sink {
            taken: Vec::new(alloc),
            writes: 0,
            fails_at,
            failure,
        }
    }

    /// Returns whether it took so many bytes of a text, and was then written to once more.
    pub(crate) fn has(&self, text: &[u8], taken: usize) -> bool {
        self.writes == taken.saturating_add(1) && text.get(..taken) == Some(self.taken.as_slice())
    }
}

impl Write for Sink {
    fn write(&mut self, buf: &[u8]) -> io::Result<usize> {
        self.writes = self.writes.saturating_add(1);
        if self.fails_at == self.writes {
            return match self.failure {
                Failure::Error => Err(io::Error::from(io::ErrorKind::Interrupted)),
                Failure::Nothing => Ok(0),
            };
        }
        let Some(byte) = buf.first() else {
            return Ok(0);
        };
        self.taken.push(*byte)?;
        Ok(1)
    }

    fn flush(&mut self) -> io::Result<()> {
        Ok(())
    }
}
