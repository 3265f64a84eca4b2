//! A reader that returns one byte per read, and can fail.

use std::io;
use std::io::Read;

/// Returns one byte at each read, and counts the reads. The read with the number `fails_at`,
/// counted from 1, fails; with 0 none does.
#[derive(Drop)]
pub struct Slow<'a> {
    pub bytes: &'a [u8],
    pub reads: usize,
    pub fails_at: usize,
}

impl Read for Slow<'_> {
    fn read(&mut self, buf: &mut [u8]) -> io::Result<usize> {
        self.reads = self.reads.saturating_add(1);
        if self.reads == self.fails_at {
            return Err(io::Error::from(io::ErrorKind::Interrupted));
        }
        match (buf.first_mut(), self.bytes.split_first()) {
            (Some(place), Some((byte, rest))) => {
                *place = *byte;
                self.bytes = rest;
                Ok(1)
            }
            _ => Ok(0),
        }
    }
}
