//! Lines of offers that begin with no id, found as the bytes of a text come.

use arrayvec::ArrayVec;
use std::fmt;

/// A line that begins with no id.
#[derive(Clone, Copy, Default)]
pub(crate) struct Unnumbered {
    /// The number of the line, counted from 1.
    line: u64,
    /// The place, in bytes from 0, of the first byte that is no digit. `None` if the digits spell
    /// too large a number.
    place: Option<u64>,
}

impl fmt::Display for Unnumbered {
    fn fmt<W: fmt::Write>(&self, f: &mut fmt::Formatter<W>) -> fmt::Result {
        let line = self.line;
        match self.place {
            Some(place) => write!(f, "line {line}: byte {place} is no digit of an id"),
            None => write!(f, "line {line}: the id is too large"),
        }
    }
}

/// The least number that is too large for an id.
const TOO_LARGE: u64 = 4_294_967_296;

/// The first word of a line, as far as it has come.
#[derive(Clone, Copy)]
enum Word {
    /// Digits that spell this number, and no blank yet.
    Open(u64),
    Id,
    /// No id, with the place of a byte that is no digit.
    Other(Option<u64>),
}

impl Word {
    /// Returns the word with the byte at a place of the line, or with the end of the line.
    fn with(self, byte: u8, place: u64) -> Word {
        match self {
            Word::Open(number) if byte.is_ascii_digit() => {
                let digit = u64::from(byte.saturating_sub(b'0'));
                Word::Open(number.saturating_mul(10).saturating_add(digit))
            }
            Word::Open(number) if byte.is_ascii_whitespace() && place > 0 => {
                if number < TOO_LARGE {
                    Word::Id
                } else {
                    Word::Other(None)
                }
            }
            Word::Open(_) => Word::Other(Some(place)),
            ended => ended,
        }
    }
}

/// A search for lines that begin with no id.
#[derive(Drop)]
pub(crate) struct OfferScan {
    /// How many lines have ended.
    ended: u64,
    /// How many bytes the line has so far.
    length: u64,
    is_blank: bool,
    word: Word,
    first: ArrayVec<Unnumbered, 10>,
    count: u64,
}

impl OfferScan {
    pub(crate) fn new() -> OfferScan {
        OfferScan {
            ended: 0,
            length: 0,
            is_blank: true,
            word: Word::Open(0),
            first: ArrayVec::new(),
            count: 0,
        }
    }

    /// Passes the next bytes of the text. No bytes mean that it has ended.
    pub(crate) fn pass(&mut self, bytes: &[u8]) {
        if bytes.is_empty() {
            self.step(b'\n');
        }
        for byte in bytes {
            self.step(*byte);
        }
    }

    /// Returns the first ten of the lines that were found.
    pub(crate) fn first(&self) -> &[Unnumbered] {
        self.first.as_slice()
    }

    /// Returns how many lines were found.
    pub(crate) fn count(&self) -> u64 {
        self.count
    }

    fn step(&mut self, byte: u8) {
        self.word = self.word.with(byte, self.length);
        self.is_blank = self.is_blank && byte.is_ascii_whitespace();
        self.length = self.length.saturating_add(1);
        if byte == b'\n' {
            self.end_line();
        }
    }

    /// Ends a line. A line of blanks alone is no offer.
    fn end_line(&mut self) {
        self.ended = self.ended.saturating_add(1);
        match self.word {
            Word::Other(place) if !self.is_blank => {
                let line = self.ended;
                let _ = self.first.try_push(Unnumbered { line, place });
                self.count = self.count.saturating_add(1);
            }
            _ => {}
        }
        self.length = 0;
        self.is_blank = true;
        self.word = Word::Open(0);
    }
}
