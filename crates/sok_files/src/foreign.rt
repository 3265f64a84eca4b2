//! Signs that a text is written in a way in which no level can be read from it.

use arrayvec::ArrayVec;
use std::fmt;

/// A sign that no level can be read from a text.
#[derive(Clone, Copy)]
pub(crate) enum Sign {
    Utf16,
    /// Its lines end with CR alone.
    Returns,
}

impl fmt::Display for Sign {
    fn fmt<W: fmt::Write>(&self, f: &mut fmt::Formatter<W>) -> fmt::Result {
        match self {
            Sign::Utf16 => f.write_str("the text is UTF-16"),
            Sign::Returns => f.write_str("line ends are CR alone"),
        }
    }
}

/// What the bytes of one text after another show of how they are written.
#[derive(Drop)]
pub(crate) struct Foreign {
    /// The first two bytes of the text.
    first: ArrayVec<u8, 2>,
    has_wall: bool,
    has_return: bool,
    has_feed: bool,
    /// The sign in the first text that has one and has ended.
    sign: Option<Sign>,
}

impl Foreign {
    pub(crate) fn new() -> Foreign {
        Foreign {
            first: ArrayVec::new(),
            has_wall: false,
            has_return: false,
            has_feed: false,
            sign: None,
        }
    }

    /// Passes the next bytes of the text.
    pub(crate) fn pass(&mut self, bytes: &[u8]) {
        for byte in bytes.iter().take(2) {
            let _ = self.first.try_push(*byte);
        }
        self.has_wall = self.has_wall || bytes.contains(&b'#');
        self.has_return = self.has_return || bytes.contains(&b'\r');
        self.has_feed = self.has_feed || bytes.contains(&b'\n');
    }

    /// Ends the text. The next bytes belong to another text.
    pub(crate) fn end(&mut self) {
        let sign = self.sign.or(self.sign_of_text());
        *self = Foreign::new();
        self.sign = sign;
    }

    /// Returns the sign that was found.
    pub(crate) fn sign(&self) -> Option<Sign> {
        self.sign
    }

    /// Returns the sign in this text. A text without a wall was not meant to have a level.
    fn sign_of_text(&self) -> Option<Sign> {
        if !self.has_wall {
            None
        } else if is_utf_16(self.first.as_slice()) {
            Some(Sign::Utf16)
        } else if self.has_return && !self.has_feed {
            Some(Sign::Returns)
        } else {
            None
        }
    }
}

/// Returns whether a text that begins with these bytes is UTF-16: it has a byte order mark, or a
/// zero in its first character.
fn is_utf_16(first: &[u8]) -> bool {
    first == b"\xFE\xFF".as_slice() || first == b"\xFF\xFE".as_slice() || first.contains(&0)
}
