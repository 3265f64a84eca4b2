//! The line that sums up what `add`, `offers` or `settle` answered. It counts the lines that were
//! written, as they pass.

use arrayvec::ArrayVec;
use std::{fmt, str};

/// What is counted: the second word of a line, and the words behind its count. A line `N id ID` is
/// of the first kind if the level is new in the book, and of the second if it was there.
const KINDS: [(&str, &str); 8] = [
    ("id", "new"),
    ("id", "already there"),
    ("stored", "stored"),
    ("kept", "kept"),
    ("optimal", "optimal"),
    ("unsolvable", "unsolvable"),
    ("limit", "at their limit"),
    ("fault", "with a fault"),
];

/// Counts of the lines of an answer, by what they say.
#[derive(Drop)]
pub(crate) struct Summary {
    /// The first bytes of the line that has not ended. The words that count are among them.
    front: ArrayVec<u8, 40>,
    /// How many levels the book has. A new level gets the next id.
    levels: u32,
    counts: [u64; 8],
}

impl Summary {
    /// Returns the summary of an answer that has no line yet, about a book with `levels` levels.
    pub(crate) fn new(levels: u32) -> Summary {
        Summary {
            front: ArrayVec::new(),
            levels,
            counts: [0; 8],
        }
    }

    /// Counts the lines that end in the next bytes of the answer.
    pub(crate) fn pass(&mut self, bytes: &[u8]) {
        for byte in bytes {
            if *byte == b'\n' {
                self.end_line();
            } else {
                let _ = self.front.try_push(*byte);
            }
        }
    }

    /// Returns whether no line was counted.
    pub(crate) fn is_empty(&self) -> bool {
        self.counts.iter().all(|count| *count == 0)
    }

    fn end_line(&mut self) {
        let front = self.front.take();
        let Ok(line) = str::from_utf8(front.as_slice()) else {
            return;
        };
        let Some(kind) = self.kind_of(line) else {
            return;
        };
        if let Some(count) = self.counts.get_mut(kind) {
            *count = count.saturating_add(1);
        }
    }

    /// Returns the kind of a line, if it begins with a number and is of one.
    fn kind_of(&mut self, line: &str) -> Option<usize> {
        let mut words = line.split(' ');
        let _number: u32 = words.next()?.parse().ok()?;
        let word = words.next()?;
        let kind = KINDS.iter().position(|kind| kind.0 == word)?;
        if kind == 0 && !self.adds(words.next()?.parse().ok()?) {
            return Some(1);
        }
        Some(kind)
    }

    /// Returns whether a level with this id is new, and counts it if it is.
    fn adds(&mut self, id: u32) -> bool {
        let is_new = id > self.levels;
        if is_new {
            self.levels = id;
        }
        is_new
    }
}

impl fmt::Display for Summary {
    fn fmt<W: fmt::Write>(&self, f: &mut fmt::Formatter<W>) -> fmt::Result {
        let mut is_first = true;
        for (kind, count) in KINDS.iter().zip(self.counts.iter()) {
            if *count > 0 {
                if !is_first {
                    f.write_str(", ")?;
                }
                write!(f, "{count} {}", kind.1)?;
                is_first = false;
            }
        }
        Ok(())
    }
}
