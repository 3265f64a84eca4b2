//! The search for lines that are nearly board lines. The bytes of a text come in pieces, and only
//! those of one line are kept.

ghost use Rattle.std.specs.Prelude.{ℕ, ◌≡◌, ◌+◌, ◌<◌, ◌^◌, ◌∷◌, ◌++◌, [], List, length};
ghost use Rattle.sok_near.specs.NearLines.{near_at, near_lines};
ghost use Rattle.sok_near.specs.Scans.{HasFound, HasPassed, IsShort};
ghost use Rattle.sok_near.specs.declared.near.NearLine.{NearLine};

use crate::near::{NearLine, near_place};
use arrayvec::ArrayVec;
use sok_text::line::without_return;

/// A search for lines that are nearly board lines, in one text after another.
#[derive(Drop)]
pub struct NearScan {
    /// The first bytes of the line that has not ended: 1,000 bytes of a line that is checked, and
    /// two more, for the CR at its end and for one byte too many.
    front: ArrayVec<u8, 1002>,
    /// How many lines of the text have ended.
    ended: u64,
    first: ArrayVec<NearLine, 10>,
    count: u64,
}

impl NearScan {
    /// Makes a scan to which no byte has come.
    pub fn new() -> NearScan
        ensures { HasPassed [] [] result }
    {
        NearScan {
            front: ArrayVec::new(),
            ended: 0,
            first: ArrayVec::new(),
            count: 0,
        }
    }

    /// Scans the next bytes of the text.
    pub fn pass(&mut self, bytes: &[u8])
        ensures { (before : List NearLine) (text : List ℕ) → IsShort before (text ++ bytes.now)
            → HasPassed before text self.old → HasPassed before (text ++ bytes.now) self.new }
    {
        for byte in bytes {
            self.step(*byte);
        }
    }

    /// Ends the text. The next bytes belong to another text, whose lines are counted from 1 again.
    pub fn end(&mut self)
        ensures found { (before : List NearLine) (text : List ℕ) → IsShort before text
            → HasPassed before text self.old → HasFound (before ++ near_lines text) self.new }
        ensures anew { (before : List NearLine) (text : List ℕ) → IsShort before text
            → HasPassed before text self.old
            → HasPassed (before ++ near_lines text) [] self.new }
    {
        let place = near_place(self.front.as_slice());
        self.end_line(place);
        self.ended = 0;
    }

    /// Returns the first ten of the lines that were found.
    pub fn first(&self) -> &[NearLine]
        ensures { result.now ≡ self.now.first.items }
    {
        self.first.as_slice()
    }

    /// Returns how many lines were found.
    pub fn count(&self) -> u64
        ensures { result ≡ self.now.count }
    {
        self.count
    }

    fn step(&mut self, byte: u8)
        ensures { (before : List NearLine) (text : List ℕ) → IsShort before (text ++ byte ∷ [])
            → HasPassed before text self.old → HasPassed before (text ++ byte ∷ []) self.new }
    {
        if byte == b'\n' {
            let place = near_place(without_return(self.front.as_slice()));
            self.end_line(place);
            return;
        }
        let _ = self.front.try_push(byte);
    }

    /// Ends a line, and records it if it is nearly a board line.
    fn end_line(&mut self, place: Option<usize>)
        ensures anew { self.new.front.items ≡ [] }
        ensures ended { self.old.ended + 1 < 2 ^ 64 → self.new.ended ≡ self.old.ended + 1 }
        ensures found { (all : List NearLine) → self.old.ended + 1 < 2 ^ 64
            → length all + 1 < 2 ^ 64 → HasFound all self.old
            → HasFound (all ++ near_at (self.old.ended + 1) place) self.new }
    {
        self.front.clear();
        self.ended = self.ended.saturating_add(1);
        let Some(place) = place else {
            return;
        };
        let _ = self.first.try_push(NearLine {
            line: self.ended,
            place,
        });
        self.count = self.count.saturating_add(1);
    }
}
