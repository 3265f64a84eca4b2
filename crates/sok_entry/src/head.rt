//! Entries whose first line has been read.

ghost use Rattle.std.specs.Prelude.{◌≡◌};
ghost use Rattle.sok_entry.specs.Text.{entry_with};

use crate::entry::{Entry, Numbers, Reason};
use crate::inners::Inners;

/// The first line of a pattern: the position, the members, and the number of inner positions, whose
/// lines follow.
#[derive(Drop)]
pub struct Head {
    pub depth: u32,
    pub player: u32,
    pub boxes: Numbers,
    pub members: Numbers,
    pub count: u32,
}

/// What the first line of an entry begins.
#[derive(Drop)]
pub enum Opening {
    /// An entry that has no other line.
    Whole(Entry),
    /// A pattern.
    Begun(Head),
}

impl Head {
    /// Returns the pattern's entry with these inner positions.
    pub fn with(self, inner: Inners) -> Entry
        ensures { result ≡ entry_with self inner }
    {
        Entry {
            depth: self.depth,
            player: self.player,
            boxes: self.boxes,
            reason: Reason::Pattern {
                members: self.members,
                inner,
            },
        }
    }
}
