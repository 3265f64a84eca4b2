//! Drawing a level as it is after a text of letters.

ghost use Rattle.std.specs.Prelude.{ℕ, List};
ghost use Rattle.sok_engine.specs.Inputs.{Within};
ghost use Rattle.sok_engine.specs.Written.{HasOne};
ghost use Rattle.sok_play.specs.Drawings.{DrawingsStand, IsDrawing};

use crate::standing::{level_now, session_after};
use sok_engine::answer::Answer;
use sok_engine::fault::ToolFault;
use sok_engine::serving::Engine;
use sok_text::collection::Collection;
use sok_text::lurd::read_lurd;
use sok_text::print::print_level;
use std::alloc::Global;

/// Draws the n-th level of a collection, counted from 1, as it is after a text of letters. An empty
/// text draws the start. The answer is the canonical text of the level in that position, with status 0.
///
/// Faults, in this order: `NoSuchLevel` or another fault of the level; `BadLetter` or `TooLong`;
/// `Blocked`. They are those of `replay_bytes`.
#[derive(Clone, Copy)]
pub struct Drawing<'a> {
    pub n: usize,
    pub text: &'a [u8],
}

impl Engine for Drawing<'_> {
    ghost answers = { λ drawing. IsDrawing drawing.n drawing.text.now };

    fn answer(&self, alloc: Global, input: &[u8]) -> Result<Answer, ToolFault> {
        let level = Collection::read(alloc, input)?.level(alloc, self.n)?;
        let letters = read_lurd(alloc, self.text)?;
        let session = session_after(alloc, &level, letters.as_slice())?;
        let standing = level_now(alloc, &level, &session)?;
        Ok(Answer::new(print_level(alloc, &standing)?, 0))
    }
}

/// A drawing can be read back. By the definition of collections, it is one level: it has the walls
/// and the goals of the level that was played, and its start is the position after the letters. A
/// row ends with its last square that is not floor.
pub fn drawings_stand()
    ensures { DrawingsStand }
{}

/// A text on a level of a collection has at most one drawing.
pub fn drawings_have_one_answer()
    ensures { (limit n : ℕ) (text bytes : List ℕ) → HasOne (Within limit (IsDrawing n text) bytes) }
{}
