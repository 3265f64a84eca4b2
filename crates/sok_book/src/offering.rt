//! Whether letters are a solution that a book may keep.

ghost use Rattle.std.specs.Prelude.{◌≡◌, ◌⊎◌, ◌≤◌, IfOk, IfErr, length};
ghost use Rattle.sok_rules.specs.Limits.{letter_limit};
ghost use Rattle.sok_rules.specs.Play.{start, pushes, Solves};
ghost use Rattle.sok_book.specs.Commands.{is_better};
ghost use Rattle.sok_book.specs.Refusals.{IsNoSolution};
ghost use Rattle.sok_book.specs.declared.fault.BookFault.TheVariants as book;

use crate::fault::BookFault;
use sok_rules::cell::Dir;
use sok_rules::fault::PlayFault;
use sok_rules::level::Level;
use sok_rules::play::{Tally, replay};
use std::alloc::Global;

/// The greatest number of letters of a solution that is kept.
pub const LETTER_LIMIT: usize = 1_000_000;

/// Returns the pushes and moves of letters that solve a level.
///
/// Errors, in this order: `TooLong` if there are more than 1,000,000 letters; `Blocked` if a letter
/// is not legal; `NotSolved` if a box is left off a goal. Or `Memory`.
pub fn judge_letters(alloc: Global, level: &Level, letters: &[Dir]) -> Result<Tally, BookFault>
    ensures solves { IfOk result (λ _. Solves level.now letters.now) }
    ensures few { IfOk result (λ _. length letters.now ≤ letter_limit) }
    ensures pushes { IfOk result
        (λ tally. tally.pushes ≡ pushes level.now (start level.now) letters.now) }
    ensures moves { IfOk result (λ tally. tally.moves ≡ length letters.now) }
    ensures refused { IfErr result
        (λ fault. (fault ≡ book.Memory) ⊎ IsNoSolution level.now letters.now fault) }
{
    if letters.len() > LETTER_LIMIT {
        return Err(BookFault::Letters(PlayFault::TooLong));
    }
    let tally = replay(alloc, level, letters)?;
    accepted(level, letters, tally)
}

ghost use Rattle.sok_rules.specs.Replay.{IsTally};

/// Returns the tally of letters, if they solve the level.
fn accepted(level: &Level, letters: &[Dir], tally: Tally) -> Result<Tally, BookFault>
    requires tally { IsTally level.now letters.now tally }
    requires few { length letters.now ≤ letter_limit }
    ensures same { IfOk result (λ found. found ≡ tally) }
    ensures solves { IfOk result (λ _. Solves level.now letters.now) }
    ensures refused { IfErr result (IsNoSolution level.now letters.now) }
{
    if tally.solved {
        Ok(tally)
    } else {
        Err(BookFault::NotSolved)
    }
}

/// Returns whether a solution with `pushes` pushes replaces the best one, which has `best` pushes.
/// If there is none yet, it does.
pub fn is_better(pushes: u64, best: Option<u64>) -> bool
    ensures { result ≡ is_better pushes best }
{
    match best {
        Some(best) => pushes < best,
        None => true,
    }
}
