//! The solver by itself.

use crate::telling::Told;
use sok_rules::cell::Dir;
use sok_rules::fault::{LevelFault, PlayFault};
use sok_rules::level::Level;
use sok_rules::play::replay;
use sok_search::fault::SolveFault;
use sok_search::outcome::Outcome;
use sok_search::solve::solve;
use sok_sketch::sketch;
use std::alloc::Global;

/// More states than the levels have.
const LIMIT: u32 = 1_000;

/// Solves a board that takes so many pushes, or has no solution.
pub(crate) fn told_of(alloc: Global, board: &str, pushes: Option<u32>) -> Told {
    match sketch::level(alloc, board) {
        Ok(level) => level_told(alloc, &level, pushes),
        Err(LevelFault::Memory) => Told::Refused,
        Err(_) => Told::Other(0),
    }
}

/// Solves a level, and solves it again if memory is refused.
fn level_told(alloc: Global, level: &Level, pushes: Option<u32>) -> Told {
    let told = once_told(alloc, level, pushes);
    if told != Told::Refused {
        return told;
    }
    told.checked(once_told(alloc, level, pushes) == Told::Same, 1)
}

fn once_told(alloc: Global, level: &Level, pushes: Option<u32>) -> Told {
    match solve(alloc, level, LIMIT) {
        Ok(outcome) => outcome_told(alloc, level, &outcome, pushes),
        Err(SolveFault::Memory) => Told::Refused,
        Err(_) => Told::Other(0),
    }
}

fn outcome_told(alloc: Global, level: &Level, outcome: &Outcome, pushes: Option<u32>) -> Told {
    match outcome {
        Outcome::Solved {
            dirs,
            pushes: least,
            certificate: _,
        } if pushes == Some(*least) => letters_told(alloc, level, dirs, *least),
        Outcome::Unsolvable { certificate: _ } if pushes.is_none() => Told::Same,
        _ => Told::Other(0),
    }
}

/// Returns whether letters solve a level with so many pushes.
fn letters_told(alloc: Global, level: &Level, letters: &[Dir], pushes: u32) -> Told {
    match replay(alloc, level, letters) {
        Ok(tally) => {
            let solves = tally.solved && tally.pushes == u64::from(pushes);
            Told::Same.checked(solves, 0)
        }
        Err(PlayFault::Memory) => Told::Refused,
        Err(_) => Told::Other(0),
    }
}
