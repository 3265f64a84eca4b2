//! What a search finds of a level, of which a solution is known or none.

ghost use Rattle.std.specs.Prelude.{◌≡◌};
ghost use Rattle.sok_search.specs.Findings.{found_of, improved_of};

use crate::found::Found;
use crate::improved::Improved;
use sok_rules::cell::Dir;

/// What a search finds of a level, of which a solution is known or none.
#[derive(Drop)]
pub enum Finding {
    /// A solution with the fewest pushes. If one was known, it has more.
    Solved { dirs: Vec<Dir>, pushes: u32 },
    /// No solution has fewer pushes than the one that was known. If none was known, there is none.
    NoBetter,
    /// More than `states` states can be reached, which is the limit, and so many did not suffice. No
    /// solution has fewer pushes than `at_least`; the one that was known has more.
    Limit { states: u32, at_least: u32 },
}

impl Finding {
    /// Returns what it says if no solution was known.
    pub(crate) fn found(self) -> Found
        ensures { result ≡ found_of self }
    {
        match self {
            Finding::Solved { dirs, pushes } => Found::Solved { dirs, pushes },
            Finding::NoBetter => Found::Unsolvable,
            Finding::Limit { states, at_least } => Found::Limit { states, at_least },
        }
    }

    /// Returns what it says if a solution was known.
    pub(crate) fn improved(self) -> Improved
        ensures { result ≡ improved_of self }
    {
        match self {
            Finding::Solved { dirs, pushes } => Improved::Fewer { dirs, pushes },
            Finding::NoBetter => Improved::Optimal,
            Finding::Limit { states, at_least } => Improved::Limit { states, at_least },
        }
    }
}
