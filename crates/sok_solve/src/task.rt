//! Which level is to be solved, and how.

ghost use Rattle.std.specs.Prelude.{◌≡◌};
ghost use Rattle.sok_solve.specs.Solves.{best_of};

use sok_cert::limits::LIMIT;

/// Which level of a collection is to be solved, and how.
#[derive(Clone, Copy)]
pub struct Task {
    /// The number of the level, counted from 1.
    pub n: u32,
    /// The pushes of a known solution, if only one with fewer is of use. A number above 1,000,000,
    /// which no certificate can claim, counts as 1,000,000.
    pub below: Option<u32>,
    /// The number of states that may be kept, from 1 to 1,000,000.
    pub limit: u32,
    /// Whether an answer at the limit has the lower bound that the search shows.
    pub bound: bool,
}

impl Task {
    /// Returns the pushes of the known solution, at most 1,000,000.
    pub(crate) fn best(&self) -> Option<u32>
        ensures { result ≡ best_of self.now }
    {
        match self.below {
            Some(below) => Some(below.min(LIMIT)),
            None => None,
        }
    }
}
