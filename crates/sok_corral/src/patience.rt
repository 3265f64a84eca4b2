//! Attempts to find a fence that are skipped, since many like them have failed.

use sok_board::area::Sq;
use sok_rules::fault::Memory;
use std::alloc::Global;

/// Once this many attempts in a row from a square have failed, only every sixteenth one there is made.
const FAILURES: u32 = 16;

/// For each square, counts the attempts from there since one last found a fence. Those that are skipped
/// count too.
#[derive(Drop)]
pub(crate) struct Patience {
    failures: Vec<u32>,
}

impl Patience {
    /// Begins to count for a board with so many squares. Errors: `Memory`.
    pub(crate) fn new(alloc: Global, squares: usize) -> Result<Patience, Memory> {
        Ok(Patience {
            failures: vec![in alloc; 0; squares]?,
        })
    }

    /// Counts an attempt from a square as failed, and returns whether to make it.
    pub(crate) fn lets(&mut self, square: Sq) -> bool {
        let Some(failures) = self.failures.get_mut(square as usize) else {
            return true;
        };
        let before = *failures;
        *failures = before.wrapping_add(1);
        before < FAILURES || before % 16 == 0
    }

    /// Resets the count of a square, since the attempt from there found a fence.
    pub(crate) fn regain(&mut self, square: Sq) {
        if let Some(failures) = self.failures.get_mut(square as usize) {
            *failures = 0;
        }
    }
}
