//! Whether a solution that is known can be improved.

use sok_rules::cell::Dir;

/// Whether a solution that is known can be improved.
#[derive(Drop)]
pub enum Improved {
    /// It can: this is a solution with the fewest pushes.
    Fewer { dirs: Vec<Dir>, pushes: u32 },
    /// It can't: no solution has fewer pushes.
    Optimal,
    /// More than `states` states can be reached, which is the limit, and so many did not suffice. No
    /// solution has fewer pushes than `at_least`, which is less than the known one has.
    Limit { states: u32, at_least: u32 },
}
