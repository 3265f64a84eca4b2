//! What a search finds of a level.

use sok_rules::cell::Dir;

/// What a search finds of a level, without its certificate.
#[derive(Drop)]
pub enum Found {
    /// A solution with the fewest pushes.
    Solved { dirs: Vec<Dir>, pushes: u32 },
    /// There is no solution.
    Unsolvable,
    /// More than `states` states can be reached, which is the limit, and so many did not suffice. No
    /// solution has fewer pushes than `at_least`, which is at most 1,000,000.
    Limit { states: u32, at_least: u32 },
}
