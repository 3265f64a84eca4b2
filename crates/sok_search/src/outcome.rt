//! What the solver answers of a level.

use sok_cert::entry::Certificate;
use sok_rules::cell::Dir;

/// What the solver answers of a level.
#[derive(Drop)]
pub enum Outcome {
    /// A solution with the fewest pushes, and a certificate that none has fewer.
    Solved {
        dirs: Vec<Dir>,
        pushes: u32,
        certificate: Certificate,
    },
    /// There is no solution, and a certificate shows it.
    Unsolvable {
        certificate: Certificate,
    },
    /// More than `states` states can be reached, which is the limit, and so many did not suffice. No
    /// solution has fewer pushes than `at_least`, which is at most 1,000,000. If a certificate of this
    /// was asked for, here it is.
    Limit {
        states: u32,
        at_least: u32,
        certificate: Option<Certificate>,
    },
}
