//! What a certificate claims.

/// What a certificate claims of its level.
#[derive(Clone, Copy, Debug, PartialEq, Eq)]
pub enum Claim {
    /// No solution has fewer pushes than this.
    Pushes(u32),
    /// There is no solution.
    Unsolvable,
}
