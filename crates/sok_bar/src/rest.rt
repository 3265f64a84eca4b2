//! What is still to be shown of a position.

/// What is still to be shown of a position: that each solution from there has at least so many
/// pushes, or that there is none.
#[derive(Clone, Copy, Debug, PartialEq, Eq)]
pub enum Rest {
    /// Each solution has at least so many pushes.
    AtLeast(u32),
    /// There is no solution.
    Never,
}
