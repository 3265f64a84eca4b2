//! What the search knows of a state beside its depth.

use sok_state::push::Push;

/// The push by which a state was reached.
#[derive(Clone, Copy, PartialEq, Eq)]
pub(crate) struct Origin {
    /// The index of the state before the push.
    pub(crate) parent: u32,
    /// The push.
    pub(crate) push: Push,
}

/// How far a state is searched, or why it needs no search.
#[derive(Clone, Copy, PartialEq, Eq)]
pub(crate) enum Standing {
    /// It is in the open list. At least so many more pushes are needed.
    Open(u32),
    /// All its pushes were followed. At least so many more pushes are needed.
    Expanded(u32),
    /// A deadlock, wherever the player stands.
    Dead,
    /// A deadlock, as the loss at this place shows.
    Lost(u32),
}

/// The note of a state: the push that led to it, which the start lacks, and its standing.
#[derive(Clone, Copy, PartialEq, Eq)]
pub(crate) struct Note {
    pub(crate) origin: Option<Origin>,
    pub(crate) standing: Standing,
}
