//! What a search is asked for.

/// What a search is asked for.
#[derive(Clone, Copy)]
pub(crate) struct Aim {
    /// Whether every state that is reached is kept, as a certificate needs them. Otherwise the search
    /// leaves out states in which the pushed box, alone or with one or two others, can't be solved, and
    /// states through which no solution has fewer pushes than `upper`.
    pub(crate) whole: bool,
    /// The pushes of a known solution, if there is one: only fewer are looked for.
    pub(crate) upper: Option<u32>,
}
