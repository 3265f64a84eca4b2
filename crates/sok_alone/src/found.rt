//! A pattern that was found.

use sok_entry::entry::Numbers;
use sok_entry::inners::Inners;

/// Boxes that can't be solved alone on the board from where the player stands: their indices in the
/// boxes of a position, from 0, and positions of them that are closed under pushes. It owns what a
/// `Pattern` of `sok_bar` borrows.
#[derive(Drop)]
pub struct FoundPattern {
    pub members: Numbers,
    pub inner: Inners,
}
