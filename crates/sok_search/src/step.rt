//! A state that is expanded, a push from it, and where the push leads.

use sok_board::area::Sq;
use sok_state::key::Key;
use sok_state::push::Push;

/// The state that is being expanded, in a search with a limit on the number of states.
#[derive(Clone, Copy)]
pub(crate) struct Visit<'a> {
    pub(crate) limit: u32,
    pub(crate) index: usize,
    pub(crate) key: &'a Key,
    pub(crate) depth: u32,
}

/// A legal push, the square to which it moves its box, and the least square that the player can walk
/// to after it.
#[derive(Clone, Copy)]
pub(crate) struct Step {
    pub(crate) push: Push,
    pub(crate) to: Sq,
    pub(crate) least: Sq,
}
