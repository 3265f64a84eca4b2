//! Buffers that searches of some boxes alone reuse.

ghost use Rattle.sok_alone.specs.Workspace.{IsWorkspace};

use sok_board::board::Board;
use sok_state::expansion::Expansion;
use sok_state::normalizer::Normalizer;
use std::alloc::Global;

/// Buffers that searches of some boxes alone reuse: the normalizer that makes keys, and the state
/// that is expanded.
#[derive(Drop)]
pub(crate) struct Workspace {
    pub(crate) normalizer: Normalizer,
    pub(crate) expansion: Expansion,
}

impl Workspace {
    /// Returns the workspace of a board.
    pub(crate) fn new(alloc: Global, board: &Board) -> Workspace
        ensures { IsWorkspace board.now result }
    {
        Workspace {
            normalizer: Normalizer::new(board),
            expansion: Expansion::new(alloc, board),
        }
    }
}
