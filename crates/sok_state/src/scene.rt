//! A loaded state.

ghost use Rattle.std.specs.Prelude.{ℕ, ◌≡◌, List, OnErr, OnOk};
ghost use Rattle.sok_board.specs.Area.{IsAccepted};
ghost use Rattle.sok_region.specs.Layouts.{IsLaidOut};
ghost use Rattle.sok_state.specs.Keys.{IsKey};
ghost use Rattle.sok_state.specs.Pushes.{IsOpened};

use crate::key::Key;
use sok_board::board::Board;
use sok_field::drawing;
use sok_field::field::Field;
use sok_region::layout::Layout;
use sok_rules::fault::Memory;
use std::alloc::Global;

/// A loaded state: its boxes, the squares that the player reaches, and a buffer for those that he
/// reaches after a push. It is reused from state to state, so that its buffers are allocated once.
#[derive(Drop)]
pub struct Scene {
    pub layout: Layout,
    pub reached: Field,
    pub(crate) seen: Field,
}

impl Scene {
    /// Returns a scene without a state. It keeps the allocator for the boxes.
    pub fn new(alloc: Global, board: &Board) -> Scene
        ensures laid { (boxes : List ℕ) × IsLaidOut board.now boxes result.layout }
        ensures accepted { IsAccepted board.now }
    {
        Scene {
            layout: Layout::new(alloc, board),
            reached: Field::new(),
            seen: Field::new(),
        }
    }

    /// Loads a state. Errors: `Memory`; then nothing changes.
    pub fn open(&mut self, board: &Board, key: &Key) -> Result<(), Memory>
        requires accepted { IsAccepted board.now }
        requires key { IsKey board.now key.now }
        requires laid { (boxes : List ℕ) × IsLaidOut board.now boxes self.old.layout }
        ensures opened { OnOk result (IsOpened board.now key.now self.new) }
        ensures refused { OnErr result (self.new ≡ self.old) }
    {
        self.layout.lay(board, key.boxes.list())?;
        drawing::flood_from(&mut self.reached, self.layout.free(), board, key.least);
        Ok(())
    }
}
