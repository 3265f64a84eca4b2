//! Some boxes of a state, alone on the board.

ghost use Rattle.std.specs.Prelude.{ℕ, List, ◌≡◌, ◌<◌, All, OnOk, filter, length};
ghost use Rattle.sok_board.specs.Area.{IsAccepted};
ghost use Rattle.sok_region.specs.Layouts.{IsLaidOut};
ghost use Rattle.sok_state.specs.Keys.{IsKey};
ghost use Rattle.sok_corral.specs.Fencing.{IsLone, is_in};

use crate::sets::has;
use sok_board::area::Sq;
use sok_board::board::Board;
use sok_field::drawing;
use sok_field::field::Field;
use sok_region::layout::Layout;
use sok_rules::fault::Memory;
use sok_state::key::Key;
use std::alloc::Global;

/// Some boxes of a state, and the squares that the player could reach if there were no others.
#[derive(Drop)]
pub(crate) struct Lone {
    pub(crate) boxes: Vec<Sq>,
    pub(crate) reached: Field,
}

impl Lone {
    /// Makes an empty list of boxes.
    pub(crate) fn new(alloc: Global) -> Lone {
        Lone {
            boxes: Vec::new(alloc),
            reached: Field::new(),
        }
    }

    /// Lays out those boxes of a state that are in a set of squares.
    pub(crate) fn lay(
        &mut self,
        board: &Board,
        key: &Key,
        set: &Field,
        layout: &mut Layout,
    ) -> Result<(), Memory>
        requires accepted { IsAccepted board.now }
        requires state { IsKey board.now key.now }
        requires laid { (boxes : List ℕ) × IsLaidOut board.now boxes layout.old }
        ensures lone { OnOk result (IsLone board.now key.now self.new) }
        ensures laid { OnOk result (IsLaidOut board.now self.new.boxes.items layout.new) }
    {
        choose(board, key.boxes.list(), set, &mut self.boxes)?;
        layout.lay(board, &self.boxes)?;
        drawing::flood_from(&mut self.reached, layout.free(), board, key.least);
        Ok(())
    }
}

/// Lists those boxes that are in a set of squares.
fn choose(board: &Board, boxes: &[Sq], set: &Field, list: &mut Vec<Sq>) -> Result<(), Memory>
    requires accepted { IsAccepted board.now }
    requires exist { All (λ square. square < length board.now.area) boxes.now }
    ensures { OnOk result (list.new.items ≡ filter (is_in board.now set.now) boxes.now) }
{
    list.clear();
    for square in boxes {
        if has(board, set, *square) {
            list.push(*square)?;
        }
    }
    Ok(())
}
