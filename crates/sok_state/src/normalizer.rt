//! Keys of many positions, with shared buffers.

ghost use Rattle.std.specs.Prelude.{◌≡◌};
ghost use Rattle.sok_board.specs.Area.{IsAccepted, position_of};
ghost use Rattle.sok_region.specs.Regions.{IsPlaced};
ghost use Rattle.sok_state.specs.Keys.{IsKey, IsKeyOf, TellsState};

use crate::key::{Key, key_over};
use sok_board::area::Sq;
use sok_board::board::Board;
use sok_board::box_set::BoxSet;
use sok_field::drawing;
use sok_field::field::Field;

/// Makes keys of positions of a board, one after another (the Sokoban Wiki calls this normalizing
/// the player's position). Its sets of squares are reused.
#[derive(Drop)]
pub struct Normalizer {
    area: Field,
    free: Field,
    seen: Field,
}

impl Normalizer {
    ghost use Rattle.sok_state.specs.Normalizers.{Normalizes};

    /// Returns a normalizer for a board.
    pub fn new(board: &Board) -> Normalizer
        ensures of_board { Normalizes board.now result }
        ensures accepted { IsAccepted board.now }
    {
        Normalizer {
            area: drawing::area(board),
            free: Field::new(),
            seen: Field::new(),
        }
    }

    /// Returns the key of the state with these boxes and the player on `player`.
    pub fn key(&mut self, board: &Board, boxes: BoxSet, player: Sq) -> Key
        requires accepted { IsAccepted board.now }
        requires of_board { Normalizes board.now self.old }
        requires placed { IsPlaced board.now boxes player }
        ensures boxes { result.boxes ≡ boxes }
        ensures key { IsKeyOf board.now (position_of board.now player boxes) result }
        ensures is_key { IsKey board.now result }
        ensures tells { TellsState board.now player boxes result }
        ensures of_board { Normalizes board.now self.new }
    {
        self.free.copy_from(&self.area);
        key_over(board, boxes, player, &mut self.free, &mut self.seen)
    }
}
