//! The key of a state.

ghost use Rattle.std.specs.Prelude.{◌≡◌, ◌<◌, ◌==◌, ◌&&◌, IfOk, length};
ghost use Rattle.sok_rules.specs.Play.{start};
ghost use Rattle.sok_board.specs.Area.{IsAccepted, boxes_of, position_of};
ghost use Rattle.sok_field.specs.Numbers.{Draws};
ghost use Rattle.sok_region.specs.Regions.{IsPlaced};
ghost use Rattle.sok_state.specs.Keys.{IsKey, IsKeyOf, TellsState};
ghost use Rattle.std.specs.Cmp.Rules.{comparing};
ghost use Rattle.std.proofs.Common.{rules};
ghost use lib.Pointwise.{pointwise};

use crate::least::least_square;
use sok_board::area::Sq;
use sok_board::board::Board;
use sok_board::box_set::BoxSet;
use sok_field::drawing;
use sok_field::field::Field;
use sok_rules::fault::Memory;
use std::alloc::Global;

/// A state: the squares of its boxes, and the least square that the player can walk to. Positions
/// of a board are the same state exactly if their keys are equal.
#[derive(Drop)]
pub struct Key {
    pub boxes: BoxSet,
    pub least: Sq,
}

impl Key {
    /// Returns the key of the state with these boxes and the player on `player`. Errors: `Memory`.
    pub fn of(alloc: Global, board: &Board, boxes: &BoxSet, player: Sq) -> Result<Key, Memory>
        requires { IsPlaced board.now boxes.now player }
        ensures boxes { IfOk result (λ key. key.boxes ≡ boxes.now) }
        ensures key { IfOk result (IsKeyOf board.now (position_of board.now player boxes.now)) }
        ensures of_board { IfOk result (IsKey board.now) }
        ensures tells { IfOk result (TellsState board.now player boxes.now) }
    {
        Ok(key_of(board, boxes.copy(alloc)?, player))
    }

    /// Returns the key of the start. Errors: `Memory`.
    pub fn start(alloc: Global, board: &Board) -> Result<Key, Memory>
        ensures key { IfOk result (IsKeyOf board.now (start board.now.rows)) }
        ensures of_board { IfOk result (IsKey board.now) }
        ensures as_many { IfOk result (λ key. length key.boxes ≡ length (boxes_of board.now)) }
    {
        let (player, boxes) = board.start();
        let boxes = BoxSet::of(alloc, boxes)?;
        Ok(key_of(board, boxes, player))
    }

    /// Copies the key. Errors: `Memory`.
    pub fn copy(&self, alloc: Global) -> Result<Key, Memory>
        ensures { IfOk result (λ key. key ≡ self.now) }
    {
        Ok(Key {
            boxes: self.boxes.copy(alloc)?,
            least: self.least,
        })
    }
}

/// Returns the key of the state with these boxes and the player on `player`.
pub(crate) fn key_of(board: &Board, boxes: BoxSet, player: Sq) -> Key
    requires { IsPlaced board.now boxes player }
    ensures boxes { result.boxes ≡ boxes }
    ensures key { IsKeyOf board.now (position_of board.now player boxes) result }
    ensures of_board { IsKey board.now result }
    ensures tells { TellsState board.now player boxes result }
{
    let mut free = Field::new();
    drawing::draw(&mut free, board);
    let mut seen = Field::new();
    key_over(board, boxes, player, &mut free, &mut seen)
}

/// Like `key_of`, with sets that the caller lends: `area` is the board's area, from which the boxes
/// are removed; `seen` is overwritten with the squares that the player reaches.
pub(crate) fn key_over(
    board: &Board,
    boxes: BoxSet,
    player: Sq,
    area: &mut Field,
    seen: &mut Field,
) -> Key
    requires accepted { IsAccepted board.now }
    requires placed { IsPlaced board.now boxes player }
    requires drawn { Draws board.now (λ n. n < length board.now.area) area.old }
    ensures boxes { result.boxes ≡ boxes }
    ensures key { IsKeyOf board.now (position_of board.now player boxes) result }
    ensures of_board { IsKey board.now result }
    ensures tells { TellsState board.now player boxes result }
{
    drawing::take_boxes(area, board, boxes.list());
    let least = least_square(board, area, seen, player);
    Key { boxes, least }
}

impl PartialEq for Key {
    ghost eq = { λ a b. (a.least == b.least) && pointwise ◌==◌ a.boxes b.boxes };

    ghost laws = { Prim.search (comparing, rules) };

    fn eq(&self, other: &Key) -> bool {
        self.least == other.least && self.boxes.list() == other.boxes.list()
    }
}

impl Eq for Key {
    ghost laws = { Prim.search (comparing, rules) };
}
