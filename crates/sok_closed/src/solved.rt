//! Positions with all boxes on goals.

ghost use Rattle.std.specs.Prelude.{ℕ, ◌<◌, ◌↔◌, IsTrue, All, length};
ghost use Rattle.sok_rules.specs.Play.{AllOnGoals};
ghost use Rattle.sok_board.specs.Area.{position_of};

use sok_board::board::Board;
use sok_board::box_set::BoxSet;

/// Returns whether all boxes are on goals, wherever the player stands.
pub fn is_solved(board: &Board, boxes: &BoxSet) -> bool
    requires exist { All (λ square. square < length board.now.area) boxes.now }
    ensures { (player : ℕ) → IsTrue result
        ↔ AllOnGoals board.now.rows (position_of board.now player boxes.now) }
{
    board.are_goals(boxes.list())
}
