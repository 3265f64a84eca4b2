//! Squares that exist, boxes and a player on them, and boards with their distances.

ghost use Rattle.std.specs.Prelude.{◌≡◌, ◌<◌, ◌↔◌, All, IfOk, IsTrue};
ghost use Rattle.sok_region.specs.Regions.{IsPlaced};

use sok_board::area::Sq;
use sok_board::board::Board;
use sok_board::box_set::BoxSet;
use sok_distance::distances::Distances;
use sok_distance::setting::Setting;
use sok_sketch::sets::{self, box_set};
use std::alloc::Global;
use std::process::Abort;
use std::test::Fail;

/// Returns the board of a drawn level. It is boxed, since a test frees a box by one call, and a
/// board by one for each of its lists.
pub(crate) fn board(alloc: Global, text: &str) -> Result<Box<Board>, Fail> {
    Ok(Box::new(alloc, sets::board(alloc, text)?)?)
}

/// Returns the distances of a board, boxed like the board.
pub(crate) fn distances(alloc: Global, board: &Board) -> Result<Box<Distances>, Fail>
    ensures { IfOk result (λ distances. distances.value.board ≡ board.now) }
{
    Ok(Box::new(alloc, Distances::new(alloc, board)?)?)
}

/// Returns a board and its distances together.
pub(crate) fn setting<'a>(board: &'a Board, distances: &'a Distances) -> Setting<'a>
    requires { distances.now.board ≡ board.now }
{
    Setting { board, distances }
}

/// Returns whether all squares have numbers below `end`.
pub(crate) fn are_below(squares: &[Sq], end: usize) -> bool
    ensures { IsTrue result ↔ All (λ square. square < end) squares.now }
{
    squares.iter().all(|square| (*square as usize) < end)
}

/// Returns the set of some boxes. They must be on squares of a board, and the player on another.
pub(crate) fn placed(
    rt: &impl Abort,
    alloc: Global,
    board: &Board,
    boxes: &[Sq],
    player: Sq,
) -> Result<BoxSet, Fail>
    ensures { IfOk result (λ boxes. IsPlaced board.now boxes player) }
{
    let squares = board.squares();
    assert!(rt; are_below(boxes, squares) && (player as usize) < squares);
    assert!(rt; !boxes.contains(&player));
    box_set(alloc, boxes)
}
