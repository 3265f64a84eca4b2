//! A board with its distances.

ghost use Rattle.std.specs.Prelude.{◌≡◌};

use crate::distances::Distances;
use sok_board::board::Board;

/// A board with its distances, which are needed together to judge positions on the board.
#[derive(Clone, Copy)]
pub struct Setting<'a> {
    pub board: &'a Board,
    pub distances: &'a Distances,
    ghost own: { distances.now.board ≡ board.now },
}
