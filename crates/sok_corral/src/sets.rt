//! The squares of the area in a set.

ghost use Rattle.std.specs.Prelude.{◌≡◌, ◌<◌, length};
ghost use Rattle.sok_board.specs.Area.{IsAccepted, spot_of};
ghost use Rattle.sok_field.specs.Fields.{has};

use sok_board::area::Sq;
use sok_board::board::Board;
use sok_field::field::Field;

/// Returns whether a square is in a set.
pub(crate) fn has(board: &Board, set: &Field, square: Sq) -> bool
    requires accepted { IsAccepted board.now }
    requires exists { square < length board.now.area }
    ensures { result ≡ has set.now (spot_of board.now square) }
{
    set.has(board.spot(square))
}
