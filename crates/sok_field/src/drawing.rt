//! Squares of a board in bit rows.

ghost use Rattle.std.specs.Prelude.{ℕ, ◌≡◌, ◌<◌, IsTrue, Bool, true, false, All, Contains, length};
ghost use Rattle.sok_rules.specs.declared.cell.Spot.{Spot};
ghost use Rattle.sok_board.specs.Area.{IsAccepted, spot_of};
ghost use Rattle.sok_field.specs.Fields.{has};
ghost use Rattle.sok_field.specs.Numbers.{Draws};
ghost use Rattle.sok_field.specs.Trails.{Leads};

use crate::field::Field;
use sok_board::area::Sq;
use sok_board::board::Board;

/// Returns the squares of the area.
pub fn area(board: &Board) -> Field
    ensures drawn { Draws board.now (λ n. n < length board.now.area) result }
    ensures accepted { IsAccepted board.now }
{
    let mut field = Field::new();
    draw(&mut field, board);
    field
}

/// Puts the squares of the area into an empty set. A set that is filled in its place need not be
/// moved there, which takes longer than a flood of a small board.
pub fn draw(field: &mut Field, board: &Board)
    requires { (s : Spot) → has field.old s ≡ false }
    ensures drawn { Draws board.now (λ n. n < length board.now.area) field.new }
    ensures accepted { IsAccepted board.now }
{
    let spans = board.spans();
    for span in spans {
        field.put_span(*span);
    }
}

/// Removes the squares of boxes from the area.
pub fn take_boxes(field: &mut Field, board: &Board, boxes: &[Sq])
    requires accepted { IsAccepted board.now }
    requires exist { All (λ n. n < length board.now.area) boxes.now }
    requires drawn { Draws board.now (λ n. n < length board.now.area) field.old }
    ensures { Draws board.now (λ n. Contains boxes.now n → ⊥) field.new }
{
    for square in boxes {
        field.take(board.spot(*square));
    }
}

/// Returns the squares of the area without a box.
pub fn free_squares(board: &Board, boxes: &[Sq]) -> Field
    requires { All (λ n. n < length board.now.area) boxes.now }
    ensures drawn { Draws board.now (λ n. Contains boxes.now n → ⊥) result }
    ensures accepted { IsAccepted board.now }
{
    let mut free = Field::new();
    draw(&mut free, board);
    take_boxes(&mut free, board, boxes);
    free
}

/// Overwrites `seen` with the squares that letters lead to from `start` over free squares.
pub fn flood_from(seen: &mut Field, free: &Field, board: &Board, start: Sq)
    requires accepted { IsAccepted board.now }
    requires exists { start < length board.now.area }
    requires start { IsTrue (has free.now (spot_of board.now start)) }
    ensures { (lets : ℕ → Bool) → Draws board.now (λ n. lets n ≡ true) free.now
        → Draws board.now (Leads board.now lets start) seen.new }
{
    seen.flood(free, board.spot(start));
}
