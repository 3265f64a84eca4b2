//! The board of a drawn level, and sets of boxes.

ghost use Rattle.std.specs.Prelude.{◌≡◌, ◌↔◌, IfOk, IsTrue, Ok};
ghost use Rattle.std.specs.List.Sorted.{IsStrictlyIncreasing};
ghost use Rattle.sok_sketch.specs.Sketches.{level_of};

use crate::sketch;
use sok_board::area::{BOX_LIMIT, Sq};
use sok_board::board::Board;
use sok_board::box_set::BoxSet;
use std::alloc::Global;
use std::test::Fail;

/// Returns the board of a drawn level. Fails if there is none, or for want of memory.
pub fn board(alloc: Global, text: &str) -> Result<Board, Fail>
    ensures { IfOk result (λ board. level_of text.now ≡ Ok board.rows) }
{
    Ok(Board::new(alloc, &sketch::level(alloc, text)?)?)
}

/// Returns the set of some boxes. Fails if they do not rise, are too many, or for want of memory.
pub fn box_set(alloc: Global, squares: &[Sq]) -> Result<BoxSet, Fail>
    ensures { IfOk result (λ set. set ≡ squares.now) }
{
    if squares.len() > BOX_LIMIT || !rises(squares) {
        return Err(Fail::new("these boxes make no set"));
    }
    Ok(BoxSet::of(alloc, squares)?)
}

/// Returns whether each square is greater than the one before.
fn rises(squares: &[Sq]) -> bool
    ensures { IsTrue result ↔ IsStrictlyIncreasing squares.now }
{
    for i in 1..squares.len() {
        if squares[i - 1] >= squares[i] {
            return false;
        }
    }
    true
}
