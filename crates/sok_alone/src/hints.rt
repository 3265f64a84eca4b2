//! Hints for pushes: that no loss is known after a push, or which one. A wrong hint only costs
//! time, so no clause says that hints are right.

ghost use Rattle.std.specs.Prelude.{◌≤◌};
ghost use Rattle.sok_board.specs.Limits.{square_limit};

use sok_board::area::Sq;
use sok_board::board::Board;
use sok_rules::cell::Dir;
use sok_rules::fault::Memory;
use std::alloc::Global;

/// The greatest number of hints of two boxes: 64 MiB, enough for all of them on a board of 2,048
/// squares.
const PAIRS: usize = 16_777_216;

/// The number of other hints that are kept, a prime number.
const TRIOS: usize = 65_521;

/// What is known of the pushed box with one or two other boxes, after a push.
#[derive(Clone, Copy)]
pub(crate) enum Hint {
    /// They were not checked.
    Open,
    /// No loss is known.
    Clear,
    /// The index of a loss.
    Lost(u16),
}

/// The hints that were noted.
#[derive(Drop)]
pub(crate) struct Hints {
    /// Of two boxes, by the push and the square of the other box.
    pairs: Vec<Hint>,
    /// Numbers of hints that no loss is known: of three boxes, by the push and the squares of the
    /// two others, and of two boxes that are beyond the end of `pairs`. For each remainder modulo
    /// `TRIOS`, the last one is kept.
    trios: Vec<usize>,
}

impl Hints {
    /// Returns a collection without hints, for a board with this many squares.
    pub(crate) fn new(alloc: Global, squares: usize) -> Result<Hints, Memory>
        requires { squares ≤ square_limit }
    {
        Ok(Hints {
            pairs: vec![in alloc; Hint::Open; PAIRS.min(squares * 4 * squares)]?,
            trios: vec![in alloc; 0; TRIOS]?,
        })
    }

    /// Returns the hint with a number; `Open` if it was not noted, or was displaced.
    pub(crate) fn at(&self, number: usize) -> Hint {
        match self.pairs.get(number) {
            Some(hint) => *hint,
            None if self.trios.get(number % TRIOS) == Some(&number) => Hint::Clear,
            None => Hint::Open,
        }
    }

    /// Notes which loss was found, or that none was.
    pub(crate) fn note(&mut self, number: usize, found: Option<u32>) {
        let hint = hint_from(found);
        if number < self.pairs.len() {
            self.pairs[number] = hint;
        } else if number % TRIOS < self.trios.len() && found.is_none() {
            self.trios[number % TRIOS] = number;
        }
    }
}

/// Returns the hint for a loss that was found, or for none.
fn hint_from(found: Option<u32>) -> Hint {
    match found {
        Some(place) => match u16::try_from(place) {
            Ok(place) => Hint::Lost(place),
            Err(_) => Hint::Open,
        },
        None => Hint::Clear,
    }
}

/// Returns the number of the hint for a push to `to` and one or two other boxes. The numbers for
/// three boxes are greater than those for two.
pub(crate) fn hint_of(board: &Board, dir: Dir, to: Sq, one: Sq, two: Option<Sq>) -> usize {
    let squares = board.squares();
    let side = match dir {
        Dir::Left => 0,
        Dir::Up => 1,
        Dir::Right => 2,
        Dir::Down => 3,
    };
    let pair = with_square(to as usize * 4 + side, squares, one);
    match two {
        None => pair,
        Some(two) => with_square((squares * 4).wrapping_add(pair), squares, two),
    }
}

/// Appends a square to a number, as its last digit. This never wraps if the squares are those of
/// the board. Nothing needs to prove that, since a wrong hint only costs time.
fn with_square(number: usize, squares: usize, square: Sq) -> usize {
    number.wrapping_mul(squares).wrapping_add(square as usize)
}
