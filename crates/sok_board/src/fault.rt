//! Why a level is not accepted.

ghost use Rattle.std.specs.Prelude.{◌≡◌, Some};
ghost use Rattle.sok_board.specs.Faults.{board_fault_number, board_fault_words};
ghost use Rattle.sok_board.specs.declared.fault.BoardFault.TheVariants as board;

use sok_rules::cell::Spot;
use sok_rules::fault::Memory;
use std::alloc::{AllocError, AllocFailed};
use std::fmt;
use thiserror::Error;

/// Why no board is made of a level. It is displayed as its name, followed by its arguments if it
/// has any.
#[derive(Clone, Copy, Debug, PartialEq, Eq, Error)]
pub enum BoardFault {
    /// The area is not enclosed: its first square, row by row, that has a neighbour in no row.
    NotEnclosed(Spot),
    /// A box stands outside the area and off a goal: the first such box, row by row.
    BoxOutside(Spot),
    /// The area has fewer goals than boxes.
    TooFewGoals,
    /// The area has more than 4,096 squares.
    TooLarge,
    /// The area has more than 128 boxes.
    TooManyBoxes,
    /// Memory was refused.
    Memory,
}

impl BoardFault {
    /// Returns the number with which the fault is printed.
    pub fn number(&self) -> u8
        ensures { result ≡ board_fault_number self.now }
    {
        match self {
            BoardFault::NotEnclosed(_) => 6,
            BoardFault::BoxOutside(_) => 7,
            BoardFault::TooFewGoals => 8,
            BoardFault::TooLarge => 9,
            BoardFault::TooManyBoxes => 10,
            BoardFault::Memory => 40,
        }
    }
}

impl fmt::Display for BoardFault {
    ghost output = { λ fault. Some (board_fault_words fault) };

    fn fmt<W: fmt::Write>(&self, f: &mut fmt::Formatter<W>) -> fmt::Result {
        match self {
            BoardFault::NotEnclosed(spot) => write!(f, "NotEnclosed {} {}", spot.row, spot.col),
            BoardFault::BoxOutside(spot) => write!(f, "BoxOutside {} {}", spot.row, spot.col),
            BoardFault::TooFewGoals => write!(f, "TooFewGoals"),
            BoardFault::TooLarge => write!(f, "TooLarge"),
            BoardFault::TooManyBoxes => write!(f, "TooManyBoxes"),
            BoardFault::Memory => write!(f, "Memory"),
        }
    }
}

impl From<AllocError> for BoardFault {
    ghost from_gives = { λ _ fault. fault ≡ board.Memory };

    fn from(_error: AllocError) -> BoardFault {
        BoardFault::Memory
    }
}

impl<T: Drop> From<AllocFailed<T>> for BoardFault {
    ghost from_gives = { λ _ fault. fault ≡ board.Memory };

    fn from(_error: AllocFailed<T>) -> BoardFault {
        BoardFault::Memory
    }
}

impl From<Memory> for BoardFault {
    ghost from_gives = { λ _ fault. fault ≡ board.Memory };

    fn from(_error: Memory) -> BoardFault {
        BoardFault::Memory
    }
}
