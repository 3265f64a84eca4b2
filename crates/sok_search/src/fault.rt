//! Why a level is not solved.

ghost use Rattle.std.specs.Prelude.{◌≡◌, Some};
ghost use Rattle.sok_search.specs.Faults.{of_board, solve_fault_number, solve_fault_words};
ghost use Rattle.sok_search.specs.declared.fault.SolveFault.TheVariants as solve;

use sok_board::fault::BoardFault;
use sok_rules::fault::Memory;
use std::fmt;
use thiserror::Error;

/// Why a level is not searched. It is displayed as its name and its arguments.
#[derive(Clone, Copy, Debug, PartialEq, Eq, Error)]
pub enum SolveFault {
    /// The limit is 0, or above 1,000,000.
    BadLimit,
    /// No board can be made of the level.
    Level(BoardFault),
    /// Memory was refused.
    Memory,
}

impl SolveFault {
    /// Returns the number by which the fault is printed.
    pub fn number(&self) -> u8
        ensures { result ≡ solve_fault_number self.now }
    {
        match self {
            SolveFault::BadLimit => 16,
            SolveFault::Level(fault) => fault.number(),
            SolveFault::Memory => 40,
        }
    }
}

impl fmt::Display for SolveFault {
    ghost output = { λ fault. Some (solve_fault_words fault) };

    fn fmt<W: fmt::Write>(&self, f: &mut fmt::Formatter<W>) -> fmt::Result {
        match self {
            SolveFault::BadLimit => write!(f, "BadLimit"),
            SolveFault::Level(fault) => write!(f, "{fault}"),
            SolveFault::Memory => write!(f, "Memory"),
        }
    }
}

impl From<BoardFault> for SolveFault {
    ghost from_gives = { λ from fault. fault ≡ of_board from };

    fn from(fault: BoardFault) -> SolveFault {
        match fault {
            BoardFault::Memory => SolveFault::Memory,
            _ => SolveFault::Level(fault),
        }
    }
}

impl From<Memory> for SolveFault {
    ghost from_gives = { λ _ fault. fault ≡ solve.Memory };

    fn from(_error: Memory) -> SolveFault {
        SolveFault::Memory
    }
}
