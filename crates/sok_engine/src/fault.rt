//! Why the program ends without an answer.

ghost use Rattle.std.specs.Prelude.{◌≡◌, Some};
ghost use Rattle.sok_engine.specs.FaultLines.{fault_words};
ghost use Rattle.sok_engine.specs.Faults.{status_of, tool_fault_number, tool_fault_status};
ghost use Rattle.sok_engine.specs.Faults.{of_board, of_book, of_input, of_level, of_lurd, of_play};
ghost use Rattle.sok_engine.specs.declared.fault.ToolFault.TheVariants as tool;

use crate::input::InputFault;
use crate::output::WriteFailed;
use sok_board::fault::BoardFault;
use sok_book::fault::BookFault;
use sok_rules::fault::{LevelFault, Memory, PlayFault};
use sok_text::lurd::LurdFault;
use std::alloc::{AllocError, AllocFailed};
use std::fmt;
use thiserror::Error;

/// Why the program ends without an answer: a fault of a layer below, or one of its own. If memory
/// runs out, it is always `Memory`, whichever layer reports it. A fault is displayed as `fault`,
/// its number, its name and its arguments, each after one space.
#[derive(Clone, Copy, Debug, PartialEq, Eq, Error)]
pub enum ToolFault {
    /// The collection has no level with this number, or its rows are no level.
    Level(LevelFault),
    /// No board can be made of the level.
    Board(BoardFault),
    /// The text is no list of letters.
    Lurd(LurdFault),
    /// The letters can't be played.
    Play(PlayFault),
    /// The command on a book is refused, or the book is not opened.
    Book(BookFault),
    /// The limit of states is 0, or above 1,000,000.
    BadLimit,
    /// Memory was refused.
    Memory,
    /// A read failed, for any cause.
    ReadFailed,
    /// A write failed, for any cause.
    WriteFailed,
    /// An input has more bytes than its limit, or a certificate would have.
    TooMuch,
}

impl ToolFault {
    /// Returns the number by which the fault is printed.
    pub fn number(&self) -> u8
        ensures { result ≡ tool_fault_number self.now }
    {
        match self {
            ToolFault::Level(fault) => fault.number(),
            ToolFault::Board(fault) => fault.number(),
            ToolFault::Lurd(fault) => fault.number(),
            ToolFault::Play(fault) => fault.number(),
            ToolFault::Book(fault) => fault.number(),
            ToolFault::BadLimit => 16,
            ToolFault::Memory => 40,
            ToolFault::ReadFailed => 50,
            ToolFault::WriteFailed => 51,
            ToolFault::TooMuch => 52,
        }
    }

    /// Returns the exit status: 1 if letters do not solve a level or a certificate is refused, 3 if
    /// the input is at fault, 5 if a device or the database is, and 6 for memory.
    pub fn status(&self) -> u8
        ensures { result ≡ tool_fault_status self.now }
    {
        status_of(self.number())
    }
}

/// Returns the exit status of the faults with this number.
fn status_of(number: u8) -> u8
    ensures { result ≡ status_of number }
{
    match number {
        13 | 20..=28 => 1,
        32 | 34 | 50 | 51 => 5,
        40 => 6,
        _ => 3,
    }
}

impl fmt::Display for ToolFault {
    ghost output = { λ fault. Some (fault_words fault) };

    fn fmt<W: fmt::Write>(&self, f: &mut fmt::Formatter<W>) -> fmt::Result {
        match self {
            ToolFault::Level(fault) => write!(f, "fault {} {fault}", fault.number()),
            ToolFault::Board(fault) => write!(f, "fault {} {fault}", fault.number()),
            ToolFault::Lurd(fault) => write!(f, "fault {} {fault}", fault.number()),
            ToolFault::Play(fault) => write!(f, "fault {} {fault}", fault.number()),
            ToolFault::Book(fault) => write!(f, "fault {} {fault}", fault.number()),
            ToolFault::BadLimit => write!(f, "fault 16 BadLimit"),
            ToolFault::Memory => write!(f, "fault 40 Memory"),
            ToolFault::ReadFailed => write!(f, "fault 50 ReadFailed"),
            ToolFault::WriteFailed => write!(f, "fault 51 WriteFailed"),
            ToolFault::TooMuch => write!(f, "fault 52 TooMuch"),
        }
    }
}

impl From<LevelFault> for ToolFault {
    ghost from_gives = { λ from fault. fault ≡ of_level from };

    fn from(fault: LevelFault) -> ToolFault {
        match fault {
            LevelFault::Memory => ToolFault::Memory,
            _ => ToolFault::Level(fault),
        }
    }
}

impl From<BoardFault> for ToolFault {
    ghost from_gives = { λ from fault. fault ≡ of_board from };

    fn from(fault: BoardFault) -> ToolFault {
        match fault {
            BoardFault::Memory => ToolFault::Memory,
            _ => ToolFault::Board(fault),
        }
    }
}

impl From<LurdFault> for ToolFault {
    ghost from_gives = { λ from fault. fault ≡ of_lurd from };

    fn from(fault: LurdFault) -> ToolFault {
        match fault {
            LurdFault::Memory => ToolFault::Memory,
            _ => ToolFault::Lurd(fault),
        }
    }
}

impl From<PlayFault> for ToolFault {
    ghost from_gives = { λ from fault. fault ≡ of_play from };

    fn from(fault: PlayFault) -> ToolFault {
        match fault {
            PlayFault::Memory => ToolFault::Memory,
            _ => ToolFault::Play(fault),
        }
    }
}

impl From<BookFault> for ToolFault {
    ghost from_gives = { λ from fault. fault ≡ of_book from };

    fn from(fault: BookFault) -> ToolFault {
        match fault {
            BookFault::Memory => ToolFault::Memory,
            _ => ToolFault::Book(fault),
        }
    }
}

impl From<InputFault> for ToolFault {
    ghost from_gives = { λ from fault. fault ≡ of_input from };

    fn from(fault: InputFault) -> ToolFault {
        match fault {
            InputFault::Memory => ToolFault::Memory,
            InputFault::ReadFailed => ToolFault::ReadFailed,
            InputFault::TooMuch => ToolFault::TooMuch,
        }
    }
}

impl From<WriteFailed> for ToolFault {
    ghost from_gives = { λ _ fault. fault ≡ tool.WriteFailed };

    fn from(_failed: WriteFailed) -> ToolFault {
        ToolFault::WriteFailed
    }
}

impl From<Memory> for ToolFault {
    ghost from_gives = { λ _ fault. fault ≡ tool.Memory };

    fn from(_error: Memory) -> ToolFault {
        ToolFault::Memory
    }
}

impl From<AllocError> for ToolFault {
    ghost from_gives = { λ _ fault. fault ≡ tool.Memory };

    fn from(_error: AllocError) -> ToolFault {
        ToolFault::Memory
    }
}

impl<T: Drop> From<AllocFailed<T>> for ToolFault {
    ghost from_gives = { λ _ fault. fault ≡ tool.Memory };

    fn from(_error: AllocFailed<T>) -> ToolFault {
        ToolFault::Memory
    }
}
