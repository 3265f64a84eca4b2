//! Why a command is refused.

ghost use Rattle.std.specs.Prelude.{◌≡◌, Some};
ghost use Rattle.sok_book.specs.Faults.{book_fault_number, book_fault_words};
ghost use Rattle.sok_book.specs.Faults.{of_board, of_certificate, of_play};
ghost use Rattle.sok_book.specs.declared.fault.BookFault.TheVariants as book;

use sok_board::fault::BoardFault;
use sok_cert::fault::CertFault;
use sok_rules::fault::{Memory, PlayFault};
use std::alloc::{AllocError, AllocFailed};
use std::fmt;
use thiserror::Error;

/// Why a command is refused, or a book is not opened. It is displayed as its name and its
/// arguments.
#[derive(Clone, Copy, Debug, PartialEq, Eq, Error)]
pub enum BookFault {
    /// No board can be made of the added level.
    Level(BoardFault),
    /// An offered letter is not legal, or there are more than 1,000,000 letters.
    Letters(PlayFault),
    /// The letters are legal, but not all boxes stand on goals after them.
    NotSolved,
    /// The bytes are no certificate, or its list is not closed.
    Certificate(CertFault),
    /// The book has no level with this id.
    NoLevel,
    /// The claim states a number of pushes, but the level has no solution yet.
    NoBest,
    /// The database refused, for a cause other than memory.
    Database,
    /// The claim does not fit the best solution: it states another number of pushes, or that there
    /// is no solution.
    ClaimDiffers,
    /// The id of the first row that breaks a rule of books; its place if the id is no whole number.
    BadBook(i64),
    /// The level is new, and the book already has 10,000.
    BookFull,
    /// Memory was refused.
    Memory,
}

impl BookFault {
    /// Returns the number by which the fault is printed.
    pub fn number(&self) -> u8
        ensures { result ≡ book_fault_number self.now }
    {
        match self {
            BookFault::Level(fault) => fault.number(),
            BookFault::Letters(fault) => fault.number(),
            BookFault::NotSolved => 13,
            BookFault::Certificate(fault) => fault.number(),
            BookFault::NoLevel => 30,
            BookFault::NoBest => 31,
            BookFault::Database => 32,
            BookFault::ClaimDiffers => 33,
            BookFault::BadBook(_) => 34,
            BookFault::BookFull => 35,
            BookFault::Memory => 40,
        }
    }
}

impl fmt::Display for BookFault {
    ghost output = { λ fault. Some (book_fault_words fault) };

    fn fmt<W: fmt::Write>(&self, f: &mut fmt::Formatter<W>) -> fmt::Result {
        match self {
            BookFault::Level(fault) => write!(f, "{fault}"),
            BookFault::Letters(fault) => write!(f, "{fault}"),
            BookFault::NotSolved => write!(f, "NotSolved"),
            BookFault::Certificate(fault) => write!(f, "{fault}"),
            BookFault::NoLevel => write!(f, "NoLevel"),
            BookFault::NoBest => write!(f, "NoBest"),
            BookFault::Database => write!(f, "Database"),
            BookFault::ClaimDiffers => write!(f, "ClaimDiffers"),
            BookFault::BadBook(id) => write!(f, "BadBook {id}"),
            BookFault::BookFull => write!(f, "BookFull"),
            BookFault::Memory => write!(f, "Memory"),
        }
    }
}

impl From<AllocError> for BookFault {
    ghost from_gives = { λ _ fault. fault ≡ book.Memory };

    fn from(_error: AllocError) -> BookFault {
        BookFault::Memory
    }
}

impl<T: Drop> From<AllocFailed<T>> for BookFault {
    ghost from_gives = { λ _ fault. fault ≡ book.Memory };

    fn from(_error: AllocFailed<T>) -> BookFault {
        BookFault::Memory
    }
}

impl From<Memory> for BookFault {
    ghost from_gives = { λ _ fault. fault ≡ book.Memory };

    fn from(_error: Memory) -> BookFault {
        BookFault::Memory
    }
}

impl From<BoardFault> for BookFault {
    ghost from_gives = { λ from fault. fault ≡ of_board from };

    fn from(fault: BoardFault) -> BookFault {
        match fault {
            BoardFault::Memory => BookFault::Memory,
            _ => BookFault::Level(fault),
        }
    }
}

impl From<PlayFault> for BookFault {
    ghost from_gives = { λ from fault. fault ≡ of_play from };

    fn from(fault: PlayFault) -> BookFault {
        match fault {
            PlayFault::Memory => BookFault::Memory,
            _ => BookFault::Letters(fault),
        }
    }
}

impl From<CertFault> for BookFault {
    ghost from_gives = { λ from fault. fault ≡ of_certificate from };

    fn from(fault: CertFault) -> BookFault {
        match fault {
            CertFault::Memory => BookFault::Memory,
            _ => BookFault::Certificate(fault),
        }
    }
}
