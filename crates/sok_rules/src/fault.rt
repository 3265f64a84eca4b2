//! Why rows are not a level, and why letters cannot be played.

ghost use Rattle.std.specs.Prelude.{◌≡◌, Some};
ghost use Rattle.sok_rules.specs.Faults.{level_fault_number, level_fault_words};
ghost use Rattle.sok_rules.specs.Faults.{play_fault_number, play_fault_words};
ghost use Rattle.sok_rules.specs.declared.fault.LevelFault.TheVariants as level;
ghost use Rattle.sok_rules.specs.declared.fault.PlayFault.TheVariants as play;

use std::alloc::{AllocError, AllocFailed};
use std::fmt;
use thiserror::Error;

/// Why rows are not a level, or why there is no level at all. It is displayed as its name, followed
/// by its argument if it has one.
#[derive(Clone, Copy, Debug, PartialEq, Eq, Error)]
pub enum LevelFault {
    /// A row has more than 128 cells.
    TooWide,
    /// There are more than 128 rows.
    TooTall,
    NoPlayer,
    ManyPlayers,
    NoBox,
    /// A collection has no level with this number.
    NoSuchLevel,
    /// A row has no wall: the first such row, counted from 0.
    NoWall(u32),
    /// Memory was refused.
    Memory,
}

impl LevelFault {
    /// Returns the number with which the fault is printed.
    pub fn number(&self) -> u8
        ensures { result ≡ level_fault_number self.now }
    {
        match self {
            LevelFault::TooWide => 1,
            LevelFault::TooTall => 2,
            LevelFault::NoPlayer => 3,
            LevelFault::ManyPlayers => 4,
            LevelFault::NoBox => 5,
            LevelFault::NoSuchLevel => 15,
            LevelFault::NoWall(_) => 17,
            LevelFault::Memory => 40,
        }
    }
}

impl fmt::Display for LevelFault {
    ghost output = { λ fault. Some (level_fault_words fault) };

    fn fmt<W: fmt::Write>(&self, f: &mut fmt::Formatter<W>) -> fmt::Result {
        match self {
            LevelFault::TooWide => write!(f, "TooWide"),
            LevelFault::TooTall => write!(f, "TooTall"),
            LevelFault::NoPlayer => write!(f, "NoPlayer"),
            LevelFault::ManyPlayers => write!(f, "ManyPlayers"),
            LevelFault::NoBox => write!(f, "NoBox"),
            LevelFault::NoSuchLevel => write!(f, "NoSuchLevel"),
            LevelFault::NoWall(row) => write!(f, "NoWall {row}"),
            LevelFault::Memory => write!(f, "Memory"),
        }
    }
}

impl From<AllocError> for LevelFault {
    ghost from_gives = { λ _ fault. fault ≡ level.Memory };

    fn from(_error: AllocError) -> LevelFault {
        LevelFault::Memory
    }
}

impl<T: Drop> From<AllocFailed<T>> for LevelFault {
    ghost from_gives = { λ _ fault. fault ≡ level.Memory };

    fn from(_error: AllocFailed<T>) -> LevelFault {
        LevelFault::Memory
    }
}

/// Why a letter or a list of letters is not played. It is displayed as its name, followed by its
/// argument if it has one.
#[derive(Clone, Copy, Debug, PartialEq, Eq, Error)]
pub enum PlayFault {
    /// A letter is not legal: the place of the first such letter, counted from 0.
    Blocked(usize),
    /// 1,000,000 letters have been played already.
    TooLong,
    /// Memory was refused.
    Memory,
}

impl PlayFault {
    /// Returns the number with which the fault is printed.
    pub fn number(&self) -> u8
        ensures { result ≡ play_fault_number self.now }
    {
        match self {
            PlayFault::Blocked(_) => 12,
            PlayFault::TooLong => 14,
            PlayFault::Memory => 40,
        }
    }
}

impl fmt::Display for PlayFault {
    ghost output = { λ fault. Some (play_fault_words fault) };

    fn fmt<W: fmt::Write>(&self, f: &mut fmt::Formatter<W>) -> fmt::Result {
        match self {
            PlayFault::Blocked(at) => write!(f, "Blocked {at}"),
            PlayFault::TooLong => write!(f, "TooLong"),
            PlayFault::Memory => write!(f, "Memory"),
        }
    }
}

impl From<AllocError> for PlayFault {
    ghost from_gives = { λ _ fault. fault ≡ play.Memory };

    fn from(_error: AllocError) -> PlayFault {
        PlayFault::Memory
    }
}

impl<T: Drop> From<AllocFailed<T>> for PlayFault {
    ghost from_gives = { λ _ fault. fault ≡ play.Memory };

    fn from(_error: AllocFailed<T>) -> PlayFault {
        PlayFault::Memory
    }
}

impl From<Memory> for PlayFault {
    ghost from_gives = { λ _ fault. fault ≡ play.Memory };

    fn from(_error: Memory) -> PlayFault {
        PlayFault::Memory
    }
}

/// The fault of calls that fail only if memory is refused.
#[derive(Clone, Copy, Debug, PartialEq, Eq, Error)]
#[error("Memory")]
pub struct Memory;

impl Memory {
    /// Returns the number with which the fault is printed.
    pub fn number(&self) -> u8
        ensures { result ≡ 40 }
    {
        40
    }
}

impl From<AllocError> for Memory {
    fn from(_error: AllocError) -> Memory {
        Memory
    }
}

impl<T: Drop> From<AllocFailed<T>> for Memory {
    fn from(_error: AllocFailed<T>) -> Memory {
        Memory
    }
}
