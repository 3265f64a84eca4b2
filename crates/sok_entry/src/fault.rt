//! Why a text is no certificate, and why a certificate is refused.

ghost use Rattle.std.specs.Prelude.{◌≡◌, Some};
ghost use Rattle.sok_entry.specs.Faults.{cert_fault_number, cert_fault_words};
ghost use Rattle.sok_entry.specs.declared.fault.CertFault.TheVariants as cert;

use sok_rules::cell::Dir;
use sok_rules::fault::Memory;
use std::alloc::{AllocError, AllocFailed};
use std::fmt;
use thiserror::Error;

/// Why a text is no certificate, or why a certificate does not show its claim. Lines are counted
/// from 1 and entries from 0. A fault is displayed as its name and its arguments.
#[derive(Clone, Copy, Debug, PartialEq, Eq, Error)]
pub enum CertFault {
    /// The first or second line is missing or has another form.
    Header,
    /// This line follows `end`, or is neither an entry nor `end`, or is no inner position although
    /// one has to follow.
    Line(usize),
    /// The text ends before the line `end`.
    Truncated,
    /// No entry of depth 0 is the start.
    Start,
    /// An earlier entry has the same state as this one.
    Duplicate(usize),
    /// This entry is no position of the level.
    BadEntry(usize),
    /// This entry is expanded, with all boxes on goals.
    SolvedEntry(usize),
    /// From this entry the box on this square can be pushed this way, but no entry that is at most
    /// one deeper has the resulting state.
    OpenPush(usize, u16, Dir),
    /// The reason of this entry does not hold.
    BadReason(usize),
    /// Memory was refused.
    Memory,
}

impl CertFault {
    /// Returns the number with which the fault is printed.
    pub fn number(&self) -> u8
        ensures { result ≡ cert_fault_number self.now }
    {
        match self {
            CertFault::Header => 20,
            CertFault::Line(_) => 21,
            CertFault::Truncated => 22,
            CertFault::Start => 23,
            CertFault::Duplicate(_) => 24,
            CertFault::BadEntry(_) => 25,
            CertFault::SolvedEntry(_) => 26,
            CertFault::OpenPush(_, _, _) => 27,
            CertFault::BadReason(_) => 28,
            CertFault::Memory => 40,
        }
    }
}

impl fmt::Display for CertFault {
    ghost output = { λ fault. Some (cert_fault_words fault) };

    fn fmt<W: fmt::Write>(&self, f: &mut fmt::Formatter<W>) -> fmt::Result {
        match self {
            CertFault::Header => write!(f, "Header"),
            CertFault::Line(line) => write!(f, "Line {line}"),
            CertFault::Truncated => write!(f, "Truncated"),
            CertFault::Start => write!(f, "Start"),
            CertFault::Duplicate(entry) => write!(f, "Duplicate {entry}"),
            CertFault::BadEntry(entry) => write!(f, "BadEntry {entry}"),
            CertFault::SolvedEntry(entry) => write!(f, "SolvedEntry {entry}"),
            CertFault::OpenPush(entry, square, dir) => write!(f, "OpenPush {entry} {square} {dir}"),
            CertFault::BadReason(entry) => write!(f, "BadReason {entry}"),
            CertFault::Memory => write!(f, "Memory"),
        }
    }
}

impl From<AllocError> for CertFault {
    ghost from_gives = { λ _ fault. fault ≡ cert.Memory };

    fn from(_error: AllocError) -> CertFault {
        CertFault::Memory
    }
}

impl<T: Drop> From<AllocFailed<T>> for CertFault {
    ghost from_gives = { λ _ fault. fault ≡ cert.Memory };

    fn from(_error: AllocFailed<T>) -> CertFault {
        CertFault::Memory
    }
}

impl From<Memory> for CertFault {
    ghost from_gives = { λ _ fault. fault ≡ cert.Memory };

    fn from(_error: Memory) -> CertFault {
        CertFault::Memory
    }
}
