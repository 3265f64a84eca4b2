//! The outcome of a run.

use std::fmt;

/// The outcome of a run, or of a call in it.
#[derive(Clone, Copy, PartialEq, Eq)]
pub(crate) enum Told {
    /// It answered and left what it should.
    Same,
    /// Memory was refused to it, which left its arguments as they were; again, it did what it
    /// should.
    Refused,
    /// It did something else, at this place.
    Other(usize),
}

impl Told {
    /// Returns this outcome if a call did what it should, and otherwise that it did not, at its
    /// place.
    pub(crate) fn checked(self, holds: bool, place: usize) -> Told {
        if holds { self } else { Told::Other(place) }
    }

    /// Returns the outcome of this call and then of another one.
    pub(crate) fn then(self, next: Told) -> Told {
        match (self, next) {
            (Told::Other(place), _) => Told::Other(place),
            (Told::Refused, Told::Same) => Told::Refused,
            _ => next,
        }
    }
}

impl fmt::Display for Told {
    fn fmt<W: fmt::Write>(&self, f: &mut fmt::Formatter<W>) -> fmt::Result {
        match self {
            Told::Same => write!(f, "same"),
            Told::Refused => write!(f, "memory"),
            Told::Other(place) => write!(f, "other {place}"),
        }
    }
}
