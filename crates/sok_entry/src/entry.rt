//! A certificate: its claim, and its positions, each with a reason.

ghost use Rattle.std.specs.Prelude.{◌≡◌, IfOk};

use crate::claim::Claim;
use crate::inners::Inners;
use std::alloc::{AllocError, Global};
use std::marker::Model;

/// A claim, and positions that show it, each with a reason.
#[derive(Drop)]
pub struct Certificate {
    pub claim: Claim,
    pub entries: Vec<Entry>,
}

/// A position of the level. Player and boxes are numbers of squares; `depth` is the number of
/// pushes made before. A well-formed entry has its boxes in rising order.
#[derive(Drop)]
pub struct Entry {
    pub depth: u32,
    pub player: u32,
    pub boxes: Numbers,
    pub reason: Reason,
}

/// The reason why a position may be in a certificate.
#[derive(Drop)]
pub enum Reason {
    /// Every push leads to another entry.
    Expanded,
    /// At least as many pushes as claimed were made already.
    Spent,
    /// Dual prices show how many more pushes are needed: `u` prices the boxes and `v` the goals,
    /// both in rising order of squares.
    Bound { u: Numbers, v: Numbers },
    /// Some boxes can reach too few goals. Members are indices of boxes in the entry's list, from
    /// 0.
    Crowd { members: Numbers },
    /// Some boxes block one another forever. Members as in `Crowd`.
    Frozen { members: Numbers },
    /// Some boxes, taken alone, can't be solved from where the player stands. Members as in
    /// `Crowd`; `inner` is a list of positions of these boxes alone that is closed under pushes.
    Pattern { members: Numbers, inner: Inners },
}

/// A position of some boxes alone. Player and boxes are numbers of squares; `depth` is the number
/// of pushes made before. A well-formed one has its boxes in rising order.
#[derive(Drop)]
pub struct Inner {
    pub depth: u32,
    pub player: u32,
    pub boxes: Numbers,
    pub reason: InnerReason,
}

/// The reason why a position of some boxes alone may be in a pattern.
#[derive(Drop)]
pub enum InnerReason {
    /// Every push of these boxes alone leads to another position of the pattern.
    Expanded,
    /// Some of these boxes can reach too few goals. Members are indices of boxes in the list of
    /// this position, from 0.
    Crowd { members: Numbers },
    /// Some of these boxes block one another forever. Members as in `Crowd`.
    Frozen { members: Numbers },
}

/// A list of numbers. The contracts see it as a list.
#[derive(Drop)]
pub struct Numbers {
    items: Vec<u32>,
}

impl Model for Numbers {
    ghost use Rattle.std.specs.Prelude.{ℕ, List};

    ghost Value = { List ℕ };

    ghost view = { λ numbers. numbers.items.items };
}

impl Numbers {
    /// Copies a slice.
    pub fn copied(alloc: Global, numbers: &[u32]) -> Result<Numbers, AllocError>
        ensures { IfOk result (λ list. list ≡ numbers.now) }
    {
        Ok(Numbers {
            items: Vec::from_slice(alloc, numbers)?,
        })
    }

    /// Copies a slice of narrower numbers.
    pub fn widened(alloc: Global, numbers: &[u16]) -> Result<Numbers, AllocError>
        ensures { IfOk result (λ list. list ≡ numbers.now) }
    {
        let mut items = Vec::with_capacity(alloc, numbers.len())?;
        for number in numbers {
            items.push(u32::from(*number))?;
        }
        Ok(Numbers { items })
    }

    /// Returns the numbers without a copy.
    pub fn as_slice(&self) -> &[u32]
        ensures { result.now ≡ self.now }
    {
        self.items.as_slice()
    }
}

impl From<Vec<u32>> for Numbers {
    ghost from_gives = { λ items numbers. numbers ≡ items.items };

    fn from(items: Vec<u32>) -> Numbers {
        Numbers { items }
    }
}
