//! The squares of the boxes of a position.

ghost use Rattle.std.specs.Prelude.{◌≡◌, ◌<◌, ◌≤◌, ◌↔◌, All, IfOk, IsTrue, Contains, length};
ghost use Rattle.std.specs.List.Sorted.{IsStrictlyIncreasing};
ghost use Rattle.sok_board.specs.Limits.{box_limit, square_limit};
ghost use Rattle.sok_board.specs.BoxSets.{IsMoved, put_in_order};

use crate::area::Sq;
use smallvec::SmallVec;
use sok_rules::fault::Memory;
use std::alloc::Global;
use std::marker::Model;

/// The squares of at most 128 boxes, in ascending order. Up to 16 are stored without an allocation.
#[derive(Drop)]
pub struct BoxSet {
    squares: SmallVec<Sq, 16>,
}

impl Model for BoxSet {
    ghost use Rattle.std.specs.Prelude.{ℕ, List};
    ghost use Rattle.sok_board.specs.BoxSets.{IsBoxList};

    ghost Value = { List ℕ };

    ghost view = { λ set. set.squares.items };

    ghost invariant = { λ set. IsBoxList set.squares.items };
}

impl BoxSet {
    /// Makes the set of these squares. Fails only if memory is refused.
    pub fn of(alloc: Global, squares: &[Sq]) -> Result<BoxSet, Memory>
        requires rising { IsStrictlyIncreasing squares.now }
        requires few { length squares.now ≤ box_limit }
        ensures list { IfOk result (λ set. set ≡ squares.now) }
    {
        let squares = SmallVec::from_slice(alloc, squares)?;
        Ok(BoxSet { squares })
    }

    /// Makes the set of the squares with these numbers. Fails only if memory is refused.
    pub fn numbered(alloc: Global, numbers: &[u32]) -> Result<BoxSet, Memory>
        requires small { All (λ number. number < square_limit) numbers.now }
        requires rising { IsStrictlyIncreasing numbers.now }
        requires few { length numbers.now ≤ box_limit }
        ensures list { IfOk result (λ set. set ≡ numbers.now) }
    {
        let mut squares = SmallVec::new(alloc);
        for number in numbers {
            squares.push(*number as Sq)?;
        }
        Ok(BoxSet { squares })
    }

    /// Returns a copy of the set. Fails only if memory is refused.
    pub fn copy(&self, alloc: Global) -> Result<BoxSet, Memory>
        ensures same { IfOk result (λ set. set ≡ self.now) }
    {
        BoxSet::of(alloc, self.list())
    }

    /// Returns the squares, in ascending order.
    pub fn list(&self) -> &[Sq]
        ensures list { result.now ≡ self.now }
        ensures rising { IsStrictlyIncreasing self.now }
        ensures few { length self.now ≤ box_limit }
    {
        self.squares.as_slice()
    }

    /// Returns whether a square is in the set.
    pub fn has(&self, square: Sq) -> bool
        ensures { IsTrue result ↔ Contains self.now square }
    {
        self.list().contains(&square)
    }

    /// Returns the set after a push, which moves a box from one square to another. Fails only if
    /// memory is refused.
    pub fn moved(&self, alloc: Global, from: Sq, to: Sq) -> Result<BoxSet, Memory>
        requires from { Contains self.now from }
        requires to { Contains self.now to → ⊥ }
        ensures moved { IfOk result (IsMoved self.now from to) }
        ensures rising { IfOk result IsStrictlyIncreasing }
        ensures as_many { IfOk result (λ after. length after ≡ length self.now) }
    {
        let squares = put_in_order(alloc, self.list(), from, to)?;
        Ok(BoxSet { squares })
    }
}

/// Returns an ascending list without the square `from` and with the square `to`.
fn put_in_order(alloc: Global, list: &[Sq], from: Sq, to: Sq) -> Result<SmallVec<Sq, 16>, Memory>
    ensures { IfOk result (λ after. after.items ≡ put_in_order from to list.now) }
{
    let mut after = SmallVec::new(alloc);
    let mut put = false;
    for square in list {
        if !put && to < *square {
            after.push(to)?;
            put = true;
        }
        if *square != from {
            after.push(*square)?;
        }
    }
    if !put {
        after.push(to)?;
    }
    Ok(after)
}
