//! The states of some boxes alone that are known.

ghost use Rattle.std.specs.Prelude.{◌≡◌, ◌<◌, ◌≤◌, ◌++◌, ◌∷◌, [], All, Contains, OnOk};
ghost use Rattle.std.specs.Map.{keys_of};
ghost use Rattle.sok_board.specs.Limits.{square_limit};
ghost use Rattle.sok_alone.specs.Known.{inner_at};

use sok_board::area::Sq;
use sok_entry::entry::{Inner, InnerReason, Numbers};
use sok_rules::fault::Memory;
use sok_state::key::Key;
use sok_state::table::Table;
use std::alloc::Global;

/// The states of some boxes alone that are known, in the order in which they were reached: their
/// keys, and for each a position with the reason why it may be in a closed list.
#[derive(Drop)]
pub(crate) struct Known {
    pub(crate) table: Table,
    pub(crate) inner: Vec<Inner>,
}

impl Known {
    /// Returns an empty collection with room for this many squares.
    pub(crate) fn new(alloc: Global, squares: usize) -> Known
        requires { squares ≤ square_limit }
        ensures none { result.table.entries ≡ [] }
        ensures no_inner { result.inner.items ≡ [] }
        ensures wide { squares ≤ result.table.room }
    {
        Known {
            table: Table::new(alloc, squares),
            inner: Vec::new(alloc),
        }
    }
}

/// Appends a new state. All states have depth 0.
pub(crate) fn add(
    alloc: Global,
    known: &mut Known,
    key: &Key,
    reason: InnerReason,
) -> Result<(), Memory>
    requires squares { All (λ square. square < known.old.table.room) key.now.boxes }
    requires absent { Contains (keys_of known.old.table.entries) key.now → ⊥ }
    ensures entered { OnOk result
        (known.new.table.entries ≡ known.old.table.entries ++ (key.now, 0) ∷ []) }
    ensures listed { OnOk result
        (known.new.inner.items ≡ known.old.inner.items ++ inner_at key.now reason ∷ []) }
    ensures room { known.new.table.room ≡ known.old.table.room }
{
    let boxes = Numbers::widened(alloc, key.boxes.list())?;
    let player = u32::from(key.least);
    let depth = 0;
    let (_index, _is_new) = known.table.insert(key, depth)?;
    known.inner.push(Inner {
        depth,
        player,
        boxes,
        reason,
    })?;
    Ok(())
}
