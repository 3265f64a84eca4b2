//! A table of packed keys, in the form that suits a board.

ghost use Rattle.std.specs.Prelude.{ℕ, ◌≡◌, ◌<◌, ◌≤◌, ◌↔◌, ◌⊎◌, IfOk, IsOk, IsTrue};
ghost use Rattle.std.specs.Prelude.{OnOk, Contains, length};
ghost use Rattle.std.specs.Map.{keys_of};
ghost use Rattle.sok_state.specs.declared.key.Key.{Key};
ghost use Rattle.sok_state.specs.Stores.{seen, TakesCount, TakesMove};
ghost use Rattle.sok_state.specs.Tables.{LacksNext};

use crate::bit_key::BitKey;
use crate::list_key::{self, ListKey};
use crate::packed_table::PackedTable;
use sok_board::area::Sq;
use sok_rules::fault::Memory;
use std::alloc::Global;

/// A table of packed keys: bits, as few words as the squares of the board need. On a board of more
/// than 1,024 squares the keys are lists, until one has too many boxes for a list; then all become
/// bits.
#[derive(Drop)]
pub(crate) enum Store {
    One(PackedTable<BitKey<1>>),
    Two(PackedTable<BitKey<2>>),
    Four(PackedTable<BitKey<4>>),
    Sixteen(PackedTable<BitKey<16>>),
    SixtyFour(PackedTable<BitKey<64>>),
    Listed(Global, PackedTable<ListKey>),
}

/// Returns whether a store has a form for a key with so many boxes. If not, it has no such key.
pub(crate) fn takes_count(store: &Store, boxes: usize) -> bool
    ensures takes { IsTrue result ↔ TakesCount store.now boxes }
    ensures lacks { IsTrue result ⊎ ((key : Key) → length key.boxes ≡ boxes
        → Contains (keys_of (seen store.now).entries) key → ⊥) }
{
    match store {
        Store::Listed(_, lists) => {
            lists.forms();
            boxes <= list_key::BOXES
        }
        Store::One(_) | Store::Two(_) | Store::Four(_) | Store::Sixteen(_) | Store::SixtyFour(_) =>
            true,
    }
}

/// Returns whether a store has a form for the key after a push from the key at `index`. If not, it
/// has no such key.
pub(crate) fn takes_next(store: &Store, index: usize, from: Sq, to: Sq) -> bool
    requires exists { index < length (seen store.now).entries }
    requires to { to < (seen store.now).room }
    ensures takes { IsTrue result → TakesMove store.now index from to }
    ensures lacks { IsTrue result
        ⊎ ((least : ℕ) → LacksNext (seen store.now).entries index from to least) }
{
    match store {
        Store::Listed(_, lists) => {
            lists.forms();
            lists.packed(index).takes_move(from, to)
        }
        Store::One(_) | Store::Two(_) | Store::Four(_) | Store::Sixteen(_) | Store::SixtyFour(_) =>
            true,
    }
}

/// Converts lists to bits; a store of bits stays as it is. Errors: `Memory`; then nothing has
/// changed.
pub(crate) fn widen(store: &mut Store) -> Result<(), Memory>
    ensures entries { (seen store.new).entries ≡ (seen store.old).entries }
    ensures room { (seen store.new).room ≡ (seen store.old).room }
    ensures spare { (seen store.old).spare ≤ (seen store.new).spare }
    ensures succeeds { 0 < (seen store.old).spare → IsOk result }
    ensures takes { OnOk result ((boxes : ℕ) → TakesCount store.new boxes) }
    ensures takes_moves { OnOk result
        ((index from to : ℕ) → TakesMove store.new index from to) }
{
    let bits = match store {
        Store::Listed(alloc, lists) => in_bits(*alloc, lists)?,
        Store::One(_) | Store::Two(_) | Store::Four(_) | Store::Sixteen(_) | Store::SixtyFour(_) =>
            return Ok(()),
    };
    *store = Store::SixtyFour(bits);
    Ok(())
}

/// Returns a table of the same keys with the same depths, in bits. Errors: `Memory`.
fn in_bits(alloc: Global, lists: &PackedTable<ListKey>) -> Result<PackedTable<BitKey<64>>, Memory>
    ensures { IfOk result (λ bits. bits.entries ≡ lists.now.entries) }
{
    lists.forms();
    let mut bits = PackedTable::new(alloc);
    for index in 0..lists.len() {
        let key = lists.key(alloc, index)?;
        bits.insert(&key, lists.depth(index))?;
    }
    Ok(bits)
}
