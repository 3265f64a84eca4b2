//! Keys in the order of their insertion, with depths.

ghost use Rattle.std.specs.Prelude.{◌≡◌, ◌<◌, ◌≤◌, ◌+◌, [], Some, All, Contains, IfOk, IsOk};
ghost use Rattle.std.specs.Prelude.{OnErr, MatchOption, length, slice_get};
ghost use Rattle.std.specs.Map.{keys_of, values_of};
ghost use Rattle.sok_board.specs.Limits.{square_limit};
ghost use Rattle.sok_state.specs.declared.key.Key.{Key};
ghost use Rattle.sok_state.specs.Tables.{Enters, EntersNext, HasDistinctKeys, HasNext};
ghost use Rattle.sok_state.specs.Tables.{IsAt, LacksNext, Lowers};

use crate::key::Key;
use crate::packed_table::PackedTable;
use crate::store::{Store, takes_count, takes_next, widen};
use sok_board::area::Sq;
use sok_rules::fault::Memory;
use std::alloc::Global;
use std::marker::Model;

/// Evaluates an expression on a table of packed keys, whatever their form.
macro_rules! packed {
    ($store:expr, $table:ident => $answer:expr) => {
        match $store {
            Store::One($table) => $answer,
            Store::Two($table) => $answer,
            Store::Four($table) => $answer,
            Store::Sixteen($table) => $answer,
            Store::SixtyFour($table) => $answer,
            Store::Listed(_, $table) => $answer,
        }
    };
}

/// The known states, each with a depth, in the order of their insertion. The contracts see a table
/// as the list of its keys with their depths, its room (keys on squares below it can be inserted),
/// and its spare places: how many more keys fit before it allocates.
#[derive(Drop)]
pub struct Table {
    store: Store,
}

impl Model for Table {
    ghost use Rattle.sok_state.specs.Tables.{Tabled};
    ghost use Rattle.sok_state.specs.Stores.{seen};

    ghost Value = { Tabled };

    ghost view = { λ table. seen table.store };
}

impl Table {
    /// Returns an empty table with room for `squares` squares. It keeps the allocator for later
    /// insertions.
    pub fn new(alloc: Global, squares: usize) -> Table
        requires { squares ≤ square_limit }
        ensures none { result.entries ≡ [] }
        ensures wide { squares ≤ result.room }
    {
        if squares <= 64 {
            let store = Store::One(PackedTable::new(alloc));
            return Table { store };
        }
        if squares <= 128 {
            let store = Store::Two(PackedTable::new(alloc));
            return Table { store };
        }
        if squares <= 256 {
            let store = Store::Four(PackedTable::new(alloc));
            return Table { store };
        }
        if squares <= 1024 {
            let store = Store::Sixteen(PackedTable::new(alloc));
            return Table { store };
        }
        let store = Store::Listed(alloc, PackedTable::new(alloc));
        Table { store }
    }

    /// Frees the table. A larger function that frees a table takes much longer to prove, so this is
    /// one of its own.
    pub fn let_go(self) {}

    /// Returns the number of keys.
    pub fn len(&self) -> usize
        ensures count { result ≡ length self.now.entries }
        ensures distinct { HasDistinctKeys self.now.entries }
    {
        packed!(&self.store, table => table.len())
    }

    /// Inserts a key, and returns its index and whether it is new. A new key goes last, with the
    /// depth; a key that is present keeps its index and its depth. An insertion takes at most one
    /// spare place.
    ///
    /// Errors: `Memory`, only for a new key, and never while a place is spare.
    pub fn insert(&mut self, key: &Key, depth: u32) -> Result<(usize, bool), Memory>
        requires { All (λ square. square < self.old.room) key.now.boxes }
        ensures inserted { IfOk result (λ told.
            Enters self.old.entries key.now depth told.0 told.1 self.new.entries) }
        ensures refused { OnErr result (self.new.entries ≡ self.old.entries) }
        ensures refused_new { OnErr result (Contains (keys_of self.old.entries) key.now → ⊥) }
        ensures room { self.new.room ≡ self.old.room }
        ensures succeeds { 0 < self.old.spare → IsOk result }
        ensures spare { self.old.spare ≤ self.new.spare + 1 }
    {
        if !takes_count(&self.store, key.boxes.list().len()) {
            widen(&mut self.store)?;
        }
        packed!(&mut self.store, table => table.insert(key, depth))
    }

    /// Inserts the key after a push from the key at `index`, as `insert` does: its box on `from` is
    /// moved to `to`, and `least` is the least square that the player can walk to.
    pub fn insert_next(
        &mut self,
        index: usize,
        from: Sq,
        to: Sq,
        least: Sq,
        depth: u32,
    ) -> Result<(usize, bool), Memory>
        requires exists { index < length self.old.entries }
        requires there { (key : Key) → IsAt self.old.entries key index → Contains key.boxes from }
        requires from { from < self.old.room }
        requires to { to < self.old.room }
        ensures inserted { IfOk result (λ told. EntersNext
            self.old.entries index from to least depth told.0 told.1 self.new.entries) }
        ensures refused { OnErr result (self.new.entries ≡ self.old.entries) }
        ensures refused_new { OnErr result (LacksNext self.old.entries index from to least) }
        ensures room { self.new.room ≡ self.old.room }
        ensures succeeds { 0 < self.old.spare → IsOk result }
        ensures spare { self.old.spare ≤ self.new.spare + 1 }
    {
        if !takes_next(&self.store, index, from, to) {
            widen(&mut self.store)?;
        }
        packed!(&mut self.store, table => table.insert_next(index, from, to, least, depth))
    }

    /// Returns the index of a key, counted from 0, or None if the table lacks it.
    pub fn get(&self, key: &Key) -> Option<usize>
        requires { All (λ square. square < self.now.room) key.now.boxes }
        ensures { MatchOption result
            (Contains (keys_of self.now.entries) key.now → ⊥) (IsAt self.now.entries key.now) }
    {
        if !takes_count(&self.store, key.boxes.list().len()) {
            return None;
        }
        packed!(&self.store, table => table.get(key))
    }

    /// Returns the index of the key after a push from the key at `index`, as `insert_next` makes
    /// it, or None if the table lacks it. It allocates nothing.
    pub fn get_next(&self, index: usize, from: Sq, to: Sq, least: Sq) -> Option<usize>
        requires exists { index < length self.now.entries }
        requires from { from < self.now.room }
        requires to { to < self.now.room }
        ensures { MatchOption result (LacksNext self.now.entries index from to least)
            (HasNext self.now.entries index from to least) }
    {
        if !takes_next(&self.store, index, from, to) {
            return None;
        }
        packed!(&self.store, table => table.get_next(index, from, to, least))
    }

    /// Returns the key at an index. Errors: `Memory`.
    pub fn key(&self, alloc: Global, index: usize) -> Result<Key, Memory>
        requires { index < length self.now.entries }
        ensures { IfOk result (λ key. IsAt self.now.entries key index) }
    {
        packed!(&self.store, table => table.key(alloc, index))
    }

    /// Returns the depth of the key at an index.
    pub fn depth(&self, index: usize) -> u32
        requires { index < length self.now.entries }
        ensures { slice_get (values_of self.now.entries) index ≡ Some result }
    {
        packed!(&self.store, table => table.depth(index))
    }

    /// Lowers the depth of the key at an index. Returns false, and changes nothing, if the depth
    /// there is no greater than `depth`.
    pub fn lower_depth(&mut self, index: usize, depth: u32) -> bool
        requires { index < length self.old.entries }
        ensures lowered { Lowers self.old.entries index depth result self.new.entries }
        ensures room { self.new.room ≡ self.old.room }
        ensures spare { self.new.spare ≡ self.old.spare }
    {
        packed!(&mut self.store, table => table.lower_depth(index, depth))
    }
}
