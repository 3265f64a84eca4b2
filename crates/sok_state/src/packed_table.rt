//! Packed keys of one form in the order of their insertion, with depths.

ghost use Rattle.std.specs.Prelude.{◌≡◌, ◌<◌, ◌≤◌, ◌+◌, [], Some, Contains, IfOk, IsOk, OnErr};
ghost use Rattle.std.specs.Prelude.{MatchOption, length, slice_get};
ghost use Rattle.std.specs.Map.{keys_of, values_of};
ghost use Rattle.sok_board.specs.Limits.{box_limit};
ghost use Rattle.sok_state.specs.declared.key.Key.{Key};
ghost use Rattle.sok_state.specs.Tables.{Enters, EntersNext, HasDistinctKeys, HasNext};
ghost use Rattle.sok_state.specs.Tables.{IsAt, LacksNext, Lowers};

use crate::key::Key;
use crate::packed::Packed;
use indexmap::IndexSet;
use sok_board::area::Sq;
use sok_rules::fault::Memory;
use std::alloc::Global;
use std::marker::Model;

/// The packed keys of a `Table`, with their depths; the methods are those of `Table`. The contracts
/// see it as the list of the keys that these represent, with their depths, and its spare places:
/// the lesser number of those that its two parts have.
#[derive(Drop)]
pub(crate) struct PackedTable<K: Packed> {
    keys: IndexSet<K>,
    depths: Vec<u32>,
}

impl<K: Packed> Model for PackedTable<K> {
    ghost use Rattle.std.specs.Prelude.{◌-◌, min, vec_capacity, vec_len};
    ghost use Rattle.indexmap.specs.IndexSet.{spare};
    ghost use Rattle.sok_state.specs.PackedKeys.{ArePacked, Stored, entries_of};

    ghost Value = { Stored };

    ghost view = { λ table. record {
      entries = entries_of K.state_of table.keys.keys table.depths.items;
      spare = min (spare table.keys) (vec_capacity table.depths - vec_len table.depths);
    } };

    ghost invariant = { λ table. ArePacked K.state_of K.fits table.keys.keys table.depths.items };
}

impl<K: Packed> PackedTable<K> {
    /// Returns an empty table.
    pub(crate) fn new(alloc: Global) -> PackedTable<K>
        ensures { result.entries ≡ [] }
    {
        PackedTable {
            keys: IndexSet::new(alloc),
            depths: Vec::new(alloc),
        }
    }

    /// Returns the number of keys.
    pub(crate) fn len(&self) -> usize
        ensures count { result ≡ length self.now.entries }
        ensures distinct { HasDistinctKeys self.now.entries }
    {
        self.keys.len()
    }

    /// Shows that each key has a packed form. It does nothing.
    pub(crate) fn forms(&self)
        ensures { (key : Key) → Contains (keys_of self.now.entries) key
            → (form : K) × K.fits form × (K.state_of form ≡ key) }
    {
        let _keys = &self.keys;
    }

    /// Inserts a key.
    pub(crate) fn insert(&mut self, key: &Key, depth: u32) -> Result<(usize, bool), Memory>
        requires { K.takes key.now }
        ensures inserted { IfOk result (λ told.
            Enters self.old.entries key.now depth told.0 told.1 self.new.entries) }
        ensures refused { OnErr result (self.new.entries ≡ self.old.entries) }
        ensures refused_new { OnErr result (Contains (keys_of self.old.entries) key.now → ⊥) }
        ensures succeeds { 0 < self.old.spare → IsOk result }
        ensures spare { self.old.spare ≤ self.new.spare + 1 }
    {
        self.enter(K::of(key), depth)
    }

    /// Inserts the key after a push from the key at `index`.
    pub(crate) fn insert_next(
        &mut self,
        index: usize,
        from: Sq,
        to: Sq,
        least: Sq,
        depth: u32,
    ) -> Result<(usize, bool), Memory>
        requires exists { index < length self.old.entries }
        requires takes { (key : Key) → IsAt self.old.entries key index
            → K.takes_move key from to }
        requires there { (key : Key) → IsAt self.old.entries key index
            → Contains key.boxes from }
        ensures inserted { IfOk result (λ told. EntersNext
            self.old.entries index from to least depth told.0 told.1 self.new.entries) }
        ensures refused { OnErr result (self.new.entries ≡ self.old.entries) }
        ensures refused_new { OnErr result (LacksNext self.old.entries index from to least) }
        ensures succeeds { 0 < self.old.spare → IsOk result }
        ensures spare { self.old.spare ≤ self.new.spare + 1 }
    {
        let next = self.packed(index).moved(from, to, least);
        self.enter(next, depth)
    }

    /// Inserts a packed key.
    fn enter(&mut self, key: K, depth: u32) -> Result<(usize, bool), Memory>
        requires fits { K.fits key }
        requires few { length (K.state_of key).boxes ≤ box_limit }
        ensures inserted { IfOk result (λ told. Enters
            self.old.entries (K.state_of key) depth told.0 told.1 self.new.entries) }
        ensures refused { OnErr result (self.new.entries ≡ self.old.entries) }
        ensures refused_new { OnErr result
            (Contains (keys_of self.old.entries) (K.state_of key) → ⊥) }
        ensures succeeds { 0 < self.old.spare → IsOk result }
        ensures spare { self.old.spare ≤ self.new.spare + 1 }
    {
        if self.depths.reserve(1).is_err() {
            // A key that is present needs no room.
            let Some(index) = self.keys.get_index_of(&key) else {
                return Err(Memory);
            };
            return Ok((index, false));
        }
        let (index, new) = self.keys.insert_full(key)?;
        if new {
            self.depths.push_reserved(depth);
        }
        Ok((index, new))
    }

    /// Returns the index of a key.
    pub(crate) fn get(&self, key: &Key) -> Option<usize>
        requires { K.takes key.now }
        ensures { MatchOption result
            (Contains (keys_of self.now.entries) key.now → ⊥) (IsAt self.now.entries key.now) }
    {
        self.find(&K::of(key))
    }

    /// Returns the index of the key after a push from the key at `index`.
    pub(crate) fn get_next(&self, index: usize, from: Sq, to: Sq, least: Sq) -> Option<usize>
        requires exists { index < length self.now.entries }
        requires takes { (key : Key) → IsAt self.now.entries key index
            → K.takes_move key from to }
        ensures { MatchOption result (LacksNext self.now.entries index from to least)
            (HasNext self.now.entries index from to least) }
    {
        let next = self.packed(index).moved(from, to, least);
        self.find(&next)
    }

    /// Returns the index of a packed key.
    fn find(&self, key: &K) -> Option<usize>
        requires { K.fits key.now }
        ensures { MatchOption result
            (Contains (keys_of self.now.entries) (K.state_of key.now) → ⊥)
            (IsAt self.now.entries (K.state_of key.now)) }
    {
        self.keys.get_index_of(key)
    }

    /// Returns the key at an index.
    pub(crate) fn key(&self, alloc: Global, index: usize) -> Result<Key, Memory>
        requires { index < length self.now.entries }
        ensures { IfOk result (λ key. IsAt self.now.entries key index) }
    {
        let packed = self.packed(index);
        Ok(Key {
            boxes: packed.boxes(alloc)?,
            least: packed.least(),
        })
    }

    /// Returns the packed key at an index.
    pub(crate) fn packed(&self, index: usize) -> &K
        requires exists { index < length self.now.entries }
        ensures there { IsAt self.now.entries (K.state_of result.now) index }
        ensures fits { K.fits result.now }
        ensures few { length (K.state_of result.now).boxes ≤ box_limit }
    {
        self.keys.get_index(index).unwrap()
    }

    /// Returns the depth of the key at an index.
    pub(crate) fn depth(&self, index: usize) -> u32
        requires exists { index < length self.now.entries }
        ensures { slice_get (values_of self.now.entries) index ≡ Some result }
    {
        self.depths[index]
    }

    /// Lowers the depth of the key at an index.
    pub(crate) fn lower_depth(&mut self, index: usize, depth: u32) -> bool
        requires exists { index < length self.old.entries }
        ensures lowered { Lowers self.old.entries index depth result self.new.entries }
        ensures spare { self.new.spare ≡ self.old.spare }
    {
        if depth < self.depths[index] {
            self.depths[index] = depth;
            return true;
        }
        false
    }
}
