//! The states of a list, with their depths and marks.

ghost use Rattle.std.specs.Prelude.{ℕ, ◌≡◌, ◌<◌, ◌≤◌, ◌↔◌, [], Some, All, IfOk, IsTrue, OnErr};
ghost use Rattle.std.specs.Prelude.{length, slice_get};
ghost use Rattle.std.specs.Map.{values_of};
ghost use Rattle.sok_board.specs.Area.{IsAccepted};
ghost use Rattle.sok_board.specs.Limits.{square_limit};
ghost use Rattle.sok_state.specs.Tables.{IsAt};
ghost use Rattle.sok_closed.specs.Lookup.{AreKeys, Enters, TellsMissed};

use crate::following::open_push;
use sok_board::board::Board;
use sok_rules::fault::Memory;
use sok_state::expansion::Expansion;
use sok_state::key::Key;
use sok_state::push::Push;
use sok_state::table::Table;
use std::alloc::Global;
use std::marker::Model;

/// The states of a list in order, each with its depth and a mark: whether it is expanded, so that
/// every push from it has to lead to another of them. The contracts see a roll as its keys with
/// their depths, its room (only squares below it have a bit), and its marks.
#[derive(Drop)]
pub struct Roll {
    table: Table,
    marks: Vec<bool>,
}

impl Model for Roll {
    ghost use Rattle.std.specs.Prelude.{◌≡◌, length};
    ghost use Rattle.sok_closed.specs.Lookup.{Rolled};

    ghost Value = { Rolled };

    ghost view = { λ roll. record {
      entries = roll.table.entries;
      room = roll.table.room;
      marks = roll.marks.items;
    } };

    ghost invariant = { λ roll. length roll.marks.items ≡ length roll.table.entries };
}

impl Roll {
    /// Returns an empty roll with room for this many squares. It keeps the allocator.
    pub fn new(alloc: Global, squares: usize) -> Roll
        requires { squares ≤ square_limit }
        ensures none { result.entries ≡ [] }
        ensures unmarked { result.marks ≡ [] }
        ensures wide { squares ≤ result.room }
    {
        Roll {
            table: Table::new(alloc, squares),
            marks: Vec::new(alloc),
        }
    }

    /// Frees the roll.
    pub fn let_go(self) {
        self.table.let_go();
    }

    /// Returns the number of states.
    pub fn len(&self) -> usize
        ensures { result ≡ length self.now.marks }
    {
        self.marks.len()
    }

    /// Appends a state and returns true, or returns false and changes nothing if it was entered
    /// before. On an error, nothing changes.
    pub fn enter(&mut self, key: &Key, depth: u32, expanded: bool) -> Result<bool, Memory>
        requires { All (λ square. square < self.old.room) key.now.boxes }
        ensures entered { IfOk result
            (λ is_new. Enters self.old key.now depth expanded is_new self.new) }
        ensures room { self.new.room ≡ self.old.room }
        ensures refused { OnErr result (self.new ≡ self.old) }
    {
        self.marks.reserve(1)?;
        let (_index, is_new) = self.table.insert(key, depth)?;
        if is_new {
            self.marks.push_reserved(expanded);
        }
        Ok(is_new)
    }

    /// Returns whether the state was entered at depth 0.
    pub fn starts(&self, key: &Key) -> bool
        requires { All (λ square. square < self.now.room) key.now.boxes }
        ensures { IsTrue result ↔ ((place : ℕ) × IsAt self.now.entries key.now place
            × (slice_get (values_of self.now.entries) place ≡ Some 0)) }
    {
        // Called for its clause that no key is in the table twice.
        let _states = self.table.len();
        match self.table.get(key) {
            Some(index) => self.table.depth(index) == 0,
            None => false,
        }
    }

    /// Returns the first expanded state with a push that leads to none of the states, or to one
    /// that is more than one deeper: its index, and its first such push.
    pub fn first_missed(
        &self,
        alloc: Global,
        board: &Board,
    ) -> Result<Option<(usize, Push)>, Memory>
        requires accepted { IsAccepted board.now }
        requires keys { AreKeys board.now self.now.entries }
        requires wide { length board.now.area ≤ self.now.room }
        ensures { IfOk result (TellsMissed board.now self.now) }
    {
        // Called for its clause that no key is in the table twice.
        let _states = self.table.len();
        let mut expansion = Expansion::new(alloc, board);
        for (index, expanded) in self.marks.iter().enumerate() {
            if !*expanded {
                continue;
            }
            let key = self.table.key(alloc, index)?;
            let depth = self.table.depth(index);
            let table = &self.table;
            if let Some(push) = open_push(board, table, index, &key, depth, &mut expansion)? {
                return Ok(Some((index, push)));
            }
        }
        Ok(None)
    }
}
