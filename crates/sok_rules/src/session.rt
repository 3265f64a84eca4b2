//! Play letter by letter, with undo and redo.

ghost use Rattle.std.specs.Prelude.{◌≡◌, ◌↔◌, ◌≤◌, [], length};
ghost use Rattle.std.specs.Prelude.{IsTrue, IfOk, IsOk, IsSome, IsSomeAnd, MatchBool, MatchResult};
ghost use Rattle.sok_rules.specs.Play.{start, pushes, Solves};

use crate::cell::{Cell, Dir, Spot};
use crate::fault::{Memory, PlayFault};
use crate::level::Level;
use crate::scene::Scene;
use std::alloc::Global;
use std::marker::Model;

/// The maximum number of letters that a session plays.
pub const LIMIT: usize = 1_000_000;

/// A level in play. Contracts see it as the level's rows, the letters played, and those undone.
#[derive(Drop)]
pub struct Session {
    level: Level,
    scene: Scene,
    /// The letters played, followed by those undone.
    letters: Vec<Dir>,
    /// Which of the letters push.
    pushed: Vec<bool>,
    /// How many letters are played.
    played: usize,
    /// How many of the letters played push.
    pushes: u64,
}

impl Model for Session {
    ghost use Rattle.std.specs.Prelude.{take, drop};
    ghost use Rattle.sok_rules.specs.Session.{Letters};

    ghost Value = { Letters };

    ghost use Rattle.sok_rules.specs.Kept.{IsSession};

    ghost view = { λ s. record {
      rows = s.level;
      played = take s.played s.letters.items;
      undone = drop s.played s.letters.items;
    } };

    ghost invariant = { λ s.
        IsSession s.level s.scene s.letters.items s.pushed.items s.played s.pushes };
}

impl Session {
    ghost use Rattle.sok_rules.specs.Session.{at_start, cell_in_play, position_of};
    ghost use Rattle.sok_rules.specs.Session.{Redoes, StaysAt, StepsOn, Undoes};

    /// Makes a session at the start of a level, before any letter.
    pub fn new(alloc: Global, level: &Level) -> Result<Session, Memory>
        ensures { IfOk result (λ session. session ≡ at_start level.now) }
    {
        Ok(Session {
            level: level.copy(alloc)?,
            scene: Scene::new(alloc, level)?,
            letters: Vec::new(alloc),
            pushed: Vec::new(alloc),
            played: 0,
            pushes: 0,
        })
    }

    /// Plays a letter and returns whether it pushed. The letters that were undone are dropped. An
    /// error changes nothing.
    ///
    /// Errors, in this order: `TooLong` if 1,000,000 letters are played; `Memory`, but not while a
    /// letter is undone, because there is room for it; `Blocked` with the number of letters played,
    /// if the letter is not legal.
    pub fn step(&mut self, dir: Dir) -> Result<bool, PlayFault>
        ensures { MatchResult result
            (StepsOn self.old dir self.new) (StaysAt self.old dir self.new) }
    {
        if self.played == LIMIT {
            return Err(PlayFault::TooLong);
        }
        reserve_behind(&mut self.letters, self.played)?;
        reserve_behind(&mut self.pushed, self.played)?;
        match self.scene.step(dir) {
            None => Err(PlayFault::Blocked(self.played)),
            Some(pushed) => {
                put_behind(&mut self.letters, self.played, dir);
                put_behind(&mut self.pushed, self.played, pushed);
                self.played += 1;
                self.pushes += u64::from(pushed);
                Ok(pushed)
            }
        }
    }

    /// Takes back the last letter played. If there is none, returns false and changes nothing.
    pub fn undo(&mut self) -> bool
        ensures { MatchBool result
            (Undoes self.old self.new) ((self.old.played ≡ []) × (self.new ≡ self.old)) }
    {
        if self.played == 0 {
            return false;
        }
        let last = self.played - 1;
        let pushed = self.pushed[last];
        self.scene.back(self.letters[last], pushed);
        self.played = last;
        self.pushes -= u64::from(pushed);
        true
    }

    /// Plays the letter again that was undone last. If there is none, returns false and changes
    /// nothing.
    pub fn redo(&mut self) -> bool
        ensures { MatchBool result
            (Redoes self.old self.new) ((self.old.undone ≡ []) × (self.new ≡ self.old)) }
    {
        if self.played == self.letters.len() {
            return false;
        }
        let pushed = self.scene.step(self.letters[self.played]).unwrap();
        self.played += 1;
        self.pushes += u64::from(pushed);
        true
    }

    /// Goes back to the start, with no letter played and none undone.
    pub fn reset(&mut self)
        ensures { self.new ≡ at_start self.old.rows }
    {
        self.scene.restore(&self.level);
        self.letters.clear();
        self.pushed.clear();
        self.played = 0;
        self.pushes = 0;
    }

    /// Returns whether all boxes stand on goals now.
    pub fn solved(&self) -> bool
        ensures { IsTrue result ↔ Solves self.now.rows self.now.played }
    {
        self.scene.is_solved()
    }

    /// Returns how many of the letters played push.
    pub fn pushes(&self) -> u64
        ensures { result ≡ pushes self.now.rows (start self.now.rows) self.now.played }
    {
        self.pushes
    }

    /// Returns how many letters are played, pushes included.
    pub fn moves(&self) -> u64
        ensures { result ≡ length self.now.played }
    {
        self.played as u64
    }

    /// Returns the letters played, in order.
    pub fn dirs(&self) -> &[Dir]
        ensures letters { result.now ≡ self.now.played }
        ensures legal { IsSome (position_of self.now) }
    {
        &self.letters[..self.played]
    }

    /// Returns what stands on a square now. `None` if no row has the square.
    pub fn cell(&self, spot: Spot) -> Option<Cell>
        ensures { IsSomeAnd (position_of self.now)
            (λ x. result ≡ cell_in_play self.now.rows x spot) }
    {
        self.scene.cell(spot)
    }
}

ghost use Rattle.std.specs.Prelude.{◌∷◌, ◌++◌, ◌<◌, OnErr, take, vec_len, vec_capacity};

/// Makes room for one item after the first `place` items. If there are more items, there is room
/// already.
fn reserve_behind<T>(items: &mut Vec<T>, place: usize) -> Result<(), Memory>
    requires { place ≤ vec_len items.old }
    ensures same { items.new.items ≡ items.old.items }
    ensures room { IsOk result → place < vec_capacity items.new }
    ensures full { OnErr result (place ≡ vec_len items.old) }
{
    if place == items.len() {
        items.reserve(1)?;
    }
    Ok(())
}

/// Drops all items after the first `place`, and appends an item.
fn put_behind<T: Drop>(items: &mut Vec<T>, place: usize, item: T)
    requires within { place ≤ vec_len items.old }
    requires room { place < vec_capacity items.old }
    ensures { items.new.items ≡ take place items.old.items ++ item ∷ [] }
{
    items.truncate(place);
    items.push_reserved(item);
}
