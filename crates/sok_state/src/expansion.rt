//! A state whose pushes are followed.

ghost use Rattle.std.specs.Prelude.{ℕ, List, IfOk, OnOk, All, AllPairs, Contains};
ghost use Rattle.sok_board.specs.Area.{IsAccepted};
ghost use Rattle.sok_region.specs.Layouts.{IsLaidOut};
ghost use Rattle.sok_state.specs.declared.push.Push.{Push};
ghost use Rattle.sok_state.specs.Keys.{IsKey};
ghost use Rattle.sok_state.specs.Pushes.{IsKeyAfter, IsLegal, IsOpened, IsPushable, Precedes};

use crate::key::Key;
use crate::legal::list_pushes;
use crate::push::Push;
use crate::scene::Scene;
use sok_board::board::Board;
use sok_rules::fault::Memory;
use std::alloc::Global;

/// A loaded state with its legal pushes. It is reused from state to state, so that its buffers are
/// allocated once.
#[derive(Drop)]
pub struct Expansion {
    pub scene: Scene,
    pub pushes: Vec<Push>,
}

impl Expansion {
    /// Returns an expansion without a state. It keeps the allocator for the boxes and the pushes.
    pub fn new(alloc: Global, board: &Board) -> Expansion
        ensures { (boxes : List ℕ) × IsLaidOut board.now boxes result.scene.layout }
    {
        Expansion {
            scene: Scene::new(alloc, board),
            pushes: Vec::new(alloc),
        }
    }

    /// Loads a state and lists its legal pushes. Errors: `Memory`; the expansion must not be used
    /// afterwards.
    pub fn open(&mut self, board: &Board, key: &Key) -> Result<(), Memory>
        requires accepted { IsAccepted board.now }
        requires key { IsKey board.now key.now }
        requires laid { (boxes : List ℕ) × IsLaidOut board.now boxes self.old.scene.layout }
        ensures opened { OnOk result (IsOpened board.now key.now self.new.scene) }
        ensures legal { OnOk result (All (IsLegal board.now key.now) self.new.pushes.items) }
        ensures whole { OnOk result ((push : Push)
            → IsLegal board.now key.now push → Contains self.new.pushes.items push) }
        ensures in_order { OnOk result (AllPairs Precedes self.new.pushes.items) }
    {
        self.scene.open(board, key)?;
        list_pushes(board, key, &self.scene, &mut self.pushes)
    }

    /// Follows a push of the loaded state: loads the state that it leads to, and returns its key.
    /// Errors: `Memory`; the expansion must not be used afterwards.
    pub fn follow(
        &mut self,
        alloc: Global,
        board: &Board,
        key: &Key,
        push: Push,
    ) -> Result<Key, Memory>
        requires accepted { IsAccepted board.now }
        requires pushable { IsPushable board.now push self.old.scene key.now }
        ensures after { IfOk result (IsKeyAfter board.now key.now push) }
        ensures opened { IfOk result (λ next. IsOpened board.now next self.new.scene) }
        ensures legal { IfOk result
            (λ next. All (IsLegal board.now next) self.new.pushes.items) }
        ensures whole { IfOk result (λ next. (other : Push)
            → IsLegal board.now next other → Contains self.new.pushes.items other) }
        ensures in_order { IfOk result (λ _. AllPairs Precedes self.new.pushes.items) }
    {
        let next = self.scene.follow(alloc, board, key, push)?;
        list_pushes(board, &next, &self.scene, &mut self.pushes)?;
        Ok(next)
    }
}
