//! The state that a push leads to.

ghost use Rattle.std.specs.Prelude.{◌≡◌, Some, IfOk, OnErr};
ghost use Rattle.std.specs.List.Sorted.{IsStrictlyIncreasing};
ghost use Rattle.sok_board.specs.Area.{IsAccepted, beside};
ghost use Rattle.sok_board.specs.BoxSets.{IsMoved};
ghost use Rattle.sok_state.specs.declared.key.Key.{Key};
ghost use Rattle.sok_state.specs.Keys.{IsKey};
ghost use Rattle.sok_state.specs.Pushes.{IsKeyAfter, IsLegal, IsOpened, IsPushable};
ghost use Rattle.sok_state.specs.Tables.{IsNext};

use crate::around::{least_after, reach_after};
use crate::key::Key;
use crate::push::Push;
use crate::scene::Scene;
use sok_board::area::Sq;
use sok_board::board::Board;
use sok_board::box_set::BoxSet;
use sok_rules::fault::Memory;
use std::alloc::Global;

/// Returns the square to which a legal push moves its box.
pub fn square_ahead(board: &Board, push: Push) -> Sq
    requires accepted { IsAccepted board.now }
    requires legal { (key : Key) × IsKey board.now key × IsLegal board.now key push }
    ensures { beside board.now push.from push.dir ≡ Some result }
{
    board.neighbour(push.from, push.dir).unwrap()
}

/// Returns the key of the state that a legal push leads to. Errors: `Memory`.
pub fn after(alloc: Global, board: &Board, key: &Key, push: Push) -> Result<Key, Memory>
    requires state { IsKey board.now key.now }
    requires legal { IsLegal board.now key.now push }
    ensures { IfOk result (IsKeyAfter board.now key.now push) }
{
    // Called for its clause that the boxes are few.
    let _boxes = key.boxes.list();
    let mut scene = Scene::new(alloc, board);
    scene.open(board, key)?;
    scene.after(alloc, board, key, push)
}

/// Returns the boxes after a push that moves its box to `to`. Errors: `Memory`.
fn boxes_after(
    alloc: Global,
    board: &Board,
    key: &Key,
    push: Push,
    to: Sq,
) -> Result<BoxSet, Memory>
    requires accepted { IsAccepted board.now }
    requires state { IsKey board.now key.now }
    requires legal { IsLegal board.now key.now push }
    requires ahead { beside board.now push.from push.dir ≡ Some to }
    ensures moved { IfOk result (IsMoved key.now.boxes push.from to) }
    ensures rising { IfOk result IsStrictlyIncreasing }
{
    key.boxes.moved(alloc, push.from, to)
}

impl Scene {
    /// Returns the least square that the player can walk to after a push from the loaded state that
    /// moves its box to `to`. The boxes are shifted by the push and back, so that no state is
    /// loaded anew. It allocates nothing.
    pub fn step(&mut self, board: &Board, key: &Key, push: Push, to: Sq) -> Sq
        requires accepted { IsAccepted board.now }
        requires pushable { IsPushable board.now push self.old key.now }
        requires ahead { beside board.now push.from push.dir ≡ Some to }
        ensures opened { IsOpened board.now key.now self.new }
        ensures next { (next : Key) → IsNext key.now push.from to result next
            → IsKeyAfter board.now key.now push next }
    {
        self.layout.shift(board, push.from, to);
        let free = self.layout.free();
        let least = least_after(board, key, push, to, free, &self.reached, &mut self.seen);
        self.layout.shift(board, to, push.from);
        least
    }

    /// Returns the key of the state that a push leads to from the loaded one. Errors: `Memory`.
    pub fn after(
        &mut self,
        alloc: Global,
        board: &Board,
        key: &Key,
        push: Push,
    ) -> Result<Key, Memory>
        requires accepted { IsAccepted board.now }
        requires pushable { IsPushable board.now push self.old key.now }
        ensures opened { IsOpened board.now key.now self.new }
        ensures after { IfOk result (IsKeyAfter board.now key.now push) }
    {
        let to = square_ahead(board, push);
        let least = self.step(board, key, push, to);
        let boxes = boxes_after(alloc, board, key, push, to)?;
        Ok(Key { boxes, least })
    }

    /// Follows a push: loads the state that it leads to in place of the one before, and returns its
    /// key. Errors: `Memory`; then nothing changes.
    pub fn follow(
        &mut self,
        alloc: Global,
        board: &Board,
        key: &Key,
        push: Push,
    ) -> Result<Key, Memory>
        requires accepted { IsAccepted board.now }
        requires pushable { IsPushable board.now push self.old key.now }
        ensures after { IfOk result (IsKeyAfter board.now key.now push) }
        ensures opened { IfOk result (λ next. IsOpened board.now next self.new) }
        ensures refused { OnErr result (self.new ≡ self.old) }
    {
        let to = square_ahead(board, push);
        let boxes = boxes_after(alloc, board, key, push, to)?;
        self.layout.shift(board, push.from, to);
        let free = self.layout.free();
        let least = reach_after(board, key, push, to, free, &mut self.reached);
        Ok(Key { boxes, least })
    }
}
