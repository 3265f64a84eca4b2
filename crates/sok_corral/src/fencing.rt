//! Which pushes of a state are kept.

ghost use Rattle.std.specs.Prelude.{IfOk, OnOk, All, Contains};
ghost use Rattle.sok_board.specs.Area.{IsAccepted};
ghost use Rattle.sok_state.specs.declared.push.Push.{Push};
ghost use Rattle.sok_state.specs.Keys.{IsKey};
ghost use Rattle.sok_state.specs.Pushes.{IsLegal, IsOpened};
ghost use Rattle.sok_corral.specs.Fencing.{AreKept, IsFenceScratch};

use crate::guessing::{Candidate, guess};
use crate::lone::Lone;
use crate::patience::Patience;
use sok_board::area::Sq;
use sok_board::board::Board;
use sok_distance::setting::Setting;
use sok_region::layout::Layout;
use sok_rules::fault::Memory;
use sok_state::key::Key;
use sok_state::push::Push;
use sok_state::scene::Scene;
use std::alloc::Global;

/// Buffers to look for fences, reused from state to state.
#[derive(Drop)]
pub struct FenceScratch {
    pub(crate) layout: Layout,
    pub(crate) lone: Lone,
    pub(crate) candidate: Candidate,
    /// The boxes of the fence with the fewest pushes that was found last.
    pub(crate) best: Vec<Sq>,
    pub(crate) patience: Patience,
}

impl FenceScratch {
    /// Makes buffers for the states of a board. Errors: `Memory`.
    pub fn new(alloc: Global, board: &Board) -> Result<FenceScratch, Memory>
        ensures { IfOk result (IsFenceScratch board.now) }
    {
        Ok(FenceScratch {
            layout: Layout::new(alloc, board),
            lone: Lone::new(alloc),
            candidate: Candidate::new(),
            best: Vec::new(alloc),
            patience: Patience::new(alloc, board.squares())?,
        })
    }

    /// Of all legal pushes of a state, keeps those of a fence's boxes, if one is found that has fewer.
    ///
    /// Errors: memory is refused. The buffers can't be used after that.
    pub fn narrow(
        &mut self,
        setting: &Setting<'_>,
        key: &Key,
        scene: &Scene,
        pushes: &mut Vec<Push>,
    ) -> Result<(), Memory>
        requires accepted { IsAccepted setting.now.board.now }
        requires state { IsKey setting.now.board.now key.now }
        requires opened { IsOpened setting.now.board.now key.now scene.now }
        requires ready { IsFenceScratch setting.now.board.now self.old }
        requires legal { All (IsLegal setting.now.board.now key.now) pushes.old.items }
        requires whole { (push : Push)
            → IsLegal setting.now.board.now key.now push → Contains pushes.old.items push }
        ensures ready { OnOk result (IsFenceScratch setting.now.board.now self.new) }
        ensures legal { OnOk result
            (All (IsLegal setting.now.board.now key.now) pushes.new.items) }
        ensures kept { OnOk result (AreKept setting.now.board.now key.now pushes.new.items) }
    {
        if !guess(self, setting, key, scene, pushes)? {
            return Ok(());
        }
        keep(&self.best, pushes);
        Ok(())
    }
}

/// Keeps the pushes of some boxes.
fn keep(boxes: &[Sq], pushes: &mut Vec<Push>)
    ensures kept { (push : Push) → Contains pushes.new.items push → Contains pushes.old.items push }
    ensures all { (push : Push) → Contains pushes.old.items push → Contains boxes.now push.from
        → Contains pushes.new.items push }
{
    pushes.retain(|push| boxes.contains(&push.from));
}
