//! The expansion of a state.

ghost use Rattle.std.specs.Prelude.{ℕ, List, ◌≡◌, IfOk, IsTrue, OnOk, Some, All, Contains};
ghost use Rattle.sok_board.specs.Area.{IsAccepted};
ghost use Rattle.sok_price.specs.Matched.{Serves};
ghost use Rattle.sok_region.specs.Layouts.{IsLaidOut};
ghost use Rattle.sok_state.specs.Keys.{IsKey};
ghost use Rattle.sok_state.specs.declared.push.Push.{Push};
ghost use Rattle.sok_state.specs.Pushes.{IsLegal, IsOpened};
ghost use Rattle.sok_corral.specs.Fencing.{IsFenceScratch};
ghost use Rattle.sok_search.specs.PushScratches.{IsLoaded, IsReady};
ghost use Rattle.sok_search.specs.Searches.{AreEnough};
ghost use Rattle.sok_search.specs.Views.{progress_of, CutsVisit, HasExpanded, HasFollowed, HoldsState};

use crate::note::Origin;
use crate::push_scratch::PushScratch;
use crate::reaching::reach;
use crate::search::Search;
use crate::step::Visit;
use crate::stop::Stop;
use sok_board::board::Board;
use sok_corral::fencing::FenceScratch;
use sok_distance::setting::Setting;
use sok_lift::lifts::Lifts;
use sok_price::matching::Matching;
use sok_rules::fault::Memory;
use sok_state::key::Key;
use sok_state::legal::list_pushes;
use sok_state::push::Push;
use sok_state::scene::Scene;
use std::alloc::Global;

/// Buffers that are reused from one expansion to the next, and the last expanded state with its index and
/// its pushes: a successor of it is reached by one push.
#[derive(Drop)]
pub(crate) struct Scratch {
    last: Option<Key>,
    index: u32,
    pushes: Vec<Push>,
    pub(crate) push_scratch: PushScratch,
    pub(crate) fences: FenceScratch,
    /// Whether the lifts are yet to be made.
    unlifted: bool,
}

/// Lifts are made once so many states are known. A smaller search is over before they are.
const LIFTED: usize = 1_000;

impl Scratch {
    /// Returns buffers for the states of a board. If every state is kept (`whole`), no lifts are made.
    pub(crate) fn new(alloc: Global, setting: &Setting<'_>, whole: bool) -> Result<Scratch, Memory>
        ensures { IfOk result (IsReady setting.now.board.now) }
    {
        let push_scratch = PushScratch {
            scene: Scene::new(alloc, setting.board),
            matching: Matching::new(alloc, setting)?,
            matched: false,
            lifts: Lifts::none(alloc),
            free: Vec::new(alloc),
        };
        Ok(Scratch {
            last: None,
            index: 0,
            pushes: Vec::new(alloc),
            push_scratch,
            fences: FenceScratch::new(alloc, setting.board)?,
            unlifted: !whole,
        })
    }

    /// Makes the lifts of the board once enough states are known.
    fn make_lifts(
        &mut self,
        alloc: Global,
        setting: &Setting<'_>,
        known: usize,
    ) -> Result<(), Memory>
        requires { IsReady setting.now.board.now self.old }
        ensures { OnOk result (IsReady setting.now.board.now self.new) }
    {
        if self.unlifted && known >= LIFTED {
            self.push_scratch.lifts = Lifts::new(alloc, setting)?;
            self.unlifted = false;
        }
        Ok(())
    }

    /// Loads the state `key` into the scene and lists its legal pushes. If it is a successor of the last
    /// expanded state, one push leads there; otherwise its boxes are placed and the player's region is
    /// flooded anew.
    fn open(
        &mut self,
        alloc: Global,
        board: &Board,
        index: u32,
        key: &Key,
        origin: Option<Origin>,
    ) -> Result<(), Memory>
        requires accepted { IsAccepted board.now }
        requires state { IsKey board.now key.now }
        requires ready { IsReady board.now self.old }
        ensures serves { OnOk result (Serves board.now self.new.push_scratch.matching) }
        ensures matched { self.new.push_scratch.matched ≡ self.old.push_scratch.matched }
        ensures lifts { self.new.push_scratch.lifts ≡ self.old.push_scratch.lifts }
        ensures fences { self.new.fences ≡ self.old.fences }
        ensures last { OnOk result (self.new.last ≡ Some key.now) }
        ensures opened { OnOk result (IsOpened board.now key.now self.new.push_scratch.scene) }
        ensures legal { OnOk result (All (IsLegal board.now key.now) self.new.pushes.items) }
        ensures whole { OnOk result ((push : Push)
            → IsLegal board.now key.now push → Contains self.new.pushes.items push) }
    {
        if !self.follow_last(alloc, board, key, origin)? {
            self.push_scratch.scene.open(board, key)?;
        }
        list_pushes(board, key, &self.push_scratch.scene, &mut self.pushes)?;
        self.last = Some(key.copy(alloc)?);
        self.index = index;
        Ok(())
    }

    /// Keeps enough of the legal pushes of a state that is laid out. If not every state is kept, these
    /// are the pushes of a corral's boxes, if a corral is found that has fewer.
    fn narrow(&mut self, setting: &Setting<'_>, whole: bool, key: &Key) -> Result<(), Memory>
        requires accepted { IsAccepted setting.now.board.now }
        requires state { IsKey setting.now.board.now key.now }
        requires opened { IsOpened setting.now.board.now key.now self.old.push_scratch.scene }
        requires fences { IsFenceScratch setting.now.board.now self.old.fences }
        requires legal { All (IsLegal setting.now.board.now key.now) self.old.pushes.items }
        requires whole { (push : Push)
            → IsLegal setting.now.board.now key.now push → Contains self.old.pushes.items push }
        ensures push_scratch { self.new.push_scratch ≡ self.old.push_scratch }
        ensures last { self.new.last ≡ self.old.last }
        ensures fences { OnOk result (IsFenceScratch setting.now.board.now self.new.fences) }
        ensures legal { OnOk result
            (All (IsLegal setting.now.board.now key.now) self.new.pushes.items) }
        ensures enough { OnOk result
            (AreEnough setting.now.board.now whole key.now self.new.pushes.items) }
    {
        if whole {
            return Ok(());
        }
        self.fences
            .narrow(setting, key, &self.push_scratch.scene, &mut self.pushes)
    }

    /// Makes the push that leads from the last expanded state to `key`. Returns false, and does nothing, if
    /// `key` does not come from there.
    fn follow_last(
        &mut self,
        alloc: Global,
        board: &Board,
        key: &Key,
        origin: Option<Origin>,
    ) -> Result<bool, Memory>
        requires accepted { IsAccepted board.now }
        requires ready { IsReady board.now self.old }
        ensures matching { self.new.push_scratch.matching ≡ self.old.push_scratch.matching }
        ensures matched { self.new.push_scratch.matched ≡ self.old.push_scratch.matched }
        ensures lifts { self.new.push_scratch.lifts ≡ self.old.push_scratch.lifts }
        ensures fences { self.new.fences ≡ self.old.fences }
        ensures laid { OnOk result
            ((boxes : List ℕ) × IsLaidOut board.now boxes self.new.push_scratch.scene.layout) }
        ensures followed { IfOk result
            (λ came. IsTrue came → IsOpened board.now key.now self.new.push_scratch.scene) }
    {
        let Some(origin) = origin else {
            return Ok(false);
        };
        let Some(last) = &self.last else {
            return Ok(false);
        };
        if origin.parent != self.index || !is_listed(&self.pushes, origin.push) {
            return Ok(false);
        }
        let next = self
            .push_scratch
            .scene
            .follow(alloc, board, last, origin.push)?;
        Ok(next == *key)
    }
}

/// Returns whether a push is one of these.
fn is_listed(pushes: &[Push], push: Push) -> bool
    ensures { IsTrue result → Contains pushes.now push }
{
    for one in pushes {
        if *one == push {
            return true;
        }
    }
    false
}

/// Generates the successors of a state by some of its legal pushes.
fn follow(
    alloc: Global,
    setting: &Setting<'_>,
    search: &mut Search,
    push_scratch: &mut PushScratch,
    visit: &Visit<'_>,
    pushes: &[Push],
) -> Result<(), Stop>
    requires state { HoldsState setting.now.board.now visit.now search.old }
    requires loaded { IsLoaded setting.now.board.now visit.now.key.now push_scratch.old }
    requires legal { All (IsLegal setting.now.board.now visit.now.key.now) pushes.now }
    ensures loaded { OnOk result
        (IsLoaded setting.now.board.now visit.now.key.now push_scratch.new) }
    ensures followed { OnOk result (HasFollowed setting.now.board.now visit.now
        (progress_of search.old) (Contains pushes.now) (progress_of search.new)) }
    ensures cut { CutsVisit setting.now.board.now visit.now search.old search.new result }
{
    for push in pushes {
        reach(alloc, setting, search, push_scratch, visit, *push)?;
    }
    Ok(())
}

/// Expands a state: generates its successors by enough of its legal pushes.
pub(crate) fn expand(
    alloc: Global,
    setting: &Setting<'_>,
    search: &mut Search,
    scratch: &mut Scratch,
    visit: &Visit<'_>,
    origin: Option<Origin>,
) -> Result<(), Stop>
    requires state { HoldsState setting.now.board.now visit.now search.old }
    requires ready { IsReady setting.now.board.now scratch.old }
    ensures ready { OnOk result (IsReady setting.now.board.now scratch.new) }
    ensures expanded { OnOk result (HasExpanded setting.now.board.now visit.now
        (progress_of search.old) (progress_of search.new)) }
    ensures cut { CutsVisit setting.now.board.now visit.now search.old search.new result }
{
    let key = visit.key;
    scratch.make_lifts(alloc, setting, search.table.len())?;
    scratch.push_scratch.matched = false;
    scratch.open(alloc, setting.board, visit.index as u32, key, origin)?;
    scratch.narrow(setting, search.aim.whole, key)?;
    let push_scratch = &mut scratch.push_scratch;
    follow(alloc, setting, search, push_scratch, visit, &scratch.pushes)
}
