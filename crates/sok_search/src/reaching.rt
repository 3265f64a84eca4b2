//! Following a push.

ghost use Rattle.std.specs.Prelude.{◌≡◌, ◌<◌, ◌+◌, ◌^◌, IfOk, IfSome, IsTrue, OnOk, Some, length};
ghost use Rattle.sok_alone.specs.Losses.{IsLostBy, KeepsLosses, KeepsPlaces, losses_of};
ghost use Rattle.sok_board.specs.BoxSets.{put_in_order};
ghost use Rattle.sok_state.specs.Tables.{LacksNext};
ghost use Rattle.sok_state.specs.Pushes.{IsLegal};
ghost use Rattle.sok_search.specs.Searches.{IsSpared};
ghost use Rattle.sok_search.specs.Steps.{IsStep, Nears, reopened};
ghost use Rattle.sok_search.specs.PushScratches.{IsLoaded};
ghost use Rattle.sok_search.specs.Views.{progress_of, CutsVisit, HasPushed, HoldsState};

use crate::note::{Note, Origin, Standing};
use crate::push_scratch::{PushScratch, judge_after, raise_after};
use crate::search::{Search, add, is_beaten, lower};
use crate::step::{Step, Visit};
use crate::stop::Stop;
use sok_alone::losses::Losses;
use sok_distance::setting::Setting;
use sok_lift::raise::is_lost;
use sok_rules::fault::Memory;
use sok_state::key::Key;
use sok_state::push::Push;
use sok_state::stepping::square_ahead;
use std::alloc::Global;

/// Reopens an expanded state.
fn reopened(standing: Standing) -> Standing
    ensures { result ≡ reopened standing }
{
    match standing {
        Standing::Open(bound) => Standing::Open(bound),
        Standing::Expanded(bound) => Standing::Open(bound),
        Standing::Dead => Standing::Dead,
        Standing::Lost(place) => Standing::Lost(place),
    }
}

/// Lowers the depth of a known state, and reopens it, if this way to it is shorter.
fn approach(
    search: &mut Search,
    index: usize,
    depth: u32,
    origin: Option<Origin>,
) -> Result<(), Memory>
    requires exists { index < length search.old.table.entries }
    requires small { index < 2 ^ 32 }
    requires noted { index < length search.old.notes.items }
    ensures { OnOk result
        (Nears (progress_of search.old) index depth origin (progress_of search.new)) }
{
    if depth >= search.table.depth(index) {
        return Ok(());
    }
    let standing = reopened(search.notes[index].standing);
    lower(search, index, depth, Note { origin, standing })
}

/// Looks for a loss that makes the state after a push a deadlock, and returns its place. It does not look if
/// the pushed box reaches no goal from there, which is a deadlock as well. If `pairs` is false, it looks only
/// at groups of three boxes, and not at pairs.
fn ask(
    alloc: Global,
    setting: &Setting<'_>,
    losses: &mut Losses,
    known: usize,
    key: &Key,
    step: Step,
    pairs: bool,
) -> Result<Option<u32>, Memory>
    requires step { IsStep setting.now.board.now key.now step }
    requires losses { KeepsLosses setting.now.board.now losses.old }
    ensures losses { OnOk result (KeepsLosses setting.now.board.now losses.new) }
    ensures kept { OnOk result (KeepsPlaces (losses_of losses.old) (losses_of losses.new)) }
    ensures lost { IfOk result (λ found. IfSome found (IsLostBy setting.now.board.now step.push.from
        (put_in_order step.push.from step.to key.now.boxes) (losses_of losses.new))) }
{
    let Step { push, to, .. } = step;
    if setting.distances.stuck(to) {
        return Ok(None);
    }
    losses.loss_after(
        alloc, setting, known, &key.boxes, push.from, push.dir, to, pairs,
    )
}

/// Returns whether a new state at `depth` can be left out: its standing shows that no solution through
/// it has fewer pushes than the solution that is known. Where none is known, no state is left out.
fn is_spared(upper: Option<u32>, standing: Standing, depth: u32) -> bool
    ensures { IsTrue result → IsSpared upper standing depth }
{
    if upper.is_none() {
        return false;
    }
    match standing {
        Standing::Open(bound) => is_beaten(upper, depth, bound),
        Standing::Dead => true,
        Standing::Expanded(_) => false,
        Standing::Lost(_) => false,
    }
}

/// Follows a push. A known state gets a smaller depth if this way is shorter; a new one is entered, unless it
/// can be left out. Unless every state is kept, the push is left out if its box reaches no goal from there.
pub(crate) fn reach(
    alloc: Global,
    setting: &Setting<'_>,
    search: &mut Search,
    push_scratch: &mut PushScratch,
    visit: &Visit<'_>,
    push: Push,
) -> Result<(), Stop>
    requires state { HoldsState setting.now.board.now visit.now search.old }
    requires loaded { IsLoaded setting.now.board.now visit.now.key.now push_scratch.old }
    requires legal { IsLegal setting.now.board.now visit.now.key.now push }
    ensures loaded { OnOk result
        (IsLoaded setting.now.board.now visit.now.key.now push_scratch.new) }
    ensures pushed { OnOk result
        (HasPushed setting.now.board.now visit.now push search.old search.new) }
    ensures cut { CutsVisit setting.now.board.now visit.now search.old search.new result }
{
    let to = square_ahead(setting.board, push);
    if !search.aim.whole && setting.distances.stuck(to) {
        return Ok(());
    }
    let least = push_scratch.scene.step(setting.board, visit.key, push, to);
    let step = Step { push, to, least };
    if let Some(at) = search.table.get_next(visit.index, push.from, to, least) {
        approach(search, at, visit.depth + 1, origin_of(visit.index, push))?;
        return Ok(());
    }
    arrive(alloc, setting, search, push_scratch, visit, step)
}

/// Returns how a state is reached by a push from the state at an index.
fn origin_of(index: usize, push: Push) -> Option<Origin>
    requires { index < 2 ^ 32 }
    ensures { result ≡ Some (record { parent = index; push = push }) }
{
    Some(Origin {
        parent: index as u32,
        push,
    })
}

/// Looks for losses in a new state, and enters it. Unless every state is kept, it is left out if the
/// pushed box and one or two others can't be solved even alone on the board.
fn arrive(
    alloc: Global,
    setting: &Setting<'_>,
    search: &mut Search,
    push_scratch: &mut PushScratch,
    visit: &Visit<'_>,
    step: Step,
) -> Result<(), Stop>
    requires state { HoldsState setting.now.board.now visit.now search.old }
    requires loaded { IsLoaded setting.now.board.now visit.now.key.now push_scratch.old }
    requires step { IsStep setting.now.board.now visit.now.key.now step }
    requires new { LacksNext search.old.table.entries visit.now.index step.push.from step.to
        step.least }
    ensures loaded { OnOk result
        (IsLoaded setting.now.board.now visit.now.key.now push_scratch.new) }
    ensures pushed { OnOk result
        (HasPushed setting.now.board.now visit.now step.push search.old search.new) }
    ensures cut { CutsVisit setting.now.board.now visit.now search.old search.new result }
{
    let Step { push, to, .. } = step;
    let boxes = &visit.key.boxes;
    if !search.aim.whole && is_lost(&push_scratch.lifts, push.from, boxes, push.from, to) {
        return Ok(());
    }
    let known = search.table.len();
    let pairs = search.aim.whole || !push_scratch.lifts.is_made();
    let losses = &mut search.losses;
    let lost = ask(alloc, setting, losses, known, visit.key, step, pairs)?;
    if !search.aim.whole && lost.is_some() {
        return Ok(());
    }
    enter(alloc, setting, search, push_scratch, visit, step, lost)
}

/// Judges a new state, and adds it unless it can be left out. `Cut` if the table is full.
fn enter(
    alloc: Global,
    setting: &Setting<'_>,
    search: &mut Search,
    push_scratch: &mut PushScratch,
    visit: &Visit<'_>,
    step: Step,
    lost: Option<u32>,
) -> Result<(), Stop>
    requires state { HoldsState setting.now.board.now visit.now search.old }
    requires loaded { IsLoaded setting.now.board.now visit.now.key.now push_scratch.old }
    requires step { IsStep setting.now.board.now visit.now.key.now step }
    requires new { LacksNext search.old.table.entries visit.now.index step.push.from step.to
        step.least }
    requires lost { IfSome lost (IsLostBy setting.now.board.now step.push.from
        (put_in_order step.push.from step.to visit.now.key.now.boxes)
        (losses_of search.old.losses)) }
    ensures loaded { OnOk result
        (IsLoaded setting.now.board.now visit.now.key.now push_scratch.new) }
    ensures pushed { OnOk result
        (HasPushed setting.now.board.now visit.now step.push search.old search.new) }
    ensures cut { CutsVisit setting.now.board.now visit.now search.old search.new result }
{
    let Step { push, to, least } = step;
    let boxes = &visit.key.boxes;
    let standing = judge_after(alloc, setting, push_scratch, boxes, step, lost)?;
    let standing = raise_after(
        alloc,
        search.aim.whole,
        &push_scratch.lifts,
        &mut push_scratch.free,
        boxes,
        step,
        standing,
    )?;
    let deeper = visit.depth + 1;
    if !search.aim.whole && is_spared(search.aim.upper, standing, deeper) {
        return Ok(());
    }
    let limit = visit.limit as usize;
    if search.table.len() >= limit {
        return Err(Stop::Cut);
    }
    let (at, _) = search
        .table
        .insert_next(visit.index, push.from, to, least, deeper)?;
    let origin = origin_of(visit.index, push);
    add(search, at, deeper, Note { origin, standing })?;
    Ok(())
}
