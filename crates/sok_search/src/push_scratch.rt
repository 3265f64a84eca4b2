//! The judgement of a new state.

ghost use Rattle.std.specs.Prelude.{ℕ, List, ◌≡◌, ◌<◌, ◌↔◌, IfOk, IfSome, IsTrue, OnOk, All, Contains, length};
ghost use Rattle.std.specs.List.Sorted.{IsStrictlyIncreasing};
ghost use Rattle.sok_alone.specs.declared.losses.Loss.{Loss};
ghost use Rattle.sok_alone.specs.Losses.{IsLostBy};
ghost use Rattle.sok_board.specs.Area.{IsAccepted};
ghost use Rattle.sok_price.specs.Matched.{TellsLeast};
ghost use Rattle.sok_bar.specs.Jam.{HasJamWith};
ghost use Rattle.sok_board.specs.BoxSets.{IsMoved, put_in_order};
ghost use Rattle.sok_region.specs.Layouts.{IsLaidOut};
ghost use Rattle.sok_search.specs.Steps.{IsPriced, IsRaised};
ghost use Rattle.sok_search.specs.PushScratches.{AreMoved, IsPushScratch};

use crate::note::Standing;
use crate::step::Step;
use sok_bar::layout_jam::has_jam;
use sok_board::area::Sq;
use sok_board::board::Board;
use sok_board::box_set::BoxSet;
use sok_distance::setting::Setting;
use sok_lift::lifts::Lifts;
use sok_lift::raise::raise;
use sok_price::matching::Matching;
use sok_region::layout::Layout;
use sok_rules::fault::Memory;
use sok_state::scene::Scene;
use std::alloc::Global;

/// What the pushes of a state are tried with: the state in a scene; a matching, which is brought to its
/// boxes when the first lower bound is asked for; the lifts of the board, and a buffer to add them up.
#[derive(Drop)]
pub(crate) struct PushScratch {
    pub(crate) scene: Scene,
    pub(crate) matching: Matching,
    pub(crate) matched: bool,
    pub(crate) lifts: Lifts,
    pub(crate) free: Vec<bool>,
}

/// Brings the matching to some boxes, unless they have a crowd.
fn match_boxes(board: &Board, push_scratch: &mut PushScratch, boxes: &BoxSet)
    requires push_scratch { IsPushScratch board.now boxes.now push_scratch.old }
    requires exist { All (λ square. square < length board.now.area) boxes.now }
    ensures push_scratch { IsPushScratch board.now boxes.now push_scratch.new }
    ensures scene { push_scratch.new.scene ≡ push_scratch.old.scene }
{
    if push_scratch.matched {
        return;
    }
    match push_scratch.matching.set(boxes) {
        Some(_total) => push_scratch.matched = true,
        None => {}
    }
}

/// Returns the lower bound of the boxes after a push, or None if they have a crowd. The boxes are listed
/// only if those before the push have a crowd.
fn bound_after(
    alloc: Global,
    board: &Board,
    push_scratch: &mut PushScratch,
    before: &BoxSet,
    from: Sq,
    to: Sq,
) -> Result<Option<u32>, Memory>
    requires push_scratch { IsPushScratch board.now before.now push_scratch.old }
    requires moved { AreMoved board.now before.now from to (put_in_order from to before.now) }
    ensures push_scratch { OnOk result
        (IsPushScratch board.now before.now push_scratch.new) }
    ensures scene { push_scratch.new.scene ≡ push_scratch.old.scene }
    ensures least { IfOk result (TellsLeast board.now (put_in_order from to before.now)) }
{
    match_boxes(board, push_scratch, before);
    if push_scratch.matched {
        return Ok(push_scratch.matching.bound_after(from, to));
    }
    let after = before.moved(alloc, from, to)?;
    Ok(push_scratch.matching.set(&after))
}

/// Returns whether the pushed box jams with others. The layout is shifted by the push and back.
fn is_jammed(setting: &Setting<'_>, layout: &mut Layout, from: Sq, to: Sq) -> bool
    requires accepted { IsAccepted setting.now.board.now }
    requires laid { (boxes after : List ℕ)
        × AreMoved setting.now.board.now boxes from to after
        × IsLaidOut setting.now.board.now boxes layout.old }
    ensures laid { (boxes after : List ℕ) → AreMoved setting.now.board.now boxes from to after
        → IsLaidOut setting.now.board.now boxes layout.old
        → IsLaidOut setting.now.board.now boxes layout.new }
    ensures jammed { (boxes after : List ℕ) → AreMoved setting.now.board.now boxes from to after
        → IsLaidOut setting.now.board.now boxes layout.old → IsTrue result
        ↔ HasJamWith setting.now.board.now after to }
{
    layout.shift(setting.board, from, to);
    let jammed = has_jam(setting, layout, to);
    layout.shift(setting.board, to, from);
    jammed
}

/// Judges a new state, to which a step led from one with the boxes `before`: dead, if the pushed box reaches
/// no goal, by a jam with it or by a crowd; lost, by a known loss; or open with a lower bound.
pub(crate) fn judge_after(
    alloc: Global,
    setting: &Setting<'_>,
    push_scratch: &mut PushScratch,
    before: &BoxSet,
    step: Step,
    lost: Option<u32>,
) -> Result<Standing, Memory>
    requires accepted { IsAccepted setting.now.board.now }
    requires push_scratch { IsPushScratch setting.now.board.now before.now push_scratch.old }
    requires laid { IsLaidOut setting.now.board.now before.now push_scratch.old.scene.layout }
    requires moved { AreMoved setting.now.board.now before.now step.push.from step.to
        (put_in_order step.push.from step.to before.now) }
    ensures push_scratch { OnOk result
        (IsPushScratch setting.now.board.now before.now push_scratch.new) }
    ensures laid { OnOk result (IsLaidOut setting.now.board.now before.now push_scratch.new.scene.layout) }
    ensures reached { push_scratch.new.scene.reached ≡ push_scratch.old.scene.reached }
    ensures judged { (losses : List Loss) (player : ℕ)
        → IfSome lost (IsLostBy setting.now.board.now player
        (put_in_order step.push.from step.to before.now) losses)
        → IfOk result (IsPriced setting.now.board.now losses player
        (put_in_order step.push.from step.to before.now)) }
{
    let Step { push, to, .. } = step;
    let from = push.from;
    if setting.distances.stuck(to) {
        return Ok(Standing::Dead);
    }
    if is_jammed(setting, &mut push_scratch.scene.layout, from, to) {
        return Ok(Standing::Dead);
    }
    if let Some(place) = lost {
        return Ok(Standing::Lost(place));
    }
    match bound_after(alloc, setting.board, push_scratch, before, from, to)? {
        Some(bound) => Ok(Standing::Open(bound)),
        None => Ok(Standing::Dead),
    }
}

/// Raises the lower bound of an open state, to which a step led from one with the boxes `before`, by the
/// lifts of its boxes. If every state is kept (`whole`), the bound stays, since dual prices have to show it.
pub(crate) fn raise_after(
    alloc: Global,
    whole: bool,
    lifts: &Lifts,
    free: &mut Vec<bool>,
    before: &BoxSet,
    step: Step,
    standing: Standing,
) -> Result<Standing, Memory>
    requires there { Contains before.now step.push.from }
    requires free { Contains before.now step.to → ⊥ }
    ensures { (after : List ℕ) → IsMoved before.now step.push.from step.to after
        → IsStrictlyIncreasing after
        → IfOk result (IsRaised lifts.now whole step.push.from after standing) }
{
    let from = step.push.from;
    match standing {
        Standing::Open(bound) if !whole => {
            let after = before.moved(alloc, from, step.to)?;
            let more = raise(lifts, from, &after, free)?;
            Ok(Standing::Open(bound.saturating_add(more)))
        }
        _ => Ok(standing),
    }
}
