//! Whether positions of some boxes alone are closed under pushes.

ghost use Rattle.std.specs.Prelude.{List, [], ◌∷◌, ◌++◌, ◌≡◌, ◌≤◌, ◌↔◌, IsTrue, IfOk, IsOkAnd, MatchBool, length};
ghost use Rattle.sok_board.specs.Area.{IsAccepted};
ghost use Rattle.sok_board.specs.Limits.{box_limit};
ghost use Rattle.sok_closed.specs.Fine.{AreEntered, AreFine, IsFine, IsOfBoard, IsReasoned};
ghost use Rattle.sok_closed.specs.Placing.{IsLocated};
ghost use Rattle.sok_region.specs.Regions.{IsPlaced};
ghost use Rattle.sok_bar.specs.Patterns.{AreClosedAlone, IsBarredAlone, inner_node};
ghost use Rattle.sok_entry.specs.declared.entry.Inner.{Inner};
ghost use Rattle.sok_state.specs.Normalizers.{Normalizes};

use crate::bar::Bar;
use crate::crowd::Crowd;
use crate::frozen::Frozen;
use crate::inners::is_expanded;
use crate::rest::Rest;
use sok_board::area::Sq;
use sok_board::board::Board;
use sok_board::box_set::BoxSet;
use sok_closed::placing::{Located, locate};
use sok_closed::roll::Roll;
use sok_closed::solved::is_solved;
use sok_distance::setting::Setting;
use sok_entry::entry::{Inner, InnerReason};
use sok_entry::inners::Inners;
use sok_rules::fault::Memory;
use sok_state::key::Key;
use sok_state::normalizer::Normalizer;
use std::alloc::Global;

/// Returns whether positions of some boxes alone are closed under pushes, with the player's
/// position among them at depth 0. Errors: `Memory`.
pub(crate) fn are_closed_alone(
    alloc: Global,
    setting: &Setting<'_>,
    boxes: &BoxSet,
    player: Sq,
    inner: &Inners,
) -> Result<bool, Memory>
    requires accepted { IsAccepted setting.now.board.now }
    requires placed { IsPlaced setting.now.board.now boxes.now player }
    ensures { IfOk result
        (λ closed. IsTrue closed
        ↔ AreClosedAlone setting.now.board.now player boxes.now inner.now) }
{
    let mut roll = Roll::new(alloc, setting.board.squares());
    let mut normalizer = Normalizer::new(setting.board);
    let inner = inner.as_slice();
    let closed = are_closed_by(
        alloc,
        setting,
        boxes,
        player,
        inner,
        &mut roll,
        &mut normalizer,
    );
    roll.let_go();
    closed
}

/// Like `are_closed_alone`, with an empty roll that has room for the board, and a normalizer of the
/// board. Both are borrowed, since a proof lays out the drop of an owned value at each return.
fn are_closed_by(
    alloc: Global,
    setting: &Setting<'_>,
    boxes: &BoxSet,
    player: Sq,
    inner: &[Inner],
    roll: &mut Roll,
    normalizer: &mut Normalizer,
) -> Result<bool, Memory>
    requires accepted { IsAccepted setting.now.board.now }
    requires placed { IsPlaced setting.now.board.now boxes.now player }
    requires none { roll.old.entries ≡ [] }
    requires unmarked { roll.old.marks ≡ [] }
    requires wide { length setting.now.board.now.area ≤ roll.old.room }
    requires normalizes { Normalizes setting.now.board.now normalizer.old }
    ensures { IfOk result
        (λ closed. IsTrue closed
        ↔ AreClosedAlone setting.now.board.now player boxes.now inner.now) }
{
    let count = boxes.list().len();
    if !enter_all(alloc, setting, count, inner, roll, normalizer)? {
        return Ok(false);
    }
    leads_on(alloc, setting.board, boxes, player, roll)
}

/// Enters the states of the positions into an empty roll, in order, with their depths, and with a
/// mark if they are expanded. It stops at the first position that has a fault of its own, and
/// returns whether none has. Errors: `Memory`.
fn enter_all(
    alloc: Global,
    setting: &Setting<'_>,
    count: usize,
    inner: &[Inner],
    roll: &mut Roll,
    normalizer: &mut Normalizer,
) -> Result<bool, Memory>
    requires accepted { IsAccepted setting.now.board.now }
    requires few { count ≤ box_limit }
    requires none { roll.old.entries ≡ [] }
    requires unmarked { roll.old.marks ≡ [] }
    requires wide { length setting.now.board.now.area ≤ roll.old.room }
    requires normalizes { Normalizes setting.now.board.now normalizer.old }
    ensures entered { IfOk result (λ fine. MatchBool fine
        (AreEntered inner_node setting.now.board.now count
        (IsBarredAlone setting.now.board.now) inner.now roll.new)
        (AreFine inner_node setting.now.board.now count
        (IsBarredAlone setting.now.board.now) inner.now
        (length inner.now) → ⊥)) }
    ensures of_board { IsOfBoard setting.now.board.now roll.new }
{
    for one in inner {
        if !enter_alone(alloc, setting, count, one, roll, normalizer)? {
            return Ok(false);
        }
    }
    Ok(true)
}

/// Enters the state of a position into the roll of those before it, and returns whether it has no
/// fault of its own. If it has one, the roll must not be used afterwards. Errors: `Memory`.
fn enter_alone(
    alloc: Global,
    setting: &Setting<'_>,
    count: usize,
    one: &Inner,
    roll: &mut Roll,
    normalizer: &mut Normalizer,
) -> Result<bool, Memory>
    requires accepted { IsAccepted setting.now.board.now }
    requires few { count ≤ box_limit }
    requires of_board { IsOfBoard setting.now.board.now roll.old }
    requires normalizes { Normalizes setting.now.board.now normalizer.old }
    ensures tells { (before : List Inner)
        → AreEntered inner_node setting.now.board.now count
        (IsBarredAlone setting.now.board.now) before roll.old
        → IfOk result (λ fine. MatchBool fine
        (AreEntered inner_node setting.now.board.now count (IsBarredAlone setting.now.board.now)
        (before ++ one.now ∷ []) roll.new)
        (IsFine inner_node setting.now.board.now count (IsBarredAlone setting.now.board.now) before
        (length before)
        one.now → ⊥)) }
    ensures of_board { IsOfBoard setting.now.board.now roll.new }
    ensures normalizes { Normalizes setting.now.board.now normalizer.new }
{
    match locate(
        alloc,
        setting.board,
        normalizer,
        count,
        one.player,
        one.boxes.as_slice(),
    )? {
        Some(located) => enter_located(alloc, setting, one, &located, roll),
        None => Ok(false),
    }
}

/// Like `enter_alone`, for a position that was located. This is borrowed too, since there are
/// several returns.
fn enter_located(
    alloc: Global,
    setting: &Setting<'_>,
    one: &Inner,
    located: &Located,
    roll: &mut Roll,
) -> Result<bool, Memory>
    requires accepted { IsAccepted setting.now.board.now }
    requires located { IsLocated setting.now.board.now (length one.now.boxes)
        (inner_node one.now) located.now }
    requires few { length one.now.boxes ≤ box_limit }
    requires of_board { IsOfBoard setting.now.board.now roll.old }
    ensures tells { (before : List Inner)
        → AreEntered inner_node setting.now.board.now (length one.now.boxes)
        (IsBarredAlone setting.now.board.now) before
        roll.old → IfOk result (λ fine. MatchBool fine
        (AreEntered inner_node setting.now.board.now (length one.now.boxes)
        (IsBarredAlone setting.now.board.now)
        (before ++ one.now ∷ []) roll.new)
        (IsFine inner_node setting.now.board.now (length one.now.boxes)
        (IsBarredAlone setting.now.board.now) before
        (length before) one.now → ⊥)) }
    ensures of_board { IsOfBoard setting.now.board.now roll.new }
{
    let Located { boxes, key } = located;
    if !roll.enter(key, one.depth, is_expanded(&one.reason))? {
        return Ok(false);
    }
    may_stand(alloc, setting, one, boxes)
}

/// Returns whether a position may stand in a pattern; its boxes are given, too. It may if it is
/// expanded and has a box off a goal, or if its reason bars it. It allocates nothing.
fn may_stand(
    alloc: Global,
    setting: &Setting<'_>,
    one: &Inner,
    boxes: &BoxSet,
) -> Result<bool, Memory>
    requires accepted { IsAccepted setting.now.board.now }
    requires placed { IsPlaced setting.now.board.now one.now.boxes one.now.player }
    requires boxes { boxes.now ≡ one.now.boxes }
    ensures { IsOkAnd result (λ stands. IsTrue stands
        ↔ IsReasoned inner_node setting.now.board.now
        (IsBarredAlone setting.now.board.now) one.now) }
{
    let player = one.player as Sq;
    match &one.reason {
        InnerReason::Expanded => Ok(!is_solved(setting.board, boxes)),
        InnerReason::Crowd { members } => {
            let members = members.as_slice();
            Crowd { members }.holds(alloc, setting, boxes, player, Rest::Never)
        }
        InnerReason::Frozen { members } => {
            let members = members.as_slice();
            Frozen { members }.holds(alloc, setting, boxes, player, Rest::Never)
        }
    }
}

/// Returns whether the state of the player and the boxes is in the roll at depth 0, and each push
/// from an expanded state leads to a state of the roll that is at most one deeper. Errors:
/// `Memory`.
fn leads_on(
    alloc: Global,
    board: &Board,
    boxes: &BoxSet,
    player: Sq,
    roll: &Roll,
) -> Result<bool, Memory>
    requires accepted { IsAccepted board.now }
    requires placed { IsPlaced board.now boxes.now player }
    requires few { length boxes.now ≤ box_limit }
    requires of_board { IsOfBoard board.now roll.now }
    ensures { (inner : List Inner)
        → AreEntered inner_node board.now (length boxes.now)
        (IsBarredAlone board.now) inner roll.now
        → IfOk result
        (λ closed. IsTrue closed ↔ AreClosedAlone board.now player boxes.now inner) }
{
    let key = Key::of(alloc, board, boxes, player)?;
    if !roll.starts(&key) {
        return Ok(false);
    }
    let missed = roll.first_missed(alloc, board)?;
    Ok(missed.is_none())
}
