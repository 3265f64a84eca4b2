//! Whether a new state of some boxes alone is solved, barred or to be expanded.

ghost use Rattle.std.specs.Prelude.{◌<◌, ◌↔◌, IsTrue, IfOk, IfSome};
ghost use Rattle.sok_board.specs.Area.{IsAccepted};
ghost use Rattle.sok_price.specs.Prices.{IsCrowd};
ghost use Rattle.sok_region.specs.Regions.{IsPlaced};
ghost use Rattle.sok_alone.specs.Judging.{IsBarring, TellsJudged};

use sok_bar::bar::Bar;
use sok_bar::crowd::Crowd;
use sok_bar::frozen::find_jam;
use sok_bar::rest::Rest;
use sok_board::area::Sq;
use sok_board::box_set::BoxSet;
use sok_closed::solved::is_solved;
use sok_distance::setting::Setting;
use sok_entry::entry::{InnerReason, Numbers};
use sok_rules::fault::Memory;
use sok_state::key::Key;
use std::alloc::Global;

/// What is found of a state.
#[derive(Drop)]
pub(crate) enum Judged {
    /// All boxes are on goals.
    Solved,
    /// It may be in a closed list for this reason. If it is to be expanded, all its pushes have to
    /// be followed.
    Stands(InnerReason),
}

/// Judges a state of some boxes alone: it is solved, barred as a jam or a crowd, or to be expanded.
pub(crate) fn judge(alloc: Global, setting: &Setting<'_>, key: &Key) -> Result<Judged, Memory>
    requires accepted { IsAccepted setting.now.board.now }
    requires placed { IsPlaced setting.now.board.now key.now.boxes key.now.least }
    ensures { IfOk result (TellsJudged setting.now.board.now key.now) }
{
    if is_solved(setting.board, &key.boxes) {
        return Ok(Judged::Solved);
    }
    match barring(alloc, setting, &key.boxes, key.least)? {
        Some(reason) => Ok(Judged::Stands(reason)),
        None => Ok(Judged::Stands(InnerReason::Expanded)),
    }
}

/// Returns a reason that bars these boxes alone on the board, with the player on a square. It may
/// miss one.
fn barring(
    alloc: Global,
    setting: &Setting<'_>,
    boxes: &BoxSet,
    player: Sq,
) -> Result<Option<InnerReason>, Memory>
    requires accepted { IsAccepted setting.now.board.now }
    requires placed { IsPlaced setting.now.board.now boxes.now player }
    ensures { IfOk result (λ found. IfSome found (IsBarring setting.now.board.now boxes.now)) }
{
    if let Some(jam) = find_jam(alloc, setting, boxes)? {
        let members = Numbers::from(jam);
        return Ok(Some(InnerReason::Frozen { members }));
    }
    match find_crowd(alloc, setting, boxes, player)? {
        Some(members) => Ok(Some(InnerReason::Crowd { members })),
        None => Ok(None),
    }
}

/// Returns a crowd: one of the boxes, or otherwise all of them.
fn find_crowd(
    alloc: Global,
    setting: &Setting<'_>,
    boxes: &BoxSet,
    player: Sq,
) -> Result<Option<Numbers>, Memory>
    requires placed { IsPlaced setting.now.board.now boxes.now player }
    ensures { IfOk result (λ found. IfSome found (IsCrowd setting.now.board.now boxes.now)) }
{
    let mut all = Vec::new(alloc);
    for index in 0..boxes.list().len() {
        let one = [index as u32];
        if is_crowd(alloc, setting, boxes, player, &one)? {
            return Ok(Some(Numbers::copied(alloc, &one)?));
        }
        all.push(index as u32)?;
    }
    if is_crowd(alloc, setting, boxes, player, &all)? {
        return Ok(Some(Numbers::from(all)));
    }
    Ok(None)
}

/// Returns whether the members can reach too few goals.
fn is_crowd(
    alloc: Global,
    setting: &Setting<'_>,
    boxes: &BoxSet,
    player: Sq,
    members: &[u32],
) -> Result<bool, Memory>
    requires placed { IsPlaced setting.now.board.now boxes.now player }
    ensures { IfOk result
        (λ holds. IsTrue holds ↔ IsCrowd setting.now.board.now boxes.now members.now) }
{
    Crowd { members }.holds(alloc, setting, boxes, player, Rest::Never)
}
