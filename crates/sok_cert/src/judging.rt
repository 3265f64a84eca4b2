//! Whether the reason of an entry holds.

ghost use Rattle.std.specs.Prelude.{◌≡◌, IfOk};
ghost use Rattle.sok_board.specs.Area.{IsAccepted};
ghost use Rattle.sok_bar.specs.Memos.{KeepsClosed};
ghost use Rattle.sok_cert.specs.Closed.{IsPosition};
ghost use Rattle.sok_cert.specs.Judging.{IsFinding};

use crate::reason::{is_expanded, rest_of};
use sok_bar::memo::Memo;
use sok_bar::reason::reason_holds;
use sok_board::area::Sq;
use sok_board::box_set::BoxSet;
use sok_closed::solved::is_solved;
use sok_distance::setting::Setting;
use sok_entry::claim::Claim;
use sok_entry::entry::Entry;
use sok_rules::fault::Memory;
use std::alloc::Global;

/// What the checker finds of an entry that is a position.
#[derive(Clone, Copy, PartialEq, Eq)]
pub(crate) enum Finding {
    /// No fault: its reason bars it, or it is expanded with a box off a goal.
    Fine,
    /// It is expanded, and all its boxes are on goals.
    Solved,
    /// It is not expanded, and its reason does not bar it.
    Unreasoned,
}

/// Judges an entry that is a position with these boxes.
pub(crate) fn judge(
    alloc: Global,
    setting: &Setting<'_>,
    claim: Claim,
    entry: &Entry,
    boxes: &BoxSet,
    memo: &mut Memo,
) -> Result<Finding, Memory>
    requires accepted { IsAccepted setting.now.board.now }
    requires position { IsPosition setting.now.board.now entry.now }
    requires boxes { boxes.now ≡ entry.now.boxes }
    requires memo { KeepsClosed setting.now.board.now memo.old }
    ensures found { IfOk result (IsFinding setting.now.board.now claim entry.now) }
    ensures memo { KeepsClosed setting.now.board.now memo.new }
{
    if is_expanded(&entry.reason) {
        if is_solved(setting.board, boxes) {
            return Ok(Finding::Solved);
        }
        return Ok(Finding::Fine);
    }
    let reason = &entry.reason;
    let player = entry.player as Sq;
    let rest = rest_of(claim, entry.depth);
    if reason_holds(alloc, reason, setting, boxes, player, rest, memo)? {
        return Ok(Finding::Fine);
    }
    Ok(Finding::Unreasoned)
}
