//! Whether the reason of an entry holds.

ghost use Rattle.std.specs.Prelude.{◌↔◌, IsTrue, IfOk, IsSomeAnd, OnErr};
ghost use Rattle.sok_region.specs.Regions.{IsPlaced};
ghost use Rattle.sok_entry.specs.Text.{is_pattern};
ghost use Rattle.sok_bar.specs.Bars.{Bars, barring};
ghost use Rattle.sok_bar.specs.Memos.{KeepsClosed};

use crate::bar::Bar;
use crate::bound::Bound;
use crate::crowd::Crowd;
use crate::frozen::Frozen;
use crate::memo::Memo;
use crate::pattern::Pattern;
use crate::rest::Rest;
use crate::spent::Spent;
use sok_board::area::Sq;
use sok_board::box_set::BoxSet;
use sok_distance::setting::Setting;
use sok_entry::entry::Reason;
use sok_rules::fault::Memory;
use std::alloc::Global;

/// Returns whether a reason holds, with its numbers; false for an expanded entry. Positions of
/// patterns that the board's memo keeps are not checked again. Errors: `Memory`, only if the reason
/// is a pattern.
pub fn reason_holds(
    alloc: Global,
    reason: &Reason,
    setting: &Setting<'_>,
    boxes: &BoxSet,
    player: Sq,
    rest: Rest,
    memo: &mut Memo,
) -> Result<bool, Memory>
    requires placed { IsPlaced setting.now.board.now boxes.now player }
    requires memo { KeepsClosed setting.now.board.now memo.old }
    ensures exact { IfOk result (λ holds. IsTrue holds
        ↔ IsSomeAnd (barring reason.now)
        (λ one. Bars setting.now.board.now player boxes.now one rest)) }
    ensures refused { OnErr result (IsTrue (is_pattern reason.now)) }
    ensures memo { KeepsClosed setting.now.board.now memo.new }
{
    match reason {
        Reason::Expanded => Ok(false),
        Reason::Spent => Spent.holds(alloc, setting, boxes, player, rest),
        Reason::Bound { u, v } => {
            let u = u.as_slice();
            let v = v.as_slice();
            Bound { u, v }.holds(alloc, setting, boxes, player, rest)
        }
        Reason::Crowd { members } => {
            let members = members.as_slice();
            Crowd { members }.holds(alloc, setting, boxes, player, rest)
        }
        Reason::Frozen { members } => {
            let members = members.as_slice();
            Frozen { members }.holds(alloc, setting, boxes, player, rest)
        }
        Reason::Pattern { members, inner } => {
            let members = members.as_slice();
            Pattern { members, inner }.holds_by(alloc, setting, boxes, player, memo)
        }
    }
}
