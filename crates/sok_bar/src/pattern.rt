//! Boxes that are never solved, even alone on the board.

ghost use Rattle.std.specs.Prelude.{◌≡◌, ◌≤◌, ◌↔◌, IsTrue, IfOk, length};
ghost use Rattle.std.specs.List.Sorted.{IsStrictlyIncreasing};
ghost use Rattle.sok_board.specs.Limits.{box_limit};
ghost use Rattle.sok_price.specs.Prices.{AreMembers};
ghost use Rattle.sok_region.specs.Regions.{IsPlaced};
ghost use Rattle.sok_bar.specs.Bars.{Barring};
ghost use Rattle.sok_bar.specs.Memos.{KeepsClosed};
ghost use Rattle.sok_bar.specs.Patterns.{IsPattern, squares_at};

use crate::bar::Bar;
use crate::members::are_members;
use crate::memo::Memo;
use crate::rest::Rest;
use sok_board::area::Sq;
use sok_board::box_set::BoxSet;
use sok_distance::setting::Setting;
use sok_entry::inners::Inners;
use sok_rules::fault::Memory;
use std::alloc::Global;

/// Boxes that would never be solved from where the player stands, if they were alone on the board:
/// members of a position's boxes, by their indices from 0, and positions of them that are closed
/// under pushes.
#[derive(Clone, Copy)]
pub struct Pattern<'a> {
    pub members: &'a [u32],
    pub inner: &'a Inners,
}

impl Bar for Pattern<'_> {
    ghost says = { λ bar. Barring.pattern bar.members.now bar.inner.now };

    /// Returns true if the members are ascending indices of boxes, and the positions are closed
    /// under pushes, with that of the player and these boxes among them at depth 0, whatever `rest`
    /// is. Errors: `Memory`.
    fn holds(
        &self,
        alloc: Global,
        setting: &Setting<'_>,
        boxes: &BoxSet,
        player: Sq,
        rest: Rest,
    ) -> Result<bool, Memory> {
        // The law is about accepted levels, and a board is of one.
        let _squares = setting.board.squares();
        let mut memo = Memo::new(alloc);
        self.holds_by(alloc, setting, boxes, player, &mut memo)
    }
}

impl Pattern<'_> {
    /// Returns whether the reason holds, whatever is to be shown. Lists of positions that the memo
    /// keeps are not checked again, and the memo keeps those that are checked. Errors: `Memory`.
    pub(crate) fn holds_by(
        &self,
        alloc: Global,
        setting: &Setting<'_>,
        boxes: &BoxSet,
        player: Sq,
        memo: &mut Memo,
    ) -> Result<bool, Memory>
        requires placed { IsPlaced setting.now.board.now boxes.now player }
        requires memo { KeepsClosed setting.now.board.now memo.old }
        ensures exact { IfOk result (λ holds. IsTrue holds
            ↔ IsPattern setting.now.board.now player boxes.now self.now.members.now
            self.now.inner.now) }
        ensures memo { KeepsClosed setting.now.board.now memo.new }
    {
        // A board is of an accepted level.
        let _squares = setting.board.squares();
        let boxes = boxes.list();
        if !are_members(boxes, self.members) {
            return Ok(false);
        }
        let alone = members_alone(alloc, boxes, self.members)?;
        memo.are_closed_alone(alloc, setting, &alone, player, self.inner)
    }
}

/// Returns the boxes that are members, as a set of their own. Errors: `Memory`.
fn members_alone(alloc: Global, boxes: &[Sq], members: &[u32]) -> Result<BoxSet, Memory>
    requires rising { IsStrictlyIncreasing boxes.now }
    requires few { length boxes.now ≤ box_limit }
    requires listed { AreMembers boxes.now members.now }
    ensures { IfOk result (λ alone. alone ≡ squares_at boxes.now members.now) }
{
    let mut squares = Vec::with_capacity(alloc, members.len())?;
    for member in members {
        squares.push(boxes[*member as usize])?;
    }
    BoxSet::of(alloc, &squares)
}
