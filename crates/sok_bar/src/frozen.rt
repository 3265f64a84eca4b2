//! Boxes that hold each other for ever: freeze deadlocks.

ghost use Rattle.std.specs.Prelude.{ℕ, List, ◌≡◌, ◌<◌, ◌≤◌, ◌↔◌, IsTrue, IfOk, IfNone};
ghost use Rattle.std.specs.Prelude.{IfSome, All, Contains, length};
ghost use Rattle.sok_board.specs.Area.{IsAccepted};
ghost use Rattle.sok_board.specs.Limits.{box_limit};
ghost use Rattle.sok_price.specs.Prices.{AreMembers, IsMember};
ghost use Rattle.sok_bar.specs.Bars.{Barring};
ghost use Rattle.sok_bar.specs.Jam.{AreHeld, HasJams, HasOneOffGoal, IsJam};
ghost use Rattle.sok_bar.specs.Narrowed.{drawn_members};
ghost use Rattle.sok_bar.specs.Settings.{AreBoxesOn};

use crate::bar::Bar;
use crate::held::{Holders, are_held, is_drawn, is_held};
use crate::layout_jam::take_loose;
use crate::members::{are_members, is_member};
use crate::rest::Rest;
use sok_board::area::{SQUARE_LIMIT, Sq};
use sok_board::board::Board;
use sok_board::box_set::BoxSet;
use sok_distance::setting::Setting;
use sok_field::field::Field;
use sok_region::layout::put_boxes;
use sok_rules::fault::Memory;
use std::alloc::Global;

/// Boxes that hold each other for ever, some of them off goals (a jam): members of a position's
/// boxes, by their indices from 0.
#[derive(Clone, Copy, Debug)]
pub struct Frozen<'a> {
    pub members: &'a [u32],
}

impl Bar for Frozen<'_> {
    ghost says = { λ bar. Barring.frozen bar.members.now };

    /// Returns true if the members are ascending indices of boxes that are a jam, whatever `rest`
    /// is. It allocates nothing.
    fn holds(
        &self,
        _alloc: Global,
        setting: &Setting<'_>,
        boxes: &BoxSet,
        player: Sq,
        rest: Rest,
    ) -> Result<bool, Memory> {
        let boxes = boxes.list();
        if !are_members(boxes, self.members) {
            return Ok(false);
        }
        if !has_one_off_goal(setting.board, boxes, self.members) {
            return Ok(false);
        }
        // The law is about accepted levels, and a board is of one.
        prove!(setting.board.squares() <= SQUARE_LIMIT);
        Ok(are_held(setting, boxes, self.members))
    }
}

/// Finds the largest jam: the most boxes that are all held by each other, provided that one of them
/// stands off a goal. None if there is no jam. Boxes that are not held are removed until all are
/// held (Sokoban Wiki, "Deadlocks", freeze deadlocks). Errors: `Memory`.
pub fn find_jam(
    alloc: Global,
    setting: &Setting<'_>,
    boxes: &BoxSet,
) -> Result<Option<Vec<u32>>, Memory>
    requires boxes_exist { All (λ square. square < length setting.now.board.now.area) boxes.now }
    ensures jam { IfOk result (λ found. IfSome found
        (λ members. IsJam setting.now.board.now boxes.now members.items)) }
    ensures most { IfOk result (λ found. IfSome found
        (λ members. HasJams setting.now.board.now boxes.now members.items)) }
    ensures none { IfOk result (λ found. IfNone found ((members : List ℕ)
        → IsJam setting.now.board.now boxes.now members → ⊥)) }
{
    let boxes = boxes.list();
    let members = held_members(alloc, setting, boxes)?;
    if has_one_off_goal(setting.board, boxes, &members) {
        return Ok(Some(members));
    }
    Ok(None)
}

/// Finds a jam with the box on a square: the one that `find_jam` finds, if that box is a member.
/// None if there is no jam with that box.
pub fn find_frozen(
    alloc: Global,
    setting: &Setting<'_>,
    boxes: &BoxSet,
    square: Sq,
) -> Result<Option<Vec<u32>>, Memory>
    requires boxes_exist { All (λ square. square < length setting.now.board.now.area) boxes.now }
    requires boxed { Contains boxes.now square }
    ensures jam { IfOk result (λ found. IfSome found
        (λ members. IsJam setting.now.board.now boxes.now members.items)) }
    ensures with_box { IfOk result (λ found. IfSome found
        (λ members. IsMember boxes.now members.items square)) }
    ensures none { IfOk result (λ found. IfNone found ((members : List ℕ)
        → IsJam setting.now.board.now boxes.now members → IsMember boxes.now members square → ⊥)) }
{
    // Most boxes are free where they stand, and need no list.
    if !is_held(setting, boxes.list(), Holders::Every, square) {
        return Ok(None);
    }
    let Some(members) = find_jam(alloc, setting, boxes)? else {
        return Ok(None);
    };
    if !is_member(boxes.list(), &members, square) {
        return Ok(None);
    }
    Ok(Some(members))
}

/// Returns whether a member stands off a goal.
fn has_one_off_goal(board: &Board, boxes: &[Sq], members: &[u32]) -> bool
    requires exist { All (λ square. square < length board.now.area) boxes.now }
    requires listed { AreMembers boxes.now members.now }
    ensures { IsTrue result ↔ HasOneOffGoal board.now boxes.now members.now }
{
    for member in members {
        if !board.is_goal(boxes[*member as usize]) {
            return true;
        }
    }
    false
}

/// Returns the most boxes that are all held by each other: those that are left after boxes that are
/// not held are removed, until all are held.
fn held_members(alloc: Global, setting: &Setting<'_>, boxes: &[Sq]) -> Result<Vec<u32>, Memory>
    requires boxes { AreBoxesOn setting.now.board.now boxes.now }
    ensures jams { IfOk result (λ members. HasJams setting.now.board.now boxes.now members.items) }
    ensures held { IfOk result (λ members. AreHeld setting.now.board.now boxes.now members.items) }
{
    // A board is of an accepted level.
    let _squares = setting.board.squares();
    let mut held = Field::new();
    put_boxes(&mut held, setting.board, boxes);
    'passes: loop {
        if !take_loose(setting, boxes, &mut held) {
            return drawn_members(alloc, setting.board, boxes, &held);
        }
    }
}

/// Returns the indices of the boxes on squares of a set.
fn drawn_members(
    alloc: Global,
    board: &Board,
    boxes: &[Sq],
    rows: &Field,
) -> Result<Vec<u32>, Memory>
    requires accepted { IsAccepted board.now }
    requires exist { All (λ square. square < length board.now.area) boxes.now }
    requires few { length boxes.now ≤ box_limit }
    ensures { IfOk result
        (λ members. members.items ≡ drawn_members board.now boxes.now rows.now) }
{
    let mut members = Vec::with_capacity(alloc, boxes.len())?;
    for (index, square) in boxes.iter().enumerate() {
        if is_drawn(board, rows, *square) {
            members.push(index as u32)?;
        }
    }
    Ok(members)
}
