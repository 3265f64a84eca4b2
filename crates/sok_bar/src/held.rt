//! Which boxes are held along both axes.

ghost use Rattle.std.specs.List.Sorted.{IsStrictlyIncreasing};
ghost use Rattle.std.specs.Prelude.{◌<◌, ◌≤◌, ◌↔◌, IsTrue, length};
ghost use Rattle.sok_board.specs.Area.{IsAccepted};
ghost use Rattle.sok_board.specs.Limits.{box_limit};
ghost use Rattle.sok_distance.specs.Pushing.{IsStuck};
ghost use Rattle.sok_price.specs.Prices.{AreMembers};
ghost use Rattle.sok_bar.specs.Jam.{AreHeld, Held, IsBetween, IsHeld};
ghost use Rattle.sok_bar.specs.Settings.{AreHolders, IsDrawn, IsHolder, AreBoxesOn};

use crate::members::is_member;
use sok_board::area::Sq;
use sok_board::board::Board;
use sok_distance::setting::Setting;
use sok_field::field::Field;
use sok_rules::cell::Dir;

/// Which boxes may hold another: all of a list, members of the list, or those on squares of a set.
#[derive(Clone, Copy)]
pub(crate) enum Holders<'a> {
    Every,
    Members(&'a [u32]),
    Drawn(&'a Field),
}

/// Returns whether each member is held by walls, by members or between stuck squares.
pub(crate) fn are_held(setting: &Setting<'_>, boxes: &[Sq], members: &[u32]) -> bool
    requires boxes { AreBoxesOn setting.now.board.now boxes.now }
    requires listed { AreMembers boxes.now members.now }
    ensures { IsTrue result ↔ AreHeld setting.now.board.now boxes.now members.now }
{
    for member in members {
        let square = boxes[*member as usize];
        if !is_held(setting, boxes, Holders::Members(members), square) {
            return false;
        }
    }
    true
}

/// Returns whether a box on a square is held along both axes.
pub(crate) fn is_held(setting: &Setting<'_>, boxes: &[Sq], holders: Holders<'_>, square: Sq) -> bool
    requires boxes { AreBoxesOn setting.now.board.now boxes.now }
    requires listed { AreHolders boxes.now holders }
    requires exists { square < length setting.now.board.now.area }
    ensures { IsTrue result ↔ IsHeld setting.now.board.now
        (IsHolder setting.now.board.now boxes.now holders.entry) square }
{
    is_held_along(setting, boxes, holders, square, Dir::Left)
        && is_held_along(setting, boxes, holders, square, Dir::Up)
}

/// Returns whether a box on a square is held along the axis of a direction.
fn is_held_along(
    setting: &Setting<'_>,
    boxes: &[Sq],
    holders: Holders<'_>,
    square: Sq,
    dir: Dir,
) -> bool
    requires boxes { AreBoxesOn setting.now.board.now boxes.now }
    requires listed { AreHolders boxes.now holders }
    requires exists { square < length setting.now.board.now.area }
    ensures { IsTrue result
        ↔ Held setting.now.board.now
        (IsHolder setting.now.board.now boxes.now holders.entry) square dir }
{
    match setting.board.neighbour(square, dir) {
        Some(ahead) => match setting.board.neighbour(square, dir.opposite()) {
            Some(behind) => is_between(setting, boxes, holders, ahead, behind),
            None => true,
        },
        None => true,
    }
}

/// Returns whether a box between two squares of the area is held: a holder stands on one of them,
/// or both are stuck.
fn is_between(
    setting: &Setting<'_>,
    boxes: &[Sq],
    holders: Holders<'_>,
    ahead: Sq,
    behind: Sq,
) -> bool
    requires accepted { IsAccepted setting.now.board.now }
    requires boxes { AreBoxesOn setting.now.board.now boxes.now }
    requires listed { AreHolders boxes.now holders }
    requires ahead { ahead < length setting.now.board.now.area }
    requires behind { behind < length setting.now.board.now.area }
    ensures { IsTrue result
        ↔ IsBetween setting.now.board.now
        (IsHolder setting.now.board.now boxes.now holders.entry) ahead behind }
{
    is_holder(setting.board, boxes, holders, ahead)
        || is_holder(setting.board, boxes, holders, behind)
        || are_stuck(setting, ahead, behind)
}

/// Returns whether a holder stands on a square.
fn is_holder(board: &Board, boxes: &[Sq], holders: Holders<'_>, square: Sq) -> bool
    requires accepted { IsAccepted board.now }
    requires exists { square < length board.now.area }
    requires rising { IsStrictlyIncreasing boxes.now }
    requires few { length boxes.now ≤ box_limit }
    requires listed { AreHolders boxes.now holders }
    ensures { IsTrue result ↔ IsHolder board.now boxes.now holders.entry square }
{
    match holders {
        Holders::Every => boxes.contains(&square),
        Holders::Members(members) => is_member(boxes, members, square),
        Holders::Drawn(squares) => is_drawn(board, squares, square),
    }
}

/// Returns whether a square of the area is in a set.
pub(crate) fn is_drawn(board: &Board, squares: &Field, square: Sq) -> bool
    requires accepted { IsAccepted board.now }
    requires exists { square < length board.now.area }
    ensures { IsTrue result ↔ IsDrawn board.now squares.now square }
{
    squares.has(board.spot(square))
}

/// Returns whether two squares are both stuck.
fn are_stuck(setting: &Setting<'_>, first: Sq, second: Sq) -> bool
    requires first { first < length setting.now.board.now.area }
    requires second { second < length setting.now.board.now.area }
    ensures { IsTrue result ↔ (IsStuck setting.now.board.now first
        × IsStuck setting.now.board.now second) }
{
    setting.distances.stuck(first) && setting.distances.stuck(second)
}
