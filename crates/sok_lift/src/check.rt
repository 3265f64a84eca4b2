//! Whether the numbers of a table are lifts. This is what the proof rests on.

ghost use Rattle.std.specs.Prelude.{ℕ, ◌≡◌, ◌≤◌, ◌<◌, ◌+◌, ◌↔◌, IsTrue, All, length};
ghost use Rattle.sok_rules.specs.declared.cell.Dir.{Dir};
ghost use Rattle.sok_board.specs.Area.{goals_of};
ghost use Rattle.sok_lift.specs.Checked.{HoldsPush, HoldsSolved, HoldsWalk, IsKept, IsNone, IsSpared};
ghost use Rattle.sok_lift.specs.Numbers.{AreLifts, lift_in, lost};

use crate::lifts::{LOST, Lifts};
use crate::waste::waste;
use sok_board::area::Sq;
use sok_board::board::Board;
use sok_distance::setting::Setting;
use sok_rules::cell::Dir;

/// Returns true only if all numbers are lifts: 0 if both boxes are on goals, the same before and after
/// a walk, and before a push no more than after it and what the push wastes. Boxes that are lost stay
/// lost.
pub(crate) fn is_lift(setting: &Setting<'_>, lifts: &Lifts) -> bool
    ensures { IsTrue result → AreLifts setting.now.board.now lifts.now }
{
    if !are_solved_none(setting.board, lifts) {
        return false;
    }
    if !are_walks_held(setting.board, lifts) {
        return false;
    }
    are_pushes_held(setting, lifts)
}

/// Returns whether the number is 0 if both boxes are on goals.
fn are_solved_none(board: &Board, lifts: &Lifts) -> bool
    ensures { IsTrue result → HoldsSolved board.now lifts.now }
{
    for goal in board.goals() {
        if !is_none_with(board, lifts, *goal) {
            return false;
        }
    }
    true
}

/// Returns whether it is 0 if one box is on a square and the other one on a goal.
fn is_none_with(board: &Board, lifts: &Lifts, one: Sq) -> bool
    ensures { IsTrue result ↔ All (IsNone board.now lifts.now one) (goals_of board.now) }
{
    for goal in board.goals() {
        if !is_none(board, lifts, one, *goal) {
            return false;
        }
    }
    true
}

/// Returns whether it is 0 for boxes on two squares, wherever the player stands.
fn is_none(board: &Board, lifts: &Lifts, one: Sq, other: Sq) -> bool
    ensures { IsTrue result ↔ IsNone board.now lifts.now one other }
{
    for player in 0..board.squares() {
        if lifts.of(player as Sq, one, other) != 0 {
            return false;
        }
    }
    true
}

/// Returns whether no walk of one letter changes a number.
fn are_walks_held(board: &Board, lifts: &Lifts) -> bool
    ensures { IsTrue result → (q : ℕ) → q < length board.now.area → (d : Dir)
        → HoldsWalk board.now lifts.now d q }
{
    for player in 0..board.squares() {
        if !are_walks_held_from(board, lifts, player as Sq) {
            return false;
        }
    }
    true
}

/// Returns whether no walk of one letter from a square does.
fn are_walks_held_from(board: &Board, lifts: &Lifts, player: Sq) -> bool
    requires exists { player < length board.now.area }
    ensures { IsTrue result → (d : Dir) → HoldsWalk board.now lifts.now d player }
{
    is_walk_held(board, lifts, player, Dir::Left)
        && is_walk_held(board, lifts, player, Dir::Up)
        && is_walk_held(board, lifts, player, Dir::Right)
        && is_walk_held(board, lifts, player, Dir::Down)
}

/// Returns whether a walk of one letter changes no number.
fn is_walk_held(board: &Board, lifts: &Lifts, player: Sq, dir: Dir) -> bool
    requires exists { player < length board.now.area }
    ensures { IsTrue result → HoldsWalk board.now lifts.now dir player }
{
    match board.neighbour(player, dir) {
        None => true,
        Some(next) => is_kept_by_all(board, lifts, player, next),
    }
}

/// Returns whether a walk from one square to another changes no number, wherever two boxes stand.
fn is_kept_by_all(board: &Board, lifts: &Lifts, player: Sq, next: Sq) -> bool
    ensures { IsTrue result ↔ ((x : ℕ) → x < length board.now.area → (y : ℕ) → y < x
        → IsKept lifts.now player next x y) }
{
    for one in 0..board.squares() {
        if !is_kept_with(lifts, player, next, one as Sq) {
            return false;
        }
    }
    true
}

/// Returns whether a walk changes no number for one box on a square and another on a lower one.
fn is_kept_with(lifts: &Lifts, player: Sq, next: Sq, one: Sq) -> bool
    ensures { IsTrue result ↔ ((y : ℕ) → y < one → IsKept lifts.now player next one y) }
{
    for other in 0..one {
        if !is_kept(lifts, player, next, one, other) {
            return false;
        }
    }
    true
}

/// Returns whether a walk leaves the number for boxes on two squares, unless a box is in the way.
fn is_kept(lifts: &Lifts, player: Sq, next: Sq, one: Sq, other: Sq) -> bool
    ensures { IsTrue result ↔ IsKept lifts.now player next one other }
{
    let steps_off = player == one || player == other;
    let steps_on = next == one || next == other;
    steps_off || steps_on || lifts.of(player, one, other) == lifts.of(next, one, other)
}

/// Returns whether no push lowers a number by more than it wastes, or makes lost boxes others.
fn are_pushes_held(setting: &Setting<'_>, lifts: &Lifts) -> bool
    ensures { IsTrue result → (x : ℕ) → x < length setting.now.board.now.area → (d : Dir)
        → HoldsPush setting.now.board.now lifts.now d x }
{
    for square in 0..setting.board.squares() {
        if !are_held_from(setting, lifts, square as Sq) {
            return false;
        }
    }
    true
}

/// Returns whether no push of a box on a square does.
fn are_held_from(setting: &Setting<'_>, lifts: &Lifts, from: Sq) -> bool
    requires exists { from < length setting.now.board.now.area }
    ensures { IsTrue result → (d : Dir) → HoldsPush setting.now.board.now lifts.now d from }
{
    is_held(setting, lifts, from, Dir::Left)
        && is_held(setting, lifts, from, Dir::Up)
        && is_held(setting, lifts, from, Dir::Right)
        && is_held(setting, lifts, from, Dir::Down)
}

/// Returns whether the push of a box in one direction does not.
fn is_held(setting: &Setting<'_>, lifts: &Lifts, from: Sq, dir: Dir) -> bool
    requires exists { from < length setting.now.board.now.area }
    ensures { IsTrue result → HoldsPush setting.now.board.now lifts.now dir from }
{
    let Some(to) = setting.board.neighbour(from, dir) else {
        return true;
    };
    if setting.distances.stuck(to) {
        return true;
    }
    match setting.board.neighbour(from, dir.opposite()) {
        None => true,
        Some(player) => match waste(setting.distances, from, to) {
            None => false,
            Some(waste) => is_held_by_all(setting.board, lifts, player, from, to, waste),
        },
    }
}

/// Returns whether a push that wastes so many does not, wherever the other box stands.
fn is_held_by_all(board: &Board, lifts: &Lifts, player: Sq, from: Sq, to: Sq, waste: u32) -> bool
    ensures { IsTrue result ↔ ((y : ℕ) → y < length board.now.area
        → IsSpared lifts.now player from to waste y) }
{
    for other in 0..board.squares() {
        if !is_spared(lifts, player, from, to, waste, other as Sq) {
            return false;
        }
    }
    true
}

/// Returns whether a push that wastes so many does not if the other box stands on a square.
fn is_spared(lifts: &Lifts, player: Sq, from: Sq, to: Sq, waste: u32, other: Sq) -> bool
    ensures { IsTrue result ↔ IsSpared lifts.now player from to waste other }
{
    to == other
        || are_spared(
            lifts.of(player, from, other),
            lifts.of(from, to, other),
            waste,
        )
}

/// Returns whether a number is at most a later one and so many, and boxes that are lost stay lost.
fn are_spared(before: u8, after: u8, waste: u32) -> bool
    ensures { IsTrue result ↔ ((before ≤ waste + after) × (before ≡ lost → after ≡ lost)) }
{
    u64::from(before) <= u64::from(waste) + u64::from(after) && (before != LOST || after == LOST)
}
