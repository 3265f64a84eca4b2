//! The positions, and whether a reason holds of one.

ghost use Rattle.std.specs.Prelude.{◌<◌, All, IfOk, length};

use crate::setting::{are_below, board, distances, placed, setting};
use sok_bar::bar::Bar;
use sok_bar::rest::Rest;
use sok_board::area::Sq;
use sok_board::board::Board;
use sok_board::box_set::BoxSet;
use sok_distance::setting::Setting;
use sok_sketch::sets::box_set;
use sok_sketch::sketch;
use std::alloc::Global;
use std::process::Abort;
use std::test::Fail;

/// A level, with the squares of boxes and of the player on it.
pub(crate) type Position<'a> = (&'a str, &'a [Sq], Sq);

pub(crate) const TO_THE_GOAL: Position<'_> = (sketch::ONE_PUSH, &[1], 0);

pub(crate) const ON_THE_GOAL: Position<'_> = (sketch::SOLVED, &[2], 0);

pub(crate) const BEYOND_THE_GOAL: Position<'_> = (sketch::BOX_BEYOND_THE_GOAL, &[2], 0);

pub(crate) const TWO_IN_A_ROW: Position<'_> = (sketch::TWO_IN_A_ROW, &[1, 2], 0);

pub(crate) const IN_THE_ROOM: Position<'_> = (sketch::ROOM_OF_TWO_ROWS, &[5], 6);

pub(crate) const TWO_FOR_ONE_GOAL: Position<'_> = (sketch::TWO_BOXES_FOR_ONE_GOAL, &[1, 3], 12);

pub(crate) const TWO_AND_THREE_GOALS: Position<'_> = (
    sketch::TWO_BOXES_AND_THREE_GOALS,
    &[8, 10],
    0,
);

/// Returns the set of boxes on some squares of a board, which must rise.
pub(crate) fn boxes_on(
    rt: &impl Abort,
    alloc: Global,
    board: &Board,
    squares: &[Sq],
) -> Result<BoxSet, Fail>
    ensures { IfOk result (All (λ square. square < length board.now.area)) }
{
    assert!(rt; are_below(squares, board.squares()));
    box_set(alloc, squares)
}

/// Returns whether a reason holds, through the trait alone.
pub(crate) fn holds<B: Bar>(
    rt: &impl Abort,
    alloc: Global,
    reason: &B,
    position: Position<'_>,
    rest: Rest,
) -> Result<bool, Fail> {
    let (level, boxes, player) = position;
    let board = board(alloc, level)?;
    let distances = distances(alloc, &board)?;
    let setting = setting(&board, &distances);
    holds_on(rt, alloc, reason, &setting, boxes, player, rest)
}

fn holds_on<B: Bar>(
    rt: &impl Abort,
    alloc: Global,
    reason: &B,
    setting: &Setting<'_>,
    boxes: &[Sq],
    player: Sq,
    rest: Rest,
) -> Result<bool, Fail> {
    let boxes = placed(rt, alloc, setting.board, boxes, player)?;
    Ok(reason.holds(alloc, setting, &boxes, player, rest)?)
}
