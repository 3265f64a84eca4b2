//! How many pushes pairs of boxes must waste, and which pairs are lost.

use crate::pairs::PUSHES_OF_TWO;
use crate::setting::{board, distances, placed, setting};
use sok_board::area::Sq;
use sok_distance::setting::Setting;
use sok_lift::lifts::Lifts;
use sok_lift::raise;
use sok_sketch::sketch::{BOX_IN_THE_DOORWAY, PAIR_THAT_IS_LOST, THREE_BOXES_IN_THE_OPEN};
use std::alloc::Global;
use std::process::Abort;
use std::test::Fail;

/// Where the player stands, boxes, and what the lifts of their pairs add up to.
type Case = (Sq, &'static [Sq], u32);

/// The goals are 26, 27 and 28, in one row.
const IN_THE_OPEN: [Case; 5] = [
    (0, &[10, 12, 19], 0),
    // each two in that row, beside each other and not both on goals, are in each other's way
    (0, &[25, 26, 28], 2),
    (0, &[25, 26, 28, 29], 4),
    // no box is counted twice
    (0, &[28, 29, 30], 2),
    (0, &[28], 0),
];

/// The goals are 10 and 18, and the doorway is 8. Squares 3 and 4 are in the room on its right.
const AT_A_DOORWAY: [Case; 4] = [
    (5, &[8, 12], 0),
    // the box in the doorway shuts the player in, so it is pushed out on the wrong side first
    (4, &[8, 12], 2),
    (3, &[7, 10], 2),
    (6, &[7, 10], 0),
];

/// Asserts what the lifts of each case add up to.
fn add_up(
    rt: &impl Abort,
    alloc: Global,
    setting: &Setting<'_>,
    cases: &[Case],
) -> Result<(), Fail> {
    let lifts = Lifts::new(alloc, setting)?;
    let mut free = Vec::new(alloc);
    for (player, squares, sum) in cases {
        let boxes = placed(rt, alloc, setting.board, squares, *player)?;
        let raised = raise::raise(&lifts, *player, &boxes, &mut free)?;
        assert_eq!(rt; raised, *sum, "the player on {player}");
    }
    Ok(())
}

#[test]
fn pairs_in_the_open(rt: HostRuntime) -> Result<(), Fail> {
    let board = board(rt.alloc(), THREE_BOXES_IN_THE_OPEN)?;
    let distances = distances(rt.alloc(), &board)?;
    add_up(&rt, rt.alloc(), &setting(&board, &distances), &IN_THE_OPEN)
}

#[test]
fn pairs_at_a_doorway(rt: HostRuntime) -> Result<(), Fail> {
    let board = board(rt.alloc(), BOX_IN_THE_DOORWAY)?;
    let distances = distances(rt.alloc(), &board)?;
    add_up(&rt, rt.alloc(), &setting(&board, &distances), &AT_A_DOORWAY)
}

/// Asserts of each push whether it leaves two boxes that can't be solved.
fn lose(rt: &impl Abort, alloc: Global, setting: &Setting<'_>) -> Result<(), Fail> {
    let lifts = Lifts::new(alloc, setting)?;
    for (squares, from, _dir, to, lost) in &PUSHES_OF_TWO {
        let boxes = placed(rt, alloc, setting.board, squares, 0)?;
        let found = raise::is_lost(&lifts, *from, &boxes, *from, *to);
        assert_eq!(rt; found, *lost, "{from} to {to}");
    }
    Ok(())
}

#[test]
fn pairs_that_are_lost(rt: HostRuntime) -> Result<(), Fail> {
    let board = board(rt.alloc(), PAIR_THAT_IS_LOST)?;
    let distances = distances(rt.alloc(), &board)?;
    lose(&rt, rt.alloc(), &setting(&board, &distances))
}
