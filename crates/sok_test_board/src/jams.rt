//! Frozen boxes as a reason, and which are found.

use crate::positions::{IN_THE_ROOM, ON_THE_GOAL, Position, TWO_IN_A_ROW, boxes_on, holds};
use crate::setting::{board, distances, setting};
use sok_bar::frozen::{Frozen, find_frozen};
use sok_bar::rest::Rest;
use sok_board::area::Sq;
use sok_distance::setting::Setting;
use sok_sketch::sketch;
use std::alloc::Global;
use std::process::Abort;
use std::test::Fail;

/// Members, and whether they are frozen.
type Case<'a> = (&'a [u32], bool);

const IN_A_ROW: [Case<'_>; 6] = [
    (&[0, 1], true),
    (&[0], false),
    // numbers that fall, that repeat, that are no indices, and none at all
    (&[1, 0], false),
    (&[0, 0], false),
    (&[0, 1, 2], false),
    (&[], false),
];

/// Asserts whether members of a position are frozen, as a reason for `rest`.
fn assert_frozen(
    rt: &impl Abort,
    alloc: Global,
    position: Position<'_>,
    frozen: &Frozen<'_>,
    rest: Rest,
    answer: bool,
) -> Result<(), Fail> {
    let found = holds(rt, alloc, frozen, position, rest)?;
    assert_eq!(rt; found, answer, "{frozen:?} for {rest:?}");
    Ok(())
}

/// Asserts for each case whether its members are frozen.
fn ask(
    rt: &impl Abort,
    alloc: Global,
    position: Position<'_>,
    cases: &[Case<'_>],
) -> Result<(), Fail> {
    for (members, answer) in cases {
        let frozen = Frozen { members };
        assert_frozen(rt, alloc, position, &frozen, Rest::Never, *answer)?;
        assert_frozen(rt, alloc, position, &frozen, Rest::AtLeast(3), *answer)?;
    }
    Ok(())
}

#[test]
fn members_that_are_frozen(rt: HostRuntime) -> Result<(), Fail> {
    ask(&rt, rt.alloc(), TWO_IN_A_ROW, &IN_A_ROW)?;
    ask(&rt, rt.alloc(), ON_THE_GOAL, &[(&[0], false)])?;
    ask(&rt, rt.alloc(), IN_THE_ROOM, &[(&[0], false)])
}

/// Returns the members of the jam that is found with a box on a square, or `None`.
fn found(
    rt: &impl Abort,
    alloc: Global,
    level: &str,
    squares: &[Sq],
    square: Sq,
) -> Result<Option<Vec<u32>>, Fail> {
    let board = board(alloc, level)?;
    let distances = distances(alloc, &board)?;
    let setting = setting(&board, &distances);
    found_on(rt, alloc, &setting, squares, square)
}

fn found_on(
    rt: &impl Abort,
    alloc: Global,
    setting: &Setting<'_>,
    squares: &[Sq],
    square: Sq,
) -> Result<Option<Vec<u32>>, Fail> {
    let boxes = boxes_on(rt, alloc, setting.board, squares)?;
    assert!(rt; boxes.has(square));
    Ok(find_frozen(alloc, setting, &boxes, square)?)
}

/// A level, the squares of boxes on it, one of them, and the members of a jam with it.
type Found<'a> = (&'a str, &'a [Sq], Sq, &'a [u32]);

const JAMMED: [Found<'_>; 4] = [
    (sketch::TWO_IN_A_ROW, &[1, 2], 1, &[0, 1]),
    (sketch::ONE_OF_TWO_ON_A_GOAL, &[1, 2], 1, &[0, 1]),
    (sketch::ONE_OF_TWO_ON_A_GOAL, &[1, 2], 2, &[0, 1]),
    (sketch::TWO_OF_THREE_STUCK, &[1, 2, 5], 2, &[0, 1]),
];

/// Returns whether a jam is found and has these members.
fn finds(
    rt: &impl Abort,
    alloc: Global,
    level: &str,
    squares: &[Sq],
    square: Sq,
    told: &[u32],
) -> Result<bool, Fail> {
    match found(rt, alloc, level, squares, square)? {
        Some(members) => Ok(members.as_slice() == told),
        None => Ok(false),
    }
}

#[test]
fn boxes_that_are_found_frozen(rt: HostRuntime) -> Result<(), Fail> {
    for &(level, squares, square, told) in &JAMMED {
        assert!(rt;
            finds(&rt, rt.alloc(), level, squares, square, told)?,
            "{level}"
        );
    }
    Ok(())
}

/// A level, the squares of boxes on it, and one of them.
type Free<'a> = (&'a str, &'a [Sq], Sq);

const FREE: [Free<'_>; 3] = [
    (sketch::TWO_OF_THREE_STUCK, &[1, 2, 5], 5),
    (sketch::SOLVED, &[2], 2),
    (sketch::TWO_ON_GOALS, &[1, 2], 1),
];

#[test]
fn boxes_that_are_not_frozen(rt: HostRuntime) -> Result<(), Fail> {
    for &(level, squares, square) in &FREE {
        let jam = found(&rt, rt.alloc(), level, squares, square)?;
        assert!(rt; jam.is_none(), "{level}");
    }
    Ok(())
}
