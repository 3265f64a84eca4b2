//! Dual prices as a reason, and spent pushes as one.

use crate::positions::{
    IN_THE_ROOM, ON_THE_GOAL, Position, TO_THE_GOAL, TWO_AND_THREE_GOALS, holds,
};
use sok_bar::bound::Bound;
use sok_bar::rest::Rest;
use sok_bar::spent::Spent;
use sok_sketch::sketch;
use std::alloc::Global;
use std::process::Abort;
use std::test::Fail;

#[test]
fn spent_pushes(rt: HostRuntime) -> Result<(), Fail> {
    for &(position, rest, answer) in &[
        (ON_THE_GOAL, Rest::AtLeast(0), true),
        (ON_THE_GOAL, Rest::AtLeast(1), false),
        (TO_THE_GOAL, Rest::Never, false),
    ] {
        let found = holds(&rt, rt.alloc(), &Spent, position, rest)?;
        assert_eq!(rt; found, answer, "{rest:?}");
    }
    Ok(())
}

#[test]
fn no_prices_show_that_there_is_no_solution(rt: HostRuntime) -> Result<(), Fail> {
    let bound = Bound { u: &[1], v: &[0] };
    assert!(rt; !holds(&rt, rt.alloc(), &bound, TO_THE_GOAL, Rest::Never)?);
    Ok(())
}

const AFTER_A_PUSH: Position<'_> = (sketch::CORRIDOR_OF_SIX_PUSHES, &[7], 6);

/// A number of pushes, prices of boxes and of goals, and whether these show as many pushes.
type Case<'a> = (u32, &'a [u32], &'a [u32], bool);

const ON_TWO_AND_THREE_GOALS: [Case<'_>; 9] = [
    (2, &[1, 1], &[0, 0, 0], true),
    // the price of a goal that no box needs is subtracted
    (2, &[1, 1], &[1, 0, 0], false),
    (2, &[2, 2], &[0, 1, 1], true),
    (3, &[2, 2], &[0, 1, 1], false),
    // lists with other lengths
    (0, &[1], &[0, 0, 0], false),
    (0, &[1, 1], &[0, 0], false),
    (0, &[1, 1], &[0, 0, 0, 0], false),
    (0, &[], &[], false),
    // prices whose sums are too large for a price
    (
        0,
        &[u32::MAX, u32::MAX],
        &[u32::MAX, u32::MAX, u32::MAX],
        false,
    ),
];

/// A price that is the distance, and one that is greater.
const ON_AFTER_A_PUSH: [Case<'_>; 2] = [(4, &[4], &[0], true), (4, &[5], &[0], false)];

/// Asserts whether prices show so many pushes for a position.
fn assert_bound(
    rt: &impl Abort,
    alloc: Global,
    position: Position<'_>,
    pushes: u32,
    bound: &Bound<'_>,
    answer: bool,
) -> Result<(), Fail> {
    let found = holds(rt, alloc, bound, position, Rest::AtLeast(pushes))?;
    assert_eq!(rt; found, answer, "{pushes} by {bound:?}");
    Ok(())
}

/// Asserts for each case whether its prices show its pushes for a position.
fn ask(
    rt: &impl Abort,
    alloc: Global,
    position: Position<'_>,
    cases: &[Case<'_>],
) -> Result<(), Fail> {
    for (pushes, u, v, answer) in cases {
        assert_bound(rt, alloc, position, *pushes, &Bound { u, v }, *answer)?;
    }
    Ok(())
}

#[test]
fn prices_that_bound(rt: HostRuntime) -> Result<(), Fail> {
    let to_the_goal: &[Case<'_>] = &[(1, &[1], &[0], true), (2, &[1], &[0], false)];
    ask(&rt, rt.alloc(), TO_THE_GOAL, to_the_goal)?;
    ask(&rt, rt.alloc(), IN_THE_ROOM, &[(2, &[2], &[0], true)])?;
    ask(&rt, rt.alloc(), AFTER_A_PUSH, &ON_AFTER_A_PUSH)?;
    ask(
        &rt,
        rt.alloc(),
        TWO_AND_THREE_GOALS,
        &ON_TWO_AND_THREE_GOALS,
    )
}
