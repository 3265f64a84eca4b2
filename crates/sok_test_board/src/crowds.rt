//! Crowds as a reason.

use crate::positions::{BEYOND_THE_GOAL, Position, TWO_AND_THREE_GOALS, TWO_FOR_ONE_GOAL, holds};
use sok_bar::crowd::Crowd;
use sok_bar::rest::Rest;
use sok_sketch::sketch;
use std::alloc::Global;
use std::process::Abort;
use std::test::Fail;

/// Members, and whether they are a crowd.
type Case<'a> = (&'a [u32], bool);

const FOR_ONE_GOAL: [Case<'_>; 6] = [
    (&[0], false),
    (&[0, 1], true),
    // numbers that fall, that repeat, that are no indices, and none at all
    (&[1, 0], false),
    (&[0, 0], false),
    (&[0, 1, 2], false),
    (&[], false),
];

/// Asserts whether members of a position are a crowd, as a reason for `rest`.
fn assert_crowd(
    rt: &impl Abort,
    alloc: Global,
    position: Position<'_>,
    crowd: &Crowd<'_>,
    rest: Rest,
    answer: bool,
) -> Result<(), Fail> {
    let found = holds(rt, alloc, crowd, position, rest)?;
    assert_eq!(rt; found, answer, "{crowd:?} for {rest:?}");
    Ok(())
}

/// Asserts for each case whether its members are a crowd.
fn ask(
    rt: &impl Abort,
    alloc: Global,
    position: Position<'_>,
    cases: &[Case<'_>],
) -> Result<(), Fail> {
    for (members, answer) in cases {
        let crowd = Crowd { members };
        assert_crowd(rt, alloc, position, &crowd, Rest::Never, *answer)?;
        assert_crowd(rt, alloc, position, &crowd, Rest::AtLeast(7), *answer)?;
    }
    Ok(())
}

#[test]
fn members_of_crowds(rt: HostRuntime) -> Result<(), Fail> {
    ask(&rt, rt.alloc(), BEYOND_THE_GOAL, &[(&[0], true)])?;
    ask(&rt, rt.alloc(), TWO_FOR_ONE_GOAL, &FOR_ONE_GOAL)?;
    ask(&rt, rt.alloc(), TWO_AND_THREE_GOALS, &[(&[0, 1], false)])
}

/// The box alone, on a square from which it reaches the goal or does not.
const ALONE: [(Position<'_>, bool); 4] = [
    ((sketch::CORRIDOR_OF_SIX_PUSHES, &[8], 7), true),
    ((sketch::CORRIDOR_OF_SIX_PUSHES, &[1], 7), true),
    ((sketch::CORRIDOR_OF_SIX_PUSHES, &[10], 7), true),
    ((sketch::CORRIDOR_OF_SIX_PUSHES, &[6], 7), false),
];

#[test]
fn one_box_in_the_corridor(rt: HostRuntime) -> Result<(), Fail> {
    let crowd = Crowd { members: &[0] };
    for &(position, answer) in &ALONE {
        let found = holds(&rt, rt.alloc(), &crowd, position, Rest::Never)?;
        assert_eq!(rt; found, answer);
    }
    Ok(())
}
