//! Minimum assignments of boxes to goals, and crowds.

ghost use Rattle.std.specs.Prelude.{◌≤◌, ◌<◌, All, length};
ghost use Rattle.std.specs.List.Sorted.{IsStrictlyIncreasing};
ghost use Rattle.sok_board.specs.Limits.{box_limit};

use crate::setting::{board, distances};
use sok_board::area::Sq;
use sok_board::box_set::BoxSet;
use sok_distance::distances::Distances;
use sok_price::assign::{Match, assign};
use sok_sketch::{rooms, sketch};
use std::alloc::Global;
use std::test::Fail;

/// Returns what is found for the boxes of a level at their start.
fn assigned(alloc: Global, text: &str) -> Result<Match, Fail> {
    let board = board(alloc, text)?;
    let distances = distances(alloc, &board)?;
    let (_, boxes) = board.start();
    assigned_on(alloc, &distances, boxes)
}

fn assigned_on(alloc: Global, distances: &Distances, squares: &[Sq]) -> Result<Match, Fail>
    requires rising { IsStrictlyIncreasing squares.now }
    requires few { length squares.now ≤ box_limit }
    requires within { All (λ square. square < length distances.now.board.area) squares.now }
{
    let boxes = BoxSet::of(alloc, squares)?;
    Ok(assign(alloc, distances, &boxes)?)
}

/// A level, the minimum cost, the goals of the boxes, and the number of all goals.
type Priced<'a> = (&'a str, u32, &'a [usize], usize);

const LEAST: [Priced<'_>; 4] = [
    (sketch::ONE_PUSH, 1, &[0], 1),
    // the level takes six pushes; without the player, two are seen
    (sketch::CORRIDOR_OF_SIX_PUSHES, 2, &[0], 1),
    // the boxes are 2, 1, 3 and 4, 1, 1 pushes from the goals
    (sketch::TWO_BOXES_AND_THREE_GOALS, 2, &[1, 2], 3),
    // if the first box takes the goal one push away, the other box needs 6
    (sketch::NEAREST_GOAL_NEEDED_BY_ANOTHER, 5, &[0, 1], 2),
];

/// Returns whether an assignment with this cost was found, to these goals of so many.
fn is_priced(found: Match, least: u32, goals: &[usize], all: usize) -> bool {
    match found {
        Match::Prices {
            u,
            v,
            total,
            goal_of,
        } => {
            total == least
                && goal_of.as_slice() == goals
                && u.len() == goals.len()
                && v.len() == all
        }
        Match::Crowd { .. } => false,
    }
}

#[test]
fn least_assignments(rt: HostRuntime) -> Result<(), Fail> {
    for &(text, least, goals, all) in &LEAST {
        let found = assigned(rt.alloc(), text)?;
        assert!(rt; is_priced(found, least, goals, all), "{text}");
    }
    Ok(())
}

const CROWDS: [(&str, &[u32]); 2] = [
    (sketch::BOX_BEYOND_THE_GOAL, &[0]),
    (sketch::TWO_BOXES_FOR_ONE_GOAL, &[0, 1]),
];

/// Returns whether a crowd of these boxes was found.
fn is_crowd(found: Match, crowd: &[u32]) -> bool {
    match found {
        Match::Crowd { members } => members.as_slice() == crowd,
        Match::Prices { .. } => false,
    }
}

#[test]
fn crowds(rt: HostRuntime) -> Result<(), Fail> {
    for &(text, crowd) in &CROWDS {
        let found = assigned(rt.alloc(), text)?;
        assert!(rt; is_crowd(found, crowd), "{text}");
    }
    Ok(())
}

/// Returns whether an assignment of 128 boxes to 128 goals with this cost was found.
fn is_priced_throughout(found: Match, least: u32) -> bool {
    match found {
        Match::Prices {
            u,
            v,
            total,
            goal_of,
        } => total == least && u.len() == 128 && v.len() == 128 && goal_of.len() == 128,
        Match::Crowd { .. } => false,
    }
}

/// In each of the 32 columns the boxes go up by 16 squares in all, and no push gains more than one
/// row.
#[test]
fn room_of_128_boxes_and_128_goals(rt: HostRuntime) -> Result<(), Fail> {
    let text = rooms::ROOM_OF_128_BOXES_BELOW_GOALS.text(rt.alloc())?;
    let found = assigned(rt.alloc(), text.as_str())?;
    assert!(rt; is_priced_throughout(found, 512));
    Ok(())
}
