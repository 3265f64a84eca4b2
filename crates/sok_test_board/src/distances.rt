//! How far a box is from each goal, and where it is stuck.

ghost use Rattle.std.specs.Prelude.{◌≡◌};

use crate::setting::{board, distances};
use sok_board::area::Sq;
use sok_board::board::Board;
use sok_distance::distances::Distances;
use sok_sketch::{rooms, sketch};
use std::alloc::Global;
use std::test::Fail;

/// Returns whether a square has this distance to a goal, which is given by its index.
fn tells(board: &Board, distances: &Distances, goal: usize, square: Sq, pushes: Option<u16>) -> bool
    requires { distances.now.board ≡ board.now }
{
    if goal >= distances.goals() || square as usize >= board.squares() {
        return false;
    }
    distances.dist(goal, square) == pushes
}

/// Does the same on the board of a text.
fn tells_of(
    alloc: Global,
    text: &str,
    goal: usize,
    square: Sq,
    pushes: Option<u16>,
) -> Result<bool, Fail> {
    let board = board(alloc, text)?;
    let distances = distances(alloc, &board)?;
    Ok(tells(&board, &distances, goal, square, pushes))
}

#[test]
fn distances_to_goals(rt: HostRuntime) -> Result<(), Fail> {
    for &(text, goal, square, pushes) in &[
        (sketch::BOX_BEYOND_THE_GOAL, 0, 1, Some(0)),
        (sketch::BOX_BEYOND_THE_GOAL, 0, 2, None),
        (sketch::ROOM_OF_TWO_ROWS, 0, 5, Some(2)),
        (sketch::CORRIDOR_OF_SIX_PUSHES, 0, 7, Some(4)),
        (sketch::TWO_BOXES_AND_THREE_GOALS, 0, 8, Some(2)),
        (sketch::TWO_BOXES_AND_THREE_GOALS, 1, 8, Some(1)),
        (sketch::TWO_BOXES_AND_THREE_GOALS, 2, 8, Some(3)),
        (sketch::TWO_BOXES_AND_THREE_GOALS, 0, 10, Some(4)),
        (sketch::TWO_BOXES_AND_THREE_GOALS, 1, 10, Some(1)),
        (sketch::TWO_BOXES_AND_THREE_GOALS, 2, 10, Some(1)),
    ] {
        assert!(rt;
            tells_of(rt.alloc(), text, goal, square, pushes)?,
            "{square} of {text}"
        );
    }
    Ok(())
}

/// Returns whether these squares of a board are stuck, and no others.
fn are_stuck(board: &Board, distances: &Distances, stuck: &[Sq]) -> bool
    requires { distances.now.board ≡ board.now }
{
    for square in 0..board.squares() {
        let square = square as Sq;
        if distances.stuck(square) != stuck.contains(&square) {
            return false;
        }
    }
    true
}

/// Does the same on the board of a text.
fn are_stuck_on(alloc: Global, text: &str, stuck: &[Sq]) -> Result<bool, Fail> {
    let board = board(alloc, text)?;
    let distances = distances(alloc, &board)?;
    Ok(are_stuck(&board, &distances, stuck))
}

#[test]
fn stuck_squares(rt: HostRuntime) -> Result<(), Fail> {
    let cases: &[(&str, &[Sq])] = &[
        (sketch::BOX_BEYOND_THE_GOAL, &[0, 2]),
        (sketch::ROOM_OF_TWO_ROWS, &[0, 1, 2, 3, 4]),
        (sketch::CORRIDOR_OF_SIX_PUSHES, &[0, 1, 2, 8, 9, 10, 11]),
        (sketch::TWO_BOXES_AND_THREE_GOALS, &[0, 1, 2, 3, 4, 5]),
    ];
    for &(text, stuck) in cases {
        assert!(rt; are_stuck_on(rt.alloc(), text, stuck)?, "{text}");
    }
    Ok(())
}

/// Returns whether boxes move freely: the distance to a goal is that of the rows and columns. A box
/// in the first or the last row stays there, and these rows have no goal.
fn is_open(board: &Board, distances: &Distances) -> bool
    requires { distances.now.board ≡ board.now }
{
    for square in 0..board.squares() {
        if distances.stuck(square as Sq) != (square < 32 || square >= 992) {
            return false;
        }
    }
    tells(board, distances, 0, 330, Some(19)) && tells(board, distances, 127, 330, Some(27))
}

#[test]
fn room_of_1024_squares_and_128_goals(rt: HostRuntime) -> Result<(), Fail> {
    let text = rooms::ROOM_OF_128_GOALS.text(rt.alloc())?;
    let board = board(rt.alloc(), text.as_str())?;
    let distances = distances(rt.alloc(), &board)?;
    assert!(rt; board.goals().len() == 128 && board.squares() == 1024);
    assert!(rt; is_open(&board, &distances));
    Ok(())
}
