//! Which levels a solver accepts, and their square numbers.

use crate::setting::board;
use sok_board::area::Sq;
use sok_board::board::Board;
use sok_board::fault::BoardFault;
use sok_rules::cell::{Cell, Dir, Spot};
use sok_sketch::rooms::{self, Room};
use sok_sketch::sketch;
use std::alloc::Global;
use std::process::Abort;
use std::test::Fail;

/// Returns whether the square with a number is at a row and a column.
fn lies(board: &Board, number: usize, row: u32, col: u32) -> bool {
    if number >= board.squares() {
        return false;
    }
    let spot = Spot { row, col };
    board.square(spot) == Some(number as Sq) && board.spot(number as Sq) == spot
}

/// Returns whether the squares of a board are at these rows and columns, in order.
fn has_squares(alloc: Global, text: &str, squares: &[(u32, u32)]) -> Result<bool, Fail> {
    let board = board(alloc, text)?;
    for (number, (row, col)) in squares.iter().enumerate() {
        if !lies(&board, number, *row, *col) {
            return Ok(false);
        }
    }
    Ok(board.squares() == squares.len())
}

const CORRIDOR: &[(u32, u32)] = &[(1, 1), (1, 2), (1, 3)];

const TWO_ROWS: &[(u32, u32)] = &[
    (1, 1),
    (1, 2),
    (1, 3),
    (1, 4),
    (2, 1),
    (2, 2),
    (2, 3),
    (2, 4),
];

const WITH_A_ROOM: &[(u32, u32)] = &[
    (1, 4),
    (1, 5),
    (1, 6),
    (2, 1),
    (2, 2),
    (2, 3),
    (2, 4),
    (2, 5),
    (2, 6),
    (3, 4),
    (3, 5),
    (3, 6),
];

#[test]
fn squares_of_boards(rt: HostRuntime) -> Result<(), Fail> {
    for &(text, squares) in &[
        (sketch::ONE_PUSH, CORRIDOR),
        (sketch::ROOM_OF_TWO_ROWS, TWO_ROWS),
        (sketch::CORRIDOR_OF_SIX_PUSHES, WITH_A_ROOM),
        (sketch::DECORATED, CORRIDOR),
        (sketch::NO_BOX_INSIDE, &[(1, 1)]),
    ] {
        assert!(rt; has_squares(rt.alloc(), text, squares)?, "{text}");
    }
    Ok(())
}

/// Returns whether a board has its player on a square, and these boxes and goals.
fn starts(alloc: Global, text: &str, player: Sq, boxes: &[Sq], goals: &[Sq]) -> Result<bool, Fail> {
    let board = board(alloc, text)?;
    Ok(board.start() == (player, boxes) && board.goals() == goals)
}

#[test]
fn starts_of_boards(rt: HostRuntime) -> Result<(), Fail> {
    let cases: &[(&str, Sq, &[Sq], &[Sq])] = &[
        (sketch::ONE_PUSH, 0, &[1], &[2]),
        (sketch::ROOM_OF_TWO_ROWS, 6, &[5], &[7]),
        (sketch::CORRIDOR_OF_SIX_PUSHES, 4, &[5], &[3]),
        (sketch::DECORATED, 0, &[1], &[2]),
        (sketch::NO_BOX_INSIDE, 0, &[], &[]),
    ];
    for &(text, player, boxes, goals) in cases {
        assert!(rt; starts(rt.alloc(), text, player, boxes, goals)?, "{text}");
    }
    Ok(())
}

/// Returns the square beside the first square of a board, if there is one.
fn beside_the_first(board: &Board, dir: Dir) -> Option<Sq> {
    if board.squares() == 0 {
        return None;
    }
    board.neighbour(0, dir)
}

#[test]
fn squares_beside(rt: HostRuntime) -> Result<(), Fail> {
    let board = board(rt.alloc(), sketch::DECORATED)?;
    for &(dir, beside) in &[
        (Dir::Left, None),
        (Dir::Up, None),
        (Dir::Right, Some(1)),
        (Dir::Down, None),
    ] {
        assert!(rt; beside_the_first(&board, dir) == beside, "{dir:?}");
    }
    Ok(())
}

/// Returns whether a spot of a level is no square of its board, and has this cell.
fn lies_outside(board: &Board, row: u32, col: u32, cell: Option<Cell>) -> bool {
    let spot = Spot { row, col };
    board.square(spot).is_none() && board.level().cell(spot) == cell
}

#[test]
fn spots_outside(rt: HostRuntime) -> Result<(), Fail> {
    let board = board(rt.alloc(), sketch::DECORATED)?;
    for &(row, col, cell) in &[
        (0, 0, Some(Cell::Wall)),
        (1, 5, Some(Cell::BoxOn)),
        (9, 70, None),
    ] {
        assert!(rt; lies_outside(&board, row, col, cell), "{row}, {col}");
    }
    Ok(())
}

/// The number of squares of a board, or its fault with the fault's number.
type Told = Result<usize, (BoardFault, u8)>;

fn told(alloc: Global, text: &str) -> Result<Told, Fail> {
    let level = sketch::level(alloc, text)?;
    match Board::new(alloc, &level) {
        Ok(board) => Ok(Ok(board.squares())),
        Err(fault) => Ok(Err((fault, fault.number()))),
    }
}

/// The fault of the level that is open at the side.
const OPEN: BoardFault = BoardFault::NotEnclosed(Spot { row: 1, col: 3 });

/// The fault of the level with a box outside.
const STRAY: BoardFault = BoardFault::BoxOutside(Spot { row: 1, col: 5 });

#[test]
fn refused_levels(rt: HostRuntime) -> Result<(), Fail> {
    for &(text, fault, number) in &[
        (sketch::OPEN_AT_THE_SIDE, OPEN, 6),
        (sketch::STRAY_BOX, STRAY, 7),
        (sketch::NO_GOAL, BoardFault::TooFewGoals, 8),
    ] {
        assert!(rt; told(rt.alloc(), text)? == Err((fault, number)), "{text}");
    }
    Ok(())
}

/// Asserts how many squares the board of a room has, or its fault.
fn assert_told(rt: &impl Abort, alloc: Global, room: &Room, count: Told) -> Result<(), Fail> {
    let text = room.text(alloc)?;
    assert!(rt; told(alloc, text.as_str())? == count);
    Ok(())
}

/// 65 rows of 65 squares.
const ROOM_OF_65_ROWS: Room = Room {
    top: "\
###################################################################
#@$.                                                              #
",
    row: "#                                                                 #\n",
    times: 64,
    bottom: "###################################################################\n",
};

/// 64 rows of 64 squares, with one box more than a board may have.
const ROOM_OF_4096_AND_129_BOXES: Room = Room {
    top: "\
##################################################################
#@$.                                                             #
#$$$$$$$$$$$$$$$$$$$$$$$$$$$$$$$$$$$$$$$$$$$$$$$$$$$$$$$$$$$$$$$$#
#$$$$$$$$$$$$$$$$$$$$$$$$$$$$$$$$$$$$$$$$$$$$$$$$$$$$$$$$$$$$$$$$#
",
    row: "#                                                                #\n",
    times: 61,
    bottom: "##################################################################\n",
};

#[test]
fn large_rooms(rt: HostRuntime) -> Result<(), Fail> {
    let too_large = Err((BoardFault::TooLarge, 9));
    let too_many = Err((BoardFault::TooManyBoxes, 10));
    for &(room, count) in &[
        (rooms::CORRIDOR_AROUND, Ok(500)),
        (rooms::ROOM_OF_4096, Ok(4096)),
        (rooms::ROOM_OF_4097, too_large),
        (ROOM_OF_65_ROWS, too_large),
        (rooms::ROOM_OF_129_BOXES, too_many),
        (ROOM_OF_4096_AND_129_BOXES, too_many),
    ] {
        assert_told(&rt, rt.alloc(), &room, count)?;
    }
    Ok(())
}
