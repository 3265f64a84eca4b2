//! The squares that the player reaches without a push, and the walks to them.

ghost use Rattle.std.specs.Prelude.{IfOk};
ghost use Rattle.sok_region.specs.Regions.{IsRegionOf};

use crate::setting::{board, placed};
use sok_board::area::Sq;
use sok_board::board::Board;
use sok_region::region::Region;
use sok_rules::cell::Dir;
use sok_sketch::sketch;
use std::alloc::Global;
use std::process::Abort;
use std::test::Fail;

/// Returns the region of a player among the boxes of a board's start.
pub(crate) fn region(
    rt: &impl Abort,
    alloc: Global,
    board: &Board,
    player: Sq,
) -> Result<Region, Fail>
    ensures { IfOk result (IsRegionOf board.now) }
{
    let (_, boxes) = board.start();
    let boxes = placed(rt, alloc, board, boxes, player)?;
    Ok(Region::of(alloc, board, &boxes, player)?)
}

/// Returns whether a region has these squares and no others. The first of them must be its least.
fn has_only(region: &Region, squares: &[Sq]) -> bool {
    for square in 0..1024 {
        if region.has(square) != squares.contains(&square) {
            return false;
        }
    }
    squares.first() == Some(&region.least())
}

/// Does the same for the region on the board of a text.
fn has_only_on(
    rt: &impl Abort,
    alloc: Global,
    text: &str,
    player: Sq,
    squares: &[Sq],
) -> Result<bool, Fail> {
    let board = board(alloc, text)?;
    Ok(has_only(&region(rt, alloc, &board, player)?, squares))
}

#[test]
fn squares_of_regions(rt: HostRuntime) -> Result<(), Fail> {
    let cases: &[(&str, Sq, &[Sq])] = &[
        (sketch::ROOM_OF_TWO_ROWS, 6, &[0, 1, 2, 3, 4, 6, 7]),
        (sketch::CORRIDOR_WITH_THE_BOX_ON_6, 5, &[3, 4, 5]),
        (
            sketch::CORRIDOR_WITH_THE_BOX_ON_6,
            8,
            &[0, 1, 2, 7, 8, 9, 10, 11],
        ),
    ];
    for &(text, player, squares) in cases {
        assert!(rt;
            has_only_on(&rt, rt.alloc(), text, player, squares)?,
            "{text}"
        );
    }
    Ok(())
}

/// Returns whether a walk in the region of a board's start has these letters, or does not exist.
fn walks(
    rt: &impl Abort,
    alloc: Global,
    text: &str,
    from: Sq,
    to: Sq,
    letters: Option<&[Dir]>,
) -> Result<bool, Fail> {
    let board = board(alloc, text)?;
    let (player, _) = board.start();
    let region = region(rt, alloc, &board, player)?;
    let walk = walk(alloc, &board, &region, from, to)?;
    Ok(walk.as_deref() == letters)
}

/// Returns a walk in a region, if there is one.
fn walk(
    alloc: Global,
    board: &Board,
    region: &Region,
    from: Sq,
    to: Sq,
) -> Result<Option<Vec<Dir>>, Fail>
    requires { IsRegionOf board.now region.now }
{
    Ok(region.walk(alloc, board, from, to)?)
}

/// The walk around the box of a room.
const AROUND: &[Dir] = &[Dir::Up, Dir::Left, Dir::Left, Dir::Down];

#[test]
fn walks_in_regions(rt: HostRuntime) -> Result<(), Fail> {
    for &(text, from, to, letters) in &[
        (sketch::ROOM_OF_TWO_ROWS, 6, 4, Some(AROUND)),
        (sketch::ROOM_OF_TWO_ROWS, 6, 5, None),
        (sketch::ROOM_OF_TWO_ROWS, 5, 6, None),
        (sketch::CORRIDOR_WITH_THE_BOX_ON_6, 4, 8, None),
        (sketch::CORRIDOR_WITH_THE_BOX_ON_6, 8, 4, None),
    ] {
        assert!(rt;
            walks(&rt, rt.alloc(), text, from, to, letters)?,
            "{from} to {to}"
        );
    }
    Ok(())
}

/// Returns how many letters a walk in a region has, if there is one.
fn length(
    alloc: Global,
    board: &Board,
    region: &Region,
    from: Sq,
    to: Sq,
) -> Result<Option<usize>, Fail>
    requires { IsRegionOf board.now region.now }
{
    match walk(alloc, board, region, from, to)? {
        Some(walk) => Ok(Some(walk.len())),
        None => Ok(None),
    }
}

/// Returns whether all walks from a square are shortest ones. The walk to the square itself has no
/// letters, and the walk to a neighbour of a square has at most one more than the walk to that
/// square.
fn are_shortest(alloc: Global, board: &Board, region: &Region, from: Sq) -> Result<bool, Fail>
    requires { IsRegionOf board.now region.now }
{
    for to in 0..board.squares() {
        let Some(letters) = length(alloc, board, region, from, to as Sq)? else {
            continue;
        };
        for &dir in &[Dir::Left, Dir::Up, Dir::Right, Dir::Down] {
            if let Some(beside) = board.neighbour(to as Sq, dir) {
                let further = length(alloc, board, region, from, beside)?;
                if further.unwrap_or(0) > letters.saturating_add(1) {
                    return Ok(false);
                }
            }
        }
    }
    Ok(length(alloc, board, region, from, from)? == Some(0))
}

/// Asserts this for each square of a region.
fn assert_all_shortest(rt: &impl Abort, alloc: Global, text: &str, player: Sq) -> Result<(), Fail> {
    let board = board(alloc, text)?;
    let region = region(rt, alloc, &board, player)?;
    for from in 0..1024 {
        if region.has(from) {
            assert!(rt; are_shortest(alloc, &board, &region, from)?, "from {from}");
        }
    }
    Ok(())
}

#[test]
fn walks_are_shortest(rt: HostRuntime) -> Result<(), Fail> {
    for &(text, player) in &[
        (sketch::ROOM_OF_TWO_ROWS, 6),
        (sketch::PILLARS, 0),
        (sketch::THREE_BOXES_IN_THE_OPEN, 0),
    ] {
        assert_all_shortest(&rt, rt.alloc(), text, player)?;
    }
    Ok(())
}
