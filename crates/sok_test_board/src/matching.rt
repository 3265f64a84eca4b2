//! A matching that is kept from one set of boxes to the next.

ghost use Rattle.std.specs.Prelude.{OnOk};
ghost use Rattle.sok_price.specs.Matched.{Serves};

use crate::positions::boxes_on;
use crate::setting::{board, distances, setting};
use sok_board::area::Sq;
use sok_board::board::Board;
use sok_price::matching::Matching;
use sok_sketch::sketch;
use std::alloc::Global;
use std::process::Abort;
use std::test::Fail;

/// Squares of boxes, and the cost of a minimum assignment of these boxes to goals.
type Set<'a> = (&'a [Sq], Option<u32>);

const SETS: [Set<'_>; 10] = [
    (&[8, 10], Some(2)),
    (&[9, 10], Some(1)),
    (&[7, 10], Some(2)),
    (&[6, 9, 11], Some(0)),
    (&[7, 8, 10], Some(3)),
    // a box in the corner, which reaches no goal
    (&[0, 8], None),
    (&[8], Some(1)),
    // more boxes than goals
    (&[7, 8, 9, 10], None),
    (&[], Some(0)),
    (&[8, 10], Some(2)),
];

/// Asserts the cost of a matching that is set to boxes on some squares.
fn assert_set(
    rt: &impl Abort,
    alloc: Global,
    board: &Board,
    matching: &mut Matching,
    squares: &[Sq],
    total: Option<u32>,
) -> Result<(), Fail>
    requires { Serves board.now matching.old }
    ensures { OnOk result (Serves board.now matching.new) }
{
    let boxes = boxes_on(rt, alloc, board, squares)?;
    assert_eq!(rt; matching.set(&boxes), total, "{squares:?}");
    Ok(())
}

/// Sets a matching to one list of boxes after another.
fn set_in_turn(
    rt: &impl Abort,
    alloc: Global,
    board: &Board,
    matching: &mut Matching,
) -> Result<(), Fail>
    requires { Serves board.now matching.old }
{
    for &(squares, total) in &SETS {
        assert_set(rt, alloc, board, matching, squares, total)?;
    }
    Ok(())
}

/// Boxes that stay, move, come and go; boxes on goals, a crowd, and more boxes than goals.
#[test]
fn totals_of_one_set_after_another(rt: HostRuntime) -> Result<(), Fail> {
    let text = sketch::TWO_BOXES_AND_THREE_GOALS;
    let board = board(rt.alloc(), text)?;
    let distances = distances(rt.alloc(), &board)?;
    let setting = setting(&board, &distances);
    let mut matching = Matching::new(rt.alloc(), &setting)?;
    set_in_turn(&rt, rt.alloc(), setting.board, &mut matching)
}
