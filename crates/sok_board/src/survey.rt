//! The tests that a level must pass to be accepted, in order, and the numbering of an accepted
//! level.

ghost use Rattle.std.specs.Prelude.{◌≡◌, IfOk, IfErr, map};
ghost use Rattle.sok_rules.specs.Squares.{places};
ghost use Rattle.sok_rules.specs.Levels.{IsProper, trimmed};
ghost use Rattle.sok_board.specs.Area.{IsArea};
ghost use Rattle.sok_board.specs.Boards.{IsNumbering};
ghost use Rattle.sok_board.specs.Refusals.{IsRefused};

use crate::area::{BOX_LIMIT, SQUARE_LIMIT, Sq, numbers, numbers_where};
use crate::fault::BoardFault;
use crate::neighbours::{Neighbours, list_neighbours};
use crate::places::man;
use crate::refusal::{first_leak, first_stray};
use crate::spans::{Span, list_spans};
use crate::table;
use sok_rules::cell::{Cell, Spot};
use sok_rules::level::Level;
use std::alloc::Global;

/// The numbering of an area: a table of the squares' numbers, the neighbours of each square, the
/// spans, and the numbers of the goals, the player and the boxes. Goals and boxes are in ascending
/// order.
#[derive(Drop)]
pub(crate) struct Numbering {
    pub(crate) numbers: Vec<Option<Sq>>,
    pub(crate) neighbours: Vec<Neighbours>,
    pub(crate) spans: Vec<Span>,
    pub(crate) goals: Vec<Sq>,
    pub(crate) player: Sq,
    pub(crate) boxes: Vec<Sq>,
}

/// Returns the numbering of a level with these squares if the level is accepted, otherwise the
/// first fault.
pub(crate) fn number(
    alloc: Global,
    level: &Level,
    spots: &[Spot],
    squares: &[Spot],
) -> Result<Numbering, BoardFault>
    requires proper { IsProper level.now }
    requires trimmed { map trimmed level.now ≡ level.now }
    requires places { spots.now ≡ places level.now }
    requires area { IsArea level.now squares.now }
    ensures accepted { IfOk result (IsNumbering (record { rows = level.now; area = squares.now })) }
    ensures refused { IfErr result (IsRefused level.now) }
{
    if let Some(spot) = first_leak(level, squares) {
        return Err(BoardFault::NotEnclosed(spot));
    }
    if squares.len() > SQUARE_LIMIT {
        return Err(BoardFault::TooLarge);
    }
    let numbers = numbers(alloc, level, squares)?;
    if let Some(spot) = first_stray(level, spots, &numbers) {
        return Err(BoardFault::BoxOutside(spot));
    }
    let boxes = numbers_where(alloc, level, squares, Cell::is_box)?;
    if boxes.len() > BOX_LIMIT {
        return Err(BoardFault::TooManyBoxes);
    }
    let goals = numbers_where(alloc, level, squares, Cell::is_goal)?;
    if goals.len() < boxes.len() {
        return Err(BoardFault::TooFewGoals);
    }
    let neighbours = list_neighbours(alloc, squares, &numbers)?;
    let spans = list_spans(alloc, squares)?;
    let player = table::entry(&numbers, man(level, spots), None).unwrap();
    Ok(Numbering {
        numbers,
        neighbours,
        spans,
        goals,
        player,
        boxes,
    })
}
