//! The squares of a level's area, their numbers, and which of them have goals and boxes.

ghost use Rattle.std.specs.Prelude.{◌≡◌, ◌<◌, ◌≤◌, ◌↔◌, IfOk, IsTrue, All, AllPairs, Bool};
ghost use Rattle.std.specs.Prelude.{None, false, length, filter, position, is_some};
ghost use Rattle.sok_rules.specs.Squares.{places, same_spot};
ghost use Rattle.sok_rules.specs.Levels.{IsProper};
ghost use Rattle.sok_rules.specs.declared.cell.Cell.{Cell};
ghost use Rattle.sok_rules.specs.declared.cell.Cell.TheVariants.{Wall};
ghost use Rattle.sok_rules.specs.declared.cell.Spot.{Spot};
ghost use Rattle.sok_board.specs.Area.{IsArea, Before, AreGoals, numbers_where};
ghost use Rattle.sok_board.specs.Limits.{square_limit};
ghost use Rattle.sok_board.specs.Tables.{HasPlaceIn, entry};

use crate::cells::cell_or_wall;
use crate::floor::Floor;
use crate::places::man;
use crate::search::{Flood, depths_from};
use crate::table;
use sok_rules::cell::{Cell, Spot};
use sok_rules::fault::Memory;
use sok_rules::level::Level;
use std::alloc::Global;

/// The number of a square of the area, counted from 0, row by row and from left to right.
pub type Sq = u16;

/// The maximum number of squares in an area.
pub const SQUARE_LIMIT: usize = 4096;

/// The maximum number of boxes in an area.
pub const BOX_LIMIT: usize = 128;

/// Finds the squares of a level's area, row by row and from left to right: those that a
/// breadth-first search from the player's square reaches.
pub(crate) fn squares(alloc: Global, level: &Level, spots: &[Spot]) -> Result<Vec<Spot>, Memory>
    requires proper { IsProper level.now }
    requires places { spots.now ≡ places level.now }
    ensures { IfOk result (λ squares. IsArea level.now squares.items) }
{
    let man = man(level, spots);
    let found = depths_from(&Floor { level, man }, Flood::new(alloc))?;
    keep_found(alloc, spots, &found.depths)
}

/// Returns those of the squares that have a depth in a table.
fn keep_found(alloc: Global, spots: &[Spot], depths: &[Option<u16>]) -> Result<Vec<Spot>, Memory>
    ensures { IfOk result
        (λ kept. kept.items ≡ filter (λ s. is_some (entry None depths.now s)) spots.now) }
{
    let kept = spots
        .iter()
        .copied()
        .filter(|spot| table::entry(depths, *spot, None).is_some())
        .collect(alloc)?;
    Ok(kept)
}

/// Makes a table of the numbers of `squares`, which lie in the rows of the level.
pub(crate) fn numbers(
    alloc: Global,
    level: &Level,
    squares: &[Spot],
) -> Result<Vec<Option<Sq>>, Memory>
    requires few { length squares.now ≤ square_limit }
    requires within { All (HasPlaceIn (length level.now)) squares.now }
    requires in_order { AllPairs Before squares.now }
    ensures { IfOk result
        (λ numbers. (s : Spot) → entry None numbers.items s ≡ position (same_spot s) squares.now) }
{
    let mut numbers = vec![in alloc; None; table::place_count(level)]?;
    for (number, spot) in squares.iter().enumerate() {
        numbers[table::place(*spot)] = Some(number as Sq);
    }
    Ok(numbers)
}

/// Returns the numbers of the squares whose cell passes a test, in ascending order. A wall must
/// fail the test.
pub(crate) fn numbers_where<F: Fn(Cell) -> bool>(
    alloc: Global,
    level: &Level,
    squares: &[Spot],
    passes: F,
) -> Result<Vec<Sq>, Memory>
    requires few { length squares.now ≤ square_limit }
    requires callable { F.IsAlwaysCallable passes }
    ensures { (test : Cell → Bool) → test Wall ≡ false
        → ((cell : Cell) (answer : Bool) → F.post passes cell answer → answer ≡ test cell)
        → IfOk result (λ list. list.items
        ≡ numbers_where test (record { rows = level.now; area = squares.now })) }
{
    let mut numbers = Vec::new(alloc);
    for (number, spot) in squares.iter().enumerate() {
        if passes(cell_or_wall(level, *spot)) {
            numbers.push(number as Sq)?;
        }
    }
    Ok(numbers)
}

/// Returns whether all of these squares of the area are goals.
pub(crate) fn all_goals(level: &Level, area: &[Spot], squares: &[Sq]) -> bool
    requires { All (λ square. square < length area.now) squares.now }
    ensures { IsTrue result
        ↔ AreGoals (record { rows = level.now; area = area.now }) squares.now }
{
    for square in squares {
        if !cell_or_wall(level, area[*square as usize]).is_goal() {
            return false;
        }
    }
    true
}
