//! The squares of a level's text in reading order, and the one on which the player starts.

ghost use Rattle.std.specs.Prelude.{◌≡◌, ◌≤◌, ◌++◌, IfOk, length, find};
ghost use Rattle.sok_rules.specs.Squares.{places, places_in_row, holds, is_man};
ghost use Rattle.sok_rules.specs.Levels.{IsProper, cells_of};
ghost use Rattle.sok_rules.specs.Limits.{size_limit};
ghost use Rattle.sok_rules.specs.Play.{start};

use crate::cells::cell_or_wall;
use sok_rules::cell::{Cell, Spot};
use sok_rules::fault::Memory;
use sok_rules::level::Level;
use std::alloc::Global;

/// Returns the squares at which rows have cells, row by row and from left to right.
pub(crate) fn places(alloc: Global, rows: &[Vec<Cell>]) -> Result<Vec<Spot>, Memory>
    requires { IsProper (cells_of rows.now) }
    ensures { IfOk result (λ spots. spots.items ≡ places (cells_of rows.now)) }
{
    let mut spots = Vec::new(alloc);
    for (row, cells) in rows.iter().enumerate() {
        spots = with_row(spots, row as u32, cells)?;
    }
    Ok(spots)
}

/// Appends the squares of one more row.
fn with_row(mut spots: Vec<Spot>, row: u32, cells: &[Cell]) -> Result<Vec<Spot>, Memory>
    requires { length cells.now ≤ size_limit }
    ensures { IfOk result (λ after. after.items ≡ spots.items ++ places_in_row row 0 cells.now) }
{
    for col in 0..cells.len() {
        spots.push(Spot {
            row,
            col: col as u32,
        })?;
    }
    Ok(spots)
}

/// Returns the square on which the player starts.
pub(crate) fn man(level: &Level, spots: &[Spot]) -> Spot
    requires proper { IsProper level.now }
    requires places { spots.now ≡ places level.now }
    ensures { result ≡ (start level.now).man }
{
    first_man(level, spots).unwrap()
}

fn first_man(level: &Level, spots: &[Spot]) -> Option<Spot>
    ensures { result ≡ find (holds is_man level.now) spots.now }
{
    spots
        .iter()
        .copied()
        .find(|spot| cell_or_wall(level, *spot).is_man())
}
