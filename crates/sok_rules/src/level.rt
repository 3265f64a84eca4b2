//! Levels, which are rows of cells.

ghost use Rattle.std.specs.Prelude.{◌≡◌, ◌↔◌, IsOk, IfOk, map, take, count_by, ◌<◌, ◌^◌, nat_lt};
ghost use Rattle.std.specs.Prelude.{length, position, not, sum_by};
ghost use Rattle.std.specs.List.{list_any};
ghost use Rattle.sok_rules.specs.Limits.{size_limit};
ghost use Rattle.sok_rules.specs.Squares.{cell_at, is_wall, is_astray, is_box, is_man};
ghost use Rattle.sok_rules.specs.Levels.{cells_of, fault_of, level_of, trimmed, IsProper};

use crate::cell::{Cell, Spot};
use crate::fault::{LevelFault, Memory};
use std::alloc::Global;
use std::marker::Model;

/// The maximum number of rows of a level, and of cells in a row.
pub const LIMIT: usize = 128;

/// A level: at most 128 rows of at most 128 cells. Each row has a wall and does not end with floor.
/// There is one player and at least one box. Contracts see a level as its rows.
#[derive(Drop)]
pub struct Level {
    rows: Vec<Vec<Cell>>,
}

impl Model for Level {
    ghost use Rattle.sok_rules.specs.Squares.{Rows};
    ghost use Rattle.sok_rules.specs.Levels.{cells_of, IsLevel};

    ghost Value = { Rows };

    ghost view = { λ level. cells_of level.rows.items };

    ghost invariant = { λ level. IsLevel (cells_of level.rows.items) };
}

impl Level {
    /// Makes a level of `rows`, after it has removed the floor at the end of each row. Takes no
    /// memory. On an error, the rows are dropped.
    ///
    /// Errors, in this order: `TooTall` if there are more than 128 rows; `TooWide` if a row has
    /// more than 128 cells; `NoWall` with the first row without a wall; `NoPlayer`; `ManyPlayers`;
    /// `NoBox`.
    pub fn new(rows: Vec<Vec<Cell>>) -> Result<Level, LevelFault>
        ensures made { result ≡ level_of (cells_of rows.items) }
        ensures proper { IsOk result ↔ IsProper (map trimmed (cells_of rows.items)) }
    {
        let rows = trim_all(rows);
        match fault_in(&rows) {
            Some(fault) => Err(fault),
            None => Ok(Level { rows }),
        }
    }

    /// Returns a level with the same rows.
    pub fn copy(&self, alloc: Global) -> Result<Level, Memory>
        ensures same { IfOk result (λ level. level ≡ self.now) }
        ensures proper { IsProper self.now }
    {
        let rows = copy_rows(alloc, &self.rows)?;
        Ok(Level { rows })
    }

    /// Returns the rows, from the top.
    pub fn rows(&self) -> &[Vec<Cell>]
        ensures cells { cells_of result.now ≡ self.now }
        ensures proper { IsProper self.now }
        ensures trimmed { map trimmed self.now ≡ self.now }
    {
        &self.rows
    }

    /// Returns what stands on a square at the start. `None` if no row has the square.
    pub fn cell(&self, spot: Spot) -> Option<Cell>
        ensures { result ≡ cell_at self.now spot }
    {
        cell_in(&self.rows, spot)
    }
}

/// Removes the floor at the ends of rows.
fn trim_all(mut rows: Vec<Vec<Cell>>) -> Vec<Vec<Cell>>
    ensures { cells_of result.items ≡ map trimmed (cells_of rows.items) }
{
    for row in rows.iter_mut() {
        trim(row);
    }
    rows
}

/// Removes the floor at the end of a row.
fn trim(row: &mut Vec<Cell>)
    ensures { row.new.items ≡ trimmed row.old.items }
{
    let kept = length_without_floor(row);
    row.truncate(kept);
}

/// Returns the length of a row without the floor at its end.
fn length_without_floor(row: &[Cell]) -> usize
    ensures { take result row.now ≡ trimmed row.now }
{
    let mut kept = row.len();
    while kept > 0 && matches!(row[kept - 1], Cell::Floor) {
        kept -= 1;
    }
    kept
}

/// Returns the first fault of rows. `None` if they are a level.
fn fault_in(rows: &[Vec<Cell>]) -> Option<LevelFault>
    ensures { result ≡ fault_of (cells_of rows.now) }
{
    if rows.len() > LIMIT {
        return Some(LevelFault::TooTall);
    }
    if has_long_row(rows) {
        return Some(LevelFault::TooWide);
    }
    if let Some(row) = row_without_wall(rows) {
        return Some(LevelFault::NoWall(row as u32));
    }
    let men = census_of(rows).men;
    if men == 0 {
        Some(LevelFault::NoPlayer)
    } else if men > 1 {
        Some(LevelFault::ManyPlayers)
    } else if has_box(rows) {
        None
    } else {
        Some(LevelFault::NoBox)
    }
}

fn has_long_row(rows: &[Vec<Cell>]) -> bool
    ensures { result ≡ list_any (λ row. nat_lt size_limit (length row.items)) rows.now }
{
    rows.iter().any(|row| is_long(row))
}

fn is_long(row: &[Cell]) -> bool
    ensures { result ≡ nat_lt size_limit (length row.now) }
{
    row.len() > LIMIT
}

/// Returns the first row without a wall.
fn row_without_wall(rows: &[Vec<Cell>]) -> Option<usize>
    ensures { result ≡ position (λ row. not (list_any is_wall row.items)) rows.now }
{
    rows.iter().position(|row| !has_wall(row))
}

fn has_wall(row: &[Cell]) -> bool
    ensures { result ≡ list_any is_wall row.now }
{
    row.iter().any(|cell| cell.is_wall())
}

fn has_box(rows: &[Vec<Cell>]) -> bool
    ensures { result ≡ list_any (λ row. list_any is_box row.items) rows.now }
{
    rows.iter().any(|row| has_box_in(row))
}

fn has_box_in(row: &[Cell]) -> bool
    ensures { result ≡ list_any is_box row.now }
{
    row.iter().any(|cell| cell.is_box())
}

/// The number of players and of boxes off goals in rows.
#[derive(Clone, Copy)]
pub(crate) struct Census {
    /// The players.
    pub(crate) men: usize,
    /// The boxes that stand off goals.
    pub(crate) astray: usize,
}

pub(crate) fn census_of(rows: &[Vec<Cell>]) -> Census
    requires few_men { sum_by (λ row. count_by is_man row.items) rows.now < 2 ^ 64 }
    requires few_astray { sum_by (λ row. count_by is_astray row.items) rows.now < 2 ^ 64 }
    ensures men { result.men ≡ sum_by (λ row. count_by is_man row.items) rows.now }
    ensures astray { result.astray ≡ sum_by (λ row. count_by is_astray row.items) rows.now }
{
    let mut men = 0;
    let mut astray = 0;
    for row in rows {
        men += men_in(row);
        astray += astray_in(row);
    }
    Census { men, astray }
}

fn men_in(row: &[Cell]) -> usize
    ensures { result ≡ count_by is_man row.now }
{
    row.iter().filter(|cell| cell.is_man()).count()
}

fn astray_in(row: &[Cell]) -> usize
    ensures { result ≡ count_by is_astray row.now }
{
    row.iter().filter(|cell| cell.is_astray()).count()
}

/// Returns what stands on a square. `None` if no row has the square.
pub(crate) fn cell_in(rows: &[Vec<Cell>], spot: Spot) -> Option<Cell>
    ensures { result ≡ cell_at (cells_of rows.now) spot }
{
    rows.get(spot.row as usize)?.get(spot.col as usize).copied()
}

pub(crate) fn copy_rows(alloc: Global, rows: &[Vec<Cell>]) -> Result<Vec<Vec<Cell>>, Memory>
    ensures { IfOk result (λ copy. cells_of copy.items ≡ cells_of rows.now) }
{
    let mut copy = Vec::with_capacity(alloc, rows.len())?;
    for row in rows {
        copy.push(Vec::from_slice(alloc, row)?)?;
    }
    Ok(copy)
}
