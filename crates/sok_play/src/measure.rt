//! The size of a level, and how many boxes and goals it has.

ghost use Rattle.std.specs.Prelude.{◌≡◌, ◌<◌, ◌^◌, count_by, length, sum_by};
ghost use Rattle.sok_rules.specs.Levels.{count_in};
ghost use Rattle.sok_rules.specs.Squares.{is_box, is_goal};
ghost use Rattle.sok_play.specs.Listing.{width_of};

use sok_rules::cell::Cell;
use sok_rules::level::Level;

/// Returns how many rows there are.
pub(crate) fn height(level: &Level) -> usize
    ensures { result ≡ length level.now }
{
    level.rows().len()
}

/// Returns the length of the longest row.
pub(crate) fn width(level: &Level) -> usize
    ensures { result ≡ width_of level.now }
{
    let rows = level.rows();
    rows.iter().fold(0, |most: usize, row| most.max(row.len()))
}

/// Returns how many boxes there are, inside and outside the area.
pub(crate) fn boxes(level: &Level) -> usize
    ensures { result ≡ count_in is_box level.now }
{
    boxes_of(level.rows())
}

/// Returns how many goals there are, with a box or without.
pub(crate) fn goals(level: &Level) -> usize
    ensures { result ≡ count_in is_goal level.now }
{
    goals_of(level.rows())
}

fn boxes_of(rows: &[Vec<Cell>]) -> usize
    requires { sum_by (λ row. count_by is_box row.items) rows.now < 2 ^ 64 }
    ensures { result ≡ sum_by (λ row. count_by is_box row.items) rows.now }
{
    rows.iter().map(|row| boxes_in(row)).sum()
}

fn boxes_in(row: &[Cell]) -> usize
    ensures { result ≡ count_by is_box row.now }
{
    row.iter().filter(|cell| cell.is_box()).count()
}

fn goals_of(rows: &[Vec<Cell>]) -> usize
    requires { sum_by (λ row. count_by is_goal row.items) rows.now < 2 ^ 64 }
    ensures { result ≡ sum_by (λ row. count_by is_goal row.items) rows.now }
{
    rows.iter().map(|row| goals_in(row)).sum()
}

fn goals_in(row: &[Cell]) -> usize
    ensures { result ≡ count_by is_goal row.now }
{
    row.iter().filter(|cell| cell.is_goal()).count()
}
