//! Tables with an entry for each square of a level's rows, with 128 columns in each row.

ghost use Rattle.std.specs.Prelude.{◌≡◌, length};
ghost use Rattle.sok_board.specs.Tables.{place_of, entry, table_places};

use sok_rules::cell::Spot;
use sok_rules::level::Level;

/// The number of columns of a table.
pub(crate) const SIDE: usize = 128;

/// Returns the number of places of a table for a level.
pub(crate) fn place_count(level: &Level) -> usize
    ensures { result ≡ table_places (length level.now) }
{
    level.rows().len() * SIDE
}

/// Returns the place of a square's entry.
pub(crate) fn place(spot: Spot) -> usize
    ensures { result ≡ place_of spot }
{
    spot.row as usize * SIDE + spot.col as usize
}

/// Returns the entry of a square, or `other` if the table has no place for the square.
pub(crate) fn entry<T: Copy>(table: &[T], spot: Spot, other: T) -> T
    ensures { result ≡ entry other table.now spot }
{
    if spot.col as usize >= SIDE {
        return other;
    }
    match table.get(place(spot)) {
        Some(value) => *value,
        None => other,
    }
}
