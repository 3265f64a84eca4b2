//! What stands on the squares of a level.

ghost use Rattle.std.specs.Prelude.{◌≡◌, Bool, false};
ghost use Rattle.sok_rules.specs.Squares.{holds};
ghost use Rattle.sok_rules.specs.declared.cell.Cell.{Cell};
ghost use Rattle.sok_rules.specs.declared.cell.Cell.TheVariants.{Wall};

use sok_rules::cell::{Cell, Spot};
use sok_rules::level::Level;

/// Returns what stands on a square. It is a wall if no row has the square.
pub(crate) fn cell_or_wall(level: &Level, spot: Spot) -> Cell
    ensures { (test : Cell → Bool) → test Wall ≡ false → test result ≡ holds test level.now spot }
{
    match level.cell(spot) {
        Some(cell) => cell,
        None => Cell::Wall,
    }
}
