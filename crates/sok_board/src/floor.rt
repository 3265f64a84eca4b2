//! The open squares of a level as the nodes of a search that starts at the player's square.

ghost use Rattle.std.specs.Prelude.{◌≡◌};
ghost use Rattle.sok_rules.specs.Levels.{IsProper};
ghost use Rattle.sok_rules.specs.Play.{start};
ghost use Rattle.sok_board.specs.Floors.{floor, square_at};

use crate::cells::cell_or_wall;
use crate::search::Ways;
use crate::table;
use sok_rules::cell::{Dir, Spot};
use sok_rules::level::Level;

/// The open squares of a level, on which no wall stands, numbered by their places in a table.
#[derive(Drop)]
pub(crate) struct Floor<'a> {
    pub(crate) level: &'a Level,
    pub(crate) man: Spot,
    ghost proper: { IsProper level.now },
    ghost starts: { man ≡ (start level.now).man },
}

impl Ways for Floor<'_> {
    ghost graph = { λ ways. floor ways.level.now };

    fn nodes(&self) -> usize {
        table::place_count(self.level)
    }

    fn start(&self) -> u16 {
        table::place(self.man) as u16
    }

    fn next(&self, node: u16, dir: Dir) -> Option<u16> {
        let beside = square_at(node).next(dir)?;
        if cell_or_wall(self.level, beside).is_wall() {
            return None;
        }
        Some(table::place(beside) as u16)
    }
}

/// Returns the square of a place in a table.
fn square_at(place: u16) -> Spot
    ensures { result ≡ square_at place }
{
    let place = place as u32;
    let side = table::SIDE as u32;
    Spot {
        row: place / side,
        col: place % side,
    }
}
