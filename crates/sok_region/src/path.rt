//! The passable squares of a board, as a graph that is searched from one of them.

ghost use Rattle.std.specs.Prelude.{◌<◌, length};
ghost use Rattle.sok_field.specs.Numbers.{has_number};
ghost use Rattle.sok_region.specs.Paths.{paths};

use sok_board::area::Sq;
use sok_board::board::Board;
use sok_board::search::Ways;
use sok_field::numbers;
use sok_rules::cell::Dir;

/// The graph of the passable squares of a board. A letter leads to the square beside, if that is
/// passable; `lets` has a bit for each passable square, by its number.
#[derive(Drop)]
pub(crate) struct Paths<'a> {
    pub(crate) board: &'a Board,
    pub(crate) lets: &'a [u64],
    pub(crate) from: Sq,
    ghost exists: { from < length board.now.area },
}

impl Ways for Paths<'_> {
    ghost graph = { λ ways. paths ways.board.now (has_number ways.lets.now) ways.from };

    fn nodes(&self) -> usize {
        self.board.squares()
    }

    fn start(&self) -> u16 {
        self.from
    }

    fn next(&self, node: u16, dir: Dir) -> Option<u16> {
        let beside = self.board.neighbour(node, dir)?;
        if numbers::has(self.lets, beside) {
            Some(beside)
        } else {
            None
        }
    }
}
