//! Pushes in reverse as the graph of a search from a goal.

ghost use Rattle.std.specs.Prelude.{◌≡◌, ◌<◌, IfSome, length};
ghost use Rattle.sok_distance.specs.Pulls.{pulls};
ghost use Rattle.sok_distance.specs.Pushing.{pull};

use sok_board::area::Sq;
use sok_board::board::Board;
use sok_board::search::Ways;
use sok_rules::cell::Dir;

/// The squares of a board as nodes. A letter leads from a square to the one from which a push in
/// the letter's direction brings a box there.
#[derive(Drop)]
pub(crate) struct Pulls<'a> {
    pub(crate) board: &'a Board,
    pub(crate) goal: Sq,
    ghost exists: { goal < length board.now.area },
}

impl Ways for Pulls<'_> {
    ghost graph = { λ ways. pulls ways.board.now ways.goal };

    fn nodes(&self) -> usize {
        self.board.squares()
    }

    fn start(&self) -> u16 {
        self.goal
    }

    fn next(&self, node: u16, dir: Dir) -> Option<u16> {
        pushed_from(self.board, node, dir)
    }
}

/// Returns the square from which a push in a direction brings a box, without others, to `square`.
/// `None` if there is no such square, or none behind it for the player.
fn pushed_from(board: &Board, square: Sq, dir: Dir) -> Option<Sq>
    requires { square < length board.now.area }
    ensures pull { result ≡ pull board.now dir square }
    ensures exists { IfSome result (λ from. from < length board.now.area) }
{
    let back = dir.opposite();
    match board.neighbour(square, back) {
        Some(from) => match board.neighbour(from, back) {
            Some(_) => Some(from),
            None => None,
        },
        None => None,
    }
}
