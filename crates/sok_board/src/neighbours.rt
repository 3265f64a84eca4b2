//! The numbers of the squares next to each square of an area.

ghost use Rattle.std.specs.Prelude.{◌≡◌, IfOk, All, map};
ghost use Rattle.sok_board.specs.Neighbours.{number_towards, number_beside, neighbours_of};
ghost use Rattle.sok_board.specs.Tables.{HasPlace};

use crate::area::Sq;
use crate::table;
use sok_rules::cell::{Dir, Spot};
use sok_rules::fault::Memory;
use std::alloc::Global;

/// The numbers of the four squares next to one. `None` if a square has no number.
#[derive(Clone, Copy)]
pub(crate) struct Neighbours {
    pub(crate) left: Option<Sq>,
    pub(crate) up: Option<Sq>,
    pub(crate) right: Option<Sq>,
    pub(crate) down: Option<Sq>,
}

impl Neighbours {
    pub(crate) fn towards(self, dir: Dir) -> Option<Sq>
        ensures { result ≡ number_towards self dir }
    {
        match dir {
            Dir::Left => self.left,
            Dir::Up => self.up,
            Dir::Right => self.right,
            Dir::Down => self.down,
        }
    }
}

/// Returns the neighbours of each of these squares, from a table of numbers.
pub(crate) fn list_neighbours(
    alloc: Global,
    squares: &[Spot],
    numbers: &[Option<Sq>],
) -> Result<Vec<Neighbours>, Memory>
    requires { All HasPlace squares.now }
    ensures { IfOk result (λ list. list.items ≡ map (neighbours_of numbers.now) squares.now) }
{
    let mut list = Vec::with_capacity(alloc, squares.len())?;
    for spot in squares {
        list.push(look_around(numbers, *spot))?;
    }
    Ok(list)
}

/// Returns the neighbours of a square.
fn look_around(numbers: &[Option<Sq>], spot: Spot) -> Neighbours
    requires { HasPlace spot }
    ensures { result ≡ neighbours_of numbers.now spot }
{
    Neighbours {
        left: look_beside(numbers, spot, Dir::Left),
        up: look_beside(numbers, spot, Dir::Up),
        right: look_beside(numbers, spot, Dir::Right),
        down: look_beside(numbers, spot, Dir::Down),
    }
}

/// Returns the number of the next square in a direction.
fn look_beside(numbers: &[Option<Sq>], spot: Spot, dir: Dir) -> Option<Sq>
    requires { HasPlace spot }
    ensures { result ≡ number_beside numbers.now spot dir }
{
    match spot.next(dir) {
        Some(beside) => table::entry(numbers, beside, None),
        None => None,
    }
}
