//! The player's region: the squares that he reaches without a push.

ghost use Rattle.std.specs.Prelude.{ℕ, ◌≡◌, ◌≤◌, ◌↔◌, IfOk, IfSome, IsOk, IsSome, IsTrue, List};
ghost use Rattle.std.specs.Prelude.{Contains, length};
ghost use Rattle.sok_board.specs.Area.{IsAccepted};
ghost use Rattle.sok_region.specs.Regions.{IsLeastWalk, IsPlaced, IsRegion, IsRegionOf, IsWalkBetween};
ghost use Rattle.sok_region.specs.Regions.{squares_of};

use crate::path::Paths;
use sok_board::area::Sq;
use sok_board::board::Board;
use sok_board::box_set::BoxSet;
use sok_board::search::letters_to;
use sok_field::drawing;
use sok_field::field::Field;
use sok_field::numbers::{self, WORDS};
use sok_rules::cell::Dir;
use sok_rules::fault::Memory;
use std::alloc::Global;
use std::marker::Model;

/// The squares that the player reaches without a push, a bit for each. The contracts see a region
/// as the list of its squares, in ascending order. It allocates nothing.
#[derive(Drop)]
pub struct Region {
    words: [u64; WORDS],
}

impl Model for Region {
    ghost use Rattle.std.specs.Prelude.{ℕ, List};
    ghost use Rattle.sok_region.specs.Regions.{HasSquare, squares_of};

    ghost Value = { List ℕ };

    ghost view = { λ region. squares_of region.words };

    ghost invariant = { λ region. HasSquare region.words };
}

impl Region {
    /// Returns the region of the player among boxes. It allocates nothing, and never fails.
    pub fn of(_alloc: Global, board: &Board, boxes: &BoxSet, player: Sq) -> Result<Region, Memory>
        requires { IsPlaced board.now boxes.now player }
        ensures region { IfOk result (λ region. IsRegion board.now boxes.now player region) }
        ensures answers { IsOk result }
        ensures accepted { IsAccepted board.now }
    {
        let mut words = [0; WORDS];
        write(&mut words, board, boxes, player);
        Ok(Region { words })
    }

    /// Makes this the region of the player among boxes, in place. It allocates nothing.
    pub fn again(&mut self, board: &Board, boxes: &BoxSet, player: Sq)
        requires { IsPlaced board.now boxes.now player }
        ensures region { IsRegion board.now boxes.now player self.new }
        ensures accepted { IsAccepted board.now }
    {
        write(&mut self.words, board, boxes, player);
    }

    /// Returns whether the player reaches a square.
    pub fn has(&self, square: Sq) -> bool
        ensures { IsTrue result ↔ Contains self.now square }
    {
        numbers::has(&self.words, square)
    }

    /// Returns the square with the least number.
    pub fn least(&self) -> Sq
        ensures among { Contains self.now result }
        ensures least { (s : ℕ) → Contains self.now s → result ≤ s }
    {
        match numbers::first(&self.words) {
            Some(square) => square,
            None => 0,
        }
    }

    /// Finds a shortest list of letters that leads the player from one square to another without a
    /// push, by breadth-first search. None if one of them is not in the region. The board is that
    /// of the region. Errors: `Memory`.
    pub fn walk(
        &self,
        alloc: Global,
        board: &Board,
        from: Sq,
        to: Sq,
    ) -> Result<Option<Vec<Dir>>, Memory>
        requires own { IsRegionOf board.now self.now }
        ensures exact { IfOk result
            (λ walk. IsSome walk ↔ (Contains self.now from × Contains self.now to)) }
        ensures legal { (boxes : List ℕ) (player : ℕ) → IsRegion board.now boxes player self.now
            → IfOk result
            (λ walk. IfSome walk (λ w. IsWalkBetween board.now boxes from to w.items)) }
        ensures shortest { (boxes : List ℕ) (player : ℕ)
            → IsRegion board.now boxes player self.now → IfOk result
            (λ walk. IfSome walk (λ w. IsLeastWalk board.now boxes from to w.items)) }
    {
        if to as usize >= board.squares() || !self.has(from) {
            return Ok(None);
        }
        let lets = &self.words;
        letters_to(alloc, &Paths { board, lets, from }, to)
    }
}

/// Overwrites `words` with the region of the player among boxes, a bit for each square, by a flood
/// over bit rows.
fn write(words: &mut [u64], board: &Board, boxes: &BoxSet, player: Sq)
    requires placed { IsPlaced board.now boxes.now player }
    requires room { length words.old ≡ WORDS }
    ensures region { IsRegion board.now boxes.now player (squares_of words.new) }
    ensures accepted { IsAccepted board.now }
{
    let free = drawing::free_squares(board, boxes.list());
    let mut seen = Field::new();
    drawing::flood_from(&mut seen, &free, board, player);
    numbers::write(words, &seen, board);
}
