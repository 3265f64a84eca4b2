//! An accepted level with its squares.

ghost use Rattle.std.specs.Prelude.{◌≡◌, ◌<◌, ◌≤◌, ◌↔◌, IfOk, IfErr, IfSome};
ghost use Rattle.std.specs.Prelude.{IsNone, IsTrue, Some, All, false, length, map};
ghost use Rattle.std.specs.List.Sorted.{IsStrictlyIncreasing};
ghost use Rattle.std.specs.Option.{option_map_or};
ghost use Rattle.sok_rules.specs.Levels.{trimmed};
ghost use Rattle.sok_rules.specs.Play.{start};
ghost use Rattle.sok_rules.specs.Squares.{holds, is_goal, is_wall, next};
ghost use Rattle.sok_board.specs.Area.{IsAccepted, number_of, spot_of, beside};
ghost use Rattle.sok_board.specs.Area.{goals_of, boxes_of, position_of, AreGoals};
ghost use Rattle.sok_board.specs.Limits.{box_limit};
ghost use Rattle.sok_board.specs.Refusals.{IsRefused};
ghost use Rattle.sok_board.specs.Spans.{Covers};

use crate::area::{self, Sq};
use crate::cells::cell_or_wall;
use crate::fault::BoardFault;
use crate::places::places;
use crate::spans::Span;
use crate::survey::{self, Numbering};
use crate::table;
use sok_rules::cell::{Dir, Spot};
use sok_rules::level::Level;
use std::alloc::Global;
use std::marker::Model;

/// A level with its area: the squares, apart from walls, to which the player could walk if there
/// were no boxes. They are numbered from 0, row by row and from left to right. Contracts see a
/// board as the rows of its level and the squares of the area in order.
#[derive(Drop)]
pub struct Board {
    level: Level,
    squares: Vec<Spot>,
    numbering: Numbering,
}

impl Model for Board {
    ghost use Rattle.sok_board.specs.Area.{BoardView};
    ghost use Rattle.sok_board.specs.Boards.{IsNumbering};

    ghost Value = { BoardView };

    ghost view = { λ board. record { rows = board.level; area = board.squares.items } };

    ghost invariant = { λ board.
        IsNumbering (record { rows = board.level; area = board.squares.items }) board.numbering };
}

impl Board {
    /// Makes a board of a level, of which it keeps a copy.
    ///
    /// Errors, in this order: `NotEnclosed` with the first square of the area, row by row, that has
    /// a neighbour in no row; `TooLarge` if the area has more than 4,096 squares; `BoxOutside` with
    /// the first box that stands outside the area and off a goal; `TooManyBoxes` if the area has
    /// more than 128 boxes; `TooFewGoals` if it has fewer goals than boxes. `Memory` at any time.
    pub fn new(alloc: Global, level: &Level) -> Result<Board, BoardFault>
        ensures rows { IfOk result (λ board. board.rows ≡ level.now) }
        ensures accepted { IfOk result IsAccepted }
        ensures refused { IfErr result (IsRefused level.now) }
    {
        board_of(alloc, level)
    }

    /// Returns the level of which the board was made.
    pub fn level(&self) -> &Level
        ensures level { result.now ≡ self.now.rows }
        ensures trimmed { map trimmed self.now.rows ≡ self.now.rows }
        ensures accepted { IsAccepted self.now }
    {
        &self.level
    }

    /// Returns the number of squares of the area.
    pub fn squares(&self) -> usize
        ensures count { result ≡ length self.now.area }
        ensures accepted { IsAccepted self.now }
    {
        self.squares.len()
    }

    /// Returns the squares of the area, row by row, as spans of squares that lie side by side.
    pub fn spans(&self) -> &[Span]
        ensures spans { Covers self.now 0 result.now (length self.now.area) }
        ensures accepted { IsAccepted self.now }
    {
        &self.numbering.spans
    }

    /// Returns the squares of the area that are goals, in ascending order.
    pub fn goals(&self) -> &[Sq]
        ensures goals { result.now ≡ goals_of self.now }
        ensures rising { IsStrictlyIncreasing result.now }
        ensures exist { All (λ goal. goal < length self.now.area) result.now }
        ensures accepted { IsAccepted self.now }
    {
        &self.numbering.goals
    }

    /// Returns the square on which the player starts, and those on which the boxes of the area
    /// start, in ascending order.
    pub fn start(&self) -> (Sq, &[Sq])
        ensures player { Some result.0 ≡ number_of self.now (start self.now.rows).man }
        ensures boxes { result.1.now ≡ boxes_of self.now }
        ensures rising { IsStrictlyIncreasing result.1.now }
        ensures position { position_of self.now result.0 result.1.now ≡ start self.now.rows }
        ensures player_exists { result.0 < length self.now.area }
        ensures boxes_exist { All (λ square. square < length self.now.area) result.1.now }
        ensures few { length result.1.now ≤ box_limit }
        ensures accepted { IsAccepted self.now }
    {
        (self.numbering.player, &self.numbering.boxes)
    }

    /// Returns the number of a square. `None` outside the area.
    pub fn square(&self, spot: Spot) -> Option<Sq>
        ensures number { result ≡ number_of self.now spot }
        ensures inverse { IfSome result
            (λ square. (square < length self.now.area) × (spot_of self.now square ≡ spot)) }
    {
        table::entry(&self.numbering.numbers, spot, None)
    }

    /// Returns the next square of the area in a direction. `None` at a wall.
    pub fn neighbour(&self, square: Sq, dir: Dir) -> Option<Sq>
        requires { square < length self.now.area }
        ensures beside { result ≡ beside self.now square dir }
        ensures wall { IsNone result
            ↔ IsTrue (option_map_or (holds is_wall self.now.rows)
            (next dir (spot_of self.now square)) false) }
        ensures exists { IfSome result (λ neighbour. neighbour < length self.now.area) }
        ensures accepted { IsAccepted self.now }
    {
        self.numbering.neighbours[square as usize].towards(dir)
    }

    /// Returns whether a square of the area is a goal.
    pub fn is_goal(&self, square: Sq) -> bool
        requires { square < length self.now.area }
        ensures goal { result ≡ holds is_goal self.now.rows (spot_of self.now square) }
        ensures accepted { IsAccepted self.now }
    {
        cell_or_wall(&self.level, self.spot(square)).is_goal()
    }

    /// Returns whether all of these squares of the area are goals.
    pub fn are_goals(&self, squares: &[Sq]) -> bool
        requires { All (λ square. square < length self.now.area) squares.now }
        ensures goals { IsTrue result ↔ AreGoals self.now squares.now }
        ensures accepted { IsAccepted self.now }
    {
        area::all_goals(&self.level, &self.squares, squares)
    }

    /// Returns where a square of the area lies.
    pub fn spot(&self, square: Sq) -> Spot
        requires { square < length self.now.area }
        ensures spot { result ≡ spot_of self.now square }
        ensures inverse { number_of self.now result ≡ Some square }
        ensures accepted { IsAccepted self.now }
    {
        self.squares[square as usize]
    }
}

/// Makes the board of a level, or returns the first fault.
fn board_of(alloc: Global, level: &Level) -> Result<Board, BoardFault>
    ensures rows { IfOk result (λ board. board.rows ≡ level.now) }
    ensures accepted { IfOk result IsAccepted }
    ensures refused { IfErr result (IsRefused level.now) }
{
    let spots = places(alloc, level.rows())?;
    let squares = area::squares(alloc, level, &spots)?;
    let numbering = survey::number(alloc, level, &spots, &squares)?;
    let level = level.copy(alloc)?;
    Ok(Board {
        level,
        squares,
        numbering,
    })
}
