//! The distances of a board's squares to its goals.

ghost use Rattle.std.specs.Prelude.{◌≡◌, ◌<◌, ◌≤◌, ◌↔◌, IfOk, IfSome, IsTrue, length};
ghost use Rattle.sok_board.specs.Area.{IsAccepted, goals_of};
ghost use Rattle.sok_distance.specs.Pushing.{IsStuck, TellsDistance};
ghost use Rattle.sok_distance.specs.Distances.{goal_at, distance_at, IsFilled, TellsStuck};

use crate::pull::Pulls;
use sok_board::area::Sq;
use sok_board::board::Board;
use sok_board::search::{Flood, depths_from};
use sok_rules::cell::Spot;
use sok_rules::fault::Memory;
use sok_rules::level::Level;
use std::alloc::Global;
use std::marker::Model;

/// The distance from each square of a board to each goal: the fewest pushes that bring a box from
/// the square to the goal, if no other box is in its way and the player can reach each of its
/// sides. Contracts see distances as the board of which they were made, and the entries, goal by
/// goal.
#[derive(Drop)]
pub struct Distances {
    level: Level,
    squares: Vec<Spot>,
    goals: usize,
    entries: Vec<Option<u16>>,
    stuck: Vec<bool>,
}

impl Model for Distances {
    ghost use Rattle.sok_distance.specs.Distances.{DistanceTable, IsKept};

    ghost Value = { DistanceTable };

    ghost view = { λ distances. record {
      board = record { rows = distances.level; area = distances.squares.items };
      entries = distances.entries.items;
    } };

    ghost invariant = { λ distances. IsKept distances.goals distances.stuck.items (record {
      board = record { rows = distances.level; area = distances.squares.items };
      entries = distances.entries.items;
    }) };
}

impl Distances {
    /// Finds the distances of a board by a breadth-first search from each goal, with pushes in
    /// reverse. Fails only if memory is refused.
    pub fn new(alloc: Global, board: &Board) -> Result<Distances, Memory>
        ensures board { IfOk result (λ distances. distances.board ≡ board.now) }
        ensures accepted { IsAccepted board.now }
    {
        let level = board.level().copy(alloc)?;
        let squares = spots(alloc, board)?;
        let entries = entries(alloc, board)?;
        let stuck = list_stuck(alloc, board, &entries)?;
        Ok(Distances {
            level,
            squares,
            goals: board.goals().len(),
            entries,
            stuck,
        })
    }

    /// Returns the number of goals of the board.
    pub fn goals(&self) -> usize
        ensures count { result ≡ length (goals_of self.now.board) }
        ensures accepted { IsAccepted self.now.board }
    {
        self.goals
    }

    /// Returns the distance from a square to a goal, which is given by its index among the board's
    /// goals. `None` if no pushes bring a box there.
    pub fn dist(&self, goal: usize, square: Sq) -> Option<u16>
        requires goal { goal < length (goals_of self.now.board) }
        requires square { square < length self.now.board.area }
        ensures entry { result ≡ distance_at self.now goal square }
        ensures exact { TellsDistance self.now.board (goal_at self.now.board goal) square result }
        ensures bounded { IfSome result (λ pushes. pushes ≤ length self.now.board.area) }
    {
        self.entries[goal * self.squares.len() + square as usize]
    }

    /// Returns whether a box on a square reaches no goal, even with no other box in its way.
    pub fn stuck(&self, square: Sq) -> bool
        requires { square < length self.now.board.area }
        ensures { IsTrue result ↔ IsStuck self.now.board square }
    {
        self.stuck[square as usize]
    }
}

/// Returns where the squares of a board lie.
fn spots(alloc: Global, board: &Board) -> Result<Vec<Spot>, Memory>
    ensures { IfOk result (λ spots. spots.items ≡ board.now.area) }
{
    let mut spots = Vec::with_capacity(alloc, board.squares())?;
    for square in 0..board.squares() {
        spots.push(board.spot(square as Sq))?;
    }
    Ok(spots)
}

/// Finds the distances to each goal in turn.
fn entries(alloc: Global, board: &Board) -> Result<Vec<Option<u16>>, Memory>
    ensures { IfOk result (λ entries. IsFilled (length (goals_of board.now))
        (record { board = board.now; entries = entries.items })) }
{
    let mut entries = Vec::new(alloc);
    let mut search = Flood::new(alloc);
    for goal in board.goals() {
        search = depths_from(&Pulls { board, goal: *goal }, search)?;
        entries.extend_from_slice(&search.depths)?;
    }
    Ok(entries)
}

/// Returns for each square whether a box on it reaches no goal.
fn list_stuck(alloc: Global, board: &Board, entries: &[Option<u16>]) -> Result<Vec<bool>, Memory>
    requires { IsFilled (length (goals_of board.now))
        (record { board = board.now; entries = entries.now }) }
    ensures { IfOk result (λ list. TellsStuck board.now (length board.now.area) list.items) }
{
    let mut list = Vec::with_capacity(alloc, board.squares())?;
    for square in 0..board.squares() {
        list.push(is_stuck(board, entries, square as Sq))?;
    }
    Ok(list)
}

/// Returns whether a square has no distance to any goal.
fn is_stuck(board: &Board, entries: &[Option<u16>], square: Sq) -> bool
    requires filled { IsFilled (length (goals_of board.now))
        (record { board = board.now; entries = entries.now }) }
    requires exists { square < length board.now.area }
    ensures { IsTrue result ↔ IsStuck board.now square }
{
    let squares = board.squares();
    for goal in 0..board.goals().len() {
        if entries[goal * squares + square as usize].is_some() {
            return false;
        }
    }
    true
}
