//! A table of lifts.

ghost use Rattle.std.specs.Prelude.{◌≡◌, ◌<◌, ◌≤◌, ◌↔◌, IfOk, IsTrue};
ghost use Rattle.sok_board.specs.Limits.{square_limit};
ghost use Rattle.sok_board.specs.Area.{BoardView, IsArea};
ghost use Rattle.sok_lift.specs.Numbers.{AreLifts, entry_in, lift_in, pairs_in, place_in};

use crate::check::is_lift;
use crate::making::numbers;
use sok_board::area::Sq;
use sok_distance::setting::Setting;
use sok_rules::fault::Memory;
use std::alloc::Global;
use std::marker::Model;

/// A lift for each two squares of boxes and each square of the player; 0 where none is kept.
#[derive(Drop)]
pub struct Lifts {
    squares: usize,
    numbers: Vec<u8>,
}

impl Model for Lifts {
    ghost use Rattle.std.specs.Prelude.{◌≤◌};
    ghost use Rattle.sok_board.specs.Limits.{square_limit};
    ghost use Rattle.sok_lift.specs.Numbers.{LiftTable};

    ghost Value = { LiftTable };

    ghost view = { λ lifts. record { squares = lifts.squares; numbers = lifts.numbers.items } };

    ghost invariant = { λ lifts. lifts.squares ≤ square_limit };
}

/// The lift of two boxes that can't be solved.
pub(crate) const LOST: u8 = 255;

/// The most squares of a board for which a table is made. It takes 8 MB and a second at most.
const SQUARES: usize = 256;

impl Lifts {
    /// Returns a table in which each lift is 0.
    pub fn none(alloc: Global) -> Lifts
        ensures { (b : BoardView) → IsArea b.rows b.area → AreLifts b result }
    {
        Lifts {
            squares: 0,
            numbers: Vec::new(alloc),
        }
    }

    /// Makes the table of a board: how many pushes two boxes waste at least until both are on goals,
    /// if there are no others, or 255 if they can't be solved. Each lift is 0 if the board has more
    /// than 256 squares, or if two boxes may have to waste 255 pushes or more. Fails only if memory
    /// is refused.
    pub fn new(alloc: Global, setting: &Setting<'_>) -> Result<Lifts, Memory>
        ensures { IfOk result (AreLifts setting.now.board.now) }
    {
        let squares = setting.board.squares();
        if squares <= SQUARES {
            let numbers = numbers(alloc, setting)?;
            let lifts = Lifts { squares, numbers };
            if is_lift(setting, &lifts) {
                return Ok(lifts);
            }
        }
        Ok(Lifts::none(alloc))
    }

    /// Returns whether a table was made.
    pub fn is_made(&self) -> bool
        ensures { IsTrue result ↔ 0 < self.now.squares }
    {
        self.squares > 0
    }

    /// Returns the lift of two boxes, in any order, and the player.
    #[tactic(auto, unfolding(crate::specs::Numbers::lift_in))]
    pub(crate) fn of(&self, player: Sq, one: Sq, other: Sq) -> u8
        ensures { result ≡ lift_in self.now player one other }
    {
        if one < other {
            self.entry(player, one, other)
        } else {
            self.entry(player, other, one)
        }
    }

    /// Returns the lift of two boxes, the one on the lower square first, and the player.
    #[tactic(auto, unfolding(crate::specs::Numbers::entry_in))]
    fn entry(&self, player: Sq, low: Sq, high: Sq) -> u8
        ensures { result ≡ entry_in self.now player low high }
    {
        match self.numbers.get(place(self.squares, player, low, high)) {
            Some(number) => *number,
            None => 0,
        }
    }
}

/// Returns the index of the lift of two boxes, the one on the lower square first, and the player.
pub(crate) fn place(squares: usize, player: Sq, low: Sq, high: Sq) -> usize
    requires { squares ≤ square_limit }
    ensures { result ≡ place_in squares player low high }
{
    let high = high as usize;
    player as usize * pairs(squares) + (high * high + high) / 2 + low as usize
}

/// Returns how many pairs of squares there are, equal ones included.
pub(crate) fn pairs(squares: usize) -> usize
    requires { squares ≤ square_limit }
    ensures { result ≡ pairs_in squares }
{
    (squares * squares + squares) / 2
}
