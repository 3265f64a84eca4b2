//! How the table is filled: from the goals backward, states with the fewest wasted pushes first
//! (Dijkstra's algorithm). Nothing here is relied on: `check` decides.

ghost use Rattle.std.specs.Prelude.{◌≡◌, ◌<◌, ◌≤◌, length};
ghost use Rattle.sok_board.specs.Limits.{square_limit};

use crate::lifts::{pairs, place};
use crate::waste::waste;
use sok_board::area::Sq;
use sok_board::board::Board;
use sok_distance::setting::Setting;
use sok_rules::cell::Dir;
use sok_rules::fault::Memory;
use std::alloc::Global;

/// A player and two boxes.
#[derive(Clone, Copy)]
struct Two {
    player: Sq,
    one: Sq,
    other: Sq,
}

/// The least numbers found so far, and for each number the states that wait to be expanded.
#[derive(Drop)]
struct Found {
    squares: usize,
    numbers: Vec<u8>,
    waiting: Vec<Vec<Two>>,
    ghost few: { squares ≤ square_limit },
}

impl Found {
    /// Returns the index of the number of a state.
    fn place(&self, two: Two) -> usize {
        if two.one < two.other {
            place(self.squares, two.player, two.one, two.other)
        } else {
            place(self.squares, two.player, two.other, two.one)
        }
    }

    /// Replaces the number of a state.
    fn put(&mut self, two: Two, number: u8) {
        let place = self.place(two);
        if place < self.numbers.len() {
            self.numbers[place] = number;
        }
    }

    /// Returns the number of a state.
    fn number(&self, two: Two) -> u8 {
        match self.numbers.get(self.place(two)) {
            Some(number) => *number,
            None => 0,
        }
    }

    /// Lowers the number of a state, which then waits. Does nothing if it is no higher.
    fn lower(&mut self, two: Two, number: u32) -> Result<(), Memory> {
        if number < u32::from(self.number(two)) {
            self.put(two, number as u8);
            if let Some(layer) = self.waiting.get_mut(number as usize) {
                layer.push(two)?;
            }
        }
        Ok(())
    }

    /// Removes a state that waits with a number, the last one in first.
    fn next(&mut self, number: u8) -> Option<Two> {
        match self.waiting.get_mut(number as usize) {
            Some(layer) => layer.pop(),
            None => None,
        }
    }
}

/// Returns the numbers of a board.
pub(crate) fn numbers(alloc: Global, setting: &Setting<'_>) -> Result<Vec<u8>, Memory> {
    let squares = setting.board.squares();
    let mut waiting = Vec::new(alloc);
    for _number in 0..u8::MAX {
        waiting.push(Vec::new(alloc))?;
    }
    let numbers = vec![in alloc; 0; squares * pairs(squares)]?;
    let mut found = Found {
        squares,
        numbers,
        waiting,
    };
    begin(setting.board, &mut found)?;
    let wastes = wastes(alloc, setting)?;
    for number in 0..u8::MAX {
        settle(setting.board, &wastes, &mut found, number)?;
    }
    let Found {
        squares: _,
        numbers,
        waiting: _,
    } = found;
    Ok(numbers)
}

/// Gives each state the highest number, or 0 if both boxes are on goals.
fn begin(board: &Board, found: &mut Found) -> Result<(), Memory> {
    for one in 0..board.squares() {
        for other in 0..one {
            begin_with(board, found, one as Sq, other as Sq)?;
        }
    }
    Ok(())
}

/// Does so for two boxes and each square of the player.
fn begin_with(board: &Board, found: &mut Found, one: Sq, other: Sq) -> Result<(), Memory>
    requires one_exists { one < length board.now.area }
    requires other_exists { other < length board.now.area }
{
    let solved = board.is_goal(one) && board.is_goal(other);
    for player in 0..board.squares() {
        let player = player as Sq;
        if player != one && player != other {
            let two = Two { player, one, other };
            found.put(two, u8::MAX);
            if solved {
                found.lower(two, 0)?;
            }
        }
    }
    Ok(())
}

/// Returns what the pushes from each square waste: left, up, right and down.
fn wastes(alloc: Global, setting: &Setting<'_>) -> Result<Vec<u32>, Memory> {
    let mut wastes = Vec::new(alloc);
    for square in 0..setting.board.squares() {
        let from = square as Sq;
        wastes.push(waste_towards(setting, from, Dir::Left))?;
        wastes.push(waste_towards(setting, from, Dir::Up))?;
        wastes.push(waste_towards(setting, from, Dir::Right))?;
        wastes.push(waste_towards(setting, from, Dir::Down))?;
    }
    Ok(wastes)
}

/// Returns what a push wastes, or 0 if there is none.
fn waste_towards(setting: &Setting<'_>, from: Sq, dir: Dir) -> u32
    requires { from < length setting.now.board.now.area }
{
    match setting.board.neighbour(from, dir) {
        None => 0,
        Some(to) => match waste(setting.distances, from, to) {
            None => 0,
            Some(waste) => waste,
        },
    }
}

/// Expands all states that wait with a number.
fn settle(board: &Board, wastes: &[u32], found: &mut Found, number: u8) -> Result<(), Memory> {
    for _turn in 0..u64::MAX {
        let Some(two) = found.next(number) else {
            return Ok(());
        };
        if found.number(two) == number {
            look(board, wastes, found, two)?;
        }
    }
    Ok(())
}

/// Finds the states that lead to a state by one letter.
fn look(board: &Board, wastes: &[u32], found: &mut Found, two: Two) -> Result<(), Memory> {
    if (two.player as usize) < board.squares() {
        let places = two.player as usize * 4;
        let waste = |place: usize| wastes.get(place).copied().unwrap_or(0);
        back(board, found, two, Dir::Left, waste(places))?;
        back(board, found, two, Dir::Up, waste(places + 1))?;
        back(board, found, two, Dir::Right, waste(places + 2))?;
        back(board, found, two, Dir::Down, waste(places + 3))?;
    }
    Ok(())
}

/// Finds the states that lead to a state by a walk against a direction, or by a push along it, which
/// wastes so many.
fn back(board: &Board, found: &mut Found, two: Two, dir: Dir, waste: u32) -> Result<(), Memory>
    requires { two.player < length board.now.area }
{
    let Two { player, one, other } = two;
    let number = u32::from(found.number(two));
    let Some(ahead) = board.neighbour(player, dir) else {
        return Ok(());
    };
    if ahead != one && ahead != other {
        return found.lower(
            Two {
                player: ahead,
                one,
                other,
            },
            number,
        );
    }
    let Some(behind) = board.neighbour(player, dir.opposite()) else {
        return Ok(());
    };
    let other = if ahead == one { other } else { one };
    if behind == other {
        return Ok(());
    }
    let before = Two {
        player: behind,
        one: player,
        other,
    };
    found.lower(before, number.saturating_add(waste))
}
