//! The cells of a level during play.

ghost use Rattle.std.specs.Prelude.{◌≡◌, ◌↔◌, ◌≤◌, ◌<◌, ◌^◌, ◌+◌, true, false, if◌then◌else◌};
ghost use Rattle.std.specs.Prelude.{IsTrue, IfOk, IsSomeAnd, MatchOption, None};
ghost use Rattle.std.specs.Prelude.{length, map, position};
ghost use Rattle.sok_rules.specs.Levels.{cells_of, IsProper};
ghost use Rattle.sok_rules.specs.Squares.{cell_at, holds, is_box, is_goal, is_man, is_open};
ghost use Rattle.sok_rules.specs.Squares.{same_spot};
ghost use Rattle.std.specs.List.{list_any};
ghost use Rattle.sok_rules.specs.Play.{Position, start, step, moved, AllOnGoals};

use crate::cell::{Cell, Dir, Spot};
use crate::fault::Memory;
use crate::level::{Level, cell_in, census_of, copy_rows};
use std::alloc::Global;
use std::marker::Model;

/// Who stands on a square.
#[derive(Clone, Copy)]
pub(crate) enum Occupant {
    Nobody,
    Man,
    Box,
}

/// The cells of a level, with the player and the boxes where they stand now. Contracts see it as
/// rows; the start of these rows is the position.
#[derive(Drop)]
pub(crate) struct Scene {
    cells: Vec<Vec<Cell>>,
    man: Spot,
    /// How many boxes stand off goals.
    astray: usize,
}

impl Model for Scene {
    ghost use Rattle.sok_rules.specs.Squares.{Rows};
    ghost use Rattle.sok_rules.specs.Levels.{cells_of};
    ghost use Rattle.sok_rules.specs.Scene.{IsScene};

    ghost Value = { Rows };

    ghost view = { λ scene. cells_of scene.cells.items };

    ghost invariant = { λ scene. IsScene (cells_of scene.cells.items) scene.man scene.astray };
}

impl Scene {
    ghost use Rattle.sok_rules.specs.Scene.{SameGround, Steps, CameBy, IsBeside, NoneBeside};

    /// Makes the scene at the start of a level.
    pub(crate) fn new(alloc: Global, level: &Level) -> Result<Scene, Memory>
        ensures { IfOk result (λ scene. scene ≡ level.now) }
    {
        let rows = level.rows();
        let (man, astray) = look_over(rows);
        let cells = copy_rows(alloc, rows)?;
        Ok(Scene { cells, man, astray })
    }

    /// Goes back to the start of `level`, with which the scene was made.
    pub(crate) fn restore(&mut self, level: &Level)
        requires { SameGround level.now self.old }
        ensures { self.new ≡ level.now }
    {
        let rows = level.rows();
        let (man, astray) = look_over(rows);
        copy_over(&mut self.cells, rows);
        self.man = man;
        self.astray = astray;
    }

    /// Returns what stands on a square now. `None` if no row has the square.
    pub(crate) fn cell(&self, spot: Spot) -> Option<Cell>
        ensures cell { result ≡ cell_at self.now spot }
        ensures one_man { (s : Spot) → holds is_man self.now s ≡ same_spot (start self.now).man s }
    {
        cell_in(&self.cells, spot)
    }

    pub(crate) fn is_solved(&self) -> bool
        ensures { IsTrue result ↔ AllOnGoals self.now (start self.now) }
    {
        self.astray == 0
    }

    /// Plays one letter and returns whether it pushed. If it is not legal, returns `None` and
    /// changes nothing.
    pub(crate) fn step(&mut self, dir: Dir) -> Option<bool>
        ensures { MatchOption result
            ((step self.old dir (start self.old) ≡ None) × (self.new ≡ self.old))
            (λ pushed. Steps self.old dir pushed self.new) }
    {
        let (ahead, has_box) = self.open_beside(self.man, dir)?;
        if !has_box {
            self.walk(ahead);
            return Some(false);
        }
        let (beyond, is_held) = self.open_beside(ahead, dir)?;
        if is_held {
            return None;
        }
        self.shift(ahead, beyond, ahead);
        Some(true)
    }

    /// Takes back the last letter: the player walks back. If the letter pushed a box, the box
    /// follows.
    pub(crate) fn back(&mut self, dir: Dir, pushed: bool)
        requires { (x : Position) × CameBy self.old dir pushed x }
        ensures ground { SameGround self.old self.new }
        ensures position { (x : Position) → CameBy self.old dir pushed x → start self.new ≡ x }
    {
        let man = self.man;
        let behind = man.next(dir.opposite()).unwrap();
        if pushed {
            let ahead = man.next(dir).unwrap();
            self.shift(ahead, man, behind);
        } else {
            self.walk(behind);
        }
    }

    /// Returns the square next to an open one, and whether a box stands there. `None` if it is a
    /// wall or lies in no row.
    fn open_beside(&self, spot: Spot, dir: Dir) -> Option<(Spot, bool)>
        requires { holds is_open self.now spot ≡ true }
        ensures { MatchOption result (NoneBeside self.now spot dir) (IsBeside self.now spot dir) }
    {
        let cells = &self.cells;
        let beside = spot.next(dir)?;
        let cell = cell_in(cells, beside)?;
        if cell.is_wall() {
            None
        } else {
            Some((beside, cell.is_box()))
        }
    }

    /// Moves the player to a square.
    fn walk(&mut self, to: Spot)
        requires opened { holds is_open self.old to ≡ true }
        requires free { holds is_box self.old to ≡ false }
        ensures ground { SameGround self.old self.new }
        ensures position { start self.new ≡ record { man = to; boxes = holds is_box self.old } }
    {
        put(&mut self.cells, self.man, Occupant::Nobody);
        put(&mut self.cells, to, Occupant::Man);
        self.man = to;
    }

    /// Moves a box from one square to another, and the player to a third.
    fn shift(&mut self, from: Spot, to: Spot, man: Spot)
        requires from_open { holds is_open self.old from ≡ true }
        requires box_there { holds is_box self.old from ≡ true }
        requires to_open { holds is_open self.old to ≡ true }
        requires to_free { holds is_box self.old to ≡ false }
        requires man_open { holds is_open self.old man ≡ true }
        requires man_free { moved (holds is_box self.old) from to man ≡ false }
        ensures ground { SameGround self.old self.new }
        ensures position { start self.new
            ≡ record { man = man; boxes = moved (holds is_box self.old) from to } }
    {
        put(&mut self.cells, self.man, Occupant::Nobody);
        let left_goal = put(&mut self.cells, from, Occupant::Nobody);
        let meets_goal = put(&mut self.cells, to, Occupant::Box);
        put(&mut self.cells, man, Occupant::Man);
        self.man = man;
        self.astray = astray_after(self.astray, left_goal, meets_goal);
    }
}

/// Returns how many boxes stand off goals after one box has moved from one square to another.
fn astray_after(astray: usize, left_goal: bool, meets_goal: bool) -> usize
    requires some { (if left_goal then 0 else 1) ≤ astray }
    requires few { astray < 2 ^ 63 }
    ensures { result + (if left_goal then 0 else 1) ≡ astray + (if meets_goal then 0 else 1) }
{
    match (left_goal, meets_goal) {
        (false, true) => astray - 1,
        (true, false) => astray + 1,
        (true, true) | (false, false) => astray,
    }
}

impl Occupant {
    ghost use Rattle.sok_rules.specs.Scene.{standing};

    /// Returns the cell that shows the occupant on floor or on a goal.
    fn on(self, goal: bool) -> Cell
        ensures { result ≡ standing self goal }
    {
        match (self, goal) {
            (Occupant::Nobody, false) => Cell::Floor,
            (Occupant::Nobody, true) => Cell::Goal,
            (Occupant::Man, false) => Cell::ManOff,
            (Occupant::Man, true) => Cell::ManOn,
            (Occupant::Box, false) => Cell::BoxOff,
            (Occupant::Box, true) => Cell::BoxOn,
        }
    }
}

ghost use Rattle.sok_rules.specs.Scene.{with_occupant, IsScene};

/// Replaces the occupant of a square, and returns whether the square is a goal.
fn put(cells: &mut Vec<Vec<Cell>>, spot: Spot, who: Occupant) -> bool
    requires { holds is_open (cells_of cells.old.items) spot ≡ true }
    ensures cells { cells_of cells.new.items ≡ with_occupant (cells_of cells.old.items) spot who }
    ensures goal { result ≡ holds is_goal (cells_of cells.old.items) spot }
{
    let row = &mut cells[spot.row as usize];
    let cell = row[spot.col as usize];
    let goal = cell.is_goal();
    row[spot.col as usize] = who.on(goal);
    goal
}

/// Overwrites `cells` with `rows`, row by row.
fn copy_over(cells: &mut Vec<Vec<Cell>>, rows: &[Vec<Cell>])
    requires { map (λ row. length row) (cells_of cells.old.items)
        ≡ map (λ row. length row) (cells_of rows.now) }
    ensures { cells_of cells.new.items ≡ cells_of rows.now }
{
    for (place, row) in rows.iter().enumerate() {
        cells[place].copy_from_slice(row);
    }
}

/// Returns where the player of a level stands, and how many boxes stand off goals.
fn look_over(rows: &[Vec<Cell>]) -> (Spot, usize)
    requires { IsProper (cells_of rows.now) }
    ensures { IsScene (cells_of rows.now) result.0 result.1 }
{
    (man_in(rows).unwrap(), census_of(rows).astray)
}

/// Returns the square of the player.
fn man_in(rows: &[Vec<Cell>]) -> Option<Spot>
    requires { IsProper (cells_of rows.now) }
    ensures { IsSomeAnd result (λ man. holds is_man (cells_of rows.now) man ≡ true) }
{
    let row = row_with_man(rows)?;
    let col = col_of_man(&rows[row])?;
    Some(Spot {
        row: row as u32,
        col: col as u32,
    })
}

fn row_with_man(rows: &[Vec<Cell>]) -> Option<usize>
    ensures { result ≡ position (λ row. list_any is_man row.items) rows.now }
{
    rows.iter().position(|row| has_man(row))
}

fn has_man(row: &[Cell]) -> bool
    ensures { result ≡ list_any is_man row.now }
{
    row.iter().any(|cell| cell.is_man())
}

fn col_of_man(row: &[Cell]) -> Option<usize>
    ensures { result ≡ position is_man row.now }
{
    row.iter().position(|cell| cell.is_man())
}
