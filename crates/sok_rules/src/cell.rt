//! Cells of a level, the four directions, and squares by row and column.

ghost use Rattle.std.specs.Prelude.{◌≡◌, ◌+◌, ◌<◌, ◌^◌, Some};
ghost use Rattle.sok_rules.specs.Faults.{dir_word};
ghost use Rattle.sok_rules.specs.Squares.{is_wall, is_box, is_astray, is_goal, is_man};
ghost use Rattle.sok_rules.specs.Squares.{next, opposite};

use std::fmt;

/// The contents of a square in a level's text.
#[derive(Clone, Copy, Debug, PartialEq, Eq)]
pub enum Cell {
    Wall,
    Floor,
    Goal,
    /// A box on floor.
    BoxOff,
    /// A box on a goal.
    BoxOn,
    /// The player on floor.
    ManOff,
    /// The player on a goal.
    ManOn,
}

impl Cell {
    pub fn is_wall(self) -> bool
        ensures { result ≡ is_wall self }
    {
        matches!(self, Cell::Wall)
    }

    /// Returns whether a box stands here, on floor or on a goal.
    pub fn is_box(self) -> bool
        ensures { result ≡ is_box self }
    {
        matches!(self, Cell::BoxOff | Cell::BoxOn)
    }

    /// Returns whether a box stands here that is not on a goal.
    pub fn is_astray(self) -> bool
        ensures { result ≡ is_astray self }
    {
        matches!(self, Cell::BoxOff)
    }

    /// Returns whether this is a goal, also under a box or the player.
    pub fn is_goal(self) -> bool
        ensures { result ≡ is_goal self }
    {
        matches!(self, Cell::Goal | Cell::BoxOn | Cell::ManOn)
    }

    /// Returns whether the player stands here, on floor or on a goal.
    pub fn is_man(self) -> bool
        ensures { result ≡ is_man self }
    {
        matches!(self, Cell::ManOff | Cell::ManOn)
    }
}

/// A direction in which the player walks or pushes. It is displayed as `left`, `up`, `right` or
/// `down`.
#[derive(Clone, Copy, Debug, PartialEq, Eq)]
pub enum Dir {
    Left,
    Up,
    Right,
    Down,
}

impl Dir {
    pub fn opposite(self) -> Dir
        ensures { result ≡ opposite self }
    {
        match self {
            Dir::Left => Dir::Right,
            Dir::Up => Dir::Down,
            Dir::Right => Dir::Left,
            Dir::Down => Dir::Up,
        }
    }
}

impl fmt::Display for Dir {
    ghost output = { λ dir. Some (dir_word dir) };

    fn fmt<W: fmt::Write>(&self, f: &mut fmt::Formatter<W>) -> fmt::Result {
        match self {
            Dir::Left => write!(f, "left"),
            Dir::Up => write!(f, "up"),
            Dir::Right => write!(f, "right"),
            Dir::Down => write!(f, "down"),
        }
    }
}

/// A square, by its row and column, both counted from 0 at the top left.
#[derive(Clone, Copy, Debug, PartialEq, Eq)]
pub struct Spot {
    pub row: u32,
    pub col: u32,
}

impl Spot {
    /// Returns the next square in a direction. `None` left of column 0 and above row 0.
    pub fn next(self, dir: Dir) -> Option<Spot>
        requires row { self.row + 1 < 2 ^ 32 }
        requires col { self.col + 1 < 2 ^ 32 }
        ensures { result ≡ next dir self }
    {
        let Spot { row, col } = self;
        match dir {
            Dir::Left => Some(Spot {
                row,
                col: col.checked_sub(1)?,
            }),
            Dir::Up => Some(Spot {
                row: row.checked_sub(1)?,
                col,
            }),
            Dir::Right => Some(Spot { row, col: col + 1 }),
            Dir::Down => Some(Spot { row: row + 1, col }),
        }
    }
}
