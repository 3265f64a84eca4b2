//! The squares because of which a level is not accepted.

ghost use Rattle.std.specs.Prelude.{◌≡◌, ◌↔◌, IsTrue, MatchOption, None, IsSome, not};
ghost use Rattle.std.specs.List.{list_any};
ghost use Rattle.sok_rules.specs.Squares.{places};
ghost use Rattle.sok_rules.specs.Levels.{IsProper};
ghost use Rattle.sok_rules.specs.declared.cell.Spot.{Spot};
ghost use Rattle.sok_board.specs.Area.{IsArea, InArea, IsEnclosed, IsStray};
ghost use Rattle.sok_board.specs.Refusals.{lies_beside, has_gap, IsFirst, IsLeak};
ghost use Rattle.sok_board.specs.Tables.{HasPlace, entry};

use crate::area::Sq;
use crate::cells::cell_or_wall;
use crate::table;
use sok_rules::cell::{Dir, Spot};
use sok_rules::level::Level;

/// Returns the first square of the area that has a neighbour in no row.
pub(crate) fn first_leak(level: &Level, squares: &[Spot]) -> Option<Spot>
    requires proper { IsProper level.now }
    requires area { IsArea level.now squares.now }
    ensures { MatchOption result (IsEnclosed level.now) (IsFirst (IsLeak level.now)) }
{
    for spot in squares {
        if has_gap(level, *spot) {
            return Some(*spot);
        }
    }
    None
}

/// Returns whether a neighbour of a square lies in no row.
fn has_gap(level: &Level, spot: Spot) -> bool
    requires { HasPlace spot }
    ensures { result ≡ has_gap level.now spot }
{
    has_gap_among(level, spot, &[Dir::Left, Dir::Up, Dir::Right, Dir::Down])
}

/// Returns whether the neighbour in one of these directions lies in no row.
fn has_gap_among(level: &Level, spot: Spot, dirs: &[Dir]) -> bool
    requires { HasPlace spot }
    ensures { result ≡ list_any (λ dir. not (lies_beside level.now spot dir)) dirs.now }
{
    dirs.iter().any(|dir| !lies_beside(level, spot, *dir))
}

/// Returns whether the neighbour in a direction lies in some row.
fn lies_beside(level: &Level, spot: Spot, dir: Dir) -> bool
    requires { HasPlace spot }
    ensures { result ≡ lies_beside level.now spot dir }
{
    match spot.next(dir) {
        Some(beside) => level.cell(beside).is_some(),
        None => false,
    }
}

/// Returns the first box that stands outside the area and off a goal. The squares of the area are
/// those with a number.
pub(crate) fn first_stray(level: &Level, spots: &[Spot], numbers: &[Option<Sq>]) -> Option<Spot>
    requires places { spots.now ≡ places level.now }
    requires numbers { (s : Spot) → IsSome (entry None numbers.now s) ↔ InArea level.now s }
    ensures { MatchOption result
        ((s : Spot) → IsStray level.now s → ⊥) (IsFirst (IsStray level.now)) }
{
    for place in spots {
        if is_stray(level, numbers, *place) {
            return Some(*place);
        }
    }
    None
}

/// Returns whether a box stands off a goal on a square without a number.
fn is_stray(level: &Level, numbers: &[Option<Sq>], spot: Spot) -> bool
    requires { IsSome (entry None numbers.now spot) ↔ InArea level.now spot }
    ensures { IsTrue result ↔ IsStray level.now spot }
{
    if table::entry(numbers, spot, None).is_some() {
        return false;
    }
    let cell = cell_or_wall(level, spot);
    cell.is_box() && !cell.is_goal()
}
