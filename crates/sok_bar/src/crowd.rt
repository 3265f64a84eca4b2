//! Boxes that reach too few goals.

ghost use Rattle.std.specs.Prelude.{ℕ, List, ◌≡◌, ◌<◌, ◌≤◌, ◌↔◌, IsTrue, All, length};
ghost use Rattle.sok_board.specs.Area.{IsAccepted, goals_of};
ghost use Rattle.sok_price.specs.Prices.{AreMembers};
ghost use Rattle.sok_bar.specs.Bars.{Barring};
ghost use Rattle.sok_bar.specs.Reached.{Reaches, IsReachedBy, HasReached};

use crate::bar::Bar;
use crate::members::are_members;
use crate::rest::Rest;
use sok_board::area::Sq;
use sok_board::box_set::BoxSet;
use sok_distance::distances::Distances;
use sok_distance::setting::Setting;
use sok_rules::fault::Memory;
use std::alloc::Global;

/// Boxes that reach fewer goals than they are (Hall's condition): members of a position's boxes, by
/// their indices from 0.
#[derive(Clone, Copy, Debug)]
pub struct Crowd<'a> {
    pub members: &'a [u32],
}

impl Bar for Crowd<'_> {
    ghost says = { λ bar. Barring.crowd bar.members.now };

    /// Returns true if the members are ascending indices of boxes that are a crowd, whatever `rest`
    /// is. It allocates nothing.
    fn holds(
        &self,
        _alloc: Global,
        setting: &Setting<'_>,
        boxes: &BoxSet,
        player: Sq,
        rest: Rest,
    ) -> Result<bool, Memory> {
        let boxes = boxes.list();
        if !are_members(boxes, self.members) {
            return Ok(false);
        }
        Ok(reached_goals(setting.distances, boxes, self.members) < self.members.len())
    }
}

/// Returns the number of goals that members reach, each alone on the board.
fn reached_goals(distances: &Distances, boxes: &[Sq], members: &[u32]) -> usize
    requires boxes_exist { All (λ square. square < length distances.now.board.area) boxes.now }
    requires listed { AreMembers boxes.now members.now }
    ensures enough { (goals : List ℕ) × HasReached distances.now.board boxes.now members.now goals
        × (length goals ≡ result) }
    ensures least { (goals : List ℕ) → HasReached distances.now.board boxes.now members.now goals
        → result ≤ length goals }
    ensures accepted { IsAccepted distances.now.board }
{
    let mut reached = 0;
    for goal in 0..distances.goals() {
        if is_reached(distances, goal, boxes, members) {
            reached += 1;
        }
    }
    reached
}

/// Returns whether a member reaches a goal, alone on the board.
fn is_reached(distances: &Distances, goal: usize, boxes: &[Sq], members: &[u32]) -> bool
    requires boxes_exist { All (λ square. square < length distances.now.board.area) boxes.now }
    requires listed { AreMembers boxes.now members.now }
    requires exists { goal < length (goals_of distances.now.board) }
    ensures { IsTrue result ↔ IsReachedBy distances.now.board boxes.now members.now goal }
{
    for member in members {
        if reaches(distances, boxes[*member as usize], goal) {
            return true;
        }
    }
    false
}

/// Returns whether a box alone on the board reaches a goal from a square.
fn reaches(distances: &Distances, square: Sq, goal: usize) -> bool
    requires square_exists { square < length distances.now.board.area }
    requires goal_exists { goal < length (goals_of distances.now.board) }
    ensures { IsTrue result ↔ Reaches distances.now.board square goal }
{
    distances.dist(goal, square).is_some()
}
