//! How many pushes a push wastes.

ghost use Rattle.std.specs.Prelude.{◌≡◌, ◌≤◌, ◌<◌, ◌+◌, IfSome, IsSomeAnd, length};
ghost use Rattle.sok_lift.specs.Numbers.{SparesAt};
ghost use Rattle.sok_lift.specs.Lifts.{Wastes};

use sok_board::area::Sq;
use sok_distance::distances::Distances;

/// Returns how many pushes a push from one square to another wastes at least: the least number, over
/// all goals, by which the distance to the goal falls short of falling by one. `None` if a goal is
/// reached after the push and not before it, which is true of no push.
pub(crate) fn waste(distances: &Distances, from: Sq, to: Sq) -> Option<u32>
    requires from_exists { from < length distances.now.board.area }
    requires to_exists { to < length distances.now.board.area }
    ensures { IfSome result (Wastes distances.now.board from to) }
{
    let mut least = u32::MAX;
    for goal in 0..distances.goals() {
        let spare = spare(distances.dist(goal, from), distances.dist(goal, to))?;
        least = least.min(spare);
    }
    Some(least)
}

/// Returns by how much a distance falls short of falling by one.
fn spare(before: Option<u16>, after: Option<u16>) -> Option<u32>
    ensures { IfSome result (SparesAt before after) }
{
    match (before, after) {
        (_, None) => Some(u32::MAX),
        (None, Some(_)) => None,
        (Some(before), Some(after)) => (u32::from(after) + 1).checked_sub(u32::from(before)),
    }
}
