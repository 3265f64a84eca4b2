//! The minimum assignment of boxes to goals.

ghost use Rattle.std.specs.Prelude.{ℕ, List, ◌≡◌, ◌<◌, ◌≤◌, All, IfOk, length};
ghost use Rattle.sok_board.specs.Area.{BoardView};
ghost use Rattle.sok_board.specs.Limits.{box_limit, square_limit};
ghost use Rattle.sok_price.specs.Costs.{AreCosts, AreOfBoxes};
ghost use Rattle.sok_price.specs.Matched.{HasWorth};
ghost use Rattle.sok_price.specs.Matches.{IsMatch, HasPrices};
ghost use Rattle.sok_price.specs.Trees.{is_met, members_of};

use crate::costs::{Costs, places};
use crate::search::{Branch, PathSearch, match_anew, worth};
use sok_board::box_set::BoxSet;
use sok_distance::distances::Distances;
use sok_rules::fault::Memory;
use std::alloc::Global;

/// The assignment that was found, or the reason why there is none.
#[derive(Drop)]
pub enum Match {
    /// A goal of its own for each box, by its index among the board's goals, such that the
    /// distances add up to `total`; and prices of the boxes (`u`) and of all goals (`v`), from 0 to
    /// 1,000,000, that prove that no assignment costs less (Egerváry's theorem). The total is the
    /// sum of the boxes' prices less that of the goals'.
    Prices {
        u: Vec<u32>,
        v: Vec<u32>,
        total: u32,
        goal_of: Vec<usize>,
    },
    /// Boxes that reach fewer goals than they are (Hall's condition), by their indices, in
    /// ascending order.
    Crowd {
        members: Vec<u32>,
    },
}

/// Finds a minimum assignment of boxes to goals with prices that prove it, or a crowd if there is
/// no goal of its own for each box. The boxes are on squares of the board of the distances.
///
/// It uses shortest augmenting paths (Kuhn, Munkres), box by box. The prices start from 0; they are
/// fair everywhere, tight on matched pairs, and 0 at unmatched goals. It takes at most boxes
/// squared times goals steps. Errors: `Memory`.
pub fn assign(alloc: Global, distances: &Distances, boxes: &BoxSet) -> Result<Match, Memory>
    requires { All (λ square. square < length distances.now.board.area) boxes.now }
    ensures { IfOk result (IsMatch distances.now.board boxes.now) }
{
    let boxes = boxes.list();
    let costs = Costs::of(alloc, distances, distances.goals(), boxes)?;
    assign_rows(alloc, &costs, &places(alloc, boxes.len())?)
}

/// Returns whether a box is in a tree.
fn is_in(branches: &[Branch], member: usize) -> bool
    ensures { result ≡ is_met branches.now member }
{
    branches.iter().any(|branch| branch.member == member)
}

/// Returns which of the boxes before `end` are in a tree, by their indices, in ascending order.
fn members_in(alloc: Global, branches: &[Branch], end: usize) -> Result<Vec<u32>, Memory>
    requires { end ≤ square_limit }
    ensures { IfOk result (λ members. members.items ≡ members_of branches.now end) }
{
    let mut members = Vec::new(alloc);
    for member in 0..end {
        if is_in(branches, member) {
            members.push(member as u32)?;
        }
    }
    Ok(members)
}

/// Finds a minimum assignment of goals to the boxes with these rows of costs, or a crowd of them.
pub(crate) fn assign_rows(alloc: Global, costs: &Costs, rows: &[usize]) -> Result<Match, Memory>
    requires costs { AreCosts costs.now rows.now }
    requires few { length rows.now ≤ box_limit }
    ensures { (b : BoardView) (boxes : List ℕ) → AreOfBoxes b boxes costs.now rows.now
        → IfOk result (IsMatch b boxes) }
{
    let mut search = PathSearch::new(alloc, rows.len(), costs.goals)?;
    if match_anew(costs, rows, &mut search) {
        return Ok(priced(search));
    }
    Ok(Match::Crowd {
        members: members_in(alloc, &search.branches, rows.len())?,
    })
}

/// Returns the prices and goals of a search that has a goal for each box.
fn priced(search: PathSearch) -> Match
    requires { HasWorth search }
    ensures { HasPrices search result }
{
    let total = worth(&search);
    let PathSearch {
        u,
        v,
        goal_of,
        branches: _,
        taken: _,
        slacks: _,
        takers: _,
        floor: _,
    } = search;
    Match::Prices {
        u,
        v,
        total,
        goal_of,
    }
}
