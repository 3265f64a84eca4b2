//! The reasons of a certificate, computed again from the boxes of a state.

ghost use Rattle.std.specs.Prelude.{ℕ, ◌<◌, ◌↔◌, IfOk, IfSome, IsTrue, All, length, true};
ghost use Rattle.sok_alone.specs.Losses.{IsLostBy, losses_of};
ghost use Rattle.sok_board.specs.Area.{BoardView};
ghost use Rattle.sok_price.specs.Matched.{Serves};
ghost use Rattle.sok_bar.specs.declared.rest.Rest.{Rest};
ghost use Rattle.sok_cert.specs.Closed.{rest_of};
ghost use Rattle.sok_search.specs.Searches.{IsDead};
ghost use Rattle.sok_search.specs.Finished.{CostsEnough, HasText, IsAssigned, IsAtMost, IsDone};
ghost use Rattle.sok_search.specs.Finished.{IsLoneCrowd, IsReasonOf, IsStuckAt, ReasonBars};

use crate::note::Standing;
use sok_alone::found::FoundPattern;
use sok_alone::losses::Losses;
use sok_bar::frozen::find_jam;
use sok_board::area::Sq;
use sok_board::board::Board;
use sok_board::box_set::BoxSet;
use sok_cert::claim::Claim;
use sok_cert::entry::{Numbers, Reason};
use sok_distance::distances::Distances;
use sok_distance::setting::Setting;
use sok_price::assign::Match;
use sok_price::matching::Matching;
use sok_rules::fault::Memory;
use std::alloc::Global;

/// Returns the reason that bars a state in a certificate, or `Expanded`.
pub(crate) fn reason_of(
    alloc: Global,
    setting: &Setting<'_>,
    matching: &mut Matching,
    claim: Claim,
    losses: &Losses,
    player: Sq,
    boxes: &BoxSet,
    depth: u32,
    standing: Standing,
) -> Result<Reason, Memory>
    requires serves { Serves setting.now.board.now matching.old }
    requires exist { All (λ square. square < length setting.now.board.now.area) boxes.now }
    requires finished { IsDone setting.now.board.now true claim
        (losses_of losses.now) player boxes.now depth
        standing }
    ensures serves { Serves setting.now.board.now matching.new }
    ensures reason { IfOk result
        (IsReasonOf setting.now.board.now claim player boxes.now depth standing) }
    ensures fits { IfOk result (HasText boxes.now) }
{
    match standing {
        Standing::Open(_) => open_reason(alloc, setting.board, matching, claim, boxes, depth),
        Standing::Expanded(_) => Ok(Reason::Expanded),
        Standing::Dead => dead_reason(alloc, setting, matching, boxes),
        Standing::Lost(place) => lost_reason(alloc, losses, boxes, place),
    }
}

/// Returns the reason that bars an open state: as many pushes as claimed were made, or dual prices show
/// that at least as many will be.
fn open_reason(
    alloc: Global,
    board: &Board,
    matching: &mut Matching,
    claim: Claim,
    boxes: &BoxSet,
    depth: u32,
) -> Result<Reason, Memory>
    requires serves { Serves board.now matching.old }
    requires exist { All (λ square. square < length board.now.area) boxes.now }
    requires finished { (player : ℕ) × CostsEnough board.now true claim player boxes.now depth }
    ensures serves { Serves board.now matching.new }
    ensures bars { IfOk result (λ why. (player : ℕ)
        → ReasonBars board.now player boxes.now why (rest_of claim depth)) }
    ensures fits { IfOk result (HasText boxes.now) }
{
    if is_spent(claim, depth) {
        return Ok(Reason::Spent);
    }
    assigned_reason(alloc, board, matching, boxes)
}

/// Returns whether as many pushes as claimed were made.
fn is_spent(claim: Claim, depth: u32) -> bool
    ensures { IsTrue result ↔ IsAtMost claim depth }
{
    match claim {
        Claim::Pushes(pushes) => pushes <= depth,
        Claim::Unsolvable => false,
    }
}

/// Returns the reason that bars a dead state: a box that reaches no goal, which is a crowd by itself; or
/// else a jam; or else a crowd.
fn dead_reason(
    alloc: Global,
    setting: &Setting<'_>,
    matching: &mut Matching,
    boxes: &BoxSet,
) -> Result<Reason, Memory>
    requires serves { Serves setting.now.board.now matching.old }
    requires exist { All (λ square. square < length setting.now.board.now.area) boxes.now }
    requires dead { IsDead setting.now.board.now boxes.now }
    ensures serves { Serves setting.now.board.now matching.new }
    ensures bars { IfOk result (λ why. (player : ℕ) (rest : Rest)
        → ReasonBars setting.now.board.now player boxes.now why rest) }
    ensures fits { IfOk result (HasText boxes.now) }
{
    // Listing the boxes also shows that they are few, so that their indices have a text.
    if let Some(place) = stuck_place(setting.distances, boxes.list()) {
        return stuck_reason(alloc, place as u32);
    }
    match find_jam(alloc, setting, boxes)? {
        Some(members) => {
            let members = Numbers::from(members);
            Ok(Reason::Frozen { members })
        }
        None => assigned_reason(alloc, setting.board, matching, boxes),
    }
}

/// Returns the place of the first box that reaches no goal from its square, even alone on the board.
fn stuck_place(distances: &Distances, squares: &[Sq]) -> Option<usize>
    requires { All (λ square. square < length distances.now.board.area) squares.now }
    ensures { IfSome result (IsStuckAt distances.now.board squares.now) }
{
    for (place, square) in squares.iter().enumerate() {
        if distances.stuck(*square) {
            return Some(place);
        }
    }
    None
}

/// Returns the box at a place, as a crowd.
fn stuck_reason(alloc: Global, place: u32) -> Result<Reason, Memory>
    ensures { IfOk result (IsLoneCrowd place) }
{
    let mut members = Vec::new(alloc);
    members.push(place)?;
    let members = Numbers::from(members);
    Ok(Reason::Crowd { members })
}

/// Returns the reason that bars a lost state: the loss at a place, as a pattern of its boxes.
fn lost_reason(alloc: Global, losses: &Losses, boxes: &BoxSet, place: u32) -> Result<Reason, Memory>
    requires lost { (b : BoardView) × (player : ℕ)
        × IsLostBy b player boxes.now (losses_of losses.now) place }
    ensures bars { (b : BoardView) (player : ℕ)
        → IsLostBy b player boxes.now (losses_of losses.now) place
        → IfOk result (λ why. (rest : Rest) → ReasonBars b player boxes.now why rest) }
    ensures fits { IfOk result (HasText boxes.now) }
{
    // There are few boxes, so their indices have a text.
    let _list = boxes.list();
    let FoundPattern { members, inner } = losses.pattern_at(alloc, boxes, place)?;
    Ok(Reason::Pattern { members, inner })
}

/// Returns the dual prices of a minimum assignment of goals to boxes, or a crowd.
fn assigned_reason(
    alloc: Global,
    board: &Board,
    matching: &mut Matching,
    boxes: &BoxSet,
) -> Result<Reason, Memory>
    requires serves { Serves board.now matching.old }
    requires exist { All (λ square. square < length board.now.area) boxes.now }
    ensures serves { Serves board.now matching.new }
    ensures assigned { IfOk result (IsAssigned board.now boxes.now) }
    ensures fits { IfOk result (HasText boxes.now) }
{
    // There are few boxes, so their indices have a text.
    let _list = boxes.list();
    match matching.assign(alloc, boxes)? {
        Match::Prices {
            u,
            v,
            total: _,
            goal_of: _,
        } => {
            let u = Numbers::from(u);
            let v = Numbers::from(v);
            Ok(Reason::Bound { u, v })
        }
        Match::Crowd { members } => {
            let members = Numbers::from(members);
            Ok(Reason::Crowd { members })
        }
    }
}
