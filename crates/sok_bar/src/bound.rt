//! Prices that bound the pushes from below.

ghost use Rattle.std.specs.Prelude.{◌≡◌, ◌<◌, ◌↔◌, ◌^◌, IsTrue, All, length, sum};
ghost use Rattle.sok_board.specs.Area.{goals_of};
ghost use Rattle.sok_bar.specs.Bars.{Barring};
ghost use Rattle.sok_bar.specs.Fair.{IsAffordable, IsFair, AreFair};

use crate::bar::Bar;
use crate::rest::Rest;
use sok_board::area::Sq;
use sok_board::box_set::BoxSet;
use sok_distance::distances::Distances;
use sok_distance::setting::Setting;
use sok_rules::fault::Memory;
use std::alloc::Global;

/// Prices of a position's boxes (`u`) and of the goals (`v`), each in their order. No box costs
/// more than a goal plus its distance to it. So the sum of the boxes' prices less that of all
/// goals' prices bounds the pushes from below (weak duality of the assignment problem).
#[derive(Clone, Copy, Debug)]
pub struct Bound<'a> {
    pub u: &'a [u32],
    pub v: &'a [u32],
}

impl Bar for Bound<'_> {
    ghost says = { λ bar. Barring.bound bar.u.now bar.v.now };

    /// Returns true if the lists are such prices, as many as boxes and goals, and prove as many
    /// pushes as `rest` asks for. False if `rest` is `Never`. It allocates nothing.
    fn holds(
        &self,
        _alloc: Global,
        setting: &Setting<'_>,
        boxes: &BoxSet,
        player: Sq,
        rest: Rest,
    ) -> Result<bool, Memory> {
        let Rest::AtLeast(pushes) = rest else {
            return Ok(false);
        };
        let boxes = boxes.list();
        if self.u.len() != boxes.len() {
            return Ok(false);
        }
        if self.v.len() != setting.distances.goals() {
            return Ok(false);
        }
        if !are_fair(setting.distances, boxes, self.u, self.v) {
            return Ok(false);
        }
        match total(self.u).checked_sub(total(self.v)) {
            Some(left) => Ok(left >= u64::from(pushes)),
            None => Ok(false),
        }
    }
}

/// Returns whether no box costs more than a goal plus its distance to it.
fn are_fair(distances: &Distances, boxes: &[Sq], u: &[u32], v: &[u32]) -> bool
    requires boxes_exist { All (λ square. square < length distances.now.board.area) boxes.now }
    requires a_price_a_box { length u.now ≡ length boxes.now }
    requires a_price_a_goal { length v.now ≡ length (goals_of distances.now.board) }
    ensures { IsTrue result ↔ AreFair distances.now.board boxes.now u.now v.now }
{
    for (place, square) in boxes.iter().enumerate() {
        if !is_fair(distances, *square, u[place], v) {
            return false;
        }
    }
    true
}

/// Returns whether a box costs no more than any goal plus its distance to it.
fn is_fair(distances: &Distances, square: Sq, price: u32, v: &[u32]) -> bool
    requires exists { square < length distances.now.board.area }
    requires a_price_a_goal { length v.now ≡ length (goals_of distances.now.board) }
    ensures { IsTrue result ↔ IsFair distances.now.board square price v.now }
{
    for (goal, goal_price) in v.iter().enumerate() {
        if !is_affordable(distances, goal, square, price, *goal_price) {
            return false;
        }
    }
    true
}

/// Returns whether a box costs no more than one goal plus its distance to it. True if it has no
/// distance.
fn is_affordable(
    distances: &Distances,
    goal: usize,
    square: Sq,
    price: u32,
    goal_price: u32,
) -> bool
    requires goal { goal < length (goals_of distances.now.board) }
    requires exists { square < length distances.now.board.area }
    ensures { IsTrue result ↔ IsAffordable distances.now.board square price goal goal_price }
{
    match distances.dist(goal, square) {
        Some(pushes) => u64::from(price) <= u64::from(goal_price) + u64::from(pushes),
        None => true,
    }
}

/// Returns the sum of some prices.
fn total(prices: &[u32]) -> u64
    requires { length prices.now < 2 ^ 32 }
    ensures { result ≡ sum prices.now }
{
    prices.iter().map(|price| u64::from(*price)).sum()
}
