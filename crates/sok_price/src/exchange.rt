//! The exchange of one row of a matching for another.

ghost use Rattle.std.specs.Prelude.{
  vec_capacity,
  ℕ,
  ◌≡◌,
  ◌<◌,
  ◌≤◌,
  ◌+◌,
  All,
  length,
  slice_index,
};
ghost use Rattle.sok_price.specs.Costs.{cost_of, AreCosts};
ghost use Rattle.sok_price.specs.Exchanges.{moved_from, AreMoved, IsExchange, IsWhole, Tells};
ghost use Rattle.sok_price.specs.Kept.{IsShaped};
ghost use Rattle.sok_price.specs.Limits.{kept_floor_limit};
ghost use Rattle.sok_price.specs.Searches.{growth_of, HasRoom, IsReady, KeepsRoom};

use crate::costs::Costs;
use crate::search::{PathSearch, match_all};

/// Exchanges the row at an index: the last row moves there, and the new row becomes the last.
#[tactic(auto, using(crate::proofs::Exchanging::moved_set))]
fn put_row(row: usize, entry: usize, rows: &mut Vec<usize>)
    requires { row < length rows.old.items }
    ensures { AreMoved row entry rows.old.items rows.new.items }
{
    let last = rows.len() - 1;
    rows.swap(row, last);
    rows[last] = entry;
}

/// Exchanges the price at an index: the last price moves there, and 0 becomes the last.
#[tactic(auto, using(crate::proofs::Exchanging::moved_set))]
fn put_price(row: usize, prices: &mut Vec<u32>)
    requires { row < length prices.old.items }
    ensures { AreMoved row 0 prices.old.items prices.new.items }
{
    let last = prices.len() - 1;
    prices.swap(row, last);
    prices[last] = 0;
}

/// Removes the goal of the row at an index: the last goal moves there.
fn free_goal(row: usize, goal_of: &mut Vec<usize>)
    requires { row < length goal_of.old.items }
    ensures fewer { length goal_of.new.items + 1 ≡ length goal_of.old.items }
    ensures room { vec_capacity goal_of.old ≤ vec_capacity goal_of.new }
    ensures moved { (k : ℕ) → k < length goal_of.new.items
        → slice_index goal_of.new.items k ≡ slice_index goal_of.old.items
        (moved_from row (length goal_of.new.items) k) }
{
    let last = goal_of.len() - 1;
    goal_of.swap(row, last);
    goal_of.truncate(last);
}

/// Returns the highest of `floor` and some prices.
pub(crate) fn highest(floor: u32, prices: &[u32]) -> u32
    ensures risen { floor ≤ result }
    ensures top { All (λ price. price ≤ result) prices.now }
    ensures least { (limit : ℕ) → floor ≤ limit → All (λ price. price ≤ limit) prices.now
        → result ≤ limit }
{
    let mut high = floor;
    for price in prices {
        if high < *price {
            high = *price;
        }
    }
    high
}

/// Exchanges a row of a matching; the new row has no goal yet. The floor rises to the highest price
/// of a goal, since the goal that the old row had keeps its price.
fn open_row(row: usize, entry: usize, costs: &Costs, rows: &mut Vec<usize>, search: &mut PathSearch)
    requires whole { IsWhole costs.now rows.old.items search.old }
    requires exchange { IsExchange costs.now rows.old.items row entry }
    requires low { search.old.floor ≤ kept_floor_limit }
    ensures costs { AreCosts costs.now rows.new.items }
    ensures moved { AreMoved row entry rows.old.items rows.new.items }
    ensures ready { IsReady (cost_of costs.now rows.new.items) (length rows.new.items)
        costs.now.goals (growth_of search.new) }
    ensures fewer { length search.new.goal_of.items + 1 ≡ length rows.new.items }
    ensures room { KeepsRoom search.old search.new }
{
    put_row(row, entry, rows);
    put_price(row, &mut search.u);
    free_goal(row, &mut search.goal_of);
    search.floor = highest(search.floor, &search.v);
}

/// Exchanges a row of a matching, and matches the new row by one augmenting path. Returns false if
/// there is none.
pub(crate) fn exchange(
    row: usize,
    entry: usize,
    costs: &Costs,
    rows: &mut Vec<usize>,
    search: &mut PathSearch,
) -> bool
    requires whole { IsWhole costs.now rows.old.items search.old }
    requires room { HasRoom (length rows.old.items) search.old }
    requires exchange { IsExchange costs.now rows.old.items row entry }
    requires low { search.old.floor ≤ kept_floor_limit }
    ensures costs { AreCosts costs.now rows.new.items }
    ensures moved { AreMoved row entry rows.old.items rows.new.items }
    ensures tells { Tells costs.now rows.new.items search.new result }
    ensures shaped { IsShaped (length rows.new.items) costs.now.goals search.new }
{
    open_row(row, entry, costs, rows, search);
    match_all(costs, rows, search)
}
