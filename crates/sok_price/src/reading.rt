//! The prices and goals of some boxes, read from a matching with a row for each goal.

ghost use Rattle.std.specs.Prelude.{
  ℕ,
  ◌≡◌,
  ◌<◌,
  ◌≤◌,
  ◌-◌,
  All,
  Contains,
  IfOk,
  IfSome,
  length,
  map,
  slice_index,
};
ghost use Rattle.sok_board.specs.Area.{BoardView};
ghost use Rattle.sok_price.specs.declared.costs.Costs.{Costs};
ghost use Rattle.sok_price.specs.Exchanges.{IsWhole};
ghost use Rattle.sok_price.specs.Kept.{AreKept, AreRead};
ghost use Rattle.sok_price.specs.Matches.{IsMatch};

use crate::assign::Match;
use crate::exchange::highest;
use crate::search::{PathSearch, worth};
use sok_board::area::Sq;
use sok_rules::fault::Memory;
use std::alloc::Global;

/// The highest price in an answer.
const PRICE_LIMIT: u32 = 1_000_000;

/// Returns the index of a box's row.
pub(crate) fn row_of(rows: &[usize], square: usize) -> usize
    requires { Contains rows.now square }
    ensures within { result < length rows.now }
    ensures row { slice_index rows.now result ≡ square }
{
    match rows.iter().position(|row| *row == square) {
        Some(row) => row,
        None => unreachable!(),
    }
}

/// Returns the lowest of `ceiling` and some prices.
fn lowest(ceiling: u32, prices: &[u32]) -> u32
    ensures bottom { All (λ price. result ≤ price) prices.now }
    ensures most { (limit : ℕ) → limit ≤ ceiling → All (λ price. limit ≤ price) prices.now
        → limit ≤ result }
{
    let mut low = ceiling;
    for price in prices {
        if *price < low {
            low = *price;
        }
    }
    low
}

/// Returns some prices, each less `amount` and at least 0.
fn lowered(alloc: Global, amount: u32, prices: &[u32]) -> Result<Vec<u32>, Memory>
    ensures { IfOk result (λ less. less.items ≡ map (λ price. price - amount) prices.now) }
{
    Ok(
        prices
            .iter()
            .map(|price| price.saturating_sub(amount))
            .collect(alloc)?,
    )
}

/// Returns the prices of some boxes, each less `amount` and at least 0, and their goals, in the
/// order of the boxes.
fn read_boxes(
    alloc: Global,
    amount: u32,
    rows: &[usize],
    search: &PathSearch,
    boxes: &[Sq],
) -> Result<(Vec<u32>, Vec<usize>), Memory>
    requires prices { length search.now.u.items ≡ length rows.now }
    requires goals { length search.now.goal_of.items ≡ length rows.now }
    requires rows { All (Contains rows.now) boxes.now }
    ensures { IfOk result (λ read. AreRead amount rows.now search.now boxes.now
        read.0.items read.1.items) }
{
    let mut u = Vec::with_capacity(alloc, boxes.len())?;
    let mut goal_of = Vec::with_capacity(alloc, boxes.len())?;
    for square in boxes {
        let row = row_of(rows, *square as usize);
        u.push(search.u[row].saturating_sub(amount))?;
        goal_of.push(search.goal_of[row])?;
    }
    Ok((u, goal_of))
}

/// Returns the prices and goals of some boxes from a matching of all rows. All prices are lowered
/// alike, so that the cheapest goal costs nothing. None if a price is then above `PRICE_LIMIT`.
/// Errors: `Memory`.
pub(crate) fn read(
    alloc: Global,
    rows: &[usize],
    search: &PathSearch,
    boxes: &[Sq],
) -> Result<Option<Match>, Memory>
    requires whole { (costs : Costs) × IsWhole costs rows.now search.now
        × (length rows.now ≡ costs.goals) }
    requires rows { All (Contains rows.now) boxes.now }
    ensures { (b : BoardView) (costs : Costs) → AreKept b costs rows.now boxes.now
        → IsWhole costs rows.now search.now
        → IfOk result (λ found. IfSome found (IsMatch b boxes.now)) }
{
    let floor = lowest(u32::MAX, &search.v);
    let v = lowered(alloc, floor, &search.v)?;
    let (u, goal_of) = read_boxes(alloc, floor, rows, search, boxes)?;
    if highest(highest(0, &u), &v) > PRICE_LIMIT {
        return Ok(None);
    }
    let total = worth(search);
    Ok(Some(Match::Prices {
        u,
        v,
        total,
        goal_of,
    }))
}
