//! The cost of bringing each box to each goal.

ghost use Rattle.std.specs.Prelude.{
  ℕ,
  ◌≡◌,
  ◌<◌,
  ◌+◌,
  ◌*◌,
  All,
  IfOk,
  length,
  slice_index,
  slice_index_or,
  None,
};
ghost use Rattle.sok_board.specs.Area.{IsAccepted, goals_of};
ghost use Rattle.sok_price.specs.Kept.{AreTabled};
ghost use Rattle.sok_price.specs.Costs.{cost_of, AreCosts, AreTold, IsRow};

use sok_board::area::Sq;
use sok_distance::distances::Distances;
use sok_rules::fault::Memory;
use std::alloc::Global;

/// Costs in pushes, row by row with an entry for each goal. A box has one of the rows, so the costs
/// of a box are contiguous.
#[derive(Drop)]
pub(crate) struct Costs {
    pub(crate) goals: usize,
    pub(crate) entries: Vec<Option<u16>>,
}

impl Costs {
    /// Returns the distances of boxes on these squares to each goal of a board.
    pub(crate) fn of(
        alloc: Global,
        distances: &Distances,
        goals: usize,
        boxes: &[Sq],
    ) -> Result<Costs, Memory>
        requires accepted { IsAccepted distances.now.board }
        requires goals { goals ≡ length (goals_of distances.now.board) }
        requires exist { All (λ square. square < length distances.now.board.area) boxes.now }
        ensures goals { IfOk result (λ costs. costs.goals ≡ goals) }
        ensures told { IfOk result (λ costs. AreTold distances.now.board
            (λ k. slice_index boxes.now k) costs.goals (length boxes.now) costs.entries.items) }
    {
        let mut entries = Vec::new(alloc);
        for square in boxes {
            entries = with_row(distances, goals, *square, entries)?;
        }
        Ok(Costs { goals, entries })
    }

    /// Returns the distances of each square of a board to each goal, and a last row that costs
    /// nothing.
    pub(crate) fn tabled(
        alloc: Global,
        distances: &Distances,
        goals: usize,
        squares: usize,
    ) -> Result<Costs, Memory>
        requires accepted { IsAccepted distances.now.board }
        requires goals { goals ≡ length (goals_of distances.now.board) }
        requires squares { squares ≡ length distances.now.board.area }
        ensures goals { IfOk result (λ costs. costs.goals ≡ goals) }
        ensures tabled { IfOk result
            (λ costs. AreTabled distances.now.board costs.goals costs.entries.items) }
    {
        let mut entries = Vec::new(alloc);
        for square in 0..squares {
            entries = with_row(distances, goals, square as Sq, entries)?;
        }
        entries.extend_from_slice(&vec![in alloc; Some(0); goals]?)?;
        Ok(Costs { goals, entries })
    }

    /// Returns the costs of bringing a box to each goal; `rows` has the row of each box. An entry
    /// is None if no pushes bring it there.
    pub(crate) fn row(&self, rows: &[usize], member: usize) -> &[Option<u16>]
        requires costs { AreCosts self.now rows.now }
        requires member { member < length rows.now }
        ensures whole { length result.now ≡ self.now.goals }
        ensures each { (goal : ℕ) → goal < self.now.goals
            → slice_index_or result.now goal None ≡ cost_of self.now rows.now member goal }
    {
        let start = rows[member] * self.goals;
        &self.entries[start..start + self.goals]
    }
}

/// Returns the first `count` numbers in order.
pub(crate) fn places(alloc: Global, count: usize) -> Result<Vec<usize>, Memory>
    ensures whole { IfOk result (λ rows. length rows.items ≡ count) }
    ensures each { IfOk result (λ rows. (k : ℕ) → k < count → slice_index rows.items k ≡ k) }
{
    Ok((0..count).collect(alloc)?)
}

/// Appends the distances of one more square.
fn with_row(
    distances: &Distances,
    goals: usize,
    square: Sq,
    mut entries: Vec<Option<u16>>,
) -> Result<Vec<Option<u16>>, Memory>
    requires accepted { IsAccepted distances.now.board }
    requires goals { goals ≡ length (goals_of distances.now.board) }
    requires exists { square < length distances.now.board.area }
    ensures { IfOk result (λ after. IsRow distances.now.board goals square entries.items after.items) }
{
    for goal in 0..goals {
        entries.push(distances.dist(goal, square))?;
    }
    Ok(entries)
}
