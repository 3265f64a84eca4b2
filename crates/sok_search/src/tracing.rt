//! The pushes that lead to a solved state.

ghost use Rattle.std.specs.Prelude.{◌≡◌, ◌<◌, ◌↔◌, IfOk, IsTrue, Some, length};
ghost use Rattle.sok_search.specs.Searches.{IsSearching};
ghost use Rattle.sok_search.specs.Walkthroughs.{GoesBack, IsSolvedAt, TracesBack};
ghost use Rattle.sok_search.specs.Views.{progress_of};

use crate::search::Search;
use sok_board::board::Board;
use sok_closed::solved::is_solved;
use sok_rules::fault::Memory;
use sok_state::push::Push;
use std::alloc::Global;

/// Returns the index of the first solved state whose depth is at most `pushes`.
pub(crate) fn find_solved(
    alloc: Global,
    board: &Board,
    search: &Search,
    pushes: u32,
) -> Result<usize, Memory>
    requires search { IsSearching board.now (progress_of search.now) }
    requires best { search.now.best ≡ Some pushes }
    requires own { search.now.aim.upper ≡ Some pushes → ⊥ }
    ensures { IfOk result (IsSolvedAt board.now (progress_of search.now) pushes) }
{
    for index in 0..search.table.len() {
        if is_solution(alloc, board, search, pushes, index)? {
            return Ok(index);
        }
    }
    unreachable!()
}

/// Returns whether the state at an index is solved and its depth is at most `pushes`.
fn is_solution(
    alloc: Global,
    board: &Board,
    search: &Search,
    pushes: u32,
    index: usize,
) -> Result<bool, Memory>
    requires search { IsSearching board.now (progress_of search.now) }
    requires within { index < length search.now.table.entries }
    ensures { IfOk result (λ is.
        IsTrue is ↔ IsSolvedAt board.now (progress_of search.now) pushes index) }
{
    if search.table.depth(index) > pushes {
        return Ok(false);
    }
    let key = search.table.key(alloc, index)?;
    Ok(is_solved(board, &key.boxes))
}

/// Returns the pushes that lead from the start to the state at an index, last one first.
pub(crate) fn trace(alloc: Global, search: &Search, index: usize) -> Result<Vec<Push>, Memory>
    requires back { GoesBack (progress_of search.now) }
    requires within { index < length search.now.notes.items }
    ensures { IfOk result (λ trace. TracesBack (progress_of search.now) index trace.items) }
{
    let mut trace = Vec::new(alloc);
    let mut at = index;
    while let Some(origin) = search.notes[at].origin {
        trace.push(origin.push)?;
        at = origin.parent as usize;
    }
    Ok(trace)
}
