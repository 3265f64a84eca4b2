//! What a search shows that ran into its limit.

ghost use Rattle.std.specs.Prelude.{ℕ, ◌<◌, MatchOption, length};
ghost use Rattle.sok_board.specs.Area.{BoardView};
ghost use Rattle.sok_search.specs.Halted.{IsLeastOpen, IsOpenAt};
ghost use Rattle.sok_search.specs.Searches.{IsSearching};
ghost use Rattle.sok_search.specs.Views.{progress_of};

use crate::note::Standing;
use crate::search::Search;
use sok_cert::limits;

/// Returns the least number of pushes of a solution through the state at an index: its depth and its lower
/// bound together. None if the state is not open.
fn needed(search: &Search, index: usize) -> Option<u64>
    requires search { (b : BoardView) × IsSearching b (progress_of search.now) }
    requires within { index < length search.now.table.entries }
    ensures { MatchOption result ((n : ℕ) → IsOpenAt (progress_of search.now) index n → ⊥)
        (IsOpenAt (progress_of search.now) index) }
{
    match search.notes[index].standing {
        Standing::Open(bound) => {
            let depth = search.table.depth(index);
            Some(u64::from(depth) + u64::from(bound))
        }
        _ => None,
    }
}

/// Returns the least such number over all open states, at most 1,000,000, which is the greatest number
/// that a certificate may have.
pub(crate) fn least_open(search: &Search) -> u32
    requires { (b : BoardView) × IsSearching b (progress_of search.now) }
    ensures { IsLeastOpen (progress_of search.now) result }
{
    let mut least = u64::from(limits::LIMIT);
    for index in 0..search.table.len() {
        if let Some(pushes) = needed(search, index) {
            least = least.min(pushes);
        }
    }
    least as u32
}
