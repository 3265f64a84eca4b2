//! The start of a search.

ghost use Rattle.std.specs.Prelude.{ℕ, ◌≡◌, ◌<◌, IfOk, OnOk};
ghost use Rattle.sok_board.specs.Area.{IsAccepted};
ghost use Rattle.sok_search.specs.Searches.{IsSearch};
ghost use Rattle.sok_search.specs.Views.{IsEmpty, progress_of};

use crate::aim::Aim;
use crate::judging::judge;
use crate::note::Note;
use crate::queue::Queue;
use crate::search::{Search, add};
use sok_alone::losses::Losses;
use sok_board::board::Board;
use sok_distance::setting::Setting;
use sok_rules::fault::Memory;
use sok_state::key::Key;
use sok_state::table::Table;
use std::alloc::Global;

/// Returns a search without any state.
pub(crate) fn empty(alloc: Global, board: &Board, aim: Aim) -> Result<Search, Memory>
    ensures empty { IfOk result (IsEmpty board.now) }
    ensures aim { IfOk result (λ search. search.aim ≡ aim) }
{
    Ok(Search {
        aim,
        losses: Losses::new(alloc, board)?,
        table: Table::new(alloc, board.squares()),
        notes: Vec::new(alloc),
        queue: Queue::new(alloc),
        best: aim.upper,
    })
}

/// Adds the start to a search without any state.
pub(crate) fn enter_start(
    alloc: Global,
    setting: &Setting<'_>,
    search: &mut Search,
) -> Result<(), Memory>
    requires accepted { IsAccepted setting.now.board.now }
    requires empty { IsEmpty setting.now.board.now search.old }
    ensures search { (limit : ℕ) → 0 < limit
        → OnOk result (IsSearch setting.now.board.now limit (progress_of search.new)) }
    ensures aim { OnOk result (search.new.aim ≡ search.old.aim) }
{
    let key = Key::start(alloc, setting.board)?;
    let standing = judge(alloc, setting, &mut search.losses, &key)?;
    let (index, _is_new) = search.table.insert(&key, 0)?;
    let origin = None;
    add(search, index, 0, Note { origin, standing })
}
