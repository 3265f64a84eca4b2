//! The certificate of a search, each of whose states is expanded or barred.

ghost use Rattle.std.specs.Prelude.{◌≡◌, ◌<◌, [], IfOk, OnOk, length, true};
ghost use Rattle.sok_board.specs.Area.{IsAccepted, BoardView};
ghost use Rattle.sok_price.specs.Matched.{Serves};
ghost use Rattle.sok_search.specs.Finished.{AreDone, AreTaken, TakesEntry};
ghost use Rattle.sok_search.specs.Searches.{IsSearching, IsSmallSearch, IsState};
ghost use Rattle.sok_search.specs.Views.{progress_of};

use crate::barring::reason_of;
use crate::collecting::Entries;
use crate::note::Note;
use crate::search::Search;
use sok_board::area::Sq;
use sok_cert::claim::Claim;
use sok_distance::setting::Setting;
use sok_price::matching::Matching;
use sok_rules::fault::Memory;
use sok_state::key::Key;
use std::alloc::Global;

/// Hands the certificate to `entries`: one entry for each state, in order.
pub(crate) fn certify<C: Entries>(
    alloc: Global,
    setting: &Setting<'_>,
    claim: Claim,
    search: &Search,
    entries: &mut C,
) -> Result<(), Memory>
    requires accepted { IsAccepted setting.now.board.now }
    requires search { IsSmallSearch setting.now.board.now (progress_of search.now) }
    requires whole { search.now.aim.whole ≡ true }
    requires done { AreDone setting.now.board.now claim (progress_of search.now) }
    requires none { C.took [] entries.old }
    ensures { OnOk result (AreTaken (λ taken. C.took taken entries.new) setting.now.board.now claim
        (progress_of search.now) (length search.now.table.entries)) }
{
    let mut matching = Matching::new(alloc, setting)?;
    let mut boxes = Vec::new(alloc);
    for index in 0..search.table.len() {
        take_entry(
            alloc,
            setting,
            &mut matching,
            &mut boxes,
            claim,
            search,
            index,
            entries,
        )?;
    }
    Ok(())
}

/// Hands over the entry of the state at an index. `boxes` is a buffer.
fn take_entry<C: Entries>(
    alloc: Global,
    setting: &Setting<'_>,
    matching: &mut Matching,
    boxes: &mut Vec<u32>,
    claim: Claim,
    search: &Search,
    index: usize,
    entries: &mut C,
) -> Result<(), Memory>
    requires accepted { IsAccepted setting.now.board.now }
    requires serves { Serves setting.now.board.now matching.old }
    requires search { IsSmallSearch setting.now.board.now (progress_of search.now) }
    requires whole { search.now.aim.whole ≡ true }
    requires done { AreDone setting.now.board.now claim (progress_of search.now) }
    requires within { index < length search.now.table.entries }
    ensures serves { OnOk result (Serves setting.now.board.now matching.new) }
    ensures takes { OnOk result (TakesEntry (λ taken. C.took taken entries.old)
        (λ taken. C.took taken entries.new) setting.now.board.now claim
        (progress_of search.now) index) }
{
    let (key, depth, note) = state_at(alloc, search, index)?;
    let reason = reason_of(
        alloc,
        setting,
        matching,
        claim,
        &search.losses,
        key.least,
        &key.boxes,
        depth,
        note.standing,
    )?;
    widen(boxes, key.boxes.list())?;
    entries.take(alloc, depth, u32::from(key.least), boxes, reason)?;
    Ok(())
}

/// Copies numbers into a list of wider ones.
fn widen(numbers: &mut Vec<u32>, squares: &[Sq]) -> Result<(), Memory>
    ensures { OnOk result (numbers.new.items ≡ squares.now) }
{
    numbers.clear();
    numbers.reserve(squares.len())?;
    for square in squares {
        numbers.push(u32::from(*square))?;
    }
    Ok(())
}

/// Returns the key of the state at an index, its depth and its note.
fn state_at(alloc: Global, search: &Search, index: usize) -> Result<(Key, u32, Note), Memory>
    requires search { (b : BoardView) × IsSearching b (progress_of search.now) }
    requires within { index < length search.now.table.entries }
    ensures { IfOk result
        (λ told. IsState (progress_of search.now) index told.0 told.1 told.2) }
{
    let key = search.table.key(alloc, index)?;
    Ok((key, search.table.depth(index), search.notes[index]))
}
