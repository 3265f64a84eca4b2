//! The search.

ghost use Rattle.std.specs.Prelude.{◌≡◌, ◌<◌, OnOk, Some};
ghost use Rattle.std.specs.Prelude.{length, slice_get, slice_set};
ghost use Rattle.sok_search.specs.Steps.{done, holding};
ghost use Rattle.sok_search.specs.PushScratches.{IsReady};
ghost use Rattle.sok_search.specs.Views.{progress_of, CutsOff, IsFinished, IsRunning, TakesTurn};
ghost use Rattle.sok_search.specs.declared.note.Standing.TheVariants.{Open};

use crate::expanding::{Scratch, expand};
use crate::note::{Note, Standing};
use crate::search::{Search, is_beaten, wait};
use crate::step::Visit;
use crate::stop::Stop;
use sok_closed::solved::is_solved;
use sok_distance::setting::Setting;
use std::alloc::Global;

/// Replaces the note of a state.
fn mark(search: &mut Search, index: usize, note: Note)
    requires { index < length search.old.notes.items }
    ensures { progress_of search.new ≡ done (progress_of search.old)
        (slice_set search.old.notes.items index note) search.old.best }
{
    search.notes[index] = note;
}

/// Visits an open state: skips it if a solution as good is known, notes it if it is solved, or expands it.
fn visit(
    alloc: Global,
    setting: &Setting<'_>,
    limit: u32,
    search: &mut Search,
    scratch: &mut Scratch,
    index: usize,
    note: Note,
    bound: u32,
) -> Result<(), Stop>
    requires held { IsRunning setting.now.board.now limit (holding index (progress_of search.old)) }
    requires ready { IsReady setting.now.board.now scratch.old }
    requires noted { slice_get search.old.notes.items index ≡ Some note }
    requires is_open { note.standing ≡ Open bound }
    ensures ready { OnOk result (IsReady setting.now.board.now scratch.new) }
    ensures turned { OnOk result (TakesTurn setting.now.board.now limit index search.old search.new) }
    ensures cut { CutsOff setting.now.board.now limit search.old (progress_of search.new) result }
{
    let depth = search.table.depth(index);
    if is_beaten(search.best, depth, bound) {
        return Ok(());
    }
    let key = search.table.key(alloc, index)?;
    if is_solved(setting.board, &key.boxes) {
        search.best = Some(depth);
        return Ok(());
    }
    let visit = Visit {
        limit,
        index,
        key: &key,
        depth,
    };
    match expand(alloc, setting, search, scratch, &visit, note.origin) {
        Ok(()) => {
            let standing = Standing::Expanded(bound);
            let origin = note.origin;
            mark(search, index, Note { origin, standing });
            Ok(())
        }
        Err(Stop::Cut) => {
            // It stays in the open list.
            wait(&mut search.queue, index as u32, depth, note.standing)?;
            Err(Stop::Cut)
        }
        Err(Stop::Memory) => Err(Stop::Memory),
    }
}

/// Visits a state that was removed from the open list, or skips it if it is not open any more.
fn turn(
    alloc: Global,
    setting: &Setting<'_>,
    limit: u32,
    search: &mut Search,
    scratch: &mut Scratch,
    index: usize,
) -> Result<(), Stop>
    requires held { IsRunning setting.now.board.now limit (holding index (progress_of search.old)) }
    requires ready { IsReady setting.now.board.now scratch.old }
    ensures ready { OnOk result (IsReady setting.now.board.now scratch.new) }
    ensures turned { OnOk result (TakesTurn setting.now.board.now limit index search.old search.new) }
    ensures cut { CutsOff setting.now.board.now limit search.old (progress_of search.new) result }
{
    let note = search.notes[index];
    match note.standing {
        Standing::Open(bound) => visit(alloc, setting, limit, search, scratch, index, note, bound),
        Standing::Expanded(_) => Ok(()),
        Standing::Dead => Ok(()),
        Standing::Lost(_) => Ok(()),
    }
}

/// Visits one state after another until the open list is empty. `Cut` if a new state has no room.
pub(crate) fn search_on(
    alloc: Global,
    setting: &Setting<'_>,
    limit: u32,
    search: &mut Search,
    scratch: &mut Scratch,
) -> Result<(), Stop>
    requires running { IsRunning setting.now.board.now limit (progress_of search.old) }
    requires ready { IsReady setting.now.board.now scratch.old }
    ensures finished { OnOk result (IsFinished setting.now.board.now limit
        (progress_of search.old) (progress_of search.new)) }
    ensures cut { CutsOff setting.now.board.now limit search.old (progress_of search.new) result }
{
    while let Some(index) = search.queue.pop() {
        turn(alloc, setting, limit, search, scratch, index as usize)?;
    }
    Ok(())
}
