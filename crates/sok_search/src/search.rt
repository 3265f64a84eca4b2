//! What a search knows, and how it learns of a state.

ghost use Rattle.std.specs.Prelude.{◌<◌, ◌^◌, ◌+◌, ◌↔◌, IfOk, IsTrue, OnOk, length};
ghost use Rattle.sok_state.specs.Tables.{depth_at};
ghost use Rattle.sok_search.specs.Searches.{IsBeaten};
ghost use Rattle.sok_search.specs.Steps.{IsChanged, IsListed, Queues};
ghost use Rattle.sok_search.specs.Views.{progress_of};

use crate::aim::Aim;
use crate::note::{Note, Standing};
use crate::queue::Queue;
use sok_alone::losses::Losses;
use sok_rules::fault::Memory;
use sok_state::table::Table;

/// What the search is asked for; the losses that it knows; its states, with a note of each; the open list;
/// and the fewest pushes of a known solution: the least depth of a solved state that was visited, or
/// those of the solution that was known before.
#[derive(Drop)]
pub(crate) struct Search {
    pub(crate) aim: Aim,
    pub(crate) losses: Losses,
    pub(crate) table: Table,
    pub(crate) notes: Vec<Note>,
    pub(crate) queue: Queue,
    pub(crate) best: Option<u32>,
}

/// Frees a search. It stands apart because a function that frees one takes much longer to prove.
pub(crate) fn let_go(search: Search) {
    search.losses.let_go();
    search.table.let_go();
}

/// Returns whether a solution with at most `depth` and `bound` pushes is known.
pub(crate) fn is_beaten(best: Option<u32>, depth: u32, bound: u32) -> bool
    ensures { IsTrue result ↔ IsBeaten best (depth + bound) }
{
    match best {
        Some(pushes) => u64::from(pushes) <= u64::from(depth) + u64::from(bound),
        None => false,
    }
}

/// Adds a state to the open list if its standing is open.
pub(crate) fn wait(
    queue: &mut Queue,
    index: u32,
    depth: u32,
    standing: Standing,
) -> Result<(), Memory>
    ensures { IfOk result (λ _. Queues standing index queue.old queue.new) }
{
    match standing {
        Standing::Open(bound) => {
            let bound = bound as usize;
            queue.push(depth as usize + bound, bound, index)
        }
        Standing::Expanded(_) => Ok(()),
        Standing::Dead => Ok(()),
        Standing::Lost(_) => Ok(()),
    }
}

/// Adds the note of the state that was inserted last.
pub(crate) fn add(search: &mut Search, index: usize, depth: u32, note: Note) -> Result<(), Memory>
    requires { index < 2 ^ 32 }
    ensures { OnOk result
        (IsListed (progress_of search.old) index note (progress_of search.new)) }
{
    search.notes.push(note)?;
    wait(&mut search.queue, index as u32, depth, note.standing)
}

/// Lowers the depth of a state and replaces its note.
pub(crate) fn lower(search: &mut Search, index: usize, depth: u32, note: Note) -> Result<(), Memory>
    requires exists { index < length search.old.table.entries }
    requires small { index < 2 ^ 32 }
    requires noted { index < length search.old.notes.items }
    requires smaller { depth < depth_at search.old.table.entries index }
    ensures { OnOk result
        (IsChanged (progress_of search.old) index depth note (progress_of search.new)) }
{
    let _lowered = search.table.lower_depth(index, depth);
    search.notes[index] = note;
    wait(&mut search.queue, index as u32, depth, note.standing)
}
