//! Adds a state to those that are known.

ghost use Rattle.std.specs.Prelude.{◌<◌, All, IfOk, IsTrue};
ghost use Rattle.sok_alone.specs.GivenUp.{IsLive};
ghost use Rattle.sok_alone.specs.Known.{IsAsked, IsKnown, IsReached};
ghost use Rattle.sok_state.specs.declared.key.Key.{Key};
ghost use Rattle.sok_alone.specs.Meeting.{TellsMet};

use crate::judging::{Judged, judge};
use crate::known::{Known, add};
use sok_distance::setting::Setting;
use sok_rules::fault::Memory;
use sok_state::key::Key;
use sok_state::table::Table;
use std::alloc::Global;

/// Whether a search goes on or has ended without a list. It ends if the boxes are solved in a
/// state, if there are more states than the limit, or if it reaches a state at which it has to
/// stop.
#[derive(Clone, Copy)]
pub(crate) enum Met {
    On,
    Ended,
}

/// Returns whether a state is in a table at depth 0.
fn is_live(lives: &Table, key: &Key) -> bool
    requires { All (λ square. square < lives.now.room) key.now.boxes }
    ensures { IsTrue result → IsLive lives.now key.now }
{
    match lives.get(key) {
        Some(index) => lives.depth(index) == 0,
        None => false,
    }
}

/// Judges a state and adds it, unless it is known. The search ends at a state that is in `lives` at
/// depth 0.
pub(crate) fn meet(
    alloc: Global,
    setting: &Setting<'_>,
    lives: &Table,
    limit: u32,
    known: &mut Known,
    key: &Key,
) -> Result<Met, Memory>
    ghost start: { Key }
    requires asked { IsAsked setting.now.board.now lives.now start }
    requires known { IsKnown setting.now.board.now start limit known.old }
    requires reached { IsReached setting.now.board.now start key.now }
    ensures { IfOk result
        (TellsMet setting.now.board.now lives.now start limit known.old key.now known.new) }
{
    if known.table.get(key).is_some() {
        return Ok(Met::On);
    }
    if is_live(lives, key) {
        return Ok(Met::Ended);
    }
    if known.inner.len() >= limit as usize {
        return Ok(Met::Ended);
    }
    match judge(alloc, setting, key)? {
        Judged::Solved => Ok(Met::Ended),
        Judged::Stands(reason) => {
            add(alloc, known, key, reason)?;
            Ok(Met::On)
        }
    }
}
