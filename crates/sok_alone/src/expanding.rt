//! Expands the states of a search of some boxes alone.

ghost use Rattle.std.specs.Prelude.{◌<◌, All, IfOk, OnOk, length};
ghost use Rattle.sok_closed.specs.Lookup.{AreFollowed};
ghost use Rattle.sok_state.specs.Pushes.{IsLegal, IsOpened};
ghost use Rattle.sok_alone.specs.Known.{IsAsked, IsKnown, IsReached, roll_of};
ghost use Rattle.sok_state.specs.declared.key.Key.{Key};
ghost use Rattle.sok_alone.specs.Meeting.{TellsAll, TellsExpanded, TellsFollowed, TellsRun};
ghost use Rattle.sok_alone.specs.Workspace.{IsWorkspace};

use crate::known::Known;
use crate::meeting::{Met, meet};
use crate::workspace::Workspace;
use sok_bar::inners::is_expanded;
use sok_distance::setting::Setting;
use sok_rules::fault::Memory;
use sok_state::key::Key;
use sok_state::push::Push;
use sok_state::scene::Scene;
use sok_state::table::Table;
use std::alloc::Global;

/// Follows some legal pushes of a known state, and adds the states that they lead to.
fn follow_all(
    alloc: Global,
    setting: &Setting<'_>,
    lives: &Table,
    limit: u32,
    known: &mut Known,
    scene: &mut Scene,
    key: &Key,
    pushes: &[Push],
) -> Result<Met, Memory>
    ghost start: { Key }
    requires asked { IsAsked setting.now.board.now lives.now start }
    requires known { IsKnown setting.now.board.now start limit known.old }
    requires reached { IsReached setting.now.board.now start key.now }
    requires legal { All (IsLegal setting.now.board.now key.now) pushes.now }
    requires opened { IsOpened setting.now.board.now key.now scene.old }
    ensures tells { IfOk result
        (TellsFollowed setting.now.board.now lives.now start limit known.old key.now pushes.now
        known.new) }
    ensures opened { OnOk result (IsOpened setting.now.board.now key.now scene.new) }
{
    for push in pushes {
        let next = scene.after(alloc, setting.board, key, *push)?;
        match meet(alloc, setting, lives, limit, known, &next)? {
            Met::On => {}
            Met::Ended => return Ok(Met::Ended),
        }
    }
    Ok(Met::On)
}

/// Expands the known state at `index`, if its reason is `Expanded`: adds the states that its legal
/// pushes lead to.
fn expand(
    alloc: Global,
    setting: &Setting<'_>,
    lives: &Table,
    limit: u32,
    known: &mut Known,
    workspace: &mut Workspace,
    index: usize,
) -> Result<Met, Memory>
    ghost start: { Key }
    requires asked { IsAsked setting.now.board.now lives.now start }
    requires known { IsKnown setting.now.board.now start limit known.old }
    requires exists { index < length known.old.inner.items }
    requires followed { AreFollowed setting.now.board.now (roll_of known.old) index }
    requires workspace { IsWorkspace setting.now.board.now workspace.old }
    ensures workspace { OnOk result (IsWorkspace setting.now.board.now workspace.new) }
    ensures tells { IfOk result
        (TellsExpanded setting.now.board.now lives.now start limit known.old index known.new) }
{
    if !is_expanded(&known.inner[index].reason) {
        return Ok(Met::On);
    }
    let key = known.table.key(alloc, index)?;
    workspace.expansion.open(setting.board, &key)?;
    let scene = &mut workspace.expansion.scene;
    let pushes = &workspace.expansion.pushes;
    follow_all(alloc, setting, lives, limit, known, scene, &key, pushes)
}

/// Expands one known state after another, until none is left or the search has ended.
fn expand_all(
    alloc: Global,
    setting: &Setting<'_>,
    lives: &Table,
    limit: u32,
    known: &mut Known,
    workspace: &mut Workspace,
) -> Result<Met, Memory>
    ghost start: { Key }
    requires asked { IsAsked setting.now.board.now lives.now start }
    requires known { IsKnown setting.now.board.now start limit known.old }
    requires workspace { IsWorkspace setting.now.board.now workspace.old }
    ensures workspace { OnOk result (IsWorkspace setting.now.board.now workspace.new) }
    ensures tells { IfOk result
        (TellsAll setting.now.board.now lives.now start limit known.old known.new) }
{
    let mut index = 0;
    while index < known.inner.len() {
        match expand(alloc, setting, lives, limit, known, workspace, index)? {
            Met::On => {}
            Met::Ended => return Ok(Met::Ended),
        }
        index += 1;
    }
    Ok(Met::On)
}

/// Adds a first state, and then expands one known state after another, until none is left or the
/// search has ended.
pub(crate) fn run(
    alloc: Global,
    setting: &Setting<'_>,
    lives: &Table,
    limit: u32,
    known: &mut Known,
    workspace: &mut Workspace,
    first: &Key,
) -> Result<Met, Memory>
    ghost start: { Key }
    requires asked { IsAsked setting.now.board.now lives.now start }
    requires known { IsKnown setting.now.board.now start limit known.old }
    requires reached { IsReached setting.now.board.now start first.now }
    requires workspace { IsWorkspace setting.now.board.now workspace.old }
    ensures workspace { OnOk result (IsWorkspace setting.now.board.now workspace.new) }
    ensures tells { IfOk result
        (TellsRun setting.now.board.now lives.now start limit first.now known.new) }
{
    match meet(alloc, setting, lives, limit, known, first)? {
        Met::On => expand_all(alloc, setting, lives, limit, known, workspace),
        Met::Ended => Ok(Met::Ended),
    }
}
