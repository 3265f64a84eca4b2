//! Finds a list of positions of some boxes alone that is closed under pushes.

ghost use Rattle.std.specs.Prelude.{◌≡◌, ◌≤◌, [], IfOk, IfNone, IfSome, OnOk, length};
ghost use Rattle.sok_board.specs.Area.{position_of};
ghost use Rattle.sok_region.specs.Regions.{IsPlaced};
ghost use Rattle.sok_state.specs.Keys.{IsKey, key_position};
ghost use Rattle.sok_alone.specs.GivenUp.{HasEnded, IsGivenUp};
ghost use Rattle.sok_alone.specs.Meeting.{AreClosedWithin, TellsAlone};
ghost use Rattle.sok_alone.specs.Workspace.{IsWorkspace};

use crate::expanding::run;
use crate::known::Known;
use crate::meeting::Met;
use crate::workspace::Workspace;
use sok_board::area::Sq;
use sok_board::box_set::BoxSet;
use sok_distance::setting::Setting;
use sok_entry::inners::Inners;
use sok_rules::fault::Memory;
use sok_state::key::Key;
use sok_state::table::Table;
use std::alloc::Global;

/// Finds a list of positions of these boxes alone on the board that is closed under pushes. The
/// first has the state of the given position. It is a breadth-first search over states, which does
/// not expand jams and crowds. Returns None if the boxes are solved in a state, or if more than
/// `limit` states are reached.
pub fn close_alone(
    alloc: Global,
    setting: &Setting<'_>,
    boxes: &BoxSet,
    player: Sq,
    limit: u32,
) -> Result<Option<Inners>, Memory>
    requires placed { IsPlaced setting.now.board.now boxes.now player }
    ensures closed { IfOk result (λ found. IfSome found
        (AreClosedWithin setting.now.board.now player boxes.now limit)) }
    ensures none { IfOk result (λ found. IfNone found
        (IsGivenUp setting.now.board.now.rows
        (position_of setting.now.board.now player boxes.now) limit)) }
{
    let own = boxes.copy(alloc)?;
    let lives = Table::new(alloc, setting.board.squares());
    let mut workspace = Workspace::new(alloc, setting.board);
    let first = workspace.normalizer.key(setting.board, own, player);
    let found = close_unless(alloc, setting, &lives, &mut workspace, &first, limit);
    lives.let_go();
    found
}

/// Like `close_alone`, but from a state. Also returns None if it reaches a state that is in `lives`
/// at depth 0. If those states are given up, so is this one.
pub(crate) fn close_unless(
    alloc: Global,
    setting: &Setting<'_>,
    lives: &Table,
    workspace: &mut Workspace,
    first: &Key,
    limit: u32,
) -> Result<Option<Inners>, Memory>
    requires room { length setting.now.board.now.area ≤ lives.now.room }
    requires workspace { IsWorkspace setting.now.board.now workspace.old }
    requires state { IsKey setting.now.board.now first.now }
    ensures workspace { OnOk result (IsWorkspace setting.now.board.now workspace.new) }
    ensures closed { IfOk result (λ found. IfSome found
        (AreClosedWithin setting.now.board.now first.now.least first.now.boxes limit)) }
    ensures none { IfOk result (λ found. IfNone found
        (HasEnded setting.now.board.now lives.now
        (key_position setting.now.board.now first.now) limit)) }
{
    let mut known = Known::new(alloc, setting.board.squares());
    let met = run_from(alloc, setting, lives, workspace, first, limit, &mut known);
    // The table is freed here once, and not at each exit.
    let Known { table, inner } = known;
    table.let_go();
    match met? {
        Met::On => Ok(Some(Inners::with_lines(alloc, inner)?)),
        Met::Ended => Ok(None),
    }
}

/// Runs a search from a state; `known` is empty.
fn run_from(
    alloc: Global,
    setting: &Setting<'_>,
    lives: &Table,
    workspace: &mut Workspace,
    first: &Key,
    limit: u32,
    known: &mut Known,
) -> Result<Met, Memory>
    requires room { length setting.now.board.now.area ≤ lives.now.room }
    requires workspace { IsWorkspace setting.now.board.now workspace.old }
    requires state { IsKey setting.now.board.now first.now }
    requires none { known.old.table.entries ≡ [] }
    requires no_inner { known.old.inner.items ≡ [] }
    requires wide { length setting.now.board.now.area ≤ known.old.table.room }
    ensures workspace { OnOk result (IsWorkspace setting.now.board.now workspace.new) }
    ensures tells { IfOk result
        (TellsAlone setting.now.board.now lives.now first.now.least first.now.boxes
        limit known.new.inner.items) }
{
    // Called for its clause that the boxes are few.
    let _squares = first.boxes.list();
    run(alloc, setting, lives, limit, known, workspace, first)
}
