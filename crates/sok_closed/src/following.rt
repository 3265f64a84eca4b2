//! Whether the pushes of a state lead to states of a table.

ghost use Rattle.std.specs.Prelude.{ℕ, List, ◌≤◌, IfOk, OnOk, All, length};
ghost use Rattle.sok_board.specs.Area.{IsAccepted};
ghost use Rattle.sok_board.specs.Limits.{box_limit};
ghost use Rattle.sok_region.specs.Layouts.{IsLaidOut};
ghost use Rattle.sok_state.specs.Keys.{IsKey};
ghost use Rattle.sok_state.specs.Pushes.{IsLegal, IsOpened, IsPushable};
ghost use Rattle.sok_state.specs.Tables.{HasDistinctKeys, IsAt};
ghost use Rattle.sok_closed.specs.Lookup.{TellsFound, TellsFirst, TellsOpen};

use sok_board::board::Board;
use sok_rules::fault::Memory;
use sok_state::expansion::Expansion;
use sok_state::key::Key;
use sok_state::push::Push;
use sok_state::scene::Scene;
use sok_state::stepping::square_ahead;
use sok_state::table::Table;

/// Returns whether a push from the state at `index` leads to a state in the table that is at most
/// one deeper.
fn is_found(
    board: &Board,
    table: &Table,
    index: usize,
    key: &Key,
    depth: u32,
    push: Push,
    scene: &mut Scene,
) -> bool
    requires accepted { IsAccepted board.now }
    requires there { IsAt table.now.entries key.now index }
    requires pushable { IsPushable board.now push scene.old key.now }
    requires distinct { HasDistinctKeys table.now.entries }
    requires wide { length board.now.area ≤ table.now.room }
    ensures opened { IsOpened board.now key.now scene.new }
    ensures found { TellsFound board.now table.now.entries key.now depth push result }
{
    let to = square_ahead(board, push);
    let least = scene.step(board, key, push, to);
    match table.get_next(index, push.from, to, least) {
        Some(at) => u64::from(table.depth(at)) <= u64::from(depth) + 1,
        None => false,
    }
}

/// Returns the index of the first of these pushes from the state at `index` that leads to no state
/// in the table, or to one that is more than one deeper.
fn first_missing(
    board: &Board,
    table: &Table,
    index: usize,
    key: &Key,
    depth: u32,
    pushes: &[Push],
    scene: &mut Scene,
) -> Option<usize>
    requires accepted { IsAccepted board.now }
    requires there { IsAt table.now.entries key.now index }
    requires key { IsKey board.now key.now }
    requires few { length key.now.boxes ≤ box_limit }
    requires legal { All (IsLegal board.now key.now) pushes.now }
    requires opened { IsOpened board.now key.now scene.old }
    requires distinct { HasDistinctKeys table.now.entries }
    requires wide { length board.now.area ≤ table.now.room }
    ensures opened { IsOpened board.now key.now scene.new }
    ensures first { TellsFirst board.now table.now.entries key.now depth pushes.now result }
{
    for (place, push) in pushes.iter().enumerate() {
        if !is_found(board, table, index, key, depth, *push, scene) {
            return Some(place);
        }
    }
    None
}

/// Returns the first legal push from the state at `index` that leads to no state in the table, or
/// to one that is more than one deeper.
pub(crate) fn open_push(
    board: &Board,
    table: &Table,
    index: usize,
    key: &Key,
    depth: u32,
    expansion: &mut Expansion,
) -> Result<Option<Push>, Memory>
    requires accepted { IsAccepted board.now }
    requires there { IsAt table.now.entries key.now index }
    requires key { IsKey board.now key.now }
    requires few { length key.now.boxes ≤ box_limit }
    requires distinct { HasDistinctKeys table.now.entries }
    requires wide { length board.now.area ≤ table.now.room }
    requires laid { (boxes : List ℕ) × IsLaidOut board.now boxes expansion.old.scene.layout }
    ensures laid { OnOk result
        ((boxes : List ℕ) × IsLaidOut board.now boxes expansion.new.scene.layout) }
    ensures first { IfOk result (TellsOpen board.now table.now.entries key.now depth) }
{
    expansion.open(board, key)?;
    match first_missing(
        board,
        table,
        index,
        key,
        depth,
        &expansion.pushes,
        &mut expansion.scene,
    ) {
        Some(place) => Ok(Some(expansion.pushes[place])),
        None => Ok(None),
    }
}
