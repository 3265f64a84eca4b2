//! The letters of a list of pushes, with the walks between them.

ghost use Rattle.std.specs.Prelude.{◌<◌, IfOk, length};
ghost use Rattle.sok_board.specs.Area.{IsAccepted, position_of};
ghost use Rattle.sok_rules.specs.States.{Same};
ghost use Rattle.sok_state.specs.Keys.{IsKey};
ghost use Rattle.sok_state.specs.Pushes.{IsLegal, IsOpened};
ghost use Rattle.sok_search.specs.Walkthroughs.{GoesOn, IsAtStart, FollowsPush, IsWalkthrough};
ghost use Rattle.sok_search.specs.Walkthroughs.{IsSolvedWith, IsSolvingTrace};

use sok_board::area::Sq;
use sok_board::board::Board;
use sok_region::region::Region;
use sok_rules::cell::Dir;
use sok_rules::fault::Memory;
use sok_state::key::Key;
use sok_state::push::Push;
use sok_state::scene::Scene;
use std::alloc::Global;

/// Letters from the start, the state that they lead to, and the player's square there.
#[derive(Drop)]
pub(crate) struct Walkthrough {
    pub(crate) key: Key,
    pub(crate) player: Sq,
    pub(crate) letters: Vec<Dir>,
}

/// Returns letters that make the pushes of a trace, whose last push comes first.
pub(crate) fn letters(alloc: Global, board: &Board, trace: Vec<Push>) -> Result<Vec<Dir>, Memory>
    requires { IsSolvingTrace board.now trace.items }
    ensures { IfOk result (λ letters. IsSolvedWith board.now (length trace.items) letters.items) }
{
    // Called for its clauses: the level is accepted.
    let _level = board.level();
    let mut walkthrough = begin(alloc, board)?;
    let mut scene = Scene::new(alloc, board);
    scene.open(board, &walkthrough.key)?;
    let mut rest = trace;
    while let Some(push) = rest.pop() {
        walkthrough = follow(alloc, board, &mut scene, walkthrough, push)?;
    }
    let Walkthrough {
        key: _,
        player: _,
        letters,
    } = walkthrough;
    Ok(letters)
}

/// Returns no letters, at the start.
fn begin(alloc: Global, board: &Board) -> Result<Walkthrough, Memory>
    ensures { IfOk result (IsAtStart board.now) }
{
    let key = Key::start(alloc, board)?;
    let (player, _boxes) = board.start();
    Ok(Walkthrough {
        key,
        player,
        letters: Vec::new(alloc),
    })
}

/// Appends a walk to the square behind a box and a push of it, in the state that is laid out.
fn follow(
    alloc: Global,
    board: &Board,
    scene: &mut Scene,
    walkthrough: Walkthrough,
    push: Push,
) -> Result<Walkthrough, Memory>
    requires accepted { IsAccepted board.now }
    requires walkthrough { IsWalkthrough board.now walkthrough }
    requires legal { IsLegal board.now walkthrough.key push }
    requires opened { IsOpened board.now walkthrough.key scene.old }
    ensures followed { IfOk result (FollowsPush board.now walkthrough push) }
    ensures opened { IfOk result (λ after. IsOpened board.now after.key scene.new) }
{
    let Walkthrough {
        key,
        player,
        letters,
    } = walkthrough;
    let letters = go(alloc, board, &key, player, push, letters)?;
    // Listed for its clauses: the boxes are few.
    let _boxes = key.boxes.list();
    let key = scene.follow(alloc, board, &key, push)?;
    Ok(Walkthrough {
        key,
        player: push.from,
        letters,
    })
}

/// Appends a walk to the square behind a box and a push of it.
fn go(
    alloc: Global,
    board: &Board,
    key: &Key,
    player: Sq,
    push: Push,
    mut letters: Vec<Dir>,
) -> Result<Vec<Dir>, Memory>
    requires key { IsKey board.now key.now }
    requires exists { player < length board.now.area }
    requires same { Same board.now.rows (position_of board.now key.now.least key.now.boxes)
        (position_of board.now player key.now.boxes) }
    requires legal { IsLegal board.now key.now push }
    ensures { IfOk result (λ after.
        GoesOn board.now key.now player push letters.items after.items) }
{
    let region = Region::of(alloc, board, &key.boxes, key.least)?;
    let behind = board.neighbour(push.from, push.dir.opposite()).unwrap();
    let walk = region.walk(alloc, board, player, behind)?.unwrap();
    letters.extend_from_slice(&walk)?;
    letters.push(push.dir)?;
    Ok(letters)
}
