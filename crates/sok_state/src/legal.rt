//! The pushes that are legal from a state.

ghost use Rattle.std.specs.Prelude.{◌≡◌, ◌+◌, ◌*◌, ◌<◌, ◌≤◌, ◌↔◌, IfOk, OnOk, OnErr, IsTrue, All};
ghost use Rattle.std.specs.Prelude.{AllPairs, Contains, length, vec_capacity, vec_len};
ghost use Rattle.sok_board.specs.Area.{IsAccepted};
ghost use Rattle.sok_state.specs.declared.key.Key.{Key};
ghost use Rattle.sok_state.specs.declared.push.Push.{Push};
ghost use Rattle.sok_state.specs.Keys.{IsKey};
ghost use Rattle.sok_state.specs.Listing.{HasBeside, IsDrawn, Lists, place};
ghost use Rattle.sok_state.specs.Pushes.{IsLegal, IsOpened, Precedes};

use crate::key::Key;
use crate::push::Push;
use crate::scene::Scene;
use sok_board::area::Sq;
use sok_board::board::Board;
use sok_field::field::Field;
use sok_rules::cell::Dir;
use sok_rules::fault::Memory;
use std::alloc::Global;

/// Returns the pushes that are legal from some position of a state: by ascending squares of their
/// boxes, and for each box left, up, right and down. Errors: `Memory`.
pub fn pushes(alloc: Global, board: &Board, key: &Key) -> Result<Vec<Push>, Memory>
    requires { IsKey board.now key.now }
    ensures legal { IfOk result (λ pushes. All (IsLegal board.now key.now) pushes.items) }
    ensures whole { IfOk result (λ pushes. (push : Push)
        → IsLegal board.now key.now push → Contains pushes.items push) }
    ensures in_order { IfOk result (λ pushes. AllPairs Precedes pushes.items) }
{
    let mut scene = Scene::new(alloc, board);
    scene.open(board, key)?;
    let mut pushes = Vec::new(alloc);
    list_pushes(board, key, &scene, &mut pushes)?;
    Ok(pushes)
}

/// Replaces `pushes` with those that the function `pushes` returns, for a state that is loaded into
/// `scene`. It first reserves room for four pushes of each box. Errors: `Memory`; `pushes` then
/// stays as it was.
pub fn list_pushes(
    board: &Board,
    key: &Key,
    scene: &Scene,
    pushes: &mut Vec<Push>,
) -> Result<(), Memory>
    requires accepted { IsAccepted board.now }
    requires key { IsKey board.now key.now }
    requires opened { IsOpened board.now key.now scene.now }
    ensures legal { OnOk result (All (IsLegal board.now key.now) pushes.new.items) }
    ensures whole { OnOk result ((push : Push)
        → IsLegal board.now key.now push → Contains pushes.new.items push) }
    ensures in_order { OnOk result (AllPairs Precedes pushes.new.items) }
    ensures refused { OnErr result (pushes.new.items ≡ pushes.old.items) }
{
    let boxes = key.boxes.list();
    pushes.reserve(boxes.len() * 4)?;
    pushes.clear();
    let free = scene.layout.free();
    for from in boxes {
        list_box(board, free, &scene.reached, *from, pushes);
    }
    Ok(())
}

/// Appends the legal pushes of the box on `from`. `free` and `seen` are the squares that the boxes
/// leave free and those that the player reaches; the list has room for four pushes.
fn list_box(board: &Board, free: &Field, seen: &Field, from: Sq, pushes: &mut Vec<Push>)
    requires accepted { IsAccepted board.now }
    requires exists { from < length board.now.area }
    requires room { vec_len pushes.old + 4 ≤ vec_capacity pushes.old }
    ensures listed { (key : Key) → IsDrawn board.now key free.now seen.now
        → Contains key.boxes from → Lists board.now key (from * 4) pushes.old.items
        → Lists board.now key (from * 4 + 4) pushes.new.items }
    ensures few { vec_len pushes.new ≤ vec_len pushes.old + 4 }
    ensures capacity { vec_capacity pushes.old ≤ vec_capacity pushes.new }
{
    let dir = Dir::Left;
    list_push(board, free, seen, Push { from, dir }, pushes);
    let dir = Dir::Up;
    list_push(board, free, seen, Push { from, dir }, pushes);
    let dir = Dir::Right;
    list_push(board, free, seen, Push { from, dir }, pushes);
    let dir = Dir::Down;
    list_push(board, free, seen, Push { from, dir }, pushes);
}

/// Appends a push of a box if it is legal. The list has room for it.
fn list_push(board: &Board, free: &Field, seen: &Field, push: Push, pushes: &mut Vec<Push>)
    requires accepted { IsAccepted board.now }
    requires exists { push.from < length board.now.area }
    requires room { vec_len pushes.old < vec_capacity pushes.old }
    ensures listed { (key : Key) → IsDrawn board.now key free.now seen.now
        → Contains key.boxes push.from → Lists board.now key (place push) pushes.old.items
        → Lists board.now key (place push + 1) pushes.new.items }
    ensures few { vec_len pushes.new ≤ vec_len pushes.old + 1 }
    ensures capacity { vec_capacity pushes.old ≤ vec_capacity pushes.new }
{
    if is_legal(board, free, seen, push) {
        pushes.push(push).unwrap();
    }
}

/// Returns whether a push of a box is legal: the player reaches the square behind the box, and
/// ahead of it is neither a wall nor a box.
fn is_legal(board: &Board, free: &Field, seen: &Field, push: Push) -> bool
    requires accepted { IsAccepted board.now }
    requires exists { push.from < length board.now.area }
    ensures { (key : Key) → IsDrawn board.now key free.now seen.now
        → Contains key.boxes push.from → IsTrue result ↔ IsLegal board.now key push }
{
    has_beside(board, seen, push.from, push.dir.opposite())
        && has_beside(board, free, push.from, push.dir)
}

/// Returns whether the square beside `square` is in `set`.
fn has_beside(board: &Board, set: &Field, square: Sq, dir: Dir) -> bool
    requires accepted { IsAccepted board.now }
    requires exists { square < length board.now.area }
    ensures { IsTrue result ↔ HasBeside board.now set.now square dir }
{
    match board.neighbour(square, dir) {
        Some(beside) => set.has(board.spot(beside)),
        None => false,
    }
}
