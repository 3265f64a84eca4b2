//! Where the player can walk after a push, derived from the squares around its box.

ghost use Rattle.std.specs.Prelude.{ℕ, List, ◌≡◌, ◌<◌, IfSome, IsTrue, length};
ghost use Rattle.sok_rules.specs.declared.cell.Dir.{Dir};
ghost use Rattle.sok_board.specs.Area.{IsAccepted, position_of};
ghost use Rattle.sok_field.specs.Trails.{Leads};
ghost use Rattle.sok_state.specs.Around.{IsLedBeside, IsReachedBeside, IsStepping, TellsBeside};
ghost use Rattle.sok_state.specs.Around.{among};
ghost use Rattle.sok_state.specs.Keys.{IsKeyOf};
ghost use Rattle.sok_state.specs.Pushes.{ReachesFrom};

use crate::key::Key;
use crate::least::least_square;
use crate::push::Push;
use sok_board::area::Sq;
use sok_board::board::Board;
use sok_field::field::Field;
use sok_rules::cell::Dir;

/// Returns the least square that the player can walk to after a push that brought its box to `to`.
/// `free` holds the squares that the boxes leave free now, `reached` those that he reached before.
/// If the squares around the box suffice, the answer is derived from `reached`; otherwise it is
/// found by a flood, which overwrites `seen`.
pub(crate) fn least_after(
    board: &Board,
    key: &Key,
    push: Push,
    to: Sq,
    free: &Field,
    reached: &Field,
    seen: &mut Field,
) -> Sq
    requires accepted { IsAccepted board.now }
    requires stepping { (after : List ℕ)
        × IsStepping board.now key.now push to free.now reached.now after }
    ensures { (after : List ℕ)
        → IsStepping board.now key.now push to free.now reached.now after
        → IsKeyOf board.now (position_of board.now push.from after)
        (record { boxes = after; least = result }) }
{
    if keeps_reached(board, key.least, push, to, free, reached) {
        key.least.min(push.from)
    } else {
        least_square(board, free, seen, push.from)
    }
}

/// Turns `reached` from the squares that the player reached before such a push into those that he
/// reaches after it, and returns the least of them.
pub(crate) fn reach_after(
    board: &Board,
    key: &Key,
    push: Push,
    to: Sq,
    free: &Field,
    reached: &mut Field,
) -> Sq
    requires accepted { IsAccepted board.now }
    requires stepping { (after : List ℕ)
        × IsStepping board.now key.now push to free.now reached.old after }
    ensures key { (after : List ℕ)
        → IsStepping board.now key.now push to free.now reached.old after
        → IsKeyOf board.now (position_of board.now push.from after)
        (record { boxes = after; least = result }) }
    ensures reached { (after : List ℕ)
        → IsStepping board.now key.now push to free.now reached.old after
        → ReachesFrom board.now push.from after reached.new }
{
    if keeps_reached(board, key.least, push, to, free, reached) {
        reached.put(board.spot(push.from));
        reached.take(board.spot(to));
        key.least.min(push.from)
    } else {
        least_square(board, free, reached, push.from)
    }
}

/// Returns whether the squares around a pushed box show that the player's region only loses the
/// square that the box takes and gains the one that it left, and that the lost square is not its
/// least. False says nothing.
fn keeps_reached(
    board: &Board,
    least: Sq,
    push: Push,
    to: Sq,
    free: &Field,
    reached: &Field,
) -> bool
    requires accepted { IsAccepted board.now }
    requires from { push.from < length board.now.area }
    requires to { to < length board.now.area }
    ensures apart { IsTrue result → least ≡ to → ⊥ }
    ensures near { IsTrue result
        → (d : Dir) → IsReachedBeside board.now free.now reached.now push.from d }
    ensures round { IsTrue result → IsTrue (among board.now reached.now to)
        → (d : Dir) → IsLedBeside board.now free.now push.from to d }
{
    if least == to {
        return false;
    }
    opens_nothing(board, free, reached, push.from) && parts_nothing(board, free, reached, push, to)
}

/// Returns whether the player reached each free square beside `square`.
fn opens_nothing(board: &Board, free: &Field, reached: &Field, square: Sq) -> bool
    requires accepted { IsAccepted board.now }
    requires exists { square < length board.now.area }
    ensures { IsTrue result
        → (d : Dir) → IsReachedBeside board.now free.now reached.now square d }
{
    is_reached(board, free, reached, square, Dir::Left)
        && is_reached(board, free, reached, square, Dir::Up)
        && is_reached(board, free, reached, square, Dir::Right)
        && is_reached(board, free, reached, square, Dir::Down)
}

/// Returns whether the player reached the square on one side of `square`. True if it is not free.
fn is_reached(board: &Board, free: &Field, reached: &Field, square: Sq, side: Dir) -> bool
    requires accepted { IsAccepted board.now }
    requires exists { square < length board.now.area }
    ensures { IsTrue result → IsReachedBeside board.now free.now reached.now square side }
{
    match free_beside(board, free, square, side) {
        Some(beside) => reached.has(board.spot(beside)),
        None => true,
    }
}

/// Returns whether the player reaches each free square beside a pushed box past its corners. True
/// if he had not reached the square that it takes.
fn parts_nothing(board: &Board, free: &Field, reached: &Field, push: Push, to: Sq) -> bool
    requires accepted { IsAccepted board.now }
    requires from { push.from < length board.now.area }
    requires to { to < length board.now.area }
    ensures { IsTrue result → IsTrue (among board.now reached.now to)
        → (d : Dir) → IsLedBeside board.now free.now push.from to d }
{
    !reached.has(board.spot(to)) || is_led_around(board, free, push, to)
}

/// Returns whether the player reaches each free square beside a pushed box past its corners.
fn is_led_around(board: &Board, free: &Field, push: Push, to: Sq) -> bool
    requires accepted { IsAccepted board.now }
    requires from { push.from < length board.now.area }
    requires to { to < length board.now.area }
    ensures { IsTrue result → (d : Dir) → IsLedBeside board.now free.now push.from to d }
{
    is_led(board, free, push, to, Dir::Left)
        && is_led(board, free, push, to, Dir::Up)
        && is_led(board, free, push, to, Dir::Right)
        && is_led(board, free, push, to, Dir::Down)
}

/// Returns whether the player reaches the square on one side of a pushed box: past one corner of
/// the box, or past two to the square ahead of it. True if it is not free.
fn is_led(board: &Board, free: &Field, push: Push, to: Sq, side: Dir) -> bool
    requires accepted { IsAccepted board.now }
    requires from { push.from < length board.now.area }
    requires to { to < length board.now.area }
    ensures { IsTrue result → IsLedBeside board.now free.now push.from to side }
{
    let beside = free_beside(board, free, to, side);
    if beside.is_none() {
        return true;
    }
    if side != push.dir {
        return past_corner(board, free, push, side) == beside;
    }
    let (one, other) = across(side);
    past_corners(board, free, push, one) == beside
        || past_corners(board, free, push, other) == beside
}

/// Returns the two directions across `dir`.
fn across(dir: Dir) -> (Dir, Dir) {
    match dir {
        Dir::Left | Dir::Right => (Dir::Up, Dir::Down),
        Dir::Up | Dir::Down => (Dir::Left, Dir::Right),
    }
}

/// Returns the square that the player reaches past one corner of a pushed box: one step to `side`,
/// and one along the push. None if one of the two squares is not free.
fn past_corner(board: &Board, free: &Field, push: Push, side: Dir) -> Option<Sq>
    requires accepted { IsAccepted board.now }
    requires from { push.from < length board.now.area }
    ensures within { IfSome result (λ square. square < length board.now.area) }
    ensures leads { IfSome result (Leads board.now (among board.now free.now) push.from) }
{
    let corner = free_beside(board, free, push.from, side)?;
    free_beside(board, free, corner, push.dir)
}

/// Returns the square that the player reaches past two corners: one more step along the push, and
/// one back from the side. None if a square on the way is not free.
fn past_corners(board: &Board, free: &Field, push: Push, side: Dir) -> Option<Sq>
    requires accepted { IsAccepted board.now }
    requires from { push.from < length board.now.area }
    ensures { IfSome result (Leads board.now (among board.now free.now) push.from) }
{
    let beside = past_corner(board, free, push, side)?;
    let corner = free_beside(board, free, beside, push.dir)?;
    free_beside(board, free, corner, side.opposite())
}

/// Returns the square beside `square`, if it is free.
fn free_beside(board: &Board, free: &Field, square: Sq, dir: Dir) -> Option<Sq>
    requires accepted { IsAccepted board.now }
    requires exists { square < length board.now.area }
    ensures { TellsBeside board.now free.now square dir result }
{
    let beside = board.neighbour(square, dir)?;
    if free.has(board.spot(beside)) {
        Some(beside)
    } else {
        None
    }
}
