//! Whether pushes are shut, and whether a box is astray. This is what the proof rests on.

ghost use Rattle.std.specs.Prelude.{ℕ, ◌<◌, IsTrue, All, Contains, length};
ghost use Rattle.sok_rules.specs.declared.cell.Dir.{Dir};
ghost use Rattle.sok_board.specs.Area.{IsAccepted};
ghost use Rattle.sok_region.specs.Layouts.{IsLaidOut};
ghost use Rattle.sok_state.specs.declared.key.Key.{Key};
ghost use Rattle.sok_state.specs.Pushes.{IsOpened};
ghost use Rattle.sok_corral.specs.Fences.{NeverAfter, Roams};
ghost use Rattle.sok_corral.specs.Fencing.{AreShutAlong, IsAstray, IsLone, IsShut, TellsShut};

use crate::lone::Lone;
use crate::sets::has;
use sok_bar::layout_jam::has_jam;
use sok_board::area::Sq;
use sok_board::board::Board;
use sok_distance::setting::Setting;
use sok_field::field::Field;
use sok_region::layout::Layout;
use sok_rules::cell::Dir;
use sok_state::key::Key;
use sok_state::scene::Scene;

pub(crate) const DIRS: [Dir; 4] = [Dir::Left, Dir::Up, Dir::Right, Dir::Down];

/// Returns whether one of these boxes, alone on the board, is pushed into a jam of them. The push is
/// made in `layout` and taken back.
fn is_jammed(setting: &Setting<'_>, lone: &Lone, layout: &mut Layout, from: Sq, to: Sq) -> bool
    requires accepted { IsAccepted setting.now.board.now }
    requires there { Contains lone.now.boxes.items from }
    requires to { to < length setting.now.board.now.area }
    requires lone { (key : Key) × IsLone setting.now.board.now key lone.now }
    requires laid { IsLaidOut setting.now.board.now lone.now.boxes.items layout.old }
    ensures laid { IsLaidOut setting.now.board.now lone.now.boxes.items layout.new }
    ensures jammed { (key : Key) → IsLone setting.now.board.now key lone.now → IsTrue result
        → (man : ℕ) → NeverAfter setting.now.board.now key.least key.boxes lone.now.boxes.items man from to }
{
    if has(setting.board, layout.boxed(), to) {
        return false;
    }
    layout.shift(setting.board, from, to);
    let jammed = has_jam(setting, layout, to);
    layout.shift(setting.board, to, from);
    jammed
}

/// Returns whether a push of a fence's box is blocked by a box that stays, or leads to no solution, or
/// leads out of the player's squares and can be made now.
fn is_shut(
    setting: &Setting<'_>,
    scene: &Scene,
    lone: &Lone,
    layout: &mut Layout,
    man: Sq,
    from: Sq,
    to: Sq,
) -> bool
    requires accepted { IsAccepted setting.now.board.now }
    requires man { man < length setting.now.board.now.area }
    requires there { Contains lone.now.boxes.items from }
    requires to { to < length setting.now.board.now.area }
    requires lone { (key : Key) × IsLone setting.now.board.now key lone.now }
    requires laid { IsLaidOut setting.now.board.now lone.now.boxes.items layout.old }
    ensures laid { IsLaidOut setting.now.board.now lone.now.boxes.items layout.new }
    ensures shut { (key : Key) → IsOpened setting.now.board.now key scene.now
        → IsLone setting.now.board.now key lone.now → IsTrue result
        → from < length setting.now.board.now.area
        → Roams setting.now.board.now key.least lone.now.boxes.items man
        → IsShut setting.now.board.now key lone.now.boxes.items man from to }
{
    let board = setting.board;
    if setting.distances.stuck(to) {
        return true;
    }
    if !has(board, &lone.reached, man) {
        return true;
    }
    if !has(board, &lone.reached, to) {
        if has(board, scene.layout.boxed(), to) {
            return true;
        }
        if has(board, &scene.reached, man) {
            return true;
        }
    }
    is_jammed(setting, lone, layout, from, to)
}

/// What a look at the pushes of some boxes finds.
#[derive(Clone, Copy)]
pub(crate) enum Finding {
    /// Each of their pushes is shut.
    Shut,
    /// A push is not. It may be if boxes shut the player out from the first square, or else from the
    /// second one.
    Ajar(Sq, Sq),
}

/// Looks at the push of a box in one direction.
fn look_along(
    setting: &Setting<'_>,
    scene: &Scene,
    lone: &Lone,
    layout: &mut Layout,
    from: Sq,
    dir: Dir,
) -> Finding
    requires accepted { IsAccepted setting.now.board.now }
    requires exists { from < length setting.now.board.now.area }
    requires there { Contains lone.now.boxes.items from }
    requires lone { (key : Key) × IsLone setting.now.board.now key lone.now }
    requires laid { IsLaidOut setting.now.board.now lone.now.boxes.items layout.old }
    ensures laid { IsLaidOut setting.now.board.now lone.now.boxes.items layout.new }
    ensures shut { TellsShut setting.now.board.now
        (AreShutAlong setting.now.board.now scene.now lone.now from dir) result }
{
    let board = setting.board;
    let Some(man) = board.neighbour(from, dir.opposite()) else {
        return Finding::Shut;
    };
    let Some(to) = board.neighbour(from, dir) else {
        return Finding::Shut;
    };
    if is_shut(setting, scene, lone, layout, man, from, to) {
        return Finding::Shut;
    }
    let comes = has(board, &scene.reached, man);
    let leaves = has(board, &lone.reached, to);
    if !leaves || has(board, &scene.reached, to) {
        return Finding::Ajar(man, man);
    }
    Finding::Ajar(to, if comes { to } else { man })
}

/// Looks at each push of some boxes of a state that are laid out alone.
pub(crate) fn look(
    setting: &Setting<'_>,
    scene: &Scene,
    lone: &Lone,
    layout: &mut Layout,
) -> Finding
    requires accepted { IsAccepted setting.now.board.now }
    requires exist { All (λ n. n < length setting.now.board.now.area) lone.now.boxes.items }
    requires lone { (key : Key) × IsLone setting.now.board.now key lone.now }
    requires laid { IsLaidOut setting.now.board.now lone.now.boxes.items layout.old }
    ensures laid { IsLaidOut setting.now.board.now lone.now.boxes.items layout.new }
    ensures shut { TellsShut setting.now.board.now
        (All (λ from. (d : Dir) → AreShutAlong setting.now.board.now scene.now lone.now from d)
        lone.now.boxes.items) result }
{
    for from in &lone.boxes {
        for dir in DIRS {
            match look_along(setting, scene, lone, layout, *from, dir) {
                Finding::Shut => {}
                Finding::Ajar(first, second) => return Finding::Ajar(first, second),
            }
        }
    }
    Finding::Shut
}

/// Returns whether some box outside a set of squares is off a goal.
pub(crate) fn is_astray(board: &Board, boxes: &[Sq], reached: &Field) -> bool
    requires accepted { IsAccepted board.now }
    requires exist { All (λ square. square < length board.now.area) boxes.now }
    ensures { IsTrue result → (s : ℕ) × IsAstray board.now boxes.now reached.now s }
{
    for square in boxes {
        if !board.is_goal(*square) && !has(board, reached, *square) {
            return true;
        }
    }
    false
}
