//! Whether the boxes of a layout have a jam.

ghost use Rattle.std.specs.Prelude.{ℕ, List, ◌<◌, ◌↔◌, IsTrue, All, length};
ghost use Rattle.sok_board.specs.Area.{IsAccepted};
ghost use Rattle.sok_region.specs.Layouts.{IsLaidOut};
ghost use Rattle.sok_bar.specs.Jam.{HasJamWith};
ghost use Rattle.sok_bar.specs.Narrowed.{HasDrawnOffGoal, IsNarrowed, TellsPass, TellsTaken};

use crate::held::{Holders, is_drawn, is_held};
use sok_board::area::Sq;
use sok_board::board::Board;
use sok_distance::setting::Setting;
use sok_field::field::Field;
use sok_region::layout::Layout;

/// Returns whether the boxes of a layout have a jam with the box on a square: true exactly if
/// `find_frozen` finds one. Most boxes are not held where they stand, which settles it. Otherwise
/// boxes that are not held are removed until all are held. It allocates nothing.
pub fn has_jam(setting: &Setting<'_>, layout: &Layout, square: Sq) -> bool
    requires accepted { IsAccepted setting.now.board.now }
    requires exists { square < length setting.now.board.now.area }
    requires laid { (boxes : List ℕ) × IsLaidOut setting.now.board.now boxes layout.now }
    ensures { (boxes : List ℕ) → IsLaidOut setting.now.board.now boxes layout.now
        → IsTrue result ↔ HasJamWith setting.now.board.now boxes square }
{
    if !is_held(setting, &[], Holders::Drawn(layout.boxed()), square) {
        return false;
    }
    has_held_jam(setting, layout, square)
}

/// Like `has_jam`, for a box that is held by all boxes as they stand. It is a function of its own,
/// so that no set of squares has to be cleared for a box that is not held.
#[cold]
fn has_held_jam(setting: &Setting<'_>, layout: &Layout, square: Sq) -> bool
    requires accepted { IsAccepted setting.now.board.now }
    requires exists { square < length setting.now.board.now.area }
    requires laid { (boxes : List ℕ) × IsLaidOut setting.now.board.now boxes layout.now }
    ensures { (boxes : List ℕ) → IsLaidOut setting.now.board.now boxes layout.now
        → IsTrue result ↔ HasJamWith setting.now.board.now boxes square }
{
    let mut held = Field::new();
    held.copy_from(layout.boxed());
    narrow(setting, layout.boxes(), square, &mut held)
        && has_off_goal(setting.board, layout.boxes(), &held)
}

/// Removes boxes that are not held by those that are left, until all are held or the box on
/// `square` is removed. Returns whether that box is left.
fn narrow(setting: &Setting<'_>, boxes: &[Sq], square: Sq, held: &mut Field) -> bool
    requires accepted { IsAccepted setting.now.board.now }
    requires exist { All (λ square. square < length setting.now.board.now.area) boxes.now }
    requires exists { square < length setting.now.board.now.area }
    ensures { IsNarrowed setting.now.board.now boxes.now square held.old held.new result }
{
    'passes: loop {
        if !is_drawn(setting.board, held, square) {
            return false;
        }
        if !take_loose(setting, boxes, held) {
            return true;
        }
    }
}

/// Removes each box of a list that is not held by those that are left. Returns whether there was
/// one.
pub(crate) fn take_loose(setting: &Setting<'_>, boxes: &[Sq], held: &mut Field) -> bool
    requires accepted { IsAccepted setting.now.board.now }
    requires exist { All (λ square. square < length setting.now.board.now.area) boxes.now }
    ensures { TellsPass setting.now.board.now boxes.now
        (length boxes.now) held.old held.new result }
{
    let mut taken = false;
    for square in boxes {
        taken |= take_if_loose(setting, *square, held);
    }
    taken
}

/// Removes a box if it is not held by those that are left. Returns whether it was removed.
fn take_if_loose(setting: &Setting<'_>, square: Sq, held: &mut Field) -> bool
    requires accepted { IsAccepted setting.now.board.now }
    requires exists { square < length setting.now.board.now.area }
    ensures { TellsTaken setting.now.board.now square held.old held.new result }
{
    if !is_drawn(setting.board, held, square) {
        return false;
    }
    if is_held(setting, &[], Holders::Drawn(held), square) {
        return false;
    }
    held.take(setting.board.spot(square));
    true
}

/// Returns whether a box that is left stands off a goal.
fn has_off_goal(board: &Board, boxes: &[Sq], held: &Field) -> bool
    requires accepted { IsAccepted board.now }
    requires exist { All (λ square. square < length board.now.area) boxes.now }
    ensures { IsTrue result ↔ HasDrawnOffGoal board.now boxes.now held.now }
{
    for square in boxes {
        if is_drawn(board, held, *square) && !board.is_goal(*square) {
            return true;
        }
    }
    false
}
