//! The layout of a state's boxes over the squares of the area.

ghost use Rattle.std.specs.Prelude.{ℕ, List, ◌≡◌, ◌<◌, ◌↔◌, ◌⊎◌, [], OnErr, OnOk, IsTrue, All, Contains};
ghost use Rattle.std.specs.Prelude.{◌==◌, if◌then◌else◌, length};
ghost use Rattle.sok_rules.specs.declared.cell.Spot.{Spot};
ghost use Rattle.sok_board.specs.Area.{IsAccepted, spot_of};
ghost use Rattle.sok_field.specs.Fields.{has};
ghost use Rattle.sok_field.specs.Numbers.{Draws};
ghost use Rattle.sok_board.specs.BoxSets.{IsMoved};
ghost use Rattle.sok_region.specs.Layouts.{IsLaidOut, replaced};

use sok_board::area::Sq;
use sok_board::board::Board;
use sok_field::drawing;
use sok_field::field::Field;
use sok_rules::fault::Memory;
use std::alloc::Global;
use std::marker::Model;

/// The boxes of a state, and the sets of squares that they take and leave free. It is built once
/// for a state, and changed in place by a push and back.
#[derive(Drop)]
pub struct Layout {
    area: Field,
    free: Field,
    boxed: Field,
    boxes: Vec<Sq>,
}

impl Model for Layout {
    ghost use Rattle.sok_region.specs.Layouts.{Laid};

    ghost Value = { Laid };

    ghost view = { λ layout. record {
      area = layout.area;
      free = layout.free;
      boxed = layout.boxed;
      boxes = layout.boxes.items;
    } };
}

impl Layout {
    /// Returns a layout without boxes. It keeps the allocator for the list of boxes.
    pub fn new(alloc: Global, board: &Board) -> Layout
        ensures laid { IsLaidOut board.now [] result }
        ensures accepted { IsAccepted board.now }
    {
        Layout {
            area: drawing::area(board),
            free: drawing::free_squares(board, &[]),
            boxed: Field::new(),
            boxes: Vec::new(alloc),
        }
    }

    /// Replaces the boxes with others. It first reserves room for their list. Errors: `Memory`;
    /// then the layout stays as it was.
    pub fn lay(&mut self, board: &Board, boxes: &[Sq]) -> Result<(), Memory>
        requires accepted { IsAccepted board.now }
        requires exist { All (λ square. square < length board.now.area) boxes.now }
        requires laid { (before : List ℕ) × IsLaidOut board.now before self.old }
        ensures laid { OnOk result (IsLaidOut board.now boxes.now self.new) }
        ensures refused { OnErr result (self.new ≡ self.old) }
    {
        self.boxes.reserve(boxes.len())?;
        self.boxes.clear();
        self.boxes.extend_from_slice(boxes).unwrap();
        self.free.copy_from(&self.area);
        drawing::take_boxes(&mut self.free, board, boxes);
        self.boxed.clear();
        put_boxes(&mut self.boxed, board, boxes);
        Ok(())
    }

    /// Returns the boxes, in any order.
    pub fn boxes(&self) -> &[Sq]
        ensures { result.now ≡ self.now.boxes }
    {
        &self.boxes
    }

    /// Returns the squares of the boxes.
    pub fn boxed(&self) -> &Field
        ensures { result.now ≡ self.now.boxed }
    {
        &self.boxed
    }

    /// Returns the squares that the boxes leave free.
    pub fn free(&self) -> &Field
        ensures { result.now ≡ self.now.free }
    {
        &self.free
    }

    /// Moves a box from one square to another.
    pub fn shift(&mut self, board: &Board, from: Sq, to: Sq)
        requires accepted { IsAccepted board.now }
        requires from { from < length board.now.area }
        requires to { to < length board.now.area }
        ensures { (boxes after : List ℕ) → IsLaidOut board.now boxes self.old
            → Contains boxes from → (Contains boxes to → ⊥) → IsMoved boxes from to after
            → IsLaidOut board.now after self.new }
    {
        put(&mut self.free, board, from);
        take(&mut self.free, board, to);
        take(&mut self.boxed, board, from);
        put(&mut self.boxed, board, to);
        replace(&mut self.boxes, from, to);
    }
}

/// Puts the squares of boxes into an empty set.
pub fn put_boxes(field: &mut Field, board: &Board, boxes: &[Sq])
    requires accepted { IsAccepted board.now }
    requires exist { All (λ square. square < length board.now.area) boxes.now }
    requires empty { Draws board.now (Contains []) field.old }
    ensures { Draws board.now (Contains boxes.now) field.new }
{
    for square in boxes {
        put(field, board, *square);
    }
}

/// Puts a square of the area into a set.
pub fn put(field: &mut Field, board: &Board, square: Sq)
    requires accepted { IsAccepted board.now }
    requires exists { square < length board.now.area }
    ensures { (s : Spot)
        → IsTrue (has field.new s) ↔ ((s ≡ spot_of board.now square) ⊎ IsTrue (has field.old s)) }
{
    field.put(board.spot(square));
}

/// Removes a square of the area from a set.
fn take(field: &mut Field, board: &Board, square: Sq)
    requires accepted { IsAccepted board.now }
    requires exists { square < length board.now.area }
    ensures { (s : Spot) → IsTrue (has field.new s)
        ↔ ((s ≡ spot_of board.now square → ⊥) × IsTrue (has field.old s)) }
{
    field.take(board.spot(square));
}

/// Replaces one square with another in a list.
fn replace(squares: &mut [Sq], from: Sq, to: Sq)
    ensures { squares.new ≡ replaced from to squares.old }
{
    for square in squares.iter_mut() {
        *square = replaced(*square, from, to);
    }
}

/// Returns `to` for `from`, and any other square itself.
fn replaced(square: Sq, from: Sq, to: Sq) -> Sq
    ensures { result ≡ (if square == from then to else square) }
{
    if square == from { to } else { square }
}
