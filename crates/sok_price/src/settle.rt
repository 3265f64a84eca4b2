//! The rows of a matching, exchanged until they are those of some boxes.

ghost use Rattle.std.specs.Prelude.{
  ◌≡◌,
  ◌<◌,
  ◌≤◌,
  None,
  All,
  Contains,
  IsTrue,
  false,
  MatchOption,
  length,
};
ghost use Rattle.std.specs.List.Sorted.{IsStrictlyIncreasing};
ghost use Rattle.sok_board.specs.Area.{BoardView};
ghost use Rattle.sok_price.specs.Kept.{
  AreExactly,
  AreListed,
  AreMarksOf,
  AreOf,
  AreSet,
  AreTabled,
  CanSettle,
  IsBounded,
  IsChange,
  IsSettled,
  IsShaped,
};

use crate::costs::Costs;
use crate::exchange::exchange;
use crate::search::{PathSearch, match_anew};
use sok_board::area::Sq;

/// The highest floor from which a row is exchanged. Above it, all boxes are matched from nothing.
const FLOOR_LIMIT: u32 = 268_435_456;

/// Marks the squares of some boxes, and no others.
fn mark_boxes(boxes: &[Sq], marks: &mut [bool])
    requires { All (λ square. square < length marks.old) boxes.now }
    ensures { AreMarksOf marks.new boxes.now (length boxes.now) }
{
    marks.fill(false);
    for square in boxes {
        marks[*square as usize] = true;
    }
}

/// Marks the squares of the rows that are not spare, and no others.
fn mark_rows(rows: &[usize], marks: &mut [bool])
    ensures { AreMarksOf marks.new rows.now (length rows.now) }
{
    marks.fill(false);
    for row in rows {
        if *row < marks.len() {
            marks[*row] = true;
        }
    }
}

/// Returns the index of a row whose box is gone.
fn stale(rows: &[usize], boxes: &[Sq], marks: &mut [bool]) -> Option<usize>
    requires { All (λ square. square < length marks.old) boxes.now }
    ensures { MatchOption result (AreOf (length marks.old) rows.now boxes.now)
        (λ row. row < length rows.now) }
{
    mark_boxes(boxes, marks);
    for (k, row) in rows.iter().enumerate() {
        if *row < marks.len() && !marks[*row] {
            return Some(k);
        }
    }
    None
}

/// Returns the square of a box that has no row yet.
fn missing(rows: &[usize], boxes: &[Sq], marks: &mut [bool]) -> Option<usize>
    requires { All (λ square. square < length marks.old) boxes.now }
    ensures { MatchOption result (All (Contains rows.now) boxes.now)
        (λ square. Contains boxes.now square × (Contains rows.now square → ⊥)) }
{
    mark_rows(rows, marks);
    for square in boxes {
        if !marks[*square as usize] {
            return Some(*square as usize);
        }
    }
    None
}

/// Returns the index of a spare row, or 0 if none is spare.
fn spare(rows: &[usize], squares: usize) -> usize
    requires { 0 < length rows.now }
    ensures { result < length rows.now }
{
    for (k, row) in rows.iter().enumerate() {
        if *row == squares {
            return k;
        }
    }
    0
}

/// Returns the index of the next row to exchange, and the row that replaces it. None if the rows
/// are those of the boxes.
fn change(
    rows: &[usize],
    boxes: &[Sq],
    squares: usize,
    marks: &mut [bool],
) -> Option<(usize, usize)>
    requires some { 0 < length rows.now }
    requires marks { length marks.old ≡ squares }
    requires exist { All (λ square. square < squares) boxes.now }
    ensures { MatchOption result (AreExactly squares rows.now boxes.now)
        (λ change. IsChange squares rows.now change.0 change.1) }
{
    match (stale(rows, boxes, marks), missing(rows, boxes, marks)) {
        (None, None) => None,
        (Some(row), None) => Some((row, squares)),
        (Some(row), Some(square)) => Some((row, square)),
        (None, Some(square)) => Some((spare(rows, squares), square)),
    }
}

/// Lists the rows of some boxes in order, followed by spare rows.
fn list_rows(squares: usize, boxes: &[Sq], rows: &mut Vec<usize>)
    requires { length boxes.now ≤ length rows.old.items }
    ensures { AreListed squares (length rows.old.items) boxes.now rows.new.items }
{
    rows.fill(squares);
    for (k, square) in boxes.iter().enumerate() {
        rows[k] = *square as usize;
    }
}

/// Exchanges the rows of a matching until they are those of some boxes. Returns false if there is
/// no matching, if a price grew too high, or if the boxes have a crowd after one of the exchanges.
fn settle(
    squares: usize,
    boxes: &[Sq],
    matched: bool,
    marks: &mut [bool],
    costs: &Costs,
    rows: &mut Vec<usize>,
    search: &mut PathSearch,
) -> bool
    requires { CanSettle squares boxes.now matched marks.old costs.now rows.old.items search.old }
    ensures kept { AreSet squares costs.now rows.old.items rows.new.items }
    ensures shaped { IsShaped (length rows.new.items) costs.now.goals search.new }
    ensures settled { IsTrue result
        → IsSettled squares boxes.now costs.now rows.new.items search.new }
{
    if !matched || rows.is_empty() {
        return false;
    }
    'setting: for _ in 0..rows.len() + 1 {
        if search.floor > FLOOR_LIMIT {
            return false;
        }
        match change(rows, boxes, squares, marks) {
            None => return true,
            Some((row, entry)) => {
                if !exchange(row, entry, costs, rows, search) {
                    return false;
                }
            }
        }
    }
    false
}

/// Matches some boxes, if possible from the present matching: rows of boxes that are still there
/// stay, and each of the others is matched anew by one augmenting path. Otherwise it matches all
/// boxes from nothing. Returns false if they have a crowd.
pub(crate) fn match_boxes(
    squares: usize,
    boxes: &[Sq],
    matched: bool,
    marks: &mut [bool],
    costs: &Costs,
    rows: &mut Vec<usize>,
    search: &mut PathSearch,
) -> bool
    requires can { CanSettle squares boxes.now matched marks.old costs.now rows.old.items
        search.old }
    requires square { length rows.old.items ≡ costs.now.goals }
    requires enough { length boxes.now ≤ length rows.old.items }
    requires rising { IsStrictlyIncreasing boxes.now }
    ensures kept { AreSet squares costs.now rows.old.items rows.new.items }
    ensures shaped { IsShaped (length rows.new.items) costs.now.goals search.new }
    ensures settled { IsTrue result
        → IsSettled squares boxes.now costs.now rows.new.items search.new }
    ensures crowd { result ≡ false → (b : BoardView) → length b.area ≡ squares
        → AreTabled b costs.now.goals costs.now.entries.items → IsBounded b boxes.now None }
{
    if settle(squares, boxes, matched, marks, costs, rows, search) {
        return true;
    }
    list_rows(squares, boxes, rows);
    match_anew(costs, rows, search)
}
