//! A matching that is kept from one set of boxes to the next.

ghost use Rattle.std.specs.Prelude.{
  ℕ,
  List,
  ◌≡◌,
  ◌<◌,
  ◌≤◌,
  vec_capacity,
  All,
  IfOk,
  IfSome,
  IsTrue,
  None,
  false,
  length,
  replicate,
  slice_index,
};
ghost use Rattle.std.specs.List.Sorted.{IsStrictlyIncreasing};
ghost use Rattle.sok_board.specs.Area.{BoardView};
ghost use Rattle.sok_board.specs.BoxSets.{IsMoved};
ghost use Rattle.sok_board.specs.Limits.{box_limit};
ghost use Rattle.sok_price.specs.Kept.{IsBounded};
ghost use Rattle.sok_price.specs.Matches.{IsMatch};
ghost use Rattle.sok_price.specs.Matched.{
  CanMove,
  Holds,
  IsCopied,
  IsMatchedTo,
  Serves,
  TellsLeast,
};

use crate::assign::{Match, assign_rows};
use crate::costs::Costs;
use crate::exchange::exchange;
use crate::reading::{read, row_of};
use crate::search::{PathSearch, worth};
use crate::settle::match_boxes;
use sok_board::area::Sq;
use sok_board::box_set::BoxSet;
use sok_distance::setting::Setting;
use sok_rules::fault::Memory;
use std::alloc::Global;
use std::marker::Model;

/// A minimum assignment of boxes to goals with prices that prove it, kept from one set of boxes to
/// the next. There is a row for each goal of the board; rows without a box are spare and cost
/// nothing. `set` and `bound_after` allocate nothing.
#[derive(Drop)]
pub struct Matching {
    squares: usize,
    costs: Costs,
    rows: Vec<usize>,
    search: PathSearch,
    matched: bool,
    trial: PathSearch,
    trial_rows: Vec<usize>,
    marks: Vec<bool>,
}

impl Model for Matching {
    ghost use Rattle.sok_price.specs.Matched.{KeptMatching, IsSound};

    ghost Value = { KeptMatching };

    ghost view = { λ m. record {
      squares = m.squares;
      costs = m.costs;
      rows = m.rows.items;
      search = m.search;
      matched = m.matched;
    } };

    ghost invariant = { λ m. IsSound m.squares m.costs m.rows.items m.search m.matched
        m.trial m.trial_rows.items m.marks.items };
}

impl Matching {
    /// Returns a matching for a board, with no boxes matched yet. Errors: `Memory`.
    pub fn new(alloc: Global, setting: &Setting<'_>) -> Result<Matching, Memory>
        ensures serves { IfOk result (Serves setting.now.board.now) }
    {
        let goals = setting.distances.goals();
        let squares = setting.board.squares();
        Ok(Matching {
            squares,
            costs: Costs::tabled(alloc, setting.distances, goals, squares)?,
            rows: spare_rows(alloc, goals, squares)?,
            search: PathSearch::new(alloc, goals, goals)?,
            matched: false,
            trial: PathSearch::new(alloc, goals, goals)?,
            trial_rows: vec![in alloc; squares; goals]?,
            marks: vec![in alloc; false; squares]?,
        })
    }

    /// Matches some boxes and returns the least total of their distances to goals of their own.
    /// None if they have a crowd. Boxes that were matched before stay matched if possible; each of
    /// the others takes one augmenting path.
    pub fn set(&mut self, boxes: &BoxSet) -> Option<u32>
        requires exist { All (λ square. square < self.old.squares) boxes.now }
        ensures serves { (b : BoardView) → Serves b self.old → Serves b self.new }
        ensures least { (b : BoardView) → Serves b self.old → TellsLeast b boxes.now result }
        ensures holds { (b : BoardView) → Serves b self.old
            → IfSome result (λ _. Holds b boxes.now self.new) }
    {
        if !self.match_to(boxes.list()) {
            return None;
        }
        Some(worth(&self.search))
    }

    /// Returns the least total after the box on `from` moves to `to`, where no box is; it takes one
    /// augmenting path. None if the boxes then have a crowd. The matching and its prices stay as
    /// they are.
    pub fn bound_after(&mut self, from: Sq, to: Sq) -> Option<u32>
        requires moves { CanMove self.old from to }
        ensures same { self.new ≡ self.old }
        ensures least { (b : BoardView) (boxes after : List ℕ) → Holds b boxes self.old
            → IsMoved boxes from to after → All (λ square. square < length b.area) after
            → IsStrictlyIncreasing after → TellsLeast b after result }
    {
        let row = row_of(&self.rows, from as usize);
        self.trial_rows.copy_from_slice(&self.rows);
        copy_matching(&self.search, &mut self.trial);
        let rows = &mut self.trial_rows;
        let matched = exchange(row, to as usize, &self.costs, rows, &mut self.trial);
        if matched {
            Some(worth(&self.trial))
        } else {
            None
        }
    }

    /// Finds a minimum assignment of some boxes with prices that prove it, or a crowd of them, like
    /// the function `assign`. The boxes are matched as by `set`, so the prices may differ from
    /// those of a search from nothing. Errors: `Memory`.
    pub fn assign(&mut self, alloc: Global, boxes: &BoxSet) -> Result<Match, Memory>
        requires exist { All (λ square. square < self.old.squares) boxes.now }
        ensures serves { (b : BoardView) → Serves b self.old → Serves b self.new }
        ensures least { (b : BoardView) → Serves b self.old → IfOk result (IsMatch b boxes.now) }
    {
        let boxes = boxes.list();
        if !self.match_to(boxes) {
            return self.assign_anew(alloc, boxes);
        }
        match read(alloc, &self.rows, &self.search, boxes)? {
            Some(found) => Ok(found),
            None => self.assign_anew(alloc, boxes),
        }
    }

    /// Matches some boxes. Returns false if they have a crowd.
    fn match_to(&mut self, boxes: &[Sq]) -> bool
        requires exist { All (λ square. square < self.old.squares) boxes.now }
        requires rising { IsStrictlyIncreasing boxes.now }
        ensures same { self.new ≡ record self.old {
          rows = self.new.rows;
          search = self.new.search;
          matched = self.new.matched;
        } }
        ensures matched { IsTrue result → IsMatchedTo boxes.now self.new }
        ensures crowd { result ≡ false → (b : BoardView) → Serves b self.old
            → IsBounded b boxes.now None }
    {
        if boxes.len() > self.rows.len() {
            return false;
        }
        self.matched = match_boxes(
            self.squares,
            boxes,
            self.matched,
            &mut self.marks,
            &self.costs,
            &mut self.rows,
            &mut self.search,
        );
        self.matched
    }

    /// Finds a minimum assignment of some boxes, or a crowd of them, from nothing.
    fn assign_anew(&self, alloc: Global, boxes: &[Sq]) -> Result<Match, Memory>
        requires exist { All (λ square. square < self.now.squares) boxes.now }
        requires few { length boxes.now ≤ box_limit }
        ensures { (b : BoardView) → Serves b self.now → IfOk result (IsMatch b boxes.now) }
    {
        assign_rows(alloc, &self.costs, &rows_of(alloc, boxes)?)
    }
}

/// Returns as many spare rows as there are goals.
fn spare_rows(alloc: Global, goals: usize, squares: usize) -> Result<Vec<usize>, Memory>
    ensures { IfOk result (λ rows. rows.items ≡ replicate goals squares) }
{
    Ok(vec![in alloc; squares; goals]?)
}

/// Returns the squares of some boxes, as rows.
fn rows_of(alloc: Global, boxes: &[Sq]) -> Result<Vec<usize>, Memory>
    ensures whole { IfOk result (λ rows. length rows.items ≡ length boxes.now) }
    ensures each { IfOk result (λ rows. (k : ℕ) → k < length boxes.now
        → slice_index rows.items k ≡ slice_index boxes.now k) }
{
    Ok(boxes.iter().map(|square| *square as usize).collect(alloc)?)
}

/// Copies goals and prices to another search.
fn copy_matching(from: &PathSearch, to: &mut PathSearch)
    requires boxes { length to.old.u.items ≡ length from.now.u.items }
    requires goals { length to.old.v.items ≡ length from.now.v.items }
    requires room { length from.now.goal_of.items ≤ vec_capacity to.old.goal_of }
    ensures copied { IsCopied from.now to.old to.new }
{
    to.u.copy_from_slice(&from.u);
    to.v.copy_from_slice(&from.v);
    to.goal_of.clear();
    match to.goal_of.extend_from_slice(&from.goal_of) {
        Ok(()) => {}
        Err(_) => unreachable!(),
    }
    to.floor = from.floor;
}
