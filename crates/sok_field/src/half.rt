//! Half of a set of squares of a level: 64 columns, in bit rows.

ghost use Rattle.std.specs.Prelude.{ℕ, ◌≡◌, ◌<◌, ◌≤◌, ◌+◌, ◌↔◌, ◌⊎◌, IfSome, MatchOption, IsTrue, false};
ghost use Rattle.std.specs.Int.{bit_at};
ghost use Rattle.sok_rules.specs.declared.cell.Spot.{Spot};
ghost use Rattle.sok_board.specs.Spans.{right_of};
ghost use Rattle.sok_field.specs.Fields.{has, IsFirstSquare};
ghost use Rattle.sok_field.specs.Halves.{AreWords, halves};
ghost use Rattle.sok_field.specs.Spans.{LiesOn};
ghost use Rattle.sok_field.specs.Ways.{Joined};

use crate::crossing::flood_halves;
use crate::field::ROWS;
use crate::flood::flood;
use crate::{bits, spans};
use sok_board::spans::Span;
use sok_rules::cell::Spot;
use std::marker::Model;

/// The number of columns of a half: the bits of a row's word.
pub(crate) const COLUMNS: u32 = 64;

/// Half of a set of squares: a word for each row, and a bit for each column. The contracts see it
/// as its words, which the test `has` reads. It allocates nothing.
#[derive(Drop)]
pub(crate) struct Half {
    rows: [u64; ROWS],
    /// No square lies in this row or a later one, so a flood visits only the rows before it.
    height: usize,
}

impl Model for Half {
    ghost use Rattle.std.specs.Prelude.{ℕ, List};
    ghost use Rattle.sok_field.specs.Fields.{IsHigh};

    ghost Value = { List ℕ };

    ghost view = { λ half. half.rows };

    ghost invariant = { λ half. IsHigh half.rows half.height };
}

impl Half {
    /// Returns an empty half.
    pub(crate) fn new() -> Half
        ensures { (s : Spot) → has result s ≡ false }
    {
        Half {
            rows: [0; ROWS],
            height: 0,
        }
    }

    /// Returns true only if it has no square. False says nothing.
    pub(crate) fn is_blank(&self) -> bool
        ensures { IsTrue result → (s : Spot) → has self.now s ≡ false }
    {
        self.height == 0
    }

    /// Returns whether it has a square.
    pub(crate) fn has(&self, spot: Spot) -> bool
        requires { spot.col < COLUMNS }
        ensures { result ≡ has self.now spot }
    {
        bits::has(&self.rows, spot)
    }

    /// Puts a square into it.
    pub(crate) fn put(&mut self, spot: Spot)
        requires row { spot.row < ROWS }
        requires col { spot.col < COLUMNS }
        ensures { (s : Spot) → IsTrue (has self.new s) ↔ ((s ≡ spot) ⊎ IsTrue (has self.old s)) }
    {
        bits::put(&mut self.rows, spot);
        self.height = self.height.max(spot.row as usize + 1);
    }

    /// Puts the squares of a span into it.
    pub(crate) fn put_span(&mut self, span: Span)
        requires some { 0 < span.length }
        requires row { span.first.row < ROWS }
        requires columns { span.first.col + span.length ≤ COLUMNS }
        ensures { (s : Spot) → IsTrue (has self.new s) ↔ (IsTrue (has self.old s) ⊎ LiesOn span s) }
    {
        spans::put_span(&mut self.rows, span);
        self.height = self.height.max(span.first.row as usize + 1);
    }

    /// Returns the squares of a span that it has, the leftmost one as the lowest bit.
    pub(crate) fn cut(&self, span: Span) -> u64
        requires some { 0 < span.length }
        requires row { span.first.row < ROWS }
        requires columns { span.first.col + span.length ≤ COLUMNS }
        ensures { (k : ℕ) → (bit_at result k ≡ 1)
            ↔ ((k < span.length) × IsTrue (has self.now (right_of span.first k))) }
    {
        spans::cut(&self.rows, span)
    }

    /// Removes a square from it.
    pub(crate) fn take(&mut self, spot: Spot)
        requires row { spot.row < ROWS }
        requires col { spot.col < COLUMNS }
        ensures { (s : Spot)
            → IsTrue (has self.new s) ↔ ((s ≡ spot → ⊥) × IsTrue (has self.old s)) }
    {
        bits::take(&mut self.rows, spot);
    }

    /// Replaces its squares with those of another half.
    pub(crate) fn copy_from(&mut self, other: &Half)
        ensures { self.new ≡ other.now }
    {
        let height = self.height.max(other.height);
        self.rows[..height].copy_from_slice(&other.rows[..height]);
        self.height = other.height;
    }

    /// Adds the squares of another half.
    pub(crate) fn join(&mut self, other: &Half)
        ensures { (s : Spot)
            → IsTrue (has self.new s) ↔ (IsTrue (has self.old s) ⊎ IsTrue (has other.now s)) }
    {
        bits::join(&mut self.rows, &other.rows[..other.height]);
        self.height = self.height.max(other.height);
    }

    /// Returns the first square, row by row and from left to right.
    pub(crate) fn first(&self) -> Option<Spot>
        ensures first { MatchOption result
            ((s : Spot) → has self.now s ≡ false) (IsFirstSquare (has self.now)) }
        ensures narrow { IfSome result (λ s. s.col < COLUMNS) }
    {
        bits::first(&self.rows[..self.height])
    }

    /// Removes all squares. The rows from `height` on have none.
    pub(crate) fn clear(&mut self)
        ensures { (s : Spot) → has self.new s ≡ false }
    {
        bits::clear(&mut self.rows[..self.height]);
        self.height = 0;
    }

    /// Replaces its squares with those that are joined to `from` over free squares of this half,
    /// itself among them.
    pub(crate) fn flood(&mut self, free: &Half, from: Spot)
        requires { IsTrue (has free.now from) }
        ensures joined { (s : Spot) → IsTrue (has self.new s) ↔ Joined (has free.now) from s }
        ensures words { AreWords free.now }
    {
        self.clear();
        let height = free.height;
        flood(&free.rows[..height], &mut self.rows[..height], from);
        self.height = height;
    }
}

/// Replaces the squares of two halves with those that are joined to `from` over free squares of
/// both, itself among them. It is a function of its own, so that a flood over one half has no
/// buffers for rounds over both to clear.
#[cold]
pub(crate) fn flood_both(
    low: &mut Half,
    high: &mut Half,
    free_low: &Half,
    free_high: &Half,
    from: Spot,
)
    requires { IsTrue (has (halves free_low.now free_high.now) from) }
    ensures { (s : Spot) → IsTrue (has (halves low.new high.new) s)
        ↔ Joined (has (halves free_low.now free_high.now)) from s }
{
    low.clear();
    high.clear();
    let height = free_low.height.max(free_high.height);
    flood_halves(
        &free_low.rows[..height],
        &free_high.rows[..height],
        &mut low.rows[..height],
        &mut high.rows[..height],
        from,
    );
    low.height = height;
    high.height = height;
}
