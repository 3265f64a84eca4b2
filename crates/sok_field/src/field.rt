//! Sets of squares of a level, in bit rows.

ghost use Rattle.std.specs.Prelude.{ℕ, ◌≡◌, ◌<◌, ◌≤◌, ◌+◌, ◌%◌, ◌↔◌, ◌⊎◌, MatchOption, IsTrue, false};
ghost use Rattle.std.specs.Int.{bit_at};
ghost use Rattle.sok_rules.specs.declared.cell.Spot.{Spot};
ghost use Rattle.sok_board.specs.Spans.{right_of, word_bits};
ghost use Rattle.sok_field.specs.Fields.{has, IsFirstSquare};
ghost use Rattle.sok_field.specs.Halves.{beyond, folded, within};
ghost use Rattle.sok_field.specs.Spans.{LiesOn};
ghost use Rattle.sok_field.specs.Ways.{Joined};

use crate::half::{self, Half, flood_both};
use sok_board::spans::Span;
use sok_rules::cell::Spot;
use std::marker::Model;

/// The number of rows of a set: those of the largest level.
pub const ROWS: usize = 128;

/// The number of columns: two words of bits for each row.
pub const COLUMNS: u32 = 128;

/// A set of squares: two words for each row, and a bit for each column. The contracts see it as a
/// number for each row, which the test `has` reads. It allocates nothing. If the upper half of the
/// columns has no square, only the words of the lower half are visited.
#[derive(Drop)]
pub struct Field {
    low: Half,
    high: Half,
}

impl Model for Field {
    ghost use Rattle.std.specs.Prelude.{ℕ, List};
    ghost use Rattle.sok_field.specs.Halves.{halves};

    ghost Value = { List ℕ };

    ghost view = { λ field. halves field.low field.high };
}

impl Field {
    /// Returns an empty set.
    pub fn new() -> Field
        ensures { (s : Spot) → has result s ≡ false }
    {
        Field {
            low: Half::new(),
            high: Half::new(),
        }
    }

    /// Returns whether a square is in the set.
    pub fn has(&self, spot: Spot) -> bool
        requires { spot.col < COLUMNS }
        ensures { result ≡ has self.now spot }
    {
        self.half(spot.col).has(Spot {
            row: spot.row,
            col: spot.col % half::COLUMNS,
        })
    }

    /// Returns the half that has a column. It is chosen without a branch, since a search tests
    /// squares very often.
    fn half(&self, col: u32) -> &Half
        requires { col < COLUMNS }
        ensures { (s : Spot) → s.col ≡ col → has result.now (folded s) ≡ has self.now s }
    {
        if col < half::COLUMNS {
            &self.low
        } else {
            &self.high
        }
    }

    /// Puts a square into the set.
    pub fn put(&mut self, spot: Spot)
        requires row { spot.row < ROWS }
        requires col { spot.col < COLUMNS }
        ensures { (s : Spot) → IsTrue (has self.new s) ↔ ((s ≡ spot) ⊎ IsTrue (has self.old s)) }
    {
        if spot.col < half::COLUMNS {
            self.low.put(spot);
        } else {
            put_beyond(&mut self.high, spot);
        }
    }

    /// Puts the squares of a span into the set. The span lies in one half.
    pub(crate) fn put_span(&mut self, span: Span)
        requires some { 0 < span.length }
        requires row { span.first.row < ROWS }
        requires col { span.first.col < COLUMNS }
        requires columns { span.first.col % word_bits + span.length ≤ word_bits }
        ensures { (s : Spot) → IsTrue (has self.new s) ↔ (IsTrue (has self.old s) ⊎ LiesOn span s) }
    {
        if span.first.col < half::COLUMNS {
            self.low.put_span(span);
        } else {
            self.high.put_span(span_within(span));
        }
    }

    /// Returns the squares of a span that are in the set, the leftmost one as the lowest bit. The
    /// span lies in one half.
    pub(crate) fn cut(&self, span: Span) -> u64
        requires some { 0 < span.length }
        requires row { span.first.row < ROWS }
        requires col { span.first.col < COLUMNS }
        requires columns { span.first.col % word_bits + span.length ≤ word_bits }
        ensures { (k : ℕ) → (bit_at result k ≡ 1)
            ↔ ((k < span.length) × IsTrue (has self.now (right_of span.first k))) }
    {
        if span.first.col < half::COLUMNS {
            return self.low.cut(span);
        }
        self.high.cut(span_within(span))
    }

    /// Removes a square from the set.
    pub fn take(&mut self, spot: Spot)
        requires row { spot.row < ROWS }
        requires col { spot.col < COLUMNS }
        ensures { (s : Spot)
            → IsTrue (has self.new s) ↔ ((s ≡ spot → ⊥) × IsTrue (has self.old s)) }
    {
        if spot.col < half::COLUMNS {
            self.low.take(spot);
        } else {
            take_beyond(&mut self.high, spot);
        }
    }

    /// Replaces the squares with those of another set.
    pub fn copy_from(&mut self, other: &Field)
        ensures { self.new ≡ other.now }
    {
        self.low.copy_from(&other.low);
        self.high.copy_from(&other.high);
    }

    /// Adds the squares of another set.
    pub fn join(&mut self, other: &Field)
        ensures { (s : Spot)
            → IsTrue (has self.new s) ↔ (IsTrue (has self.old s) ⊎ IsTrue (has other.now s)) }
    {
        self.low.join(&other.low);
        self.high.join(&other.high);
    }

    /// Returns the first square, row by row and from left to right.
    pub fn first(&self) -> Option<Spot>
        ensures { MatchOption result
            ((s : Spot) → has self.now s ≡ false) (IsFirstSquare (has self.now)) }
    {
        let low = self.low.first();
        let Some(high) = self.high.first() else {
            return low;
        };
        match low {
            Some(low) if low.row <= high.row => Some(low),
            _ => Some(beyond(high)),
        }
    }

    /// Removes all squares from the set.
    pub fn clear(&mut self)
        ensures { (s : Spot) → has self.new s ≡ false }
    {
        self.low.clear();
        self.high.clear();
    }

    /// Replaces the squares with those that are joined to `from` over free squares, itself among
    /// them.
    pub fn flood(&mut self, free: &Field, from: Spot)
        requires { IsTrue (has free.now from) }
        ensures { (s : Spot) → IsTrue (has self.new s) ↔ Joined (has free.now) from s }
    {
        if free.high.is_blank() {
            self.high.clear();
            self.low.flood(&free.low, from);
        } else {
            flood_both(&mut self.low, &mut self.high, &free.low, &free.high, from);
        }
    }
}

/// Puts a square into the upper half of a set. This and the next are functions of their own, so
/// that the code that runs often on a narrow board stays short.
#[cold]
fn put_beyond(high: &mut Half, spot: Spot)
    requires row { spot.row < ROWS }
    requires past { word_bits ≤ spot.col }
    requires col { spot.col < COLUMNS }
    ensures { (s : Spot)
        → IsTrue (has high.new s) ↔ ((s ≡ within spot) ⊎ IsTrue (has high.old s)) }
{
    high.put(within(spot));
}

/// Removes a square from the upper half of a set.
#[cold]
fn take_beyond(high: &mut Half, spot: Spot)
    requires row { spot.row < ROWS }
    requires past { word_bits ≤ spot.col }
    requires col { spot.col < COLUMNS }
    ensures { (s : Spot)
        → IsTrue (has high.new s) ↔ ((s ≡ within spot → ⊥) × IsTrue (has high.old s)) }
{
    high.take(within(spot));
}

/// Converts a square of the upper half: its column is then counted within that half.
pub(crate) fn within(spot: Spot) -> Spot
    requires { word_bits ≤ spot.col }
    ensures { result ≡ within spot }
{
    Spot {
        row: spot.row,
        col: spot.col - half::COLUMNS,
    }
}

/// Converts a square of the upper half back, whose column is counted within that half.
fn beyond(spot: Spot) -> Spot
    requires { spot.col < word_bits }
    ensures { result ≡ beyond spot }
{
    Spot {
        row: spot.row,
        col: spot.col + half::COLUMNS,
    }
}

/// Converts a span of the upper half: its columns are then counted within that half.
fn span_within(span: Span) -> Span
    requires { word_bits ≤ span.first.col }
    ensures { result ≡ record span { first = within span.first } }
{
    Span {
        first: within(span.first),
        number: span.number,
        length: span.length,
    }
}
