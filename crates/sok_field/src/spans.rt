//! Spans: squares side by side, as bits of a word.

ghost use Rattle.std.specs.Prelude.{ℕ, ◌≡◌, ◌<◌, ◌≤◌, ◌+◌, ◌*◌, ◌↔◌, ◌⊎◌, true, length};
ghost use Rattle.std.specs.Int.{bit_at};
ghost use Rattle.sok_rules.specs.declared.cell.Spot.{Spot};
ghost use Rattle.sok_board.specs.Spans.{right_of};
ghost use Rattle.sok_field.specs.Fields.{has};
ghost use Rattle.sok_field.specs.Numbers.{has_number};
ghost use Rattle.sok_field.specs.Spans.{IsPut, LiesOn, StandsIn};

use sok_board::area::Sq;
use sok_board::spans::Span;

/// Returns a word whose lowest `length` bits are set.
fn ones(length: u32) -> u64
    requires some { 0 < length }
    requires within { length ≤ 64 }
    ensures { (k : ℕ) → (bit_at result k ≡ 1) ↔ (k < length) }
{
    u64::MAX >> (64 - length)
}

/// Adds the bits of a word to a row.
fn join(rows: &mut [u64], row: usize, word: u64)
    requires { row < length rows.old }
    ensures { (s : Spot)
        → (has rows.new s ≡ true) ↔ ((has rows.old s ≡ true) ⊎ StandsIn row word s) }
{
    let old = rows[row];
    rows[row] = old | word;
}

/// Puts the squares of a span into a set.
pub(crate) fn put_span(rows: &mut [u64], span: Span)
    requires some { 0 < span.length }
    requires row { span.first.row < length rows.old }
    requires columns { span.first.col + span.length ≤ 64 }
    ensures { (s : Spot) → (has rows.new s ≡ true) ↔ ((has rows.old s ≡ true) ⊎ LiesOn span s) }
{
    join(
        rows,
        span.first.row as usize,
        ones(span.length) << span.first.col,
    );
}

/// Returns the squares of a span that are in a set, the leftmost one as the lowest bit.
pub(crate) fn cut(rows: &[u64], span: Span) -> u64
    requires some { 0 < span.length }
    requires row { span.first.row < length rows.now }
    requires columns { span.first.col + span.length ≤ 64 }
    ensures { (k : ℕ) → (bit_at result k ≡ 1)
        ↔ ((k < span.length) × (has rows.now (right_of span.first k) ≡ true)) }
{
    (rows[span.first.row as usize] >> span.first.col) & ones(span.length)
}

/// Adds the bits of a word to words of bits by number, from a number on.
pub(crate) fn put_word(words: &mut [u64], word: u64, number: Sq)
    requires number { number < 64 * length words.old }
    requires fits { (n : ℕ) → IsPut word number n → n < 64 * length words.old }
    ensures { (n : ℕ) → (has_number words.new n ≡ true)
        ↔ ((has_number words.old n ≡ true) ⊎ IsPut word number n) }
{
    let row = number as usize / 64;
    let shift = number as u32 % 64;
    join(words, row, word << shift);
    if shift == 0 {
        return;
    }
    if row + 1 == words.len() {
        return;
    }
    join(words, row + 1, word >> (64 - shift));
}
