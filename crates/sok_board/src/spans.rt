//! The area as spans of squares that lie side by side.

ghost use Rattle.std.specs.Prelude.{◌≡◌, ◌<◌, ◌≤◌, ◌+◌, ◌%◌, ℕ, IfOk, All, length};
ghost use Rattle.sok_board.specs.Area.{BoardView};
ghost use Rattle.sok_board.specs.Limits.{square_limit};
ghost use Rattle.sok_board.specs.Spans.{Covers, right_of, spot_at, word_bits};
ghost use Rattle.sok_board.specs.Tables.{HasPlace};

use crate::area::Sq;
use sok_rules::cell::Spot;
use sok_rules::fault::Memory;
use std::alloc::Global;

/// The number of bits in a word of a bit row.
const WORD_BITS: u32 = 64;

/// Squares of the area that lie side by side in a row, with consecutive numbers. Either all of them
/// or none lie left of column 64, so that they are bits of one word in a bit row.
#[derive(Clone, Copy)]
pub struct Span {
    /// The leftmost square, and its number.
    pub first: Spot,
    pub number: Sq,
    /// The number of squares, at least 1.
    pub length: u32,
}

/// Returns the spans of an area, in order.
pub(crate) fn list_spans(alloc: Global, squares: &[Spot]) -> Result<Vec<Span>, Memory>
    requires few { length squares.now ≤ square_limit }
    requires within { All HasPlace squares.now }
    ensures { (b : BoardView) → b.area ≡ squares.now
        → IfOk result (λ spans. Covers b 0 spans.items (length b.area)) }
{
    let mut spans = Vec::new(alloc);
    let mut number = 0;
    while number < squares.len() {
        let length = span_length(squares, number);
        spans.push(Span {
            first: squares[number],
            number: number as Sq,
            length: length as u32,
        })?;
        number += length;
    }
    Ok(spans)
}

/// Returns how many squares lie side by side, from the square `number` on, in the columns of one
/// word.
fn span_length(squares: &[Spot], number: usize) -> usize
    requires number { number < length squares.now }
    requires few { length squares.now ≤ square_limit }
    requires within { All HasPlace squares.now }
    ensures some { 0 < result }
    ensures within { number + result ≤ length squares.now }
    ensures columns { (spot_at squares.now number).col % word_bits + result ≤ word_bits }
    ensures lies { (k : ℕ) → k < result → spot_at squares.now (number + k)
        ≡ right_of (spot_at squares.now number) k }
{
    let first = squares[number];
    let mut length = 1;
    while number + length < squares.len() {
        let next = squares[number + length];
        if next.row != first.row || next.col != first.col + length as u32 {
            break;
        }
        if next.col % WORD_BITS == 0 {
            break;
        }
        length += 1;
    }
    length
}
