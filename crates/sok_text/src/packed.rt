//! Packed lines: a level's rows on one line, run-length encoded (Sokoban Wiki, "Level format").

ghost use Rattle.std.specs.Prelude.{ℕ, ◌≡◌, ◌<◌, ◌↔◌, ◌∷◌, [], IfOk, IsTrue, List, Some, length};
ghost use Rattle.std.specs.List.{AllPass};
ghost use Rattle.std.specs.Char.{is_ascii_digit};
ghost use Rattle.std.specs.List.{list_all, list_any};
ghost use Rattle.sok_rules.specs.declared.cell.Cell.TheVariants as the;
ghost use Rattle.sok_rules.specs.Levels.{cells_of, level_of};
ghost use Rattle.sok_text.specs.Like.{IsLike};
ghost use Rattle.sok_text.specs.Packed.{cells_of_part, parts_between, packed_rows};
ghost use Rattle.sok_text.specs.Packed.{Mark, ReadsAs, is_bar, is_count, is_mark, is_packed_line, marks_of};

use crate::count::{cut_digits, times};
use crate::xsb::{cell_of, has_wall};
use sok_rules::cell::Cell;
use sok_rules::level::LIMIT;
use std::alloc::{AllocError, Global};

/// Returns whether a line, without its end, is packed: it has only XSB characters, bars and counts,
/// and at least one wall and one bar.
pub fn is_packed_line(line: &[u8]) -> bool
    ensures { result ≡ is_packed_line line.now }
{
    is_encoded(line) && has_wall(line) && has_bar(line)
}

/// Returns whether a line has only bars, and XSB characters with or without a count.
fn is_encoded(line: &[u8]) -> bool
    ensures { result ≡ list_all is_mark (marks_of line.now) }
{
    let mut left = line;
    while !left.is_empty() {
        let (digits, behind) = cut_digits(left);
        let [byte, rest @ ..] = behind else {
            return false;
        };
        if !is_mark(digits, *byte) {
            return false;
        }
        left = rest;
    }
    true
}

/// Returns whether a byte is a bar and has no digits before it, or is an XSB character and has a
/// count or no digits before it.
fn is_mark(digits: &[u8], byte: u8) -> bool
    requires { AllPass is_ascii_digit digits.now }
    ensures { result ≡ is_mark (record { digits = digits.now; byte = Some byte }) }
{
    if byte == b'|' {
        digits.is_empty()
    } else {
        cell_of(byte).is_some() && is_count(digits)
    }
}

/// Returns whether there are no digits, or they are a count: at most three, with a value from 1 to
/// 128.
fn is_count(digits: &[u8]) -> bool
    requires { AllPass is_ascii_digit digits.now }
    ensures { result ≡ is_count digits.now }
{
    let count = times(digits);
    digits.len() <= 3 && 1 <= count && count <= 128
}

fn has_bar(line: &[u8]) -> bool
    ensures { result ≡ list_any is_bar line.now }
{
    line.iter().any(|byte| *byte == b'|')
}

/// Returns the rows of a packed line, up to the 129th, which is one too many. Each row has as many
/// cells as decide whether it is too wide.
pub(crate) fn unpack(alloc: Global, line: &[u8]) -> Result<Vec<Vec<Cell>>, AllocError>
    ensures { IfOk result (λ rows. level_of (cells_of rows.items) ≡ level_of (packed_rows line.now)) }
{
    let mut rows = Vec::new(alloc);
    let mut left = line;
    while !left.is_empty() && rows.len() <= LIMIT {
        let (part, behind) = cut_part(left);
        rows.push(row_of(alloc, part)?)?;
        left = behind;
    }
    Ok(rows)
}

/// Returns the part of a text before its first bar, and the text after that bar. If there is no
/// bar, the part is the whole text.
fn cut_part(text: &[u8]) -> (&[u8], &[u8])
    requires { 0 < length text.now }
    ensures parts { parts_between text.now ≡ result.0.now ∷ parts_between result.1.now }
    ensures shorter { length result.1.now < length text.now }
{
    let mut end = 0;
    while end < text.len() && text[end] != b'|' {
        end += 1;
    }
    if end < text.len() {
        (&text[..end], &text[end + 1..])
    } else {
        (text, &text[end..])
    }
}

/// Returns the cells of a part, without floor after the 128th cell. If another cell stands there,
/// returns 129 cells, which are too many for a row.
fn row_of(alloc: Global, part: &[u8]) -> Result<Vec<Cell>, AllocError>
    ensures { IfOk result (λ row. IsLike row.items (cells_of_part part.now)) }
{
    let mut row = Vec::new(alloc);
    let mut left = part;
    while !left.is_empty() {
        let (digits, behind) = cut_digits(left);
        let [byte, rest @ ..] = behind else {
            return Ok(row);
        };
        left = rest;
        let Some(cell) = cell_of(*byte) else {
            continue;
        };
        let len = row.len() + times(digits);
        if len > LIMIT && !is_floor(cell) {
            row.resize(LIMIT + 1, cell)?;
            return Ok(row);
        }
        row.resize(len.min(LIMIT), cell)?;
    }
    Ok(row)
}

fn is_floor(cell: Cell) -> bool
    ensures { IsTrue result ↔ (cell ≡ the.Floor) }
{
    match cell {
        Cell::Floor => true,
        _ => false,
    }
}

/// A packed line is cut into marks in one way.
#[tactic(auto, using(crate::proofs::Marks::marks_are_one))]
pub fn packed_lines_have_one_reading()
    ensures { (line : List ℕ) (marks : List Mark) → ReadsAs line marks → marks ≡ marks_of line }
{}
