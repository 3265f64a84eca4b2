//! A line for each level of a book.

ghost use Rattle.std.specs.Prelude.{◌≡◌, ◌++◌, IfOk, OnOk, codes, option_map, string_bytes};
ghost use Rattle.std.specs.Fmt.{decimal};
ghost use Rattle.sok_book.specs.Escapes.{escaped};
ghost use Rattle.sok_book.specs.Overview.{best_words, box_count, column_count, overview_from};
ghost use Rattle.sok_book.specs.Overview.{overview_line, row_count, size_words, title_words};
ghost use Rattle.sok_book.specs.Overview.{verdict_word};
ghost use Rattle.sok_book.specs.Records.{pages_of};

use crate::escape::push_escaped;
use crate::record::{Best, Record, Verdict};
use crate::writing::text_of;
use sok_rules::fault::Memory;
use std::alloc::{AllocError, Global};

/// Returns a line for each level, in this order: its number, counted from 1; how many rows, columns
/// and boxes it has; the pushes and the moves of its best solution, or `-` twice if there is none;
/// its verdict; and its title, if it has one, with its control characters as `escape` shows them.
/// The columns are those of the longest row. Boxes on goals are counted, too.
pub fn overview_text(alloc: Global, records: &[Record]) -> Result<Vec<u8>, Memory>
    ensures { IfOk result (λ text. text.items ≡ overview_from 1 (pages_of records.now)) }
{
    let mut text = Vec::new(alloc);
    for (index, kept) in records.iter().enumerate() {
        push_line(alloc, &mut text, index + 1, kept)?;
    }
    Ok(text)
}

/// Appends the line of the n-th level to `text`.
fn push_line(alloc: Global, text: &mut Vec<u8>, n: usize, kept: &Record) -> Result<(), Memory>
    ensures { OnOk result
        (text.new.items ≡ text.old.items ++ overview_line n kept.now.page) }
{
    let rows = text_of(alloc, &kept.level)?;
    let size = size(alloc, n, rows.as_str())?;
    text.extend_from_slice(size.as_bytes())?;
    push_best(alloc, text, &kept.best)?;
    text.extend_from_slice(verdict_word(kept.verdict).as_bytes())?;
    push_title(text, &kept.title)?;
    text.push(b'\n')?;
    Ok(())
}

/// Returns the number of a level, and its rows, columns and boxes.
fn size(alloc: Global, n: usize, level: &str) -> Result<String, AllocError>
    ensures { IfOk result (λ size. string_bytes size ≡ size_words n level.now) }
{
    let rows = rows(level.as_bytes());
    let columns = columns(level);
    let boxes = boxes(level.as_bytes());
    format!(in alloc; "{n} {rows} {columns} {boxes} ")
}

/// Returns how many rows the text of a level has.
fn rows(level: &[u8]) -> usize
    ensures { result ≡ row_count level.now }
{
    level.iter().filter(|byte| **byte == b'\n').count()
}

/// Returns the length of the longest row.
fn columns(level: &str) -> usize
    ensures { result ≡ column_count level.now }
{
    level
        .lines()
        .fold(0, |most: usize, line| most.max(line.len()))
}

/// Returns how many boxes the text of a level has, on goals or not.
fn boxes(level: &[u8]) -> usize
    ensures { result ≡ box_count level.now }
{
    level
        .iter()
        .filter(|byte| matches!(**byte, b'$' | b'*'))
        .count()
}

/// Appends the pushes and the moves of the best solution.
fn push_best(alloc: Global, text: &mut Vec<u8>, best: &Option<Best>) -> Result<(), AllocError>
    ensures { OnOk result (text.new.items ≡ text.old.items ++ best_words best.now) }
{
    match best {
        Some(best) => {
            let numbers = numbers(alloc, best.pushes, best.moves)?;
            text.extend_from_slice(numbers.as_bytes())?;
            Ok(())
        }
        None => {
            text.extend_from_slice(b"- - ")?;
            Ok(())
        }
    }
}

/// Returns the pushes and the moves of a solution as text.
fn numbers(alloc: Global, pushes: u32, moves: u32) -> Result<String, AllocError>
    ensures { IfOk result (λ text. string_bytes text
        ≡ decimal pushes ++ (codes " " ++ (decimal moves ++ codes " "))) }
{
    format!(in alloc; "{pushes} {moves} ")
}

/// Returns the word for a verdict.
fn verdict_word(verdict: Verdict) -> &'static str
    ensures { result.now ≡ verdict_word verdict }
{
    match verdict {
        Verdict::Untested => "untested",
        Verdict::Optimal => "optimal",
        Verdict::Unsolvable => "unsolvable",
    }
}

/// Appends a space and the title, if there is one.
fn push_title(text: &mut Vec<u8>, title: &Option<Vec<u8>>) -> Result<(), AllocError>
    ensures { OnOk result (text.new.items ≡ text.old.items
        ++ title_words (option_map escaped (option_map (λ title. title.items) title.now))) }
{
    match title {
        Some(title) => {
            text.push(b' ')?;
            push_escaped(text, title.as_slice())
        }
        None => Ok(()),
    }
}
