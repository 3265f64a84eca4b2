//! A level with its title, its best solution and its verdict.

ghost use Rattle.std.specs.Prelude.{◌≡◌, ◌++◌, IfOk, OnOk, Some, codes, option_map, string_bytes};
ghost use Rattle.std.specs.Fmt.{decimal};
ghost use Rattle.sok_book.specs.Shown.{best_line, shown_text, title_line, verdict_line};

use crate::record::{Best, Record, Verdict};
use crate::writing::{lurd_of, text_of};
use sok_rules::fault::Memory;
use sok_rules::level::Level;
use std::alloc::{AllocError, Global};

/// Returns the canonical rows of a level and then, each on a line, `title TITLE` if it has one;
/// `best PUSHES MOVES LURD` or `best none`; and `verdict untested`, `verdict optimal` or `verdict
/// unsolvable`.
pub fn shown_text(alloc: Global, kept: &Record) -> Result<Vec<u8>, Memory>
    ensures { IfOk result (λ text. text.items ≡ shown_text kept.now.page) }
{
    let rows = text_of(alloc, &kept.level)?;
    let mut text = Vec::new(alloc);
    text.extend_from_slice(rows.as_bytes())?;
    push_title(&mut text, &kept.title)?;
    push_best(alloc, &mut text, &kept.level, &kept.best)?;
    text.extend_from_slice(verdict_line(kept.verdict).as_bytes())?;
    Ok(text)
}

/// Appends the line of a title, if there is one.
fn push_title(text: &mut Vec<u8>, title: &Option<Vec<u8>>) -> Result<(), AllocError>
    ensures { OnOk result (text.new.items
        ≡ text.old.items ++ title_line (option_map (λ title. title.items) title.now)) }
{
    match title {
        Some(title) => {
            text.extend_from_slice(b"title ")?;
            text.extend_from_slice(title.as_slice())?;
            text.push(b'\n')?;
            Ok(())
        }
        None => Ok(()),
    }
}

/// Appends the line of the best solution, or of none.
fn push_best(
    alloc: Global,
    text: &mut Vec<u8>,
    level: &Level,
    best: &Option<Best>,
) -> Result<(), Memory>
    ensures { OnOk result (text.new.items ≡ text.old.items ++ best_line level.now best.now) }
{
    match best {
        Some(best) => push_solution(alloc, text, level, best),
        None => {
            text.extend_from_slice(b"best none\n")?;
            Ok(())
        }
    }
}

/// Appends the line of a solution.
fn push_solution(
    alloc: Global,
    text: &mut Vec<u8>,
    level: &Level,
    best: &Best,
) -> Result<(), Memory>
    ensures { OnOk result
        (text.new.items ≡ text.old.items ++ best_line level.now (Some best.now)) }
{
    let numbers = numbers(alloc, best.pushes, best.moves)?;
    let lurd = lurd_of(alloc, level, &best.letters)?;
    text.extend_from_slice(numbers.as_bytes())?;
    text.extend_from_slice(lurd.as_bytes())?;
    text.push(b'\n')?;
    Ok(())
}

/// Returns the line of a solution up to its letters.
fn numbers(alloc: Global, pushes: u32, moves: u32) -> Result<String, AllocError>
    ensures { IfOk result (λ text. string_bytes text
        ≡ codes "best " ++ (decimal pushes ++ (codes " " ++ (decimal moves ++ codes " ")))) }
{
    format!(in alloc; "best {pushes} {moves} ")
}

/// Returns the line of a verdict.
fn verdict_line(verdict: Verdict) -> &'static str
    ensures { result.now ≡ verdict_line verdict }
{
    match verdict {
        Verdict::Untested => "verdict untested\n",
        Verdict::Optimal => "verdict optimal\n",
        Verdict::Unsolvable => "verdict unsolvable\n",
    }
}
