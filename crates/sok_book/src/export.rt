//! The levels of a book as a collection.

ghost use Rattle.std.specs.Prelude.{◌≡◌, ◌++◌, IfOk, None, OnOk, Some, codes, option_map};
ghost use Rattle.std.specs.Prelude.{string_bytes};
ghost use Rattle.std.specs.Fmt.{decimal};
ghost use Rattle.sok_book.specs.Exported.{ExportsReadBack, export_text, level_export};
ghost use Rattle.sok_book.specs.Exported.{notes_behind, optimal_words, solution_notes, title_note};
ghost use Rattle.sok_book.specs.Records.{pages_of};

use crate::record::{Best, Record, Verdict};
use crate::writing::{lurd_of, text_of};
use sok_rules::fault::Memory;
use sok_rules::level::Level;
use std::alloc::{AllocError, Global};

/// Returns the text of a collection of all levels, in this order. A level with a title begins with
/// the note `; TITLE`. Its canonical rows follow, and then an empty line. If `solutions` is set,
/// notes stand before that line: `Solution: LURD` and `Pushes: K` or `Pushes: K optimal` if the
/// level has a best solution, or `Unsolvable` if that was proved.
pub fn export_text(alloc: Global, records: &[Record], solutions: bool) -> Result<Vec<u8>, Memory>
    ensures { IfOk result (λ text. text.items ≡ export_text solutions (pages_of records.now)) }
{
    let mut text = Vec::new(alloc);
    for kept in records {
        push_level(alloc, &mut text, kept, solutions)?;
    }
    Ok(text)
}

/// Appends a level to `text`.
fn push_level(
    alloc: Global,
    text: &mut Vec<u8>,
    kept: &Record,
    solutions: bool,
) -> Result<(), Memory>
    ensures { OnOk result
        (text.new.items ≡ text.old.items ++ level_export solutions kept.now.page) }
{
    let rows = text_of(alloc, &kept.level)?;
    push_note(text, &kept.title)?;
    text.extend_from_slice(rows.as_bytes())?;
    push_notes_behind(alloc, text, kept, solutions)?;
    text.push(b'\n')?;
    Ok(())
}

/// Appends the note of a title, if there is one.
fn push_note(text: &mut Vec<u8>, title: &Option<Vec<u8>>) -> Result<(), AllocError>
    ensures { OnOk result (text.new.items
        ≡ text.old.items ++ title_note (option_map (λ title. title.items) title.now)) }
{
    match title {
        Some(title) => {
            text.extend_from_slice(b"; ")?;
            text.extend_from_slice(title.as_slice())?;
            text.push(b'\n')?;
            Ok(())
        }
        None => Ok(()),
    }
}

/// Appends the notes after the rows, if solutions are wanted.
fn push_notes_behind(
    alloc: Global,
    text: &mut Vec<u8>,
    kept: &Record,
    solutions: bool,
) -> Result<(), Memory>
    ensures { OnOk result
        (text.new.items ≡ text.old.items ++ notes_behind solutions kept.now.page) }
{
    if solutions {
        push_solution(alloc, text, &kept.level, &kept.best, kept.verdict)
    } else {
        Ok(())
    }
}

/// Appends the notes of a best solution, or that there is no solution.
fn push_solution(
    alloc: Global,
    text: &mut Vec<u8>,
    level: &Level,
    best: &Option<Best>,
    verdict: Verdict,
) -> Result<(), Memory>
    ensures { OnOk result
        (text.new.items ≡ text.old.items ++ solution_notes level.now best.now verdict) }
{
    match best {
        Some(best) => push_best(alloc, text, level, best, verdict),
        None => Ok(push_unsolvable(text, verdict)?),
    }
}

/// Appends the notes of a best solution.
fn push_best(
    alloc: Global,
    text: &mut Vec<u8>,
    level: &Level,
    best: &Best,
    verdict: Verdict,
) -> Result<(), Memory>
    ensures { OnOk result
        (text.new.items ≡ text.old.items ++ solution_notes level.now (Some best.now) verdict) }
{
    let lurd = lurd_of(alloc, level, &best.letters)?;
    let pushes = pushes_note(alloc, best.pushes, optimal_words(verdict))?;
    text.extend_from_slice(b"Solution: ")?;
    text.extend_from_slice(lurd.as_bytes())?;
    text.extend_from_slice(pushes.as_bytes())?;
    Ok(())
}

/// Returns the end of the solution's line and the note of its pushes.
fn pushes_note(alloc: Global, pushes: u32, optimal: &str) -> Result<String, AllocError>
    ensures { IfOk result (λ note. string_bytes note
        ≡ codes "\nPushes: " ++ (decimal pushes ++ (optimal.now ++ codes "\n"))) }
{
    format!(in alloc; "\nPushes: {pushes}{optimal}\n")
}

/// Returns what follows the number of pushes: ` optimal` if that was proved.
fn optimal_words(verdict: Verdict) -> &'static str
    ensures { result.now ≡ optimal_words verdict }
{
    match verdict {
        Verdict::Optimal => " optimal",
        Verdict::Untested | Verdict::Unsolvable => "",
    }
}

/// Appends the note that there is no solution, if that was proved.
fn push_unsolvable(text: &mut Vec<u8>, verdict: Verdict) -> Result<(), AllocError>
    ensures { (rows : _) → OnOk result
        (text.new.items ≡ text.old.items ++ solution_notes rows None verdict) }
{
    match verdict {
        Verdict::Unsolvable => {
            text.extend_from_slice(b"Unsolvable\n")?;
            Ok(())
        }
        Verdict::Untested | Verdict::Optimal => Ok(()),
    }
}

/// An export can be read back. By the definition of collections, its text has the same levels with
/// the same titles in the same order, with solutions or without.
pub fn exports_read_back()
    ensures { ExportsReadBack }
{}
