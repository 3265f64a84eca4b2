//! Listing the levels of a collection.

ghost use Rattle.std.specs.Prelude.{◌≡◌, ◌≢◌, ◌++◌, ℕ, List, Option, Ok, Err, IfOk};
ghost use Rattle.std.specs.Prelude.{OnOk, codes, option_map, string_bytes};
ghost use Rattle.std.specs.Fmt.{decimal};
ghost use Rattle.sok_rules.specs.declared.fault.LevelFault.TheVariants as level;
ghost use Rattle.sok_text.specs.Collections.{level_at};
ghost use Rattle.sok_text.specs.Titles.{title_at};
ghost use Rattle.sok_book.specs.Overview.{title_words};
ghost use Rattle.sok_engine.specs.Inputs.{OfReader, Within};
ghost use Rattle.sok_engine.specs.Limits.{input_limit};
ghost use Rattle.sok_engine.specs.Written.{HasOne, Writes};
ghost use Rattle.sok_play.specs.Listing.{IsListing, level_line, level_numbers, lines_from};

use crate::measure::{boxes, goals, height, width};
use sok_engine::answer::Answer;
use sok_engine::fault::ToolFault;
use sok_engine::serving::{Engine, serve};
use sok_rules::fault::{LevelFault, Memory};
use sok_rules::level::Level;
use sok_text::collection::Collection;
use std::alloc::{AllocError, Global};
use std::io::{Read, Write};

/// Writes a line for each level of a collection, in order: its number, counted from 1; how many
/// rows, columns, boxes and goals it has; and its title, if it has one. The line of a faulty level
/// is its number and its fault. The columns are those of the longest row, without floor at its end.
/// Boxes and goals outside the area are counted, too. A title is written as its bytes.
///
/// The status is 0, also if levels are faulty. Errors: `ReadFailed` or `TooMuch`, with nothing
/// written; `WriteFailed` as soon as a write fails; by then a first part of the lines may be
/// written. For a reader whose remaining bytes are unknown, this is promised for some bytes.
pub fn list_bytes<R: Read, W: Write>(
    alloc: Global,
    input: &mut R,
    out: &mut W,
) -> Result<u8, ToolFault>
    ensures { Writes (OfReader (R.remaining input.old) (Within input_limit IsListing))
        (W.contents out.old) (W.contents out.new) result }
{
    serve(alloc, &Listing, input, out)
}

/// Lists the levels of a collection.
#[derive(Clone, Copy)]
pub struct Listing;

impl Engine for Listing {
    ghost answers = { λ _. IsListing };

    fn answer(&self, alloc: Global, input: &[u8]) -> Result<Answer, ToolFault> {
        let collection = Collection::read(alloc, input)?;
        let text = lines(alloc, &collection)?;
        Ok(Answer::new(text, 0))
    }
}

/// Returns the lines of all levels.
fn lines(alloc: Global, collection: &Collection<'_>) -> Result<Vec<u8>, Memory>
    ensures { IfOk result (λ text. text.items ≡ lines_from 1 collection.now) }
{
    let mut text = Vec::new(alloc);
    for index in 0..collection.len() {
        push_line(alloc, &mut text, collection, index + 1)?;
    }
    Ok(text)
}

/// Appends the line of a level to `text`.
fn push_line(
    alloc: Global,
    text: &mut Vec<u8>,
    collection: &Collection<'_>,
    n: usize,
) -> Result<(), Memory>
    ensures { OnOk result (text.new.items ≡ text.old.items
        ++ level_line n (level_at collection.now n) (title_at collection.now n)) }
{
    let title = collection.title(n);
    match collection.level(alloc, n) {
        Ok(level) => push_level(alloc, text, n, &level, title),
        Err(fault) => push_fault(alloc, text, n, fault),
    }
}

/// Appends the line of a level that has no fault.
fn push_level(
    alloc: Global,
    text: &mut Vec<u8>,
    n: usize,
    level: &Level,
    title: Option<&[u8]>,
) -> Result<(), Memory>
    ensures { OnOk result (text.new.items ≡ text.old.items
        ++ level_line n (Ok level.now) (option_map (λ t. t.now) title.entry)) }
{
    let numbers = numbers(alloc, n, level)?;
    text.extend_from_slice(numbers.as_bytes())?;
    push_title(text, title)?;
    text.push(b'\n')?;
    Ok(())
}

/// Returns the number of a level, and its size, boxes and goals.
fn numbers(alloc: Global, n: usize, level: &Level) -> Result<String, AllocError>
    ensures { IfOk result (λ numbers. string_bytes numbers
        ≡ decimal n ++ codes " " ++ level_numbers level.now) }
{
    let rows = height(level);
    let columns = width(level);
    let boxes = boxes(level);
    let goals = goals(level);
    format!(in alloc; "{n} {rows} {columns} {boxes} {goals}")
}

/// Appends a space and the title, if there is one.
fn push_title(text: &mut Vec<u8>, title: Option<&[u8]>) -> Result<(), Memory>
    ensures { OnOk result (text.new.items ≡ text.old.items
        ++ title_words (option_map (λ t. t.now) title.entry)) }
{
    let Some(title) = title else {
        return Ok(());
    };
    text.push(b' ')?;
    text.extend_from_slice(title)?;
    Ok(())
}

/// Appends the line of a faulty level, unless memory was refused.
fn push_fault(alloc: Global, text: &mut Vec<u8>, n: usize, fault: LevelFault) -> Result<(), Memory>
    ensures { OnOk result ((fault ≢ level.Memory) × ((title : Option (List ℕ))
        → text.new.items ≡ text.old.items ++ level_line n (Err fault) title)) }
{
    match fault {
        LevelFault::Memory => Err(Memory),
        _ => {
            let line = fault_line(alloc, n, fault)?;
            text.extend_from_slice(line.as_bytes())?;
            Ok(())
        }
    }
}

/// Returns the line of a faulty level.
fn fault_line(alloc: Global, n: usize, fault: LevelFault) -> Result<String, AllocError>
    ensures { IfOk result (λ line. (title : Option (List ℕ))
        → string_bytes line ≡ level_line n (Err fault) title) }
{
    let told = ToolFault::from(fault);
    format!(in alloc; "{n} {told}\n")
}

/// A collection has at most one listing.
pub fn listings_have_one_answer()
    ensures { (limit : ℕ) (bytes : List ℕ) → HasOne (Within limit IsListing bytes) }
{}
