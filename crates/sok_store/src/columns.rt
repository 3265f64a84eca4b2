//! The values of one row of the table.

ghost use Rattle.std.specs.Prelude.{◌≡◌, ◌⊎◌, ◌↔◌, ◌≤◌, IfErr, IfOk, IsTrue, Some, option_map};
ghost use Rattle.std.specs.Prelude.{string_bytes};
ghost use Rattle.sok_rules.specs.Limits.{letter_limit};
ghost use Rattle.sok_book.specs.Books.{solution_of};
ghost use Rattle.sok_book.specs.Kept.{IsKeptSolution};
ghost use Rattle.sok_book.specs.Refusals.{IsNoSolution};
ghost use Rattle.sok_book.specs.declared.fault.BookFault.TheVariants as book;
ghost use Rattle.sok_store.specs.Changing.{AreBestColumns};
ghost use Rattle.sok_store.specs.Parsing.{AreBestValues};
ghost use Rattle.sok_store.specs.Rows.{leaf_of, verdict_number};

use sok_book::fault::BookFault;
use sok_book::offering::judge_letters;
use sok_book::record::{Best, Record, Verdict};
use sok_book::writing::{lurd_of, text_of};
use sok_rules::cell::Dir;
use sok_rules::fault::Memory;
use sok_rules::level::Level;
use std::alloc::Global;
use std::marker::Model;

/// The values of a row's columns, apart from its id, as they are in the table. Contracts see them
/// as these values.
#[derive(Drop)]
pub(crate) struct Columns {
    /// The canonical text of the level.
    pub(crate) text: String,
    pub(crate) title: Option<Vec<u8>>,
    /// The best solution: a letter for each direction, in upper case exactly if it pushes.
    pub(crate) lurd: Option<String>,
    /// How many of its letters push.
    pub(crate) pushes: Option<u32>,
    /// How many letters it has.
    pub(crate) moves: Option<u32>,
    /// 0 untested, 1 optimal, 2 unsolvable.
    pub(crate) verdict: u32,
}

impl Model for Columns {
    ghost use Rattle.std.specs.Prelude.{option_map, string_bytes};
    ghost use Rattle.sok_sql.specs.Leaves.{Leaf};

    ghost Value = { Leaf };

    ghost view = { λ columns. record {
      text = string_bytes columns.text;
      title = option_map (λ title. title.items) columns.title;
      lurd = option_map string_bytes columns.lurd;
      pushes = columns.pushes;
      moves = columns.moves;
      verdict = columns.verdict;
    } };
}

/// The values of the columns of a best solution.
#[derive(Drop)]
pub(crate) struct BestColumns {
    pub(crate) lurd: String,
    pub(crate) pushes: u32,
    pub(crate) moves: u32,
}

/// Returns whether these are the values of a record.
pub(crate) fn are_of(alloc: Global, columns: &Columns, kept: &Record) -> Result<bool, Memory>
    ensures { IfOk result (λ same. IsTrue same ↔ columns.now ≡ leaf_of kept.now.page) }
{
    let text = text_of(alloc, &kept.level)?;
    let best = are_of_best(alloc, columns, &kept.level, &kept.best)?;
    Ok(
        columns.text.as_bytes() == text.as_bytes()
            && is_same(&columns.title, &kept.title)
            && best
            && columns.verdict == verdict_number(kept.verdict),
    )
}

/// Returns whether the columns of the best solution hold this one, or are all empty if there is
/// none.
fn are_of_best(
    alloc: Global,
    columns: &Columns,
    level: &Level,
    best: &Option<Best>,
) -> Result<bool, Memory>
    ensures { IfOk result (λ same. IsTrue same ↔ AreBestValues level.now best.now columns.now) }
{
    match best {
        Some(best) => {
            let lurd = lurd_of(alloc, level, &best.letters)?;
            Ok(
                is_text(&columns.lurd, lurd.as_str())
                    && is_number(columns.pushes, best.pushes)
                    && is_number(columns.moves, best.moves),
            )
        }
        None => Ok(columns.lurd.is_none() && columns.pushes.is_none() && columns.moves.is_none()),
    }
}

/// Returns whether two titles are the same, or both are missing.
fn is_same(title: &Option<Vec<u8>>, other: &Option<Vec<u8>>) -> bool
    ensures { IsTrue result ↔ option_map (λ bytes. bytes.items) title.now
        ≡ option_map (λ bytes. bytes.items) other.now }
{
    match title {
        Some(title) => match other {
            Some(other) => title.as_slice() == other.as_slice(),
            None => false,
        },
        None => other.is_none(),
    }
}

/// Returns whether a text is there and is this one.
fn is_text(words: &Option<String>, text: &str) -> bool
    ensures { IsTrue result ↔ option_map string_bytes words.now ≡ Some text.now }
{
    match words {
        Some(words) => words.as_bytes() == text.as_bytes(),
        None => false,
    }
}

/// Returns whether a number is there and is this one.
fn is_number(value: Option<u32>, number: u32) -> bool
    ensures { IsTrue result ↔ value ≡ Some number }
{
    match value {
        Some(value) => value == number,
        None => false,
    }
}

/// Returns the number that stands for a verdict in the table.
pub(crate) fn verdict_number(verdict: Verdict) -> u32
    ensures { result ≡ verdict_number verdict }
{
    match verdict {
        Verdict::Untested => 0,
        Verdict::Optimal => 1,
        Verdict::Unsolvable => 2,
    }
}

/// Returns the values for letters that solve a level.
///
/// Errors, in this order: `TooLong` if there are more than 1,000,000 letters; `Blocked` if a letter
/// is not legal; `NotSolved` if a box is left off a goal. Or `Memory`.
pub(crate) fn best_columns(
    alloc: Global,
    level: &Level,
    letters: &[Dir],
) -> Result<BestColumns, BookFault>
    ensures are { IfOk result
        (AreBestColumns level.now (solution_of level.now letters.now)) }
    ensures kept { IfOk result
        (λ _. IsKeptSolution level.now (solution_of level.now letters.now)) }
    ensures refused { IfErr result
        (λ fault. (fault ≡ book.Memory) ⊎ IsNoSolution level.now letters.now fault) }
{
    let tally = judge_letters(alloc, level, letters)?;
    let lurd = lurd_of(alloc, level, letters)?;
    Ok(BestColumns {
        lurd,
        pushes: narrow(tally.pushes),
        moves: narrow(tally.moves),
    })
}

/// Returns a number of letters that may be kept in 32 bits.
fn narrow(count: u64) -> u32
    requires { count ≤ letter_limit }
    ensures { result ≡ count }
{
    count as u32
}
