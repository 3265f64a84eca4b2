//! Making the record that has given values.

ghost use Rattle.std.specs.Prelude.{◌≡◌, ◌≢◌, ◌⊎◌, ◌↔◌, Err, IfErr, IfOk, IfSome, IsTrue, List};
ghost use Rattle.std.specs.Prelude.{Some, option_map};
ghost use Rattle.sok_rules.specs.declared.cell.Dir.{Dir};
ghost use Rattle.sok_rules.specs.declared.fault.LevelFault.TheVariants as fault;
ghost use Rattle.sok_rules.specs.Levels.{IsLevel};
ghost use Rattle.sok_rules.specs.Squares.{Rows};
ghost use Rattle.sok_text.specs.Canonical.{level_text};
ghost use Rattle.sok_text.specs.Collections.{blocks_of, level_at};
ghost use Rattle.sok_text.specs.Lurd.{Spells};
ghost use Rattle.sok_board.specs.Refusals.{IsAcceptable};
ghost use Rattle.sok_book.specs.Books.{Page};
ghost use Rattle.sok_book.specs.Kept.{IsKeptPage, IsKeptSolution, may_stand};
ghost use Rattle.sok_book.specs.Titles.{IsTitle};
ghost use Rattle.sok_book.specs.declared.record.Verdict.{Verdict};
ghost use Rattle.sok_store.specs.Rows.{leaf_of, verdict_number};

use crate::columns::{Columns, are_of};
use sok_board::board::Board;
use sok_board::fault::BoardFault;
use sok_book::fault::BookFault;
use sok_book::offering::judge_letters;
use sok_book::record::{Best, Record, Verdict};
use sok_book::title::is_title;
use sok_rules::cell::Dir;
use sok_rules::fault::{LevelFault, Memory};
use sok_rules::level::Level;
use sok_text::collection::Collection;
use sok_text::lurd::{LurdFault, read_lurd};
use std::alloc::{AllocError, Global};

/// Returns the record with this id that has these values. It is made of them, and then its own
/// values are compared with them.
///
/// Errors: `BadBook` with the id if the values are those of no page that may be kept: the text is
/// not the canonical text of an accepted level; the title is not one that is kept; some of letters,
/// pushes and moves are there and some are not; the letters are not the marked text of a solution
/// with at most 1,000,000 letters and these pushes and moves; or the verdict is unknown or does not
/// fit the best solution. Or `Memory`.
pub(crate) fn record_of(alloc: Global, id: i64, columns: &Columns) -> Result<Record, BookFault>
    ensures id { IfOk result (λ kept. kept.id ≡ id) }
    ensures kept { IfOk result (λ kept. IsKeptPage kept.page) }
    ensures leaf { IfOk result (λ kept. columns.now ≡ leaf_of kept.page) }
    ensures broken { IfErr result (λ fault. (fault ≡ BookFault.Memory)
        ⊎ ((fault ≡ BookFault.BadBook id)
        × ((page : Page) → IsKeptPage page → columns.now ≢ leaf_of page))) }
{
    let Some(kept) = made(alloc, id, columns)? else {
        return Err(BookFault::BadBook(id));
    };
    if may_be_kept(alloc, &kept)? && are_of(alloc, columns, &kept)? {
        Ok(kept)
    } else {
        Err(BookFault::BadBook(id))
    }
}

/// Makes a record of values, if their text is that of a level. Any other value that fits no record
/// is left out.
fn made(alloc: Global, id: i64, columns: &Columns) -> Result<Option<Record>, Memory>
    ensures id { IfOk result (λ made. IfSome made (λ kept. kept.id ≡ id)) }
    ensures same { IfOk result (λ made. (page : Page) → IsKeptPage page
        → columns.now ≡ leaf_of page → option_map (λ kept. kept.page) made ≡ Some page) }
{
    let Some(level) = level_in(alloc, columns.text.as_bytes())? else {
        return Ok(None);
    };
    let title = copy(alloc, &columns.title)?;
    let best = best_in(alloc, columns)?;
    Ok(Some(Record {
        id,
        level,
        title,
        best,
        verdict: verdict_of(columns.verdict),
    }))
}

/// Returns the level of which this is the canonical text, if it is one.
fn level_in(alloc: Global, text: &[u8]) -> Result<Option<Level>, Memory>
    ensures { IfOk result (λ level. (rows : Rows) → IsLevel rows
        → level_text rows ≡ text.now → level ≡ Some rows) }
{
    match first_level(alloc, text) {
        Ok(level) => Ok(Some(level)),
        Err(fault) => match fault {
            LevelFault::Memory => Err(Memory),
            _ => Ok(None),
        },
    }
}

/// Returns the first level of a text.
fn first_level(alloc: Global, text: &[u8]) -> Result<Level, LevelFault>
    ensures { (result ≡ Err fault.Memory) ⊎ (result ≡ level_at (blocks_of text.now) 1) }
{
    match Collection::read(alloc, text) {
        Ok(collection) => collection.level(alloc, 1),
        Err(_) => Err(LevelFault::Memory),
    }
}

fn copy(alloc: Global, title: &Option<Vec<u8>>) -> Result<Option<Vec<u8>>, AllocError>
    ensures { IfOk result (λ copy. option_map (λ bytes. bytes.items) copy
        ≡ option_map (λ bytes. bytes.items) title.now) }
{
    match title {
        Some(title) => Ok(Some(title.to_vec(alloc)?)),
        None => Ok(None),
    }
}

/// Makes the best solution of these values.
fn best_in(alloc: Global, columns: &Columns) -> Result<Option<Best>, Memory>
    ensures { IfOk result (λ best. (page : Page) → IsKeptPage page
        → columns.now ≡ leaf_of page → best ≡ page.best) }
{
    match &columns.lurd {
        Some(lurd) => Ok(Some(Best {
            letters: letters_in(alloc, lurd.as_bytes())?,
            pushes: columns.pushes.unwrap_or(0),
            moves: columns.moves.unwrap_or(0),
        })),
        None => Ok(None),
    }
}

/// Returns the letters that a text spells, and no letters if it spells none.
fn letters_in(alloc: Global, text: &[u8]) -> Result<Vec<Dir>, Memory>
    ensures { IfOk result (λ found. (letters : List Dir)
        → Spells text.now letters → found.items ≡ letters) }
{
    match read_lurd(alloc, text) {
        Ok(letters) => Ok(letters),
        Err(fault) => match fault {
            LurdFault::Memory => Err(Memory),
            _ => Ok(Vec::new(alloc)),
        },
    }
}

/// Returns the verdict for which a number stands.
fn verdict_of(number: u32) -> Verdict
    ensures { (verdict : Verdict) → verdict_number verdict ≡ number → result ≡ verdict }
{
    match number {
        1 => Verdict::Optimal,
        2 => Verdict::Unsolvable,
        _ => Verdict::Untested,
    }
}

/// Returns whether a record may be kept.
fn may_be_kept(alloc: Global, kept: &Record) -> Result<bool, Memory>
    ensures { IfOk result (λ may. IsTrue may ↔ IsKeptPage kept.now.page) }
{
    // The contract of `rows` says that this is a level.
    let _rows = kept.level.rows();
    let accepted = is_accepted(alloc, &kept.level)?;
    let solved = is_solved(alloc, &kept.level, &kept.best)?;
    Ok(accepted && is_kept(&kept.title) && solved && may_stand(kept.best.is_some(), kept.verdict))
}

/// Returns whether a board can be made of a level.
fn is_accepted(alloc: Global, level: &Level) -> Result<bool, Memory>
    ensures { IfOk result (λ accepted. IsTrue accepted ↔ IsAcceptable level.now) }
{
    match Board::new(alloc, level) {
        Ok(_board) => Ok(true),
        Err(fault) => match fault {
            BoardFault::Memory => Err(Memory),
            _ => Ok(false),
        },
    }
}

/// Returns whether a title, if there is one, is as it would be kept.
fn is_kept(title: &Option<Vec<u8>>) -> bool
    ensures { IsTrue result ↔ IfSome (option_map (λ title. title.items) title.now) IsTitle }
{
    match title {
        Some(title) => is_title(title),
        None => true,
    }
}

/// Returns whether a best solution, if there is one, may be kept.
fn is_solved(alloc: Global, level: &Level, best: &Option<Best>) -> Result<bool, Memory>
    ensures { IfOk result (λ solved.
        IsTrue solved ↔ IfSome best.now (IsKeptSolution level.now)) }
{
    match best {
        Some(best) => is_solution(alloc, level, best),
        None => Ok(true),
    }
}

/// Returns whether letters with these numbers are a solution that may be kept.
fn is_solution(alloc: Global, level: &Level, best: &Best) -> Result<bool, Memory>
    ensures { IfOk result (λ solves. IsTrue solves ↔ IsKeptSolution level.now best.now) }
{
    match judge_letters(alloc, level, &best.letters) {
        Ok(tally) => {
            Ok(tally.pushes == u64::from(best.pushes) && tally.moves == u64::from(best.moves))
        }
        Err(fault) => match fault {
            BookFault::Memory => Err(Memory),
            _ => Ok(false),
        },
    }
}

/// Returns whether a level with a best solution, or without one, may have this verdict.
fn may_stand(best: bool, verdict: Verdict) -> bool
    ensures { result ≡ may_stand best verdict }
{
    match verdict {
        Verdict::Untested => true,
        Verdict::Optimal => best,
        Verdict::Unsolvable => !best,
    }
}
