//! Showing one level of a book, or writing a text of all.

ghost use Rattle.std.specs.Prelude.{◌≡◌, ◌≢◌, ◌⊎◌, IfErr, IfOk, IsNone};
ghost use Rattle.sqlite.specs.Held.{state};
ghost use Rattle.sok_book.specs.Books.{page_at};
ghost use Rattle.sok_book.specs.Records.{IsRecordAt};
ghost use Rattle.sok_book.specs.declared.fault.BookFault.{BookFault};
ghost use Rattle.sok_book.specs.declared.fault.BookFault.TheVariants as refusal;
ghost use Rattle.sok_engine.specs.Faults.{of_book};
ghost use Rattle.sok_engine.specs.Written.{Gives, Writes};
ghost use Rattle.sok_engine.specs.declared.fault.ToolFault.TheVariants as tool;
ghost use Rattle.sok_store.specs.Faults.{IsOutside};
ghost use Rattle.sok_store.specs.Calls.{KeepsBook, MakesNone, Stops, id_number};
ghost use Rattle.sok_keep.specs.Causes.{IsCausedFault};
ghost use Rattle.sok_keep.specs.Shows.{IsBookText, IsShow};

use sok_book::record::Record;
use sok_book::show::shown_text;
use sok_book::text::{BookText, book_text};
use sok_engine::answer::Answer;
use sok_engine::fault::ToolFault;
use sok_store::book::Book;
use sqlite::Alter;
use std::alloc::Global;
use std::io::Write;

/// Writes the level with this id: its canonical rows and then, each on a line, `title TITLE`, if it
/// has one; `best PUSHES MOVES LURD` or `best none`; and `verdict untested`, `verdict optimal` or
/// `verdict unsolvable`. The status is 0. The book stays as it is.
///
/// Errors: `NoLevel` if there is none, and nothing is written; `WriteFailed` as soon as a write
/// fails; by then a first part of the lines may be written.
pub fn show_bytes<S: Alter, W: Write>(
    alloc: Global,
    book: &mut Book<S>,
    id: i64,
    out: &mut W,
) -> Result<u8, ToolFault>
    ensures writes { KeepsBook (state S.Store book.old) (state S.Store book.new) (λ pages.
        Writes (IsShow pages id) (W.contents out.old) (W.contents out.new) result) }
    ensures cause { IfErr result
        (IsCausedFault (state S.Store book.old) (state S.Store book.new) MakesNone) }
    ensures stop { Stops (state S.Store book.old) (state S.Store book.new) MakesNone }
    ensures reads { IfErr result (λ fault. fault ≢ tool.ReadFailed) }
{
    let kept = record_at(book, id)?;
    let answer = Answer::new(shown_text(alloc, &kept)?, 0);
    answer.write(out)
}

/// Returns the record of the level with this id.
fn record_at<S: Alter>(book: &mut Book<S>, id: i64) -> Result<Record, ToolFault>
    ensures found { IfOk result (λ kept. KeepsBook (state S.Store book.old) (state S.Store book.new)
        (λ pages. IsRecordAt pages (id_number id) kept)) }
    ensures unfound { IfErr result (λ told. (fault : BookFault) × (told ≡ of_book fault)
        × KeepsBook (state S.Store book.old) (state S.Store book.new) (λ pages. IsOutside fault
        ⊎ ((fault ≡ refusal.NoLevel) × IsNone (page_at pages (id_number id))))) }
    ensures cause { IfErr result
        (IsCausedFault (state S.Store book.old) (state S.Store book.new) MakesNone) }
    ensures stop { Stops (state S.Store book.old) (state S.Store book.new) MakesNone }
{
    match book.get(id) {
        Ok(kept) => Ok(kept),
        Err(fault) => Err(ToolFault::from(fault)),
    }
}

/// Writes a text of all levels of a book, in order of their ids, with status 0. The book stays as
/// it is. For an empty book nothing is written.
///
/// `Export` is a collection. Each level has a note `; TITLE`, if it has a title; its canonical
/// rows; if solutions are wanted, `Solution: LURD` and `Pushes: K` or `Pushes: K optimal`, or
/// `Unsolvable`; and an empty line. It can be read back as the same levels with the same titles.
///
/// `Overview` is a line for each level: its id; how many rows, columns and boxes it has; the pushes
/// and the moves of its best solution, or `-` for each if there is none; `untested`, `optimal` or
/// `unsolvable`; and its title, if it has one.
///
/// Errors: `WriteFailed` as soon as a write fails; by then a first part of the text may be written.
pub fn book_bytes<S: Alter, W: Write>(
    alloc: Global,
    book: &mut Book<S>,
    text: BookText,
    out: &mut W,
) -> Result<u8, ToolFault>
    ensures writes { KeepsBook (state S.Store book.old) (state S.Store book.new) (λ pages.
        Writes (IsBookText text pages) (W.contents out.old) (W.contents out.new) result) }
    ensures cause { IfErr result
        (IsCausedFault (state S.Store book.old) (state S.Store book.new) MakesNone) }
    ensures stop { Stops (state S.Store book.old) (state S.Store book.new) MakesNone }
    ensures reads { IfErr result (λ fault. fault ≢ tool.ReadFailed) }
{
    let answer = told(alloc, book, text)?;
    answer.write(out)
}

/// Returns the answer that has this text.
fn told<S: Alter>(alloc: Global, book: &mut Book<S>, text: BookText) -> Result<Answer, ToolFault>
    ensures gives { KeepsBook (state S.Store book.old) (state S.Store book.new)
        (λ pages. Gives (IsBookText text pages) result) }
    ensures cause { IfErr result
        (IsCausedFault (state S.Store book.old) (state S.Store book.new) MakesNone) }
    ensures stop { Stops (state S.Store book.old) (state S.Store book.new) MakesNone }
    ensures reads { IfErr result (λ fault. fault ≢ tool.ReadFailed) }
{
    match book.list() {
        Ok(records) => Ok(Answer::new(book_text(alloc, &records, text)?, 0)),
        Err(fault) => Err(ToolFault::from(fault)),
    }
}
