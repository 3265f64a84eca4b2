//! Adding a level.

ghost use Rattle.std.specs.Prelude.{◌≡◌, ◌≢◌, ◌⊎◌, IfErr, OnOk, option_map};
ghost use Rattle.sqlite.specs.Held.{state};
ghost use Rattle.sok_board.specs.Refusals.{IsAcceptable};
ghost use Rattle.sok_board.specs.declared.fault.BoardFault.{BoardFault};
ghost use Rattle.sok_book.specs.Books.{Book};
ghost use Rattle.sok_book.specs.Refusals.{IsNotAdded};
ghost use Rattle.sok_store.specs.Faults.{IsOutside};
ghost use Rattle.sok_store.specs.Calls.{kept_if_given};
ghost use Rattle.sok_store.specs.Running.{RunsAdding, RunsAddingPage};

use crate::fault::fault_of;
use sok_board::board::Board;
use sok_book::fault::BookFault;
use sok_book::limits::LEVEL_LIMIT;
use sok_book::title::kept_title;
use sok_book::writing::text_of;
use sok_rules::level::Level;
use sok_sql::reading::{count, find};
use sok_sql::writing::insert;
use sqlite::{Alter, Connection};
use std::alloc::Global;

/// Adds a level, or finds it in the book, and returns its id.
pub(crate) fn add_to<S: Alter>(
    conn: &mut Connection<S>,
    alloc: Global,
    level: &Level,
    title: Option<&[u8]>,
) -> Result<i64, BookFault>
    ensures accepted { OnOk result (IsAcceptable level.now) }
    ensures untouched { IfErr result (λ fault. (cause : BoardFault)
        → fault ≡ BookFault.Level cause → conn.new ≡ conn.old) }
    ensures runs { RunsAdding (state S.Store conn.old) (state S.Store conn.new)
        level.now (kept_if_given (option_map (λ bytes. bytes.now) title.entry)) result }
{
    match judge_level(alloc, level) {
        Ok(()) => add_accepted(conn, alloc, level, title),
        Err(fault) => Err(fault),
    }
}

/// Checks that a board can be made of a level.
fn judge_level(alloc: Global, level: &Level) -> Result<(), BookFault>
    ensures accepted { OnOk result (IsAcceptable level.now) }
    ensures refused { IfErr result
        (λ fault. (book : Book) → IsOutside fault ⊎ IsNotAdded book level.now fault) }
    ensures inside { IfErr result (λ fault. fault ≢ BookFault.Database) }
{
    match Board::new(alloc, level) {
        Ok(_board) => Ok(()),
        Err(fault) => Err(BookFault::from(fault)),
    }
}

/// Adds a level of which a board can be made, or finds it in the book, and returns its id.
fn add_accepted<S: Alter>(
    conn: &mut Connection<S>,
    alloc: Global,
    level: &Level,
    title: Option<&[u8]>,
) -> Result<i64, BookFault>
    requires { IsAcceptable level.now }
    ensures runs { RunsAdding (state S.Store conn.old) (state S.Store conn.new)
        level.now (kept_if_given (option_map (λ bytes. bytes.now) title.entry)) result }
    ensures other { IfErr result (λ fault. (cause : BoardFault) → fault ≢ BookFault.Level cause) }
{
    // The contract of `rows` says that this is a level.
    let _rows = level.rows();
    let printed = match text_of(alloc, level) {
        Ok(printed) => printed,
        Err(_) => return Err(BookFault::Memory),
    };
    let text = printed.as_str();
    match find(conn, text) {
        Ok(Some(id)) => Ok(i64::from(id)),
        Ok(None) => add_new(conn, text, kept(title)),
        Err(error) => Err(fault_of(error)),
    }
}

/// Adds the page of a level that is not in the book, and returns its id.
fn add_new<S: Alter>(
    conn: &mut Connection<S>,
    text: &str,
    title: Option<&[u8]>,
) -> Result<i64, BookFault>
    ensures runs { RunsAddingPage (state S.Store conn.old) (state S.Store conn.new)
        text.now (option_map (λ bytes. bytes.now) title.entry) result }
    ensures other { IfErr result (λ fault. (cause : BoardFault) → fault ≢ BookFault.Level cause) }
{
    let count = match count(conn) {
        Ok(count) => count,
        Err(error) => return Err(fault_of(error)),
    };
    if count >= LEVEL_LIMIT {
        return Err(BookFault::BookFull);
    }
    let id = count + 1;
    match insert(conn, id, text, title) {
        Ok(()) => Ok(i64::from(id)),
        Err(error) => Err(fault_of(error)),
    }
}

/// Returns the title that is kept, if one is given.
fn kept(title: Option<&[u8]>) -> Option<&[u8]>
    ensures { option_map (λ bytes. bytes.now) result
        ≡ kept_if_given (option_map (λ bytes. bytes.now) title.entry) }
{
    match title {
        Some(title) => kept_title(title),
        None => None,
    }
}
