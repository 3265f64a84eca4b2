//! Reading one level of the book.

ghost use Rattle.std.specs.Prelude.{◌≡◌, ◌<◌, ◌≤◌, IsNone, MatchOption, length};
ghost use Rattle.sqlite.specs.Held.{state};
ghost use Rattle.sok_book.specs.Books.{Book, page_at};
ghost use Rattle.sok_book.specs.Commands.{level_limit};
ghost use Rattle.sok_store.specs.Calls.{id_number};
ghost use Rattle.sok_store.specs.Running.{RunsReading};

use crate::fault::fault_of;
use crate::page::record_in;
use sok_book::fault::BookFault;
use sok_book::record::Record;
use sok_sql::reading::row_at;
use sqlite::{Alter, Connection};
use std::alloc::Global;

/// Returns the level with this id. `NoLevel` if there is none.
pub(crate) fn record_at<S: Alter>(
    conn: &mut Connection<S>,
    alloc: Global,
    id: i64,
) -> Result<Record, BookFault>
    ensures { RunsReading (state S.Store conn.old) (state S.Store conn.new)
        (id_number id) result }
{
    match place_of(id) {
        Some(place) => read_record(conn, alloc, place),
        None => Err(BookFault::NoLevel),
    }
}

/// Returns the id as a `u32` if a level may have it.
pub(crate) fn place_of(id: i64) -> Option<u32>
    ensures { MatchOption result
        ((book : Book) → length book ≤ level_limit → IsNone (page_at book (id_number id)))
        (λ place. (place ≡ id_number id) × (0 < place)) }
{
    match u32::try_from(id) {
        Ok(place) => { if place == 0 { None } else { Some(place) } }
        Err(_) => None,
    }
}

/// Returns the level with this id, which may be one of a level.
pub(crate) fn read_record<S: Alter>(
    conn: &mut Connection<S>,
    alloc: Global,
    id: u32,
) -> Result<Record, BookFault>
    requires { 0 < id }
    ensures { RunsReading (state S.Store conn.old) (state S.Store conn.new) id result }
{
    match row_at(conn, id) {
        Ok(Some(row)) => record_in(alloc, id, &row),
        Ok(None) => Err(BookFault::NoLevel),
        Err(error) => Err(fault_of(error)),
    }
}
