//! Listing all levels of the book.

ghost use Rattle.std.specs.Prelude.{All, IfErr, IfOk};
ghost use Rattle.sqlite.specs.Held.{state};
ghost use Rattle.sok_book.specs.Books.{PageWithId};
ghost use Rattle.sok_book.specs.Kept.{IsKeptPage};
ghost use Rattle.sok_book.specs.Records.{AreRecordsOf};
ghost use Rattle.sok_store.specs.Faults.{IsOutside};
ghost use Rattle.sok_store.specs.Calls.{FindsBook, IsCaused, KeepsBook, MakesNone, Stops};

use crate::fault::fault_of;
use crate::records::records_of;
use sok_book::fault::BookFault;
use sok_book::record::Record;
use sok_sql::reading::all_rows;
use sqlite::{Alter, Connection};
use std::alloc::Global;

/// Returns all levels, in order of their ids.
pub(crate) fn records_in<S: Alter>(
    conn: &mut Connection<S>,
    alloc: Global,
) -> Result<Vec<Record>, BookFault>
    ensures kept { IfOk result
        (λ records. All (λ (kept : PageWithId). IsKeptPage kept.page) records.items) }
    ensures listed { IfOk result (λ records.
        FindsBook (state S.Store conn.old) (state S.Store conn.new)
        (λ book. AreRecordsOf book records.items)) }
    ensures refused { IfErr result (λ fault.
        KeepsBook (state S.Store conn.old) (state S.Store conn.new) (λ _. IsOutside fault)) }
    ensures stop { Stops (state S.Store conn.old) (state S.Store conn.new) MakesNone }
    ensures cause { IfErr result
        (IsCaused (state S.Store conn.old) (state S.Store conn.new) MakesNone) }
{
    match all_rows(conn) {
        Ok(rows) => match records_of(alloc, &rows) {
            Ok(records) => Ok(records),
            Err(fault) => Err(fault),
        },
        Err(error) => Err(fault_of(error)),
    }
}
