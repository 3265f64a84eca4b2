//! Opening a database as a book.

ghost use Rattle.std.specs.Prelude.{IfErr, OnErr, OnOk};
ghost use Rattle.sqlite.specs.Held.{state};
ghost use Rattle.sqlite.specs.State.{HasCleanDisk, Survives};
ghost use Rattle.sok_sql.specs.Connections.{IsKnown, IsSame, IsSettled};
ghost use Rattle.sok_store.specs.Opening.{IsCausedOpening, IsUnopened, LeavesOpening, Opens};

use crate::fault::fault_of;
use crate::records::records_of;
use sok_book::fault::BookFault;
use sok_sql::making::create;
use sok_sql::reading::all_rows;
use sqlite::{Alter, Connection, Error};
use sqlite_resolve::CompileError;
use std::alloc::Global;

/// Creates the table if there is nothing; otherwise reads all its rows.
pub(crate) fn prepare<S: Alter>(conn: &mut Connection<S>, alloc: Global) -> Result<(), BookFault>
    ensures opens { OnOk result
        (HasCleanDisk (state S.Store conn.new) → IsSettled (state S.Store conn.old)
        → Opens (state S.Store conn.old) (state S.Store conn.new)) }
    ensures unopened { IfErr result (λ fault. IsSettled (state S.Store conn.old)
        → IsUnopened (state S.Store conn.old) (state S.Store conn.new) fault) }
    ensures same { OnErr result (HasCleanDisk (state S.Store conn.new)
        → IsSettled (state S.Store conn.old) → IsKnown (state S.Store conn.old)
        → IsSame (state S.Store conn.old) (state S.Store conn.new)) }
    ensures stop { IsSettled (state S.Store conn.old)
        → Survives (state S.Store conn.old) (state S.Store conn.new)
        (LeavesOpening (state S.Store conn.old)) }
    ensures cause { IfErr result (λ fault. IsSettled (state S.Store conn.old)
        → IsCausedOpening (state S.Store conn.old) (state S.Store conn.new) fault) }
{
    match all_rows(conn) {
        Ok(rows) => match records_of(alloc, &rows) {
            Ok(_) => Ok(()),
            Err(fault) => Err(fault),
        },
        Err(Error::SqlInputError(CompileError::NoSuchTable)) => match create(conn) {
            Ok(()) => Ok(()),
            Err(error) => Err(fault_of(error)),
        },
        Err(error) => Err(fault_of(error)),
    }
}
