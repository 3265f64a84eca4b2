//! Writing the changes of a level of the book.

ghost use Rattle.sqlite.specs.Held.{state};
ghost use Rattle.sok_store.specs.Changing.{HasBest, HasVerdict};
ghost use Rattle.sok_store.specs.Running.{RunsSetting};

use crate::columns::{BestColumns, verdict_number};
use crate::fault::fault_of;
use sok_book::fault::BookFault;
use sok_book::record::Verdict;
use sok_sql::writing::{set_best, set_verdict};
use sqlite::{Alter, Connection};

/// Makes a solution the best one of the level with this id.
pub(crate) fn store_best<S: Alter>(
    conn: &mut Connection<S>,
    id: u32,
    best: &BestColumns,
) -> Result<(), BookFault>
    ensures { RunsSetting (state S.Store conn.old) (state S.Store conn.new)
        id (HasBest best.now) result }
{
    match set_best(conn, id, best.lurd.as_str(), best.pushes, best.moves) {
        Ok(()) => Ok(()),
        Err(error) => Err(fault_of(error)),
    }
}

/// Sets the verdict of the level with this id.
pub(crate) fn store_verdict<S: Alter>(
    conn: &mut Connection<S>,
    id: u32,
    verdict: Verdict,
) -> Result<(), BookFault>
    ensures { RunsSetting (state S.Store conn.old) (state S.Store conn.new)
        id (HasVerdict verdict) result }
{
    match set_verdict(conn, id, verdict_number(verdict)) {
        Ok(()) => Ok(()),
        Err(error) => Err(fault_of(error)),
    }
}
