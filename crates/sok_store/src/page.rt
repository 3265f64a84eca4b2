//! The record of one row.

ghost use Rattle.std.specs.Prelude.{IfErr, IfOk};
ghost use Rattle.sok_store.specs.ReadRows.{IsNoRecordIn, IsRecordIn};

use crate::parsing::record_of;
use crate::row::{columns_in, id_in};
use sok_book::fault::BookFault;
use sok_book::record::Record;
use sqlite::Row;
use std::alloc::Global;

/// Returns the record of a row whose id is its place, if the row holds a page that may be kept.
/// Otherwise fails with `BadBook` and the row's id, or its place if the id is no whole number.
pub(crate) fn record_in(alloc: Global, place: u32, row: &Row) -> Result<Record, BookFault>
    ensures read { IfOk result (IsRecordIn place row.now) }
    ensures broken { IfErr result (IsNoRecordIn place row.now) }
{
    match columns_in(place, row) {
        Ok(Some(columns)) => record_of(alloc, i64::from(place), &columns),
        Ok(None) => match id_in(place, row) {
            Ok(id) => Err(BookFault::BadBook(id)),
            Err(fault) => Err(fault),
        },
        Err(fault) => Err(fault),
    }
}
