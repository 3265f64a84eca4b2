//! The values of a row.

ghost use Rattle.std.specs.Prelude.{◌≡◌, ◌≢◌, ◌<◌, ◌^◌, ℕ, List, Option, length, option_map};
ghost use Rattle.std.specs.Prelude.{pos, string_bytes, FitsSigned, IfErr, IfOk, IfSome};
ghost use Rattle.std.specs.Prelude.{IsUtf8, MatchOption};
ghost use Rattle.std.specs.Int.{w64};
ghost use Rattle.sqlite.specs.Order.{column};
ghost use Rattle.sqlite.specs.Values.{or_null};
ghost use Rattle.sqlite_value.specs.declared.value.Value.TheVariants.{Int, Text, Blob};
ghost use Rattle.sok_sql.specs.Leaves.{Leaf, shown};
ghost use Rattle.sok_store.specs.BadRows.{id_or_place};
ghost use Rattle.sok_store.specs.Readable.{IsReadable};

use crate::columns::Columns;
use sok_book::fault::BookFault;
use sqlite::types::FromSql;
use sqlite::{Error, ErrorCode, Row};

/// Returns the value in a column, if it has this type.
fn value_in<T: FromSql>(row: &Row, at: usize) -> Result<Option<T>, BookFault>
    requires { at < length row.now }
    ensures ok { IfOk result (λ o. MatchOption o (¬ T.FromSql.is_readable (column row.now at))
        (T.FromSql.reads_as (column row.now at))) }
    ensures err { IfErr result (λ e. e ≡ BookFault.Memory) }
{
    match row.get(at) {
        Ok(value) => Ok(Some(value)),
        Err(Error::SqliteFailure(ErrorCode::OutOfMemory)) => Err(BookFault::Memory),
        Err(_) => Ok(None),
    }
}

/// Returns the text or the NULL in a column, if it holds one.
fn words_in(row: &Row, at: usize) -> Result<Option<Option<String>>, BookFault>
    requires { at < length row.now }
    ensures ok { IfOk result (λ o. MatchOption o
        ((w : Option (List ℕ)) → IfSome w IsUtf8 → column row.now at ≢ or_null Text w)
        (λ w. column row.now at ≡ or_null Text (option_map string_bytes w))) }
    ensures err { IfErr result (λ e. e ≡ BookFault.Memory) }
{
    value_in(row, at)
}

/// Returns the bytes or the NULL in a column, if it holds one.
fn bytes_in(row: &Row, at: usize) -> Result<Option<Option<Vec<u8>>>, BookFault>
    requires { at < length row.now }
    ensures ok { IfOk result (λ o. MatchOption o
        ((b : Option (List ℕ)) → column row.now at ≢ or_null Blob b)
        (λ b. column row.now at ≡ or_null Blob (option_map (λ bytes. bytes.items) b))) }
    ensures err { IfErr result (λ e. e ≡ BookFault.Memory) }
{
    value_in(row, at)
}

/// Returns the number or the NULL in a column, if it holds one.
fn number_in(row: &Row, at: usize) -> Result<Option<Option<u32>>, BookFault>
    requires { at < length row.now }
    ensures ok { IfOk result (λ o. MatchOption o
        ((n : Option ℕ) → IfSome n (λ n. n < 2 ^ 32)
        → column row.now at ≢ or_null (λ n. Int (pos n)) n)
        (λ n. column row.now at ≡ or_null (λ n. Int (pos n)) n)) }
    ensures err { IfErr result (λ e. e ≡ BookFault.Memory) }
{
    value_in(row, at)
}

/// Returns the id of a row, or its place if the id is no whole number.
pub(crate) fn id_in(place: u32, row: &Row) -> Result<i64, BookFault>
    ensures ok { IfOk result (λ id. id ≡ id_or_place place (column row.now 0)) }
    ensures fits { IfOk result (λ id. FitsSigned w64 id) }
    ensures err { IfErr result (λ e. e ≡ BookFault.Memory) }
{
    if row.column_count() == 0 {
        return Ok(i64::from(place));
    }
    match value_in(row, 0) {
        Ok(Some(id)) => Ok(id),
        Ok(None) => Ok(i64::from(place)),
        Err(fault) => Err(fault),
    }
}

/// Returns the values of a row, if its id is its place.
pub(crate) fn columns_in(place: u32, row: &Row) -> Result<Option<Columns>, BookFault>
    ensures some { IfOk result (λ o. IfSome o
        (λ columns. row.now ≡ shown place columns)) }
    ensures none { result ≡ Ok None
        → (leaf : Leaf) → IsReadable leaf → row.now ≢ shown place leaf }
    ensures err { IfErr result (λ e. e ≡ BookFault.Memory) }
{
    if row.column_count() != 7 {
        return Ok(None);
    }
    let Some(id) = value_in::<u32>(row, 0)? else {
        return Ok(None);
    };
    if id != place {
        return Ok(None);
    }
    let Some(text) = value_in::<String>(row, 1)? else {
        return Ok(None);
    };
    let Some(title) = bytes_in(row, 2)? else {
        return Ok(None);
    };
    let Some(lurd) = words_in(row, 3)? else {
        return Ok(None);
    };
    let Some(pushes) = number_in(row, 4)? else {
        return Ok(None);
    };
    let Some(moves) = number_in(row, 5)? else {
        return Ok(None);
    };
    let Some(verdict) = value_in::<u32>(row, 6)? else {
        return Ok(None);
    };
    Ok(Some(Columns {
        text,
        title,
        lurd,
        pushes,
        moves,
        verdict,
    }))
}
