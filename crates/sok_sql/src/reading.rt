//! Statements that read rows.

ghost use Rattle.std.specs.Prelude.{◌≡◌, ◌⊎◌, ◌+◌, ◌<◌, ◌^◌, ℕ, List, length, map, slice_get};
ghost use Rattle.std.specs.Prelude.{option_map, IfErr, IfOk, IfSome, IsTrue, OnOk, OnErr};
ghost use Rattle.sqlite.specs.Held.{state};
ghost use Rattle.sqlite.specs.State.{HasCleanDisk};
ghost use Rattle.sok_sql.specs.Causes.{HasTable, IsEmpty, IsExcused, IsMemory, IsMissing};
ghost use Rattle.sok_sql.specs.Connections.{Holds, IsSame, IsSettled, Rests, Stores};
ghost use Rattle.sok_sql.specs.Leaves.{Leaf, ListsTable, level_schema, no_schema, shown_from};
ghost use Rattle.sok_sql.specs.Leaves.{id_row, ids_with, last_ids, row_at, shown};

use sqlite::{Alter, Connection, Error, Row, params};

/// Returns all rows, in order of their ids.
pub fn all_rows<S: Alter>(conn: &mut Connection<S>) -> Result<Vec<Row>, Error>
    ensures rests { Rests (state S.Store conn.old) (state S.Store conn.new) }
    ensures rows { HasCleanDisk (state S.Store conn.new)
        → (leaves : List Leaf) → Holds (state S.Store conn.old) leaves
        → IfOk result
        (λ rows. Stores (state S.Store conn.new) leaves × (rows.items ≡ shown_from 1 leaves)) }
    ensures found { HasCleanDisk (state S.Store conn.new) → IsSettled (state S.Store conn.old)
        → (state S.Store conn.old).now.schema ≡ level_schema
        → IfOk result (λ rows. ListsTable ((state S.Store conn.old).now.trees 0) rows.items
        × IsSame (state S.Store conn.old) (state S.Store conn.new)) }
    ensures none { HasCleanDisk (state S.Store conn.new)
        → (state S.Store conn.old).now.schema ≡ no_schema → OnOk result ⊥ }
    ensures same { HasCleanDisk (state S.Store conn.new) → IsSettled (state S.Store conn.old)
        → OnErr result (IsSame (state S.Store conn.old) (state S.Store conn.new)) }
    ensures cause { HasCleanDisk (state S.Store conn.new) → HasTable (state S.Store conn.old)
        → IfErr result (IsExcused (state S.Store conn.old) (state S.Store conn.new)) }
    ensures open { HasCleanDisk (state S.Store conn.new)
        → OnOk result (IsTrue (state S.Store conn.new).is_open)
        × IfErr result (λ e. IsMissing e → IsTrue (state S.Store conn.new).is_open) }
    ensures missing { HasCleanDisk (state S.Store conn.new) → IsEmpty (state S.Store conn.old)
        → IfErr result (λ e. IsMissing e
        ⊎ IsExcused (state S.Store conn.old) (state S.Store conn.new) e) }
{
    conn.query_all(
        "SELECT id, text, title, lurd, pushes, moves, verdict FROM level ORDER BY id",
        &[],
    )
}

/// Returns the row with this id, if there is one; ids count from 1.
pub fn row_at<S: Alter>(conn: &mut Connection<S>, id: u32) -> Result<Option<Row>, Error>
    ensures rests { Rests (state S.Store conn.old) (state S.Store conn.new) }
    ensures row { HasCleanDisk (state S.Store conn.new)
        → (leaves : List Leaf) (index : _) → Holds (state S.Store conn.old) leaves
        → id ≡ 1 + index
        → IfOk result (λ row. Stores (state S.Store conn.new) leaves
        × (row ≡ option_map (shown id) (slice_get leaves index))) }
    ensures cause { HasCleanDisk (state S.Store conn.new) → HasTable (state S.Store conn.old)
        → IfErr result (IsExcused (state S.Store conn.old) (state S.Store conn.new)) }
{
    match rows_at(conn, id) {
        Ok(mut rows) => Ok(rows.pop()),
        Err(error) => Err(error),
    }
}

/// Returns the least id of a row with this text, if there is one.
pub fn find<S: Alter>(conn: &mut Connection<S>, text: &str) -> Result<Option<u32>, Error>
    ensures rests { Rests (state S.Store conn.old) (state S.Store conn.new) }
    ensures found { HasCleanDisk (state S.Store conn.new)
        → (leaves : List Leaf) → Holds (state S.Store conn.old) leaves
        → IfOk result (λ id. Stores (state S.Store conn.new) leaves
        × (id ≡ slice_get (ids_with text.now 1 leaves) 0)) }
    ensures cause { HasCleanDisk (state S.Store conn.new)
        → (leaves : List Leaf) → Holds (state S.Store conn.old) leaves → length leaves < 2 ^ 32
        → IfErr result (IsExcused (state S.Store conn.old) (state S.Store conn.new)) }
{
    match ids_of(conn, text) {
        Ok(rows) => first_id(&rows),
        Err(error) => Err(error),
    }
}

/// Returns how many rows there are, which is also the id of the last one.
pub fn count<S: Alter>(conn: &mut Connection<S>) -> Result<u32, Error>
    ensures rests { Rests (state S.Store conn.old) (state S.Store conn.new) }
    ensures count { HasCleanDisk (state S.Store conn.new)
        → (leaves : List Leaf) → Holds (state S.Store conn.old) leaves
        → IfOk result (λ count. Stores (state S.Store conn.new) leaves
        × (count ≡ length leaves)) }
    ensures cause { HasCleanDisk (state S.Store conn.new)
        → (leaves : List Leaf) → Holds (state S.Store conn.old) leaves → length leaves < 2 ^ 32
        → IfErr result (IsExcused (state S.Store conn.old) (state S.Store conn.new)) }
{
    match last_rows(conn) {
        Ok(rows) => match first_id(&rows) {
            Ok(Some(id)) => Ok(id),
            Ok(None) => Ok(0),
            Err(error) => Err(error),
        },
        Err(error) => Err(error),
    }
}

/// Returns the id in the first row, if there is one.
fn first_id(rows: &[Row]) -> Result<Option<u32>, Error>
    ensures first { (ids : List ℕ) → rows.now ≡ map id_row ids
        → IfOk result (λ id. id ≡ slice_get ids 0) }
    ensures cause { (ids : List ℕ) → rows.now ≡ map id_row ids
        → IfSome (slice_get ids 0) (λ id. id < 2 ^ 32) → IfErr result IsMemory }
{
    match rows.first() {
        Some(row) => match row.get(0) {
            Ok(id) => Ok(Some(id)),
            Err(error) => Err(error),
        },
        None => Ok(None),
    }
}

/// Returns the row with this id, if there is one; ids count from 1.
fn rows_at<S: Alter>(conn: &mut Connection<S>, id: u32) -> Result<Vec<Row>, Error>
    ensures rests { Rests (state S.Store conn.old) (state S.Store conn.new) }
    ensures rows { HasCleanDisk (state S.Store conn.new)
        → (leaves : List Leaf) (index : _) → Holds (state S.Store conn.old) leaves
        → id ≡ 1 + index
        → IfOk result (λ rows. Stores (state S.Store conn.new) leaves
        × (rows.items ≡ row_at id (slice_get leaves index))) }
    ensures cause { HasCleanDisk (state S.Store conn.new) → HasTable (state S.Store conn.old)
        → IfErr result (IsExcused (state S.Store conn.old) (state S.Store conn.new)) }
{
    conn.query_all(
        "SELECT id, text, title, lurd, pushes, moves, verdict FROM level WHERE id = ?1",
        params![id],
    )
}

/// Returns the ids of the rows with this text, in order.
fn ids_of<S: Alter>(conn: &mut Connection<S>, text: &str) -> Result<Vec<Row>, Error>
    ensures rests { Rests (state S.Store conn.old) (state S.Store conn.new) }
    ensures rows { HasCleanDisk (state S.Store conn.new)
        → (leaves : List Leaf) → Holds (state S.Store conn.old) leaves
        → IfOk result (λ rows. Stores (state S.Store conn.new) leaves
        × (rows.items ≡ map id_row (ids_with text.now 1 leaves))) }
    ensures cause { HasCleanDisk (state S.Store conn.new) → HasTable (state S.Store conn.old)
        → IfErr result (IsExcused (state S.Store conn.old) (state S.Store conn.new)) }
{
    conn.query_all(
        "SELECT id FROM level WHERE text = ?1 ORDER BY id",
        params![text],
    )
}

/// Returns the id of the last row, if there is one.
fn last_rows<S: Alter>(conn: &mut Connection<S>) -> Result<Vec<Row>, Error>
    ensures rests { Rests (state S.Store conn.old) (state S.Store conn.new) }
    ensures rows { HasCleanDisk (state S.Store conn.new)
        → (leaves : List Leaf) → Holds (state S.Store conn.old) leaves
        → IfOk result (λ rows. Stores (state S.Store conn.new) leaves
        × (rows.items ≡ map id_row (last_ids leaves))) }
    ensures cause { HasCleanDisk (state S.Store conn.new) → HasTable (state S.Store conn.old)
        → IfErr result (IsExcused (state S.Store conn.old) (state S.Store conn.new)) }
{
    conn.query_all("SELECT id FROM level ORDER BY id DESC LIMIT 1", &[])
}
