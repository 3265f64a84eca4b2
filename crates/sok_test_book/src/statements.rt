//! Each statement once, with ample memory.

use sok_sql::making::create;
use sok_sql::reading::{all_rows, count, find, row_at};
use sok_sql::writing::{insert, set_best, set_verdict};
use sqlite::{Connection, Error, MemStore, Row};
use std::process::Abort;
use std::test::Fail;

/// Makes a table of two rows.
fn write(rt: &impl Abort, conn: &mut Connection<MemStore>) -> Result<(), Fail> {
    assert!(rt; find(conn, "one").is_err());
    create(conn)?;
    assert!(rt; create(conn).is_err());
    assert!(rt; count(conn) == Ok(0));
    insert(conn, 1, "one", None)?;
    insert(conn, 2, "two", Some(b"Second"))?;
    assert!(rt; insert(conn, 3, "two", None).is_err());
    assert!(rt; count(conn) == Ok(2));
    assert!(rt; find(conn, "two") == Ok(Some(2)));
    assert!(rt; find(conn, "three") == Ok(None));
    set_best(conn, 2, "rR", 1, 2)?;
    set_verdict(conn, 2, 1)?;
    Ok(())
}

/// Reads them again.
fn read(rt: &impl Abort, conn: &mut Connection<MemStore>) -> Result<(), Fail> {
    assert!(rt; row_at(conn, 3)?.is_none());
    let rows = all_rows(conn)?;
    assert!(rt; rows.len() == 2);
    assert!(rt; numbers(&rows[0])? == (1, None, None, 0));
    assert!(rt; numbers(&rows[1])? == (2, Some(1), Some(2), 1));
    Ok(())
}

/// Makes the table and reads it.
fn write_and_read(rt: &impl Abort, conn: &mut Connection<MemStore>) -> Result<(), Fail> {
    write(rt, conn)?;
    read(rt, conn)
}

#[test]
fn rows_are_written_and_read(rt: HostRuntime) -> Result<(), Fail> {
    let mut conn = Connection::open_in_memory(rt.alloc())?;
    write_and_read(&rt, &mut conn)
}

/// Returns the id, the pushes, the moves and the verdict in a row.
fn numbers(row: &Row) -> Result<(u32, Option<u32>, Option<u32>, u32), Error> {
    Ok((row.get(0)?, row.get(4)?, row.get(5)?, row.get(6)?))
}
