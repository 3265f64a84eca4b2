//! Statements that write a row.

ghost use Rattle.std.specs.Prelude.{option_map};
ghost use Rattle.sqlite.specs.Held.{state};
ghost use Rattle.sok_sql.specs.Leaves.{new_leaf, leaf_with_best, leaf_with_verdict};
ghost use Rattle.sok_sql.specs.Statements.{Inserts, Updates};

use sqlite::{Alter, Connection, Error, params};

/// Inserts the row of a new level: no best solution, verdict 0.
pub fn insert<S: Alter>(
    conn: &mut Connection<S>,
    id: u32,
    text: &str,
    title: Option<&[u8]>,
) -> Result<(), Error>
    ensures { Inserts (state S.Store conn.old) (state S.Store conn.new)
        id (new_leaf text.now (option_map (λ bytes. bytes.now) title.entry)) result }
{
    match conn.execute(
        "INSERT INTO level (id, text, title, verdict) VALUES (?1, ?2, ?3, 0)",
        params![id, text, title],
    ) {
        Ok(_) => Ok(()),
        Err(error) => Err(error),
    }
}

/// Writes the letters of a best solution, how many of them push, how many there are, and verdict 0.
pub fn set_best<S: Alter>(
    conn: &mut Connection<S>,
    id: u32,
    lurd: &str,
    pushes: u32,
    moves: u32,
) -> Result<(), Error>
    ensures { Updates (state S.Store conn.old) (state S.Store conn.new)
        id (leaf_with_best lurd.now pushes moves) result }
{
    match conn.execute(
        "UPDATE level SET lurd = ?2, pushes = ?3, moves = ?4, verdict = 0 WHERE id = ?1",
        params![id, lurd, pushes, moves],
    ) {
        Ok(_) => Ok(()),
        Err(error) => Err(error),
    }
}

/// Writes a verdict.
pub fn set_verdict<S: Alter>(conn: &mut Connection<S>, id: u32, verdict: u32) -> Result<(), Error>
    ensures { Updates (state S.Store conn.old) (state S.Store conn.new)
        id (leaf_with_verdict verdict) result }
{
    match conn.execute(
        "UPDATE level SET verdict = ?2 WHERE id = ?1",
        params![id, verdict],
    ) {
        Ok(_) => Ok(()),
        Err(error) => Err(error),
    }
}
