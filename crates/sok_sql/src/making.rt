//! Creating the table of levels.

ghost use Rattle.std.specs.Prelude.{◌≡◌, ◌≤◌, [], false, IfErr, IsTrue, OnOk, OnErr};
ghost use Rattle.sqlite.specs.Held.{state};
ghost use Rattle.sqlite.specs.State.{HasCleanDisk, Survives};
ghost use Rattle.sqlite.specs.View.{doubt};
ghost use Rattle.sok_sql.specs.Causes.{IsEmpty, IsExcused};
ghost use Rattle.sok_sql.specs.Connections.{Holds, IsSame, IsSettled, LeavesEmpty, StaysOpen};
ghost use Rattle.sok_sql.specs.Leaves.{level_schema, no_schema};

use sqlite::{Alter, Connection, Error};

/// Creates the table. Fails if it is already there.
pub fn create<S: Alter>(conn: &mut Connection<S>) -> Result<(), Error>
    ensures made { HasCleanDisk (state S.Store conn.new)
        → (IsTrue (state S.Store conn.old).is_open
        → ((state S.Store conn.old).now.schema ≡ no_schema)
        × ((state S.Store conn.old).in_transaction ≡ false))
        → OnOk result (Holds (state S.Store conn.new) []
        × StaysOpen (state S.Store conn.old) (state S.Store conn.new)) }
    ensures there { HasCleanDisk (state S.Store conn.new)
        → (IsTrue (state S.Store conn.old).is_open
        → (state S.Store conn.old).now.schema ≡ level_schema)
        → OnOk result ((IsTrue (state S.Store conn.old).is_open → ⊥)
        × (IsTrue (state S.Store conn.new).is_open → ⊥)) }
    ensures same { HasCleanDisk (state S.Store conn.new) → IsSettled (state S.Store conn.old)
        → OnErr result (IsSame (state S.Store conn.old) (state S.Store conn.new)) }
    ensures cause { HasCleanDisk (state S.Store conn.new) → IsEmpty (state S.Store conn.old)
        → IfErr result (IsExcused (state S.Store conn.old) (state S.Store conn.new)) }
    ensures stop { Survives (state S.Store conn.old) (state S.Store conn.new)
        (LeavesEmpty (state S.Store conn.old)) }
    ensures clean { doubt (state S.Store conn.old).is_clean
        ≤ doubt (state S.Store conn.new).is_clean }
{
    match conn.execute(
        "CREATE TABLE level (id INTEGER PRIMARY KEY, text TEXT NOT NULL UNIQUE, title BLOB, \
         lurd TEXT, pushes INTEGER, moves INTEGER, verdict INTEGER NOT NULL) STRICT",
        &[],
    ) {
        Ok(_) => Ok(()),
        Err(error) => Err(error),
    }
}
