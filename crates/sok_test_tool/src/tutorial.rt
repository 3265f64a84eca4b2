//! The session of the tutorial, command by command.

use crate::told::first_other;
use sok_sketch::tutorial::{FILES, SESSION};
use std::fs;
use std::test::Fail;

/// What the session makes.
const MADE: [&str; 8] = [
    "first.cert",
    "second.cert",
    "small.db",
    "small.db-wal",
    "all.db",
    "all.db-wal",
    "1.cert",
    "2.cert",
];

#[test]
fn the_session_of_the_tutorial(rt: HostRuntime) -> Result<(), Fail> {
    for &(path, typed) in &FILES {
        fs::write(&rt, path, typed)?;
    }
    let other = first_other(&rt, &SESSION)?;
    for &path in &MADE {
        let _ = fs::remove_file(&rt, path);
    }
    for &(path, _typed) in &FILES {
        let _ = fs::remove_file(&rt, path);
    }
    assert_eq!(rt; other, None);
    Ok(())
}
