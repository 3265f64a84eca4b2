//! `list` on files.

use crate::rows::{OPEN_FAILED, first_other, prepare};
use sok_sketch::tutorial::Row;
use std::fs;
use std::test::Fail;

const LISTS: [Row; 4] = [
    (
        "sok list lists/levels",
        "1 3 5 1 1 First\n2 fault 4 ManyPlayers\n3 3 5 1 0\n4 4 6 1 1 The room\n",
        "",
        0,
    ),
    ("sok list lists/cert", "", "", 0),
    ("sok list lists/none", "", OPEN_FAILED, 5),
    ("sok list lists", "", OPEN_FAILED, 5),
];

#[test]
fn lists_of_files(rt: HostRuntime) -> Result<(), Fail> {
    prepare(&rt, "lists")?;
    let other = first_other(&rt, &LISTS)?;
    assert_eq!(rt; other, None);
    fs::remove_dir_all(&rt, "lists")?;
    Ok(())
}
