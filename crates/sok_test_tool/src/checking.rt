//! `check` on files.

use crate::rows::{OPEN_FAILED, first_other, prepare};
use sok_sketch::tutorial::Row;
use std::fs;
use std::test::Fail;

const CHECKS: [Row; 6] = [
    (
        "sok check certs/levels 1 certs/cert",
        "accepted at least 1 pushes\n",
        "",
        0,
    ),
    (
        "sok check certs/levels 4 certs/cert",
        "refused 23 Start\n",
        "",
        1,
    ),
    (
        "sok check certs/levels 1 certs/levels",
        "refused 20 Header\n",
        "",
        1,
    ),
    (
        "sok check certs/levels 3 certs/cert",
        "",
        "fault 8 TooFewGoals\n",
        3,
    ),
    ("sok check certs/levels 1 certs/none", "", OPEN_FAILED, 5),
    // both files are opened before the level is read
    ("sok check certs/levels 9 certs/none", "", OPEN_FAILED, 5),
];

#[test]
fn checks_of_files(rt: HostRuntime) -> Result<(), Fail> {
    prepare(&rt, "certs")?;
    let other = first_other(&rt, &CHECKS)?;
    assert_eq!(rt; other, None);
    fs::remove_dir_all(&rt, "certs")?;
    Ok(())
}
