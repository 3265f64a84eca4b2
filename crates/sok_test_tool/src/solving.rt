//! `solve` on files.

use crate::rows::{MAKE_FAILED, OPEN_FAILED, first_other, prepare};
use sok_sketch::tutorial::Row;
use std::fs;
use std::test::Fail;

/// A certificate that is written is accepted. If there is none, its file is emptied, but never the
/// file of the collection, by any name.
const SOLVES: [Row; 24] = [
    (
        "sok solve solves/levels 1 --cert solves/levels",
        "",
        MAKE_FAILED,
        5,
    ),
    (
        "sok solve solves/levels 1 --cert ./solves/../solves/levels",
        "",
        MAKE_FAILED,
        5,
    ),
    (
        "sok solve solves/levels 1 --cert solves/linked",
        "",
        MAKE_FAILED,
        5,
    ),
    ("sok solve solves/levels 1", "solved 1 1\nR\n", "", 0),
    (
        "sok solve solves/levels 4 --limit 0",
        "",
        "fault 16 BadLimit\n",
        3,
    ),
    ("sok solve solves/levels 3", "", "fault 8 TooFewGoals\n", 3),
    ("sok solve solves/levels 9", "", "fault 15 NoSuchLevel\n", 3),
    ("sok solve solves/none 1", "", OPEN_FAILED, 5),
    // the file is opened before that of the certificate is made
    (
        "sok solve solves/none 1 --cert solves/none/cert",
        "",
        OPEN_FAILED,
        5,
    ),
    (
        "sok solve solves/levels 1 --cert solves/none/cert",
        "",
        MAKE_FAILED,
        5,
    ),
    (
        "sok check solves/levels 1 solves/cert",
        "accepted at least 1 pushes\n",
        "",
        0,
    ),
    (
        "sok solve solves/levels 4 --limit 1 --cert solves/cert",
        "limit 1\n",
        "",
        4,
    ),
    (
        "sok check solves/levels 4 solves/cert",
        "refused 20 Header\n",
        "",
        1,
    ),
    (
        "sok solve solves/levels 4 --cert solves/cert",
        "solved 2 6\nulldRR\n",
        "",
        0,
    ),
    (
        "sok check solves/levels 4 solves/cert",
        "accepted at least 2 pushes\n",
        "",
        0,
    ),
    (
        "sok solve solves/levels 4 --below 3",
        "solved 2 6\nulldRR\n",
        "",
        0,
    ),
    ("sok solve solves/levels 4 --below 2", "at least 2\n", "", 0),
    ("sok solve solves/levels 4 --below 1", "at least 1\n", "", 0),
    ("sok solve solves/levels 4 --below 0", "at least 0\n", "", 0),
    (
        "sok solve solves/levels 4 --below 2 --cert solves/cert",
        "at least 2\n",
        "",
        0,
    ),
    (
        "sok check solves/levels 4 solves/cert",
        "accepted at least 2 pushes\n",
        "",
        0,
    ),
    (
        "sok solve solves/levels 4 --below 3 --cert solves/cert",
        "solved 2 6\nulldRR\n",
        "",
        0,
    ),
    (
        "sok check solves/levels 4 solves/cert",
        "accepted at least 2 pushes\n",
        "",
        0,
    ),
    (
        "sok solve --limit=10 -- solves/levels 4",
        "solved 2 6\nulldRR\n",
        "",
        0,
    ),
];

#[test]
fn solutions_of_files(rt: HostRuntime) -> Result<(), Fail> {
    prepare(&rt, "solves")?;
    fs::hard_link(&rt, "solves/levels", "solves/linked")?;
    let other = first_other(&rt, &SOLVES)?;
    assert_eq!(rt; other, None);
    fs::remove_dir_all(&rt, "solves")?;
    Ok(())
}
