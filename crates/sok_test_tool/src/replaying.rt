//! `replay` and `draw` on files.

use crate::rows::{OPEN_FAILED, first_other, prepare};
use sok_sketch::tutorial::Row;
use std::fs;
use std::test::Fail;

const REPLAYS: [Row; 11] = [
    ("sok replay plays/levels 1 R", "solved 1 1\n", "", 0),
    ("sok replay plays/levels 4 ulldRR", "solved 2 6\n", "", 0),
    ("sok replay plays/levels 4 -", "solved 2 6\n", "", 0),
    ("sok replay plays/levels 1 -", "", "fault 12 Blocked 0\n", 3),
    ("sok replay plays/levels 4 ul", "open 0 2\n", "", 1),
    (
        "sok replay plays/levels 4 uu",
        "",
        "fault 12 Blocked 1\n",
        3,
    ),
    (
        "sok replay plays/levels 1 x",
        "",
        "fault 11 BadLetter 0\n",
        3,
    ),
    (
        "sok replay plays/levels 2 R",
        "",
        "fault 4 ManyPlayers\n",
        3,
    ),
    (
        "sok replay plays/levels 0 R",
        "",
        "fault 15 NoSuchLevel\n",
        3,
    ),
    (
        "sok replay plays/levels 5 R",
        "",
        "fault 15 NoSuchLevel\n",
        3,
    ),
    ("sok replay plays/none 1 R", "", OPEN_FAILED, 5),
];

const DRAWINGS: [Row; 11] = [
    (
        "sok draw draws/levels 4",
        "######\n#    #\n# $@.#\n######\n",
        "",
        0,
    ),
    // the player on floor, and the box on the goal
    (
        "sok draw draws/levels 4 ulldRR",
        "######\n#    #\n#  @*#\n######\n",
        "",
        0,
    ),
    (
        "sok draw draws/levels 4 -",
        "######\n#    #\n#  @*#\n######\n",
        "",
        0,
    ),
    ("sok draw draws/levels 1 R", "#####\n# @*#\n#####\n", "", 0),
    // the player on the goal
    (
        "sok draw draws/levels 4 r",
        "######\n#    #\n# $ +#\n######\n",
        "",
        0,
    ),
    ("sok draw draws/levels 4 uu", "", "fault 12 Blocked 1\n", 3),
    ("sok draw draws/levels 1 x", "", "fault 11 BadLetter 0\n", 3),
    ("sok draw draws/levels 2", "", "fault 4 ManyPlayers\n", 3),
    ("sok draw draws/levels 0", "", "fault 15 NoSuchLevel\n", 3),
    // both the level and the text are faulty
    ("sok draw draws/levels 5 x", "", "fault 15 NoSuchLevel\n", 3),
    ("sok draw draws/none 1", "", OPEN_FAILED, 5),
];

#[test]
fn drawings_of_files(rt: HostRuntime) -> Result<(), Fail> {
    prepare(&rt, "draws")?;
    let other = first_other(&rt, &DRAWINGS)?;
    assert_eq!(rt; other, None);
    fs::remove_dir_all(&rt, "draws")?;
    Ok(())
}

#[test]
fn replays_on_files(rt: HostRuntime) -> Result<(), Fail> {
    prepare(&rt, "plays")?;
    let other = first_other(&rt, &REPLAYS)?;
    assert_eq!(rt; other, None);
    fs::remove_dir_all(&rt, "plays")?;
    Ok(())
}
