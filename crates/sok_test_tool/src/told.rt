//! What is reported beside an answer: what failed, certificates that are too long to be read, lines
//! that are almost lines of a board or begin with no id, why a text has no level, and what an answer
//! comes to.

use crate::rows::{prepare, put, run_watched, words};
use sok_files::notes::Notes;
use sok_files::watched::{Watched, WatchedOutput};
use sok_sketch::tutorial::Row;
use std::alloc::AllocError;
use std::fs;
use std::io::{self, Write};
use std::test::Fail;

const TOLD: [Row; 21] = [
    (
        "sok list told/none",
        "",
        "fault 50 ReadFailed\n  told/none: No such file or directory (os error 2)\n",
        5,
    ),
    // it is opened, and its first read fails
    (
        "sok list told",
        "",
        "fault 50 ReadFailed\n  told: Is a directory (os error 21)\n",
        5,
    ),
    (
        "sok check told/levels 1 told/none",
        "",
        "fault 50 ReadFailed\n  told/none: No such file or directory (os error 2)\n",
        5,
    ),
    (
        "sok solve told/levels 1 --cert told/none/cert",
        "",
        "fault 51 WriteFailed\n  told/none/cert: No such file or directory (os error 2)\n",
        5,
    ),
    (
        "sok solve told/levels 1 --cert told/levels",
        "",
        "fault 51 WriteFailed\n  told/levels: the collection is in this file\n",
        5,
    ),
    (
        "sok solve told/levels 1 --cert /dev/full",
        "",
        "fault 51 WriteFailed\n  /dev/full: No space left on device (os error 28)\n",
        5,
    ),
    (
        "sok show told/book 1",
        "",
        "fault 32 Database\n  told/book: No such file or directory (os error 2)\n",
        5,
    ),
    (
        "sok show told/cert 1",
        "",
        "fault 32 Database\n  told/cert: the file is no database\n",
        5,
    ),
    (
        "sok list told/near",
        "1 2 5 1 1 ##\n",
        "line 1: byte 0 is no board character\nline 5: byte 2 is no board character\nline 6: byte 5 is no board character\n",
        0,
    ),
    (
        "sok list told/\u{1b}[2J\nfault",
        "",
        "fault 50 ReadFailed\n  told/\\x1b[2J\\x0afault: No such file or directory (os error 2)\n",
        5,
    ),
    (
        "sok list told/returns",
        "",
        "no level was found: line ends are CR alone\n",
        0,
    ),
    (
        "sok solve told/wide 1",
        "",
        "fault 15 NoSuchLevel\nno level was found: the text is UTF-16\n",
        3,
    ),
    ("sok list told/cert", "", "no level was found\n", 0),
    (
        "sok add told/kept told/levels",
        "1 id 1\n2 fault 4 ManyPlayers\n3 fault 8 TooFewGoals\n4 id 2\n",
        "2 new, 2 with a fault\n",
        0,
    ),
    (
        "sok add told/kept told/levels",
        "1 id 1\n2 fault 4 ManyPlayers\n3 fault 8 TooFewGoals\n4 id 2\n",
        "2 already there, 2 with a fault\n",
        0,
    ),
    (
        "sok add told/kept told/returns",
        "",
        "no level was found: line ends are CR alone\n",
        0,
    ),
    (
        "sok offers told/kept told/offers",
        "1 stored 1 1\n1 kept 1 1\n9 fault 30 NoLevel\n",
        "1 stored, 1 kept, 1 with a fault\n",
        3,
    ),
    (
        "sok offers told/kept told/other",
        "0 fault 30 NoLevel\n0 fault 30 NoLevel\n1 kept 1 1\n0 fault 30 NoLevel\n0 fault 30 NoLevel\n0 fault 11 BadLetter 0\n",
        "line 1: byte 1 is no digit of an id\nline 2: byte 0 is no digit of an id\nline 6: byte 0 is no digit of an id\nline 7: the id is too large\nline 8: byte 2 is no digit of an id\n1 kept, 5 with a fault\n",
        3,
    ),
    (
        "sok settle told/kept --limit 1",
        "1 optimal 1 1\n2 limit 1 at least 2\n",
        "1 optimal, 1 at their limit\n",
        4,
    ),
    ("sok offers told/kept told/empty", "", "", 0),
    // its line has a counted word, but it is one level and no list of them
    (
        "sok prove told/kept 1 told/cert",
        "proved optimal 1\n",
        "",
        0,
    ),
];

/// A byte order mark, a tab, an extra carriage return, and titles.
const NEAR: &str = "\u{feff}#####\n#@$.#\n#####\n; #1\n#@\t$.#\n#####\r\r\nTitle: ##\n";

/// Three rows with CR alone as the end of a line.
const RETURNS: &str = "#####\r#@$.#\r#####\r";

/// The front of a board in UTF-16.
const WIDE: &str = "#\0#\0#\0\n\0";

/// A solution of the first level, twice, and letters for a level that is not there.
const OFFERS: &str = "1 R\n1 R\n9 R\n";

/// Lines that begin with no id, and others: blanks, and an id with zeros in front.
const OTHER: &str = "1:R\r\n#comment\n\n \t\n001 R\n R\n4294967296 R\n12\u{a0}R x";

/// Runs the program over watched files, reports what was noted, and returns the status.
fn run_told<W: Write + Drop>(rt: &HostRuntime, words: &[String], out: W, err: &mut Vec<u8>) -> u8 {
    let notes = Notes::new(*rt);
    let mut out = WatchedOutput::of_answer(out, &notes);
    let watched = Watched::new(rt, &notes);
    let status = run_watched(&watched, words, &mut b"".as_slice(), &mut out, err);
    notes.tell(status, err);
    status
}

/// Returns whether a row has these results.
fn is_told(rt: &HostRuntime, row: Row) -> Result<bool, AllocError> {
    let (line, text, told, status) = row;
    let words = words(rt.alloc(), line)?;
    let mut out = Vec::new(rt.alloc());
    let mut err = Vec::new(rt.alloc());
    let is_ended = run_told(rt, words.as_slice(), &mut out, &mut err) == status;
    Ok(is_ended && out.as_slice() == text.as_bytes() && err.as_slice() == told.as_bytes())
}

/// Returns the first row with other results.
pub(crate) fn first_other(
    rt: &HostRuntime,
    rows: &[Row],
) -> Result<Option<&'static str>, AllocError> {
    for row in rows {
        if !is_told(rt, *row)? {
            return Ok(Some(row.0));
        }
    }
    Ok(None)
}

/// Returns what is reported if the output is full.
fn told_when_full(rt: &HostRuntime) -> Result<Vec<u8>, AllocError> {
    let words = words(rt.alloc(), "sok list told/levels")?;
    let mut err = Vec::new(rt.alloc());
    run_told(rt, words.as_slice(), [0u8; 4].as_mut_slice(), &mut err);
    Ok(err)
}

#[test]
fn what_is_reported_beside_an_answer(rt: HostRuntime) -> Result<(), Fail> {
    prepare(&rt, "told")?;
    put(&rt, "told", "near", NEAR)?;
    put(&rt, "told", "returns", RETURNS)?;
    put(&rt, "told", "wide", WIDE)?;
    put(&rt, "told", "offers", OFFERS)?;
    put(&rt, "told", "other", OTHER)?;
    put(&rt, "told", "empty", "")?;
    let other = first_other(&rt, &TOLD)?;
    assert_eq!(rt; other, None);
    let told = told_when_full(&rt)?;
    let full = b"fault 51 WriteFailed\n  standard output: write zero\n";
    assert_eq!(rt; told.as_slice(), full.as_slice());
    fs::remove_dir_all(&rt, "told")?;
    Ok(())
}

/// Returns what is reported of certificates that were written.
fn told_of(rt: &HostRuntime, notes: &Notes) -> Vec<u8> {
    let mut err = Vec::new(rt.alloc());
    notes.tell(0, &mut err);
    err
}

/// Writes as many bytes as a certificate that is read may have.
fn write_longest<W: Write>(out: &mut W) -> io::Result<()> {
    let piece = [b'x'; 65_536];
    for _ in 0..4096 {
        out.write_all(&piece)?;
    }
    Ok(())
}

#[test]
fn certificates_that_are_too_long_to_be_read(rt: HostRuntime) -> Result<(), Fail> {
    let notes = Notes::new(rt);
    let mut first = WatchedOutput::new(io::sink(), "kept/1.cert", &notes);
    write_longest(&mut first)?;
    assert_eq!(rt; told_of(&rt, &notes).as_slice(), b"".as_slice());
    first.write_all(b"end")?;
    first.write_all(b"\n")?;
    let told = b"kept/1.cert: longer than check and prove read\n";
    assert_eq!(rt; told_of(&rt, &notes).as_slice(), told.as_slice());
    let mut next = WatchedOutput::new(io::sink(), "kept/2.cert", &notes);
    write_longest(&mut next)?;
    next.write_all(b"\n")?;
    let told = b"kept/1.cert: longer than check and prove read\n1 more such files\n";
    assert_eq!(rt; told_of(&rt, &notes).as_slice(), told.as_slice());
    Ok(())
}
