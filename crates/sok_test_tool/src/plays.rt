//! The replay of a text, its words and its streams.

use crate::devices::{Failure, Sink, Source};
use crate::rows::{Ended, run_on};
use sok_sketch::sketch;
use std::alloc::{AllocError, Global};
use std::io::Read;
use std::test::Fail;

/// Runs the program without words.
fn played<R: Read>(rt: &HostRuntime, input: &mut R) -> Result<Ended, AllocError> {
    let mut out = Vec::new(rt.alloc());
    let mut err = Vec::new(rt.alloc());
    let mut words = Vec::new(rt.alloc());
    words.push(String::from_str(rt.alloc(), "sok")?)?;
    let status = run_on(rt, words.as_slice(), input, &mut out, &mut err);
    Ok(Ended { status, out, err })
}

/// Joins two texts.
fn joined(alloc: Global, front: &str, behind: &str) -> Result<String, AllocError> {
    let mut text = String::from_str(alloc, front)?;
    text.push_str(behind)?;
    Ok(text)
}

const WITH_RETURNS: &str = "-#####\r\n-#@$.#\r\n-#####\r\n";

const TWO_LEVELS: &str = "First\n\n#####\n#@$.#\n#####\n\n####\n#@$#\n####";

const TOO_WIDE: &str =
    "#@$.#\n#################################################################################################################################\n";

/// A text with its line end and a collection; the line that is written, and the status. The line is
/// on the output, or on the error stream if the status is 3.
type Play = (&'static str, &'static str, &'static str, u8);

const PLAYS: [Play; 21] = [
    ("ulldRR\n", sketch::ROOM_OF_TWO_ROWS, "solved 2 6\n", 0),
    (" U\t l \n", sketch::ROOM_OF_TWO_ROWS, "open 0 2\n", 1),
    ("\n", sketch::ROOM_OF_TWO_ROWS, "open 0 0\n", 1),
    // pushed over the goal and back
    (
        "ulldRRurrdL\n",
        sketch::WIDE_ROOM_OF_TWO_ROWS,
        "open 3 11\n",
        1,
    ),
    (
        "RRurrdLLLL\n",
        sketch::CORRIDOR_OF_SIX_PUSHES,
        "solved 6 10\n",
        0,
    ),
    (
        "RRdrruLLLL\n",
        sketch::CORRIDOR_OF_SIX_PUSHES,
        "solved 6 10\n",
        0,
    ),
    (
        "rrrdRullldR\n",
        sketch::TWO_BOXES_AND_THREE_GOALS,
        "solved 2 11\n",
        0,
    ),
    ("R\n", sketch::OPEN_AT_THE_SIDE, "solved 1 1\n", 0),
    ("r\r\n", WITH_RETURNS, "solved 1 1\n", 0),
    ("r\n", TWO_LEVELS, "solved 1 1\n", 0),
    ("", "", "fault 15 NoSuchLevel\n", 3),
    ("ulldRR", "", "fault 15 NoSuchLevel\n", 3),
    ("ulx\n", "No level\n", "fault 15 NoSuchLevel\n", 3),
    // both the level and the text are faulty
    ("x\n", sketch::TWO_PLAYERS, "fault 4 ManyPlayers\n", 3),
    ("r\n", sketch::NO_PLAYER, "fault 3 NoPlayer\n", 3),
    ("r\n", sketch::NO_BOX, "fault 5 NoBox\n", 3),
    ("r\n", TOO_WIDE, "fault 1 TooWide\n", 3),
    (
        "ulxR\n",
        sketch::ROOM_OF_TWO_ROWS,
        "fault 11 BadLetter 2\n",
        3,
    ),
    // a letter that is not legal, before a byte that is no letter
    (
        "uux\n",
        sketch::ROOM_OF_TWO_ROWS,
        "fault 11 BadLetter 2\n",
        3,
    ),
    ("uu\n", sketch::ROOM_OF_TWO_ROWS, "fault 12 Blocked 1\n", 3),
    ("u u\n", sketch::ROOM_OF_TWO_ROWS, "fault 12 Blocked 1\n", 3),
];

/// Returns whether a text, and what follows it, get this answer.
fn is_answered(
    rt: &HostRuntime,
    text: &str,
    boards: &str,
    line: &str,
    status: u8,
) -> Result<bool, AllocError> {
    let input = joined(rt.alloc(), text, boards)?;
    let ended = played(rt, &mut input.as_bytes())?;
    if status == 3 {
        Ok(ended.told("", line, status))
    } else {
        Ok(ended.told(line, "", status))
    }
}

#[test]
fn texts_on_levels(rt: HostRuntime) -> Result<(), Fail> {
    for &(text, boards, line, status) in &PLAYS {
        assert!(rt;
            is_answered(&rt, text, boards, line, status)?,
            "{text}{boards}"
        );
    }
    Ok(())
}

#[test]
fn a_million_letters_and_no_more(rt: HostRuntime) -> Result<(), Fail> {
    let million = "ud".repeat(rt.alloc(), 500_000)?;
    for &(more, line, status) in &[
        ("\n", "open 0 1000000\n", 1),
        ("u\n", "fault 14 TooLong\n", 3),
    ] {
        let text = joined(rt.alloc(), million.as_str(), more)?;
        let answered = is_answered(&rt, text.as_str(), sketch::ROOM_OF_TWO_ROWS, line, status)?;
        assert!(rt; answered, "{line}");
    }
    Ok(())
}

/// Returns whether an endless input is read so often, and gets this line.
fn is_read(
    rt: &HostRuntime,
    fails_at: u32,
    reads: u32,
    line: &str,
    status: u8,
) -> Result<bool, AllocError> {
    let mut input = Source::new(b"################", fails_at);
    let ended = played(rt, &mut input)?;
    Ok(input.reads == reads && ended.told("", line, status))
}

/// The input is read up to the read that fails, or to one past the limit of 16 MiB, and no further.
#[test]
fn reads_that_fail_and_inputs_without_end(rt: HostRuntime) -> Result<(), Fail> {
    for &(fails_at, reads, line, status) in &[
        (1, 1, "fault 50 ReadFailed\n", 5),
        (2, 2, "fault 50 ReadFailed\n", 5),
        (0, 1_048_577, "fault 52 TooMuch\n", 3),
    ] {
        assert!(rt; is_read(&rt, fails_at, reads, line, status)?, "{fails_at}");
    }
    Ok(())
}

/// Returns whether the program stops at the write after `taken` bytes, which fails.
fn stops_behind(rt: &HostRuntime, input: &str, taken: usize, failure: Failure) -> bool {
    let mut out = Sink::new(rt.alloc(), taken.saturating_add(1), failure);
    let mut err = Vec::new(rt.alloc());
    let status = run_on(rt, &[], &mut input.as_bytes(), &mut out, &mut err);
    status == 5
        && err.as_slice() == b"fault 51 WriteFailed\n".as_slice()
        && out.has(b"solved 2 6\n", taken)
}

/// After a write that fails there is no further one, though it would succeed.
#[test]
fn writes_that_fail_once(rt: HostRuntime) -> Result<(), Fail> {
    let input = joined(rt.alloc(), "ulldRR\n", sketch::ROOM_OF_TWO_ROWS)?;
    for &failure in &[Failure::Error, Failure::Nothing] {
        for taken in 0..11 {
            assert!(rt;
                stops_behind(&rt, input.as_str(), taken, failure),
                "{taken}"
            );
        }
    }
    Ok(())
}

#[test]
fn no_fault_can_be_printed(rt: HostRuntime) {
    let mut out = Vec::new(rt.alloc());
    let mut err = Sink::new(rt.alloc(), 1, Failure::Error);
    let status = run_on(&rt, &[], &mut b"".as_slice(), &mut out, &mut err);
    assert_eq!(rt; status, 3);
    assert!(rt; err.writes == 1 && err.taken.is_empty());
}
