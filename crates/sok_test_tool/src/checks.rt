//! The judgement of a certificate for a level of a collection: the whole answer.

use crate::devices::{Failure, Sink, Source};
use sok_board::fault::BoardFault;
use sok_engine::fault::ToolFault;
use sok_judge::check::check_bytes;
use sok_rules::cell::Spot;
use sok_rules::fault::LevelFault;
use sok_sketch::{rooms, sketch};
use std::alloc::Global;
use std::io::{Read, Write};
use std::test::Fail;

/// Returns the text of a certificate that has these lines after the first.
fn certificate(alloc: Global, lines: &str) -> Result<String, Fail> {
    let mut text = String::from_str(alloc, "sokoban-certificate 1\n")?;
    text.push_str(lines)?;
    Ok(text)
}

/// Judges a certificate. It has none of the engine's contract, which no test needs.
fn checked<R: Read, C: Read, W: Write>(
    alloc: Global,
    input: &mut R,
    n: usize,
    cert_input: &mut C,
    out: &mut W,
) -> Result<u8, ToolFault> {
    check_bytes(alloc, input, n, cert_input, out)
}

/// A level, the lines of a certificate after the first, the line that is written, and the status.
const ANSWERS: [(&str, &str, &str, u8); 15] = [
    (
        sketch::ONE_PUSH,
        "pushes 1\nb 0 0 1 1 1 0\nend\n",
        "accepted at least 1 pushes\n",
        0,
    ),
    (
        sketch::TWO_IN_A_ROW,
        "unsolvable\nf 0 0 2 1 2 2 0 1\nend",
        "accepted unsolvable\n",
        0,
    ),
    (sketch::ONE_PUSH, "", "refused 20 Header\n", 1),
    (
        sketch::ONE_PUSH,
        "pushes 1\nb\nend\n",
        "refused 21 Line 3\n",
        1,
    ),
    (sketch::ONE_PUSH, "pushes 1\n", "refused 22 Truncated\n", 1),
    (sketch::ONE_PUSH, "pushes 1\nend\n", "refused 23 Start\n", 1),
    (
        sketch::ONE_PUSH,
        "pushes 1\nb 0 0 1 1 1 0\nb 0 0 1 1 1 0\nend\n",
        "refused 24 Duplicate 1\n",
        1,
    ),
    (
        sketch::ONE_PUSH,
        "pushes 1\ns 0 0 1 9\nend\n",
        "refused 25 BadEntry 0\n",
        1,
    ),
    (
        sketch::SOLVED,
        "pushes 0\nx 0 0 1 2\nend\n",
        "refused 26 SolvedEntry 0\n",
        1,
    ),
    (
        sketch::ONE_PUSH_LEFT,
        "pushes 1\nx 0 2 1 1\nend\n",
        "refused 27 OpenPush 0 1 left\n",
        1,
    ),
    (
        sketch::ONE_PUSH_UP,
        "pushes 1\nx 0 2 1 1\nend\n",
        "refused 27 OpenPush 0 1 up\n",
        1,
    ),
    (
        sketch::ONE_PUSH,
        "pushes 1\nx 0 0 1 1\nend\n",
        "refused 27 OpenPush 0 1 right\n",
        1,
    ),
    (
        sketch::ONE_PUSH_DOWN,
        "pushes 1\nx 0 0 1 1\nend\n",
        "refused 27 OpenPush 0 1 down\n",
        1,
    ),
    (
        sketch::ONE_PUSH,
        "unsolvable\ns 0 0 1 1\nend\n",
        "refused 28 BadReason 0\n",
        1,
    ),
    // a packed line of 100 columns
    (
        "100#|#@$95-.#|100#\n",
        "pushes 96\nb 0 0 1 1 96 0\nend\n",
        "accepted at least 96 pushes\n",
        0,
    ),
];

/// Returns whether a certificate with these lines gets this answer for the second level of a
/// collection, whose first level is faulty.
fn is_answered(
    rt: &HostRuntime,
    level: &str,
    lines: &str,
    line: &str,
    status: u8,
) -> Result<bool, Fail> {
    let mut boards = String::from_str(rt.alloc(), "#####\n#$ .#\n#####\n\n")?;
    boards.push_str(level)?;
    let text = certificate(rt.alloc(), lines)?;
    let mut out = Vec::new(rt.alloc());
    let told = checked(
        rt.alloc(),
        &mut boards.as_bytes(),
        2,
        &mut text.as_bytes(),
        &mut out,
    );
    Ok(told == Ok(status) && out.as_slice() == line.as_bytes())
}

#[test]
fn answers(rt: HostRuntime) -> Result<(), Fail> {
    for &(level, lines, line, status) in &ANSWERS {
        assert!(rt; is_answered(&rt, level, lines, line, status)?, "{lines}");
    }
    Ok(())
}

/// Returns whether a level is refused with this fault, and nothing is written. Only for
/// `ReadFailed` is the certificate read, and its second read fails.
fn is_refused(rt: &HostRuntime, boards: &str, n: usize, fault: ToolFault) -> bool {
    let mut cert_input = Source::new(b"no certificate", 2);
    let mut out = Vec::new(rt.alloc());
    let told = checked(
        rt.alloc(),
        &mut boards.as_bytes(),
        n,
        &mut cert_input,
        &mut out,
    );
    let reads = if fault == ToolFault::ReadFailed { 2 } else { 0 };
    told == Err(fault) && out.is_empty() && cert_input.reads == reads
}

/// Faults that come before the certificate is read, and a certificate whose read fails.
#[test]
fn faults_of_levels_and_boards(rt: HostRuntime) -> Result<(), Fail> {
    for &(boards, n, fault) in &[
        ("", 1, ToolFault::Level(LevelFault::NoSuchLevel)),
        (
            sketch::ONE_PUSH,
            0,
            ToolFault::Level(LevelFault::NoSuchLevel),
        ),
        (
            sketch::ONE_PUSH,
            2,
            ToolFault::Level(LevelFault::NoSuchLevel),
        ),
        (
            sketch::TWO_PLAYERS,
            1,
            ToolFault::Level(LevelFault::ManyPlayers),
        ),
        (
            sketch::OPEN_AT_THE_SIDE,
            1,
            ToolFault::Board(BoardFault::NotEnclosed(Spot { row: 1, col: 3 })),
        ),
        (
            sketch::STRAY_BOX,
            1,
            ToolFault::Board(BoardFault::BoxOutside(Spot { row: 1, col: 5 })),
        ),
        (
            sketch::NO_GOAL,
            1,
            ToolFault::Board(BoardFault::TooFewGoals),
        ),
        (sketch::ONE_PUSH, 1, ToolFault::ReadFailed),
    ] {
        assert!(rt; is_refused(&rt, boards, n, fault), "{boards}");
    }
    for &(room, fault) in &[
        (rooms::ROOM_OF_4097, ToolFault::Board(BoardFault::TooLarge)),
        (
            rooms::ROOM_OF_129_BOXES,
            ToolFault::Board(BoardFault::TooManyBoxes),
        ),
    ] {
        let boards = room.text(rt.alloc())?;
        assert!(rt; is_refused(&rt, boards.as_str(), 1, fault), "{fault}");
    }
    Ok(())
}

/// Returns whether an endless collection is refused with this fault after `reads` reads, each of a
/// whole buffer.
fn is_read(rt: &HostRuntime, fails_at: u32, reads: u32, fault: ToolFault) -> bool {
    let mut input = Source::new(&[b'#'; 4096], fails_at);
    let mut out = Vec::new(rt.alloc());
    let told = checked(rt.alloc(), &mut input, 1, &mut b"".as_slice(), &mut out);
    told == Err(fault) && out.is_empty() && input.reads == reads
}

/// Does the same for an endless certificate.
fn is_read_for_a_level(rt: &HostRuntime, reads: u32, fault: ToolFault) -> bool {
    let mut cert_input = Source::new(&[b'x'; 4096], 0);
    let mut out = Vec::new(rt.alloc());
    let told = checked(
        rt.alloc(),
        &mut sketch::ONE_PUSH.as_bytes(),
        1,
        &mut cert_input,
        &mut out,
    );
    told == Err(fault) && out.is_empty() && cert_input.reads == reads
}

/// A collection that can't be read, an endless one, and an endless certificate.
#[test]
fn reads_that_fail_and_inputs_without_end(rt: HostRuntime) {
    assert!(rt; is_read(&rt, 2, 2, ToolFault::ReadFailed));
    assert!(rt; is_read(&rt, 0, 4097, ToolFault::TooMuch));
    assert!(rt; is_read_for_a_level(&rt, 65_537, ToolFault::TooMuch));
}

/// Returns whether a judgement stops at the write after `taken` bytes, which fails.
fn stops_behind(rt: &HostRuntime, cert: &str, taken: usize, failure: Failure) -> bool {
    let mut out = Sink::new(rt.alloc(), taken.saturating_add(1), failure);
    let told = checked(
        rt.alloc(),
        &mut sketch::ONE_PUSH.as_bytes(),
        1,
        &mut cert.as_bytes(),
        &mut out,
    );
    told == Err(ToolFault::WriteFailed) && out.has(b"accepted at least 1 pushes\n", taken)
}

/// After a write that fails there is no further one, though it would succeed.
#[test]
fn writes_that_fail_once(rt: HostRuntime) -> Result<(), Fail> {
    let text = certificate(rt.alloc(), "pushes 1\nb 0 0 1 1 1 0\nend\n")?;
    for &failure in &[Failure::Error, Failure::Nothing] {
        for taken in 0..27 {
            assert!(rt; stops_behind(&rt, text.as_str(), taken, failure), "{taken}");
        }
    }
    Ok(())
}
