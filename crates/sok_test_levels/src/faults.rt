//! What is refused, and writers that are full.

use crate::answers::{Reply, answered};
use crate::engines::{find_bytes, solve_bytes};
use crate::solves::ZERKALO;
use sok_board::fault::BoardFault;
use sok_engine::fault::ToolFault;
use sok_rules::cell::Spot;
use sok_rules::fault::LevelFault;
use sok_sketch::sketch;
use std::alloc::Global;
use std::io;
use std::io::Write;
use std::test::Fail;

/// Takes so many bytes, one at each write, and fails after that.
#[derive(Drop)]
struct Full {
    taken: Vec<u8>,
    room: usize,
    failed: usize,
}

impl Full {
    fn new(alloc: Global, room: usize) -> Full {
        Full {
            taken: Vec::new(alloc),
            room,
            failed: 0,
        }
    }

    /// Returns whether it took the front of a text that it has room for, and was then written to
    /// once.
    fn has(&self, whole: &[u8]) -> bool {
        self.failed == 1 && Some(self.taken.as_slice()) == whole.get(..self.room)
    }
}

impl Write for Full {
    fn write(&mut self, buf: &[u8]) -> io::Result<usize> {
        if self.taken.len() >= self.room {
            self.failed = self.failed.saturating_add(1);
            return Err(io::Error::from(io::ErrorKind::StorageFull));
        }
        let Some(byte) = buf.first() else {
            return Ok(0);
        };
        self.taken.push(*byte)?;
        Ok(1)
    }

    fn flush(&mut self) -> io::Result<()> {
        Ok(())
    }
}

/// Returns whether a level is refused with this fault and nothing is written, with a certificate
/// and without one.
fn refuses(alloc: Global, board: &str, n: u32, limit: u32, fault: ToolFault) -> bool {
    let mut out = Vec::new(alloc);
    let mut cert = Vec::new(alloc);
    let solved = solve_bytes(
        alloc,
        &mut board.as_bytes(),
        n,
        limit,
        false,
        &mut out,
        &mut cert,
    );
    let found = find_bytes(alloc, &mut board.as_bytes(), n, limit, false, &mut out);
    solved == Err(fault) && found == Err(fault) && out.is_empty() && cert.is_empty()
}

#[test]
fn refusals(rt: HostRuntime) {
    for &(board, n, limit, fault) in &[
        ("", 1, 10, ToolFault::Level(LevelFault::NoSuchLevel)),
        (
            sketch::ONE_PUSH,
            0,
            10,
            ToolFault::Level(LevelFault::NoSuchLevel),
        ),
        // the faults of a level come before its limit, and the limit before the board
        (
            sketch::TWO_PLAYERS,
            1,
            0,
            ToolFault::Level(LevelFault::ManyPlayers),
        ),
        (sketch::OPEN_AT_THE_SIDE, 1, 0, ToolFault::BadLimit),
        (sketch::CORRIDOR_OF_SIX_PUSHES, 1, 0, ToolFault::BadLimit),
        (
            sketch::CORRIDOR_OF_SIX_PUSHES,
            1,
            1_000_001,
            ToolFault::BadLimit,
        ),
        (
            sketch::OPEN_AT_THE_SIDE,
            1,
            10,
            ToolFault::Board(BoardFault::NotEnclosed(Spot { row: 1, col: 3 })),
        ),
        (
            sketch::STRAY_BOX,
            1,
            10,
            ToolFault::Board(BoardFault::BoxOutside(Spot { row: 1, col: 5 })),
        ),
        (
            sketch::NO_GOAL,
            1,
            10,
            ToolFault::Board(BoardFault::TooFewGoals),
        ),
    ] {
        assert!(rt; refuses(rt.alloc(), board, n, limit, fault), "{board}");
    }
}

/// Returns whether a full writer of the certificate has the front of it and is not written to
/// again, and nothing of the answer is written.
fn is_full(alloc: Global, board: &str, limit: u32, whole: &[u8], room: usize) -> bool {
    let mut cert = Full::new(alloc, room);
    let mut out = Vec::new(alloc);
    let told = solve_bytes(
        alloc,
        &mut board.as_bytes(),
        1,
        limit,
        false,
        &mut out,
        &mut cert,
    );
    told == Err(ToolFault::WriteFailed) && cert.has(whole) && out.is_empty()
}

/// Returns whether the certificate is written whole, and a full writer of the answer has the front
/// of it and is not written to again.
fn is_full_behind(alloc: Global, board: &str, limit: u32, whole: &Reply, room: usize) -> bool {
    let mut cert = Vec::new(alloc);
    let mut out = Full::new(alloc, room);
    let told = solve_bytes(
        alloc,
        &mut board.as_bytes(),
        1,
        limit,
        false,
        &mut out,
        &mut cert,
    );
    told == Err(ToolFault::WriteFailed)
        && cert.as_slice() == whole.cert.as_slice()
        && out.has(&whole.out)
}

/// If the writer of the certificate is full, nothing of the answer is written. Otherwise the writer
/// of the answer is full. Neither is written to again.
#[test]
fn full_writers(rt: HostRuntime) -> Result<(), Fail> {
    let board = sketch::ROOM_OF_TWO_ROWS;
    let whole = answered(rt.alloc(), board, 10)?;
    for room in 0..whole.cert.len() {
        assert!(rt; is_full(rt.alloc(), board, 10, &whole.cert, room), "{room}");
    }
    for room in 0..whole.out.len() {
        assert!(rt;
            is_full_behind(rt.alloc(), board, 10, &whole, room),
            "{room}"
        );
    }
    Ok(())
}

/// A certificate of more than 10,000 bytes is written in two blocks or more. The writer is full
/// before the end of the first, at it, after it, and in the next one.
#[test]
fn full_behind_a_block(rt: HostRuntime) -> Result<(), Fail> {
    let whole = answered(rt.alloc(), ZERKALO, 1_000)?;
    for &room in &[8_000, 8_192, 9_000, 10_000] {
        assert!(rt;
            is_full(rt.alloc(), ZERKALO, 1_000, &whole.cert, room),
            "{room}"
        );
    }
    Ok(())
}
