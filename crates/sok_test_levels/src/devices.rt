//! Readers that return a byte at a time, and fail: each engine on files, at each of its reads.

use crate::engines::{check_bytes, find_bytes, list_bytes, play_bytes, replay_bytes, solve_bytes};
use sok_engine::fault::ToolFault;
use sok_sketch::sketch::{CORRIDOR_OF_SIX_PUSHES, ROOM_OF_TWO_ROWS};
use sok_sketch::slow::Slow;
use std::alloc::Global;
use std::io::Read;
use std::process::Abort;
use std::test::Fail;

const CERT: &str = "sokoban-certificate 1\npushes 6\nx 0 4 1 5\nx 1 5 1 6\nb 2 6 1 7 4 0\nend\n";

/// A certificate with a wrong header, so that the rest is read only for its length.
const NO_CERT: &str = "sokoban-certificate 0\npushes 6\nx 0 4 1 5\nx 1 5 1 6\nend\n";

/// A certificate with a wrong first entry. Those after it are read all the same.
const BAD_ENTRY: &str = "sokoban-certificate 1\npushes 6\nx 0 4 1 99\nx 1 5 1 6\nend\n";

/// An engine, and which of its inputs is read.
#[derive(Clone, Copy, Debug)]
enum Engine {
    Play,
    List,
    Replay,
    Find,
    Solve,
    CheckLevel,
    CheckCert,
}

/// Runs an engine on a reader. What it writes to its two outputs goes to one.
fn work<R: Read>(
    alloc: Global,
    engine: Engine,
    input: &mut R,
    out: &mut Vec<u8>,
) -> Result<u8, ToolFault> {
    match engine {
        Engine::Play => play_bytes(alloc, input, out),
        Engine::List => list_bytes(alloc, input, out),
        Engine::Replay => replay_bytes(alloc, input, 1, b"ulldRR", out),
        Engine::Find => find_bytes(alloc, input, 1, 100, false, out),
        Engine::Solve => solve_bytes(alloc, input, 1, 100, false, out, &mut Vec::new(alloc)),
        Engine::CheckLevel => check_bytes(alloc, input, 1, &mut CERT.as_bytes(), out),
        Engine::CheckCert => {
            let mut level = CORRIDOR_OF_SIX_PUSHES.as_bytes();
            check_bytes(alloc, &mut level, 1, input, out)
        }
    }
}

/// Returns whether this is returned and written for a text of which one read fails, or none.
fn is_told(
    alloc: Global,
    engine: Engine,
    text: &str,
    fails_at: usize,
    told: Result<u8, ToolFault>,
    written: &[u8],
) -> bool {
    let mut input = Slow {
        bytes: text.as_bytes(),
        reads: 0,
        fails_at,
    };
    let mut out = Vec::new(alloc);
    work(alloc, engine, &mut input, &mut out) == told && out.as_slice() == written
}

/// Asserts that an engine answers a text that comes byte by byte like one that comes whole, and
/// that the answer begins with these words. If any read fails, it is `ReadFailed`, with nothing
/// written.
fn fail_each_read(rt: &impl Abort, alloc: Global, engine: Engine, text: &str, words: &str) {
    let mut whole = Vec::new(alloc);
    let told = work(alloc, engine, &mut text.as_bytes(), &mut whole);
    assert!(rt;
        told.is_ok() && whole.starts_with(words.as_bytes()),
        "{engine:?}"
    );
    assert!(rt;
        is_told(alloc, engine, text, 0, told, whole.as_slice()),
        "{engine:?}"
    );
    // the read that reports the end is one more
    for read in 1..text.len().saturating_add(2) {
        let failed = Err(ToolFault::ReadFailed);
        assert!(rt;
            is_told(alloc, engine, text, read, failed, b""),
            "{engine:?} {read}"
        );
    }
}

/// Returns a text that is played, and the board after it.
fn played(alloc: Global) -> Result<String, Fail> {
    let mut text = String::from_str(alloc, "ulldRR\n")?;
    text.push_str(ROOM_OF_TWO_ROWS)?;
    Ok(text)
}

#[test]
fn reads_that_fail(rt: HostRuntime) -> Result<(), Fail> {
    let alloc = rt.alloc();
    let played = played(alloc)?;
    fail_each_read(&rt, alloc, Engine::Play, played.as_str(), "solved 2 6\n");
    fail_reads_of_engines(&rt, alloc);
    Ok(())
}

/// Fails each read of the other engines.
fn fail_reads_of_engines(rt: &impl Abort, alloc: Global) {
    for &(engine, text, words) in &[
        (Engine::List, ROOM_OF_TWO_ROWS, "1 4 6 1 1\n"),
        (Engine::Replay, ROOM_OF_TWO_ROWS, "solved 2 6\n"),
        (Engine::Find, ROOM_OF_TWO_ROWS, "solved 2 6\n"),
        (Engine::Solve, ROOM_OF_TWO_ROWS, "solved 2 6\n"),
        (
            Engine::CheckLevel,
            CORRIDOR_OF_SIX_PUSHES,
            "accepted at least 6 pushes\n",
        ),
        (Engine::CheckCert, CERT, "accepted at least 6 pushes\n"),
        (Engine::CheckCert, NO_CERT, "refused 20 Header\n"),
        (Engine::CheckCert, BAD_ENTRY, "refused 25 BadEntry 0\n"),
    ] {
        fail_each_read(rt, alloc, engine, text, words);
    }
}
