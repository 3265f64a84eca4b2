//! Readers that fail at each of their reads, for the commands on a book.

use crate::answering::{Command, answer, book_in};
use crate::commands::TWO_PUSHES;
use sok_engine::fault::ToolFault;
use sok_keep::add::add_bytes;
use sok_keep::prove::prove_bytes;
use sok_sketch::sketch::ROOM_OF_TWO_ROWS;
use sok_sketch::slow::Slow;
use sok_store::book::Book;
use sqlite::{Connection, MemStore};
use std::alloc::Global;
use std::process::Abort;
use std::test::Fail;

/// A command that reads an input.
#[derive(Clone, Copy)]
enum Reading {
    Add(&'static str),
    Prove(&'static str),
}

/// Runs a command with an input of a byte per read. One read, counted from 1, fails, or none.
fn read(
    alloc: Global,
    book: &mut Book<MemStore>,
    reading: Reading,
    fails_at: usize,
    out: &mut Vec<u8>,
) -> Result<u8, ToolFault> {
    let (Reading::Add(text) | Reading::Prove(text)) = reading;
    let mut input = Slow {
        bytes: text.as_bytes(),
        reads: 0,
        fails_at,
    };
    match reading {
        Reading::Add(_) => add_bytes(alloc, book, &mut input, out),
        Reading::Prove(_) => prove_bytes(alloc, book, 1, &mut input, out),
    }
}

/// Returns what the book shows of its first level, or nothing if it has none.
fn shown(alloc: Global, book: &mut Book<MemStore>) -> Vec<u8> {
    let mut out = Vec::new(alloc);
    let _ = answer(alloc, book, Command::Show(1), &mut out);
    out
}

/// Returns whether a command has this result and output if one of its reads fails, or none.
fn is_told(
    alloc: Global,
    book: &mut Book<MemStore>,
    reading: Reading,
    fails_at: usize,
    told: Result<u8, ToolFault>,
    written: &[u8],
) -> bool {
    let mut out = Vec::new(alloc);
    read(alloc, book, reading, fails_at, &mut out) == told && out.as_slice() == written
}

/// Asserts that a command is refused if any of its reads fails, with nothing written and the book
/// as before, and that it writes this if none fails.
fn fail_each_read(
    rt: &impl Abort,
    alloc: Global,
    book: &mut Book<MemStore>,
    reading: Reading,
    line: &str,
) {
    let before = shown(alloc, book);
    let (Reading::Add(text) | Reading::Prove(text)) = reading;
    for place in 1..text.len().saturating_add(2) {
        let failed = Err(ToolFault::ReadFailed);
        assert!(rt;
            is_told(alloc, book, reading, place, failed, b""),
            "{place}"
        );
        assert!(rt;
            shown(alloc, book).as_slice() == before.as_slice(),
            "{place}"
        );
    }
    assert!(rt; is_told(alloc, book, reading, 0, Ok(0), line.as_bytes()));
}

/// Fails each read of an addition, and of a proof.
fn fail_reads(rt: &impl Abort, alloc: Global, book: &mut Book<MemStore>) -> Result<(), Fail> {
    let add = Reading::Add(ROOM_OF_TWO_ROWS);
    fail_each_read(rt, alloc, book, add, "1 id 1\n");
    let mut out = Vec::new(alloc);
    answer(alloc, book, Command::Offer(1, "ulldRR"), &mut out)?;
    let prove = Reading::Prove(TWO_PUSHES);
    fail_each_read(rt, alloc, book, prove, "proved optimal 2\n");
    Ok(())
}

#[test]
fn reads_of_commands_that_fail(rt: HostRuntime) -> Result<(), Fail> {
    let alloc = rt.alloc();
    let mut book = book_in(alloc, Connection::open_in_memory(alloc)?)?;
    fail_reads(&rt, alloc, &mut book)
}
