//! The engines without their contracts. A test that called one directly would be checked against
//! all of that.

use sok_engine::fault::ToolFault;
use sok_engine::serving::serve;
use sok_solve::task::Task;
use std::alloc::Global;
use std::io::{Read, Write};

/// The task of solving the n-th level, with no solution known.
fn task(n: u32, limit: u32, bound: bool) -> Task {
    Task {
        n,
        below: None,
        limit,
        bound,
    }
}

pub(crate) fn solve_bytes<R: Read, W: Write, C: Write>(
    alloc: Global,
    input: &mut R,
    n: u32,
    limit: u32,
    bound: bool,
    out: &mut W,
    cert: &mut C,
) -> Result<u8, ToolFault> {
    sok_solve::solve::solve_bytes(alloc, input, &task(n, limit, bound), out, cert)
}

pub(crate) fn find_bytes<R: Read, W: Write>(
    alloc: Global,
    input: &mut R,
    n: u32,
    limit: u32,
    bound: bool,
    out: &mut W,
) -> Result<u8, ToolFault> {
    serve(alloc, &task(n, limit, bound), input, out)
}

pub(crate) fn check_bytes<R: Read, C: Read, W: Write>(
    alloc: Global,
    input: &mut R,
    n: usize,
    cert: &mut C,
    out: &mut W,
) -> Result<u8, ToolFault> {
    sok_judge::check::check_bytes(alloc, input, n, cert, out)
}

pub(crate) fn replay_bytes<R: Read, W: Write>(
    alloc: Global,
    input: &mut R,
    n: usize,
    text: &[u8],
    out: &mut W,
) -> Result<u8, ToolFault> {
    sok_play::play::replay_bytes(alloc, input, n, text, out)
}

pub(crate) fn play_bytes<R: Read, W: Write>(
    alloc: Global,
    input: &mut R,
    out: &mut W,
) -> Result<u8, ToolFault> {
    sok_play::play::play_bytes(alloc, input, out)
}

pub(crate) fn list_bytes<R: Read, W: Write>(
    alloc: Global,
    input: &mut R,
    out: &mut W,
) -> Result<u8, ToolFault> {
    sok_play::listing::list_bytes(alloc, input, out)
}
