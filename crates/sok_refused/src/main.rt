//! Makes calls that the words of the program do not reach, and compares what they answer and what
//! they leave: play in a session, a table of states, and the solver by itself. Each line of the
//! input names a run, and for each a line is written. It is `same` if all calls did what they
//! should. It is `memory` if memory was refused to a call, which then left its arguments as they
//! were, and did what it should when it was made again. Otherwise it is `other` and the place of
//! the first call, from 0, that did not, and the status is 1.
#![tactic(auto)]

mod playing;
mod solving;
mod tabling;
mod telling;

use crate::telling::Told;
use sok_sketch::sketch;
use std::alloc::Global;
use std::io;
use std::io::ErrorKind;
use std::process::ExitCode;

fn main(rt: HostRuntime) -> io::Result<ExitCode> {
    let mut status = 0;
    for line in rt.lines(rt.alloc()) {
        let told = match line {
            Ok(name) => told_of(rt.alloc(), name.as_str()),
            Err(error) => return unread(&rt, error),
        };
        println!(rt; "{told}")?;
        if let Told::Other(_) = told {
            status = 1;
        }
    }
    Ok(ExitCode::from(status))
}

/// Reports a line that could not be read because memory was refused to it.
fn unread(rt: &impl Print, error: io::Error) -> io::Result<ExitCode> {
    if error.kind() != ErrorKind::OutOfMemory {
        return Err(error);
    }
    let told = Told::Refused;
    println!(rt; "{told}")?;
    Ok(ExitCode::from(0))
}

/// Makes the run with a name.
fn told_of(alloc: Global, name: &str) -> Told {
    match name {
        "a session" => playing::told_of(alloc),
        "a table for 64 squares" => tabling::told_of(alloc, 64),
        "a table for 128 squares" => tabling::told_of(alloc, 128),
        "a table for 256 squares" => tabling::told_of(alloc, 256),
        "a table for 1024 squares" => tabling::told_of(alloc, 1_024),
        "a table for 4096 squares" => tabling::told_of(alloc, 4_096),
        "two in a row" => solving::told_of(alloc, sketch::TWO_IN_A_ROW, None),
        "corridor" => solving::told_of(alloc, sketch::CORRIDOR_OF_SIX_PUSHES, Some(6)),
        "two boxes for one goal" => solving::told_of(alloc, sketch::TWO_BOXES_FOR_ONE_GOAL, None),
        "three goals" => solving::told_of(alloc, sketch::TWO_BOXES_AND_THREE_GOALS, Some(2)),
        _ => Told::Other(0),
    }
}
