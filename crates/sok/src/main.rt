//! The Sokoban workbench, over the words and streams of its process.
#![tactic(auto)]

use sok_databases::guarded::Guarded;
use sok_engine::fault::ToolFault;
use sok_files::ending::ended;
use sok_files::notes::Notes;
use sok_files::watched::{Watched, WatchedErrors, WatchedInput, WatchedOutput};
use sok_tool::program::run;
use std::io::{ErrorKind, IsTerminal, Read, Write};
use std::process::ExitCode;
use std::{env, io};

fn main(rt: HostRuntime) -> ExitCode {
    let words: io::Result<Vec<String>> = env::args(&rt).and_then(|args| {
        Ok(args.collect(rt.alloc())?)
    });
    let status = match words {
        Ok(words) => run_watched(&rt, words.as_slice(), rt.stderr()),
        Err(error) if error.kind() == ErrorKind::InvalidData => {
            let _ = rt.stderr().write_all(b"error: a word is not valid UTF-8\n");
            2
        }
        Err(_) => ended(Err(ToolFault::Memory), &mut rt.stderr()),
    };
    ExitCode::from(status)
}

/// Runs the program, and reports after its answer what was noted meanwhile.
fn run_watched<E: Write + Drop>(rt: &HostRuntime, words: &[String], err: E) -> u8 {
    let notes = Notes::new(*rt);
    let mut err = WatchedErrors::new(err, &notes);
    if words.len() < 2 && rt.stdin().is_terminal() {
        let _ = err.write_all(WAITS);
    }
    let status = run_noted(rt, words, &notes, &mut err);
    notes.tell(status, &mut err);
    status
}

/// Runs the program over watched streams and files.
fn run_noted<E: Write>(rt: &HostRuntime, words: &[String], notes: &Notes, err: &mut E) -> u8 {
    let mut input = WatchedInput::new(rt.stdin(), "standard input", notes);
    let watched = Watched::new(rt, notes);
    let out = WatchedOutput::of_answer(rt.stdout(), notes);
    let mut out = Guarded::new(&watched, out);
    run_on(&watched, words, &mut input, &mut out, err)
}

/// What is written at a terminal if the program is run without words.
const WAITS: &[u8] =
    b"type a line of letters, then a level, then Ctrl-D (`sok --help` lists the commands)\n";

/// Runs the program over streams of any kind. It has no contract: that of `run` is proved once for
/// all streams, and would be too long for these types.
fn run_on<R: Read, W: Write, E: Write>(
    watched: &Watched<'_, HostRuntime>,
    words: &[String],
    input: &mut R,
    out: &mut W,
    err: &mut E,
) -> u8 {
    run(watched, words, input, out, err)
}
