//! Commands that are stopped at each call of the disk, and the book that is found when its files
//! are opened again.

use crate::answering::{Command, answer};
use crate::commands::TWO_PUSHES;
use sok_sketch::sketch::ROOM_OF_TWO_ROWS;
use sok_store::book::Book;
use sqlite::{Alter, Connection, Files, Options};
use sqlite_disk::{Crash, Disk, Fuse, Memory};
use std::alloc::Global;
use std::process::Abort;
use std::test::Fail;

/// The files of a database, each of which stops after some calls.
type Stopping = Files<Fuse<Memory>>;

/// A command on the book that others made, the command that shows the book then, and what it may
/// show: the last of these, if the first command has answered.
struct Stop {
    before: &'static [Command<'static>],
    command: Command<'static>,
    look: Command<'static>,
    found: &'static [&'static str],
}

const STOPS: [Stop; 4] = [
    Stop {
        before: &[
            Command::Add(ROOM_OF_TWO_ROWS),
            Command::Offer(1, "rlulldRurrdLulldRR"),
        ],
        command: Command::Offer(1, "ulldRR"),
        look: Command::Show(1),
        found: &[
            "######\n#    #\n# $@.#\n######\nbest 4 18 rlulldRurrdLulldRR\nverdict untested\n",
            "######\n#    #\n# $@.#\n######\nbest 2 6 ulldRR\nverdict untested\n",
        ],
    },
    Stop {
        before: &[Command::Add(ROOM_OF_TWO_ROWS), Command::Offer(1, "ulldRR")],
        command: Command::Prove(1, TWO_PUSHES),
        look: Command::Show(1),
        found: &[
            "######\n#    #\n# $@.#\n######\nbest 2 6 ulldRR\nverdict untested\n",
            "######\n#    #\n# $@.#\n######\nbest 2 6 ulldRR\nverdict optimal\n",
        ],
    },
    Stop {
        before: &[Command::Add(ROOM_OF_TWO_ROWS)],
        command: Command::Settle(4, 1),
        look: Command::Show(1),
        found: &[
            "######\n#    #\n# $@.#\n######\nbest none\nverdict untested\n",
            "######\n#    #\n# $@.#\n######\nbest 2 6 ulldRR\nverdict untested\n",
            "######\n#    #\n# $@.#\n######\nbest 2 6 ulldRR\nverdict optimal\n",
        ],
    },
    Stop {
        before: &[],
        command: Command::Add(
            "###\n#@#\n#$#\n#.#\n###\n\n#####\n#@$.#\n#####\n\n####\n#@*#\n####\n",
        ),
        look: Command::Export,
        found: &[
            "",
            "###\n#@#\n#$#\n#.#\n###\n\n",
            "###\n#@#\n#$#\n#.#\n###\n\n#####\n#@$.#\n#####\n\n",
            "###\n#@#\n#$#\n#.#\n###\n\n#####\n#@$.#\n#####\n\n####\n#@*#\n####\n\n",
        ],
    },
];

/// Returns a file with these bytes that stops after so many calls.
fn stopping(alloc: Global, bytes: &[u8], calls: u64) -> Result<Fuse<Memory>, Fail> {
    let mut file = Memory::new(alloc);
    file.write_at(0, bytes)?;
    file.sync()?;
    Ok(Fuse::new(file, calls))
}

/// Returns files with the bytes of others that stop after so many calls to each.
fn copy_of(alloc: Global, files: &Stopping, log: u64, db: u64) -> Result<Stopping, Fail> {
    Ok(Files {
        log: stopping(alloc, files.log.inner().bytes(), log)?,
        db: stopping(alloc, files.db.inner().bytes(), db)?,
    })
}

/// Returns what a command writes, if it answers.
fn written<S: Alter>(alloc: Global, book: &mut Book<S>, command: Command<'_>) -> Option<Vec<u8>> {
    let mut out = Vec::new(alloc);
    match answer(alloc, book, command, &mut out) {
        Ok(_) => Some(out),
        Err(_) => None,
    }
}

/// Runs a command on the book in a database. Returns what is left of the database, and what was
/// written if the command answered.
fn worked_in<S: Alter + Drop>(
    alloc: Global,
    connection: Connection<S>,
    command: Command<'_>,
) -> (S, Option<Vec<u8>>) {
    if !connection.is_autocommit() {
        return (connection.into_store(), None);
    }
    match Book::open(alloc, connection) {
        Err(refused) => (refused.connection.into_store(), None),
        Ok(mut book) => {
            let told = written(alloc, &mut book, command);
            (book.into_connection().into_store(), told)
        }
    }
}

/// Does the same for the database in some files, which is opened first. It takes files of any kind,
/// so that the contracts of the calls are read once, and not for the files that stop.
fn worked_on<D: Disk + Drop>(
    alloc: Global,
    files: Files<D>,
    command: Command<'_>,
) -> Result<(Files<D>, Option<Vec<u8>>), Fail> {
    if !files.may_be_used() {
        return Err("a sync has failed".into());
    }
    match Connection::open_files(alloc, files, Options::new(1)) {
        Err((_, left)) => Ok((left.into_files(), None)),
        Ok(connection) => {
            let (store, told) = worked_in(alloc, connection, command);
            Ok((store.close(), told))
        }
    }
}

/// Does the same for files that stop.
fn worked(
    alloc: Global,
    files: Stopping,
    command: Command<'_>,
) -> Result<(Stopping, Option<Vec<u8>>), Fail> {
    worked_on(alloc, files, command)
}

/// Returns what is left of the files after a command that answers.
fn answered(alloc: Global, files: Stopping, command: Command<'_>) -> Result<Stopping, Fail> {
    let (left, told) = worked(alloc, files, command)?;
    told.ok_or("a command was refused")?;
    Ok(left)
}

/// Returns the files of the book that commands made.
fn made(alloc: Global, commands: &[Command<'_>]) -> Result<Stopping, Fail> {
    let mut files = Files {
        log: Fuse::new(Memory::new(alloc), u64::MAX),
        db: Fuse::new(Memory::new(alloc), u64::MAX),
    };
    for command in commands {
        files = answered(alloc, files, *command)?;
    }
    Ok(files)
}

/// Returns what a command writes for the book in files, which is opened again.
fn found(alloc: Global, files: Stopping, command: Command<'_>) -> Result<String, Fail> {
    let (_, told) = worked(alloc, files, command)?;
    Ok(String::from_utf8(told.ok_or("the book is not opened again")?)?)
}

/// Asserts that the book in files shows what it may show.
fn look(
    rt: &impl Abort,
    alloc: Global,
    files: Stopping,
    stop: &Stop,
    answered: bool,
) -> Result<(), Fail> {
    let told = found(alloc, files, stop.look)?;
    let last = stop.found.last().copied();
    let may_stand = if answered {
        last == Some(told.as_str())
    } else {
        stop.found.iter().any(|text| *text == told.as_str())
    };
    assert!(rt; may_stand, "{told}");
    Ok(())
}

/// Looks at what a command leaves: all that it wrote, and what is left if the machine stops too.
fn look_twice(
    rt: &impl Abort,
    alloc: Global,
    mut left: Stopping,
    stop: &Stop,
    answered: bool,
) -> Result<(), Fail> {
    let written = copy_of(alloc, &left, u64::MAX, u64::MAX)?;
    look(rt, alloc, written, stop, answered)?;
    left.log.crash();
    left.db.crash();
    look(rt, alloc, left, stop, answered)
}

/// Stops a command after so many calls to the log and to the database, and looks at what it leaves.
/// Returns whether the command answered.
fn is_answered(
    rt: &impl Abort,
    alloc: Global,
    before: &Stopping,
    calls: (u64, u64),
    stop: &Stop,
) -> Result<bool, Fail> {
    let files = copy_of(alloc, before, calls.0, calls.1)?;
    let (left, told) = worked(alloc, files, stop.command)?;
    let answered = told.is_some();
    look_twice(rt, alloc, left, stop, answered)?;
    Ok(answered)
}

/// Stops a command after no call to one of the files, after one, and so on, until it answers.
fn stop_each(
    rt: &impl Abort,
    alloc: Global,
    before: &Stopping,
    to_log: bool,
    stop: &Stop,
) -> Result<bool, Fail> {
    for calls in 0..1_000 {
        let calls = if to_log {
            (calls, u64::MAX)
        } else {
            (u64::MAX, calls)
        };
        if is_answered(rt, alloc, before, calls, stop)? {
            return Ok(true);
        }
    }
    Ok(false)
}

/// Stops a command at each call to the log, and at each to the database.
fn stop_both(rt: &impl Abort, alloc: Global, before: &Stopping, stop: &Stop) -> Result<(), Fail> {
    for &to_log in &[true, false] {
        assert!(rt; stop_each(rt, alloc, before, to_log, stop)?);
    }
    Ok(())
}

#[test]
fn stops_at_each_call(rt: HostRuntime) -> Result<(), Fail> {
    for stop in &STOPS {
        let before = made(rt.alloc(), stop.before)?;
        stop_both(&rt, rt.alloc(), &before, stop)?;
    }
    Ok(())
}
