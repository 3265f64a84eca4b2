//! Command lines on the files of a folder, and what the program writes for each.

use sok_files::notes::Notes;
use sok_files::watched::Watched;
use sok_sketch::tutorial::Row;
use sok_tool::program::run;
use std::alloc::{AllocError, Global};
use std::fs;
use std::io::{Read, Write};
use std::test::Fail;

/// What is written for a file that can't be opened.
pub(crate) const OPEN_FAILED: &str = "fault 50 ReadFailed\n";

/// What is written for a file that can't be made.
pub(crate) const MAKE_FAILED: &str = "fault 51 WriteFailed\n";

/// Four levels: one of one push, a faulty one, one with fewer goals than boxes, and a room.
const LEVELS: &str = "\
; First
#####
#@$.#
#####

######
#@$@.#
######

#####
#@$ #
#####

; The room
######
#    #
# $@.#
######
";

/// A certificate for the first.
const CERT: &str = "sokoban-certificate 1\npushes 1\nb 0 0 1 1 1 0\nend\n";

/// Makes a folder with the levels and the certificate.
pub(crate) fn prepare(rt: &HostRuntime, folder: &str) -> Result<(), Fail> {
    let _ = fs::remove_dir_all(rt, folder);
    fs::create_dir(rt, folder)?;
    put(rt, folder, "levels", LEVELS)?;
    put(rt, folder, "cert", CERT)
}

pub(crate) fn put(rt: &HostRuntime, folder: &str, name: &str, text: &str) -> Result<(), Fail> {
    let path = format!(in rt.alloc(); "{folder}/{name}")?;
    fs::write(rt, path.as_str(), text)?;
    Ok(())
}

/// Returns the words of a line, which are separated by blanks.
pub(crate) fn words(alloc: Global, line: &str) -> Result<Vec<String>, AllocError> {
    let mut words = Vec::new(alloc);
    for word in line.split(' ') {
        words.push(String::from_str(alloc, word)?)?;
    }
    Ok(words)
}

/// Runs the program. It has none of the program's contract, which no test needs: each test that
/// called the program by itself would be checked against all that it says.
pub(crate) fn run_watched<R: Read, W: Write, E: Write>(
    watched: &Watched<'_, HostRuntime>,
    words: &[String],
    input: &mut R,
    out: &mut W,
    err: &mut E,
) -> u8 {
    run(watched, words, input, out, err)
}

/// Runs the program without reporting what was noted.
pub(crate) fn run_on<R: Read, W: Write, E: Write>(
    rt: &HostRuntime,
    words: &[String],
    input: &mut R,
    out: &mut W,
    err: &mut E,
) -> u8 {
    run_watched(&Watched::new(rt, &Notes::new(*rt)), words, input, out, err)
}

/// What a run of the program leaves.
#[derive(Drop)]
pub(crate) struct Ended {
    pub(crate) status: u8,
    pub(crate) out: Vec<u8>,
    pub(crate) err: Vec<u8>,
}

impl Ended {
    /// Returns whether it ended with this status, and these texts on the output and the error
    /// stream.
    pub(crate) fn told(&self, out: &str, err: &str, status: u8) -> bool {
        self.status == status
            && self.out.as_slice() == out.as_bytes()
            && self.err.as_slice() == err.as_bytes()
    }
}

/// Runs the program with the words of a line. Its input has letters that solve the room.
pub(crate) fn ran(rt: &HostRuntime, line: &str) -> Result<Ended, AllocError> {
    let words = words(rt.alloc(), line)?;
    let mut out = Vec::new(rt.alloc());
    let mut err = Vec::new(rt.alloc());
    let mut input = b"ulldRR\n".as_slice();
    let status = run_on(rt, words.as_slice(), &mut input, &mut out, &mut err);
    Ok(Ended { status, out, err })
}

/// Returns the first line for which the program writes something else.
pub(crate) fn first_other(
    rt: &HostRuntime,
    rows: &[Row],
) -> Result<Option<&'static str>, AllocError> {
    for row in rows {
        if !is_told(rt, *row)? {
            return Ok(Some(row.0));
        }
    }
    Ok(None)
}

fn is_told(rt: &HostRuntime, row: Row) -> Result<bool, AllocError> {
    let (line, out, err, status) = row;
    Ok(ran(rt, line)?.told(out, err, status))
}
