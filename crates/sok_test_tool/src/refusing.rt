//! Help, the version, and words that mean no job.

use crate::devices::{Failure, Sink};
use crate::rows::{ran, run_on, words};
use std::test::Fail;

/// The name, the version, and what proved it, as README tells it.
const VERSION: &str = "sok 1.0\nproved with rattle-kit-13f logic dac8208d650f15bf\n";

/// A line, a part of what is written, and the status. It is written to the error stream if the
/// status is 2, and otherwise to the output.
const REFUSALS: [(&str, &str, u8); 37] = [
    ("sok --help", "Exit status:", 0),
    ("sok --version", VERSION, 0),
    ("sok help solve", "limit S", 0),
    ("sok solve --help", "[default: 100000]", 0),
    ("sok list --help", "N ROWS COLS BOXES GOALS TITLE", 0),
    ("sok replay --help", "open PUSHES MOVES", 0),
    ("sok draw --help", "Example: sok draw small.xsb 1 ulld", 0),
    ("sok check --help", "accepted at least K pushes", 0),
    ("sok add --help", "N id ID", 0),
    ("sok offer --help", "kept PUSHES MOVES", 0),
    ("sok offers --help", "ID kept PUSHES MOVES", 0),
    ("sok prove --help", "proved optimal K", 0),
    ("sok settle --help", "ID limit S at least K", 0),
    ("sok help settle", "[default: 1]", 0),
    ("sok show --help", "best PUSHES MOVES LETTERS", 0),
    ("sok help show", "BOXES PUSHES MOVES VERDICT TITLE", 0),
    ("sok export --help", "in order of ids", 0),
    ("sok help export", "Solution: LETTERS", 0),
    ("sok sovle F 1", "unrecognized subcommand 'sovle'", 2),
    ("sok list", "<FILE>", 2),
    ("sok list F G", "unexpected argument 'G'", 2),
    ("sok replay F one R", "invalid value 'one'", 2),
    ("sok replay F 1", "<TEXT>", 2),
    ("sok replay - 1 -", "read once in a command", 2),
    ("sok solve F 4294967296", "4294967296", 2),
    ("sok solve F 1 --limit x", "invalid value 'x'", 2),
    (
        "sok solve F 1 --below 1000001",
        "1000001 is not in 0..=1000000",
        2,
    ),
    (
        "sok solve F 1 --cert P --cert P",
        "cannot be used multiple times",
        2,
    ),
    ("sok solve F 1 --cert -", "and not written", 2),
    ("sok check F 1", "<CERT>", 2),
    ("sok check - 1 -", "read once in a command", 2),
    (
        "sok offer B 9223372036854775808 R",
        "9223372036854775808",
        2,
    ),
    ("sok prove B 1", "<CERT>", 2),
    ("sok settle B 2", "unexpected argument '2'", 2),
    (
        "sok settle B --from 9223372036854775808",
        "9223372036854775808",
        2,
    ),
    ("sok settle B --certs ", "FOLDER of '--certs' is empty", 2),
    ("sok show B -1", "unexpected argument '-1'", 2),
];

#[test]
fn help_the_version_and_words_that_ask_for_nothing(rt: HostRuntime) -> Result<(), Fail> {
    for &(line, part, status) in &REFUSALS {
        let told = is_told(&rt, line, part, status)?;
        assert!(rt; told, "{line}");
    }
    Ok(())
}

fn is_told(rt: &HostRuntime, line: &str, part: &str, status: u8) -> Result<bool, Fail> {
    let ended = ran(rt, line)?;
    let (told, silent) = if status == 0 {
        (ended.out, ended.err)
    } else {
        (ended.err, ended.out)
    };
    let text = String::from_utf8(told)?;
    Ok(ended.status == status && silent.is_empty() && text.as_str().contains(part))
}

/// Help that can't be written is a fault.
#[test]
fn help_to_an_output_that_fails(rt: HostRuntime) -> Result<(), Fail> {
    let words = words(rt.alloc(), "sok --help")?;
    let mut out = Sink::new(rt.alloc(), 1, Failure::Error);
    let mut err = Vec::new(rt.alloc());
    let status = run_on(&rt, &words, &mut b"".as_slice(), &mut out, &mut err);
    assert_eq!(rt; status, 5);
    assert_eq!(rt; err.as_slice(), b"fault 51 WriteFailed\n".as_slice());
    Ok(())
}
