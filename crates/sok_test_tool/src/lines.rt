//! Words, and the texts that are printed for some of them.

use crate::rows::words;
use sok_words::job::{Job, JobRefused};
use sok_words::words::job;
use std::test::Fail;

/// Reads the words of a line, which are separated by blanks.
fn read(rt: &HostRuntime, line: &str) -> Result<Result<Job, JobRefused>, Fail> {
    Ok(job(rt.alloc(), &words(rt.alloc(), line)?))
}

/// Returns whether a line means this job.
fn asks_for(rt: &HostRuntime, line: &str, asked: &str) -> Result<bool, Fail> {
    match read(rt, line)? {
        Ok(job) => Ok(format!(in rt.alloc(); "{job:?}")?.as_str() == asked),
        Err(_) => Ok(false),
    }
}

/// Each form, and the job that it means.
#[test]
fn reads_each_form(rt: HostRuntime) -> Result<(), Fail> {
    for &(line, asked) in &[
        ("sok list F", "List(\"F\")"),
        ("sok replay F 2 uR", "Replay(\"F\", 2, \"uR\")"),
        ("sok draw F 2", "Draw(\"F\", 2, \"\")"),
        ("sok draw F 2 uR", "Draw(\"F\", 2, \"uR\")"),
        (
            "sok solve F 1",
            "Solve(\"F\", 1, None, 100000, false, None)",
        ),
        (
            "sok solve F 1 --below 0",
            "Solve(\"F\", 1, Some(0), 100000, false, None)",
        ),
        (
            "sok solve F 1 --limit 5 --bound --cert P",
            "Solve(\"F\", 1, None, 5, true, Some(\"P\"))",
        ),
        (
            "sok solve F 1 --below 1000000 --limit 5 --bound --cert P",
            "Solve(\"F\", 1, Some(1000000), 5, true, Some(\"P\"))",
        ),
        (
            "sok check F 4294967295 C",
            "Check(\"F\", 4294967295, \"C\")",
        ),
        ("sok add B F", "Add(\"B\", \"F\")"),
        ("sok offer B 3 uR", "Offer(\"B\", 3, \"uR\")"),
        ("sok offers B F", "Offers(\"B\", \"F\")"),
        ("sok prove B 3 C", "Prove(\"B\", 3, \"C\")"),
        (
            "sok settle B",
            "Settle(\"B\", 100000, 1, 9223372036854775807, None)",
        ),
        (
            "sok settle B --limit 5 --from 9223372036854775807",
            "Settle(\"B\", 5, 9223372036854775807, 9223372036854775807, None)",
        ),
        (
            "sok settle B --from 3 --to 4",
            "Settle(\"B\", 100000, 3, 4, None)",
        ),
        (
            "sok settle B --certs D",
            "Settle(\"B\", 100000, 1, 9223372036854775807, Some(\"D\"))",
        ),
        (
            "sok show B 9223372036854775807",
            "Show(\"B\", Some(9223372036854775807))",
        ),
        ("sok show B", "Show(\"B\", None)"),
        ("sok export B", "Export(\"B\", false)"),
        ("sok export B --solutions", "Export(\"B\", true)"),
    ] {
        assert!(rt; asks_for(&rt, line, asked)?, "{line}");
    }
    Ok(())
}

/// Returns whether a line means no job, with this status and this part of what is printed.
fn is_refused(rt: &HostRuntime, line: &str, status: u8, text: &str) -> Result<bool, Fail> {
    match read(rt, line)? {
        Ok(_) => Ok(false),
        Err(refused) => Ok(refused.status == status && refused.text.as_str().contains(text)),
    }
}

/// Lines that mean no job, with their status and a part of the text that is printed.
#[test]
fn refuses_what_it_does_not_know(rt: HostRuntime) -> Result<(), Fail> {
    for &(line, status, text) in &[
        ("sok --help", 0, "Exit status:"),
        ("sok help", 0, "Exit status:"),
        ("sok solve --help", 0, "--limit <S>"),
        ("sok", 2, "Usage: sok <COMMAND>"),
        ("sok sovle F 1", 2, "unrecognized subcommand 'sovle'"),
        ("sok solve F", 2, "<N>"),
        ("sok solve F one", 2, "invalid value 'one'"),
        ("sok solve F 4294967296", 2, "4294967296"),
        (
            "sok solve F 1 --limit 1 --limit 2",
            2,
            "cannot be used multiple times",
        ),
        ("sok show F 9223372036854775808", 2, "9223372036854775808"),
        ("sok list F G", 2, "unexpected argument 'G'"),
    ] {
        assert!(rt; is_refused(&rt, line, status, text)?, "{line}");
    }
    Ok(())
}
