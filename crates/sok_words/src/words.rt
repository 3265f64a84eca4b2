//! Reading the words of a command line.

ghost use Rattle.std.specs.Prelude.{◌≡◌, ◌∷◌, ◌↔◌, ℕ, List, IfOk, IsTrue, map, string_bytes};
ghost use Rattle.clap.specs.Words.{kind_of};
ghost use Rattle.sok_words.specs.Forms.{Answers, Form, IsAllowed, IsPlain, LacksFolder, MisusesInput, words_of};

use crate::command::sok_command;
use crate::job::{Job, JobRefused};
use crate::reading::job_in;
use crate::values::out_of_memory;
use clap::Error;
use clap::error::ErrorKind;
use std::alloc::Global;

/// Reads the words of a command line. The first is the program's name. The others are a subcommand,
/// its places and its options:
///
/// ```text
/// list FILE · replay FILE N TEXT · draw FILE N [TEXT]
/// solve FILE N [--below K] [--limit S] [--bound] [--cert PATH] · check FILE N CERT
/// add DB FILE · offer DB ID TEXT · offers DB FILE · prove DB ID CERT
/// settle DB [--limit S] [--from ID] [--to ID] [--certs FOLDER] · show DB [ID]
/// export DB [--solutions]
/// ```
///
/// These are read as they are: places, PATH and FOLDER that are not empty and do not begin with a
/// hyphen; and, in digits alone, N and S below 2^32, K up to 1,000,000 and ID below 2^63. If S is
/// left out, it is 100,000. If the ID after `--from` is left out, it is 1, and the one after `--to`
/// is the highest. Other words are read or refused as `clap` does. But `-`, which is the standard
/// input, is refused as PATH, and as both FILE and TEXT or CERT of a command; an empty FOLDER is
/// refused too.
pub fn job(alloc: Global, words: &[String]) -> Result<Job, JobRefused>
    ensures answers { (program : List ℕ) (form : Form) → IsPlain form
        → map (λ word. string_bytes word) words.now ≡ program ∷ words_of form
        → Answers form result }
    ensures allowed { IfOk result IsAllowed }
{
    let command = match sok_command(alloc) {
        Ok(command) => command,
        Err(_) => return Err(out_of_memory(alloc)),
    };
    match command.try_get_matches_from(words) {
        Ok(matches) => allowed(alloc, job_in(alloc, &matches)),
        Err(error) => Err(refused(alloc, &error)),
    }
}

/// Returns a job that was read, unless it misuses the standard input or its folder has no name.
fn allowed(alloc: Global, read: Result<Job, JobRefused>) -> Result<Job, JobRefused>
    ensures answers { (form : Form) → IsPlain form → Answers form read → Answers form result }
    ensures allowed { IfOk result IsAllowed }
{
    let job = read?;
    if misuses_input(&job) {
        return Err(misused(
            alloc,
            "error: '-' is the standard input, which is read once in a command, and not written\n\n\
For more information, try '--help'.\n",
        ));
    }
    if lacks_folder(&job) {
        return Err(misused(
            alloc,
            "error: the FOLDER of '--certs' is empty\n\nFor more information, try '--help'.\n",
        ));
    }
    Ok(job)
}

/// Returns whether a job would write to the standard input, or read two texts from it.
fn misuses_input(job: &Job) -> bool
    ensures { IsTrue result ↔ MisusesInput job.now }
{
    match job {
        Job::Replay(file, _, text) => file.as_str() == "-" && text.as_str() == "-",
        Job::Draw(file, _, text) => file.as_str() == "-" && text.as_str() == "-",
        Job::Solve(_, _, _, _, _, Some(path)) => path.as_str() == "-",
        Job::Check(file, _, cert) => file.as_str() == "-" && cert.as_str() == "-",
        _ => false,
    }
}

/// Returns whether a job would keep certificates in a folder without a name.
fn lacks_folder(job: &Job) -> bool
    ensures { IsTrue result ↔ LacksFolder job.now }
{
    match job {
        Job::Settle(_, _, _, _, Some(folder)) => folder.is_empty(),
        _ => false,
    }
}

/// Returns the refusal of words that `clap` accepts.
fn misused(alloc: Global, text: &str) -> JobRefused {
    match String::from_str(alloc, text) {
        Ok(text) => JobRefused { text, status: 2 },
        Err(_) => out_of_memory(alloc),
    }
}

/// Returns the refusal with the text of an error, or with the help or the version that was asked
/// for.
fn refused(alloc: Global, error: &Error) -> JobRefused
    ensures { kind_of error.now ≡ ErrorKind.OutOfMemory → result.status ≡ 6 }
{
    if error.kind() == ErrorKind::OutOfMemory {
        return out_of_memory(alloc);
    }
    let status = if error.use_stderr() { 2 } else { 0 };
    match error.to_string(alloc) {
        Ok(text) => JobRefused { text, status },
        Err(_) => out_of_memory(alloc),
    }
}
