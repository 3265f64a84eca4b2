//! The program: its words, its streams and its exit status.

ghost use Rattle.std.specs.Prelude.{◌≡◌, ◌≤◌, ◌<◌, ◌∷◌, ℕ, List, length, map, string_bytes};
ghost use Rattle.sok_engine.specs.Inputs.{OfReader, Within};
ghost use Rattle.sok_engine.specs.Limits.{input_limit};
ghost use Rattle.sok_play.specs.Plays.{IsPlay};
ghost use Rattle.sok_words.specs.declared.job.Job.{Job};
ghost use Rattle.sok_words.specs.Forms.{Form, IsPlain, words_of};
ghost use Rattle.sok_files.specs.Endings.{Runs};
ghost use Rattle.sqlite.specs.Held.{state};
ghost use Rattle.sok_files.specs.Files.{files_by};
ghost use Rattle.sok_tool.specs.Commands.{Serves, ServesJob};
ghost use Rattle.sok_tool.specs.Databases.{databases_by};
ghost use Rattle.sok_tool.specs.Rights.{ChangesAt, MakesAt, MayAsk};

use crate::keeping::{add, offers, prove, settle, show, tell};
use crate::letters::{draw, offer, replay};
use sok_book::text::BookText;
use sok_databases::databases::Databases;
use sok_files::command::{check, list, solve};
use sok_files::ending::{ended, refused};
use sok_files::folder::Folder;
use sok_play::play::play_bytes;
use sok_settle::settle::Span;
use sok_solve::task::Task;
use sok_words::job::Job;
use sok_words::words::job;
use sqlite::{Alter, Connection};
use std::io::{Read, Write};

/// Runs the program and returns its exit status. The first word is the program's name. Without
/// further words, plays a text of letters on a level, both from the input. Otherwise, `job` of
/// `sok_words` reads the words. If TEXT is `-`, the letters are read from the input first. The
/// files and the database are opened or made in the order of the words. Then the database, if there
/// is one, is opened as a book, and the command runs.
///
/// A fault is written to the error stream as one line. It is `ReadFailed` if a file can't be opened
/// or read, and `WriteFailed` if one can't be made or written. It is `Database` if a database can't
/// be opened, or if there is none and the command is not `add`. What is wrong with the words is
/// written to the error stream, with status 2. Help and the version are written to the output, with
/// status 0.
pub fn run<
    S: Alter + Drop,
    F: Folder + Databases<Opened = Connection<S>> + AllocGlobal,
    R: Read,
    W: Write,
    E: Write,
>(rt: &F, words: &[String], input: &mut R, out: &mut W, err: &mut E) -> u8
    requires makes { 1 < length words.now → (path : List ℕ) (job : Job)
        → MayAsk (map (λ word. string_bytes word) words.now) job → MakesAt job path
        → (F.files rt.now).may_make path }
    requires changes { 1 < length words.now → (path : List ℕ) (job : Job)
        → MayAsk (map (λ word. string_bytes word) words.now) job → ChangesAt job path
        → (F.databases rt.now).may_change path }
    ensures plays { length words.now ≤ 1
        → Runs (OfReader (R.remaining input.old) (Within input_limit IsPlay))
        (W.contents out.old) (W.contents out.new) (E.contents err.old) (E.contents err.new) result }
    ensures serves { (program : List ℕ) (form : Form) → IsPlain form
        → map (λ word. string_bytes word) words.now ≡ program ∷ words_of form
        → Serves (files_by F.Output.contents (F.files rt.now))
        (databases_by (state S.Store) (F.databases rt.now)) form
        (record { old = W.contents out.old; new = W.contents out.new })
        (record { old = E.contents err.old; new = E.contents err.new }) result }
{
    if words.len() <= 1 {
        return ended(play_bytes(rt.alloc(), input, out), err);
    }
    match job(rt.alloc(), words) {
        Ok(job) => served(rt, job, input, out, err),
        Err(refusal) => refused(refusal, out, err),
    }
}

/// Runs the command of a job.
fn served<
    S: Alter + Drop,
    F: Folder + Databases<Opened = Connection<S>> + AllocGlobal,
    R: Read,
    W: Write,
    E: Write,
>(rt: &F, job: Job, input: &mut R, out: &mut W, err: &mut E) -> u8
    requires makes { (path : List ℕ) → MakesAt job path → (F.files rt.now).may_make path }
    requires changes { (path : List ℕ) → ChangesAt job path → (F.databases rt.now).may_change path }
    ensures { ServesJob (files_by F.Output.contents (F.files rt.now))
        (databases_by (state S.Store) (F.databases rt.now)) job
        (record { old = W.contents out.old; new = W.contents out.new })
        (record { old = E.contents err.old; new = E.contents err.new }) result }
{
    match job {
        Job::List(file) => ended(list(rt, file.as_str(), out), err),
        Job::Replay(file, n, text) => {
            ended(replay(rt, file.as_str(), n, text.as_str(), input, out), err)
        }
        Job::Draw(file, n, text) => {
            ended(draw(rt, file.as_str(), n, text.as_str(), input, out), err)
        }
        Job::Check(file, n, cert) => { ended(check(rt, file.as_str(), n, cert.as_str(), out), err) }
        Job::Solve(file, n, below, limit, bound, cert) => {
            let task = Task {
                n,
                below,
                limit,
                bound,
            };
            ended(solve(rt, file.as_str(), &task, cert, out), err)
        }
        Job::Add(db, file) => ended(add(rt, db.as_str(), file.as_str(), out), err),
        Job::Offer(db, id, text) => {
            ended(offer(rt, db.as_str(), id, text.as_str(), input, out), err)
        }
        Job::Offers(db, file) => ended(offers(rt, db.as_str(), file.as_str(), out), err),
        Job::Prove(db, id, cert) => ended(prove(rt, db.as_str(), id, cert.as_str(), out), err),
        Job::Settle(db, limit, first, last, folder) => {
            let span = Span { first, last };
            ended(settle(rt, db.as_str(), limit, span, folder, out), err)
        }
        Job::Show(db, id) => match id {
            Some(id) => ended(show(rt, db.as_str(), id, out), err),
            None => ended(tell(rt, db.as_str(), BookText::Overview, out), err),
        },
        Job::Export(db, solutions) => {
            ended(
                tell(rt, db.as_str(), BookText::Export { solutions }, out),
                err,
            )
        }
    }
}
