//! Playing a text of letters on a level of a collection.

ghost use Rattle.std.specs.Prelude.{◌≡◌, ℕ, List, IfOk, string_bytes};
ghost use Rattle.sok_engine.specs.Inputs.{OfReader, Within};
ghost use Rattle.sok_engine.specs.Limits.{input_limit};
ghost use Rattle.sok_engine.specs.Written.{HasOne, Writes};
ghost use Rattle.sok_play.specs.Plays.{IsPlay, IsReplay, outcome_status, outcome_word, tally_line};

use sok_engine::answer::Answer;
use sok_engine::fault::ToolFault;
use sok_engine::serving::{Engine, serve};
use sok_rules::play::{Tally, replay};
use sok_text::collection::Collection;
use sok_text::line::cut_line;
use sok_text::lurd::read_lurd;
use std::alloc::{AllocError, Global};
use std::io::{Read, Write};

/// Plays a text of letters on the first level of a collection. The text is the first line of the
/// input, up to an LF, without a CR before the LF. The collection follows it. The answers and the
/// order of faults are those of `replay_bytes`.
pub fn play_bytes<R: Read, W: Write>(
    alloc: Global,
    input: &mut R,
    out: &mut W,
) -> Result<u8, ToolFault>
    ensures { Writes (OfReader (R.remaining input.old) (Within input_limit IsPlay))
        (W.contents out.old) (W.contents out.new) result }
{
    serve(alloc, &Play, input, out)
}

/// Plays a text of letters on the n-th level of a collection, counted from 1. Writes the line
/// `solved PUSHES MOVES`, with status 0, or `open PUSHES MOVES`, with status 1.
///
/// Errors, in this order, with nothing written: `ReadFailed` or `TooMuch`; `NoSuchLevel` or another
/// fault of the level; `BadLetter` or `TooLong`; `Blocked`. `WriteFailed` as soon as a write fails;
/// by then a first part of the line may be written. For a reader whose remaining bytes are unknown,
/// this is promised for some bytes.
pub fn replay_bytes<R: Read, W: Write>(
    alloc: Global,
    input: &mut R,
    n: usize,
    text: &[u8],
    out: &mut W,
) -> Result<u8, ToolFault>
    ensures { Writes (OfReader (R.remaining input.old) (Within input_limit (IsReplay n text.now)))
        (W.contents out.old) (W.contents out.new) result }
{
    serve(alloc, &Replay { n, text }, input, out)
}

/// Plays a text on the first level of the collection that follows it.
#[derive(Clone, Copy)]
struct Play;

impl Engine for Play {
    ghost answers = { λ _. IsPlay };

    fn answer(&self, alloc: Global, input: &[u8]) -> Result<Answer, ToolFault> {
        let (text, collection) = cut_line(input);
        Replay { n: 1, text }.answer(alloc, collection)
    }
}

/// Plays a text of letters on the n-th level of a collection, counted from 1.
#[derive(Clone, Copy)]
pub struct Replay<'a> {
    pub n: usize,
    pub text: &'a [u8],
}

impl Engine for Replay<'_> {
    ghost answers = { λ replay. IsReplay replay.n replay.text.now };

    fn answer(&self, alloc: Global, input: &[u8]) -> Result<Answer, ToolFault> {
        let level = Collection::read(alloc, input)?.level(alloc, self.n)?;
        let letters = read_lurd(alloc, self.text)?;
        let tally = replay(alloc, &level, letters.as_slice())?;
        let line = tally_line(alloc, tally)?;
        Ok(Answer::new(line.into_bytes(), outcome_status(tally.solved)))
    }
}

/// Returns the line of a tally.
fn tally_line(alloc: Global, tally: Tally) -> Result<String, AllocError>
    ensures { IfOk result (λ line. string_bytes line ≡ tally_line tally) }
{
    let word = outcome_word(tally.solved);
    format!(in alloc; "{word} {} {}\n", tally.pushes, tally.moves)
}

fn outcome_word(solved: bool) -> &'static str
    ensures { result.now ≡ outcome_word solved }
{
    if solved { "solved" } else { "open" }
}

fn outcome_status(solved: bool) -> u8
    ensures { result ≡ outcome_status solved }
{
    if solved { 0 } else { 1 }
}

/// A text on a level of a collection has at most one answer.
pub fn replays_have_one_answer()
    ensures { (limit n : ℕ) (text bytes : List ℕ) → HasOne (Within limit (IsReplay n text) bytes) }
{}

/// An input has at most one answer.
pub fn inputs_have_one_answer()
    ensures { (limit : ℕ) (bytes : List ℕ) → HasOne (Within limit IsPlay bytes) }
{}
