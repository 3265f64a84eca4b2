//! Judging a certificate for a level of a collection.

ghost use Rattle.std.specs.Prelude.{◌≡◌, ◌⊎◌, ℕ, List, IfSome, MatchResult, Ok, Err};
ghost use Rattle.sok_text.specs.Collections.{blocks_of, level_at};
ghost use Rattle.sok_board.specs.Area.{BoardView};
ghost use Rattle.sok_cert.specs.CertFault.TheVariants as cert;
ghost use Rattle.sok_cert.specs.Streams.{StandsFor};
ghost use Rattle.sok_engine.specs.Inputs.{OfReader, Within};
ghost use Rattle.sok_engine.specs.Limits.{cert_limit, input_limit};
ghost use Rattle.sok_engine.specs.Written.{HasOne, Writes};
ghost use Rattle.sok_engine.specs.declared.fault.ToolFault.TheVariants as tool;
ghost use Rattle.sok_judge.specs.Boards.{IsBoardOf, LacksBoard};
ghost use Rattle.sok_judge.specs.Checks.{IsCheck, IsCheckOf, TellsVerdict};
ghost use Rattle.sok_cert.specs.Verdicts.{IsVerdict};

use crate::reading::stream_of;
use crate::verdict::{accepted_answer, refused_answer};
use sok_board::board::Board;
use sok_cert::claim::Claim;
use sok_cert::fault::CertFault;
use sok_cert::stream::Stream;
use sok_engine::answer::Answer;
use sok_engine::fault::ToolFault;
use sok_engine::input::read_input;
use sok_text::collection::Collection;
use std::alloc::Global;
use std::io::{Read, Write};

/// Judges a certificate for the n-th level of a collection, counted from 1. If it holds, writes the
/// line `accepted at least K pushes` or `accepted unsolvable`, with status 0: no solution has fewer
/// than K pushes, or there is none. Otherwise writes `refused` with the number, the name and the
/// arguments of the first fault of the certificate's text or of the certificate, with status 1.
///
/// Errors, in this order, with nothing written: `ReadFailed` or `TooMuch` of the collection; a
/// fault of the level; a fault of its board; `ReadFailed` or `TooMuch` of the certificate.
/// `WriteFailed` as soon as a write fails; by then a first part of the line may be written. For
/// readers whose remaining bytes are unknown, this is promised for some bytes.
pub fn check_bytes<R: Read, C: Read, W: Write>(
    alloc: Global,
    input: &mut R,
    n: usize,
    cert_input: &mut C,
    out: &mut W,
) -> Result<u8, ToolFault>
    ensures writes { Writes (OfReader (R.remaining input.old)
        (Within input_limit (IsCheckOf cert_limit n (C.remaining cert_input.old))))
        (W.contents out.old) (W.contents out.new) result }

    // The certificate is not read unless the level has a board.
    ensures in_turn { IfSome (R.remaining input.old) (λ bytes. (cert_input.new ≡ cert_input.old)
        ⊎ ((b : BoardView) × IsBoardOf (level_at (blocks_of bytes) n) b)) }
{
    let bytes = read_input(alloc, input)?;
    let board = board_of(alloc, bytes.as_slice(), n)?;
    judge_input(alloc, &board, cert_input, out)
}

/// Returns the board of the n-th level of a collection.
fn board_of(alloc: Global, collection: &[u8], n: usize) -> Result<Board, ToolFault>
    ensures { MatchResult result (IsBoardOf (level_at (blocks_of collection.now) n))
        (LacksBoard (level_at (blocks_of collection.now) n)) }
{
    let level = Collection::read(alloc, collection)?.level(alloc, n)?;
    Ok(Board::new(alloc, &level)?)
}

/// Judges a certificate for a board.
fn judge_input<C: Read, W: Write>(
    alloc: Global,
    board: &Board,
    input: &mut C,
    out: &mut W,
) -> Result<u8, ToolFault>
    ensures { Writes (OfReader (C.remaining input.old) (Within cert_limit (TellsVerdict board.now)))
        (W.contents out.old) (W.contents out.new) result }
{
    let stream = stream_of(alloc, board, input)?;
    let answer = judged(alloc, stream)?;
    answer.write(out)
}

/// Returns the answer to a certificate that was read to its end.
fn judged(alloc: Global, stream: Stream<'_>) -> Result<Answer, ToolFault>
    ensures { (text : List ℕ) → StandsFor stream.entry.board text stream.entry.progress
        → MatchResult result
        (λ answer. TellsVerdict stream.entry.board text (Ok answer))
        (λ fault. fault ≡ tool.Memory) }
{
    match verdict(stream) {
        Ok(claim) => Ok(accepted_answer(alloc, claim)?),
        Err(CertFault::Memory) => Err(ToolFault::Memory),
        Err(fault) => Ok(refused_answer(alloc, fault)?),
    }
}

/// Returns the claim that the text of a certificate proves, or the first fault.
fn verdict(stream: Stream<'_>) -> Result<Claim, CertFault>
    ensures { (text : List ℕ) → StandsFor stream.entry.board text stream.entry.progress
        → (result ≡ Err cert.Memory) ⊎ IsVerdict stream.entry.board text result }
{
    Ok(stream.ended()?.judge()?.claim())
}

/// A collection and a certificate have at most one answer.
pub fn certificates_have_one_answer()
    ensures { (limit most n : ℕ) (bytes text : List ℕ)
        → HasOne (Within limit (IsCheck most n text) bytes) }
{}
