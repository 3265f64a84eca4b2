//! Proving a verdict on a level of a book.

ghost use Rattle.std.specs.Prelude.{◌≡◌, ◌⊎◌, Err, IfErr, IfOk};
ghost use Rattle.sqlite.specs.Held.{state};
ghost use Rattle.sok_cert.specs.CertFault.{CertFault};
ghost use Rattle.sok_book.specs.declared.fault.BookFault.TheVariants as refusal;
ghost use Rattle.sok_engine.specs.Faults.{of_book};
ghost use Rattle.sok_engine.specs.declared.fault.ToolFault.TheVariants as tool;
ghost use Rattle.sok_judge.specs.Verdicts.{verdict_answer};
ghost use Rattle.sok_store.specs.Calls.{ChangesBook, EndsOpen, Stops};
ghost use Rattle.sok_keep.specs.Causes.{IsCausedFault};
ghost use Rattle.sok_keep.specs.Proves.{ProvesBytes, WritesProof, proved_line};

use crate::line::{Line, write_line};
use itoa::Buffer;
use sok_book::fault::BookFault;
use sok_cert::claim::Claim;
use sok_engine::answer::Answer;
use sok_engine::fault::ToolFault;
use sok_engine::input::read_certificate;
use sok_judge::verdict::refused_answer;
use sok_store::book::Book;
use sqlite::Alter;
use std::alloc::{AllocError, Global};
use std::io::{Read, Write};

/// Judges a certificate for the level with this id and, if it holds, keeps the verdict. Writes one
/// line: `proved optimal K`, with status 0, if no solution has fewer pushes than the K of the best
/// one; `proved unsolvable`, with status 0, if there is no solution; or `refused` with the number,
/// the name and the arguments of the certificate's first fault, with status 1.
///
/// Errors, in this order, with nothing written and the book as it was: `ReadFailed` or `TooMuch`;
/// `NoLevel`; if the text of the certificate can be read, `NoBest` or `ClaimDiffers`. `Database`
/// may replace any but the first two. `WriteFailed` as soon as a write fails: a first part of the
/// line may be written, and the change of the book stands. Nothing is allocated after the change.
pub fn prove_bytes<S: Alter, C: Read, W: Write>(
    alloc: Global,
    book: &mut Book<S>,
    id: i64,
    cert_input: &mut C,
    out: &mut W,
) -> Result<u8, ToolFault>
    ensures writes { ChangesBook (state S.Store book.old) (state S.Store book.new) (λ pages after.
        WritesProof pages id (C.remaining cert_input.old) after
        (W.contents out.old) (W.contents out.new) result) }
    ensures open { IfOk result (λ status. status ≡ 0
        → EndsOpen (state S.Store book.old) (state S.Store book.new)) }
    ensures cause { IfErr result (IsCausedFault (state S.Store book.old) (state S.Store book.new)
        (ProvesBytes id (C.remaining cert_input.old))) }
    ensures stop { Stops (state S.Store book.old) (state S.Store book.new)
        (ProvesBytes id (C.remaining cert_input.old)) }
{
    let bytes = read_certificate(alloc, cert_input)?;
    match book.prove(id, bytes.as_slice()) {
        Ok(claim) => write_line(&proved_line(claim), 0, out),
        Err(fault) => {
            let answer = unproved_answer(alloc, fault)?;
            answer.write(out)
        }
    }
}

/// Returns the answer for a refused certificate. For any other fault of the book there is none.
fn unproved_answer(alloc: Global, fault: BookFault) -> Result<Answer, ToolFault>
    ensures answer { IfOk result (λ answer. (cause : CertFault)
        × (fault ≡ refusal.Certificate cause) × (answer ≡ verdict_answer (Err cause))) }
    ensures told { IfErr result (λ told. (told ≡ tool.Memory) ⊎ (told ≡ of_book fault)) }
{
    match fault {
        BookFault::Certificate(cause) => Ok(refused_answer(alloc, cause)?),
        _ => Err(ToolFault::from(fault)),
    }
}

/// Returns the line that says what was proved of a level.
fn proved_line(claim: Claim) -> Line
    ensures { result.bytes ≡ proved_line claim }
{
    let mut line = Line::new();
    match claim {
        Claim::Pushes(pushes) => {
            line.push_str("proved optimal ");
            line.push_str(Buffer::new().format(pushes));
            line.push_str("\n");
        }
        Claim::Unsolvable => line.push_str("proved unsolvable\n"),
    }
    line
}
