//! Solving a level with a certificate.

ghost use Rattle.std.specs.Prelude.{◌≡◌, MatchResult, Ok};
ghost use Rattle.sok_engine.specs.Certified.{WritesBoth};
ghost use Rattle.sok_engine.specs.Inputs.{OfReader, Within};
ghost use Rattle.sok_engine.specs.Limits.{input_limit};
ghost use Rattle.sok_engine.specs.Written.{Gives};
ghost use Rattle.sok_engine.specs.declared.fault.ToolFault.TheVariants as tool;
ghost use Rattle.sok_search.specs.Findings.{IsFindingWithProof};
ghost use Rattle.sok_solve.specs.Lines.{HasLines};
ghost use Rattle.sok_solve.specs.Solves.{IsSolve, IsSolveAnswer, TellsProved, best_of, claim_shown};

use crate::certificate::{EntryLines, ReadyCert};
use crate::report::{report, tool_fault};
use crate::task::Task;
use sok_cert::claim::Claim;
use sok_engine::answer::Answer;
use sok_engine::fault::ToolFault;
use sok_engine::input::read_input;
use sok_rules::level::Level;
use sok_search::finding::Finding;
use sok_search::solve::{claim_of, search_into};
use sok_text::collection::Collection;
use std::alloc::Global;
use std::io::{Read, Write};
use std::marker::Model;

/// Solves a level of a collection. Writes one of these answers:
///
/// - `solved PUSHES MOVES` and, on a line of its own, a solution with the fewest pushes, in upper
///   case where it pushes; they are fewer than `below`, if that is given;
/// - `unsolvable`, if there is no solution; or, if `below` is given, `at least BELOW`, if no solution
///   has fewer pushes, which is true of an unsolvable level, too;
/// - `limit S`, with status 4, if more states than the limit can be reached; or, if `bound` is set,
///   `limit S at least K`, as no solution has fewer than K pushes; K is less than `below`.
///
/// A certificate of each answer except `limit S` is written to `cert_out` before it, of `at least
/// BELOW` for `pushes BELOW`. It may be longer than one that is read.
///
/// Errors, in this order, with nothing written: `ReadFailed` or `TooMuch`; `NoSuchLevel` or another
/// fault of the level; `BadLimit`; a fault of its board. `WriteFailed` as soon as a write fails:
/// after a first part of the certificate and nothing of the answer, or after the certificate and a
/// first part of the answer. For a reader whose remaining bytes are unknown, this is promised for
/// some bytes.
pub fn solve_bytes<R: Read, W: Write, C: Write>(
    alloc: Global,
    input: &mut R,
    task: &Task,
    out: &mut W,
    cert_out: &mut C,
) -> Result<u8, ToolFault>
    ensures { WritesBoth (OfReader (R.remaining input.old) (Within input_limit (IsSolve task.now)))
        (record { old = C.contents cert_out.old; new = C.contents cert_out.new })
        (record { old = W.contents out.old; new = W.contents out.new }) result }
{
    let bytes = read_input(alloc, input)?;
    let told = solved(alloc, bytes.as_slice(), task)?;
    told.write(cert_out, out)
}

/// An answer, and the certificate that is written before it, if there is one.
#[derive(Drop)]
struct CertifiedAnswer {
    cert: Option<ReadyCert>,
    answer: Answer,
}

impl Model for CertifiedAnswer {
    ghost use Rattle.std.specs.Prelude.{[], unwrap_or};
    ghost use Rattle.sok_engine.specs.Certified as certified;

    ghost Value = { certified.Certified };

    ghost view = { λ told. record { cert = unwrap_or told.cert []; answer = told.answer } };
}

impl CertifiedAnswer {
    /// Writes the certificate and then the text of the answer, and returns the status of the
    /// answer.
    ///
    /// Errors: `WriteFailed` as soon as a write fails. After a first part of the certificate,
    /// nothing of the answer is written.
    fn write<C: Write, W: Write>(self, cert_out: &mut C, out: &mut W) -> Result<u8, ToolFault>
        ensures { WritesBoth (λ both. both ≡ Ok self)
            (record { old = C.contents cert_out.old; new = C.contents cert_out.new })
            (record { old = W.contents out.old; new = W.contents out.new }) result }
    {
        let CertifiedAnswer { cert, answer } = self;
        if let Some(cert) = cert {
            cert.write(cert_out)?;
        }
        answer.write(out)
    }
}

/// Returns the answer to a level of a collection.
fn solved(alloc: Global, collection: &[u8], task: &Task) -> Result<CertifiedAnswer, ToolFault>
    ensures { Gives (IsSolve task.now collection.now) result }
{
    let level = Collection::read(alloc, collection)?.level(alloc, task.n as usize)?;
    answer(alloc, &level, task)
}

/// Returns the answer to a level.
fn answer(alloc: Global, level: &Level, task: &Task) -> Result<CertifiedAnswer, ToolFault>
    ensures { Gives (IsSolveAnswer task.now level.now) result }
{
    let mut taken = EntryLines::new(alloc);
    match search_into(
        alloc,
        level,
        task.limit,
        task.best(),
        task.bound,
        &mut taken,
    ) {
        Ok(found) => certified(alloc, level, task, &found, taken),
        Err(fault) => Err(tool_fault(fault)),
    }
}

/// Returns the answer that reports what was found, with the certificate of the taken entries.
fn certified(
    alloc: Global,
    level: &Level,
    task: &Task,
    found: &Finding,
    taken: EntryLines,
) -> Result<CertifiedAnswer, ToolFault>
    requires { IsFindingWithProof (HasLines taken) level.now task.now.limit task.now.bound
        (best_of task.now) found.now }
    ensures { MatchResult result (TellsProved task.now level.now) (λ fault. fault ≡ tool.Memory) }
{
    let answer = report(alloc, level, task, found)?;
    match claim_shown(task, found) {
        Some(claim) => {
            let cert = ReadyCert::new(alloc, &claim, taken)?;
            Ok(CertifiedAnswer {
                cert: Some(cert),
                answer,
            })
        }
        None => Ok(CertifiedAnswer { cert: None, answer }),
    }
}

/// Returns the claim that the certificate shows. At the limit there is one only with a bound.
fn claim_shown(task: &Task, found: &Finding) -> Option<Claim>
    ensures { result ≡ claim_shown task.now found.now }
{
    match found {
        Finding::Solved { pushes, .. } => Some(Claim::Pushes(*pushes)),
        Finding::NoBetter => Some(claim_of(task.best())),
        Finding::Limit { at_least, .. } => {
            if task.bound {
                return Some(Claim::Pushes(*at_least));
            }
            None
        }
    }
}
