//! The answer that reports what a certificate proves.

ghost use Rattle.std.specs.Prelude.{◌≡◌, IfOk, Ok, Err, Some};
ghost use Rattle.sok_judge.specs.Verdicts.{accepted_words, verdict_answer};

use sok_cert::claim::Claim;
use sok_cert::fault::CertFault;
use sok_engine::answer::Answer;
use std::alloc::{AllocError, Global};
use std::fmt;

/// Returns the answer for a true claim: the line `accepted at least K pushes` or `accepted
/// unsolvable`, with status 0.
pub fn accepted_answer(alloc: Global, claim: Claim) -> Result<Answer, AllocError>
    ensures { IfOk result (λ answer. answer ≡ verdict_answer (Ok claim)) }
{
    let words = Accepted(claim);
    let line = format!(in alloc; "{words}\n")?;
    Ok(Answer::new(line.into_bytes(), 0))
}

/// Returns the answer for the first fault: a line with `refused`, its number, its name and its
/// arguments, with status 1.
pub fn refused_answer(alloc: Global, fault: CertFault) -> Result<Answer, AllocError>
    ensures { IfOk result (λ answer. answer ≡ verdict_answer (Err fault)) }
{
    let line = format!(in alloc; "refused {} {fault}\n", fault.number())?;
    Ok(Answer::new(line.into_bytes(), 1))
}

/// The words for a true claim.
#[derive(Clone, Copy)]
struct Accepted(Claim);

impl fmt::Display for Accepted {
    ghost output = { λ words. Some (accepted_words words.0) };

    fn fmt<W: fmt::Write>(&self, f: &mut fmt::Formatter<W>) -> fmt::Result {
        match self.0 {
            Claim::Pushes(pushes) => write!(f, "accepted at least {pushes} pushes"),
            Claim::Unsolvable => write!(f, "accepted unsolvable"),
        }
    }
}
