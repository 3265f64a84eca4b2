//! Whether bytes prove a verdict of a level.

ghost use Rattle.std.specs.Prelude.{◌≡◌, ◌⊎◌, IfOk, IfErr, MatchOption};
ghost use Rattle.sok_cert.specs.CertFault.TheVariants as cert;
ghost use Rattle.sok_cert.specs.Reading.{GoesWrong};
ghost use Rattle.sok_cert.specs.Streams.{EndsFor};
ghost use Rattle.sok_book.specs.Commands.{IsCertificate, Meets};
ghost use Rattle.sok_book.specs.Refusals.{Differs, IsNoProof};
ghost use Rattle.sok_book.specs.declared.fault.BookFault.TheVariants as book;

use crate::fault::BookFault;
use sok_board::board::Board;
use sok_cert::claim::Claim;
use sok_cert::fault::CertFault;
use sok_cert::stream::{Ended, Stream};
use std::alloc::Global;

/// Returns the claim that a certificate proves of a board. The claim fits the best solution: it
/// states the same number of pushes, or that there is no solution if `best` is `None`.
///
/// Errors, in this order: bytes that are no certificate; a claim that does not fit the best
/// solution; a list that is not closed. Or `Memory`.
pub fn judge_proof(
    alloc: Global,
    board: &Board,
    best: Option<u64>,
    bytes: &[u8],
) -> Result<Claim, BookFault>
    ensures certificate { IfOk result (IsCertificate board.now.rows bytes.now) }
    ensures meets { IfOk result (λ claim. Meets claim best) }
    ensures refused { IfErr result
        (λ fault. (fault ≡ book.Memory) ⊎ IsNoProof board.now best bytes.now fault) }
{
    let ended = certificate_of(alloc, board, bytes)?;
    match difference(ended.claim(), best) {
        Some(fault) => {
            ended.let_go();
            Err(fault)
        }
        None => Ok(ended.judge()?.claim()),
    }
}

/// Reads the certificate that bytes spell, and judges its entries on a board.
fn certificate_of<'a>(alloc: Global, board: &'a Board, bytes: &[u8]) -> Result<Ended<'a>, CertFault>
    ensures board { IfOk result (λ ended. ended.board ≡ board.now) }
    ensures ends { IfOk result (EndsFor bytes.now) }
    ensures wrong { IfErr result (λ fault. (fault ≡ cert.Memory) ⊎ GoesWrong bytes.now fault) }
{
    Stream::new(alloc, board)?.take(bytes)?.ended()
}

/// Returns why a claim does not fit the best solution.
fn difference(claim: Claim, best: Option<u64>) -> Option<BookFault>
    ensures { MatchOption result (Meets claim best) (Differs claim best) }
{
    match (claim, best) {
        (Claim::Pushes(_), None) => Some(BookFault::NoBest),
        (Claim::Pushes(claimed), Some(pushes)) => {
            if pushes == u64::from(claimed) {
                None
            } else {
                Some(BookFault::ClaimDiffers)
            }
        }
        (Claim::Unsolvable, Some(_)) => Some(BookFault::ClaimDiffers),
        (Claim::Unsolvable, None) => None,
    }
}
