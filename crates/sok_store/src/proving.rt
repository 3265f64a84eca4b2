//! Proving a verdict.

ghost use Rattle.std.specs.Prelude.{◌≡◌, ◌⊎◌, ◌<◌, IfErr, IfOk};
ghost use Rattle.sqlite.specs.Held.{state};
ghost use Rattle.sok_book.specs.Commands.{IsCertificate, Meets, best_pushes, verdict_of};
ghost use Rattle.sok_book.specs.Kept.{IsKeptPage};
ghost use Rattle.sok_book.specs.Refusals.{IsUnproved};
ghost use Rattle.sok_store.specs.Calls.{id_number};
ghost use Rattle.sok_store.specs.Running.{RunsProving};

use crate::reading::{place_of, read_record};
use crate::writing::store_verdict;
use sok_board::board::Board;
use sok_book::fault::BookFault;
use sok_book::proving::judge_proof;
use sok_book::record::{Record, Verdict};
use sok_cert::claim::Claim;
use sqlite::{Alter, Connection};
use std::alloc::Global;

/// Proves the verdict of the level with this id.
pub(crate) fn prove_to<S: Alter>(
    conn: &mut Connection<S>,
    alloc: Global,
    id: i64,
    bytes: &[u8],
) -> Result<Claim, BookFault>
    ensures { RunsProving (state S.Store conn.old) (state S.Store conn.new)
        (id_number id) bytes.now result }
{
    match place_of(id) {
        Some(place) => prove_at(conn, alloc, place, bytes),
        None => Err(BookFault::NoLevel),
    }
}

/// Does so with an id that may be one of a level.
fn prove_at<S: Alter>(
    conn: &mut Connection<S>,
    alloc: Global,
    id: u32,
    bytes: &[u8],
) -> Result<Claim, BookFault>
    requires { 0 < id }
    ensures { RunsProving (state S.Store conn.old) (state S.Store conn.new)
        id bytes.now result }
{
    let kept = match read_record(conn, alloc, id) {
        Ok(kept) => kept,
        Err(fault) => return Err(fault),
    };
    let claim = match judge_record(alloc, &kept, bytes) {
        Ok(claim) => claim,
        Err(fault) => return Err(fault),
    };
    match store_verdict(conn, id, verdict_of(claim)) {
        Ok(()) => Ok(claim),
        Err(fault) => Err(fault),
    }
}

/// Returns the claim that a certificate proves of a level and its best solution.
fn judge_record(alloc: Global, kept: &Record, bytes: &[u8]) -> Result<Claim, BookFault>
    ensures certificate { IfOk result (IsCertificate kept.now.page.level bytes.now) }
    ensures meets { IfOk result (λ claim. Meets claim (best_pushes kept.now.page)) }
    ensures refused { IfErr result (λ fault. IsKeptPage kept.now.page
        → (fault ≡ BookFault.Memory) ⊎ IsUnproved kept.now.page bytes.now fault) }
{
    let board = match Board::new(alloc, &kept.level) {
        Ok(board) => board,
        Err(fault) => return Err(BookFault::from(fault)),
    };
    judge_proof(alloc, &board, pushes_of(kept), bytes)
}

/// Returns the pushes of the best solution, if there is one.
pub(crate) fn pushes_of(kept: &Record) -> Option<u64>
    ensures { result ≡ best_pushes kept.now.page }
{
    match &kept.best {
        Some(best) => Some(u64::from(best.pushes)),
        None => None,
    }
}

/// Returns the verdict that a claim states.
pub(crate) fn verdict_of(claim: Claim) -> Verdict
    ensures { result ≡ verdict_of claim }
{
    match claim {
        Claim::Pushes(_) => Verdict::Optimal,
        Claim::Unsolvable => Verdict::Unsolvable,
    }
}
