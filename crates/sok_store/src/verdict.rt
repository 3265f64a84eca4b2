//! Setting a verdict by a claim that is known to be true.

ghost use Rattle.std.specs.Prelude.{◌≡◌, ◌⊎◌, ◌<◌, ◌↔◌, IfErr, IfOk, IsTrue, OnOk};
ghost use Rattle.sqlite.specs.Held.{state};
ghost use Rattle.sok_book.specs.Commands.{Meets, best_pushes};
ghost use Rattle.sok_cert.specs.Closed.{IsTrueOf};
ghost use Rattle.sok_store.specs.Calls.{id_number};
ghost use Rattle.sok_store.specs.Verdicts.{IsNoClaimOn};
ghost use Rattle.sok_store.specs.Running.{RunsVerdict};

use crate::proving::{pushes_of, verdict_of};
use crate::reading::{place_of, read_record};
use crate::writing::store_verdict;
use sok_book::fault::BookFault;
use sok_book::record::Record;
use sok_book::writing::text_of;
use sok_cert::claim::Claim;
use sok_rules::fault::Memory;
use sok_rules::level::Level;
use sqlite::{Alter, Connection};
use std::alloc::Global;

/// Sets the verdict of the level with this id by a claim that is known to be true.
pub(crate) fn set_verdict_to<S: Alter>(
    conn: &mut Connection<S>,
    alloc: Global,
    id: i64,
    level: &Level,
    claim: Claim,
) -> Result<(), BookFault>
    requires { IsTrueOf level.now claim }
    ensures { RunsVerdict (state S.Store conn.old) (state S.Store conn.new)
        (id_number id) level.now claim result }
{
    match place_of(id) {
        Some(place) => set_verdict_at(conn, alloc, place, level, claim),
        None => Err(BookFault::NoLevel),
    }
}

/// Does so with an id that may be one of a level.
fn set_verdict_at<S: Alter>(
    conn: &mut Connection<S>,
    alloc: Global,
    id: u32,
    level: &Level,
    claim: Claim,
) -> Result<(), BookFault>
    requires low { 0 < id }
    requires true_claim { IsTrueOf level.now claim }
    ensures { RunsVerdict (state S.Store conn.old) (state S.Store conn.new)
        id level.now claim result }
{
    let kept = match read_record(conn, alloc, id) {
        Ok(kept) => kept,
        Err(fault) => return Err(fault),
    };
    match judge_claim(alloc, &kept, level, claim) {
        Ok(()) => store_verdict(conn, id, verdict_of(claim)),
        Err(fault) => Err(fault),
    }
}

/// Checks that a claim on `level` applies to a level of the book: `NoLevel` if that is another
/// level, `ClaimDiffers` if the claim does not fit its best solution.
fn judge_claim(alloc: Global, kept: &Record, level: &Level, claim: Claim) -> Result<(), BookFault>
    ensures same { OnOk result (kept.now.page.level ≡ level.now) }
    ensures meets { OnOk result (Meets claim (best_pushes kept.now.page)) }
    ensures refused { IfErr result (λ fault.
        (fault ≡ BookFault.Memory) ⊎ IsNoClaimOn kept.now.page level.now claim fault) }
{
    let same = match is_same(alloc, &kept.level, level) {
        Ok(same) => same,
        Err(fault) => return Err(BookFault::from(fault)),
    };
    if !same {
        return Err(BookFault::NoLevel);
    }
    if !is_about(claim, pushes_of(kept)) {
        return Err(BookFault::ClaimDiffers);
    }
    Ok(())
}

/// Returns whether two levels are the same, by their canonical texts.
fn is_same(alloc: Global, level: &Level, other: &Level) -> Result<bool, Memory>
    ensures { IfOk result (λ same. IsTrue same ↔ level.now ≡ other.now) }
{
    // The contract of `rows` says that these are levels.
    let _rows = level.rows();
    let _other_rows = other.rows();
    let text = text_of(alloc, level)?;
    let other_text = text_of(alloc, other)?;
    Ok(text.as_bytes() == other_text.as_bytes())
}

/// Returns whether a claim fits the best solution: it states the same number of pushes; or it
/// states that there is no solution, and there is no best one.
fn is_about(claim: Claim, best: Option<u64>) -> bool
    ensures { IsTrue result ↔ Meets claim best }
{
    match (claim, best) {
        (Claim::Pushes(claimed), Some(pushes)) => pushes == u64::from(claimed),
        (Claim::Pushes(_), None) => false,
        (Claim::Unsolvable, Some(_)) => false,
        (Claim::Unsolvable, None) => true,
    }
}
