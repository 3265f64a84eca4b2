//! The checker of certificates.

ghost use Rattle.std.specs.Prelude.{◌≡◌, ◌↔◌, [], IfOk, IfErr, IsOk, Err, MatchResult};
ghost use Rattle.sok_board.specs.Area.{IsAccepted};
ghost use Rattle.sok_cert.specs.Closed.{IsClosed};
ghost use Rattle.sok_cert.specs.Parts.{IsRosterOf};
ghost use Rattle.sok_cert.specs.Refusals.{IsRefused};
ghost use Rattle.sok_cert.specs.Rosters.{TellsEntries};
ghost use Rattle.sok_entry.specs.declared.fault.CertFault.TheVariants as fault;

use crate::accepted::Accepted;
use crate::roster::Roster;
use sok_board::board::Board;
use sok_distance::distances::Distances;
use sok_distance::setting::Setting;
use sok_entry::claim::Claim;
use sok_entry::entry::{Certificate, Entry};
use sok_entry::fault::CertFault;
use std::alloc::Global;

/// Checks a certificate. It is accepted exactly if its entries are closed. Then its claim is true
/// of the board's level, whoever wrote it.
///
/// Errors: the first fault. First those of single entries, in order of the list: `BadEntry` if it
/// is no position of the board; `Duplicate` if an earlier entry has its state; `SolvedEntry` if it
/// is expanded with all boxes on goals; `BadReason` if its reason does not hold. Then `Start` if no
/// entry of depth 0 is the start. Last `OpenPush`, for the first push from an expanded entry that
/// leads to no entry at most one deeper. `Memory` at any time.
pub fn check(alloc: Global, board: &Board, certificate: &Certificate) -> Result<Accepted, CertFault>
    ensures claim { IfOk result (λ accepted. accepted.claim ≡ certificate.now.claim) }
    ensures level { IfOk result (λ accepted. accepted.rows ≡ board.now.rows) }
    ensures refused { IfErr result
        (IsRefused board.now certificate.now.claim certificate.now.entries.items) }
    ensures exact { (result ≡ Err fault.Memory → ⊥) → (IsOk result
        ↔ IsClosed board.now certificate.now.claim certificate.now.entries.items) }
{
    judged(alloc, board, certificate)
}

/// Does the work of `check`. That function adds the clause `exact`.
fn judged(alloc: Global, board: &Board, certificate: &Certificate) -> Result<Accepted, CertFault>
    ensures claim { IfOk result (λ accepted. accepted.claim ≡ certificate.now.claim) }
    ensures level { IfOk result (λ accepted. accepted.rows ≡ board.now.rows) }
    ensures closed { IfOk result
        (λ _. IsClosed board.now certificate.now.claim certificate.now.entries.items) }
    ensures refused { IfErr result
        (IsRefused board.now certificate.now.claim certificate.now.entries.items) }
{
    // Called for its clauses, which say that the level is accepted.
    let _level = board.level();
    let judged = judge_entries(
        alloc,
        board,
        certificate.claim,
        certificate.entries.as_slice(),
    );
    Accepted::of(alloc, board, certificate.claim, judged)
}

/// Checks the entries of a certificate.
fn judge_entries(
    alloc: Global,
    board: &Board,
    claim: Claim,
    entries: &[Entry],
) -> Result<(), CertFault>
    ensures { MatchResult result (λ _. IsClosed board.now claim entries.now)
        (IsRefused board.now claim entries.now) }
{
    let distances = Distances::new(alloc, board)?;
    let mut roster = Roster::new(alloc, board);
    let setting = Setting {
        board,
        distances: &distances,
    };
    let judged = enter_all(alloc, &setting, claim, entries, &mut roster);
    roster.let_go();
    judged
}

/// Judges each entry by itself, with an empty roster, and then the list as a whole.
fn enter_all(
    alloc: Global,
    setting: &Setting<'_>,
    claim: Claim,
    entries: &[Entry],
    roster: &mut Roster,
) -> Result<(), CertFault>
    requires accepted { IsAccepted setting.now.board.now }
    requires none { TellsEntries setting.now.board.now claim [] roster.old.roll roster.old.fault }
    requires of_board { IsRosterOf setting.now.board.now roster.old }
    ensures { MatchResult result (λ _. IsClosed setting.now.board.now claim entries.now)
        (IsRefused setting.now.board.now claim entries.now) }
{
    for entry in entries {
        roster.enter(alloc, setting, claim, entry)?;
    }
    roster.close(alloc, setting.board)
}
