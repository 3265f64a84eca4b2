//! The check of a list whose entries are fine: is it closed?

ghost use Rattle.std.specs.Prelude.{◌≤◌, ◌↔◌, IfOk, IsTrue, List, MatchResult, length};
ghost use Rattle.sok_board.specs.Area.{IsAccepted, boxes_of};
ghost use Rattle.sok_closed.specs.Lookup.{IsLooking};
ghost use Rattle.sok_cert.specs.Closed.{IsClosed, IsStarter, node_of};
ghost use Rattle.sok_cert.specs.Refusals.{IsRefused};
ghost use Rattle.sok_cert.specs.Rosters.{AreEntered, IsOfBoard};
ghost use Rattle.sok_entry.specs.declared.claim.Claim.{Claim};
ghost use Rattle.sok_entry.specs.declared.entry.Entry.{Entry};

use sok_board::board::Board;
use sok_closed::roll::Roll;
use sok_entry::fault::CertFault;
use sok_rules::fault::Memory;
use sok_state::key::Key;
use std::alloc::Global;

/// Checks that a list of fine entries is closed, given their roll. Errors: `Start` if the start is
/// not among them; then `OpenPush` if a push from an expanded entry leads to none of them;
/// `Memory`.
pub(crate) fn close(alloc: Global, board: &Board, roll: &Roll) -> Result<(), CertFault>
    requires accepted { IsAccepted board.now }
    requires of_board { IsOfBoard board.now roll.now }
    ensures { (claim : Claim) (entries : List Entry) → AreEntered board.now claim entries roll.now
        → MatchResult result (λ _. IsClosed board.now claim entries)
        (IsRefused board.now claim entries) }
{
    if !has_start(alloc, board, roll)? {
        return Err(CertFault::Start);
    }
    match roll.first_missed(alloc, board)? {
        Some((index, push)) => Err(CertFault::OpenPush(index, push.from, push.dir)),
        None => Ok(()),
    }
}

/// Returns whether the state of the start is in the roll, at depth 0.
fn has_start(alloc: Global, board: &Board, roll: &Roll) -> Result<bool, Memory>
    requires { length board.now.area ≤ roll.now.room }
    ensures { (entries : List Entry)
        → IsLooking node_of board.now (length (boxes_of board.now)) entries roll.now.entries
        → IfOk result (λ starts. IsTrue starts ↔ ((e : Entry) × IsStarter board.now entries e)) }
{
    let start = Key::start(alloc, board)?;
    Ok(roll.starts(&start))
}
