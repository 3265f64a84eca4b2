//! Enters the state of an entry into the roll of those before it.

ghost use Rattle.std.specs.Prelude.{◌≡◌, ◌++◌, ◌∷◌, [], IfOk, List, MatchOption};
ghost use Rattle.sok_board.specs.Area.{IsAccepted};
ghost use Rattle.sok_bar.specs.Memos.{KeepsClosed};
ghost use Rattle.sok_state.specs.Normalizers.{Normalizes};
ghost use Rattle.sok_cert.specs.Closed.{IsPosition};
ghost use Rattle.sok_cert.specs.Judging.{IsLocated, fault_of};
ghost use Rattle.sok_cert.specs.Rosters.{AreEntered, IsOfBoard, TellsEntries};
ghost use Rattle.sok_entry.specs.declared.entry.Entry.{Entry};

use crate::judging::{Finding, judge};
use crate::reason::is_expanded;
use sok_bar::memo::Memo;
use sok_board::board::Board;
use sok_closed::placing::{Located, locate};
use sok_closed::roll::Roll;
use sok_distance::setting::Setting;
use sok_entry::claim::Claim;
use sok_entry::entry::Entry;
use sok_entry::fault::CertFault;
use sok_rules::fault::Memory;
use sok_state::normalizer::Normalizer;
use std::alloc::Global;

/// Enters the state of an entry into the roll of the entries before it. Returns the fault of the
/// entry, if it has one of its own; the roll is then unspecified. The normalizer makes the keys of
/// the board, and the memo keeps judged pattern positions.
pub(crate) fn enter(
    alloc: Global,
    setting: &Setting<'_>,
    claim: Claim,
    entry: &Entry,
    normalizer: &mut Normalizer,
    roll: &mut Roll,
    memo: &mut Memo,
) -> Result<Option<CertFault>, Memory>
    requires accepted { IsAccepted setting.now.board.now }
    requires normalizes { Normalizes setting.now.board.now normalizer.old }
    requires of_board { IsOfBoard setting.now.board.now roll.old }
    requires memo { KeepsClosed setting.now.board.now memo.old }
    ensures tells { (entries : List Entry) → AreEntered setting.now.board.now claim entries roll.old
        → IfOk result (TellsEntries setting.now.board.now claim
        (entries ++ entry.now ∷ []) roll.new) }
    ensures normalizes { Normalizes setting.now.board.now normalizer.new }
    ensures of_board { IsOfBoard setting.now.board.now roll.new }
    ensures memo { KeepsClosed setting.now.board.now memo.new }
{
    let index = roll.len();
    let Some(Located { boxes, key }) = locate_entry(alloc, setting.board, entry, normalizer)? else {
        return Ok(Some(CertFault::BadEntry(index)));
    };
    if !roll.enter(&key, entry.depth, is_expanded(&entry.reason))? {
        return Ok(Some(CertFault::Duplicate(index)));
    }
    let found = judge(alloc, setting, claim, entry, &boxes, memo)?;
    Ok(fault_of(found, index))
}

/// Returns the fault of the entry at `index` that a finding means, if any.
fn fault_of(found: Finding, index: usize) -> Option<CertFault>
    ensures { result ≡ fault_of found index }
{
    match found {
        Finding::Fine => None,
        Finding::Solved => Some(CertFault::SolvedEntry(index)),
        Finding::Unreasoned => Some(CertFault::BadReason(index)),
    }
}

/// Returns the boxes and the state of an entry, or None if it is no position with all boxes of the
/// board.
fn locate_entry(
    alloc: Global,
    board: &Board,
    entry: &Entry,
    normalizer: &mut Normalizer,
) -> Result<Option<Located>, Memory>
    requires accepted { IsAccepted board.now }
    requires normalizes { Normalizes board.now normalizer.old }
    ensures found { IfOk result (λ found. MatchOption found
        (IsPosition board.now entry.now → ⊥) (IsLocated board.now entry.now)) }
    ensures normalizes { Normalizes board.now normalizer.new }
{
    let count = board.start().1.len();
    locate(
        alloc,
        board,
        normalizer,
        count,
        entry.player,
        entry.boxes.as_slice(),
    )
}
