//! The entries of a certificate, judged one by one.

ghost use Rattle.std.specs.Prelude.{◌+◌, ◌++◌, ◌∷◌, [], List, MatchResult, OnOk};
ghost use Rattle.sok_board.specs.Area.{IsAccepted};
ghost use Rattle.sok_cert.specs.Closed.{IsClosed};
ghost use Rattle.sok_cert.specs.Refusals.{IsRefused};
ghost use Rattle.sok_cert.specs.Parts.{IsRosterOf};
ghost use Rattle.sok_cert.specs.Rosters.{IsOfBoard, TellsEntries};
ghost use Rattle.sok_entry.specs.declared.claim.Claim.{Claim};
ghost use Rattle.sok_entry.specs.declared.entry.Entry.{Entry};

use crate::close::close;
use crate::entering::enter;
use sok_bar::memo::Memo;
use sok_board::board::Board;
use sok_closed::roll::Roll;
use sok_distance::setting::Setting;
use sok_entry::claim::Claim;
use sok_entry::entry::Entry;
use sok_entry::fault::CertFault;
use sok_rules::fault::Memory;
use sok_state::normalizer::Normalizer;
use std::alloc::Global;

/// Entries that are judged one by one. The roll keeps the state and the depth of each, and whether
/// it is expanded, up to the first entry with a fault of its own; then that fault is kept. The memo
/// keeps pattern positions that were judged, and the normalizer makes the keys.
#[derive(Drop)]
pub(crate) struct Roster {
    pub(crate) roll: Roll,
    pub(crate) memo: Memo,
    pub(crate) normalizer: Normalizer,
    pub(crate) fault: Option<CertFault>,
}

impl Roster {
    /// Returns an empty roster for a board.
    pub(crate) fn new(alloc: Global, board: &Board) -> Roster
        ensures none { (claim : Claim)
            → TellsEntries board.now claim [] result.roll result.fault }
        ensures of_board { IsRosterOf board.now result }
    {
        Roster {
            roll: Roll::new(alloc, board.squares()),
            memo: Memo::new(alloc),
            normalizer: Normalizer::new(board),
            fault: None,
        }
    }

    /// Frees the roster.
    pub(crate) fn let_go(self) {
        self.roll.let_go();
    }

    /// Judges the next entry. Does nothing if an earlier one has a fault.
    pub(crate) fn enter(
        &mut self,
        alloc: Global,
        setting: &Setting<'_>,
        claim: Claim,
        entry: &Entry,
    ) -> Result<(), Memory>
        requires accepted { IsAccepted setting.now.board.now }
        requires of_board { IsRosterOf setting.now.board.now self.old }
        ensures tells { (entries : List Entry)
            → TellsEntries setting.now.board.now claim entries self.old.roll self.old.fault
            → OnOk result (TellsEntries setting.now.board.now claim (entries ++ entry.now ∷ [])
            self.new.roll self.new.fault) }
        ensures of_board { IsRosterOf setting.now.board.now self.new }
    {
        if self.fault.is_some() {
            return Ok(());
        }
        self.fault = enter(
            alloc,
            setting,
            claim,
            entry,
            &mut self.normalizer,
            &mut self.roll,
            &mut self.memo,
        )?;
        Ok(())
    }

    /// Checks all entries. Errors: the first fault of a single entry, or else that of the list as a
    /// whole; `Memory`.
    pub(crate) fn close(&self, alloc: Global, board: &Board) -> Result<(), CertFault>
        requires accepted { IsAccepted board.now }
        requires of_board { IsOfBoard board.now self.now.roll }
        ensures { (claim : Claim) (entries : List Entry)
            → TellsEntries board.now claim entries self.now.roll self.now.fault
            → MatchResult result (λ _. IsClosed board.now claim entries)
            (IsRefused board.now claim entries) }
    {
        match self.fault {
            Some(fault) => Err(fault),
            None => close(alloc, board, &self.roll),
        }
    }
}
