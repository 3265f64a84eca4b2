//! The state of a certificate that is read in pieces.

ghost use Rattle.std.specs.Prelude.{ℕ, ◌≡◌, ◌<◌, ◌^◌, ◌++◌, ◌∷◌, [], List, IfOk, IsTrue, MatchOption};
ghost use Rattle.std.specs.Prelude.{MatchResult, OnOk, length};
ghost use Rattle.sok_text.specs.Lines.{IsUnended};
ghost use Rattle.sok_board.specs.Area.{IsAccepted, BoardView};
ghost use Rattle.sok_entry.specs.Reading.{GoesWrong};
ghost use Rattle.sok_entry.specs.Stages.{AreWrong, IsRead, IsSplit, IsStage, MayClaim};
ghost use Rattle.sok_entry.specs.declared.claim.Claim.{Claim};
ghost use Rattle.sok_entry.specs.declared.fault.CertFault.TheVariants as cert;
ghost use Rattle.sok_entry.specs.declared.entry.Entry.{Entry};
ghost use Rattle.sok_entry.specs.declared.stage.Stage.{Stage};
ghost use Rattle.sok_cert.specs.Parts.{IsRosterOf, IsTaken, progressed_of, rostered_of};
ghost use Rattle.sok_cert.specs.Rosters.{TellsEntries};
ghost use Rattle.sok_cert.specs.Streams.{AreJudged, EndsFor, StandsFor, ending_of};

use crate::roster::Roster;
use sok_board::board::Board;
use sok_distance::setting::Setting;
use sok_entry::claim::Claim;
use sok_entry::entry::Reason;
use sok_entry::fault::CertFault;
use sok_entry::known::Known;
use sok_entry::stage::{LineRead, Stage};
use sok_rules::fault::Memory;
use sok_text::line::{cut_at_end, without_return};
use std::alloc::{AllocError, Global};
use std::mem;

/// The state of a certificate that is read in pieces: what comes next, the bytes of the line that
/// has no end yet, the fault of the text if it is known, and the entries so far, each of which is
/// judged. After an error it is unspecified.
#[derive(Drop)]
pub(crate) struct Progress {
    pub(crate) stage: Stage,
    /// Counts the lines that have ended. A list of `()` takes no memory.
    pub(crate) ended: Vec<()>,
    pub(crate) line: Vec<u8>,
    /// A buffer for the numbers of a line.
    pub(crate) numbers: Vec<u32>,
    /// Inner positions of patterns that were read. The same lines may come again.
    pub(crate) known: Known,
    pub(crate) wrong: Option<CertFault>,
    pub(crate) roster: Roster,
}

impl Progress {
    /// Returns the state before the first byte.
    pub(crate) fn new(alloc: Global, board: &Board) -> Progress
        ensures nothing { StandsFor board.now [] (progressed_of result) }
        ensures of_board { IsRosterOf board.now result.roster }
    {
        Progress {
            stage: Stage::AtHeader,
            ended: Vec::new(alloc),
            line: Vec::new(alloc),
            numbers: Vec::new(alloc),
            known: Known::new(alloc),
            wrong: None,
            roster: Roster::new(alloc, board),
        }
    }

    /// Frees what was read.
    pub(crate) fn let_go(self) {
        self.roster.let_go();
    }

    /// Reads the next piece.
    pub(crate) fn take(
        &mut self,
        alloc: Global,
        setting: &Setting<'_>,
        piece: &[u8],
    ) -> Result<(), Memory>
        requires accepted { IsAccepted setting.now.board.now }
        requires of_board { IsRosterOf setting.now.board.now self.old.roster }
        ensures stands { (text : List ℕ) → StandsFor setting.now.board.now text
            (progressed_of self.old)
            → OnOk result
            (StandsFor setting.now.board.now (text ++ piece.now) (progressed_of self.new)) }
        ensures of_board { IsRosterOf setting.now.board.now self.new.roster }
    {
        let mut rest = piece;
        while let Some((part, behind)) = cut_at_end(rest) {
            self.end_line(alloc, setting, part)?;
            rest = self.pass_known(alloc, setting, behind)?;
        }
        self.keep(rest)
    }

    /// Returns the claim of the text, if it ends here. Takes no memory. Errors: the fault of the
    /// text, if it is no certificate.
    pub(crate) fn ended(&self) -> Result<Claim, CertFault>
        ensures { (b : BoardView) (text : List ℕ) → StandsFor b text (progressed_of self.now)
            → MatchResult result (λ claim. EndsFor text
            (ending_of b claim (progressed_of self.now))) (GoesWrong text) }
    {
        if let Some(fault) = self.wrong {
            return Err(fault);
        }
        self.stage.ended(self.line.as_slice(), self.ended.len())
    }

    /// Reads the last bytes of a line that ends, without its LF.
    fn end_line(&mut self, alloc: Global, setting: &Setting<'_>, part: &[u8]) -> Result<(), Memory>
        requires accepted { IsAccepted setting.now.board.now }
        requires of_board { IsRosterOf setting.now.board.now self.old.roster }
        requires unended { IsUnended part.now }
        ensures stands { (text : List ℕ) → StandsFor setting.now.board.now text
            (progressed_of self.old)
            → OnOk result
            (StandsFor setting.now.board.now (text ++ part.now ++ 10 ∷ [])
            (progressed_of self.new)) }
        ensures of_board { IsRosterOf setting.now.board.now self.new.roster }
    {
        if self.wrong.is_some() {
            return Ok(());
        }
        self.line.extend_from_slice(part)?;
        let lines = self.ended.len();
        self.ended.push(())?;
        let line = without_return(self.line.as_slice());
        self.wrong = judge_line(
            alloc,
            setting,
            &mut self.numbers,
            &mut self.known,
            &mut self.stage,
            lines,
            &mut self.roster,
            line,
        )?;
        self.line.clear();
        Ok(())
    }

    /// Skips all lines of the inner positions of a pattern at once, if only its first line has been
    /// read and `rest` begins with lines that are known. Returns what is left of the piece.
    fn pass_known<'p>(
        &mut self,
        alloc: Global,
        setting: &Setting<'_>,
        rest: &'p [u8],
    ) -> Result<&'p [u8], Memory>
        requires accepted { IsAccepted setting.now.board.now }
        requires of_board { IsRosterOf setting.now.board.now self.old.roster }
        ensures takes { IfOk result (λ behind. IsTaken setting.now.board.now
            (progressed_of self.old)
            (progressed_of self.new) rest.now behind.now) }
        ensures of_board { IsRosterOf setting.now.board.now self.new.roster }
    {
        if self.wrong.is_some() || !self.line.is_empty() {
            return Ok(rest);
        }
        let Some(count) = self.stage.awaited() else {
            return Ok(rest);
        };
        let Some((inner, behind)) = self.known.at(rest, count) else {
            return Ok(rest);
        };
        let lines = self.ended.len() + inner.as_slice().len();
        self.ended.resize(lines, ())?;
        let now = mem::replace(&mut self.stage, Stage::AtHeader);
        let read = now.pass(inner)?;
        self.wrong = judge_read(alloc, setting, read, &mut self.stage, &mut self.roster)?;
        Ok(behind)
    }

    /// Keeps bytes of a line that has no end yet. A first or second line that is longer than
    /// `FRONT` is not kept: the text goes wrong with `Header`, whatever follows.
    fn keep(&mut self, part: &[u8]) -> Result<(), Memory>
        requires unended { IsUnended part.now }
        ensures stands { (b : BoardView) (text : List ℕ) → StandsFor b text (progressed_of self.old)
            → OnOk result (StandsFor b (text ++ part.now) (progressed_of self.new)) }
        ensures roster { self.new.roster ≡ self.old.roster }
    {
        if self.wrong.is_some() {
            return Ok(());
        }
        self.line.extend_from_slice(part)?;
        if is_too_long(&self.stage, self.line.as_slice()) {
            self.line.clear();
            self.wrong = Some(CertFault::Header);
            return Ok(());
        }
        Ok(())
    }
}

/// A limit in bytes for the first two lines. No header and no claim is as long.
const FRONT: usize = 64;

/// Returns whether a line that has no end yet is one of the first two, and too long.
fn is_too_long(stage: &Stage, line: &[u8]) -> bool
    ensures { IsTrue result → (text : List ℕ) (ls : List (List ℕ)) (es : List Entry)
        → IsSplit text ls line.now → IsStage ls es stage.now
        → (more : List ℕ) → GoesWrong (text ++ more) cert.Header }
{
    if line.len() <= FRONT {
        return false;
    }
    match stage {
        Stage::AtHeader | Stage::AtClaim(_) => true,
        Stage::AtEntries(..) | Stage::AtInner { .. } | Stage::AtEnd(_) => false,
    }
}

/// Reads a line that has ended, after `lines` others, and judges the entry that it completes, if
/// any. Returns the fault if the text goes wrong with this line. `numbers` is a buffer for the
/// numbers of the line, and `known` keeps the inner positions of a pattern that is complete.
fn judge_line(
    alloc: Global,
    setting: &Setting<'_>,
    numbers: &mut Vec<u32>,
    known: &mut Known,
    stage: &mut Stage,
    lines: usize,
    roster: &mut Roster,
    line: &[u8],
) -> Result<Option<CertFault>, Memory>
    requires few { lines < 2 ^ 63 }
    requires accepted { IsAccepted setting.now.board.now }
    requires of_board { IsRosterOf setting.now.board.now roster.old }
    ensures judged { (ls : List (List ℕ)) (entries : List Entry) → length ls ≡ lines
        → AreJudged setting.now.board.now stage.old (rostered_of roster.old) ls entries
        → IfOk result (λ wrong. MatchOption wrong ((es : List Entry)
        × AreJudged setting.now.board.now stage.new (rostered_of roster.new)
        (ls ++ line.now ∷ []) es)
        (AreWrong (ls ++ line.now ∷ []))) }
    ensures of_board { IsRosterOf setting.now.board.now roster.new }
{
    let now = mem::replace(stage, Stage::AtHeader);
    let read = now.line(alloc, numbers, line, lines)?;
    keep(alloc, known, &read)?;
    judge_read(alloc, setting, read, stage, roster)
}

/// Keeps the inner positions of a pattern whose last line was read.
fn keep(alloc: Global, known: &mut Known, read: &LineRead) -> Result<(), AllocError> {
    if let LineRead::Listed(_, entry, _) = read
        && let Reason::Pattern { inner, .. } = &entry.reason
    {
        return known.keep(alloc, inner);
    }
    Ok(())
}

/// Judges the entry that a line completes, if it does, and sets the next stage. Returns the fault
/// if the text goes wrong.
fn judge_read(
    alloc: Global,
    setting: &Setting<'_>,
    read: LineRead,
    stage: &mut Stage,
    roster: &mut Roster,
) -> Result<Option<CertFault>, Memory>
    requires accepted { IsAccepted setting.now.board.now }
    requires of_board { IsRosterOf setting.now.board.now roster.old }
    ensures judged { (now : Stage) (ls : List (List ℕ)) (entries : List Entry)
        → ((claim : Claim) → MayClaim now claim
        → TellsEntries setting.now.board.now claim entries roster.old.roll roster.old.fault)
        → IsRead ls entries now read
        → IfOk result (λ wrong. MatchOption wrong ((es : List Entry)
        × AreJudged setting.now.board.now stage.new (rostered_of roster.new) ls es) (AreWrong ls)) }
    ensures of_board { IsRosterOf setting.now.board.now roster.new }
{
    match read {
        LineRead::Listed(claim, entry, next) => {
            roster.enter(alloc, setting, claim, &entry)?;
            *stage = next;
            Ok(None)
        }
        LineRead::Passed(next) => {
            *stage = next;
            Ok(None)
        }
        LineRead::Wrong(fault) => Ok(Some(fault)),
    }
}
