//! Certificates that are checked as they are read.

ghost use Rattle.std.specs.Prelude.{ℕ, ◌≡◌, ◌⊎◌, ◌++◌, [], List, Err, IfErr, IfOk, MatchResult};
ghost use Rattle.std.specs.Prelude.{Ok};
ghost use Rattle.std.specs.List.{flat_map};
ghost use Rattle.sok_board.specs.Area.{IsAccepted};
ghost use Rattle.sok_entry.specs.Reading.{GoesWrong};
ghost use Rattle.sok_entry.specs.declared.entry.Entry.{Entry};
ghost use Rattle.sok_entry.specs.declared.fault.CertFault.TheVariants as cert;
ghost use Rattle.sok_cert.specs.Parts.{rostered_of};
ghost use Rattle.sok_cert.specs.Rosters.{IsOfBoard, TellsEntries};
ghost use Rattle.sok_cert.specs.Streams.{EndsFor, StandsFor};
ghost use Rattle.sok_cert.specs.Verdicts.{IsProofOf, IsRefusedText};

use crate::accepted::Accepted;
use crate::progress::Progress;
use crate::roster::Roster;
use sok_board::board::Board;
use sok_distance::distances::Distances;
use sok_distance::setting::Setting;
use sok_entry::claim::Claim;
use sok_entry::fault::CertFault;
use sok_rules::fault::Memory;
use std::alloc::Global;
use std::marker::Model;

/// A certificate for a board that is checked as its bytes come, in pieces of any size. Each entry
/// is judged when its last line ends, and of a fine entry only the state is kept. After a faulty
/// entry its fault is kept and reading goes on, because the faults of the text come first. Inner
/// positions of patterns are kept too, up to a limit: if the same lines come again, they are
/// skipped at once. The contracts see a stream as its board and its progress.
#[derive(Drop)]
pub struct Stream<'a> {
    alloc: Global,
    board: &'a Board,
    distances: Distances,
    progress: Progress,
}

impl<'a> Model for Stream<'a> {
    ghost use Rattle.std.specs.Prelude.{ℕ, ◌≡◌, List};
    ghost use Rattle.sok_board.specs.Area.{IsAccepted};
    ghost use Rattle.sok_cert.specs.Parts.{IsRosterOf, progressed_of};
    ghost use Rattle.sok_cert.specs.Streams.{StandsFor, Streamed};

    ghost Value = { Streamed };

    ghost view = { λ stream. record {
      board = stream.board.now;
      progress = progressed_of stream.progress;
    } };

    ghost invariant = { λ stream. IsAccepted stream.board.now
        × (stream.distances.board ≡ stream.board.now)
        × IsRosterOf stream.board.now stream.progress.roster
        × ((text : List ℕ) × StandsFor stream.board.now text (progressed_of stream.progress)) };
}

/// What is left of a stream whose text has ended and is a certificate. The contracts see it as the
/// board, the claim and the judged entries.
#[derive(Drop)]
pub struct Ended<'a> {
    alloc: Global,
    board: &'a Board,
    claim: Claim,
    roster: Roster,
}

impl<'a> Model for Ended<'a> {
    ghost use Rattle.std.specs.Prelude.{List};
    ghost use Rattle.sok_board.specs.Area.{IsAccepted};
    ghost use Rattle.sok_entry.specs.declared.entry.Entry.{Entry};
    ghost use Rattle.sok_cert.specs.Parts.{rostered_of};
    ghost use Rattle.sok_cert.specs.Rosters.{IsOfBoard, TellsEntries};
    ghost use Rattle.sok_cert.specs.Streams.{Ending};

    ghost Value = { Ending };

    ghost view = { λ ended. record {
      board = ended.board.now;
      claim = ended.claim;
      roster = rostered_of ended.roster;
    } };

    ghost invariant = { λ ended. IsAccepted ended.board.now
        × IsOfBoard ended.board.now ended.roster.roll
        × ((entries : List Entry)
        × TellsEntries ended.board.now ended.claim entries ended.roster.roll ended.roster.fault) };
}

impl<'a> Stream<'a> {
    /// Returns a stream before its first byte. It keeps the allocator for later pieces.
    pub fn new(alloc: Global, board: &'a Board) -> Result<Stream<'a>, Memory>
        ensures nothing { IfOk result (λ stream. StandsFor board.now [] stream.progress) }
        ensures board { IfOk result (λ stream. stream.board ≡ board.now) }
    {
        let distances = Distances::new(alloc, board)?;
        let progress = Progress::new(alloc, board);
        Ok(Stream {
            alloc,
            board,
            distances,
            progress,
        })
    }

    /// Reads the next piece. On an error, the stream is freed.
    pub fn take(self, piece: &[u8]) -> Result<Stream<'a>, Memory>
        ensures stands { (text : List ℕ) → StandsFor self.entry.board text self.entry.progress
            → IfOk result (λ stream.
            StandsFor self.entry.board (text ++ piece.now) stream.progress) }
        ensures board { IfOk result (λ stream. stream.board ≡ self.entry.board) }
    {
        let Stream {
            alloc,
            board,
            distances,
            mut progress,
        } = self;
        let setting = Setting {
            board,
            distances: &distances,
        };
        match progress.take(alloc, &setting, piece) {
            Ok(()) => Ok(Stream {
                alloc,
                board,
                distances,
                progress,
            }),
            Err(refused) => {
                progress.let_go();
                Err(refused)
            }
        }
    }

    /// Frees the stream.
    pub fn let_go(self) {
        self.progress.let_go();
    }

    /// Ends the text. Takes no memory. Errors: the fault that `read` reports, if the text is no
    /// certificate.
    pub fn ended(self) -> Result<Ended<'a>, CertFault>
        ensures ends { (text : List ℕ) → StandsFor self.entry.board text self.entry.progress
            → MatchResult result (EndsFor text) (GoesWrong text) }
        ensures board { IfOk result (λ ended. ended.board ≡ self.entry.board) }
    {
        let Stream {
            alloc,
            board,
            distances: _tables,
            progress,
        } = self;
        let claim = progress.ended();
        ending(alloc, board, claim, progress.roster)
    }
}

/// Returns the end of a stream, if its text is a certificate; otherwise frees the roster.
fn ending<'a>(
    alloc: Global,
    board: &'a Board,
    claim: Result<Claim, CertFault>,
    roster: Roster,
) -> Result<Ended<'a>, CertFault>
    requires accepted { IsAccepted board.now }
    requires of_board { IsOfBoard board.now roster.roll }
    requires entered { IfOk claim (λ claim. (entries : List Entry)
        × TellsEntries board.now claim entries roster.roll roster.fault) }
    ensures ended { IfOk result (λ ended. (claim ≡ Ok ended.claim)
        × (ended.board ≡ board.now) × (ended.roster ≡ rostered_of roster)) }
    ensures fault { IfErr result (λ fault. claim ≡ Err fault) }
{
    match claim {
        Ok(claim) => Ok(Ended {
            alloc,
            board,
            claim,
            roster,
        }),
        Err(fault) => {
            roster.let_go();
            Err(fault)
        }
    }
}

impl Ended<'_> {
    /// Returns what the certificate claims. Takes no memory.
    pub fn claim(&self) -> Claim
        ensures { result ≡ self.now.claim }
    {
        self.claim
    }

    /// Frees the end of the stream.
    pub fn let_go(self) {
        self.roster.let_go();
    }

    /// Checks the certificate, as `check` does with what `read` returns for its text.
    pub fn judge(self) -> Result<Accepted, CertFault>
        ensures claim { IfOk result (λ accepted. accepted.claim ≡ self.entry.claim) }
        ensures level { IfOk result (λ accepted. accepted.rows ≡ self.entry.board.rows) }
        ensures shown { (text : List ℕ) → EndsFor text self.entry
            → IfOk result (λ accepted. IsProofOf self.entry.board text accepted.claim) }
        ensures refused { (text : List ℕ) → EndsFor text self.entry
            → IfErr result (λ fault. (fault ≡ cert.Memory)
            ⊎ IsRefusedText self.entry.board text fault) }
    {
        let Ended {
            alloc,
            board,
            claim,
            roster,
        } = self;
        let judged = roster.close(alloc, board);
        roster.let_go();
        Accepted::of(alloc, board, claim, judged)
    }
}

/// Checks a certificate that comes in pieces. However it is cut, the answer is that of `read` and
/// then `check` on the joined pieces, apart from `Memory`: a claim that they show, or the first
/// fault of the text, or of the certificate if the text is one.
pub fn judge_pieces(alloc: Global, board: &Board, pieces: &[Vec<u8>]) -> Result<Accepted, CertFault>
    ensures level { IfOk result (λ accepted. accepted.rows ≡ board.now.rows) }
    ensures shown { IfOk result (λ accepted.
        IsProofOf board.now (flat_map (λ piece. piece.items) pieces.now) accepted.claim) }
    ensures refused { IfErr result (λ fault. (fault ≡ cert.Memory)
        ⊎ (GoesWrong (flat_map (λ piece. piece.items) pieces.now) fault
        ⊎ IsRefusedText board.now (flat_map (λ piece. piece.items) pieces.now) fault)) }
{
    let mut stream = Stream::new(alloc, board)?;
    for piece in pieces {
        stream = stream.take(piece.as_slice())?;
    }
    stream.ended()?.judge()
}
