//! A book over a connection to a database.

ghost use Rattle.std.specs.Prelude.{◌≡◌, false, All, IfErr, IfOk, IsNone};
ghost use Rattle.std.specs.Prelude.{MatchResult, OnOk, option_map};
ghost use Rattle.sqlite.specs.Held.{state};
ghost use Rattle.sqlite.specs.State.{HasCleanDisk, Survives};
ghost use Rattle.sok_sql.specs.Connections.{IsKnown, IsSame};
ghost use Rattle.sok_board.specs.Refusals.{IsAcceptable};
ghost use Rattle.sok_board.specs.declared.fault.BoardFault.{BoardFault};
ghost use Rattle.sok_book.specs.Books.{PageWithId, page_at};
ghost use Rattle.sok_book.specs.Commands.{Adds, Offers, Proves, SetsVerdict};
ghost use Rattle.sok_book.specs.Kept.{IsKeptPage};
ghost use Rattle.sok_book.specs.Records.{AreRecordsOf, IsRecordAt};
ghost use Rattle.sok_book.specs.Refusals.{IsNotAdded, IsNotOffered, IsNotProved};
ghost use Rattle.sok_book.specs.declared.record.Offer.{Offer};
ghost use Rattle.sok_cert.specs.Claim.{Claim};
ghost use Rattle.sok_cert.specs.Closed.{IsTrueOf};
ghost use Rattle.sok_store.specs.Faults.{IsOutside};
ghost use Rattle.sok_store.specs.Calls.{FindsBook, IsCaused, KeepsBook, KeepsRefused, StoresChange};
ghost use Rattle.sok_store.specs.Calls.{MakesNone, ShowsOn, Stops};
ghost use Rattle.sok_store.specs.Calls.{id_number, kept_if_given};
ghost use Rattle.sok_store.specs.Verdicts.{IsNotSet};
ghost use Rattle.sok_store.specs.Opening.{IsCausedOpening, IsUnopened, LeavesOpening, Opens};
ghost use Rattle.sok_store.specs.Running.{Admits};
ghost use Rattle.sok_store.specs.Standing.{OffersTelling};
ghost use Rattle.sok_store.specs.declared.standing.Standing.{Standing};

use crate::adding::add_to;
use crate::listing::records_in;
use crate::offering::offer_to;
use crate::opening::prepare;
use crate::proving::prove_to;
use crate::reading::record_at;
use crate::standing::Standing;
use crate::verdict::set_verdict_to;
use sok_book::fault::BookFault;
use sok_book::record::{Offer, Record};
use sok_cert::claim::Claim;
use sok_rules::cell::Dir;
use sok_rules::level::Level;
use sqlite::{Alter, Connection};
use std::alloc::Global;
use std::marker::Model;

/// A book in one table of a database. Contracts see it as its connection.
///
/// The contracts assume that the disk returned what was written and that the connection held a book
/// before the call. In memory the first is always so; after `open` the second is. A refused call
/// leaves the book as it was. A stop in the middle of a call leaves the book from before the call,
/// or from after it.
///
/// In place of any later cause, a call may also fail with `Database`, if the database refused, or
/// with `Memory`. Each call makes at most one change of the database.
#[derive(Drop)]
pub struct Book<S: Alter> {
    connection: Connection<S>,
    alloc: Global,
}

impl<S: Alter> Model for Book<S> {
    ghost use Rattle.sqlite.specs.Held.{Held, held_code};

    ghost Value = { Held S };

    ghost coded = { held_code S.code };

    ghost view = { λ b. b.connection };
}

/// A connection that was not opened as a book, and the reason.
#[derive(Drop)]
pub struct OpenRefused<S: Alter> {
    pub connection: Connection<S>,
    pub fault: BookFault,
}

impl<S: Alter> Book<S> {
    /// Opens a database as a book, and creates its table if there is nothing. Otherwise it reads
    /// every row. On an error the connection is returned with the fault; `BadBook` names the first
    /// row that breaks a rule of books. A stop in the middle leaves what was there, or the empty
    /// book if there was nothing.
    pub fn open(alloc: Global, connection: Connection<S>) -> Result<Book<S>, OpenRefused<S>>
        requires { (state S.Store connection).in_transaction ≡ false }
        ensures opens { IfOk result (λ book. HasCleanDisk (state S.Store book)
            → Opens (state S.Store connection) (state S.Store book)) }
        ensures unopened { IfErr result (λ refused.
            IsUnopened (state S.Store connection) (state S.Store refused.connection)
            refused.fault) }
        ensures same { IfErr result (λ refused. HasCleanDisk (state S.Store refused.connection)
            → IsKnown (state S.Store connection)
            → IsSame (state S.Store connection) (state S.Store refused.connection)) }
        ensures stop { MatchResult result
            (λ book. Survives (state S.Store connection) (state S.Store book)
            (LeavesOpening (state S.Store connection)))
            (λ refused. Survives (state S.Store connection) (state S.Store refused.connection)
            (LeavesOpening (state S.Store connection))) }
        ensures cause { IfErr result (λ refused.
            IsCausedOpening (state S.Store connection) (state S.Store refused.connection)
            refused.fault) }
    {
        let mut connection = connection;
        let _autocommit = connection.is_autocommit();
        match prepare(&mut connection, alloc) {
            Ok(()) => Ok(Book { connection, alloc }),
            Err(fault) => Err(OpenRefused { connection, fault }),
        }
    }

    /// Returns the connection, in the state in which the calls left it.
    pub fn into_connection(self) -> Connection<S>
        ensures { result ≡ self }
    {
        let Book {
            connection,
            alloc: _,
        } = self;
        connection
    }

    /// Returns the level with this id; ids count from 1. `NoLevel` if there is none, also for an id
    /// that is not positive.
    pub fn get(&mut self, id: i64) -> Result<Record, BookFault>
        ensures found { IfOk result (λ kept. FindsBook (state S.Store self.old) (state S.Store self.new)
            (λ book. IsRecordAt book (id_number id) kept)) }
        ensures refused { IfErr result (KeepsRefused (state S.Store self.old) (state S.Store self.new)
            (λ book fault. (fault ≡ BookFault.NoLevel) × IsNone (page_at book (id_number id)))) }
        ensures stop { Stops (state S.Store self.old) (state S.Store self.new) MakesNone }
        ensures cause { IfErr result
            (IsCaused (state S.Store self.old) (state S.Store self.new) MakesNone) }
    {
        record_at(&mut self.connection, self.alloc, id)
    }

    /// Returns all levels, in order of their ids.
    pub fn list(&mut self) -> Result<Vec<Record>, BookFault>
        ensures kept { IfOk result
            (λ records. All (λ (kept : PageWithId). IsKeptPage kept.page) records.items) }
        ensures listed { IfOk result (λ records.
            FindsBook (state S.Store self.old) (state S.Store self.new)
            (λ book. AreRecordsOf book records.items)) }
        ensures refused { IfErr result (λ fault.
            KeepsBook (state S.Store self.old) (state S.Store self.new) (λ _. IsOutside fault)) }
        ensures stop { Stops (state S.Store self.old) (state S.Store self.new) MakesNone }
        ensures cause { IfErr result
            (IsCaused (state S.Store self.old) (state S.Store self.new) MakesNone) }
    {
        records_in(&mut self.connection, self.alloc)
    }

    /// Adds a level and returns its id. A level that is already there keeps its id and its title.
    /// Of a title the first line is kept, without spaces and tabs at its front, and without spaces,
    /// tabs and CRs at its back; if nothing is left, there is no title.
    ///
    /// Errors, in this order: `Level` if no board can be made of the level; `BookFull` if it is new
    /// and there are 10,000.
    pub fn add(&mut self, level: &Level, title: Option<&[u8]>) -> Result<i64, BookFault>
        ensures accepted { OnOk result (IsAcceptable level.now) }
        ensures added { IfOk result (λ id. StoresChange (state S.Store self.old) (state S.Store self.new)
            (λ book after. Adds book level.now
            (kept_if_given (option_map (λ bytes. bytes.now) title.entry)) (id_number id) after)) }
        ensures refused { IfErr result (KeepsRefused (state S.Store self.old) (state S.Store self.new)
            (λ book fault. IsNotAdded book level.now fault)) }
        ensures untouched { IfErr result (λ fault. (cause : BoardFault)
            → fault ≡ BookFault.Level cause → self.new ≡ self.old) }
        ensures stop { Stops (state S.Store self.old) (state S.Store self.new)
            (Admits level.now (kept_if_given (option_map (λ bytes. bytes.now) title.entry))) }
        ensures cause { IfErr result (IsCaused (state S.Store self.old) (state S.Store self.new)
            (Admits level.now (kept_if_given (option_map (λ bytes. bytes.now) title.entry)))) }
    {
        add_to(&mut self.connection, self.alloc, level, title)
    }

    /// Offers letters as a solution of the level with this id. Returns `Stored` if they are now its
    /// best solution, because there was none or it had more pushes; the verdict is then untested.
    /// Otherwise returns `Kept`.
    ///
    /// Errors, in this order: `NoLevel`; `TooLong` if there are more than 1,000,000 letters;
    /// `Blocked` if a letter is not legal; `NotSolved` if a box is left off a goal.
    pub fn offer(&mut self, id: i64, letters: &[Dir]) -> Result<Offer, BookFault>
        ensures offered { IfOk result (λ answer.
            StoresChange (state S.Store self.old) (state S.Store self.new)
            (λ book after. Offers book (id_number id) letters.now answer after)) }
        ensures refused { IfErr result (KeepsRefused (state S.Store self.old) (state S.Store self.new)
            (λ book fault. IsNotOffered book (id_number id) letters.now fault)) }
        ensures stop { Stops (state S.Store self.old) (state S.Store self.new)
            (λ book after. (answer : Offer)
            × Offers book (id_number id) letters.now answer after) }
        ensures cause { IfErr result (IsCaused (state S.Store self.old) (state S.Store self.new)
            (λ book after. (answer : Offer)
            × Offers book (id_number id) letters.now answer after)) }
    {
        match self.offer_with_best(id, letters) {
            Ok(told) => Ok(told.offer),
            Err(fault) => Err(fault),
        }
    }

    /// Like `offer`, but also returns the pushes and moves of the best solution after the call.
    pub fn offer_with_best(&mut self, id: i64, letters: &[Dir]) -> Result<Standing, BookFault>
        ensures offered { IfOk result (λ told.
            StoresChange (state S.Store self.old) (state S.Store self.new)
            (λ book after. OffersTelling book (id_number id) letters.now told after)) }
        ensures refused { IfErr result (KeepsRefused (state S.Store self.old) (state S.Store self.new)
            (λ book fault. IsNotOffered book (id_number id) letters.now fault)) }
        ensures shows { IfErr result
            (ShowsOn (state S.Store self.old) (state S.Store self.new)) }
        ensures stop { Stops (state S.Store self.old) (state S.Store self.new)
            (λ book after. (told : Standing)
            × OffersTelling book (id_number id) letters.now told after) }
        ensures cause { IfErr result (IsCaused (state S.Store self.old) (state S.Store self.new)
            (λ book after. (told : Standing)
            × OffersTelling book (id_number id) letters.now told after)) }
    {
        offer_to(&mut self.connection, self.alloc, id, letters)
    }

    /// Proves the verdict of the level with this id by a certificate, and returns its claim: that
    /// the best solution has the fewest pushes, or that there is no solution.
    ///
    /// Errors, in this order: `NoLevel`; `Certificate` if the bytes are no certificate; `NoBest` if
    /// pushes are claimed and there is no best solution; `ClaimDiffers` if the claim does not fit
    /// the best solution; `Certificate` if the list is not closed.
    pub fn prove(&mut self, id: i64, certificate: &[u8]) -> Result<Claim, BookFault>
        ensures proved { IfOk result (λ shown.
            StoresChange (state S.Store self.old) (state S.Store self.new)
            (λ book after. Proves book (id_number id) certificate.now shown after)) }
        ensures refused { IfErr result (KeepsRefused (state S.Store self.old) (state S.Store self.new)
            (λ book fault. IsNotProved book (id_number id) certificate.now fault)) }
        ensures stop { Stops (state S.Store self.old) (state S.Store self.new)
            (λ book after. (shown : Claim)
            × Proves book (id_number id) certificate.now shown after) }
        ensures cause { IfErr result (IsCaused (state S.Store self.old) (state S.Store self.new)
            (λ book after. (shown : Claim)
            × Proves book (id_number id) certificate.now shown after)) }
    {
        prove_to(&mut self.connection, self.alloc, id, certificate)
    }

    /// Sets the verdict of the level with this id by a claim that is known to be true of `level`,
    /// so no certificate is read. The caller has a proof that no solution has fewer pushes, or that
    /// there is none.
    ///
    /// Errors, in this order: `NoLevel` if the level with this id is not `level`; `ClaimDiffers` if
    /// the claim does not fit the best solution.
    pub fn set_verdict(&mut self, id: i64, level: &Level, claim: Claim) -> Result<(), BookFault>
        requires { IsTrueOf level.now claim }
        ensures set { OnOk result (StoresChange (state S.Store self.old) (state S.Store self.new)
            (λ book after. SetsVerdict book (id_number id) claim after)) }
        ensures refused { IfErr result (KeepsRefused (state S.Store self.old) (state S.Store self.new)
            (λ book fault. IsNotSet book (id_number id) level.now claim fault)) }
        ensures stop { Stops (state S.Store self.old) (state S.Store self.new)
            (λ book after. SetsVerdict book (id_number id) claim after) }
        ensures cause { IfErr result (IsCaused (state S.Store self.old) (state S.Store self.new)
            (λ book after. SetsVerdict book (id_number id) claim after)) }
    {
        set_verdict_to(&mut self.connection, self.alloc, id, level, claim)
    }
}
