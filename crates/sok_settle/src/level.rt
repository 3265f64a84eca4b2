//! Settling one level of a book.

ghost use Rattle.std.specs.Prelude.{◌≡◌, ◌≤◌, ◌↔◌, IsTrue, ℕ, length};
ghost use Rattle.sqlite.specs.Held.{state};
ghost use Rattle.sok_rules.specs.Limits.{letter_limit};
ghost use Rattle.sok_rules.specs.Play.{IsUnsolvable};
ghost use Rattle.sok_book.specs.Books.{Page};
ghost use Rattle.sok_book.specs.Commands.{best_pushes};
ghost use Rattle.sok_book.specs.Kept.{IsKeptPage};
ghost use Rattle.sok_cert.specs.Claim.TheVariants as claim;
ghost use Rattle.sok_search.specs.Faults.{IsBadLimit};
ghost use Rattle.sok_settle.specs.Finding.{Shows};
ghost use Rattle.sok_settle.specs.Settles.{IsBeyond, IsTried};
ghost use Rattle.sok_settle.specs.declared.settle.Span.{Span};
ghost use Rattle.sok_settle.specs.Steps.{AreFewest, GoesBy, GoesThrough, IsRecordIn};

use crate::certs::Certs;
use crate::line::{limit_line, optimal_line, tell, tell_fault, unsolvable_line};
use crate::settle::Span;
use sok_book::fault::BookFault;
use sok_book::offering::LETTER_LIMIT;
use sok_book::record::{Record, Verdict};
use sok_cert::claim::Claim;
use sok_engine::fault::ToolFault;
use sok_rules::cell::Dir;
use sok_rules::fault::PlayFault;
use sok_rules::level::Level;
use sok_search::finding::Finding;
use sok_store::book::Book;
use sqlite::Alter;
use std::alloc::Global;
use std::io::Write;

/// Settles a level, unless it is outside the span or has a verdict. Returns false if it was tried and is
/// not settled.
pub(crate) fn settle_kept<S: Alter, C: Certs, W: Write>(
    alloc: Global,
    book: &mut Book<S>,
    limit: u32,
    span: Span,
    kept: &Record,
    certs: &C,
    out: &mut W,
) -> Result<bool, ToolFault>
    requires good_limit { IsBadLimit limit → ⊥ }
    requires may_keep { C.may_keep certs.now }
    requires kept { IsKeptPage kept.now.page }
    ensures { GoesThrough (IsRecordIn kept.now) (C.keeping certs.now) limit span kept.now.id
        (state S.Store book.old) (state S.Store book.new)
        (W.contents out.old) (W.contents out.new) result }
{
    if is_beyond(span, kept.id) {
        return Ok(true);
    }
    match kept.verdict {
        Verdict::Untested => settle_level(alloc, book, limit, kept.id, kept, certs, out),
        Verdict::Optimal => Ok(true),
        Verdict::Unsolvable => Ok(true),
    }
}

/// Returns whether an id is outside the span.
pub(crate) fn is_beyond(span: Span, id: i64) -> bool
    ensures { IsTrue result ↔ IsBeyond span id }
{
    id < span.first || span.last < id
}

/// Searches the level with an id, and settles it.
fn settle_level<S: Alter, C: Certs, W: Write>(
    alloc: Global,
    book: &mut Book<S>,
    limit: u32,
    id: i64,
    kept: &Record,
    certs: &C,
    out: &mut W,
) -> Result<bool, ToolFault>
    requires good_limit { IsBadLimit limit → ⊥ }
    requires may_keep { C.may_keep certs.now }
    requires kept { IsKeptPage kept.now.page }
    ensures { (span : Span) → GoesThrough (IsTried span id kept.now.page) (C.keeping certs.now)
        limit span id (state S.Store book.old) (state S.Store book.new)
        (W.contents out.old) (W.contents out.new) result }
{
    certs.begin(id);
    match certs.search(alloc, &kept.level, limit, best_pushes(kept)) {
        Ok((finding, taken)) => {
            settle_by(alloc, book, limit, id, kept, finding, certs, taken, out)
        }
        Err(fault) => Err(fault),
    }
}

/// Returns the pushes of a level's best, if it has one.
fn best_pushes(kept: &Record) -> Option<u32>
    ensures { result ≡ best_pushes kept.now.page }
{
    match &kept.best {
        Some(best) => Some(best.pushes),
        None => None,
    }
}

/// Settles the level with an id by what its search found.
fn settle_by<S: Alter, C: Certs, W: Write>(
    alloc: Global,
    book: &mut Book<S>,
    limit: u32,
    id: i64,
    kept: &Record,
    finding: Finding,
    certs: &C,
    taken: C::Taken,
    out: &mut W,
) -> Result<bool, ToolFault>
    requires may_keep { C.may_keep certs.now }
    requires kept { IsKeptPage kept.now.page }
    requires found { Shows (C.certifies taken kept.now.page.level limit)
        kept.now.page.level limit (best_pushes kept.now.page) finding }
    ensures { (span : Span) → GoesThrough (IsTried span id kept.now.page) (C.keeping certs.now)
        limit span id (state S.Store book.old) (state S.Store book.new)
        (W.contents out.old) (W.contents out.new) result }
{
    match finding {
        Finding::Solved { dirs, pushes } => {
            if dirs.len() > LETTER_LIMIT {
                let fault = ToolFault::Book(BookFault::Letters(PlayFault::TooLong));
                return tell_fault(alloc, id, fault, out);
            }
            settle_solved(
                alloc,
                book,
                id,
                &kept.level,
                &dirs,
                pushes,
                certs,
                taken,
                out,
            )
        }
        Finding::NoBetter => match &kept.best {
            Some(best) => settle_solved(
                alloc,
                book,
                id,
                &kept.level,
                &best.letters,
                best.pushes,
                certs,
                taken,
                out,
            ),
            None => settle_unsolvable(alloc, book, id, &kept.level, certs, taken, out),
        },
        Finding::Limit {
            states: _,
            at_least,
        } => tell(&limit_line(id, limit, at_least), false, out),
    }
}

/// Settles a level by a solution with the fewest pushes. The certificate is kept before the book changes.
fn settle_solved<S: Alter, C: Certs, W: Write>(
    alloc: Global,
    book: &mut Book<S>,
    id: i64,
    level: &Level,
    dirs: &[Dir],
    pushes: u32,
    certs: &C,
    taken: C::Taken,
    out: &mut W,
) -> Result<bool, ToolFault>
    requires may_keep { C.may_keep certs.now }
    requires few { length dirs.now ≤ letter_limit }
    requires fewest { AreFewest level.now dirs.now pushes }
    ensures { (limit : ℕ) (span : Span) (page : Page) → page.level ≡ level.now
        → C.certifies taken level.now limit (claim.Pushes pushes)
        → GoesThrough (IsTried span id page) (C.keeping certs.now)
        limit span id (state S.Store book.old) (state S.Store book.new)
        (W.contents out.old) (W.contents out.new) result }
{
    certs.keep(alloc, id, &Claim::Pushes(pushes), taken)?;
    set_optimal(book, id, level, dirs, pushes, out)
}

/// Settles a level without a solution. The certificate is kept before the book changes.
fn settle_unsolvable<S: Alter, C: Certs, W: Write>(
    alloc: Global,
    book: &mut Book<S>,
    id: i64,
    level: &Level,
    certs: &C,
    taken: C::Taken,
    out: &mut W,
) -> Result<bool, ToolFault>
    requires may_keep { C.may_keep certs.now }
    requires unsolvable { IsUnsolvable level.now }
    ensures { (limit : ℕ) (span : Span) (page : Page) → page.level ≡ level.now
        → C.certifies taken level.now limit claim.Unsolvable
        → GoesThrough (IsTried span id page) (C.keeping certs.now)
        limit span id (state S.Store book.old) (state S.Store book.new)
        (W.contents out.old) (W.contents out.new) result }
{
    certs.keep(alloc, id, &Claim::Unsolvable, taken)?;
    set_unsolvable(book, id, level, out)
}

/// Offers a solution with the fewest pushes, and sets the verdict `optimal`.
fn set_optimal<S: Alter, W: Write>(
    book: &mut Book<S>,
    id: i64,
    level: &Level,
    dirs: &[Dir],
    pushes: u32,
    out: &mut W,
) -> Result<bool, ToolFault>
    requires few { length dirs.now ≤ letter_limit }
    requires fewest { AreFewest level.now dirs.now pushes }
    ensures { (span : Span) (page : Page) → page.level ≡ level.now
        → GoesBy span id page (claim.Pushes pushes)
        (state S.Store book.old) (state S.Store book.new)
        (W.contents out.old) (W.contents out.new) result }
{
    let told = match book.offer_with_best(id, dirs) {
        Ok(told) => told,
        Err(fault) => return Err(ToolFault::from(fault)),
    };
    match book.set_verdict(id, level, Claim::Pushes(pushes)) {
        Ok(()) => tell(&optimal_line(id, told.pushes, told.moves), true, out),
        Err(fault) => Err(ToolFault::from(fault)),
    }
}

/// Sets the verdict `unsolvable`.
fn set_unsolvable<S: Alter, W: Write>(
    book: &mut Book<S>,
    id: i64,
    level: &Level,
    out: &mut W,
) -> Result<bool, ToolFault>
    requires unsolvable { IsUnsolvable level.now }
    ensures { (span : Span) (page : Page) → page.level ≡ level.now
        → GoesBy span id page claim.Unsolvable
        (state S.Store book.old) (state S.Store book.new)
        (W.contents out.old) (W.contents out.new) result }
{
    match book.set_verdict(id, level, Claim::Unsolvable) {
        Ok(()) => tell(&unsolvable_line(id), true, out),
        Err(fault) => Err(ToolFault::from(fault)),
    }
}
