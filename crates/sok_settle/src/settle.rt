//! Settling the levels of a book.

ghost use Rattle.std.specs.Prelude.{◌≡◌, ◌↔◌, All, Err, IfErr, IsTrue, OnOk};
ghost use Rattle.sqlite.specs.Held.{state};
ghost use Rattle.sok_book.specs.Books.{PageWithId};
ghost use Rattle.sok_book.specs.Kept.{IsKeptPage};
ghost use Rattle.sok_book.specs.Records.{AreRecordsOf};
ghost use Rattle.sok_engine.specs.declared.fault.ToolFault.TheVariants as tool;
ghost use Rattle.sok_search.specs.Faults.{IsBadLimit};
ghost use Rattle.sok_store.specs.Calls.{ChangesBook, EndsOpen, Stops};
ghost use Rattle.sok_keep.specs.Causes.{IsCausedFault};
ghost use Rattle.sok_settle.specs.Going.{GoesWhere};
ghost use Rattle.sok_settle.specs.Settles.{SettlesSome, WritesSettling, settle_status};

use crate::certs::Certs;
use crate::level::{is_beyond, settle_kept};
use sok_book::record::{Record, Verdict};
use sok_engine::fault::ToolFault;
use sok_search::solve::LIMIT;
use sok_store::book::Book;
use sqlite::Alter;
use std::alloc::Global;
use std::io::Write;

/// The ids of the levels that are tried, from the first to the last, both included.
#[derive(Clone, Copy)]
pub struct Span {
    pub first: i64,
    pub last: i64,
}

/// Settles the levels of a book that have no verdict, in order of their ids. Each level is searched within
/// `limit` states (1 to 1,000,000), beside its best if it has one. If it has a solution, one with the
/// fewest pushes is offered, and its verdict is `optimal`; if it has none, its verdict is `unsolvable`.
/// Its certificate is kept before the book changes. Each level has a line, which is written as soon as it
/// is done:
///
/// - `ID optimal PUSHES MOVES`, with those of its best;
/// - `ID unsolvable`;
/// - `ID limit S at least K`, if the search reached the limit and shows that no solution has fewer than K
///   pushes;
/// - `ID fault 14 TooLong`, if the solution has more than 1,000,000 letters.
///
/// Levels outside the span, or with a verdict, have no line and stay as they are. Returns status 0 if each
/// level that was tried is settled, and 4 if one is not.
///
/// Errors: `BadLimit`, before anything else; `Memory` or `Database`, at any level, which is then as it
/// was, or has a best and no verdict; `WriteFailed`, if a certificate can't be written, and the level is
/// as it was, or if a line can't be, of which a front may be written. What was written before stands. No
/// memory is taken between the commands on a level and its line.
pub fn settle_bytes<S: Alter, C: Certs, W: Write>(
    alloc: Global,
    book: &mut Book<S>,
    limit: u32,
    span: Span,
    certs: &C,
    out: &mut W,
) -> Result<u8, ToolFault>
    requires { C.may_keep certs.now }
    ensures writes { ChangesBook (state S.Store book.old) (state S.Store book.new) (λ pages after.
        WritesSettling (C.keeping certs.now) limit span pages after
        (W.contents out.old) (W.contents out.new) result) }
    ensures bad_limit { IsBadLimit limit → result ≡ Err tool.BadLimit }
    ensures open { OnOk result (EndsOpen (state S.Store book.old) (state S.Store book.new)) }
    ensures stop { Stops (state S.Store book.old) (state S.Store book.new)
        (SettlesSome (C.keeping certs.now) limit span) }
    ensures cause { IfErr result (IsCausedFault (state S.Store book.old) (state S.Store book.new)
        (SettlesSome (C.keeping certs.now) limit span)) }
{
    if is_bad(limit) {
        return Err(ToolFault::BadLimit);
    }
    match book.list() {
        Ok(records) => settle_all(alloc, book, limit, span, &records, certs, out),
        Err(fault) => Err(ToolFault::from(fault)),
    }
}

/// Returns whether a limit is refused.
fn is_bad(limit: u32) -> bool
    ensures { IsTrue result ↔ IsBadLimit limit }
{
    limit == 0 || limit > LIMIT
}

/// Settles the levels of these records.
fn settle_all<S: Alter, C: Certs, W: Write>(
    alloc: Global,
    book: &mut Book<S>,
    limit: u32,
    span: Span,
    records: &[Record],
    certs: &C,
    out: &mut W,
) -> Result<u8, ToolFault>
    requires good_limit { IsBadLimit limit → ⊥ }
    requires may_keep { C.may_keep certs.now }
    requires kept { All (λ (kept : PageWithId). IsKeptPage kept.page) records.now }
    ensures { GoesWhere (λ pages. AreRecordsOf pages records.now)
        (state S.Store book.old) (state S.Store book.new) (λ pages after.
        WritesSettling (C.keeping certs.now) limit span pages after
        (W.contents out.old) (W.contents out.new) result)
        (SettlesSome (C.keeping certs.now) limit span) result }
{
    certs.expect(tried_count(span, records));
    let mut all = true;
    for kept in records {
        let settled = settle_kept(alloc, book, limit, span, kept, certs, out)?;
        all &= settled;
    }
    Ok(settle_status(all))
}

/// Returns how many of these levels are tried.
fn tried_count(span: Span, records: &[Record]) -> usize {
    records
        .iter()
        .filter(|kept| !is_beyond(span, kept.id) && matches!(kept.verdict, Verdict::Untested))
        .count()
}

fn settle_status(all: bool) -> u8
    ensures { result ≡ settle_status all }
{
    if all { 0 } else { 4 }
}
