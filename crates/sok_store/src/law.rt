//! Laws of the rows of books, and of a book over its calls.

ghost use Rattle.sqlite.specs.Held.{state};
ghost use Rattle.sok_store.specs.Histories.{AddsAreCalls, OffersAreCalls, ProofsAreCalls};
ghost use Rattle.sok_store.specs.Histories.{CallsFold, EmptyBooksAreMade, GetsAreCalls, ListsAreCalls};
ghost use Rattle.sok_store.specs.Histories.{TellingsAreCalls, VerdictsAreCalls};
ghost use Rattle.sok_store.specs.Laws.{BadRowsHaveNoBook, OneRowIsFirstBad, RowsHaveOneBook};
ghost use Rattle.sok_store.specs.Laws.{RowsHaveOnePage, RowsKeptBeforeAreKept};

use sqlite::Alter;

/// A book over a connection is the fold of its accepted commands. Start from any book that the
/// connection holds, and make any list of calls of `add`, `offer`, `offer_with_best`, `prove`,
/// `set_verdict`, `get` and `list`, some of which may be refused. Afterwards the connection holds
/// the book that the accepted commands make of it, one after another; `get` and `list` keep it. A
/// true book stays true. From an empty database, the book is one that commands made.
pub fn calls_are_folded<S: Alter>()
    ensures adds { AddsAreCalls (state S.Store) }
    ensures offers { OffersAreCalls (state S.Store) }
    ensures tellings { TellingsAreCalls (state S.Store) }
    ensures proofs { ProofsAreCalls (state S.Store) }
    ensures verdicts { VerdictsAreCalls (state S.Store) }
    ensures gets { GetsAreCalls (state S.Store) }
    ensures lists { ListsAreCalls (state S.Store) }
    ensures folded { CallsFold (state S.Store) }
    ensures made { EmptyBooksAreMade }
{}

/// A row holds at most one page. So the page that is read of a row is the one that was written
/// there.
pub fn rows_have_one_page()
    ensures { RowsHaveOnePage }
{}

/// A row that was valid while a level had at most 64 rows and 64 columns, and an area of at most
/// 1,024 squares, is still valid. So a book that was written then opens with the same records.
pub fn rows_kept_before_are_kept()
    ensures { RowsKeptBeforeAreKept }
{}

/// Rows hold at most one book. If they have a first bad row, they hold none, and no other id is
/// that of a first bad row. So what is reported of a table fits no other book and no other row.
pub fn rows_have_one_book()
    ensures one { RowsHaveOneBook }
    ensures none { BadRowsHaveNoBook }
    ensures first { OneRowIsFirstBad }
{}
