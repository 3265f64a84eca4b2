//! The records of all rows.

ghost use Rattle.std.specs.Prelude.{◌≡◌, ◌⊎◌, ◌+◌, ◌<◌, ◌≤◌, ◌++◌, ◌∷◌, ◌||◌, [], ℤ, List};
ghost use Rattle.std.specs.Prelude.{bytes_eq, false, length, not, pos, true};
ghost use Rattle.std.specs.Prelude.{IfErr, IfOk, OnOk};
ghost use Rattle.std.specs.BTreeSet.{contains_text};
ghost use Rattle.sqlite.specs.Order.{column};
ghost use Rattle.sok_text.specs.Canonical.{level_text};
ghost use Rattle.sok_book.specs.Books.{Book, Page};
ghost use Rattle.sok_book.specs.Commands.{level_limit};
ghost use Rattle.sok_book.specs.Records.{AreRecordsOf};
ghost use Rattle.sok_sql.specs.Leaves.{shown_from};
ghost use Rattle.sok_store.specs.BadRows.{Follows, IsFirstBad, id_or_place};
ghost use Rattle.sok_store.specs.ReadRows.{IsRead};
ghost use Rattle.sok_store.specs.Rows.{IsKeptBook, leaves_of};

use crate::page::record_in;
use sok_book::fault::BookFault;
use sok_book::limits::LEVEL_LIMIT;
use sok_book::record::Record;
use sok_book::writing::text_of;
use sok_rules::level::Level;
use sqlite::Row;
use std::alloc::Global;
use std::collections::BTreeSet;

/// Returns the records of all rows, in order of their ids.
///
/// Errors: `BadBook` with the id of the first row that can't follow those before it, if the table
/// is not exactly that of a book. In a book the ids count from 1 without a gap, each row holds a
/// page that may be kept, no level occurs twice, and there are at most 10,000. Or `Memory`.
pub(crate) fn records_of(alloc: Global, rows: &[Row]) -> Result<Vec<Record>, BookFault>
    ensures read { IfOk result (λ records. (book : Book) × IsKeptBook book
        × (rows.now ≡ shown_from 1 (leaves_of book)) × AreRecordsOf book records.items) }
    ensures broken { IfErr result (λ fault. (fault ≡ BookFault.Memory)
        ⊎ ((id : ℤ) × (fault ≡ BookFault.BadBook id) × IsFirstBad rows.now id)) }
{
    let mut records = Vec::new(alloc);
    let mut texts = BTreeSet::new(alloc);
    for row in rows {
        match read_next(alloc, &mut records, &mut texts, row) {
            Ok(()) => {}
            Err(fault) => return Err(fault),
        }
    }
    Ok(records)
}

/// Reads the next row; `texts` has the texts of the levels before it.
fn read_next(
    alloc: Global,
    records: &mut Vec<Record>,
    texts: &mut BTreeSet<String>,
    row: &Row,
) -> Result<(), BookFault>
    requires { length records.old.items ≤ level_limit }
    ensures read { OnOk result ((book : Book)
        → IsRead book records.old.items (contains_text texts.old)
        → (page : Page) × Follows book row.now page
        × IsRead (book ++ page ∷ []) records.new.items (contains_text texts.new)) }
    ensures broken { IfErr result (λ fault. (fault ≡ BookFault.Memory) ⊎ ((book : Book)
        → IsRead book records.old.items (contains_text texts.old)
        → (fault ≡ BookFault.BadBook (id_or_place (length book + 1) (column row.now 0)))
        × ((page : Page) → Follows book row.now page → ⊥))) }
{
    let place = records.len() as u32 + 1;
    match record_in(alloc, place, row) {
        Ok(kept) => add_record(alloc, records, texts, place, kept),
        Err(fault) => Err(fault),
    }
}

/// Appends the record of the row at `place`, if there is room and its text is new.
fn add_record(
    alloc: Global,
    records: &mut Vec<Record>,
    texts: &mut BTreeSet<String>,
    place: u32,
    kept: Record,
) -> Result<(), BookFault>
    ensures room { OnOk result (place ≤ level_limit) }
    ensures new { OnOk result (contains_text texts.old (level_text kept.page.level) ≡ false) }
    ensures records { OnOk result (records.new.items ≡ records.old.items ++ kept ∷ []) }
    ensures texts { OnOk result ((other : List _) → contains_text texts.new other
        ≡ (bytes_eq (level_text kept.page.level) other || contains_text texts.old other)) }
    ensures refused { IfErr result (λ fault. (fault ≡ BookFault.Memory)
        ⊎ ((fault ≡ BookFault.BadBook (pos place)) × ((level_limit < place)
        ⊎ (contains_text texts.old (level_text kept.page.level) ≡ true)))) }
{
    if place > LEVEL_LIMIT {
        return Err(BookFault::BadBook(i64::from(place)));
    }
    match is_new(alloc, texts, &kept.level) {
        Ok(true) => Ok(records.push(kept)?),
        Ok(false) => Err(BookFault::BadBook(i64::from(place))),
        Err(fault) => Err(fault),
    }
}

/// Returns whether the text of a level is not in `texts` yet, and inserts it.
fn is_new(alloc: Global, texts: &mut BTreeSet<String>, level: &Level) -> Result<bool, BookFault>
    ensures test { IfOk result
        (λ new. new ≡ not (contains_text texts.old (level_text level.now))) }
    ensures texts { OnOk result ((other : List _) → contains_text texts.new other
        ≡ (bytes_eq (level_text level.now) other || contains_text texts.old other)) }
    ensures err { IfErr result (λ fault. fault ≡ BookFault.Memory) }
{
    let text = text_of(alloc, level)?;
    Ok(texts.insert(text)?)
}
