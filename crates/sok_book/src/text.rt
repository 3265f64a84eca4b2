//! The texts of all levels of a book, and which one is wanted.

ghost use Rattle.std.specs.Prelude.{◌≡◌, IfOk};
ghost use Rattle.sok_book.specs.BookTexts.{book_text};
ghost use Rattle.sok_book.specs.Records.{pages_of};

use crate::export::export_text;
use crate::overview::overview_text;
use crate::record::Record;
use sok_rules::fault::Memory;
use std::alloc::Global;

/// Which text of all levels is wanted.
#[derive(Clone, Copy, PartialEq, Eq)]
pub enum BookText {
    /// A line for each level.
    Overview,
    /// A collection of the levels. If `solutions` is set, it notes their best solutions and
    /// verdicts.
    Export { solutions: bool },
}

/// Returns the wanted text of all levels, in this order.
pub fn book_text(alloc: Global, records: &[Record], text: BookText) -> Result<Vec<u8>, Memory>
    ensures { IfOk result (λ told. told.items ≡ book_text text (pages_of records.now)) }
{
    match text {
        BookText::Overview => overview_text(alloc, records),
        BookText::Export { solutions } => export_text(alloc, records, solutions),
    }
}
