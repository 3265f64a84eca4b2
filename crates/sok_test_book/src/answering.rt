//! Commands on a book, with what they write.

use sok_book::fault::BookFault;
use sok_book::text::BookText;
use sok_engine::fault::ToolFault;
use sok_keep::add::add_bytes;
use sok_keep::offer::offer_bytes;
use sok_keep::prove::prove_bytes;
use sok_keep::show::{book_bytes, show_bytes};
use sok_settle::certs::NoCerts;
use sok_settle::offers::offers_bytes;
use sok_settle::settle::{Span, settle_bytes};
use sok_store::book::Book;
use sqlite::{Alter, Connection, MemStore};
use std::alloc::Global;
use std::io::Write;
use std::test::Fail;

/// A command, with its input.
#[derive(Clone, Copy, Debug, PartialEq, Eq)]
pub(crate) enum Command<'a> {
    Add(&'a str),
    Offer(i64, &'a str),
    Offers(&'a str),
    Prove(i64, &'a str),
    Settle(u32, i64),
    Show(i64),
    Overview,
    Export,
    Solutions,
}

/// A command, what it writes, and its status or fault.
pub(crate) type Row = (Command<'static>, &'static str, Result<u8, ToolFault>);

/// Opens a database as a book.
pub(crate) fn book_in<S: Alter + Drop>(
    alloc: Global,
    connection: Connection<S>,
) -> Result<Book<S>, Fail> {
    if !connection.is_autocommit() {
        return Err(ToolFault::Book(BookFault::Database).into());
    }
    match Book::open(alloc, connection) {
        Ok(book) => Ok(book),
        Err(refused) => Err(refused.fault.into()),
    }
}

/// Returns an empty book in memory.
pub(crate) fn empty_book(alloc: Global) -> Result<Book<MemStore>, Fail> {
    book_in(alloc, Connection::open_in_memory(alloc)?)
}

/// Runs a command on a book. It has none of the contracts of the engines, which no test needs: each
/// test that called an engine by itself would be checked against all that it says.
pub(crate) fn answer<S: Alter, W: Write>(
    alloc: Global,
    book: &mut Book<S>,
    command: Command<'_>,
    out: &mut W,
) -> Result<u8, ToolFault> {
    match command {
        Command::Add(collection) => add_bytes(alloc, book, &mut collection.as_bytes(), out),
        Command::Offer(id, text) => offer_bytes(alloc, book, id, text.as_bytes(), out),
        Command::Offers(lines) => offers_bytes(alloc, book, &mut lines.as_bytes(), out),
        Command::Prove(id, cert) => prove_bytes(alloc, book, id, &mut cert.as_bytes(), out),
        Command::Settle(limit, first) => {
            let last = i64::MAX;
            let span = Span { first, last };
            settle_bytes(alloc, book, limit, span, &NoCerts, out)
        }
        Command::Show(id) => show_bytes(alloc, book, id, out),
        Command::Overview => tell(alloc, book, BookText::Overview, out),
        Command::Export => tell(alloc, book, BookText::Export { solutions: false }, out),
        Command::Solutions => tell(alloc, book, BookText::Export { solutions: true }, out),
    }
}

/// Writes a text of a book.
fn tell<S: Alter, W: Write>(
    alloc: Global,
    book: &mut Book<S>,
    text: BookText,
    out: &mut W,
) -> Result<u8, ToolFault> {
    book_bytes(alloc, book, text, out)
}

fn is_told<S: Alter>(alloc: Global, book: &mut Book<S>, row: Row) -> bool {
    let (command, text, result) = row;
    let mut out = Vec::new(alloc);
    answer(alloc, book, command, &mut out) == result && out.as_slice() == text.as_bytes()
}

/// Returns the first command whose status or output differs from its row.
fn first_other_of<S: Alter>(
    alloc: Global,
    book: &mut Book<S>,
    rows: &[Row],
) -> Option<Command<'static>> {
    for row in rows {
        if !is_told(alloc, book, *row) {
            return Some(row.0);
        }
    }
    None
}

/// Runs the rows on an empty book in memory. Returns the first command that differs from its row.
pub(crate) fn first_other(alloc: Global, rows: &[Row]) -> Result<Option<Command<'static>>, Fail> {
    let mut book = empty_book(alloc)?;
    Ok(first_other_of(alloc, &mut book, rows))
}
