//! Levels with titles, and a book that is full.

use crate::answering::{Command, answer, book_in, empty_book};
use crate::tables::fault_of;
use sok_book::fault::BookFault;
use sok_book::limits::LEVEL_LIMIT;
use sok_book::record::{Offer, Record};
use sok_engine::fault::ToolFault;
use sok_rules::cell::Dir;
use sok_sketch::sketch::{ONE_PUSH, SOLVED, level};
use sok_sql::making::create;
use sok_sql::writing::insert;
use sok_store::book::Book;
use sqlite::{Connection, MemStore};
use std::alloc::{AllocError, Global};
use std::process::Abort;
use std::test::Fail;

/// Adds a board with a title. Returns its id or the fault.
fn added(
    alloc: Global,
    book: &mut Book<MemStore>,
    board: &str,
    title: Option<&[u8]>,
) -> Result<Result<i64, BookFault>, Fail> {
    let level = level(alloc, board)?;
    Ok(book.add(&level, title))
}

/// Returns the record with an id.
fn kept(book: &mut Book<MemStore>, id: i64) -> Result<Record, BookFault> {
    book.get(id)
}

fn title_of(book: &mut Book<MemStore>, id: i64) -> Result<Option<Vec<u8>>, BookFault> {
    Ok(kept(book, id)?.title)
}

/// Returns whether a level has this title.
fn is_titled(book: &mut Book<MemStore>, id: i64, title: Option<&[u8]>) -> Result<bool, BookFault> {
    let kept = title_of(book, id)?;
    Ok(kept.as_deref() == title)
}

/// Adds a board with a title. Returns whether it then has the id, and the id has the title `kept`.
fn keeps(
    alloc: Global,
    book: &mut Book<MemStore>,
    board: &str,
    title: &str,
    id: i64,
    kept: Option<&[u8]>,
) -> Result<bool, Fail> {
    let found = added(alloc, book, board, Some(title.as_bytes()))?;
    Ok(found == Ok(id) && is_titled(book, id, kept)?)
}

/// A title with blanks around it, and a second line after it.
const WHOLE: &str = " \t A \t level \r\t\r\nmore";

/// Adds boards with titles, one after the other, and offers a solution of the first twice.
fn add_titled(rt: &impl Abort, alloc: Global, book: &mut Book<MemStore>) -> Result<(), Fail> {
    let cases: &[(&str, &str, i64, Option<&[u8]>)] = &[
        (ONE_PUSH, WHOLE, 1, Some(b"A \t level")),
        (ONE_PUSH, "Another", 1, Some(b"A \t level")),
        (SOLVED, "\r \nmore", 2, None),
    ];
    for &(board, title, id, kept) in cases {
        assert!(rt; keeps(alloc, book, board, title, id, kept)?, "{title:?}");
    }
    for &answer in &[Offer::Stored, Offer::Kept] {
        assert!(rt; offered(book) == Ok(answer));
    }
    Ok(())
}

/// Offers the solution of the first level.
fn offered(book: &mut Book<MemStore>) -> Result<Offer, BookFault> {
    book.offer(1, &[Dir::Right])
}

#[test]
fn the_first_title_is_kept_without_its_ends(rt: HostRuntime) -> Result<(), Fail> {
    let alloc = rt.alloc();
    let mut book = empty_book(alloc)?;
    add_titled(&rt, alloc, &mut book)
}

/// Returns a level with the digits of a number at its side.
fn numbered(alloc: Global, number: u32) -> Result<String, AllocError> {
    let mut digits = String::new(alloc);
    let mut rest = number;
    for _ in 0..14 {
        digits.push(if rest % 2 == 1 { '*' } else { '#' })?;
        rest /= 2;
    }
    let wall = "#".repeat(alloc, 20)?;
    format!(in alloc; "{wall}\n#@$.#{digits}#\n{wall}\n")
}

/// Makes a table with as many levels as a book may have.
fn fill(alloc: Global, connection: &mut Connection<MemStore>) -> Result<(), Fail> {
    create(connection)?;
    for id in 1..=LEVEL_LIMIT {
        let text = numbered(alloc, id)?;
        insert(connection, id, text.as_str(), None)?;
    }
    Ok(())
}

/// Returns the table of a full book.
fn filled(alloc: Global) -> Result<Connection<MemStore>, Fail> {
    let mut connection = Connection::open_in_memory(alloc)?;
    fill(alloc, &mut connection)?;
    Ok(connection)
}

/// Adds a new level to a full book, and one that is in it.
fn add_both(
    rt: &impl Abort,
    alloc: Global,
    book: &mut Book<MemStore>,
    there: &str,
) -> Result<(), Fail> {
    for &(board, found) in &[(ONE_PUSH, Err(BookFault::BookFull)), (there, Ok(7))] {
        assert_eq!(rt; added(alloc, book, board, None)?, found);
    }
    Ok(())
}

/// Adds a new level to a full book, and the one with the number 7.
fn add_to_full(rt: &impl Abort, alloc: Global, book: &mut Book<MemStore>) -> Result<(), Fail> {
    let there = numbered(alloc, 7)?;
    add_both(rt, alloc, book, there.as_str())
}

/// Adds a collection to a full book. Its first level is in the book, its second has no player, and
/// for its third there is no room. The lines of the first two are written.
fn add_collection(
    rt: &impl Abort,
    alloc: Global,
    book: &mut Book<MemStore>,
    collection: &str,
) -> Result<(), Fail> {
    let mut out = Vec::new(alloc);
    let told = answer(alloc, book, Command::Add(collection), &mut out);
    assert_eq!(rt; told, Err(ToolFault::Book(BookFault::BookFull)));
    let lines = b"1 id 7\n2 fault 3 NoPlayer\n".as_slice();
    assert_eq!(rt; out.as_slice(), lines);
    Ok(())
}

/// Does the same with an output that is full after ten bytes.
fn add_untold(
    rt: &impl Abort,
    alloc: Global,
    book: &mut Book<MemStore>,
    collection: &str,
) -> Result<(), Fail> {
    let mut room = [0u8; 10];
    let told = answer(
        alloc,
        book,
        Command::Add(collection),
        &mut room.as_mut_slice(),
    );
    assert_eq!(rt; told, Err(ToolFault::WriteFailed));
    assert_eq!(rt; room.as_slice(), b"1 id 7\n2 f".as_slice());
    Ok(())
}

/// Adds a collection with no room for its third level.
fn add_three(rt: &impl Abort, alloc: Global, book: &mut Book<MemStore>) -> Result<(), Fail> {
    let there = numbered(alloc, 7)?;
    let more = numbered(alloc, 8)?;
    let collection = format!(in alloc; "{there}\n#####\n#$ .#\n#####\n\n{ONE_PUSH}\n{more}")?;
    add_collection(rt, alloc, book, collection.as_str())?;
    add_untold(rt, alloc, book, collection.as_str())
}

fn full_book(alloc: Global) -> Result<Book<MemStore>, Fail> {
    book_in(alloc, filled(alloc)?)
}

/// Adds levels, and then a collection.
fn add_more(rt: &impl Abort, alloc: Global, book: &mut Book<MemStore>) -> Result<(), Fail> {
    add_to_full(rt, alloc, book)?;
    add_three(rt, alloc, book)
}

/// Returns why a full book is not opened again after a row is added to its table.
fn fault_with_one_more(alloc: Global, book: Book<MemStore>) -> Result<Option<BookFault>, Fail> {
    let mut connection = book.into_connection();
    let id = LEVEL_LIMIT + 1;
    insert(&mut connection, id, numbered(alloc, id)?.as_str(), None)?;
    fault_of(alloc, connection)
}

#[test]
fn a_full_book_takes_no_other_level(rt: HostRuntime) -> Result<(), Fail> {
    let alloc = rt.alloc();
    let mut book = full_book(alloc)?;
    add_more(&rt, alloc, &mut book)?;
    let fault = fault_with_one_more(alloc, book)?;
    assert_eq!(rt; fault, Some(BookFault::BadBook(10_001)));
    Ok(())
}
