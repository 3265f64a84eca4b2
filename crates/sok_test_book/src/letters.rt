//! A text of as many letters as may be offered.

use crate::answering::{Command, answer, empty_book};
use sok_engine::fault::ToolFault;
use sok_sketch::sketch::ROOM_OF_TWO_ROWS;
use sok_store::book::Book;
use sok_text::lurd::LurdFault;
use sqlite::MemStore;
use std::alloc::Global;
use std::process::Abort;
use std::test::Fail;

/// Offers a text. Returns what is written.
fn told(alloc: Global, book: &mut Book<MemStore>, text: &str) -> Result<Vec<u8>, ToolFault> {
    let mut out = Vec::new(alloc);
    answer(alloc, book, Command::Offer(1, text), &mut out)?;
    Ok(out)
}

/// Returns whether a text is stored, with this line.
fn stores(
    alloc: Global,
    book: &mut Book<MemStore>,
    text: &str,
    line: &str,
) -> Result<bool, ToolFault> {
    let told = told(alloc, book, text)?;
    Ok(told.as_slice() == line.as_bytes())
}

/// Returns whether the room is shown with a best of a million letters.
fn shows(alloc: Global, book: &mut Book<MemStore>, letters: &str) -> Result<bool, ToolFault> {
    let mut shown = Vec::new(alloc);
    answer(alloc, book, Command::Show(1), &mut shown)?;
    let whole = format!(in alloc;
        "{ROOM_OF_TWO_ROWS}best 2 1000000 {letters}\nverdict untested\n"
    )?;
    Ok(shown.as_slice() == whole.as_bytes())
}

/// Returns a book with a room.
fn room(alloc: Global) -> Result<Book<MemStore>, Fail> {
    let mut book = empty_book(alloc)?;
    let mut out = Vec::new(alloc);
    answer(alloc, &mut book, Command::Add(ROOM_OF_TWO_ROWS), &mut out)?;
    Ok(book)
}

/// Offers a million letters, and one more.
fn offer_letters(rt: &impl Abort, alloc: Global, book: &mut Book<MemStore>) -> Result<(), Fail> {
    let mut letters = "ud".repeat(alloc, 499_997)?;
    letters.push_str("ulldRR")?;
    assert!(rt; stores(alloc, book, letters.as_str(), "stored 2 1000000\n")?);
    assert!(rt; shows(alloc, book, letters.as_str())?);
    letters.push_str("l")?;
    let longer = told(alloc, book, letters.as_str());
    assert!(rt; longer == Err(ToolFault::Lurd(LurdFault::TooLong)));
    Ok(())
}

/// Steps up and down before the room is solved.
#[test]
fn a_million_letters_are_stored(rt: HostRuntime) -> Result<(), Fail> {
    let alloc = rt.alloc();
    let mut book = room(alloc)?;
    offer_letters(&rt, alloc, &mut book)
}
