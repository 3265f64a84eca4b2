//! Offering the lines of a text.

ghost use Rattle.std.specs.Prelude.{◌≡◌, ◌≤◌, List, length, ℕ};
ghost use Rattle.sqlite.specs.Held.{state};
ghost use Rattle.sok_text.specs.Lurd.{Spells};
ghost use Rattle.sok_engine.specs.Limits.{input_limit};
ghost use Rattle.sok_keep.specs.Causes.{TakesIn};
ghost use Rattle.sok_settle.specs.Going.{GoesStep, GoesWhere, IsAnyBook};
ghost use Rattle.sok_settle.specs.Lines.{TellsRefused, TellsUnread};
ghost use Rattle.sok_settle.specs.Offers.{AnswersOffer, OffersBytes, OffersSome, OffersUntil};
ghost use Rattle.sok_settle.specs.Offers.{Stays, WritesOffers, full_lines, line_id, line_text};
ghost use Rattle.sok_settle.specs.Offers.{offers_status};

use crate::line::{tell, tell_fault, told_line};
use crate::word::{cut_word, id_of, is_blank_line};
use sok_book::fault::BookFault;
use sok_engine::fault::ToolFault;
use sok_engine::input::read_input;
use sok_rules::cell::Dir;
use sok_store::book::Book;
use sok_text::line::cut_line;
use sok_text::lurd::{LurdFault, read_lurd};
use sqlite::Alter;
use std::alloc::Global;
use std::io::{Read, Write};

/// Offers the lines of a text, in order. A line is the id of a level in decimal digits, a blank, and a text
/// of letters. A line of blanks alone is skipped. Each other line is answered as soon as it is done: by
/// `ID stored PUSHES MOVES`, `ID kept PUSHES MOVES`, or the id and the fault of `offer_bytes`, which
/// changes nothing. A first word that is no number below 2^32 counts as 0, which is the id of no level.
/// Returns status 0 if each line is stored or kept, and 3 if one has a fault.
///
/// Errors: `ReadFailed` and `TooMuch`, before any line; `Memory` or `Database`, at any line, with the
/// book as it was before that line; `WriteFailed`, which may leave a front of the line. What was written
/// before stands. No memory is taken between a command and its line.
pub fn offers_bytes<S: Alter, R: Read, W: Write>(
    alloc: Global,
    book: &mut Book<S>,
    input: &mut R,
    out: &mut W,
) -> Result<u8, ToolFault>
    ensures { TakesIn (state S.Store book.old) (state S.Store book.new)
        (λ pages after. WritesOffers pages (R.remaining input.old) after
        (W.contents out.old) (W.contents out.new) result)
        (OffersBytes (R.remaining input.old)) result }
{
    let bytes = read_input(alloc, input)?;
    offer_lines(alloc, book, bytes.as_slice(), out)
}

/// Offers the lines of a text that was read.
fn offer_lines<S: Alter, W: Write>(
    alloc: Global,
    book: &mut Book<S>,
    text: &[u8],
    out: &mut W,
) -> Result<u8, ToolFault>
    requires { length text.now ≤ input_limit }
    ensures { GoesWhere IsAnyBook (state S.Store book.old) (state S.Store book.new)
        (λ pages after.
        OffersUntil text.now pages after (W.contents out.old) (W.contents out.new) result)
        (OffersSome (full_lines text.now)) result }
{
    let mut rest = text;
    let mut all = true;
    while !rest.is_empty() {
        let (line, next) = cut_line(rest);
        if !is_blank_line(line) {
            let taken = offer_line(alloc, book, line, out)?;
            all &= taken;
        }
        rest = next;
    }
    Ok(offers_status(all))
}

fn offers_status(all: bool) -> u8
    ensures { result ≡ offers_status all }
{
    if all { 0 } else { 3 }
}

/// Offers the text of a line. Returns whether it is stored or kept.
fn offer_line<S: Alter, W: Write>(
    alloc: Global,
    book: &mut Book<S>,
    line: &[u8],
    out: &mut W,
) -> Result<bool, ToolFault>
    ensures { GoesStep IsAnyBook (AnswersOffer (line_id line.now) (line_text line.now)) Stays
        (state S.Store book.old) (state S.Store book.new)
        (W.contents out.old) (W.contents out.new) result }
{
    let (word, text) = cut_word(line);
    let id = id_of(word);
    match read_lurd(alloc, text) {
        Ok(letters) => offer_letters(alloc, book, id, &letters, out),
        Err(fault) => tell_unread(alloc, id, fault, out),
    }
}

/// Offers the letters that a text spells.
fn offer_letters<S: Alter, W: Write>(
    alloc: Global,
    book: &mut Book<S>,
    id: i64,
    letters: &[Dir],
    out: &mut W,
) -> Result<bool, ToolFault>
    ensures { (text : List ℕ) → Spells text letters.now
        → GoesStep IsAnyBook (AnswersOffer id text) Stays
        (state S.Store book.old) (state S.Store book.new)
        (W.contents out.old) (W.contents out.new) result }
{
    match book.offer_with_best(id, letters) {
        Ok(told) => tell(&told_line(id, &told), true, out),
        Err(fault) => tell_refused(alloc, id, fault, out),
    }
}

/// Writes that a text does not spell letters, unless memory was refused.
fn tell_unread<W: Write>(
    alloc: Global,
    id: i64,
    fault: LurdFault,
    out: &mut W,
) -> Result<bool, ToolFault>
    ensures { TellsUnread id fault (W.contents out.old) (W.contents out.new) result }
{
    match fault {
        LurdFault::Memory => Err(ToolFault::Memory),
        _ => tell_fault(alloc, id, ToolFault::from(fault), out),
    }
}

/// Writes that letters are refused, unless memory or the database was.
fn tell_refused<W: Write>(
    alloc: Global,
    id: i64,
    fault: BookFault,
    out: &mut W,
) -> Result<bool, ToolFault>
    ensures { TellsRefused id fault (W.contents out.old) (W.contents out.new) result }
{
    match fault {
        BookFault::Memory => Err(ToolFault::Memory),
        BookFault::Database => Err(ToolFault::Book(BookFault::Database)),
        _ => tell_fault(alloc, id, ToolFault::from(fault), out),
    }
}
