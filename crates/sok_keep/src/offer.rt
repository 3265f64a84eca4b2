//! Offering a solution of a level of a book.

ghost use Rattle.std.specs.Prelude.{◌≡◌, ◌≢◌, ◌≤◌, IfErr, OnOk, length};
ghost use Rattle.sqlite.specs.Held.{state};
ghost use Rattle.sok_engine.specs.declared.fault.ToolFault.TheVariants as tool;
ghost use Rattle.sok_store.specs.Calls.{ChangesBook, EndsOpen, Stops};
ghost use Rattle.sok_keep.specs.Causes.{IsCausedFault};
ghost use Rattle.sok_keep.specs.Offers.{OffersText, WritesOffer};
ghost use Rattle.sok_keep.specs.Offers.{offer_line, offer_status, offer_word};

use crate::line::write_line;
use arrayvec::ArrayString;
use itoa::Buffer;
use sok_book::record::Offer;
use sok_engine::fault::ToolFault;
use sok_store::book::Book;
use sok_store::standing::Standing;
use sok_text::lurd::read_lurd;
use sqlite::Alter;
use std::alloc::Global;
use std::io::Write;

/// Offers a text of letters as a solution of the level with this id. If the level had no best
/// solution, or one with more pushes, this is now the best one: writes the line `stored PUSHES
/// MOVES`, with status 0. Otherwise writes `kept PUSHES MOVES` with those of the best solution,
/// which stays, with status 1.
///
/// Errors, in this order, with nothing written and the book as it was: `BadLetter` or `TooLong`;
/// `NoLevel`; `Blocked`; `NotSolved`. `Database` may replace any but the first two. `WriteFailed`
/// as soon as a write fails: a first part of the line may be written, and the change of the book
/// stands. Nothing is allocated after the change.
pub fn offer_bytes<S: Alter, W: Write>(
    alloc: Global,
    book: &mut Book<S>,
    id: i64,
    text: &[u8],
    out: &mut W,
) -> Result<u8, ToolFault>
    ensures writes { ChangesBook (state S.Store book.old) (state S.Store book.new) (λ pages after.
        WritesOffer pages id text.now after (W.contents out.old) (W.contents out.new) result) }
    ensures open { OnOk result (EndsOpen (state S.Store book.old) (state S.Store book.new)) }
    ensures cause { IfErr result (IsCausedFault (state S.Store book.old) (state S.Store book.new)
        (OffersText id text.now)) }
    ensures stop { Stops (state S.Store book.old) (state S.Store book.new)
        (OffersText id text.now) }
    ensures reads { IfErr result (λ fault. fault ≢ tool.ReadFailed) }
{
    let letters = read_lurd(alloc, text)?;
    match book.offer_with_best(id, &letters) {
        Ok(told) => write_line(&offer_line(&told), offer_status(told.offer), out),
        Err(fault) => Err(ToolFault::from(fault)),
    }
}

/// Returns the line for the answer to an offer, with the pushes and moves of the best solution
/// after it. It is made without allocating.
pub fn offer_line(told: &Standing) -> ArrayString<64>
    ensures line { result.bytes ≡ offer_line told.now.offer told.now.pushes told.now.moves }
    ensures short { length result.bytes ≤ 40 }
{
    let mut line = ArrayString::new();
    line.push_str(offer_word(told.offer));
    line.push_str(" ");
    line.push_str(Buffer::new().format(told.pushes));
    line.push_str(" ");
    line.push_str(Buffer::new().format(told.moves));
    line.push_str("\n");
    line
}

/// Returns the word for what became of an offer.
fn offer_word(offer: Offer) -> &'static str
    ensures { result.now ≡ offer_word offer }
{
    match offer {
        Offer::Stored => "stored",
        Offer::Kept => "kept",
    }
}

fn offer_status(offer: Offer) -> u8
    ensures { result ≡ offer_status offer }
{
    match offer {
        Offer::Stored => 0,
        Offer::Kept => 1,
    }
}
