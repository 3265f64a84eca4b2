//! The letters that a word stands for, and each command on them.

ghost use Rattle.std.specs.Prelude.{IfErr, IfOk};
ghost use Rattle.sqlite.specs.Held.{state};
ghost use Rattle.sok_play.specs.Drawings.{IsDrawing};
ghost use Rattle.sok_play.specs.Plays.{IsReplay};
ghost use Rattle.sok_tool.specs.Commands.{RunsOffer, RunsPlay};
ghost use Rattle.sok_tool.specs.Databases.{databases_by};
ghost use Rattle.sok_tool.specs.Letters.{IsLetters, IsUnread, OnLetters};

use crate::keeping;
use sok_databases::databases::Databases;
use sok_engine::fault::ToolFault;
use sok_engine::input::read_input;
use sok_files::command;
use sok_files::folder::Folder;
use sqlite::{Alter, Connection};
use std::alloc::Global;
use std::io::{Read, Write};

/// Returns the letters that a word stands for. `-` stands for the rest of the input, at most
/// 16,777,216 bytes, and any other word for itself.
fn letters_of<R: Read>(alloc: Global, word: &str, input: &mut R) -> Result<Vec<u8>, ToolFault>
    ensures letters { IfOk result
        (λ letters. IsLetters word.now (R.remaining input.old) letters.items) }
    ensures unread { IfErr result (IsUnread word.now (R.remaining input.old)) }
{
    if word == "-" {
        return Ok(read_input(alloc, input)?);
    }
    Ok(Vec::from_slice(alloc, word.as_bytes())?)
}

/// Plays the letters that a word stands for on the n-th level of a collection.
pub(crate) fn replay<F: Folder + AllocGlobal, R: Read, W: Write>(
    rt: &F,
    path: &str,
    n: u32,
    word: &str,
    input: &mut R,
    out: &mut W,
) -> Result<u8, ToolFault>
    ensures { OnLetters word.now (R.remaining input.old)
        (RunsPlay IsReplay ((F.files rt.now).reads path.now) n
        (record { old = W.contents out.old; new = W.contents out.new }) result)
        (record { old = W.contents out.old; new = W.contents out.new }) result }
{
    let letters = letters_of(rt.alloc(), word, input)?;
    command::replay(rt, path, n, letters.as_slice(), out)
}

/// Draws the n-th level of a collection after the letters that a word stands for.
pub(crate) fn draw<F: Folder + AllocGlobal, R: Read, W: Write>(
    rt: &F,
    path: &str,
    n: u32,
    word: &str,
    input: &mut R,
    out: &mut W,
) -> Result<u8, ToolFault>
    ensures { OnLetters word.now (R.remaining input.old)
        (RunsPlay IsDrawing ((F.files rt.now).reads path.now) n
        (record { old = W.contents out.old; new = W.contents out.new }) result)
        (record { old = W.contents out.old; new = W.contents out.new }) result }
{
    let letters = letters_of(rt.alloc(), word, input)?;
    command::draw(rt, path, n, letters.as_slice(), out)
}

/// Offers the letters that a word stands for to the level of a book with an id.
pub(crate) fn offer<
    S: Alter + Drop,
    F: Databases<Opened = Connection<S>> + AllocGlobal,
    R: Read,
    W: Write,
>(rt: &F, db: &str, id: i64, word: &str, input: &mut R, out: &mut W) -> Result<u8, ToolFault>
    requires { (F.databases rt.now).may_change db.now }
    ensures { OnLetters word.now (R.remaining input.old) (RunsOffer
        (databases_by (state S.Store) (F.databases rt.now))
        db.now id (record { old = W.contents out.old; new = W.contents out.new }) result)
        (record { old = W.contents out.old; new = W.contents out.new }) result }
{
    let letters = letters_of(rt.alloc(), word, input)?;
    keeping::offer(rt, db, id, letters.as_slice(), out)
}
