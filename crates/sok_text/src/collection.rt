//! Collections: the levels of a text, with notes around them.

ghost use Rattle.std.specs.Prelude.{◌≡◌, ◌⊎◌, ◌↔◌, ℕ, List, None, Err, IfOk};
ghost use Rattle.std.specs.Prelude.{length, map, option_map};
ghost use Rattle.std.specs.List.{filter_map};
ghost use Rattle.std.specs.Str.Lines.{lines};
ghost use Rattle.sok_rules.specs.Levels.{cells_of, level_of};
ghost use Rattle.sok_rules.specs.declared.fault.LevelFault.TheVariants as fault;
ghost use Rattle.sok_text.specs.Xsb.{cell_of};
ghost use Rattle.sok_text.specs.Collections.{blocks_of, block_at, block_of, board_rows, level_at};
ghost use Rattle.sok_text.specs.Collections.{Parts, IsCut, parts_of};
ghost use Rattle.sok_text.specs.Plain.{TextsReadPlain};
ghost use Rattle.sok_text.specs.Titles.{title_at};

use crate::kind::{Kind, kind_of};
use crate::line::{before, cut_line, pass, pass_board, place_at};
use crate::packed::unpack;
use crate::title::title_between;
use crate::xsb::cell_of;
use sok_rules::cell::Cell;
use sok_rules::fault::{LevelFault, Memory};
use sok_rules::level::{LIMIT, Level};
use std::alloc::{AllocError, Global};
use std::marker::Model;

/// The levels of a text, in order. It holds slices of the text and makes a level only on request.
/// Contracts see it as a list of blocks: the lines of a board, with the notes before and after.
#[derive(Drop)]
pub struct Collection<'a> {
    notes: &'a [u8],
    parts: Vec<Part<'a>>,
}

/// The lines of a board, and the notes up to the next board.
#[derive(Clone, Copy)]
struct Part<'a> {
    board: &'a [u8],
    after: &'a [u8],
}

/// The texts of a block: the lines of a board, and the notes before it and after it.
#[derive(Clone, Copy)]
struct Texts<'a> {
    before: &'a [u8],
    board: &'a [u8],
    after: &'a [u8],
}

impl<'a> Model for Collection<'a> {
    ghost use Rattle.std.specs.Prelude.{List, map};
    ghost use Rattle.std.specs.Str.Lines.{lines};
    ghost use Rattle.sok_text.specs.Collections.{Block, blocks_from};

    ghost Value = { List Block };

    ghost view = { λ c. blocks_from (lines c.notes.now) (map
        (λ part. record { board = lines part.board.now; after = lines part.after.now })
        c.parts.items) };
}

impl<'a> Collection<'a> {
    /// Reads a text in one pass. A board line has only XSB characters, and a wall among them. A
    /// level is a run of board lines, as long as possible, or one packed line. Every other line is
    /// a note and may hold any bytes. A line ends with LF, CR LF or the end of the text.
    #[tactic(auto, unfolding(crate::specs::Collections::blocks_of))]
    pub fn read(alloc: Global, text: &'a [u8]) -> Result<Collection<'a>, Memory>
        ensures { IfOk result (λ collection. collection ≡ blocks_of text.now) }
    {
        let first = pass(Kind::Note, place_at(text));
        let notes = before(text, first.rest);
        let mut parts = Vec::new(alloc);
        let mut here = first;
        while !here.rest.is_empty() {
            let behind = pass_board(here);
            let next = pass(Kind::Note, behind);
            let board = before(here.rest, behind.rest);
            let after = before(behind.rest, next.rest);
            parts.push(Part { board, after })?;
            here = next;
        }
        Ok(Collection { notes, parts })
    }

    /// Returns the number of levels.
    pub fn len(&self) -> usize
        ensures { result ≡ length self.now }
    {
        self.parts.len()
    }

    /// Makes the `n`-th level, counted from 1. A faulty level does not affect the others.
    ///
    /// Errors: `NoSuchLevel` if there is no such level; otherwise the faults of `Level::new`, or
    /// `Memory`.
    #[tactic(auto, unfolding(crate::specs::Collections::level_at))]
    pub fn level(&self, alloc: Global, n: usize) -> Result<Level, LevelFault>
        ensures level { (result ≡ Err fault.Memory) ⊎ (result ≡ level_at self.now n) }
        ensures missing { (result ≡ Err fault.NoSuchLevel) ↔ (block_at self.now n ≡ None) }
    {
        match self.board(n) {
            Some(board) => Level::new(rows_of(alloc, board)?),
            None => Err(LevelFault::NoSuchLevel),
        }
    }

    /// Returns the title of the `n`-th level, counted from 1, as a slice of the text. It is the
    /// text of the first note after the board that begins with `Title:` and has text after it.
    /// Otherwise it is the text of the last note before the board that is not blank, if that note
    /// begins with a semicolon. `None` if there is no title or no such level.
    pub fn title(&self, n: usize) -> Option<&'a [u8]>
        ensures { option_map (λ title. title.now) result
            ≡ title_at self.now n }
    {
        let block = self.block(n)?;
        title_between(block.before, block.after)
    }

    /// Returns the text of the `n`-th board.
    fn board(&self, n: usize) -> Option<&'a [u8]>
        ensures { option_map (λ board. lines board.now) result
            ≡ option_map (λ block. block.board) (block_at self.now n) }
    {
        let block = self.block(n)?;
        Some(block.board)
    }

    /// Returns the texts of the `n`-th block.
    fn block(&self, n: usize) -> Option<Texts<'a>>
        ensures { option_map (λ texts. block_of texts.before.now texts.board.now texts.after.now)
            result ≡ block_at self.now n }
    {
        let part = self.parts.get(n.checked_sub(1)?)?;
        let before = if n == 1 {
            self.notes
        } else {
            self.parts[n - 2].after
        };
        Some(Texts {
            before,
            board: part.board,
            after: part.after,
        })
    }
}

/// Returns the rows of a board. Cells that change neither its level nor its fault may be missing.
fn rows_of(alloc: Global, board: &[u8]) -> Result<Vec<Vec<Cell>>, AllocError>
    ensures { IfOk result
        (λ rows. level_of (cells_of rows.items) ≡ level_of (board_rows (lines board.now))) }
{
    let (line, _) = cut_line(board);
    match kind_of(line) {
        Kind::Packed => unpack(alloc, line),
        _ => rows_of_lines(alloc, board),
    }
}

/// Returns the cells of each line of a board, up to the 129th row, which is one too many.
fn rows_of_lines(alloc: Global, board: &[u8]) -> Result<Vec<Vec<Cell>>, AllocError>
    ensures { IfOk result
        (λ rows. level_of (cells_of rows.items)
        ≡ level_of (map (filter_map cell_of) (lines board.now))) }
{
    let mut rows = Vec::new(alloc);
    let mut rest = board;
    while !rest.is_empty() && rows.len() <= LIMIT {
        let (line, next) = cut_line(rest);
        rows.push(row_of(alloc, line)?)?;
        rest = next;
    }
    Ok(rows)
}

/// Returns the cells of a line.
fn row_of(alloc: Global, line: &[u8]) -> Result<Vec<Cell>, AllocError>
    ensures { IfOk result (λ row. row.items ≡ filter_map cell_of line.now) }
{
    let mut row = Vec::with_capacity(alloc, line.len())?;
    for byte in line {
        match cell_of(*byte) {
            Some(cell) => row.push(cell)?,
            None => {}
        }
    }
    Ok(row)
}

/// Lines are cut into notes and boards so that no line is lost, each board is one packed line or
/// only board lines, and each board of board lines is as long as possible. No other cut does so.
pub fn boards_are_maximal_runs()
    ensures cut { (ls : List (List ℕ)) → IsCut ls (parts_of ls) }
    ensures only { (ls : List (List ℕ)) (parts : Parts) → IsCut ls parts → parts ≡ parts_of ls }
{}

/// A text without a bar is read as it was before there were packed lines: the same blocks, with the
/// same rows.
pub fn texts_without_bars_read_as_before()
    ensures { TextsReadPlain }
{}
