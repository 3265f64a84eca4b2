//! Adding the levels of a collection to a book.

ghost use Rattle.std.specs.Prelude.{◌≡◌, ◌≢◌, ◌≤◌, ◌⊎◌, ◌+◌, ◌++◌, [], IfErr, IfOk, OnErr, OnOk, Ok};
ghost use Rattle.std.specs.Prelude.{option_map, string_bytes, vec_capacity, vec_len};
ghost use Rattle.sqlite.specs.Held.{state};
ghost use Rattle.sok_text.specs.Collections.{blocks_of, level_at};
ghost use Rattle.sok_text.specs.Titles.{title_at};
ghost use Rattle.sok_rules.specs.declared.fault.LevelFault.TheVariants as level;
ghost use Rattle.sok_board.specs.declared.fault.BoardFault.{BoardFault};
ghost use Rattle.sok_book.specs.declared.fault.BookFault.TheVariants as refusal;
ghost use Rattle.sok_engine.specs.Faults.{of_board, of_book, of_level};
ghost use Rattle.sok_engine.specs.declared.fault.ToolFault.TheVariants as tool;
ghost use Rattle.sok_store.specs.Calls.{ChangesBook};
ghost use Rattle.sok_keep.specs.Adds.{AddsBytes, WritesAdding, fault_line, id_line};
ghost use Rattle.sok_keep.specs.Adding.{AddsNext, AddsSome, EndsLevel, EndsLevels};
ghost use Rattle.sok_keep.specs.Causes.{TakesIn, Treats};

use crate::line::{LINE_ROOM, Line};
use itoa::Buffer;
use sok_book::fault::BookFault;
use sok_engine::fault::ToolFault;
use sok_engine::input::read_input;
use sok_engine::output::write_whole;
use sok_rules::fault::LevelFault;
use sok_rules::level::Level;
use sok_store::book::Book;
use sok_text::collection::Collection;
use sqlite::Alter;
use std::alloc::{AllocError, Global};
use std::io::{Read, Write};

/// Adds the levels of a collection, in order, with their titles. Writes a line for each level, with
/// its number, counted from 1: `N id ID` with its id in the book, or `N fault ..` with its fault.
/// The status is 0. A level that is already in the book keeps its id and its title. A level that
/// has a fault, or no board, changes nothing.
///
/// Any other fault ends the call: `ReadFailed` or `TooMuch`, before any level; `BookFull`, at the
/// first new level if there are 10,000; `Database` or `Memory`, at any level. The levels before it
/// stay added, and their lines are still written. `WriteFailed` if a write fails, also after
/// another fault; by then a first part of the lines may be written.
pub fn add_bytes<S: Alter, R: Read, W: Write>(
    alloc: Global,
    book: &mut Book<S>,
    input: &mut R,
    out: &mut W,
) -> Result<u8, ToolFault>
    ensures { TakesIn (state S.Store book.old) (state S.Store book.new)
        (λ pages after. WritesAdding pages (R.remaining input.old) after
        (W.contents out.old) (W.contents out.new) result)
        (AddsBytes (R.remaining input.old)) result }
{
    let bytes = read_input(alloc, input)?;
    let mut lines = Vec::new(alloc);
    let ended = add_all(alloc, book, bytes.as_slice(), &mut lines);
    write_whole(out, &lines)?;
    ended?;
    Ok(0)
}

/// Adds all levels of a collection and appends a line for each.
fn add_all<S: Alter>(
    alloc: Global,
    book: &mut Book<S>,
    bytes: &[u8],
    lines: &mut Vec<u8>,
) -> Result<(), ToolFault>
    requires { lines.old.items ≡ [] }
    ensures leaves { ChangesBook (state S.Store book.old) (state S.Store book.new) (λ pages after.
        EndsLevels (blocks_of bytes.now) pages after lines.new.items result) }
    ensures treats { Treats (state S.Store book.old) (state S.Store book.new)
        (AddsSome (blocks_of bytes.now)) result }
{
    let collection = Collection::read(alloc, bytes)?;
    add_levels(alloc, book, &collection, lines)
}

fn add_levels<S: Alter>(
    alloc: Global,
    book: &mut Book<S>,
    collection: &Collection<'_>,
    lines: &mut Vec<u8>,
) -> Result<(), ToolFault>
    requires { lines.old.items ≡ [] }
    ensures leaves { ChangesBook (state S.Store book.old) (state S.Store book.new) (λ pages after.
        EndsLevels collection.now pages after lines.new.items result) }
    ensures treats { Treats (state S.Store book.old) (state S.Store book.new)
        (AddsSome collection.now) result }
{
    for index in 0..collection.len() {
        lines.reserve(LINE_ROOM)?;
        add_level(alloc, book, collection, index + 1, lines)?;
    }
    Ok(())
}

/// Adds a level and appends its line. The caller has reserved room for the line of an added level,
/// so memory can't run out between the level and its line.
fn add_level<S: Alter>(
    alloc: Global,
    book: &mut Book<S>,
    collection: &Collection<'_>,
    n: usize,
    lines: &mut Vec<u8>,
) -> Result<(), ToolFault>
    requires { vec_len lines.old + LINE_ROOM ≤ vec_capacity lines.old }
    ensures leaves { ChangesBook (state S.Store book.old) (state S.Store book.new) (λ pages after.
        EndsLevel n (level_at collection.now n) (title_at collection.now n) pages after
        lines.old.items lines.new.items result) }
    ensures treats { Treats (state S.Store book.old) (state S.Store book.new)
        (AddsNext n (level_at collection.now n) (title_at collection.now n)) result }
{
    let title = collection.title(n);
    match collection.level(alloc, n) {
        Ok(level) => add_made(alloc, book, n, &level, title, lines),
        Err(fault) => tell_faulty(alloc, n, fault, lines),
    }
}

/// Appends the line of a level with a fault. `Memory` if that is the fault.
fn tell_faulty(
    alloc: Global,
    n: usize,
    fault: LevelFault,
    lines: &mut Vec<u8>,
) -> Result<(), ToolFault>
    ensures other { OnOk result (fault ≢ level.Memory) }
    ensures line { OnOk result
        (lines.new.items ≡ lines.old.items ++ fault_line n (of_level fault)) }
    ensures memory { IfErr result (λ cause. cause ≡ tool.Memory) }
    ensures same { OnErr result (lines.new.items ≡ lines.old.items) }
{
    match fault {
        LevelFault::Memory => Err(ToolFault::Memory),
        _ => Ok(push_fault_line(alloc, n, ToolFault::from(fault), lines)?),
    }
}

/// Adds a level without a fault and appends its line.
fn add_made<S: Alter>(
    alloc: Global,
    book: &mut Book<S>,
    n: usize,
    level: &Level,
    title: Option<&[u8]>,
    lines: &mut Vec<u8>,
) -> Result<(), ToolFault>
    requires { vec_len lines.old + LINE_ROOM ≤ vec_capacity lines.old }
    ensures leaves { ChangesBook (state S.Store book.old) (state S.Store book.new) (λ pages after.
        EndsLevel n (Ok level.now) (option_map (λ t. t.now) title.entry) pages after
        lines.old.items lines.new.items result) }
    ensures treats { Treats (state S.Store book.old) (state S.Store book.new)
        (AddsNext n (Ok level.now) (option_map (λ t. t.now) title.entry)) result }
{
    match book.add(level, title) {
        Ok(id) => {
            push_id_line(n, id, lines);
            Ok(())
        }
        Err(fault) => tell_refused(alloc, n, fault, lines),
    }
}

/// Appends the line of a level that has no board. Any other fault of the book ends the call.
fn tell_refused(
    alloc: Global,
    n: usize,
    fault: BookFault,
    lines: &mut Vec<u8>,
) -> Result<(), ToolFault>
    ensures line { OnOk result ((cause : BoardFault) × (fault ≡ refusal.Level cause)
        × (lines.new.items ≡ lines.old.items ++ fault_line n (of_board cause))) }
    ensures told { IfErr result (λ told. (told ≡ tool.Memory)
        ⊎ (((cause : BoardFault) → fault ≢ refusal.Level cause) × (told ≡ of_book fault))) }
    ensures same { OnErr result (lines.new.items ≡ lines.old.items) }
{
    match fault {
        BookFault::Level(cause) => { Ok(push_fault_line(alloc, n, ToolFault::from(cause), lines)?) }
        _ => Err(ToolFault::from(fault)),
    }
}

/// Appends the line of a level that is in the book, for which there is room.
fn push_id_line(n: usize, id: i64, lines: &mut Vec<u8>)
    requires { vec_len lines.old + LINE_ROOM ≤ vec_capacity lines.old }
    ensures { lines.new.items ≡ lines.old.items ++ id_line n id }
{
    let line = id_line(n, id);
    lines.extend_from_slice(line.as_str().as_bytes()).unwrap();
}

fn id_line(n: usize, id: i64) -> Line
    ensures { result.bytes ≡ id_line n id }
{
    let mut line = Line::new();
    line.push_str(Buffer::new().format(n));
    line.push_str(" id ");
    line.push_str(Buffer::new().format(id));
    line.push_str("\n");
    line
}

/// Appends the line of a level that is not added.
fn push_fault_line(
    alloc: Global,
    n: usize,
    fault: ToolFault,
    lines: &mut Vec<u8>,
) -> Result<(), AllocError>
    ensures line { OnOk result (lines.new.items ≡ lines.old.items ++ fault_line n fault) }
    ensures same { OnErr result (lines.new.items ≡ lines.old.items) }
{
    let line = fault_line(alloc, n, fault)?;
    lines.extend_from_slice(line.as_bytes())
}

fn fault_line(alloc: Global, n: usize, fault: ToolFault) -> Result<String, AllocError>
    ensures { IfOk result (λ line. string_bytes line ≡ fault_line n fault) }
{
    format!(in alloc; "{n} {fault}\n")
}
