//! The line of a level, or of an offer.

ghost use Rattle.std.specs.Prelude.{◌≡◌, ◌++◌, IfOk, codes, string_bytes};
ghost use Rattle.std.specs.Fmt.{signed_decimal};
ghost use Rattle.sok_keep.specs.Offers.{offer_line};
ghost use Rattle.sok_settle.specs.Lines.{TellsFault, TellsLine, fault_line};
ghost use Rattle.sok_settle.specs.Settles.{limit_line, optimal_line, unsolvable_line};

use arrayvec::ArrayString;
use itoa::Buffer;
use sok_engine::fault::ToolFault;
use sok_engine::output::write_whole;
use sok_keep::offer::offer_line;
use sok_store::standing::Standing;
use std::alloc::{AllocError, Global};
use std::io::Write;

/// A line of at most 64 bytes, which takes no memory from the allocator.
pub(crate) type Line = ArrayString<64>;

/// Returns the line of a level whose best has the fewest pushes.
pub(crate) fn optimal_line(id: i64, pushes: u32, moves: u32) -> Line
    ensures { result.bytes ≡ optimal_line id pushes moves }
{
    let mut line = Line::new();
    line.push_str(Buffer::new().format(id));
    line.push_str(" optimal ");
    line.push_str(Buffer::new().format(pushes));
    line.push_str(" ");
    line.push_str(Buffer::new().format(moves));
    line.push_str("\n");
    line
}

/// Returns the line of a level without a solution.
pub(crate) fn unsolvable_line(id: i64) -> Line
    ensures { result.bytes ≡ unsolvable_line id }
{
    let mut line = Line::new();
    line.push_str(Buffer::new().format(id));
    line.push_str(" unsolvable\n");
    line
}

/// Returns the line of a level whose search reached the limit, with the lower bound that it shows.
pub(crate) fn limit_line(id: i64, limit: u32, at_least: u32) -> Line
    ensures { result.bytes ≡ limit_line id limit at_least }
{
    let mut line = Line::new();
    line.push_str(Buffer::new().format(id));
    line.push_str(" limit ");
    line.push_str(Buffer::new().format(limit));
    line.push_str(" at least ");
    line.push_str(Buffer::new().format(at_least));
    line.push_str("\n");
    line
}

/// Returns the line of an offer: the id, what became of it, and the pushes and moves of the best.
pub(crate) fn told_line(id: i64, told: &Standing) -> Line
    ensures { result.bytes ≡ signed_decimal id
        ++ (codes " " ++ offer_line told.now.offer told.now.pushes told.now.moves) }
{
    let mut line = Line::new();
    line.push_str(Buffer::new().format(id));
    line.push_str(" ");
    line.push_str(offer_line(told).as_str());
    line
}

/// Returns the line of a level or an offer with a fault.
fn fault_line(alloc: Global, id: i64, fault: ToolFault) -> Result<String, AllocError>
    ensures { IfOk result (λ line. string_bytes line ≡ fault_line id fault) }
{
    format!(in alloc; "{id} {fault}\n")
}

/// Writes a line, and returns `well`. A failed write is `WriteFailed`; a front of the line may be written.
pub(crate) fn tell<W: Write>(line: &Line, well: bool, out: &mut W) -> Result<bool, ToolFault>
    ensures { TellsLine line.now.bytes well (W.contents out.old) (W.contents out.new) result }
{
    write_whole(out, line.as_str().as_bytes())?;
    Ok(well)
}

/// Writes the line of a fault, and returns false. It takes memory.
pub(crate) fn tell_fault<W: Write>(
    alloc: Global,
    id: i64,
    fault: ToolFault,
    out: &mut W,
) -> Result<bool, ToolFault>
    ensures { TellsFault id fault (W.contents out.old) (W.contents out.new) result }
{
    let line = fault_line(alloc, id, fault)?;
    write_whole(out, line.as_bytes())?;
    Ok(false)
}
