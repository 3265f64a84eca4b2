//! The line of a command that was done. It is made without allocating.

ghost use Rattle.std.specs.Prelude.{◌≡◌};
ghost use Rattle.sok_engine.specs.Written.{WritesOne};

use arrayvec::ArrayString;
use sok_engine::fault::ToolFault;
use sok_engine::output::write_whole;
use std::io::Write;

/// The greatest length of a line, in bytes.
pub(crate) const LINE_ROOM: usize = 64;

/// A line of at most 64 bytes.
pub(crate) type Line = ArrayString<64>;

/// Writes a line and returns the status.
///
/// Errors: `WriteFailed` as soon as a write fails; by then a first part of the line may be written.
pub(crate) fn write_line<W: Write>(line: &Line, status: u8, out: &mut W) -> Result<u8, ToolFault>
    ensures { WritesOne (record { text = line.now.bytes; status = status })
        (W.contents out.old) (W.contents out.new) result }
{
    write_whole(out, line.as_str().as_bytes())?;
    Ok(status)
}
