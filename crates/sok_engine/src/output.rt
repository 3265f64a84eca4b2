//! Writing all of a text.

ghost use Rattle.std.specs.Prelude.{◌≡◌, OnErr, OnOk};
ghost use Rattle.std.specs.Io.KnownBytes.{Appends};
ghost use Rattle.sok_engine.specs.Faults.{tool_fault_number};
ghost use Rattle.sok_engine.specs.Written.{AppendsFront};
ghost use Rattle.sok_engine.specs.declared.fault.ToolFault.TheVariants as tool;

use std::io::Write;
use thiserror::Error;

/// A write failed, for any cause, or took no byte.
#[derive(Clone, Copy, Debug, PartialEq, Eq, Error)]
#[error("WriteFailed")]
pub struct WriteFailed;

impl WriteFailed {
    /// Returns the number by which the fault is printed.
    pub fn number(&self) -> u8
        ensures { result ≡ tool_fault_number tool.WriteFailed }
    {
        51
    }
}

/// Writes all bytes. If a write fails, only a first part of them is written.
pub fn write_whole<W: Write>(writer: &mut W, bytes: &[u8]) -> Result<(), WriteFailed>
    ensures ok { OnOk result (Appends (W.contents writer.old) (W.contents writer.new) bytes.now) }
    ensures err { OnErr result
        (AppendsFront (W.contents writer.old) (W.contents writer.new) bytes.now) }
{
    let mut rest = bytes;
    'rest: while !rest.is_empty() {
        let count = match writer.write(rest) {
            Ok(count) => count,
            Err(_) => return Err(WriteFailed),
        };
        if count == 0 {
            return Err(WriteFailed);
        }
        rest = &rest[count..];
    }
    Ok(())
}
