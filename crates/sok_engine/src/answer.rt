//! An answer, and writing it.

ghost use Rattle.std.specs.Prelude.{◌≡◌};
ghost use Rattle.sok_engine.specs.Written.{WritesOne};

use crate::fault::ToolFault;
use crate::output::write_whole;
use std::io::Write;
use std::marker::Model;

/// A text to write, and the status to end with.
#[derive(Drop)]
pub struct Answer {
    text: Vec<u8>,
    status: u8,
}

impl Model for Answer {
    ghost use Rattle.sok_engine.specs.Written as written;

    ghost Value = { written.Answer };

    ghost view = { λ answer. record { text = answer.text.items; status = answer.status } };
}

impl Answer {
    /// Returns an answer. The text may hold any bytes.
    pub fn new(text: Vec<u8>, status: u8) -> Answer
        ensures text { result.text ≡ text.items }
        ensures status { result.status ≡ status }
    {
        Answer { text, status }
    }

    /// Writes the text and returns the status.
    ///
    /// Errors: `WriteFailed` as soon as a write fails; by then a first part of the text may be
    /// written.
    pub fn write<W: Write>(&self, out: &mut W) -> Result<u8, ToolFault>
        ensures { WritesOne self.now (W.contents out.old) (W.contents out.new) result }
    {
        write_whole(out, &self.text)?;
        Ok(self.status)
    }
}
