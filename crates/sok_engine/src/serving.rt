//! An engine that answers an input, and serving one.

ghost use Rattle.std.specs.Prelude.{ℕ, List};
ghost use Rattle.sok_engine.specs.Inputs.{OfReader, Within};
ghost use Rattle.sok_engine.specs.Limits.{input_limit};
ghost use Rattle.sok_engine.specs.Written.{Answers, Gives, Writes};

use crate::answer::Answer;
use crate::fault::ToolFault;
use crate::input::read_input;
use std::alloc::Global;
use std::io::{Read, Write};

/// What answers an input.
pub trait Engine {
    // The possible answers to an input.
    ghost answers: { Self → List ℕ → Answers };

    /// Returns the answer to a whole input, or the fault that is its answer. It fails otherwise only
    /// if memory is refused.
    fn answer(&self, alloc: Global, input: &[u8]) -> Result<Answer, ToolFault>
        ensures { Gives (answers self.now input.now) result };
}

/// Reads an input to its end, and writes the answer of an engine. Returns the status of the answer.
///
/// Errors: `ReadFailed`, `TooMuch`, or the fault that is the answer, with nothing written;
/// `WriteFailed` as soon as a write fails; by then a first part of the answer may be written. For a
/// reader whose remaining bytes are unknown, this is promised for some bytes.
pub fn serve<E: Engine, R: Read, W: Write>(
    alloc: Global,
    engine: &E,
    input: &mut R,
    out: &mut W,
) -> Result<u8, ToolFault>
    ensures { Writes
        (OfReader (R.remaining input.old) (Within input_limit (E.answers engine.now)))
        (W.contents out.old) (W.contents out.new) result }
{
    let bytes = read_input(alloc, input)?;
    let answer = engine.answer(alloc, bytes.as_slice())?;
    answer.write(out)
}
