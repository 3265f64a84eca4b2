//! The exit status of a run, and what it writes to the error stream.

ghost use Rattle.std.specs.Prelude.{◌≡◌, ◌≢◌, Err, Ok, string_bytes};
ghost use Rattle.std.specs.Io.KnownBytes.{Keeps};
ghost use Rattle.sok_engine.specs.declared.fault.ToolFault.TheVariants as tool;
ghost use Rattle.sok_files.specs.Endings.{Ends, Runs, AppendsUpTo, fault_line};

use sok_engine::answer::Answer;
use sok_engine::fault::ToolFault;
use sok_engine::output::write_whole;
use sok_words::job::JobRefused;
use std::fmt::{InlineText, Write as _};
use std::io::Write;

/// Returns the exit status of an outcome. A fault is written to `err` as one line, as far as the
/// stream takes it.
pub fn ended<E: Write>(outcome: Result<u8, ToolFault>, err: &mut E) -> u8
    ensures { Ends outcome (E.contents err.old) (E.contents err.new) result }
{
    match outcome {
        Ok(status) => status,
        Err(fault) => {
            tell(fault, err);
            fault.status()
        }
    }
}

/// Writes the line of a fault, by one write if the stream takes it whole.
fn tell<E: Write>(fault: ToolFault, err: &mut E)
    ensures { AppendsUpTo (E.contents err.old) (E.contents err.new) (fault_line fault) }
{
    // The longest line has 42 bytes.
    let mut line = InlineText::<64>::new();
    if line.writeln(fault).is_ok() {
        let _ = write_whole(err, line.as_str().as_bytes());
    }
}

/// Returns the exit status for words that name no job. Help that was asked for is written to `out`.
/// What is wrong with the words is written to `err`, as far as the stream takes it.
pub fn refused<W: Write, E: Write>(refusal: JobRefused, out: &mut W, err: &mut E) -> u8
    ensures help { refusal.status ≡ 0
        → Runs (λ answer. answer ≡ Ok (record { text = string_bytes refusal.text; status = 0 }))
        (W.contents out.old) (W.contents out.new) (E.contents err.old) (E.contents err.new) result }
    ensures memory { refusal.status ≡ 6
        → Ends (Err tool.Memory) (E.contents err.old) (E.contents err.new) result }
    ensures wrong { refusal.status ≢ 0 → refusal.status ≢ 6 → (result ≡ refusal.status)
        × AppendsUpTo (E.contents err.old) (E.contents err.new) (string_bytes refusal.text) }
    ensures silent { refusal.status ≢ 0 → Keeps (W.contents out.old) (W.contents out.new) }
{
    let JobRefused { text, status } = refusal;
    if status == 0 {
        return ended(Answer::new(text.into_bytes(), 0).write(out), err);
    }
    if status == 6 {
        return ended(Err(ToolFault::Memory), err);
    }
    let _ = write_whole(err, text.as_bytes());
    status
}
