//! How long inputs may be, and reading all of one.

ghost use Rattle.std.specs.Prelude.{◌<◌, ◌≤◌, ◌≡◌, IfOk, IfSome, IsErrOf, length};
ghost use Rattle.sok_engine.specs.Faults.{of_input, tool_fault_number};
ghost use Rattle.sok_engine.specs.Limits.{cert_limit, input_limit};
ghost use Rattle.sok_engine.specs.declared.input.InputFault.TheVariants as fault;

use sok_rules::fault::Memory;
use std::alloc::{AllocError, Global};
use std::io::{self, Read};
use thiserror::Error;

/// The greatest length of an input other than a certificate, in bytes.
pub const INPUT_LIMIT: usize = 16_777_216;

/// The greatest length of a certificate, in bytes.
pub const CERT_LIMIT: usize = 268_435_456;

/// Why an input is not read.
#[derive(Clone, Copy, Debug, PartialEq, Eq, Error)]
pub enum InputFault {
    /// Memory was refused.
    #[error("Memory")]
    Memory,
    /// A read failed, for any cause.
    #[error("ReadFailed")]
    ReadFailed,
    /// There are more bytes than the limit.
    #[error("TooMuch")]
    TooMuch,
}

impl InputFault {
    /// Returns the number by which the fault is printed.
    pub fn number(&self) -> u8
        ensures { result ≡ tool_fault_number (of_input self.now) }
    {
        match self {
            InputFault::Memory => 40,
            InputFault::ReadFailed => 50,
            InputFault::TooMuch => 52,
        }
    }
}

impl From<AllocError> for InputFault {
    ghost from_gives = { λ _ e. e ≡ fault.Memory };

    fn from(_error: AllocError) -> InputFault {
        InputFault::Memory
    }
}

impl From<Memory> for InputFault {
    ghost from_gives = { λ _ e. e ≡ fault.Memory };

    fn from(_error: Memory) -> InputFault {
        InputFault::Memory
    }
}

impl From<io::Error> for InputFault {
    ghost from_gives = { λ _ e. e ≡ fault.ReadFailed };

    fn from(_error: io::Error) -> InputFault {
        InputFault::ReadFailed
    }
}

/// Reads an input, other than a certificate, to its end.
///
/// Errors: `ReadFailed` as soon as a read fails, for any cause; `TooMuch` if there is a byte past
/// the limit, after which some more bytes may have been read; `Memory`.
pub fn read_input<R: Read>(alloc: Global, reader: &mut R) -> Result<Vec<u8>, InputFault>
    ensures all { IfOk result (λ v. IfSome (R.remaining reader.old) (λ input. v.items ≡ input)) }
    ensures within { IfOk result (λ v. length v.items ≤ input_limit) }
    ensures much { IsErrOf result InputFault.TooMuch
        → IfSome (R.remaining reader.old) (λ input. input_limit < length input) }
{
    read_at_most(alloc, reader, INPUT_LIMIT)
}

/// Reads a certificate to its end, in the same way.
pub fn read_certificate<R: Read>(alloc: Global, reader: &mut R) -> Result<Vec<u8>, InputFault>
    ensures all { IfOk result (λ v. IfSome (R.remaining reader.old) (λ input. v.items ≡ input)) }
    ensures within { IfOk result (λ v. length v.items ≤ cert_limit) }
    ensures much { IsErrOf result InputFault.TooMuch
        → IfSome (R.remaining reader.old) (λ input. cert_limit < length input) }
{
    read_at_most(alloc, reader, CERT_LIMIT)
}

/// Reads an input to its end, unless it has more bytes than the limit.
fn read_at_most<R: Read>(alloc: Global, reader: &mut R, limit: usize) -> Result<Vec<u8>, InputFault>
    ensures all { IfOk result (λ v. IfSome (R.remaining reader.old) (λ input. v.items ≡ input)) }
    ensures within { IfOk result (λ v. length v.items ≤ limit) }
    ensures much { IsErrOf result InputFault.TooMuch
        → IfSome (R.remaining reader.old) (λ input. limit < length input) }
{
    let mut bytes = Vec::new(alloc);
    let mut buffer = [0u8; 4096];
    'input: while bytes.len() <= limit {
        let count = reader.read(&mut buffer)?;
        if count == 0 {
            return Ok(bytes);
        }
        bytes.extend_from_slice(&buffer[..count])?;
    }
    Err(InputFault::TooMuch)
}
