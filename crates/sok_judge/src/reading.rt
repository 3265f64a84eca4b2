//! A certificate, judged as it is read.

ghost use Rattle.std.specs.Prelude.{◌≡◌, ◌<◌, IfOk, IfSome, IsErrOf, length, vec_len};
ghost use Rattle.sok_engine.specs.Limits.{cert_limit};
ghost use Rattle.sok_judge.specs.Streams.{IsStreamOf};

use sok_board::board::Board;
use sok_cert::stream::Stream;
use sok_engine::input::{CERT_LIMIT, InputFault};
use std::alloc::{AllocError, Global};
use std::io::Read;

/// The greatest length of a piece, in bytes. A list of inner positions that occurs again is taken
/// as a whole, not line by line, if all of its lines are in one piece.
const PIECE: usize = 65_536;

/// Reads a certificate for a board to its end, in pieces.
///
/// Errors: `ReadFailed` as soon as a read fails, for any cause; `TooMuch` if there is a byte past
/// the limit, after which some more bytes may have been read; `Memory`.
pub(crate) fn stream_of<'a, R: Read>(
    alloc: Global,
    board: &'a Board,
    reader: &mut R,
) -> Result<Stream<'a>, InputFault>
    ensures stands { IfOk result (IsStreamOf (R.remaining reader.old) cert_limit board.now) }
    ensures much { IsErrOf result InputFault.TooMuch
        → IfSome (R.remaining reader.old) (λ input. cert_limit < length input) }
{
    let mut room = room_for(alloc, PIECE)?;
    let buffer = room.as_mut_slice();
    let mut stream = Stream::new(alloc, board)?;
    let mut total: usize = 0;
    'input: while total <= CERT_LIMIT {
        let count = match reader.read(buffer) {
            Ok(count) => count,
            Err(_) => {
                stream.let_go();
                return Err(InputFault::ReadFailed);
            }
        };
        if count == 0 {
            return Ok(stream);
        }
        stream = stream.take(&buffer[..count])?;
        total += count;
    }
    stream.let_go();
    Err(InputFault::TooMuch)
}

/// Returns a buffer of this many bytes.
fn room_for(alloc: Global, bytes: usize) -> Result<Vec<u8>, AllocError>
    ensures { IfOk result (λ room. vec_len room ≡ bytes) }
{
    vec![in alloc; 0; bytes]
}
