//! Faults of the database as faults of a book.

ghost use Rattle.std.specs.Prelude.{◌≡◌, ◌≢◌};
ghost use Rattle.sok_store.specs.Faults.{IsOutside};

use sok_book::fault::BookFault;
use sqlite::{Error, ErrorCode};

/// Returns `Memory` if the database ran out of memory, and `Database` for every other cause.
pub fn fault_of(error: Error) -> BookFault
    ensures memory { error ≡ Error.SqliteFailure ErrorCode.OutOfMemory
        → result ≡ BookFault.Memory }
    ensures other { error ≢ Error.SqliteFailure ErrorCode.OutOfMemory
        → result ≡ BookFault.Database }
    ensures outside { IsOutside result }
{
    match error {
        Error::SqliteFailure(ErrorCode::OutOfMemory) => BookFault::Memory,
        _ => BookFault::Database,
    }
}
