//! How a failed call of the database is reported.
ghost use Rattle.std.specs.Prelude.{◌≡◌};
ghost use Rattle.exam_tables.specs.Faults.{refusal_of};

use exam_types::Refusal;
use sqlite::{Error, ErrorCode};
use sqlite_resolve::CompileError;

/// The refusal for an error of the database: `NoMemory` if it ran out of memory, `BadStore` for a missing table or
/// column, `Store` for any other error.
pub fn refusal_of(error: Error) -> Refusal
    ensures { result ≡ refusal_of error }
{
    match error {
        Error::SqliteFailure(ErrorCode::OutOfMemory) => Refusal::NoMemory,
        Error::SqlInputError(CompileError::NoSuchTable | CompileError::NoSuchColumn) => {
            Refusal::BadStore
        }
        _ => Refusal::Store,
    }
}
