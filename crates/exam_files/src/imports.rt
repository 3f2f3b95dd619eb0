//! An import file, read into its rows.
ghost use Rattle.std.specs.Prelude.{◌≡◌, IsTrue, false, Err};
ghost use Rattle.exam_types.specs.declared.refusal.Refusal.TheVariants.{TooMany};
ghost use Rattle.exam_files.specs.ImportFiles as spec;

use crate::headers::is_header;
use crate::records::{reader_of, take_record};
use crate::row_of_record::row_of_record;
use csv::ByteRecord;
use exam_commands::{Import, Kind};
use exam_types::Refusal;
use std::alloc::Global;

/// The longest import file, in bytes.
pub const MOST_BYTES: usize = 4_194_304;

/// The rows that an import file of the kind denotes, in the order of its records; the file is CSV (RFC 4180). Refused
/// with `TooMany` for a file above `MOST_BYTES`, then with `BadHeader`, and then for the first record that is bad
/// (`BadRow`) or contradicts an earlier one (`RowConflict`). Records count from 1 after the header, and blank lines are
/// no records. The only other refusal is `NoMemory`; a file that is too long never gets it.
pub fn read_import(alloc: Global, kind: Kind, bytes: &[u8]) -> Result<Import, Refusal>
    ensures denoted { spec.GivesUnlessMemory result (spec.import_of kind bytes.now) }
    ensures too_long { IsTrue (spec.is_too_long bytes.now) → result ≡ Err TooMany }
{
    if bytes.len() > MOST_BYTES {
        return Err(Refusal::TooMany);
    }
    read_records(alloc, kind, bytes)
}

/// The rows of a text that is not too long.
fn read_records(alloc: Global, kind: Kind, bytes: &[u8]) -> Result<Import, Refusal>
    requires { spec.is_too_long bytes.now ≡ false }
    ensures { spec.GivesUnlessMemory result (spec.rows_in kind bytes.now) }
{
    let mut reader = reader_of(alloc, bytes);
    let mut fields = ByteRecord::new(alloc);
    if !take_record(&mut reader, &mut fields)? {
        return Err(Refusal::BadHeader);
    }
    if !is_header(kind, &fields) {
        return Err(Refusal::BadHeader);
    }
    let mut import = Import::new(alloc, kind);
    for place in 0..bytes.len() as u32 {
        if !take_record(&mut reader, &mut fields)? {
            break;
        }
        let row = row_of_record(alloc, kind, place + 1, &fields)?;
        import.push(row)?;
    }
    Ok(import)
}
