//! The records of a file (RFC 4180, section 2), as the CSV reader finds them.
ghost use Rattle.std.specs.Prelude.{◌≡◌, ℕ, List, Some, IsTrue, IfOk};
ghost use Rattle.csv.specs.Reading.{default_config, is_flexible, records, strip_bom};
ghost use Rattle.csv.specs.Records.{fields_of};
ghost use Rattle.exam_types.specs.Refusals.{OnlyMemory};
ghost use Rattle.exam_files.specs.Left.{Leaves, StepsBy};
ghost use Rattle.exam_files.specs.ImportFiles as spec;

use csv::{ByteRecord, Reader, ReaderBuilder};
use exam_types::Refusal;
use std::alloc::Global;
use std::io::Read;

/// A reader at the start of a text. The header is a record like the others, and records may have different lengths.
pub fn reader_of(alloc: Global, bytes: &[u8]) -> Reader<&[u8]>
    ensures records { Leaves (λ s. Some s.now) result (records default_config (strip_bom bytes.now)) }
    // So a record of another length is no error of the reader, which would be reported as `NoMemory`.
    ensures lengths { IsTrue (is_flexible result) }
{
    ReaderBuilder::new()
        .has_headers(false)
        .flexible(true)
        .from_reader(alloc, bytes)
}

/// Takes the next record, if there is one. Over a text in memory the reader fails only if memory runs out.
pub fn take_record<R: Read>(reader: &mut Reader<R>, row: &mut ByteRecord) -> Result<bool, Refusal>
    ensures steps { IfOk result (λ found. (rs : List (List (List ℕ))) → Leaves R.remaining reader.old rs
        → StepsBy R.remaining found row.new reader.new rs) }
    ensures memory { OnlyMemory result }
{
    reader.read_byte_record(row).map_err(|_| Refusal::NoMemory)
}

/// The field in a column, counted from 0; empty if there is none.
pub fn field(fields: &ByteRecord, column: usize) -> &[u8]
    ensures { result.now ≡ spec.field column (fields_of fields.now) }
{
    fields.get(column).unwrap_or(b"")
}
