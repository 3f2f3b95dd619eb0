//! The headers of import files.
ghost use Rattle.std.specs.Prelude.{◌≡◌, length, map};
ghost use Rattle.csv.specs.Records.{fields_of};
ghost use Rattle.exam_files.specs.ImportFiles as spec;

use crate::records::field;
use csv::ByteRecord;
use exam_commands::Kind;

/// The names of the columns of a file of the kind, from the left.
pub fn header(kind: Kind) -> &'static [&'static [u8]]
    ensures names { map (λ name. name.now) result.now ≡ spec.header_of kind }
    ensures count { length result.now ≡ length (spec.header_of kind) }
{
    match kind {
        Kind::Sessions => &[b"session", b"date", b"start"],
        Kind::Papers => &[b"paper", b"title", b"session", b"minutes", b"requires"],
        Kind::Halls => &[b"hall", b"title", b"features"],
        Kind::Openings => &[b"session", b"hall", b"desks", b"until", b"reserved"],
        Kind::Candidates => &[b"number", b"name", b"code"],
        Kind::Entries => &[b"number", b"paper"],
        Kind::Arrangements => &[b"number", b"needs", b"extra"],
    }
}

/// Whether a record is the header of the kind, field by field.
pub fn is_header(kind: Kind, fields: &ByteRecord) -> bool
    ensures { result ≡ spec.is_header kind (fields_of fields.now) }
{
    let names = header(kind);
    fields.len() == names.len() && has_names(names, fields)
}

fn has_names(names: &[&[u8]], fields: &ByteRecord) -> bool
    ensures { result ≡ spec.has_fields 0 (map (λ name. name.now) names.now) (fields_of fields.now) }
{
    for (column, name) in names.iter().enumerate() {
        if field(fields, column) != *name {
            return false;
        }
    }
    true
}
