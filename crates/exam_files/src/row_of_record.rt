//! The row that a record denotes.
ghost use Rattle.std.specs.Prelude.{◌≡◌, IfOk};
ghost use Rattle.csv.specs.Records.{fields_of};
ghost use Rattle.exam_commands.specs.Imports.{kind_of};
ghost use Rattle.exam_commands.specs.declared.import_row.Kind.TheVariants.{Sessions, Papers, Halls, Openings};
ghost use Rattle.exam_commands.specs.declared.import_row.Kind.TheVariants.{Candidates, Entries, Arrangements};
ghost use Rattle.exam_files.specs.ImportFiles as spec;

use crate::headers::header;
use crate::records::field;
use csv::ByteRecord;
use exam_commands::{Kind, Row};
use exam_rules::{Arrangement, Candidate, Hall, Opening, Paper, Session};
use exam_types::{
    AccessCode, ClosingTime, DeskCount, ExamMinutes, Extra, Features, HallCode, Name, Number,
    PaperCode, Refusal, SessionCode, SessionDay, StartTime,
};
use std::alloc::Global;

/// The row that the record of this number denotes. Refused with `BadRow`: with column 0 if the count of fields is
/// wrong, and otherwise with the first column, counted from 1 from the left, whose text is no value. Otherwise refused
/// only with `NoMemory`.
#[tactic(auto, unfolding(crate::specs::ImportFiles::row_of))]
pub fn row_of_record(
    alloc: Global,
    kind: Kind,
    place: u32,
    fields: &ByteRecord,
) -> Result<Row, Refusal>
    ensures row { spec.GivesUnlessMemory result (spec.row_of kind place (fields_of fields.now)) }
    ensures kind { IfOk result (λ row. kind_of row ≡ kind) }
{
    if fields.len() != header(kind).len() {
        return Err(Refusal::BadRow(place, 0));
    }
    match kind {
        Kind::Sessions => session_row(place, fields),
        Kind::Papers => paper_row(alloc, place, fields),
        Kind::Halls => hall_row(alloc, place, fields),
        Kind::Openings => opening_row(place, fields),
        Kind::Candidates => candidate_row(alloc, place, fields),
        Kind::Entries => entry_row(place, fields),
        Kind::Arrangements => arrangement_row(place, fields),
    }
}

fn session_row(place: u32, fields: &ByteRecord) -> Result<Row, Refusal>
    ensures row { spec.GivesUnlessMemory result (spec.session_row place (fields_of fields.now)) }
    ensures kind { IfOk result (λ row. kind_of row ≡ Sessions) }
{
    let code = value_at(place, 1, SessionCode::parse(field(fields, 0)))?;
    let day = value_at(place, 2, SessionDay::parse(field(fields, 1)))?;
    let start = value_at(place, 3, StartTime::parse(field(fields, 2)))?;
    Ok(Row::OfSession(code, Session { day, start }))
}

fn paper_row(alloc: Global, place: u32, fields: &ByteRecord) -> Result<Row, Refusal>
    ensures row { spec.GivesUnlessMemory result (spec.paper_row place (fields_of fields.now)) }
    ensures kind { IfOk result (λ row. kind_of row ≡ Papers) }
{
    let code = value_at(place, 1, PaperCode::parse(field(fields, 0)))?;
    let title = value_at(place, 2, Name::parse(alloc, field(fields, 1))?)?;
    let session = value_at(place, 3, SessionCode::parse(field(fields, 2)))?;
    let minutes = value_at(place, 4, ExamMinutes::parse(field(fields, 3)))?;
    let required = value_at(place, 5, Features::parse(field(fields, 4)))?;
    Ok(Row::OfPaper(
        code,
        Paper {
            title,
            session,
            minutes,
            required,
        },
    ))
}

fn hall_row(alloc: Global, place: u32, fields: &ByteRecord) -> Result<Row, Refusal>
    ensures row { spec.GivesUnlessMemory result (spec.hall_row place (fields_of fields.now)) }
    ensures kind { IfOk result (λ row. kind_of row ≡ Halls) }
{
    let code = value_at(place, 1, HallCode::parse(field(fields, 0)))?;
    let title = value_at(place, 2, Name::parse(alloc, field(fields, 1))?)?;
    let features = value_at(place, 3, Features::parse(field(fields, 2)))?;
    Ok(Row::OfHall(code, Hall { title, features }))
}

fn opening_row(place: u32, fields: &ByteRecord) -> Result<Row, Refusal>
    ensures row { spec.GivesUnlessMemory result (spec.opening_row place (fields_of fields.now)) }
    ensures kind { IfOk result (λ row. kind_of row ≡ Openings) }
{
    let session = value_at(place, 1, SessionCode::parse(field(fields, 0)))?;
    let hall = value_at(place, 2, HallCode::parse(field(fields, 1)))?;
    let desks = value_at(place, 3, DeskCount::parse(field(fields, 2)))?;
    let until = value_at(place, 4, ClosingTime::parse(field(fields, 3)))?;
    let reserved = value_at(place, 5, flag_in(field(fields, 4)))?;
    Ok(Row::OfOpening(
        session,
        hall,
        Opening {
            desks,
            until,
            reserved,
        },
    ))
}

fn candidate_row(alloc: Global, place: u32, fields: &ByteRecord) -> Result<Row, Refusal>
    ensures row { spec.GivesUnlessMemory result (spec.candidate_row place (fields_of fields.now)) }
    ensures kind { IfOk result (λ row. kind_of row ≡ Candidates) }
{
    let number = value_at(place, 1, Number::parse(field(fields, 0)))?;
    let name = value_at(place, 2, Name::parse(alloc, field(fields, 1))?)?;
    let code = value_at(place, 3, AccessCode::parse(field(fields, 2)))?;
    Ok(Row::OfCandidate(number, Candidate { name, code }))
}

fn entry_row(place: u32, fields: &ByteRecord) -> Result<Row, Refusal>
    ensures row { spec.GivesUnlessMemory result (spec.entry_row place (fields_of fields.now)) }
    ensures kind { IfOk result (λ row. kind_of row ≡ Entries) }
{
    let number = value_at(place, 1, Number::parse(field(fields, 0)))?;
    let paper = value_at(place, 2, PaperCode::parse(field(fields, 1)))?;
    Ok(Row::OfEntry(number, paper))
}

fn arrangement_row(place: u32, fields: &ByteRecord) -> Result<Row, Refusal>
    ensures row { spec.GivesUnlessMemory result (spec.arrangement_row place (fields_of fields.now)) }
    ensures kind { IfOk result (λ row. kind_of row ≡ Arrangements) }
{
    let number = value_at(place, 1, Number::parse(field(fields, 0)))?;
    let needs = value_at(place, 2, Features::parse(field(fields, 1)))?;
    let extra = value_at(place, 3, Extra::parse(field(fields, 2)))?;
    Ok(Row::OfArrangement(number, Arrangement { needs, extra }))
}

/// The value of a column, or `BadRow` if its text is none.
fn value_at<T>(place: u32, column: u32, value: Option<T>) -> Result<T, Refusal>
    ensures { result ≡ spec.value_at place column value }
{
    match value {
        Some(value) => Ok(value),
        None => Err(Refusal::BadRow(place, column)),
    }
}

/// Reads `yes` or `no`.
fn flag_in(bytes: &[u8]) -> Option<bool>
    ensures { result ≡ spec.flag_in bytes.now }
{
    if bytes == b"yes".as_slice() {
        Some(true)
    } else if bytes == b"no".as_slice() {
        Some(false)
    } else {
        None
    }
}
