//! Files that are imported into an office in memory, and sheets of its session S1, as texts that are played.
//!
//! In a text `$ ` begins an import or a sheet, and the lines below are the imported file. The answer to the import, or
//! the sheet, follows `> `, and the refusal follows `! `.
use super::sheets::write_sheet;
use super::slow::Slow;
use exam_files::{SheetFault, read_import};
use exam_office::{Command, Kind, Office, Reply, SessionView, step};
use exam_school::{PEOPLE, Step, TIMETABLE, expect_same};
use exam_types::{Day, Refusal, SessionCode};
use std::alloc::Global;
use std::str;
use std::test::Fail;

pub fn session() -> Option<SessionCode> {
    SessionCode::parse(b"S1")
}

/// The kind of a file, unless these are the words of a sheet.
fn kind_of(line: &str) -> Option<Kind> {
    match line {
        "import sessions f" => Some(Kind::Sessions),
        "import papers f" => Some(Kind::Papers),
        "import halls f" => Some(Kind::Halls),
        "import openings f" => Some(Kind::Openings),
        "import candidates f" => Some(Kind::Candidates),
        "import entries f" => Some(Kind::Entries),
        "import arrangements f" => Some(Kind::Arrangements),
        _ => None,
    }
}

/// The line for a refusal.
fn refused(alloc: Global, refusal: Refusal) -> Result<String, Fail> {
    Ok(match refusal {
        Refusal::BadRow(record, column) => {
            format!(in alloc; "! refused 1 record {record} column {column}\n")?
        }
        Refusal::RowConflict(record) => format!(in alloc; "! refused 3 record {record}\n")?,
        other => {
            let number = other.number();
            format!(in alloc; "! refused {number}\n")?
        }
    })
}

/// Takes a command on the last day but one before the session. A function of its own, since what `step` promises would be
/// carried through each branch behind it.
fn stepped(
    alloc: Global,
    office: &mut Office,
    command: &Command,
) -> Option<Result<Reply, Refusal>> {
    let today = Day::parse(b"2027-05-30")?;
    Some(step(alloc, office, command, today))
}

/// Takes a command, and returns the line for its answer.
pub fn taken(alloc: Global, office: &mut Office, command: &Command) -> Result<String, Fail> {
    match stepped(alloc, office, command).ok_or("day")? {
        Ok(
            Reply::Imported {
                added,
                changed,
                same,
            },
        ) => Ok(format!(in alloc; "> added {added} changed {changed} same {same}\n")?),
        Ok(_) => Ok(String::from_str(alloc, "> done\n")?),
        Err(refusal) => refused(alloc, refusal),
    }
}

/// Reads a file and imports its rows, and returns the line for the answer.
pub fn imported(
    alloc: Global,
    office: &mut Office,
    kind: Kind,
    file: &[u8],
) -> Result<String, Fail> {
    match read_import(alloc, kind, file) {
        Ok(import) => taken(alloc, office, &Command::Import(import)),
        Err(refusal) => refused(alloc, refusal),
    }
}

/// The view of the session.
pub fn view_of(alloc: Global, office: &Office) -> Result<SessionView, Fail> {
    Ok(office.session_view(alloc, &session().ok_or("session")?)?)
}

/// The sheet of these words, or the line for its refusal, which writes nothing.
fn sheet(alloc: Global, office: &Office, line: &str) -> Result<String, Fail> {
    let view = view_of(alloc, office)?;
    let mut out = Slow::new(alloc, 1000, 1000);
    let answer = write_sheet(alloc, &view, line, &mut out)?;
    let text = str::from_utf8(out.taken.as_slice())?;
    match answer {
        Err(SheetFault::Refused(refusal)) if text.is_empty() => refused(alloc, refusal),
        Ok(()) => Ok(format!(in alloc; "> {text}")?),
        Err(_) => Ok(format!(in alloc; "? {text}")?),
    }
}

/// Imports a file or writes a sheet.
fn answer_to(alloc: Global, office: &mut Office, line: &str, file: &str) -> Result<String, Fail> {
    match kind_of(line) {
        Some(kind) => imported(alloc, office, kind, file.as_bytes()),
        None => sheet(alloc, office, line),
    }
}

/// Plays a text at the office, and compares the answers with it.
pub fn played(alloc: Global, office: &mut Office, text: &str) -> Result<(), Fail> {
    for part in text.split("$ ").skip(1) {
        let step = Step::parse(part).ok_or("step")?;
        let answer = answer_to(alloc, office, step.line, step.file)?;
        expect_same(answer.as_str(), step.answer, step.line)?;
    }
    Ok(())
}

/// An office without rows. A function of its own, since what `Office::empty` promises would be carried through each
/// branch behind it.
pub fn empty(alloc: Global) -> Office {
    Office::empty(alloc)
}

/// The school with its halls opened.
pub fn school(alloc: Global) -> Result<Office, Fail> {
    let mut office = empty(alloc);
    played(alloc, &mut office, TIMETABLE)?;
    played(alloc, &mut office, PEOPLE)?;
    Ok(office)
}

/// Plays a text at the school.
pub fn play(alloc: Global, text: &str) -> Result<(), Fail> {
    played(alloc, &mut school(alloc)?, text)
}
