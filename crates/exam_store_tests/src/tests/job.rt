//! Short days at a small office, through all layers over a database in memory, as texts that are played.
mod appeals;
mod bare;
mod closing;
mod imports;
mod kept_rows;
mod line_faults;
mod outputs;
mod seating;
mod standing;
mod theorem;

use crate::tests::offices::{InMemory, empty_office};
use exam_school::{PEOPLE, TIMETABLE};
use exam_scripts::played;
use sqlite::Connection;
use std::alloc::Global;
use std::test::Fail;

/// Plays a text. It is dear to prove, as each call that takes a connection in memory for one of any kind.
fn played_in_memory(alloc: Global, conn: InMemory, text: &str) -> (InMemory, Result<(), Fail>) {
    played(alloc, conn, text)
}

/// Plays a text at a database in memory that holds nothing.
fn play_at_nothing(alloc: Global, text: &str) -> Result<(), Fail> {
    let conn = Connection::open_in_memory(alloc)?;
    let (conn, compared) = played_in_memory(alloc, conn, text);
    drop(conn);
    compared
}

/// The texts of these days as one, behind that of the base office: the school with its halls opened.
fn text_of(alloc: Global, days: &[&str]) -> Result<String, Fail> {
    let mut text = String::from_str(alloc, TIMETABLE)?;
    text.push_str(PEOPLE)?;
    for day in days {
        text.push_str(day)?;
    }
    Ok(text)
}

/// The office in memory after the base day and these.
fn office_after(alloc: Global, days: &[&str]) -> Result<InMemory, Fail> {
    let text = text_of(alloc, days)?;
    let conn = empty_office(alloc)?;
    let (conn, compared) = played_in_memory(alloc, conn, text.as_str());
    compared?;
    Ok(conn)
}

/// Plays days in turn at the base office.
fn play(rt: &HostRuntime, days: &[&str]) -> Result<(), Fail> {
    drop(office_after(rt.alloc(), days)?);
    Ok(())
}

/// What days show, and their texts.
type Days<'a> = &'a [(&'a str, &'a [&'a str])];

/// Plays each of these at a base office of its own. Tells what the first one shows that does not go as its texts say.
fn play_each(rt: &HostRuntime, each: Days<'_>) -> Result<(), Fail> {
    for (shows, days) in each {
        if let Err(fail) = play(rt, days) {
            let _ = eprintln!(rt; "{shows}");
            return Err(fail);
        }
    }
    Ok(())
}
