//! The school with further facts.
use crate::rows::{
    appeal_key, arrangement_of, candidate_of, entry_of, hall_of, opening_of, paper_of, session_of,
    subject_of,
};
use crate::school::SCHOOL;
use crate::words::Words;
use exam_rules::{Appeal, Entry, Facts, Status};
use exam_types::{Day, HallCode, Number, Reason, Reference, SessionCode};
use std::alloc::Global;
use std::collections::BTreeMap;
use std::test::Fail;

/// The facts, and the hall in which each seated candidate sits in each session.
#[derive(Drop)]
pub struct School {
    pub facts: Facts,
    pub seats: BTreeMap<(SessionCode, Number), HallCode>,
}

fn put<K: Ord + Drop, V: Drop>(map: &mut BTreeMap<K, V>, (key, row): (K, V)) -> Result<(), Fail> {
    drop(map.insert(key, row)?);
    Ok(())
}

fn reason(alloc: Global, text: &[u8]) -> Result<Reason, Fail> {
    Ok(Reason::parse(alloc, text)?.ok_or("reason")?)
}

fn status_of(alloc: Global, word: &str) -> Result<Status, Fail> {
    match word {
        "lodged" => Ok(Status::Pending),
        "granted" => Ok(Status::Granted(reason(alloc, b"ok")?)),
        "superseded" => Ok(Status::Superseded(reason(alloc, b"ok")?)),
        _ => Err(Fail::new("no fact")),
    }
}

fn appeal_of(
    alloc: Global,
    status: &str,
    words: &mut Words<'_>,
) -> Result<((Number, Reference), Appeal), Fail> {
    let key = appeal_key(words)?;
    let session = words.session()?;
    let subject = subject_of(words)?;
    let lodged = Day::parse(b"2027-05-20").ok_or("day")?;
    let reason = reason(alloc, b"")?;
    let status = status_of(alloc, status)?;
    let appeal = Appeal {
        session,
        subject,
        reason,
        status,
        lodged,
    };
    Ok((key, appeal))
}

fn seat_of(words: &mut Words<'_>) -> Result<((SessionCode, Number), HallCode), Fail> {
    let session = words.session()?;
    let number = words.number()?;
    Ok(((session, number), words.hall()?))
}

/// Adds the fact of a line.
pub fn add_fact(alloc: Global, school: &mut School, line: &str) -> Result<(), Fail> {
    let facts = &mut school.facts;
    let mut words = Words::of(line);
    match words.next() {
        "session" => put(&mut facts.sessions, session_of(&mut words)?),
        "paper" => put(&mut facts.papers, paper_of(alloc, &mut words)?),
        "hall" => put(&mut facts.halls, hall_of(alloc, &mut words)?),
        "opening" => put(&mut facts.openings, opening_of(&mut words)?),
        "candidate" => put(&mut facts.candidates, candidate_of(alloc, &mut words)?),
        "arrangement" => put(&mut facts.arrangements, arrangement_of(&mut words)?),
        "entry" => put(
            &mut facts.entries,
            (entry_of(&mut words)?, Entry { live: true }),
        ),
        "withdrawn" => put(
            &mut facts.entries,
            (entry_of(&mut words)?, Entry { live: false }),
        ),
        "standing" => put(&mut facts.standing, (appeal_key(&mut words)?, ())),
        "seat" => put(&mut school.seats, seat_of(&mut words)?),
        status => put(&mut facts.appeals, appeal_of(alloc, status, &mut words)?),
    }
}

/// Adds a fact for each number, which takes the place of `*`.
fn add_each(alloc: Global, school: &mut School, first: &str, rest: &str) -> Result<(), Fail> {
    let (end, fact) = rest.split_once(' ').ok_or("range")?;
    let (before, after) = fact.split_once('*').ok_or("range")?;
    let first: u32 = first.parse()?;
    for value in first..end.parse()? {
        let line = format!(in alloc; "{before}{value}{after}")?;
        add_fact(alloc, school, line.as_str())?;
    }
    Ok(())
}

/// Adds the facts of a line; a question adds none.
fn add_line(alloc: Global, school: &mut School, line: &str) -> Result<(), Fail> {
    if line.contains(" > ") {
        return Ok(());
    }
    match line.split_once("..") {
        Some((first, rest)) => add_each(alloc, school, first, rest),
        None => add_fact(alloc, school, line),
    }
}

fn add_all(alloc: Global, school: &mut School, text: &str) -> Result<(), Fail> {
    for line in text.lines() {
        add_line(alloc, school, line)?;
    }
    Ok(())
}

fn add_texts(alloc: Global, school: &mut School, texts: &[&str]) -> Result<(), Fail> {
    for text in texts {
        add_all(alloc, school, text)?;
    }
    Ok(())
}

/// The school and these facts. Without them nobody is entered, and no hall is opened.
pub fn school_with(alloc: Global, texts: &[&str]) -> Result<School, Fail> {
    let mut school = School {
        facts: Facts::new(alloc),
        seats: BTreeMap::new(alloc),
    };
    add_all(alloc, &mut school, SCHOOL)?;
    add_texts(alloc, &mut school, texts)?;
    Ok(school)
}
