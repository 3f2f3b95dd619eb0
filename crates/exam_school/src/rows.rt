//! Rows with their keys, as the words of a line say them.
use crate::words::Words;
use exam_rules::{Arrangement, Candidate, Hall, Opening, Paper, Session, Subject};
use exam_types::{
    AccessCode, ClosingTime, DeskCount, ExamMinutes, Extra, HallCode, Name, Number, PaperCode,
    Reference, SessionCode, SessionDay, StartTime,
};
use std::alloc::Global;
use std::test::Fail;

fn name(alloc: Global, text: &[u8]) -> Result<Name, Fail> {
    Ok(Name::parse(alloc, text)?.ok_or("name")?)
}

pub fn session_of(words: &mut Words<'_>) -> Result<(SessionCode, Session), Fail> {
    let code = words.session()?;
    let day = SessionDay::parse(words.next().as_bytes()).ok_or("day")?;
    let start = StartTime::parse(b"09:00").ok_or("start")?;
    Ok((code, Session { day, start }))
}

pub fn paper_of(alloc: Global, words: &mut Words<'_>) -> Result<(PaperCode, Paper), Fail> {
    let code = words.paper()?;
    let session = words.session()?;
    let minutes = ExamMinutes::parse(words.next().as_bytes()).ok_or("minutes")?;
    let required = words.features()?;
    let title = name(alloc, b"Maths")?;
    Ok((
        code,
        Paper {
            title,
            session,
            minutes,
            required,
        },
    ))
}

pub fn hall_of(alloc: Global, words: &mut Words<'_>) -> Result<(HallCode, Hall), Fail> {
    let code = words.hall()?;
    let features = words.features()?;
    let title = name(alloc, b"Hall")?;
    Ok((code, Hall { title, features }))
}

pub fn opening_of(words: &mut Words<'_>) -> Result<((SessionCode, HallCode), Opening), Fail> {
    let session = words.session()?;
    let hall = words.hall()?;
    let desks = DeskCount::parse(words.next().as_bytes()).ok_or("desks")?;
    let until = ClosingTime::parse(words.next().as_bytes()).ok_or("until")?;
    let opening = Opening {
        desks,
        until,
        reserved: false,
    };
    Ok(((session, hall), opening))
}

pub fn candidate_of(alloc: Global, words: &mut Words<'_>) -> Result<(Number, Candidate), Fail> {
    let number = words.number()?;
    let code = AccessCode::parse(b"CODE0001").ok_or("code")?;
    let name = name(alloc, b"Bo Berg")?;
    Ok((number, Candidate { name, code }))
}

/// The key of an entry.
pub fn entry_of(words: &mut Words<'_>) -> Result<(Number, PaperCode), Fail> {
    let number = words.number()?;
    Ok((number, words.paper()?))
}

/// The needs and the extra time.
fn terms_of(words: &mut Words<'_>) -> Result<Arrangement, Fail> {
    let needs = words.features()?;
    let extra = Extra::parse(words.next().as_bytes()).ok_or("extra")?;
    Ok(Arrangement { needs, extra })
}

pub fn arrangement_of(words: &mut Words<'_>) -> Result<(Number, Arrangement), Fail> {
    let number = words.number()?;
    Ok((number, terms_of(words)?))
}

pub fn appeal_key(words: &mut Words<'_>) -> Result<(Number, Reference), Fail> {
    let number = words.number()?;
    Ok((number, words.reference()?))
}

/// What an appeal asks for, or grants.
pub fn subject_of(words: &mut Words<'_>) -> Result<Subject, Fail> {
    match words.next() {
        "hall" => Ok(Subject::Hall(words.hall()?)),
        "clash" => Ok(Subject::Clash(words.paper()?)),
        _ => Ok(Subject::Arrangement(terms_of(words)?)),
    }
}
