//! The own rows of a candidate.
use exam_commands::{Own, OwnAppeal, OwnSession};
use exam_rules::{Appeal, Arrangement, Status, Subject};
use exam_types::{
    AccessCode, Day, Extra, Features, HallCode, Minute, Name, Number, PaperCode, Reason, Reference,
    SessionCode, SessionDay, StartTime,
};
use std::alloc::Global;
use std::test::Fail;

/// The candidate 0000001 sits in hall A at this desk or nowhere, has a clash, and has appealed against hall B
/// for this reason.
pub fn own_rows(alloc: Global, desk: Option<u32>, reason: &str) -> Result<Own, Fail> {
    let mut sessions = Vec::new(alloc);
    sessions.push(own_session(alloc, desk)?)?;
    let mut appeals = Vec::new(alloc);
    appeals.push(own_appeal(b"HA1", open_appeal(alloc, reason)?)?)?;
    Ok(Own {
        number: Number::new(1).ok_or("number")?,
        name: Name::parse(alloc, b"Bo Berg")?.ok_or("name")?,
        code: AccessCode::parse(b"CODE0001").ok_or("code")?,
        sessions,
        appeals,
    })
}

pub fn reference(code: &[u8]) -> Result<Reference, Fail> {
    Ok(Reference::parse(code).ok_or("reference")?)
}

fn session() -> Result<SessionCode, Fail> {
    Ok(SessionCode::parse(b"S1").ok_or("session")?)
}

fn paper(code: &[u8]) -> Result<PaperCode, Fail> {
    Ok(PaperCode::parse(code).ok_or("paper")?)
}

fn own_session(alloc: Global, desk: Option<u32>) -> Result<OwnSession, Fail> {
    Ok(OwnSession {
        session: session()?,
        day: SessionDay::parse(b"2027-06-01").ok_or("day")?,
        start: StartTime::parse(b"09:00").ok_or("start")?,
        papers: Vec::from_slice(alloc, &[paper(b"MA-1")?, paper(b"PH-2")?])?,
        sitting: paper(b"MA-1")?,
        clashes: Vec::from_slice(alloc, &[paper(b"PH-2")?])?,
        arrangement: Arrangement {
            needs: Features::none(),
            extra: Extra::new(0).ok_or("extra")?,
        },
        finish: Minute::parse(b"10:00").ok_or("finish")?,
        hall: if desk.is_some() {
            HallCode::parse(b"A")
        } else {
            None
        },
        desk,
    })
}

fn open_appeal(alloc: Global, reason: &str) -> Result<Appeal, Fail> {
    appeal(alloc, against_b()?, reason, Status::Pending)
}

fn against_b() -> Result<Subject, Fail> {
    Ok(Subject::Hall(HallCode::parse(b"B").ok_or("hall")?))
}

fn appeal(alloc: Global, subject: Subject, reason: &str, status: Status) -> Result<Appeal, Fail> {
    Ok(Appeal {
        session: session()?,
        subject,
        reason: words(alloc, reason.as_bytes())?,
        status,
        lodged: Day::parse(b"2027-05-30").ok_or("day")?,
    })
}

/// An appeal under its reference, without the mark of a standing grant.
fn own_appeal(code: &[u8], appeal: Appeal) -> Result<OwnAppeal, Fail> {
    Ok(OwnAppeal {
        reference: reference(code)?,
        appeal,
        standing: false,
    })
}

fn words(alloc: Global, text: &[u8]) -> Result<Reason, Fail> {
    Ok(Reason::parse(alloc, text)?.ok_or("reason")?)
}

/// The candidate of `own_rows` with three appeals, none open.
pub fn decided_rows(alloc: Global) -> Result<Own, Fail> {
    let mut own = own_rows(alloc, None, "")?;
    own.appeals = Vec::new(alloc);
    own.appeals.push(superseded(alloc)?)?;
    own.appeals.push(retracted(alloc)?)?;
    own.appeals.push(refused(alloc)?)?;
    Ok(own)
}

/// An appeal for an arrangement, once granted for later sessions too.
fn superseded(alloc: Global) -> Result<OwnAppeal, Fail> {
    let asked = Arrangement {
        needs: Features::parse(b"screen").ok_or("needs")?,
        extra: Extra::new(25).ok_or("extra")?,
    };
    let yes = Status::Superseded(words(alloc, b"yes")?);
    let appeal = appeal(alloc, Subject::Arrangement(asked), "a", yes)?;
    Ok(OwnAppeal {
        standing: true,
        ..own_appeal(b"AR1", appeal)?
    })
}

/// An appeal for a paper.
fn retracted(alloc: Global) -> Result<OwnAppeal, Fail> {
    let clash = Subject::Clash(paper(b"PH-2")?);
    own_appeal(b"CA1", appeal(alloc, clash, "c", Status::Retracted)?)
}

/// An appeal against a hall.
fn refused(alloc: Global) -> Result<OwnAppeal, Fail> {
    let no = Status::Refused(words(alloc, b"no")?);
    own_appeal(b"HA1", appeal(alloc, against_b()?, "h", no)?)
}
