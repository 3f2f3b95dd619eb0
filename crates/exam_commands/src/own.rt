//! What the office shows of one candidate.
use exam_rules::{Appeal, Arrangement};
use exam_types::{
    AccessCode, HallCode, Minute, Name, Number, PaperCode, Reference, SessionCode, SessionDay,
    StartTime,
};

/// What the office shows of one candidate.
#[derive(Drop)]
pub struct Own {
    pub number: Number,
    pub name: Name,
    pub code: AccessCode,
    /// The candidate's sessions, by code.
    pub sessions: Vec<OwnSession>,
    /// The candidate's appeals, by reference.
    pub appeals: Vec<OwnAppeal>,
}

/// An appeal of the candidate.
#[derive(Drop)]
pub struct OwnAppeal {
    pub reference: Reference,
    pub appeal: Appeal,
    /// Whether it bears the mark of a standing grant. A superseded appeal keeps the mark, without effect.
    pub standing: bool,
}

/// A session that the candidate is a member of.
#[derive(Drop)]
pub struct OwnSession {
    pub session: SessionCode,
    pub day: SessionDay,
    pub start: StartTime,
    /// The candidate's live papers in the session, by code.
    pub papers: Vec<PaperCode>,
    /// The paper that the candidate sits.
    pub sitting: PaperCode,
    /// The live papers that the candidate does not sit, by code.
    pub clashes: Vec<PaperCode>,
    /// The arrangement in force.
    pub arrangement: Arrangement,
    pub finish: Minute,
    /// None if the candidate is not seated.
    pub hall: Option<HallCode>,
    /// The desk number in the hall, from 1; none if the candidate is not seated.
    pub desk: Option<u32>,
}
