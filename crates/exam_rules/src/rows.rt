//! The rows of the facts. The key of a row is the key of its map in `Facts`.

use exam_types::{
    AccessCode, ClosingTime, Day, DeskCount, ExamMinutes, Extra, Features, HallCode, Name,
    PaperCode, Reason, SessionCode, SessionDay, StartTime,
};

/// When a session is held.
#[derive(Clone, Copy, PartialEq, Eq)]
pub struct Session {
    pub day: SessionDay,
    pub start: StartTime,
}

/// A paper belongs to one session.
#[derive(Clone, PartialEq, Eq, Drop)]
pub struct Paper {
    pub title: Name,
    pub session: SessionCode,
    pub minutes: ExamMinutes,
    /// What a hall needs for this paper.
    pub required: Features,
}

#[derive(Clone, PartialEq, Eq, Drop)]
pub struct Hall {
    pub title: Name,
    pub features: Features,
}

/// A hall opened for a session.
#[derive(Clone, Copy, PartialEq, Eq)]
pub struct Opening {
    pub desks: DeskCount,
    pub until: ClosingTime,
    /// Whether it is only for candidates with needs or extra time.
    pub reserved: bool,
}

#[derive(Clone, PartialEq, Eq, Drop)]
pub struct Candidate {
    pub name: Name,
    pub code: AccessCode,
}

/// A candidate's entry for a paper, live or withdrawn.
#[derive(Clone, Copy, PartialEq, Eq)]
pub struct Entry {
    pub live: bool,
}

/// What a candidate needs of a hall, and their extra time.
#[derive(Clone, Copy, PartialEq, Eq)]
pub struct Arrangement {
    pub needs: Features,
    pub extra: Extra,
}

/// What an appeal asks for: another hall than this one, to sit this paper, or these needs and extra time.
#[derive(Clone, Copy, PartialEq, Eq)]
pub enum Subject {
    Hall(HallCode),
    Clash(PaperCode),
    Arrangement(Arrangement),
}

/// The state of an appeal, with the reason of its decision once it is decided; a superseded grant keeps its reason.
/// `Pending` is printed `open`.
#[derive(Clone, PartialEq, Eq, Drop)]
pub enum Status {
    Pending,
    Granted(Reason),
    Refused(Reason),
    Retracted,
    Superseded(Reason),
}

#[derive(Clone, PartialEq, Eq, Drop)]
pub struct Appeal {
    pub session: SessionCode,
    pub subject: Subject,
    /// Why the candidate lodged it. The reason of its decision is in the status.
    pub reason: Reason,
    pub status: Status,
    /// The day on which it was lodged.
    pub lodged: Day,
}
