//! Commands and replies.
use crate::import::Import;
use exam_rules::Subject;
use exam_types::{HallCode, Number, PaperCode, Reason, Reference, SessionCode};
use std::{fmt, str};

/// A command to the office.
#[derive(Drop)]
pub enum Command {
    /// Adds a row with a new key, and replaces the row of a present key. An entry that exists stays as it is, live or
    /// withdrawn.
    Import(Import),
    /// Withdraws the candidate's entry for the paper.
    Withdraw(Number, PaperCode),
    /// Makes the candidate's withdrawn entry for the paper live again.
    Reinstate(Number, PaperCode),
    /// Closes the hall for the session: takes its opening away.
    CloseHall(SessionCode, HallCode),
    /// Lodges an appeal.
    Lodge(Lodging),
    /// Takes back the candidate's open appeal with the reference.
    Retract(Number, Reference),
    /// Decides an appeal.
    Decide(Decision),
}

/// An appeal that a candidate lodges for a session, under a reference of their own.
#[derive(Drop)]
pub struct Lodging {
    pub number: Number,
    pub reference: Reference,
    pub session: SessionCode,
    pub subject: Subject,
    pub reason: Reason,
}

/// The office's decision of an appeal, with its answer to the candidate.
#[derive(Drop)]
pub struct Decision {
    pub number: Number,
    pub reference: Reference,
    pub outcome: Outcome,
    pub answer: Reason,
}

#[derive(Clone, Copy, Debug, PartialEq, Eq)]
pub enum Outcome {
    /// Grants the appeal, for its session alone.
    Grant,
    /// Grants an arrangement for later sessions too.
    Standing,
    Refuse,
}

/// The state of an appeal, without the reason of its decision. `Pending` is printed `open`.
#[derive(Clone, Copy, Debug, PartialEq, Eq)]
pub enum AppealState {
    Pending,
    Granted,
    Refused,
    Retracted,
    Superseded,
}

/// What an accepted command answers.
#[derive(Clone, Copy, PartialEq, Eq)]
pub enum Reply {
    /// How many distinct keys of the file were new, had another row, and had the same row.
    Imported {
        added: u32,
        changed: u32,
        same: u32,
    },
    Withdrawn,
    Reinstated,
    Closed,
    /// The state of the appeal; pending if it is new.
    Lodged(AppealState),
    Retracted,
    /// The state of the appeal, the appellant's hall in its session if they sit in it, and how many others sat in a
    /// session before and now sit in another hall, over all sessions. One who moves in two sessions counts twice.
    Decided {
        state: AppealState,
        seat: Option<HallCode>,
        moved: usize,
    },
    /// The appeal already has this decision.
    Unchanged,
}

impl fmt::Debug for Reply {
    fn fmt<W: fmt::Write>(&self, f: &mut fmt::Formatter<W>) -> fmt::Result {
        match self {
            Reply::Imported {
                added,
                changed,
                same,
            } => write!(f, "Imported {added} {changed} {same}"),
            Reply::Withdrawn => write!(f, "Withdrawn"),
            Reply::Reinstated => write!(f, "Reinstated"),
            Reply::Closed => write!(f, "Closed"),
            Reply::Lodged(state) => write!(f, "Lodged {state:?}"),
            Reply::Retracted => write!(f, "Retracted"),
            Reply::Decided { state, seat, moved } => {
                write!(f, "Decided {state:?} {} {moved}", hall_text(seat))
            }
            Reply::Unchanged => write!(f, "Unchanged"),
        }
    }
}

/// The hall's code, or `-`.
fn hall_text(hall: &Option<HallCode>) -> &str {
    match hall {
        Some(code) => str::from_utf8(code.as_bytes()).unwrap_or("-"),
        None => "-",
    }
}
