//! Kinds and states of appeals.
ghost use Rattle.std.specs.Prelude.{◌≡◌, ◌≤◌, ◌&&◌};
ghost use Rattle.exam_rules.specs.Relations.{relations_of, same_code};
ghost use Rattle.exam_commands.specs.Appeals as spec;

use crate::command::AppealState;
use exam_rules::{Appeal, Facts, Status, Subject, appeals_of};
use exam_types::{Number, Reference, SessionCode};

/// Whether both are against a hall, both on a clash, or both for an arrangement.
pub fn is_same_kind(subject: &Subject, other: &Subject) -> bool
    ensures { result ≡ spec.same_kind subject.now other.now }
{
    match (subject, other) {
        (Subject::Hall(_), Subject::Hall(_)) => true,
        (Subject::Clash(_), Subject::Clash(_)) => true,
        (Subject::Arrangement(_), Subject::Arrangement(_)) => true,
        _ => false,
    }
}

/// Whether both are of one kind and name the same hall, the same paper, or the same needs and extra time.
pub fn is_same_subject(subject: &Subject, other: &Subject) -> bool
    ensures { result ≡ spec.same_subject subject.now other.now }
{
    match (subject, other) {
        (Subject::Hall(hall), Subject::Hall(named)) => *hall == *named,
        (Subject::Clash(paper), Subject::Clash(named)) => *paper == *named,
        (Subject::Arrangement(asked), Subject::Arrangement(named)) => *asked == *named,
        _ => false,
    }
}

/// How many days the last day to lodge is before the session's date: two for a hall, five for a clash, ten for an
/// arrangement.
pub fn notice_days(subject: &Subject) -> u16
    ensures value { result ≡ spec.notice_days subject.now }
    ensures most { result ≤ 10 }
{
    match subject {
        Subject::Hall(_) => 2,
        Subject::Clash(_) => 5,
        Subject::Arrangement(_) => 10,
    }
}

pub fn is_open(status: &Status) -> bool
    ensures { result ≡ spec.is_open status.now }
{
    matches!(status, Status::Pending)
}

pub fn state_of(status: &Status) -> AppealState
    ensures { result ≡ spec.state_of status.now }
{
    match status {
        Status::Pending => AppealState::Pending,
        Status::Granted(_) => AppealState::Granted,
        Status::Refused(_) => AppealState::Refused,
        Status::Retracted => AppealState::Retracted,
        Status::Superseded(_) => AppealState::Superseded,
    }
}

/// The state of the candidate's appeal with the reference, or pending if there is none.
pub fn stored_state(facts: &Facts, number: Number, reference: Reference) -> AppealState
    ensures { result ≡ spec.stored_state (relations_of facts.now) number reference }
{
    match facts.appeals.get(&(number, reference)) {
        Some(appeal) => state_of(&appeal.status),
        None => AppealState::Pending,
    }
}

/// Whether the candidate has an open appeal for the session, of the same kind.
pub fn has_open_appeal(
    facts: &Facts,
    number: Number,
    session: &SessionCode,
    subject: &Subject,
) -> bool
    ensures { result ≡ spec.has_open_appeal (relations_of facts.now) number session.now subject.now }
{
    for (_, appeal) in appeals_of(facts, number) {
        if is_open_for(session, subject, appeal) {
            return true;
        }
    }
    false
}

/// Whether the appeal is open, is for the session, and is of the same kind.
fn is_open_for(session: &SessionCode, subject: &Subject, appeal: &Appeal) -> bool
    ensures { result ≡ (same_code appeal.now.session session.now
        && (spec.same_kind appeal.now.subject subject.now && spec.is_open appeal.now.status)) }
{
    appeal.session == *session && is_same_kind(&appeal.subject, subject) && is_open(&appeal.status)
}
