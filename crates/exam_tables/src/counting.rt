//! The appeals of a session in the facts: how many there are, and the first from a key on.
ghost use Rattle.std.specs.Prelude.{◌≡◌, if◌then◌else◌, [], ◌∷◌, length, MatchOption};
ghost use Rattle.std.specs.List.{AllByRecursion};
ghost use Rattle.std.specs.declared.ops.Bound.TheVariants.{Excluded};
ghost use Rattle.exam_rules.specs.Relations.{relations_of, same_code};
ghost use Rattle.exam_tables.specs.Rows.{IsAppeal};
ghost use Rattle.exam_tables.specs.Stored.{IsStatus, IsSubject};
ghost use Rattle.exam_tables.specs.Appeals as spec;

use exam_rules::{Appeal, Facts, Status, Subject};
use exam_types::{Number, Reference, SessionCode};
use std::ops::Bound;

/// How many appeals there are for the session. Every appeal has the forms of its columns.
pub fn count_appeals(facts: &Facts, session: &SessionCode) -> usize
    ensures many { result ≡ length (spec.appeals_in (relations_of facts.now).appeals session.now) }
    ensures forms { AllByRecursion (λ (a : spec.KeyedAppeal). IsAppeal a.0 a.1)
        (relations_of facts.now).appeals }
{
    // The contract of `len` says that the count fits.
    let _most = facts.appeals.len();
    let mut count = 0;
    'appeals: for (key, appeal) in &facts.appeals {
        show_form(key, appeal);
        count += counted(appeal, session);
    }
    count
}

/// The session's first appeal with a key from `from` on, or none. Keys are in the order of numbers, and those of one
/// candidate in the order of references.
pub fn first_appeal<'a>(
    facts: &'a Facts,
    session: &SessionCode,
    from: Bound<(Number, Reference)>,
) -> Option<(&'a (Number, Reference), &'a Appeal)>
    ensures { MatchOption result (spec.appeals_from (relations_of facts.now).appeals session.now from ≡ [])
        (λ it. spec.appeals_from (relations_of facts.now).appeals session.now from ≡ (it.0.now, it.1.now)
        ∷ spec.appeals_from (relations_of facts.now).appeals session.now (Excluded it.0.now)) }
{
    'appeals: for (key, appeal) in facts.appeals.range((from, Bound::Unbounded)) {
        if appeal.session == *session {
            return Some((key, appeal));
        }
    }
    None
}

/// 1 if the appeal is for the session, otherwise 0.
fn counted(appeal: &Appeal, session: &SessionCode) -> usize
    ensures { result ≡ (if same_code appeal.now.session session.now then 1 else 0) }
{
    if appeal.session == *session { 1 } else { 0 }
}

/// An appeal has the forms of its columns. Does nothing at run time.
pub(crate) fn show_form(key: &(Number, Reference), appeal: &Appeal)
    ensures { IsAppeal key.now appeal.now }
{
    // The contract of each call says that the part has its form.
    let _number = key.0.get();
    let _reference = key.1.as_bytes();
    let _session = appeal.session.as_bytes();
    show_subject(&appeal.subject);
    let _reason = appeal.reason.as_str();
    show_status(&appeal.status);
    let _lodged = appeal.lodged.number();
}

fn show_subject(subject: &Subject)
    ensures { IsSubject subject.now }
{
    match subject {
        Subject::Hall(hall) => {
            let _hall = hall.as_bytes();
        }
        Subject::Clash(paper) => {
            let _paper = paper.as_bytes();
        }
        Subject::Arrangement(wanted) => {
            let _extra = wanted.extra.get();
        }
    }
}

fn show_status(status: &Status)
    ensures { IsStatus status.now }
{
    match status {
        Status::Granted(answer) | Status::Refused(answer) | Status::Superseded(answer) => {
            let _answer = answer.as_str();
        }
        Status::Pending | Status::Retracted => {}
    }
}
