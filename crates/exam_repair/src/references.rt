//! What rows refer to.
ghost use Rattle.std.specs.Prelude.{◌≡◌, false};
ghost use Rattle.std.specs.Option.{option_map_or};
ghost use Rattle.exam_rules.specs.Relations.{appeal_cmp, relations_of, row_at};
ghost use Rattle.exam_commands.specs.Good as good;

use exam_rules::{Appeal, Facts, Status, Subject};
use exam_types::{Number, Reference};

/// Whether the session of each paper exists.
pub fn papers_refer(facts: &Facts) -> bool
    ensures { result ≡ good.papers_refer (relations_of facts.now) }
{
    facts
        .papers
        .iter()
        .all(|(_, paper)| facts.sessions.contains_key(&paper.session))
}

pub fn openings_refer(facts: &Facts) -> bool
    ensures { result ≡ good.openings_refer (relations_of facts.now) }
{
    facts.openings.iter().all(|(key, _)| {
        facts.sessions.contains_key(&key.0) && facts.halls.contains_key(&key.1)
    })
}

pub fn entries_refer(facts: &Facts) -> bool
    ensures { result ≡ good.entries_refer (relations_of facts.now) }
{
    facts.entries.iter().all(|(key, _)| {
        facts.candidates.contains_key(&key.0) && facts.papers.contains_key(&key.1)
    })
}

pub fn arrangements_refer(facts: &Facts) -> bool
    ensures { result ≡ good.arrangements_refer (relations_of facts.now) }
{
    facts
        .arrangements
        .iter()
        .all(|(number, _)| facts.candidates.contains_key(number))
}

pub fn appeals_refer(facts: &Facts) -> bool
    ensures { result ≡ good.appeals_refer (relations_of facts.now) }
{
    facts.appeals.iter().all(|(key, appeal)| {
        facts.candidates.contains_key(&key.0) && appeal_refers(facts, appeal)
    })
}

fn appeal_refers(facts: &Facts, appeal: &Appeal) -> bool
    ensures { result ≡ good.appeal_refers (relations_of facts.now) appeal.now }
{
    facts.sessions.contains_key(&appeal.session) && subject_refers(facts, &appeal.subject)
}

fn subject_refers(facts: &Facts, subject: &Subject) -> bool
    ensures { result ≡ good.subject_refers (relations_of facts.now) subject.now }
{
    match subject {
        Subject::Hall(hall) => facts.halls.contains_key(hall),
        Subject::Clash(paper) => facts.papers.contains_key(paper),
        Subject::Arrangement(_) => true,
    }
}

/// Whether the appeal of each mark exists and may bear it.
pub fn marks_were_granted(facts: &Facts) -> bool
    ensures { result ≡ good.marks_were_granted (relations_of facts.now) }
{
    facts.standing.iter().all(|(key, _)| is_borne(facts, key))
}

fn is_borne(facts: &Facts, key: &(Number, Reference)) -> bool
    ensures { result ≡ option_map_or good.may_bear (row_at appeal_cmp (relations_of facts.now).appeals key.now) false }
{
    match facts.appeals.get(key) {
        Some(appeal) => may_bear(appeal),
        None => false,
    }
}

/// Whether the appeal asks for an arrangement and was granted, even if it has been superseded since.
fn may_bear(appeal: &Appeal) -> bool
    ensures { result ≡ good.may_bear appeal.now }
{
    match appeal.subject {
        Subject::Arrangement(_) => was_granted(&appeal.status),
        Subject::Hall(_) | Subject::Clash(_) => false,
    }
}

fn was_granted(status: &Status) -> bool
    ensures { result ≡ good.was_granted status.now }
{
    matches!(status, Status::Granted(_) | Status::Superseded(_))
}
