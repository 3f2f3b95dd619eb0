//! The limits on the facts, by the table to which each belongs.
ghost use Rattle.std.specs.Prelude.{◌≡◌};
ghost use Rattle.exam_rules.specs.Relations.{relations_of};
ghost use Rattle.exam_rules.specs.Lists.{AreListsOf};
ghost use Rattle.exam_commands.specs.Limits as spec;

use exam_plan::MOST_MEMBERS;
use exam_rules::{Facts, SessionLists, Subject, has_at_most};

const MOST_SESSIONS: usize = 400;

const MOST_PAPERS: usize = 2_000;

const MOST_HALLS: usize = 500;
/// The most openings of a session.
const MOST_OPENINGS: usize = exam_plan::MOST_HALLS;

const MOST_CANDIDATES: usize = 20_000;
/// The most appeals of a candidate.
pub const MOST_APPEALS: usize = 64;

/// Whether the facts are within every limit. The lists are those of the facts.
pub fn is_within_limits(facts: &Facts, lists: &SessionLists) -> bool
    requires { AreListsOf (relations_of facts.now) lists.now }
    ensures { result ≡ spec.within_limits (relations_of facts.now) }
{
    are_sessions_within(facts)
        && are_papers_within(facts)
        && are_halls_within(facts)
        && are_openings_within(facts, lists)
        && are_candidates_within(facts)
        && are_members_within(facts, lists)
        && are_appeals_within(facts)
}

pub fn are_sessions_within(facts: &Facts) -> bool
    ensures { result ≡ spec.sessions_within (relations_of facts.now) }
{
    facts.sessions.len() <= MOST_SESSIONS
}

pub fn are_papers_within(facts: &Facts) -> bool
    ensures { result ≡ spec.papers_within (relations_of facts.now) }
{
    facts.papers.len() <= MOST_PAPERS
}

pub fn are_halls_within(facts: &Facts) -> bool
    ensures { result ≡ spec.halls_within (relations_of facts.now) }
{
    facts.halls.len() <= MOST_HALLS
}

/// Whether no session has too many openings.
pub fn are_openings_within(facts: &Facts, lists: &SessionLists) -> bool
    requires { AreListsOf (relations_of facts.now) lists.now }
    ensures { result ≡ spec.openings_within (relations_of facts.now) }
{
    are_openings_at_most(facts, lists, MOST_OPENINGS)
}

/// Whether no session has more openings than `most`.
fn are_openings_at_most(facts: &Facts, lists: &SessionLists, most: usize) -> bool
    requires { AreListsOf (relations_of facts.now) lists.now }
    ensures { result ≡ spec.openings_at_most most (relations_of facts.now) }
{
    facts
        .sessions
        .keys()
        .all(|session| lists.halls_of(session).len() <= most)
}

pub fn are_candidates_within(facts: &Facts) -> bool
    ensures { result ≡ spec.candidates_within (relations_of facts.now) }
{
    facts.candidates.len() <= MOST_CANDIDATES
}

/// Whether no session has too many members.
pub fn are_members_within(facts: &Facts, lists: &SessionLists) -> bool
    requires { AreListsOf (relations_of facts.now) lists.now }
    ensures { result ≡ spec.members_within (relations_of facts.now) }
{
    facts
        .sessions
        .keys()
        .all(|session| lists.member_count(session) <= MOST_MEMBERS)
}

/// Whether no candidate has too many appeals.
pub fn are_appeals_within(facts: &Facts) -> bool
    ensures { result ≡ spec.appeals_within (relations_of facts.now) }
{
    facts
        .candidates
        .keys()
        .all(|number| has_at_most(facts, *number, MOST_APPEALS))
}

/// Whether no session has more openings than `openings`, and no set of features a greater sum than `greatest_sum`.
pub fn holds_at_most(
    facts: &Facts,
    lists: &SessionLists,
    openings: usize,
    greatest_sum: u32,
) -> bool
    requires { AreListsOf (relations_of facts.now) lists.now }
    ensures { result ≡ spec.holds_at_most openings greatest_sum (relations_of facts.now) }
{
    are_openings_at_most(facts, lists, openings) && are_features_at_most(facts, greatest_sum)
}

/// Whether no set of features has a greater sum than `greatest`, in whichever table.
fn are_features_at_most(facts: &Facts, greatest: u32) -> bool
    ensures { result ≡ spec.features_at_most greatest (relations_of facts.now) }
{
    are_papers_at_most(facts, greatest)
        && are_halls_at_most(facts, greatest)
        && are_arrangements_at_most(facts, greatest)
        && are_appeals_at_most(facts, greatest)
}

fn are_papers_at_most(facts: &Facts, greatest: u32) -> bool
    ensures { result ≡ spec.papers_at_most greatest (relations_of facts.now) }
{
    facts
        .papers
        .iter()
        .all(|(_, paper)| paper.required.sum() <= greatest)
}

fn are_halls_at_most(facts: &Facts, greatest: u32) -> bool
    ensures { result ≡ spec.halls_at_most greatest (relations_of facts.now) }
{
    facts
        .halls
        .iter()
        .all(|(_, hall)| hall.features.sum() <= greatest)
}

fn are_arrangements_at_most(facts: &Facts, greatest: u32) -> bool
    ensures { result ≡ spec.arrangements_at_most greatest (relations_of facts.now) }
{
    facts
        .arrangements
        .iter()
        .all(|(_, wanted)| wanted.needs.sum() <= greatest)
}

fn are_appeals_at_most(facts: &Facts, greatest: u32) -> bool
    ensures { result ≡ spec.appeals_at_most greatest (relations_of facts.now) }
{
    facts
        .appeals
        .iter()
        .all(|(_, appeal)| are_needs_at_most(&appeal.subject, greatest))
}

/// Whether the needs that an appeal asks for, if any, have no greater sum.
fn are_needs_at_most(subject: &Subject, greatest: u32) -> bool
    ensures { result ≡ spec.needs_at_most greatest subject.now }
{
    match subject {
        Subject::Hall(_) | Subject::Clash(_) => true,
        Subject::Arrangement(wanted) => wanted.needs.sum() <= greatest,
    }
}
