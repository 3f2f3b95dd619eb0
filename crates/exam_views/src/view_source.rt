//! How a view of a session is made.
ghost use Rattle.std.specs.Prelude.{◌≡◌, Some, Contains, IsTrue, IfOk, OnOk, map};
ghost use Rattle.std.specs.Map.{keys_of};
ghost use Rattle.exam_types.specs.Refusals.{OnlyMemory};
ghost use Rattle.exam_rules.specs.Lists as listing;
ghost use Rattle.exam_rules.specs.Lists.{AreListsOf};
ghost use Rattle.exam_rules.specs.Names.{ListsRise};
ghost use Rattle.exam_rules.specs.Relations.{relations_of, code_cmp, has_row, row_at};
ghost use Rattle.exam_rules.specs.Seatings as seatings;
ghost use Rattle.exam_rules.specs.Sessions as sessions;
ghost use Rattle.exam_commands.specs.Good.{IsGood};
ghost use Rattle.exam_commands.specs.Limits.{within_limits};
ghost use Rattle.exam_commands.specs.State.{office_of};
ghost use Rattle.exam_views.specs.Views as views;

use crate::view::{AppealRow, Clash, Member, SessionView};
use exam_commands::state_of;
use exam_rules::{
    Appeal, Entrant, Facts, ListedProblem, Opening, Seats, Session, SessionLists, clashes_among,
    finish_by_entries, indexed_problem, sitting_among, sitting_by_entries, stored_plan,
};
use exam_types::{HallCode, Number, PaperCode, Reference, Refusal, SessionCode};
use std::alloc::Global;

/// The view of a session of a good office.
pub fn view_of(
    alloc: Global,
    facts: &Facts,
    lists: &SessionLists,
    seats: &Seats,
    session: &SessionCode,
    row: &Session,
) -> Result<SessionView, Refusal>
    requires lists { AreListsOf (relations_of facts.now) lists.now }
    requires good { IsGood (office_of facts.now seats.now) }
    requires known { row_at code_cmp facts.now.sessions.entries session.now ≡ Some row.now }
    ensures ok { IfOk result (views.IsViewOf (office_of facts.now seats.now) session.now) }
    ensures memory { OnlyMemory result }
{
    let listed = listed(alloc, facts, lists, session)?;
    let plan = stored_plan(alloc, &listed.numbers, &listed.halls, session, seats)?;
    Ok(SessionView {
        code: *session,
        session: *row,
        hall_codes: hall_codes(alloc, facts)?,
        openings: openings_of(alloc, facts, session)?,
        members: members_of(
            alloc,
            facts,
            lists.members_of(session),
            session,
            &listed.numbers,
        )?,
        papers: papers_of(alloc, facts, session)?,
        clashes: clashes_of(alloc, facts, session, &listed.numbers)?,
        appeals: appeals_of(alloc, facts, session)?,
        problem: listed.problem,
        plan,
    })
}

/// The seating problem of a session that exists and is within the limits.
fn listed(
    alloc: Global,
    facts: &Facts,
    lists: &SessionLists,
    session: &SessionCode,
) -> Result<ListedProblem, Refusal>
    requires lists { AreListsOf (relations_of facts.now) lists.now }
    requires known { IsTrue (has_row code_cmp facts.now.sessions.entries session.now) }
    requires limits { IsTrue (within_limits (relations_of facts.now)) }
    ensures numbers { IfOk result (λ listed. listed.numbers.items
        ≡ sessions.members (relations_of facts.now) session.now) }
    ensures halls { IfOk result (λ listed. listed.halls.items
        ≡ seatings.open_halls (relations_of facts.now) session.now) }
    ensures ok { IfOk result (λ listed. listed.problem
        ≡ seatings.problem_of (relations_of facts.now) session.now) }
    ensures lists { OnOk result (ListsRise (relations_of facts.now) session.now) }
    ensures memory { OnlyMemory result }
{
    indexed_problem(alloc, facts, lists, session)
}

/// The papers of the session, codes rising.
fn papers_of(alloc: Global, facts: &Facts, session: &SessionCode) -> Result<Vec<PaperCode>, Refusal>
    ensures ok { IfOk result (λ papers. papers.items ≡ views.papers_of (relations_of facts.now) session.now) }
    ensures memory { OnlyMemory result }
{
    let papers = facts
        .papers
        .iter()
        .filter(|(_, paper)| paper.session == *session)
        .map(|(code, _)| *code)
        .collect(alloc)?;
    Ok(papers)
}

/// The clashes of the members, each with the paper that is sat.
fn clashes_of(
    alloc: Global,
    facts: &Facts,
    session: &SessionCode,
    numbers: &[Number],
) -> Result<Vec<Clash>, Refusal>
    requires { numbers.now ≡ sessions.members (relations_of facts.now) session.now }
    ensures ok { IfOk result (λ list. map (λ clash. Some clash) list.items
        ≡ map (views.clash_of (relations_of facts.now) session.now)
        (sessions.clashes (relations_of facts.now) session.now)) }
    ensures memory { OnlyMemory result }
{
    let pairs = clashes_among(alloc, facts, session, numbers)?;
    with_sitting(alloc, facts, session, &pairs)
}

/// The clashes, each with the paper that the candidate sits.
fn with_sitting(
    alloc: Global,
    facts: &Facts,
    session: &SessionCode,
    pairs: &[(Number, PaperCode)],
) -> Result<Vec<Clash>, Refusal>
    requires { pairs.now ≡ sessions.clashes (relations_of facts.now) session.now }
    ensures ok { IfOk result (λ list. map (λ clash. Some clash) list.items
        ≡ map (views.clash_of (relations_of facts.now) session.now) pairs.now) }
    ensures memory { OnlyMemory result }
{
    let mut list = Vec::with_capacity(alloc, pairs.len())?;
    for pair in pairs {
        list.push(clash_of(facts, session, *pair))?;
    }
    Ok(list)
}

fn clash_of(facts: &Facts, session: &SessionCode, pair: (Number, PaperCode)) -> Clash
    requires { Contains (sessions.clashes (relations_of facts.now) session.now) pair }
    ensures { views.clash_of (relations_of facts.now) session.now pair ≡ Some result }
{
    Clash {
        number: pair.0,
        sitting: sitting_by_entries(facts, session, pair.0).unwrap(),
        paper: pair.1,
    }
}

/// The appeals for the session, by number and reference.
fn appeals_of(
    alloc: Global,
    facts: &Facts,
    session: &SessionCode,
) -> Result<Vec<AppealRow>, Refusal>
    ensures ok { IfOk result (λ appeals. appeals.items
        ≡ views.appeals_of (relations_of facts.now) session.now) }
    ensures memory { OnlyMemory result }
{
    let appeals = facts
        .appeals
        .iter()
        .filter(|(_, appeal)| appeal.session == *session)
        .map(|(key, appeal)| appeal_row(*key, appeal))
        .collect(alloc)?;
    Ok(appeals)
}

fn appeal_row(key: (Number, Reference), appeal: &Appeal) -> AppealRow
    ensures { result ≡ views.appeal_row (key, appeal.now) }
{
    AppealRow {
        number: key.0,
        reference: key.1,
        subject: appeal.subject,
        state: state_of(&appeal.status),
        lodged: appeal.lodged,
    }
}

/// The codes of all halls, rising.
fn hall_codes(alloc: Global, facts: &Facts) -> Result<Vec<HallCode>, Refusal>
    ensures ok { IfOk result (λ codes. codes.items ≡ keys_of facts.now.halls.entries) }
    ensures memory { OnlyMemory result }
{
    let codes = facts.halls.keys().copied().collect(alloc)?;
    Ok(codes)
}

/// The openings of the session, by hall.
fn openings_of(
    alloc: Global,
    facts: &Facts,
    session: &SessionCode,
) -> Result<Vec<(HallCode, Opening)>, Refusal>
    ensures ok { IfOk result (λ openings. openings.items
        ≡ views.openings_of (relations_of facts.now) session.now) }
    ensures memory { OnlyMemory result }
{
    let openings = facts
        .openings
        .iter()
        .filter(|(key, _)| key.0 == *session)
        .map(|(key, opening)| (key.1, *opening))
        .collect(alloc)?;
    Ok(openings)
}

/// The members, each with their sitting paper and their finish.
fn members_of(
    alloc: Global,
    facts: &Facts,
    entrants: &[Entrant],
    session: &SessionCode,
    numbers: &[Number],
) -> Result<Vec<Member>, Refusal>
    requires entrants { entrants.now ≡ listing.entrants (relations_of facts.now) session.now }
    requires known { IsTrue (has_row code_cmp facts.now.sessions.entries session.now) }
    requires members { numbers.now ≡ sessions.members (relations_of facts.now) session.now }
    ensures ok { IfOk result (λ members. map (λ member. Some member) members.items
        ≡ map (views.member_of (relations_of facts.now) session.now) numbers.now) }
    ensures memory { OnlyMemory result }
{
    let mut members = Vec::with_capacity(alloc, numbers.len())?;
    for number in numbers {
        members.push(member_of(facts, entrants, session, *number)?)?;
    }
    Ok(members)
}

fn member_of(
    facts: &Facts,
    entrants: &[Entrant],
    session: &SessionCode,
    number: Number,
) -> Result<Member, Refusal>
    requires entrants { entrants.now ≡ listing.entrants (relations_of facts.now) session.now }
    requires known { IsTrue (has_row code_cmp facts.now.sessions.entries session.now) }
    requires member { Contains (sessions.members (relations_of facts.now) session.now) number }
    ensures ok { IfOk result (λ member. views.member_of (relations_of facts.now) session.now number
        ≡ Some member) }
    ensures memory { OnlyMemory result }
{
    let candidate = facts.candidates.get(&number).unwrap();
    Ok(Member {
        number,
        name: candidate.name.copy()?,
        paper: sitting_among(facts, entrants, session, number).unwrap(),
        finish: finish_by_entries(facts, session, number).unwrap(),
    })
}
