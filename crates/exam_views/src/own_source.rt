//! How the office makes what it shows of one candidate: from their own rows, and from the seats of their sessions.
ghost use Rattle.std.specs.Prelude.{◌≡◌, ◌<◌, ◌≤◌, ◌⊎◌, ℕ, [], None, Some, IfSome, IsNone, count_by, filter};
ghost use Rattle.std.specs.Prelude.{length, map, IfOk, IfErr, IsSome, IsTrue};
ghost use Rattle.std.specs.Option.{option_map};
ghost use Rattle.std.specs.Ordering.{is_lt, nat_cmp};
ghost use Rattle.exam_types.specs.declared.refusal.Refusal.TheVariants.{NoMemory};
ghost use Rattle.exam_types.specs.Refusals.{OnlyMemory};
ghost use Rattle.exam_plan.specs.Matching.{occupants};
ghost use Rattle.exam_plan.specs.Problems.{most_members};
ghost use Rattle.exam_rules.specs.Relations.{Code, relations_of, code_cmp, seat_cmp, row_at, same_code};
ghost use Rattle.exam_rules.specs.Relations.{has_row};
ghost use Rattle.exam_rules.specs.Lists.{AreListsOf, entrants, listed};
ghost use Rattle.exam_rules.specs.Orders.{KeysRise};
ghost use Rattle.exam_rules.specs.Seatings.{seating, plan_of, comes_before, desk_cmp, desk_key};
ghost use Rattle.exam_rules.specs.Sessions as sessions;
ghost use Rattle.exam_commands.specs.Good.{IsGood};
ghost use Rattle.exam_commands.specs.Headline.{desk_of};
ghost use Rattle.exam_commands.specs.Own as spec;
ghost use Rattle.exam_commands.specs.State.{office_of};
ghost use Rattle.exam_views.specs.Desks.{rows_without_desks, session_without_desk};

use exam_commands::{Own, OwnAppeal, OwnSession};
use exam_rules::{
    Appeal, BySession, Candidate, DeskKey, Entrant, Facts, Seats, Session, SessionLists,
    appeals_of, append_by_session, arrangement_in_force, comes_before, desk_key_among,
    entered_session, entries_of, finish_beside, sitting_beside,
};
use exam_types::{HallCode, Number, PaperCode, Reference, Refusal, SessionCode};
use std::alloc::Global;
use std::collections::BTreeMap;
use std::collections::btree_map::Range;

/// A session that the candidate is a member of, and their live papers in it, by code.
#[derive(Drop)]
struct Membership<'a> {
    session: SessionCode,
    row: &'a Session,
    papers: Vec<PaperCode>,
}

/// What a good office shows of the candidate with the number, or none. It counts the desks over all seats of the
/// candidate's sessions, and takes no memory for an unknown number.
pub fn own_of(
    alloc: Global,
    facts: &Facts,
    lists: &SessionLists,
    seats: &Seats,
    number: Number,
) -> Result<Option<Own>, Refusal>
    requires lists { AreListsOf (relations_of facts.now) lists.now }
    requires good { IsGood (office_of facts.now seats.now) }
    ensures ok { IfOk result (λ own. option_map spec.shown own
        ≡ spec.own_of (office_of facts.now seats.now) number) }
    ensures memory { IfErr result (λ e. (e ≡ NoMemory) × IsSome
        (spec.own_of (office_of facts.now seats.now) number)) }
{
    match facts.candidates.get(&number) {
        Some(row) => Ok(Some(own_rows(alloc, facts, lists, seats, number, row)?)),
        None => Ok(None),
    }
}

/// What a good office shows of the candidate with the number but for the desks, or none. Counts nobody, and takes no
/// memory for an unknown number.
pub fn own_without_desks(
    alloc: Global,
    facts: &Facts,
    seats: &Seats,
    number: Number,
) -> Result<Option<Own>, Refusal>
    requires good { IsGood (office_of facts.now seats.now) }
    ensures ok { IfOk result (λ own. option_map spec.shown own ≡ option_map rows_without_desks
        (spec.own_of (office_of facts.now seats.now) number)) }
    ensures memory { IfErr result (λ e. (e ≡ NoMemory) × IsSome
        (spec.own_of (office_of facts.now seats.now) number)) }
{
    match facts.candidates.get(&number) {
        Some(row) => Ok(Some(deskless_rows(alloc, facts, seats, number, row)?)),
        None => Ok(None),
    }
}

fn own_rows(
    alloc: Global,
    facts: &Facts,
    lists: &SessionLists,
    seats: &Seats,
    number: Number,
    row: &Candidate,
) -> Result<Own, Refusal>
    requires lists { AreListsOf (relations_of facts.now) lists.now }
    requires good { IsGood (office_of facts.now seats.now) }
    requires candidate { IsTrue (has_row nat_cmp facts.now.candidates.entries number) }
    ensures ok { IfOk result (λ own. spec.shown own ≡ spec.own_rows (office_of facts.now seats.now) number
        row.now) }
    ensures memory { OnlyMemory result }
{
    let mut own = deskless_rows(alloc, facts, seats, number, row)?;
    show_desks(facts, lists, seats, number, &mut own.sessions);
    Ok(own)
}

fn deskless_rows(
    alloc: Global,
    facts: &Facts,
    seats: &Seats,
    number: Number,
    row: &Candidate,
) -> Result<Own, Refusal>
    requires good { IsGood (office_of facts.now seats.now) }
    requires candidate { IsTrue (has_row nat_cmp facts.now.candidates.entries number) }
    ensures ok { IfOk result (λ own. spec.shown own ≡ rows_without_desks
        (spec.own_rows (office_of facts.now seats.now) number row.now)) }
    ensures memory { OnlyMemory result }
{
    Ok(Own {
        number,
        name: row.name.copy()?,
        code: row.code,
        sessions: deskless_sessions(alloc, facts, seats, number)?,
        appeals: own_appeals(alloc, facts, number)?,
    })
}

/// Gives each session the number of the candidate's desk in it, if they sit there.
fn show_desks(
    facts: &Facts,
    lists: &SessionLists,
    seats: &Seats,
    number: Number,
    sessions: &mut [OwnSession],
)
    requires lists { AreListsOf (relations_of facts.now) lists.now }
    requires good { IsGood (office_of facts.now seats.now) }
    requires candidate { IsTrue (has_row nat_cmp facts.now.candidates.entries number) }
    requires deskless { map spec.shown_session sessions.old ≡ map session_without_desk
        (spec.own_sessions (office_of facts.now seats.now) number) }
    ensures { map spec.shown_session sessions.new ≡ spec.own_sessions (office_of facts.now seats.now) number }
{
    for own in sessions.iter_mut() {
        own.desk = desk(facts, lists, seats, &own.session, number, &own.hall);
    }
}

/// The sessions that the candidate is a member of, by code, but for the desks.
fn deskless_sessions(
    alloc: Global,
    facts: &Facts,
    seats: &Seats,
    number: Number,
) -> Result<Vec<OwnSession>, Refusal>
    requires good { IsGood (office_of facts.now seats.now) }
    requires candidate { IsTrue (has_row nat_cmp facts.now.candidates.entries number) }
    ensures ok { IfOk result (λ sessions. map spec.shown_session sessions.items ≡ map session_without_desk
        (spec.own_sessions (office_of facts.now seats.now) number)) }
    ensures memory { OnlyMemory result }
{
    // Only the proof needs that the sessions rise.
    facts.show_order();
    let mut list = Vec::new(alloc);
    for (session, papers) in entered_papers(alloc, facts, number)? {
        if let Some(held) = membership_of(facts, session, papers) {
            list.push(deskless_session(alloc, facts, seats, number, held)?)?;
        }
    }
    Ok(list)
}

/// The session with these papers, if there are any and the session exists.
fn membership_of(
    facts: &Facts,
    session: SessionCode,
    papers: Vec<PaperCode>,
) -> Option<Membership<'_>>
    ensures some { IfSome result (λ held. (held.session ≡ session) × (held.papers ≡ papers)
        × (0 < length papers.items) × (row_at code_cmp facts.now.sessions.entries session ≡ Some held.row.now)) }
    ensures none { IsNone result → (papers.items ≡ [])
        ⊎ (row_at code_cmp facts.now.sessions.entries session ≡ None) }
{
    let row = facts.sessions.get(&session)?;
    if papers.is_empty() {
        return None;
    }
    Some(Membership {
        session,
        row,
        papers,
    })
}

/// The session as its member sees it, but for the desk.
fn deskless_session(
    alloc: Global,
    facts: &Facts,
    seats: &Seats,
    number: Number,
    held: Membership<'_>,
) -> Result<OwnSession, Refusal>
    requires good { IsGood (office_of facts.now seats.now) }
    requires known { row_at code_cmp facts.now.sessions.entries held.session ≡ Some held.row.now }
    requires candidate { IsTrue (has_row nat_cmp facts.now.candidates.entries number) }
    requires papers { held.papers.items ≡ sessions.live_papers (relations_of facts.now) held.session number }
    requires member { 0 < length held.papers.items }
    ensures ok { IfOk result (λ own. option_map session_without_desk (spec.own_session
        (office_of facts.now seats.now) number
        (held.entry.session, held.entry.row.now)) ≡ Some (spec.shown_session own)) }
    ensures memory { OnlyMemory result }
{
    let Membership {
        session,
        row,
        papers,
    } = held;
    let sat = sitting_beside(facts, &session, number, papers[0]).unwrap();
    let clashes = clash_papers(alloc, &papers, sat)?;
    let arrangement = arrangement_in_force(facts, &session, number);
    let finish = finish_beside(facts, row, Some(sat), &arrangement).unwrap();
    let hall = seats.get(&(session, number)).copied();
    Ok(OwnSession {
        session,
        day: row.day,
        start: row.start,
        papers,
        sitting: sat,
        clashes,
        arrangement,
        finish,
        hall,
        desk: None,
    })
}

/// The number of the candidate's desk in the hall in which they sit, if they do.
fn desk(
    facts: &Facts,
    lists: &SessionLists,
    seats: &Seats,
    session: &SessionCode,
    number: Number,
    hall: &Option<HallCode>,
) -> Option<u32>
    requires lists { AreListsOf (relations_of facts.now) lists.now }
    requires good { IsGood (office_of facts.now seats.now) }
    requires known { IsTrue (has_row code_cmp facts.now.sessions.entries session.now) }
    requires somebody { 0 < length facts.now.candidates.entries }
    requires hall { hall.now ≡ plan_of seats.now.entries session.now number }
    ensures { result ≡ desk_of (office_of facts.now seats.now) session.now number }
{
    let hall = hall.as_ref()?;
    Some(seated_before(facts, lists, seats, session, number, hall) + 1)
}

/// How many of those who sit in the hall come before the candidate in the order of desks.
fn seated_before(
    facts: &Facts,
    lists: &SessionLists,
    seats: &Seats,
    session: &SessionCode,
    number: Number,
    hall: &HallCode,
) -> u32
    requires lists { AreListsOf (relations_of facts.now) lists.now }
    requires good { IsGood (office_of facts.now seats.now) }
    requires known { IsTrue (has_row code_cmp facts.now.sessions.entries session.now) }
    requires somebody { 0 < length facts.now.candidates.entries }
    ensures count { result ≡ count_by (λ d. comes_before (relations_of facts.now) session.now d number)
        (occupants (seating (relations_of facts.now) session.now) (plan_of seats.now.entries session.now)
        hall.now) }
    ensures most { result ≤ most_members }
{
    // Only the proof needs that the tables rise.
    facts.show_order();
    let members = lists.members_of(session);
    let own = desk_key_among(facts, members, session, number);
    let mut count = 0;
    for (key, other) in seats_of(facts, seats, session) {
        if *hall == *other && is_before(facts, members, session, key.1, &own) {
            count += 1;
        }
    }
    count
}

/// Whether the candidate comes before this key in the order of desks.
fn is_before(
    facts: &Facts,
    members: &[Entrant],
    session: &SessionCode,
    number: Number,
    key: &DeskKey,
) -> bool
    requires { members.now ≡ entrants (relations_of facts.now) session.now }
    ensures { result ≡ is_lt (desk_cmp (desk_key (relations_of facts.now) session.now number) key.now) }
{
    comes_before(&desk_key_among(facts, members, session, number), key)
}

/// The seats of the session, numbers rising. Everybody who sits is a candidate, so the numbers are between those of the
/// first and the last candidate.
fn seats_of<'a>(
    facts: &Facts,
    seats: &'a Seats,
    session: &SessionCode,
) -> Range<'a, (SessionCode, Number), HallCode>
    requires good { IsGood (office_of facts.now seats.now) }
    requires somebody { 0 < length facts.now.candidates.entries }
    ensures value { result ≡ filter (λ (seat : (Code × ℕ) × Code). same_code seat.0.0 session.now)
        seats.now.entries }
    ensures rising { KeysRise seat_cmp seats.now.entries }
{
    let (first, _) = facts.candidates.first_key_value().unwrap();
    let (last, _) = facts.candidates.last_key_value().unwrap();
    seats.range((*session, *first)..=(*session, *last))
}

/// The papers that are not the one that is sat.
fn clash_papers(
    alloc: Global,
    papers: &[PaperCode],
    sat: PaperCode,
) -> Result<Vec<PaperCode>, Refusal>
    ensures ok { IfOk result (λ clashes. clashes.items
        ≡ filter (sessions.is_clash (Some sat)) papers.now) }
    ensures memory { OnlyMemory result }
{
    let clashes = papers
        .iter()
        .copied()
        .filter(|paper| sat != *paper)
        .collect(alloc)?;
    Ok(clashes)
}

/// The candidate's live papers, by session and code.
fn entered_papers(
    alloc: Global,
    facts: &Facts,
    number: Number,
) -> Result<BySession<PaperCode>, Refusal>
    ensures ok { IfOk result (λ entered. (s : Code)
        → listed entered.entries s ≡ sessions.live_papers (relations_of facts.now) s number) }
    ensures memory { OnlyMemory result }
{
    let mut entered = BTreeMap::new(alloc);
    for (key, entry) in entries_of(facts, number) {
        if let Some(session) = entered_session(facts, &key.1, entry) {
            append_by_session(alloc, &mut entered, session, key.1)?;
        }
    }
    Ok(entered)
}

/// The candidate's appeals, by reference.
fn own_appeals(alloc: Global, facts: &Facts, number: Number) -> Result<Vec<OwnAppeal>, Refusal>
    ensures ok { IfOk result (λ appeals. appeals.items ≡ spec.own_appeals (relations_of facts.now) number) }
    ensures memory { OnlyMemory result }
{
    let mut appeals = Vec::new(alloc);
    for (key, appeal) in appeals_of(facts, number) {
        appeals.push(OwnAppeal {
            reference: key.1,
            appeal: appeal.clone()?,
            standing: facts.standing.contains_key(key),
        })?;
    }
    Ok(appeals)
}
