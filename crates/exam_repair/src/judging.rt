//! What is wrong, table by table, with facts and plans that are no good office.
ghost use Rattle.std.specs.Prelude.{◌≡◌, ◌&&◌, ◌∷◌, [], ℕ, None, IsTrue, IfOk};
ghost use Rattle.std.specs.Bool.{Decides};
ghost use Rattle.exam_types.specs.Refusals.{OnlyMemory};
ghost use Rattle.exam_plan.specs.Matching.{IsBest};
ghost use Rattle.exam_rules.specs.Relations.{Code, relations_of};
ghost use Rattle.exam_rules.specs.Lists.{AreListsOf};
ghost use Rattle.exam_rules.specs.Seatings.{seating, plan_of};
ghost use Rattle.exam_commands.specs.Good as good;
ghost use Rattle.exam_commands.specs.Limits as spec;
ghost use Rattle.exam_commands.specs.Singles.{AreSingle};
ghost use Rattle.exam_commands.specs.State as state;
ghost use Rattle.exam_commands.specs.State.{office_of};
ghost use Rattle.exam_commands.specs.declared.table.Table.TheVariants as table;

use crate::repair::repaired_among;
use crate::{limits, references, singles};
use exam_commands::Table;
use exam_rules::{Facts, Seats, SessionLists, session_lists};
use exam_types::{Refusal, SessionCode};
use std::alloc::Global;

/// The first table, in the order of `Table`, that is not good, or none if these facts and plans are a good office.
pub fn first_bad_table(
    alloc: Global,
    facts: &Facts,
    seats: &Seats,
) -> Result<Option<Table>, Refusal>
    ensures ok { IfOk result (λ found. good.IsFirstBad (office_of facts.now seats.now) found) }
    ensures memory { OnlyMemory result }
{
    let lists = session_lists(alloc, facts)?;
    first_bad_listed(alloc, facts, &lists, seats)
}

/// Finds the first bad table by the lists of the members and the open halls of all sessions.
pub fn first_bad_listed(
    alloc: Global,
    facts: &Facts,
    lists: &SessionLists,
    seats: &Seats,
) -> Result<Option<Table>, Refusal>
    requires { AreListsOf (relations_of facts.now) lists.now }
    ensures ok { IfOk result (λ found. good.IsFirstBad (office_of facts.now seats.now) found) }
    ensures memory { OnlyMemory result }
{
    match first_bad_of_imports(facts, lists) {
        Some(table) => Ok(Some(table)),
        None => first_bad_of_others(alloc, facts, lists, seats),
    }
}

/// The first bad table among those that imports fill, or none. It does not depend on the seats.
fn first_bad_of_imports(facts: &Facts, lists: &SessionLists) -> Option<Table>
    requires { AreListsOf (relations_of facts.now) lists.now }
    ensures first { (seats : state.Seats)
        → good.IsFirstBadOf (record { relations = relations_of facts.now; seats = seats })
        (table.Sessions ∷ table.Papers ∷ table.Halls ∷ table.Openings ∷ table.Candidates ∷ table.Entries
        ∷ table.Arrangements ∷ []) result }
    ensures few { result ≡ None → IsTrue (spec.members_within (relations_of facts.now)) }
    ensures few_halls { result ≡ None → IsTrue (spec.openings_within (relations_of facts.now)) }
{
    if !limits::are_sessions_within(facts) {
        return Some(Table::Sessions);
    }
    if !are_papers_good(facts) {
        return Some(Table::Papers);
    }
    if !limits::are_halls_within(facts) {
        return Some(Table::Halls);
    }
    if !are_openings_good(facts, lists) {
        return Some(Table::Openings);
    }
    if !limits::are_candidates_within(facts) {
        return Some(Table::Candidates);
    }
    if !are_entries_good(facts, lists) {
        return Some(Table::Entries);
    }
    if !references::arrangements_refer(facts) {
        return Some(Table::Arrangements);
    }
    None
}

/// The first bad table among the others, or none.
fn first_bad_of_others(
    alloc: Global,
    facts: &Facts,
    lists: &SessionLists,
    seats: &Seats,
) -> Result<Option<Table>, Refusal>
    requires lists { AreListsOf (relations_of facts.now) lists.now }
    requires few { IsTrue (spec.members_within (relations_of facts.now)) }
    requires few_halls { IsTrue (spec.openings_within (relations_of facts.now)) }
    ensures ok { IfOk result (λ found. good.IsFirstBadOf (office_of facts.now seats.now)
        (table.Appeals ∷ table.Standing ∷ table.Seats ∷ []) found) }
    ensures memory { OnlyMemory result }
{
    if !are_appeals_good(alloc, facts)? {
        return Ok(Some(Table::Appeals));
    }
    if !references::marks_were_granted(facts) {
        return Ok(Some(Table::Standing));
    }
    if !are_seats_good(alloc, facts, lists, seats)? {
        return Ok(Some(Table::Seats));
    }
    Ok(None)
}

fn are_papers_good(facts: &Facts) -> bool
    ensures { result ≡ (spec.papers_within (relations_of facts.now)
        && good.papers_refer (relations_of facts.now)) }
{
    limits::are_papers_within(facts) && references::papers_refer(facts)
}

fn are_openings_good(facts: &Facts, lists: &SessionLists) -> bool
    requires { AreListsOf (relations_of facts.now) lists.now }
    ensures { result ≡ (spec.openings_within (relations_of facts.now)
        && good.openings_refer (relations_of facts.now)) }
{
    limits::are_openings_within(facts, lists) && references::openings_refer(facts)
}

fn are_entries_good(facts: &Facts, lists: &SessionLists) -> bool
    requires { AreListsOf (relations_of facts.now) lists.now }
    ensures { result ≡ (spec.members_within (relations_of facts.now)
        && good.entries_refer (relations_of facts.now)) }
{
    limits::are_members_within(facts, lists) && references::entries_refer(facts)
}

fn are_appeals_good(alloc: Global, facts: &Facts) -> Result<bool, Refusal>
    ensures ok { IfOk result (λ b. Decides b (IsTrue (spec.appeals_within (relations_of facts.now)
        && good.appeals_refer (relations_of facts.now)) × AreSingle (relations_of facts.now))) }
    ensures memory { OnlyMemory result }
{
    if !limits::are_appeals_within(facts) || !references::appeals_refer(facts) {
        return Ok(false);
    }
    singles::are_single(alloc, facts)
}

/// Whether every session's plan is best. It is best exactly if the repair leaves it as it is.
fn are_seats_good(
    alloc: Global,
    facts: &Facts,
    lists: &SessionLists,
    seats: &Seats,
) -> Result<bool, Refusal>
    requires lists { AreListsOf (relations_of facts.now) lists.now }
    requires few { IsTrue (spec.members_within (relations_of facts.now)) }
    requires few_halls { IsTrue (spec.openings_within (relations_of facts.now)) }
    ensures ok { IfOk result (λ b. Decides b ((s : Code)
        → IsBest (seating (relations_of facts.now) s) (plan_of seats.now.entries s))) }
    ensures memory { OnlyMemory result }
{
    let sessions: Vec<SessionCode> = facts.sessions.keys().copied().collect(alloc)?;
    let repaired = repaired_among(alloc, facts, lists, &sessions, seats, None)?;
    Ok(same_seats(&repaired, seats))
}

/// Whether the same candidates sit in the same halls.
fn same_seats(one: &Seats, other: &Seats) -> bool
    ensures { Decides result ((s : Code) (c : ℕ) → plan_of one.now.entries s c
        ≡ plan_of other.now.entries s c) }
{
    if one.len() != other.len() {
        return false;
    }
    *one == *other
}
