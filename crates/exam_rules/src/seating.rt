//! The seating problem of a session.
ghost use Rattle.std.specs.Prelude.{◌≡◌, ◌⊎◌, ◌<◌, ◌≤◌, ℕ, All, length, map, IsTrue, IfOk, IfErr, OnOk};
ghost use Rattle.std.specs.Ordering.{nat_cmp};
ghost use Rattle.std.specs.List.Sorted.{IsStrictlySortedBy};
ghost use Rattle.exam_plan.specs.HallSets.{most_halls, holds, halls_below, sets_of};
ghost use Rattle.exam_plan.specs.Problems.{most_members};
ghost use Rattle.exam_rules.specs.Names.{ListsRise};
ghost use Rattle.exam_rules.specs.Lists.{AreListsOf};
ghost use Rattle.exam_types.specs.declared.refusal.Refusal.TheVariants.{NoMemory, TooMany};
ghost use Rattle.exam_types.specs.Refusals.{OnlyMemory};
ghost use Rattle.exam_rules.specs.Relations.{relations_of, code_cmp, has_row};
ghost use Rattle.exam_rules.specs.Sessions as spec;
ghost use Rattle.exam_rules.specs.Seatings as seatings;

use crate::desk_order::{DeskKey, entrant_keys, ranks};
use crate::facts::Facts;
use crate::fit::{Room, fitting_places, opened_room};
use crate::listing::{SessionLists, lists_with, numbers_of};
use crate::plans::ListedProblem;
use exam_plan::{MOST_HALLS, MOST_MEMBERS, Mask, Problem};
use exam_types::{HallCode, Number, Refusal, SessionCode};
use std::alloc::Global;

/// The desks of the hall in the session.
fn desks(facts: &Facts, session: &SessionCode, hall: &HallCode) -> u32
    ensures { result ≡ seatings.desks (relations_of facts.now) session.now hall.now }
{
    match facts.openings.get(&(*session, *hall)) {
        Some(opening) => opening.desks.get(),
        None => 0,
    }
}

fn desk_counts(
    alloc: Global,
    facts: &Facts,
    session: &SessionCode,
    halls: &[HallCode],
) -> Result<Vec<u32>, Refusal>
    ensures ok { IfOk result (λ counts. counts.items
        ≡ map (seatings.desks (relations_of facts.now) session.now) halls.now) }
    ensures memory { OnlyMemory result }
{
    let counts = halls
        .iter()
        .map(|hall| desks(facts, session, hall))
        .collect(alloc)?;
    Ok(counts)
}

fn rooms(
    alloc: Global,
    facts: &Facts,
    session: &SessionCode,
    halls: &[HallCode],
) -> Result<Vec<(HallCode, Option<Room>)>, Refusal>
    ensures ok { IfOk result (λ rooms. rooms.items
        ≡ seatings.with_rooms (relations_of facts.now) session.now halls.now) }
    ensures memory { OnlyMemory result }
{
    let rooms = halls
        .iter()
        .map(|hall| (*hall, opened_room(facts, session, hall)))
        .collect(alloc)?;
    Ok(rooms)
}

/// For each candidate, by number and sitting paper, the places of the halls that fit, as a mask.
fn fit_rows(
    alloc: Global,
    facts: &Facts,
    session: &SessionCode,
    keys: &[DeskKey],
    halls: &[(HallCode, Option<Room>)],
) -> Result<Vec<Mask>, Refusal>
    requires keys { All (λ (key : _ × ℕ).
        key.0 ≡ spec.sitting (relations_of facts.now) session.now key.1) keys.now }
    requires halls { halls.now
        ≡ seatings.with_rooms (relations_of facts.now) session.now (map (λ hall. hall.0) halls.now) }
    requires few { length halls.now ≤ most_halls }
    ensures ok { IfOk result (λ rows. map (halls_below (length halls.now)) (sets_of rows.items)
        ≡ map (λ key. seatings.fitting_places (relations_of facts.now) session.now key.1
        (map (λ hall. hall.0) halls.now)) keys.now) }
    ensures exist { IfOk result (λ rows.
        All (λ set. (h : ℕ) → IsTrue (holds set h) → h < length halls.now) (sets_of rows.items)) }
    ensures memory { OnlyMemory result }
{
    let mut rows = Vec::with_capacity(alloc, keys.len())?;
    for key in keys {
        let places = fitting_places(alloc, facts, session, key.1, key.0, halls)?;
        rows.push(places.mask())?;
    }
    Ok(rows)
}

/// For each member, the places of the halls that fit, as a mask.
fn fit_table(
    alloc: Global,
    facts: &Facts,
    session: &SessionCode,
    keys: &[DeskKey],
    halls: &[HallCode],
) -> Result<Vec<Mask>, Refusal>
    requires keys { keys.now
        ≡ map (seatings.desk_key (relations_of facts.now) session.now)
        (spec.members (relations_of facts.now) session.now) }
    requires few { length halls.now ≤ most_halls }
    ensures ok { IfOk result (λ rows. map (halls_below (length halls.now)) (sets_of rows.items)
        ≡ map (λ c. seatings.fitting_places (relations_of facts.now) session.now c halls.now)
        (spec.members (relations_of facts.now) session.now)) }
    ensures exist { IfOk result (λ rows.
        All (λ set. (h : ℕ) → IsTrue (holds set h) → h < length halls.now) (sets_of rows.items)) }
    ensures memory { OnlyMemory result }
{
    let rooms = rooms(alloc, facts, session, halls)?;
    fit_rows(alloc, facts, session, keys, &rooms)
}

/// The seating problem of the session, with its members and its open halls, from the lists of all sessions. Does not
/// ask whether there is such a session. Refused if there are more members or open halls than a session may have, or if
/// memory runs out.
pub fn indexed_problem(
    alloc: Global,
    facts: &Facts,
    lists: &SessionLists,
    session: &SessionCode,
) -> Result<ListedProblem, Refusal>
    requires { AreListsOf (relations_of facts.now) lists.now }
    ensures numbers { IfOk result (λ listed. listed.numbers.items
        ≡ spec.members (relations_of facts.now) session.now) }
    ensures halls { IfOk result (λ listed. listed.halls.items
        ≡ seatings.open_halls (relations_of facts.now) session.now) }
    ensures ok { IfOk result (λ listed. listed.problem
        ≡ seatings.problem_of (relations_of facts.now) session.now) }
    ensures refusal { IfErr result (λ e. (e ≡ NoMemory)
        ⊎ ((e ≡ TooMany) × seatings.IsTooLarge (relations_of facts.now) session.now)) }
{
    let entrants = lists.members_of(session);
    let halls = lists.halls_of(session);
    if entrants.len() > MOST_MEMBERS || halls.len() > MOST_HALLS {
        return Err(Refusal::TooMany);
    }
    let keys = entrant_keys(alloc, facts, session, entrants)?;
    let numbers = numbers_of(alloc, entrants)?;
    let halls = Vec::from_slice(alloc, halls)?;
    problem_over(alloc, facts, session, numbers, &keys, halls)
}

/// The seating problem over the members and the open halls of the session.
fn problem_over(
    alloc: Global,
    facts: &Facts,
    session: &SessionCode,
    numbers: Vec<Number>,
    keys: &[DeskKey],
    halls: Vec<HallCode>,
) -> Result<ListedProblem, Refusal>
    requires few { length numbers.items ≤ most_members }
    requires few_halls { length halls.items ≤ most_halls }
    requires numbers { numbers.items ≡ spec.members (relations_of facts.now) session.now }
    requires keys { keys.now ≡ map (seatings.desk_key (relations_of facts.now) session.now)
        (spec.members (relations_of facts.now) session.now) }
    requires halls { halls.items ≡ seatings.open_halls (relations_of facts.now) session.now }
    requires rising { IsStrictlySortedBy nat_cmp (spec.members (relations_of facts.now) session.now) }
    ensures numbers { IfOk result (λ listed. listed.numbers.items
        ≡ spec.members (relations_of facts.now) session.now) }
    ensures halls { IfOk result (λ listed. listed.halls.items
        ≡ seatings.open_halls (relations_of facts.now) session.now) }
    ensures ok { IfOk result (λ listed. listed.problem
        ≡ seatings.problem_of (relations_of facts.now) session.now) }
    ensures memory { OnlyMemory result }
{
    let desks = desk_counts(alloc, facts, session, &halls)?;
    let fit = fit_table(alloc, facts, session, keys, &halls)?;
    let rank = ranks(alloc, keys)?;
    let problem = Problem::from_masks(alloc, desks, fit, rank)?;
    Ok(ListedProblem {
        numbers,
        halls,
        problem,
    })
}

/// The seating problem of the session: the i-th candidate is the i-th of its members, by number, and the j-th hall the
/// j-th of those opened for it, by code. Refused if there is no such session, if there are more members or open halls
/// than a session may have, or if memory runs out. Facts within the office's limits never have too many.
pub fn problem(alloc: Global, facts: &Facts, session: &SessionCode) -> Result<Problem, Refusal>
    ensures ok { IfOk result (λ p. p ≡ seatings.problem_of (relations_of facts.now) session.now) }
    // The premise of the laws that carry what holds for indices over to numbers and codes.
    ensures lists { OnOk result (ListsRise (relations_of facts.now) session.now) }
    ensures known { OnOk result (IsTrue (has_row code_cmp facts.now.sessions.entries session.now)) }
    ensures refusal { IfErr result (seatings.IsProblemRefusal (relations_of facts.now) session.now) }
{
    let lists = lists_with(alloc, facts, session)?;
    let listed = indexed_problem(alloc, facts, &lists, session)?;
    Ok(listed.problem)
}
