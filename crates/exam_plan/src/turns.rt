//! The turns of a sweep.
ghost use Rattle.std.specs.Prelude.{◌≡◌, ◌<◌, ◌≤◌, ◌+◌, ◌++◌, ◌&&◌, ℕ, [], length, not, nat_eq, nat_lt, All, IfSome};
ghost use Rattle.std.specs.Prelude.{IfOk, slice_index};
ghost use Rattle.std.specs.Prelude.{vec_capacity};
ghost use Rattle.exam_types.specs.Refusals.{OnlyMemory};
ghost use Rattle.exam_plan.specs.HallSets.{most_halls, holds, halls_below};
ghost use Rattle.exam_plan.specs.Matching.{IsLawful};
ghost use Rattle.exam_plan.specs.Chains.{HasFreeDesk};
ghost use Rattle.exam_plan.specs.Problems.{IsPlan, seating_of, plan_at};
ghost use Rattle.exam_plan.specs.Searches.{MarksAll, IsKept, IsNextTurn, count_at};

use crate::chains;
use crate::hall_set::HallSet;
use crate::onward::Onward;
use crate::problem::{Plan, Problem};
use exam_types::Refusal;
use std::alloc::Global;

/// How far a sweep has come. All its room is taken at the start.
#[derive(Drop)]
pub struct Progress {
    /// Where each candidate sits.
    pub plan: Plan,
    /// How many sit in each hall.
    counts: Vec<usize>,
    /// The halls with a free desk.
    free: HallSet,
    /// The halls that failed searches reached: no chain enters them.
    dead: HallSet,
    /// The dead halls, search by search, and rising for each search.
    pub listed: Vec<usize>,
    /// Which halls fit some occupant of each hall.
    onward: Onward,
    /// Room for the halls from which a free desk is reached over at most 0, 1, 2 .. halls.
    layers: Vec<HallSet>,
}

/// How many sit in each of the halls.
fn occupancy(alloc: Global, halls: usize, plan: &[Option<usize>]) -> Result<Vec<usize>, Refusal>
    requires { All (λ place. IfSome place (λ h. h < halls)) plan.now }
    ensures sized { IfOk result (λ counts. length counts.items ≡ halls) }
    ensures counts { IfOk result (λ counts. (h : ℕ) → h < halls
        → slice_index counts.items h ≡ count_at (plan_at plan.now) h (length plan.now)) }
    ensures memory { OnlyMemory result }
{
    let mut counts = vec![in alloc; 0usize; halls]?;
    for place in plan {
        if let Some(hall) = *place {
            counts[hall] += 1;
        }
    }
    Ok(counts)
}

/// The halls with a free desk.
fn free_halls(problem: &Problem, plan: &[Option<usize>], counts: &[usize]) -> HallSet
    requires whole { length plan.now ≡ length problem.now.fit }
    requires halls { length counts.now ≡ length problem.now.desk_counts }
    requires counts { (h : ℕ) → h < length problem.now.desk_counts
        → slice_index counts.now h ≡ count_at (plan_at plan.now) h (length plan.now) }
    ensures { MarksAll (holds result) (HasFreeDesk (seating_of problem.now) (plan_at plan.now)) }
{
    let mut free = HallSet::empty();
    for hall in 0..problem.hall_count() {
        if counts[hall] < problem.desk_count(hall) as usize {
            free = free.with(hall);
        }
    }
    free
}

/// A sweep that starts from the plan.
pub fn start(alloc: Global, problem: &Problem, plan: Plan) -> Result<Progress, Refusal>
    requires plan { IsPlan problem.now plan.items }
    requires lawful { IsLawful (seating_of problem.now) (plan_at plan.items) }
    ensures kept { IfOk result (λ sweep. IsKept problem.now sweep) }
    ensures plan { IfOk result (λ sweep. sweep.plan.items ≡ plan.items) }
    ensures none { IfOk result (λ sweep. sweep.listed.items ≡ []) }
    ensures memory { OnlyMemory result }
{
    let halls = problem.hall_count();
    let counts = occupancy(alloc, halls, plan.as_slice())?;
    let free = free_halls(problem, plan.as_slice(), counts.as_slice());
    Ok(Progress {
        plan,
        counts,
        free,
        dead: HallSet::empty(),
        listed: Vec::with_capacity(alloc, halls)?,
        onward: Onward::new(alloc, problem)?,
        layers: vec![in alloc; HallSet::empty(); halls + 1]?,
    })
}

/// Appends the halls of the set, rising.
fn list_halls(listed: &mut Vec<usize>, halls: usize, set: HallSet)
    requires { length listed.old.items + length (halls_below halls set) ≤ vec_capacity listed.old }
    ensures listed { listed.new.items ≡ listed.old.items ++ halls_below halls set }
    ensures room { vec_capacity listed.new ≡ vec_capacity listed.old }
{
    for hall in 0..halls {
        if set.contains(hall) {
            listed.push_reserved(hall);
        }
    }
}

/// The halls with a free desk, once the hall has so many occupants.
fn still_free(problem: &Problem, free: HallSet, hall: usize, count: usize) -> HallSet
    requires hall { hall < length problem.now.desk_counts }
    requires few { length problem.now.desk_counts ≤ most_halls }
    ensures { (h : ℕ) → holds result h ≡ (holds free h
        && not (nat_eq h hall && not (nat_lt count (slice_index problem.now.desk_counts hall)))) }
{
    if count < problem.desk_count(hall) as usize {
        free
    } else {
        free.minus(HallSet::empty().with(hall))
    }
}

/// One turn of the sweep. If only dead halls fit the candidate, there is nothing to search.
pub fn take_turn(problem: &Problem, sweep: &mut Progress, candidate: usize)
    requires kept { IsKept problem.now sweep.old }
    requires candidate { candidate < length problem.now.fit }
    ensures { IsNextTurn problem.now sweep.old candidate sweep.new }
{
    if sweep.plan[candidate].is_some() || problem.fitting(candidate).minus(sweep.dead).is_empty() {
        return;
    }
    match chains::search_chain(
        problem,
        &sweep.plan,
        sweep.free,
        candidate,
        &mut sweep.onward,
        &mut sweep.layers,
    ) {
        Some(hops) => {
            let last = chains::advance(
                problem,
                &mut sweep.plan,
                &mut sweep.onward,
                sweep.layers.as_slice(),
                hops,
                candidate,
            );
            sweep.counts[last] += 1;
            sweep.free = still_free(problem, sweep.free, last, sweep.counts[last]);
        }
        None => {
            let onward = sweep.onward.sets.as_slice();
            let led = chains::led_to(problem, &sweep.plan, onward, sweep.dead, candidate);
            list_halls(&mut sweep.listed, problem.hall_count(), led);
            sweep.dead = sweep.dead.union(led);
        }
    }
}
