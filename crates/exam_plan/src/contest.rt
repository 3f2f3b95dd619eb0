//! Who is contested when desks are short: the search forwards from the unseated candidates.
ghost use Rattle.std.specs.Prelude.{◌≡◌, ◌⊎◌, ℕ, IsTrue, length, IfOk, filter};
ghost use Rattle.std.specs.List.{range_with_len};
ghost use Rattle.exam_types.specs.Refusals.{OnlyMemory};
ghost use Rattle.exam_plan.specs.HallSets.{holds, halls_below};
ghost use Rattle.exam_plan.specs.Matching.{unseated};
ghost use Rattle.exam_plan.specs.Problems.{IsProblem, seating_of, plan_at};
ghost use Rattle.exam_plan.specs.Searches.{IsMarked, MarksAll, Draws, is_drawn};

use crate::hall_set::HallSet;
use crate::problem::Problem;
use exam_types::Refusal;
use std::alloc::Global;

/// Whether a candidate at this place is unseated or sits in a hall of the set.
fn is_drawn_in(place: Option<usize>, marked: HallSet) -> bool
    ensures { result ≡ is_drawn (holds marked) place }
{
    match place {
        Some(hall) => marked.contains(hall),
        None => true,
    }
}

/// The halls of the set, and those that fit an unseated candidate or an occupant of a hall of the set.
fn spread(problem: &Problem, plan: &[Option<usize>], marked: HallSet) -> HallSet
    requires { length plan.now ≡ length problem.now.fit }
    ensures spread { MarksAll (holds result) (λ h. IsMarked (holds marked) h
        ⊎ ((c : ℕ) × IsTrue (is_drawn (holds marked) (plan_at plan.now c))
        × IsTrue ((seating_of problem.now).fits c h))) }
    ensures problem { IsProblem problem.now }
{
    let mut next = marked;
    for candidate in 0..problem.candidate_count() {
        if is_drawn_in(plan[candidate], marked) {
            next = next.union(problem.fitting(candidate));
        }
    }
    next
}

/// The halls that fit an unseated candidate, or an occupant of one of these halls. If the plan is best, they are the
/// halls that fit a contested candidate.
pub fn contested_halls(problem: &Problem, plan: &[Option<usize>]) -> HallSet
    requires { length plan.now ≡ length problem.now.fit }
    ensures drawn { (h : ℕ) → IsMarked (holds result) h
        → (j : ℕ) × Draws problem.now (plan_at plan.now) j h }
    ensures closed { (c h : ℕ) → IsTrue (is_drawn (holds result) (plan_at plan.now c))
        → IsTrue ((seating_of problem.now).fits c h) → IsMarked (holds result) h }
{
    let mut marked = HallSet::empty();
    'spreading: loop {
        let next = spread(problem, plan, marked);
        if next.minus(marked).first().is_none() {
            return marked;
        }
        marked = next;
    }
}

/// The halls of the set, rising.
pub fn listed(alloc: Global, halls: usize, set: HallSet) -> Result<Vec<usize>, Refusal>
    ensures listed { IfOk result (λ indices. indices.items ≡ halls_below halls set) }
    ensures memory { OnlyMemory result }
{
    let mut listed = Vec::new(alloc);
    for hall in 0..halls {
        if set.contains(hall) {
            listed.push(hall)?;
        }
    }
    Ok(listed)
}

/// The candidates who are unseated or sit in a hall of the set.
pub fn drawn_in(
    alloc: Global,
    plan: &[Option<usize>],
    marked: HallSet,
) -> Result<Vec<usize>, Refusal>
    ensures candidates { IfOk result (λ candidates. candidates.items
        ≡ filter (λ c. is_drawn (holds marked) (plan_at plan.now c)) (range_with_len 0 (length plan.now))) }
    ensures memory { OnlyMemory result }
{
    let mut candidates = Vec::new(alloc);
    for (candidate, place) in plan.iter().enumerate() {
        if is_drawn_in(*place, marked) {
            candidates.push(candidate)?;
        }
    }
    Ok(candidates)
}

/// How many are unseated.
pub fn unseated_count(problem: &Problem, plan: &[Option<usize>]) -> usize
    requires { length plan.now ≡ length problem.now.fit }
    ensures count { result ≡ length (unseated (seating_of problem.now) (plan_at plan.now)) }
    ensures problem { IsProblem problem.now }
{
    let mut count = 0;
    for candidate in 0..problem.candidate_count() {
        if plan[candidate].is_none() {
            count += 1;
        }
    }
    count
}
