//! The calls on a problem and a plan.
ghost use Rattle.std.specs.Prelude.{◌≡◌, ◌<◌, ℕ, length, IfOk, IsOk, IfSome, IsSome, IsTrue, Contains, nat_eq, ◌↔◌};
ghost use Rattle.std.specs.List.{IsDistinct};
ghost use Rattle.exam_types.specs.Refusals.{OnlyMemory};
ghost use Rattle.exam_plan.specs.Matching.{IsLawful, IsBest, SamePlan, IsCertificate, IsContested, unseated};
ghost use Rattle.exam_plan.specs.Problems.{IsPlan, seating_of, plan_at, desk_numbers};
ghost use Rattle.exam_plan.specs.Repair.{kept_part, IsDeadList, IsSweep};

use crate::problem::{Plan, Problem};
use crate::report::Shortage;
use crate::{contest, keeping, numbering, turns};
use exam_types::Refusal;
use std::alloc::Global;

/// Puts out first those whose hall does not fit. Then, in a hall with more occupants than desks, as many stay as it has
/// desks: those with the least indices. Refuses nothing.
pub fn keep_lawful(problem: &Problem, mut plan: Plan) -> Result<Plan, Refusal>
    requires { IsPlan problem.now plan.items }
    ensures plan { IfOk result (λ new. IsPlan problem.now new.items) }
    ensures kept { IfOk result (λ new.
        SamePlan (plan_at new.items) (kept_part (seating_of problem.now) (plan_at plan.items))) }
    ensures lawful { IfOk result (λ new. IsLawful (seating_of problem.now) (plan_at new.items)) }
    ensures accepted { IsOk result }
    ensures memory { OnlyMemory result }
{
    keeping::put_out_unfit(problem, plan.as_mut_slice());
    keeping::put_out_crowded(problem, plan.as_mut_slice());
    Ok(plan)
}

/// Gives each unseated candidate one turn: `first` before all others, if it is given, and the others by rising index. A
/// turn moves everybody along the least chain to a free desk, if there is a chain. Returns the plan and the dead halls:
/// those that fit any candidate whom some best plan leaves out, turn by turn, and rising within a turn.
pub fn sweep_dead(
    alloc: Global,
    problem: &Problem,
    plan: Plan,
    first: Option<usize>,
) -> Result<(Plan, Vec<usize>), Refusal>
    requires plan { IsPlan problem.now plan.items }
    requires lawful { IsLawful (seating_of problem.now) (plan_at plan.items) }
    requires first { IfSome first (λ c. c < length problem.now.fit) }
    ensures plan { IfOk result (λ (new, dead). IsPlan problem.now new.items) }
    ensures best { IfOk result (λ (new, dead). IsBest (seating_of problem.now) (plan_at new.items)) }
    ensures kept { IfOk result (λ (new, dead). (c : ℕ) → IsSome (plan_at plan.items c)
        → IsSome (plan_at new.items c)) }
    ensures chains { IfOk result (λ (new, dead).
        IsSweep (seating_of problem.now) first (plan_at plan.items) (plan_at new.items)) }
    ensures order { IfOk result (λ (new, dead).
        IsDeadList (seating_of problem.now) first (plan_at plan.items) (plan_at new.items) dead.items) }
    ensures dead { IfOk result (λ (new, dead). (h : ℕ) → Contains dead.items h
        ↔ ((c : ℕ) × IsContested (seating_of problem.now) c × IsTrue ((seating_of problem.now).fits c h))) }
    ensures once { IfOk result (λ (new, dead). IsDistinct nat_eq dead.items) }
    ensures memory { OnlyMemory result }
{
    let mut sweep = turns::start(alloc, problem, plan)?;
    if let Some(candidate) = first {
        turns::take_turn(problem, &mut sweep, candidate);
    }
    for candidate in 0..problem.candidate_count() {
        if first != Some(candidate) {
            turns::take_turn(problem, &mut sweep, candidate);
        }
    }
    Ok((sweep.plan, sweep.listed))
}

/// The plan of `sweep_dead`.
pub fn sweep(
    alloc: Global,
    problem: &Problem,
    plan: Plan,
    first: Option<usize>,
) -> Result<Plan, Refusal>
    requires plan { IsPlan problem.now plan.items }
    requires lawful { IsLawful (seating_of problem.now) (plan_at plan.items) }
    requires first { IfSome first (λ c. c < length problem.now.fit) }
    ensures plan { IfOk result (λ new. IsPlan problem.now new.items) }
    ensures best { IfOk result (λ new. IsBest (seating_of problem.now) (plan_at new.items)) }
    ensures kept { IfOk result (λ new. (c : ℕ) → IsSome (plan_at plan.items c)
        → IsSome (plan_at new.items c)) }
    ensures chains { IfOk result (λ new.
        IsSweep (seating_of problem.now) first (plan_at plan.items) (plan_at new.items)) }
    ensures memory { OnlyMemory result }
{
    let (swept, _) = sweep_dead(alloc, problem, plan, first)?;
    Ok(swept)
}

/// How many candidates have no desk, and the candidates whom some best plan leaves out, with all halls that fit any of
/// them.
pub fn shortage(alloc: Global, problem: &Problem, plan: &Plan) -> Result<Shortage, Refusal>
    requires plan { IsPlan problem.now plan.now.items }
    requires best { IsBest (seating_of problem.now) (plan_at plan.now.items) }
    ensures certificate { IfOk result (λ s.
        IsCertificate (seating_of problem.now) (plan_at plan.now.items) s.candidates.items s.halls.items) }
    ensures unseated { IfOk result (λ s. s.unseated
        ≡ length (unseated (seating_of problem.now) (plan_at plan.now.items))) }
    ensures contested { IfOk result (λ s. (c : ℕ) → Contains s.candidates.items c
        ↔ IsContested (seating_of problem.now) c) }
    ensures memory { OnlyMemory result }
{
    let contested = contest::contested_halls(problem, plan.as_slice());
    Ok(Shortage {
        unseated: contest::unseated_count(problem, plan.as_slice()),
        halls: contest::listed(alloc, problem.hall_count(), contested)?,
        candidates: contest::drawn_in(alloc, plan.as_slice(), contested)?,
    })
}

/// For each candidate, by index, the number of their desk in their hall: one more than the occupants of the hall with a
/// lesser rank. None for an unseated candidate.
pub fn desks(alloc: Global, problem: &Problem, plan: &Plan) -> Result<Vec<Option<u32>>, Refusal>
    requires { IsPlan problem.now plan.now.items }
    ensures numbers { IfOk result (λ numbers. numbers.items ≡ desk_numbers problem.now plan.now.items) }
    ensures memory { OnlyMemory result }
{
    numbering::desk_numbers(alloc, problem, plan.as_slice())
}
