//! Desk numbers.
ghost use Rattle.std.specs.Prelude.{◌≡◌, ◌<◌, ℕ, length, map, All, IfSome, IfOk, IsSorted};
ghost use Rattle.std.specs.List.{range_with_len};
ghost use Rattle.std.specs.List.Sorted.{IsPermutation};
ghost use Rattle.exam_types.specs.Refusals.{OnlyMemory};
ghost use Rattle.exam_plan.specs.DeskOrder.{behind_rank, rank_cmp};
ghost use Rattle.exam_plan.specs.Problems.{desk_numbers as numbers_of};

use crate::problem::Problem;
use exam_types::Refusal;
use std::alloc::Global;

/// The candidates, each behind their rank, in the order of desks.
fn in_desk_order(alloc: Global, problem: &Problem) -> Result<Vec<(u32, usize)>, Refusal>
    ensures all { IfOk result (λ order. IsPermutation
        (map (behind_rank problem.now) (range_with_len 0 (length problem.now.fit))) order.items) }
    ensures rising { IfOk result (λ order. IsSorted rank_cmp order.items) }
    ensures memory { OnlyMemory result }
{
    let mut order = Vec::with_capacity(alloc, problem.candidate_count())?;
    for candidate in 0..problem.candidate_count() {
        order.push((problem.rank(candidate), candidate))?;
    }
    order.sort_unstable();
    Ok(order)
}

/// The desk number of each candidate who is seated.
pub fn desk_numbers(
    alloc: Global,
    problem: &Problem,
    plan: &[Option<usize>],
) -> Result<Vec<Option<u32>>, Refusal>
    requires whole { length plan.now ≡ length problem.now.fit }
    requires exist { All (λ place. IfSome place (λ h. h < length problem.now.desk_counts)) plan.now }
    ensures numbers { IfOk result (λ numbers. numbers.items ≡ numbers_of problem.now plan.now) }
    ensures memory { OnlyMemory result }
{
    let order = in_desk_order(alloc, problem)?;
    let mut numbers = vec![in alloc; None; problem.candidate_count()]?;
    let mut taken = problem.no_counts();
    for (_, candidate) in &order {
        if let Some(hall) = plan[*candidate] {
            taken[hall] += 1;
            numbers[*candidate] = Some(taken[hall] as u32);
        }
    }
    Ok(numbers)
}
