//! Who stays in a plan.
ghost use Rattle.std.specs.Prelude.{◌≡◌, ◌<◌, ℕ, length, All, IfSome};
ghost use Rattle.exam_plan.specs.Problems.{seating_of, plan_at};
ghost use Rattle.exam_plan.specs.Repair.{fitting_part, room_part};

use crate::problem::Problem;

/// Whether the hall fits the candidate.
fn fits(problem: &Problem, candidate: usize, hall: usize) -> bool
    requires { candidate < length problem.now.fit }
    ensures { result ≡ (seating_of problem.now).fits candidate hall }
{
    problem.fitting(candidate).contains(hall)
}

/// Puts out those whose hall does not fit.
pub fn put_out_unfit(problem: &Problem, plan: &mut [Option<usize>])
    requires whole { length plan.old ≡ length problem.now.fit }
    requires exist { All (λ place. IfSome place (λ h. h < length problem.now.desk_counts)) plan.old }
    ensures exist { All (λ place. IfSome place (λ h. h < length problem.now.desk_counts)) plan.new }
    ensures kept { (c : ℕ) → plan_at plan.new c ≡ fitting_part (seating_of problem.now) (plan_at plan.old) c }
{
    for candidate in 0..plan.len() {
        if let Some(hall) = plan[candidate] {
            if !fits(problem, candidate, hall) {
                plan[candidate] = None;
            }
        }
    }
}

/// Puts out those in whose hall at least as many lesser candidates sit as it has desks.
pub fn put_out_crowded(problem: &Problem, plan: &mut [Option<usize>])
    requires whole { length plan.old ≡ length problem.now.fit }
    requires exist { All (λ place. IfSome place (λ h. h < length problem.now.desk_counts)) plan.old }
    ensures exist { All (λ place. IfSome place (λ h. h < length problem.now.desk_counts)) plan.new }
    ensures kept { (c : ℕ) → plan_at plan.new c ≡ room_part (seating_of problem.now) (plan_at plan.old) c }
{
    let mut met = problem.no_counts();
    for candidate in 0..plan.len() {
        if let Some(hall) = plan[candidate] {
            met[hall] += 1;
            if (problem.desk_count(hall) as usize) < met[hall] {
                plan[candidate] = None;
            }
        }
    }
}
