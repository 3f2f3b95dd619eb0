//! The repair of the plans after a change of the facts.
ghost use Rattle.std.specs.Prelude.{◌≡◌, ◌<◌, ◌≤◌, nat_eq, position, ℕ, false, length, IsTrue, None};
ghost use Rattle.std.specs.Prelude.{IfOk, OnOk, IfSome};
ghost use Rattle.std.specs.Option.{option_and_then};
ghost use Rattle.exam_types.specs.Refusals.{OnlyMemory};
ghost use Rattle.exam_plan.specs.Matching.{IsBest};
ghost use Rattle.exam_plan.specs.HallSets.{most_halls};
ghost use Rattle.exam_plan.specs.Problems.{IsPlan, most_members, seating_of, plan_at};
ghost use Rattle.exam_plan.specs.Repair.{IsRepair};
ghost use Rattle.exam_rules.specs.Relations.{Code, relations_of, code_cmp, has_row, same_code};
ghost use Rattle.exam_rules.specs.Sessions.{members};
ghost use Rattle.exam_rules.specs.Seatings.{open_halls, plan_of};
ghost use Rattle.exam_rules.specs.Lists.{AreListsOf};
ghost use Rattle.exam_commands.specs.NextPlans.{AreRepaired};
ghost use Rattle.exam_commands.specs.Repairs.{IsRepaired};

use exam_plan::{Plan, Problem, keep_lawful, sweep};
use exam_rules::{Facts, Seats, SessionLists, indexed_problem, stored_plan, write_plan};
use exam_types::{Number, Refusal, SessionCode};
use std::alloc::Global;
use std::collections::BTreeMap;

/// The plans of these sessions, each repaired. In each session that `first` is a member of they have the first turn.
/// Nobody is seated in other sessions.
pub fn repaired_among(
    alloc: Global,
    facts: &Facts,
    lists: &SessionLists,
    sessions: &[SessionCode],
    seats: &Seats,
    first: Option<Number>,
) -> Result<Seats, Refusal>
    requires lists { AreListsOf (relations_of facts.now) lists.now }
    requires few { (s : Code) → IsTrue (has_row code_cmp facts.now.sessions.entries s)
        → length (members (relations_of facts.now) s) ≤ most_members }
    requires few_halls { (s : Code) → IsTrue (has_row code_cmp facts.now.sessions.entries s)
        → length (open_halls (relations_of facts.now) s) ≤ most_halls }
    ensures ok { IfOk result (λ new. AreRepaired (relations_of facts.now) first sessions.now
        seats.now.entries new.entries) }
    ensures memory { OnlyMemory result }
{
    let mut repaired = BTreeMap::new(alloc);
    for (session, _) in &facts.sessions {
        if sessions.contains(session) {
            repair_session(alloc, facts, lists, session, seats, &first, &mut repaired)?;
        }
    }
    Ok(repaired)
}

/// Adds the repaired plan of a session in which nobody is seated yet.
fn repair_session(
    alloc: Global,
    facts: &Facts,
    lists: &SessionLists,
    session: &SessionCode,
    seats: &Seats,
    first: &Option<Number>,
    repaired: &mut Seats,
) -> Result<(), Refusal>
    requires lists { AreListsOf (relations_of facts.now) lists.now }
    requires few { length (members (relations_of facts.now) session.now) ≤ most_members }
    requires few_halls { length (open_halls (relations_of facts.now) session.now) ≤ most_halls }
    requires fresh { (c : ℕ) → plan_of repaired.old.entries session.now c ≡ None }
    ensures ok { OnOk result (IsRepaired
        (relations_of facts.now) first.now seats.now.entries repaired.new.entries session.now) }
    ensures others { OnOk result ((s : Code) (c : ℕ) → same_code session.now s ≡ false
        → plan_of repaired.new.entries s c ≡ plan_of repaired.old.entries s c) }
    ensures memory { OnlyMemory result }
{
    let listed = indexed_problem(alloc, facts, lists, session)?;
    let plan = stored_plan(alloc, &listed.numbers, &listed.halls, session, seats)?;
    let first = place_of_number(&listed.numbers, *first);
    let plan = repaired_plan(alloc, &listed.problem, plan, first)?;
    write_plan(session, &listed.numbers, &listed.halls, &plan, repaired)
}

/// The repair of a plan by indices.
fn repaired_plan(
    alloc: Global,
    problem: &Problem,
    plan: Plan,
    first: Option<usize>,
) -> Result<Plan, Refusal>
    requires plan { IsPlan problem.now plan.items }
    requires first { IfSome first (λ c. c < length problem.now.fit) }
    ensures plan { IfOk result (λ new. IsPlan problem.now new.items) }
    ensures repair { IfOk result (λ new.
        IsRepair (seating_of problem.now) first (plan_at plan.items) (plan_at new.items)) }
    ensures best { IfOk result (λ new. IsBest (seating_of problem.now) (plan_at new.items)) }
    ensures memory { OnlyMemory result }
{
    let plan = keep_lawful(problem, plan)?;
    sweep(alloc, problem, plan, first)
}

/// The place of the number, if one is given and listed.
fn place_of_number(numbers: &[Number], number: Option<Number>) -> Option<usize>
    ensures { result ≡ option_and_then (λ c. position (nat_eq c) numbers.now) number }
{
    match number {
        Some(number) => place_among(numbers, &number),
        None => None,
    }
}

fn place_among(numbers: &[Number], number: &Number) -> Option<usize>
    ensures { result ≡ position (nat_eq number.now) numbers.now }
{
    numbers.iter().position(|other| *number == *other)
}
