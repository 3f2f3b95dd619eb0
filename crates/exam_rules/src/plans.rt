//! Plans by names and by indices: a session's plan read from where candidates sit, and written there.
ghost use Rattle.std.specs.Prelude.{◌≡◌, ◌<◌, ◌&&◌, ℕ, [], All, IfSome, None, Some, false, length, nat_eq, position};
ghost use Rattle.std.specs.Prelude.{slice_index_or, if◌then◌else◌, IfOk, OnOk};
ghost use Rattle.std.specs.Option.{option_map, option_or};
ghost use Rattle.exam_types.specs.Refusals.{OnlyMemory};
ghost use Rattle.exam_plan.specs.Matching.{SamePlan};
ghost use Rattle.exam_plan.specs.Problems.{plan_at};
ghost use Rattle.exam_rules.specs.Relations.{Code, Relations, same_code};
ghost use Rattle.exam_rules.specs.Names.{ListsRise, named_plan};
ghost use Rattle.exam_rules.specs.Plans as plans;
ghost use Rattle.exam_rules.specs.Seatings.{open_halls, plan_of};
ghost use Rattle.exam_rules.specs.Sessions.{members};

use exam_plan::{Plan, Problem};
use exam_types::{HallCode, Number, Refusal, SessionCode};
use std::alloc::Global;
use std::collections::BTreeMap;

/// The hall in which each seated candidate sits, in each session.
pub type Seats = BTreeMap<(SessionCode, Number), HallCode>;

/// A session's seating problem, with the members and halls that its indices name.
#[derive(Drop)]
pub struct ListedProblem {
    /// The i-th number is candidate i of the problem.
    pub numbers: Vec<Number>,
    /// The j-th code is hall j of the problem.
    pub halls: Vec<HallCode>,
    pub problem: Problem,
}

/// For each of these candidates the place, among `halls`, of the hall in which they sit in the session; none if they do
/// not sit, or their hall is not among these.
pub fn stored_plan(
    alloc: Global,
    numbers: &[Number],
    halls: &[HallCode],
    session: &SessionCode,
    seats: &Seats,
) -> Result<Plan, Refusal>
    ensures ok { IfOk result (λ plan. plan.items
        ≡ plans.places_of seats.now.entries session.now halls.now numbers.now) }
    ensures memory { OnlyMemory result }
{
    let plan = numbers
        .iter()
        .map(|number| place_of(seats, session, *number, halls))
        .collect(alloc)?;
    Ok(plan)
}

/// The place of the hall in which the candidate sits.
fn place_of(
    seats: &Seats,
    session: &SessionCode,
    number: Number,
    halls: &[HallCode],
) -> Option<usize>
    ensures { result ≡ plans.place_of seats.now.entries session.now halls.now number }
{
    match seats.get(&(*session, number)) {
        Some(hall) => place_of_hall(halls, hall),
        None => None,
    }
}

fn place_of_hall(halls: &[HallCode], hall: &HallCode) -> Option<usize>
    ensures { result ≡ position (same_code hall.now) halls.now }
{
    halls.iter().position(|open| *hall == *open)
}

/// Adds the seats of a plan by indices to seats that have none in the session. Refused if there is not enough memory;
/// the contract does not say what the seats are then.
pub fn write_plan(
    session: &SessionCode,
    numbers: &[Number],
    halls: &[HallCode],
    plan: &[Option<usize>],
    seats: &mut Seats,
) -> Result<(), Refusal>
    requires long { length plan.now ≡ length numbers.now }
    requires exist { All (λ place. IfSome place (λ h. h < length halls.now)) plan.now }
    requires fresh { (c : ℕ) → plan_of seats.old.entries session.now c ≡ None }
    ensures ok { OnOk result ((r : Relations) → ListsRise r session.now
        → numbers.now ≡ members r session.now → halls.now ≡ open_halls r session.now
        → SamePlan (plan_of seats.new.entries session.now) (named_plan r session.now (plan_at plan.now))) }
    ensures others { OnOk result ((s : Code) (c : ℕ) → same_code session.now s ≡ false
        → plan_of seats.new.entries s c ≡ plan_of seats.old.entries s c) }
    ensures memory { OnlyMemory result }
{
    for (index, number) in numbers.iter().enumerate() {
        add_place(seats, session, *number, halls, plan[index])?;
    }
    Ok(())
}

/// Seats a candidate in the hall at the place, if there is one.
fn add_place(
    seats: &mut Seats,
    session: &SessionCode,
    number: Number,
    halls: &[HallCode],
    place: Option<usize>,
) -> Result<(), Refusal>
    requires { IfSome place (λ h. h < length halls.now) }
    ensures ok { OnOk result ((s : Code) (c : ℕ) → plan_of seats.new.entries s c
        ≡ (if same_code session.now s && nat_eq number c
        then option_or (option_map (λ h. slice_index_or halls.now h []) place) (plan_of seats.old.entries s c)
        else plan_of seats.old.entries s c)) }
    ensures memory { OnlyMemory result }
{
    match place {
        Some(place) => add_seat(seats, session, number, halls[place]),
        None => Ok(()),
    }
}

/// Seats a candidate in the hall, in place of the seat that they have in the session, if any. Refused if there is not
/// enough memory; the contract does not say what the seats are then.
pub fn add_seat(
    seats: &mut Seats,
    session: &SessionCode,
    number: Number,
    hall: HallCode,
) -> Result<(), Refusal>
    ensures ok { OnOk result ((s : Code) (c : ℕ) → plan_of seats.new.entries s c
        ≡ (if same_code session.now s && nat_eq number c then Some hall else plan_of seats.old.entries s c)) }
    ensures memory { OnlyMemory result }
{
    seats.insert((*session, number), hall)?;
    Ok(())
}
