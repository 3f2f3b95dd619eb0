//! The plans of an office that a command reads.
ghost use Rattle.std.specs.Prelude.{◌≡◌, ◌↔◌, ◌&&◌, ℕ, nat_eq, Contains, if◌then◌else◌, IsTrue, IfOk, OnOk};
ghost use Rattle.std.specs.Option.{option_or};
ghost use Rattle.exam_types.specs.Refusals.{OnlyMemory};
ghost use Rattle.exam_rules.specs.Relations.{Code, relations_of, same_code};
ghost use Rattle.exam_rules.specs.Seatings.{plan_of};
ghost use Rattle.exam_commands.specs.Appeals.{appeal_at};
ghost use Rattle.exam_commands.specs.Touched.{is_appeal_for};
ghost use Rattle.exam_commands.specs.Parts as spec;

use crate::office::Office;
use exam_commands::granting::is_grant;
use exam_commands::{Command, Decision};
use exam_repair::touched;
use exam_rules::{Facts, Seats, SessionLists, add_seat};
use exam_types::{Number, Refusal, SessionCode};
use std::alloc::Global;
use std::collections::BTreeMap;

/// The sessions whose plans the command reads, and these plans; nobody is seated in other sessions.
pub fn read_plans(
    alloc: Global,
    office: &Office,
    command: &Command,
) -> Result<(Vec<SessionCode>, Seats), Refusal>
    ensures sessions { IfOk result (λ read. (s : Code)
        → Contains read.0.items s ↔ IsTrue (spec.reads office.now.relations command.now s)) }
    ensures plans { IfOk result (λ read. spec.Agrees command.now office.now
        (record { relations = office.now.relations; seats = read.1.entries })) }
    ensures memory { OnlyMemory result }
{
    office.show_good();
    let sessions = read_sessions(alloc, office.facts(), command)?;
    let mut plans = BTreeMap::new(alloc);
    for session in &sessions {
        copy_plan(office.lists(), office.seats(), session, &mut plans)?;
    }
    Ok((sessions, plans))
}

/// Seats the members of the session where they sit in the office.
fn copy_plan(
    lists: &SessionLists,
    seats: &Seats,
    session: &SessionCode,
    plans: &mut Seats,
) -> Result<(), Refusal>
    ensures ok { OnOk result ((s : Code) (c : ℕ) → plan_of plans.new.entries s c
        ≡ spec.copied lists.now seats.now.entries session.now plans.old.entries s c) }
    ensures memory { OnlyMemory result }
{
    for entrant in lists.members_of(session) {
        copy_seat(seats, session, entrant.number, plans)?;
    }
    Ok(())
}

/// Seats the candidate where they sit in the office, if they do.
fn copy_seat(
    seats: &Seats,
    session: &SessionCode,
    number: Number,
    plans: &mut Seats,
) -> Result<(), Refusal>
    ensures ok { OnOk result ((s : Code) (c : ℕ) → plan_of plans.new.entries s c
        ≡ (if same_code session.now s && nat_eq number c
        then option_or (plan_of seats.now.entries s c) (plan_of plans.old.entries s c)
        else plan_of plans.old.entries s c)) }
    ensures memory { OnlyMemory result }
{
    match seats.get(&(*session, number)) {
        Some(hall) => add_seat(plans, session, number, *hall),
        None => Ok(()),
    }
}

/// The sessions whose plans the command reads.
pub fn read_sessions(
    alloc: Global,
    facts: &Facts,
    command: &Command,
) -> Result<Vec<SessionCode>, Refusal>
    ensures exact { IfOk result (λ codes. (s : Code)
        → Contains codes.items s ↔ IsTrue (spec.reads (relations_of facts.now) command.now s)) }
    ensures memory { OnlyMemory result }
{
    match command {
        Command::Lodge(lodging) => one_session(alloc, lodging.session),
        Command::Decide(decision) => {
            if is_grant(decision.outcome) {
                touched(alloc, facts, command)
            } else {
                appeal_session(alloc, facts, decision)
            }
        }
        _ => touched(alloc, facts, command),
    }
}

/// The session of the appeal that is decided, if the appeal and the session exist.
fn appeal_session(
    alloc: Global,
    facts: &Facts,
    decision: &Decision,
) -> Result<Vec<SessionCode>, Refusal>
    ensures exact { IfOk result (λ codes. (s : Code) → Contains codes.items s
        ↔ IsTrue (is_appeal_for (relations_of facts.now)
        (appeal_at (relations_of facts.now) decision.now.number decision.now.reference) s)) }
    ensures memory { OnlyMemory result }
{
    match facts.appeals.get(&(decision.number, decision.reference)) {
        Some(appeal) if facts.sessions.contains_key(&appeal.session) => {
            one_session(alloc, appeal.session)
        }
        _ => Ok(Vec::new(alloc)),
    }
}

/// A list of one session.
fn one_session(alloc: Global, session: SessionCode) -> Result<Vec<SessionCode>, Refusal>
    ensures exact { IfOk result (λ codes. (s : Code) → Contains codes.items s ↔ IsTrue (same_code session s)) }
    ensures memory { OnlyMemory result }
{
    let mut codes = Vec::new(alloc);
    codes.push(session)?;
    Ok(codes)
}
