//! One command over a part of an office.
ghost use Rattle.std.specs.Prelude.{◌≡◌, ◌⊎◌, false, true, IsTrue, IfOk, IfErr, OnOk, OnErr};
ghost use Rattle.exam_types.specs.declared.refusal.Refusal.TheVariants.{NoMemory};
ghost use Rattle.exam_types.specs.Refusals.{OnlyMemory};
ghost use Rattle.exam_rules.specs.Lists.{AreListsOf};
ghost use Rattle.exam_rules.specs.Relations.{Code, Relations, relations_of};
ghost use Rattle.exam_commands.specs.FactsMade.{WasMade, early_refusal, facts_made, may_pass_limit};
ghost use Rattle.exam_commands.specs.Good.{IsGood, marks_were_granted};
ghost use Rattle.exam_commands.specs.Limits.{within_limits};
ghost use Rattle.exam_commands.specs.NextPlans as planning;
ghost use Rattle.exam_commands.specs.Orders.{IsInOrder};
ghost use Rattle.exam_commands.specs.Parts as spec;
ghost use Rattle.exam_office.specs.declared.part.Part.{Part as Held};
ghost use Rattle.exam_office.specs.Drafts.{moves_nobody};
ghost use Rattle.exam_office.specs.HeldParts as held;
ghost use Rattle.exam_office.specs.Relisting as listing;
ghost use Rattle.exam_commands.specs.Singles.{AreSingle};
ghost use Rattle.exam_commands.specs.State.{State, office_of};
ghost use Rattle.exam_commands.specs.Steps as steps;
ghost use Rattle.exam_changes.specs.Undoing as undoing;

use crate::part::{Part, PartUndo};
use crate::relisting::{ListUndo, relist};
use crate::staying::stays_within;
use exam_changes::{
    Undo, close, decide, decided_reply, import_rows, lodge, newly_decided, reinstate, retract,
    withdraw,
};
use exam_commands::granting::is_grant;
use exam_commands::{Command, Decision, Reply, stored_state};
use exam_repair::repaired_among;
use exam_rules::{Facts, Seats, SessionLists};
use exam_types::{Day, Refusal, SessionCode};
use std::alloc::Global;
use std::mem;

/// Carries out a command on a day over a part that agrees with a good office on what the command reads, or refuses it.
/// The reply is that of `step` over that office, and the office with the part put back is the office after `step`. The
/// part can take the step back, and the command can be carried out again then. After a refusal the facts and the plans
/// of the part are as before, and the command can be tried again.
pub fn step_part(
    alloc: Global,
    part: &mut Part,
    command: &Command,
    today: Day,
) -> Result<Reply, Refusal>
    requires { held.IsPartFor command.now part.old }
    ensures step { (office after : State) → IsGood office → IsInOrder office
        → spec.Agrees command.now office (held.part_state part.old)
        → spec.IsPutBack command.now office (held.part_state part.new) after
        → steps.MayStep command.now today office result after }
    ensures made { IfOk result (held.IsStep command.now today (held.part_state part.old) part.new) }
    ensures back { OnOk result (held.CanGoBack part.new) }
    ensures again { OnOk result ((back : Held) → held.IsBack part.new back → held.IsPartFor command.now back) }
    ensures refusal { IfErr result (spec.IsRefusedIn command.now today (held.part_state part.old)) }
    ensures err { OnErr result (held.part_state part.new ≡ held.part_state part.old) }
    ensures ready { OnErr result (held.IsPartFor command.now part.new) }
    ensures lists { held.HasLists part.old → OnErr result (held.HasLists part.new) }
{
    part.list(alloc, command)?;
    step_listed(alloc, part, command, today)
}

/// Does what `step_part` does, for a part whose lists and sessions are made.
fn step_listed(
    alloc: Global,
    part: &mut Part,
    command: &Command,
    today: Day,
) -> Result<Reply, Refusal>
    requires part { held.IsPartFor command.now part.old }
    requires listed { held.IsListed command.now part.old }
    ensures step { (office after : State) → IsGood office → IsInOrder office
        → spec.Agrees command.now office (held.part_state part.old)
        → spec.IsPutBack command.now office (held.part_state part.new) after
        → steps.MayStep command.now today office result after }
    ensures made { IfOk result (held.IsStep command.now today (held.part_state part.old) part.new) }
    ensures back { OnOk result (held.CanGoBack part.new) }
    ensures again { OnOk result ((back : Held) → held.IsBack part.new back → held.IsPartFor command.now back) }
    ensures refusal { IfErr result (spec.IsRefusedIn command.now today (held.part_state part.old)) }
    ensures err { OnErr result (held.part_state part.new ≡ held.part_state part.old) }
    ensures listed { OnErr result (held.IsListed command.now part.new) }
{
    part.show_order();
    let decided = newly_decided(&part.facts, command);
    let (facts, reply) = change(alloc, &mut part.facts, &part.plans, command, today)?;
    match settled(
        alloc,
        &part.facts,
        &mut part.lists,
        &part.sessions,
        &part.plans,
        command,
    ) {
        Ok((lists, next)) => {
            let reply = last_reply(&part.facts, &part.plans, &next, decided, command, reply);
            let plans = put_plans(&mut part.plans, next);
            part.undo = PartUndo {
                facts,
                lists,
                plans,
            };
            Ok(reply)
        }
        Err(refusal) => {
            facts.take_back(&mut part.facts);
            Err(refusal)
        }
    }
}

/// Puts the next plans in the place of these, and returns these; nothing if the plans stay.
fn put_plans(plans: &mut Seats, next: Option<Seats>) -> Option<Seats>
    ensures { planning.ArePut next plans.old.entries plans.new.entries result }
{
    match next {
        Some(next) => Some(mem::replace(plans, next)),
        None => None,
    }
}

/// Makes the change of a command in the facts, before any limit is tested. Returns how to take it back, and what the
/// command answers if it does not depend on the plans.
fn change(
    alloc: Global,
    facts: &mut Facts,
    plans: &Seats,
    command: &Command,
    today: Day,
) -> Result<(Undo, Reply), Refusal>
    requires single { AreSingle (relations_of facts.old) }
    requires marks { IsTrue (marks_were_granted (relations_of facts.old)) }
    ensures ok { OnOk result (relations_of facts.new ≡ facts_made command.now today
        (office_of facts.old plans.now)) }
    ensures back { IfOk result (λ made. undoing.TakesBack made.0 (relations_of facts.new)
        (relations_of facts.old)) }
    ensures reply { IfOk result (λ made. made.1 ≡ planning.first_reply command.now (relations_of facts.old)
        (relations_of facts.new)) }
    ensures checked { OnOk result (early_refusal command.now today (office_of facts.old plans.now) ≡ None) }
    ensures refusal { IfErr result (λ e. (e ≡ NoMemory) ⊎ (early_refusal command.now today
        (office_of facts.old plans.now) ≡ Some e)) }
    ensures same { OnErr result (relations_of facts.new ≡ relations_of facts.old) }
{
    match command {
        Command::Import(import) => import_rows(alloc, facts, import),
        Command::Withdraw(number, paper) => {
            Ok((withdraw(facts, *number, *paper)?, Reply::Withdrawn))
        }
        Command::Reinstate(number, paper) => {
            Ok((reinstate(facts, *number, *paper)?, Reply::Reinstated))
        }
        Command::CloseHall(session, hall) => Ok((close(facts, *session, *hall)?, Reply::Closed)),
        Command::Lodge(lodging) => {
            let undo = lodge(facts, plans, today, lodging)?;
            let state = stored_state(facts, lodging.number, lodging.reference);
            Ok((undo, Reply::Lodged(state)))
        }
        Command::Retract(number, reference) => {
            Ok((retract(facts, *number, *reference)?, Reply::Retracted))
        }
        Command::Decide(decision) => {
            Ok((decide(alloc, facts, decision, today)?, Reply::Unchanged))
        }
    }
}

/// Makes the change of a lodging or a retraction in the facts of a good office, if they stay within every limit. No
/// list shows appeals, so the lists need no change. After a refusal the facts are as before.
pub(crate) fn change_within(
    alloc: Global,
    facts: &mut Facts,
    lists: &SessionLists,
    seats: &Seats,
    command: &Command,
    today: Day,
) -> Result<(Undo, Reply), Refusal>
    requires alone { moves_nobody command.now ≡ true }
    requires good { IsGood (office_of facts.old seats.now) }
    requires order { IsInOrder (office_of facts.old seats.now) }
    requires lists { AreListsOf (relations_of facts.old) lists.now }
    ensures ok { OnOk result (relations_of facts.new ≡ facts_made command.now today
        (office_of facts.old seats.now)) }
    ensures back { IfOk result (λ made. undoing.TakesBack made.0 (relations_of facts.new)
        (relations_of facts.old)) }
    ensures reply { IfOk result (λ made. made.1 ≡ planning.first_reply command.now (relations_of facts.old)
        (relations_of facts.new)) }
    ensures checked { OnOk result (early_refusal command.now today (office_of facts.old seats.now) ≡ None) }
    ensures limits { OnOk result (IsTrue (within_limits (relations_of facts.new))) }
    ensures refusal { IfErr result (spec.IsRefusedIn command.now today (office_of facts.old seats.now)) }
    ensures same { OnErr result (relations_of facts.new ≡ relations_of facts.old) }
{
    let (undo, reply) = change(alloc, facts, seats, command, today)?;
    if stays_within(facts, lists, command) {
        return Ok((undo, reply));
    }
    undo.take_back(facts);
    Err(Refusal::TooMany)
}

/// Brings the lists up to date with the changed facts, tests the limits, and repairs the plans of the sessions that the
/// command touches. After a refusal the lists are as before.
fn settled(
    alloc: Global,
    facts: &Facts,
    lists: &mut SessionLists,
    sessions: &[SessionCode],
    plans: &Seats,
    command: &Command,
) -> Result<(ListUndo, Option<Seats>), Refusal>
    requires { (r : Relations) × AreListsOf r lists.old × WasMade command.now r (relations_of facts.now) }
    ensures lists { OnOk result (AreListsOf (relations_of facts.now) lists.new) }
    ensures back { IfOk result (λ made. listing.ListsBack made.0 lists.new lists.old) }
    ensures limits { OnOk result (IsTrue (within_limits (relations_of facts.now))) }
    ensures plans { IfOk result (λ made. planning.AreNext command.now (relations_of facts.now) sessions.now
        plans.now.entries made.1) }
    ensures same { OnErr result (listing.SameLists lists.old lists.new) }
    ensures refusal { IfErr result (planning.IsLimitRefusal command.now (relations_of facts.now)) }
{
    let listed = relist(alloc, facts, lists, command)?;
    match limited_plans(alloc, facts, lists, sessions, plans, command) {
        Ok(next) => Ok((listed, next)),
        Err(refusal) => {
            listed.take_back(lists);
            Err(refusal)
        }
    }
}

/// The repaired plans of the sessions that the command touches, if the facts are within every limit.
fn limited_plans(
    alloc: Global,
    facts: &Facts,
    lists: &SessionLists,
    sessions: &[SessionCode],
    plans: &Seats,
    command: &Command,
) -> Result<Option<Seats>, Refusal>
    requires lists { AreListsOf (relations_of facts.now) lists.now }
    requires made { (r : Relations) × WasMade command.now r (relations_of facts.now) }
    ensures limits { OnOk result (IsTrue (within_limits (relations_of facts.now))) }
    ensures plans { IfOk result (planning.AreNext command.now (relations_of facts.now) sessions.now
        plans.now.entries) }
    ensures refusal { IfErr result (planning.IsLimitRefusal command.now (relations_of facts.now)) }
{
    if !stays_within(facts, lists, command) {
        return Err(Refusal::TooMany);
    }
    next_plans(alloc, facts, lists, sessions, plans, command)
}

/// The repaired plans of the sessions that the command touches; none if the command changes no plan.
fn next_plans(
    alloc: Global,
    facts: &Facts,
    lists: &SessionLists,
    sessions: &[SessionCode],
    plans: &Seats,
    command: &Command,
) -> Result<Option<Seats>, Refusal>
    requires lists { AreListsOf (relations_of facts.now) lists.now }
    requires limits { IsTrue (within_limits (relations_of facts.now)) }
    ensures plans { IfOk result (planning.AreNext command.now (relations_of facts.now) sessions.now
        plans.now.entries) }
    ensures memory { OnlyMemory result }
{
    match command {
        Command::Lodge(_) | Command::Retract(_, _) => Ok(None),
        Command::Decide(decision) => granted_plans(alloc, facts, lists, sessions, plans, decision),
        Command::Import(_)
        | Command::Withdraw(_, _)
        | Command::Reinstate(_, _)
        | Command::CloseHall(_, _) => Ok(Some(repaired_among(
            alloc, facts, lists, sessions, plans, None,
        )?)),
    }
}

/// The repaired plans after a grant, with the first turn for the appellant; none if the decision is no grant.
fn granted_plans(
    alloc: Global,
    facts: &Facts,
    lists: &SessionLists,
    sessions: &[SessionCode],
    plans: &Seats,
    decision: &Decision,
) -> Result<Option<Seats>, Refusal>
    requires lists { AreListsOf (relations_of facts.now) lists.now }
    requires limits { IsTrue (within_limits (relations_of facts.now)) }
    ensures plans { IfOk result (planning.AreDecided decision.now decision.now.outcome (relations_of facts.now)
        sessions.now plans.now.entries) }
    ensures memory { OnlyMemory result }
{
    if !is_grant(decision.outcome) {
        return Ok(None);
    }
    let first = Some(decision.number);
    Ok(Some(repaired_among(alloc, facts, lists, sessions, plans, first)?))
}

/// What the command answers; for an appeal with a new decision its state, the appellant's hall, and how many others
/// moved.
fn last_reply(
    facts: &Facts,
    plans: &Seats,
    next: &Option<Seats>,
    decided: Option<SessionCode>,
    command: &Command,
    first: Reply,
) -> Reply
    ensures { result ≡ planning.last_reply command.now decided first (relations_of facts.now) plans.now.entries
        (planning.after_plans next.now plans.now.entries) }
{
    let after = match next {
        Some(next) => next,
        None => plans,
    };
    match (command, decided) {
        (Command::Decide(decision), Some(session)) => {
            decided_reply(facts, plans, after, decision, session)
        }
        _ => first,
    }
}
