//! A command that is carried out on an office and may still be taken back.
ghost use Rattle.std.specs.Prelude.{◌≡◌, ◌⊎◌, true, Ok, Err, IfOk, IfErr, OnErr};
ghost use Rattle.exam_types.specs.declared.refusal.Refusal.TheVariants.{NoMemory};
ghost use Rattle.exam_rules.specs.Relations.{relations_of};
ghost use Rattle.exam_office.specs.Drafts as spec;
ghost use Rattle.exam_office.specs.HeldParts as held;
ghost use Rattle.exam_commands.specs.Good.{IsGood};
ghost use Rattle.exam_commands.specs.Orders.{IsInOrder};
ghost use Rattle.exam_commands.specs.Parts.{IsRefusedIn};
ghost use Rattle.exam_commands.specs.State.{State};
ghost use Rattle.exam_commands.specs.Steps.{Step};
ghost use Rattle.exam_changes.specs.TablesBefore.{WerePlans, WereTables};

use crate::office::Office;
use crate::part::{Part, PartUndo};
use crate::part_steps::{change_within, step_part};
use crate::relisting::ListUndo;
use crate::seat_changes::{drop_old_seats, put_seats, take_back_seats};
use exam_changes::{PlansBefore, TablesBefore};
use exam_commands::{Command, Reply};
use exam_rules::{Facts, Seats};
use exam_types::{Day, Refusal};
use std::alloc::Global;
use std::collections::BTreeMap;
use std::marker::Model;

/// A command that is carried out on an office and may still be taken back, so that a store can save it first. Finishing
/// it and taking it back take no memory, so neither can fail.
#[derive(Drop)]
pub struct Draft {
    /// The part of the office that the command reads, after the command. It has no plans if the command lodges or
    /// retracts an appeal.
    part: Part,
    /// The seats: those of the new plans are in, and those of the old plans are not yet taken away.
    seats: Seats,
    reply: Reply,
}

impl Model for Draft {
    ghost use Rattle.exam_office.specs.Drafts.{DraftIn, IsDraft, state_after, state_before};

    ghost Value = { DraftIn };

    ghost view = { λ d. record {
      before = state_before d.part d.seats.entries;
      after = state_after d.part d.seats.entries;
      reply = d.reply;
    } };

    ghost invariant = { λ d. IsDraft d.part d.seats.entries };
}

impl Draft {
    /// Carries out a command on a day, or refuses it. A refusal returns the office as it was.
    pub fn of(
        alloc: Global,
        office: Office,
        command: &Command,
        today: Day,
    ) -> Result<Draft, (Refusal, Office)>
        ensures before { IfOk result (λ draft. draft.before ≡ office) }
        ensures step { IfOk result (λ draft. Step command.now today office (Ok draft.reply) draft.after) }
        ensures refusal { IfErr result (λ e. (e.0 ≡ NoMemory)
            ⊎ Step command.now today office (Err e.0) office) }
        ensures same { IfErr result (λ e. e.1 ≡ office) }
    {
        if moves_nobody(command) {
            Draft::of_office(alloc, office, command, today)
        } else {
            Draft::of_part(alloc, office, command, today)
        }
    }

    /// Carries out a lodging or a retraction. It moves nobody and reads at most one seat, so no plan is copied.
    fn of_office(
        alloc: Global,
        office: Office,
        command: &Command,
        today: Day,
    ) -> Result<Draft, (Refusal, Office)>
        requires { spec.moves_nobody command.now ≡ true }
        ensures before { IfOk result (λ draft. draft.before ≡ office) }
        ensures step { IfOk result (λ draft. Step command.now today office (Ok draft.reply) draft.after) }
        ensures refusal { IfErr result (λ e. (e.0 ≡ NoMemory)
            ⊎ Step command.now today office (Err e.0) office) }
        ensures same { IfErr result (λ e. e.1 ≡ office) }
    {
        office.show_good();
        office.show_order();
        let (mut facts, lists, seats) = office.into_parts();
        match change_within(alloc, &mut facts, &lists, &seats, command, today) {
            Ok((undo, reply)) => {
                facts.show_order();
                let part = Part {
                    facts,
                    plans: BTreeMap::new(alloc),
                    is_listed: true,
                    lists,
                    sessions: Vec::new(alloc),
                    undo: PartUndo {
                        facts: undo,
                        lists: ListUndo::Nothing,
                        plans: None,
                    },
                };
                Ok(Draft { part, seats, reply })
            }
            Err(refusal) => Err((refusal, Office::holding(facts, lists, seats))),
        }
    }

    /// Carries out a command over the part of the office that it reads.
    fn of_part(
        alloc: Global,
        office: Office,
        command: &Command,
        today: Day,
    ) -> Result<Draft, (Refusal, Office)>
        ensures before { IfOk result (λ draft. draft.before ≡ office) }
        ensures step { IfOk result (λ draft. Step command.now today office (Ok draft.reply) draft.after) }
        ensures refusal { IfErr result (λ e. (e.0 ≡ NoMemory)
            ⊎ Step command.now today office (Err e.0) office) }
        ensures same { IfErr result (λ e. e.1 ≡ office) }
    {
        office.show_good();
        office.show_order();
        let (mut part, mut seats) = Part::of(alloc, office, command)?;
        match step_office(alloc, &mut part, &mut seats, command, today) {
            Ok(reply) => Ok(Draft { part, seats, reply }),
            Err(refusal) => Err((refusal, Office::holding(part.facts, part.lists, seats))),
        }
    }

    /// The office after the command, and what the command answers.
    pub fn finish(self) -> (Office, Reply)
        ensures office { result.0 ≡ self.after }
        ensures reply { result.1 ≡ self.reply }
    {
        let Draft {
            part,
            mut seats,
            reply,
        } = self;
        if let Some(old) = &part.undo.plans {
            drop_old_seats(&mut seats, old, &part.plans);
        }
        (Office::holding(part.facts, part.lists, seats), reply)
    }

    /// The office before the command.
    pub fn take_back(self) -> Office
        ensures { result ≡ self.before }
    {
        let Draft {
            mut part,
            mut seats,
            reply: _,
        } = self;
        take_back(&mut part, &mut seats);
        Office::holding(part.facts, part.lists, seats)
    }

    /// The facts after the command.
    pub fn facts(&self) -> &Facts
        ensures { relations_of result.now ≡ self.now.after.relations }
    {
        &self.part.facts
    }

    /// What each table of facts was before the command.
    pub fn tables_before(&self) -> TablesBefore<'_>
        ensures { WereTables result self.now.before.relations self.now.after.relations }
    {
        self.part.facts.show_order();
        self.part.undo.facts.tables_before()
    }

    /// The plans that the command may have changed, before it and after it.
    pub fn plans_before(&self) -> PlansBefore<'_>
        ensures { WerePlans result self.now.before.seats self.now.after.seats }
    {
        // The contract of `len` says that the keys rise.
        let _ = self.seats.len();
        match &self.part.undo.plans {
            Some(old) => PlansBefore::Plans(old, &self.part.plans),
            None => PlansBefore::Same,
        }
    }

    /// The offices before and after the command are good, and their keys rise. Does nothing at run time.
    pub fn show_good(&self)
        ensures before { IsGood self.now.before }
        ensures after { IsGood self.now.after }
        ensures before_rises { IsInOrder self.now.before }
        ensures after_rises { IsInOrder self.now.after }
    {
        // Reading a field shows the type's invariant.
        let _ = &self.seats;
    }
}

/// Whether the command lodges or retracts an appeal.
fn moves_nobody(command: &Command) -> bool
    ensures { result ≡ spec.moves_nobody command.now }
{
    matches!(command, Command::Lodge(_) | Command::Retract(_, _))
}

/// Carries out a command on a day over the part of an office that it reads, and puts the new plans among the seats of
/// the office. After a refusal the seats are as before, and so are the facts and the plans of the part.
fn step_office(
    alloc: Global,
    part: &mut Part,
    seats: &mut Seats,
    command: &Command,
    today: Day,
) -> Result<Reply, Refusal>
    requires part { held.IsPartFor command.now part.old }
    requires lists { held.HasLists part.old }
    requires office { (office : State)
        × spec.IsOfficeOf command.now seats.old.entries (held.part_state part.old) office }
    ensures ok { IfOk result (λ reply. (office : State)
        → spec.IsOfficeOf command.now seats.old.entries (held.part_state part.old) office
        → spec.IsDraftOf command.now today office part.new seats.new.entries reply) }
    ensures refusal { IfErr result (IsRefusedIn command.now today (held.part_state part.old)) }
    ensures part { OnErr result (held.part_state part.new ≡ held.part_state part.old) }
    ensures lists { OnErr result (held.HasLists part.new) }
    ensures seats { OnErr result (seats.new.entries ≡ seats.old.entries) }
{
    part.show_order();
    let reply = step_part(alloc, part, command, today)?;
    part.facts.show_order();
    part.show_order();
    match &part.undo.plans {
        Some(_) => match put_seats(seats, &part.plans) {
            Ok(()) => Ok(reply),
            Err(refusal) => {
                take_back(part, seats);
                Err(refusal)
            }
        },
        None => Ok(reply),
    }
}

/// Takes the step of the part back, and puts its old plans among the seats of the office.
fn take_back(part: &mut Part, seats: &mut Seats)
    requires part { held.CanGoBack part.old }
    requires seats { spec.HasOld part.old.undo.plans seats.old.entries }
    ensures part { held.IsBack part.old part.new }
    ensures seats { seats.new.entries
        ≡ spec.seats_before part.old.undo.plans part.old.plans.entries seats.old.entries }
{
    if let Some(old) = &part.undo.plans {
        take_back_seats(seats, old, &part.plans);
    }
    part.take_back();
}
