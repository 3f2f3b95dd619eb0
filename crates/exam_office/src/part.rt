//! The part of an office that one command reads.
ghost use Rattle.std.specs.Prelude.{◌≡◌, IfOk, IfErr, OnOk, OnErr};
ghost use Rattle.exam_types.specs.declared.refusal.Refusal.TheVariants.{NoMemory};
ghost use Rattle.exam_types.specs.Refusals.{OnlyMemory};
ghost use Rattle.exam_rules.specs.Orders.{KeysRise};
ghost use Rattle.exam_rules.specs.Relations.{relations_of, seat_cmp};
ghost use Rattle.exam_commands.specs.declared.command.Command.{Command as Done};
ghost use Rattle.exam_commands.specs.Good.{IsGood};
ghost use Rattle.exam_commands.specs.Orders.{IsInOrder};
ghost use Rattle.exam_commands.specs.Parts.{Agrees};
ghost use Rattle.exam_commands.specs.State.{State, office_of};

use crate::lending::{read_plans, read_sessions};
use crate::office::Office;
use crate::relisting::ListUndo;
use exam_changes::Undo;
use exam_commands::Command;
use exam_rules::{Facts, Seats, SessionLists, session_lists};
use exam_types::{Refusal, SessionCode};
use std::alloc::Global;
use std::mem;

/// The facts of an office, and its plans of the sessions that one command reads. After a step over it the part also
/// holds how to take that step back.
#[derive(Drop)]
pub struct Part {
    pub facts: Facts,
    /// Where each candidate sits in the sessions whose plans the command reads. Nobody is seated in other sessions.
    pub plans: Seats,
    /// Whether the lists and the sessions are made. If they are not, the step makes them.
    pub(crate) is_listed: bool,
    /// The members and the open halls of each session of the facts.
    pub(crate) lists: SessionLists,
    /// The sessions whose plans the command reads.
    pub(crate) sessions: Vec<SessionCode>,
    pub(crate) undo: PartUndo,
}

/// How to take a step back.
#[derive(Drop)]
pub struct PartUndo {
    pub facts: Undo,
    pub lists: ListUndo,
    /// The plans as they were, if they have changed.
    pub plans: Option<Seats>,
}

impl Part {
    ghost use Rattle.exam_office.specs.HeldParts as spec;

    /// Takes an office apart: returns the part of it that the command reads, and its seats. A refusal returns the
    /// office.
    pub fn of(
        alloc: Global,
        office: Office,
        command: &Command,
    ) -> Result<(Part, Seats), (Refusal, Office)>
        ensures agrees { IfOk result (λ made. Agrees command.now office (spec.part_state made.0)) }
        ensures ready { IfOk result (λ made. spec.IsPartFor command.now made.0) }
        ensures lists { IfOk result (λ made. spec.HasLists made.0) }
        ensures seats { IfOk result (λ made. made.1.entries ≡ office.seats) }
        ensures memory { IfErr result (λ e. e.0 ≡ NoMemory) }
        ensures same { IfErr result (λ e. e.1 ≡ office) }
    {
        office.show_good();
        office.show_order();
        let (sessions, plans) = match read_plans(alloc, &office, command) {
            Ok(read) => read,
            Err(refusal) => return Err((refusal, office)),
        };
        let (facts, lists, seats) = office.into_parts();
        let part = Part {
            facts,
            plans,
            is_listed: true,
            lists,
            sessions,
            undo: PartUndo::nothing(),
        };
        Ok((part, seats))
    }

    /// A part with these facts and plans, wherever they come from. The step over it makes the lists that it needs.
    pub fn new(alloc: Global, facts: Facts, plans: Seats) -> Part
        ensures state { spec.part_state result ≡ office_of facts plans }
        ensures ready { (done : Done) (office : State) → IsGood office → IsInOrder office
            → Agrees done office (office_of facts plans) → spec.IsPartFor done result }
    {
        Part {
            facts,
            plans,
            is_listed: false,
            lists: SessionLists::empty(alloc),
            sessions: Vec::new(alloc),
            undo: PartUndo::nothing(),
        }
    }

    /// A part with a copy of the facts of the office, and its plans of the sessions that the command reads.
    pub fn copy_of(alloc: Global, office: &Office, command: &Command) -> Result<Part, Refusal>
        ensures agrees { IfOk result (λ part. Agrees command.now office.now (spec.part_state part)) }
        ensures ready { IfOk result (spec.IsPartFor command.now) }
        ensures memory { OnlyMemory result }
    {
        office.show_good();
        office.show_order();
        let (_, plans) = read_plans(alloc, office, command)?;
        let facts = copied_facts(office.facts())?;
        Ok(Part::new(alloc, facts, plans))
    }

    /// Makes the lists and the sessions, if they are not made. After a refusal the part is as before.
    pub(crate) fn list(&mut self, alloc: Global, command: &Command) -> Result<(), Refusal>
        requires { spec.IsKept command.now self.old }
        ensures listed { OnOk result (spec.IsListed command.now self.new) }
        ensures state { spec.part_state self.new ≡ spec.part_state self.old }
        ensures err { OnErr result (self.new ≡ self.old) }
        ensures memory { OnlyMemory result }
    {
        if self.is_listed {
            return Ok(());
        }
        let lists = session_lists(alloc, &self.facts)?;
        let sessions = read_sessions(alloc, &self.facts, command)?;
        self.lists = lists;
        self.sessions = sessions;
        self.is_listed = true;
        Ok(())
    }

    /// Takes the step back. Takes no memory.
    pub fn take_back(&mut self)
        requires { spec.CanGoBack self.old }
        ensures { spec.IsBack self.old self.new }
    {
        let undo = mem::replace(&mut self.undo, PartUndo::nothing());
        undo.facts.take_back(&mut self.facts);
        undo.lists.take_back(&mut self.lists);
        if let Some(old) = undo.plans {
            self.plans = old;
        }
    }

    /// The keys of the seats rise. Does nothing at run time.
    pub(crate) fn show_order(&self)
        ensures { KeysRise seat_cmp self.now.plans.entries }
    {
        // The contract of `len` says that the keys rise.
        let _ = self.plans.len();
    }
}

fn copied_facts(facts: &Facts) -> Result<Facts, Refusal>
    ensures ok { IfOk result (λ copy. relations_of copy ≡ relations_of facts.now) }
    ensures memory { OnlyMemory result }
{
    Ok(facts.clone()?)
}

impl PartUndo {
    /// There was no step.
    fn nothing() -> Self {
        PartUndo {
            facts: Undo::Nothing,
            lists: ListUndo::Nothing,
            plans: None,
        }
    }
}
