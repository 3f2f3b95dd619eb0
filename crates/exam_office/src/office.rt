//! The office: its facts and the plan of each session.
ghost use Rattle.std.specs.Prelude.{◌≡◌, ◌⊎◌, ℕ, IsSome, IsTrue, IfOk, IfErr, OnOk};
ghost use Rattle.std.specs.Bool.{Decides};
ghost use Rattle.std.specs.Option.{option_map};
ghost use Rattle.exam_types.specs.declared.refusal.Refusal.TheVariants.{NoMemory, BadStore};
ghost use Rattle.exam_plan.specs.Matching.{IsBest};
ghost use Rattle.exam_rules.specs.Lists.{AreListsOf};
ghost use Rattle.exam_rules.specs.Seatings.{seating, plan_of};
ghost use Rattle.exam_commands.specs.Good.{IsGood};
ghost use Rattle.exam_commands.specs.Headline.{IsSeated};
ghost use Rattle.exam_commands.specs.Limits.{holds_at_most};
ghost use Rattle.exam_rules.specs.Relations.{Code, relations_of};
ghost use Rattle.exam_commands.specs.Orders.{IsInOrder};
ghost use Rattle.exam_commands.specs.Own.{own_of, shown};
ghost use Rattle.exam_rules.specs.Sessions.{IsSessionRefusal};
ghost use Rattle.exam_commands.specs.State.{empty_state, office_of};
ghost use Rattle.exam_views.specs.Desks.{rows_without_desks};
ghost use Rattle.exam_views.specs.Views.{IsViewOf};

use exam_commands::Own;
use exam_repair::{first_bad_listed, limits};
use exam_rules::{Facts, Seats, SessionLists, session_lists};
use exam_types::{Number, Refusal, SessionCode};
use exam_views::{SessionView, own_source, view_source};
use std::alloc::Global;
use std::collections::BTreeMap;
use std::marker::Model;

/// The facts of an office, and the plan of each session. Contracts see the relations, and who sits where.
#[derive(Drop)]
pub struct Office {
    facts: Facts,
    /// The members and the open halls of each session, so that a question about one session does not go over all
    /// candidates.
    lists: SessionLists,
    seats: Seats,
}

impl Model for Office {
    ghost use Rattle.exam_rules.specs.Relations.{relations_of};
    ghost use Rattle.exam_rules.specs.Lists.{AreListsOf};
    ghost use Rattle.exam_commands.specs.State.{State, office_of};
    ghost use Rattle.exam_commands.specs.Good.{IsGood};

    ghost Value = { State };

    ghost view = { λ a. office_of a.facts a.seats };

    ghost invariant = { λ a. IsGood (office_of a.facts a.seats) × AreListsOf (relations_of a.facts) a.lists };
}

impl Office {
    /// An office with no facts. Takes no memory.
    pub fn empty(alloc: Global) -> Self
        ensures { result ≡ empty_state }
    {
        Office {
            facts: Facts::new(alloc),
            lists: SessionLists::empty(alloc),
            seats: BTreeMap::new(alloc),
        }
    }

    /// The office with these facts and plans. Refused with `BadStore` exactly if they are not good, unless there is not
    /// enough memory.
    pub fn from_parts(alloc: Global, facts: Facts, seats: Seats) -> Result<Self, Refusal>
        ensures ok { IfOk result (λ office. office ≡ office_of facts seats) }
        ensures good { OnOk result (IsGood (office_of facts seats)) }
        ensures refusal { IfErr result (λ e. (e ≡ NoMemory) ⊎ ((e ≡ BadStore)
            × (IsGood (office_of facts seats) → ⊥))) }
    {
        let lists = good_lists(alloc, &facts, &seats)?;
        Ok(Office::holding(facts, lists, seats))
    }

    pub fn facts(&self) -> &Facts
        ensures { relations_of result.now ≡ self.now.relations }
    {
        &self.facts
    }

    pub fn seats(&self) -> &Seats
        ensures { result.now.entries ≡ self.now.seats }
    {
        &self.seats
    }

    /// One session with its plan. Refused if there is no such session, or not enough memory.
    pub fn session_view(&self, alloc: Global, session: &SessionCode) -> Result<SessionView, Refusal>
        ensures ok { IfOk result (IsViewOf self.now session.now) }
        ensures refusal { IfErr result (IsSessionRefusal self.now.relations session.now) }
    {
        let Some(row) = self.facts.sessions.get(session) else {
            return Err(Refusal::UnknownSession);
        };
        view_source::view_of(alloc, &self.facts, &self.lists, &self.seats, session, row)
    }

    /// The candidate with the number, with their sessions and their appeals, or none. The time depends on their own
    /// rows, on how many sit in their sessions, and on the appeals of those who sit in their halls, since their desks
    /// are counted. Takes no memory for an unknown number.
    pub fn own(&self, alloc: Global, number: Number) -> Result<Option<Own>, Refusal>
        ensures ok { IfOk result (λ own. option_map shown own ≡ own_of self.now number) }
        ensures memory { IfErr result (λ e. (e ≡ NoMemory) × IsSome (own_of self.now number)) }
    {
        own_source::own_of(alloc, &self.facts, &self.lists, &self.seats, number)
    }

    /// What `own` shows but for the desks. Counts nobody: the time depends on the candidate's own rows.
    pub fn own_without_desks(&self, alloc: Global, number: Number) -> Result<Option<Own>, Refusal>
        ensures ok { IfOk result (λ own. option_map shown own
            ≡ option_map rows_without_desks (own_of self.now number)) }
        ensures memory { IfErr result (λ e. (e ≡ NoMemory) × IsSome (own_of self.now number)) }
    {
        own_source::own_without_desks(alloc, &self.facts, &self.seats, number)
    }

    /// Whether no session has more openings than `openings`, and no set of features a greater sum than `greatest_sum`:
    /// what an older version of the tables could hold.
    pub fn holds_at_most(&self, openings: usize, greatest_sum: u32) -> bool
        ensures { result ≡ holds_at_most openings greatest_sum self.now.relations }
    {
        limits::holds_at_most(&self.facts, &self.lists, openings, greatest_sum)
    }

    /// The members and the open halls of each session.
    pub(crate) fn lists(&self) -> &SessionLists
        ensures { AreListsOf self.now.relations result.now }
    {
        &self.lists
    }

    /// The facts, their lists and the plans.
    pub(crate) fn into_parts(self) -> (Facts, SessionLists, Seats)
        ensures facts { relations_of result.0 ≡ self.relations }
        ensures lists { AreListsOf self.relations result.1 }
        ensures seats { result.2.entries ≡ self.seats }
    {
        let Office {
            facts,
            lists,
            seats,
        } = self;
        (facts, lists, seats)
    }

    /// The office with these facts and plans, which are good, and the lists of the facts.
    pub(crate) fn holding(facts: Facts, lists: SessionLists, seats: Seats) -> Self
        requires good { IsGood (office_of facts seats) }
        requires lists { AreListsOf (relations_of facts) lists }
        ensures { result ≡ office_of facts seats }
    {
        Office {
            facts,
            lists,
            seats,
        }
    }

    /// An office is good. Does nothing at run time.
    pub fn show_good(&self)
        ensures { IsGood self.now }
    {
        // Reading a field shows the type's invariant.
        let _ = &self.facts;
    }

    /// The keys of every table and of the seats rise. Does nothing at run time.
    pub fn show_order(&self)
        ensures { IsInOrder self.now }
    {
        self.facts().show_order();
        // The contract of `len` says that the keys rise.
        let _ = self.seats().len();
    }

    /// In every session, each seated candidate is a member and has a fitting hall and a desk of their own, and no
    /// lawful plan seats more. Does nothing at run time.
    pub fn show_seated(&self)
        ensures { (s : Code) → IsSeated self.now s }
    {
        self.show_good();
        self.show_order();
    }
}

/// The members and the open halls of each session of a good office. Refused with `BadStore` exactly if these facts and
/// plans are no good office, unless there is not enough memory.
fn good_lists(alloc: Global, facts: &Facts, seats: &Seats) -> Result<SessionLists, Refusal>
    ensures ok { IfOk result (λ lists. AreListsOf (relations_of facts.now) lists) }
    ensures good { OnOk result (IsGood (office_of facts.now seats.now)) }
    ensures refusal { IfErr result (λ e. (e ≡ NoMemory) ⊎ ((e ≡ BadStore)
        × (IsGood (office_of facts.now seats.now) → ⊥))) }
{
    let lists = session_lists(alloc, facts)?;
    match first_bad_listed(alloc, facts, &lists, seats)? {
        None => Ok(lists),
        Some(_) => Err(Refusal::BadStore),
    }
}
