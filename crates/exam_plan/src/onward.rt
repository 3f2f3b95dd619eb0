//! Which halls fit some occupant of each hall, kept as people move.
ghost use Rattle.std.specs.Prelude.{◌≡◌, ◌<◌, ◌≤◌, ◌&&◌, ℕ, true, nat_eq, if◌then◌else◌, length, Option, Some, IfOk};
ghost use Rattle.std.specs.Prelude.{IsTrue};
ghost use Rattle.std.specs.Prelude.{slice_index, slice_set};
ghost use Rattle.exam_types.specs.Refusals.{OnlyMemory};
ghost use Rattle.exam_plan.specs.HallSets.{most_halls, holds};
ghost use Rattle.exam_plan.specs.Problems.{IsPlan, seating_of, plan_at};
ghost use Rattle.exam_plan.specs.Searches.{IsOnward, IsShaped, IsEntered, IsLeft, tally_at};

use crate::hall_set::HallSet;
use crate::problem::{Plan, Problem};
use crate::tally::Tally;
use exam_types::Refusal;
use std::alloc::Global;

/// Which halls fit some occupant of each hall. Nobody is in the table before it is noted, which the first search does
/// that needs it; from then on it is kept at each move, since a look at all candidates would take most of a search.
#[derive(Drop)]
pub struct Onward {
    /// For each hall, how many of its occupants each hall fits.
    tallies: Vec<Tally>,
    /// The halls that fit some occupant of each hall.
    pub sets: Vec<HallSet>,
    /// For each hall, the halls with an occupant that it fits.
    pub inward: Vec<HallSet>,
    /// A number for each hall that no occupant stands before.
    pub firsts: Vec<usize>,
    /// Whether the plan's candidates are in the table.
    is_noted: bool,
}

/// Puts the hall into the sets of these halls, or takes it out of them.
fn put_each(sets: &mut Vec<HallSet>, halls: HallSet, hall: usize, inside: bool)
    requires hall { hall < most_halls }
    requires exist { (k : ℕ) → IsTrue (holds halls k) → k < length sets.old.items }
    ensures long { length sets.new.items ≡ length sets.old.items }
    ensures put { (k h : ℕ) → holds (slice_index sets.new.items k) h
        ≡ (if nat_eq h hall && holds halls k then inside else holds (slice_index sets.old.items k) h) }
{
    let mut rest = halls;
    'putting: while let Some(split) = rest.split_first() {
        let (next, others) = split;
        sets[next] = sets[next].put(hall, inside);
        rest = others;
    }
}

impl Onward {
    /// A table with room for the halls of the problem, in which nobody is yet.
    pub fn new(alloc: Global, problem: &Problem) -> Result<Onward, Refusal>
        ensures kept { IfOk result (λ table. (plan : ℕ → Option ℕ) → IsOnward problem.now plan table) }
        ensures memory { OnlyMemory result }
    {
        let halls = problem.hall_count();
        Ok(Onward {
            tallies: vec![in alloc; Tally::none(); halls]?,
            sets: vec![in alloc; HallSet::empty(); halls]?,
            inward: vec![in alloc; HallSet::empty(); halls]?,
            firsts: vec![in alloc; problem.candidate_count(); halls]?,
            is_noted: false,
        })
    }

    /// Adds a candidate to the occupants of a hall.
    fn enter(&mut self, problem: &Problem, hall: usize, candidate: usize)
        requires shaped { IsShaped problem.now self.old }
        requires hall { hall < length problem.now.desk_counts }
        requires candidate { candidate < length problem.now.fit }
        requires room { (k : ℕ) → tally_at self.old.tallies.items hall k ≤ length problem.now.fit }
        ensures { IsEntered problem.now self.old hall candidate self.new }
    {
        let fitting = problem.fitting(candidate);
        let before = self.sets[hall];
        self.tallies[hall].count(fitting);
        put_each(&mut self.inward, fitting.minus(before), hall, true);
        self.sets[hall] = before.union(fitting);
        self.firsts[hall] = self.firsts[hall].min(candidate);
    }

    /// Takes a candidate from the occupants of a hall.
    fn leave(&mut self, problem: &Problem, hall: usize, candidate: usize)
        requires shaped { IsShaped problem.now self.old }
        requires hall { hall < length problem.now.desk_counts }
        requires candidate { candidate < length problem.now.fit }
        requires inside { (k : ℕ) → IsTrue ((seating_of problem.now).fits candidate k)
            → 0 < tally_at self.old.tallies.items hall k }
        ensures { IsLeft problem.now self.old hall candidate self.new }
    {
        let fitting = problem.fitting(candidate);
        self.tallies[hall].discount(fitting);
        let left = self.tallies[hall].counted();
        put_each(&mut self.inward, fitting.minus(left), hall, false);
        self.sets[hall] = left;
    }

    /// Puts all seated candidates into the table, unless they are there.
    pub fn note(&mut self, problem: &Problem, plan: &Plan)
        requires plan { IsPlan problem.now plan.now.items }
        requires kept { IsOnward problem.now (plan_at plan.now.items) self.old }
        ensures kept { IsOnward problem.now (plan_at plan.now.items) self.new }
        ensures noted { self.new.is_noted ≡ true }
    {
        if self.is_noted {
            return;
        }
        for candidate in 0..problem.candidate_count() {
            if let Some(hall) = plan[candidate] {
                self.enter(problem, hall, candidate);
            }
        }
        self.is_noted = true;
    }

    /// Seats a candidate in a hall, also in the table if it is noted.
    pub fn seat(&mut self, problem: &Problem, plan: &mut Plan, candidate: usize, hall: usize)
        requires plan { IsPlan problem.now plan.old.items }
        requires candidate { candidate < length problem.now.fit }
        requires hall { hall < length problem.now.desk_counts }
        requires kept { IsOnward problem.now (plan_at plan.old.items) self.old }
        ensures seated { plan.new.items ≡ slice_set plan.old.items candidate (Some hall) }
        ensures kept { IsOnward problem.now (plan_at plan.new.items) self.new }
        ensures noted { self.new.is_noted ≡ self.old.is_noted }
    {
        if self.is_noted {
            if let Some(from) = plan[candidate] {
                self.leave(problem, from, candidate);
            }
            self.enter(problem, hall, candidate);
        }
        plan[candidate] = Some(hall);
    }
}
