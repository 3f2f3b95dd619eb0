//! The seating problem of a session, by indices.
ghost use Rattle.std.specs.Prelude.{◌≡◌, ℕ, ◌<◌, ◌≤◌, length, map, nat_eq, All, IsTrue, IfOk};
ghost use Rattle.std.specs.Prelude.{slice_index};
ghost use Rattle.std.specs.List.{list_any, IsDistinct};
ghost use Rattle.exam_types.specs.Refusals.{OnlyMemory};
ghost use Rattle.exam_plan.specs.HallSets.{most_halls, holds, halls_below, sets_of};
ghost use Rattle.exam_plan.specs.Problems.{IsProblem, most_members, seating_of};

use crate::hall_set::{HallSet, MOST_HALLS, Mask};
use exam_types::Refusal;
use std::alloc::Global;
use std::marker::Model;

/// The most candidates that a problem may have, and so the most members of a session.
pub const MOST_MEMBERS: usize = 4_096;

/// Where each candidate sits, by index: a hall or none.
pub type Plan = Vec<Option<usize>>;

/// Who is to be seated in which halls. Candidates and halls are indices in the order of their numbers
/// and codes.
#[derive(Drop)]
pub struct Problem {
    desk_counts: Vec<u32>,
    fit: Vec<HallSet>,
    rank: Vec<u32>,
}

impl Model for Problem {
    ghost use Rattle.std.specs.Prelude.{length, map};
    ghost use Rattle.exam_plan.specs.HallSets.{halls_below};
    ghost use Rattle.exam_plan.specs.Problems as problems;

    ghost Value = { problems.Problem };

    ghost view = { λ a. record {
      desk_counts = a.desk_counts.items;
      fit = map (halls_below (length a.desk_counts.items)) a.fit.items;
      rank = a.rank.items;
    } };

    ghost invariant = { λ a. problems.AreMasks a.desk_counts.items a.fit.items a.rank.items };
}

/// The set of the halls of a row.
fn set_of(row: &[usize]) -> HallSet
    requires { All (λ h. h < most_halls) row.now }
    ensures { (h : ℕ) → holds result h ≡ list_any (nat_eq h) row.now }
{
    let mut set = HallSet::empty();
    for hall in row {
        set = set.with(*hall);
    }
    set
}

/// The sets of the masks.
fn sets_of_masks(alloc: Global, masks: &[Mask]) -> Result<Vec<HallSet>, Refusal>
    ensures sets { IfOk result (λ sets. sets.items ≡ sets_of masks.now) }
    ensures memory { OnlyMemory result }
{
    let sets = masks
        .iter()
        .map(|mask| HallSet::of_mask(*mask))
        .collect(alloc)?;
    Ok(sets)
}

impl Problem {
    /// The problem with these desks in each hall, these fitting halls of each candidate, rising, and these places of
    /// the candidates in the order of desks.
    pub fn new(
        alloc: Global,
        desks: Vec<u32>,
        fit: Vec<Vec<usize>>,
        rank: Vec<u32>,
    ) -> Result<Problem, Refusal>
        requires problem { IsProblem (record {
          desk_counts = desks.items;
          fit = map (λ row. row.items) fit.items;
          rank = rank.items;
        }) }
        requires few_halls { length desks.items ≤ most_halls }
        ensures problem { IfOk result (λ p. p ≡ record {
          desk_counts = desks.items;
          fit = map (λ row. row.items) fit.items;
          rank = rank.items;
        }) }
        ensures memory { OnlyMemory result }
    {
        let mut sets = Vec::with_capacity(alloc, fit.len())?;
        for row in fit.iter() {
            sets.push(set_of(row.as_slice()))?;
        }
        Ok(Problem {
            desk_counts: desks,
            fit: sets,
            rank,
        })
    }

    /// The problem with these desks in each hall, the fitting halls of each candidate by a mask, and these places
    /// of the candidates in the order of desks.
    pub fn from_masks(
        alloc: Global,
        desks: Vec<u32>,
        fit: Vec<Mask>,
        rank: Vec<u32>,
    ) -> Result<Problem, Refusal>
        requires few_halls { length desks.items ≤ most_halls }
        requires few { length fit.items ≤ most_members }
        requires ranked { length rank.items ≡ length fit.items }
        requires distinct { IsDistinct nat_eq rank.items }
        requires exist { All (λ set. (h : ℕ) → IsTrue (holds set h) → h < length desks.items)
            (sets_of fit.items) }
        ensures problem { IfOk result (λ p. p ≡ record {
          desk_counts = desks.items;
          fit = map (halls_below (length desks.items)) (sets_of fit.items);
          rank = rank.items;
        }) }
        ensures memory { OnlyMemory result }
    {
        let sets = sets_of_masks(alloc, fit.as_slice())?;
        Ok(Problem {
            desk_counts: desks,
            fit: sets,
            rank,
        })
    }

    /// How many candidates there are.
    pub fn candidate_count(&self) -> usize
        ensures count { result ≡ length self.now.fit }
        ensures problem { IsProblem self.now }
    {
        self.fit.len()
    }

    /// How many halls there are.
    pub fn hall_count(&self) -> usize
        ensures count { result ≡ length self.now.desk_counts }
        ensures few { length self.now.desk_counts ≤ most_halls }
    {
        self.desk_counts.len()
    }

    /// A count for each hall, none yet.
    pub(crate) fn no_counts(&self) -> [usize; MOST_HALLS]
        ensures none { (h : ℕ) → h < length self.now.desk_counts → slice_index result h ≡ 0 }
        ensures room { length self.now.desk_counts ≤ length result }
    {
        prove!(self.desk_counts.len() <= MOST_HALLS);
        [0; MOST_HALLS]
    }

    /// How many desks the hall has.
    pub fn desk_count(&self, hall: usize) -> u32
        requires { hall < length self.now.desk_counts }
        ensures { result ≡ slice_index self.now.desk_counts hall }
    {
        self.desk_counts[hall]
    }

    /// The halls that fit the candidate.
    pub fn fitting(&self, candidate: usize) -> HallSet
        requires { candidate < length self.now.fit }
        ensures fits { (h : ℕ) → holds result h ≡ (seating_of self.now).fits candidate h }
        ensures exist { (h : ℕ) → IsTrue (holds result h) → h < length self.now.desk_counts }
        ensures few { length self.now.desk_counts ≤ most_halls }
        ensures problem { IsProblem self.now }
    {
        self.fit[candidate]
    }

    /// The candidate's place in the order of desks.
    pub fn rank(&self, candidate: usize) -> u32
        requires { candidate < length self.now.fit }
        ensures { result ≡ slice_index self.now.rank candidate }
    {
        self.rank[candidate]
    }
}
