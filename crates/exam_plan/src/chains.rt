//! Augmenting chains, found backwards from the free desks.
ghost use Rattle.std.specs.Prelude.{◌≡◌, ◌⊎◌, ◌↔◌, ◌<◌, ◌≤◌, ◌+◌, ℕ, true, IsTrue, IsNone, length, Some, IfSome};
ghost use Rattle.std.specs.Prelude.{MatchOption, slice_index, slice_set};
ghost use Rattle.exam_plan.specs.HallSets.{most_halls, holds};
ghost use Rattle.exam_plan.specs.Problems.{IsPlan, seating_of, plan_at};
ghost use Rattle.exam_plan.specs.Chains.{HasFreeDesk, LeadsTo};
ghost use Rattle.exam_plan.specs.Searches.{IsMarked, MarksAll, IsTouching, Reaches, AreLayers, AreInward, AreOnward};
ghost use Rattle.exam_plan.specs.Searches.{IsOnward, CanReach};
ghost use Rattle.exam_plan.specs.Searches.{IsAdvanced, IsFound};

use crate::hall_set::HallSet;
use crate::onward::Onward;
use crate::problem::{Plan, Problem};

/// Whether a hall of the set fits the candidate.
fn is_touching(problem: &Problem, candidate: usize, marked: HallSet) -> bool
    requires { candidate < length problem.now.fit }
    ensures touching { IsTrue result ↔ IsTouching problem.now (holds marked) candidate }
    ensures few { length problem.now.desk_counts ≤ most_halls }
{
    problem.fitting(candidate).meets(marked)
}

/// The halls of the set, and those that the sets of its fresh halls hold.
fn widened(inward: &[HallSet], marked: HallSet, fresh: HallSet) -> HallSet
    requires { (k : ℕ) → IsMarked (holds fresh) k → k < length inward.now }
    ensures { (h : ℕ) → IsMarked (holds result) h ↔ (IsMarked (holds marked) h
        ⊎ ((k : ℕ) × IsMarked (holds fresh) k × IsMarked (holds (slice_index inward.now k)) h)) }
{
    let mut next = marked;
    let mut rest = fresh;
    'uniting: while let Some(split) = rest.split_first() {
        let (hall, others) = split;
        next = next.union(inward[hall]);
        rest = others;
    }
    next
}

/// Goes backwards from the free desks, layer by layer, up to a hall that fits the candidate: the number of hops, or
/// none if no such hall is reached.
fn layer_until(
    problem: &Problem,
    plan: &Plan,
    inward: &[HallSet],
    free: HallSet,
    candidate: usize,
    layers: &mut Vec<HallSet>,
) -> Option<usize>
    requires plan { IsPlan problem.now plan.now.items }
    requires free { MarksAll (holds free) (HasFreeDesk (seating_of problem.now) (plan_at plan.now.items)) }
    requires candidate { candidate < length problem.now.fit }
    requires halls { length inward.now ≡ length problem.now.desk_counts }
    requires inward { AreInward problem.now (plan_at plan.now.items) inward.now }
    requires room { length layers.old.items ≡ length problem.now.desk_counts + 1 }
    ensures room { length layers.new.items ≡ length layers.old.items }
    ensures found { IsFound problem.now (plan_at plan.now.items) layers.new.items candidate result }
{
    let mut hops = 0;
    let mut reached = free;
    let mut fresh = free;
    'widening: while !is_touching(problem, candidate, reached) {
        let next = widened(inward, reached, fresh);
        fresh = next.minus(reached);
        if fresh.first().is_none() {
            return None;
        }
        layers[hops] = reached;
        hops += 1;
        reached = next;
    }
    layers[hops] = reached;
    Some(hops)
}

/// Searches for a chain from the candidate to a free desk: how many hops the least chain has, and its layers. None if
/// there is no chain.
pub fn search_chain(
    problem: &Problem,
    plan: &Plan,
    free: HallSet,
    candidate: usize,
    onward: &mut Onward,
    layers: &mut Vec<HallSet>,
) -> Option<usize>
    requires plan { IsPlan problem.now plan.now.items }
    requires free { MarksAll (holds free) (HasFreeDesk (seating_of problem.now) (plan_at plan.now.items)) }
    requires candidate { candidate < length problem.now.fit }
    requires onward { IsOnward problem.now (plan_at plan.now.items) onward.old }
    requires room { length layers.old.items ≡ length problem.now.desk_counts + 1 }
    ensures onward { IsOnward problem.now (plan_at plan.now.items) onward.new }
    ensures room { length layers.new.items ≡ length layers.old.items }
    ensures none { IsNone result → onward.new.is_noted ≡ true }
    ensures some { IfSome result (λ hops. 0 < hops → onward.new.is_noted ≡ true) }
    ensures found { IsFound problem.now (plan_at plan.now.items) layers.new.items candidate result }
{
    if is_touching(problem, candidate, free) {
        layers[0] = free;
        return Some(0);
    }
    onward.note(problem, plan);
    layer_until(
        problem,
        plan,
        onward.inward.as_slice(),
        free,
        candidate,
        layers,
    )
}

/// The halls that the candidate leads to, without the known dead ones.
pub fn led_to(
    problem: &Problem,
    plan: &Plan,
    onward: &[HallSet],
    dead: HallSet,
    candidate: usize,
) -> HallSet
    requires plan { IsPlan problem.now plan.now.items }
    requires candidate { candidate < length problem.now.fit }
    requires halls { length onward.now ≡ length problem.now.desk_counts }
    requires onward { AreOnward problem.now (plan_at plan.now.items) onward.now }
    ensures apart { (h : ℕ) → IsMarked (holds result) h → IsMarked (holds dead) h → ⊥ }
    ensures led { (h : ℕ) → IsMarked (holds result) h
        → (j : ℕ) × LeadsTo (seating_of problem.now) (plan_at plan.now.items) candidate j h }
    ensures fitting { (h : ℕ) → IsTrue ((seating_of problem.now).fits candidate h)
        → IsMarked (holds result) h ⊎ IsMarked (holds dead) h }
    ensures closed { (d h k : ℕ) → plan_at plan.now.items d ≡ Some h → IsMarked (holds result) h
        → IsTrue ((seating_of problem.now).fits d k) → IsMarked (holds result) k ⊎ IsMarked (holds dead) k }
{
    let mut led = problem.fitting(candidate).minus(dead);
    let mut fresh = led;
    'following: loop {
        let more = widened(onward, led, fresh).minus(dead);
        fresh = more.minus(led);
        if fresh.first().is_none() {
            return led;
        }
        led = more;
    }
}

/// The first occupant of the hall, from this number on, that some hall of the set fits. The hall has no occupant before
/// the number.
fn first_mover(
    problem: &Problem,
    plan: &Plan,
    marked: HallSet,
    hall: usize,
    from: usize,
) -> Option<usize>
    requires whole { length plan.now.items ≡ length problem.now.fit }
    requires from { (e : ℕ) → plan_at plan.now.items e ≡ Some hall → from ≤ e }
    ensures below { IfSome result (λ c. c < length problem.now.fit) }
    ensures first { MatchOption result
        ((e : ℕ) → plan_at plan.now.items e ≡ Some hall → IsTouching problem.now (holds marked) e → ⊥)
        (λ d. (plan_at plan.now.items d ≡ Some hall) × IsTouching problem.now (holds marked) d
        × ((e : ℕ) → plan_at plan.now.items e ≡ Some hall → IsTouching problem.now (holds marked) e → d ≤ e)) }
{
    for candidate in from..plan.len() {
        if plan[candidate] == Some(hall) && is_touching(problem, candidate, marked) {
            return Some(candidate);
        }
    }
    None
}

/// Moves everybody along the least chain from the candidate, who has so many hops to go: the last hall.
pub fn advance(
    problem: &Problem,
    plan: &mut Plan,
    onward: &mut Onward,
    layers: &[HallSet],
    hops: usize,
    candidate: usize,
) -> usize
    requires plan { IsPlan problem.now plan.old.items }
    requires candidate { candidate < length problem.now.fit }
    requires hops { hops < length layers.now }
    requires layers { AreLayers problem.now (plan_at plan.old.items) (hops + 1) layers.now }
    requires reach { CanReach problem.now (plan_at plan.old.items) hops candidate }
    requires far { (j : ℕ) → j < hops → CanReach problem.now (plan_at plan.old.items) j candidate → ⊥ }
    requires onward { IsOnward problem.now (plan_at plan.old.items) onward.old }
    requires noted { 0 < hops → onward.old.is_noted ≡ true }
    ensures plan { IsPlan problem.now plan.new.items }
    ensures onward { IsOnward problem.now (plan_at plan.new.items) onward.new }
    ensures last { result < length problem.now.desk_counts }
    ensures moved { IsAdvanced problem.now (plan_at plan.old.items) hops candidate result
        (plan_at plan.new.items) }
{
    let Some(hall) = problem.fitting(candidate).common(layers[hops]).first() else {
        unreachable!()
    };
    let mut last = hall;
    if hops > 0 {
        let Some(mover) = first_mover(problem, plan, layers[hops - 1], hall, onward.firsts[hall])
        else {
            unreachable!()
        };
        last = advance(problem, plan, onward, layers, hops - 1, mover);
    }
    onward.seat(problem, plan, candidate, hall);
    last
}
