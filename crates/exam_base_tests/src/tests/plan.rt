//! Worked examples, and a plain slow program that tries every plan of every tiny problem.
ghost use Rattle.std.specs.Prelude.{◌≡◌, ◌<◌, ◌≤◌, ◌^◌, ◌↔◌, ℕ, false, length, All, Contains, IfOk, IsTrue, None};
ghost use Rattle.std.specs.Prelude.{filter, nat_eq, slice_index_or};
ghost use Rattle.std.specs.List.{IsDistinct, range_with_len};
ghost use Rattle.std.specs.List.Sorted.{IsStrictlySortedBy};
ghost use Rattle.std.specs.Ordering.{nat_cmp};
ghost use Rattle.exam_plan.specs.HallSets.{most_halls, set_of_mask, sets_of};
ghost use Rattle.exam_plan.specs.Matching.{IsBest, IsContested, IsLawful};
ghost use Rattle.exam_plan.specs.Problems.{IsPlan, most_members, seating_of, plan_at};
ghost use Rattle.exam_plan.specs.Repair.{IsDeadList};

use exam_plan::{Mask, Plan, Problem, desks, keep_lawful, shortage, sweep, sweep_dead};
use exam_school::expect_same;
use exam_types::Refusal;
use std::alloc::Global;
use std::test::Fail;

/// The halls that are marked for a candidate.
fn row_of(alloc: Global, marks: &[bool]) -> Result<Vec<usize>, Refusal>
    ensures indices { IfOk result (λ row. row.items
        ≡ filter (λ h. slice_index_or marks.now h false) (range_with_len 0 (length marks.now))) }
{
    let mut row = Vec::new(alloc);
    for (hall, fits) in marks.iter().enumerate() {
        if *fits {
            row.push(hall)?;
        }
    }
    Ok(row)
}

/// The rows of the halls that are marked for each candidate.
fn rows_of(alloc: Global, fits: &[[bool; 3]]) -> Result<Vec<Vec<usize>>, Refusal>
    ensures count { IfOk result (λ rows. length rows.items ≡ length fits.now) }
    ensures rising { IfOk result (λ rows. All (λ row. IsStrictlySortedBy nat_cmp row.items) rows.items) }
    ensures exist { IfOk result (λ rows. All (λ row. All (λ h. h < 3) row.items) rows.items) }
{
    let mut rows = Vec::new(alloc);
    for marks in fits {
        rows.push(row_of(alloc, marks.as_slice())?)?;
    }
    Ok(rows)
}

/// The ranks of candidates whose order of desks is that of their numbers.
fn ranks_of(alloc: Global, count: usize) -> Result<Vec<u32>, Refusal>
    requires { count ≤ most_members }
    ensures { IfOk result (λ ranks. ranks.items ≡ range_with_len 0 count) }
{
    let mut ranks = Vec::new(alloc);
    for rank in 0..count {
        ranks.push(rank as u32)?;
    }
    Ok(ranks)
}

/// A problem with three halls.
fn problem_of(alloc: Global, desks: [u32; 3], fits: &[[bool; 3]]) -> Result<Problem, Refusal>
    requires { length fits.now ≤ most_members }
    ensures count { IfOk result (λ p. length p.fit ≡ length fits.now) }
    ensures halls { IfOk result (λ p. length p.desk_counts ≡ 3) }
{
    let rows = rows_of(alloc, fits)?;
    let ranks = ranks_of(alloc, fits.len())?;
    Problem::new(
        alloc,
        Vec::from_slice(alloc, desks.as_slice())?,
        rows,
        ranks,
    )
}

/// A problem with a desk in each of so many halls.
pub fn masked_problem(alloc: Global, halls: usize, masks: &[Mask]) -> Result<Problem, Refusal>
    requires few_halls { halls ≤ most_halls }
    requires few { length masks.now ≤ most_members }
    requires exist { All (λ set. set < 2 ^ halls) (sets_of masks.now) }
    ensures count { IfOk result (λ p. length p.fit ≡ length masks.now) }
{
    let desks = vec![in alloc; 1u32; halls]?;
    let rows = Vec::from_slice(alloc, masks)?;
    let ranks = ranks_of(alloc, masks.len())?;
    Problem::from_masks(alloc, desks, rows, ranks)
}

/// A problem in which each hall has one desk and each candidate has this mask.
fn equal_problem(
    alloc: Global,
    halls: usize,
    mask: Mask,
    candidates: usize,
) -> Result<Problem, Refusal>
    requires few_halls { halls ≤ most_halls }
    requires few { candidates ≤ most_members }
    requires exist { set_of_mask mask < 2 ^ halls }
    ensures count { IfOk result (λ p. length p.fit ≡ candidates) }
{
    let mut masks = Vec::with_capacity(alloc, candidates)?;
    'filling: for _ in 0..candidates {
        masks.push(mask)?;
    }
    masked_problem(alloc, halls, masks.as_slice())
}

/// Whether the list is 0, 1, 2 .. with so many items.
fn counts_to(list: &[usize], count: usize) -> bool {
    list.len() == count && list.iter().enumerate().all(|(place, item)| *item == place)
}

/// A plan that seats nobody.
fn nobody(alloc: Global, problem: &Problem) -> Result<Plan, Refusal>
    ensures plan { IfOk result (λ plan. IsPlan problem.now plan.items) }
    ensures lawful { IfOk result (λ plan. IsLawful (seating_of problem.now) (plan_at plan.items)) }
{
    let nobody = vec![in alloc; None; problem.candidate_count()]?;
    keep_lawful(problem, nobody)
}

/// What a sweep makes of a plan: the new plan, and the dead halls. No other crate's proof needs what `sweep_dead`
/// promises of them.
fn swept_dead(alloc: Global, problem: &Problem, plan: Plan) -> Result<(Plan, Vec<usize>), Refusal>
    requires plan { IsPlan problem.now plan.items }
    requires lawful { IsLawful (seating_of problem.now) (plan_at plan.items) }
    ensures order { IfOk result (λ (new, dead).
        IsDeadList (seating_of problem.now) None (plan_at plan.items) (plan_at new.items) dead.items) }
    ensures dead { IfOk result (λ (new, dead). (h : ℕ) → Contains dead.items h
        ↔ ((c : ℕ) × IsContested (seating_of problem.now) c × IsTrue ((seating_of problem.now).fits c h))) }
    ensures once { IfOk result (λ (new, dead). IsDistinct nat_eq dead.items) }
{
    sweep_dead(alloc, problem, plan, None)
}

/// The plan that a sweep makes of nothing.
fn swept(alloc: Global, problem: &Problem) -> Result<Plan, Refusal>
    ensures plan { IfOk result (λ plan. IsPlan problem.now plan.items) }
    ensures best { IfOk result (λ plan. IsBest (seating_of problem.now) (plan_at plan.items)) }
{
    sweep(alloc, problem, nobody(alloc, problem)?, None)
}

/// Appends a word and a list of numbers, `-` for none.
fn put(
    alloc: Global,
    told: &mut String,
    word: &str,
    numbers: &[Option<usize>],
) -> Result<(), Fail> {
    told.push_str(word)?;
    for number in numbers {
        match number {
            Some(number) => told.push_str(format!(in alloc; " {number}")?.as_str())?,
            None => told.push_str(" -")?,
        }
    }
    Ok(())
}

/// Appends the word and the numbers.
fn put_all(alloc: Global, told: &mut String, word: &str, numbers: &[usize]) -> Result<(), Fail> {
    told.push_str(word)?;
    for number in numbers {
        told.push_str(format!(in alloc; " {number}")?.as_str())?;
    }
    Ok(())
}

/// Appends the plan that a sweep makes of nothing, the dead halls and the desks.
fn put_plan(alloc: Global, told: &mut String, problem: &Problem, plan: &Plan) -> Result<(), Fail>
    requires { IsPlan problem.now plan.now.items }
{
    let (same, dead) = swept_dead(alloc, problem, nobody(alloc, problem)?)?;
    if same != *plan {
        return Err(Fail::new("another plan"));
    }
    let mut numbers = Vec::new(alloc);
    for desk in &desks(alloc, problem, plan)? {
        numbers.push(desk.map(|desk| desk as usize))?;
    }
    put(alloc, told, "plan", plan.as_slice())?;
    put_all(alloc, told, " dead", dead.as_slice())?;
    put(alloc, told, " desks", numbers.as_slice())
}

/// What is made of a problem: the plan, the dead halls, the desks, and the shortage.
fn told_of(alloc: Global, problem: &Problem) -> Result<String, Fail> {
    let plan = swept(alloc, problem)?;
    let mut told = String::new(alloc);
    put_plan(alloc, &mut told, problem, &plan)?;
    let short = shortage(alloc, problem, &plan)?;
    let unseated = short.unseated;
    told.push_str(format!(in alloc; " unseated {unseated}")?.as_str())?;
    put_all(alloc, &mut told, " halls", short.halls.as_slice())?;
    put_all(alloc, &mut told, " candidates", short.candidates.as_slice())?;
    Ok(told)
}

/// Expects that this is made of a problem.
fn expect(alloc: Global, problem: &Problem, wanted: &str, name: &str) -> Result<(), Fail> {
    expect_same(told_of(alloc, problem)?.as_str(), wanted, name)
}

/// Three digits.
fn three_of(word: &str) -> Result<[u8; 3], Fail> {
    match word.as_bytes() {
        [first, second, third] => Ok([*first, *second, *third]),
        _ => Err(Fail::new("three digits")),
    }
}

/// The problem of a text: the desks of three halls, a digit each, and behind them for each candidate whether each hall
/// fits, 1 or 0.
fn small_problem(alloc: Global, text: &str) -> Result<Problem, Fail> {
    let (desks, candidates) = text.split_once(' ').ok_or("desks")?;
    let desks = three_of(desks)?.map(|digit| u32::from(digit.saturating_sub(b'0')));
    let mut fits = Vec::new(alloc);
    for word in candidates.split(' ') {
        fits.push(three_of(word)?.map(|digit| digit == b'1'))?;
    }
    if fits.len() > 4096 {
        return Err(Fail::new("too many"));
    }
    Ok(problem_of(alloc, desks, fits.as_slice())?)
}

/// Small problems by their names, and what is made of each.
const SMALL: &str = "\
a third candidate is short of a desk: 110 110 100 110 > \
plan 1 0 - dead 0 1 desks 1 1 - unseated 1 halls 0 1 candidates 0 1 2
dead halls are listed once: 110 110 100 110 110 > \
plan 1 0 - - dead 0 1 desks 1 1 - - unseated 2 halls 0 1 candidates 0 1 2 3
a barred candidate is short in one hall: 110 100 100 110 > \
plan 0 - 1 dead 0 desks 1 - 1 unseated 1 halls 0 candidates 0 1
nothing fits: 100 000 > \
plan - dead desks - unseated 1 halls candidates 0
a reader beside a full session: 110 110 100 110 000 > \
plan 1 0 - - dead 0 1 desks 1 1 - - unseated 2 halls 0 1 candidates 0 1 2 3
the least of two short chains is taken: 111 101 011 110 > \
plan 2 1 0 dead desks 1 1 1 unseated 0 halls candidates
";

#[test]
fn small_problems_are_swept(rt: HostRuntime) -> Result<(), Fail> {
    for line in SMALL.lines() {
        let (name, line) = line.split_once(": ").ok_or("name")?;
        let (text, wanted) = line.split_once(" > ").ok_or("line")?;
        let problem = small_problem(rt.alloc(), text)?;
        expect(rt.alloc(), &problem, wanted, name)?;
    }
    Ok(())
}

#[test]
fn first_and_last_hall_are_told_apart(rt: HostRuntime) -> Result<(), Fail> {
    let last = [0, 1 << 127];
    let masks = [last, [1, 1 << 127], [1, 0], last];
    let problem = masked_problem(rt.alloc(), 256, masks.as_slice())?;
    let first_row = problem.fitting(1);
    let held = [0, 1, 127, 128, 254, 255, 256].map(|hall| first_row.contains(hall));
    assert!(rt; held == [true, false, false, false, false, true, false]);
    let wanted =
        "plan 255 0 - - dead 0 255 desks 1 1 - - unseated 2 halls 0 255 candidates 0 1 2 3";
    expect(rt.alloc(), &problem, wanted, "first and last")
}

#[test]
fn chain_goes_on_from_hall_127_to_hall_128(rt: HostRuntime) -> Result<(), Fail> {
    let masks = [[1 << 127, 1], [0, 3], [1 << 127, 0]];
    let problem = masked_problem(rt.alloc(), 130, masks.as_slice())?;
    let wanted = "plan 128 129 127 dead desks 1 1 1 unseated 0 halls candidates";
    expect(rt.alloc(), &problem, wanted, "127 and 128")
}

#[test]
fn halls_126_to_130_alone_fit(rt: HostRuntime) -> Result<(), Fail> {
    let problem = equal_problem(rt.alloc(), 140, [3 << 126, 7], 6)?;
    let wanted = "plan 126 127 128 129 130 - dead 126 127 128 129 130 desks 1 1 1 1 1 - \
unseated 1 halls 126 127 128 129 130 candidates 0 1 2 3 4 5";
    expect(rt.alloc(), &problem, wanted, "126 to 130")
}

#[test]
fn one_candidate_more_than_200_halls(rt: HostRuntime) -> Result<(), Fail> {
    let problem = equal_problem(rt.alloc(), 200, [u128::MAX, (1 << 72) - 1], 201)?;
    let (plan, dead) = swept_dead(rt.alloc(), &problem, nobody(rt.alloc(), &problem)?)?;
    assert!(rt; plan.iter().filter(|place| place.is_some()).count() == 200);
    assert!(rt; counts_to(&dead, 200));
    let short = shortage(rt.alloc(), &problem, &swept(rt.alloc(), &problem)?)?;
    assert!(rt; short.unseated == 1);
    assert!(rt; counts_to(&short.halls, 200) && counts_to(&short.candidates, 201));
    Ok(())
}

#[test]
fn no_hall_and_no_candidate(rt: HostRuntime) -> Result<(), Fail> {
    let nowhere = masked_problem(rt.alloc(), 0, [[0u128, 0], [0, 0]].as_slice())?;
    let wanted = "plan - - dead desks - - unseated 2 halls candidates 0 1";
    expect(rt.alloc(), &nowhere, wanted, "no hall")?;
    let empty = masked_problem(rt.alloc(), 2, [].as_slice())?;
    let wanted = "plan dead desks unseated 0 halls candidates";
    expect(rt.alloc(), &empty, wanted, "no candidate")
}

/// The hall of a candidate in the plan with this number, 3 for none.
fn place_in(plan: usize, candidate: usize) -> usize
    ensures { result < 4 }
{
    match candidate {
        0 => plan % 4,
        1 => plan / 4 % 4,
        _ => plan / 16 % 4,
    }
}

fn is_lawful(desks: &[u32; 3], fits: &[[bool; 3]; 3], plan: usize) -> bool {
    let mut left = *desks;
    for candidate in 0..3 {
        let hall = place_in(plan, candidate);
        if hall < 3 {
            if !fits[candidate][hall] || left[hall] == 0 {
                return false;
            }
            left[hall] -= 1;
        }
    }
    true
}

fn seated_in(plan: usize) -> usize {
    (0..3usize)
        .filter(|candidate| place_in(plan, *candidate) < 3)
        .count()
}

/// How many the best of all plans seats, and who is left out by some best plan.
fn tried(desks: &[u32; 3], fits: &[[bool; 3]; 3]) -> (usize, [bool; 3]) {
    let mut most = 0;
    let mut left_out = [false; 3];
    for plan in 0..64 {
        if is_lawful(desks, fits, plan) && most < seated_in(plan) {
            most = seated_in(plan);
        }
    }
    for plan in 0..64 {
        if is_lawful(desks, fits, plan) && seated_in(plan) == most {
            for (candidate, is_out) in left_out.iter_mut().enumerate() {
                if place_in(plan, candidate) == 3 {
                    *is_out = true;
                }
            }
        }
    }
    (most, left_out)
}

/// Whether the dead halls are those that fit a candidate that some best plan of the candidates so far leaves out,
/// once the first has had a turn, then the second, then the third: each turn's new halls rising.
fn are_dead(desks: &[u32; 3], fits: &[[bool; 3]; 3], dead: &[usize]) -> bool {
    let mut so_far = [[false; 3]; 3];
    let mut known = [false; 3];
    let mut found = 0;
    for turn in 0..3usize {
        so_far[turn] = fits[turn];
        let (_, left_out) = tried(desks, &so_far);
        for hall in 0..3usize {
            let is_short = (0..3usize).any(|candidate| left_out[candidate]
                && so_far[candidate][hall]);
            if is_short && !known[hall] {
                if dead.get(found) != Some(&hall) {
                    return false;
                }
                known[hall] = true;
                found += 1;
            }
        }
    }
    dead.len() == found
}

fn agrees(alloc: Global, desks: [u32; 3], fits: &[[bool; 3]; 3]) -> Result<bool, Refusal> {
    let (most, left_out) = tried(&desks, fits);
    let problem = problem_of(alloc, desks, fits.as_slice())?;
    let plan = swept(alloc, &problem)?;
    let (same_plan, dead) = swept_dead(alloc, &problem, nobody(alloc, &problem)?)?;
    let short = shortage(alloc, &problem, &plan)?;
    let seated = plan.iter().filter(|place| place.is_some()).count();
    let mut same = seated == most && short.unseated <= 3 && 3 - short.unseated == most;
    same &= same_plan == plan && are_dead(&desks, fits, dead.as_slice());
    for candidate in 0..3usize {
        same &= short.candidates.as_slice().contains(&candidate) == left_out[candidate];
    }
    for hall in 0..3usize {
        let is_short = (0..3usize).any(|candidate| left_out[candidate] && fits[candidate][hall]);
        same &= short.halls.as_slice().contains(&hall) == is_short;
    }
    Ok(same)
}

#[test]
fn all_tiny_problems_agree_with_trying_every_plan(rt: HostRuntime) -> Result<(), Fail> {
    for desks in 0..27u32 {
        for marks in 0..512u32 {
            let counts = [desks % 3, desks / 3 % 3, desks / 9];
            let is_on = |bit: u32| marks >> bit & 1 == 1;
            let fits = [
                [is_on(0), is_on(1), is_on(2)],
                [is_on(3), is_on(4), is_on(5)],
                [is_on(6), is_on(7), is_on(8)],
            ];
            assert!(rt;
                agrees(rt.alloc(), counts, &fits)?,
                "desks {desks} marks {marks}"
            );
        }
    }
    Ok(())
}
