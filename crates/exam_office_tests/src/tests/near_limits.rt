//! A session near its limits is swept: 4,096 members, 256 open halls, and chains of each length from 2 to 61.
ghost use Rattle.std.specs.Prelude.{IfOk};
ghost use Rattle.std.specs.List.Sorted.{IsStrictlySortedBy};
ghost use Rattle.exam_rules.specs.Relations.{code_cmp};

use super::orders::order_of;
use exam_office::{Command, Office, step, touched};
use exam_rules::Facts;
use exam_school::{School, add_fact, expect_same, school_with};
use exam_types::{Refusal, SessionCode};
use std::alloc::Global;
use std::test::Fail;

/// The halls P10 to P70, where eleven in a row share a feature, and 195 halls without one. Who sits ZZ-1 is in time only
/// in the latter.
const HALLS: &str = "\
paper LO-1 S1 100 -
paper ZZ-1 S1 600 -
10..20 hall P* step-free
hall P20 step-free+screen
21..30 hall P* screen
hall P30 screen+reader
31..40 hall P* reader
hall P40 reader+small-room
41..50 hall P* small-room
hall P50 small-room+computer
51..60 hall P* computer
hall P60 computer+quiet
61..71 hall P* quiet
0..195 hall Q* -
0..195 opening S1 Q* 12 20:00
9000..11206 candidate *
";

/// The feature that a hall P shares with the ten behind it, or with those up to the next whole ten.
fn shared_feature(hall: u32) -> &'static str {
    match hall / 10 {
        1 => "step-free",
        2 => "screen",
        3 => "reader",
        4 => "small-room",
        5 => "computer",
        _ => "quiet",
    }
}

/// Opens the hall P so many. The later one is open a minute longer.
fn open_hall(alloc: Global, school: &mut School, hall: u32, desks: u32) -> Result<(), Fail> {
    let minute = hall.wrapping_add(640);
    let (hour, past) = (minute / 60, minute % 60);
    let line = format!(in alloc; "opening S1 P{hall} {desks} {hour}:{past:02}")?;
    add_fact(alloc, school, line.as_str())
}

/// A candidate whom the halls P from `first` to the one before `end` fit, and a row that enters them. The halls before
/// close too early for their extra time, and of those behind appeals bar the ones with the feature that they need.
fn add_candidate(
    alloc: Global,
    school: &mut School,
    rows: &mut String,
    number: u32,
    first: u32,
    end: u32,
) -> Result<(), Fail> {
    add_fact(
        alloc,
        school,
        format!(in alloc; "candidate {number}")?.as_str(),
    )?;
    let feature = shared_feature(first);
    let needs = format!(in alloc; "arrangement {number} {feature} {first}")?;
    add_fact(alloc, school, needs.as_str())?;
    let behind = (first / 10 * 10).wrapping_add(11);
    for hall in end..behind {
        let barred = format!(in alloc; "granted {number} R{hall} S1 hall P{hall}")?;
        add_fact(alloc, school, barred.as_str())?;
    }
    rows.push_str(format!(in alloc; ", {number} LO-1")?.as_str())?;
    Ok(())
}

/// Opens the halls P10 to P69 with 1 to 60 desks, each with as many candidates whom that hall and the next fit.
fn add_row_of_halls(alloc: Global, school: &mut School, rows: &mut String) -> Result<(), Fail> {
    for hall in 10..70u32 {
        open_hall(alloc, school, hall, hall - 9)?;
        for place in 9..hall {
            let number = hall * 100 + place;
            add_candidate(alloc, school, rows, number, hall, hall + 2)?;
        }
    }
    Ok(())
}

/// Candidates whom one hall each fits, P69 the first and P10 the last. The free desks are in P70, so each of them sits
/// only if somebody moves on from their hall and from each one behind it.
fn add_late_candidates(alloc: Global, school: &mut School, rows: &mut String) -> Result<(), Fail> {
    open_hall(alloc, school, 70, 60)?;
    for moves in 1..61u32 {
        let hall = 70 - moves;
        add_candidate(alloc, school, rows, 8000 + moves, hall, hall + 1)?;
    }
    Ok(())
}

/// The school, and the rows that enter 4,096 candidates.
fn full_school(alloc: Global, rows: &mut String) -> Result<School, Fail> {
    let mut school = school_with(alloc, &[HALLS])?;
    add_row_of_halls(alloc, &mut school, rows)?;
    add_late_candidates(alloc, &mut school, rows)?;
    for number in 9001..11206u32 {
        rows.push_str(format!(in alloc; ", {number} ZZ-1")?.as_str())?;
    }
    Ok(school)
}

/// The sessions that a command touches. No other crate's proof needs that their codes rise.
fn touched_in_order(
    alloc: Global,
    facts: &Facts,
    command: &Command,
) -> Result<Vec<SessionCode>, Refusal>
    ensures rising { IfOk result (λ codes. IsStrictlySortedBy code_cmp codes.items) }
{
    touched(alloc, facts, command)
}

/// How many sessions the import touches, what the office answers to it, and how many sit then.
fn told_of(alloc: Global, office: &mut Office, line: &str) -> Result<String, Fail> {
    let (command, today) = order_of(alloc, line)?;
    let sessions = touched_in_order(alloc, office.facts(), &command)?.len();
    let reply = step(alloc, office, &command, today)?;
    let seated = office.seats().len();
    Ok(format!(in alloc; "touched {sessions} {reply:?} seated {seated}")?)
}

#[test]
fn a_session_near_its_limits_is_swept(rt: HostRuntime) -> Result<(), Fail> {
    let alloc = rt.alloc();
    let mut rows = String::from_str(alloc, "import entries 9000 ZZ-1")?;
    let School { facts, seats } = full_school(alloc, &mut rows)?;
    let mut office = Office::from_parts(alloc, facts, seats)?;
    let told = told_of(alloc, &mut office, rows.as_str())?;
    expect_same(
        told.as_str(),
        "touched 1 Imported 4096 0 0 seated 4096",
        "the sweep",
    )
}
