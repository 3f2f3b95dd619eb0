//! What the READMEs of the crates of the office show.
use super::office_of;
use exam_changes::withdraw;
use exam_office::{Command, Import, Kind, Reply, Row, Table, first_bad_table, step, touched};
use exam_school::{OPENED, School, Words, arrangement_of, entry_of, school_with};
use exam_types::Refusal;
use std::test::Fail;

/// Candidate 1 sits in hall A.
const SEATED: &str = "entry 1 MA-1\nseat S1 1 A\n";

#[test]
fn rows_of_one_key_are_equal(rt: HostRuntime) -> Result<(), Fail> {
    let mut import = Import::new(rt.alloc(), Kind::Arrangements);
    let (number, needs) = arrangement_of(&mut Words::of("1 step-free 0"))?;
    let (_, others) = arrangement_of(&mut Words::of("1 screen 0"))?;
    import.push(Row::OfArrangement(number, needs))?;
    let refused = import.push(Row::OfArrangement(number, others)).err();
    assert!(rt; refused == Some(Refusal::RowConflict(2)));
    assert!(rt; import.rows().len() == 1);
    Ok(())
}

#[test]
fn an_unseated_member_makes_the_seats_bad(rt: HostRuntime) -> Result<(), Fail> {
    // Candidate 1 is entered, and both halls have a free desk.
    let school = school_with(rt.alloc(), &[OPENED, "entry 1 MA-1"])?;
    let bad = first_bad_table(rt.alloc(), &school.facts, &school.seats)?;
    assert!(rt; bad == Some(Table::Seats));
    Ok(())
}

#[test]
fn a_withdrawal_is_taken_back(rt: HostRuntime) -> Result<(), Fail> {
    let School { mut facts, .. } = school_with(rt.alloc(), &[SEATED])?;
    let (number, paper) = entry_of(&mut Words::of("1 MA-1"))?;
    let undo = withdraw(&mut facts, number, paper)?;
    let again = withdraw(&mut facts, number, paper).err();
    assert!(rt; again == Some(Refusal::AlreadyWithdrawn));
    // Takes no memory.
    undo.take_back(&mut facts);
    let is_live = facts
        .entries
        .get(&(number, paper))
        .is_some_and(|it| it.live);
    assert!(rt; is_live);
    Ok(())
}

#[test]
fn a_closed_hall_moves_who_sits_there(rt: HostRuntime) -> Result<(), Fail> {
    let alloc = rt.alloc();
    let session = Words::of("S1").session()?;
    let (a, b) = (Words::of("A").hall()?, Words::of("B").hall()?);
    let number = Words::of("1").number()?;
    let today = Words::of("2027-05-01").day()?;
    let mut office = office_of(alloc, &[OPENED, SEATED])?;
    let command = Command::CloseHall(session, a);
    let sessions = touched(alloc, office.facts(), &command)?;
    assert!(rt; sessions.as_slice() == [session].as_slice());
    let reply = step(alloc, &mut office, &command, today)?;
    assert!(rt; reply == Reply::Closed && office.seats().get(&(session, number)) == Some(&b));
    Ok(())
}
