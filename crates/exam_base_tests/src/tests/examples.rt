//! What the READMEs of `exam_plan` and `exam_rules` show.
use super::plan::masked_problem;
use exam_plan::{keep_lawful, shortage, sweep};
use exam_rules::{finish, fits, sitting};
use exam_school::{OPENED, Words, school_with};
use exam_types::{Minute, PaperCode};
use std::test::Fail;

#[test]
fn three_candidates_have_two_desks(rt: HostRuntime) -> Result<(), Fail> {
    let alloc = rt.alloc();
    // Halls 0 and 1 have a desk each. Both fit candidates 0 and 2; hall 0 alone fits candidate 1.
    let masks = [[0b11, 0], [0b01, 0], [0b11, 0]];
    let problem = masked_problem(alloc, 2, masks.as_slice())?;
    let nobody = vec![in alloc; None; problem.candidate_count()]?;
    let plan = sweep(alloc, &problem, keep_lawful(&problem, nobody)?, None)?;
    assert!(rt; plan.as_slice() == [Some(1), Some(0), None].as_slice());
    let short = shortage(alloc, &problem, &plan)?;
    assert!(rt; short.unseated == 1 && short.halls.as_slice() == [0, 1].as_slice());
    Ok(())
}

#[test]
fn a_quarter_more_of_an_hour_ends_at_a_quarter_past(rt: HostRuntime) -> Result<(), Fail> {
    let entered = "entry 1 MA-1\narrangement 1 - 25";
    let school = school_with(rt.alloc(), &[OPENED, entered])?;
    let session = Words::of("S1").session()?;
    let number = Words::of("1").number()?;
    // The paper MA-1 begins at 09:00 and takes 60 minutes. The candidate has a quarter more time.
    assert!(rt; sitting(&school.facts, &session, number) == PaperCode::parse(b"MA-1"));
    assert!(rt; finish(&school.facts, &session, number) == Minute::parse(b"10:15"));
    assert!(rt; fits(&school.facts, &session, number, &Words::of("A").hall()?));
    Ok(())
}
