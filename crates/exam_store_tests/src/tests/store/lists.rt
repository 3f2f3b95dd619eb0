//! A list of commands is applied in turn, each with its answer.
use crate::tests::offices::{office_of, opened};
use exam_office::{Command, Reply};
use exam_school::{ONE_SITS, ROWS};
use exam_types::{Day, Number, PaperCode, Refusal};
use std::process::Abort;
use std::test::Fail;

#[test]
fn each_command_of_a_list_is_answered(rt: HostRuntime) -> Result<(), Fail> {
    let alloc = rt.alloc();
    let first = Number::new(1).ok_or("number")?;
    let paper = PaperCode::parse(b"MA-1").ok_or("paper")?;
    let today = Day::parse(b"2027-05-01").ok_or("day")?;
    let commands = [
        (Command::Withdraw(first, paper), today),
        (Command::Withdraw(first, paper), today),
        (Command::Reinstate(first, paper), today),
    ];
    let seated = office_of(alloc, &[ROWS, ONE_SITS])?;
    let mut store = opened(alloc, seated)?;
    let answers = store.apply_all(alloc, &commands)?;
    let expected = matches!(
        answers.as_slice(),
        [
            Ok(Reply::Withdrawn),
            Err(Refusal::AlreadyWithdrawn),
            Ok(Reply::Reinstated),
        ]
    );
    assert!(rt; expected);
    Ok(())
}
