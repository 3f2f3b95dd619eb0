//! What a candidate sees of themselves: appeals, with whether each also holds for later sessions; and of each session
//! the paper that they sit, its end in minutes, hall and desk, all their papers, and those that clash.
use super::play;
use exam_office::{Office, Own, OwnAppeal, OwnSession};
use exam_school::{OPENED, code_or_dash};
use exam_types::{Number, PaperCode};
use std::alloc::Global;
use std::test::Fail;

fn push_codes(
    alloc: Global,
    text: &mut String,
    word: &str,
    codes: &[PaperCode],
) -> Result<(), Fail> {
    for code in codes {
        text.push_str(format!(in alloc; "{word} {code} ")?.as_str())?;
    }
    Ok(())
}

fn push_appeals(alloc: Global, text: &mut String, appeals: &[OwnAppeal]) -> Result<(), Fail> {
    for appeal in appeals {
        let reference = appeal.reference;
        let standing = appeal.standing;
        text.push_str(format!(in alloc; "{reference} {standing} ")?.as_str())?;
    }
    Ok(())
}

fn push_session(alloc: Global, text: &mut String, own: &OwnSession) -> Result<(), Fail> {
    let sitting = own.sitting;
    let end = own.finish.get();
    let hall = code_or_dash(&own.hall);
    let desk = own.desk;
    let line = format!(in alloc; "sits {sitting} until {end} in {hall} {desk:?} ")?;
    text.push_str(line.as_str())?;
    push_codes(alloc, text, "of", &own.papers)?;
    push_codes(alloc, text, "not", &own.clashes)
}

fn text_of(alloc: Global, own: &Own) -> Result<String, Fail> {
    let mut text = String::new(alloc);
    push_appeals(alloc, &mut text, &own.appeals)?;
    for session in &own.sessions {
        push_session(alloc, &mut text, session)?;
    }
    Ok(text)
}

/// What the candidate sees in the office.
pub fn own_text(alloc: Global, office: &Office, number: Number) -> Result<String, Fail> {
    match office.own(alloc, number)? {
        Some(own) => text_of(alloc, &own),
        None => Ok(String::from_str(alloc, "nobody")?),
    }
}

/// The first and the fifth sit MA-1, the second sits PH-2, and there is no desk for the third.
const SEEN: &str = "\
# members see their desks
opening S1 A 2 12:00
paper PH-2 S1 60 -
entry 1 MA-1
entry 2 PH-2
entry 3 MA-1
entry 5 MA-1
lodged 1 HA1 S1 hall B
seat S1 1 B
seat S1 2 A
seat S1 5 A
own 1 > HA1 false sits MA-1 until 600 in B Some(1) of MA-1
own 2 > sits PH-2 until 600 in A Some(2) of PH-2
own 3 > sits MA-1 until 600 in - None of MA-1
own 5 > sits MA-1 until 600 in A Some(1) of MA-1
# a candidate who is a member of no session sees none
own 4 > -
own 9 > nobody
# a granted clash changes the paper that is sat
paper PH-2 S1 60 -
entry 1 MA-1
entry 1 PH-2
granted 1 CL1 S1 clash PH-2
seat S1 1 A
own 1 > CL1 false sits PH-2 until 600 in A Some(1) of MA-1 of PH-2 not MA-1
# of two appeals the first also holds for later sessions
granted 1 AR1 S1 arrangement screen 0
lodged 1 AR2 S1 arrangement reader 0
standing 1 AR1
own 1 > AR1 true AR2 false
";

#[test]
fn candidates_see_themselves(rt: HostRuntime) -> Result<(), Fail> {
    play(rt.alloc(), OPENED, SEEN)
}
