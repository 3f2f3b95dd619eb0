//! Small offices, and what the calls answer on them, as texts that are played. A text has stories, each behind `# ` and
//! its name. The lines of a story are facts, which are added to those of the school, and questions of session S1 with
//! their answers. So only a few functions own facts, and each is proved once.
mod promised;
mod questions;
mod relisting;

use exam_school::{OPENED, School, add_fact, expect_answer, school_with};
use questions::answer;
use relisting::relist_each;
use std::alloc::Global;
use std::test::Fail;

/// Adds the fact of a line, or asks its question.
fn take(alloc: Global, school: &mut School, line: &str) -> Result<(), Fail> {
    match line.split_once(" > ") {
        Some((asked, wanted)) => {
            let found = answer(alloc, &school.facts, asked)?;
            expect_answer(found.as_str(), wanted, asked)
        }
        None => add_fact(alloc, school, line),
    }
}

/// Takes the lines of a story in turn.
fn tell(alloc: Global, school: &mut School, story: &str) -> Result<(), Fail> {
    for line in story.lines().skip(1) {
        take(alloc, school, line)?;
    }
    Ok(())
}

fn tell_anew(alloc: Global, story: &str) -> Result<(), Fail> {
    let mut school = school_with(alloc, &[OPENED])?;
    tell(alloc, &mut school, story)
}

fn play(alloc: Global, text: &str) -> Result<(), Fail> {
    for story in text.split("# ").skip(1) {
        tell_anew(alloc, story)?;
    }
    Ok(())
}

const RULES: &str = "\
# a quarter more of ninety minutes ends at 10:53
paper MA-1 S1 90 -
hall A -
opening S1 A 1 10:53
opening S1 B 1 10:52
entry 1 MA-1
arrangement 1 - 25
finish 1 > 653
fits 1 A > true
fits 1 B > false
# a granted clash appeal turns the clash
paper PH-2 S1 60 computer
entry 3 MA-1
entry 3 PH-2
entry 4 PH-2
sits 3 > MA-1
clashes > 3 PH-2
granted 3 R1 S2 clash PH-2
sits 3 > MA-1
granted 3 R1 S1 clash PH-2
sits 3 > PH-2
clashes > 3 MA-1
# a granted arrangement takes the place of the imported one
entry 1 MA-1
in-force 1 > - 0
arrangement 1 screen 25
in-force 1 > screen 25
granted 1 R1 S1 arrangement - 50
in-force 1 > - 50
# a granted hall appeal bars the hall
entry 1 MA-1
fits 1 B > true
granted 1 R1 S1 hall B
fits 1 B > false
fits 1 A > true
# desks are in order of papers
paper AB-0 S1 60 -
entry 1 MA-1
entry 2 AB-0
arrangement 2 step-free 0
listed > 1 true 2 true halls 2
row 0 > 0 1 rank 1
row 1 > 0 rank 0
# an unknown session is refused
refusals S9 1 > Some(UnknownSession) Some(UnknownSession) true
";

#[test]
fn rules_by_example(rt: HostRuntime) -> Result<(), Fail> {
    play(rt.alloc(), RULES)
}

/// Arrangements that were granted for one session and also hold for later ones. In the first story the one appeal of
/// candidate 1 bears no mark at first, and the mark of candidate 1 has no appeal.
const STANDING: &str = "\
# a marked grant counts for a later session
session S0 2027-05-31
entry 1 MA-1
standing 1 AR9
standing 2 AR1
granted 1 AR1 S0 arrangement screen 25
in-force 1 > - 0
finish 1 > 600
fits 1 A > true
standing 1 AR1
in-force 1 > screen 25
finish 1 > 615
fits 1 A > false
# a standing grant counts from its date on
session S2 2027-06-02
entry 1 MA-1
arrangement 1 - 5
granted 1 AR1 S2 arrangement - 25
standing 1 AR1
in-force 1 > - 5
session S2 2027-06-01
in-force 1 > - 25
session S2 2027-05-20
in-force 1 > - 25
# the latest date and then the greater code decides
session S0 2027-05-31
session S2 2027-05-30
session S3 2027-05-31
entry 1 MA-1
granted 1 AR1 S2 arrangement - 20
standing 1 AR1
granted 1 AR2 S0 arrangement - 30
in-force 1 > - 20
standing 1 AR2
in-force 1 > - 30
granted 1 AR0 S3 arrangement - 40
standing 1 AR0
in-force 1 > - 40
# the own grant of the session comes first
session S0 2027-05-31
entry 1 MA-1
arrangement 1 - 5
granted 1 AR1 S0 arrangement - 25
standing 1 AR1
in-force 1 > - 25
granted 1 AR2 S1 arrangement - 50
in-force 1 > - 50
superseded 1 AR2 S1 arrangement - 50
in-force 1 > - 25
superseded 1 AR1 S0 arrangement - 25
in-force 1 > - 5
";

#[test]
fn standing_grants(rt: HostRuntime) -> Result<(), Fail> {
    play(rt.alloc(), STANDING)
}

/// The paper ZZ-9 is of no session, so nobody is listed.
const NOBODY_LISTED: &str = "\
paper AB-0 S1 60 -
entry 1 ZZ-9
entry 2 ZZ-9
entry 3 ZZ-9
";

/// An entry that is set in each turn, and who is listed then. 9 is nobody's number.
const TURNS: &str = "\
entry 2 MA-1 > 2 MA-1
entry 1 MA-1 > 1 MA-1 2 MA-1
entry 3 MA-1 > 1 MA-1 2 MA-1 3 MA-1
entry 2 AB-0 > 1 MA-1 2 AB-0 3 MA-1
withdrawn 2 MA-1 > 1 MA-1 2 AB-0 3 MA-1
withdrawn 2 AB-0 > 1 MA-1 3 MA-1
entry 2 MA-1 > 1 MA-1 2 MA-1 3 MA-1
entry 9 MA-1 > 1 MA-1 2 MA-1 3 MA-1
";

#[test]
fn one_entry_set_is_listed_as_all_anew(rt: HostRuntime) -> Result<(), Fail> {
    relist_each(rt.alloc(), NOBODY_LISTED, TURNS)
}
