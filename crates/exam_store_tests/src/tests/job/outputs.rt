//! An import file and a standard output that fail, and reads that are interrupted.
use super::{Days, play, play_each};
use exam_school::FIRST_TAKES_A;
use std::test::Fail;

const FILE: &str = "\
number,paper
0000001,MA-1
";

const NOBODY: &str = "\
$ export S1
> session,number,paper,hall,desk
";

/// More bytes than the file has.
const WHOLE: &str = "\
$ import entries f failing after 27
number,paper
0000001,MA-1
> added 1 changed 0 same 0
";

/// It fails before each of its bytes, and behind the last. Whole, with other reads interrupted, it is read.
#[test]
fn a_torn_import_changes_nothing(rt: HostRuntime) -> Result<(), Fail> {
    let mut text = String::new(rt.alloc());
    for count in 0..27 {
        let line = format!(in rt.alloc(); "$ import entries f failing after {count}\n")?;
        for lines in [line.as_str(), FILE, "! file fault\n", NOBODY] {
            text.push_str(lines)?;
        }
    }
    play(&rt, &[text.as_str(), WHOLE])
}

/// Commands whose line is lost behind so many bytes, what is left of it, and what is exported then.
const LOST: &str = "\
$ withdraw 0000001 MA-1 with room for 0
! write fault
$ export S1
> session,number,paper,hall,desk
$ reinstate 0000001 MA-1 with room for 4
? reinwrite fault
$ export S1
> session,number,paper,hall,desk
S1,0000001,MA-1,A,1
$ withdraw 0000001 MA-1 with room for 9
? withdrawnwrite fault
$ export S1
> session,number,paper,hall,desk
$ export S1 with room for 30
? session,number,paper,hall,deskwrite fault
$ export S1
> session,number,paper,hall,desk
$ appeals S1 with room for 20
? APPEALS session S1
awrite fault
$ export S1
> session,number,paper,hall,desk
";

/// Commands whose line is held back, that line, and what is exported then.
const HELD_BACK: &str = "\
$ withdraw 0000001 MA-1 held back
? withdrawn
write fault
$ export S1
> session,number,paper,hall,desk
$ reinstate 0000001 MA-1 held back
? reinstated
write fault
$ export S1
> session,number,paper,hall,desk
S1,0000001,MA-1,A,1
$ export S1 held back
? session,number,paper,hall,desk
S1,0000001,MA-1,A,1
write fault
$ export S1
> session,number,paper,hall,desk
S1,0000001,MA-1,A,1
$ appeals S1 held back
? APPEALS session S1
appeals 0
write fault
$ export S1
> session,number,paper,hall,desk
S1,0000001,MA-1,A,1
";

/// Commands whose line does not reach its reader.
const LOST_LINES: Days<'_> = &[
    (
        "a command stands whose line is lost",
        &[FIRST_TAKES_A, LOST],
    ),
    (
        "a command stands whose line is held back",
        &[FIRST_TAKES_A, HELD_BACK],
    ),
];

#[test]
fn commands_stand_without_their_line(rt: HostRuntime) -> Result<(), Fail> {
    play_each(&rt, LOST_LINES)
}
