//! Who sits where after imports, withdrawals and a smaller hall, and the sheets that say so.
use super::{Days, play_each};
use exam_school::{FIRST_TAKES_A, SECOND_NEEDS_A};
use exam_scripts::days::{
    A_QUARTER_MORE, FEWER_DESKS, NOBODY_IS_SHORT, THIRD_IS_SHORT, THREE_HALLS, THREE_NEEDS,
    TWO_PAPERS_AT_ONCE, TWO_PAPERS_IN_A_HALL,
};
use std::test::Fail;

const SHEETS: &str = "\
$ attendance S1 MA-1
> ATTENDANCE session S1 paper MA-1
date 2027-06-01 start 09:00 candidates 2
0000001 B           1 10:00 Bo Berg
0000002 A           1 10:00 Ada Lin
$ export S1
> session,number,paper,hall,desk
S1,0000001,MA-1,B,1
S1,0000002,MA-1,A,1
$ clashes S1
> CLASHES session S1
date 2027-06-01 clashes 0
$ appeals S1
> APPEALS session S1
appeals 0
$ attendance S9 MA-1
! refused 4
$ attendance S1 PH-2
! refused 5
$ clashes S9
! refused 4
$ appeals S9
! refused 4
$ export S9
! refused 4
$ shortage S9
! refused 4
";

/// The third one needs a quiet hall, and there is none until hall B becomes one.
const B_BECOMES_QUIET: &str = "\
$ import arrangements f
number,needs,extra
0000003,quiet,0
> added 1 changed 0 same 0
$ import entries f
number,paper
0000003,MA-1
> added 1 changed 0 same 0
$ shortage S1
> SHORTAGE session S1
unseated 1
halls 0 desks 0
candidates 1
0000003
$ import halls f
hall,title,features
B,Hall B,quiet
> added 0 changed 1 same 0
$ door-list S1 B
> DOOR LIST session S1 hall B
date 2027-06-01 start 09:00 desks 1 seated 1
   1 0000003 MA-1         Cy Dahl
";

/// The fourth one sits a paper that no hall fits.
const TWO_ARE_SHORT: &str = "\
$ import papers f
paper,title,session,minutes,requires
RD-1,Reading,S1,60,reader
> added 1 changed 0 same 0
$ import entries f
number,paper
0000001,MA-1
0000002,MA-1
0000003,MA-1
> added 3 changed 0 same 0
$ import entries f
number,paper
0000004,RD-1
> added 1 changed 0 same 0
$ shortage S1
> SHORTAGE session S1
unseated 2
halls 2 desks 2
hall A desks 1
hall B desks 1
candidates 4
0000001
0000002
0000003
0000004
";

const THREE_PAPERS: &str = "\
$ import papers f
paper,title,session,minutes,requires
P-1,One,S1,60,step-free
P-2,Two,S1,60,screen
P-3,Three,S1,60,reader
> added 3 changed 0 same 0
$ import entries f
number,paper
0000001,P-1
0000002,P-2
0000003,P-3
> added 3 changed 0 same 0
$ export S1
> session,number,paper,hall,desk
S1,0000001,P-1,C,1
S1,0000002,P-2,B,1
S1,0000003,P-3,A,1
";

const THE_LATEST_END: &str = "\
$ import sessions f
session,date,start
S1,2027-06-01,23:59
> added 0 changed 1 same 0
$ import papers f
paper,title,session,minutes,requires
MA-1,Maths,S1,600,-
> added 0 changed 1 same 0
$ import openings f
session,hall,desks,until,reserved
S1,A,1,24:00,no
S1,B,1,24:00,no
> added 0 changed 2 same 0
$ import arrangements f
number,needs,extra
0000001,-,100
> added 1 changed 0 same 0
$ import entries f
number,paper
0000001,MA-1
> added 1 changed 0 same 0
$ attendance S1 MA-1
> ATTENDANCE session S1 paper MA-1
date 2027-06-01 start 23:59 candidates 1
0000001 -           - 43:59 Bo Berg
";

/// A paper code of 12 bytes, and a hall code of 8.
const WIDE_COLUMNS: &str = "\
$ import halls f
hall,title,features
HALL2027,Aula,-
> added 1 changed 0 same 0
$ import openings f
session,hall,desks,until,reserved
S1,A,1000,12:00,no
S1,HALL2027,2000,12:00,no
> added 1 changed 1 same 0
$ import papers f
paper,title,session,minutes,requires
ABCDEFGH-123,Latin,S1,60,-
> added 1 changed 0 same 0
$ import entries f
number,paper
0000001,ABCDEFGH-123
> added 1 changed 0 same 0
$ door-list S1 A
> DOOR LIST session S1 hall A
date 2027-06-01 start 09:00 desks 1000 seated 1
   1 0000001 ABCDEFGH-123 Bo Berg
$ door-list S1 HALL2027
> DOOR LIST session S1 hall HALL2027
date 2027-06-01 start 09:00 desks 2000 seated 0
";

/// Hall A is for candidates with arrangements alone.
const A_IS_RESERVED: &str = "\
$ import openings f
session,hall,desks,until,reserved
S1,A,1,12:00,yes
> added 0 changed 1 same 0
$ import entries f
number,paper
0000001,MA-1
> added 1 changed 0 same 0
$ export S1
> session,number,paper,hall,desk
S1,0000001,MA-1,B,1
$ import arrangements f
number,needs,extra
0000001,-,25
> added 1 changed 0 same 0
$ export S1
> session,number,paper,hall,desk
S1,0000001,MA-1,B,1
$ import entries f
number,paper
0000002,MA-1
> added 1 changed 0 same 0
$ export S1
> session,number,paper,hall,desk
S1,0000001,MA-1,A,1
S1,0000002,MA-1,B,1
";

const ONE_IS_LEFT: &str = "\
$ withdraw 0000003 MA-1
> withdrawn
$ export S1
> session,number,paper,hall,desk
S1,0000003,PH-2,C,1
$ clashes S1
> CLASHES session S1
date 2027-06-01 clashes 0
$ reinstate 0000003 MA-1
> reinstated
$ export S1
> session,number,paper,hall,desk
S1,0000003,MA-1,C,1
";

/// Who sits where.
const SEATED: Days<'_> = &[
    ("first candidate takes the least hall", &[FIRST_TAKES_A]),
    (
        "need moves another by a chain",
        &[FIRST_TAKES_A, SECOND_NEEDS_A, SHEETS],
    ),
    (
        "shortage names seated and unseated",
        &[
            NOBODY_IS_SHORT,
            FIRST_TAKES_A,
            SECOND_NEEDS_A,
            THIRD_IS_SHORT,
        ],
    ),
    (
        "hall that becomes quiet seats who needs it",
        &[FIRST_TAKES_A, B_BECOMES_QUIET],
    ),
    (
        "who fits no hall is short beside who finds no desk",
        &[TWO_ARE_SHORT],
    ),
    (
        "least of two short chains is taken",
        &[THREE_HALLS, THREE_NEEDS],
    ),
    (
        "what papers require seats as needs do",
        &[THREE_HALLS, THREE_PAPERS],
    ),
    (
        "a hall fits that closes no sooner than the end",
        &[A_QUARTER_MORE],
    ),
    ("no hall is open at the latest end", &[THE_LATEST_END]),
    (
        "desks are counted by paper before number",
        &[TWO_PAPERS_IN_A_HALL],
    ),
    ("wide codes fill their columns", &[WIDE_COLUMNS]),
    ("fewer desks put the greater number out", &[FEWER_DESKS]),
    (
        "extra time opens a reserved hall and moves nobody by itself",
        &[A_IS_RESERVED],
    ),
    (
        "a hall that still fits is kept",
        &[TWO_PAPERS_AT_ONCE, ONE_IS_LEFT],
    ),
];

#[test]
fn candidates_are_seated_as_told(rt: HostRuntime) -> Result<(), Fail> {
    play_each(&rt, SEATED)
}
