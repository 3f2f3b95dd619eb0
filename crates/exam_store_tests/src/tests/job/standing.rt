//! Arrangements that stand for later sessions: two days, with what each command prints.
use super::{Days, play_each};
use exam_school::FIRST_TAKES_A;
use exam_scripts::days::{
    FROM_VERSION_1, FROM_VERSION_2, MOVED_TWICE, OF_VERSION_1, OF_VERSION_2, THREE_COME,
    TWO_SESSIONS,
};
use std::test::Fail;

const A_QUARTER_MORE: &str = r#"$ POST /candidates/0000001/appeals on 2027-05-22
{"extra":25,"kind":"arrangement","needs":"-","reason":"","ref":"AR1","session":"S1"}
> {"state":"open"}
$ decide 0000001 AR1 standing ok on 2027-05-31
> decided granted hall A moved 0
$ attendance S2 MB-1
> ATTENDANCE session S2 paper MB-1
date 2027-06-02 start 09:00 candidates 1
0000001 B           1 10:15 Bo Berg
$ decide 0000001 AR1 standing ok on 2027-05-31
> unchanged
$ decide 0000001 AR1 granted ok on 2027-05-31
! refused 16
$ import sessions f
session,date,start
S1,2027-06-03,09:00
> added 0 changed 1 same 0
$ attendance S2 MB-1
> ATTENDANCE session S2 paper MB-1
date 2027-06-02 start 09:00 candidates 1
0000001 B           1 10:00 Bo Berg
$ POST /candidates/0000001/appeals on 2027-05-31
{"hall":"A","kind":"hall","reason":"","ref":"HA1","session":"S1"}
> {"state":"open"}
$ decide 0000001 HA1 standing ok on 2027-05-31
! refused 26
$ sql
SELECT number, ref FROM standing
> 1|AR1|
"#;

const A_SCREEN_AND_NONE: &str = r#"$ POST /candidates/0000001/appeals on 2027-05-22
{"extra":0,"kind":"arrangement","needs":"screen","reason":"","ref":"AR1","session":"S1"}
> {"state":"open"}
$ decide 0000001 AR1 standing ok on 2027-05-22
> decided granted hall - moved 0
$ attendance S2 MB-1
> ATTENDANCE session S2 paper MB-1
date 2027-06-02 start 09:00 candidates 1
0000001 -           - 10:00 Bo Berg
$ POST /candidates/0000001/appeals on 2027-05-22
{"extra":25,"kind":"arrangement","needs":"-","reason":"","ref":"AR2","session":"S1"}
> {"state":"open"}
$ decide 0000001 AR2 granted ok on 2027-05-22
> decided granted hall A moved 0
$ appeals S1
> APPEALS session S1
appeals 2
0000001 AR1              arrangement superseded 2027-05-22 screen 0
0000001 AR2              arrangement granted    2027-05-22 - 25
$ attendance S2 MB-1
> ATTENDANCE session S2 paper MB-1
date 2027-06-02 start 09:00 candidates 1
0000001 A           1 10:00 Bo Berg
$ decide 0000001 AR1 standing ok on 2027-05-22
! refused 16
$ appeals S2
> APPEALS session S2
appeals 0
"#;

/// An office of an older version is neither opened nor made anew.
const NOT_OPENED: &str = "\
$ export S1
! refused 27
$ init
! refused 27
";

/// The first candidate still sits, and withdraws.
const GOES_ON: &str = "\
$ export S1
> session,number,paper,hall,desk
S1,0000001,MA-1,A,1
$ withdraw 0000001 MA-1
> withdrawn
$ export S1
> session,number,paper,hall,desk
";

const STILL_STANDS: &str = "\
$ sql
SELECT number, ref FROM standing
> 2|AR1|
";

/// What a standing grant gives, and how long.
const STANDING: Days<'_> = &[
    (
        "a standing grant counts from its date on",
        &[TWO_SESSIONS, A_QUARTER_MORE],
    ),
    (
        "a later grant ends a standing one",
        &[TWO_SESSIONS, A_SCREEN_AND_NONE],
    ),
    (
        "who moves in two sessions counts twice",
        &[TWO_SESSIONS, THREE_COME, MOVED_TWICE],
    ),
    (
        "a migration from version 1 names both versions",
        &[
            FIRST_TAKES_A,
            OF_VERSION_1,
            NOT_OPENED,
            FROM_VERSION_1,
            GOES_ON,
        ],
    ),
    (
        "a migration from version 2 keeps the marks",
        &[
            TWO_SESSIONS,
            THREE_COME,
            MOVED_TWICE,
            OF_VERSION_2,
            NOT_OPENED,
            FROM_VERSION_2,
            STILL_STANDS,
        ],
    ),
];

#[test]
fn standing_grants_count_as_told(rt: HostRuntime) -> Result<(), Fail> {
    play_each(&rt, STANDING)
}
