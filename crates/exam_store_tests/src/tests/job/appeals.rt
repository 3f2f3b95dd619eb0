//! Appeals that candidates post to the server, what the office decides of them, and who moves then.
use super::{Days, play_each};
use exam_school::{FIRST_TAKES_A, SECOND_NEEDS_A};
use exam_scripts::days::{
    BARRED_FROM_A, BARRED_FROM_B, CLASH_IS_GRANTED, MOVED_BY_A_CHAIN, ONE_HAS_NO_DESK,
    TWO_PAPERS_AT_ONCE,
};
use std::test::Fail;

const PAPER_WAS_LEFT: &str = r#"$ POST /candidates/0000003/appeals on 2027-05-27
{"kind":"clash","paper":"PH-2","reason":"","ref":"CA1","session":"S1"}
> {"state":"open"}
$ withdraw 0000003 PH-2
> withdrawn
$ decide 0000003 CA1 granted ok on 2027-05-27
! refused 8
"#;

const SESSION_WAS_LEFT: &str = r#"$ import entries f
number,paper
0000001,MA-1
> added 1 changed 0 same 0
$ POST /candidates/0000001/appeals on 2027-05-30
{"hall":"A","kind":"hall","reason":"","ref":"HA1","session":"S1"}
> {"state":"open"}
$ withdraw 0000001 MA-1
> withdrawn
$ decide 0000001 HA1 granted ok on 2027-05-31
! refused 12
$ decide 0000001 HA1 refused ok on 2027-05-31
> decided refused hall - moved 0
"#;

const THREE_WISHES: &str = r#"$ POST /candidates/0000001/appeals on 2027-05-23
{"extra":25,"kind":"arrangement","needs":"screen","reason":"","ref":"AR1","session":"S1"}
> {"day":"2027-05-22","error":13}
$ POST /candidates/0000001/appeals on 2027-05-22
{"extra":25,"kind":"arrangement","needs":"screen","reason":"","ref":"AR1","session":"S1"}
> {"state":"open"}
$ POST /candidates/0000001/appeals on 2027-05-22
{"extra":25,"kind":"arrangement","needs":"-","reason":"","ref":"AR2","session":"S1"}
> {"error":21}
$ decide 0000001 AR1 granted ok on 2027-05-22
> decided granted hall - moved 0
$ POST /candidates/0000001/appeals on 2027-05-22
{"extra":25,"kind":"arrangement","needs":"-","reason":"","ref":"AR2","session":"S1"}
> {"state":"open"}
$ decide 0000001 AR2 granted ok on 2027-05-22
> decided granted hall B moved 0
$ appeals S1
> APPEALS session S1
appeals 2
0000001 AR1              arrangement superseded 2027-05-22 screen 25
0000001 AR2              arrangement granted    2027-05-22 - 25
$ decide 0000001 AR1 granted ok on 2027-05-22
! refused 16
$ DELETE /candidates/0000001/appeals/AR1 on 2027-05-22
> {"error":16}
$ POST /candidates/0000001/appeals on 2027-05-22
{"extra":25,"kind":"arrangement","needs":"-","reason":"","ref":"AR3","session":"S1"}
> {"error":19}
"#;

/// What becomes of appeals.
const DECIDED: Days<'_> = &[
    (
        "a grant unseats the appellant alone",
        &[
            FIRST_TAKES_A,
            SECOND_NEEDS_A,
            BARRED_FROM_B,
            ONE_HAS_NO_DESK,
        ],
    ),
    ("the desk of an appellant goes to another", &[BARRED_FROM_A]),
    (
        "a grant moves another by a chain",
        &[FIRST_TAKES_A, MOVED_BY_A_CHAIN],
    ),
    (
        "a granted clash turns the sitting paper",
        &[TWO_PAPERS_AT_ONCE, CLASH_IS_GRANTED],
    ),
    (
        "a paper that was left is not granted",
        &[TWO_PAPERS_AT_ONCE, PAPER_WAS_LEFT],
    ),
    (
        "who left the session is granted nothing",
        &[SESSION_WAS_LEFT],
    ),
    (
        "a later grant supersedes an earlier one",
        &[FIRST_TAKES_A, SECOND_NEEDS_A, THREE_WISHES],
    ),
];

#[test]
fn appeals_are_decided_as_told(rt: HostRuntime) -> Result<(), Fail> {
    play_each(&rt, DECIDED)
}
