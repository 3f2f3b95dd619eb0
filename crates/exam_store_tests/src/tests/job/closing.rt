//! Withdrawals, reinstatements and closed halls.
use super::{Days, play_each};
use exam_scripts::days::{CLOSED, WITHDRAWN};
use std::test::Fail;

const NOT_ENTERED: &str = "\
$ import entries f
number,paper
0000001,MA-1
> added 1 changed 0 same 0
$ withdraw 0000009 MA-9
! refused 6
$ withdraw 0000001 MA-9
! refused 5
$ withdraw 0000002 MA-1
! refused 8
$ reinstate 0000009 MA-9
! refused 6
$ reinstate 0000001 MA-9
! refused 5
$ reinstate 0000002 MA-1
! refused 8
$ reinstate 0000001 MA-1
! refused 10
$ withdraw 0000001 MA-1
> withdrawn
$ withdraw 0000001 MA-1
! refused 9
";

const UNKNOWN: &str = "\
$ door-list S9 A
! refused 4
$ door-list S1 D
! refused 7
$ import halls f
hall,title,features
C,Hall C,-
> added 1 changed 0 same 0
$ door-list S1 C
! refused 25
";

/// Entries that are withdrawn, and halls that are not open.
const LEFT: Days<'_> = &[
    (
        "a withdrawn entry stays withdrawn after the same import",
        &[WITHDRAWN],
    ),
    ("a closed hall is closed once", &[CLOSED]),
    (
        "entries that cannot be withdrawn or reinstated are refused",
        &[NOT_ENTERED],
    ),
    (
        "an unknown hall is refused unlike one that is not opened",
        &[UNKNOWN],
    ),
];

#[test]
fn withdrawn_entries_and_closed_halls_stay_so(rt: HostRuntime) -> Result<(), Fail> {
    play_each(&rt, LEFT)
}
