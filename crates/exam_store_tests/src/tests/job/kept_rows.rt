//! The rows that the tables hold after commands.
use super::{Days, play_each};
use exam_school::{FIRST_TAKES_A, SECOND_NEEDS_A};
use std::test::Fail;

/// Each kind, with keys that are new and keys that are there, and values at the ends of their ranges.
const TIMETABLE: &str = "\
$ import sessions f
session,date,start
S1,2027-06-02,23:59
S2,2000-01-11,00:00
> added 1 changed 1 same 0
$ sql
SELECT code, day, start FROM session ORDER BY code
> S1|2027-06-02|1439|
S2|2000-01-11|0|
$ import papers f
paper,title,session,minutes,requires
MA-1,Algebra,S2,600,screen+computer
PH-2,Optics,S1,1,-
> added 1 changed 1 same 0
$ sql
SELECT code, title, session, minutes, requires FROM paper ORDER BY code
> MA-1|Algebra|S2|600|18|
PH-2|Optics|S1|1|0|
$ import halls f
hall,title,features
A,Great Hall,step-free+screen+reader+small-room+computer+quiet
C,Hall C,reader
> added 1 changed 1 same 0
$ sql
SELECT code, title, features FROM hall ORDER BY code
> A|Great Hall|63|
B|Hall B|0|
C|Hall C|4|
$ import openings f
session,hall,desks,until,reserved
S1,A,2000,24:00,yes
S2,C,1,00:00,no
> added 1 changed 1 same 0
$ sql
SELECT session, hall, desks, until, reserved FROM opening ORDER BY session, hall
> S1|A|2000|1440|1|
S1|B|1|720|0|
S2|C|1|0|0|
";

const CANDIDATES: &str = "\
$ import candidates f
number,name,code
0000005,Ed Pole,NEWCODE5
9999999,Zoe Ziv,ABCDEFGH12345678
> added 1 changed 1 same 0
$ sql
SELECT number, name, code FROM candidate ORDER BY number
> 1|Bo Berg|CODE0001|
2|Ada Lin|CODE0002|
3|Cy Dahl|CODE0003|
4|Di Roe|CODE0004|
5|Ed Pole|NEWCODE5|
9999999|Zoe Ziv|ABCDEFGH12345678|
$ import entries f
number,paper
0000002,MA-1
0000002,PH-2
> added 2 changed 0 same 0
$ sql
SELECT number, paper, live FROM entry ORDER BY number, paper
> 2|MA-1|1|
2|PH-2|1|
$ withdraw 0000002 PH-2
> withdrawn
$ sql
SELECT number, paper, live FROM entry ORDER BY number, paper
> 2|MA-1|1|
2|PH-2|0|
$ import arrangements f
number,needs,extra
0000002,reader+small-room,100
0000003,-,0
> added 2 changed 0 same 0
$ sql
SELECT number, needs, extra FROM arrangement ORDER BY number
> 2|12|100|
3|0|0|
$ import arrangements f
number,needs,extra
0000003,screen,5
> added 0 changed 1 same 0
$ sql
SELECT number, needs, extra FROM arrangement ORDER BY number
> 2|12|100|
3|2|5|
$ sql
SELECT one, version FROM office
> 1|3|
";

const A_IS_TAKEN: &str = "\
$ sql
SELECT session, number, hall FROM seat
> S1|1|A|
";

/// Nobody can finish in hall B any more, and hall A is taken by one who needs it.
const B_CLOSES_EARLY: &str = "\
$ sql
SELECT session, number, hall FROM seat ORDER BY number
> S1|1|B|
S1|2|A|
$ import openings f
session,hall,desks,until,reserved
S1,B,1,09:59,no
> added 0 changed 1 same 0
$ sql
SELECT session, number, hall FROM seat
> S1|2|A|
";

/// Files with a good row before a bad one.
const REFUSED: &str = "\
$ import entries f
number,paper
0000002,MA-1
0000003,MA-9
! refused 5
$ import openings f
session,hall,desks,until,reserved
S1,A,5,12:00,no
S1,Z,1,12:00,no
! refused 7
$ import papers f
paper,title,session,minutes,requires
MA-1,Maths,S1,90,-
MA-2,Maths,S9,60,-
! refused 4
$ import arrangements f
number,needs,extra
0000001,screen,0
0000009,screen,0
! refused 6
";

/// The first candidate is seated.
const ALL_ROWS: &str = "\
$ tables
> 1|3|

S1|2027-06-01|540|

MA-1|Maths|S1|60|0|

A|Hall A|1|
B|Hall B|0|

S1|A|1|720|0|
S1|B|1|720|0|

1|Bo Berg|CODE0001|
2|Ada Lin|CODE0002|
3|Cy Dahl|CODE0003|
4|Di Roe|CODE0004|
5|Ed Poe|CODE0005|

1|MA-1|1|




S1|1|A|

";

/// An office that is there already is ready.
const READY: &str = "\
$ init
> ready
$ import entries f
number,paper
0000001,MA-1
> added 0 changed 0 same 1
";

const TAKES_B: &str = "\
$ sql
UPDATE seat SET hall = 'B'
$ door-list S1 B
> DOOR LIST session S1 hall B
date 2027-06-01 start 09:00 desks 1 seated 1
   1 0000001 MA-1         Bo Berg
";

/// Every kind and state of appeals, all features and each of them alone.
const APPEALS: &str = "\
$ sql
INSERT INTO appeal VALUES
(1, 'HALLOPEN', 'S1', 1, 'A', 0, 0, '', 1, NULL, '2000-01-01'),
(1, 'HALLNOT', 'S1', 1, 'B', 0, 0, 'Too loud', 3, 'So it is', '2199-12-31'),
(1, 'HALLTWO', 'S1', 1, 'B', 0, 0, 'Too cold', 4, NULL, '2027-05-01'),
(2, 'CLASHYES', 'S1', 2, 'MA-1', 0, 0, 'I sit this', 2, 'Yes', '2027-05-02'),
(2, 'CLASHOLD', 'S1', 2, 'MA-1', 0, 0, 'I sat this', 5, 'Was yes', '2027-05-03'),
(3, 'NEEDSALL', 'S1', 3, '', 63, 100, 'All', 2, '', '2027-05-04'),
(3, 'NEEDSNONE', 'S1', 3, '', 0, 0, 'None', 5, 'Not now', '2027-05-05'),
(4, 'NEEDSONE', 'S1', 3, '', 1, 1, 'One', 1, NULL, '2027-05-06'),
(4, 'NEEDSTWO', 'S1', 3, '', 8, 25, 'Eight', 3, 'No', '2027-05-07')
$ import entries f
number,paper
0000001,MA-1
> added 1 changed 0 same 0
$ sql
SELECT number, ref, session, kind, target, needs, extra, reason, state, answer, lodged
FROM appeal ORDER BY number, ref
> 1|HALLNOT|S1|1|B|0|0|Too loud|3|So it is|2199-12-31|
1|HALLOPEN|S1|1|A|0|0||1|NULL|2000-01-01|
1|HALLTWO|S1|1|B|0|0|Too cold|4|NULL|2027-05-01|
2|CLASHOLD|S1|2|MA-1|0|0|I sat this|5|Was yes|2027-05-03|
2|CLASHYES|S1|2|MA-1|0|0|I sit this|2|Yes|2027-05-02|
3|NEEDSALL|S1|3||63|100|All|2||2027-05-04|
3|NEEDSNONE|S1|3||0|0|None|5|Not now|2027-05-05|
4|NEEDSONE|S1|3||1|1|One|1|NULL|2027-05-06|
4|NEEDSTWO|S1|3||8|25|Eight|3|No|2027-05-07|
";

/// Their register, by number and reference.
const REGISTER: &str = "\
$ appeals S1
> APPEALS session S1
appeals 9
0000001 HALLNOT          hall        refused    2199-12-31 B
0000001 HALLOPEN         hall        open       2000-01-01 A
0000001 HALLTWO          hall        retracted  2027-05-01 B
0000002 CLASHOLD         clash       superseded 2027-05-03 MA-1
0000002 CLASHYES         clash       granted    2027-05-02 MA-1
0000003 NEEDSALL         arrangement granted    2027-05-04 step-free+screen+reader+small-room+computer+quiet 100
0000003 NEEDSNONE        arrangement superseded 2027-05-05 - 0
0000004 NEEDSONE         arrangement open       2027-05-06 step-free 1
0000004 NEEDSTWO         arrangement refused    2027-05-07 small-room 25
";

/// Which rows the tables hold.
const KEPT: Days<'_> = &[
    ("each import is kept in its table", &[TIMETABLE, CANDIDATES]),
    (
        "seats are put changed and deleted",
        &[FIRST_TAKES_A, A_IS_TAKEN, SECOND_NEEDS_A, B_CLOSES_EARLY],
    ),
    (
        "refused imports and a second creation write nothing",
        &[FIRST_TAKES_A, ALL_ROWS, REFUSED, READY, ALL_ROWS],
    ),
    (
        "a seat of another best plan is kept",
        &[FIRST_TAKES_A, TAKES_B],
    ),
    (
        "appeals of all kinds and states are kept",
        &[APPEALS, REGISTER],
    ),
];

#[test]
fn rows_are_kept_as_told(rt: HostRuntime) -> Result<(), Fail> {
    play_each(&rt, KEPT)
}
