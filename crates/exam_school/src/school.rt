//! The school: one session with one paper, two halls (A is step-free), and five candidates.

/// As facts. Nobody is entered, and no hall is opened.
pub const SCHOOL: &str = "\
session S1 2027-06-01
paper MA-1 S1 60 -
hall A step-free
hall B -
1..6 candidate *
";

/// Each hall is opened with a desk.
pub const OPENED: &str = "\
opening S1 A 1 12:00
opening S1 B 1 12:00
";

/// The session, its paper and the halls, as the program imports them.
pub const TIMETABLE: &str = "\
$ import sessions f
session,date,start
S1,2027-06-01,09:00
> added 1 changed 0 same 0
$ import papers f
paper,title,session,minutes,requires
MA-1,Maths,S1,60,-
> added 1 changed 0 same 0
$ import halls f
hall,title,features
A,Hall A,step-free
B,Hall B,-
> added 2 changed 0 same 0
";

/// Each hall is opened with a desk, and the candidates come.
pub const PEOPLE: &str = "\
$ import openings f
session,hall,desks,until,reserved
S1,A,1,12:00,no
S1,B,1,12:00,no
> added 2 changed 0 same 0
$ import candidates f
number,name,code
0000001,Bo Berg,CODE0001
0000002,Ada Lin,CODE0002
0000003,Cy Dahl,CODE0003
0000004,Di Roe,CODE0004
0000005,Ed Poe,CODE0005
> added 5 changed 0 same 0
";

/// The first candidate sits in the hall of the least code.
pub const FIRST_TAKES_A: &str = "\
$ import entries f
number,paper
0000001,MA-1
> added 1 changed 0 same 0
$ door-list S1 A
> DOOR LIST session S1 hall A
date 2027-06-01 start 09:00 desks 1 seated 1
   1 0000001 MA-1         Bo Berg
$ door-list S1 B
> DOOR LIST session S1 hall B
date 2027-06-01 start 09:00 desks 1 seated 0
";

/// The second one needs that hall.
pub const SECOND_NEEDS_A: &str = "\
$ import arrangements f
number,needs,extra
0000002,step-free,0
> added 1 changed 0 same 0
$ import entries f
number,paper
0000002,MA-1
> added 1 changed 0 same 0
$ door-list S1 A
> DOOR LIST session S1 hall A
date 2027-06-01 start 09:00 desks 1 seated 1
   1 0000002 MA-1         Ada Lin
$ door-list S1 B
> DOOR LIST session S1 hall B
date 2027-06-01 start 09:00 desks 1 seated 1
   1 0000001 MA-1         Bo Berg
";

/// The timetable and the people, as rows of the tables.
pub const ROWS: &str = "\
INSERT INTO session VALUES ('S1', '2027-06-01', 540);
INSERT INTO paper VALUES ('MA-1', 'Maths', 'S1', 60, 0);
INSERT INTO hall VALUES ('A', 'Hall A', 1), ('B', 'Hall B', 0);
INSERT INTO opening VALUES ('S1', 'A', 1, 720, 0), ('S1', 'B', 1, 720, 0);
INSERT INTO candidate VALUES (1, 'Bo Berg', 'CODE0001'), (2, 'Ada Lin', 'CODE0002'), (3, 'Cy Dahl', 'CODE0003'),
(4, 'Di Roe', 'CODE0004'), (5, 'Ed Poe', 'CODE0005')";

/// The first candidate sits in hall A.
pub const ONE_SITS: &str = "\
INSERT INTO entry VALUES (1, 'MA-1', 1);
INSERT INTO seat VALUES ('S1', 1, 'A')";

/// The second one needs that hall, and the first one sits in hall B.
pub const TWO_SIT: &str = "\
INSERT INTO arrangement VALUES (2, 1, 0);
INSERT INTO entry VALUES (1, 'MA-1', 1), (2, 'MA-1', 1);
INSERT INTO seat VALUES ('S1', 1, 'B'), ('S1', 2, 'A')";
