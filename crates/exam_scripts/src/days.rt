//! Days at the school, as texts: who sits where, who appeals, and what each command prints or answers. A day comes
//! after the one that its comment names, or else after the timetable and the people of the school.

/// Nobody is entered.
pub const NOBODY_IS_SHORT: &str = "\
$ shortage S1
> SHORTAGE session S1
unseated 0
halls 0 desks 0
candidates 0
";

/// After the second candidate needs hall A: a third one comes, and both desks are taken.
pub const THIRD_IS_SHORT: &str = "\
$ import entries f
number,paper
0000003,MA-1
> added 1 changed 0 same 0
$ shortage S1
> SHORTAGE session S1
unseated 1
halls 2 desks 2
hall A desks 1
hall B desks 1
candidates 3
0000001
0000002
0000003
";

/// After the second candidate needs hall A: the first one appeals against hall B, and hall A does not come free.
pub const BARRED_FROM_B: &str = r#"$ POST /candidates/0000001/appeals on 2027-05-30
{"hall":"B","kind":"hall","reason":"","ref":"HA1","session":"S1"}
> {"state":"open"}
$ decide 0000001 HA2 granted ok on 2027-05-31
! refused 15
$ decide 0000001 HA1 granted ok on 2027-06-01
! refused 17
$ decide 0000001 HA1 granted ok on 2027-05-31
> decided granted hall - moved 0
$ decide 0000001 HA1 granted ok on 2027-05-31
> unchanged
$ decide 0000001 HA1 refused ok on 2027-05-31
! refused 16
"#;

/// After that grant: the sheets show that the first candidate has no desk.
pub const ONE_HAS_NO_DESK: &str = "\
$ door-list S1 A
> DOOR LIST session S1 hall A
date 2027-06-01 start 09:00 desks 1 seated 1
   1 0000002 MA-1         Ada Lin
$ door-list S1 B
> DOOR LIST session S1 hall B
date 2027-06-01 start 09:00 desks 1 seated 0
$ shortage S1
> SHORTAGE session S1
unseated 1
halls 1 desks 1
hall A desks 1
candidates 2
0000001
0000002
$ appeals S1
> APPEALS session S1
appeals 1
0000001 HA1              hall        granted    2027-05-30 B
$ export S1
> session,number,paper,hall,desk
S1,0000001,MA-1,-,-
S1,0000002,MA-1,A,1
";

/// After the first candidate takes hall A: the second one appeals against hall B, and so moves the first one.
pub const MOVED_BY_A_CHAIN: &str = r#"$ import entries f
number,paper
0000002,MA-1
> added 1 changed 0 same 0
$ POST /candidates/0000002/appeals on 2027-05-30
{"hall":"B","kind":"hall","reason":"","ref":"HA1","session":"S1"}
> {"state":"open"}
$ decide 0000002 HA1 granted ok on 2027-05-31
> decided granted hall A moved 1
$ export S1
> session,number,paper,hall,desk
S1,0000001,MA-1,B,1
S1,0000002,MA-1,A,1
"#;

/// Hall A alone is open. The first candidate has its desk and appeals against it, so that the second one takes it.
pub const BARRED_FROM_A: &str = r#"$ close-hall S1 B
> closed
$ import entries f
number,paper
0000001,MA-1
0000002,MA-1
> added 2 changed 0 same 0
$ door-list S1 A
> DOOR LIST session S1 hall A
date 2027-06-01 start 09:00 desks 1 seated 1
   1 0000001 MA-1         Bo Berg
$ POST /candidates/0000001/appeals on 2027-05-30
{"hall":"A","kind":"hall","reason":"","ref":"HA1","session":"S1"}
> {"state":"open"}
$ decide 0000001 HA1 granted ok on 2027-05-31
> decided granted hall - moved 0
$ door-list S1 A
> DOOR LIST session S1 hall A
date 2027-06-01 start 09:00 desks 1 seated 1
   1 0000002 MA-1         Ada Lin
$ shortage S1
> SHORTAGE session S1
unseated 1
halls 0 desks 0
candidates 1
0000001
"#;

/// Three halls; any two have a feature in common.
pub const THREE_HALLS: &str = "\
$ import halls f
hall,title,features
A,Hall A,step-free+reader
B,Hall B,screen+reader
C,Hall C,step-free+screen
> added 1 changed 2 same 0
$ import openings f
session,hall,desks,until,reserved
S1,C,1,12:00,no
> added 1 changed 0 same 0
";

/// After the three halls: each of three candidates needs another feature.
pub const THREE_NEEDS: &str = "\
$ import arrangements f
number,needs,extra
0000001,step-free,0
0000002,screen,0
0000003,reader,0
> added 3 changed 0 same 0
$ import entries f
number,paper
0000001,MA-1
0000002,MA-1
0000003,MA-1
> added 3 changed 0 same 0
$ export S1
> session,number,paper,hall,desk
S1,0000001,MA-1,C,1
S1,0000002,MA-1,B,1
S1,0000003,MA-1,A,1
";

/// 90 minutes and a quarter are 112 and a half, so the candidate ends at 10:53.
pub const A_QUARTER_MORE: &str = "\
$ import papers f
paper,title,session,minutes,requires
MA-1,Maths,S1,90,-
> added 0 changed 1 same 0
$ import openings f
session,hall,desks,until,reserved
S1,A,1,10:52,no
S1,B,1,10:53,no
> added 0 changed 2 same 0
$ import arrangements f
number,needs,extra
0000001,-,25
> added 1 changed 0 same 0
$ import entries f
number,paper
0000001,MA-1
> added 1 changed 0 same 0
$ attendance S1 MA-1
> ATTENDANCE session S1 paper MA-1
date 2027-06-01 start 09:00 candidates 1
0000001 B           1 10:53 Bo Berg
$ door-list S1 A
> DOOR LIST session S1 hall A
date 2027-06-01 start 09:00 desks 1 seated 0
$ door-list S1 B
> DOOR LIST session S1 hall B
date 2027-06-01 start 09:00 desks 1 seated 1
   1 0000001 MA-1         Bo Berg
$ import openings f
session,hall,desks,until,reserved
S1,B,1,10:52,no
> added 0 changed 1 same 0
$ attendance S1 MA-1
> ATTENDANCE session S1 paper MA-1
date 2027-06-01 start 09:00 candidates 1
0000001 -           - 10:53 Bo Berg
$ door-list S1 B
> DOOR LIST session S1 hall B
date 2027-06-01 start 09:00 desks 1 seated 0
";

/// Hall A has two desks. The fifth candidate sits the paper of the lesser code.
pub const TWO_PAPERS_IN_A_HALL: &str = "\
$ import papers f
paper,title,session,minutes,requires
PH-2,Physics,S1,60,-
> added 1 changed 0 same 0
$ import openings f
session,hall,desks,until,reserved
S1,A,2,12:00,no
> added 0 changed 1 same 0
$ import entries f
number,paper
0000002,PH-2
0000005,MA-1
> added 2 changed 0 same 0
$ door-list S1 A
> DOOR LIST session S1 hall A
date 2027-06-01 start 09:00 desks 2 seated 2
   1 0000005 MA-1         Ed Poe
   2 0000002 PH-2         Ada Lin
";

/// The third candidate is entered for two papers of the session. Only hall C fits the second one.
pub const TWO_PAPERS_AT_ONCE: &str = r#"$ import papers f
paper,title,session,minutes,requires
PH-2,Physics,S1,60,computer
> added 1 changed 0 same 0
$ import halls f
hall,title,features
C,Hall C,computer
> added 1 changed 0 same 0
$ import openings f
session,hall,desks,until,reserved
S1,C,1,12:00,no
> added 1 changed 0 same 0
$ import entries f
number,paper
0000003,MA-1
0000003,PH-2
> added 2 changed 0 same 0
$ export S1
> session,number,paper,hall,desk
S1,0000003,MA-1,A,1
$ clashes S1
> CLASHES session S1
date 2027-06-01 clashes 1
0000003 sits MA-1         clash PH-2
$ GET /candidates/0000003/clashes
> {"clashes":[{"paper":"PH-2","session":"S1","sitting":"MA-1"}]}
$ attendance S1 PH-2
> ATTENDANCE session S1 paper PH-2
date 2027-06-01 start 09:00 candidates 0
"#;

/// After the two papers: the candidate asks for the second one.
pub const CLASH_IS_GRANTED: &str = r#"$ POST /candidates/0000003/appeals on 2027-05-27
{"kind":"clash","paper":"PH-2","reason":"","ref":"CA1","session":"S1"}
> {"state":"open"}
$ decide 0000003 CA1 granted ok on 2027-05-27
> decided granted hall C moved 0
$ clashes S1
> CLASHES session S1
date 2027-06-01 clashes 1
0000003 sits PH-2         clash MA-1
"#;

/// An entry is withdrawn, imported again and reinstated.
pub const WITHDRAWN: &str = "\
$ import entries f
number,paper
0000001,MA-1
0000002,MA-1
> added 2 changed 0 same 0
$ withdraw 0000001 MA-1
> withdrawn
$ import entries f
number,paper
0000001,MA-1
0000002,MA-1
> added 0 changed 0 same 2
$ door-list S1 A
> DOOR LIST session S1 hall A
date 2027-06-01 start 09:00 desks 1 seated 0
$ reinstate 0000001 MA-1
> reinstated
$ door-list S1 A
> DOOR LIST session S1 hall A
date 2027-06-01 start 09:00 desks 1 seated 1
   1 0000001 MA-1         Bo Berg
";

/// The third record of a file is bad, a file has no header, and a file has no record.
pub const REFUSED_FILES: &str = "\
$ import candidates f
number,name,code
0000006,Flo Ray,CODE0006
0000007,Gil Moe,CODE0007
000003,Cy Dahl,CODE0003
! refused 1 record 3 column 1
$ import candidates f
! refused 2
$ import candidates f
number,name,code
> added 0 changed 0 same 0
";

/// After 256 halls were opened for the session: one more, which has the greatest code.
pub const ONE_OPENING_MORE: &str = "\
$ import openings f
session,hall,desks,until,reserved
S1,Z,1,12:00,no
! refused 20
";

/// Hall A alone is open, and has two desks, and then one.
pub const FEWER_DESKS: &str = "\
$ close-hall S1 B
> closed
$ import openings f
session,hall,desks,until,reserved
S1,A,2,12:00,no
> added 0 changed 1 same 0
$ import entries f
number,paper
0000004,MA-1
0000001,MA-1
> added 2 changed 0 same 0
$ door-list S1 A
> DOOR LIST session S1 hall A
date 2027-06-01 start 09:00 desks 2 seated 2
   1 0000001 MA-1         Bo Berg
   2 0000004 MA-1         Di Roe
$ import openings f
session,hall,desks,until,reserved
S1,A,1,12:00,no
> added 0 changed 1 same 0
$ door-list S1 A
> DOOR LIST session S1 hall A
date 2027-06-01 start 09:00 desks 1 seated 1
   1 0000001 MA-1         Bo Berg
$ shortage S1
> SHORTAGE session S1
unseated 1
halls 1 desks 1
hall A desks 1
candidates 2
0000001
0000004
";

/// Hall A is closed, and then there is nothing to close.
pub const CLOSED: &str = "\
$ import entries f
number,paper
0000001,MA-1
> added 1 changed 0 same 0
$ close-hall S1 A
> closed
$ door-list S1 B
> DOOR LIST session S1 hall B
date 2027-06-01 start 09:00 desks 1 seated 1
   1 0000001 MA-1         Bo Berg
$ close-hall S1 A
! refused 25
$ door-list S1 A
! refused 25
$ door-list S9 A
! refused 4
$ close-hall S9 A
! refused 4
$ close-hall S1 C
! refused 7
";

/// A second session on the day after, in which hall A closes at 10:00. The first candidate is entered for both.
pub const TWO_SESSIONS: &str = "\
$ import sessions f
session,date,start
S2,2027-06-02,09:00
> added 1 changed 0 same 0
$ import papers f
paper,title,session,minutes,requires
MB-1,Maths,S2,60,-
> added 1 changed 0 same 0
$ import openings f
session,hall,desks,until,reserved
S2,A,1,10:00,no
S2,B,1,12:00,no
> added 2 changed 0 same 0
$ import entries f
number,paper
0000001,MA-1
0000001,MB-1
> added 2 changed 0 same 0
$ export S1
> session,number,paper,hall,desk
S1,0000001,MA-1,A,1
$ attendance S2 MB-1
> ATTENDANCE session S2 paper MB-1
date 2027-06-02 start 09:00 candidates 1
0000001 A           1 10:00 Bo Berg
$ attendance S1 MB-1
! refused 5
";

/// After the two sessions: hall C opens in the first one, and the first candidate needs a reader. The third one comes
/// to the first session, and the second one to both.
pub const THREE_COME: &str = "\
$ import halls f
hall,title,features
A,Hall A,step-free+reader
B,Hall B,reader
C,Hall C,-
> added 1 changed 2 same 0
$ import openings f
session,hall,desks,until,reserved
S1,C,1,12:00,no
> added 1 changed 0 same 0
$ import arrangements f
number,needs,extra
0000001,reader,0
> added 1 changed 0 same 0
$ import entries f
number,paper
0000003,MA-1
> added 1 changed 0 same 0
$ import entries f
number,paper
0000002,MA-1
0000002,MB-1
> added 2 changed 0 same 0
$ export S1
> session,number,paper,hall,desk
S1,0000001,MA-1,A,1
S1,0000002,MA-1,C,1
S1,0000003,MA-1,B,1
$ export S2
> session,number,paper,hall,desk
S2,0000001,MB-1,A,1
S2,0000002,MB-1,B,1
";

/// After the three have come: the second one needs hall A in both sessions. The first one moves twice and the third one
/// once.
pub const MOVED_TWICE: &str = r#"$ POST /candidates/0000002/appeals on 2027-05-22
{"extra":0,"kind":"arrangement","needs":"step-free","reason":"","ref":"AR1","session":"S1"}
> {"state":"open"}
$ decide 0000002 AR1 standing ok on 2027-05-31
> decided granted hall A moved 3
$ export S1
> session,number,paper,hall,desk
S1,0000001,MA-1,B,1
S1,0000002,MA-1,A,1
S1,0000003,MA-1,C,1
$ export S2
> session,number,paper,hall,desk
S2,0000001,MB-1,B,1
S2,0000002,MB-1,A,1
"#;

/// The tables as they were in version 1.
pub const OF_VERSION_1: &str = "\
$ sql
DROP TABLE standing; UPDATE office SET version = 1
";

pub const FROM_VERSION_1: &str = "\
$ migrate
> migrated 1 to 3
$ migrate
> already 3
";

/// The tables as they were in version 2.
pub const OF_VERSION_2: &str = "\
$ sql
UPDATE office SET version = 2
";

pub const FROM_VERSION_2: &str = "\
$ migrate
> migrated 2 to 3
$ migrate
> already 3
";
