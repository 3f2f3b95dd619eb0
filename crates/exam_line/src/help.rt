//! What `--help` and `COMMAND --help` say. `{n}` is the end of a line.

/// The version of the program.
pub const VERSION: &str = "1.1.0";

pub const PROGRAM: &str =
    "Seats candidates for exams: imports CSV files, finds a desk for each, prints door lists, keeps appeals.";

pub const DB: &str = "The file of the office, such as office.db";

pub const TODAY: &str = "Today's date, such as 2027-05-01; it decides whether an appeal is in time";

pub const INIT: &str = "Creates an empty office, or checks that the file already holds one";

pub const MIGRATE: &str =
    "Carries an office that an earlier version of this program made over to this version's tables";

pub const CHECK: &str =
    "Prints `good`, or the first bad table of a file that you do not trust, such as `bad seat`";

pub const IMPORT: &str =
    "Adds the rows of a CSV file, changes those with a known key, and seats candidates";

pub const KIND: &str =
    "What the file holds: sessions, papers, halls, openings, candidates, entries or arrangements";

pub const FILE: &str =
    "The CSV file, such as examples/entries.csv; its first line is the header of its kind";

pub const WITHDRAW: &str = "Withdraws the entry of a candidate for a paper";

pub const REINSTATE: &str = "Takes back the withdrawal of an entry";

pub const NUMBER: &str = "The number of a candidate, such as 0000001";

pub const PAPER: &str = "The code of a paper, such as MATHS-1";

pub const CLOSE_HALL: &str =
    "Closes a hall for a session, and finds other seats for the candidates in it";

pub const DECIDE: &str = "Grants or refuses an open appeal; after a grant, finds seats again";

pub const REFERENCE: &str = "The reference of an appeal, such as HA1";

pub const OUTCOME: &str =
    "The decision: granted, refused or standing, which grants an arrangement for later sessions too";

pub const REASON: &str =
    "The answer to the candidate, such as 'a window was found'; it may be empty";

pub const SERVE: &str =
    "Answers candidates over HTTP, on this machine alone, until you stop it; other commands must wait";

pub const PORT: &str = "The port to serve on, such as 8080";

pub const DOOR_LIST: &str = "Prints who sits in a hall, by desk";

pub const ATTENDANCE: &str = "Prints who sits a paper in a session, with hall, desk and finish";

pub const CLASHES: &str =
    "Prints who has two papers in a session, the one they sit and the one they miss";

pub const APPEALS: &str = "Prints the appeals for a session, with their states";

pub const EXPORT: &str = "Prints the seats of a session as CSV";

pub const SHORTAGE: &str =
    "Prints why desks are short: candidates, and all halls that suit any of them; candidates = desks + unseated";

pub const SESSION: &str = "The code of a session, such as MON-AM";

pub const HALL: &str = "The code of a hall, such as GYM";

pub const STATUSES: &str =
    "Exit status: 0 done, 1 refused, a bad table or a file failed, 2 the line was not understood.{n}{n}\
A refused command changes nothing; after 22 and 23 look whether it is done. It prints `refused` and a number:{n}   \
1 a bad row, with its record and column (0: a wrong number of fields): correct the file, import all of it again{n}   \
2 the first line is not the header of this kind: copy the header from examples/{n}   \
3 a record has the key of an earlier one and other contents: keep one of the two{n}   \
4 no such session: check the code, or import sessions first{n}   \
5 no such paper in the session: check the code, or import papers first{n}   \
6 no such candidate: check the number, or import candidates first{n}   \
7 no such hall: check the code, or import halls first{n}   \
8 not entered for the paper: check both codes, import or reinstate the entry, or decide `refused`{n}   \
9 the entry is withdrawn already{n}  \
10 the entry is not withdrawn{n}  \
12 the candidate has left the session: decide `refused`{n}  \
15 no such appeal: `appeals SESSION` lists numbers and references{n}  \
16 the appeal is not open: it was decided, taken back or replaced by a later grant{n}  \
17 too late: decide before the day of the session{n}  \
20 a limit below would be passed, or the file is too long: open fewer halls, or split the file{n}  \
22 not enough memory: try again when the machine has more{n}  \
23 the database cannot be used now: stop `serve`, look at the disk and the permissions{n}  \
24 the file holds no office: `check` names the bad table; `init` makes an office{n}  \
25 the hall is not open for the session: import openings first{n}  \
26 the appeal asks no arrangement: decide `granted`{n}  \
27 an earlier version of this program made the office: run `migrate` first{n}{n}\
Other messages: `file fault`: the import file cannot be read; `write fault`: the output cannot be written, but a \
command is done; `net fault`: the port is taken.{n}{n}\
Limits: 20,000 candidates, 400 sessions, 2,000 papers, 500 halls; in a session 4,096 candidates and 256 open halls; \
64 appeals of a candidate; 4,194,304 bytes in an import file.";
