//! Import files in their several forms, and files that are refused.
use super::office::{empty, imported, play};
use exam_office::Kind;
use exam_school::expect_same;
use std::alloc::Global;
use std::test::Fail;

/// Quotes, line ends, blank lines, a byte order mark and a last line without an end. Each file of entries but the first
/// holds the two entries that exist, one of them twice, or none.
const FORMS: &str = "\
$ import entries f
\"number\",paper
0000001,\"MA-1\"
\"0000002\",MA-1
> added 2 changed 0 same 0
$ import entries f
number,paper\r\n0000001,MA-1\r\n0000002,MA-1\r\n> added 0 changed 0 same 2
$ import entries f
number,paper\r0000001,MA-1\r0000002,MA-1\r> added 0 changed 0 same 2
$ import entries f
number,paper\n0000001,MA-1\n0000002,MA-1> added 0 changed 0 same 2
$ import entries f
\n\nnumber,paper\n\n0000001,MA-1\n\r\n0000002,MA-1\n\n> added 0 changed 0 same 2
$ import entries f
\u{feff}number,paper\n0000001,MA-1\n0000002,MA-1\n> added 0 changed 0 same 2
$ import entries f
number,paper\n0000001,MA-1\n0000001,MA-1\n> added 0 changed 0 same 1
$ import entries f
number,paper
> added 0 changed 0 same 0
$ import candidates f
number,name,code
0000001,\"Bo \"\"B.\"\", Berg\",CODE0001
> added 0 changed 1 same 0
$ attendance S1 MA-1
> ATTENDANCE session S1 paper MA-1
date 2027-06-01 start 09:00 candidates 2
0000001 A           1 10:00 Bo \"B.\", Berg
0000002 B           1 10:00 Ada Lin
";

/// A file of each kind, with values at the ends of their ranges.
const ENDS: &str = "\
$ import sessions f
session,date,start
S1,2027-06-01,09:00
S2,2000-01-11,23:59
S3,2199-12-31,00:00
> added 2 changed 0 same 1
$ import papers f
paper,title,session,minutes,requires
MA-1,Maths,S1,600,step-free+computer
PH-2,Physics,S2,1,-
> added 1 changed 1 same 0
$ import halls f
hall,title,features
A,Aula,-
ABCDEFGH,Hall,step-free+screen+reader+small-room+computer+quiet
> added 1 changed 1 same 0
$ import openings f
session,hall,desks,until,reserved
S1,A,2000,24:00,yes
S2,A,1,00:00,no
> added 1 changed 1 same 0
$ import candidates f
number,name,code
9999999,Bo Berg,ABCDEFGH12345678
> added 1 changed 0 same 0
$ import arrangements f
number,needs,extra
0000001,screen,100
0000002,-,0
> added 2 changed 0 same 0
";

/// Files whose first record is not the header of their kind.
const HEADERS: &str = "\
$ import candidates f
! refused 2
$ import halls f
\n\r\n\n! refused 2
$ import entries f
\u{feff}! refused 2
$ import entries f
number,paper,
0000001,MA-1,
! refused 2
$ import entries f
paper,number
0000001,MA-1
! refused 2
$ import entries f
Number,Paper
0000001,MA-1
! refused 2
$ import sessions f
hall,title,features
A,Aula,-
! refused 2
";

/// Records with too few fields, with too many, and with a field that is no value of its column. Blank lines before
/// them do not count.
const RECORDS: &str = "\
$ import candidates f
number,name,code
0000001,Bo Berg,CODE0001
0000002,Ada Lin,CODE0002
000003,Cy Dahl,CODE0003
! refused 1 record 3 column 1
$ import entries f
number,paper
0000001
! refused 1 record 1 column 0
$ import entries f
number,paper
0000001,MA-1,x
! refused 1 record 1 column 0
$ import entries f
number,paper
0000001,MA-1
0000000,MA-1,
! refused 1 record 2 column 0
$ import entries f
\n\nnumber,paper\n\n0000001,MA-1\n\r\n\n0000000,MA-1\n! refused 1 record 2 column 1
$ import entries f
number,paper
0000000,ma-1
! refused 1 record 1 column 1
$ import halls f
hall,title,features
A,\"Two
lines\",-
! refused 1 record 1 column 2
$ import candidates f
number,name,code
0000006,Flo\0Ray,CODE0006
! refused 1 record 1 column 2
$ import candidates f
number,name,code
0000006,Flo Ray of the very long name that goes on and on until it has more bytes than 80,CODE0006
! refused 1 record 1 column 2
$ import candidates f
number,name,code
0000001,Bo Berg,CODE001
! refused 1 record 1 column 3
$ import sessions f
session,date,start
S1,2000-01-10,09:00
! refused 1 record 1 column 2
$ import sessions f
session,date,start
S1,2027-02-29,09:00
! refused 1 record 1 column 2
$ import sessions f
session,date,start
S1,2027-06-01,24:00
! refused 1 record 1 column 3
$ import openings f
session,hall,desks,until,reserved
S1,A,01,12:00,no
! refused 1 record 1 column 3
$ import openings f
session,hall,desks,until,reserved
S1,A,1,12:00,No
! refused 1 record 1 column 5
$ import arrangements f
number,needs,extra
0000001,screen+step-free,0
! refused 1 record 1 column 2
$ import papers f
paper,title,session,minutes,requires
MA-1,Maths,S1,0,-
! refused 1 record 1 column 4
";

/// Records that contradict an earlier one of their file, even after a bad one.
const CONTRADICTIONS: &str = "\
$ import candidates f
number,name,code
0000001,Bo Berg,CODE0001
0000001,Bo Berg,CODE0009
! refused 3 record 2
$ import arrangements f
number,needs,extra
0000001,-,25
0000002,-,25
0000001,-,50
x
! refused 3 record 3
$ import arrangements f
number,needs,extra
0000001,-,25
0000002,-,101
0000001,-,50
! refused 1 record 2 column 3
$ import openings f
session,hall,desks,until,reserved
S1,A,1,12:00,no
S1,B,2,12:00,no
> added 0 changed 1 same 1
";

#[test]
fn files_are_read_or_refused_as_told(rt: HostRuntime) -> Result<(), Fail> {
    for text in [FORMS, ENDS, HEADERS, RECORDS, CONTRADICTIONS] {
        play(rt.alloc(), text)?;
    }
    Ok(())
}

/// Compares the answer to a file with this one.
fn expect(alloc: Global, kind: Kind, file: &[u8], wanted: &str) -> Result<(), Fail> {
    let found = imported(alloc, &mut empty(alloc), kind, file)?;
    expect_same(found.as_str(), wanted, "a file")
}

#[test]
fn bytes_that_are_no_text_are_refused(rt: HostRuntime) -> Result<(), Fail> {
    let file = b"number,name,code\n0000001,B\xff Berg,CODE0001\n";
    let wanted = "! refused 1 record 1 column 2\n";
    expect(rt.alloc(), Kind::Candidates, file, wanted)
}

#[test]
fn a_file_that_is_too_long_is_refused(rt: HostRuntime) -> Result<(), Fail> {
    let mut file = vec![in rt.alloc(); b'\n'; 4_194_304]?;
    expect(rt.alloc(), Kind::Halls, file.as_slice(), "! refused 2\n")?;
    file.push(b'\n')?;
    expect(rt.alloc(), Kind::Halls, file.as_slice(), "! refused 20\n")
}
