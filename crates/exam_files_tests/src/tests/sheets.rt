//! Each sheet, whole to writers that take much or a byte at a time, and cut off when a writer fails.
use super::office::{play, played, school, session, taken, view_of};
use super::slow::Slow;
use exam_files::{
    SheetFault, appeal_register, attendance, clash_list, door_list, export_seats, shortage_sheet,
};
use exam_office::{Command, Lodging, SessionView};
use exam_rules::Subject;
use exam_school::expect_same;
use exam_types::{HallCode, Number, PaperCode, Reason, Reference};
use std::alloc::Global;
use std::process::Abort;
use std::test::Fail;

/// 0000002 needs hall A, so 0000001 sits in hall B. 0000003 is unseated and has a clash.
const ENTERED: &str = "\
$ import papers f
paper,title,session,minutes,requires
PH-2,Physics,S1,60,-
> added 1 changed 0 same 0
$ import arrangements f
number,needs,extra
0000002,step-free,0
> added 1 changed 0 same 0
$ import entries f
number,paper
0000001,MA-1
0000002,MA-1
0000003,MA-1
0000003,PH-2
> added 4 changed 0 same 0
";

/// The words of each sheet of that session, in which 0000001 appeals against hall B, and its text.
const SHEETS: &[(&str, &str)] = &[
    (
        "door-list S1 A",
        "\
DOOR LIST session S1 hall A
date 2027-06-01 start 09:00 desks 1 seated 1
   1 0000002 MA-1         Ada Lin
",
    ),
    (
        "attendance S1 MA-1",
        "\
ATTENDANCE session S1 paper MA-1
date 2027-06-01 start 09:00 candidates 3
0000001 B           1 10:00 Bo Berg
0000002 A           1 10:00 Ada Lin
0000003 -           - 10:00 Cy Dahl
",
    ),
    (
        "clashes S1",
        "\
CLASHES session S1
date 2027-06-01 clashes 1
0000003 sits MA-1         clash PH-2
",
    ),
    (
        "shortage S1",
        "\
SHORTAGE session S1
unseated 1
halls 2 desks 2
hall A desks 1
hall B desks 1
candidates 3
0000001
0000002
0000003
",
    ),
    (
        "appeals S1",
        "\
APPEALS session S1
appeals 1
0000001 HA1              hall        open       2027-05-30 B
",
    ),
    (
        "export S1",
        "\
session,number,paper,hall,desk
S1,0000001,MA-1,B,1
S1,0000002,MA-1,A,1
S1,0000003,MA-1,-,-
",
    ),
];

/// Writes the sheet of these words.
pub fn write_sheet(
    alloc: Global,
    view: &SessionView,
    line: &str,
    out: &mut Slow,
) -> Result<Result<(), SheetFault>, Fail> {
    let (word, code) = line.split_once(" S1 ").unwrap_or((line, ""));
    Ok(match word {
        "door-list" => {
            let hall = HallCode::parse(code.as_bytes()).ok_or("hall")?;
            door_list(alloc, view, &hall, out)
        }
        "attendance" => {
            let paper = PaperCode::parse(code.as_bytes()).ok_or("paper")?;
            attendance(alloc, view, &paper, out)
        }
        "clashes S1" => clash_list(alloc, view, out),
        "shortage S1" => shortage_sheet(alloc, view, out),
        "appeals S1" => appeal_register(alloc, view, out),
        "export S1" => export_seats(alloc, view, out),
        _ => return Err(Fail::new("no sheet")),
    })
}

/// Compares what a writer takes that takes at most so many bytes at a call, up to its room.
fn expect_taken<R: Abort + AllocGlobal>(
    rt: &R,
    view: &SessionView,
    line: &str,
    (step, room): (usize, usize),
    taken: &[u8],
) -> Result<(), Fail> {
    let mut out = Slow::new(rt.alloc(), step, room);
    let is_whole = write_sheet(rt.alloc(), view, line, &mut out)? == Ok(());
    assert_eq!(rt; out.taken.as_slice(), taken);
    assert_eq!(rt; is_whole, step > 0 && taken.len() < room);
    Ok(())
}

/// The sheet has this text: whole to writers that take much or a byte at a time, cut off when a writer fails, and empty
/// for one that takes nothing.
fn expect_sheet<R: Abort + AllocGlobal>(
    rt: &R,
    view: &SessionView,
    line: &str,
    text: &[u8],
) -> Result<(), Fail> {
    expect_taken(rt, view, line, (1000, 1000), text)?;
    expect_taken(rt, view, line, (1, 1000), text)?;
    expect_taken(rt, view, line, (0, 1000), b"")?;
    for (room, _) in text.iter().enumerate() {
        expect_taken(rt, view, line, (7, room), &text[..room])?;
    }
    Ok(())
}

/// The appeal of 0000001 against hall B.
fn lodging(alloc: Global) -> Result<Lodging, Fail> {
    Ok(Lodging {
        number: Number::new(1).ok_or("number")?,
        reference: Reference::parse(b"HA1").ok_or("reference")?,
        session: session().ok_or("session")?,
        subject: Subject::Hall(HallCode::parse(b"B").ok_or("hall")?),
        reason: Reason::parse(alloc, b"")?.ok_or("reason")?,
    })
}

/// The session that the sheets show.
fn view(alloc: Global) -> Result<SessionView, Fail> {
    let mut office = school(alloc)?;
    played(alloc, &mut office, ENTERED)?;
    let lodge = Command::Lodge(lodging(alloc)?);
    let answer = taken(alloc, &mut office, &lodge)?;
    expect_same(answer.as_str(), "> done\n", "appeal")?;
    view_of(alloc, &office)
}

#[test]
fn each_sheet_is_cut_where_its_writer_fails(rt: HostRuntime) -> Result<(), Fail> {
    let view = view(rt.alloc())?;
    for (line, text) in SHEETS {
        expect_sheet(&rt, &view, line, text.as_bytes())?;
    }
    Ok(())
}

/// A session with nobody in it. There is no sheet of a paper of another session, of a closed hall, or of an unknown
/// hall.
const NOBODY: &str = "\
$ import sessions f
session,date,start
S2,2027-06-02,09:00
> added 1 changed 0 same 0
$ import papers f
paper,title,session,minutes,requires
MB-1,Maths,S2,60,-
> added 1 changed 0 same 0
$ import halls f
hall,title,features
C,Hall C,-
HALL2027,Aula,-
> added 2 changed 0 same 0
$ import openings f
session,hall,desks,until,reserved
S1,HALL2027,2000,12:00,no
> added 1 changed 0 same 0
$ door-list S1 HALL2027
> DOOR LIST session S1 hall HALL2027
date 2027-06-01 start 09:00 desks 2000 seated 0
$ attendance S1 MA-1
> ATTENDANCE session S1 paper MA-1
date 2027-06-01 start 09:00 candidates 0
$ clashes S1
> CLASHES session S1
date 2027-06-01 clashes 0
$ shortage S1
> SHORTAGE session S1
unseated 0
halls 0 desks 0
candidates 0
$ appeals S1
> APPEALS session S1
appeals 0
$ export S1
> session,number,paper,hall,desk
$ attendance S1 MB-1
! refused 5
$ attendance S1 XX-1
! refused 5
$ door-list S1 C
! refused 25
$ door-list S1 D
! refused 7
";

#[test]
fn sheets_of_an_empty_session_have_their_headings(rt: HostRuntime) -> Result<(), Fail> {
    play(rt.alloc(), NOBODY)
}

/// The code of a paper that fills its column, and desks ordered by the paper before the number.
const DESKS: &str = "\
$ import papers f
paper,title,session,minutes,requires
NBCDEFGH-123,Latin,S1,60,-
> added 1 changed 0 same 0
$ import openings f
session,hall,desks,until,reserved
S1,A,1000,12:00,no
> added 0 changed 1 same 0
$ import entries f
number,paper
0000002,NBCDEFGH-123
0000003,MA-1
> added 2 changed 0 same 0
$ door-list S1 A
> DOOR LIST session S1 hall A
date 2027-06-01 start 09:00 desks 1000 seated 2
   1 0000003 MA-1         Cy Dahl
   2 0000002 NBCDEFGH-123 Ada Lin
";

#[test]
fn occupants_are_listed_by_desk(rt: HostRuntime) -> Result<(), Fail> {
    play(rt.alloc(), DESKS)
}
