//! Import files that are refused, and files past the limits.
use super::play;
use exam_scripts::days::{ONE_OPENING_MORE, REFUSED_FILES};
use std::test::Fail;

/// Records of other lengths or without their values, records that contradict each other, and one that names what is not
/// there.
const REFUSED: &str = "\
$ import entries f
number,paper
0000001
! refused 1 record 1 column 0
$ import entries f
number,paper
0000001,MA-1,x
! refused 1 record 1 column 0
$ import candidates f
number,name,code
0000006,Flo Ray of the very long name that goes on and on until it has more bytes than 80,CODE0006
! refused 1 record 1 column 2
$ import candidates f
number,name,code
0000006,Flo\0Ray,CODE0006
! refused 1 record 1 column 2
$ import candidates f
number,name,code
0000001,Bo Berg,CODE0001
0000001,Bo Berg,CODE0009
! refused 3 record 2
$ import entries f
number,paper
0000001,MA-9
! refused 5
";

/// The tables are as before these files.
const NOTHING_KEPT: &str = "\
$ import candidates f
number,name,code
0000006,Flo Ray,CODE0006
> added 1 changed 0 same 0
$ import candidates f
number,name,code
0000006,Flo Ray,CODE0006
> added 0 changed 0 same 1
$ sql
SELECT count(*) FROM candidate
> 6|
";

#[test]
fn refused_imports_keep_no_row(rt: HostRuntime) -> Result<(), Fail> {
    play(&rt, &[REFUSED_FILES, REFUSED, NOTHING_KEPT])
}

#[test]
fn a_file_has_at_most_4194304_bytes(rt: HostRuntime) -> Result<(), Fail> {
    let lines = "\n".repeat(rt.alloc(), 4_194_304)?;
    let text = format!(in rt.alloc();
        "$ import halls f\n{lines}! refused 2\n$ import halls f\n{lines}\n! refused 20\n"
    )?;
    play(&rt, &[text.as_str()])
}

#[test]
fn opening_257_is_too_many(rt: HostRuntime) -> Result<(), Fail> {
    let alloc = rt.alloc();
    let mut halls = String::from_str(alloc, "$ import halls f\nhall,title,features\nZ,Hall Z,-\n")?;
    let mut openings = String::from_str(
        alloc,
        "$ import openings f\nsession,hall,desks,until,reserved\n",
    )?;
    for n in 100..354 {
        halls.push_str(format!(in alloc; "H{n},Hall {n},-\n")?.as_str())?;
        openings.push_str(format!(in alloc; "S1,H{n},1,12:00,no\n")?.as_str())?;
    }
    halls.push_str("> added 255 changed 0 same 0\n")?;
    openings.push_str("> added 254 changed 0 same 0\n")?;
    play(&rt, &[halls.as_str(), openings.as_str(), ONE_OPENING_MORE])
}
