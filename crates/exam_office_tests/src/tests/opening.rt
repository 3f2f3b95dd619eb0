//! Facts and plans that are no good office, and some that are one.
use exam_office::{Office, Seats, Table, first_bad_table};
use exam_rules::Facts;
use exam_school::{School, expect_same, school_with};
use exam_types::Refusal;
use std::alloc::Global;
use std::test::Fail;

/// The first bad table, if one is bad, and the refusal of the office, if it is refused.
fn judged(
    alloc: Global,
    facts: Facts,
    seats: Seats,
) -> Result<(Option<Table>, Option<Refusal>), Fail> {
    let bad = first_bad_table(alloc, &facts, &seats)?;
    Ok((bad, Office::from_parts(alloc, facts, seats).err()))
}

fn judgement(alloc: Global, lines: &str) -> Result<String, Fail> {
    let School { facts, seats } = school_with(alloc, &[lines])?;
    match judged(alloc, facts, seats)? {
        (None, None) => Ok(String::from_str(alloc, "good")?),
        (Some(table), Some(Refusal::BadStore)) => Ok(format!(in alloc; "bad {table:?}")?),
        (table, refusal) => Ok(format!(in alloc; "{table:?} {refusal:?}")?),
    }
}

/// Behind each judgement the facts of an office: rows that refer to what does not exist; tables with as many rows as
/// they may have, and with too many; two granted arrangement appeals for one session; and marks that no standing grant
/// bears, namely one without an appeal, one of a hall appeal, and one of an open appeal.
const JUDGED: &str = "\
# bad Papers
paper PH-2 S9 60 -
# bad Openings
opening S1 Z 1 12:00
# bad Entries
entry 9 MA-1
# bad Arrangements
arrangement 9 - 10
# bad Appeals
granted 1 R1 S1 hall Z
# bad Sessions
0..401 session S* 2027-06-01
# bad Halls
0..499 hall H* -
# bad Candidates
1..20002 candidate *
# good
0..64 granted 1 R* S1 hall A
# bad Appeals
0..65 granted 1 R* S1 hall A
# bad Appeals
granted 1 R1 S1 arrangement screen 0
granted 1 R2 S1 arrangement screen 0
# bad Standing
standing 1 R1
# bad Standing
granted 1 R1 S1 hall A
standing 1 R1
# bad Standing
lodged 1 R1 S1 arrangement screen 0
standing 1 R1
";

/// A plan that leaves the member out, one in which somebody else sits too, and one in a hall that is not opened. Any
/// best plan is accepted.
const PLANS: &str = "\
# bad Seats
opening S1 A 1 12:00
opening S1 B 1 12:00
entry 1 MA-1
# bad Seats
opening S1 A 1 12:00
opening S1 B 1 12:00
entry 1 MA-1
seat S1 1 A
seat S1 2 B
# bad Seats
opening S1 A 1 12:00
entry 1 MA-1
seat S1 1 B
# good
opening S1 A 1 12:00
opening S1 B 1 12:00
entry 1 MA-1
seat S1 1 A
# good
opening S1 A 1 12:00
opening S1 B 1 12:00
entry 1 MA-1
seat S1 1 B
";

fn judge_each(alloc: Global, text: &str) -> Result<(), Fail> {
    for part in text.split("# ").skip(1) {
        let (wanted, lines) = part.split_once('\n').ok_or("judgement")?;
        expect_same(judgement(alloc, lines)?.as_str(), wanted, lines)?;
    }
    Ok(())
}

#[test]
fn openings(rt: HostRuntime) -> Result<(), Fail> {
    judge_each(rt.alloc(), JUDGED)?;
    judge_each(rt.alloc(), PLANS)
}
