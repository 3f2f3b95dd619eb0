//! What imports answer, and how they are refused.
use super::orders::{order_of, push};
use super::questions::answers_of;
use super::{office_of, play};
use exam_office::{Import, Kind, Office};
use exam_school::{OPENED, expect_same};
use std::alloc::Global;
use std::test::Fail;

const REPLIES: &str = "\
# a row that stands twice counts once
import entries 1 MA-1, 2 MA-1, 1 MA-1 > Imported 2 0 0
# new, changed and same rows are counted apart
import openings S1 A 2 12:00, S1 B 1 12:00 > Imported 0 1 1
import candidates 6 > Imported 1 0 0
# a withdrawn entry stays withdrawn
withdrawn 1 MA-1
import entries 1 MA-1 > Imported 0 0 1
entry 1 MA-1 > withdrawn
seats S1 > -
# what a row refers to is looked up in the order of its columns
import papers PH-2 S9 60 - > UnknownSession
import openings S9 Z 1 12:00 > UnknownSession
import openings S1 Z 1 12:00 > UnknownHall
import entries 9 XX > UnknownCandidate
import arrangements 9 - 0 > UnknownCandidate
# a refused import keeps no row
import entries 1 MA-1, 1 XX > UnknownPaper
entries > 0
seats S1 > -
";

#[test]
fn replies(rt: HostRuntime) -> Result<(), Fail> {
    play(rt.alloc(), OPENED, REPLIES)
}

/// Imports two contents of one key.
fn expect_conflict(alloc: Global, import: &mut Import) -> Result<(), Fail> {
    push(alloc, import, "S1 A 1 12:00")??;
    let pushed = push(alloc, import, "S1 A 2 12:00")?;
    let count = import.rows().len();
    let found = format!(in alloc; "{pushed:?} {count}")?;
    expect_same(found.as_str(), "Err(RowConflict(2)) 1", "openings")
}

#[test]
fn a_key_with_two_contents_is_a_conflict(rt: HostRuntime) -> Result<(), Fail> {
    let mut import = Import::new(rt.alloc(), Kind::Openings);
    expect_conflict(rt.alloc(), &mut import)
}

/// Runs three imports as one list.
fn expect_answers(alloc: Global, office: &mut Office) -> Result<(), Fail> {
    let known = order_of(alloc, "import entries 1 MA-1")?;
    let unknown = order_of(alloc, "import entries 1 XX")?;
    let again = order_of(alloc, "import entries 1 MA-1")?;
    let found = answers_of(alloc, office, &[known, unknown, again])?;
    expect_same(
        found.as_str(),
        "Imported 1 0 0;UnknownPaper;Imported 0 0 1;",
        "list",
    )
}

#[test]
fn a_list_of_commands_answers_each(rt: HostRuntime) -> Result<(), Fail> {
    let mut office = office_of(rt.alloc(), &[OPENED])?;
    expect_answers(rt.alloc(), &mut office)
}
