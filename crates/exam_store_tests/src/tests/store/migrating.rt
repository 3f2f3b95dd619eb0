//! Offices of older versions are brought to the newest, whole or not at all.
use super::{BAD_STORE, expect_number};
use crate::tests::offices::office_of;
use crate::tests::views::refusal_of_migrating;
use exam_school::{ONE_SITS, ROWS};
use std::alloc::Global;
use std::test::Fail;

/// Turns the tables of the newest version into those of version 1.
const TO_FIRST: &str = "DROP TABLE standing; UPDATE office SET version = 1";

/// Turns them into those of version 2.
const TO_SECOND: &str = "UPDATE office SET version = 2";

/// From two halls to 128, all of them opened.
const MANY_OPENINGS: &str = "\
INSERT INTO hall SELECT code || 'C', title, 7 FROM hall;
INSERT INTO hall SELECT code || 'D', title, 7 FROM hall;
INSERT INTO hall SELECT code || 'E', title, 7 FROM hall;
INSERT INTO hall SELECT code || 'F', title, 7 FROM hall;
INSERT INTO hall SELECT code || 'G', title, 7 FROM hall;
INSERT INTO hall SELECT code || 'H', title, 7 FROM hall;
INSERT INTO opening SELECT 'S1', code, 1, 720, 0 FROM hall WHERE features = 7";

/// The most that an older version could hold, beside as many openings.
const AT_LIMITS: &str = "\
UPDATE hall SET features = 31
UPDATE hall SET features = 31; UPDATE paper SET requires = 31
INSERT INTO arrangement VALUES (2, 31, 0)
INSERT INTO appeal VALUES (2, 'R1', 'S1', 3, '', 31, 0, '', 3, 'No', '2027-05-01')
";

/// What no older version could hold.
const PAST_LIMITS: &str = "\
UPDATE hall SET features = 32
UPDATE hall SET features = 63; UPDATE paper SET requires = 32
INSERT INTO arrangement VALUES (2, 32, 0)
INSERT INTO appeal VALUES (2, 'R1', 'S1', 3, '', 32, 0, '', 3, 'No', '2027-05-01')
INSERT INTO hall VALUES ('Z', 'Hall Z', 0); INSERT INTO opening VALUES ('S1', 'Z', 1, 720, 0)
";

/// Rows and tables that no office of version 1 has.
const NO_FIRST_OFFICES: &str = "\
UPDATE office SET version = 2
UPDATE office SET version = 3
UPDATE session SET start = 1440
UPDATE paper SET minutes = 601
UPDATE hall SET features = 32
UPDATE opening SET desks = 0
UPDATE candidate SET code = 'code0009' WHERE number = 3
UPDATE entry SET live = 2
INSERT INTO arrangement VALUES (1, 32, 0)
INSERT INTO appeal VALUES (1, 'R1', 'S1', 1, 'A', 0, 0, '', 0, NULL, '2027-05-01')
DELETE FROM seat
DROP TABLE office
CREATE TABLE standing (number INTEGER NOT NULL, ref TEXT NOT NULL, PRIMARY KEY (number, ref)) STRICT
";

/// Changes after which there is no good office of version 2.
const NO_SECOND_OFFICES: &str = "\
UPDATE office SET version = 1
UPDATE paper SET minutes = 601
DELETE FROM seat
DROP TABLE standing
DROP TABLE office
";

/// Statements at the school with one candidate seated, statements each of which makes another office of it, statements
/// that follow, and the number of the refusal of migrating it, or 0.
const OLDER: &[(&str, &str, &str, u16)] = &[
    (MANY_OPENINGS, AT_LIMITS, TO_FIRST, 0),
    (MANY_OPENINGS, PAST_LIMITS, TO_FIRST, BAD_STORE),
    (MANY_OPENINGS, AT_LIMITS, TO_SECOND, 0),
    (MANY_OPENINGS, PAST_LIMITS, TO_SECOND, BAD_STORE),
    (TO_FIRST, NO_FIRST_OFFICES, "", BAD_STORE),
    (TO_SECOND, NO_SECOND_OFFICES, "", BAD_STORE),
];

/// The number of the refusal of migrating that office after these statements.
fn refusal_after(alloc: Global, before: &str, sql: &str, then: &str) -> Result<u16, Fail> {
    let mut conn = office_of(alloc, &[ROWS, ONE_SITS, before, sql, then])?;
    Ok(refusal_of_migrating(alloc, &mut conn))
}

/// Migrates an office for the statements of each line.
fn expect_each(
    alloc: Global,
    before: &str,
    lines: &str,
    then: &str,
    refusal: u16,
) -> Result<(), Fail> {
    for sql in lines.lines() {
        expect_number(refusal_after(alloc, before, sql, then)?, refusal, sql)?;
    }
    Ok(())
}

#[test]
fn only_good_offices_are_migrated(rt: HostRuntime) -> Result<(), Fail> {
    for (before, lines, then, refusal) in OLDER {
        expect_each(rt.alloc(), before, lines, then, *refusal)?;
    }
    Ok(())
}
