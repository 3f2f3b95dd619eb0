//! Tables that hold no office are refused.
use super::{BAD_STORE, expect_number};
use crate::tests::offices::{after, office_of, refusal_of_opening};
use exam_school::{ONE_SITS, ROWS};
use std::alloc::Global;
use std::test::Fail;

const OUT_OF_RANGE: &str = "\
INSERT INTO session VALUES ('s2', '2027-06-01', 540)
INSERT INTO session VALUES ('', '2027-06-01', 540)
INSERT INTO session VALUES ('ABCDEFGHIJKLM', '2027-06-01', 540)
INSERT INTO session VALUES ('S2', '2000-01-10', 540)
INSERT INTO session VALUES ('S2', '2200-01-01', 540)
INSERT INTO session VALUES ('S2', '2027-02-29', 540)
INSERT INTO session VALUES ('S2', '2027-06-01', -1)
UPDATE session SET start = 1440
UPDATE paper SET title = ''
UPDATE paper SET minutes = 0
UPDATE paper SET minutes = 601
UPDATE paper SET requires = 64
UPDATE hall SET features = -1
INSERT INTO hall VALUES ('ABCDEFGHI', 'Hall', 0)
INSERT INTO hall VALUES ('A-B', 'Hall', 0)
UPDATE opening SET desks = 0
UPDATE opening SET desks = 2001
UPDATE opening SET until = 1441
UPDATE opening SET reserved = 2
INSERT INTO candidate VALUES (0, 'Flo Ray', 'CODE0009')
INSERT INTO candidate VALUES (10000000, 'Flo Ray', 'CODE0009')
INSERT INTO candidate VALUES (9, '', 'CODE0009')
INSERT INTO candidate VALUES (9, 'Flo Ray', 'SEVENLY')
INSERT INTO candidate VALUES (9, 'Flo Ray', 'code0009')
INSERT INTO arrangement VALUES (1, 64, 0)
INSERT INTO arrangement VALUES (1, 0, 101)
";

/// Kinds, subjects, states, answers, references and days that no appeal has.
const NO_APPEALS: &str = "\
INSERT INTO appeal VALUES (1, 'R1', 'S1', 0, 'A', 0, 0, '', 1, NULL, '2027-05-01')
INSERT INTO appeal VALUES (1, 'R1', 'S1', 4, 'A', 0, 0, '', 1, NULL, '2027-05-01')
INSERT INTO appeal VALUES (1, 'R1', 'S1', 1, 'A', 1, 0, '', 1, NULL, '2027-05-01')
INSERT INTO appeal VALUES (1, 'R1', 'S1', 1, 'A', 0, 1, '', 1, NULL, '2027-05-01')
INSERT INTO appeal VALUES (1, 'R1', 'S1', 1, '', 0, 0, '', 1, NULL, '2027-05-01')
INSERT INTO appeal VALUES (1, 'R1', 'S1', 1, 'Z', 0, 0, '', 1, NULL, '2027-05-01')
INSERT INTO appeal VALUES (1, 'R1', 'S1', 2, 'A', 0, 0, '', 1, NULL, '2027-05-01')
INSERT INTO appeal VALUES (1, 'R1', 'S1', 2, 'MA-1', 2, 0, '', 1, NULL, '2027-05-01')
INSERT INTO appeal VALUES (1, 'R1', 'S1', 3, 'A', 0, 0, '', 1, NULL, '2027-05-01')
INSERT INTO appeal VALUES (1, 'R1', 'S1', 3, '', 64, 0, '', 1, NULL, '2027-05-01')
INSERT INTO appeal VALUES (1, 'R1', 'S1', 3, '', 0, 101, '', 1, NULL, '2027-05-01')
INSERT INTO appeal VALUES (1, 'R1', 'S1', 1, 'A', 0, 0, '', 0, NULL, '2027-05-01')
INSERT INTO appeal VALUES (1, 'R1', 'S1', 1, 'A', 0, 0, '', 6, NULL, '2027-05-01')
INSERT INTO appeal VALUES (1, 'R1', 'S1', 1, 'A', 0, 0, '', 1, 'Yes', '2027-05-01')
INSERT INTO appeal VALUES (1, 'R1', 'S1', 1, 'A', 0, 0, '', 2, NULL, '2027-05-01')
INSERT INTO appeal VALUES (1, 'R1', 'S1', 1, 'A', 0, 0, '', 3, NULL, '2027-05-01')
INSERT INTO appeal VALUES (1, 'R1', 'S1', 1, 'A', 0, 0, '', 4, 'Yes', '2027-05-01')
INSERT INTO appeal VALUES (1, 'R1', 'S1', 1, 'A', 0, 0, '', 5, NULL, '2027-05-01')
INSERT INTO appeal VALUES (1, 'r1', 'S1', 1, 'A', 0, 0, '', 1, NULL, '2027-05-01')
INSERT INTO appeal VALUES (1, 'R1', 'S1', 1, 'A', 0, 0, '', 1, NULL, '2027-5-1')
";

const AN_APPEAL: &str =
    "INSERT INTO appeal VALUES (1, 'R1', 'S1', 1, 'A', 0, 0, '', 1, NULL, '2027-05-01')";

/// Another version, a table that is missing, and one with fewer columns.
const OTHER_TABLES: &str = "\
UPDATE office SET version = 4
UPDATE office SET version = 9
UPDATE office SET one = 2
INSERT INTO office VALUES (2, 2)
DELETE FROM office
DROP TABLE standing
DROP TABLE seat
DROP TABLE appeal
DROP TABLE arrangement
DROP TABLE entry
DROP TABLE opening
DROP TABLE candidate
DROP TABLE hall
DROP TABLE paper
DROP TABLE session
DROP TABLE office
DROP TABLE arrangement; CREATE TABLE arrangement (number INTEGER NOT NULL, PRIMARY KEY (number)) STRICT
";

/// Open appeals, and granted ones of the kinds that a candidate may have only once for a session.
const SINGLES: &str = "\
INSERT INTO appeal VALUES (1, 'R1', 'S1', 1, 'A', 0, 0, '', 1, NULL, '2027-05-01')
INSERT INTO appeal VALUES (1, 'R1', 'S1', 2, 'MA-1', 0, 0, '', 1, NULL, '2027-05-01')
INSERT INTO appeal VALUES (1, 'R1', 'S1', 3, '', 1, 0, '', 1, NULL, '2027-05-01')
INSERT INTO appeal VALUES (1, 'R1', 'S1', 2, 'MA-1', 0, 0, '', 2, 'Yes', '2027-05-01')
INSERT INTO appeal VALUES (1, 'R1', 'S1', 3, '', 1, 0, '', 2, 'Yes', '2027-05-01')
";

/// Granted hall appeals, and those that are refused, retracted or superseded.
const SEVERAL: &str = "\
INSERT INTO appeal VALUES (1, 'R1', 'S1', 1, 'A', 0, 0, '', 2, 'Yes', '2027-05-01')
INSERT INTO appeal VALUES (1, 'R1', 'S1', 2, 'MA-1', 0, 0, '', 3, 'No', '2027-05-01')
INSERT INTO appeal VALUES (1, 'R1', 'S1', 3, '', 1, 0, '', 4, NULL, '2027-05-01')
INSERT INTO appeal VALUES (1, 'R1', 'S1', 2, 'MA-1', 0, 0, '', 5, 'Yes', '2027-05-01')
";

/// Copies each appeal under another reference.
const AGAIN: &str = "\
INSERT INTO appeal
SELECT number, 'R2', session, kind, target, needs, extra, reason, state, answer, '2027-05-02' FROM appeal";

/// Hall and clash appeals, and arrangements that are open, refused or retracted.
const UNMARKED: &str = "\
INSERT INTO appeal VALUES (1, 'R1', 'S1', 1, 'A', 0, 0, '', 2, 'Yes', '2027-05-01')
INSERT INTO appeal VALUES (1, 'R1', 'S1', 2, 'MA-1', 0, 0, '', 2, 'Yes', '2027-05-01')
INSERT INTO appeal VALUES (1, 'R1', 'S1', 3, '', 1, 0, '', 1, NULL, '2027-05-01')
INSERT INTO appeal VALUES (1, 'R1', 'S1', 3, '', 1, 0, '', 3, 'No', '2027-05-01')
INSERT INTO appeal VALUES (1, 'R1', 'S1', 3, '', 1, 0, '', 4, NULL, '2027-05-01')
";

/// Arrangements that are granted or superseded.
const MARKED: &str = "\
INSERT INTO appeal VALUES (1, 'R1', 'S1', 3, '', 1, 0, '', 2, 'Yes', '2027-05-01')
INSERT INTO appeal VALUES (1, 'R1', 'S1', 3, '', 1, 0, '', 5, 'Yes', '2027-05-01')
";

const MARK: &str = "INSERT INTO standing VALUES (1, 'R1')";

/// The first candidate has no seat; their hall closes early; the second candidate, who is not entered, has a seat too;
/// the entry is withdrawn; and its mark is no value.
const OTHER_PLANS: &str = "\
DELETE FROM seat
UPDATE opening SET until = 599 WHERE hall = 'A'
INSERT INTO seat VALUES ('S1', 2, 'B')
UPDATE entry SET live = 0
UPDATE entry SET live = 2
";

/// Any best plan is accepted, even if it is not the one that a repair from nothing makes.
const OTHER_BEST_PLAN: &str = "UPDATE seat SET hall = 'B'";

/// Rows, statements each of which makes another office of them, statements that follow, and the number of the refusal of
/// opening it, or 0.
const DOCTORED: &[(&[&str], &str, &str, u16)] = &[
    (&[ROWS], OUT_OF_RANGE, "", BAD_STORE),
    (&[ROWS], NO_APPEALS, "", BAD_STORE),
    (&[ROWS], AN_APPEAL, "", 0),
    (&[], OTHER_TABLES, "", BAD_STORE),
    (&[ROWS], SINGLES, AGAIN, BAD_STORE),
    (&[ROWS], SEVERAL, AGAIN, 0),
    (&[ROWS], UNMARKED, MARK, BAD_STORE),
    (&[ROWS], MARKED, MARK, 0),
    (&[ROWS, ONE_SITS], OTHER_PLANS, "", BAD_STORE),
    (&[ROWS, ONE_SITS], OTHER_BEST_PLAN, "", 0),
];

/// The number of the refusal of opening an office that was made by these rows and these statements.
fn refusal_after(alloc: Global, rows: &[&str], sql: &str, then: &str) -> Result<u16, Fail> {
    let conn = after(office_of(alloc, rows)?, sql)?;
    Ok(refusal_of_opening(alloc, after(conn, then)?))
}

/// Opens an office for the statements of each line.
fn expect_each(
    alloc: Global,
    rows: &[&str],
    lines: &str,
    then: &str,
    refusal: u16,
) -> Result<(), Fail> {
    for sql in lines.lines() {
        expect_number(refusal_after(alloc, rows, sql, then)?, refusal, sql)?;
    }
    Ok(())
}

#[test]
fn only_good_offices_are_opened(rt: HostRuntime) -> Result<(), Fail> {
    for (rows, lines, then, refusal) in DOCTORED {
        expect_each(rt.alloc(), rows, lines, then, *refusal)?;
    }
    Ok(())
}
