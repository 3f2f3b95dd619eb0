//! An office as the rows of its tables, and what makes a table of it bad.
use crate::tests::views::{answers_of, expect_answers, office_after};
use exam_school::expect_same;
use std::alloc::Global;
use std::test::Fail;

/// The version, or a table or a column that is missing.
const NO_OFFICE: &str = "\
bad office 24 24: UPDATE office SET version = 7
bad office 24 24: UPDATE office SET one = 2
bad office 24 24: INSERT INTO office VALUES (2, 3)
bad office 24 24: DELETE FROM office
bad office 24 24: DROP TABLE office
bad office 24 24: DROP TABLE standing
bad office 24 24: DROP TABLE seat; UPDATE paper SET minutes = 601
bad office 24 24: DROP TABLE seat; UPDATE office SET version = 2
bad office 24 24: DROP TABLE arrangement; CREATE TABLE arrangement (number INTEGER NOT NULL, needs INTEGER NOT NULL, PRIMARY KEY (number)) STRICT
";

/// Rows that are not the stored form of anything.
const NO_FORM: &str = "\
bad session 24 24: INSERT INTO session VALUES ('s2', '2027-06-01', 540)
bad paper 24 24: UPDATE paper SET minutes = 601
bad hall 24 24: UPDATE hall SET features = -1
bad opening 24 24: UPDATE opening SET desks = 0
bad candidate 24 24: INSERT INTO candidate VALUES (9, 'Flo Ray', 'code0009')
bad entry 24 24: UPDATE entry SET live = 2
bad arrangement 24 24: UPDATE arrangement SET extra = 101
bad appeal 24 24: INSERT INTO appeal VALUES (1, 'R1', 'S1', 1, 'A', 0, 0, '', 6, NULL, '2027-05-01')
";

/// A target that does not exist; two granted appeals for an arrangement, two for a clash, or two open ones, of one
/// candidate for one session; marks of a hall appeal, and of an open one.
const APPEALS: &str = "\
bad appeal 24 24: INSERT INTO appeal VALUES (1, 'R1', 'S1', 1, 'Z', 0, 0, '', 1, NULL, '2027-05-01')
bad appeal 24 24: INSERT INTO appeal VALUES (1, 'R1', 'S1', 2, 'ZZ-1', 0, 0, '', 1, NULL, '2027-05-01')
bad appeal 24 24: INSERT INTO appeal VALUES (3, 'R1', 'S1', 3, '', 0, 25, '', 2, 'Yes', '2027-05-01'); \
INSERT INTO appeal VALUES (3, 'R2', 'S1', 3, '', 0, 50, '', 2, 'Yes', '2027-05-01')
bad appeal 24 24: INSERT INTO appeal VALUES (3, 'R1', 'S1', 2, 'MA-1', 0, 0, '', 2, 'Yes', '2027-05-01'); \
INSERT INTO appeal VALUES (3, 'R2', 'S1', 2, 'MA-1', 0, 0, '', 2, 'Yes', '2027-05-01')
bad appeal 24 24: INSERT INTO appeal VALUES (3, 'R1', 'S1', 1, 'A', 0, 0, '', 1, NULL, '2027-05-01'); \
INSERT INTO appeal VALUES (3, 'R2', 'S1', 1, 'B', 0, 0, '', 1, NULL, '2027-05-01')
bad standing 24 24: INSERT INTO appeal VALUES (3, 'R1', 'S1', 1, 'A', 0, 0, '', 2, 'Yes', '2027-05-01'); \
INSERT INTO standing VALUES (3, 'R1')
bad standing 24 24: INSERT INTO appeal VALUES (3, 'R1', 'S1', 3, '', 0, 25, '', 1, NULL, '2027-05-01'); \
INSERT INTO standing VALUES (3, 'R1')
";

/// A plan without a seat that a sweep would give, a seat for nobody, two seats at one desk, a hall that does not fit;
/// and several bad tables; the check finds the first.
const SEATS: &str = "\
bad seat 24 24: DELETE FROM seat WHERE number = 1
bad seat 24 24: INSERT INTO seat VALUES ('S1', 3, 'B')
bad seat 24 24: UPDATE seat SET hall = 'A'
bad seat 24 24: UPDATE opening SET desks = 2; UPDATE seat SET hall = 'B'
bad paper 24 24: DELETE FROM seat WHERE number = 1; UPDATE paper SET minutes = 601
bad hall 24 24: UPDATE hall SET features = -1; \
INSERT INTO appeal VALUES (1, 'R1', 'S1', 1, 'Z', 0, 0, '', 1, NULL, '2027-05-01')
bad appeal 24 24: INSERT INTO appeal VALUES (1, 'R1', 'S1', 1, 'Z', 0, 0, '', 1, NULL, '2027-05-01'); \
DELETE FROM seat WHERE number = 1
";

/// Tables that are made again without their foreign keys, so that the database takes rows that refer to nothing.
const LOOSE: &str = "\
bad seat 24 24: DROP TABLE seat; CREATE TABLE seat (session TEXT NOT NULL, number INTEGER NOT NULL, hall TEXT NOT NULL, PRIMARY KEY (session, number)) STRICT; \
INSERT INTO seat VALUES ('S1', 1, 'Z')
bad seat 24 24: DROP TABLE seat; CREATE TABLE seat (session TEXT NOT NULL, number INTEGER NOT NULL, hall TEXT NOT NULL, PRIMARY KEY (session, number)) STRICT; \
INSERT INTO seat VALUES ('s1', 1, 'B')
bad standing 24 24: DROP TABLE standing; CREATE TABLE standing (number INTEGER NOT NULL, ref TEXT NOT NULL, PRIMARY KEY (number, ref)) STRICT; \
INSERT INTO standing VALUES (1, 'R1')
bad standing 24 24: DROP TABLE standing; CREATE TABLE standing (number INTEGER NOT NULL, ref TEXT NOT NULL, PRIMARY KEY (number, ref)) STRICT; \
INSERT INTO standing VALUES (1, 'r1')
bad arrangement 24 24: DROP TABLE arrangement; CREATE TABLE arrangement (number INTEGER NOT NULL, needs INTEGER NOT NULL, extra INTEGER NOT NULL, PRIMARY KEY (number)) STRICT; \
INSERT INTO arrangement VALUES (9, 0, 25)
bad entry 24 24: DROP TABLE entry; CREATE TABLE entry (number INTEGER NOT NULL, paper TEXT NOT NULL, live INTEGER NOT NULL, PRIMARY KEY (number, paper)) STRICT; \
INSERT INTO entry VALUES (1, 'ZZ-1', 1)
";

#[test]
fn the_first_bad_table_is_found(rt: HostRuntime) -> Result<(), Fail> {
    for text in [NO_OFFICE, NO_FORM, APPEALS, SEATS, LOOSE] {
        expect_answers(rt.alloc(), text)?;
    }
    Ok(())
}

/// What is answered after so many statements, in which the number of each takes the place of `*`, and these.
fn answers_of_many(alloc: Global, (sql, then): (&str, &str), many: u32) -> Result<String, Fail> {
    let mut conn = office_after(alloc, "")?;
    let (before, after) = sql.split_once('*').ok_or("number")?;
    for number in 0..many {
        let sql = format!(in alloc; "{before}{number}{after}")?;
        conn.execute_batch(sql.as_str())?;
    }
    conn.execute_batch(then)?;
    answers_of(alloc, conn)
}

/// Expects that so many more rows are one too many, and that one fewer are good.
fn expect_limit(
    alloc: Global,
    rows: (&str, &str),
    too_many: u32,
    wanted: &str,
) -> Result<(), Fail> {
    let within = answers_of_many(alloc, rows, too_many.saturating_sub(1))?;
    expect_same(within.as_str(), "good 0 0", rows.0)?;
    let past = answers_of_many(alloc, rows, too_many)?;
    expect_same(past.as_str(), wanted, rows.0)
}

const A_SESSION: (&str, &str) = ("INSERT INTO session VALUES ('X*', '2027-06-01', 540)", "");

const A_PAPER: (&str, &str) = ("INSERT INTO paper VALUES ('X*', 'X', 'S1', 60, 0)", "");

const A_HALL: (&str, &str) = ("INSERT INTO hall VALUES ('X*', 'X', 0)", "");

/// The halls are opened in the end.
const AN_OPENING: (&str, &str) = (
    "INSERT INTO hall VALUES ('X*', 'X', 0)",
    "INSERT INTO opening SELECT 'S1', code, 1, 720, 1 FROM hall WHERE title = 'X'",
);

/// An appeal of one candidate.
const AN_APPEAL: (&str, &str) = (
    "INSERT INTO appeal VALUES (1, 'X*', 'S1', 1, 'A', 0, 0, '', 3, 'No', '2027-05-01')",
    "",
);

/// Rows, how many of them are one too many, and what is answered then.
const LIMITS: &[((&str, &str), u32, &str)] = &[
    (A_SESSION, 400, "bad session 24 24"),
    (A_PAPER, 2000, "bad paper 24 24"),
    (A_HALL, 499, "bad hall 24 24"),
    (AN_OPENING, 255, "bad opening 24 24"),
    (AN_APPEAL, 65, "bad appeal 24 24"),
];

#[test]
fn tables_have_limits(rt: HostRuntime) -> Result<(), Fail> {
    for (rows, too_many, wanted) in LIMITS {
        expect_limit(rt.alloc(), *rows, *too_many, wanted)?;
    }
    Ok(())
}

/// What is answered after the five candidates were doubled so many times, each of them entered for the paper.
fn answers_of_candidates(alloc: Global, doublings: u32) -> Result<String, Fail> {
    let mut conn = office_after(alloc, "")?;
    let mut many: u32 = 5;
    for _ in 0..doublings {
        let sql = format!(in alloc;
            "INSERT INTO candidate SELECT number + {many}, name, code FROM candidate"
        )?;
        conn.execute_batch(sql.as_str())?;
        many = many.wrapping_mul(2);
    }
    conn.execute_batch(
        "DELETE FROM seat; DELETE FROM entry; INSERT INTO entry SELECT number, 'MA-1', 1 FROM candidate",
    )?;
    answers_of(alloc, conn)
}

/// 5,120 candidates are more than a session may have, 20,480 more than an office may have.
#[test]
fn candidates_and_members_have_limits(rt: HostRuntime) -> Result<(), Fail> {
    for (doublings, wanted) in [(10, "bad entry 24 24"), (12, "bad candidate 24 24")] {
        let found = answers_of_candidates(rt.alloc(), doublings)?;
        expect_same(found.as_str(), wanted, wanted)?;
    }
    Ok(())
}

/// Offices of older versions, whatever else is wrong with their rows, and one of the newest without a seat that a sweep would
/// give.
const OLDER: &str = "\
27 24 27: DROP TABLE standing; UPDATE office SET version = 1; DELETE FROM seat
27 0 0: UPDATE office SET version = 2
27 24 27: UPDATE office SET version = 2; DELETE FROM seat
bad seat 24 24: DELETE FROM seat WHERE number = 1
";

#[test]
fn an_office_is_checked_then_migrated_and_opened(rt: HostRuntime) -> Result<(), Fail> {
    expect_answers(rt.alloc(), OLDER)
}
