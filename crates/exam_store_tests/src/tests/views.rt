//! A view of the name of a table is no table, whatever it shows: it is refused before it is read.
use crate::tests::offices::{InMemory, office_of, refusal_of_opening};
use exam_check::{check, check_line};
use exam_school::{ROWS, TWO_SIT, expect_same};
use exam_store::migrate;
use std::alloc::Global;
use std::str;
use std::test::Fail;

/// What `check` prints of the office, or the number of its refusal.
pub fn checked(alloc: Global, conn: &mut InMemory) -> Result<String, Fail> {
    match check(alloc, conn) {
        Ok(found) => Ok(format!(in alloc; "{}", str::from_utf8(check_line(found))?.trim_end())?),
        Err(refusal) => Ok(format!(in alloc; "{}", refusal.number())?),
    }
}

/// The number of the refusal of migrating what the connection holds, or 0 if it is of the newest version then.
pub fn refusal_of_migrating(alloc: Global, conn: &mut InMemory) -> u16 {
    match migrate(alloc, conn) {
        Ok(_) => 0,
        Err(refusal) => refusal.number(),
    }
}

/// The school with two seats after these statements.
pub fn office_after(alloc: Global, sql: &str) -> Result<InMemory, Fail> {
    office_of(alloc, &[ROWS, TWO_SIT, sql])
}

/// What checking, migrating and opening answer of the office.
pub fn answers_of(alloc: Global, conn: InMemory) -> Result<String, Fail> {
    let mut conn = conn;
    let found = checked(alloc, &mut conn)?;
    let migrated = refusal_of_migrating(alloc, &mut conn);
    let opened = refusal_of_opening(alloc, conn);
    Ok(format!(in alloc; "{found} {migrated} {opened}")?)
}

/// What they answer of that school.
fn answers_after(alloc: Global, sql: &str) -> Result<String, Fail> {
    answers_of(alloc, office_after(alloc, sql)?)
}

/// Each table with its columns, and statements that take away the rows that refer to its rows and leave a good office.
const TABLES: &str = "\
office (one INTEGER, version INTEGER) DELETE FROM standing
session (code TEXT, day TEXT, start INTEGER) DELETE FROM seat; DELETE FROM entry; DELETE FROM opening; DELETE FROM paper
paper (code TEXT, title TEXT, session TEXT, minutes INTEGER, requires INTEGER) DELETE FROM seat; DELETE FROM entry
hall (code TEXT, title TEXT, features INTEGER) DELETE FROM seat; DELETE FROM opening
candidate (number INTEGER, name TEXT, code TEXT) DELETE FROM seat; DELETE FROM entry; DELETE FROM arrangement
opening (session TEXT, hall TEXT, desks INTEGER, until INTEGER, reserved INTEGER) DELETE FROM seat
entry (number INTEGER, paper TEXT, live INTEGER) DELETE FROM seat WHERE session = '-'
arrangement (number INTEGER, needs INTEGER, extra INTEGER) DELETE FROM seat WHERE session = '-'
appeal (number INTEGER, ref TEXT, session TEXT, kind INTEGER, target TEXT, needs INTEGER, extra INTEGER, reason TEXT, state INTEGER, answer TEXT, lodged TEXT) DELETE FROM standing
seat (session TEXT, number INTEGER, hall TEXT) DELETE FROM seat WHERE session = '-'
standing (number INTEGER, ref TEXT) DELETE FROM standing
";

/// What a view shows of a copy of the table: its rows, none of them, or rows without an end.
const SHOWN: &[&str] = &[
    "SELECT * FROM copy",
    "SELECT * FROM copy WHERE 0",
    "WITH RECURSIVE c (n) AS (SELECT 1 UNION ALL SELECT n + 1 FROM c) SELECT copy.* FROM c, copy",
];

/// Statements that put such a view in the place of the table of this line.
fn view_of(alloc: Global, line: &str, shown: &str) -> Result<String, Fail> {
    let (name, rest) = line.split_once(" (").ok_or("name")?;
    let (columns, before) = rest.split_once(") ").ok_or("columns")?;
    Ok(format!(in alloc;
        "{before}; CREATE TABLE copy ({columns}) STRICT; INSERT INTO copy SELECT * FROM {name}; \
DROP TABLE {name}; CREATE VIEW {name} AS {shown}"
    )?)
}

#[test]
fn a_view_is_no_table(rt: HostRuntime) -> Result<(), Fail> {
    for line in TABLES.lines() {
        for shown in SHOWN {
            let sql = view_of(rt.alloc(), line, shown)?;
            let answers = answers_after(rt.alloc(), sql.as_str())?;
            expect_same(answers.as_str(), "bad office 24 24", sql.as_str())?;
        }
    }
    Ok(())
}

/// What is answered after these statements: names in other letters, tables that are missing, and names that are taken.
const OTHERS: &str = "\
good 0 0: DELETE FROM standing
good 0 0: DROP TABLE standing; CREATE TABLE STANDING (number INTEGER, ref TEXT) STRICT
good 0 0: CREATE VIEW seats AS WITH RECURSIVE c (n) AS (SELECT 1 UNION ALL SELECT n + 1 FROM c) SELECT n FROM c
bad office 24 24: DROP TABLE seat; CREATE VIEW SEAT AS SELECT 'S1' AS session, 1 AS number, 'B' AS hall
bad office 24 24: DROP TABLE seat; CREATE INDEX seat ON entry (live)
bad office 24 24: DROP TABLE office
27 0 0: DROP TABLE standing; UPDATE office SET version = 1
bad office 24 24: DROP TABLE standing; UPDATE office SET version = 1; CREATE VIEW standing AS SELECT number, ref FROM appeal
bad office 24 24: DROP TABLE standing; UPDATE office SET version = 1; CREATE INDEX standing ON seat (hall)
bad office 24 24: DROP TABLE standing; UPDATE office SET version = 1; DROP TABLE seat
27 24 27: UPDATE office SET version = 2; DROP TABLE standing
";

/// Compares what checking, migrating and opening answer after the statements of each line.
pub fn expect_answers(alloc: Global, text: &str) -> Result<(), Fail> {
    for line in text.lines() {
        let (wanted, sql) = line.split_once(": ").ok_or("line")?;
        expect_same(answers_after(alloc, sql)?.as_str(), wanted, sql)?;
    }
    Ok(())
}

#[test]
fn only_tables_are_tables(rt: HostRuntime) -> Result<(), Fail> {
    expect_answers(rt.alloc(), OTHERS)
}
