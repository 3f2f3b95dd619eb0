//! Statements over the tables of a closed office.
use sqlite::types::ValueRef;
use sqlite::{Alter, Connection, Row};
use std::alloc::Global;
use std::str;
use std::test::Fail;

/// Appends a column as text.
fn push_column(alloc: Global, text: &mut String, row: &Row, at: usize) -> Result<(), Fail> {
    match row.get_ref(at)? {
        ValueRef::Null => text.push_str("NULL")?,
        ValueRef::Int(number) => text.push_str(format!(in alloc; "{number}")?.as_str())?,
        ValueRef::Text(bytes) => text.push_str(str::from_utf8(bytes)?)?,
        _ => text.push('?')?,
    }
    Ok(())
}

/// Appends a row as a line, with `|` behind each column.
fn push_row(alloc: Global, text: &mut String, row: &Row) -> Result<(), Fail> {
    for at in 0..row.column_count() {
        push_column(alloc, text, row, at)?;
        text.push('|')?;
    }
    text.push('\n')?;
    Ok(())
}

/// Appends the rows that a query shows, a line for each.
fn push_rows<S: Alter>(
    alloc: Global,
    text: &mut String,
    conn: &mut Connection<S>,
    sql: &str,
) -> Result<(), Fail> {
    let rows = conn.query_all(sql, &[])?;
    for row in rows.iter() {
        push_row(alloc, text, row)?;
    }
    Ok(())
}

/// Takes a statement. Gives the rows that a query shows, behind the mark of what is printed.
pub fn shown<S: Alter>(
    alloc: Global,
    conn: &mut Connection<S>,
    sql: &[u8],
) -> Result<String, Fail> {
    let sql = str::from_utf8(sql)?;
    if !sql.starts_with("SELECT ") {
        conn.execute_batch(sql)?;
        return Ok(String::new(alloc));
    }
    let mut text = String::from_str(alloc, "> ")?;
    push_rows(alloc, &mut text, conn, sql)?;
    Ok(text)
}

/// Each table with all its columns, by its key.
const ALL_TABLES: &str = "\
SELECT one, version FROM office
SELECT code, day, start FROM session ORDER BY code
SELECT code, title, session, minutes, requires FROM paper ORDER BY code
SELECT code, title, features FROM hall ORDER BY code
SELECT session, hall, desks, until, reserved FROM opening ORDER BY session, hall
SELECT number, name, code FROM candidate ORDER BY number
SELECT number, paper, live FROM entry ORDER BY number, paper
SELECT number, needs, extra FROM arrangement ORDER BY number
SELECT number, ref, session, kind, target, needs, extra, reason, state, answer, lodged FROM appeal ORDER BY number, ref
SELECT number, ref FROM standing ORDER BY number, ref
SELECT session, number, hall FROM seat ORDER BY session, number
";

/// Appends the rows of a table, or that it is not there, and a line behind them.
fn push_table<S: Alter>(
    alloc: Global,
    text: &mut String,
    conn: &mut Connection<S>,
    sql: &str,
) -> Result<(), Fail> {
    match conn.query_all(sql, &[]) {
        Ok(rows) => {
            for row in rows.iter() {
                push_row(alloc, text, row)?;
            }
        }
        Err(_) => text.push_str("no table")?,
    }
    text.push('\n')?;
    Ok(())
}

/// The rows of all tables, behind the mark of what is printed.
pub fn all_shown<S: Alter>(alloc: Global, conn: &mut Connection<S>) -> Result<String, Fail> {
    let mut text = String::from_str(alloc, "> ")?;
    for sql in ALL_TABLES.lines() {
        push_table(alloc, &mut text, conn, sql)?;
    }
    Ok(text)
}
