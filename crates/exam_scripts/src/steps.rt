//! Steps at a closed office.
use crate::commands::{marked, run};
use crate::requests::ask;
use crate::tables::{all_shown, shown};
use exam_job::{DONE, JobFault, migrate_office, print_fault, print_ready};
use exam_store::Store;
use exam_types::Refusal;
use sqlite::{Alter, Connection};
use std::alloc::Global;
use std::str;
use std::test::Fail;

/// Takes a command, a request or a statement at the closed office. Gives what is printed or answered. `check` and
/// `serve` do nothing here.
pub fn answer_to<S: Alter>(
    alloc: Global,
    mut conn: Connection<S>,
    line: &str,
    file: &[u8],
) -> (Connection<S>, Result<String, Fail>) {
    let answer = match line {
        "sql" => shown(alloc, &mut conn, file),
        "tables" => all_shown(alloc, &mut conn),
        "migrate" => migrated(alloc, &mut conn),
        _ => return answered(alloc, conn, line, file),
    };
    (conn, answer)
}

/// Brings the office over a connection to the newest version. Gives what the program prints.
fn migrated<S: Alter>(alloc: Global, conn: &mut Connection<S>) -> Result<String, Fail> {
    let mut out = Vec::new(alloc);
    let done = migrate_office(alloc, conn, &mut out);
    reported(alloc, done, out.as_slice())
}

/// What the program prints of an office that it opened or made.
fn ready(alloc: Global) -> Result<String, Fail> {
    let mut out = Vec::new(alloc);
    let done = print_ready(&mut out);
    reported(alloc, done, out.as_slice())
}

/// What the program prints of a job that ended so.
fn reported(alloc: Global, done: Result<(), JobFault>, out: &[u8]) -> Result<String, Fail> {
    let mut err = Vec::new(alloc);
    let status = match done {
        Ok(()) => DONE,
        Err(fault) => print_fault(&fault, &mut err),
    };
    marked(alloc, status, out, err.as_slice())
}

/// What the program prints of a refusal to open the office.
fn refused(alloc: Global, refusal: Refusal) -> Result<String, Fail> {
    reported(alloc, Err(JobFault::Refused(refusal)), b"")
}

/// Opens the office over a connection, or makes it there, as the command asks.
fn opened<S: Alter>(
    alloc: Global,
    conn: Connection<S>,
    line: &str,
) -> Result<Store<S>, (Refusal, Connection<S>)> {
    if line == "init" {
        Store::create(alloc, conn)
    } else {
        Store::open(alloc, conn)
    }
}

/// Takes a command or a request at the closed office.
fn answered<S: Alter>(
    alloc: Global,
    conn: Connection<S>,
    line: &str,
    file: &[u8],
) -> (Connection<S>, Result<String, Fail>) {
    match opened(alloc, conn, line) {
        Ok(store) => closed_after(alloc, store, line, file),
        Err((refusal, conn)) => (conn, refused(alloc, refusal)),
    }
}

/// Takes a command or a request at the office, and closes it.
fn closed_after<S: Alter>(
    alloc: Global,
    mut store: Store<S>,
    line: &str,
    file: &[u8],
) -> (Connection<S>, Result<String, Fail>) {
    let answer = printed(alloc, &mut store, line, file);
    (store.close(), answer)
}

/// Asks the server or runs a command. Gives what is answered or printed.
fn printed<S: Alter>(
    alloc: Global,
    store: &mut Store<S>,
    line: &str,
    file: &[u8],
) -> Result<String, Fail> {
    if line == "init" {
        return ready(alloc);
    }
    if line.contains("/candidates/") {
        return ask(alloc, store, line, str::from_utf8(file)?);
    }
    run(alloc, store, line, file)
}
