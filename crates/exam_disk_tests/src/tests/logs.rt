//! A database at a path, and a log beside it: only an office is used, and nothing is made of an empty file.
use super::lines::{End, ends};
use exam_store::Store;
use sqlite::{Alter, Connection};
use std::alloc::Global;
use std::fs;
use std::test::Fail;

const FOLDER: &str = "examoffice_logs";

const DATABASE: &str = "examoffice_logs/office.db";

const LOG: &str = "examoffice_logs/office.db-wal";

/// What may lie at the path: nothing, an empty file, or an office that was closed.
const DATABASES: [Option<&str>; 3] = [
    None,
    Some("examoffice_logs/empty"),
    Some("examoffice_logs/closed"),
];

/// What may lie beside it: nothing, the log that a close leaves, or a log with the commits of an office.
const LOGS: [Option<&str>; 3] = [
    None,
    Some("examoffice_logs/closed-wal"),
    Some("examoffice_logs/stopped-wal"),
];

/// A command, how it ends where no office is, and how it ends over the office.
const COMMANDS: &[(&str, End, End)] = &[
    ("check", (1, "bad office\n", ""), (0, "good\n", "")),
    ("migrate", (1, "", "refused 24\n"), (0, "already 3\n", "")),
    ("export S1", (1, "", "refused 24\n"), (1, "", "refused 4\n")),
];

/// Makes an office that a stop leaves with its commits in the log: a drop copies nothing from there into the database.
fn stop_office<S: Alter + Drop>(alloc: Global, conn: Connection<S>) -> Result<(), Fail> {
    drop(Store::create(alloc, conn).ok().ok_or("create")?);
    Ok(())
}

/// Makes that office at the path.
fn make_stopped(rt: &HostRuntime) -> Result<(), Fail> {
    let conn = Connection::open(rt, DATABASE).ok().ok_or("open")?;
    stop_office(rt.alloc(), conn)
}

/// Makes an office that was stopped, and then one that was closed.
fn make_offices(rt: &HostRuntime) -> Result<(), Fail> {
    fs::write(rt, "examoffice_logs/empty", "")?;
    make_stopped(rt)?;
    fs::copy(rt, LOG, "examoffice_logs/stopped-wal")?;
    if !ends(rt, DATABASE, "check", (0, "good\n", ""))? {
        return Err(Fail::new("the stopped office is not good"));
    }
    fs::copy(rt, DATABASE, "examoffice_logs/closed")?;
    fs::copy(rt, LOG, "examoffice_logs/closed-wal")?;
    Ok(())
}

/// Lays a copy of the file, or nothing, at the path.
fn lay(rt: &HostRuntime, file: Option<&str>, path: &str) -> Result<(), Fail> {
    let _ = fs::remove_file(rt, path);
    if let Some(file) = file {
        fs::copy(rt, file, path)?;
    }
    Ok(())
}

/// How many bytes the file has, none if there is no file.
fn length_of(rt: &HostRuntime, path: &str) -> Option<u64> {
    Some(fs::metadata(rt, path).ok()?.len())
}

/// Whether a command over this database with this log ends as it should, and leaves both as they were where no office
/// is.
fn is_answered(
    rt: &HostRuntime,
    database: Option<&str>,
    log: Option<&str>,
    (command, bare, held): (&str, End, End),
) -> Result<bool, Fail> {
    lay(rt, database, DATABASE)?;
    lay(rt, log, LOG)?;
    let before = (length_of(rt, DATABASE), length_of(rt, LOG));
    if before.0.unwrap_or(0) > 0 {
        return Ok(ends(rt, DATABASE, command, held)?);
    }
    let is_refused = ends(rt, DATABASE, command, bare)?;
    Ok(is_refused && before == (length_of(rt, DATABASE), length_of(rt, LOG)))
}

#[test]
fn only_an_office_is_used(rt: HostRuntime) -> Result<(), Fail> {
    let _ = fs::remove_dir_all(&rt, FOLDER);
    fs::create_dir(&rt, FOLDER)?;
    make_offices(&rt)?;
    for database in DATABASES {
        for log in LOGS {
            for command in COMMANDS {
                assert!(rt;
                    is_answered(&rt, database, log, *command)?,
                    "{database:?} {log:?}"
                );
            }
        }
    }
    fs::remove_dir_all(&rt, FOLDER)?;
    Ok(())
}
