//! Two files in memory, the log and the database, which fail after so many calls, and offices over them.
use exam_scripts::{Step, answer_to, expect_same};
use sqlite::{Connection, FileStore, Files, Options};
use sqlite_disk::{Crash, Disk, Fuse, Memory};
use std::alloc::Global;
use std::test::Fail;

/// A file in memory that fails after so many calls.
pub type Fused = Fuse<Memory>;

/// More calls than a test makes.
pub const UNLIMITED: u64 = 1_000_000;

/// The answer to a step, and the files after it.
#[derive(Drop)]
pub struct Left<D: Disk> {
    pub told: String,
    pub files: Files<D>,
}

/// The options of the program, but for room for fewer pages, which is made anew at each opening. An office of the tests
/// has fewer.
fn options() -> Options {
    let mut options = Options::new(1);
    options.cache_pages = 100;
    options
}

/// Opens the files, or gives them back.
pub fn connect<D: Disk + Drop>(
    alloc: Global,
    files: Files<D>,
) -> Result<Connection<FileStore<D>>, Files<D>> {
    if !files.may_be_used() {
        return Err(files);
    }
    match Connection::open_files(alloc, files, options()) {
        Ok(conn) => Ok(conn),
        Err((_, left)) => Err(left.into_files()),
    }
}

/// The files as they are, whether or not the close succeeds.
fn files_of<D: Disk + Drop>(conn: Connection<FileStore<D>>) -> Files<D> {
    match conn.close_files() {
        Ok(files) => files,
        Err((_, store)) => store.close(),
    }
}

/// Takes a step. It is dear to prove, as each call that takes a connection over files for one of any kind.
fn told_over<D: Disk + Drop>(
    alloc: Global,
    conn: Connection<FileStore<D>>,
    line: &str,
    file: &str,
) -> (Connection<FileStore<D>>, Result<String, Fail>) {
    answer_to(alloc, conn, line, file.as_bytes())
}

/// Takes a step, and closes the files.
fn closed_after<D: Disk + Drop>(
    alloc: Global,
    conn: Connection<FileStore<D>>,
    line: &str,
    file: &str,
) -> (Files<D>, Result<String, Fail>) {
    let (conn, told) = told_over(alloc, conn, line, file);
    (files_of(conn), told)
}

/// Takes a step over the files, until a call fails. A connection that cannot be made is refused as the program does.
fn taken_over<D: Disk + Drop>(
    alloc: Global,
    files: Files<D>,
    line: &str,
    file: &str,
) -> Result<Left<D>, Fail> {
    let (files, told) = match connect(alloc, files) {
        Ok(conn) => closed_after(alloc, conn, line, file),
        Err(files) => (files, Ok(String::from_str(alloc, "! refused 23\n")?)),
    };
    Ok(Left { told: told?, files })
}

/// What is seen in files that are used no more.
#[derive(Drop)]
pub struct Seen {
    /// The rows of all tables.
    pub rows: String,
    /// The answer to a step that is taken over them afterwards.
    pub again: String,
}

fn seen_of(rows: String, again: Result<String, Fail>) -> Result<Seen, Fail> {
    let again = again?;
    Ok(Seen { rows, again })
}

/// Looks at the tables, takes a step, and closes the files.
fn closed_seeing<D: Disk + Drop>(
    alloc: Global,
    conn: Connection<FileStore<D>>,
    step: &Step<'_>,
) -> (Files<D>, Result<Seen, Fail>) {
    let (conn, rows) = told_over(alloc, conn, "tables", "");
    match rows {
        Ok(rows) => {
            let (files, again) = closed_after(alloc, conn, step.line, step.file);
            (files, seen_of(rows, again))
        }
        Err(fail) => (files_of(conn), Err(fail)),
    }
}

/// What is seen in the files.
fn seen_over<D: Disk + Drop>(
    alloc: Global,
    files: Files<D>,
    step: &Step<'_>,
) -> Result<Seen, Fail> {
    match connect(alloc, files) {
        Ok(conn) => {
            let (files, seen) = closed_seeing(alloc, conn, step);
            drop(files);
            seen
        }
        Err(files) => {
            drop(files);
            Err(Fail::new("the files cannot be used"))
        }
    }
}

/// Takes a step over the files.
pub fn taken(
    alloc: Global,
    files: Files<Fused>,
    line: &str,
    file: &str,
) -> Result<Left<Fused>, Fail> {
    taken_over(alloc, files, line, file)
}

fn is_written(file: &mut Memory, bytes: &[u8]) -> bool {
    file.may_be_used() && file.write_at(0, bytes).is_ok()
}

fn is_synced(file: &mut Memory) -> bool {
    file.may_be_used() && file.sync().is_ok()
}

/// A file on the disk with these bytes, that fails after so many calls.
fn file_of(alloc: Global, bytes: &[u8], calls: u64) -> Result<Fused, Fail> {
    let mut file = Memory::new(alloc);
    if is_written(&mut file, bytes) && is_synced(&mut file) {
        return Ok(Fuse::new(file, calls));
    }
    Err(Fail::new("no file"))
}

/// Blank files.
fn blank(alloc: Global) -> Result<Files<Fused>, Fail> {
    let log = file_of(alloc, b"", UNLIMITED)?;
    let db = file_of(alloc, b"", UNLIMITED)?;
    Ok(Files { log, db })
}

/// Files with the bytes of others. Either the log or the database fails after so many calls.
pub fn copied(
    alloc: Global,
    files: &Files<Fused>,
    is_of_log: bool,
    calls: u64,
) -> Result<Files<Fused>, Fail> {
    let (log_calls, db_calls) = if is_of_log {
        (calls, UNLIMITED)
    } else {
        (UNLIMITED, calls)
    };
    let log = file_of(alloc, files.log.inner().bytes(), log_calls)?;
    let db = file_of(alloc, files.db.inner().bytes(), db_calls)?;
    Ok(Files { log, db })
}

/// Files with the bytes of others.
pub fn same(alloc: Global, files: &Files<Fused>) -> Result<Files<Fused>, Fail> {
    copied(alloc, files, true, UNLIMITED)
}

/// What is seen in the files.
pub fn seen_in(alloc: Global, files: Files<Fused>, step: &Step<'_>) -> Result<Seen, Fail> {
    seen_over(alloc, files, step)
}

/// Whether two pairs of files have the same bytes.
pub fn are_same(files: &Files<Fused>, others: &Files<Fused>) -> bool {
    files.log.inner().bytes() == others.log.inner().bytes()
        && files.db.inner().bytes() == others.db.inner().bytes()
}

/// Plays a day over the files, which are closed behind each step.
fn after(alloc: Global, files: Files<Fused>, day: &str) -> Result<Files<Fused>, Fail> {
    let mut files = files;
    for part in day.split("$ ").skip(1) {
        let step = Step::parse(part).ok_or("step")?;
        let left = taken(alloc, files, step.line, step.file)?;
        expect_same(left.told.as_str(), step.answer, step.line)?;
        files = left.files;
    }
    Ok(files)
}

/// Plays days in turn over blank files.
pub fn files_after(alloc: Global, days: &[&str]) -> Result<Files<Fused>, Fail> {
    let mut files = blank(alloc)?;
    for day in days {
        files = after(alloc, files, day)?;
    }
    Ok(files)
}

/// Whether no call of the file has failed.
fn is_whole(file: &mut Fused) -> bool {
    file.may_be_used() && file.len().is_ok()
}

/// Whether no call of the files has failed.
pub fn are_whole(files: &mut Files<Fused>) -> bool {
    is_whole(&mut files.log) && is_whole(&mut files.db)
}

/// What is left of what was written and not synced.
#[derive(Clone, Copy, Debug)]
pub enum Unsynced {
    Kept,
    Lost,
    /// Of blocks of 512 bytes each other one is kept, the first or the second of two.
    Torn(bool),
}

/// Each block of the bytes as they were written or as they are on the disk.
fn torn(alloc: Global, written: &[u8], synced: &[u8], first: bool) -> Result<Vec<u8>, Fail> {
    let mut bytes = Vec::from_slice(alloc, written)?;
    for (at, byte) in bytes.as_mut_slice().iter_mut().enumerate() {
        if ((at / 512) % 2 == 0) != first {
            *byte = synced.get(at).copied().unwrap_or(0);
        }
    }
    Ok(bytes)
}

/// The bytes of a file as they were written, and as they are on the disk.
#[derive(Drop)]
struct Bytes {
    written: Vec<u8>,
    synced: Vec<u8>,
}

/// The bytes of files that are used no more.
#[derive(Drop)]
pub struct Remains {
    log: Bytes,
    db: Bytes,
}

fn bytes_of(alloc: Global, file: &mut Fused) -> Result<Bytes, Fail> {
    let written = Vec::from_slice(alloc, file.inner().bytes())?;
    file.crash();
    let synced = Vec::from_slice(alloc, file.inner().bytes())?;
    Ok(Bytes { written, synced })
}

pub fn remains_of(alloc: Global, mut files: Files<Fused>) -> Result<Remains, Fail> {
    let log = bytes_of(alloc, &mut files.log)?;
    let db = bytes_of(alloc, &mut files.db)?;
    Ok(Remains { log, db })
}

/// A file as the machine leaves it.
fn left_of(alloc: Global, bytes: &Bytes, unsynced: Unsynced) -> Result<Fused, Fail> {
    let written = bytes.written.as_slice();
    let synced = bytes.synced.as_slice();
    match unsynced {
        Unsynced::Kept => file_of(alloc, written, UNLIMITED),
        Unsynced::Lost => file_of(alloc, synced, UNLIMITED),
        Unsynced::Torn(first) => {
            let torn = torn(alloc, written, synced, first)?;
            file_of(alloc, torn.as_slice(), UNLIMITED)
        }
    }
}

/// The files as the machine leaves them.
pub fn files_left(
    alloc: Global,
    remains: &Remains,
    unsynced: Unsynced,
) -> Result<Files<Fused>, Fail> {
    let log = left_of(alloc, &remains.log, unsynced)?;
    let db = left_of(alloc, &remains.db, unsynced)?;
    Ok(Files { log, db })
}
