//! The database and the import file at a path.
ghost use Rattle.std.specs.Prelude.{◌≡◌, ◌≢◌, false, IfOk, IfErr, IsTrue};
ghost use Rattle.sqlite.specs.State.{HasCleanDisk};
ghost use Rattle.sqlite.specs.Files.{file_state, IsBlankAs};
ghost use Rattle.sqlite_store.specs.FileStore.{view};
ghost use Rattle.sqlite_wal.specs.Files.{image_at};
ghost use Rattle.exam_tables.specs.Faults.{is_store_refusal};
ghost use Rattle.exam_job.specs.Reading.{IsReadFault};
ghost use Rattle.exam_program.specs.Opening.{opening_refusal};
ghost use Rattle.exam_program.specs.Words.{IsOver};

use exam_job::JobFault;
use exam_line::{Job, Line};
use exam_types::Refusal;
use sqlite::{Connection, Error, ErrorCode, FileFrom, FileStore, Start};
use std::fs::{self, File, OpenOptions};
use std::io::ErrorKind;
use std::os::unix::fs::OpenOptionsExt;

/// Only its owner can read and write a new database, since it holds access codes.
const NEW_FILE_MODE: u32 = 0o600;

/// A connection to the files at a path. `S` represents what the files held when they were opened, so that a contract
/// can speak of it.
pub type FileConnection<S> = Connection<FileStore<FileFrom<S>>>;

/// Opens the database that the line names. Only `init` makes one if there is no file.
pub fn open_named<S: Start>(
    rt: &HostRuntime,
    line: &Line<'_>,
    start: S,
) -> Result<FileConnection<S>, Refusal>
    ensures over { IfOk result (IsOver (image_at S.Start)) }
    ensures told { IfErr result (λ refusal. IsTrue (is_store_refusal refusal)) }
{
    match line.job {
        Job::Init => open_or_make(rt, line.db, start),
        _ => open_present(rt, line.db, start),
    }
}

/// Opens the database at the path, or makes an empty one if there is no file.
fn open_or_make<S: Start>(
    rt: &HostRuntime,
    path: &str,
    start: S,
) -> Result<FileConnection<S>, Refusal>
    ensures over { IfOk result (IsOver (image_at S.Start)) }
    ensures told { IfErr result (λ refusal. IsTrue (is_store_refusal refusal)) }
{
    if length_of(rt, path)?.is_none() {
        make_file(rt, path)?;
    }
    open_database(rt, path, start)
}

/// Opens the database at the path. Refused with `BadStore` if there is no file, an empty one, or one that is no
/// database. An empty file stays empty: opened, it would be a new database, and so be filled, whatever its log holds.
fn open_present<S: Start>(
    rt: &HostRuntime,
    path: &str,
    start: S,
) -> Result<FileConnection<S>, Refusal>
    ensures over { IfOk result (IsOver (image_at S.Start)) }
    ensures told { IfErr result (λ refusal. IsTrue (is_store_refusal refusal)) }
{
    match length_of(rt, path)? {
        None | Some(0) => Err(Refusal::BadStore),
        Some(_) => open_database(rt, path, start),
    }
}

/// Opens an import file.
pub fn open_import(rt: &HostRuntime, path: &str) -> Result<File, JobFault>
    ensures { IfErr result IsReadFault }
{
    match File::open(rt, path) {
        Ok(file) => Ok(file),
        Err(error) => Err(open_fault(error.kind())),
    }
}

/// Why a file could not be opened.
fn open_fault(kind: ErrorKind) -> JobFault
    ensures memory { kind ≡ ErrorKind.OutOfMemory → result ≡ JobFault.Refused Refusal.NoMemory }
    ensures other { kind ≢ ErrorKind.OutOfMemory → result ≡ JobFault.File }
{
    if kind == ErrorKind::OutOfMemory {
        JobFault::Refused(Refusal::NoMemory)
    } else {
        JobFault::File
    }
}

/// The length in bytes of the file at the path, or none if there is no file. A folder, a pipe or a device there is
/// refused: to open it could take forever.
fn length_of(rt: &HostRuntime, path: &str) -> Result<Option<u64>, Refusal>
    ensures { IfErr result (λ refusal. IsTrue (is_store_refusal refusal)) }
{
    match fs::metadata(rt, path) {
        Ok(found) if found.is_file() => Ok(Some(found.len())),
        Ok(_) => Err(Refusal::Store),
        Err(error) if error.kind() == ErrorKind::NotFound => Ok(None),
        Err(error) => Err(file_refusal(error.kind())),
    }
}

/// Makes an empty file if there is none; the database then fills it.
fn make_file(rt: &HostRuntime, path: &str) -> Result<(), Refusal>
    ensures { IfErr result (λ refusal. IsTrue (is_store_refusal refusal)) }
{
    // To the database this name means no file at all, so it would refuse it.
    if path == ":memory:" {
        return Err(Refusal::Store);
    }
    let mut options = OpenOptions::new();
    options.write(true).create_new(true).mode(NEW_FILE_MODE);
    match options.open(rt, path) {
        Ok(_) => Ok(()),
        Err(error) => Err(file_refusal(error.kind())),
    }
}

/// Why a file cannot be a database.
fn file_refusal(kind: ErrorKind) -> Refusal
    ensures memory { kind ≡ ErrorKind.OutOfMemory → result ≡ Refusal.NoMemory }
    ensures other { kind ≢ ErrorKind.OutOfMemory → result ≡ Refusal.Store }
{
    if kind == ErrorKind::OutOfMemory {
        Refusal::NoMemory
    } else {
        Refusal::Store
    }
}

/// Opens the database. A new file has no checksums, which only an extension of `sqlite3` writes.
fn open_database<S: Start>(
    rt: &HostRuntime,
    path: &str,
    start: S,
) -> Result<FileConnection<S>, Refusal>
    ensures over { IfOk result (IsOver (image_at S.Start)) }
    ensures plain { IfOk result (λ conn. HasCleanDisk (file_state conn) → IsBlankAs false (image_at S.Start)
        → (view conn.store).has_sums ≡ false) }
    ensures told { IfErr result (λ refusal. IsTrue (is_store_refusal refusal)) }
{
    match Connection::open_from(rt, path, false, start) {
        Ok(conn) => Ok(conn),
        Err((error, _)) => Err(open_refusal(&error)),
    }
}

/// The refusal for an error of opening. A file that is no database holds no office.
fn open_refusal(error: &Error) -> Refusal
    ensures { result ≡ opening_refusal error.now }
{
    match error {
        Error::SqliteFailure(ErrorCode::OutOfMemory) => Refusal::NoMemory,
        Error::SqliteFailure(ErrorCode::NotADatabase) => Refusal::BadStore,
        _ => Refusal::Store,
    }
}
