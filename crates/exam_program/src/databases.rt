//! A command line, carried out over a database that is open.
ghost use Rattle.std.specs.Prelude.{◌≡◌, IfOk, IfErr, Option};
ghost use Rattle.sqlite.specs.Held.{state};
ghost use Rattle.sqlite.specs.State.{IsLive};
ghost use Rattle.exam_commands.specs.State.{State as Office};
ghost use Rattle.exam_line.specs.Lines.{job_shown, shown};
ghost use Rattle.exam_program.specs.Checking.{Checks, TellsFound, TellsTable, status_of};
ghost use Rattle.exam_program.specs.Files.{RunsDatabase};
ghost use Rattle.exam_program.specs.Opening.{IsNotOpened, OpensFor};
ghost use Rattle.exam_program.specs.Running.{CarriesOut, RunsOn, RunsOpened};

use crate::files::open_import;
use crate::serving::serve;
use exam_check::{Table, check, check_line};
use exam_job::{DONE, FAILED, JobFault, carry_out, migrate_office, print, print_ready};
use exam_line::{Job, Line};
use exam_office::one_step_has_one_result;
use exam_store::Store;
use exam_types::Refusal;
use sqlite::{Alter, Connection, Error, FileStore, Files};
use sqlite_disk::Disk;
use std::alloc::Global;
use std::io::{Write, empty};

/// Carries the line out over the database, and closes it: all that the program does with a database once it is open.
/// Returns the exit status, or the fault, which is not printed yet; and the files of the database, or why they could
/// not be closed. A command that was carried out stays done even if they could not be closed.
pub fn run_database<D: Disk + Drop, O: Write, E: Write>(
    rt: &HostRuntime,
    line: &Line<'_>,
    conn: Connection<FileStore<D>>,
    out: &mut O,
    err: &mut E,
) -> (
    Result<u8, JobFault>,
    Result<Files<D>, (Error, FileStore<D>)>,
)
    ensures { RunsDatabase D.Disk O.contents E.contents (shown line.now) conn out.old err.old result.0 result.1
        out.new err.new }
{
    let (done, conn) = run_over(rt, line, conn, out, err);
    // What was answered is already committed, so a failure here undoes nothing.
    (done, conn.close_files())
}

/// Carries the line out over the database, and returns the connection too.
fn run_over<S: Alter, O: Write, E: Write>(
    rt: &HostRuntime,
    line: &Line<'_>,
    conn: Connection<S>,
    out: &mut O,
    err: &mut E,
) -> (Result<u8, JobFault>, Connection<S>)
    ensures runs { (office : Option Office) × RunsOn S.Store O.contents E.contents (shown line.now)
        (job_shown line.now.job) conn out.old err.old result.0 result.1 office out.new err.new }
    ensures live { IsLive (state S.Store result.1) }
{
    let (done, conn) = run_job(rt, line, conn, out, err);
    // Shows that the database obeys its schema.
    let _schema = conn.schema();
    (done, conn)
}

/// Carries the line out over the office in the database; or brings that office to the newest version; or looks for the
/// first bad table.
fn run_job<S: Alter, O: Write, E: Write>(
    rt: &HostRuntime,
    line: &Line<'_>,
    mut conn: Connection<S>,
    out: &mut O,
    err: &mut E,
) -> (Result<u8, JobFault>, Connection<S>)
    ensures { (office : Option Office) × RunsOn S.Store O.contents E.contents (shown line.now)
        (job_shown line.now.job) conn out.old err.old result.0 result.1 office out.new err.new }
{
    match line.job {
        Job::Migrate => {
            let done = migrate_office(rt.alloc(), &mut conn, out);
            (with_status(done), conn)
        }
        Job::Check => {
            let done = check_database(rt.alloc(), &mut conn, out);
            (done, conn)
        }
        _ => {
            let (done, conn) = run_office(rt, line, conn, out, err);
            (with_status(done), conn)
        }
    }
}

/// The exit status of a line that was carried out.
fn with_status(done: Result<(), JobFault>) -> Result<u8, JobFault>
    ensures { result ≡ status_of 0 done }
{
    match done {
        Ok(()) => Ok(DONE),
        Err(fault) => Err(fault),
    }
}

/// Finds the first bad table of the database, and prints its line.
fn check_database<S: Alter, O: Write>(
    alloc: Global,
    conn: &mut Connection<S>,
    out: &mut O,
) -> Result<u8, JobFault>
    ensures { Checks S.Store O.contents conn.old out.old result conn.new out.new }
{
    let found = check(alloc, conn);
    tell_found(found, out)
}

/// Prints the line for what was found; for a refusal nothing.
fn tell_found<O: Write>(
    answered: Result<Option<Table>, Refusal>,
    out: &mut O,
) -> Result<u8, JobFault>
    ensures { TellsFound O.contents answered out.old result out.new }
{
    match answered {
        Ok(found) => tell_table(found, out),
        Err(refusal) => Err(JobFault::Refused(refusal)),
    }
}

/// Prints the line for the first bad table, or for none, and returns the exit status.
pub fn tell_table<O: Write>(found: Option<Table>, out: &mut O) -> Result<u8, JobFault>
    ensures { TellsTable O.contents found out.old result out.new }
{
    print(out, check_line(found))?;
    match found {
        None => Ok(DONE),
        Some(_) => Ok(FAILED),
    }
}

/// Opens the office in the database, or makes an empty one for `init`; carries the line out; and gives the database
/// back.
fn run_office<S: Alter, O: Write, E: Write>(
    rt: &HostRuntime,
    line: &Line<'_>,
    conn: Connection<S>,
    out: &mut O,
    err: &mut E,
) -> (Result<(), JobFault>, Connection<S>)
    ensures { (office : Option Office) × RunsOpened S.Store O.contents E.contents (shown line.now)
        conn out.old err.old result.0 result.1 office out.new err.new }
{
    // The tables keep the office that a command led to, since a command has one result.
    one_step_has_one_result();
    match open_office(rt.alloc(), line, conn) {
        Ok(mut store) => {
            let done = carry_over(rt, line, &mut store, out, err);
            store.show_seated();
            (done, store.close())
        }
        Err((refusal, conn)) => (Err(JobFault::Refused(refusal)), conn),
    }
}

/// Opens the office in the database. For `init` it makes an empty one if there is no table, index or view.
fn open_office<S: Alter>(
    alloc: Global,
    line: &Line<'_>,
    conn: Connection<S>,
) -> Result<Store<S>, (Refusal, Connection<S>)>
    ensures found { IfOk result (λ store. OpensFor (job_shown line.now.job) (state S.Store conn)
        (state S.Store store.database) store.office) }
    ensures refused { IfErr result (λ e. IsNotOpened S.Store (job_shown line.now.job) conn e.0 e.1) }
{
    match line.job {
        Job::Init => Store::create(alloc, conn),
        _ => Store::open(alloc, conn),
    }
}

/// Carries the line out over the office.
fn carry_over<S: Alter, O: Write, E: Write>(
    rt: &HostRuntime,
    line: &Line<'_>,
    store: &mut Store<S>,
    out: &mut O,
    err: &mut E,
) -> Result<(), JobFault>
    ensures { CarriesOut S.Store O.contents E.contents (job_shown line.now.job) line.now.today store.old
        out.old err.old result store.new out.new err.new }
{
    match line.job {
        Job::Import { file, .. } => {
            let mut file = open_import(rt, file)?;
            carry_out(rt.alloc(), line, store, &mut file, out)
        }
        Job::Init => print_ready(out),
        Job::Serve { port } => serve(rt, store, line.today, port, out, err),
        _ => carry_out(rt.alloc(), line, store, &mut empty(), out),
    }
}
