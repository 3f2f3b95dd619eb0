//! A command line, carried out over the file that it names.
ghost use Rattle.std.specs.Prelude.{IfOk, IfErr, IsTrue, map, string_bytes};
ghost use Rattle.sqlite_wal.specs.Files.{image_at};
ghost use Rattle.exam_line.specs.Lines.{job_shown, shown};
ghost use Rattle.exam_tables.specs.Faults.{is_store_refusal};
ghost use Rattle.exam_job.specs.Printed.{ReportsNoLine};
ghost use Rattle.exam_program.specs.Words as spec;

use crate::databases::{run_database, tell_table};
use crate::files::open_named;
use exam_check::Table;
use exam_job::{JobFault, print_fault, print_line_fault};
use exam_line::{Job, Line, LineFault, parse_line};
use exam_types::Refusal;
use sqlite::{Error, FileFrom, FileStore, Files, Start};
use sqlite_disk::Disk;
use std::io::Write;

/// Carries out what the words of a command line say, the program's name first, and returns the exit status: 0, 1 or 2.
/// If the words could not be read, `words` is the fault, which is reported. Nothing is opened unless the line is
/// understood.
pub fn run<S: Start, O: Write, E: Write>(
    rt: &HostRuntime,
    words: Result<Vec<String>, LineFault>,
    start: S,
    out: &mut O,
    err: &mut E,
) -> u8
    ensures runs { IfOk words (λ list. spec.RunsWords ⟦<FileFrom<S> as Disk>⟧ (image_at S.Start) O.contents
        E.contents (map string_bytes list.items) out.old err.old result out.new err.new) }
    ensures unread { IfErr words (λ fault. ReportsNoLine O.contents E.contents fault out.old err.old result out.new
        err.new) }
{
    match words {
        Ok(words) => run_words(rt, words.as_slice(), start, out, err),
        Err(fault) => print_line_fault(&fault, out, err),
    }
}

/// Reads the command line first, so that nothing is opened if it is not understood.
fn run_words<S: Start, O: Write, E: Write>(
    rt: &HostRuntime,
    words: &[String],
    start: S,
    out: &mut O,
    err: &mut E,
) -> u8
    ensures { spec.RunsWords ⟦<FileFrom<S> as Disk>⟧ (image_at S.Start) O.contents E.contents
        (map string_bytes words.now) out.old err.old result out.new err.new }
{
    match parse_line(rt.alloc(), words) {
        Ok(line) => run_line(rt, &line, start, out, err),
        Err(fault) => print_line_fault(&fault, out, err),
    }
}

/// Carries the line out over the file that it names, and returns the exit status.
fn run_line<S: Start, O: Write, E: Write>(
    rt: &HostRuntime,
    line: &Line<'_>,
    start: S,
    out: &mut O,
    err: &mut E,
) -> u8
    ensures { spec.RunsLine ⟦<FileFrom<S> as Disk>⟧ (image_at S.Start) O.contents E.contents
        (shown line.now) out.old err.old result out.new err.new }
{
    match run_named(rt, line, start, out, err) {
        Ok(status) => status,
        Err(fault) => print_fault(&fault, err),
    }
}

/// Opens the database that the line names, carries the line out over it, and closes it.
fn run_named<S: Start, O: Write, E: Write>(
    rt: &HostRuntime,
    line: &Line<'_>,
    start: S,
    out: &mut O,
    err: &mut E,
) -> Result<u8, JobFault>
    ensures { spec.RunsJob ⟦<FileFrom<S> as Disk>⟧ (image_at S.Start) O.contents E.contents (shown line.now) out.old
        err.old result out.new err.new }
{
    match open_named(rt, line, start) {
        Ok(conn) => {
            let (done, closed) = run_database(rt, line, conn, out, err);
            let_go(closed);
            done
        }
        Err(refusal) => report_unopened(line, refusal, out),
    }
}

/// Reports that no database was opened. To `check` a file that is missing, empty or no database is a bad office.
fn report_unopened<O: Write>(line: &Line<'_>, refusal: Refusal, out: &mut O) -> Result<u8, JobFault>
    requires { IsTrue (is_store_refusal refusal) }
    ensures { spec.IsNotReached O.contents (job_shown line.now.job) out.old result out.new }
{
    match line.job {
        Job::Check => match refusal {
            Refusal::BadStore => tell_table(Some(Table::Office), out),
            refusal => Err(JobFault::Refused(refusal)),
        },
        _ => Err(JobFault::Refused(refusal)),
    }
}

/// Lets the files go. What was answered is already committed, so a failure to close them undoes nothing.
fn let_go<D: Disk + Drop>(closed: Result<Files<D>, (Error, FileStore<D>)>) {
    match closed {
        Ok(files) => drop(files),
        Err((_, store)) => drop(store.close()),
    }
}
