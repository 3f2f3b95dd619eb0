//! The jobs of command lines, over any store, reader and writers.
ghost use Rattle.exam_rules.specs.Relations.{Code};
ghost use Rattle.exam_commands.specs.Headline.{IsSeated};
ghost use Rattle.exam_line.specs.Lines.{job_shown, shown};
ghost use Rattle.exam_job.specs.Jobs as spec;

use crate::appeals::print_appeals;
use crate::lines::reply_line;
use crate::reading::read_import_file;
use crate::report::{DONE, JobFault, print, print_fault};
use crate::sheets::print_sheet;
use exam_line::{Job, Line, Sheet};
use exam_office::{Command, Kind, Reply};
use exam_store::Store;
use exam_types::{Day, Refusal};
use sqlite::Alter;
use std::alloc::Global;
use std::io::{Read, Write};
use std::slice;

/// Carries out the line's job over the store as `carry_out` does, prints the line of a fault, and returns the exit
/// status, `DONE` or `FAILED`. The reader is the import file; the writers are standard output and standard error.
/// `init`, `migrate`, `check` and `serve` do nothing here: the program itself does them. Whatever becomes of the line,
/// every session is seated as `Store::show_seated` says.
pub fn run_job<S: Alter, R: Read, O: Write, E: Write>(
    alloc: Global,
    line: &Line<'_>,
    store: &mut Store<S>,
    reader: &mut R,
    out: &mut O,
    err: &mut E,
) -> u8
    ensures runs { spec.Runs S.Store O.contents E.contents (shown line.now) (R.remaining reader.old)
        (R.remaining reader.new) store.old out.old err.old result store.new out.new err.new }
    ensures headline { (s : Code) → IsSeated store.new.office s }
{
    match carry_out(alloc, line, store, reader, out) {
        Ok(()) => DONE,
        Err(fault) => print_fault(&fault, err),
    }
}

/// Carries out the line's job over the store. The reader is the import file, which only an import reads; the writer is
/// standard output. `init`, `migrate`, `check` and `serve` do nothing here. After `Refused` and `File` the office is as
/// before; what a refused command leaves in the database is said at `Store::apply`. After `Write` a command is carried
/// out, although a write or the flush of its reply failed. Whatever it answers, every session is seated as
/// `Store::show_seated` says.
pub fn carry_out<S: Alter, R: Read, O: Write>(
    alloc: Global,
    line: &Line<'_>,
    store: &mut Store<S>,
    reader: &mut R,
    out: &mut O,
) -> Result<(), JobFault>
    ensures does { spec.DoesJob S.Store O.contents (job_shown line.now.job) line.now.today (R.remaining reader.old)
        (R.remaining reader.new) store.old out.old result store.new out.new }
    ensures headline { (s : Code) → IsSeated store.new.office s }
{
    let done = carry_out_job(alloc, line, store, reader, out);
    store.show_seated();
    done
}

/// Carries out the line's job over the store.
fn carry_out_job<S: Alter, R: Read, O: Write>(
    alloc: Global,
    line: &Line<'_>,
    store: &mut Store<S>,
    reader: &mut R,
    out: &mut O,
) -> Result<(), JobFault>
    ensures { spec.DoesJob S.Store O.contents (job_shown line.now.job) line.now.today (R.remaining reader.old)
        (R.remaining reader.new) store.old out.old result store.new out.new }
{
    match &line.job {
        Job::Import { kind, .. } => import(alloc, store, *kind, line.today, reader, out),
        Job::Apply(dated) => carry_out_command(alloc, store, dated, out),
        Job::Sheet { session, sheet } => match sheet {
            Sheet::Appeals => print_appeals(alloc, store, session, out),
            which => print_sheet(alloc, store, session, which, out),
        },
        // The program itself makes, migrates and checks the file, before an office is open, and serves over sockets.
        Job::Init | Job::Migrate | Job::Check | Job::Serve { .. } => Ok(()),
    }
}

/// Reads an import file and imports it.
fn import<S: Alter, R: Read, O: Write>(
    alloc: Global,
    store: &mut Store<S>,
    kind: Kind,
    today: Day,
    reader: &mut R,
    out: &mut O,
) -> Result<(), JobFault>
    ensures { spec.ImportsFile S.Store O.contents kind today (R.remaining reader.old) (R.remaining reader.new)
        store.old out.old result store.new out.new }
{
    let import = read_import_file(alloc, kind, reader)?;
    carry_out_command(alloc, store, &(Command::Import(import), today), out)
}

/// Carries out a command of the office on its day, as a list of one, and prints what it answers.
fn carry_out_command<S: Alter, O: Write>(
    alloc: Global,
    store: &mut Store<S>,
    dated: &(Command, Day),
    out: &mut O,
) -> Result<(), JobFault>
    ensures { spec.Commands S.Store O.contents dated.now.0 dated.now.1 store.old out.old result store.new out.new }
{
    let mut answers = store.apply_all(alloc, slice::from_ref(dated))?;
    // The list has one answer, that of the one command.
    tell(answers.pop().unwrap(), out)
}

/// Prints what a command answered. A refusal is printed elsewhere.
fn tell<O: Write>(answered: Result<Reply, Refusal>, out: &mut O) -> Result<(), JobFault>
    ensures { spec.PrintsReply O.contents answered out.old result out.new }
{
    match answered {
        Ok(reply) => print(out, reply_line(&reply).as_slice()),
        Err(refusal) => Err(JobFault::Refused(refusal)),
    }
}
