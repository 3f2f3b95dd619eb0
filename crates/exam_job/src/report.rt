//! What the program prints on its outputs, and its exit statuses.
ghost use Rattle.std.specs.Prelude.{◌≡◌, Err};
ghost use Rattle.exam_files.specs.declared.sheet_fault.SheetFault.{SheetFault};
ghost use Rattle.exam_job.specs.Printed as spec;
ghost use Rattle.exam_job.specs.declared.report.JobFault.TheVariants.{Refused};

use crate::lines::{fault_line, version_line};
use exam_files::SheetFault;
use exam_line::LineFault;
use exam_send::send;
use exam_types::Refusal;
use std::io::Write;

/// The command was carried out.
pub const DONE: u8 = 0;
/// The command was refused, a file, an output or the network failed, or `check` found a bad table.
pub const FAILED: u8 = 1;
/// The line was not understood.
pub const NOT_UNDERSTOOD: u8 = 2;

/// Why a command was not carried out, or why its line was not printed.
#[derive(Clone, Copy, Debug, PartialEq, Eq)]
pub enum JobFault {
    /// The line is refused. Of a sheet of appeals a beginning may have been printed; of all else nothing was.
    Refused(Refusal),
    /// The import file cannot be opened or read. Nothing has changed.
    File,
    /// Standard output failed, perhaps after all of the text. A command is carried out all the same.
    Write,
    /// The port cannot be bound, or a connection cannot be accepted.
    Net,
}

impl From<Refusal> for JobFault {
    ghost from_gives = { λ refusal fault. fault ≡ Refused refusal };

    fn from(refusal: Refusal) -> JobFault {
        JobFault::Refused(refusal)
    }
}

impl From<SheetFault> for JobFault {
    ghost from_gives = { λ sheet fault. fault ≡ spec.fault_of sheet };

    fn from(fault: SheetFault) -> JobFault {
        match fault {
            SheetFault::Refused(refusal) => JobFault::Refused(refusal),
            SheetFault::Write => JobFault::Write,
        }
    }
}

/// Prints a line on standard output, and flushes it. The only fault is `Write`.
pub fn print<O: Write>(out: &mut O, line: &[u8]) -> Result<(), JobFault>
    ensures { spec.Prints O.contents line.now out.old result out.new }
{
    if send(out, line).is_err() {
        return Err(JobFault::Write);
    }
    flush(out)
}

/// Prints that the office is there, since it was opened or made.
pub fn print_ready<O: Write>(out: &mut O) -> Result<(), JobFault>
    ensures { spec.Prints O.contents spec.ready_text out.old result out.new }
{
    print(out, b"ready\n")
}

/// Passes on what standard output may still hold.
pub fn flush<O: Write>(out: &mut O) -> Result<(), JobFault>
    ensures { spec.Flushes O.contents out.old result out.new }
{
    out.flush().map_err(|_| JobFault::Write)
}

/// Prints a fault on standard error, without a flush, and returns the exit status, `FAILED`. If that fails too, only
/// the status reports the fault.
pub fn print_fault<E: Write>(fault: &JobFault, err: &mut E) -> u8
    ensures { spec.Reports E.contents (Err fault.now) err.old result err.new }
{
    // There is nowhere left to report that the line was not written.
    let _ = send(err, fault_line(fault).as_slice());
    FAILED
}

/// Prints why words are no line, and returns the exit status. Help and the version go to standard output, with status
/// 0, or 1 if that fails. All else goes to standard error: words that are not understood, with status 2, and
/// `NoMemory`, with status 1.
pub fn print_line_fault<O: Write, E: Write>(fault: &LineFault, out: &mut O, err: &mut E) -> u8
    ensures { spec.ReportsNoLine O.contents E.contents fault.now out.old err.old result out.new err.new }
{
    match fault {
        LineFault::Help(text) => print_text(text.as_bytes(), out, err),
        LineFault::Version => print_text(version_line().as_slice(), out, err),
        LineFault::NotUnderstood => {
            let _ = send(err, b"line not understood\n");
            NOT_UNDERSTOOD
        }
        LineFault::NoMemory => print_fault(&JobFault::Refused(Refusal::NoMemory), err),
    }
}

/// Prints the text that was asked for, and returns the exit status.
fn print_text<O: Write, E: Write>(text: &[u8], out: &mut O, err: &mut E) -> u8
    ensures { spec.ReportsText O.contents E.contents text.now out.old err.old result out.new err.new }
{
    match print(out, text) {
        Ok(()) => DONE,
        Err(fault) => print_fault(&fault, err),
    }
}
