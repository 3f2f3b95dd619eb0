//! The lines that the program prints. They take no memory, so they can report anything that happened.
ghost use Rattle.std.specs.Prelude.{◌≡◌, ◌≤◌, ◌+◌, ◌++◌, length};
ghost use Rattle.arrayvec.specs.ArrayVec.{array_vec_len};
ghost use Rattle.exam_files.specs.Places.{hall_word};
ghost use Rattle.exam_job.specs.Printed as spec;

use crate::report::JobFault;
use arrayvec::ArrayVec;
use exam_line::VERSION;
use exam_office::{AppealState, Reply, state_word};
use exam_tables::NEWEST;
use exam_types::{Day, HallCode, Refusal};
use itoa::{Buffer, Integer};

/// Room for the longest line, which has 60 bytes.
pub type ShortLine = ArrayVec<u8, 64>;

/// The line for an accepted command.
pub fn reply_line(reply: &Reply) -> ShortLine
    ensures { result.items ≡ spec.reply_text reply.now }
{
    match reply {
        Reply::Imported {
            added,
            changed,
            same,
        } => imported_line(*added, *changed, *same),
        Reply::Withdrawn => line_of(b"withdrawn\n"),
        Reply::Reinstated => line_of(b"reinstated\n"),
        Reply::Closed => line_of(b"closed\n"),
        Reply::Lodged(state) => lodged_line(*state),
        Reply::Retracted => line_of(b"retracted\n"),
        Reply::Decided { state, seat, moved } => decided_line(*state, seat, *moved),
        Reply::Unchanged => line_of(b"unchanged\n"),
    }
}

fn imported_line(added: u32, changed: u32, same: u32) -> ShortLine
    ensures { result.items ≡ spec.imported_text added changed same }
{
    let mut line = line_of(b"added ");
    put_number(&mut line, added);
    put(&mut line, b" changed ");
    put_number(&mut line, changed);
    put(&mut line, b" same ");
    put_number(&mut line, same);
    put(&mut line, b"\n");
    line
}

fn lodged_line(state: AppealState) -> ShortLine
    ensures { result.items ≡ spec.lodged_text state }
{
    let mut line = line_of(b"lodged ");
    put(&mut line, state_word(state));
    put(&mut line, b"\n");
    line
}

/// What a decision made of the appeal, where the appellant now sits, and how many seats of others are in another hall
/// than before. Who is moved in two sessions counts twice.
fn decided_line(state: AppealState, hall: &Option<HallCode>, moved: usize) -> ShortLine
    ensures { result.items ≡ spec.decided_text state hall.now moved }
{
    let mut line = line_of(b"decided ");
    put(&mut line, state_word(state));
    put(&mut line, b" hall ");
    put_hall(&mut line, hall);
    put(&mut line, b" moved ");
    put_number(&mut line, moved);
    put(&mut line, b"\n");
    line
}

/// The line for a fault.
pub fn fault_line(fault: &JobFault) -> ShortLine
    ensures { result.items ≡ spec.fault_text fault.now }
{
    match fault {
        JobFault::Refused(refusal) => refusal_line(refusal),
        JobFault::File => line_of(b"file fault\n"),
        JobFault::Write => line_of(b"write fault\n"),
        JobFault::Net => line_of(b"net fault\n"),
    }
}

/// The line for a refusal: its number, and what it carries.
fn refusal_line(refusal: &Refusal) -> ShortLine
    ensures { result.items ≡ spec.refusal_text refusal.now }
{
    match refusal {
        Refusal::BadRow(record, column) => bad_row_line(*record, *column),
        Refusal::RowConflict(record) => row_conflict_line(*record),
        Refusal::PastClosing(day) => past_closing_line(*day),
        other => number_line(other.number()),
    }
}

fn bad_row_line(place: u32, column: u32) -> ShortLine
    ensures { result.items ≡ spec.bad_row_text place column }
{
    let mut line = line_of(b"refused 1 record ");
    put_number(&mut line, place);
    put(&mut line, b" column ");
    put_number(&mut line, column);
    put(&mut line, b"\n");
    line
}

fn row_conflict_line(place: u32) -> ShortLine
    ensures { result.items ≡ spec.row_conflict_text place }
{
    let mut line = line_of(b"refused 3 record ");
    put_number(&mut line, place);
    put(&mut line, b"\n");
    line
}

fn past_closing_line(day: Day) -> ShortLine
    ensures { result.items ≡ spec.past_closing_text day }
{
    let mut line = line_of(b"refused 13 last day ");
    let text = day.text();
    put(&mut line, text.as_slice());
    put(&mut line, b"\n");
    line
}

fn number_line(number: u16) -> ShortLine
    ensures { result.items ≡ spec.number_text number }
{
    let mut line = line_of(b"refused ");
    put_number(&mut line, number);
    put(&mut line, b"\n");
    line
}

/// The line for an office that was of one version and now is of another, or of the same one.
pub fn migration_line(before: u8, after: u8) -> ShortLine
    ensures { result.items ≡ spec.migration_text before after }
{
    if before == after {
        return already_line(after);
    }
    let mut line = line_of(b"migrated ");
    put_number(&mut line, before);
    put(&mut line, b" to ");
    put_number(&mut line, after);
    put(&mut line, b"\n");
    line
}

fn already_line(version: u8) -> ShortLine
    ensures { result.items ≡ spec.already_text version }
{
    let mut line = line_of(b"already ");
    put_number(&mut line, version);
    put(&mut line, b"\n");
    line
}

/// The version of the program, and that of its tables.
pub fn version_line() -> ShortLine
    ensures { result.items ≡ spec.version_text }
{
    let mut line = line_of(b"examoffice ");
    put(&mut line, VERSION.as_bytes());
    put(&mut line, b", tables of version ");
    put_number(&mut line, NEWEST.number);
    put(&mut line, b"\n");
    line
}

/// The line that is printed once the port is bound.
pub fn serving_line(port: u16) -> ShortLine
    ensures { result.items ≡ spec.serving_text port }
{
    let mut line = line_of(b"serving 127.0.0.1 ");
    put_number(&mut line, port);
    put(&mut line, b"\n");
    line
}

/// The line for a connection that ended in the fault with this number.
pub fn connection_fault_line(number: u16) -> ShortLine
    ensures { result.items ≡ spec.connection_fault_text number }
{
    let mut line = line_of(b"fault ");
    put_number(&mut line, number);
    put(&mut line, b"\n");
    line
}

/// Appends the hall, or a dash for none.
fn put_hall(line: &mut ShortLine, hall: &Option<HallCode>)
    requires { array_vec_len line.old + 8 ≤ 64 }
    ensures text { line.new.items ≡ line.old.items ++ hall_word hall.now }
    ensures len { array_vec_len line.new ≤ array_vec_len line.old + 8 }
{
    match hall {
        Some(code) => put(line, code.as_bytes()),
        None => put(line, b"-"),
    }
}

fn put_number<I: Integer>(line: &mut ShortLine, number: I)
    requires { array_vec_len line.old + I.MAX_STR_LEN ≤ 64 }
    ensures text { line.new.items ≡ line.old.items ++ I.text number }
    ensures len { array_vec_len line.new ≤ array_vec_len line.old + I.MAX_STR_LEN }
{
    let mut buffer = Buffer::new();
    put(line, buffer.format(number).as_bytes());
}

/// A line that begins with these bytes.
fn line_of(bytes: &[u8]) -> ShortLine
    requires { length bytes.now ≤ 64 }
    ensures { result.items ≡ bytes.now }
{
    let mut line = ShortLine::new();
    put(&mut line, bytes);
    line
}

fn put(line: &mut ShortLine, bytes: &[u8])
    requires { array_vec_len line.old + length bytes.now ≤ 64 }
    ensures text { line.new.items ≡ line.old.items ++ bytes.now }
    ensures len { array_vec_len line.new ≡ array_vec_len line.old + length bytes.now }
{
    line.try_extend_from_slice(bytes).unwrap();
}
