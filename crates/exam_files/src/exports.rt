//! The seat export of a session.
ghost use Rattle.std.specs.Prelude.{◌≡◌, ◌++◌, ℕ, List, Ok, OnOk, IfOk, map};
ghost use Rattle.csv.specs.Writing.{default_writer, row_text};
ghost use Rattle.exam_types.specs.Refusals.{OnlyMemory};
ghost use Rattle.exam_files.specs.Exports as spec;
ghost use Rattle.exam_files.specs.Held.{Holds};
ghost use Rattle.exam_files.specs.Writing.{Writes};

use crate::sending::send;
use crate::sheet_fault::SheetFault;
use crate::sheet_text::{desk_bytes, hall_bytes};
use csv::Writer;
use exam_types::{Refusal, SessionCode};
use exam_views::{Seat, SessionView};
use itoa::Buffer;
use std::alloc::Global;
use std::io::Write;

/// Writes the seats of a session as a CSV file: a header and a record for each member, by number. Lines end with LF,
/// although RFC 4180, section 2, has CR LF. No field needs quotes, since codes have neither commas nor quotes. Members
/// without a seat have `-` as hall and as desk.
pub fn export_seats<W: Write>(
    alloc: Global,
    view: &SessionView,
    writer: &mut W,
) -> Result<(), SheetFault>
    ensures { Writes W.contents result writer.old writer.new (Ok (spec.seat_export view.now)) }
{
    let seats = view.seats(alloc)?;
    let text = export_text(alloc, view.code(), &seats)?;
    send(writer, text.as_slice())
}

/// Makes the whole text in memory, so that nothing is written if memory runs out.
fn export_text(alloc: Global, code: SessionCode, seats: &[Seat]) -> Result<Vec<u8>, Refusal>
    ensures ok { IfOk result (λ text. text.items ≡ spec.export_text code seats.now) }
    ensures memory { OnlyMemory result }
{
    let mut records = Writer::from_writer(Vec::new(alloc));
    write_record(
        &mut records,
        &[b"session", b"number", b"paper", b"hall", b"desk"],
    )?;
    for seat in seats {
        write_seat(alloc, &mut records, &code, seat)?;
    }
    // A writer over memory fails only if memory runs out.
    records.into_inner().map_err(|_| Refusal::NoMemory)
}

fn write_seat(
    alloc: Global,
    records: &mut Writer<Vec<u8>>,
    code: &SessionCode,
    seat: &Seat,
) -> Result<(), Refusal>
    ensures ok { (bytes : List ℕ) → Holds records.old bytes
        → OnOk result (Holds records.new (bytes ++ spec.export_line code.now seat.now)) }
    ensures memory { OnlyMemory result }
{
    let mut number = Vec::new(alloc);
    seat.number.write_to(&mut number)?;
    let mut desk = Buffer::new();
    write_record(
        records,
        &[
            code.as_bytes(),
            number.as_slice(),
            seat.paper.as_bytes(),
            hall_bytes(&seat.hall),
            desk_bytes(&mut desk, seat.desk),
        ],
    )
}

/// Writes a record. A writer over memory fails only if memory runs out.
fn write_record(records: &mut Writer<Vec<u8>>, fields: &[&[u8]]) -> Result<(), Refusal>
    ensures ok { (bytes : List ℕ) → Holds records.old bytes → OnOk result (Holds records.new
        (bytes ++ row_text default_writer (map (λ field. field.now) fields.now))) }
    ensures memory { OnlyMemory result }
{
    records.write_fields(fields).map_err(|_| Refusal::NoMemory)
}
