//! The door list of a hall.
ghost use Rattle.std.specs.Prelude.{◌≡◌, ◌++◌, ◌⊎◌, ℕ, List, Ok, Err, OnOk, IfOk, count_by};
ghost use Rattle.std.specs.List.{flat_map};
ghost use Rattle.exam_types.specs.Refusals.{OnlyMemory};
ghost use Rattle.exam_files.specs.Doors as spec;
ghost use Rattle.exam_files.specs.Writing.{Writes};

use crate::sending::send;
use crate::sheet_fault::SheetFault;
use crate::sheet_text::{push_decimal, push_left, push_right};
use exam_rules::{Opening, Session};
use exam_types::{HallCode, Refusal, SessionCode, append};
use exam_views::{Seat, SessionView};
use std::alloc::Global;
use std::io::Write;

/// Writes the door list of a hall: its occupants by desk. Refused with `UnknownHall` if the office has no such hall,
/// and with `HallNotOpened` if it is not opened for the session.
pub fn door_list<W: Write>(
    alloc: Global,
    view: &SessionView,
    hall: &HallCode,
    writer: &mut W,
) -> Result<(), SheetFault>
    ensures { Writes W.contents result writer.old writer.new (spec.door_list view.now hall.now) }
{
    let opening = opening_of(view, hall)?;
    let seats = view.seats(alloc)?;
    let text = door_list_text(alloc, view.code(), view.session(), hall, &opening, &seats)?;
    send(writer, text.as_slice())
}

/// The opening of a hall in the session, or its refusal.
fn opening_of(view: &SessionView, hall: &HallCode) -> Result<Opening, Refusal>
    ensures { result ≡ spec.opening_in view.now hall.now }
{
    if !view.has_hall(hall) {
        return Err(Refusal::UnknownHall);
    }
    view.opening(hall).ok_or(Refusal::HallNotOpened)
}

fn door_list_text(
    alloc: Global,
    code: SessionCode,
    session: Session,
    hall: &HallCode,
    opening: &Opening,
    seats: &[Seat],
) -> Result<Vec<u8>, Refusal>
    ensures ok { IfOk result (λ text. text.items
        ≡ spec.door_text code session hall.now opening.now seats.now) }
    ensures memory { OnlyMemory result }
{
    let mut text = Vec::new(alloc);
    push_heading(&mut text, code, session, hall, opening, seats)?;
    for desk in 0..u32::from(opening.desks.get()) {
        push_desk(&mut text, seats, hall, desk + 1)?;
    }
    Ok(text)
}

fn push_heading(
    text: &mut Vec<u8>,
    code: SessionCode,
    session: Session,
    hall: &HallCode,
    opening: &Opening,
    seats: &[Seat],
) -> Result<(), Refusal>
    ensures ok { OnOk result (text.new.items
        ≡ text.old.items ++ spec.door_heading code session hall.now opening.now seats.now) }
    ensures memory { OnlyMemory result }
{
    append(text, b"DOOR LIST session ")?;
    code.write_to(text)?;
    append(text, b" hall ")?;
    hall.write_to(text)?;
    append(text, b"\ndate ")?;
    session.day.write_to(text)?;
    append(text, b" start ")?;
    session.start.write_to(text)?;
    append(text, b" desks ")?;
    opening.desks.write_to(text)?;
    append(text, b" seated ")?;
    push_decimal(text, seated(seats, hall))?;
    append(text, b"\n")?;
    Ok(())
}

/// How many members sit in the hall.
fn seated(seats: &[Seat], hall: &HallCode) -> usize
    ensures { result ≡ count_by (spec.sits_in hall.now) seats.now }
{
    seats.iter().filter(|seat| sits_in(seat, hall)).count()
}

/// The line of each occupant of the hall at a desk.
fn push_desk(text: &mut Vec<u8>, seats: &[Seat], hall: &HallCode, desk: u32) -> Result<(), Refusal>
    ensures ok { OnOk result (text.new.items
        ≡ text.old.items ++ flat_map (spec.line_at hall.now desk) seats.now) }
    ensures memory { OnlyMemory result }
{
    for seat in seats {
        if sits_in(seat, hall) && has_desk(seat, desk) {
            push_line(text, seat, desk)?;
        }
    }
    Ok(())
}

fn push_line(text: &mut Vec<u8>, seat: &Seat, desk: u32) -> Result<(), Refusal>
    ensures ok { OnOk result (text.new.items ≡ text.old.items ++ spec.door_line desk seat.now) }
    ensures memory { OnlyMemory result }
{
    push_right(text, 4, desk)?;
    append(text, b" ")?;
    seat.number.write_to(text)?;
    append(text, b" ")?;
    push_left(text, 12, seat.paper.as_bytes())?;
    append(text, b" ")?;
    seat.name.write_to(text)?;
    append(text, b"\n")?;
    Ok(())
}

fn sits_in(seat: &Seat, hall: &HallCode) -> bool
    ensures { result ≡ spec.sits_in hall.now seat.now }
{
    match seat.hall {
        Some(code) => code == *hall,
        None => false,
    }
}

fn has_desk(seat: &Seat, desk: u32) -> bool
    ensures { result ≡ spec.is_desk desk seat.now.desk }
{
    match seat.desk {
        Some(own) => own == desk,
        None => false,
    }
}
