//! The attendance sheet of a paper.
ghost use Rattle.std.specs.Prelude.{◌≡◌, ◌++◌, OnOk, IfOk, count_by};
ghost use Rattle.std.specs.List.{flat_map};
ghost use Rattle.exam_types.specs.Refusals.{OnlyMemory};
ghost use Rattle.exam_files.specs.Attendances as spec;
ghost use Rattle.exam_files.specs.Writing.{Writes};

use crate::sending::send;
use crate::sheet_fault::SheetFault;
use crate::sheet_text::{hall_bytes, push_decimal, push_desk, push_left};
use exam_rules::Session;
use exam_types::{PaperCode, Refusal, SessionCode, append};
use exam_views::{Seat, SessionView};
use std::alloc::Global;
use std::io::Write;

/// Writes the attendance sheet of a paper: the members who sit it, by number; those without a seat have `-` as hall and
/// as desk. Refused with `UnknownPaper` if the paper is not of the session.
pub fn attendance<W: Write>(
    alloc: Global,
    view: &SessionView,
    paper: &PaperCode,
    writer: &mut W,
) -> Result<(), SheetFault>
    ensures { Writes W.contents result writer.old writer.new (spec.attendance view.now paper.now) }
{
    check_paper(view, paper)?;
    let seats = view.seats(alloc)?;
    let text = attendance_text(alloc, view.code(), view.session(), paper, &seats)?;
    send(writer, text.as_slice())
}

/// Refused with `UnknownPaper` if the paper is not of the session.
fn check_paper(view: &SessionView, paper: &PaperCode) -> Result<(), Refusal>
    ensures { result ≡ spec.paper_in view.now paper.now }
{
    if view.has_paper(paper) {
        Ok(())
    } else {
        Err(Refusal::UnknownPaper)
    }
}

fn attendance_text(
    alloc: Global,
    code: SessionCode,
    session: Session,
    paper: &PaperCode,
    seats: &[Seat],
) -> Result<Vec<u8>, Refusal>
    ensures ok { IfOk result (λ text. text.items
        ≡ spec.attendance_text code session paper.now seats.now) }
    ensures memory { OnlyMemory result }
{
    let mut text = Vec::new(alloc);
    push_heading(&mut text, code, session, paper, sitters(seats, paper))?;
    push_lines(&mut text, seats, paper)?;
    Ok(text)
}

/// How many members sit the paper.
fn sitters(seats: &[Seat], paper: &PaperCode) -> usize
    ensures { result ≡ count_by (spec.sits paper.now) seats.now }
{
    seats.iter().filter(|seat| seat.paper == *paper).count()
}

fn push_heading(
    text: &mut Vec<u8>,
    code: SessionCode,
    session: Session,
    paper: &PaperCode,
    count: usize,
) -> Result<(), Refusal>
    ensures ok { OnOk result (text.new.items
        ≡ text.old.items ++ spec.attendance_heading code session paper.now count) }
    ensures memory { OnlyMemory result }
{
    append(text, b"ATTENDANCE session ")?;
    code.write_to(text)?;
    append(text, b" paper ")?;
    paper.write_to(text)?;
    append(text, b"\ndate ")?;
    session.day.write_to(text)?;
    append(text, b" start ")?;
    session.start.write_to(text)?;
    append(text, b" candidates ")?;
    push_decimal(text, count)?;
    append(text, b"\n")?;
    Ok(())
}

/// The line of each member who sits the paper.
fn push_lines(text: &mut Vec<u8>, seats: &[Seat], paper: &PaperCode) -> Result<(), Refusal>
    ensures ok { OnOk result (text.new.items
        ≡ text.old.items ++ flat_map (spec.line_for paper.now) seats.now) }
    ensures memory { OnlyMemory result }
{
    for seat in seats {
        if seat.paper == *paper {
            push_line(text, seat)?;
        }
    }
    Ok(())
}

fn push_line(text: &mut Vec<u8>, seat: &Seat) -> Result<(), Refusal>
    ensures ok { OnOk result (text.new.items ≡ text.old.items ++ spec.attendance_line seat.now) }
    ensures memory { OnlyMemory result }
{
    seat.number.write_to(text)?;
    append(text, b" ")?;
    push_left(text, 8, hall_bytes(&seat.hall))?;
    append(text, b" ")?;
    push_desk(text, 4, seat.desk)?;
    append(text, b" ")?;
    seat.finish.write_to(text)?;
    append(text, b" ")?;
    seat.name.write_to(text)?;
    append(text, b"\n")?;
    Ok(())
}
