//! The shortage sheet.
ghost use Rattle.std.specs.Prelude.{◌≡◌, ◌++◌, Ok, OnOk, IfOk, sum_by};
ghost use Rattle.std.specs.List.{flat_map};
ghost use Rattle.exam_types.specs.Refusals.{OnlyMemory};
ghost use Rattle.exam_views.specs.Views.{Report, ShowsShortage, report_of};
ghost use Rattle.exam_files.specs.Shortages as spec;
ghost use Rattle.exam_files.specs.Writing.{Writes};

use crate::sending::send;
use crate::sheet_fault::SheetFault;
use crate::sheet_text::push_decimal;
use exam_types::{HallCode, Number, Refusal, SessionCode, append};
use exam_views::{SessionShortage, SessionView};
use std::alloc::Global;
use std::io::Write;

/// Writes the shortage sheet of a session: the deficiency certificate, halls by code and candidates by
/// number.
pub fn shortage_sheet<W: Write>(
    alloc: Global,
    view: &SessionView,
    writer: &mut W,
) -> Result<(), SheetFault>
    ensures { (report : Report) × ShowsShortage view.now report
        × Writes W.contents result writer.old writer.new (Ok (spec.shortage_text view.now.code report)) }
{
    // This shows that there is a sheet, even if there is not enough memory to write it.
    view.show_shortage();
    let shortage = view.shortage(alloc)?;
    let text = shortage_text(alloc, view.code(), &shortage)?;
    send(writer, text.as_slice())
}

fn shortage_text(
    alloc: Global,
    session: SessionCode,
    shortage: &SessionShortage,
) -> Result<Vec<u8>, Refusal>
    ensures ok { IfOk result (λ text. text.items ≡ spec.shortage_text session (report_of shortage.now)) }
    ensures memory { OnlyMemory result }
{
    let mut text = Vec::new(alloc);
    push_heading(&mut text, session, shortage)?;
    push_halls(&mut text, shortage.halls.as_slice())?;
    append(&mut text, b"candidates ")?;
    push_decimal(&mut text, shortage.candidates.len())?;
    append(&mut text, b"\n")?;
    push_candidates(&mut text, shortage.candidates.as_slice())?;
    Ok(text)
}

fn push_heading(
    text: &mut Vec<u8>,
    session: SessionCode,
    shortage: &SessionShortage,
) -> Result<(), Refusal>
    ensures ok { OnOk result (text.new.items
        ≡ text.old.items ++ spec.shortage_heading session (report_of shortage.now)) }
    ensures memory { OnlyMemory result }
{
    append(text, b"SHORTAGE session ")?;
    session.write_to(text)?;
    append(text, b"\nunseated ")?;
    push_decimal(text, shortage.unseated)?;
    append(text, b"\nhalls ")?;
    push_decimal(text, shortage.halls.len())?;
    append(text, b" desks ")?;
    push_decimal(text, desk_count(shortage.halls.as_slice()))?;
    append(text, b"\n")?;
    Ok(())
}

/// The number of desks of all these halls.
fn desk_count(halls: &[(HallCode, u32)]) -> u128
    ensures { result ≡ sum_by (λ hall. hall.1) halls.now }
{
    let mut count = 0;
    for hall in halls {
        count += u128::from(hall.1);
    }
    count
}

fn push_halls(text: &mut Vec<u8>, halls: &[(HallCode, u32)]) -> Result<(), Refusal>
    ensures ok { OnOk result (text.new.items ≡ text.old.items ++ flat_map spec.hall_line halls.now) }
    ensures memory { OnlyMemory result }
{
    for hall in halls {
        push_hall(text, hall)?;
    }
    Ok(())
}

fn push_hall(text: &mut Vec<u8>, hall: &(HallCode, u32)) -> Result<(), Refusal>
    ensures ok { OnOk result (text.new.items ≡ text.old.items ++ spec.hall_line hall.now) }
    ensures memory { OnlyMemory result }
{
    append(text, b"hall ")?;
    hall.0.write_to(text)?;
    append(text, b" desks ")?;
    push_decimal(text, hall.1)?;
    append(text, b"\n")?;
    Ok(())
}

fn push_candidates(text: &mut Vec<u8>, numbers: &[Number]) -> Result<(), Refusal>
    ensures ok { OnOk result (text.new.items ≡ text.old.items ++ flat_map spec.candidate_line numbers.now) }
    ensures memory { OnlyMemory result }
{
    for number in numbers {
        push_candidate(text, *number)?;
    }
    Ok(())
}

fn push_candidate(text: &mut Vec<u8>, number: Number) -> Result<(), Refusal>
    ensures ok { OnOk result (text.new.items ≡ text.old.items ++ spec.candidate_line number) }
    ensures memory { OnlyMemory result }
{
    number.write_to(text)?;
    append(text, b"\n")?;
    Ok(())
}
