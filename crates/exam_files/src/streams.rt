//! The appeal register of a session, from a source that gives the appeals one by one.
ghost use Rattle.std.specs.Prelude.{◌≡◌, ◌<◌, ◌≤◌, [], length, drop, OnOk, OnErr, IfErr};
ghost use Rattle.exam_files.specs.Registers as spec;

use crate::registers::{push_heading, push_line};
use crate::sending::send;
use crate::sheet_fault::SheetFault;
use exam_types::{Refusal, SessionCode};
use exam_views::{AppealRow, AppealSource};
use std::alloc::Global;
use std::io::Write;

/// Writes the register of a session with this count of appeals, each as soon as the source gives it. Asks for no more
/// than the count, so rows behind it stay in the source. Refuses with `BadStore` if the source ends sooner, passes on
/// what the source refuses, and otherwise refuses only with `NoMemory`. After any fault, a refusal too, a beginning of
/// the sheet may have been written.
pub fn register_stream<A: AppealSource, W: Write>(
    alloc: Global,
    session: &SessionCode,
    count: u32,
    source: &mut A,
    writer: &mut W,
) -> Result<(), SheetFault>
    ensures sheet { A.IsHonest source.new → length (A.coming source.old) ≡ count
        → spec.Streams W.contents result writer.old writer.new
        (spec.register_text session.now (A.coming source.old)) }
    ensures rest { A.IsHonest source.new
        → OnOk result ((A.coming source.new ≡ drop count (A.coming source.old))
        × (count ≤ length (A.coming source.old))) }
    ensures asked { A.IsHonest source.new → IfErr result (
        spec.AsksFor count (A.Refuses source.old source.new) (A.coming source.old) (A.coming source.new)) }
    ensures fault { IfErr result (spec.BreaksOff (A.Refuses source.old source.new)
        (A.IsHonest source.new → length (A.coming source.old) < count)) }
    ensures stays { A.Stays source.old source.new }
{
    send_heading(alloc, session, count, writer)?;
    for _place in 0..count {
        send_next(alloc, source, writer)?;
    }
    Ok(())
}

/// Writes the heading.
fn send_heading<W: Write>(
    alloc: Global,
    session: &SessionCode,
    count: u32,
    writer: &mut W,
) -> Result<(), SheetFault>
    ensures sent { spec.Streams W.contents result writer.old writer.new
        (spec.register_heading session.now count) }
    ensures fault { IfErr result (spec.BreaksOff (λ e. ⊥) ⊥) }
{
    let mut text = Vec::new(alloc);
    push_heading(&mut text, *session, count as usize)?;
    send(writer, text.as_slice())
}

/// Writes the line of the next appeal. Refused with `BadStore` if there is none.
fn send_next<A: AppealSource, W: Write>(
    alloc: Global,
    source: &mut A,
    writer: &mut W,
) -> Result<(), SheetFault>
    ensures ok { A.IsHonest source.new → OnOk result (spec.SendsNext (A.coming source.old)
        (A.coming source.new) (W.contents writer.old) (W.contents writer.new)) }
    ensures err { A.IsHonest source.new → OnErr result (spec.StopsAtNext (A.coming source.old)
        (A.coming source.new) (W.contents writer.old) (W.contents writer.new)) }
    ensures honest { A.IsHonest source.new → A.IsHonest source.old }
    ensures asked { A.IsHonest source.new → IfErr result (
        spec.AsksFor 1 (A.Refuses source.old source.new) (A.coming source.old) (A.coming source.new)) }
    ensures fault { IfErr result (spec.BreaksOff (A.Refuses source.old source.new)
        (A.IsHonest source.new → A.coming source.old ≡ [])) }
    ensures stays { A.Stays source.old source.new }
{
    match source.next()? {
        Some(row) => send_row(alloc, &row, writer),
        None => Err(SheetFault::Refused(Refusal::BadStore)),
    }
}

/// Writes the line of an appeal.
fn send_row<W: Write>(alloc: Global, row: &AppealRow, writer: &mut W) -> Result<(), SheetFault>
    ensures sent { spec.Streams W.contents result writer.old writer.new (spec.appeal_line row.now) }
    ensures fault { IfErr result (spec.BreaksOff (λ e. ⊥) ⊥) }
{
    let mut text = Vec::new(alloc);
    push_line(&mut text, row)?;
    send(writer, text.as_slice())
}
