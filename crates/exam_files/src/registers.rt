//! The appeal register of a session.
ghost use Rattle.std.specs.Prelude.{◌≡◌, ◌++◌, Ok, OnOk, IfOk};
ghost use Rattle.std.specs.List.{flat_map};
ghost use Rattle.exam_types.specs.Refusals.{OnlyMemory};
ghost use Rattle.exam_files.specs.Registers as spec;
ghost use Rattle.exam_files.specs.Writing.{Writes};

use crate::sending::send;
use crate::sheet_fault::SheetFault;
use crate::sheet_text::{push_decimal, push_left};
use exam_commands::{state_word, write_subject};
use exam_types::{Refusal, SessionCode, append};
use exam_views::{AppealRow, SessionView};
use std::alloc::Global;
use std::io::Write;

/// Writes the appeal register of a session: its appeals by number and reference, including those of candidates who are
/// no longer members of it.
pub fn appeal_register<W: Write>(
    alloc: Global,
    view: &SessionView,
    writer: &mut W,
) -> Result<(), SheetFault>
    ensures { Writes W.contents result writer.old writer.new (Ok (spec.appeal_register view.now)) }
{
    let text = register_text(alloc, view.code(), view.appeals())?;
    send(writer, text.as_slice())
}

fn register_text(
    alloc: Global,
    code: SessionCode,
    appeals: &[AppealRow],
) -> Result<Vec<u8>, Refusal>
    ensures ok { IfOk result (λ text. text.items ≡ spec.register_text code appeals.now) }
    ensures memory { OnlyMemory result }
{
    let mut text = Vec::new(alloc);
    push_heading(&mut text, code, appeals.len())?;
    push_appeals(&mut text, appeals)?;
    Ok(text)
}

pub(crate) fn push_heading(
    text: &mut Vec<u8>,
    code: SessionCode,
    count: usize,
) -> Result<(), Refusal>
    ensures ok { OnOk result (text.new.items ≡ text.old.items ++ spec.register_heading code count) }
    ensures memory { OnlyMemory result }
{
    append(text, b"APPEALS session ")?;
    code.write_to(text)?;
    append(text, b"\nappeals ")?;
    push_decimal(text, count)?;
    append(text, b"\n")?;
    Ok(())
}

fn push_appeals(text: &mut Vec<u8>, appeals: &[AppealRow]) -> Result<(), Refusal>
    ensures ok { OnOk result (text.new.items ≡ text.old.items ++ flat_map spec.appeal_line appeals.now) }
    ensures memory { OnlyMemory result }
{
    for appeal in appeals {
        push_line(text, appeal)?;
    }
    Ok(())
}

pub(crate) fn push_line(text: &mut Vec<u8>, appeal: &AppealRow) -> Result<(), Refusal>
    ensures ok { OnOk result (text.new.items ≡ text.old.items ++ spec.appeal_line appeal.now) }
    ensures memory { OnlyMemory result }
{
    appeal.number.write_to(text)?;
    append(text, b" ")?;
    push_left(text, 16, appeal.reference.as_bytes())?;
    append(text, b" ")?;
    push_left(text, 11, appeal.kind())?;
    append(text, b" ")?;
    push_left(text, 10, state_word(appeal.state))?;
    append(text, b" ")?;
    appeal.lodged.write_to(text)?;
    append(text, b" ")?;
    write_subject(&appeal.subject, text)?;
    append(text, b"\n")?;
    Ok(())
}
