//! The clash list of a session.
ghost use Rattle.std.specs.Prelude.{◌≡◌, ◌++◌, Ok, OnOk, IfOk};
ghost use Rattle.std.specs.List.{flat_map};
ghost use Rattle.exam_types.specs.Refusals.{OnlyMemory};
ghost use Rattle.exam_files.specs.Clashes as spec;
ghost use Rattle.exam_files.specs.Writing.{Writes};

use crate::sending::send;
use crate::sheet_fault::SheetFault;
use crate::sheet_text::{push_decimal, push_left};
use exam_rules::Session;
use exam_types::{Refusal, SessionCode, append};
use exam_views::{Clash, SessionView};
use std::alloc::Global;
use std::io::Write;

/// Writes the clash list of a session: the live papers that members do not sit, by number and paper, each
/// beside the paper that they sit.
pub fn clash_list<W: Write>(
    alloc: Global,
    view: &SessionView,
    writer: &mut W,
) -> Result<(), SheetFault>
    ensures { Writes W.contents result writer.old writer.new (Ok (spec.clash_list view.now)) }
{
    let clashes = view.clashes(alloc)?;
    let text = clash_text(alloc, view.code(), view.session(), &clashes)?;
    send(writer, text.as_slice())
}

fn clash_text(
    alloc: Global,
    code: SessionCode,
    session: Session,
    clashes: &[Clash],
) -> Result<Vec<u8>, Refusal>
    ensures ok { IfOk result (λ text. text.items ≡ spec.clash_text code session clashes.now) }
    ensures memory { OnlyMemory result }
{
    let mut text = Vec::new(alloc);
    push_heading(&mut text, code, session, clashes.len())?;
    push_clashes(&mut text, clashes)?;
    Ok(text)
}

fn push_heading(
    text: &mut Vec<u8>,
    code: SessionCode,
    session: Session,
    count: usize,
) -> Result<(), Refusal>
    ensures ok { OnOk result (text.new.items ≡ text.old.items ++ spec.clash_heading code session count) }
    ensures memory { OnlyMemory result }
{
    append(text, b"CLASHES session ")?;
    code.write_to(text)?;
    append(text, b"\ndate ")?;
    session.day.write_to(text)?;
    append(text, b" clashes ")?;
    push_decimal(text, count)?;
    append(text, b"\n")?;
    Ok(())
}

fn push_clashes(text: &mut Vec<u8>, clashes: &[Clash]) -> Result<(), Refusal>
    ensures ok { OnOk result (text.new.items ≡ text.old.items ++ flat_map spec.clash_line clashes.now) }
    ensures memory { OnlyMemory result }
{
    for clash in clashes {
        push_line(text, clash)?;
    }
    Ok(())
}

fn push_line(text: &mut Vec<u8>, clash: &Clash) -> Result<(), Refusal>
    ensures ok { OnOk result (text.new.items ≡ text.old.items ++ spec.clash_line clash.now) }
    ensures memory { OnlyMemory result }
{
    clash.number.write_to(text)?;
    append(text, b" sits ")?;
    push_left(text, 12, clash.sitting.as_bytes())?;
    append(text, b" clash ")?;
    clash.paper.write_to(text)?;
    append(text, b"\n")?;
    Ok(())
}
