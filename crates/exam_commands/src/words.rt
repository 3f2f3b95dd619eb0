//! The words for the kinds, the states and the subjects of appeals.
ghost use Rattle.std.specs.Prelude.{◌≡◌, ◌≤◌, ◌++◌, length, OnOk, OnErr};
ghost use Rattle.std.specs.Io.{StartsWith};
ghost use Rattle.exam_types.specs.Refusals.{OnlyMemory};
ghost use Rattle.exam_commands.specs.Appeals as appeals;
ghost use Rattle.exam_commands.specs.Words as spec;

use crate::appeals::state_of;
use crate::command::AppealState;
use exam_rules::{Arrangement, Status, Subject};
use exam_types::Refusal;

/// The kind of what an appeal asks for: `hall`, `clash` or `arrangement`.
pub fn kind_word(subject: &Subject) -> &'static [u8]
    ensures { result.now ≡ spec.kind_word subject.now }
{
    match subject {
        Subject::Hall(_) => b"hall",
        Subject::Clash(_) => b"clash",
        Subject::Arrangement(_) => b"arrangement",
    }
}

/// The state of an appeal, as one word. A pending one is `open`.
pub fn state_word(state: AppealState) -> &'static [u8]
    ensures value { result.now ≡ spec.state_word state }
    ensures short { length result.now ≤ 10 }
{
    match state {
        AppealState::Pending => b"open",
        AppealState::Granted => b"granted",
        AppealState::Refused => b"refused",
        AppealState::Retracted => b"retracted",
        AppealState::Superseded => b"superseded",
    }
}

/// The state of an appeal with this status, as one word.
pub fn status_word(status: &Status) -> &'static [u8]
    ensures { result.now ≡ spec.state_word (appeals.state_of status.now) }
{
    state_word(state_of(status))
}

/// Appends what an appeal asks for: the hall, the paper, or the needs, a space and the extra time in percent. Refused
/// if there is not enough memory; the vector then stays as it was.
pub fn write_subject(subject: &Subject, out: &mut Vec<u8>) -> Result<(), Refusal>
    ensures ok { OnOk result (out.new.items ≡ out.old.items ++ spec.subject_text subject.now) }
    ensures err { OnErr result (out.new.items ≡ out.old.items) }
    ensures memory { OnlyMemory result }
{
    match subject {
        Subject::Hall(hall) => hall.write_to(out),
        Subject::Clash(paper) => paper.write_to(out),
        Subject::Arrangement(asked) => write_arrangement(*asked, out),
    }
}

/// Appends the needs and the extra time, or nothing if there is not enough memory.
fn write_arrangement(asked: Arrangement, out: &mut Vec<u8>) -> Result<(), Refusal>
    ensures ok { OnOk result (out.new.items ≡ out.old.items ++ spec.arrangement_text asked) }
    ensures err { OnErr result (out.new.items ≡ out.old.items) }
    ensures memory { OnlyMemory result }
{
    let before = out.len();
    if let Err(refusal) = write_parts(asked, out) {
        out.truncate(before);
        return Err(refusal);
    }
    Ok(())
}

/// Appends the needs, a space and the extra time, or only a part of them if there is not enough memory.
fn write_parts(asked: Arrangement, out: &mut Vec<u8>) -> Result<(), Refusal>
    ensures ok { OnOk result (out.new.items ≡ out.old.items ++ spec.arrangement_text asked) }
    ensures err { OnErr result (StartsWith out.new.items out.old.items) }
    ensures memory { OnlyMemory result }
{
    asked.needs.write_to(out)?;
    out.push(b' ')?;
    asked.extra.write_to(out)?;
    Ok(())
}
