//! Sending the text of a sheet to a writer.
ghost use Rattle.std.specs.Prelude.{OnOk, OnErr, IfErr, ◌≡◌};
ghost use Rattle.std.specs.Io.KnownBytes.{Appends};
ghost use Rattle.exam_send.specs.Sending.{AppendsPart};
ghost use Rattle.exam_files.specs.declared.sheet_fault.SheetFault.TheVariants as faults;

use crate::sheet_fault::SheetFault;
use std::io::Write;

/// Writes the whole text. If a write fails or takes no byte, this is a fault.
pub fn send<W: Write>(writer: &mut W, text: &[u8]) -> Result<(), SheetFault>
    ensures ok { OnOk result (Appends (W.contents writer.old) (W.contents writer.new) text.now) }
    ensures err { OnErr result (AppendsPart (W.contents writer.old) (W.contents writer.new) text.now) }
    ensures fault { IfErr result (λ e. e ≡ faults.Write) }
{
    exam_send::send(writer, text).map_err(|_| SheetFault::Write)
}
