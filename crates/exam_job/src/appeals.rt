//! The appeals of a session on standard output, each as soon as the database shows it.
ghost use Rattle.std.specs.Prelude.{◌≡◌, true, false, Err, IfErr};
ghost use Rattle.exam_types.specs.declared.refusal.Refusal.TheVariants.{UnknownSession};
ghost use Rattle.exam_rules.specs.Relations.{code_cmp, has_row};
ghost use Rattle.exam_views.specs.Views.{appeals_of};
ghost use Rattle.exam_files.specs.Registers as registers;
ghost use Rattle.exam_files.specs.declared.sheet_fault.SheetFault.TheVariants.{Refused};
ghost use Rattle.exam_store.specs.InTurn.{FailsToRead};
ghost use Rattle.exam_store.specs.OnlyRead.{OnlyIsRead};
ghost use Rattle.exam_job.specs.Sheets as spec;

use crate::report::{JobFault, flush};
use exam_files::{SheetFault, register_stream};
use exam_store::Store;
use exam_types::SessionCode;
use sqlite::Alter;
use std::alloc::Global;
use std::io::Write;

/// Prints the appeal register of the session, line by line.
pub fn print_appeals<S: Alter, O: Write>(
    alloc: Global,
    store: &mut Store<S>,
    session: &SessionCode,
    out: &mut O,
) -> Result<(), JobFault>
    ensures { spec.PrintsAppeals S.Store O.contents session.now store.old out.old result store.new out.new }
{
    send_appeals(alloc, store, session, out)?;
    flush(out)
}

/// Writes the appeal register of the session, line by line.
fn send_appeals<S: Alter, O: Write>(
    alloc: Global,
    store: &mut Store<S>,
    session: &SessionCode,
    out: &mut O,
) -> Result<(), SheetFault>
    ensures sent { has_row code_cmp store.old.office.relations.sessions session.now ≡ true
        → registers.Streams O.contents result out.old out.new
        (registers.register_text session.now (appeals_of store.old.office.relations session.now)) }
    ensures fault { has_row code_cmp store.old.office.relations.sessions session.now ≡ true
        → IfErr result (registers.BreaksOff (FailsToRead S.Store store.old store.new) ⊥) }
    ensures unknown { has_row code_cmp store.old.office.relations.sessions session.now ≡ false
        → (result ≡ Err (Refused UnknownSession)) × (store.new ≡ store.old) × (out.new ≡ out.old) }
    ensures read { OnlyIsRead S.Store store.old store.new }
{
    match store.appeals(alloc, session) {
        Ok((count, mut rows)) => register_stream(alloc, session, count, &mut rows, out),
        Err(refusal) => Err(SheetFault::Refused(refusal)),
    }
}
