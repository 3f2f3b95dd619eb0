//! The sheets of a session on standard output.
ghost use Rattle.std.specs.Prelude.{◌≡◌};
ghost use Rattle.exam_job.specs.Sheets as spec;
ghost use Rattle.exam_files.specs.Writing.{Writes};
ghost use Rattle.std.specs.Prelude.{ℕ, List, Result};
ghost use Rattle.exam_types.specs.declared.refusal.Refusal.{Refusal};

use crate::report::{JobFault, flush};
use exam_files::{
    SheetFault, appeal_register, attendance, clash_list, door_list, export_seats, shortage_sheet,
};
use exam_line::Sheet;
use exam_office::SessionView;
use exam_store::Store;
use exam_types::SessionCode;
use sqlite::Alter;
use std::alloc::Global;
use std::io::Write;

/// Prints a sheet of the session.
pub fn print_sheet<S: Alter, O: Write>(
    alloc: Global,
    store: &mut Store<S>,
    session: &SessionCode,
    sheet: &Sheet,
    out: &mut O,
) -> Result<(), JobFault>
    ensures sheet { spec.PrintsSheet O.contents store.old.office session.now sheet.now out.old result out.new }
    ensures same { store.new ≡ store.old }
{
    let view = store.load_session(alloc, session)?;
    print_view(alloc, &view, sheet, out)
}

/// Prints a sheet from what is shown of a session.
fn print_view<O: Write>(
    alloc: Global,
    view: &SessionView,
    sheet: &Sheet,
    out: &mut O,
) -> Result<(), JobFault>
    ensures { spec.PrintsView O.contents view.now sheet.now out.old result out.new }
{
    send_view(alloc, view, sheet, out)?;
    flush(out)
}

/// Writes a sheet from what is shown of a session.
fn send_view<O: Write>(
    alloc: Global,
    view: &SessionView,
    sheet: &Sheet,
    out: &mut O,
) -> Result<(), SheetFault>
    ensures { (text : Result (List ℕ) Refusal) × spec.IsSheetOfView view.now sheet.now text
        × Writes O.contents result out.old out.new text }
{
    match sheet {
        Sheet::DoorList(hall) => door_list(alloc, view, hall, out),
        Sheet::Attendance(paper) => attendance(alloc, view, paper, out),
        Sheet::Clashes => clash_list(alloc, view, out),
        Sheet::Shortage => shortage_sheet(alloc, view, out),
        Sheet::Appeals => appeal_register(alloc, view, out),
        Sheet::Export => export_seats(alloc, view, out),
    }
}
