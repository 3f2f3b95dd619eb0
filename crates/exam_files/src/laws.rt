//! Laws of import files and of sheets.
ghost use Rattle.std.specs.Prelude.{◌≡◌, ◌↔◌, ℕ, List, Ok, Err};
ghost use Rattle.exam_types.specs.declared.refusal.Refusal.TheVariants.{BadRow, RowConflict};
ghost use Rattle.exam_rules.specs.Orders.{AreInOrder};
ghost use Rattle.exam_rules.specs.Relations.{Code, Relations};
ghost use Rattle.exam_commands.specs.Good.{IsGood};
ghost use Rattle.exam_commands.specs.declared.import_row.Kind.{Kind};
ghost use Rattle.exam_commands.specs.declared.import_row.Row.{Row};
ghost use Rattle.exam_commands.specs.State.{State, Seats};
ghost use Rattle.exam_views.specs.Views.{View, Report, IsViewOf, ShowsShortage};
ghost use Rattle.exam_files.specs.Accepted.{Accepts};
ghost use Rattle.exam_files.specs.Attendances.{attendance};
ghost use Rattle.exam_files.specs.Clashes.{clash_list};
ghost use Rattle.exam_files.specs.DoorLines.{HasLines};
ghost use Rattle.exam_files.specs.Doors.{door_list};
ghost use Rattle.exam_files.specs.Exports.{seat_export};
ghost use Rattle.exam_files.specs.ImportFiles.{import_of};
ghost use Rattle.exam_files.specs.OfficeSheets.{attendance_of, clash_list_of, door_list_of, export_of};
ghost use Rattle.exam_files.specs.OfficeSheets.{register_of};
ghost use Rattle.exam_files.specs.Refused.{IsFirstBad, IsFirstConflict};
ghost use Rattle.exam_files.specs.Registers.{appeal_register};
ghost use Rattle.exam_files.specs.Shortages.{shortage_text};

/// A file is accepted exactly if it is not too long, it begins with the header, each record after it is a row, and rows
/// with the same key are equal. Its rows are then those of the records, in their order.
pub fn accepted_files_are_their_rows()
    ensures { (kind : Kind) (bytes : List ℕ) (rows : List Row)
        → (import_of kind bytes ≡ Ok (record { kind = kind; rows = rows })) ↔ Accepts kind bytes rows }
{}

/// `BadRow` names the first record of an import file that is bad, with its first bad column; `RowConflict` names the
/// first one that contradicts an earlier one. All records before it are rows that agree.
pub fn refused_files_name_their_first_bad_record()
    ensures column { (kind : Kind) (bytes : List ℕ) (number column : ℕ)
        → (import_of kind bytes ≡ Err (BadRow number column)) ↔ IsFirstBad kind bytes number column }
    ensures conflict { (kind : Kind) (bytes : List ℕ) (number : ℕ)
        → (import_of kind bytes ≡ Err (RowConflict number)) ↔ IsFirstConflict kind bytes number }
{}

/// A door list has one line for each occupant of the hall, by desk from 1, and as many as its heading says. Every
/// `Office` is good (`Office::show_good`) and in order (`Office::show_order`).
pub fn door_lists_have_a_line_for_each_occupant()
    ensures { (office : State) (s hall : Code) (view : View) (text : List ℕ) → IsGood office
        → AreInOrder office.relations → IsViewOf office s view → door_list view hall ≡ Ok text
        → HasLines view hall text }
{}

/// A door list is that of the office, and so are its refusals.
pub fn door_lists_are_of_the_office()
    ensures { (office : State) (s hall : Code) (view : View) → IsViewOf office s view
        → door_list view hall ≡ door_list_of office s hall }
{}

/// An attendance sheet is that of the office, and so are its refusals.
pub fn attendances_are_of_the_office()
    ensures { (office : State) (s paper : Code) (view : View) → IsViewOf office s view
        → attendance view paper ≡ attendance_of office s paper }
{}

/// A clash list is that of the office.
pub fn clash_lists_are_of_the_office()
    ensures { (office : State) (s : Code) (view : View) → IsViewOf office s view
        → Ok (clash_list view) ≡ clash_list_of office s }
{}

/// A seat export is that of the office.
pub fn exports_are_of_the_office()
    ensures { (office : State) (s : Code) (view : View) → IsViewOf office s view
        → Ok (seat_export view) ≡ export_of office s }
{}

/// An appeal register is that of the office.
pub fn appeal_registers_are_of_the_office()
    ensures { (office : State) (s : Code) (view : View) → IsViewOf office s view
        → Ok (appeal_register view) ≡ register_of office s }
{}

/// A shortage sheet depends only on the facts, not on which best plan is stored.
pub fn shortage_sheets_are_of_the_facts()
    ensures { (facts : Relations) (seats others : Seats) (s : Code) (view other : View) (one two : Report)
        → IsViewOf (record { relations = facts; seats = seats }) s view → ShowsShortage view one
        → IsViewOf (record { relations = facts; seats = others }) s other → ShowsShortage other two
        → shortage_text view.code one ≡ shortage_text other.code two }
{}
