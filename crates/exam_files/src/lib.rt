//! Import files and sheets, byte for byte. A sheet does not flush its writer.
#![tactic(auto)]

mod attendances;
mod clashes;
mod doors;
mod exports;
mod headers;
mod imports;
mod laws;
mod records;
mod registers;
mod row_of_record;
mod sending;
mod sheet_fault;
mod sheet_text;
mod shortages;
mod streams;

pub use attendances::attendance;
pub use clashes::clash_list;
pub use doors::door_list;
pub use exports::export_seats;
pub use imports::{MOST_BYTES, read_import};
pub use laws::{
    accepted_files_are_their_rows, appeal_registers_are_of_the_office,
    attendances_are_of_the_office, clash_lists_are_of_the_office, door_lists_are_of_the_office,
    door_lists_have_a_line_for_each_occupant, exports_are_of_the_office,
    refused_files_name_their_first_bad_record, shortage_sheets_are_of_the_facts,
};
pub use registers::appeal_register;
pub use sheet_fault::SheetFault;
pub use shortages::shortage_sheet;
pub use streams::register_stream;
