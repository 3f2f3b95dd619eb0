//! The rows of the office's tables: their columns, the statements that put, delete and show them, the schema, and
//! one transaction for all that changes.
#![tactic(auto)]

mod columns;
mod counting;
mod differences;
mod faults;
mod finding;
mod loading;
mod scanning;
mod schema;
mod statements;
mod subjects;
mod table;
mod tables;
mod version;
mod writes;
mod writing;

pub use counting::{count_appeals, first_appeal};
pub use differences::{Difference, Keyed, difference_of};
pub use finding::confirm_appeal;
pub use loading::{Loads, load_facts};
pub use scanning::load_rows;
pub use schema::{has_marks, is_blank, version_of};
pub use table::StoredRows;
pub use tables::appeals::AppealTable;
pub use tables::arrangements::ArrangementTable;
pub use tables::candidates::CandidateTable;
pub use tables::entries::EntryTable;
pub use tables::halls::HallTable;
pub use tables::openings::OpeningTable;
pub use tables::papers::PaperTable;
pub use tables::seats::SeatTable;
pub use tables::sessions::SessionTable;
pub use tables::standing::StandingTable;
pub use version::{Limits, NEWEST, Version};
pub use writing::{Changes, save_changes, save_empty, save_widened};
