//! What is wrong with a database that is no good office: its first bad table.
#![tactic(auto)]

mod checking;
mod laws;
mod lines;
mod reading;
mod tables;

pub use checking::check;
pub use laws::check_finds_nothing_exactly_where_open_accepts;
pub use lines::check_line;
pub use tables::Table;
