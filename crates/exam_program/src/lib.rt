//! The program as a library: the files, the port and the outputs of a command line. They are a crate of their own, so
//! that the gate proves them once for the program and for its tests.
#![tactic(auto)]

mod databases;
mod files;
mod laws;
mod running;
mod serving;

pub use databases::run_database;
pub use laws::{files_show_their_office, lines_lead_an_office_on};
pub use running::run;
pub use serving::serve_each;
