//! What a command line of the program does: to the office in a store, and to its outputs.
#![tactic(auto)]

mod appeals;
mod job;
mod lines;
mod migrating;
mod reading;
mod report;
mod sheets;

pub use job::{carry_out, run_job};
pub use lines::{connection_fault_line, serving_line};
pub use migrating::migrate_office;
pub use report::{DONE, FAILED, JobFault, print, print_fault, print_line_fault, print_ready};
