//! Judges the tables and the plans of an office, finds the sessions that a command touches, and repairs
//! their plans.
#![tactic(auto)]

mod judging;
pub mod limits;
mod references;
mod repair;
mod singles;
mod touching;

pub use judging::{first_bad_listed, first_bad_table};
pub use repair::repaired_among;
pub use touching::touched;
