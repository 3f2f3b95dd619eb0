//! What a command line of the program says.
#![tactic(auto)]

mod grammar;
mod help;
mod line;
mod parsing;
mod values;

pub use help::VERSION;
pub use line::{Job, Line, LineFault, Sheet};
pub use parsing::parse_line;
