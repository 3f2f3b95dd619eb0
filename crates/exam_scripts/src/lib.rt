//! Steps of a small office through all layers, as texts that the tests of the program play.
//!
//! In a text `$ ` begins a command of the program, a candidate's request, `sql` over the tables, or `tables`, which
//! shows them all. If the day of a command or a request counts, it follows `on`. A request shows the candidate's access
//! code, or the one behind `as`. The lines below are the import file, the body or the statement. The output or the
//! answer follows `> `. What a command with the status 1 prints on the error output alone follows `! `, and both
//! outputs of a command that ends in any other way follow `? `. The office is closed and opened anew before each step.
//!
//! After a command, `with room for 9` gives it an output that takes 9 bytes and then fails, and `failing after 9` gives
//! it an import file that yields its bytes one by one, has each other read interrupted, and fails after the first 9.
//! `held back` gives it an output that takes everything and then fails to pass it on.
#![tactic(auto)]

mod commands;
pub mod days;
mod faults;
mod playing;
mod requests;
mod steps;
mod tables;

pub use commands::words_of;
pub use exam_school::{Step, expect_same};
pub use playing::played;
pub use requests::request_of;
pub use steps::answer_to;
