//! The office's small values. Contracts see each value as what it means: its bytes, its number or its flags.
#![tactic(auto)]

mod code;
mod codes;
mod day;
mod digits;
mod features;
mod laws;
mod numbers;
mod numerals;
mod ranged;
mod refusal;
mod session_day;
mod text;

pub use codes::{AccessCode, HallCode, PaperCode, Reference, SessionCode};
pub use day::Day;
pub use features::Features;
pub use laws::{
    access_code_of, hall_code_of, name_of, paper_code_of, reason_of, reference_of, session_code_of,
};
pub use numbers::{ClosingTime, DeskCount, ExamMinutes, Extra, Minute, Number, StartTime};
pub use refusal::Refusal;
pub use session_day::SessionDay;
pub use text::{Name, Reason, append, text_of};
