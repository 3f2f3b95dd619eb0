//! The small school of the tests: its facts, its import files and its rows, as texts.
//!
//! A text of facts has a fact in each line, and a later fact replaces an earlier one with its key:
//!
//! - `session S1 2027-06-01` begins at 09:00, `paper MA-1 S1 60 -` has its minutes and what it requires,
//!   `hall A step-free` its features, `opening S1 A 1 12:00` its desks and its end, `arrangement 2 step-free 25` the
//!   needs and the extra time;
//! - `candidate 1`, and of candidate 1 `entry 1 MA-1` or `withdrawn 1 MA-1`, and in hall A `seat S1 1 A`;
//! - `lodged 1 R1 S1 hall B`, `granted 1 R2 S1 clash PH-2` and `superseded 1 R3 S1 arrangement screen 25` are appeals
//!   under a reference for a session, and `standing 1 R2` is the mark of a grant that also holds for later sessions;
//! - `0..64 hall H* -` stands for the halls H0 to H63.
//!
//! A line with ` > ` is a question and its answer, which a test asks.
#![tactic(auto)]

mod facts;
mod rows;
mod school;
mod steps;
mod words;

pub use facts::{School, add_fact, school_with};
pub use rows::{
    appeal_key, arrangement_of, candidate_of, entry_of, hall_of, opening_of, paper_of, session_of,
    subject_of,
};
pub use school::{
    FIRST_TAKES_A, ONE_SITS, OPENED, PEOPLE, ROWS, SECOND_NEEDS_A, TIMETABLE, TWO_SIT,
};
pub use steps::{Step, dated, expect_answer, expect_same};
pub use words::{Words, code_or_dash};
