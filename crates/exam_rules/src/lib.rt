//! The facts of an office, and the office's rules over them.
#![tactic(auto)]

mod appeals;
mod by_session;
mod clashing;
mod desk_order;
mod entering;
mod facts;
mod fit;
mod laws;
mod listing;
mod own_rows;
mod plans;
mod rows;
mod seating;
mod sessions;
mod standing;

pub use appeals::{appeals_of, has_at_most};
pub use by_session::{BySession, append_by_session};
pub use clashing::{clashes, clashes_among};
pub use desk_order::{DeskKey, comes_before, desk_key_among};
pub use facts::Facts;
pub use fit::{finish, finish_beside, finish_by_entries, fits};
pub use laws::{
    certificates_by_name, desks_are_of_their_own, last_standing_grant_counts, plans_by_name,
    repair_is_one,
};
pub use listing::{Entrant, SessionLists, entered_session, session_lists, sitting_among};
pub use own_rows::OwnRows;
pub use plans::{ListedProblem, Seats, add_seat, stored_plan, write_plan};
pub use rows::{
    Appeal, Arrangement, Candidate, Entry, Hall, Opening, Paper, Session, Status, Subject,
};
pub use seating::{indexed_problem, problem};
pub use sessions::{
    arrangement_in_force, entries_of, is_clash, is_live_paper, is_member, is_paper_of, sitting,
    sitting_beside, sitting_by_entries,
};
pub use standing::is_standing;
