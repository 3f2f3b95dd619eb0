//! What the office shows of a session and of a candidate.
#![tactic(auto)]

mod appeal_source;
pub mod own_source;
mod view;
pub mod view_source;

pub use appeal_source::{AppealSource, ListedAppeals};
pub use view::{AppealRow, Clash, Seat, SessionShortage, SessionView};
