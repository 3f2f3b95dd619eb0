//! Commands, imports and replies, and the definitions of what they mean.
#![tactic(auto)]

mod appeals;
mod command;
pub mod granting;
mod import;
mod import_row;
mod own;
mod single;
mod table;
mod words;

pub use appeals::{has_open_appeal, is_open, is_same_subject, notice_days, state_of, stored_state};
pub use command::{AppealState, Command, Decision, Lodging, Outcome, Reply};
pub use import::Import;
pub use import_row::{Kind, Row};
pub use own::{Own, OwnAppeal, OwnSession};
pub use single::Single;
pub use table::Table;
pub use words::{kind_word, state_word, status_word, write_subject};
