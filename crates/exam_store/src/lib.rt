//! The office in the tables of a database: one transaction for each command, and opening.
#![tactic(auto)]

mod appeal_rows;
mod laws;
mod loading;
mod migrating;
mod saving;
mod store;

pub use appeal_rows::AppealRows;
pub use laws::{
    applied_list_gives_one_office, applied_lists_are_runs, offices_have_days,
    repeated_decision_is_applied_once, repeated_lodging_is_applied_once,
    repeated_retraction_is_applied_once, stopped_command_is_made_or_not, tables_hold_one_office,
};
pub use migrating::migrate;
pub use store::Store;
