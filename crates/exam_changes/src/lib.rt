//! What each command changes in the facts, and how the change is taken back.
#![tactic(auto)]

mod before;
mod closing;
mod deciding;
mod entries;
mod importing;
mod kept;
mod lodging;
mod moves;
mod retracting;
pub mod rows;
mod undo;
mod unknown;

pub use before::{Before, PlansBefore, TablesBefore};
pub use closing::close;
pub use deciding::{decide, decided_reply, newly_decided};
pub use entries::{reinstate, withdraw};
pub use importing::import_rows;
pub use lodging::lodge;
pub use retracting::retract;
pub use undo::Undo;
