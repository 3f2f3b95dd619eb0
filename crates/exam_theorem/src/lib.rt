//! From the bytes that come in to the bytes of a sheet: orders that are followed over the office in a store.
#![tactic(auto)]

mod life;
mod orders;
mod printing;

pub use life::{carry_over, live};
pub use orders::{Answered, LineEnd, LineStop, Order, Outcome};
pub use printing::{EndOfDay, print_after};
