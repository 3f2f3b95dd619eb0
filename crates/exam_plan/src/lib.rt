//! Seating as matching: lawful plans, the repair of a plan, what a shortage of desks consists of, desk
//! numbers. Candidates and halls are indices.
#![tactic(auto)]

mod calls;
mod chains;
mod contest;
mod hall_set;
mod keeping;
mod laws;
mod numbering;
mod onward;
mod problem;
mod report;
mod tally;
mod turns;

pub use calls::{desks, keep_lawful, shortage, sweep, sweep_dead};
pub use hall_set::{HallSet, MOST_HALLS, Mask};
pub use laws::{
    best_plan_is_its_repair, best_sizes_agree, certificate_shows_best, contested_are_a_certificate,
    desk_number_is_within_the_hall, desk_numbers_are_distinct, least_chain_is_one,
    repair_has_one_result, some_plan_is_best, sweep_has_one_result, what_stays_is_lawful,
};
pub use problem::{MOST_MEMBERS, Plan, Problem};
pub use report::Shortage;
