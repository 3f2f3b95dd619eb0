//! The tables of the facts and of the plans, each with its texts.

pub mod appeals;
pub mod arrangements;
pub mod candidates;
pub mod entries;
pub mod halls;
pub mod openings;
pub mod papers;
pub mod seats;
pub mod sessions;
pub mod standing;
