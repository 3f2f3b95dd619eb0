//! The tables of an office.

/// The tables of an office, in the order in which they are checked.
#[derive(Clone, Copy, Debug, PartialEq, Eq)]
pub enum Table {
    Sessions,
    Papers,
    Halls,
    Openings,
    Candidates,
    Entries,
    Arrangements,
    Appeals,
    Standing,
    Seats,
}
