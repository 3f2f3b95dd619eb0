//! What belongs to each version of the tables.

/// What the tables of an older version could hold.
#[derive(Clone, Copy)]
pub struct Limits {
    /// The most openings of a session.
    pub openings: usize,
    /// The greatest sum of a set of features.
    pub greatest_sum: u32,
}

/// A version of the tables.
#[derive(Clone, Copy)]
pub struct Version {
    /// As the table `office` has it: 1, 2 or 3.
    pub number: u8,
    /// Whether the table of marks is among them.
    pub has_marks: bool,
    /// What they can hold, if that is less than what an office may hold now.
    pub limits: Option<Limits>,
}

const OLDER_LIMITS: Limits = Limits {
    openings: 128,
    greatest_sum: 31,
};

pub const FIRST: Version = Version {
    number: 1,
    has_marks: false,
    limits: Some(OLDER_LIMITS),
};

pub const SECOND: Version = Version {
    number: 2,
    has_marks: true,
    limits: Some(OLDER_LIMITS),
};

/// The version of the tables of a new database.
pub const NEWEST: Version = Version {
    number: 3,
    has_marks: true,
    limits: None,
};
