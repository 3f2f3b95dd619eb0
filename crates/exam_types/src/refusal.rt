//! Why a call is refused.
ghost use Rattle.std.specs.Prelude.{◌≡◌};
ghost use Rattle.exam_types.specs.Refusals.{refusal_number};
ghost use Rattle.exam_types.specs.declared.refusal.Refusal.TheVariants.{NoMemory};

use crate::day::Day;
use std::alloc::{AllocError, AllocFailed};
use thiserror::Error;

/// Why a call is refused. Each call says what its refusal leaves behind. After `NoMemory` and `Store` a command on a
/// database may be done all the same.
#[derive(Clone, Copy, Debug, PartialEq, Eq, Error)]
pub enum Refusal {
    /// A row of an import is bad: its record, counted from 1 after the header, and its first bad column, counted from 1
    /// from the left, or 0 if the count of fields is wrong.
    #[error("record {0} column {1} is bad")]
    BadRow(u32, u32),
    /// The first record of an import is not the header of its kind, or there is none.
    #[error("the header is not that of the kind")]
    BadHeader,
    /// A row of an import, whose record this is, counted from 1, has the key of an earlier row but other contents.
    #[error("record {0} contradicts an earlier one")]
    RowConflict(u32),
    /// There is no such session.
    #[error("no such session")]
    UnknownSession,
    /// There is no such paper. For an attendance sheet the paper must be one of the session.
    #[error("no such paper")]
    UnknownPaper,
    /// There is no such candidate, or a request does not show their access code.
    #[error("no such candidate")]
    UnknownCandidate,
    /// There is no such hall.
    #[error("no such hall")]
    UnknownHall,
    /// The candidate has no entry for the paper. For a clash appeal the entry must be live, and the paper of the
    /// session.
    #[error("no such entry")]
    NoEntry,
    /// The entry is withdrawn already.
    #[error("the entry is withdrawn already")]
    AlreadyWithdrawn,
    /// The entry is not withdrawn.
    #[error("the entry is not withdrawn")]
    NotWithdrawn,
    /// The candidate is not seated in the hall.
    #[error("not seated in that hall")]
    NotSeatedThere,
    /// The candidate is no member of the session.
    #[error("no member of the session")]
    NotInSession,
    /// The last day to lodge, which the refusal carries, has passed.
    #[error("the last day to lodge is over")]
    PastClosing(Day),
    /// The candidate already has another appeal with this reference.
    #[error("the reference is taken")]
    RefTaken,
    /// There is no such appeal.
    #[error("no such appeal")]
    UnknownAppeal,
    /// The appeal is not open.
    #[error("the appeal is not open")]
    NotOpenAppeal,
    /// The day of the session has come.
    #[error("the day of the session has come")]
    TooLate,
    /// The candidate has no clash in the session.
    #[error("no clash in the session")]
    NoClash,
    /// What the appeal asks for is the case already.
    #[error("nothing to change")]
    NothingToChange,
    /// A limit of the office would be passed, or an import file is too long.
    #[error("a limit would be passed")]
    TooMany,
    /// The candidate already has an open appeal of this kind for the session.
    #[error("an open appeal of this kind stands")]
    AppealStands,
    /// There is not enough memory.
    #[error("not enough memory")]
    NoMemory,
    /// A call of the database failed.
    #[error("the database failed")]
    Store,
    /// The database holds no good office.
    #[error("the database holds no office")]
    BadStore,
    /// The hall is not opened for the session.
    #[error("the hall is not opened for the session")]
    HallNotOpened,
    /// The appeal is of another kind than an arrangement.
    #[error("the appeal is of another kind")]
    NotArrangement,
    /// The database is of an older version.
    #[error("the database is of an older version")]
    OldSchema,
}

impl From<AllocError> for Refusal {
    ghost from_gives = { λ _ e. e ≡ NoMemory };

    fn from(_error: AllocError) -> Refusal {
        Refusal::NoMemory
    }
}

impl<T: Drop> From<AllocFailed<T>> for Refusal {
    ghost from_gives = { λ _ e. e ≡ NoMemory };

    fn from(_error: AllocFailed<T>) -> Refusal {
        Refusal::NoMemory
    }
}

impl Refusal {
    /// The number by which the office prints this refusal, 1 to 27.
    pub fn number(&self) -> u16
        ensures { result ≡ refusal_number self.now }
    {
        match self {
            Refusal::BadRow(..) => 1,
            Refusal::BadHeader => 2,
            Refusal::RowConflict(_) => 3,
            Refusal::UnknownSession => 4,
            Refusal::UnknownPaper => 5,
            Refusal::UnknownCandidate => 6,
            Refusal::UnknownHall => 7,
            Refusal::NoEntry => 8,
            Refusal::AlreadyWithdrawn => 9,
            Refusal::NotWithdrawn => 10,
            Refusal::NotSeatedThere => 11,
            Refusal::NotInSession => 12,
            Refusal::PastClosing(_) => 13,
            Refusal::RefTaken => 14,
            Refusal::UnknownAppeal => 15,
            Refusal::NotOpenAppeal => 16,
            Refusal::TooLate => 17,
            Refusal::NoClash => 18,
            Refusal::NothingToChange => 19,
            Refusal::TooMany => 20,
            Refusal::AppealStands => 21,
            Refusal::NoMemory => 22,
            Refusal::Store => 23,
            Refusal::BadStore => 24,
            Refusal::HallNotOpened => 25,
            Refusal::NotArrangement => 26,
            Refusal::OldSchema => 27,
        }
    }
}
