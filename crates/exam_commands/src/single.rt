//! What a candidate has only once in a session.

/// What a candidate has at most once in a session: a granted clash appeal, a granted arrangement appeal, and an open
/// appeal of each kind.
#[derive(Clone, Copy, PartialEq, Eq, PartialOrd, Ord)]
pub enum Single {
    GrantedClash,
    GrantedArrangement,
    OpenHall,
    OpenClash,
    OpenArrangement,
}
