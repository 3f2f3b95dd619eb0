//! The machine stops at any call of the files: a command is there whole or not at all, and what was answered is there.
use super::disks::Unsynced;
use super::refusing::{INIT, NOBODY_SITS, ONE_SITS, TWO_SIT, Turn, refuse_each_turn};
use exam_school::{FIRST_TAKES_A, PEOPLE, SECOND_NEEDS_A, TIMETABLE};
use exam_scripts::days::{
    BARRED_FROM_B, FROM_VERSION_1, FROM_VERSION_2, MOVED_TWICE, OF_VERSION_1, OF_VERSION_2,
    THREE_COME, TWO_SESSIONS, WITHDRAWN,
};
use std::test::Fail;

/// What was written and not synced is lost, kept, or kept in part.
const STOPPED: &[Unsynced] = &[
    Unsynced::Lost,
    Unsynced::Kept,
    Unsynced::Torn(true),
    Unsynced::Torn(false),
];

/// A candidate who is seated by a chain, a grant, a withdrawal, and migrations; a standing grant is among the tables of the
/// last one.
const TURNS: &[Turn<'_>] = &[
    (ONE_SITS, SECOND_NEEDS_A),
    (TWO_SIT, BARRED_FROM_B),
    (NOBODY_SITS, WITHDRAWN),
    (
        &[
            INIT,
            TIMETABLE,
            PEOPLE,
            FIRST_TAKES_A,
            SECOND_NEEDS_A,
            OF_VERSION_1,
        ],
        FROM_VERSION_1,
    ),
    (
        &[
            INIT,
            TIMETABLE,
            PEOPLE,
            TWO_SESSIONS,
            THREE_COME,
            MOVED_TWICE,
            OF_VERSION_2,
        ],
        FROM_VERSION_2,
    ),
];

#[test]
fn commands_are_carried_out_whole_or_not_at_all(rt: HostRuntime) -> Result<(), Fail> {
    refuse_each_turn(&rt, TURNS, STOPPED)
}
