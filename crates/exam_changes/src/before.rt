//! What the tables of an office were before a command, described by what they are after it.
ghost use Rattle.std.specs.Prelude.{◌≡◌};
ghost use Rattle.exam_changes.specs.TablesBefore as spec;

use exam_rules::{Appeal, Arrangement, Candidate, Entry, Hall, Opening, Paper, Seats, Session};
use exam_types::{HallCode, Number, PaperCode, Reference, SessionCode};
use std::collections::BTreeMap;

/// What a table was before a command.
#[derive(Drop)]
pub enum Before<'a, K: Ord, V> {
    /// The table as it is after the command.
    Same,
    /// The table as it is after the command, except for the row at this key. The table has that row after the command.
    Row(&'a K),
    /// The table as it is after the command, except for the rows at these keys. The table has them all after the
    /// command. Before it each key had this row, or none.
    Rows(&'a BTreeMap<K, Option<V>>),
    /// This table.
    Table(&'a BTreeMap<K, V>),
}

/// What each table of facts was before a command.
#[derive(Drop)]
pub struct TablesBefore<'a> {
    pub sessions: Before<'a, SessionCode, Session>,
    pub papers: Before<'a, PaperCode, Paper>,
    pub halls: Before<'a, HallCode, Hall>,
    pub openings: Before<'a, (SessionCode, HallCode), Opening>,
    pub candidates: Before<'a, Number, Candidate>,
    pub entries: Before<'a, (Number, PaperCode), Entry>,
    pub arrangements: Before<'a, Number, Arrangement>,
    pub appeals: Before<'a, (Number, Reference), Appeal>,
    pub standing: Before<'a, (Number, Reference), ()>,
}

impl TablesBefore<'_> {
    /// Each table is the same as after the command.
    pub fn same() -> Self
        ensures { result ≡ spec.all_same }
    {
        TablesBefore {
            sessions: Before::Same,
            papers: Before::Same,
            halls: Before::Same,
            openings: Before::Same,
            candidates: Before::Same,
            entries: Before::Same,
            arrangements: Before::Same,
            appeals: Before::Same,
            standing: Before::Same,
        }
    }
}

/// What the plans were before a command.
#[derive(Drop)]
pub enum PlansBefore<'a> {
    /// The plans as they are after the command.
    Same,
    /// The plans of the sessions that the command reads: first as they were before it, and then as they are after it.
    Plans(&'a Seats, &'a Seats),
}
