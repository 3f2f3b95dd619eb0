//! How to take back a change of the facts.
ghost use Rattle.std.specs.Prelude.{◌≡◌};
ghost use Rattle.exam_rules.specs.Orders.{AreInOrder};
ghost use Rattle.exam_rules.specs.Relations.{Relations, relations_of};
ghost use Rattle.exam_changes.specs.TablesBefore.{WereTables};
ghost use Rattle.exam_changes.specs.Undoing as spec;

use crate::before::{Before, TablesBefore};
use crate::kept::KeptRows;
use crate::rows::exchange;
use exam_rules::{Appeal, Entry, Facts, Opening};
use exam_types::{HallCode, Number, PaperCode, Reference, SessionCode};
use std::collections::BTreeMap;

/// How to take back a change of the facts. Taking it back takes no memory, so a command can still be refused after its
/// change was made.
#[derive(Drop)]
pub enum Undo {
    /// Nothing has changed.
    Nothing,
    /// The entry had this row.
    Entry((Number, PaperCode), Entry),
    /// There was no appeal under this key.
    NewAppeal((Number, Reference)),
    /// The appeal had this row.
    Appeal((Number, Reference), Appeal),
    /// The rows of an import or of a decision were these.
    Rows(KeptRows),
    /// The openings were these.
    Openings(BTreeMap<(SessionCode, HallCode), Opening>),
}

impl Undo {
    /// Takes the change back. Takes no memory.
    pub fn take_back(self, facts: &mut Facts)
        requires { spec.IsThere self (relations_of facts.old) }
        ensures { relations_of facts.new ≡ spec.restored self (relations_of facts.old) }
    {
        match self {
            Undo::Nothing => {}
            Undo::Entry(key, entry) => {
                let _ = exchange(&mut facts.entries, key, entry);
            }
            Undo::NewAppeal(key) => {
                let _ = facts.appeals.remove(&key);
            }
            Undo::Appeal(key, appeal) => {
                let _ = exchange(&mut facts.appeals, key, appeal);
            }
            Undo::Rows(kept) => kept.take_back(facts),
            Undo::Openings(rows) => facts.openings = rows,
        }
    }
}

impl Undo {
    /// What each table was before the change, described by what it is after it.
    pub fn tables_before(&self) -> TablesBefore<'_>
        ensures { (r : Relations) → AreInOrder r → spec.IsThere self.now r
            → WereTables result (spec.restored self.now r) r }
    {
        let mut before = TablesBefore::same();
        match self {
            Undo::Nothing => {}
            Undo::Entry(key, _) => before.entries = Before::Row(key),
            Undo::NewAppeal(key) => before.appeals = Before::Row(key),
            Undo::Appeal(key, _) => before.appeals = Before::Row(key),
            Undo::Rows(kept) => before = kept.tables_before(),
            Undo::Openings(rows) => before.openings = Before::Table(rows),
        }
        before
    }
}
