//! Rows that replace others, which are kept so that they can be put back.
ghost use Rattle.std.specs.Prelude.{◌≡◌, List, OnErr, OnOk};
ghost use Rattle.exam_types.specs.Refusals.{OnlyMemory};
ghost use Rattle.exam_rules.specs.Relations.{Relations, put_row, relations_of};
ghost use Rattle.exam_commands.specs.Exchanges as exchanges;
ghost use Rattle.exam_changes.specs.TablesBefore.{WereTables};
ghost use Rattle.exam_changes.specs.Undoing as spec;

use crate::before::{Before, TablesBefore};
use crate::rows::{put, set};
use exam_rules::{Appeal, Arrangement, Candidate, Entry, Facts, Hall, Opening, Paper, Session};
use exam_types::{HallCode, Number, PaperCode, Reference, Refusal, SessionCode};
use std::alloc::Global;
use std::collections::BTreeMap;

/// For each key that was changed, the row that it had, or none if it had none.
pub type Kept<K, V> = BTreeMap<K, Option<V>>;

/// The rows that an import or a decision has changed, as they were.
#[derive(Drop)]
pub struct KeptRows {
    pub sessions: Kept<SessionCode, Session>,
    pub papers: Kept<PaperCode, Paper>,
    pub halls: Kept<HallCode, Hall>,
    pub openings: Kept<(SessionCode, HallCode), Opening>,
    pub candidates: Kept<Number, Candidate>,
    pub entries: Kept<(Number, PaperCode), Entry>,
    pub arrangements: Kept<Number, Arrangement>,
    pub appeals: Kept<(Number, Reference), Appeal>,
    pub standing: Kept<(Number, Reference), ()>,
}

impl KeptRows {
    /// None has been changed. Takes no memory.
    pub fn none(alloc: Global) -> Self
        ensures { spec.AreNone result }
    {
        KeptRows {
            sessions: BTreeMap::new(alloc),
            papers: BTreeMap::new(alloc),
            halls: BTreeMap::new(alloc),
            openings: BTreeMap::new(alloc),
            candidates: BTreeMap::new(alloc),
            entries: BTreeMap::new(alloc),
            arrangements: BTreeMap::new(alloc),
            appeals: BTreeMap::new(alloc),
            standing: BTreeMap::new(alloc),
        }
    }

    /// Puts the rows back as they were. Takes no memory.
    pub fn take_back(self, facts: &mut Facts)
        requires { spec.AreThere self (relations_of facts.old) }
        ensures { relations_of facts.new ≡ spec.with_kept self (relations_of facts.old) }
    {
        put_back(&mut facts.sessions, self.sessions);
        put_back(&mut facts.papers, self.papers);
        put_back(&mut facts.halls, self.halls);
        put_back(&mut facts.openings, self.openings);
        put_back(&mut facts.candidates, self.candidates);
        put_back(&mut facts.entries, self.entries);
        put_back(&mut facts.arrangements, self.arrangements);
        put_back(&mut facts.appeals, self.appeals);
        put_back(&mut facts.standing, self.standing);
    }

    /// What each table was before these changes, described by what it is after them.
    pub fn tables_before(&self) -> TablesBefore<'_>
        ensures { (r : Relations) → spec.AreThere self.now r
            → WereTables result (spec.with_kept self.now r) r }
    {
        TablesBefore {
            sessions: Before::Rows(&self.sessions),
            papers: Before::Rows(&self.papers),
            halls: Before::Rows(&self.halls),
            openings: Before::Rows(&self.openings),
            candidates: Before::Rows(&self.candidates),
            entries: Before::Rows(&self.entries),
            arrangements: Before::Rows(&self.arrangements),
            appeals: Before::Rows(&self.appeals),
            standing: Before::Rows(&self.standing),
        }
    }
}

/// Sets a key to a row, and keeps what the key had unless it has been changed before. After a refusal the rows are as
/// before, and nothing more is kept.
pub fn put_kept<K: Ord + Copy, V: Drop>(
    rows: &mut BTreeMap<K, V>,
    kept: &mut Kept<K, V>,
    key: K,
    row: V,
) -> Result<(), Refusal>
    ensures ok { OnOk result (rows.new.entries ≡ put_row K.cmp rows.old.entries key row) }
    ensures back { exchanges.TellsApart K.cmp → (first : List (K × V))
        → exchanges.GoBack K.cmp kept.old.entries rows.old.entries first
        → exchanges.GoBack K.cmp kept.new.entries rows.new.entries first }
    ensures err { exchanges.TellsApart K.cmp → OnErr result (rows.new.entries ≡ rows.old.entries) }
    ensures err_kept { OnErr result (kept.new.entries ≡ kept.old.entries) }
    ensures memory { OnlyMemory result }
{
    // The contract of `len` says that the keys rise.
    let (_, _) = (rows.len(), kept.len());
    if kept.contains_key(&key) {
        return put(rows, key, row);
    }
    let old = rows.insert(key, row)?;
    match kept.insert(key, old) {
        Ok(_) => Ok(()),
        Err(refused) => {
            set(rows, key, refused.value.1);
            Err(Refusal::NoMemory)
        }
    }
}

/// Puts the rows back as they were. Takes no memory.
fn put_back<K: Ord + Copy, V: Drop>(rows: &mut BTreeMap<K, V>, kept: Kept<K, V>)
    requires exact { exchanges.TellsApart K.cmp }
    requires there { exchanges.HasRows K.cmp kept.entries rows.old.entries }
    ensures { rows.new.entries ≡ exchanges.put_back K.cmp rows.old.entries kept.entries }
{
    // The contract of `len` says that the keys rise.
    let _ = rows.len();
    for (key, row) in kept {
        set(rows, key, row);
    }
}
