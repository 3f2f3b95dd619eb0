//! Writing what has changed.
ghost use Rattle.std.specs.Prelude.{◌≡◌, false, Err, IsTrue, OnOk, IfErr};
ghost use Rattle.sqlite.specs.Held.{state};
ghost use Rattle.sqlite.specs.State.{HasCleanDisk, Shows, Survives};
ghost use Rattle.sqlite.specs.Steps.{FailsToCommit};
ghost use Rattle.exam_types.specs.declared.refusal.Refusal.TheVariants.{BadStore};
ghost use Rattle.exam_tables.specs.Faults.{refusal_of, is_store_refusal};
ghost use Rattle.exam_tables.specs.Inside.{Becomes, FailsToWrite, IsOurs, Makes};
ghost use Rattle.exam_tables.specs.Transactions.{Commits};
ghost use Rattle.exam_tables.specs.Loaded.{IsMadeHere};
ghost use Rattle.exam_tables.specs.Versions.{FailsToCreate, IsBlank, IsMade, Widens};
ghost use Rattle.exam_tables.specs.Writes.{all_saved};

use crate::differences::{Difference, Keyed};
use crate::faults::refusal_of;
use crate::schema::{ask_nothing, create_tables, has_marks, show_rules, widen_tables};
use crate::tables::appeals::AppealTable;
use crate::tables::arrangements::ArrangementTable;
use crate::tables::candidates::CandidateTable;
use crate::tables::entries::EntryTable;
use crate::tables::halls::HallTable;
use crate::tables::openings::OpeningTable;
use crate::tables::papers::PaperTable;
use crate::tables::seats::SeatTable;
use crate::tables::sessions::SessionTable;
use crate::tables::standing::StandingTable;
use crate::writes::{Writes, delete, put};
use exam_rules::{Appeal, Arrangement, Candidate, Entry, Hall, Opening, Paper, Session};
use exam_types::{HallCode, Number, PaperCode, Reference, Refusal, SessionCode};
use sqlite::{Alter, Connection, Transaction};

/// What turns the tables of one office into those of another: the rows to put, and for the tables that can lose rows
/// also the keys to delete.
#[derive(Drop)]
pub struct Changes<'a> {
    pub sessions: Vec<Keyed<'a, SessionCode, Session>>,
    pub papers: Vec<Keyed<'a, PaperCode, Paper>>,
    pub halls: Vec<Keyed<'a, HallCode, Hall>>,
    pub openings: Difference<'a, (SessionCode, HallCode), Opening>,
    pub candidates: Vec<Keyed<'a, Number, Candidate>>,
    pub entries: Vec<Keyed<'a, (Number, PaperCode), Entry>>,
    pub arrangements: Vec<Keyed<'a, Number, Arrangement>>,
    pub appeals: Vec<Keyed<'a, (Number, Reference), Appeal>>,
    pub standing: Vec<Keyed<'a, (Number, Reference), ()>>,
    pub seats: Difference<'a, (SessionCode, Number), HallCode>,
}

/// Makes the changes in one transaction or not at all. Takes no memory of its own, so only the database can run out of
/// it. Refused with `Store` if a transaction is already open; then nothing changes. After any other refusal nothing has
/// changed as long as the connection stays open. If the failure has shut it, or the machine stops then, the database
/// has all of the changes or none.
pub fn save_changes<S: Alter>(
    conn: &mut Connection<S>,
    changes: &Changes<'_>,
) -> Result<(), Refusal>
    ensures made { Commits (state S.Store conn.old) (state S.Store conn.new) result
        (Becomes (all_saved changes.now)) }
    ensures failed { conn.old.in_transaction ≡ false → HasCleanDisk (state S.Store conn.new)
        → IsOurs (state S.Store conn.old).now → IfErr result
        (FailsToWrite (all_saved changes.now) (state S.Store conn.old) (state S.Store conn.new)) }
    ensures busy { IsTrue conn.old.in_transaction → (result ≡ Err Refusal.Store) × (conn.new ≡ conn.old) }
    ensures shut { (state S.Store conn.old).is_open ≡ false
        → Survives (state S.Store conn.old) (state S.Store conn.new) (λ _. ⊥) }
    ensures ended { conn.old.in_transaction ≡ false → conn.new.in_transaction ≡ false }
    ensures told { IfErr result (λ e. IsTrue (is_store_refusal e)) }
{
    if !conn.is_autocommit() {
        return Err(Refusal::Store);
    }
    // A connection that is shut refuses here, so that no commit is tried over it, not even one of no change.
    ask_nothing(conn)?;
    commit_changes(conn, changes)
}

fn commit_changes<S: Alter>(conn: &mut Connection<S>, changes: &Changes<'_>) -> Result<(), Refusal>
    requires { conn.old.in_transaction ≡ false }
    ensures made { Commits (state S.Store conn.old) (state S.Store conn.new) result
        (Becomes (all_saved changes.now)) }
    ensures failed { HasCleanDisk (state S.Store conn.new) → IsOurs (state S.Store conn.old).now
        → IfErr result
        (FailsToWrite (all_saved changes.now) (state S.Store conn.old) (state S.Store conn.new)) }
    ensures ended { conn.new.in_transaction ≡ false }
    ensures told { IfErr result (λ e. IsTrue (is_store_refusal e)) }
{
    // The contract of `is_autocommit` says that what is seen was committed.
    let _ = conn.is_autocommit();
    let mut tx = conn.transaction();
    write_changes(&mut tx, changes)?;
    commit(tx)
}

/// Puts the rows that are new or have changed, parents first, so that what a row refers to exists. Then deletes those
/// that are gone. Seats that have moved out of a hall have been put before.
fn write_changes<S: Alter>(
    tx: &mut Transaction<'_, S>,
    changes: &Changes<'_>,
) -> Result<(), Refusal>
    ensures same_reference { tx.new.conn.ghost_name ≡ tx.old.conn.ghost_name }
    ensures made { Makes (state S.Store tx.old.conn.now) (state S.Store tx.new.conn.now) result
        (all_saved changes.now) }
{
    let timetable = (
        put::<SessionTable>(&changes.sessions),
        put::<PaperTable>(&changes.papers),
    );
    let halls = (
        put::<HallTable>(&changes.halls),
        put::<OpeningTable>(&changes.openings.put),
    );
    let candidates = (
        put::<CandidateTable>(&changes.candidates),
        (
            put::<EntryTable>(&changes.entries),
            put::<ArrangementTable>(&changes.arrangements),
        ),
    );
    let plans = (
        put::<AppealTable>(&changes.appeals),
        (
            put::<StandingTable>(&changes.standing),
            put::<SeatTable>(&changes.seats.put),
        ),
    );
    let deletes = (
        delete::<SeatTable>(&changes.seats.delete),
        delete::<OpeningTable>(&changes.openings.delete),
    );
    ((timetable, (halls, (candidates, plans))), deletes).write(tx)
}

/// Makes the tables of an office without facts in a database that has no table, index or view, in one transaction or
/// not at all. Refused with `Store` if a transaction is already open. What a refusal leaves is said at `save_changes`.
pub fn save_empty<S: Alter>(conn: &mut Connection<S>) -> Result<(), Refusal>
    ensures made { Commits (state S.Store conn.old) (state S.Store conn.new) result
        (λ old new. IsBlank old → IsMade new) }
    ensures failed { HasCleanDisk (state S.Store conn.new) → IsBlank (state S.Store conn.old).now
        → IfErr result (FailsToCreate (state S.Store conn.old) (state S.Store conn.new)) }
    ensures autocommit { OnOk result (conn.new.in_transaction ≡ false) }
    ensures ended { conn.old.in_transaction ≡ false → conn.new.in_transaction ≡ false }
    ensures told { IfErr result (λ e. IsTrue (is_store_refusal e)) }
{
    if !conn.is_autocommit() {
        return Err(Refusal::Store);
    }
    let mut tx = conn.transaction();
    create_tables(&mut tx)?;
    commit(tx)
}

/// Turns the tables of an older version, whatever rows they have, into those of the newest, in one transaction or not
/// at all. Refused with `Store` if a transaction is already open. What a refusal leaves is said at `save_changes`.
pub fn save_widened<S: Alter>(conn: &mut Connection<S>) -> Result<(), Refusal>
    ensures made { Commits (state S.Store conn.old) (state S.Store conn.new) result Widens }
    ensures failed { HasCleanDisk (state S.Store conn.new) → IsMadeHere (state S.Store conn.old).now
        → IfErr result (FailsToCreate (state S.Store conn.old) (state S.Store conn.new)) }
    ensures still { HasCleanDisk (state S.Store conn.new) → IfErr result (λ e. e ≡ BadStore
        → Survives (state S.Store conn.old) (state S.Store conn.new) (λ _. ⊥)) }
    ensures ended { conn.old.in_transaction ≡ false → conn.new.in_transaction ≡ false }
    ensures told { IfErr result (λ e. IsTrue (is_store_refusal e)) }
{
    if !conn.is_autocommit() {
        return Err(Refusal::Store);
    }
    show_rules(conn);
    let has_marks = has_marks(conn);
    let mut tx = conn.transaction();
    widen_tables(&mut tx, has_marks)?;
    commit(tx)
}

/// Commits what was written. A refusal reports the error that the database gave.
fn commit<S: Alter>(tx: Transaction<'_, S>) -> Result<(), Refusal>
    ensures ended { tx.exit.0.now.in_transaction ≡ false }
    ensures ok { HasCleanDisk (state S.Store tx.exit.0.now)
        → OnOk result (IsTrue (state S.Store tx.entry.conn.now).in_transaction
        × Shows (state S.Store tx.entry.conn.now) (state S.Store tx.exit.0.now)
        (state S.Store tx.entry.conn.now).now (state S.Store tx.entry.conn.now).now false) }
    ensures failed { HasCleanDisk (state S.Store tx.exit.0.now)
        → IfErr result (λ e. (error : _) × (e ≡ refusal_of error)
        × FailsToCommit (state S.Store tx.entry.conn.now) (state S.Store tx.exit.0.now) error) }
    ensures survives { Survives (state S.Store tx.entry.conn.now) (state S.Store tx.exit.0.now)
        (λ db. db ≡ (state S.Store tx.entry.conn.now).now.trees) }
    ensures told { IfErr result (λ e. IsTrue (is_store_refusal e)) }
{
    match tx.commit() {
        Ok(()) => Ok(()),
        Err(error) => Err(refusal_of(error)),
    }
}
