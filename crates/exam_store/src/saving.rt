//! Saving what a command changes.
ghost use Rattle.std.specs.Prelude.{◌≡◌, List, false, IsTrue, IfOk, IfErr};
ghost use Rattle.sqlite.specs.Held.{state};
ghost use Rattle.sqlite.specs.State.{Survives};
ghost use Rattle.exam_types.specs.Refusals.{OnlyMemory};
ghost use Rattle.exam_rules.specs.Orders.{KeysRise};
ghost use Rattle.exam_rules.specs.Relations.{has_row, remove_row, seat_cmp};
ghost use Rattle.exam_commands.specs.Exchanges.{HasRows, put_back};
ghost use Rattle.exam_commands.specs.Good.{IsGood};
ghost use Rattle.exam_commands.specs.KeptRows.{KeepsRows};
ghost use Rattle.exam_commands.specs.State.{Seats as SeatRows};
ghost use Rattle.exam_changes.specs.TablesBefore.{WasTable, WerePlans};
ghost use Rattle.exam_tables.specs.Differences.{AreExact};
ghost use Rattle.exam_tables.specs.Faults.{is_store_refusal};
ghost use Rattle.exam_tables.specs.Transactions.{Commits};
ghost use Rattle.exam_store.specs.Kept.{Rekeeps};
ghost use Rattle.exam_store.specs.Saves.{RefusesSaving, TurnsTable, TurnsTables};

use exam_office::{Before, Draft, PlansBefore};
use exam_tables::{Changes, Difference, difference_of, save_changes};
use exam_types::{HallCode, Number, Refusal, SessionCode};
use sqlite::{Alter, Connection};
use std::alloc::{AllocError, Global};
use std::collections::BTreeMap;

/// Turns the tables of the office before a command into those of the office after it, in one transaction or not at all.
/// A command deletes rows of a good office only from the openings and the seats.
pub fn save<S: Alter>(alloc: Global, conn: &mut Connection<S>, draft: &Draft) -> Result<(), Refusal>
    requires { IsGood draft.now.before → KeepsRows draft.now.before.relations draft.now.after.relations }
    ensures made { Commits (state S.Store conn.old) (state S.Store conn.new) result
        (Rekeeps draft.now.before draft.now.after) }
    ensures failed { conn.old.in_transaction ≡ false → RefusesSaving draft.now.before draft.now.after
        (state S.Store conn.old) (state S.Store conn.new) result }
    ensures shut { (state S.Store conn.old).is_open ≡ false
        → Survives (state S.Store conn.old) (state S.Store conn.new) (λ _. ⊥) }
    ensures ended { conn.old.in_transaction ≡ false → conn.new.in_transaction ≡ false }
    ensures told { IfErr result (λ e. IsTrue (is_store_refusal e)) }
{
    // What a good office refers to exists, before the changes and after them.
    draft.show_good();
    let changes = changes_of(alloc, draft)?;
    save_changes(conn, &changes)
}

/// What turns the tables of the office before a command into those of the office after it. Walks over a table only if
/// the draft has its old rows as a table, and otherwise looks up the rows that the draft names. A table that loses no
/// row needs only puts.
fn changes_of(alloc: Global, draft: &Draft) -> Result<Changes<'_>, Refusal>
    requires { IsGood draft.now.before → KeepsRows draft.now.before.relations draft.now.after.relations }
    ensures turns { IfOk result (TurnsTables draft.now.before draft.now.after) }
    ensures memory { OnlyMemory result }
{
    // The office before the command is good, and its keys rise.
    draft.show_good();
    let before = draft.tables_before();
    let after = draft.facts();
    Ok(Changes {
        sessions: difference_since(alloc, before.sessions, &after.sessions)?.put,
        papers: difference_since(alloc, before.papers, &after.papers)?.put,
        halls: difference_since(alloc, before.halls, &after.halls)?.put,
        openings: difference_since(alloc, before.openings, &after.openings)?,
        candidates: difference_since(alloc, before.candidates, &after.candidates)?.put,
        entries: difference_since(alloc, before.entries, &after.entries)?.put,
        arrangements: difference_since(alloc, before.arrangements, &after.arrangements)?.put,
        appeals: difference_since(alloc, before.appeals, &after.appeals)?.put,
        standing: difference_since(alloc, before.standing, &after.standing)?.put,
        seats: seats_since(alloc, draft.plans_before())?,
    })
}

/// What turns the table before a command into the one after it.
fn difference_since<'a, K: Ord, V: PartialEq>(
    alloc: Global,
    before: Before<'a, K, V>,
    after: &'a BTreeMap<K, V>,
) -> Result<Difference<'a, K, V>, AllocError>
    ensures { (old : List (K × V)) → AreExact K.cmp V.eq → KeysRise K.cmp old
        → WasTable K.cmp before.entry old after.now.entries
        → IfOk result (TurnsTable K.cmp old after.now.entries) }
{
    match before {
        Before::Same => Ok(no_difference(alloc)),
        Before::Row(key) => row_put(alloc, key, after),
        Before::Rows(was) => rows_put(alloc, was, after),
        Before::Table(old) => difference_of(alloc, old, after),
    }
}

/// What turns the seats before a command into those after it, by the plans that the command may have changed.
fn seats_since<'a>(
    alloc: Global,
    before: PlansBefore<'a>,
) -> Result<Difference<'a, (SessionCode, Number), HallCode>, AllocError>
    ensures { (old new : SeatRows) → KeysRise seat_cmp old → KeysRise seat_cmp new
        → WerePlans before.entry old new → IfOk result (TurnsTable seat_cmp old new) }
{
    match before {
        PlansBefore::Same => Ok(no_difference(alloc)),
        PlansBefore::Plans(old, new) => difference_of(alloc, old, new),
    }
}

/// A difference that leaves the table as it is.
fn no_difference<'a, K: Ord, V>(alloc: Global) -> Difference<'a, K, V>
    ensures { (rows : List (K × V)) → TurnsTable K.cmp rows rows result }
{
    Difference {
        put: Vec::new(alloc),
        delete: Vec::new(alloc),
    }
}

/// The difference that puts the row at this key, which the table has.
fn row_put<'a, K: Ord, V: PartialEq>(
    alloc: Global,
    key: &'a K,
    after: &'a BTreeMap<K, V>,
) -> Result<Difference<'a, K, V>, AllocError>
    ensures { (old : List (K × V)) → AreExact K.cmp V.eq → KeysRise K.cmp old
        → IsTrue (has_row K.cmp after.now.entries key.now)
        → remove_row K.cmp old key.now ≡ remove_row K.cmp after.now.entries key.now
        → IfOk result (TurnsTable K.cmp old after.now.entries) }
{
    let mut put = Vec::new(alloc);
    if let Some(row) = after.get(key) {
        put.push((key, row))?;
    }
    Ok(Difference {
        put,
        delete: Vec::new(alloc),
    })
}

/// The difference that puts the rows at these keys. The table has them all.
fn rows_put<'a, K: Ord, V: PartialEq>(
    alloc: Global,
    was: &'a BTreeMap<K, Option<V>>,
    after: &'a BTreeMap<K, V>,
) -> Result<Difference<'a, K, V>, AllocError>
    ensures { (old : List (K × V)) → AreExact K.cmp V.eq → KeysRise K.cmp old
        → HasRows K.cmp was.now.entries after.now.entries
        → old ≡ put_back K.cmp after.now.entries was.now.entries
        → IfOk result (TurnsTable K.cmp old after.now.entries) }
{
    // The contract of `len` says that the keys rise.
    let (_, _) = (was.len(), after.len());
    let mut put = Vec::new(alloc);
    for (key, _) in was {
        if let Some(row) = after.get(key) {
            put.push((key, row))?;
        }
    }
    Ok(Difference {
        put,
        delete: Vec::new(alloc),
    })
}
