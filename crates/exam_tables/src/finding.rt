//! An appeal of the office, read by its key.
ghost use Rattle.std.specs.Prelude.{◌≡◌, ◌⊎◌, [], ◌∷◌, false, length, IsTrue, IfErr, OnOk};
ghost use Rattle.sqlite.specs.Held.{state};
ghost use Rattle.sqlite.specs.State.{HasCleanDisk, Survives};
ghost use Rattle.exam_types.specs.declared.refusal.Refusal.TheVariants.{BadStore, NoMemory};
ghost use Rattle.exam_types.specs.Refusals.{OnlyMemory};
ghost use Rattle.exam_tables.specs.Appeals.{FailsToConfirm, ShowsAppeal, same_appeal};
ghost use Rattle.exam_tables.specs.Faults.{is_store_refusal};
ghost use Rattle.exam_tables.specs.Loaded.{OnlyReads};
ghost use Rattle.exam_tables.specs.Rows.{appeal_row, IsAppeal};

use crate::counting::show_form;
use crate::faults::refusal_of;
use crate::table::StoredRows;
use crate::tables::appeals::AppealTable;
use exam_rules::Appeal;
use exam_types::{Number, Reference, Refusal};
use sqlite::types::ValueRef;
use sqlite::{Alter, Connection, Row};
use std::alloc::Global;

/// Reads the appeal with this key, and compares it with the given one. Refused with `BadStore` if the database shows
/// another one or none, or lacks the table or a column; with `NoMemory`; with `Store` if the query fails otherwise.
/// Nothing is written, but a query that fails may undo a transaction that is open.
pub fn confirm_appeal<S: Alter>(
    alloc: Global,
    conn: &mut Connection<S>,
    key: &(Number, Reference),
    appeal: &Appeal,
) -> Result<(), Refusal>
    ensures shown { HasCleanDisk (state S.Store conn.new) → OnOk result
        (ShowsAppeal (key.now, appeal.now) (state S.Store conn.old) (state S.Store conn.new)) }
    ensures failed { HasCleanDisk (state S.Store conn.new) → IfErr result
        (FailsToConfirm (key.now, appeal.now) (state S.Store conn.old) (state S.Store conn.new)) }
    ensures left { HasCleanDisk (state S.Store conn.new)
        → OnlyReads (state S.Store conn.old) (state S.Store conn.new) result }
    ensures mode { conn.old.in_transaction ≡ false → conn.new.in_transaction ≡ false }
    ensures survives { Survives (state S.Store conn.old) (state S.Store conn.new) (λ _. ⊥) }
    ensures told { IfErr result (λ e. IsTrue (is_store_refusal e)) }
{
    show_form(key, appeal);
    match conn.query_all(
        "SELECT number, ref, session, kind, target, needs, extra, reason, state, answer, lodged FROM appeal WHERE number = ?1 AND ref = ?2",
        &[
            ValueRef::Int(i64::from(key.0.get())),
            ValueRef::Text(key.1.as_bytes()),
        ],
    ) {
        Ok(rows) => confirm_row(alloc, rows.as_slice(), key, appeal),
        Err(error) => Err(refusal_of(error)),
    }
}

/// Compares the only row with the stored form of this appeal. Refused with `BadStore` if there is another row or none.
fn confirm_row(
    alloc: Global,
    rows: &[Row],
    key: &(Number, Reference),
    appeal: &Appeal,
) -> Result<(), Refusal>
    ensures one { OnOk result (length rows.now ≡ 1) }
    ensures ok { (row : _) → rows.now ≡ row ∷ [] → OnOk result (row ≡ appeal_row key.now appeal.now) }
    ensures bad { IsAppeal key.now appeal.now → rows.now ≡ appeal_row key.now appeal.now ∷ []
        → OnlyMemory result }
    ensures refusal { IfErr result (λ e. (e ≡ NoMemory) ⊎ (e ≡ BadStore)) }
{
    match rows {
        [row] => confirm_stored(alloc, row, key, appeal),
        _ => Err(Refusal::BadStore),
    }
}

fn confirm_stored(
    alloc: Global,
    row: &Row,
    key: &(Number, Reference),
    appeal: &Appeal,
) -> Result<(), Refusal>
    ensures ok { OnOk result (row.now ≡ appeal_row key.now appeal.now) }
    ensures bad { IsAppeal key.now appeal.now → row.now ≡ appeal_row key.now appeal.now
        → OnlyMemory result }
    ensures refusal { IfErr result (λ e. (e ≡ NoMemory) ⊎ (e ≡ BadStore)) }
{
    let found = AppealTable::read(alloc, row)?;
    if is_same(&found, key, appeal) {
        Ok(())
    } else {
        Err(Refusal::BadStore)
    }
}

fn is_same(
    found: &((Number, Reference), Appeal),
    key: &(Number, Reference),
    appeal: &Appeal,
) -> bool
    ensures { result ≡ same_appeal found.now (key.now, appeal.now) }
{
    found.0 == *key && found.1 == *appeal
}
