//! The appeals of a session, read from the database one by one.
ghost use Rattle.std.specs.Prelude.{◌≡◌, false, Some, IsTrue, IfOk, IfErr};
ghost use Rattle.sqlite.specs.Held.{state};
ghost use Rattle.sqlite.specs.State.{HasCleanDisk, Survives};
ghost use Rattle.exam_views.specs.Views.{appeal_row, appeals_of};
ghost use Rattle.exam_tables.specs.Appeals.{FailsToConfirm};
ghost use Rattle.exam_tables.specs.Faults.{is_store_refusal};
ghost use Rattle.exam_tables.specs.Loaded.{OnlyReads};
ghost use Rattle.exam_store.specs.InTurn as spec;

use crate::store::Store;
use exam_office::{AppealRow, AppealSource, state_of};
use exam_rules::Appeal;
use exam_tables::confirm_appeal;
use exam_types::{Number, Reference, Refusal, SessionCode};
use sqlite::{Alter, Connection};
use std::alloc::Global;
use std::ops::Bound;

/// The appeals of a session, by candidate and reference. Each is read from the database by its key. That is refused
/// with `BadStore` if the database shows another appeal than the office has, or none; with `NoMemory`; with `Store` if
/// the query fails otherwise. After a refusal the same appeal is the next one.
pub struct AppealRows<'s, S: Alter> {
    store: &'s mut Store<S>,
    alloc: Global,
    session: SessionCode,
    from: Bound<(Number, Reference)>,
}

impl<'s, S: Alter> AppealRows<'s, S> {
    pub(crate) fn new(
        store: &'s mut Store<S>,
        alloc: Global,
        session: SessionCode,
    ) -> AppealRows<'s, S>
        ensures held { (spec.store_held result).ghost_name ≡ store.entry.ghost_name }
        ensures same { (spec.store_held result).now ≡ store.old }
        ensures rows { spec.rows_to_come result ≡ appeals_of store.old.office.relations session }
    {
        AppealRows {
            store,
            alloc,
            session,
            from: Bound::Unbounded,
        }
    }
}

impl<S: Alter> Drop for AppealRows<'_, S> {
    fn drop(self)
        ensures { self.exit.0.now ≡ (spec.store_held self.entry).now }
    {
        let AppealRows {
            store: _,
            alloc: _,
            session: _,
            from: _,
        } = self;
    }
}

impl<S: Alter> AppealSource for AppealRows<'_, S> {
    ghost use Rattle.std.specs.Prelude.{◌≡◌, ⊤, refl};
    ghost use Rattle.std.proofs.Common.{◌∙◌};
    ghost use Rattle.exam_store.specs.InTurn as spec;
    ghost use Rattle.exam_store.specs.OnlyRead.{OnlyIsRead, read_itself, read_then};

    ghost coming = { spec.rows_to_come };

    ghost IsHonest = { λ r. ⊤ };

    ghost Refuses = { λ a b e. spec.FailsToRead S.Store (spec.store_held a).now (spec.store_held b).now e };

    ghost Stays = { λ a b. ((spec.store_held b).ghost_name ≡ (spec.store_held a).ghost_name)
        × OnlyIsRead S.Store (spec.store_held a).now (spec.store_held b).now };

    fn next(&mut self) -> Result<Option<AppealRow>, Refusal> {
        let row = self
            .store
            .read_appeal(self.alloc, &self.session, self.from)?;
        self.from = bound_after(self.from, &row);
        Ok(row)
    }

    ghost stays_itself = { λ a. (refl, read_itself _ a.store.now) };

    ghost stays_then = { λ a b c first second. (
      second.0 ∙ first.0,
      read_then _ a.store.now b.store.now c.store.now first.1 second.1,
    ) };

    ghost refuses_then = { λ a b c e stays why.
        spec.fails_then _ a.store.now b.store.now c.store.now e stays.1 why };
}

/// From where the next appeal is looked for, after this one.
fn bound_after(
    from: Bound<(Number, Reference)>,
    row: &Option<AppealRow>,
) -> Bound<(Number, Reference)>
    ensures { result ≡ spec.bound_after from row.now }
{
    match row {
        Some(row) => Bound::Excluded((row.number, row.reference)),
        None => from,
    }
}

/// An appeal of the office, as a register lists it, if the database confirms it.
pub(crate) fn confirmed_row<S: Alter>(
    alloc: Global,
    conn: &mut Connection<S>,
    key: &(Number, Reference),
    appeal: &Appeal,
) -> Result<Option<AppealRow>, Refusal>
    ensures row { IfOk result (λ row. row ≡ Some (appeal_row (key.now, appeal.now))) }
    ensures failed { HasCleanDisk (state S.Store conn.new) → IfErr result
        (FailsToConfirm (key.now, appeal.now) (state S.Store conn.old) (state S.Store conn.new)) }
    ensures left { HasCleanDisk (state S.Store conn.new)
        → OnlyReads (state S.Store conn.old) (state S.Store conn.new) result }
    ensures mode { conn.old.in_transaction ≡ false → conn.new.in_transaction ≡ false }
    ensures survives { Survives (state S.Store conn.old) (state S.Store conn.new) (λ _. ⊥) }
    ensures told { IfErr result (λ e. IsTrue (is_store_refusal e)) }
{
    confirm_appeal(alloc, conn, key, appeal)?;
    Ok(Some(row_of(key, appeal)))
}

fn row_of(key: &(Number, Reference), appeal: &Appeal) -> AppealRow
    ensures { result ≡ appeal_row (key.now, appeal.now) }
{
    AppealRow {
        number: key.0,
        reference: key.1,
        subject: appeal.subject,
        state: state_of(&appeal.status),
        lodged: appeal.lodged,
    }
}
