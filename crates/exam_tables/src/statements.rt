//! Statements, with their errors reported as refusals.
ghost use Rattle.std.specs.Prelude.{◌≡◌, ◌⊎◌, [], ◌∷◌, IsTrue, OnOk, IfOk, IfErr, IsPermutation};
ghost use Rattle.sqlite.specs.Held.{state};
ghost use Rattle.sqlite.specs.State.{CommitsShowing, FailsToQuery, HasCleanDisk, Shown, Survives};
ghost use Rattle.sqlite.specs.Values.{bound};
ghost use Rattle.std.specs.BTreeMap.{ContainsKey};
ghost use Rattle.exam_types.specs.declared.refusal.Refusal.TheVariants.{NoMemory, BadStore};
ghost use Rattle.exam_rules.specs.Orders.{KeysRise};
ghost use Rattle.exam_tables.specs.Faults.{refusal_of, is_store_refusal};
ghost use Rattle.exam_tables.specs.Inside.{Runs};

use crate::faults::refusal_of;
use exam_types::Refusal;
use sqlite::types::ValueRef;
use sqlite::{Alter, Connection, Row, Transaction};
use std::collections::BTreeMap;

/// Runs a statement that shows no rows. A refusal reports the error that the database gave.
pub fn run<S: Alter>(
    tx: &mut Transaction<'_, S>,
    sql: &str,
    params: &[ValueRef<'_>],
) -> Result<(), Refusal>
    ensures same_reference { tx.new.conn.ghost_name ≡ tx.old.conn.ghost_name }
    ensures runs { Runs sql.now (bound params.now) (state S.Store tx.old.conn.now) (state S.Store tx.new.conn.now)
        result }
{
    match tx.execute(sql, params) {
        Ok(_) => Ok(()),
        Err(error) => Err(refusal_of(error)),
    }
}

/// All rows of a query. A refusal reports the error that the database gave.
pub fn all_rows<S: Alter>(conn: &mut Connection<S>, sql: &str) -> Result<Vec<Row>, Refusal>
    ensures shown { HasCleanDisk (state S.Store conn.new)
        → IfOk result (λ rows. Shown sql.now [] (state S.Store conn.old) (state S.Store conn.new) rows.items) }
    ensures failed { HasCleanDisk (state S.Store conn.new)
        → IfErr result (λ e. (error : _) × (e ≡ refusal_of error)
        × FailsToQuery sql.now [] (state S.Store conn.old) (state S.Store conn.new) error) }
    ensures survives { Survives (state S.Store conn.old) (state S.Store conn.new)
        (CommitsShowing sql.now [] (state S.Store conn.old)) }
    ensures told { IfErr result (λ e. IsTrue (is_store_refusal e)) }
{
    match conn.query_all(sql, &[]) {
        Ok(rows) => Ok(rows),
        Err(error) => Err(refusal_of(error)),
    }
}

/// Adds a row that was read. Refused with `BadStore` if its key comes twice.
pub fn add_row<K: Ord + Drop, V: Drop>(
    table: &mut BTreeMap<K, V>,
    key: K,
    row: V,
) -> Result<(), Refusal>
    ensures ok { OnOk result (IsPermutation ((key, row) ∷ table.old.entries) table.new.entries) }
    ensures rises { KeysRise K.cmp table.new.entries }
    ensures bad { IfErr result (λ e. (e ≡ NoMemory) ⊎ ((e ≡ BadStore) × ContainsKey K.cmp table.old key)) }
    ensures told { IfErr result (λ e. IsTrue (is_store_refusal e)) }
{
    match table.insert(key, row) {
        Ok(None) => Ok(()),
        Ok(Some(_)) => Err(Refusal::BadStore),
        Err(_) => Err(Refusal::NoMemory),
    }
}
