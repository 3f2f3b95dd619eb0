//! Reading a table a row at a time, so that no list of its rows is made.
ghost use Rattle.std.specs.Prelude.{◌≡◌, ◌⊎◌, ◌++◌, List, [], ◌∷◌, IsTrue, IfErr, OnOk};
ghost use Rattle.sqlite_value.specs.Order.{Row as Columns};
ghost use Rattle.sqlite.specs.Given.{HasGiven};
ghost use Rattle.sqlite.specs.Held.{state};
ghost use Rattle.sqlite.specs.State.{HasCleanDisk, Survives};
ghost use Rattle.exam_types.specs.declared.refusal.Refusal.TheVariants.{NoMemory, BadStore};
ghost use Rattle.exam_tables.specs.Faults.{is_store_refusal};
ghost use Rattle.exam_tables.specs.Loaded.{AreRowsOf};
ghost use Rattle.exam_tables.specs.Parts.{LoadingBy, table_part};
ghost use Rattle.exam_tables.specs.Scanned.{BeginNone, Goes, Scans};

use crate::faults::refusal_of;
use crate::statements::add_row;
use crate::table::StoredRows;
use exam_types::Refusal;
use sqlite::{Alter, Connection, Row, Rows};
use std::alloc::Global;
use std::collections::BTreeMap;

/// The whole table. Refused as `Loads::load` says, with `BadStore` also if a row does not have the forms of its
/// columns, or two rows have one key.
pub fn load_rows<T: StoredRows, S: Alter>(
    alloc: Global,
    conn: &mut Connection<S>,
) -> Result<BTreeMap<T::Key, T::Value>, Refusal>
    ensures { LoadingBy T.form.load S.Store conn.old conn.new result (table_part T.Key.cmp T.form) }
{
    let table = scan_table::<T, S>(alloc, conn)?;
    table.ok_or(Refusal::BadStore)
}

/// The whole table, or none if a row does not have the forms of its columns, or two rows have one key. In that case the
/// query ends at the first such row. Refused as `Loads::load` says.
pub fn scan_table<T: StoredRows, S: Alter>(
    alloc: Global,
    conn: &mut Connection<S>,
) -> Result<Option<BTreeMap<T::Key, T::Value>>, Refusal>
    ensures scans { HasCleanDisk (state S.Store conn.new)
        → Scans S.Store T.Key.cmp T.form conn.old conn.new result }
    ensures survives { Survives (state S.Store conn.old) (state S.Store conn.new) (λ _. ⊥) }
    ensures early { HasCleanDisk (state S.Store conn.new) → HasCleanDisk (state S.Store conn.old) }
    ensures told { IfErr result (λ e. IsTrue (is_store_refusal e)) }
{
    match conn.query(T::load_text(), &[]) {
        Ok(mut rows) => scan_rows::<T, S>(alloc, &mut rows),
        Err(error) => Err(refusal_of(error)),
    }
}

/// Reads each row of the query into a map.
fn scan_rows<T: StoredRows, S: Alter>(
    alloc: Global,
    rows: &mut Rows<'_, S>,
) -> Result<Option<BTreeMap<T::Key, T::Value>>, Refusal>
    ensures same_reference { rows.new.conn.ghost_name ≡ rows.old.conn.ghost_name }
    ensures scans { HasCleanDisk (state S.Store rows.new.conn.now)
        → HasGiven S.Store T.form.load [] rows.old.conn.now []
        → Scans S.Store T.Key.cmp T.form rows.old.conn.now rows.new.conn.now result }
    ensures survives { Survives (state S.Store rows.old.conn.now) (state S.Store rows.new.conn.now) (λ _. ⊥) }
    ensures told { IfErr result (λ e. IsTrue (is_store_refusal e)) }
{
    let mut table = BTreeMap::new(alloc);
    'steps: for _step in 0..u64::MAX {
        match read_next::<T, S>(alloc, rows, &mut table)? {
            Next::Put => {}
            Next::End => return Ok(Some(table)),
            Next::NoTable => return Ok(None),
        }
    }
    // No memory holds so many rows.
    Err(Refusal::NoMemory)
}

/// What a step of a scan comes to.
#[derive(Drop)]
enum Next {
    /// The next row was put into the map.
    Put,
    /// There is no further row.
    End,
    /// No table has the rows so far.
    NoTable,
}

/// Reads the next row into the map.
fn read_next<T: StoredRows, S: Alter>(
    alloc: Global,
    rows: &mut Rows<'_, S>,
    table: &mut BTreeMap<T::Key, T::Value>,
) -> Result<Next, Refusal>
    ensures same_reference { rows.new.conn.ghost_name ≡ rows.old.conn.ghost_name }
    ensures goes { HasCleanDisk (state S.Store rows.new.conn.now) → (given : List Columns)
        → HasGiven S.Store T.form.load [] rows.old.conn.now given
        → AreRowsOf T.Key.cmp T.form.IsRow T.form.row given table.old.entries
        → Goes S.Store T.Key.cmp T.form rows.old.conn.now rows.new.conn.now given table.new.entries result }
    ensures survives { Survives (state S.Store rows.old.conn.now) (state S.Store rows.new.conn.now) (λ _. ⊥) }
    ensures told { IfErr result (λ e. IsTrue (is_store_refusal e)) }
{
    match rows.advance() {
        Ok(()) => match rows.get() {
            Some(row) => match put_row::<T>(alloc, row, table) {
                Ok(()) => Ok(Next::Put),
                Err(Refusal::BadStore) => Ok(Next::NoTable),
                Err(refusal) => Err(refusal),
            },
            None => Ok(Next::End),
        },
        Err(error) => Err(refusal_of(error)),
    }
}

/// Puts this row into the map of the rows before it. Refused with `BadStore` if no table has all of them.
fn put_row<T: StoredRows>(
    alloc: Global,
    row: &Row,
    table: &mut BTreeMap<T::Key, T::Value>,
) -> Result<(), Refusal>
    ensures put { OnOk result ((given : List Columns)
        → AreRowsOf T.Key.cmp T.form.IsRow T.form.row given table.old.entries
        → AreRowsOf T.Key.cmp T.form.IsRow T.form.row (given ++ row.now ∷ []) table.new.entries) }
    ensures bad { IfErr result (λ e. (e ≡ NoMemory) ⊎ ((e ≡ BadStore) × ((given : List Columns)
        → AreRowsOf T.Key.cmp T.form.IsRow T.form.row given table.old.entries
        → BeginNone T.Key.cmp T.form (given ++ row.now ∷ [])))) }
    ensures told { IfErr result (λ e. IsTrue (is_store_refusal e)) }
{
    let (key, value) = T::read(alloc, row)?;
    add_row(table, key, value)
}
