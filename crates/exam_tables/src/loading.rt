//! Reading tables one after the other.
ghost use Rattle.std.specs.Prelude.{IsTrue};
ghost use Rattle.sqlite.specs.Held.{state};
ghost use Rattle.sqlite.specs.State.{HasCleanDisk};
ghost use Rattle.exam_tables.specs.Parts.{Loading, Part, facts_part, marks_part, scanned_part, table_part, then_part};

use crate::scanning::{load_rows, scan_table};
use crate::schema::has_marks;
use crate::table::StoredRows;
use crate::tables::appeals::AppealTable;
use crate::tables::arrangements::ArrangementTable;
use crate::tables::candidates::CandidateTable;
use crate::tables::entries::EntryTable;
use crate::tables::halls::HallTable;
use crate::tables::openings::OpeningTable;
use crate::tables::papers::PaperTable;
use crate::tables::sessions::SessionTable;
use crate::tables::standing::StandingTable;
use exam_rules::Facts;
use exam_types::{Number, Reference, Refusal};
use sqlite::{Alter, Connection};
use std::alloc::Global;
use std::collections::BTreeMap;

/// The facts that the tables hold, with no marks if there is no table of marks. Each row has the forms of its columns;
/// whether the rows agree with each other is not looked at. Refused as `Loads::load` says, with `BadStore` also if a
/// row does not have these forms, or two rows have one key.
pub fn load_facts<S: Alter>(alloc: Global, conn: &mut Connection<S>) -> Result<Facts, Refusal>
    ensures { Loading S.Store conn.old conn.new result facts_part }
{
    let tables = <FactTables as Loads>::load(alloc, conn)?;
    let standing = load_marks(alloc, conn)?;
    let (sessions, (papers, (halls, (openings, more)))) = tables;
    let (candidates, (entries, (arrangements, appeals))) = more;
    Ok(Facts {
        sessions,
        papers,
        halls,
        openings,
        candidates,
        entries,
        arrangements,
        appeals,
        standing,
    })
}

/// The tables of facts that every version has.
type FactTables = (
    SessionTable,
    (
        PaperTable,
        (
            HallTable,
            (
                OpeningTable,
                (
                    CandidateTable,
                    (EntryTable, (ArrangementTable, AppealTable)),
                ),
            ),
        ),
    ),
);

/// Tables that are loaded one after the other.
pub trait Loads {
    type Rows: Drop;

    ghost part: { Part Self.Rows };

    /// Their rows. Refused with `BadStore` if a table or a column is missing, with `NoMemory`, and with `Store` if a
    /// query fails otherwise. Nothing is written, but a query that fails may undo a transaction that is open.
    fn load<S: Alter>(alloc: Global, conn: &mut Connection<S>) -> Result<Self::Rows, Refusal>
        ensures { Loading S.Store conn.old conn.new result part };
}

/// One table. Refused with `BadStore` also if a row does not have the forms of its columns, or two rows have one key.
impl<T: StoredRows> Loads for T {
    type Rows = BTreeMap<T::Key, T::Value>;

    ghost part = { table_part T.Key.cmp T.form };

    fn load<S: Alter>(
        alloc: Global,
        conn: &mut Connection<S>,
    ) -> Result<BTreeMap<T::Key, T::Value>, Refusal> {
        load_rows::<T, S>(alloc, conn)
    }
}

/// One table, or none if a row does not have the forms of its columns, or two rows have one key.
impl<T: StoredRows> Loads for Option<T> {
    type Rows = Option<BTreeMap<T::Key, T::Value>>;

    ghost part = { scanned_part T.Key.cmp T.form };

    fn load<S: Alter>(
        alloc: Global,
        conn: &mut Connection<S>,
    ) -> Result<Option<BTreeMap<T::Key, T::Value>>, Refusal> {
        scan_table::<T, S>(alloc, conn)
    }
}

impl<T: Loads, M: Loads> Loads for (T, M) {
    type Rows = (T::Rows, M::Rows);

    ghost part = { then_part T.part M.part };

    fn load<S: Alter>(
        alloc: Global,
        conn: &mut Connection<S>,
    ) -> Result<(T::Rows, M::Rows), Refusal> {
        let table = T::load(alloc, conn)?;
        let more = M::load(alloc, conn)?;
        Ok((table, more))
    }
}

/// The marks. Version 1 has no table of them, and so no marks.
fn load_marks<S: Alter>(
    alloc: Global,
    conn: &mut Connection<S>,
) -> Result<BTreeMap<(Number, Reference), ()>, Refusal>
    ensures early { HasCleanDisk (state S.Store conn.new) → HasCleanDisk (state S.Store conn.old) }
    ensures loads { (HasCleanDisk (state S.Store conn.new) → IsTrue (state S.Store conn.old).is_open)
        → Loading S.Store conn.old conn.new result marks_part }
{
    if !has_marks(conn) {
        return Ok(BTreeMap::new(alloc));
    }
    load_rows::<StandingTable, S>(alloc, conn)
}
