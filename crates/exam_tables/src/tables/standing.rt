//! The table of marks.
ghost use Rattle.exam_tables.specs.Forms as forms;
ghost use Rattle.exam_tables.specs.OurTables.{standing_ours};

use crate::columns::{number_at, reference_at};
use crate::statements::run;
use crate::table::StoredRows;
use exam_types::{Number, Reference, Refusal};
use sqlite::types::ValueRef;
use sqlite::{Alter, Row, Transaction};
use std::alloc::Global;

/// The marks of standing grants, by candidate and reference. Version 1 has no such table.
pub struct StandingTable;

impl StoredRows for StandingTable {
    type Key = (Number, Reference);

    type Value = ();

    ghost form = { forms.standing };

    fn load_text() -> &'static str {
        "SELECT number, ref FROM standing"
    }

    fn put<'a, S: Alter>(
        tx: &mut Transaction<'_, S>,
        key: &'a (Number, Reference),
        _mark: &'a (),
    ) -> Result<(), Refusal> {
        run(
            tx,
            "INSERT OR REPLACE INTO standing (number, ref) VALUES (?1, ?2)",
            &[
                ValueRef::Int(i64::from(key.0.get())),
                ValueRef::Text(key.1.as_bytes()),
            ],
        )
    }

    fn read(_alloc: Global, row: &Row) -> Result<((Number, Reference), ()), Refusal> {
        if row.column_count() != 2 {
            return Err(Refusal::BadStore);
        }
        let number = number_at(row, 0)?;
        let reference = reference_at(row, 1)?;
        Ok(((number, reference), ()))
    }

    ghost ours = { standing_ours };
}
