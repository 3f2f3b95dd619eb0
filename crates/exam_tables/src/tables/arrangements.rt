//! The table of arrangements.
ghost use Rattle.exam_tables.specs.Forms as forms;
ghost use Rattle.exam_tables.specs.OurTables.{arrangements_ours};

use crate::columns::{extra_at, features_at, number_at};
use crate::statements::run;
use crate::table::StoredRows;
use exam_rules::Arrangement;
use exam_types::{Number, Refusal};
use sqlite::types::ValueRef;
use sqlite::{Alter, Row, Transaction};
use std::alloc::Global;

/// The imported arrangements, by candidate.
pub struct ArrangementTable;

impl StoredRows for ArrangementTable {
    type Key = Number;

    type Value = Arrangement;

    ghost form = { forms.arrangements };

    fn load_text() -> &'static str {
        "SELECT number, needs, extra FROM arrangement"
    }

    fn put<'a, S: Alter>(
        tx: &mut Transaction<'_, S>,
        number: &'a Number,
        arrangement: &'a Arrangement,
    ) -> Result<(), Refusal> {
        run(
            tx,
            "INSERT OR REPLACE INTO arrangement (number, needs, extra) VALUES (?1, ?2, ?3)",
            &[
                ValueRef::Int(i64::from(number.get())),
                ValueRef::Int(i64::from(arrangement.needs.sum())),
                ValueRef::Int(i64::from(arrangement.extra.get())),
            ],
        )
    }

    fn read(_alloc: Global, row: &Row) -> Result<(Number, Arrangement), Refusal> {
        if row.column_count() != 3 {
            return Err(Refusal::BadStore);
        }
        let number = number_at(row, 0)?;
        let needs = features_at(row, 1)?;
        let extra = extra_at(row, 2)?;
        Ok((number, Arrangement { needs, extra }))
    }

    ghost ours = { arrangements_ours };
}
