//! The table of halls.
ghost use Rattle.exam_tables.specs.Forms as forms;
ghost use Rattle.exam_tables.specs.OurTables.{halls_ours};

use crate::columns::{features_at, hall_code_at, name_at};
use crate::statements::run;
use crate::table::StoredRows;
use exam_rules::Hall;
use exam_types::{HallCode, Refusal};
use sqlite::types::ValueRef;
use sqlite::{Alter, Row, Transaction};
use std::alloc::Global;

/// The halls, by their codes.
pub struct HallTable;

impl StoredRows for HallTable {
    type Key = HallCode;

    type Value = Hall;

    ghost form = { forms.halls };

    fn load_text() -> &'static str {
        "SELECT code, title, features FROM hall"
    }

    fn put<'a, S: Alter>(
        tx: &mut Transaction<'_, S>,
        code: &'a HallCode,
        hall: &'a Hall,
    ) -> Result<(), Refusal> {
        run(
            tx,
            "INSERT INTO hall (code, title, features) VALUES (?1, ?2, ?3) ON CONFLICT (code) DO UPDATE SET title = excluded.title, features = excluded.features",
            &[
                ValueRef::Text(code.as_bytes()),
                ValueRef::Text(hall.title.as_str().as_bytes()),
                ValueRef::Int(i64::from(hall.features.sum())),
            ],
        )
    }

    fn read(alloc: Global, row: &Row) -> Result<(HallCode, Hall), Refusal> {
        if row.column_count() != 3 {
            return Err(Refusal::BadStore);
        }
        let code = hall_code_at(row, 0)?;
        let title = name_at(alloc, row, 1)?;
        let features = features_at(row, 2)?;
        Ok((code, Hall { title, features }))
    }

    ghost ours = { halls_ours };
}
