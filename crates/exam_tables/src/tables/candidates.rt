//! The table of candidates.
ghost use Rattle.exam_tables.specs.Forms as forms;
ghost use Rattle.exam_tables.specs.OurTables.{candidates_ours};

use crate::columns::{access_code_at, name_at, number_at};
use crate::statements::run;
use crate::table::StoredRows;
use exam_rules::Candidate;
use exam_types::{Number, Refusal};
use sqlite::types::ValueRef;
use sqlite::{Alter, Row, Transaction};
use std::alloc::Global;

/// The candidates, by their numbers.
pub struct CandidateTable;

impl StoredRows for CandidateTable {
    type Key = Number;

    type Value = Candidate;

    ghost form = { forms.candidates };

    fn load_text() -> &'static str {
        "SELECT number, name, code FROM candidate"
    }

    fn put<'a, S: Alter>(
        tx: &mut Transaction<'_, S>,
        number: &'a Number,
        candidate: &'a Candidate,
    ) -> Result<(), Refusal> {
        run(
            tx,
            "INSERT INTO candidate (number, name, code) VALUES (?1, ?2, ?3) ON CONFLICT (number) DO UPDATE SET name = excluded.name, code = excluded.code",
            &[
                ValueRef::Int(i64::from(number.get())),
                ValueRef::Text(candidate.name.as_str().as_bytes()),
                ValueRef::Text(candidate.code.as_bytes()),
            ],
        )
    }

    fn read(alloc: Global, row: &Row) -> Result<(Number, Candidate), Refusal> {
        if row.column_count() != 3 {
            return Err(Refusal::BadStore);
        }
        let number = number_at(row, 0)?;
        let name = name_at(alloc, row, 1)?;
        let code = access_code_at(row, 2)?;
        Ok((number, Candidate { name, code }))
    }

    ghost ours = { candidates_ours };
}
