//! The table of entries.
ghost use Rattle.exam_tables.specs.Forms as forms;
ghost use Rattle.exam_tables.specs.OurTables.{entries_ours};

use crate::columns::{flag, flag_at, number_at, paper_code_at};
use crate::statements::run;
use crate::table::StoredRows;
use exam_rules::Entry;
use exam_types::{Number, PaperCode, Refusal};
use sqlite::types::ValueRef;
use sqlite::{Alter, Row, Transaction};
use std::alloc::Global;

/// The entries, by candidate and paper.
pub struct EntryTable;

impl StoredRows for EntryTable {
    type Key = (Number, PaperCode);

    type Value = Entry;

    ghost form = { forms.entries };

    fn load_text() -> &'static str {
        "SELECT number, paper, live FROM entry"
    }

    fn put<'a, S: Alter>(
        tx: &mut Transaction<'_, S>,
        key: &'a (Number, PaperCode),
        entry: &'a Entry,
    ) -> Result<(), Refusal> {
        run(
            tx,
            "INSERT OR REPLACE INTO entry (number, paper, live) VALUES (?1, ?2, ?3)",
            &[
                ValueRef::Int(i64::from(key.0.get())),
                ValueRef::Text(key.1.as_bytes()),
                ValueRef::Int(flag(entry.live)),
            ],
        )
    }

    fn read(_alloc: Global, row: &Row) -> Result<((Number, PaperCode), Entry), Refusal> {
        if row.column_count() != 3 {
            return Err(Refusal::BadStore);
        }
        let number = number_at(row, 0)?;
        let paper = paper_code_at(row, 1)?;
        let live = flag_at(row, 2)?;
        Ok(((number, paper), Entry { live }))
    }

    ghost ours = { entries_ours };
}
