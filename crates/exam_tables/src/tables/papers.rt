//! The table of papers.
ghost use Rattle.exam_tables.specs.Forms as forms;
ghost use Rattle.exam_tables.specs.OurTables.{papers_ours};

use crate::columns::{exam_minutes_at, features_at, name_at, paper_code_at, session_code_at};
use crate::statements::run;
use crate::table::StoredRows;
use exam_rules::Paper;
use exam_types::{PaperCode, Refusal};
use sqlite::types::ValueRef;
use sqlite::{Alter, Row, Transaction};
use std::alloc::Global;

/// The papers, by their codes.
pub struct PaperTable;

impl StoredRows for PaperTable {
    type Key = PaperCode;

    type Value = Paper;

    ghost form = { forms.papers };

    fn load_text() -> &'static str {
        "SELECT code, title, session, minutes, requires FROM paper"
    }

    fn put<'a, S: Alter>(
        tx: &mut Transaction<'_, S>,
        code: &'a PaperCode,
        paper: &'a Paper,
    ) -> Result<(), Refusal> {
        run(
            tx,
            "INSERT INTO paper (code, title, session, minutes, requires) VALUES (?1, ?2, ?3, ?4, ?5) ON CONFLICT (code) DO UPDATE SET title = excluded.title, session = excluded.session, minutes = excluded.minutes, requires = excluded.requires",
            &[
                ValueRef::Text(code.as_bytes()),
                ValueRef::Text(paper.title.as_str().as_bytes()),
                ValueRef::Text(paper.session.as_bytes()),
                ValueRef::Int(i64::from(paper.minutes.get())),
                ValueRef::Int(i64::from(paper.required.sum())),
            ],
        )
    }

    fn read(alloc: Global, row: &Row) -> Result<(PaperCode, Paper), Refusal> {
        if row.column_count() != 5 {
            return Err(Refusal::BadStore);
        }
        let code = paper_code_at(row, 0)?;
        let title = name_at(alloc, row, 1)?;
        let session = session_code_at(row, 2)?;
        let minutes = exam_minutes_at(row, 3)?;
        let required = features_at(row, 4)?;
        Ok((
            code,
            Paper {
                title,
                session,
                minutes,
                required,
            },
        ))
    }

    ghost ours = { papers_ours };
}
