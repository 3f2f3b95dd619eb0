//! The table of halls opened for sessions.
ghost use Rattle.exam_sql.specs.Texts.{delete_opening};
ghost use Rattle.exam_tables.specs.Forms as forms;
ghost use Rattle.exam_tables.specs.OurTables.{openings_ours};

use crate::columns::{
    closing_time_at, desk_count_at, flag, flag_at, hall_code_at, session_code_at,
};
use crate::statements::run;
use crate::table::{Shrinks, StoredRows};
use exam_rules::Opening;
use exam_types::{HallCode, Refusal, SessionCode};
use sqlite::types::ValueRef;
use sqlite::{Alter, Row, Transaction};
use std::alloc::Global;

/// The halls opened for sessions, by session and hall.
pub struct OpeningTable;

impl StoredRows for OpeningTable {
    type Key = (SessionCode, HallCode);

    type Value = Opening;

    ghost form = { forms.openings };

    fn load_text() -> &'static str {
        "SELECT session, hall, desks, until, reserved FROM opening"
    }

    fn put<'a, S: Alter>(
        tx: &mut Transaction<'_, S>,
        key: &'a (SessionCode, HallCode),
        opening: &'a Opening,
    ) -> Result<(), Refusal> {
        run(
            tx,
            "INSERT INTO opening (session, hall, desks, until, reserved) VALUES (?1, ?2, ?3, ?4, ?5) ON CONFLICT (session, hall) DO UPDATE SET desks = excluded.desks, until = excluded.until, reserved = excluded.reserved",
            &[
                ValueRef::Text(key.0.as_bytes()),
                ValueRef::Text(key.1.as_bytes()),
                ValueRef::Int(i64::from(opening.desks.get())),
                ValueRef::Int(i64::from(opening.until.get())),
                ValueRef::Int(flag(opening.reserved)),
            ],
        )
    }

    fn read(_alloc: Global, row: &Row) -> Result<((SessionCode, HallCode), Opening), Refusal> {
        if row.column_count() != 5 {
            return Err(Refusal::BadStore);
        }
        let session = session_code_at(row, 0)?;
        let hall = hall_code_at(row, 1)?;
        let desks = desk_count_at(row, 2)?;
        let until = closing_time_at(row, 3)?;
        let reserved = flag_at(row, 4)?;
        Ok((
            (session, hall),
            Opening {
                desks,
                until,
                reserved,
            },
        ))
    }

    ghost ours = { openings_ours };
}

impl Shrinks for OpeningTable {
    ghost delete_text = { delete_opening };

    ghost key_of = { forms.opening_key };

    fn delete<S: Alter>(
        tx: &mut Transaction<'_, S>,
        key: &(SessionCode, HallCode),
    ) -> Result<(), Refusal> {
        run(
            tx,
            "DELETE FROM opening WHERE session = ?1 AND hall = ?2",
            &[
                ValueRef::Text(key.0.as_bytes()),
                ValueRef::Text(key.1.as_bytes()),
            ],
        )
    }
}
