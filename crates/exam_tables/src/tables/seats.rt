//! The table of seats.
ghost use Rattle.exam_sql.specs.Texts.{delete_seat};
ghost use Rattle.exam_tables.specs.Forms as forms;
ghost use Rattle.exam_tables.specs.OurTables.{seats_ours};

use crate::columns::{hall_code_at, number_at, session_code_at};
use crate::statements::run;
use crate::table::{Shrinks, StoredRows};
use exam_types::{HallCode, Number, Refusal, SessionCode};
use sqlite::types::ValueRef;
use sqlite::{Alter, Row, Transaction};
use std::alloc::Global;

/// The hall in which each seated candidate sits, by session and candidate.
pub struct SeatTable;

impl StoredRows for SeatTable {
    type Key = (SessionCode, Number);

    type Value = HallCode;

    ghost form = { forms.seats };

    fn load_text() -> &'static str {
        "SELECT session, number, hall FROM seat"
    }

    fn put<'a, S: Alter>(
        tx: &mut Transaction<'_, S>,
        key: &'a (SessionCode, Number),
        hall: &'a HallCode,
    ) -> Result<(), Refusal> {
        run(
            tx,
            "INSERT OR REPLACE INTO seat (session, number, hall) VALUES (?1, ?2, ?3)",
            &[
                ValueRef::Text(key.0.as_bytes()),
                ValueRef::Int(i64::from(key.1.get())),
                ValueRef::Text(hall.as_bytes()),
            ],
        )
    }

    fn read(_alloc: Global, row: &Row) -> Result<((SessionCode, Number), HallCode), Refusal> {
        if row.column_count() != 3 {
            return Err(Refusal::BadStore);
        }
        let session = session_code_at(row, 0)?;
        let number = number_at(row, 1)?;
        let hall = hall_code_at(row, 2)?;
        Ok(((session, number), hall))
    }

    ghost ours = { seats_ours };
}

impl Shrinks for SeatTable {
    ghost delete_text = { delete_seat };

    ghost key_of = { forms.seat_key };

    fn delete<S: Alter>(
        tx: &mut Transaction<'_, S>,
        key: &(SessionCode, Number),
    ) -> Result<(), Refusal> {
        run(
            tx,
            "DELETE FROM seat WHERE session = ?1 AND number = ?2",
            &[
                ValueRef::Text(key.0.as_bytes()),
                ValueRef::Int(i64::from(key.1.get())),
            ],
        )
    }
}
