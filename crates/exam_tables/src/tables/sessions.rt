//! The table of sessions.
ghost use Rattle.std.specs.Prelude.{◌≡◌, [], ◌∷◌};
ghost use Rattle.sqlite_value.specs.declared.value.Value.TheVariants.{Text};
ghost use Rattle.sqlite.specs.Held.{state};
ghost use Rattle.exam_tables.specs.Inside.{Makes, put_of};
ghost use Rattle.exam_tables.specs.Stored as stored;
ghost use Rattle.exam_tables.specs.Forms as forms;
ghost use Rattle.exam_tables.specs.OurTables.{sessions_ours};

use crate::columns::{session_code_at, session_day_at, start_at};
use crate::statements::run;
use crate::table::StoredRows;
use exam_rules::Session;
use exam_types::{Refusal, SessionCode, StartTime};
use sqlite::types::ValueRef;
use sqlite::{Alter, Row, Transaction};
use std::alloc::Global;

/// The sessions, by their codes.
pub struct SessionTable;

impl StoredRows for SessionTable {
    type Key = SessionCode;

    type Value = Session;

    ghost form = { forms.sessions };

    fn load_text() -> &'static str {
        "SELECT code, day, start FROM session"
    }

    fn put<'a, S: Alter>(
        tx: &mut Transaction<'_, S>,
        code: &'a SessionCode,
        session: &'a Session,
    ) -> Result<(), Refusal> {
        let day = session.day.day().text();
        put_session(tx, code, day.as_slice(), session.start)
    }

    fn read(_alloc: Global, row: &Row) -> Result<(SessionCode, Session), Refusal> {
        if row.column_count() != 3 {
            return Err(Refusal::BadStore);
        }
        let code = session_code_at(row, 0)?;
        let day = session_day_at(row, 1)?;
        let start = start_at(row, 2)?;
        Ok((code, Session { day, start }))
    }

    ghost ours = { sessions_ours };
}

fn put_session<'a, S: Alter>(
    tx: &mut Transaction<'_, S>,
    code: &'a SessionCode,
    day: &'a [u8],
    start: StartTime,
) -> Result<(), Refusal>
    ensures same_reference { tx.new.conn.ghost_name ≡ tx.old.conn.ghost_name }
    ensures made { Makes (state S.Store tx.old.conn.now) (state S.Store tx.new.conn.now) result
        (put_of forms.sessions.put forms.sessions.tree forms.sessions.places
        (Text code.now ∷ Text day.now ∷ stored.whole start ∷ []) ∷ []) }
{
    run(
        tx,
        "INSERT INTO session (code, day, start) VALUES (?1, ?2, ?3) ON CONFLICT (code) DO UPDATE SET day = excluded.day, start = excluded.start",
        &[
            ValueRef::Text(code.as_bytes()),
            ValueRef::Text(day),
            ValueRef::Int(i64::from(start.get())),
        ],
    )
}
