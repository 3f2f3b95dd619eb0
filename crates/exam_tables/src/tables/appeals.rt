//! The table of appeals.
ghost use Rattle.std.specs.Prelude.{◌≡◌, [], ◌∷◌};
ghost use Rattle.sqlite.specs.Held.{state};
ghost use Rattle.exam_types.specs.Days.{day_text};
ghost use Rattle.exam_tables.specs.Forms as forms;
ghost use Rattle.exam_tables.specs.Inside.{Makes};
ghost use Rattle.exam_tables.specs.OurTables.{appeals_ours};

use crate::columns::{day_at, number_at, reason_at, reference_at, session_code_at};
use crate::statements::run;
use crate::subjects::{
    answer_of, extra_of, kind_number, needs_of, state_number, status_at, subject_at, target_of,
};
use crate::table::StoredRows;
use exam_rules::Appeal;
use exam_types::{Number, Reference, Refusal};
use sqlite::types::ValueRef;
use sqlite::{Alter, Row, Transaction};
use std::alloc::Global;

/// The appeals, by candidate and reference.
pub struct AppealTable;

impl StoredRows for AppealTable {
    type Key = (Number, Reference);

    type Value = Appeal;

    ghost form = { forms.appeals };

    fn load_text() -> &'static str {
        "SELECT number, ref, session, kind, target, needs, extra, reason, state, answer, lodged FROM appeal"
    }

    fn put<'a, S: Alter>(
        tx: &mut Transaction<'_, S>,
        key: &'a (Number, Reference),
        appeal: &'a Appeal,
    ) -> Result<(), Refusal> {
        let lodged = appeal.lodged.text();
        put_appeal(tx, key, appeal, lodged.as_slice())
    }

    fn read(alloc: Global, row: &Row) -> Result<((Number, Reference), Appeal), Refusal> {
        if row.column_count() != 11 {
            return Err(Refusal::BadStore);
        }
        let number = number_at(row, 0)?;
        let reference = reference_at(row, 1)?;
        let session = session_code_at(row, 2)?;
        let subject = subject_at(row, 3)?;
        let reason = reason_at(alloc, row, 7)?;
        let status = status_at(alloc, row, 8)?;
        let lodged = day_at(row, 10)?;
        Ok((
            (number, reference),
            Appeal {
                session,
                subject,
                reason,
                status,
                lodged,
            },
        ))
    }

    ghost ours = { appeals_ours };
}

/// Sets the row with this key. SQL finds a row whose number is equal, and takes 1.0 for equal to 1, so the number is
/// set too.
fn put_appeal<'a, S: Alter>(
    tx: &mut Transaction<'_, S>,
    key: &'a (Number, Reference),
    appeal: &'a Appeal,
    lodged: &'a [u8],
) -> Result<(), Refusal>
    ensures same_reference { tx.new.conn.ghost_name ≡ tx.old.conn.ghost_name }
    ensures made { lodged.now ≡ day_text appeal.now.lodged
        → Makes (state S.Store tx.old.conn.now) (state S.Store tx.new.conn.now) result
        (forms.row_put forms.appeals key.now appeal.now ∷ []) }
{
    run(
        tx,
        "INSERT INTO appeal (number, ref, session, kind, target, needs, extra, reason, state, answer, lodged) VALUES (?1, ?2, ?3, ?4, ?5, ?6, ?7, ?8, ?9, ?10, ?11) ON CONFLICT (number, ref) DO UPDATE SET number = excluded.number, session = excluded.session, kind = excluded.kind, target = excluded.target, needs = excluded.needs, extra = excluded.extra, reason = excluded.reason, state = excluded.state, answer = excluded.answer, lodged = excluded.lodged",
        &[
            ValueRef::Int(i64::from(key.0.get())),
            ValueRef::Text(key.1.as_bytes()),
            ValueRef::Text(appeal.session.as_bytes()),
            ValueRef::Int(kind_number(&appeal.subject)),
            ValueRef::Text(target_of(&appeal.subject)),
            ValueRef::Int(i64::from(needs_of(&appeal.subject))),
            ValueRef::Int(i64::from(extra_of(&appeal.subject))),
            ValueRef::Text(appeal.reason.as_str().as_bytes()),
            ValueRef::Int(state_number(&appeal.status)),
            answer_of(&appeal.status),
            ValueRef::Text(lodged),
        ],
    )
}
