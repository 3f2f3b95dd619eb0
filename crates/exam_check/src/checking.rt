//! The first bad table of a database.
ghost use Rattle.std.specs.Prelude.{◌≡◌, false, IsTrue, IfOk, IfErr, MatchResult, OnOk};
ghost use Rattle.sqlite.specs.Held.{state};
ghost use Rattle.sqlite.specs.State.{HasCleanDisk, Survives};
ghost use Rattle.exam_types.specs.declared.refusal.Refusal.TheVariants.{BadStore};
ghost use Rattle.exam_commands.specs.Good.{tables};
ghost use Rattle.exam_commands.specs.State.{State};
ghost use Rattle.exam_sql.specs.Made.{ContainsMade, lists_newest, lists_tables};
ghost use Rattle.exam_sql.specs.Texts.{load_texts};
ghost use Rattle.exam_tables.specs.Loaded.{AreUnderstood, OnlyReads};
ghost use Rattle.exam_tables.specs.Unasked.{IsUnasked};
ghost use Rattle.exam_store.specs.Found.{IsNoOlder};
ghost use Rattle.exam_check.specs.FirstBad.{FindsBad, HasGoodVersion, IsFirstBadIn};
ghost use Rattle.exam_check.specs.Reading.{Looks};
ghost use Rattle.exam_check.specs.Refused.{AnswersUnlisted, FailsToCheck, is_check_refusal};

use crate::reading::read_tables;
use crate::tables::{Table, first_of};
use exam_office::{Table as OfficeTable, first_bad_table};
use exam_tables::{NEWEST, has_marks, version_of};
use exam_types::Refusal;
use sqlite::{Alter, Connection};
use std::alloc::Global;

/// The first bad table of the database, or none if it holds a good office of the newest version. Only reads, but a
/// query that fails may undo a transaction that is open. Refused with `OldSchema` if the tables have the number of an
/// older version, whatever is wrong with their other rows; with `NoMemory`; and with `Store` if a query fails.
pub fn check<S: Alter>(alloc: Global, conn: &mut Connection<S>) -> Result<Option<Table>, Refusal>
    ensures found { HasCleanDisk (state S.Store conn.new)
        → IfOk result (FindsBad (state S.Store conn.old).now) }
    ensures unlisted { AnswersUnlisted (state S.Store conn.old) (state S.Store conn.new) result }
    ensures left { HasCleanDisk (state S.Store conn.new)
        → OnlyReads (state S.Store conn.old) (state S.Store conn.new) result }
    ensures survives { Survives (state S.Store conn.old) (state S.Store conn.new) (λ _. ⊥) }
    ensures refusal { HasCleanDisk (state S.Store conn.new)
        → IfErr result (FailsToCheck S.Store conn.old conn.new) }
    ensures told { IfErr result (λ e. IsTrue (is_check_refusal e)) }
{
    match first_bad(alloc, conn) {
        Ok(bad) => Ok(bad.map(Table::Of)),
        Err(Refusal::BadStore) => Ok(Some(Table::Office)),
        Err(refusal) => Err(refusal),
    }
}

/// The first bad table of an office of the newest version. Refused with `BadStore` if a table, a column or the version
/// is missing; a view is no table. Refused with `OldSchema` before the other tables are read.
fn first_bad<S: Alter>(
    alloc: Global,
    conn: &mut Connection<S>,
) -> Result<Option<OfficeTable>, Refusal>
    ensures looks { Looks S.Store conn.old conn.new result }
    ensures found { HasCleanDisk (state S.Store conn.new) → IfOk result (λ bad. (all : _)
        → ContainsMade (state S.Store conn.old).now all
        → HasGoodVersion (state S.Store conn.old).now all × (o : State) × IsFirstBadIn all o tables bad) }
    ensures understood { HasCleanDisk (state S.Store conn.new)
        → OnOk result (AreUnderstood (state S.Store conn.old).now load_texts) }
    ensures listed { HasCleanDisk (state S.Store conn.new)
        → OnOk result (IsTrue (lists_newest (state S.Store conn.old).now.schema)) }
    ensures unlisted { HasCleanDisk (state S.Store conn.new)
        → lists_tables (state S.Store conn.old).now.schema ≡ false
        → IfErr result (IsUnasked (state S.Store conn.old) (state S.Store conn.new)) }
    ensures newest { HasCleanDisk (state S.Store conn.new) → MatchResult result
        (λ bad. IsNoOlder (state S.Store conn.old).now)
        (λ e. e ≡ BadStore → IsNoOlder (state S.Store conn.old).now) }
{
    let version = version_of(conn)?;
    if version.number != NEWEST.number {
        return Err(Refusal::OldSchema);
    }
    if !has_marks(conn) {
        return Err(Refusal::BadStore);
    }
    let read = read_tables(alloc, conn)?;
    let bad = first_bad_table(alloc, &read.facts, &read.seats)?;
    Ok(first_of(bad, read.unread))
}
