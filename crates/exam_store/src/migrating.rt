//! Bringing an office of an older version to the newest.
ghost use Rattle.std.specs.Prelude.{◌≡◌, false, IsTrue, IfOk, IfErr, OnOk};
ghost use Rattle.sqlite.specs.Held.{state};
ghost use Rattle.sqlite.specs.State.{HasCleanDisk};
ghost use Rattle.exam_tables.specs.Faults.{is_store_refusal};
ghost use Rattle.exam_tables.specs.Parts.{Loading};
ghost use Rattle.exam_tables.specs.Transactions.{Commits};
ghost use Rattle.exam_tables.specs.Unasked.{IsUnasked};
ghost use Rattle.exam_tables.specs.Versions.{IsKnown, IsVersion, version};
ghost use Rattle.exam_store.specs.Found.{HadGood, Migrates, RefusesMigrating, StaysNewest};
ghost use Rattle.exam_store.specs.Parts.{judged_part};
ghost use Rattle.exam_sql.specs.Made.{lists_tables};

use crate::loading::load_version;
use exam_tables::{NEWEST, Version, save_widened, version_of};
use exam_types::Refusal;
use sqlite::{Alter, Connection};
use std::alloc::Global;

/// Brings the office in the database to the newest version, in one transaction or not at all, and returns its version
/// before and after. An office of the newest version is checked too, and nothing is written. Refused with `BadStore` if
/// the tables of no version hold a good office of it, and then nothing is written; with `NoMemory`; with `Store` if a
/// transaction is already open, or a call of the database fails. After `NoMemory` or `Store` the office has its old
/// version as long as the connection stays open. If the failure has shut it, or the machine stops then, the office has
/// its old version or the newest.
pub fn migrate<S: Alter>(alloc: Global, conn: &mut Connection<S>) -> Result<(u8, u8), Refusal>
    ensures versions { IfOk result (λ v. IsVersion v.0 × (v.1 ≡ version)) }
    ensures found { HasCleanDisk (state S.Store conn.new)
        → IfOk result (λ v. HadGood (state S.Store conn.old).now v.0) }
    ensures made { Commits (state S.Store conn.old) (state S.Store conn.new) result Migrates }
    ensures newest { IfOk result (λ v. StaysNewest (state S.Store conn.old) (state S.Store conn.new) v.0) }
    ensures refused { HasCleanDisk (state S.Store conn.new)
        → IfErr result (RefusesMigrating S.Store conn.old conn.new) }
    ensures told { IfErr result (λ e. IsTrue (is_store_refusal e)) }
{
    if !conn.is_autocommit() {
        return Err(Refusal::Store);
    }
    let version = judged_version(alloc, conn)?;
    if version.number == NEWEST.number {
        return Ok((version.number, NEWEST.number));
    }
    save_widened(conn)?;
    Ok((version.number, NEWEST.number))
}

/// The version of the office in the database, which must be good and hold no more than the version can.
fn judged_version<S: Alter>(alloc: Global, conn: &mut Connection<S>) -> Result<Version, Refusal>
    ensures known { IfOk result IsKnown }
    ensures judges { Loading S.Store conn.old conn.new result judged_part }
    ensures listed { OnOk result (IsTrue (lists_tables (state S.Store conn.old).now.schema)) }
    ensures unlisted { HasCleanDisk (state S.Store conn.new)
        → lists_tables (state S.Store conn.old).now.schema ≡ false
        → IfErr result (IsUnasked (state S.Store conn.old) (state S.Store conn.new)) }
{
    let version = version_of(conn)?;
    let office = load_version(alloc, conn, version)?;
    office.show_good();
    Ok(version)
}
