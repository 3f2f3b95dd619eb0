//! The command that brings an office of an earlier version to the newest.
ghost use Rattle.exam_job.specs.Migrations as spec;

use crate::lines::migration_line;
use crate::report::{JobFault, print};
use exam_store::migrate;
use sqlite::{Alter, Connection};
use std::alloc::Global;
use std::io::Write;

/// Brings the office in the database to the newest version, and prints its version before and after. Refuses as
/// `exam_store::migrate` does, which says what that leaves. After `Write` the office has the newest version, although a
/// write or the flush of the line failed.
pub fn migrate_office<S: Alter, O: Write>(
    alloc: Global,
    conn: &mut Connection<S>,
    out: &mut O,
) -> Result<(), JobFault>
    ensures { spec.PrintsMigration S.Store O.contents conn.old out.old result conn.new out.new }
{
    let (before, after) = migrate(alloc, conn)?;
    print(out, &migration_line(before, after))
}
