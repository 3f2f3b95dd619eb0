//! Reading the whole office.
ghost use Rattle.std.specs.Prelude.{◌≡◌, IsTrue, IfOk};
ghost use Rattle.exam_tables.specs.Parts.{Loading};
ghost use Rattle.exam_tables.specs.Versions.{IsKnown};
ghost use Rattle.exam_store.specs.Parts.{held_part, office_part};
ghost use Rattle.exam_store.specs.Refused.{is_within};

use exam_office::Office;
use exam_tables::{SeatTable, Version, has_marks, load_facts, load_rows};
use exam_types::Refusal;
use sqlite::{Alter, Connection};
use std::alloc::Global;

/// The good office that the tables of this version hold, with no more than the version can hold. Refused with
/// `BadStore` if they hold none.
pub fn load_version<S: Alter>(
    alloc: Global,
    conn: &mut Connection<S>,
    version: Version,
) -> Result<Office, Refusal>
    requires known { IsKnown version }
    ensures loads { Loading S.Store conn.old conn.new result (office_part version) }
    ensures within { IfOk result (λ office. IsTrue (is_within version office)) }
{
    let office = load_office(alloc, conn)?;
    if has_marks(conn) != version.has_marks {
        return Err(Refusal::BadStore);
    }
    if !is_within(&office, &version) {
        return Err(Refusal::BadStore);
    }
    Ok(office)
}

/// Whether the office has no more than the version can hold.
fn is_within(office: &Office, version: &Version) -> bool
    ensures { result ≡ is_within version.now office.now }
{
    match &version.limits {
        Some(most) => office.holds_at_most(most.openings, most.greatest_sum),
        None => true,
    }
}

/// The office that the tables of any version hold. Refused with `BadStore` if they hold none.
fn load_office<S: Alter>(alloc: Global, conn: &mut Connection<S>) -> Result<Office, Refusal>
    ensures { Loading S.Store conn.old conn.new result held_part }
{
    let facts = load_facts(alloc, conn)?;
    let seats = load_rows::<SeatTable, S>(alloc, conn)?;
    Office::from_parts(alloc, facts, seats)
}
