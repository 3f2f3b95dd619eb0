//! An office as the rows of its tables.
mod doctored;
mod lists;
mod migrating;

use std::test::Fail;

/// The number of the refusal of tables that hold no office.
const BAD_STORE: u16 = 24;

/// Compares the number of a refusal with the one that is wanted after these statements, 0 for none.
fn expect_number(found: u16, wanted: u16, sql: &str) -> Result<(), Fail> {
    if found == wanted {
        return Ok(());
    }
    Err(Fail::new(format_args!("{sql}: {found}")))
}
