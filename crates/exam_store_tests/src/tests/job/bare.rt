//! Databases that hold no office: nothing at all, or the tables of others.
use super::play_at_nothing;
use std::test::Fail;

/// An office is made where nothing is. One that is there is ready.
const NOTHING: &str = "\
$ export S1
! refused 24
$ migrate
! refused 24
$ init
> ready
$ init
> ready
$ export S1
! refused 4
$ migrate
> already 3
";

/// No office is made beside the table of another program.
const A_SHELF: &str = "\
$ sql
CREATE TABLE shelf (code TEXT NOT NULL, PRIMARY KEY (code)) STRICT
$ export S1
! refused 24
$ migrate
! refused 24
$ init
! refused 24
";

#[test]
fn an_office_is_made_where_nothing_is(rt: HostRuntime) -> Result<(), Fail> {
    for text in [NOTHING, A_SHELF] {
        play_at_nothing(rt.alloc(), text)?;
    }
    Ok(())
}
