//! The tables of a database, and the first of two.
ghost use Rattle.exam_commands.specs.Good.{tables};
ghost use Rattle.exam_check.specs.FirstBad.{IsFirstOf};

use exam_office::Table as OfficeTable;

/// The tables of a database: the one that has the version, and that of each table of an office.
#[derive(Clone, Copy, Debug, PartialEq, Eq)]
pub enum Table {
    /// The table `office`, which has the version. It also stands for a table or a column that is missing.
    Office,
    /// A table of facts, or that of the seats.
    Of(OfficeTable),
}

/// The one of these tables that is checked first; none if there is none.
pub fn first_of(one: Option<OfficeTable>, other: Option<OfficeTable>) -> Option<OfficeTable>
    ensures { IsFirstOf tables one other result }
{
    match (one, other) {
        (Some(a), Some(b)) if (b as u8) < (a as u8) => other,
        (None, _) => other,
        _ => one,
    }
}
