//! What is printed of a database that was checked.
ghost use Rattle.std.specs.Prelude.{◌≡◌};
ghost use Rattle.exam_check.specs.Lines as spec;

use crate::tables::Table;
use exam_office::Table as OfficeTable;

/// The line for the first bad table of a database, or for a good database.
pub fn check_line(found: Option<Table>) -> &'static [u8]
    ensures { result.now ≡ spec.check_text found }
{
    match found {
        None => b"good\n",
        Some(Table::Office) => b"bad office\n",
        Some(Table::Of(OfficeTable::Sessions)) => b"bad session\n",
        Some(Table::Of(OfficeTable::Papers)) => b"bad paper\n",
        Some(Table::Of(OfficeTable::Halls)) => b"bad hall\n",
        Some(Table::Of(OfficeTable::Openings)) => b"bad opening\n",
        Some(Table::Of(OfficeTable::Candidates)) => b"bad candidate\n",
        Some(Table::Of(OfficeTable::Entries)) => b"bad entry\n",
        Some(Table::Of(OfficeTable::Arrangements)) => b"bad arrangement\n",
        Some(Table::Of(OfficeTable::Appeals)) => b"bad appeal\n",
        Some(Table::Of(OfficeTable::Standing)) => b"bad standing\n",
        Some(Table::Of(OfficeTable::Seats)) => b"bad seat\n",
    }
}
