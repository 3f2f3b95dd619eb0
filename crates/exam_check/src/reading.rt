//! Reading the tables one after the other.
ghost use Rattle.std.specs.Prelude.{◌≡◌, MatchOption};
ghost use Rattle.exam_tables.specs.Parts.{Loading};
ghost use Rattle.exam_check.specs.Reading.{tables_part};

use exam_office::{Seats as Plans, Table as OfficeTable};
use exam_rules::Facts;
use exam_tables::{
    AppealTable, ArrangementTable, CandidateTable, EntryTable, HallTable, Loads, OpeningTable,
    PaperTable, SeatTable, SessionTable, StandingTable,
};
use exam_types::Refusal;
use sqlite::{Alter, Connection};
use std::alloc::Global;
use std::collections::BTreeMap;

/// What the tables hold, and the first table whose rows no office has. Such a table has no rows here.
#[derive(Drop)]
pub struct Tables {
    pub facts: Facts,
    pub seats: Plans,
    pub unread: Option<OfficeTable>,
}

/// Reads every table. Refused with `BadStore` if a table or a column is missing.
pub fn read_tables<S: Alter>(alloc: Global, conn: &mut Connection<S>) -> Result<Tables, Refusal>
    ensures { Loading S.Store conn.old conn.new result tables_part }
{
    let rows = <OfficeTables as Loads>::load(alloc, conn)?;
    let (first, later) = rows;
    let (sessions, (papers, (halls, (openings, candidates)))) = first;
    let (entries, (arrangements, (appeals, (standing, seats)))) = later;
    let mut unread = None;
    // The first table without rows is noted last, and stays.
    let seats = noted(alloc, seats, OfficeTable::Seats, &mut unread);
    let standing = noted(alloc, standing, OfficeTable::Standing, &mut unread);
    let appeals = noted(alloc, appeals, OfficeTable::Appeals, &mut unread);
    let arrangements = noted(alloc, arrangements, OfficeTable::Arrangements, &mut unread);
    let entries = noted(alloc, entries, OfficeTable::Entries, &mut unread);
    let candidates = noted(alloc, candidates, OfficeTable::Candidates, &mut unread);
    let openings = noted(alloc, openings, OfficeTable::Openings, &mut unread);
    let halls = noted(alloc, halls, OfficeTable::Halls, &mut unread);
    let papers = noted(alloc, papers, OfficeTable::Papers, &mut unread);
    let sessions = noted(alloc, sessions, OfficeTable::Sessions, &mut unread);
    let facts = Facts {
        sessions,
        papers,
        halls,
        openings,
        candidates,
        entries,
        arrangements,
        appeals,
        standing,
    };
    Ok(Tables {
        facts,
        seats,
        unread,
    })
}

/// The tables of an office, each with its rows or none.
type OfficeTables = (
    (
        Option<SessionTable>,
        (
            Option<PaperTable>,
            (
                Option<HallTable>,
                (Option<OpeningTable>, Option<CandidateTable>),
            ),
        ),
    ),
    (
        Option<EntryTable>,
        (
            Option<ArrangementTable>,
            (
                Option<AppealTable>,
                (Option<StandingTable>, Option<SeatTable>),
            ),
        ),
    ),
);

/// The rows of a table, or no rows if no office has those that were read. Then the table is noted, in the place of one
/// that was noted before.
fn noted<K: Ord + Drop, V: Drop>(
    alloc: Global,
    rows: Option<BTreeMap<K, V>>,
    table: OfficeTable,
    unread: &mut Option<OfficeTable>,
) -> BTreeMap<K, V>
    ensures { MatchOption rows (unread.new ≡ Some table) (λ rows. (result ≡ rows) × (unread.new ≡ unread.old)) }
{
    match rows {
        Some(rows) => rows,
        None => {
            *unread = Some(table);
            BTreeMap::new(alloc)
        }
    }
}
