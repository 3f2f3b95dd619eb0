//! What an import makes of the facts.
ghost use Rattle.std.specs.Prelude.{◌≡◌, ◌⊎◌, ◌<◌, ◌^◌, ◌+◌, ◌-◌, is_none, not, false, if◌then◌else◌, length, None};
ghost use Rattle.std.specs.Prelude.{Some, IfOk, IfErr, OnOk, OnErr};
ghost use Rattle.std.specs.Option.{option_map, option_map_or};
ghost use Rattle.std.specs.Result.{result_err};
ghost use Rattle.exam_rules.specs.Relations.{Relations, opening_cmp, relations_of, row_at};
ghost use Rattle.exam_types.specs.declared.refusal.Refusal.TheVariants.{NoMemory};
ghost use Rattle.exam_types.specs.Refusals.{OnlyMemory};
ghost use Rattle.exam_commands.specs.Changes as changes;
ghost use Rattle.exam_commands.specs.Replies as replies;
ghost use Rattle.exam_commands.specs.SameRows.{same_opening};
ghost use Rattle.exam_changes.specs.Undoing as undoing;

use crate::kept::{KeptRows, put_kept};
use crate::undo::Undo;
use crate::unknown;
use exam_commands::{Import, Reply, Row};
use exam_rules::{Entry, Facts, Opening};
use exam_types::{HallCode, Refusal, SessionCode};
use std::alloc::Global;

/// Adds the rows of an import with new keys, and replaces the rows of present keys; an entry that exists stays as it
/// is. Returns how to take this back, and what the import answers. Refused for the first row, in the order of the file,
/// that refers to what does not exist, and if there is not enough memory. After a refusal the facts are as before.
/// Tests no limit.
pub fn import_rows(
    alloc: Global,
    facts: &mut Facts,
    import: &Import,
) -> Result<(Undo, Reply), Refusal>
    ensures ok { OnOk result (relations_of facts.new
        ≡ changes.with_rows (relations_of facts.old) import.now.rows) }
    ensures back { IfOk result (λ answer.
        undoing.TakesBack answer.0 (relations_of facts.new) (relations_of facts.old)) }
    ensures reply { IfOk result (λ answer. answer.1
        ≡ replies.import_reply (relations_of facts.old) import.now.rows) }
    ensures checked { OnOk result (changes.rows_refusal (relations_of facts.old) import.now.rows ≡ None) }
    ensures refusal { IfErr result (λ e. (e ≡ NoMemory)
        ⊎ (changes.rows_refusal (relations_of facts.old) import.now.rows ≡ Some e)) }
    ensures same { OnErr result (relations_of facts.new ≡ relations_of facts.old) }
{
    let reply = count_rows(facts, import)?;
    Ok((set_rows(alloc, facts, import.rows())?, reply))
}

/// Sets each row in turn, and returns how to take them back.
fn set_rows(alloc: Global, facts: &mut Facts, rows: &[Row]) -> Result<Undo, Refusal>
    ensures ok { OnOk result (relations_of facts.new ≡ changes.with_rows (relations_of facts.old) rows.now) }
    ensures back { IfOk result (λ undo.
        undoing.TakesBack undo (relations_of facts.new) (relations_of facts.old)) }
    ensures memory { OnlyMemory result }
    ensures same { OnErr result (relations_of facts.new ≡ relations_of facts.old) }
{
    let mut kept = KeptRows::none(alloc);
    match put_rows(facts, &mut kept, rows) {
        Ok(()) => Ok(Undo::Rows(kept)),
        Err(refusal) => {
            kept.take_back(facts);
            Err(refusal)
        }
    }
}

/// Checks the references of a row in the order of its columns.
fn check_row(facts: &Facts, row: &Row) -> Result<(), Refusal>
    ensures { result_err result
        ≡ changes.first_refusal (changes.row_checks (relations_of facts.now) row.now) }
{
    match row {
        Row::OfSession(_, _) | Row::OfHall(_, _) | Row::OfCandidate(_, _) => Ok(()),
        Row::OfPaper(_, paper) => unknown::check_session(facts, &paper.session),
        Row::OfOpening(session, hall, _) => {
            unknown::check_session(facts, session)?;
            unknown::check_hall(facts, hall)
        }
        Row::OfEntry(number, paper) => {
            unknown::check_candidate(facts, number)?;
            unknown::check_paper(facts, paper)
        }
        Row::OfArrangement(number, _) => unknown::check_candidate(facts, number),
    }
}

/// Sets each row in turn, and keeps the rows that this changes, even if it is refused halfway.
fn put_rows(facts: &mut Facts, kept: &mut KeptRows, rows: &[Row]) -> Result<(), Refusal>
    ensures ok { OnOk result (relations_of facts.new ≡ changes.with_rows (relations_of facts.old) rows.now) }
    ensures back { (first : Relations) → undoing.RowsGoBack kept.old (relations_of facts.old) first
        → undoing.RowsGoBack kept.new (relations_of facts.new) first }
    ensures memory { OnlyMemory result }
{
    for row in rows {
        put_row(facts, kept, row)?;
    }
    Ok(())
}

/// Adds a row with a new key, and replaces the row of a present key. Leaves an entry as it is if it exists, and makes a
/// new one live. Keeps what it changes.
fn put_row(facts: &mut Facts, kept: &mut KeptRows, row: &Row) -> Result<(), Refusal>
    ensures ok { OnOk result (relations_of facts.new ≡ changes.with_row (relations_of facts.old) row.now) }
    ensures back { (first : Relations) → undoing.RowsGoBack kept.old (relations_of facts.old) first
        → undoing.RowsGoBack kept.new (relations_of facts.new) first }
    ensures memory { OnlyMemory result }
{
    facts.show_order();
    match is_stored(facts, row) {
        Some(true) => Ok(()),
        Some(false) | None => set_row(facts, kept, row),
    }
}

/// Sets the key of the row, which must not have this row yet, and keeps what the key had.
fn set_row(facts: &mut Facts, kept: &mut KeptRows, row: &Row) -> Result<(), Refusal>
    requires { replies.is_same (relations_of facts.old) row.now ≡ false }
    ensures ok { OnOk result (relations_of facts.new ≡ changes.with_row (relations_of facts.old) row.now) }
    ensures back { (first : Relations) → undoing.RowsGoBack kept.old (relations_of facts.old) first
        → undoing.RowsGoBack kept.new (relations_of facts.new) first }
    ensures memory { OnlyMemory result }
{
    match row {
        Row::OfSession(code, session) => {
            put_kept(&mut facts.sessions, &mut kept.sessions, *code, *session)
        }
        Row::OfPaper(code, paper) => {
            let copy = paper.clone()?;
            put_kept(&mut facts.papers, &mut kept.papers, *code, copy)
        }
        Row::OfHall(code, hall) => {
            let copy = hall.clone()?;
            put_kept(&mut facts.halls, &mut kept.halls, *code, copy)
        }
        Row::OfOpening(session, hall, opening) => {
            let key = (*session, *hall);
            put_kept(&mut facts.openings, &mut kept.openings, key, *opening)
        }
        Row::OfCandidate(number, candidate) => {
            let copy = candidate.clone()?;
            put_kept(&mut facts.candidates, &mut kept.candidates, *number, copy)
        }
        Row::OfEntry(number, paper) => {
            let (key, entry) = ((*number, *paper), Entry { live: true });
            put_kept(&mut facts.entries, &mut kept.entries, key, entry)
        }
        Row::OfArrangement(number, arrangement) => {
            let (facts, kept) = (&mut facts.arrangements, &mut kept.arrangements);
            put_kept(facts, kept, *number, *arrangement)
        }
    }
}

/// How many distinct rows are new, replace another row, and are the same. Refuses the first row, in the order of the
/// file, that refers to what does not exist.
fn count_rows(facts: &Facts, import: &Import) -> Result<Reply, Refusal>
    ensures checked { result_err result ≡ changes.rows_refusal (relations_of facts.now) import.now.rows }
    ensures counts { IfOk result (λ reply. reply
        ≡ replies.import_reply (relations_of facts.now) import.now.rows) }
{
    let mut counts = Counts {
        added: 0,
        changed: 0,
        same: 0,
    };
    for (place, row) in import.rows().iter().enumerate() {
        check_row(facts, row)?;
        if import.is_first(place, row) {
            counts = counted(counts, is_stored(facts, row));
        }
    }
    Ok(Reply::Imported {
        added: counts.added,
        changed: counts.changed,
        same: counts.same,
    })
}

/// How many distinct keys were new, had another row, and had the same row.
#[derive(Clone, Copy)]
struct Counts {
    added: u32,
    changed: u32,
    same: u32,
}

/// The counts with one more key, whose stored row is the same, is another or does not exist.
fn counted(counts: Counts, stored: Option<bool>) -> Counts
    requires { counts.added + counts.changed + counts.same < 2 ^ 32 - 1 }
    ensures added { result.added ≡ counts.added + (if is_none stored then 1 else 0) }
    ensures changed { result.changed ≡ counts.changed + (if option_map_or not stored false then 1 else 0) }
    ensures same { result.same ≡ counts.same + (if option_map_or (λ same. same) stored false then 1 else 0) }
{
    match stored {
        None => Counts {
            added: counts.added + 1,
            ..counts
        },
        Some(false) => Counts {
            changed: counts.changed + 1,
            ..counts
        },
        Some(true) => Counts {
            same: counts.same + 1,
            ..counts
        },
    }
}

/// Whether the stored row is the same, or none if there is none. An entry that exists is the same, live or withdrawn.
fn is_stored(facts: &Facts, row: &Row) -> Option<bool>
    ensures { result ≡ replies.is_stored (relations_of facts.now) row.now }
{
    match row {
        Row::OfSession(code, session) => facts.sessions.get(code).map(|stored| *session == *stored),
        Row::OfPaper(code, paper) => facts.papers.get(code).map(|stored| *paper == *stored),
        Row::OfHall(code, hall) => facts.halls.get(code).map(|stored| *hall == *stored),
        Row::OfOpening(session, hall, opening) => is_opening_stored(facts, session, hall, opening),
        Row::OfCandidate(number, candidate) => facts
            .candidates
            .get(number)
            .map(|stored| *candidate == *stored),
        Row::OfEntry(number, paper) => facts.entries.get(&(*number, *paper)).map(|_| true),
        Row::OfArrangement(number, arrangement) => {
            facts
                .arrangements
                .get(number)
                .map(|stored| *arrangement == *stored)
        }
    }
}

fn is_opening_stored(
    facts: &Facts,
    session: &SessionCode,
    hall: &HallCode,
    opening: &Opening,
) -> Option<bool>
    ensures { result ≡ option_map (same_opening opening.now)
        (row_at opening_cmp facts.now.openings.entries (session.now, hall.now)) }
{
    facts
        .openings
        .get(&(*session, *hall))
        .map(|stored| *opening == *stored)
}
