//! What granted appeals give a candidate in a session.
ghost use Rattle.std.specs.Prelude.{◌≡◌, ◌&&◌, nat_le, [], filter, codes, IfOk, Option};
ghost use Rattle.std.specs.List.{list_any};
ghost use Rattle.std.specs.BTreeMap.Range.{entries_between};
ghost use Rattle.std.specs.declared.ops.Bound.TheVariants.{Unbounded, Excluded};
ghost use Rattle.exam_types.specs.Refusals.{OnlyMemory};
ghost use Rattle.exam_rules.specs.Relations.{Code, relations_of, appeal_cmp, is_row_of, same_code};
ghost use Rattle.exam_rules.specs.Granted as granted;
ghost use Rattle.exam_rules.specs.Sessions as spec;

use crate::facts::Facts;
use crate::own_rows::OwnRows;
use crate::rows::{Appeal, Arrangement, Status, Subject};
use exam_types::{HallCode, Number, PaperCode, Reference, Refusal, SessionCode};
use std::alloc::Global;

/// The least reference, by which a candidate's appeals begin.
fn least_reference() -> Reference
    ensures { result ≡ codes "0" }
{
    Reference::parse(b"0").unwrap()
}

/// The candidate has no appeal before the least key. Only the proof of `appeals_of` uses it.
fn no_appeal_before(facts: &Facts, number: Number, least: Reference)
    requires { least ≡ codes "0" }
    ensures { filter (is_row_of number)
        (entries_between appeal_cmp Unbounded (Excluded (number, least)) facts.now.appeals.entries) ≡ [] }
{
    match facts.appeals.range(..(number, least)).next_back() {
        Some((key, _)) => {
            // Reading the bytes shows that no reference is less, so the row before is another candidate's.
            let _reference = key.1.as_bytes();
        }
        None => {}
    }
}

/// The candidate's appeals, by reference.
pub fn appeals_of<'a>(facts: &'a Facts, number: Number) -> OwnRows<'a, Reference, Appeal>
    ensures rows { result ≡ (number, filter (is_row_of number) facts.now.appeals.entries) }
    ensures granted { (s : Code)
        → spec.granted_subjects result.1 s number ≡ spec.granted_subjects facts.now.appeals.entries s number }
{
    let least = least_reference();
    no_appeal_before(facts, number, least);
    OwnRows::new(number, facts.appeals.range((number, least)..))
}

/// Whether the candidate has at most `most` appeals, in whatever state.
pub fn has_at_most(facts: &Facts, number: Number, most: usize) -> bool
    ensures { result ≡ nat_le (spec.appeal_count (relations_of facts.now) number) most }
{
    let mut count: usize = 0;
    for (_, _) in appeals_of(facts, number) {
        if count >= most {
            return false;
        }
        count += 1;
    }
    true
}

pub fn is_granted(status: &Status) -> bool
    ensures { result ≡ spec.is_granted status.now }
{
    matches!(status, Status::Granted(_))
}

fn is_granted_for(appeal: &Appeal, session: &SessionCode) -> bool
    ensures { result ≡ (same_code appeal.now.session session.now && spec.is_granted appeal.now.status) }
{
    appeal.session == *session && is_granted(&appeal.status)
}

/// The first value that `wanted` makes of a granted appeal.
fn first_granted<T, F: Fn(Subject) -> Option<T>>(
    facts: &Facts,
    session: &SessionCode,
    number: Number,
    wanted: F,
) -> Option<T>
    requires { F.IsAlwaysCallable wanted }
    ensures { (made : granted.Subject → Option T)
        → ((s : granted.Subject) (r : Option T) → F.post wanted s r → r ≡ made s)
        → result ≡ granted.first_made made facts.now.appeals.entries session.now number }
{
    for (_, appeal) in appeals_of(facts, number) {
        if is_granted_for(appeal, session) {
            if let Some(made) = wanted(appeal.subject) {
                return Some(made);
            }
        }
    }
    None
}

/// The paper of the granted clash appeal, or none.
pub fn granted_paper(facts: &Facts, session: &SessionCode, number: Number) -> Option<PaperCode>
    ensures { result ≡ spec.granted_paper (relations_of facts.now) session.now number }
{
    first_granted(facts, session, number, |subject| match subject {
        Subject::Clash(paper) => Some(paper),
        _ => None,
    })
}

/// The arrangement of the granted arrangement appeal, or none.
pub fn granted_arrangement(
    facts: &Facts,
    session: &SessionCode,
    number: Number,
) -> Option<Arrangement>
    ensures { result ≡ spec.granted_arrangement (relations_of facts.now) session.now number }
{
    first_granted(facts, session, number, |subject| match subject {
        Subject::Arrangement(arrangement) => Some(arrangement),
        _ => None,
    })
}

/// The hall, if the appeal asks for another one than it.
fn barred_by(hall: &HallCode, subject: Subject) -> Option<HallCode>
    ensures { result ≡ granted.barred_by hall.now subject }
{
    match subject {
        Subject::Hall(barred) => { if *hall == barred { Some(barred) } else { None } }
        _ => None,
    }
}

/// Whether a granted appeal of the candidate bars the hall.
#[tactic(auto, using(crate::proofs::Barring::any_barred))]
pub fn is_barred(facts: &Facts, session: &SessionCode, number: Number, hall: &HallCode) -> bool
    ensures { result
        ≡ list_any (same_code hall.now) (spec.barred_halls (relations_of facts.now) session.now number) }
{
    first_granted(facts, session, number, |subject| {
        barred_by(hall, subject)
    })
    .is_some()
}

/// The halls that granted appeals of the candidate bar.
pub fn barred_halls(
    alloc: Global,
    facts: &Facts,
    session: &SessionCode,
    number: Number,
) -> Result<Vec<HallCode>, Refusal>
    ensures ok { IfOk result (λ halls. halls.items
        ≡ spec.barred_halls (relations_of facts.now) session.now number) }
    ensures memory { OnlyMemory result }
{
    let mut halls = Vec::new(alloc);
    for (_, appeal) in appeals_of(facts, number) {
        if is_granted_for(appeal, session) {
            if let Subject::Hall(barred) = appeal.subject {
                halls.push(barred)?;
            }
        }
    }
    Ok(halls)
}
