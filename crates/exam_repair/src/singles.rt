//! Which appeals a candidate may have only once.
ghost use Rattle.std.specs.Prelude.{◌≡◌, IfOk};
ghost use Rattle.std.specs.Bool.{Decides};
ghost use Rattle.std.specs.List.{IsDistinct};
ghost use Rattle.std.specs.Ordering.{eq_by_cmp};
ghost use Rattle.exam_types.specs.Refusals.{OnlyMemory};
ghost use Rattle.exam_rules.specs.Relations.{Code, relations_of};
ghost use Rattle.exam_commands.specs.Singles as spec;

use exam_commands::Single;
use exam_rules::{Appeal, Facts, Status, Subject};
use exam_types::{Number, Refusal, SessionCode};
use std::alloc::Global;
use std::collections::BTreeSet;

/// Whether each candidate has at most one granted clash appeal, one granted arrangement appeal and one open
/// appeal of a kind in each session.
pub fn are_single(alloc: Global, facts: &Facts) -> Result<bool, Refusal>
    ensures ok { IfOk result (λ b. Decides b (spec.AreSingle (relations_of facts.now))) }
    ensures memory { OnlyMemory result }
{
    let mut keys = Vec::new(alloc);
    for (key, appeal) in &facts.appeals {
        if let Some(single) = single_key(key.0, appeal) {
            keys.push(single)?;
        }
    }
    are_distinct(alloc, &keys)
}

/// The key under which this appeal must be the only one, if it has one.
fn single_key(number: Number, appeal: &Appeal) -> Option<(SessionCode, Number, Single)>
    ensures { (reference : Code) → result ≡ spec.single_key ((number, reference), appeal.now) }
{
    let single = single_of(&appeal.status, &appeal.subject)?;
    Some((appeal.session, number, single))
}

/// Whether no two of the keys are equal.
fn are_distinct<K: Ord + Copy + Drop>(alloc: Global, keys: &[K]) -> Result<bool, Refusal>
    ensures ok { IfOk result (λ b. Decides b (IsDistinct (eq_by_cmp K.cmp) keys.now)) }
    ensures memory { OnlyMemory result }
{
    let mut seen = BTreeSet::new(alloc);
    for key in keys {
        if !seen.insert(*key)? {
            return Ok(false);
        }
    }
    Ok(true)
}

fn single_of(status: &Status, subject: &Subject) -> Option<Single>
    ensures { result ≡ spec.single_as status.now subject.now }
{
    match (status, subject) {
        (Status::Granted(_), Subject::Clash(_)) => Some(Single::GrantedClash),
        (Status::Granted(_), Subject::Arrangement(_)) => Some(Single::GrantedArrangement),
        (Status::Pending, Subject::Hall(_)) => Some(Single::OpenHall),
        (Status::Pending, Subject::Clash(_)) => Some(Single::OpenClash),
        (Status::Pending, Subject::Arrangement(_)) => Some(Single::OpenArrangement),
        _ => None,
    }
}
