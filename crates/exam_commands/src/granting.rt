//! Grants, and the earlier grant that one supersedes.
ghost use Rattle.std.specs.Prelude.{◌≡◌};
ghost use Rattle.std.specs.List.{find};
ghost use Rattle.std.specs.Map.Iter.{deref_pair};
ghost use Rattle.std.specs.Option.{option_map};
ghost use Rattle.exam_rules.specs.Relations.{relations_of};
ghost use Rattle.exam_commands.specs.Appeals as appeals;
ghost use Rattle.exam_commands.specs.Decisions as spec;
ghost use Rattle.exam_commands.specs.Touched as touched;

use crate::appeals::is_same_kind;
use crate::command::{Decision, Outcome};
use exam_rules::{Appeal, Facts, Status, Subject, appeals_of};
use exam_types::{Number, Reference};

/// Whether the outcome is a grant.
pub fn is_grant(outcome: Outcome) -> bool
    ensures { result ≡ appeals.is_grant outcome }
{
    matches!(outcome, Outcome::Grant | Outcome::Standing)
}

/// Whether the outcome gives the appeal the mark of a standing grant.
pub fn bears_mark(outcome: Outcome) -> bool
    ensures { result ≡ appeals.bears_mark outcome }
{
    matches!(outcome, Outcome::Standing)
}

/// The granted appeal of the same candidate, session and kind that a grant of this one supersedes. In an office there
/// is at most one.
pub fn earlier_grant<'a>(
    facts: &'a Facts,
    number: Number,
    appeal: &Appeal,
) -> Option<(&'a (Number, Reference), &'a Appeal)>
    ensures { option_map deref_pair result
        ≡ find (spec.is_earlier number appeal.now.session appeal.now.subject) facts.now.appeals.entries }
{
    for (key, other) in appeals_of(facts, number) {
        if is_earlier(number, appeal, key, other) {
            return Some((key, other));
        }
    }
    None
}

/// Whether the decision, if it grants the appeal, supersedes a standing grant of another appeal.
pub fn ends_standing(facts: &Facts, decision: &Decision, appeal: &Appeal) -> bool
    ensures { result ≡ touched.ends_standing (relations_of facts.now) decision.now appeal.now }
{
    for (key, other) in appeals_of(facts, decision.number) {
        if is_ended(facts, decision, appeal, key, other) {
            return true;
        }
    }
    false
}

/// Whether the other appeal bears the mark of a standing grant that the decision, if it is a grant, supersedes.
fn is_ended(
    facts: &Facts,
    decision: &Decision,
    appeal: &Appeal,
    key: &(Number, Reference),
    other: &Appeal,
) -> bool
    ensures { result ≡ touched.is_ended (relations_of facts.now) decision.now appeal.now (key.now, other.now) }
{
    is_earlier(decision.number, appeal, key, other)
        && facts.standing.contains_key(key)
        && key.1 != decision.reference
}

/// Whether the other appeal is a grant that a grant of this one supersedes.
fn is_earlier(number: Number, appeal: &Appeal, key: &(Number, Reference), other: &Appeal) -> bool
    ensures { result ≡ spec.is_earlier number appeal.now.session appeal.now.subject (key.now, other.now) }
{
    key.0 == number
        && other.session == appeal.session
        && supersedes(&appeal.subject, &other.subject)
        && matches!(other.status, Status::Granted(_))
}

/// Whether a grant supersedes an earlier one. Granted hall appeals add up.
fn supersedes(subject: &Subject, earlier: &Subject) -> bool
    ensures { result ≡ appeals.supersedes subject.now earlier.now }
{
    match subject {
        Subject::Hall(_) => false,
        Subject::Clash(_) | Subject::Arrangement(_) => is_same_kind(subject, earlier),
    }
}
