//! Withdrawing and reinstating an entry.
ghost use Rattle.std.specs.Prelude.{◌≡◌, ◌⊎◌, true, false, None, Some, IsTrue, IfOk, IfErr, OnOk, OnErr};
ghost use Rattle.std.specs.Result.{result_err};
ghost use Rattle.exam_types.specs.declared.refusal.Refusal.TheVariants.{NoMemory};
ghost use Rattle.exam_rules.specs.Relations.{entry_cmp, has_row, relations_of};
ghost use Rattle.exam_rules.specs.Sessions as sessions;
ghost use Rattle.exam_commands.specs.Changes as changes;
ghost use Rattle.exam_changes.specs.Undoing as spec;

use crate::rows::exchange;
use crate::undo::Undo;
use crate::unknown::{check_candidate, check_paper};
use exam_rules::{Entry, Facts};
use exam_types::{Number, PaperCode, Refusal};

/// Withdraws the entry, and returns how to take this back. Refused, in this order, for an unknown candidate, an unknown
/// paper, no such entry, or an entry that is already withdrawn. After a refusal the facts are as before. Takes no
/// memory.
pub fn withdraw(facts: &mut Facts, number: Number, paper: PaperCode) -> Result<Undo, Refusal>
    ensures ok { OnOk result (relations_of facts.new
        ≡ changes.with_live (relations_of facts.old) number paper false) }
    ensures back { IfOk result (λ undo.
        spec.TakesBack undo (relations_of facts.new) (relations_of facts.old)) }
    ensures checked { OnOk result (changes.withdrawal_refusal (relations_of facts.old) number paper ≡ None) }
    ensures refusal { IfErr result (λ e.
        changes.withdrawal_refusal (relations_of facts.old) number paper ≡ Some e) }
    ensures same { OnErr result (relations_of facts.new ≡ relations_of facts.old) }
{
    if !is_live(facts, number, paper)? {
        return Err(Refusal::AlreadyWithdrawn);
    }
    Ok(set_live(facts, number, paper, false))
}

/// Makes the entry live again, and returns how to take this back. Refused, in this order, for an unknown candidate, an
/// unknown paper, no such entry, or an entry that is not withdrawn. After a refusal the facts are as before. Tests no
/// limit. Takes no memory.
pub fn reinstate(facts: &mut Facts, number: Number, paper: PaperCode) -> Result<Undo, Refusal>
    ensures ok { OnOk result (relations_of facts.new
        ≡ changes.with_live (relations_of facts.old) number paper true) }
    ensures back { IfOk result (λ undo.
        spec.TakesBack undo (relations_of facts.new) (relations_of facts.old)) }
    ensures checked { OnOk result (changes.revival_refusal (relations_of facts.old) number paper ≡ None) }
    ensures refusal { IfErr result (λ e.
        changes.revival_refusal (relations_of facts.old) number paper ≡ Some e) }
    ensures same { OnErr result (relations_of facts.new ≡ relations_of facts.old) }
{
    if is_live(facts, number, paper)? {
        return Err(Refusal::NotWithdrawn);
    }
    Ok(set_live(facts, number, paper, true))
}

/// Makes an existing entry live or withdrawn.
fn set_live(facts: &mut Facts, number: Number, paper: PaperCode, live: bool) -> Undo
    requires { IsTrue (has_row entry_cmp facts.old.entries.entries (number, paper)) }
    ensures new { relations_of facts.new ≡ changes.with_live (relations_of facts.old) number paper live }
    ensures back { spec.TakesBack result (relations_of facts.new) (relations_of facts.old) }
{
    let old = exchange(&mut facts.entries, (number, paper), Entry { live });
    Undo::Entry((number, paper), old)
}

/// Whether the entry is live. Refused, in this order, for an unknown candidate, an unknown paper, or no such entry.
fn is_live(facts: &Facts, number: Number, paper: PaperCode) -> Result<bool, Refusal>
    ensures ok { IfOk result (λ live. live ≡ sessions.is_live (relations_of facts.now) number paper) }
    ensures refusal { result_err result
        ≡ changes.first_refusal (changes.entry_checks (relations_of facts.now) number paper) }
{
    check_candidate(facts, &number)?;
    check_paper(facts, &paper)?;
    match facts.entries.get(&(number, paper)) {
        Some(entry) => Ok(entry.live),
        None => Err(Refusal::NoEntry),
    }
}
