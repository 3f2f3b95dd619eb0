//! Closing a hall for a session.
ghost use Rattle.std.specs.Prelude.{◌≡◌, ◌⊎◌, None, Some, IfOk, IfErr, OnOk, OnErr};
ghost use Rattle.std.specs.Result.{result_err};
ghost use Rattle.exam_types.specs.declared.refusal.Refusal.TheVariants.{NoMemory};
ghost use Rattle.exam_types.specs.Refusals.{OnlyMemory};
ghost use Rattle.exam_rules.specs.Relations.{relations_of};
ghost use Rattle.exam_commands.specs.Changes as changes;
ghost use Rattle.exam_changes.specs.Undoing as spec;

use crate::undo::Undo;
use crate::unknown::{check_hall, check_session};
use exam_rules::Facts;
use exam_types::{HallCode, Refusal, SessionCode};
use std::mem::replace;

/// Closes the hall for the session, and returns how to take this back. Refused, in this order, for an unknown session,
/// an unknown hall, or a hall that is not opened; and if there is not enough memory. After a refusal the facts are as
/// before.
pub fn close(facts: &mut Facts, session: SessionCode, hall: HallCode) -> Result<Undo, Refusal>
    ensures ok { OnOk result (relations_of facts.new
        ≡ changes.without_opening (relations_of facts.old) session hall) }
    ensures back { IfOk result (λ undo.
        spec.TakesBack undo (relations_of facts.new) (relations_of facts.old)) }
    ensures checked { OnOk result (changes.closing_refusal (relations_of facts.old) session hall ≡ None) }
    ensures refusal { IfErr result (λ e. (e ≡ NoMemory)
        ⊎ (changes.closing_refusal (relations_of facts.old) session hall ≡ Some e)) }
    ensures same { OnErr result (relations_of facts.new ≡ relations_of facts.old) }
{
    check_closing(facts, session, hall)?;
    remove_opening(facts, session, hall)
}

/// Replaces the openings by a copy without this one.
fn remove_opening(facts: &mut Facts, session: SessionCode, hall: HallCode) -> Result<Undo, Refusal>
    ensures ok { OnOk result (relations_of facts.new
        ≡ changes.without_opening (relations_of facts.old) session hall) }
    ensures back { IfOk result (λ undo.
        spec.TakesBack undo (relations_of facts.new) (relations_of facts.old)) }
    ensures memory { OnlyMemory result }
    ensures same { OnErr result (relations_of facts.new ≡ relations_of facts.old) }
{
    let mut openings = facts.openings.clone()?;
    let _ = openings.remove(&(session, hall));
    Ok(Undo::Openings(replace(&mut facts.openings, openings)))
}

/// Refuses, in this order, an unknown session, an unknown hall, or a hall that is not opened.
fn check_closing(facts: &Facts, session: SessionCode, hall: HallCode) -> Result<(), Refusal>
    ensures { result_err result ≡ changes.closing_refusal (relations_of facts.now) session hall }
{
    check_session(facts, &session)?;
    check_hall(facts, &hall)?;
    if !facts.openings.contains_key(&(session, hall)) {
        return Err(Refusal::HallNotOpened);
    }
    Ok(())
}
