//! Retracting an appeal.
ghost use Rattle.std.specs.Prelude.{◌≡◌, ◌⊎◌, None, Some, IfOk, IfErr, OnOk, OnErr};
ghost use Rattle.exam_types.specs.declared.refusal.Refusal.TheVariants.{NoMemory};
ghost use Rattle.exam_rules.specs.Relations.{relations_of};
ghost use Rattle.exam_commands.specs.Lodgings as spec;
ghost use Rattle.exam_changes.specs.Undoing as undoing;

use crate::deciding::with_status;
use crate::rows::exchange;
use crate::undo::Undo;
use exam_rules::{Appeal, Facts, Status};
use exam_types::{Number, Reference, Refusal};

/// Retracts the appeal, unless it is retracted already, and returns how to take this back. Refused for an unknown
/// appeal, for one that has been decided, and if there is not enough memory for a copy of its reason. After a refusal
/// the facts are as before.
pub fn retract(facts: &mut Facts, number: Number, reference: Reference) -> Result<Undo, Refusal>
    ensures ok { OnOk result (relations_of facts.new
        ≡ spec.with_retraction (relations_of facts.old) number reference) }
    ensures back { IfOk result (λ undo.
        undoing.TakesBack undo (relations_of facts.new) (relations_of facts.old)) }
    ensures checked { OnOk result
        (spec.retraction_refusal (relations_of facts.old) number reference ≡ None) }
    ensures refusal { IfErr result (λ e. (e ≡ NoMemory)
        ⊎ (spec.retraction_refusal (relations_of facts.old) number reference ≡ Some e)) }
    ensures same { OnErr result (relations_of facts.new ≡ relations_of facts.old) }
{
    let Some(appeal) = facts.appeals.get(&(number, reference)) else {
        return Err(Refusal::UnknownAppeal);
    };
    match &appeal.status {
        Status::Pending => {
            let retracted = with_status(appeal, Status::Retracted)?;
            let old = exchange(&mut facts.appeals, (number, reference), retracted);
            Ok(Undo::Appeal((number, reference), old))
        }
        Status::Retracted => Ok(Undo::Nothing),
        _ => Err(Refusal::NotOpenAppeal),
    }
}
