//! The clashes of a session.
ghost use Rattle.std.specs.Prelude.{◌≡◌, ◌++◌, IsTrue, IfOk, IfErr, OnOk};
ghost use Rattle.std.specs.List.{flat_map};
ghost use Rattle.exam_types.specs.Refusals.{OnlyMemory};
ghost use Rattle.exam_rules.specs.Relations.{relations_of, code_cmp, has_row};
ghost use Rattle.exam_rules.specs.Sessions as spec;

use crate::facts::Facts;
use crate::listing::{lists_with, numbers_of};
use crate::sessions::{entries_of, is_clash, is_paper_of, sitting_by_entries};
use exam_types::{Number, PaperCode, Refusal, SessionCode};
use std::alloc::Global;

/// The members with their live papers that they do not sit, by number and code. Refused if there is no such
/// session, or if memory runs out.
pub fn clashes(
    alloc: Global,
    facts: &Facts,
    session: &SessionCode,
) -> Result<Vec<(Number, PaperCode)>, Refusal>
    ensures ok { IfOk result (λ list. list.items ≡ spec.clashes (relations_of facts.now) session.now) }
    ensures known { OnOk result (IsTrue (has_row code_cmp facts.now.sessions.entries session.now)) }
    ensures refusal { IfErr result (spec.IsSessionRefusal (relations_of facts.now) session.now) }
{
    let lists = lists_with(alloc, facts, session)?;
    let numbers = numbers_of(alloc, lists.members_of(session))?;
    clashes_among(alloc, facts, session, &numbers)
}

/// The clashes of these candidates in the session, in their order.
pub fn clashes_among(
    alloc: Global,
    facts: &Facts,
    session: &SessionCode,
    numbers: &[Number],
) -> Result<Vec<(Number, PaperCode)>, Refusal>
    ensures ok { IfOk result (λ list. list.items
        ≡ flat_map (spec.clashes_of (relations_of facts.now) session.now) numbers.now) }
    ensures memory { OnlyMemory result }
{
    let mut list = Vec::new(alloc);
    for number in numbers {
        push_clashes(&mut list, facts, session, *number)?;
    }
    Ok(list)
}

/// Appends the candidate's live papers that they do not sit.
fn push_clashes(
    list: &mut Vec<(Number, PaperCode)>,
    facts: &Facts,
    session: &SessionCode,
    number: Number,
) -> Result<(), Refusal>
    ensures ok { OnOk result (list.new.items ≡ list.old.items
        ++ spec.clashes_of (relations_of facts.now) session.now number) }
    ensures memory { OnlyMemory result }
{
    let sat = sitting_by_entries(facts, session, number);
    for (key, entry) in entries_of(facts, number) {
        if entry.live && is_paper_of(facts, session, &key.1) && is_clash(&sat, &key.1) {
            list.push((number, key.1))?;
        }
    }
    Ok(())
}
