//! What no other crate's proof needs of the rules: these functions promise it in turn, so they are no longer proved if a
//! rule promises less.
ghost use Rattle.std.specs.Prelude.{◌≡◌, ◌&&◌, IfOk, IfErr, IsTrue, None, OnOk, if◌then◌else◌};
ghost use Rattle.exam_rules.specs.Names.{ListsRise};
ghost use Rattle.exam_rules.specs.Relations.{code_cmp, has_row, relations_of};
ghost use Rattle.exam_rules.specs.Seatings as seatings;
ghost use Rattle.exam_rules.specs.Sessions as spec;

use exam_plan::Problem;
use exam_rules::{Facts, clashes, finish, fits, problem, sitting};
use exam_types::{HallCode, Minute, Number, PaperCode, Refusal, SessionCode};
use std::alloc::Global;

/// The paper that a member sits.
pub fn paper_sat(facts: &Facts, session: &SessionCode, number: Number) -> Option<PaperCode>
    ensures { result ≡ (if spec.is_member (relations_of facts.now) session.now number
        then spec.sitting (relations_of facts.now) session.now number else None) }
{
    sitting(facts, session, number)
}

/// When a member ends.
pub fn end_of(facts: &Facts, session: &SessionCode, number: Number) -> Option<Minute>
    ensures { result ≡ (if spec.is_member (relations_of facts.now) session.now number
        then spec.finish (relations_of facts.now) session.now number else None) }
{
    finish(facts, session, number)
}

/// Whether a hall is opened for a member and fits.
pub fn hall_fits(facts: &Facts, session: &SessionCode, number: Number, hall: &HallCode) -> bool
    ensures { result ≡ (spec.is_member (relations_of facts.now) session.now number
        && seatings.fits (relations_of facts.now) session.now number hall.now) }
{
    fits(facts, session, number, hall)
}

/// The members with the papers that they do not sit.
pub fn papers_not_sat(
    alloc: Global,
    facts: &Facts,
    session: &SessionCode,
) -> Result<Vec<(Number, PaperCode)>, Refusal>
    ensures ok { IfOk result (λ list. list.items ≡ spec.clashes (relations_of facts.now) session.now) }
    ensures known { OnOk result (IsTrue (has_row code_cmp facts.now.sessions.entries session.now)) }
    ensures refusal { IfErr result (spec.IsSessionRefusal (relations_of facts.now) session.now) }
{
    clashes(alloc, facts, session)
}

/// The seating problem of a session.
pub fn problem_of(alloc: Global, facts: &Facts, session: &SessionCode) -> Result<Problem, Refusal>
    ensures ok { IfOk result (λ p. p ≡ seatings.problem_of (relations_of facts.now) session.now) }
    ensures lists { OnOk result (ListsRise (relations_of facts.now) session.now) }
    ensures known { OnOk result (IsTrue (has_row code_cmp facts.now.sessions.entries session.now)) }
    ensures refusal { IfErr result (seatings.IsProblemRefusal (relations_of facts.now) session.now) }
{
    problem(alloc, facts, session)
}
