//! Refusals of what does not exist.
ghost use Rattle.std.specs.Prelude.{◌≡◌, ◌∷◌, []};
ghost use Rattle.std.specs.Result.{result_err};
ghost use Rattle.exam_rules.specs.Relations.{relations_of};
ghost use Rattle.exam_commands.specs.Changes.{first_refusal, no_session, no_paper, no_candidate, no_hall};

use exam_rules::Facts;
use exam_types::{HallCode, Number, PaperCode, Refusal, SessionCode};

/// Refused with `UnknownSession` if there is no session with this code.
pub fn check_session(facts: &Facts, code: &SessionCode) -> Result<(), Refusal>
    ensures { result_err result ≡ first_refusal (no_session (relations_of facts.now) code.now ∷ []) }
{
    if facts.sessions.contains_key(code) {
        Ok(())
    } else {
        Err(Refusal::UnknownSession)
    }
}

/// Refused with `UnknownPaper` if there is no paper with this code.
pub fn check_paper(facts: &Facts, code: &PaperCode) -> Result<(), Refusal>
    ensures { result_err result ≡ first_refusal (no_paper (relations_of facts.now) code.now ∷ []) }
{
    if facts.papers.contains_key(code) {
        Ok(())
    } else {
        Err(Refusal::UnknownPaper)
    }
}

/// Refused with `UnknownCandidate` if there is no candidate with this number.
pub fn check_candidate(facts: &Facts, number: &Number) -> Result<(), Refusal>
    ensures { result_err result ≡ first_refusal (no_candidate (relations_of facts.now) number.now ∷ []) }
{
    if facts.candidates.contains_key(number) {
        Ok(())
    } else {
        Err(Refusal::UnknownCandidate)
    }
}

/// Refused with `UnknownHall` if there is no hall with this code.
pub fn check_hall(facts: &Facts, code: &HallCode) -> Result<(), Refusal>
    ensures { result_err result ≡ first_refusal (no_hall (relations_of facts.now) code.now ∷ []) }
{
    if facts.halls.contains_key(code) {
        Ok(())
    } else {
        Err(Refusal::UnknownHall)
    }
}
