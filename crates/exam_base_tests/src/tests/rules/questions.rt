//! Questions of the facts, and what the rules answer.
use super::promised::{end_of, hall_fits, paper_sat, papers_not_sat, problem_of};
use exam_rules::{Facts, arrangement_in_force, is_member, session_lists};
use exam_school::Words;
use exam_types::{Number, SessionCode};
use std::alloc::Global;
use std::test::Fail;

/// The needs and the extra time of a candidate that are in force.
fn in_force(
    alloc: Global,
    facts: &Facts,
    session: &SessionCode,
    number: Number,
) -> Result<String, Fail> {
    let arrangement = arrangement_in_force(facts, session, number);
    let mut text = Vec::new(alloc);
    arrangement.needs.write_to(&mut text)?;
    text.push(b' ')?;
    arrangement.extra.write_to(&mut text)?;
    Ok(String::from_utf8(text).ok().ok_or("text")?)
}

/// Candidates, each with a paper that they do not sit.
fn all_clashes(alloc: Global, facts: &Facts, session: &SessionCode) -> Result<String, Fail> {
    let mut text = String::new(alloc);
    for (number, paper) in &papers_not_sat(alloc, facts, session)? {
        let number = number.get();
        text.push_str(format!(in alloc; "{number} {paper} ")?.as_str())?;
    }
    Ok(text)
}

/// Who is listed, whether they are members, and how many halls are open.
fn listed(alloc: Global, facts: &Facts, session: &SessionCode) -> Result<String, Fail> {
    let lists = session_lists(alloc, facts)?;
    let mut text = String::new(alloc);
    for entrant in lists.members_of(session) {
        let number = entrant.number.get();
        let is_member = is_member(facts, session, entrant.number);
        text.push_str(format!(in alloc; "{number} {is_member} ")?.as_str())?;
    }
    let halls = lists.halls_of(session).len();
    text.push_str(format!(in alloc; "halls {halls}")?.as_str())?;
    Ok(text)
}

/// The places of the halls that fit the candidate at a place, and their place in the order of desks.
fn row(alloc: Global, facts: &Facts, session: &SessionCode, place: usize) -> Result<String, Fail> {
    let problem = problem_of(alloc, facts, session)?;
    if place >= problem.candidate_count() {
        return Err(Fail::new("no place"));
    }
    let fitting = problem.fitting(place);
    let mut text = String::new(alloc);
    for hall in 0..problem.hall_count() {
        if fitting.contains(hall) {
            text.push_str(format!(in alloc; "{hall} ")?.as_str())?;
        }
    }
    let rank = problem.rank(place);
    text.push_str(format!(in alloc; "rank {rank}")?.as_str())?;
    Ok(text)
}

/// How a session is refused, and whether a candidate sits nothing there.
fn refusals(
    alloc: Global,
    facts: &Facts,
    session: &SessionCode,
    number: Number,
) -> Result<String, Fail> {
    let of_problem = problem_of(alloc, facts, session).err();
    let of_clashes = papers_not_sat(alloc, facts, session).err();
    let is_away = paper_sat(facts, session, number).is_none();
    Ok(format!(in alloc; "{of_problem:?} {of_clashes:?} {is_away}")?)
}

/// The answer to a question of a candidate in session S1.
fn answer_of(
    alloc: Global,
    facts: &Facts,
    word: &str,
    number: Number,
    words: &mut Words<'_>,
) -> Result<String, Fail> {
    let session = Words::of("S1").session()?;
    match word {
        "finish" => {
            let end = end_of(facts, &session, number).ok_or("finish")?.get();
            Ok(format!(in alloc; "{end}")?)
        }
        "fits" => {
            let fits = hall_fits(facts, &session, number, &words.hall()?);
            Ok(format!(in alloc; "{fits}")?)
        }
        "sits" => {
            let paper = paper_sat(facts, &session, number).ok_or("paper")?;
            Ok(format!(in alloc; "{paper}")?)
        }
        "in-force" => in_force(alloc, facts, &session, number),
        _ => Err(Fail::new("no question")),
    }
}

/// The answer to a question.
pub fn answer(alloc: Global, facts: &Facts, asked: &str) -> Result<String, Fail> {
    let session = Words::of("S1").session()?;
    let mut words = Words::of(asked);
    match words.next() {
        "clashes" => all_clashes(alloc, facts, &session),
        "listed" => listed(alloc, facts, &session),
        "row" => row(alloc, facts, &session, words.next().parse()?),
        "refusals" => {
            let session = words.session()?;
            refusals(alloc, facts, &session, words.number()?)
        }
        word => {
            let number = words.number()?;
            answer_of(alloc, facts, word, number, &mut words)
        }
    }
}
