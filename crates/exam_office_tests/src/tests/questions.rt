//! What an office answers to a command or a question.
use super::orders::order_of;
use super::own::own_text;
use super::parts::part_text;
use exam_office::{Command, Office, Reply, Seats, run, state_of, step, touched};
use exam_rules::{Facts, finish};
use exam_school::{Words, appeal_key, entry_of};
use exam_types::{Day, Number, PaperCode, Reference, Refusal, SessionCode};
use std::alloc::Global;
use std::test::Fail;

/// An answer to a command as the texts spell it.
pub fn text_of(alloc: Global, answer: &Result<Reply, Refusal>) -> Result<String, Fail> {
    match answer {
        Ok(reply) => Ok(format!(in alloc; "{reply:?}")?),
        Err(Refusal::PastClosing(day)) => Ok(format!(in alloc; "PastClosing {day}")?),
        Err(refusal) => Ok(format!(in alloc; "{refusal:?}")?),
    }
}

/// Takes a command. A function of its own, since what `step` promises would be carried through each branch behind it.
fn stepped(
    alloc: Global,
    office: &mut Office,
    command: &Command,
    today: Day,
) -> Result<Reply, Refusal> {
    step(alloc, office, command, today)
}

fn obeyed(alloc: Global, office: &mut Office, line: &str) -> Result<String, Fail> {
    let (command, today) = order_of(alloc, line)?;
    let reply = stepped(alloc, office, &command, today);
    text_of(alloc, &reply)
}

fn texts_of(alloc: Global, answers: &[Result<Reply, Refusal>]) -> Result<String, Fail> {
    let mut text = String::new(alloc);
    for answer in answers {
        text.push_str(text_of(alloc, answer)?.as_str())?;
        text.push(';')?;
    }
    Ok(text)
}

/// What commands answer when they are run as one list; a semicolon after each answer.
pub fn answers_of(
    alloc: Global,
    office: &mut Office,
    commands: &[(Command, Day)],
) -> Result<String, Fail> {
    let answers = run(alloc, office, commands)?;
    texts_of(alloc, answers.as_slice())
}

fn codes_of(alloc: Global, sessions: &[SessionCode]) -> Result<String, Fail> {
    let mut text = String::new(alloc);
    for code in sessions {
        text.push_str(format!(in alloc; "{code} ")?.as_str())?;
    }
    Ok(text)
}

/// The codes of the sessions that a command touches.
fn touched_by(alloc: Global, facts: &Facts, line: &str) -> Result<String, Fail> {
    let (command, _) = order_of(alloc, line)?;
    let sessions = touched(alloc, facts, &command)?;
    codes_of(alloc, sessions.as_slice())
}

/// Who sits in the session, each with their hall.
fn seated(alloc: Global, seats: &Seats, session: SessionCode) -> Result<String, Fail> {
    let mut text = String::new(alloc);
    for ((of, number), hall) in seats {
        if *of == session {
            let number = number.get();
            text.push_str(format!(in alloc; "{number} {hall} ")?.as_str())?;
        }
    }
    Ok(text)
}

/// The minute of the day at which a candidate ends in a session.
fn end_of(
    alloc: Global,
    facts: &Facts,
    session: &SessionCode,
    number: Number,
) -> Result<String, Fail> {
    let end = finish(facts, session, number).ok_or("finish")?.get();
    Ok(format!(in alloc; "{end}")?)
}

/// The state of an appeal.
fn stands(alloc: Global, facts: &Facts, key: (Number, Reference)) -> Result<String, Fail> {
    let appeal = facts.appeals.get(&key).ok_or("appeal")?;
    let state = state_of(&appeal.status);
    Ok(format!(in alloc; "{state:?}")?)
}

fn entered(alloc: Global, facts: &Facts, key: (Number, PaperCode)) -> Result<String, Fail> {
    let entry = facts.entries.get(&key).ok_or("entry")?;
    let text = if entry.live { "live" } else { "withdrawn" };
    Ok(String::from_str(alloc, text)?)
}

fn count_text(alloc: Global, count: usize) -> Result<String, Fail> {
    Ok(format!(in alloc; "{count}")?)
}

/// The answer to a question, or none if the word asks nothing.
fn told(alloc: Global, office: &Office, word: &str, rest: &str) -> Result<Option<String>, Fail> {
    let mut words = Words::of(rest);
    let text = match word {
        "seats" => seated(alloc, office.seats(), words.session()?),
        "finish" => {
            let session = words.session()?;
            end_of(alloc, office.facts(), &session, words.number()?)
        }
        "state" => stands(alloc, office.facts(), appeal_key(&mut words)?),
        "entry" => entered(alloc, office.facts(), entry_of(&mut words)?),
        "entries" => count_text(alloc, office.facts().entries.len()),
        "appeals" => count_text(alloc, office.facts().appeals.len()),
        "own" => own_text(alloc, office, words.number()?),
        "touched" => touched_by(alloc, office.facts(), rest),
        "part" => part_text(alloc, office, rest),
        _ => return Ok(None),
    };
    Ok(Some(text?))
}

/// The answer to a command or a question.
pub fn answer(alloc: Global, office: &mut Office, asked: &str) -> Result<String, Fail> {
    let (word, rest) = asked.split_once(' ').unwrap_or((asked, ""));
    match told(alloc, office, word, rest)? {
        Some(text) => Ok(text),
        None => obeyed(alloc, office, asked),
    }
}
