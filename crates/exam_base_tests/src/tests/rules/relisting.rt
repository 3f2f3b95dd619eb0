//! Sets one entry, lists its candidate again, and compares the lists with those made from all facts.
use exam_rules::{Facts, SessionLists, session_lists};
use exam_school::{OPENED, School, Words, add_fact, expect_answer, school_with};
use exam_types::{Number, SessionCode};
use std::alloc::Global;
use std::test::Fail;

/// The members of the session, each with their paper.
fn members(alloc: Global, lists: &SessionLists, session: &SessionCode) -> Result<String, Fail> {
    let mut text = String::new(alloc);
    for entrant in lists.members_of(session) {
        let number = entrant.number.get();
        let paper = entrant.paper;
        text.push_str(format!(in alloc; "{number} {paper} ")?.as_str())?;
    }
    Ok(text)
}

fn expect_members(
    alloc: Global,
    lists: &SessionLists,
    session: &SessionCode,
    wanted: &str,
) -> Result<(), Fail> {
    let text = members(alloc, lists, session)?;
    expect_answer(text.as_str(), wanted, "members")
}

/// Expects these members in the lists made from all facts.
fn expect_anew(
    alloc: Global,
    facts: &Facts,
    session: &SessionCode,
    wanted: &str,
) -> Result<(), Fail> {
    let lists = session_lists(alloc, facts)?;
    expect_members(alloc, &lists, session, wanted)
}

/// Lists the candidate again, and then puts the list back.
fn relist_and_back(
    alloc: Global,
    facts: &Facts,
    lists: &mut SessionLists,
    (session, number): (SessionCode, Number),
    wanted: &str,
) -> Result<(), Fail> {
    let old = lists.relist(alloc, facts, session, number)?;
    expect_members(alloc, lists, &session, wanted)?;
    lists.put_members(&session, old);
    Ok(())
}

/// Lists the candidate again, puts the list back, and expects the list as it was before.
fn relist_unseen(
    alloc: Global,
    facts: &Facts,
    lists: &mut SessionLists,
    key: (SessionCode, Number),
    wanted: &str,
) -> Result<(), Fail> {
    let before = members(alloc, lists, &key.0)?;
    relist_and_back(alloc, facts, lists, key, wanted)?;
    match before.as_str().trim_end() {
        "" => expect_members(alloc, lists, &key.0, "-"),
        before => expect_members(alloc, lists, &key.0, before),
    }
}

/// The session S1 and the candidate of an entry.
fn key_of(fact: &str) -> Result<(SessionCode, Number), Fail> {
    let mut words = Words::of(fact);
    let _ = words.next();
    let number = words.number()?;
    Ok((Words::of("S1").session()?, number))
}

/// Takes a turn: an entry that is set, and who is listed then.
fn take(
    alloc: Global,
    school: &mut School,
    lists: &mut SessionLists,
    turn: &str,
) -> Result<(), Fail> {
    let (fact, wanted) = turn.split_once(" > ").ok_or("turn")?;
    let key = key_of(fact)?;
    add_fact(alloc, school, fact)?;
    relist_unseen(alloc, &school.facts, lists, key, wanted)?;
    let _again = lists.relist(alloc, &school.facts, key.0, key.1)?;
    expect_members(alloc, lists, &key.0, wanted)?;
    expect_anew(alloc, &school.facts, &key.0, wanted)
}

fn take_all(
    alloc: Global,
    school: &mut School,
    lists: &mut SessionLists,
    turns: &str,
) -> Result<(), Fail> {
    for turn in turns.lines() {
        take(alloc, school, lists, turn)?;
    }
    Ok(())
}

/// Takes the turns in order. The lists begin as those of the school with these facts.
pub fn relist_each(alloc: Global, facts: &str, turns: &str) -> Result<(), Fail> {
    let mut school = school_with(alloc, &[OPENED, facts])?;
    let mut lists = session_lists(alloc, &school.facts)?;
    take_all(alloc, &mut school, &mut lists, turns)
}
