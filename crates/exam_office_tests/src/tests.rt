//! What no clause says: that the definitions give what they should, on offices worked out by hand, and that calls
//! succeed.
//!
//! A test plays a text. The text has stories, each behind `# ` and its name. A story's lines without ` > ` are facts of
//! an office, and the others are commands and questions with their answers, in turn. So only a few functions own an
//! office, its facts or an import, and each is proved once.
mod appeals;
mod commands;
mod decisions;
mod examples;
mod limits;
mod near_limits;
mod opening;
mod orders;
mod own;
mod parts;
mod questions;
mod replies;
mod seating;
mod standing;
mod touching;

use exam_office::Office;
use exam_school::{School, expect_answer, school_with};
use questions::answer;
use std::alloc::Global;
use std::test::Fail;

/// The office of the school with these facts and seats.
fn office_of(alloc: Global, texts: &[&str]) -> Result<Office, Fail> {
    let School { facts, seats } = school_with(alloc, texts)?;
    Ok(Office::from_parts(alloc, facts, seats)?)
}

/// Takes a line: gives the command or asks the question, if it has an answer.
fn take(alloc: Global, office: &mut Office, line: &str) -> Result<(), Fail> {
    match line.split_once(" > ") {
        Some((asked, wanted)) => {
            let found = answer(alloc, office, asked)?;
            expect_answer(found.as_str(), wanted, asked)
        }
        None => Ok(()),
    }
}

fn take_all(alloc: Global, office: &mut Office, lines: &str) -> Result<(), Fail> {
    for line in lines.lines() {
        take(alloc, office, line)?;
    }
    Ok(())
}

/// Tells a story at an office that begins with these facts and those of the story.
fn tell(alloc: Global, facts: &str, story: &str) -> Result<(), Fail> {
    let (_, lines) = story.split_once('\n').ok_or("story")?;
    let mut office = office_of(alloc, &[facts, lines])?;
    take_all(alloc, &mut office, lines)
}

/// Tells the stories of a text. These facts stand at the beginning of each.
fn play(alloc: Global, facts: &str, text: &str) -> Result<(), Fail> {
    for story in text.split("# ").skip(1) {
        tell(alloc, facts, story)?;
    }
    Ok(())
}
