//! Steps of a day at the school, with what the program prints or answers.
use std::test::Fail;

/// A step of a text: a command, the lines below it, and what is printed or answered.
#[derive(Clone, Copy)]
pub struct Step<'a> {
    pub line: &'a str,
    pub file: &'a str,
    pub answer: &'a str,
}

impl Step<'_> {
    /// The step that stands behind a `$ `.
    pub fn parse(part: &str) -> Option<Step<'_>> {
        let (line, rest) = part.split_once('\n')?;
        let file = file_of(rest);
        let answer = rest.strip_prefix(file)?;
        Some(Step { line, file, answer })
    }
}

/// The lines below a command up to the answer.
fn file_of(rest: &str) -> &str {
    for mark in ["> ", "! ", "? "] {
        if let Some((file, _)) = rest.split_once(mark) {
            return file;
        }
    }
    rest
}

/// Compares the answer that was found at a place with the one of its text.
pub fn expect_same(found: &str, wanted: &str, place: &str) -> Result<(), Fail> {
    if found == wanted {
        return Ok(());
    }
    Err(Fail::new(format_args!("{place}: {found} in place of {wanted}")))
}

/// Compares the answer to a question with the one of its text, where `-` stands for no word at all.
pub fn expect_answer(found: &str, wanted: &str, asked: &str) -> Result<(), Fail> {
    match found.trim_end() {
        "" => expect_same("-", wanted, asked),
        found => expect_same(found, wanted, asked),
    }
}

/// The day of a command that names none.
const MAY_1: &str = "2027-05-01";

/// A command, and its day, which may be named behind it.
pub fn dated(line: &str) -> (&str, &str) {
    line.split_once(" on ").unwrap_or((line, MAY_1))
}
