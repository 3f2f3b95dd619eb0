//! The words of a line, and the values that they spell.
use exam_types::{Day, Features, HallCode, Number, PaperCode, Reason, Reference, SessionCode};
use std::alloc::Global;
use std::str;
use std::test::Fail;

/// What is left of a line.
#[derive(Clone, Copy)]
pub struct Words<'a> {
    left: &'a str,
}

impl<'a> Words<'a> {
    pub fn of(line: &'a str) -> Words<'a> {
        Words { left: line }
    }

    /// The next word; empty behind the last.
    pub fn next(&mut self) -> &'a str {
        let (word, left) = self.left.split_once(' ').unwrap_or((self.left, ""));
        self.left = left;
        word
    }

    pub fn number(&mut self) -> Result<Number, Fail> {
        let value: u32 = self.next().parse()?;
        Ok(Number::new(value).ok_or("number")?)
    }

    pub fn session(&mut self) -> Result<SessionCode, Fail> {
        Ok(SessionCode::parse(self.next().as_bytes()).ok_or("session")?)
    }

    pub fn paper(&mut self) -> Result<PaperCode, Fail> {
        Ok(PaperCode::parse(self.next().as_bytes()).ok_or("paper")?)
    }

    pub fn hall(&mut self) -> Result<HallCode, Fail> {
        Ok(HallCode::parse(self.next().as_bytes()).ok_or("hall")?)
    }

    pub fn features(&mut self) -> Result<Features, Fail> {
        Ok(Features::parse(self.next().as_bytes()).ok_or("features")?)
    }

    pub fn reference(&mut self) -> Result<Reference, Fail> {
        Ok(Reference::parse(self.next().as_bytes()).ok_or("reference")?)
    }

    pub fn day(&mut self) -> Result<Day, Fail> {
        Ok(Day::parse(self.next().as_bytes()).ok_or("day")?)
    }

    pub fn reason(&mut self, alloc: Global) -> Result<Reason, Fail> {
        Ok(Reason::parse(alloc, self.next().as_bytes())?.ok_or("reason")?)
    }
}

/// The code of the hall, or `-` for none.
pub fn code_or_dash(hall: &Option<HallCode>) -> &str {
    match hall {
        Some(code) => str::from_utf8(code.as_bytes()).unwrap_or("-"),
        None => "-",
    }
}
