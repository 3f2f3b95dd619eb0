//! The rows of imports.
ghost use Rattle.std.specs.Prelude.{◌≡◌};
ghost use Rattle.exam_commands.specs.Imports.{key_of};

use exam_rules::{Arrangement, Candidate, Hall, Opening, Paper, Session};
use exam_types::{HallCode, Number, PaperCode, SessionCode};

/// The kinds of imports.
#[derive(Clone, Copy, Debug, PartialEq, Eq)]
pub enum Kind {
    Sessions,
    Papers,
    Halls,
    Openings,
    Candidates,
    Entries,
    Arrangements,
}

/// A row of an import: the key, and what the row sets. An entry has nothing beside its key.
#[derive(PartialEq, Eq, Drop)]
pub enum Row {
    OfSession(SessionCode, Session),
    OfPaper(PaperCode, Paper),
    OfHall(HallCode, Hall),
    OfOpening(SessionCode, HallCode, Opening),
    OfCandidate(Number, Candidate),
    OfEntry(Number, PaperCode),
    OfArrangement(Number, Arrangement),
}

/// The key of a row among the rows of its kind.
#[derive(Clone, Copy, PartialEq, Eq, PartialOrd, Ord)]
pub enum Key {
    OfSession(SessionCode),
    OfPaper(PaperCode),
    OfHall(HallCode),
    OfOpening(SessionCode, HallCode),
    OfCandidate(Number),
    OfEntry(Number, PaperCode),
    OfArrangement(Number),
}

impl Row {
    /// The key of the row.
    pub fn key(&self) -> Key
        ensures { result ≡ key_of self.now }
    {
        match self {
            Row::OfSession(code, _) => Key::OfSession(*code),
            Row::OfPaper(code, _) => Key::OfPaper(*code),
            Row::OfHall(code, _) => Key::OfHall(*code),
            Row::OfOpening(session, hall, _) => Key::OfOpening(*session, *hall),
            Row::OfCandidate(number, _) => Key::OfCandidate(*number),
            Row::OfEntry(number, paper) => Key::OfEntry(*number, *paper),
            Row::OfArrangement(number, _) => Key::OfArrangement(*number),
        }
    }
}
