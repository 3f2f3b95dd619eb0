//! What a command line may say.
ghost use Rattle.exam_line.specs.Dated.{IsOn};

use exam_commands::{Command, Kind};
use exam_types::{Day, HallCode, PaperCode, SessionCode};

/// What a line tells the program to do.
#[derive(Drop)]
pub enum Job<'a> {
    /// Makes an empty office if the database has no table, index or view, and otherwise opens the office that it holds.
    Init,
    /// Brings an office of an earlier version to the newest one.
    Migrate,
    /// Looks for the first bad table of the database.
    Check,
    /// Imports the file at the path.
    Import { kind: Kind, file: &'a str },
    /// Applies a command of the office on the day, which is the line's.
    Apply((Command, Day)),
    /// Answers candidates over HTTP on the port, which is not 0.
    Serve { port: u16 },
    /// Prints a sheet of the session.
    Sheet { session: SessionCode, sheet: Sheet },
}

/// The kinds of sheets.
#[derive(Clone, Copy)]
pub enum Sheet {
    DoorList(HallCode),
    Attendance(PaperCode),
    Clashes,
    Shortage,
    Appeals,
    Export,
}

/// A command line that was understood.
#[derive(Drop)]
pub struct Line<'a> {
    /// The path of the database, exactly as it was given.
    pub db: &'a str,
    /// The day of the option `--today`.
    pub today: Day,
    pub job: Job<'a>,
    ghost dated: { IsOn today job },
}

/// Why the words of a command line are not accepted.
#[derive(Drop)]
pub enum LineFault {
    /// Words that the program does not take, or a value of the wrong form.
    NotUnderstood,
    /// A request for help, of the program or of a command, with its text.
    Help(String),
    /// A request for the version.
    Version,
    NoMemory,
}
