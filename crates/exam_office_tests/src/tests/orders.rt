//! Commands in words: `import entries 1 MA-1, 2 MA-1` with the rows of a file, `withdraw 1 MA-1`, `reinstate 1 MA-1`,
//! `close-hall S1 A`, `lodge 1 HA1 S1 hall B draught`, `retract 1 HA1`, and `decide 1 HA1 granted`, `refused` or
//! `standing`. Behind a command `on` names its day.
ghost use Rattle.std.specs.Prelude.{◌≡◌, IfOk};
ghost use Rattle.exam_commands.specs.Imports.{kind_of as spec_kind_of};

use exam_office::{Command, Decision, Import, Kind, Lodging, Outcome, Row};
use exam_school::{
    Words, appeal_key, arrangement_of, candidate_of, dated, entry_of, hall_of, opening_of,
    paper_of, session_of, subject_of,
};
use exam_types::{Day, Reason, Refusal};
use std::alloc::Global;
use std::test::Fail;

fn kind_of(word: &str) -> Result<Kind, Fail> {
    match word {
        "sessions" => Ok(Kind::Sessions),
        "papers" => Ok(Kind::Papers),
        "halls" => Ok(Kind::Halls),
        "openings" => Ok(Kind::Openings),
        "candidates" => Ok(Kind::Candidates),
        "entries" => Ok(Kind::Entries),
        "arrangements" => Ok(Kind::Arrangements),
        _ => Err(Fail::new("no kind")),
    }
}

/// The row of a kind that the words say.
fn row_of(alloc: Global, kind: Kind, words: &mut Words<'_>) -> Result<Row, Fail>
    ensures { IfOk result (λ row. spec_kind_of row ≡ kind) }
{
    match kind {
        Kind::Sessions => {
            let (code, row) = session_of(words)?;
            Ok(Row::OfSession(code, row))
        }
        Kind::Papers => {
            let (code, row) = paper_of(alloc, words)?;
            Ok(Row::OfPaper(code, row))
        }
        Kind::Halls => {
            let (code, row) = hall_of(alloc, words)?;
            Ok(Row::OfHall(code, row))
        }
        Kind::Openings => {
            let ((session, hall), row) = opening_of(words)?;
            Ok(Row::OfOpening(session, hall, row))
        }
        Kind::Candidates => {
            let (number, row) = candidate_of(alloc, words)?;
            Ok(Row::OfCandidate(number, row))
        }
        Kind::Entries => {
            let (number, paper) = entry_of(words)?;
            Ok(Row::OfEntry(number, paper))
        }
        Kind::Arrangements => {
            let (number, row) = arrangement_of(words)?;
            Ok(Row::OfArrangement(number, row))
        }
    }
}

/// Appends a row to the import, which may refuse it.
pub fn push(alloc: Global, import: &mut Import, row: &str) -> Result<Result<(), Refusal>, Fail> {
    let row = row_of(alloc, import.kind(), &mut Words::of(row))?;
    if import.rows().len() >= 4_194_304 {
        return Err(Fail::new("too many rows"));
    }
    Ok(import.push(row))
}

fn import_of(alloc: Global, kind: Kind, rows: &str) -> Result<Import, Fail> {
    let mut import = Import::new(alloc, kind);
    for row in rows.split(", ") {
        push(alloc, &mut import, row)??;
    }
    Ok(import)
}

fn lodging_of(alloc: Global, words: &mut Words<'_>) -> Result<Lodging, Fail> {
    let (number, reference) = appeal_key(words)?;
    let session = words.session()?;
    let subject = subject_of(words)?;
    let reason = words.reason(alloc)?;
    Ok(Lodging {
        number,
        reference,
        session,
        subject,
        reason,
    })
}

fn decision_of(alloc: Global, words: &mut Words<'_>) -> Result<Decision, Fail> {
    let (number, reference) = appeal_key(words)?;
    let outcome = match words.next() {
        "granted" => Outcome::Grant,
        "standing" => Outcome::Standing,
        _ => Outcome::Refuse,
    };
    let answer = Reason::parse(alloc, b"ok")?.ok_or("answer")?;
    Ok(Decision {
        number,
        reference,
        outcome,
        answer,
    })
}

/// The command that a line says without its day.
fn command_of(alloc: Global, line: &str) -> Result<Command, Fail> {
    let (word, rest) = line.split_once(' ').ok_or("command")?;
    let mut words = Words::of(rest);
    match word {
        "import" => {
            let (kind, rows) = rest.split_once(' ').ok_or("rows")?;
            Ok(Command::Import(import_of(alloc, kind_of(kind)?, rows)?))
        }
        "withdraw" => {
            let (number, paper) = entry_of(&mut words)?;
            Ok(Command::Withdraw(number, paper))
        }
        "reinstate" => {
            let (number, paper) = entry_of(&mut words)?;
            Ok(Command::Reinstate(number, paper))
        }
        "close-hall" => {
            let session = words.session()?;
            Ok(Command::CloseHall(session, words.hall()?))
        }
        "lodge" => Ok(Command::Lodge(lodging_of(alloc, &mut words)?)),
        "retract" => {
            let (number, reference) = appeal_key(&mut words)?;
            Ok(Command::Retract(number, reference))
        }
        "decide" => Ok(Command::Decide(decision_of(alloc, &mut words)?)),
        _ => Err(Fail::new("no command")),
    }
}

/// The command that a line says, and its day.
pub fn order_of(alloc: Global, line: &str) -> Result<(Command, Day), Fail> {
    let (line, day) = dated(line);
    let command = command_of(alloc, line)?;
    Ok((command, Words::of(day).day()?))
}
