//! What the words of a command line say.
ghost use Rattle.std.specs.Prelude.{◌≡◌, ℕ, map, option_map, IfOk, IfErr, IfSome, IsSome, string_bytes};
ghost use Rattle.clap.specs.Words.{subcommand_rows_of, kind_of};
ghost use Rattle.exam_types.specs.declared.refusal.Refusal.TheVariants as refusal;
ghost use Rattle.exam_line.specs.Dated.{IsOn};
ghost use Rattle.exam_line.specs.Lines as spec;

use crate::grammar::office_command;
use crate::line::{Job, Line, LineFault, Sheet};
use crate::values::{
    decision_of, hall_of, kind_of, number_of, paper_of, port_of, session_of, text, today_of,
};
use clap::ArgMatches;
use clap::error::ErrorKind;
use exam_commands::Command;
use exam_types::{Day, Refusal};
use std::alloc::Global;

/// Reads the words of a command line, the program's name first. Unless memory runs out, help or the version is answered
/// exactly if `clap` finds a request for it, and the line exactly if `clap` takes the words and each value has its
/// form.
pub fn parse_line<'a>(alloc: Global, words: &'a [String]) -> Result<Line<'a>, LineFault>
    ensures { spec.Answers result (map string_bytes words.entry.now) }
{
    let Ok(command) = office_command(alloc) else {
        return Err(LineFault::NoMemory);
    };
    match command.try_get_matches_from(words) {
        Ok(matches) => line_of(alloc, &matches),
        Err(error) => Err(fault_from(alloc, error)),
    }
}

fn line_of<'a>(alloc: Global, matches: &ArgMatches<'a>) -> Result<Line<'a>, LineFault>
    ensures { spec.GivesLine result (spec.said_in (spec.rows matches.now) (subcommand_rows_of matches.now)) }
{
    match read_line(alloc, matches) {
        Ok(Some(line)) => Ok(line),
        Ok(None) => Err(LineFault::NotUnderstood),
        Err(_) => Err(LineFault::NoMemory),
    }
}

/// The fault of an error of `clap`, with the text if it is a request for help.
fn fault_from(alloc: Global, error: clap::Error) -> LineFault
    ensures { spec.Tells result (kind_of error) }
{
    match error.kind() {
        ErrorKind::OutOfMemory => LineFault::NoMemory,
        ErrorKind::DisplayHelp => match error.to_string(alloc) {
            Ok(text) => LineFault::Help(text),
            Err(_) => LineFault::NoMemory,
        },
        ErrorKind::DisplayVersion => LineFault::Version,
        _ => LineFault::NotUnderstood,
    }
}

/// The line that the values of the options and words say, or none if they say none.
fn read_line<'a>(alloc: Global, matches: &ArgMatches<'a>) -> Result<Option<Line<'a>>, Refusal>
    ensures ok { IfOk result (λ line. option_map spec.shown line
        ≡ spec.said_in (spec.rows matches.now) (subcommand_rows_of matches.now)) }
    ensures memory { IfErr result (λ e. (e ≡ refusal.NoMemory)
        × IsSome (spec.said_in (spec.rows matches.now) (subcommand_rows_of matches.now))) }
{
    let Some((db, today)) = options_of(matches) else {
        return Ok(None);
    };
    let Some((name, words)) = named_job(matches) else {
        return Ok(None);
    };
    match read_job(alloc, today, name, words)? {
        Some(job) => Ok(Some(Line { db, today, job })),
        None => Ok(None),
    }
}

/// The options before the job.
fn options_of<'a>(matches: &ArgMatches<'a>) -> Option<(&'a str, Day)>
    ensures { option_map (λ o. (o.0.now, o.1)) result ≡ spec.options_of (spec.rows matches.now) }
{
    let db = text(matches, "db")?;
    let today = today_of(matches)?;
    Some((db, today))
}

/// The name of the job, with its words.
fn named_job<'m, 'a>(matches: &'m ArgMatches<'a>) -> Option<(&'a str, &'m ArgMatches<'a>)>
    ensures { option_map (λ c. (c.0.now, spec.rows c.1.now)) result ≡ subcommand_rows_of matches.entry.now }
{
    matches.subcommand()
}

fn read_job<'a>(
    alloc: Global,
    today: Day,
    name: &'a str,
    words: &ArgMatches<'a>,
) -> Result<Option<Job<'a>>, Refusal>
    ensures ok { IfOk result (λ job. option_map spec.job_shown job
        ≡ spec.job_of name.entry.now (spec.rows words.now)) }
    ensures dated { IfOk result (λ job. IfSome job (IsOn today)) }
    ensures memory { IfErr result (λ e. (e ≡ refusal.NoMemory)
        × IsSome (spec.job_of name.entry.now (spec.rows words.now))) }
{
    match name {
        "decide" => {
            let decision = decision_of(alloc, words)?;
            Ok(decision.map(|decision| Job::Apply((Command::Decide(decision), today))))
        }
        _ => Ok(read_plain_job(today, name, words)),
    }
}

/// A job whose values take no memory.
fn read_plain_job<'a>(today: Day, name: &str, words: &ArgMatches<'a>) -> Option<Job<'a>>
    ensures job { option_map spec.job_shown result ≡ spec.plain_job_of name.now (spec.rows words.now) }
    ensures dated { IfSome result (IsOn today) }
{
    match name {
        "init" => Some(Job::Init),
        "migrate" => Some(Job::Migrate),
        "check" => Some(Job::Check),
        "import" => import_of(words),
        "withdraw" => {
            let command = Command::Withdraw(number_of(words)?, paper_of(words)?);
            Some(Job::Apply((command, today)))
        }
        "reinstate" => {
            let command = Command::Reinstate(number_of(words)?, paper_of(words)?);
            Some(Job::Apply((command, today)))
        }
        "close-hall" => {
            let command = Command::CloseHall(session_of(words)?, hall_of(words)?);
            Some(Job::Apply((command, today)))
        }
        "serve" => {
            let port = port_of(words)?;
            Some(Job::Serve { port })
        }
        _ => print_of(name, words),
    }
}

fn import_of<'a>(words: &ArgMatches<'a>) -> Option<Job<'a>>
    ensures job { option_map spec.job_shown result ≡ spec.import_job (spec.rows words.now) }
    ensures dated { (today : ℕ) → IfSome result (IsOn today) }
{
    let kind = kind_of(words)?;
    let file = text(words, "file")?;
    Some(Job::Import { kind, file })
}

fn print_of<'a>(name: &str, words: &ArgMatches<'a>) -> Option<Job<'a>>
    ensures job { option_map spec.job_shown result ≡ spec.print_of name.now (spec.rows words.now) }
    ensures dated { (today : ℕ) → IfSome result (IsOn today) }
{
    let session = session_of(words)?;
    let sheet = sheet_of(name, words)?;
    Some(Job::Sheet { session, sheet })
}

fn sheet_of(name: &str, words: &ArgMatches<'_>) -> Option<Sheet>
    ensures { result ≡ spec.sheet_of name.now (spec.rows words.now) }
{
    match name {
        "door-list" => Some(Sheet::DoorList(hall_of(words)?)),
        "attendance" => Some(Sheet::Attendance(paper_of(words)?)),
        "clashes" => Some(Sheet::Clashes),
        "shortage" => Some(Sheet::Shortage),
        "appeals" => Some(Sheet::Appeals),
        "export" => Some(Sheet::Export),
        _ => None,
    }
}
