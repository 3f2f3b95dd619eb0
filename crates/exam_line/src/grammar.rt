//! What the program takes, described to `clap`.
ghost use Rattle.std.specs.Prelude.{◌≡◌, map, IfOk, false};
ghost use Rattle.std.specs.List.{fold};
ghost use Rattle.clap.specs.Words.{app_of, rule_of};
ghost use Rattle.clap.specs.declared.builder.command.Command.TheViews.{out-Command as fields_of};
ghost use Rattle.exam_line.specs.Grammar as spec;

use crate::help;
use clap::{Arg, ArgAction, Command};
use std::alloc::{AllocError, Global};

/// The options and each command.
pub fn office_command<'a>(alloc: Global) -> Result<Command<'a>, AllocError>
    ensures { IfOk result (λ c. app_of c ≡ spec.grammar) }
{
    let command = top_command(alloc)?;
    let command = with_changes(alloc, command)?;
    with_sheets(alloc, command)
}

/// Adds the commands that make the office, change it or serve it.
fn with_changes<'a>(alloc: Global, command: Command<'a>) -> Result<Command<'a>, AllocError>
    ensures { IfOk result (λ c. app_of c ≡ fold spec.with_job (app_of command.entry) spec.changes) }
{
    let command = with_job(alloc, command, "init", help::INIT, &[])?;
    let command = with_job(alloc, command, "migrate", help::MIGRATE, &[])?;
    let command = with_job(alloc, command, "check", help::CHECK, &[])?;
    let file = [("kind", help::KIND), ("file", help::FILE)];
    let command = with_job(alloc, command, "import", help::IMPORT, &file)?;
    let entry = [("number", help::NUMBER), ("paper", help::PAPER)];
    let command = with_job(alloc, command, "withdraw", help::WITHDRAW, &entry)?;
    let command = with_job(alloc, command, "reinstate", help::REINSTATE, &entry)?;
    let opening = [("session", help::SESSION), ("hall", help::HALL)];
    let command = with_job(alloc, command, "close-hall", help::CLOSE_HALL, &opening)?;
    let decision = [
        ("number", help::NUMBER),
        ("ref", help::REFERENCE),
        ("outcome", help::OUTCOME),
        ("reason", help::REASON),
    ];
    let command = with_job(alloc, command, "decide", help::DECIDE, &decision)?;
    with_job(
        alloc,
        command,
        "serve",
        help::SERVE,
        &[("port", help::PORT)],
    )
}

/// Adds the commands that print a sheet of a session.
fn with_sheets<'a>(alloc: Global, command: Command<'a>) -> Result<Command<'a>, AllocError>
    ensures { IfOk result (λ c. app_of c ≡ fold spec.with_job (app_of command.entry) spec.sheets) }
{
    let session = [("session", help::SESSION)];
    let hall = [("session", help::SESSION), ("hall", help::HALL)];
    let paper = [("session", help::SESSION), ("paper", help::PAPER)];
    let command = with_job(alloc, command, "door-list", help::DOOR_LIST, &hall)?;
    let command = with_job(alloc, command, "attendance", help::ATTENDANCE, &paper)?;
    let command = with_job(alloc, command, "clashes", help::CLASHES, &session)?;
    let command = with_job(alloc, command, "shortage", help::SHORTAGE, &session)?;
    let command = with_job(alloc, command, "appeals", help::APPEALS, &session)?;
    with_job(alloc, command, "export", help::EXPORT, &session)
}

/// The options, which come before the command. `help` is no command, so a request for help or for the version is never
/// another fault as well.
fn top_command<'a>(alloc: Global) -> Result<Command<'a>, AllocError>
    ensures { IfOk result (λ c. app_of c ≡ spec.options) }
{
    Command::new(alloc, "examoffice")
        .about(help::PROGRAM)
        .version(help::VERSION)
        .after_help(help::STATUSES)
        .subcommand_required(true)
        .disable_help_subcommand(true)
        .arg(option(alloc, "db", help::DB))?
        .arg(option(alloc, "today", help::TODAY))
}

/// Adds one more command, which takes these words. Each word comes with its help text.
fn with_job<'a>(
    alloc: Global,
    command: Command<'a>,
    name: &'a str,
    about: &'a str,
    words: &[(&'a str, &'a str)],
) -> Result<Command<'a>, AllocError>
    ensures { IfOk result (λ c. app_of c
        ≡ spec.with_job (app_of command.entry) (name.entry.now, map (λ w. w.0.now) words.now)) }
{
    command.subcommand(job_command(alloc, name, about, words)?)
}

/// One command alone.
fn job_command<'a>(
    alloc: Global,
    name: &'a str,
    about: &'a str,
    words: &[(&'a str, &'a str)],
) -> Result<Command<'a>, AllocError>
    ensures shape { IfOk result (λ c. app_of c ≡ spec.job_app name.entry.now (map (λ w. w.0.now) words.now)) }
    ensures here { IfOk result (λ c. (fields_of c).has_globals ≡ false) }
{
    let mut job = Command::new(alloc, name).about(about);
    for (name, help) in words {
        job = job.arg(word(alloc, name, help))?;
    }
    Ok(job)
}

fn option<'a>(alloc: Global, name: &'a str, help: &'a str) -> Arg<'a>
    ensures rule { rule_of result ≡ spec.option_rule name.entry.now }
    ensures here { result.global ≡ false }
{
    word(alloc, name, help).long(name)
}

fn word<'a>(alloc: Global, name: &'a str, help: &'a str) -> Arg<'a>
    ensures rule { rule_of result ≡ spec.word_rule name.entry.now }
    ensures here { result.global ≡ false }
{
    Arg::new(alloc, name)
        .help(help)
        .required(true)
        .action(ArgAction::Set)
}
