//! A day at the office, over memory. The program reads a script from standard input. A line that begins with `office`
//! is a command line: the program carries it out and prints it, and then what the command prints. A line that begins
//! with `curl` is a candidate's request: the program answers it and prints it, and then the body of the answer. It
//! prints every other line as it is.
#![tactic(auto)]

mod asking;

use anyhow::{Context, Result};
use asking::answer_to;
use exam_job::{DONE, JobFault, print_fault, print_line_fault, print_ready, run_job};
use exam_line::{Job, Line, parse_line};
use exam_store::Store;
use exam_types::Day;
use sqlite::Alter;
use std::alloc::{AllocError, Global};
use std::fs::File;
use std::io::{Read, empty};

/// The words of each command line before the command. The file is never opened: the office is in memory.
const PROGRAM: [&str; 5] = ["examoffice", "--db", "office.db", "--today", TODAY];

const TODAY: &str = "2027-05-01";

fn main(rt: HostRuntime) -> Result<()> {
    let mut store = Store::in_memory(rt.alloc())?;
    for line in rt.lines(rt.alloc()) {
        follow(&rt, &mut store, line?.as_str())?;
    }
    Ok(())
}

/// Follows one line of the script.
fn follow<S: Alter>(rt: &HostRuntime, store: &mut Store<S>, line: &str) -> Result<()> {
    if let Some(command) = line.strip_prefix("office ") {
        println!(rt; "$ {line}")?;
        let words = words_of(rt.alloc(), command)?;
        run_words(rt, store, words.as_slice());
    } else if line.starts_with("curl ") {
        println!(rt; "$ {line}")?;
        let today = Day::parse(TODAY.as_bytes()).context("no date")?;
        let body = answer_to(rt.alloc(), store, today, line)?;
        println!(rt; "{body}")?;
    } else {
        println!(rt; "{line}")?;
    }
    Ok(())
}

/// The words of a command, after the program's name and options.
fn words_of(alloc: Global, command: &str) -> Result<Vec<String>, AllocError> {
    let mut words = Vec::new(alloc);
    for word in PROGRAM.into_iter().chain(command.split(' ')) {
        words.push(String::from_str(alloc, word)?)?;
    }
    Ok(words)
}

/// Carries out the command that the words say. Does not print the exit status, since the printed lines show it.
fn run_words<S: Alter>(rt: &HostRuntime, store: &mut Store<S>, words: &[String]) {
    let _ = match parse_line(rt.alloc(), words) {
        Ok(line) => run_line(rt, store, line),
        Err(fault) => print_line_fault(&fault, &mut rt.stdout(), &mut rt.stdout()),
    };
}

/// Carries out a command over the file that it imports, or over none. `migrate`, `check` and `serve` do nothing here.
fn run_line<S: Alter>(rt: &HostRuntime, store: &mut Store<S>, line: Line<'_>) -> u8 {
    match line.job {
        // The office is open already, so only what the program prints is left.
        Job::Init => match print_ready(&mut rt.stdout()) {
            Ok(()) => DONE,
            Err(fault) => print_fault(&fault, &mut rt.stdout()),
        },
        Job::Import { file, .. } => match File::open(rt, file) {
            Ok(mut file) => run_over(rt, store, line, &mut file),
            Err(_) => print_fault(&JobFault::File, &mut rt.stdout()),
        },
        _ => run_over(rt, store, line, &mut empty()),
    }
}

/// Faults go to standard output too, so that they appear in the order of the commands.
fn run_over<S: Alter, R: Read>(
    rt: &HostRuntime,
    store: &mut Store<S>,
    line: Line<'_>,
    file: &mut R,
) -> u8 {
    let mut out = rt.stdout();
    let mut faults = rt.stdout();
    run_job(rt.alloc(), &line, store, file, &mut out, &mut faults)
}
