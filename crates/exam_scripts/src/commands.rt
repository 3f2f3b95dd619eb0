//! Commands of the program.
use crate::faults::{Output, Source};
use exam_job::{print_line_fault, run_job};
use exam_line::{Line, parse_line};
use exam_school::dated;
use exam_store::Store;
use sqlite::Alter;
use std::alloc::{AllocError, Global};
use std::str;
use std::test::Fail;

/// The words of a command line of the program.
pub fn words_of(alloc: Global, line: &str, day: &str) -> Result<Vec<String>, AllocError> {
    let mut words = Vec::new(alloc);
    for word in ["examoffice", "--db", "f", "--today", day] {
        words.push(String::from_str(alloc, word)?)?;
    }
    for word in line.split(' ') {
        words.push(String::from_str(alloc, word)?)?;
    }
    Ok(words)
}

/// A command, and its import file. The fault of the file is named behind the command.
fn source_of<'a>(line: &'a str, file: &'a [u8]) -> Result<(&'a str, Source<'a>), Fail> {
    match line.split_once(" failing after ") {
        Some((line, count)) => Ok((line, Source::torn(file, count.parse()?))),
        None => Ok((line, Source::whole(file))),
    }
}

/// A command, and its standard output. The fault of the output is named behind the command.
fn output_of(alloc: Global, line: &str) -> Result<(&str, Output), Fail> {
    if let Some((line, room)) = line.split_once(" with room for ") {
        return Ok((line, Output::with_room(alloc, room.parse()?)));
    }
    match line.strip_suffix(" held back") {
        Some(line) => Ok((line, Output::held_back(alloc))),
        None => Ok((line, Output::with_room(alloc, usize::MAX))),
    }
}

/// Runs the program's command over the store. Gives the exit status.
fn run_line<S: Alter>(
    alloc: Global,
    store: &mut Store<S>,
    line: Line<'_>,
    source: &mut Source<'_>,
    out: &mut Output,
    err: &mut Vec<u8>,
) -> u8 {
    run_job(alloc, &line, store, source, out, err)
}

/// Runs the command of these words. Gives what it printed.
fn run_words<S: Alter>(
    alloc: Global,
    store: &mut Store<S>,
    words: &[String],
    source: &mut Source<'_>,
    out: &mut Output,
) -> Result<String, Fail> {
    let mut err = Vec::new(alloc);
    let status = match parse_line(alloc, words) {
        Ok(line) => run_line(alloc, store, line, source, out, &mut err),
        Err(fault) => print_line_fault(&fault, out, &mut err),
    };
    marked(alloc, status, out.taken(), err.as_slice())
}

/// Runs the program's command. Gives what it printed.
pub fn run<S: Alter>(
    alloc: Global,
    store: &mut Store<S>,
    line: &str,
    file: &[u8],
) -> Result<String, Fail> {
    let (line, day) = dated(line);
    let (line, mut out) = output_of(alloc, line)?;
    let (line, mut source) = source_of(line, file)?;
    let words = words_of(alloc, line, day)?;
    run_words(alloc, store, words.as_slice(), &mut source, &mut out)
}

/// What a command printed, behind the mark that a text has for its status and its two outputs.
pub fn marked(alloc: Global, status: u8, out: &[u8], err: &[u8]) -> Result<String, Fail> {
    let mark = match (status, out.is_empty(), err.is_empty()) {
        (0, _, true) => ">",
        (1, true, false) => "!",
        _ => "?",
    };
    let out = str::from_utf8(out)?;
    let err = str::from_utf8(err)?;
    Ok(format!(in alloc; "{mark} {out}{err}")?)
}
