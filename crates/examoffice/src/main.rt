//! The examination office on a command line.
#![tactic(auto)]

ghost use Rattle.std.specs.Prelude.{◌≡◌, ◌≢◌};

use exam_line::LineFault;
use exam_program::run;
use sqlite::Unknown;
use std::env;
use std::io::ErrorKind;
use std::process::ExitCode;

fn main(rt: HostRuntime) -> ExitCode {
    let mut out = rt.stdout();
    let mut err = rt.stderr();
    // Nothing is known of what the file holds; every contract below holds for any first contents.
    ExitCode::from(run(&rt, words_of(&rt), Unknown, &mut out, &mut err))
}

/// The words of the command line, the program's name first. If one of them is not text, the line is not understood.
fn words_of(rt: &HostRuntime) -> Result<Vec<String>, LineFault> {
    match env::args(rt) {
        Ok(words) => words.collect(rt.alloc()).map_err(|_| LineFault::NoMemory),
        Err(error) => Err(words_fault(error.kind())),
    }
}

/// Why the words could not be read.
fn words_fault(kind: ErrorKind) -> LineFault
    ensures memory { kind ≡ ErrorKind.OutOfMemory → result ≡ LineFault.NoMemory }
    ensures other { kind ≢ ErrorKind.OutOfMemory → result ≡ LineFault.NotUnderstood }
{
    if kind == ErrorKind::OutOfMemory {
        LineFault::NoMemory
    } else {
        LineFault::NotUnderstood
    }
}
