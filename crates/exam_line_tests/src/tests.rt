//! Lines that are understood, words that are not, and the text of a request for help.
use exam_commands::Command;
use exam_line::{Job, LineFault, Sheet, parse_line};
use std::alloc::{AllocError, Global};
use std::test::Fail;

/// The words of a line, which `|` separates, after the program's name.
fn words_of(alloc: Global, line: &str) -> Result<Vec<String>, AllocError> {
    let mut words = Vec::new(alloc);
    words.push(String::from_str(alloc, "examoffice")?)?;
    for word in line.split('|') {
        words.push(String::from_str(alloc, word)?)?;
    }
    Ok(words)
}

fn sheet_name(sheet: &Sheet) -> &'static str {
    match sheet {
        Sheet::DoorList(_) => "door-list",
        Sheet::Attendance(_) => "attendance",
        Sheet::Clashes => "clashes",
        Sheet::Shortage => "shortage",
        Sheet::Appeals => "appeals",
        Sheet::Export => "export",
    }
}

fn command_name(command: &Command) -> &'static str {
    match command {
        Command::Withdraw(..) => "withdraw",
        Command::Reinstate(..) => "reinstate",
        Command::CloseHall(..) => "close-hall",
        Command::Decide(_) => "decide",
        _ => "a command of no line",
    }
}

fn job_name(job: &Job<'_>) -> &'static str {
    match job {
        Job::Init => "init",
        Job::Migrate => "migrate",
        Job::Check => "check",
        Job::Import { .. } => "import",
        Job::Apply((command, _)) => command_name(command),
        Job::Serve { .. } => "serve",
        Job::Sheet { sheet, .. } => sheet_name(sheet),
    }
}

/// What a line is read as, in short.
fn told(alloc: Global, line: &str) -> Result<&'static str, AllocError> {
    let words = words_of(alloc, line)?;
    match parse_line(alloc, words.as_slice()) {
        Ok(line) => Ok(job_name(&line.job)),
        Err(LineFault::Help(_)) => Ok("help"),
        Err(LineFault::Version) => Ok("version"),
        Err(LineFault::NotUnderstood) => Ok("none"),
        Err(LineFault::NoMemory) => Ok("no memory"),
    }
}

/// The options of a line.
macro_rules! given {
    ($words:literal) => {
        concat!("--db|office.db|--today|2027-05-01|", $words)
    };
}

/// Lines that are understood.
const UNDERSTOOD: &[(&str, &str)] = &[
    (given!("init"), "init"),
    (given!("migrate"), "migrate"),
    (given!("check"), "check"),
    (given!("import|entries|a b.csv"), "import"),
    (given!("withdraw|0000001|MA-1"), "withdraw"),
    (given!("reinstate|0000001|MA-1"), "reinstate"),
    (given!("close-hall|S1|A"), "close-hall"),
    (given!("decide|0000001|HA1|granted|"), "decide"),
    (given!("decide|0000001|HA1|refused|--|-5 degrees"), "decide"),
    (given!("decide|0000001|AR1|standing|ok"), "decide"),
    (given!("serve|1"), "serve"),
    (given!("serve|65535"), "serve"),
    (given!("door-list|S1|A"), "door-list"),
    (given!("attendance|S1|MA-1"), "attendance"),
    (given!("clashes|S1"), "clashes"),
    (given!("shortage|S1"), "shortage"),
    (given!("appeals|S1"), "appeals"),
    (given!("export|S1"), "export"),
    (given!("export|--|-1"), "export"),
    ("--help", "help"),
    ("--version", "version"),
    ("-V", "version"),
    ("--db|office.db|--version", "version"),
];

/// Words that are not understood.
const NOT_UNDERSTOOD: &[&str] = &[
    "--db|office.db|--today|2027-02-29|init",
    given!("decide|0000001|HA1|GRANTED|ok"),
    given!("serve|0"),
    given!("serve|65536"),
    given!("import|marks|f.csv"),
    given!("door-list|S1"),
    given!("clashes|s1"),
    given!("migrate|2"),
    given!("check|seat"),
    given!("door-list|S1|A|B"),
    given!("withdraw|1|MA-1"),
    given!("decide|0000001|HA1|refused|-5 degrees"),
    given!("attendance|S1"),
    given!("clashes"),
    given!("serve"),
    given!("serve|080"),
    given!("serve|+80"),
    given!(""),
    "--db|office.db|init",
    "--today|2027-05-01|init",
    "init",
    "help",
    "help|import",
    given!("help"),
    given!("help|import"),
    "version",
    "--version=1",
    given!("init|--version"),
];

#[test]
fn lines_are_understood_or_not(rt: HostRuntime) -> Result<(), Fail> {
    for (line, wanted) in UNDERSTOOD {
        assert_eq!(rt; told(rt.alloc(), line)?, *wanted, "{line}");
    }
    for line in NOT_UNDERSTOOD {
        assert_eq!(rt; told(rt.alloc(), line)?, "none", "{line}");
    }
    Ok(())
}

#[test]
fn a_reason_has_at_most_200_bytes(rt: HostRuntime) -> Result<(), Fail> {
    for (length, wanted) in [(200, "decide"), (201, "none")] {
        let reason = "x".repeat(rt.alloc(), length)?;
        let line = format!(in rt.alloc(); "{}{reason}", given!("decide|0000001|HA1|granted|"))?;
        assert_eq!(rt; told(rt.alloc(), line.as_str())?, wanted, "{length}");
    }
    Ok(())
}

/// Whether a line asks for help, and the text of the answer holds this part.
fn helps_with(alloc: Global, line: &str, part: &str) -> Result<bool, AllocError> {
    let words = words_of(alloc, line)?;
    match parse_line(alloc, words.as_slice()) {
        Err(LineFault::Help(text)) => Ok(text.as_str().contains(part)),
        _ => Ok(false),
    }
}

/// The name of a command in the list of the help text, at the beginning of a line.
macro_rules! listed {
    ($name:literal) => {
        concat!("\n  ", $name, " ")
    };
}

#[test]
fn help_names_each_command(rt: HostRuntime) -> Result<(), Fail> {
    for name in [
        listed!("init"),
        listed!("migrate"),
        listed!("check"),
        listed!("import"),
        listed!("withdraw"),
        listed!("reinstate"),
        listed!("close-hall"),
        listed!("decide"),
        listed!("serve"),
        listed!("door-list"),
        listed!("attendance"),
        listed!("clashes"),
        listed!("shortage"),
        listed!("appeals"),
        listed!("export"),
    ] {
        assert!(rt; helps_with(rt.alloc(), "--help", name)?, "{name}");
    }
    Ok(())
}

#[test]
fn help_of_import_names_each_kind(rt: HostRuntime) -> Result<(), Fail> {
    let kinds = "sessions, papers, halls, openings, candidates, entries or arrangements";
    for line in [
        "import|--help",
        given!("import|--help"),
        given!("import|entries|-h"),
    ] {
        assert!(rt; helps_with(rt.alloc(), line, kinds)?, "{line}");
    }
    Ok(())
}
