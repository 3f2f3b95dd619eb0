//! Command lines over two databases, a folder, an import file and a port.
use exam_program::run;
use sqlite::Unknown;
use std::alloc::{AllocError, Global};
use std::fs;
use std::net::{Ipv4Addr, SocketAddrV4, TcpListener};
use std::os::unix::fs::MetadataExt;
use std::test::Fail;

const FOLDER: &str = "examoffice_lines";

/// No line makes this database.
const NONE: &str = "examoffice_lines/none.db";

/// What a line ends with: its exit status, and what it prints on standard output and on standard error.
pub type End = (u8, &'static str, &'static str);

/// A database, a command over it, and how the line ends.
const LINES: &[(&str, &str, End)] = &[
    ("none.db", "export S1", (1, "", "refused 24\n")),
    ("none.db", "migrate", (1, "", "refused 24\n")),
    ("none.db", "check", (1, "bad office\n", "")),
    (
        "none.db",
        "import sessions none.csv",
        (1, "", "refused 24\n"),
    ),
    ("sessions.csv", "check", (1, "bad office\n", "")),
    ("a.db", "init", (0, "ready\n", "")),
    (
        "a.db",
        "import sessions examoffice_lines/sessions.csv",
        (0, "added 1 changed 0 same 0\n", ""),
    ),
    (
        "a.db",
        "export S1",
        (0, "session,number,paper,hall,desk\n", ""),
    ),
    ("a.db", "export S2", (1, "", "refused 4\n")),
    (
        "a.db",
        "import sessions examoffice_lines/none.csv",
        (1, "", "file fault\n"),
    ),
    ("a.db", "exports S1", (2, "", "line not understood\n")),
    ("b.db", "init", (0, "ready\n", "")),
    ("b.db", "export S1", (1, "", "refused 4\n")),
    ("b.db", "migrate", (0, "already 3\n", "")),
    ("b.db", "check", (0, "good\n", "")),
    ("folder.db", "init", (1, "", "refused 23\n")),
    ("folder.db", "export S1", (1, "", "refused 23\n")),
    ("folder.db", "check", (1, "", "refused 23\n")),
];

/// Days and commands that are no line, and the exit status of each.
const NO_LINES: &[(&str, &str, u8)] = &[
    ("2027-02-29", "export S1", 2),
    (TODAY, "decide 0000001 HA1 GRANTED ok", 2),
    (TODAY, "serve 0", 2),
    (TODAY, "serve 65536", 2),
    (TODAY, "import marks none.csv", 2),
    (TODAY, "door-list S1", 2),
    (TODAY, "clashes s1", 2),
    (TODAY, LONG_REASON, 2),
    (TODAY, "--help", 0),
    (TODAY, "--version", 0),
];

/// A decision with a reason of 201 bytes.
const LONG_REASON: &str = "decide 0000001 HA1 granted \
xxxxxxxxxxxxxxxxxxxxxxxxxxxxxxxxxxxxxxxxxxxxxxxxxxxxxxxxxxxxxxxxxxx\
xxxxxxxxxxxxxxxxxxxxxxxxxxxxxxxxxxxxxxxxxxxxxxxxxxxxxxxxxxxxxxxxxxx\
xxxxxxxxxxxxxxxxxxxxxxxxxxxxxxxxxxxxxxxxxxxxxxxxxxxxxxxxxxxxxxxxxxx";

const TODAY: &str = "2027-05-01";

fn words_of(
    alloc: Global,
    path: &str,
    today: &str,
    command: &str,
) -> Result<Vec<String>, AllocError> {
    let mut words = Vec::new(alloc);
    for word in ["examoffice", "--db", path, "--today", today] {
        words.push(String::from_str(alloc, word)?)?;
    }
    for word in command.split(' ') {
        words.push(String::from_str(alloc, word)?)?;
    }
    Ok(words)
}

/// The exit status of a command on a day over the database at the path. What it prints is appended.
fn status_of(
    rt: &HostRuntime,
    path: &str,
    today: &str,
    command: &str,
    printed: &mut Vec<u8>,
    told: &mut Vec<u8>,
) -> Result<u8, AllocError> {
    let words = words_of(rt.alloc(), path, today, command)?;
    Ok(run(rt, Ok(words), Unknown, printed, told))
}

/// Whether a command over the database at the path ends like this.
pub fn ends(rt: &HostRuntime, path: &str, command: &str, end: End) -> Result<bool, AllocError> {
    let (status, out, err) = end;
    let mut printed = Vec::new(rt.alloc());
    let mut told = Vec::new(rt.alloc());
    let ended = status_of(rt, path, TODAY, command, &mut printed, &mut told)?;
    Ok(ended == status && printed.as_slice() == out.as_bytes() && told.as_slice() == err.as_bytes())
}

/// Expects this end of a command over the database at the path.
fn expect_end(rt: &HostRuntime, path: &str, command: &str, end: End) -> Result<(), Fail> {
    if ends(rt, path, command, end)? {
        return Ok(());
    }
    Err(Fail::new(format_args!("{path} {command}")))
}

/// What is no line ends as such, although its database is missing: nothing is opened for it.
fn expect_no_lines(rt: &HostRuntime) -> Result<(), Fail> {
    let mut printed = Vec::new(rt.alloc());
    let mut told = Vec::new(rt.alloc());
    for (today, command, status) in NO_LINES {
        let ended = status_of(rt, NONE, today, command, &mut printed, &mut told)?;
        if ended != *status {
            return Err(Fail::new(format_args!("{today} {command}")));
        }
    }
    Ok(())
}

/// Makes what lies in the folder before the first line.
fn make_folder(rt: &HostRuntime) -> Result<(), Fail> {
    fs::create_dir(rt, FOLDER)?;
    fs::create_dir(rt, "examoffice_lines/folder.db")?;
    let sessions = "session,date,start\nS1,2027-06-01,09:00\n";
    fs::write(rt, "examoffice_lines/sessions.csv", sessions)?;
    Ok(())
}

/// Nobody can be served at a port that another program holds.
fn expect_no_port(rt: &HostRuntime) -> Result<(), Fail> {
    let listener = TcpListener::bind(rt, SocketAddrV4::new(Ipv4Addr::LOCALHOST, 0))?;
    let port = listener.local_addr()?.port();
    let command = format!(in rt.alloc(); "serve {port}")?;
    let end = (1, "", "net fault\n");
    expect_end(rt, "examoffice_lines/a.db", command.as_str(), end)
}

/// Whether the owner alone may read and write the file.
fn is_private(rt: &HostRuntime, path: &str) -> bool {
    fs::metadata(rt, path).is_ok_and(|it| it.mode() & 0o777 == 0o600)
}

#[test]
fn lines_end_as_they_should(rt: HostRuntime) -> Result<(), Fail> {
    let _ = fs::remove_dir_all(&rt, FOLDER);
    make_folder(&rt)?;
    for (database, command, end) in LINES {
        let path = format!(in rt.alloc(); "{FOLDER}/{database}")?;
        expect_end(&rt, path.as_str(), command, *end)?;
    }
    expect_no_lines(&rt)?;
    expect_no_port(&rt)?;
    assert!(rt; is_private(&rt, "examoffice_lines/a.db"));
    assert!(rt; is_private(&rt, "examoffice_lines/a.db-wal"));
    assert!(rt; fs::metadata(&rt, NONE).is_err());
    fs::remove_dir_all(&rt, FOLDER)?;
    Ok(())
}
