//! A day through the calls of `exam_theorem` that join all layers, from its first import to a door list, and an office
//! of version 1 that lives on.
use super::{office_after, play, text_of};
use crate::tests::offices::InMemory;
use exam_job::JobFault;
use exam_line::LineFault;
use exam_school::{FIRST_TAKES_A, Step, Words, dated, expect_same};
use exam_scripts::days::OF_VERSION_1;
use exam_scripts::{request_of, words_of};
use exam_store::Store;
use exam_theorem::{Answered, EndOfDay, LineEnd, LineStop, Order, Outcome, live, print_after};
use sqlite::MemStore;
use std::alloc::Global;
use std::test::Fail;
use std::{slice, str};

/// The first candidate does not want to sit in hall B. Somebody asks for their seats with the code of another.
const DAY: &str = r#"$ import entries f
number,paper
0000001,MA-1
> added 1 changed 0 same 0
$ import entries f
number,paper
0000001,MA-9
! refused 5
$ import arrangements f
number,needs,extra
0000002,step-free,0
> added 1 changed 0 same 0
$ import entries f
number,paper
0000002,MA-1
0000003,MA-1
> added 2 changed 0 same 0
$ withdraw 1 MA-1
? line not understood
$ reinstate 0000003 MA-1
! refused 10
$ GET /candidates/0000001/seats as CODE0002
> {"error":6}
$ POST /candidates/0000001/appeals
{"hall":"B","kind":"hall","reason":"","ref":"HA1","session":"S1"}
> {"state":"open"}
$ decide 0000001 HA1 granted draught
> decided granted hall - moved 0
$ POST /candidates/0000001/appeals
{"hall":"B","kind":"hall","reason":"","ref":"HA1","session":"S1"}
> {"state":"granted"}
"#;

/// The second candidate needs step-free access and has the only such hall. The first one sat in the other hall, and
/// lost that desk to the third one because of the grant.
const THIRD_IN_B: &str = "\
DOOR LIST session S1 hall B
date 2027-06-01 start 09:00 desks 1 seated 1
   1 0000003 MA-1         Cy Dahl
";

/// Whether a line ends so; what it prints is discarded.
fn is_end(alloc: Global, end: &LineEnd, answer: &str) -> Result<bool, Fail> {
    match end {
        Ok(()) => Ok(answer.starts_with("> ")),
        Err(LineStop::Job(JobFault::Refused(refusal))) => {
            let number = refusal.number();
            Ok(format!(in alloc; "! refused {number}\n")?.as_str() == answer)
        }
        Err(LineStop::NoLine(LineFault::NotUnderstood)) => Ok(answer == "? line not understood\n"),
        Err(_) => Ok(false),
    }
}

/// Whether a request is answered so. In this day an error is that nothing is found.
fn is_answer(answered: &Answered, answer: &str) -> Option<bool> {
    let wanted = answer.strip_prefix("> ")?;
    let (head, body) = str::from_utf8(answered.answer.as_slice())
        .ok()?
        .split_once("\r\n\r\n")?;
    let status = if wanted.contains("error") {
        "HTTP/1.1 404 Not Found\r\n"
    } else {
        "HTTP/1.1 200 OK\r\n"
    };
    Some(answered.served.is_ok() && head.starts_with(status) && body == wanted.trim_end())
}

fn is_so(alloc: Global, outcome: &Outcome, answer: &str) -> Result<bool, Fail> {
    match outcome {
        Outcome::Line(end) => is_end(alloc, end, answer),
        Outcome::Request(answered) => Ok(is_answer(answered, answer).unwrap_or(false)),
    }
}

/// Follows an order, and then prints the door list of hall B.
fn followed(
    alloc: Global,
    store: &mut Store<MemStore>,
    order: &Order<'_>,
    out: &mut Vec<u8>,
) -> Result<EndOfDay, Fail> {
    let asked = words_of(alloc, "door-list S1 B", "2027-05-01")?;
    Ok(print_after(alloc, store, slice::from_ref(order), asked.as_slice(), out)?)
}

/// Follows an order, compares its outcome, and returns the door list; nothing if it is refused.
fn expect(
    alloc: Global,
    store: &mut Store<MemStore>,
    order: &Order<'_>,
    step: &Step<'_>,
) -> Result<String, Fail> {
    let mut out = Vec::new(alloc);
    let day = followed(alloc, store, order, &mut out)?;
    let outcome = day.outcomes.as_slice().first().ok_or("outcome")?;
    if !is_so(alloc, outcome, step.answer)? {
        return Err(Fail::new(step.line));
    }
    match day.printed {
        Ok(()) => Ok(String::from_utf8(out).ok().ok_or("text")?),
        Err(_) => Ok(String::new(alloc)),
    }
}

/// Takes a step.
fn taken(alloc: Global, store: &mut Store<MemStore>, step: &Step<'_>) -> Result<String, Fail> {
    let (line, day) = dated(step.line);
    if line.contains("/candidates/") {
        let request = request_of(alloc, line, step.file)?;
        let bytes = request.as_str().as_bytes();
        let today = Words::of(day).day()?;
        return expect(alloc, store, &Order::Request { bytes, today }, step);
    }
    let words = words_of(alloc, line, day)?;
    let order = Order::Line {
        words: words.as_slice(),
        file: step.file.as_bytes(),
    };
    expect(alloc, store, &order, step)
}

#[test]
fn a_day_ends_in_its_door_list(rt: HostRuntime) -> Result<(), Fail> {
    let alloc = rt.alloc();
    let mut store = Store::in_memory(alloc)?;
    let mut printed = String::new(alloc);
    for part in text_of(alloc, &[DAY])?.as_str().split("$ ").skip(1) {
        let step = Step::parse(part).ok_or("step")?;
        printed = taken(alloc, &mut store, &step)?;
    }
    expect_same(printed.as_str(), THIRD_IN_B, "door list")?;
    // The program prints what the text says.
    play(&rt, &[DAY])
}

const SECOND_IN_B: &str = "\
DOOR LIST session S1 hall B
date 2027-06-01 start 09:00 desks 1 seated 1
   1 0000002 MA-1         Ada Lin
";

/// Brings the office over, follows an order, and returns the door list of hall B.
fn lived(alloc: Global, conn: InMemory, order: &Order<'_>) -> Result<String, Fail> {
    let asked = words_of(alloc, "door-list S1 B", "2027-05-01")?;
    let mut out = Vec::new(alloc);
    match live(
        alloc,
        conn,
        slice::from_ref(order),
        asked.as_slice(),
        &mut out,
    ) {
        Ok(life) => drop(life),
        Err(refused) => {
            drop(refused);
            return Err(Fail::new("refused"));
        }
    }
    Ok(String::from_utf8(out).ok().ok_or("text")?)
}

#[test]
fn an_office_of_version_1_lives_on(rt: HostRuntime) -> Result<(), Fail> {
    let alloc = rt.alloc();
    let words = words_of(alloc, "import entries f", "2027-05-01")?;
    let order = Order::Line {
        words: words.as_slice(),
        file: b"number,paper\n0000002,MA-1\n",
    };
    let printed = lived(
        alloc,
        office_after(alloc, &[FIRST_TAKES_A, OF_VERSION_1])?,
        &order,
    )?;
    expect_same(printed.as_str(), SECOND_IN_B, "door list")
}
