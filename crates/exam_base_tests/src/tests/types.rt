//! Texts, and all that each of them is read as.
ghost use Rattle.std.specs.Prelude.{◌≡◌, ◌+◌, ◌-◌, IfOk, [], nat_le, if◌then◌else◌};
ghost use Rattle.exam_types.specs.Days.{day_text, first_day};

use exam_school::expect_answer;
use exam_types::{
    AccessCode, ClosingTime, Day, DeskCount, ExamMinutes, Extra, Features, HallCode, Minute, Name,
    Number, PaperCode, Reason, Reference, Refusal, SessionCode, SessionDay, StartTime,
};
use std::alloc::{AllocError, Global};
use std::test::Fail;

/// A text on each line, and what it is read as: the kinds of code that it is, and each kind of number with its value.
/// Days are counted from 1970-01-01. `-` is nothing at all.
const READINGS: &str = "\
A > session paper hall reference
MA-1 > session paper
ABCDEFGH > session paper hall reference access
ABCDEFGHI > session paper reference access
ABCDEFGH-JKL > session paper
ABCDEFGHIJKLM > reference access
ABCDEFGHIJKLMNOP > reference access
ABCDEFGHIJKLMNOPQ > -
 > -
a > -
A B > -
A_1 > -
0000001 > session paper hall reference number 1
9999999 > session paper hall reference number 9999999
0123456 > session paper hall reference number 123456
0000000 > session paper hall reference
000001 > session paper hall reference
00000001 > session paper hall reference access
000000a > -
+000001 > -
00:00 > minute 0 start 0 closing 0
09:05 > minute 545 start 545 closing 545
23:59 > minute 1439 start 1439 closing 1439
24:00 > minute 1440 closing 1440
24:01 > minute 1441
43:59 > minute 2639
44:00 > -
12:60 > -
9:05 > -
09-05 > session paper
0 > session paper hall reference extra 0
1 > session paper hall reference minutes 1 extra 1 desks 1
100 > session paper hall reference minutes 100 extra 100 desks 100
101 > session paper hall reference minutes 101 desks 101
600 > session paper hall reference minutes 600 desks 600
601 > session paper hall reference desks 601
2000 > session paper hall reference desks 2000
2001 > session paper hall reference
01 > session paper hall reference
00 > session paper hall reference
-1 > session paper
+1 > -
- > session paper features 0
step-free > features 1
screen > features 2
reader > features 4
small-room > features 8
computer > features 16
quiet > features 32
screen+computer > features 18
computer+quiet > features 48
step-free+screen+reader+small-room+computer > features 31
step-free+screen+reader+small-room+computer+quiet > features 63
quiet+computer > -
computer+screen > -
screen+step-free > -
screen+screen > -
screen+ > -
+screen > -
-+screen > -
Screen > -
2000-01-01 > session paper day 10957
2000-01-10 > session paper day 10966
2000-01-11 > session paper day 10967 session-day 10967
2000-02-29 > session paper day 11016 session-day 11016
2024-02-29 > session paper day 19782 session-day 19782
2027-06-01 > session paper day 20970 session-day 20970
2096-02-29 > session paper day 46080 session-day 46080
2100-02-28 > session paper day 47540 session-day 47540
2100-03-01 > session paper day 47541 session-day 47541
2199-12-31 > session paper day 84005 session-day 84005
2100-02-29 > session paper
2026-02-29 > session paper
2027-02-30 > session paper
2027-04-31 > session paper
2027-13-01 > session paper
2027-00-10 > session paper
2027-10-00 > session paper
1999-12-31 > session paper
2200-01-01 > session paper
0000-01-01 > session paper
2027-6-1 > session paper
2027-06-01x > -
+027-06-01 > -
2027/06/01 > -
20270601xx > -
2027-06-0a > -
12027-06-01 > session paper
";

/// Appends the kind if the text is one of it.
fn put(found: &mut String, kind: &str, is_one: bool) -> Result<(), Fail> {
    if is_one {
        found.push_str(kind)?;
        found.push(' ')?;
    }
    Ok(())
}

/// Appends the kind and the number if the text is one of it.
fn put_number(
    alloc: Global,
    found: &mut String,
    kind: &str,
    number: Option<u32>,
) -> Result<(), Fail> {
    if let Some(number) = number {
        found.push_str(format!(in alloc; "{kind} {number} ")?.as_str())?;
    }
    Ok(())
}

/// The kinds of code that the text is.
fn codes_of(alloc: Global, text: &[u8]) -> Result<String, Fail> {
    let mut found = String::new(alloc);
    put(&mut found, "session", SessionCode::parse(text).is_some())?;
    put(&mut found, "paper", PaperCode::parse(text).is_some())?;
    put(&mut found, "hall", HallCode::parse(text).is_some())?;
    put(&mut found, "reference", Reference::parse(text).is_some())?;
    put(&mut found, "access", AccessCode::parse(text).is_some())?;
    Ok(found)
}

/// The number that the text is read as, for each kind of number.
fn numbers_of(text: &[u8]) -> [(&'static str, Option<u32>); 10] {
    let wide = |number: u16| u32::from(number);
    [
        ("number", Number::parse(text).map(|it| it.get())),
        ("minute", Minute::parse(text).map(|it| wide(it.get()))),
        ("start", StartTime::parse(text).map(|it| wide(it.get()))),
        ("closing", ClosingTime::parse(text).map(|it| wide(it.get()))),
        ("minutes", ExamMinutes::parse(text).map(|it| wide(it.get()))),
        ("extra", Extra::parse(text).map(|it| wide(it.get()))),
        ("desks", DeskCount::parse(text).map(|it| it.get())),
        ("features", Features::parse(text).map(|it| it.sum())),
        ("day", Day::parse(text).map(|it| it.number())),
        (
            "session-day",
            SessionDay::parse(text).map(|it| it.day().number()),
        ),
    ]
}

#[test]
fn texts_are_read_as_they_should(rt: HostRuntime) -> Result<(), Fail> {
    for line in READINGS.lines() {
        let (text, wanted) = line.split_once(" > ").ok_or("line")?;
        let mut found = codes_of(rt.alloc(), text.as_bytes())?;
        for (kind, number) in numbers_of(text.as_bytes()) {
            put_number(rt.alloc(), &mut found, kind, number)?;
        }
        expect_answer(found.as_str(), wanted, text)?;
    }
    Ok(())
}

/// Codes in rising order, by bytes.
#[test]
fn codes_are_ordered_by_bytes(rt: HostRuntime) {
    let codes = ["9", "A", "A-1", "A1", "AA", "AZ", "B"].map(|text| PaperCode::parse(
        text.as_bytes(),
    ));
    assert!(rt; codes.as_slice().is_sorted());
}

#[test]
fn numbers_and_sums_have_ranges(rt: HostRuntime) {
    assert!(rt; Number::new(0).is_none() && Number::new(10_000_000).is_none());
    assert!(rt; Number::new(7) == Number::parse(b"0000007"));
    assert!(rt; Features::from_sum(18) == Features::parse(b"screen+computer"));
    assert!(rt; Features::from_sum(64).is_none());
}

/// A day on each line, and what day it is so many days earlier.
const EARLIER: &str = "\
2027-06-01 less 0 > 2027-06-01
2027-06-01 less 2 > 2027-05-30
2027-03-05 less 5 > 2027-02-28
2024-03-05 less 5 > 2024-02-29
2100-03-05 less 5 > 2100-02-28
2027-01-10 less 10 > 2026-12-31
2000-01-11 less 10 > 2000-01-01
2000-01-10 less 10 > -
2000-01-01 less 1 > -
2199-12-31 less 65535 > 2020-07-27
2179-06-06 less 65535 > 2000-01-01
2179-06-05 less 65535 > -
";

/// The text of the day so many days earlier. This proof and `printed`'s need what `exam_types` promises of `Day::minus` and
/// of printing; no other crate's does.
fn earlier(alloc: Global, day: Day, days: u16) -> Result<String, AllocError>
    ensures { IfOk result (λ text. text.bytes.items
        ≡ (if nat_le (first_day + days) day then day_text (day - days) else [])) }
{
    match day.minus(days) {
        Some(day) => format!(in alloc; "{day}"),
        None => Ok(String::new(alloc)),
    }
}

fn printed(alloc: Global, hall: HallCode) -> Result<String, AllocError>
    ensures { IfOk result (λ text. text.bytes.items ≡ hall) }
{
    format!(in alloc; "{hall}")
}

#[test]
fn days_go_back_over_month_and_leap_ends(rt: HostRuntime) -> Result<(), Fail> {
    for line in EARLIER.lines() {
        let (asked, wanted) = line.split_once(" > ").ok_or("line")?;
        let (day, days) = asked.split_once(" less ").ok_or("days")?;
        let day = Day::parse(day.as_bytes()).ok_or("a day")?;
        let found = earlier(rt.alloc(), day, days.parse()?)?;
        expect_answer(found.as_str(), wanted, asked)?;
    }
    Ok(())
}

/// Texts, and whether they are names and reasons.
const TEXTS: &[(&[u8], bool, bool)] = &[
    (b"Ada Lin", true, true),
    (b"", false, true),
    (&[b'n'; 80], true, true),
    (&[b'n'; 81], false, true),
    (&[b'r'; 200], false, true),
    (&[b'r'; 201], false, false),
    (b"Zo\xc3\xab \xe2\x98\x83", true, true),
    (b"cut \xc3", false, false),
    (b"\xff", false, false),
    (b"a\x7f", false, false),
    (b"a\x1f", false, false),
    (b"a\nb", false, false),
    (b"\x00", false, false),
];

#[test]
fn names_and_reasons_have_no_control_characters(rt: HostRuntime) -> Result<(), Fail> {
    for (text, is_name, is_reason) in TEXTS {
        let found = (
            Name::parse(rt.alloc(), text)?.is_some(),
            Reason::parse(rt.alloc(), text)?.is_some(),
        );
        assert!(rt; found == (*is_name, *is_reason), "{text:?}");
    }
    Ok(())
}

/// Appends values as they are written.
fn write_values(out: &mut Vec<u8>) -> Result<(), Fail> {
    SessionCode::parse(b"S1").ok_or("a code")?.write_to(out)?;
    Number::new(42).ok_or("a number")?.write_to(out)?;
    Minute::new(2639).ok_or("a time")?.write_to(out)?;
    Extra::new(0).ok_or("extra time")?.write_to(out)?;
    Features::from_sum(18).ok_or("features")?.write_to(out)?;
    let day = SessionDay::parse(b"2027-06-01").ok_or("a day")?;
    day.write_to(out)?;
    Ok(())
}

/// Appends a copy of a name.
fn write_name(alloc: Global, out: &mut Vec<u8>) -> Result<(), Fail> {
    let name = Name::parse(alloc, b"Bo Berg")?.ok_or("a name")?;
    name.copy()?.write_to(out)?;
    Ok(())
}

#[test]
fn values_are_written_as_they_are_read(rt: HostRuntime) -> Result<(), Fail> {
    let mut out = Vec::new(rt.alloc());
    write_values(&mut out)?;
    write_name(rt.alloc(), &mut out)?;
    assert!(rt; out.as_slice() == b"S1000004243:590screen+computer2027-06-01Bo Berg".as_slice());
    let hall = HallCode::parse(b"A1").ok_or("a code")?;
    assert!(rt; printed(rt.alloc(), hall)?.as_str() == "A1");
    Ok(())
}

#[test]
fn refusals_have_numbers(rt: HostRuntime) {
    for (refusal, number) in [
        (Refusal::BadRow(3, 1), 1),
        (Refusal::BadHeader, 2),
        (Refusal::RowConflict(4), 3),
        (Refusal::UnknownSession, 4),
        (Refusal::NotSeatedThere, 11),
        (Refusal::TooMany, 20),
        (Refusal::NoMemory, 22),
        (Refusal::Store, 23),
        (Refusal::BadStore, 24),
        (Refusal::HallNotOpened, 25),
        (Refusal::NotArrangement, 26),
        (Refusal::OldSchema, 27),
    ] {
        assert!(rt; refusal.number() == number, "{number}");
    }
}
