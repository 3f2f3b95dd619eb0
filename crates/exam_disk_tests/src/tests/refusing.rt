//! Each command over files where a call and all later ones fail: the program carries it out whole or not at all.
use super::disks::{
    Fused, Left, Seen, Unsynced, are_same, are_whole, copied, files_after, files_left, remains_of,
    same, seen_in, taken,
};
use exam_school::{FIRST_TAKES_A, PEOPLE, SECOND_NEEDS_A, TIMETABLE};
use exam_scripts::days::{
    A_QUARTER_MORE, BARRED_FROM_A, BARRED_FROM_B, CLASH_IS_GRANTED, CLOSED, FEWER_DESKS,
    MOVED_BY_A_CHAIN, MOVED_TWICE, NOBODY_IS_SHORT, ONE_HAS_NO_DESK, ONE_OPENING_MORE,
    REFUSED_FILES, THIRD_IS_SHORT, THREE_COME, THREE_HALLS, THREE_NEEDS, TWO_PAPERS_AT_ONCE,
    TWO_PAPERS_IN_A_HALL, TWO_SESSIONS,
};
use exam_scripts::{Step, expect_same};
use sqlite::Files;
use std::alloc::Global;
use std::test::Fail;

/// More calls than a command makes of a file, its opening and its close among them.
const MOST_CALLS: u64 = 400;

/// The days before, and the text whose steps are refused.
pub type Turn<'a> = (&'a [&'a str], &'a str);

/// What a step does if no call fails.
#[derive(Drop)]
struct Course {
    /// The files before the step.
    files: Files<Fused>,
    /// Their rows.
    before: String,
    /// The files after the step.
    behind: Files<Fused>,
    /// What is seen in them. The same step is then taken again.
    after: Seen,
}

/// The files after the step, which answers as its text says.
fn files_behind(
    alloc: Global,
    files: &Files<Fused>,
    step: &Step<'_>,
) -> Result<Files<Fused>, Fail> {
    let files = same(alloc, files)?;
    let left = taken(alloc, files, step.line, step.file)?;
    expect_same(left.told.as_str(), step.answer, step.line)?;
    Ok(left.files)
}

/// What is seen in a copy of the files.
fn seen_on_copy(alloc: Global, files: &Files<Fused>, step: &Step<'_>) -> Result<Seen, Fail> {
    let files = same(alloc, files)?;
    seen_in(alloc, files, step)
}

/// Takes the step.
fn course_of(alloc: Global, files: Files<Fused>, step: &Step<'_>) -> Result<Course, Fail> {
    // Of this look only the rows count. A look that does not take the step would be dear to prove.
    let before = seen_on_copy(alloc, &files, step)?.rows;
    let behind = files_behind(alloc, &files, step)?;
    let after = seen_on_copy(alloc, &behind, step)?;
    Ok(Course {
        files,
        before,
        behind,
        after,
    })
}

/// Whether an answer says that memory ran out or that the files cannot be used. A sheet that is read from the files may
/// have begun.
fn is_fault(told: &str) -> bool {
    told.ends_with("refused 22\n")
        || told.ends_with("refused 23\n")
        || told.ends_with("> {\"error\":22}\n")
        || told.ends_with("> {\"error\":23}\n")
}

/// A step that is not answered as its text says meets a call that fails.
fn expect_fault(step: &Step<'_>, told: &str) -> Result<(), Fail> {
    if is_fault(told) {
        return Ok(());
    }
    expect_same(told, step.answer, step.line)
}

/// The tables are those after the step, or if it was not answered those before it. The same step is then answered as it
/// is a second time, or as its text says.
fn expect_seen(
    course: &Course,
    step: &Step<'_>,
    is_answered: bool,
    seen: &Seen,
    place: &str,
) -> Result<(), Fail> {
    let (rows, again) = (seen.rows.as_str(), seen.again.as_str());
    let after = course.after.rows.as_str();
    if is_answered || rows == after {
        expect_same(rows, after, place)?;
        return expect_same(again, course.after.again.as_str(), place);
    }
    expect_same(rows, course.before.as_str(), place)?;
    expect_same(again, step.answer, place)
}

/// The files hold the tables before the step or after all of it. Files with the bytes of those need no look.
fn expect_whole(
    alloc: Global,
    course: &Course,
    step: &Step<'_>,
    is_answered: bool,
    files: Files<Fused>,
    place: &str,
) -> Result<(), Fail> {
    let is_known = are_same(&files, &course.behind)
        || (!is_answered && are_same(&files, &course.files));
    if is_known {
        return Ok(());
    }
    let seen = seen_in(alloc, files, step)?;
    expect_seen(course, step, is_answered, &seen, place)
}

/// Looks at what is left in each of these ways of files over which the step was taken.
fn expect_each(
    alloc: Global,
    course: &Course,
    step: &Step<'_>,
    left: Left<Fused>,
    place: &str,
    ways: &[Unsynced],
) -> Result<(), Fail> {
    let is_answered = left.told.as_str() == step.answer;
    let remains = remains_of(alloc, left.files)?;
    for way in ways {
        let place = format!(in alloc; "{place}, {way:?}")?;
        let files = files_left(alloc, &remains, *way)?;
        expect_whole(alloc, course, step, is_answered, files, place.as_str())?;
    }
    Ok(())
}

/// Takes the step over files where one fails after so many calls.
fn left_after(
    alloc: Global,
    course: &Course,
    step: &Step<'_>,
    (is_of_log, calls): (bool, u64),
) -> Result<Left<Fused>, Fail> {
    let files = copied(alloc, &course.files, is_of_log, calls)?;
    let left = taken(alloc, files, step.line, step.file)?;
    expect_fault(step, left.told.as_str())?;
    Ok(left)
}

fn place_of(
    alloc: Global,
    step: &Step<'_>,
    (is_of_log, calls): (bool, u64),
) -> Result<String, Fail> {
    let line = step.line;
    Ok(format!(in alloc; "{line}, log {is_of_log}, {calls} calls")?)
}

/// Takes the step over files where one fails after so many calls, and looks at what is left in each of these ways.
/// Says whether no call failed.
fn refuse_after(
    alloc: Global,
    course: &Course,
    step: &Step<'_>,
    fault: (bool, u64),
    ways: &[Unsynced],
) -> Result<bool, Fail> {
    let place = place_of(alloc, step, fault)?;
    let mut left = left_after(alloc, course, step, fault)?;
    let is_whole = are_whole(&mut left.files);
    expect_each(alloc, course, step, left, place.as_str(), ways)?;
    Ok(is_whole)
}

/// Takes the step over files where one fails after 0, 1, 2 .. calls, until no call fails.
fn refuse_each(
    alloc: Global,
    course: &Course,
    step: &Step<'_>,
    is_of_log: bool,
    ways: &[Unsynced],
) -> Result<(), Fail> {
    for calls in 0..MOST_CALLS {
        if refuse_after(alloc, course, step, (is_of_log, calls), ways)? {
            return Ok(());
        }
    }
    Err(Fail::new("more calls than expected"))
}

/// Takes a step over the files, refuses it each call of both, and looks at what is left in each of these ways. Gives
/// the files after it.
fn refuse(
    alloc: Global,
    files: Files<Fused>,
    step: &Step<'_>,
    ways: &[Unsynced],
) -> Result<Files<Fused>, Fail> {
    let course = course_of(alloc, files, step)?;
    refuse_each(alloc, &course, step, true, ways)?;
    refuse_each(alloc, &course, step, false, ways)?;
    Ok(course.behind)
}

/// Refuses each step of a text, over files that hold the days before.
fn refuse_in_turn(alloc: Global, (days, text): Turn<'_>, ways: &[Unsynced]) -> Result<(), Fail> {
    let mut files = files_after(alloc, days)?;
    for part in text.split("$ ").skip(1) {
        let step = Step::parse(part).ok_or("step")?;
        files = refuse(alloc, files, &step, ways)?;
    }
    Ok(())
}

/// Refuses each step of each of these texts.
pub fn refuse_each_turn(
    rt: &HostRuntime,
    turns: &[Turn<'_>],
    ways: &[Unsynced],
) -> Result<(), Fail> {
    for turn in turns {
        refuse_in_turn(rt.alloc(), *turn, ways)?;
    }
    Ok(())
}

/// The program goes on, or another opens the files: what was written is there.
const IS_THERE: &[Unsynced] = &[Unsynced::Kept];

pub const INIT: &str = "\
$ init
> ready
";

/// The days at the school before anybody is entered.
pub const NOBODY_SITS: &[&str] = &[INIT, TIMETABLE, PEOPLE];

/// The days before a second candidate comes. An office that is there already is ready.
pub const ONE_SITS: &[&str] = &[INIT, TIMETABLE, PEOPLE, FIRST_TAKES_A, INIT];

/// The days before a third one comes.
pub const TWO_SIT: &[&str] = &[INIT, TIMETABLE, PEOPLE, FIRST_TAKES_A, SECOND_NEEDS_A];

/// An office that is made, and imports.
const IMPORTS: &[Turn<'_>] = &[
    (&[], INIT),
    (&[INIT], TIMETABLE),
    (&[INIT, TIMETABLE], PEOPLE),
    (NOBODY_SITS, NOBODY_IS_SHORT),
    (NOBODY_SITS, FIRST_TAKES_A),
    (TWO_SIT, THIRD_IS_SHORT),
    (&[INIT, TIMETABLE, PEOPLE, THREE_HALLS], THREE_NEEDS),
    (NOBODY_SITS, TWO_PAPERS_IN_A_HALL),
    (NOBODY_SITS, REFUSED_FILES),
    (&[INIT, TIMETABLE, ALL_OPENED], ONE_OPENING_MORE),
];

#[test]
fn imports_are_made_whole_or_not_at_all(rt: HostRuntime) -> Result<(), Fail> {
    refuse_each_turn(&rt, IMPORTS, IS_THERE)
}

/// Halls that close sooner, clashes, and desks that are taken away.
const CHANGES: &[Turn<'_>] = &[
    (NOBODY_SITS, A_QUARTER_MORE),
    (NOBODY_SITS, TWO_PAPERS_AT_ONCE),
    (NOBODY_SITS, FEWER_DESKS),
    (NOBODY_SITS, CLOSED),
    (NOBODY_SITS, BARRED_FROM_A),
];

#[test]
fn seats_change_whole_or_not_at_all(rt: HostRuntime) -> Result<(), Fail> {
    refuse_each_turn(&rt, CHANGES, IS_THERE)
}

/// Appeals, what is decided of them, and sheets and requests that show them.
const APPEALS: &[Turn<'_>] = &[
    (
        &[
            INIT,
            TIMETABLE,
            PEOPLE,
            FIRST_TAKES_A,
            SECOND_NEEDS_A,
            BARRED_FROM_B,
        ],
        ONE_HAS_NO_DESK,
    ),
    (
        &[INIT, TIMETABLE, PEOPLE, TWO_PAPERS_AT_ONCE],
        CLASH_IS_GRANTED,
    ),
    (TWO_SIT, LODGED_ONCE),
    (TWO_SIT, REFUSED),
    (ONE_SITS, SEEN),
    (ONE_SITS, MOVED_BY_A_CHAIN),
    (
        &[INIT, TIMETABLE, PEOPLE, TWO_SESSIONS, THREE_COME],
        MOVED_TWICE,
    ),
];

#[test]
fn appeals_are_carried_out_whole_or_not_at_all(rt: HostRuntime) -> Result<(), Fail> {
    refuse_each_turn(&rt, APPEALS, IS_THERE)
}

/// The first candidate posts an appeal too late, in time, and again, then another under its reference, and takes the first
/// one back twice.
const LODGED_ONCE: &str = r#"$ POST /candidates/0000001/appeals on 2027-05-31
{"hall":"B","kind":"hall","reason":"","ref":"HA1","session":"S1"}
> {"day":"2027-05-30","error":13}
$ POST /candidates/0000001/appeals on 2027-05-30
{"hall":"B","kind":"hall","reason":"","ref":"HA1","session":"S1"}
> {"state":"open"}
$ POST /candidates/0000001/appeals on 2027-05-31
{"hall":"B","kind":"hall","reason":"","ref":"HA1","session":"S1"}
> {"state":"open"}
$ POST /candidates/0000001/appeals on 2027-05-31
{"hall":"A","kind":"hall","reason":"","ref":"HA1","session":"S1"}
> {"error":14}
$ DELETE /candidates/0000001/appeals/HA1 on 2027-05-31
> {"state":"retracted"}
$ DELETE /candidates/0000001/appeals/HA1 on 2027-05-31
> {"state":"retracted"}
"#;

/// Each of the two candidates appeals, and one appeal is refused. The sheet reads the appeals from the files, one after
/// the other.
const REFUSED: &str = r#"$ POST /candidates/0000001/appeals on 2027-05-30
{"hall":"B","kind":"hall","reason":"","ref":"HA1","session":"S1"}
> {"state":"open"}
$ POST /candidates/0000002/appeals on 2027-05-30
{"hall":"A","kind":"hall","reason":"","ref":"HA1","session":"S1"}
> {"state":"open"}
$ decide 0000002 HA1 refused no on 2027-05-31
> decided refused hall A moved 0
$ appeals S1
> APPEALS session S1
appeals 2
0000001 HA1              hall        open       2027-05-30 B
0000002 HA1              hall        refused    2027-05-30 A
"#;

/// The first candidate sees the seat. With another code nobody does, and under an unknown number nobody sees anything.
const SEEN: &str = r#"$ GET /candidates/0000001/seats
> {"seats":[{"date":"2027-06-01","desk":1,"extra":0,"finish":"10:00","hall":"A","needs":"-","paper":"MA-1","session":"S1","start":"09:00"}]}
$ GET /candidates/0000001/seats as CODE0009
> {"error":6}
$ GET /candidates/9999999/seats as CODE0001
> {"error":6}
"#;

/// From two halls to 256, all of them opened, and another hall.
const ALL_OPENED: &str = "\
$ sql
INSERT INTO hall SELECT code || 'C', title, 0 FROM hall;
INSERT INTO hall SELECT code || 'D', title, 0 FROM hall;
INSERT INTO hall SELECT code || 'E', title, 0 FROM hall;
INSERT INTO hall SELECT code || 'F', title, 0 FROM hall;
INSERT INTO hall SELECT code || 'G', title, 0 FROM hall;
INSERT INTO hall SELECT code || 'H', title, 0 FROM hall;
INSERT INTO hall SELECT code || 'I', title, 0 FROM hall;
INSERT INTO opening SELECT 'S1', code, 1, 720, 0 FROM hall;
INSERT INTO hall VALUES ('Z', 'Hall Z', 0)
";
