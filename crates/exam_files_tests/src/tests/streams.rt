//! Registers whose rows come one by one, from a source that keeps its contract and from others.
use super::office::session;
use super::slow::Slow;
use exam_files::{SheetFault, register_stream};
use exam_office::{AppealRow, AppealSource, AppealState, ListedAppeals};
use exam_rules::Subject;
use exam_types::{Day, HallCode, Number, Reference, Refusal};
use std::alloc::Global;
use std::test::Fail;

/// How a source ends.
#[derive(Clone, Copy)]
enum End {
    /// It says that there are no more rows.
    Over,
    /// It cannot be read any further.
    Lost,
}

/// Gives one row so many times, whatever was counted, and then ends. Its contract says nothing of what it gives nor of
/// why it refuses.
#[derive(Drop)]
struct Careless {
    left: u32,
    end: End,
}

impl AppealSource for Careless {
    ghost use Rattle.std.specs.Prelude.{[], ⊤};

    ghost coming = { λ s. [] };

    ghost IsHonest = { λ s. ⊥ };

    ghost Refuses = { λ a b e. ⊤ };

    ghost Stays = { λ a b. ⊤ };

    fn next(&mut self) -> Result<Option<AppealRow>, Refusal> {
        if self.left > 0 {
            self.left -= 1;
            return match row() {
                Some(row) => Ok(Some(row)),
                None => Err(Refusal::Store),
            };
        }
        match self.end {
            End::Over => Ok(None),
            End::Lost => Err(Refusal::Store),
        }
    }

    ghost stays_itself = { λ a. tt };

    ghost stays_then = { λ a b c first second. tt };

    ghost refuses_then = { λ a b c e stays refuses. tt };
}

fn row() -> Option<AppealRow> {
    Some(AppealRow {
        number: Number::new(1)?,
        reference: Reference::parse(b"HA1")?,
        subject: Subject::Hall(HallCode::parse(b"B")?),
        state: AppealState::Pending,
        lodged: Day::parse(b"2027-05-30")?,
    })
}

const LINE: &[u8] = b"0000001 HA1              hall        open       2027-05-30 B\n";

/// The bytes of the heading.
const HEADING: usize = 29;

/// What a writer with so much room takes of a register of that count from the source, and the answer.
fn streamed<A: AppealSource>(
    alloc: Global,
    source: &mut A,
    count: u32,
    room: usize,
) -> Result<(Result<(), SheetFault>, Vec<u8>), Fail> {
    let session = session().ok_or("session")?;
    let mut out = Slow::new(alloc, 7, room);
    let answer = register_stream(alloc, &session, count, source, &mut out);
    let Slow { taken, .. } = out;
    Ok((answer, taken))
}

#[test]
fn a_register_of_rows_in_memory_has_a_line_for_each(rt: HostRuntime) -> Result<(), Fail> {
    let rows = [row().ok_or("row")?, row().ok_or("row")?];
    let mut source = ListedAppeals { rows: &rows };
    let (answer, text) = streamed(rt.alloc(), &mut source, 2, 1000)?;
    assert!(rt; answer == Ok(()));
    assert!(rt;
        text.as_slice()
            .starts_with(b"APPEALS session S1\nappeals 2\n0000001 HA1 ")
    );
    assert!(rt; text.as_slice().ends_with(LINE) && text.len() == HEADING + 2 * LINE.len());
    Ok(())
}

/// How many rows a source gives and how it ends, how many were counted, the refusal or 0, how many bytes are written
/// with a heading of 29 and lines of 61, and how many rows are left.
type Given = (u32, End, u32, u16, usize, u32);

/// No more rows are asked for than were counted. A source that ends early is a bad store. A refusal of the source is
/// passed on.
const GIVEN: &[Given] = &[
    (5, End::Over, 2, 0, 151, 3),
    (1, End::Over, 2, 24, 90, 0),
    (1, End::Lost, 3, 23, 90, 0),
];

/// The number of the refusal; 0 for none, and 42 if the writer fails.
fn number_of(answer: Result<(), SheetFault>) -> u16 {
    match answer {
        Ok(()) => 0,
        Err(SheetFault::Refused(refusal)) => refusal.number(),
        Err(SheetFault::Write) => 42,
    }
}

#[test]
fn a_source_that_gives_another_count_is_refused(rt: HostRuntime) -> Result<(), Fail> {
    for (given, end, count, wanted, length, left) in GIVEN {
        let mut source = Careless {
            left: *given,
            end: *end,
        };
        let (answer, text) = streamed(rt.alloc(), &mut source, *count, 1000)?;
        assert_eq!(rt;
            (number_of(answer), text.len()),
            (*wanted, *length),
            "{given}"
        );
        assert_eq!(rt; source.left, *left, "{given}");
    }
    Ok(())
}

/// The rows behind the one that was not written whole are left in the source.
#[test]
fn a_register_is_cut_where_its_writer_fails(rt: HostRuntime) -> Result<(), Fail> {
    for room in 0..HEADING + LINE.len() {
        let rows = [row().ok_or("row")?, row().ok_or("row")?];
        let mut source = ListedAppeals { rows: &rows };
        let (answer, text) = streamed(rt.alloc(), &mut source, 2, room)?;
        let left = if room < HEADING { 2 } else { 1 };
        assert!(rt;
            answer == Err(SheetFault::Write) && text.len() == room && source.rows.len() == left
        );
    }
    Ok(())
}
