//! Answers to writers that take little at a time, take nothing, or fail.
use super::owns::own_rows;
use arrayvec::ArrayVec;
use exam_request::{Answer, Route, seats_body, write_answer};
use exam_types::{Day, Refusal};
use std::io;
use std::io::Write;
use std::process::Abort;
use std::test::Fail;

const OTHER_METHOD: &[u8] =
    b"HTTP/1.1 405 Method Not Allowed\r\nContent-Type: application/json\r\nContent-Length: 12\r\nAllow: GET, POST\r\nConnection: close\r\n\r\n{\"error\":38}";

const TOO_LATE: &[u8] =
    b"HTTP/1.1 409 Conflict\r\nContent-Type: application/json\r\nContent-Length: 31\r\nConnection: close\r\n\r\n{\"day\":\"2027-05-30\",\"error\":13}";

const ONE_SEAT: &[u8] =
    b"HTTP/1.1 200 OK\r\nContent-Type: application/json\r\nContent-Length: 138\r\nConnection: close\r\n\r\n{\"seats\":[{\"date\":\"2027-06-01\",\"desk\":1,\"extra\":0,\"finish\":\"10:00\",\"hall\":\"A\",\"needs\":\"-\",\"paper\":\"MA-1\",\"session\":\"S1\",\"start\":\"09:00\"}]}";

/// Takes at most so many bytes at a call. When its room is full it fails, or takes none.
#[derive(Drop)]
struct Narrow {
    taken: ArrayVec<u8, 512>,
    step: usize,
    room: usize,
    fails: bool,
}

impl Narrow {
    fn new(step: usize, room: usize, fails: bool) -> Narrow {
        Narrow {
            taken: ArrayVec::new(),
            step,
            room,
            fails,
        }
    }
}

impl Write for Narrow {
    fn write(&mut self, buf: &[u8]) -> io::Result<usize> {
        if self.room == 0 && self.fails {
            return Err(io::Error::from(io::ErrorKind::BrokenPipe));
        }
        let count = buf.len().min(self.step).min(self.room);
        if self.taken.try_extend_from_slice(&buf[..count]).is_err() {
            return Ok(0);
        }
        self.room -= count;
        Ok(count)
    }

    fn flush(&mut self) -> io::Result<()> {
        Ok(())
    }
}

/// Wherever the writer stops, a beginning was written, and the answer is a failure.
fn expect_cut<R: Abort>(rt: &R, answer: &Answer, whole: &[u8], fails: bool) {
    for (room, _) in whole.iter().enumerate() {
        let mut out = Narrow::new(7, room, fails);
        assert!(rt; write_answer(answer, &mut out).is_err());
        assert!(rt; out.taken.as_slice() == &whole[..room]);
    }
}

fn expect_each_cut<R: Abort>(rt: &R, answer: &Answer, whole: &[u8]) {
    expect_cut(rt, answer, whole, true);
    expect_cut(rt, answer, whole, false);
    let mut out = Narrow::new(1, whole.len(), true);
    assert!(rt; write_answer(answer, &mut out).is_ok());
    assert!(rt; out.taken.as_slice() == whole);
}

#[test]
fn an_answer_is_cut_where_its_writer_stops(rt: HostRuntime) -> Result<(), Fail> {
    let day = Day::parse(b"2027-05-30").ok_or("day")?;
    expect_each_cut(&rt, &Answer::other_method(Route::Appeals), OTHER_METHOD);
    expect_each_cut(&rt, &Answer::refusal(Refusal::PastClosing(day)), TOO_LATE);
    Ok(())
}

#[test]
fn a_long_answer_is_cut_where_its_writer_stops(rt: HostRuntime) -> Result<(), Fail> {
    let own = own_rows(rt.alloc(), Some(1), "")?;
    expect_each_cut(&rt, &Answer::ok(seats_body(rt.alloc(), &own)?), ONE_SEAT);
    Ok(())
}
