//! A request, read up to the end of its body and no further.
ghost use Rattle.std.specs.Prelude.{◌≡◌, ◌≤◌, ◌<◌, length, take, None, IfSome, option_map};
ghost use Rattle.httparse.specs.Spans.{IsWithin, span_bytes};
ghost use Rattle.exam_request.specs.Asked as asked;
ghost use Rattle.exam_request.specs.Input as spec;
ghost use Rattle.exam_request.specs.Sizes.{most_head, most_request};
ghost use Rattle.exam_send.specs.Given.{Gave};
ghost use Rattle.exam_request.specs.declared.reading.Stop.TheVariants.{Faulty};

use crate::fault::Fault;
use crate::head::{HeadSpans, MOST_BODY, judge};
use httparse::spans::Span;
use std::io::Read;
use std::str;
use thiserror::Error;

/// The length of the longest head, in bytes.
const MOST_HEAD: usize = 8_192;

/// The length of the longest head and the longest body together, in bytes.
pub const MOST_REQUEST: usize = MOST_HEAD + MOST_BODY;

/// What ends a head.
const EMPTY_LINE: &[u8] = b"\r\n\r\n";

/// What was asked: a request, or the fault of bytes that are no request.
#[derive(Clone, Copy)]
pub enum Asked<'b> {
    Fault(Fault),
    Request(Request<'b>),
}

/// A request.
#[derive(Clone, Copy)]
pub struct Request<'b> {
    pub method: &'b [u8],
    pub target: &'b str,
    /// The value of the access code line, if there is exactly one.
    pub code: Option<&'b [u8]>,
    pub body: &'b [u8],
}

/// A read failed, so it is not known what was asked.
#[derive(Clone, Copy, Debug, PartialEq, Eq, Error)]
#[error("a read failed")]
pub struct ReadFailed;

/// Why the reading stopped.
#[derive(Clone, Copy, Debug, PartialEq, Eq)]
pub enum Stop {
    Failed,
    Faulty(Fault),
}

impl From<Fault> for Stop {
    ghost from_gives = { λ fault stop. stop ≡ Faulty fault };

    fn from(fault: Fault) -> Stop {
        Stop::Faulty(fault)
    }
}

/// Where a request lies in the buffer: the head first, and the body after it.
#[derive(Clone, Copy)]
pub struct Message {
    pub head: usize,
    pub spans: HeadSpans,
}

/// Reads one request into the buffer. Reads no more once all bytes of the request are there. Bytes behind it that came
/// in the same read are taken from the reader too, and not looked at. A read that was interrupted counts as failed. For
/// a socket, whose bytes no contract knows, the contract holds for the bytes that it gave.
pub fn read_request<'b, R: Read>(
    reader: &mut R,
    buffer: &'b mut [u8],
) -> Result<Asked<'b>, ReadFailed>
    requires room { most_request ≤ length buffer.old }
    ensures { Gave most_request (R.remaining reader.old) (R.remaining reader.new) (asked.IsAnswerTo result) }
{
    match read_message(reader, buffer) {
        Ok(message) => Ok(Asked::Request(request_in(buffer, message))),
        Err(Stop::Faulty(fault)) => Ok(Asked::Fault(fault)),
        Err(Stop::Failed) => Err(ReadFailed),
    }
}

/// The parts of a message.
fn request_in<'b>(buffer: &'b [u8], message: Message) -> Request<'b>
    requires { asked.MessageLiesIn buffer.now message }
    ensures { asked.request_of result ≡ asked.request_at buffer.now message }
{
    let (head, rest) = buffer.split_at(message.head);
    let spans = message.spans;
    // The target of a head is a text, so `unwrap_or` never replaces it.
    Request {
        method: spans.method.of(head),
        target: str::from_utf8(spans.target.of(head)).unwrap_or(""),
        code: code_in(head, spans.code),
        body: &rest[..spans.body_length],
    }
}

/// Reads a head and its body.
fn read_message<R: Read>(reader: &mut R, buffer: &mut [u8]) -> Result<Message, Stop>
    requires room { most_request ≤ length buffer.old }
    ensures { asked.FindsMessage (R.remaining reader.old) (R.remaining reader.new) buffer.new result }
{
    let (head, mut filled) = read_head(reader, buffer)?;
    let spans = judge(&buffer[..head])?;
    let end = head + spans.body_length;
    while filled < end {
        let total = read_more(reader, buffer, filled, end)?;
        if total == filled {
            return Err(Stop::Faulty(Fault::Length));
        }
        filled = total;
    }
    Ok(Message { head, spans })
}

/// Reads until the end of the head is in hand. Answers its length and how many bytes are in hand.
fn read_head<R: Read>(reader: &mut R, buffer: &mut [u8]) -> Result<(usize, usize), Stop>
    requires { most_head ≤ length buffer.old }
    ensures { spec.ReadsHead (R.remaining reader.old) (R.remaining reader.new) buffer.new result }
{
    let mut filled = 0;
    while filled < MOST_HEAD {
        let total = read_more(reader, buffer, filled, MOST_HEAD)?;
        if total == filled {
            return Err(Stop::Faulty(Fault::Head));
        }
        if let Some(head) = head_length(&buffer[..total], filled) {
            return Ok((head, total));
        }
        filled = total;
    }
    Err(Stop::Faulty(Fault::Size))
}

/// How many bytes end with the first empty line. The first `seen` of them hold no whole empty line, so only the last
/// three of these are looked at again.
fn head_length(bytes: &[u8], seen: usize) -> Option<usize>
    requires within { seen ≤ length bytes.now }
    requires none { spec.head_len (take seen bytes.now) ≡ None }
    ensures { result ≡ spec.head_len bytes.now }
{
    let mut passed = seen.saturating_sub(EMPTY_LINE.len() - 1);
    let mut rest = &bytes[passed..];
    while !rest.is_empty() {
        if rest.starts_with(EMPTY_LINE) {
            return Some(passed + EMPTY_LINE.len());
        }
        rest = &rest[1..];
        passed += 1;
    }
    None
}

/// Reads once, behind the bytes already read. Returns how many there are now; at the end of the input this is the old
/// count.
fn read_more<R: Read>(
    reader: &mut R,
    buffer: &mut [u8],
    filled: usize,
    end: usize,
) -> Result<usize, Stop>
    requires room { filled < end }
    requires within { end ≤ length buffer.old }
    ensures { spec.ReadsMore (R.remaining reader.old) (R.remaining reader.new)
        buffer.old buffer.new filled end result }
{
    match reader.read(&mut buffer[filled..end]) {
        Ok(count) => Ok(filled + count),
        Err(_) => Err(Stop::Failed),
    }
}

fn code_in<'b>(head: &'b [u8], place: Option<Span>) -> Option<&'b [u8]>
    requires { IfSome place (IsWithin (length head.now)) }
    ensures { option_map (λ c. c.now) result ≡ option_map (span_bytes head.now) place }
{
    Some(place?.of(head))
}
