//! Answers. A head and a short body take no memory.
ghost use Rattle.std.specs.Prelude.{◌≡◌, ◌≤◌, ◌+◌, ◌++◌, OnOk, OnErr, codes, decimal, length, option_map};
ghost use Rattle.std.specs.Io.KnownBytes.{Appends};
ghost use Rattle.arrayvec.specs.ArrayVec.{array_vec_len};
ghost use Rattle.exam_request.specs.Answer as spec;
ghost use Rattle.exam_request.specs.Methods.{allow_text};
ghost use Rattle.exam_send.specs.Sending.{AppendsPart};

use crate::fault::Fault;
use crate::methods::allowed;
use crate::routes::Route;
use crate::status::{phrase_of, status_of};
use arrayvec::ArrayVec;
use exam_commands::{AppealState, state_word};
use exam_send::{WriteFailed, send, send_both};
use exam_types::{Day, Refusal};
use http::StatusCode;
use itoa::Buffer;
use std::io::Write;
use std::marker::Model;

/// A text of at most 256 bytes, which takes no memory.
type Short = ArrayVec<u8, 256>;

/// The body of an answer.
#[derive(Drop)]
enum Body {
    Short(Short),
    Long(Vec<u8>),
}

impl Body {
    ghost use Rattle.exam_request.specs.Written.{body_bytes};

    fn as_slice(&self) -> &[u8]
        ensures { result.now ≡ body_bytes self.now }
    {
        match self {
            Body::Short(text) => text.as_slice(),
            Body::Long(text) => text.as_slice(),
        }
    }
}

/// An answer. Contracts see its status, the route of its line `Allow`, and its body.
#[derive(Drop)]
pub struct Answer {
    status: StatusCode,
    allow: Option<Route>,
    body: Body,
}

impl Model for Answer {
    ghost use Rattle.exam_request.specs.Answer.{Told};
    ghost use Rattle.exam_request.specs.Written.{body_bytes};

    ghost Value = { Told };

    ghost view = { λ a. record { status = a.status; allow = a.allow; body = body_bytes a.body } };
}

impl Answer {
    /// An answer 200 with this body, which its head calls JSON.
    pub fn ok(body: Vec<u8>) -> Answer
        ensures { result ≡ spec.ok_told body.items }
    {
        Answer {
            status: StatusCode::OK,
            allow: None,
            body: Body::Long(body),
        }
    }

    /// The answer to a refusal or a fault by its number alone. It has no day and no line `Allow`: for 13 call
    /// `refusal`, and for 38 `other_method`.
    pub fn error(number: u16) -> Answer
        ensures { result ≡ spec.error_told number }
    {
        Answer {
            status: status_of(number),
            allow: None,
            body: Body::Short(error_body(number)),
        }
    }

    /// The answer 405 to a method that is none of the route's.
    pub fn other_method(route: Route) -> Answer
        ensures { result ≡ spec.method_told route }
    {
        let number = Fault::Method.number();
        Answer {
            status: status_of(number),
            allow: Some(route),
            body: Body::Short(error_body(number)),
        }
    }

    /// The answer 200 to an accepted lodging or retraction, with the state of the appeal after it.
    pub fn state(state: AppealState) -> Answer
        ensures { result ≡ spec.state_told state }
    {
        let mut body = Short::new();
        put(&mut body, b"{\"state\":\"");
        put(&mut body, state_word(state));
        put(&mut body, b"\"}");
        Answer {
            status: StatusCode::OK,
            allow: None,
            body: Body::Short(body),
        }
    }

    /// The status.
    pub fn status(&self) -> u16
        ensures { result ≡ self.now.status }
    {
        self.status.as_u16()
    }

    /// The value of the line `Allow`, if the answer has one.
    pub fn allow(&self) -> Option<&'static [u8]>
        ensures { option_map (λ value. value.now) result ≡ option_map allow_text self.now.allow }
    {
        Some(allowed(self.allow?))
    }

    /// The body.
    pub fn body(&self) -> &[u8]
        ensures { result.now ≡ self.now.body }
    {
        self.body.as_slice()
    }

    /// The answer to a refusal; to `PastClosing` with its day.
    pub fn refusal(refusal: Refusal) -> Answer
        ensures { result ≡ spec.refusal_told refusal }
    {
        match refusal {
            Refusal::PastClosing(day) => Answer {
                status: StatusCode::CONFLICT,
                allow: None,
                body: Body::Short(closing_body(day)),
            },
            other => Answer::error(other.number()),
        }
    }
}

/// Writes the answer: its head, then its body. A short body is handed to the writer together with its head. After a
/// failure a beginning of the answer, but not all, is written. Does not flush.
pub fn write_answer<W: Write>(answer: &Answer, writer: &mut W) -> Result<(), WriteFailed>
    ensures ok { OnOk result
        (Appends (W.contents writer.old) (W.contents writer.new) (spec.answer_text answer.now)) }
    ensures err { OnErr result
        (AppendsPart (W.contents writer.old) (W.contents writer.new) (spec.answer_text answer.now)) }
{
    let body = answer.body();
    let mut head = head(answer.status, answer.allow, body.len());
    if body.len() > head.remaining_capacity() {
        return send_both(writer, head.as_slice(), body);
    }
    put(&mut head, body);
    send(writer, head.as_slice())
}

/// The head of an answer with a body of this length.
fn head(status: StatusCode, allow: Option<Route>, count: usize) -> Short
    ensures { result.items ≡ spec.head_text status allow count }
{
    let mut out = Short::new();
    put_status_line(&mut out, status);
    put_header(&mut out, b"Content-Type", b"application/json");
    put_length(&mut out, count);
    put_allow(&mut out, allow);
    put_header(&mut out, b"Connection", b"close");
    put(&mut out, b"\r\n");
    out
}

fn put_status_line(out: &mut Short, status: StatusCode)
    requires { array_vec_len out.old + 36 ≤ 256 }
    ensures text { out.new.items ≡ out.old.items ++ spec.status_line status }
    ensures len { array_vec_len out.new ≤ array_vec_len out.old + 36 }
{
    put(out, b"HTTP/1.1 ");
    put(out, status.as_str().as_bytes());
    put(out, b" ");
    put(out, phrase_of(status));
    put(out, b"\r\n");
}

fn put_length(out: &mut Short, count: usize)
    requires { array_vec_len out.old + 38 ≤ 256 }
    ensures text { out.new.items
        ≡ out.old.items ++ spec.header_line (codes "Content-Length") (decimal count) }
    ensures len { array_vec_len out.new ≤ array_vec_len out.old + 38 }
{
    let mut buffer = Buffer::new();
    put_header(out, b"Content-Length", buffer.format(count).as_bytes());
}

fn put_allow(out: &mut Short, allow: Option<Route>)
    requires { array_vec_len out.old + 18 ≤ 256 }
    ensures text { out.new.items ≡ out.old.items ++ spec.allow_line allow }
    ensures len { array_vec_len out.new ≤ array_vec_len out.old + 18 }
{
    if let Some(route) = allow {
        put_header(out, b"Allow", allowed(route));
    }
}

fn put_header(out: &mut Short, name: &[u8], value: &[u8])
    requires { array_vec_len out.old + length name.now + length value.now + 4 ≤ 256 }
    ensures text { out.new.items ≡ out.old.items ++ spec.header_line name.now value.now }
    ensures len { array_vec_len out.new ≡ array_vec_len out.old + length name.now + length value.now + 4 }
{
    put(out, name);
    put(out, b": ");
    put(out, value);
    put(out, b"\r\n");
}

fn error_body(number: u16) -> Short
    ensures { result.items ≡ spec.error_body number }
{
    let mut body = Short::new();
    let mut buffer = Buffer::new();
    put(&mut body, b"{\"error\":");
    put(&mut body, buffer.format(number).as_bytes());
    put(&mut body, b"}");
    body
}

/// The body of the answer to a lodging after this last day.
fn closing_body(day: Day) -> Short
    ensures { result.items ≡ spec.closing_body day }
{
    let mut body = Short::new();
    put(&mut body, b"{\"day\":\"");
    put(&mut body, day.text().as_slice());
    put(&mut body, b"\",\"error\":13}");
    body
}

fn put(out: &mut Short, bytes: &[u8])
    requires { array_vec_len out.old + length bytes.now ≤ 256 }
    ensures text { out.new.items ≡ out.old.items ++ bytes.now }
    ensures len { array_vec_len out.new ≡ array_vec_len out.old + length bytes.now }
{
    for b in bytes {
        out.push(*b);
    }
}
