//! What the head of a request says.
ghost use Rattle.std.specs.Prelude.{◌≡◌, ◌≤◌, ◌↔◌, ℕ, List, [], length, IfOk, IfSome, IfNone, IsTrue};
ghost use Rattle.std.specs.Prelude.{Some, None, if◌then◌else◌};
ghost use Rattle.httparse.specs.Grammar.{ReadsRequest, RequestHead};
ghost use Rattle.httparse.specs.Spans.{IsRequestAt, IsRequestOf, IsRequestWithin, IsWithin};
ghost use Rattle.exam_types.specs.Digits.{digits_value};
ghost use Rattle.exam_request.specs.Head as spec;
ghost use Rattle.exam_request.specs.Sizes.{most_body};

use crate::fault::Fault;
use crate::lines::{Lines, lines_of};
use httparse::Status;
use httparse::spans::{EMPTY_HEADER_SPAN, HeaderSpan, RequestSpans, Span, parse_request};

/// How many header lines a head may have.
const MOST_LINES: usize = 32;

/// How many digits the length of a body may have.
const MOST_DIGITS: usize = 10;

/// The length of the longest body, in bytes.
pub const MOST_BODY: usize = 4_096;

/// Where a head says what a request asks.
#[derive(Clone, Copy)]
pub struct HeadSpans {
    pub method: Span,
    pub target: Span,
    /// The value of the one access code line.
    pub code: Option<Span>,
    pub body_length: usize,
}

/// What a head says, or the first of its faults.
pub fn judge(head: &[u8]) -> Result<HeadSpans, Fault>
    ensures judges { spec.Judges head.now (spec.answer_at head.now result) }
    ensures places { IfOk result (spec.LiesIn head.now) }
{
    if !has_whole_lines(head) {
        return Err(Fault::Head);
    }
    let mut headers = [EMPTY_HEADER_SPAN; MOST_LINES];
    match whole_request(head, &mut headers) {
        Some(request) => said_by(head, &request, &headers),
        None => Err(Fault::Head),
    }
}

/// The request whose head is just these bytes, if there is room for its lines.
fn whole_request(head: &[u8], headers: &mut [HeaderSpan]) -> Option<RequestSpans>
    ensures within { IfSome result (IsRequestWithin head.now headers.new) }
    ensures whole { IfSome result (IsRequestOf head.now headers.new) }
    ensures len { IfSome result (λ request. request.len ≡ length head.now) }
    ensures none { IfNone result ((h : RequestHead) → ReadsRequest head.now h []
        → length h.fields ≤ length headers.old → ⊥) }
{
    match parse_request(head, headers) {
        Ok(Status::Complete(request)) if request.len == head.len() => Some(request),
        _ => None,
    }
}

/// What the lines of a head say, or the first of their faults.
fn said_by(head: &[u8], request: &RequestSpans, headers: &[HeaderSpan]) -> Result<HeadSpans, Fault>
    requires within { IsRequestWithin head.now headers.now request.now }
    requires whole { IsRequestOf head.now headers.now request.now }
    requires len { request.now.len ≤ length head.now }
    ensures said { (h : RequestHead) → IsRequestAt head.now headers.now request.now h
        → spec.answer_at head.now result ≡ spec.said_by h }
    ensures places { IfOk result (spec.LiesIn head.now) }
{
    let lines = &headers[..request.headers];
    if !has_right_host(request.version, lines_of(head, lines, b"host")) {
        return Err(Fault::Host);
    }
    if !lines_of(head, lines, b"transfer-encoding").are_absent() {
        return Err(Fault::TransferCoding);
    }
    let body_length = body_length(head, lines_of(head, lines, b"content-length"))?;
    Ok(HeadSpans {
        method: request.method,
        target: request.path,
        code: lines_of(head, lines, b"exam-code").only(),
        body_length,
    })
}

/// Version 1.1 demands exactly one host line, and 1.0 at most one.
fn has_right_host(minor: u8, host: Lines) -> bool
    ensures { (head : List ℕ) → result ≡ spec.has_right_host minor (spec.shown head host) }
{
    match host {
        Lines::Absent => minor == 0,
        Lines::One(_) => true,
        Lines::Many => false,
    }
}

/// The length of the body; 0 if no line gives it.
fn body_length(head: &[u8], lengths: Lines) -> Result<usize, Fault>
    requires { IfSome (spec.only_place lengths) (IsWithin (length head.now)) }
    ensures length { result ≡ spec.length_in (spec.shown head.now lengths) }
    ensures short { IfOk result (λ n. n ≤ most_body) }
{
    match lengths {
        Lines::Absent => Ok(0),
        Lines::One(place) => length_from(place.of(head)),
        Lines::Many => Err(Fault::Length),
    }
}

fn length_from(value: &[u8]) -> Result<usize, Fault>
    ensures length { result ≡ spec.length_from value.now }
    ensures short { IfOk result (λ n. n ≤ most_body) }
{
    let number = number_in(value).ok_or(Fault::Length)?;
    if number > MOST_BODY as u64 {
        return Err(Fault::Size);
    }
    Ok(number as usize)
}

/// The number that 1 to 10 digits write.
fn number_in(value: &[u8]) -> Option<u64>
    ensures { result ≡ (if spec.is_length_text value.now then Some (digits_value value.now) else None) }
{
    if value.is_empty() || value.len() > MOST_DIGITS {
        return None;
    }
    let mut number = 0;
    for byte in value {
        if !byte.is_ascii_digit() {
            return None;
        }
        number = number * 10 + u64::from(*byte - b'0');
    }
    Some(number)
}

/// Whether the first byte ends no line, and each line ends in both of its bytes.
fn has_whole_lines(head: &[u8]) -> bool
    ensures { IsTrue result ↔ spec.HasWholeLines head.now }
{
    !matches!(head.first(), Some(b'\r' | b'\n')) && has_no_bare_line_feed(head)
}

/// Whether each line feed after the first byte follows a carriage return.
fn has_no_bare_line_feed(head: &[u8]) -> bool
    ensures { IsTrue result ↔ spec.HasNoBareLineFeed head.now }
{
    for at in 1..head.len() {
        if head[at] == b'\n' && head[at - 1] != b'\r' {
            return false;
        }
    }
    true
}
