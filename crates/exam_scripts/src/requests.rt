//! Candidates' requests to the server.
use exam_http::serve_one;
use exam_school::dated;
use exam_store::Store;
use exam_types::Day;
use sqlite::Alter;
use std::alloc::Global;
use std::str;
use std::test::Fail;

/// The request of a line, and the last four digits of the access code that it shows: of the code behind `as`, or else
/// of the candidate's number in a target such as `/candidates/0000001/appeals`.
fn parts_of(line: &str) -> Option<(&str, &str)> {
    if let Some(parts) = line.split_once(" as CODE") {
        return Some(parts);
    }
    let (_, target) = line.split_once("/candidates/000")?;
    let (digits, _) = target.split_once('/')?;
    Some((line, digits))
}

/// The bytes of a candidate's request with this body.
pub fn request_of(alloc: Global, line: &str, body: &str) -> Result<String, Fail> {
    let (line, digits) = parts_of(line).ok_or("target")?;
    let body = body.trim_end();
    let length = body.len();
    Ok(format!(in alloc;
        "{line} HTTP/1.0\r\nExam-Code: CODE{digits}\r\nContent-Length: {length}\r\n\r\n{body}"
    )?)
}

/// Serves a request. Gives the bytes of the answer.
fn served<S: Alter>(
    alloc: Global,
    store: &mut Store<S>,
    today: Day,
    request: &str,
) -> Result<Vec<u8>, Fail> {
    let mut reader = request.as_bytes();
    let mut answer = Vec::new(alloc);
    match serve_one(alloc, store, today, &mut reader, &mut answer) {
        Ok(()) => Ok(answer),
        Err(_) => Err(Fail::new("a fault")),
    }
}

/// The body of an answer.
fn body_of(answer: &[u8]) -> Option<&str> {
    let (_, body) = str::from_utf8(answer).ok()?.split_once("\r\n\r\n")?;
    Some(body)
}

/// The body of an answer, behind the mark of printed lines.
fn marked_body(alloc: Global, answer: &[u8]) -> Result<String, Fail> {
    let body = body_of(answer).ok_or("body")?;
    Ok(format!(in alloc; "> {body}\n")?)
}

/// Asks the server as a candidate. Gives the body of the answer, behind the mark of what is printed.
pub fn ask<S: Alter>(
    alloc: Global,
    store: &mut Store<S>,
    line: &str,
    body: &str,
) -> Result<String, Fail> {
    let (line, day) = dated(line);
    let today = Day::parse(day.as_bytes()).ok_or("day")?;
    let request = request_of(alloc, line, body)?;
    let answer = served(alloc, store, today, request.as_str())?;
    marked_body(alloc, answer.as_slice())
}
