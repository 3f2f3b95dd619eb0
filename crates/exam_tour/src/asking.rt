//! A candidate's request, written as a line for `curl`.
ghost use Rattle.exam_rules.specs.Relations.{Code};
ghost use Rattle.exam_commands.specs.Headline.{IsSeated};

use anyhow::{Context, Result};
use exam_http::serve_one;
use exam_store::Store;
use exam_types::Day;
use sqlite::Alter;
use std::alloc::Global;
use std::str;

/// The address at which the office would serve.
const SERVER: &str = "http://127.0.0.1:8080";

/// The body of the answer to the request in the line. Whatever the answer is, every session is seated as
/// `Store::show_seated` says.
pub fn answer_to<S: Alter>(
    alloc: Global,
    store: &mut Store<S>,
    today: Day,
    line: &str,
) -> Result<String>
    ensures { (s : Code) → IsSeated store.new.office s }
{
    // Shows what an office promises, for a line that says no request.
    store.show_seated();
    let request = request_of(alloc, line)?;
    let mut reader = request.as_str().as_bytes();
    let mut answer = Vec::new(alloc);
    serve_one(alloc, store, today, &mut reader, &mut answer)?;
    let text = str::from_utf8(answer.as_slice())?;
    let (_, body) = text
        .split_once("\r\n\r\n")
        .context("an answer without a body")?;
    Ok(String::from_str(alloc, body)?)
}

/// The bytes of the request in the line. The line has quotes around the header of the access code, and around the body
/// that it posts, if it posts one.
fn request_of(alloc: Global, line: &str) -> Result<String> {
    let mut parts = line.split('\'');
    let _ = parts.next();
    let code = parts.next().context("a line without an access code")?;
    let place = parts.next().context("a line without a place")?.trim();
    let place = place.strip_prefix(SERVER).context("another server")?;
    Ok(match parts.next() {
        Some(body) => {
            let target = place.strip_suffix(" -d").context("a body without `-d`")?;
            let length = body.len();
            format!(in alloc;
                "POST {target} HTTP/1.1\r\nHost: office\r\n{code}\r\nContent-Length: {length}\r\n\r\n{body}"
            )?
        }
        None => format!(in alloc; "GET {place} HTTP/1.1\r\nHost: office\r\n{code}\r\n\r\n")?,
    })
}
