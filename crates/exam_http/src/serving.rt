//! One request, read and answered.
ghost use Rattle.std.specs.Prelude.{◌≡◌};
ghost use Rattle.exam_rules.specs.Relations.{Code};
ghost use Rattle.exam_commands.specs.Headline.{IsSeated};
ghost use Rattle.exam_request.specs.Asked.{asked_of};
ghost use Rattle.exam_http.specs.Serving as spec;

use crate::answering::answer;
use exam_request::{Asked, MOST_REQUEST, read_request, write_answer};
use exam_store::Store;
use exam_types::Day;
use sqlite::Alter;
use std::alloc::Global;
use std::io::{Read, Write};
use thiserror::Error;

/// Why a request was not served to the end.
#[derive(Clone, Copy, Debug, PartialEq, Eq, Error)]
pub enum HttpFault {
    /// A read failed before a whole request was there. Nothing was written and nothing changed.
    #[error("a read failed")]
    Read,
    /// The answer did not go out whole. What was done for the request is not undone.
    #[error("a write failed")]
    Write,
}

impl HttpFault {
    /// The number that is printed for the fault, 41 or 42.
    pub fn number(self) -> u16
        ensures { result ≡ spec.http_fault_number self }
    {
        match self {
            HttpFault::Read => 41,
            HttpFault::Write => 42,
        }
    }
}

/// Reads one request and writes one answer, which it does not flush. After `Read` nothing was written and nothing
/// changed. After `Write` a beginning of the answer was written, but not all, and a command that was carried out is not
/// undone. What the command leaves is said at `Store::apply`. Whatever was read and written, every session is seated as
/// `Store::show_seated` says.
pub fn serve_one<S: Alter, R: Read, W: Write>(
    alloc: Global,
    store: &mut Store<S>,
    today: Day,
    reader: &mut R,
    writer: &mut W,
) -> Result<(), HttpFault>
    ensures serves { spec.Serves S.Store W.contents today (R.remaining reader.old) (R.remaining reader.new)
        store.old writer.old result store.new writer.new }
    ensures served { spec.ServedOn S.Store today store.old store.new }
    ensures headline { (s : Code) → IsSeated store.new.office s }
{
    let mut buffer = [0; MOST_REQUEST];
    match read_request(reader, &mut buffer) {
        Ok(asked) => write_back(alloc, store, today, &asked, writer),
        Err(_) => {
            store.show_seated();
            Err(HttpFault::Read)
        }
    }
}

/// Answers what was asked, and writes the answer.
fn write_back<S: Alter, W: Write>(
    alloc: Global,
    store: &mut Store<S>,
    today: Day,
    asked: &Asked<'_>,
    writer: &mut W,
) -> Result<(), HttpFault>
    ensures replies { spec.Replies S.Store W.contents today (asked_of asked.now) store.old writer.old result
        store.new writer.new }
    ensures headline { (s : Code) → IsSeated store.new.office s }
{
    let answer = answer(alloc, store, today, asked);
    match write_answer(&answer, writer) {
        Ok(()) => Ok(()),
        Err(_) => Err(HttpFault::Write),
    }
}
