//! What is done for requests.
use exam_request::{Choice, Named, Page, Request, candidate_of, choose, find, server_routes};
use exam_types::{AccessCode, Number};
use std::alloc::Global;
use std::test::Fail;

/// A request by its method, target and code, and what is done for it.
type Row<'a> = (&'a [u8], &'a str, Option<&'a [u8]>, &'a str);

const CODE: Option<&'static [u8]> = Some(b"CODE0001");

const WRONG: Option<&'static [u8]> = Some(b"WRONG001");

const SEATS: &str = "/candidates/0000001/seats";

const APPEALS: &str = "/candidates/0000001/appeals";

const ROWS: &[Row<'static>] = &[
    (b"GET", SEATS, CODE, "seats"),
    (b"GET", SEATS, WRONG, "refused 6"),
    (b"GET", SEATS, None, "refused 6"),
    (b"GET", "/candidates/0000002/seats", CODE, "refused 6"),
    (b"GET", "/candidates/1/seats", CODE, "refused 6"),
    (b"GET", "/candidates/0000001/clashes", CODE, "clashes"),
    (b"GET", APPEALS, CODE, "appeals"),
    (b"POST", APPEALS, CODE, "fault 36"),
    (b"POST", APPEALS, WRONG, "refused 6"),
    (b"HEAD", SEATS, CODE, "method"),
    (b"get", SEATS, CODE, "method"),
    (b"GET", "/candidates/0000001/seats?x=1", CODE, "fault 37"),
    (
        b"DELETE",
        "/candidates/0000001/appeals/HA1",
        CODE,
        "retract",
    ),
    (
        b"DELETE",
        "/candidates/0000001/appeals/HA1?x",
        CODE,
        "refused 15",
    ),
];

const POSTED: &[u8] =
    b"{\"hall\":\"B\",\"kind\":\"hall\",\"reason\":\"\",\"ref\":\"HA1\",\"session\":\"S1\"}";

/// What is done for a request if the candidate 0000001 is known.
fn chosen(alloc: Global, asked: &Request<'_>) -> Result<Choice, Fail> {
    let router = server_routes(alloc).ok().ok_or("routes")?;
    let found = find(&router, asked.target);
    let named = match candidate_of(&found) {
        Some(number) if number.get() == 1 => Some(named_with(number)?),
        _ => None,
    };
    Ok(choose(alloc, asked, found, named)?)
}

/// The candidate of this number, who has the first code.
fn named_with(number: Number) -> Result<Named, Fail> {
    let code = AccessCode::parse(b"CODE0001").ok_or("code")?;
    Ok(Named { number, code })
}

fn word(choice: &Choice) -> &'static str {
    match choice {
        Choice::Fault(fault) if fault.number() == 36 => "fault 36",
        Choice::Fault(fault) if fault.number() == 37 => "fault 37",
        Choice::OtherMethod(_) => "method",
        Choice::Refused(refusal) if refusal.number() == 6 => "refused 6",
        Choice::Refused(refusal) if refusal.number() == 15 => "refused 15",
        Choice::Show(_, Page::Seats) => "seats",
        Choice::Show(_, Page::Clashes) => "clashes",
        Choice::Show(_, Page::Appeals) => "appeals",
        Choice::Lodge(_) => "lodge",
        Choice::Retract(..) => "retract",
        _ => "other",
    }
}

#[test]
fn each_request_is_shown_its_own_or_refused(rt: HostRuntime) -> Result<(), Fail> {
    for (method, target, code, done) in ROWS {
        let asked = Request {
            method,
            target,
            code: *code,
            body: b"",
        };
        if word(&chosen(rt.alloc(), &asked)?) != *done {
            return Err(Fail::new(*target));
        }
    }
    Ok(())
}

#[test]
fn a_posting_lodges(rt: HostRuntime) -> Result<(), Fail> {
    let asked = Request {
        method: b"POST",
        target: APPEALS,
        code: CODE,
        body: POSTED,
    };
    assert_eq!(rt; word(&chosen(rt.alloc(), &asked)?), "lodge");
    Ok(())
}
