//! Requests in turn, each read at once and then byte by byte, with each answer byte for byte.
use super::client::{Giving, serve};
use super::office::office_with;
use exam_school::{ONE_SITS, TWO_SIT, expect_same};
use exam_store::Store;
use sqlite::MemStore;
use std::alloc::Global;
use std::str;
use std::test::Fail;

/// A day, the parts of a request with how often each comes there, and the answer.
type Exchange<'a> = (&'a str, &'a [(&'a str, usize)], &'a str);

/// The last day on which an appeal against a hall can be lodged, and the next one.
pub const LAST_DAY: &str = "2027-05-30";

pub const DAY_AFTER: &str = "2027-05-31";

/// Makes the request twice, the second time byte by byte, and compares both answers.
pub fn expect_answer(
    alloc: Global,
    store: &mut Store<MemStore>,
    asked: Exchange<'_>,
) -> Result<(), Fail> {
    let (on, parts, answer) = asked;
    let mut request = String::new(alloc);
    for (part, count) in parts {
        request.push_str(part.repeat(alloc, *count)?.as_str())?;
    }
    for step in [usize::MAX, 1] {
        let given = Giving {
            left: request.as_str().as_bytes(),
            step,
            fails: false,
        };
        let (served, taken) = serve(alloc, store, on, given, usize::MAX)?;
        expect_same(str::from_utf8(taken.as_slice())?, answer, request.as_str())?;
        if served.is_err() {
            return Err(Fail::new("not served"));
        }
    }
    Ok(())
}

/// Makes the requests in turn, at the school with these rows.
fn exchange(alloc: Global, rows: &str, exchanges: &[Exchange<'_>]) -> Result<(), Fail> {
    let mut store = office_with(alloc, rows)?;
    for asked in exchanges {
        expect_answer(alloc, &mut store, *asked)?;
    }
    Ok(())
}

/// The answer for an unknown candidate and to a wrong code, of 108 bytes.
pub const UNKNOWN: &str = answered!("404 Not Found", 11, "{\"error\":6}");

const OTHER_ROUTE: &str = answered!("404 Not Found", 12, "{\"error\":37}");

const BAD_HEAD: &str = answered!("400 Bad Request", 12, "{\"error\":31}");

pub const SEAT_IN_A: &str = answered!(
    "200 OK",
    138,
    "{\"seats\":[{\"date\":\"2027-06-01\",\"desk\":1,\"extra\":0,\"finish\":\"10:00\",\"hall\":\"A\",\"needs\":\"-\",\"paper\":\"MA-1\",\"session\":\"S1\",\"start\":\"09:00\"}]}"
);

const SEATS: &[Exchange<'_>] = &[
    (
        LAST_DAY,
        &[(asked!("GET /candidates/0000001/seats"), 1)],
        SEAT_IN_A,
    ),
    (
        LAST_DAY,
        &[(
            "GET /candidates/0000001/seats HTTP/1.1\r\nHost: office\r\nExam-Code: WRONG001\r\n\r\n",
            1,
        )],
        UNKNOWN,
    ),
    (
        LAST_DAY,
        &[(asked!("GET /candidates/9999999/seats"), 1)],
        UNKNOWN,
    ),
    (
        LAST_DAY,
        &[(asked!("GET /candidates/0000002/seats"), 1)],
        UNKNOWN,
    ),
    (
        LAST_DAY,
        &[(
            "GET /candidates/0000002/seats HTTP/1.0\r\nexam-code:\tCODE0002 \r\n\r\n",
            1,
        )],
        answered!("200 OK", 12, "{\"seats\":[]}"),
    ),
    (
        LAST_DAY,
        &[(asked!("GET /candidates/0000001/seats?x=1"), 1)],
        OTHER_ROUTE,
    ),
    (
        LAST_DAY,
        &[(
            "GET /candidates/0000001/seats HTTP/1.1\r\nHost: office\r\nExam-Code: CODE0001\r\n",
            1,
        )],
        BAD_HEAD,
    ),
];

/// The first candidate sits one of two papers at the same time.
const TWO_PAPERS: &str = "\
INSERT INTO paper VALUES ('PH-2', 'Physics', 'S1', 60, 16);
INSERT INTO entry VALUES (1, 'MA-1', 1), (1, 'PH-2', 1);
INSERT INTO seat VALUES ('S1', 1, 'A')";

const CLASHES: &[Exchange<'_>] = &[(
    LAST_DAY,
    &[(asked!("GET /candidates/0000001/clashes"), 1)],
    answered!(
        "200 OK",
        62,
        "{\"clashes\":[{\"paper\":\"PH-2\",\"session\":\"S1\",\"sitting\":\"MA-1\"}]}"
    ),
)];

/// Each route with a method that it does not have.
const OTHER_METHODS: &[Exchange<'_>] = &[
    (
        LAST_DAY,
        &[(asked!("HEAD /candidates/0000001/seats"), 1)],
        not_allowed!("GET"),
    ),
    (
        LAST_DAY,
        &[(asked!("HEAD /candidates/0000001/clashes"), 1)],
        not_allowed!("GET"),
    ),
    (
        LAST_DAY,
        &[(asked!("HEAD /candidates/0000001/appeals"), 1)],
        not_allowed!("GET, POST"),
    ),
    (
        LAST_DAY,
        &[(asked!("POST /candidates/0000001/appeals/HA1"), 1)],
        not_allowed!("DELETE"),
    ),
];

pub const AGAINST_B: &str = posted!(
    65,
    "{\"hall\":\"B\",\"kind\":\"hall\",\"reason\":\"\",\"ref\":\"HA1\",\"session\":\"S1\"}"
);

pub const OPEN: &str = answered!("200 OK", 16, "{\"state\":\"open\"}");

const RETRACTED: &str = answered!("200 OK", 21, "{\"state\":\"retracted\"}");

/// The appeal is posted; its answer may be lost.
pub const LODGED: Exchange<'_> = (DAY_AFTER, &[(AGAINST_B, 1)], OPEN);

pub const ONE_APPEAL: Exchange<'_> = (
    DAY_AFTER,
    &[(asked!("GET /candidates/0000001/appeals"), 1)],
    answered!(
        "200 OK",
        150,
        "{\"appeals\":[{\"answer\":null,\"kind\":\"hall\",\"lodged\":\"2027-05-30\",\"reason\":\"\",\"ref\":\"HA1\",\"session\":\"S1\",\"standing\":false,\"state\":\"open\",\"subject\":\"B\"}]}"
    ),
);

const APPEALS: &[Exchange<'_>] = &[
    (
        DAY_AFTER,
        &[(AGAINST_B, 1)],
        answered!("409 Conflict", 31, "{\"day\":\"2027-05-30\",\"error\":13}"),
    ),
    (LAST_DAY, &[(AGAINST_B, 1)], OPEN),
    ONE_APPEAL,
    LODGED,
    (
        DAY_AFTER,
        &[(
            posted!(
                65,
                "{\"hall\":\"A\",\"kind\":\"hall\",\"reason\":\"\",\"ref\":\"HA1\",\"session\":\"S1\"}"
            ),
            1,
        )],
        answered!("409 Conflict", 12, "{\"error\":14}"),
    ),
    (
        DAY_AFTER,
        &[(asked!("PUT /candidates/0000001/appeals"), 1)],
        not_allowed!("GET, POST"),
    ),
    (
        DAY_AFTER,
        &[(asked!("DELETE /candidates/0000001/appeals/HA1?x"), 1)],
        answered!("404 Not Found", 12, "{\"error\":15}"),
    ),
    (
        DAY_AFTER,
        &[(
            "DELETE /candidates/0000001/appeals/HA1 HTTP/1.1\r\nHost: office\r\nExam-Code: CODE0002\r\n\r\n",
            1,
        )],
        UNKNOWN,
    ),
    (
        DAY_AFTER,
        &[(asked!("DELETE /candidates/0000001/appeals/HA1"), 1)],
        RETRACTED,
    ),
    (
        DAY_AFTER,
        &[(asked!("DELETE /candidates/0000001/appeals/HA1"), 1)],
        RETRACTED,
    ),
    (DAY_AFTER, &[(AGAINST_B, 1)], RETRACTED),
];

/// The request for a seat up to the line of the code; an empty line after it would make it complete.
const SEAT_ASKED: &str =
    "GET /candidates/0000001/seats HTTP/1.1\r\nHost: office\r\nExam-Code: CODE0001\r\n";

pub const BAD_HOST: &str = answered!("400 Bad Request", 12, "{\"error\":32}");

const BAD_LENGTH: &str = answered!("400 Bad Request", 12, "{\"error\":33}");

const TOO_LARGE: &str = answered!("413 Content Too Large", 12, "{\"error\":34}");

pub const BAD_BODY: &str = answered!("400 Bad Request", 12, "{\"error\":36}");

const HOSTILE: &[Exchange<'_>] = &[
    (
        LAST_DAY,
        &[(
            "GET /candidates/0000001/seats HTTP/1.1\r\nExam-Code: CODE0001\r\n\r\n",
            1,
        )],
        BAD_HOST,
    ),
    (
        LAST_DAY,
        &[(SEAT_ASKED, 1), ("Host: office\r\n\r\n", 1)],
        BAD_HOST,
    ),
    // 33 lines
    (
        LAST_DAY,
        &[(SEAT_ASKED, 1), ("X: y\r\n", 31), ("\r\n", 1)],
        BAD_HEAD,
    ),
    (
        LAST_DAY,
        &[(SEAT_ASKED, 1), ("Content-Length: 4097\r\n\r\n", 1)],
        TOO_LARGE,
    ),
    (
        LAST_DAY,
        &[
            (SEAT_ASKED, 1),
            ("Transfer-Encoding: chunked\r\n", 1),
            ("Content-Length: 0\r\n", 2),
            ("\r\n", 1),
        ],
        answered!("501 Not Implemented", 12, "{\"error\":35}"),
    ),
    (
        LAST_DAY,
        &[(SEAT_ASKED, 1), ("Content-Length: 0\r\n", 2), ("\r\n", 1)],
        BAD_LENGTH,
    ),
    (
        LAST_DAY,
        &[(SEAT_ASKED, 1), ("Content-Length: 00000000000\r\n\r\n", 1)],
        BAD_LENGTH,
    ),
    (
        LAST_DAY,
        &[
            (SEAT_ASKED, 1),
            ("Content-Length: 20\r\n\r\n", 1),
            ("y", 19),
        ],
        BAD_LENGTH,
    ),
    (
        LAST_DAY,
        &[(
            posted!(
                90,
                "{\"extra\":1.0,\"kind\":\"arrangement\",\"needs\":\"screen\",\"reason\":\"\",\"ref\":\"AR1\",\"session\":\"S1\"}"
            ),
            1,
        )],
        BAD_BODY,
    ),
    (
        LAST_DAY,
        &[(
            posted!(
                71,
                "{\"hall\":\"B\",\"kind\":\"hall\",\"reason\":\"\",\"ref\":\"HA1\",\"session\":\"S1\",\"x\":1}"
            ),
            1,
        )],
        BAD_BODY,
    ),
    // arrays in arrays, in the place of a text
    (
        LAST_DAY,
        &[
            (
                posted!(463, "{\"hall\":\"B\",\"kind\":\"hall\",\"reason\":"),
                1,
            ),
            ("[", 200),
            ("]", 200),
            (",\"ref\":\"HA1\",\"session\":\"S1\"}", 1),
        ],
        BAD_BODY,
    ),
    (LAST_DAY, &[(posted!(2, "{}"), 1)], BAD_BODY),
];

#[test]
fn requests_are_answered_as_told(rt: HostRuntime) -> Result<(), Fail> {
    if UNKNOWN.len() != 108 {
        return Err(Fail::new("length"));
    }
    exchange(rt.alloc(), ONE_SITS, SEATS)?;
    exchange(rt.alloc(), TWO_PAPERS, CLASHES)?;
    exchange(rt.alloc(), ONE_SITS, OTHER_METHODS)?;
    exchange(rt.alloc(), TWO_SIT, APPEALS)?;
    exchange(rt.alloc(), ONE_SITS, HOSTILE)
}

/// 8,192 bytes without an empty line. The server looks for one after each byte: this takes minutes under `rt try`.
const LONG_HEAD: &[Exchange<'_>] = &[(
    LAST_DAY,
    &[(SEAT_ASKED, 1), ("X: ", 1), ("y", 8_114)],
    TOO_LARGE,
)];

#[test]
fn a_head_that_does_not_end_is_too_large(rt: HostRuntime) -> Result<(), Fail> {
    exchange(rt.alloc(), ONE_SITS, LONG_HEAD)
}
