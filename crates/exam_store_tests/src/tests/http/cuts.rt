//! Requests that fail at each of their bytes, and answers that are cut off at each of theirs.
use super::client::{Giving, serve};
use super::exchanges::{
    AGAINST_B, BAD_BODY, BAD_HOST, LAST_DAY, LODGED, ONE_APPEAL, OPEN, SEAT_IN_A, UNKNOWN,
    expect_answer,
};
use super::office::office_with;
use exam_http::HttpFault;
use exam_school::{ONE_SITS, TWO_SIT};
use exam_store::Store;
use sqlite::MemStore;
use std::alloc::Global;
use std::test::Fail;

/// More bytes than an answer has.
const UNLIMITED: usize = 1_000_000;

/// The outcome of a request that fails after these bytes, and what is written if the client takes at most so many.
fn sent(
    alloc: Global,
    store: &mut Store<MemStore>,
    given: &[u8],
    most: usize,
) -> Result<(Result<(), HttpFault>, Vec<u8>), Fail> {
    let request = Giving {
        left: given,
        step: 1,
        fails: true,
    };
    serve(alloc, store, LAST_DAY, request, most)
}

/// Expects that serving a request ends with this fault after these bytes of its answer.
fn expect_fault(
    alloc: Global,
    store: &mut Store<MemStore>,
    (given, most): (&[u8], usize),
    fault: HttpFault,
    answer: &[u8],
) -> Result<(), Fail> {
    let (served, taken) = sent(alloc, store, given, most)?;
    if served == Err(fault) && taken.as_slice() == answer {
        return Ok(());
    }
    Err(Fail::new(format_args!("{} bytes given, room for {most}", given.len())))
}

/// The request fails after each number of its bytes: nothing is answered.
fn expect_unread(alloc: Global, store: &mut Store<MemStore>, request: &[u8]) -> Result<(), Fail> {
    for given in 0..request.len() {
        let part = (&request[..given], UNLIMITED);
        expect_fault(alloc, store, part, HttpFault::Read, b"")?;
    }
    Ok(())
}

/// The answer is lost after so many bytes.
fn expect_cut(
    alloc: Global,
    store: &mut Store<MemStore>,
    (request, answer): (&[u8], &[u8]),
    most: usize,
) -> Result<(), Fail> {
    let taken = answer.get(..most).ok_or("answer")?;
    expect_fault(alloc, store, (request, most), HttpFault::Write, taken)
}

/// The answer is lost after each number of its bytes.
fn expect_unwritten(
    alloc: Global,
    store: &mut Store<MemStore>,
    exchange: (&[u8], &[u8]),
) -> Result<(), Fail> {
    for most in 0..exchange.1.len() {
        expect_cut(alloc, store, exchange, most)?;
    }
    Ok(())
}

#[test]
fn a_posting_that_is_cut_changes_nothing(rt: HostRuntime) -> Result<(), Fail> {
    let mut store = office_with(rt.alloc(), TWO_SIT)?;
    expect_unread(rt.alloc(), &mut store, AGAINST_B.as_bytes())?;
    assert_eq!(rt; appeal_count(store)?, 0);
    Ok(())
}

/// The appeal is posted again when it is too late to lodge a new one. Then the answer is lost after each of its bytes.
#[test]
fn an_appeal_stands_whose_answer_is_cut(rt: HostRuntime) -> Result<(), Fail> {
    let mut store = office_with(rt.alloc(), TWO_SIT)?;
    let exchange = (AGAINST_B.as_bytes(), OPEN.as_bytes());
    expect_cut(rt.alloc(), &mut store, exchange, 10)?;
    expect_answer(rt.alloc(), &mut store, LODGED)?;
    expect_unwritten(rt.alloc(), &mut store, exchange)?;
    expect_answer(rt.alloc(), &mut store, ONE_APPEAL)?;
    assert_eq!(rt; appeal_count(store)?, 1);
    Ok(())
}

/// Requests that are answered with rows, with refusals or with faults.
const REQUESTS: &[(&str, &str)] = &[
    (asked!("GET /candidates/0000001/seats"), SEAT_IN_A),
    (
        asked!("DELETE /candidates/0000001/appeals/HA1"),
        answered!("404 Not Found", 12, "{\"error\":15}"),
    ),
    (asked!("GET /candidates/9999999/seats"), UNKNOWN),
    (
        "GET /candidates/0000001/seats HTTP/1.1\r\nExam-Code: CODE0001\r\n\r\n",
        BAD_HOST,
    ),
    (posted!(2, "{}"), BAD_BODY),
];

#[test]
fn each_read_and_each_write_may_fail(rt: HostRuntime) -> Result<(), Fail> {
    let mut store = office_with(rt.alloc(), ONE_SITS)?;
    for (request, answer) in REQUESTS {
        expect_unread(rt.alloc(), &mut store, request.as_bytes())?;
        expect_unwritten(
            rt.alloc(),
            &mut store,
            (request.as_bytes(), answer.as_bytes()),
        )?;
    }
    Ok(())
}

/// How many rows the table of appeals has.
fn appeal_count(store: Store<MemStore>) -> Result<usize, Fail> {
    let mut conn = store.close();
    let rows = conn.query_all("SELECT number, ref FROM appeal", &[])?;
    Ok(rows.len())
}
