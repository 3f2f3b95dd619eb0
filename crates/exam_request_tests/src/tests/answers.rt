//! Answers, byte for byte.
use super::owns::{decided_rows, own_rows};
use exam_request::{Answer, appeals_body, clashes_body, seats_body, write_answer};
use exam_types::Refusal;
use std::alloc::Global;
use std::test::Fail;

fn written(alloc: Global, answer: &Answer) -> Result<Vec<u8>, Fail> {
    let mut out = Vec::new(alloc);
    write_answer(answer, &mut out).ok().ok_or("a write")?;
    Ok(out)
}

#[test]
fn want_of_memory_is_told(rt: HostRuntime) -> Result<(), Fail> {
    let short = Answer::refusal(Refusal::NoMemory);
    let text =
        b"HTTP/1.1 503 Service Unavailable\r\nContent-Type: application/json\r\nContent-Length: 12\r\nConnection: close\r\n\r\n{\"error\":22}";
    assert_eq!(rt; written(rt.alloc(), &short)?.as_slice(), text.as_slice());
    Ok(())
}

/// First lines of answers, with the refusals and faults that they are for.
const FIRST_LINES: [(&str, &[u16]); 8] = [
    ("HTTP/1.1 400 Bad Request\r\n", &[31, 32, 33, 36]),
    ("HTTP/1.1 404 Not Found\r\n", &[6, 15, 37]),
    ("HTTP/1.1 405 Method Not Allowed\r\n", &[38]),
    (
        "HTTP/1.1 409 Conflict\r\n",
        &[8, 11, 12, 14, 16, 17, 18, 19, 20, 21],
    ),
    ("HTTP/1.1 413 Content Too Large\r\n", &[34]),
    ("HTTP/1.1 500 Internal Server Error\r\n", &[23, 24]),
    ("HTTP/1.1 501 Not Implemented\r\n", &[35]),
    ("HTTP/1.1 503 Service Unavailable\r\n", &[22]),
];

#[test]
fn each_number_has_its_status(rt: HostRuntime) -> Result<(), Fail> {
    let alloc = rt.alloc();
    for (line, numbers) in FIRST_LINES {
        for number in numbers {
            let body = format!(in alloc; "\r\n\r\n{{\"error\":{number}}}")?;
            let answer = written(alloc, &Answer::error(*number))?;
            assert!(rt; answer.starts_with(line.as_bytes()), "{number}");
            assert!(rt; answer.ends_with(body.as_str().as_bytes()), "{number}");
        }
    }
    Ok(())
}

#[test]
fn bodies_of_own_rows(rt: HostRuntime) -> Result<(), Fail> {
    let alloc = rt.alloc();
    let own = own_rows(alloc, Some(1), "")?;
    let seats =
        b"{\"seats\":[{\"date\":\"2027-06-01\",\"desk\":1,\"extra\":0,\"finish\":\"10:00\",\"hall\":\"A\",\"needs\":\"-\",\"paper\":\"MA-1\",\"session\":\"S1\",\"start\":\"09:00\"}]}";
    assert_eq!(rt; seats_body(alloc, &own)?.as_slice(), seats.as_slice());
    let clashes = b"{\"clashes\":[{\"paper\":\"PH-2\",\"session\":\"S1\",\"sitting\":\"MA-1\"}]}";
    assert_eq!(rt; clashes_body(alloc, &own)?.as_slice(), clashes.as_slice());
    let appeals =
        b"{\"appeals\":[{\"answer\":null,\"kind\":\"hall\",\"lodged\":\"2027-05-30\",\"reason\":\"\",\"ref\":\"HA1\",\"session\":\"S1\",\"standing\":false,\"state\":\"open\",\"subject\":\"B\"}]}";
    assert_eq!(rt; appeals_body(alloc, &own)?.as_slice(), appeals.as_slice());
    Ok(())
}

#[test]
fn quotes_are_escaped_and_the_unseated_have_no_desk(rt: HostRuntime) -> Result<(), Fail> {
    let alloc = rt.alloc();
    let own = own_rows(alloc, None, "\"\\\u{e9}")?;
    let seats = seats_body(alloc, &own)?;
    assert!(rt;
        seats.starts_with(b"{\"seats\":[{\"date\":\"2027-06-01\",\"desk\":null,\"extra\":0,")
    );
    let appeals = appeals_body(alloc, &own)?;
    let rest =
        "{\"appeals\":[{\"answer\":null,\"kind\":\"hall\",\"lodged\":\"2027-05-30\",\"reason\":\"\\\"\\\\\u{e9}\",";
    assert!(rt; appeals.starts_with(rest.as_bytes()));
    Ok(())
}

/// The answer shows the reason of each decision, and what each kind of appeal asks for.
#[test]
fn decided_appeals_tell_their_answers(rt: HostRuntime) -> Result<(), Fail> {
    let own = decided_rows(rt.alloc())?;
    let body = appeals_body(rt.alloc(), &own)?;
    let text =
        b"{\"appeals\":[{\"answer\":\"yes\",\"kind\":\"arrangement\",\"lodged\":\"2027-05-30\",\"reason\":\"a\",\"ref\":\"AR1\",\"session\":\"S1\",\"standing\":true,\"state\":\"superseded\",\"subject\":\"screen 25\"},\
{\"answer\":null,\"kind\":\"clash\",\"lodged\":\"2027-05-30\",\"reason\":\"c\",\"ref\":\"CA1\",\"session\":\"S1\",\"standing\":false,\"state\":\"retracted\",\"subject\":\"PH-2\"},\
{\"answer\":\"no\",\"kind\":\"hall\",\"lodged\":\"2027-05-30\",\"reason\":\"h\",\"ref\":\"HA1\",\"session\":\"S1\",\"standing\":false,\"state\":\"refused\",\"subject\":\"B\"}]}";
    assert_eq!(rt; body.as_slice(), text.as_slice());
    Ok(())
}
