//! A request over a socket of this machine.
use super::exchanges::{LAST_DAY, SEAT_IN_A};
use super::office::office_with;
use exam_http::serve_one;
use exam_school::{ONE_SITS, Words};
use std::io::{self, Write};
use std::net::{Ipv4Addr, SocketAddrV4, TcpListener, TcpStream};
use std::test::Fail;

const REQUEST: &[u8] =
    b"GET /candidates/0000001/seats HTTP/1.1\r\nHost: 127.0.0.1\r\nExam-Code: CODE0001\r\n\r\n";

/// The client connects and writes, then the server accepts and serves, then the client reads to the end.
#[test]
fn a_seat_is_shown_over_a_socket(rt: HostRuntime) -> Result<(), Fail> {
    let mut store = office_with(rt.alloc(), ONE_SITS)?;
    let today = Words::of(LAST_DAY).day()?;
    let listener = TcpListener::bind(&rt, SocketAddrV4::new(Ipv4Addr::LOCALHOST, 0))?;
    let mut client = TcpStream::connect(&rt, listener.local_addr()?)?;
    client.write_all(REQUEST)?;
    let (stream, _) = listener.accept()?;
    let served = serve_one(rt.alloc(), &mut store, today, &mut &stream, &mut &stream);
    assert!(rt; served == Ok(()));
    drop(stream);
    let answer = io::read_to_string(rt.alloc(), client)?;
    assert!(rt; answer.as_str() == SEAT_IN_A);
    Ok(())
}
