//! Requests, whole and cut, from readers that give all at once or a byte at a time, and that fail.
use exam_request::{Asked, Fault, MOST_REQUEST, Request, read_request};
use std::io;
use std::io::Read;
use std::process::Abort;
use std::test::Fail;

const GET: &[u8] =
    b"GET /candidates/0000002/seats HTTP/1.1\r\nHost: a\r\nExam-Code: \t ABCD1234 \r\n\r\n";

const POST: &[u8] = b"POST /x HTTP/1.1\r\nhost: a\r\ncontent-length: 003\t\r\n\r\nabcdef";

/// Gives a byte at a time and counts its reads. Fails at the read after the last that it has.
#[derive(Drop)]
struct Drip<'a> {
    bytes: &'a [u8],
    reads: u32,
    fails: bool,
}

impl Read for Drip<'_> {
    fn read(&mut self, buf: &mut [u8]) -> io::Result<usize> {
        self.reads = self.reads.saturating_add(1);
        if buf.is_empty() || self.bytes.is_empty() {
            return if self.fails {
                Err(io::Error::from(io::ErrorKind::ConnectionReset))
            } else {
                Ok(0)
            };
        }
        buf[0] = self.bytes[0];
        self.bytes = &self.bytes[1..];
        Ok(1)
    }
}

/// The fault of an input, by its number, or 0 if it is a request.
fn fault_of(input: &[u8]) -> Result<u16, Fail> {
    let mut buffer = [0; MOST_REQUEST];
    let mut reader = input;
    match read_request(&mut reader, &mut buffer) {
        Ok(Asked::Request(_)) => Ok(0),
        Ok(Asked::Fault(fault)) => Ok(fault.number()),
        Err(_) => Err(Fail::from("a slice never fails")),
    }
}

fn expect_fault<R: Abort>(rt: &R, input: &[u8], number: u16) -> Result<(), Fail> {
    assert_eq!(rt; fault_of(input)?, number);
    Ok(())
}

fn is_get(asked: &Request<'_>) -> bool {
    asked.method == b"GET".as_slice()
        && asked.target == "/candidates/0000002/seats"
        && asked.code == Some(b"ABCD1234".as_slice())
        && asked.body.is_empty()
}

#[test]
fn a_request_is_read_at_once(rt: HostRuntime) -> Result<(), Fail> {
    let mut buffer = [0; MOST_REQUEST];
    let mut reader = GET;
    match read_request(&mut reader, &mut buffer) {
        Ok(Asked::Request(asked)) => assert!(rt; is_get(&asked)),
        _ => return Err(Fail::from("no request")),
    }
    Ok(())
}

#[test]
fn no_read_is_made_behind_the_body(rt: HostRuntime) -> Result<(), Fail> {
    let mut buffer = [0; MOST_REQUEST];
    let mut reader = Drip {
        bytes: POST,
        reads: 0,
        fails: true,
    };
    match read_request(&mut reader, &mut buffer) {
        Ok(Asked::Request(asked)) => assert!(rt;
            asked.body == b"abc".as_slice() && asked.code.is_none()
        ),
        _ => return Err(Fail::from("no request")),
    }
    assert_eq!(rt; reader.reads, POST.len() as u32 - 3);
    assert_eq!(rt; reader.bytes.len(), 3);
    Ok(())
}

/// Wherever the reader fails, the answer is this failure and no request.
#[test]
fn a_failed_read_is_told(rt: HostRuntime) -> Result<(), Fail> {
    let whole = POST.len() - 3;
    for given in 0..whole {
        let mut buffer = [0; MOST_REQUEST];
        let mut reader = Drip {
            bytes: &POST[..given],
            reads: 0,
            fails: true,
        };
        assert!(rt; read_request(&mut reader, &mut buffer).is_err());
    }
    Ok(())
}

/// Wherever the input ends, the answer is that the head or the body is cut off.
#[test]
fn a_cut_is_told(rt: HostRuntime) -> Result<(), Fail> {
    let whole = POST.len() - 3;
    for given in 0..whole {
        let wanted = if given < whole - 3 { 31 } else { 33 };
        expect_fault(&rt, &POST[..given], wanted)?;
    }
    expect_fault(&rt, &POST[..whole], 0)
}

fn expect_padded<R: Abort + AllocGlobal>(rt: &R, value: &[u8], number: u16) -> Result<(), Fail> {
    let mut input = Vec::from_slice(rt.alloc(), b"GET / HTTP/1.0\r\na:")?;
    input.extend_from_slice(value)?;
    input.extend_from_slice(b"\r\n\r\n")?;
    expect_fault(rt, input.as_slice(), number)
}

/// A head of 8,192 bytes is read, and a longer one is not.
#[test]
fn a_long_head_is_refused(rt: HostRuntime) -> Result<(), Fail> {
    expect_padded(&rt, &[b'a'; 8_170], 0)?;
    expect_padded(&rt, &[b'a'; 8_171], 34)?;
    expect_fault(&rt, &[b'a'; 8_191], 31)?;
    expect_fault(&rt, &[b'a'; 8_192], 34)
}

#[test]
fn heads_have_at_most_32_lines(rt: HostRuntime) -> Result<(), Fail> {
    let mut head = Vec::from_slice(rt.alloc(), b"GET / HTTP/1.0\r\n")?;
    for _ in 0..32 {
        head.extend_from_slice(b"a:b\r\n")?;
    }
    let lines = head.len();
    head.extend_from_slice(b"\r\n")?;
    expect_fault(&rt, head.as_slice(), 0)?;
    head.truncate(lines);
    head.extend_from_slice(b"a:b\r\n\r\n")?;
    expect_fault(&rt, head.as_slice(), 31)
}

/// Inputs and their faults; 0 if they are requests.
const FAULTS: &[(&[u8], u16)] = &[
    (b"", 31),
    (b"\r\nGET / HTTP/1.0\r\n\r\n", 31),
    (b"\nGET / HTTP/1.0\r\n\r\n", 31),
    (b"GET / HTTP/1.0\na: b\r\n\r\n", 31),
    (b"GET / HTTP/1.0\r\na: b\n\r\n\r\n", 31),
    (b"GET / HTTP/2.0\r\n\r\n", 31),
    (b"GET  / HTTP/1.0\r\n\r\n", 31),
    (b"GET / HTTP/1.0\r\na : b\r\n\r\n", 31),
    (b"GET / HTTP/1.0\r\na: b\r\n c\r\n\r\n", 31),
    (b"GET /\xff HTTP/1.0\r\n\r\n", 31),
    // the host comes once, or in the older version not at all
    (b"GET / HTTP/1.1\r\n\r\n", 32),
    (b"GET / HTTP/1.1\r\nHost:\r\n\r\n", 0),
    (b"GET / HTTP/1.1\r\nHost: a\r\nHOST: a\r\n\r\n", 32),
    (b"GET / HTTP/1.0\r\n\r\n", 0),
    (b"GET / HTTP/1.0\r\nHost: a\r\n\r\n", 0),
    (b"GET / HTTP/1.0\r\nHost: a\r\nhost: b\r\n\r\n", 32),
    // the host is checked before a transfer coding, and that before the length
    (
        b"GET / HTTP/1.1\r\nTransfer-Encoding: chunked\r\nContent-Length: x\r\n\r\n",
        32,
    ),
    (
        b"GET / HTTP/1.0\r\nTransfer-encoding:\r\nContent-Length: x\r\n\r\n",
        35,
    ),
    (b"GET / HTTP/1.0\r\nContent-Length: x\r\n\r\n", 33),
];

#[test]
fn the_first_fault_is_told(rt: HostRuntime) -> Result<(), Fail> {
    for (input, number) in FAULTS {
        assert_eq!(rt; fault_of(input)?, *number, "{input:?}");
    }
    Ok(())
}

/// Lines about the length of a body of 4,096 bytes, and their faults.
const LENGTHS: &[(&str, u16)] = &[
    ("content-length: 0", 0),
    ("Content-Length:\t4096 ", 0),
    ("Content-Length: 0000004096", 0),
    ("Content-Length: 4097", 34),
    ("Content-Length: 9999999999", 34),
    ("Content-Length: 00000004096", 33),
    ("Content-Length: +5", 33),
    ("Content-Length: -5", 33),
    ("Content-Length: 0x5", 33),
    ("Content-Length: 5 5", 33),
    ("Content-Length: 5, 5", 33),
    ("Content-Length:", 33),
    ("Content-Length: 5\r\ncontent-length: 5", 33),
];

#[test]
fn lengths_are_digits(rt: HostRuntime) -> Result<(), Fail> {
    for (lines, number) in LENGTHS {
        let mut input = Vec::from_slice(rt.alloc(), b"GET / HTTP/1.0\r\n")?;
        input.extend_from_slice(lines.as_bytes())?;
        input.extend_from_slice(b"\r\n\r\n")?;
        input.extend_from_slice(&[b'a'; 4_096])?;
        assert_eq!(rt; fault_of(input.as_slice())?, *number, "{lines}");
    }
    Ok(())
}

/// Two code lines count as none, even if both hold the same.
#[test]
fn two_code_lines_are_none(rt: HostRuntime) -> Result<(), Fail> {
    let mut buffer = [0; MOST_REQUEST];
    let mut reader =
        b"GET / HTTP/1.0\r\nexam-code: ABCD1234\r\nEXAM-CODE: ABCD1234\r\n\r\n".as_slice();
    match read_request(&mut reader, &mut buffer) {
        Ok(Asked::Request(asked)) => assert!(rt; asked.code.is_none()),
        _ => return Err(Fail::from("no request")),
    }
    Ok(())
}

#[test]
fn faults_have_numbers(rt: HostRuntime) -> Result<(), Fail> {
    assert_eq!(rt; Fault::Head.number(), 31);
    assert_eq!(rt; Fault::Method.number(), 38);
    Ok(())
}
