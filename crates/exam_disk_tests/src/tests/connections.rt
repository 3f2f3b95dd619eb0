//! Connections within this machine, served one after the other.
use super::disks::{connect, files_after};
use super::refusing::INIT;
use exam_job::JobFault;
use exam_program::serve_each;
use exam_school::{FIRST_TAKES_A, PEOPLE, TIMETABLE, expect_same};
use exam_scripts::answer_to;
use exam_store::Store;
use exam_types::Day;
use sqlite::{Alter, Connection, Files};
use sqlite_disk::Disk;
use std::alloc::Global;
use std::io::{self, Write};
use std::net::{Ipv4Addr, SocketAddrV4, TcpListener, TcpStream};
use std::str;
use std::test::Fail;

/// The last day on which an appeal against a hall can be lodged.
const LAST_DAY: &str = "2027-05-30";

/// What a client sends, how many bytes follow that nobody reads, and what it gets. The first one sends nothing.
const CLIENTS: &[(&str, usize, &str)] = &[
    ("", 0, ""),
    (
        "GET /candidates/0000009/seats HTTP/1.1\r\nHost: 127.0.0.1\r\nExam-Code: CODE0009\r\n\r\n",
        12_288,
        "HTTP/1.1 404 Not Found\r\nContent-Type: application/json\r\nContent-Length: 11\r\n\
Connection: close\r\n\r\n{\"error\":6}",
    ),
    (
        "GET /halls HTTP/1.1\r\nHost: 127.0.0.1\r\n\r\n",
        0,
        "HTTP/1.1 404 Not Found\r\nContent-Type: application/json\r\nContent-Length: 12\r\n\
Connection: close\r\n\r\n{\"error\":37}",
    ),
    (
        "POST /candidates/0000001/appeals HTTP/1.1\r\nHost: 127.0.0.1\r\nExam-Code: CODE0001\r\n\
Content-Length: 145\r\n\r\n\
{\"hall\":\"A\",\"kind\":\"hall\",\"reason\":\"The lamp above the desk flickers, and nobody \
could mend it in time for the exam.\",\"ref\":\"HA1\",\"session\":\"S1\"}",
        0,
        "HTTP/1.1 200 OK\r\nContent-Type: application/json\r\nContent-Length: 16\r\n\
Connection: close\r\n\r\n{\"state\":\"open\"}",
    ),
    (
        SHOW_APPEALS,
        0,
        "HTTP/1.1 200 OK\r\nContent-Type: application/json\r\nContent-Length: 230\r\n\
Connection: close\r\n\r\n\
{\"appeals\":[{\"answer\":null,\"kind\":\"hall\",\"lodged\":\"2027-05-30\",\"reason\":\"\
The lamp above the desk flickers, and nobody could mend it in time for the exam.\",\"ref\":\"HA1\",\"session\":\"S1\",\"standing\":false,\"state\":\"open\",\"subject\":\"A\"}]}",
    ),
];

/// Its answer goes out in two writes.
const SHOW_APPEALS: &str =
    "GET /candidates/0000001/appeals HTTP/1.1\r\nHost: 127.0.0.1\r\nExam-Code: CODE0001\r\n\r\n";

/// The second candidate sits too, and lodges an appeal, which no client asks for.
const SECOND_APPEALS: &str = r#"$ import entries f
number,paper
0000002,MA-1
> added 1 changed 0 same 0
$ POST /candidates/0000002/appeals on 2027-05-30
{"hall":"B","kind":"hall","reason":"","ref":"HA2","session":"S1"}
> {"state":"open"}
"#;

/// All tables, when the clients have been served: the appeal of the first candidate has come, and nothing else.
const SERVED: &str = "\
> 1|3|

S1|2027-06-01|540|

MA-1|Maths|S1|60|0|

A|Hall A|1|
B|Hall B|0|

S1|A|1|720|0|
S1|B|1|720|0|

1|Bo Berg|CODE0001|
2|Ada Lin|CODE0002|
3|Cy Dahl|CODE0003|
4|Di Roe|CODE0004|
5|Ed Poe|CODE0005|

1|MA-1|1|
2|MA-1|1|


1|HA1|S1|1|A|0|0|The lamp above the desk flickers, and nobody could mend it in time for the exam.|1|NULL|2027-05-30|
2|HA2|S1|1|B|0|0||1|NULL|2027-05-30|


S1|1|A|
S1|2|B|

";

/// Opens the office. Over any database it is cheap to prove.
fn opened<S: Alter + Drop>(alloc: Global, conn: Connection<S>) -> Result<Store<S>, Fail> {
    Ok(Store::open(alloc, conn).ok().ok_or("office")?)
}

/// Serves until no client waits, and gives what is told meanwhile.
fn told_of_serving<S: Alter + Drop>(
    rt: &HostRuntime,
    store: &mut Store<S>,
    today: Day,
    listener: &TcpListener,
) -> Result<Vec<u8>, Fail> {
    let mut told = Vec::new(rt.alloc());
    match serve_each(rt, store, today, listener, &mut told) {
        Err(JobFault::Net) => Ok(told),
        _ => Err(Fail::new("serving ended")),
    }
}

/// A client that sends a request, and bytes behind it that nobody reads.
fn client_of(
    rt: &HostRuntime,
    listener: &TcpListener,
    request: &str,
    more: usize,
) -> Result<TcpStream, Fail> {
    let mut client = TcpStream::connect(rt, listener.local_addr()?)?;
    client.write_all(request.as_bytes())?;
    client.write_all(vec![in rt.alloc(); b'x'; more]?.as_slice())?;
    Ok(client)
}

/// Serves each client at the connection's office, and compares what each of them gets, and in the end all tables. The
/// listener does not wait, so serving ends after the last client, who has left before the answer. The day of each request is
/// the one that is handed in.
fn expect_served<S: Alter + Drop>(rt: &HostRuntime, conn: Connection<S>) -> Result<(), Fail> {
    let today = Day::parse(LAST_DAY.as_bytes()).ok_or("day")?;
    let mut store = opened(rt.alloc(), conn)?;
    let listener = TcpListener::bind(rt, SocketAddrV4::new(Ipv4Addr::LOCALHOST, 0))?;
    listener.set_nonblocking(true)?;
    let mut clients = Vec::new(rt.alloc());
    for (request, more, _) in CLIENTS {
        clients.push(client_of(rt, &listener, request, *more)?)?;
    }
    drop(client_of(rt, &listener, SHOW_APPEALS, 0)?);
    let told = told_of_serving(rt, &mut store, today, &listener)?;
    expect_same(
        str::from_utf8(told.as_slice())?,
        "fault 41\nfault 42\n",
        "told",
    )?;
    for (client, (_, _, wanted)) in clients.into_iter().zip(CLIENTS) {
        let answer = io::read_to_string(rt.alloc(), client)?;
        expect_same(answer.as_str(), wanted, "answer")?;
    }
    let (_, tables) = answer_to(rt.alloc(), store.close(), "tables", b"");
    expect_same(tables?.as_str(), SERVED, "tables")
}

/// Serves each client at the office in the files. Over files of any kind it is cheap to prove. To hand over a store in place
/// of the connection would be dear.
fn expect_served_from<D: Disk + Drop>(rt: &HostRuntime, files: Files<D>) -> Result<(), Fail> {
    let conn = connect(rt.alloc(), files).ok().ok_or("open")?;
    expect_served(rt, conn)
}

/// Two candidates sit. Over memory, the database would be built a third time here.
#[test]
fn each_client_is_served(rt: HostRuntime) -> Result<(), Fail> {
    let days = &[INIT, TIMETABLE, PEOPLE, FIRST_TAKES_A, SECOND_APPEALS];
    let files = files_after(rt.alloc(), days)?;
    expect_served_from(&rt, files)
}
