//! The office on a port of this machine.
ghost use Rattle.std.specs.Prelude.{◌≡◌, IfErr};
ghost use Rattle.exam_http.specs.Serving.{ServedOn};
ghost use Rattle.exam_job.specs.declared.report.JobFault.TheVariants.{Net};
ghost use Rattle.exam_program.specs.Running.{AreEnded, EndsOne, ServesOn, TellsEnd};

use exam_http::{HttpFault, serve_one};
use exam_job::{JobFault, connection_fault_line, print, serving_line};
use exam_send::send;
use exam_store::Store;
use exam_types::Day;
use sqlite::Alter;
use std::io::{self, ErrorKind, Read, Write};
use std::net::{Ipv4Addr, Shutdown, SocketAddrV4, TcpListener, TcpStream};
use std::time::{Duration, Instant};

/// How many seconds a client may take before its first byte, and between two bytes, so that a silent client does not
/// block the office.
const LONGEST_SILENCE: u64 = 2;

/// How many seconds a connection may last, so that a slow client does not block the office.
const LONGEST_CONNECTION: u64 = 10;

/// How many milliseconds a read or a write waits once its time is over. What has arrived by then is read all the same,
/// and what the client has room for is sent. So a program that was stopped and continued loses no request that has
/// arrived, and no answer to a client that waits.
const LAST_MOMENT: u64 = 1;

/// The server ends after so many connections.
const MOST_CONNECTIONS: usize = 4_294_967_295;

/// A connection with a time for each read and write, and for the whole. Once the time is over, a read gives only what
/// has arrived, and a write sends only what the client has room for.
#[derive(Drop)]
struct Timed<'s> {
    stream: &'s TcpStream,
    rt: &'s HostRuntime,
    since: Instant,
}

impl Timed<'_> {
    /// How much longer a read or a write that began at this moment may wait.
    fn time_left(&self, began: Instant) -> io::Result<Duration> {
        let silence = left_of(self.rt, LONGEST_SILENCE, began)?;
        let connection = left_of(self.rt, LONGEST_CONNECTION, self.since)?;
        let left = silence.min(connection);
        Ok(left.max(Duration::from_millis(LAST_MOMENT)))
    }
}

/// What is left of so many seconds since this moment.
fn left_of(rt: &HostRuntime, seconds: u64, since: Instant) -> io::Result<Duration> {
    Ok(Duration::from_secs(seconds).saturating_sub(since.elapsed(rt)?))
}

impl Read for Timed<'_> {
    fn read(&mut self, buf: &mut [u8]) -> io::Result<usize> {
        let began = Instant::now(self.rt)?;
        let mut stream = self.stream;
        for _ in 0..u64::MAX {
            self.stream.set_read_timeout(Some(self.time_left(began)?))?;
            match stream.read(buf) {
                // A signal interrupted the read, for example because the program was stopped and continued.
                Err(error) if error.kind() == ErrorKind::Interrupted => {}
                done => return done,
            }
        }
        Err(io::Error::from(ErrorKind::TimedOut))
    }
}

impl Write for Timed<'_> {
    fn write(&mut self, buf: &[u8]) -> io::Result<usize> {
        let began = Instant::now(self.rt)?;
        let mut stream = self.stream;
        for _ in 0..u64::MAX {
            self.stream.set_write_timeout(Some(self.time_left(began)?))?;
            match stream.write(buf) {
                Err(error) if error.kind() == ErrorKind::Interrupted => {}
                done => return done,
            }
        }
        Err(io::Error::from(ErrorKind::TimedOut))
    }

    fn flush(&mut self) -> io::Result<()> {
        Ok(())
    }
}

/// Serves one connection after the other on the port, with the day as today, also after midnight. Prints a line once
/// the port is bound. If it cannot be bound (`Net`) or the line cannot be printed (`Write`), nobody is served.
pub fn serve<S: Alter, O: Write, E: Write>(
    rt: &HostRuntime,
    store: &mut Store<S>,
    today: Day,
    port: u16,
    out: &mut O,
    err: &mut E,
) -> Result<(), JobFault>
    ensures { ServesOn S.Store O.contents E.contents port today store.old out.old err.old result store.new
        out.new err.new }
{
    let address = SocketAddrV4::new(Ipv4Addr::LOCALHOST, port);
    let Ok(listener) = TcpListener::bind(rt, address) else {
        return Err(JobFault::Net);
    };
    print(out, serving_line(port).as_slice())?;
    serve_each(rt, store, today, &listener, err)
}

/// Serves one connection after the other, one request of each, until one cannot be accepted (`Net`), or until it has
/// served 4,294,967,295. The store changes as if requests had asked for it, and today is the day of each.
pub fn serve_each<S: Alter, E: Write>(
    rt: &HostRuntime,
    store: &mut Store<S>,
    today: Day,
    listener: &TcpListener,
    err: &mut E,
) -> Result<(), JobFault>
    ensures fault { IfErr result (λ fault. fault ≡ Net) }
    ensures served { AreEnded S.Store E.contents today store.old err.old store.new err.new }
{
    'connections: for stream in listener.incoming().take(MOST_CONNECTIONS) {
        match stream {
            Ok(stream) => serve_connection(rt, store, today, &stream, err),
            Err(_) => return Err(JobFault::Net),
        }
    }
    Ok(())
}

/// Serves one request, and prints the fault if the connection failed.
fn serve_connection<S: Alter, E: Write>(
    rt: &HostRuntime,
    store: &mut Store<S>,
    today: Day,
    stream: &TcpStream,
    err: &mut E,
)
    ensures { EndsOne S.Store E.contents today store.old err.old store.new err.new }
{
    let end = serve_timed(rt, store, today, stream);
    tell_end(end, err);
    // The answer ends before the connection is closed. Closing resets a connection if not all of its bytes were read,
    // and a client that sees the reset first could lose the answer.
    let _ = stream.shutdown(Shutdown::Write);
}

/// Prints the line of the fault that a connection ended in, if it did.
fn tell_end<E: Write>(end: Result<(), HttpFault>, err: &mut E)
    ensures { TellsEnd E.contents end err.old err.new }
{
    match end {
        Ok(()) => {}
        Err(fault) => {
            // There is nowhere left to report that this was not written.
            let _ = send(err, connection_fault_line(fault.number()).as_slice());
        }
    }
}

/// Serves one request, in the time that its connection has.
fn serve_timed<S: Alter>(
    rt: &HostRuntime,
    store: &mut Store<S>,
    today: Day,
    stream: &TcpStream,
) -> Result<(), HttpFault>
    ensures { ServedOn S.Store today store.old store.new }
{
    let Ok(since) = Instant::now(rt) else {
        return Err(HttpFault::Read);
    };
    let mut reader = Timed { stream, rt, since };
    let mut writer = Timed { stream, rt, since };
    serve_one(rt.alloc(), store, today, &mut reader, &mut writer)
}
