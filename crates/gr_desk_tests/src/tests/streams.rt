//! When lines ask the clock, and what becomes of streams that cannot be read or written.
use super::connections::is_told;
use super::lines::{ROLL, is_done, line_of, make_files, status_of};
use super::{ALICE, NEW_YEAR, is_made, remove, same};
use sqlite::Unknown;
use std::alloc::AllocError;
use std::cell::Cell;
use std::io::{self, Read, Write};
use std::net::{Ipv4Addr, TcpListener, TcpStream};
use std::test::Fail;

const LOST: &str = "lost\n";

/// Lines that end before they ask the clock, and their exit statuses.
const NO_CLOCK: [(&str, u8); 9] = [
    ("once missing.db", 3),
    ("once empty.db", 3),
    ("once bad.csv", 3),
    ("once :memory: --at 5", 0),
    ("import missing.db test.csv", 3),
    ("import empty.db test.csv", 3),
    ("import :memory: bad.csv", 1),
    ("serve missing.db --port 1 --count 1", 3),
    ("roll :memory:", 0),
];

/// Lines whose input has a request, their exit statuses, and how often they read that. One read
/// brings the whole request.
const READS: [(&str, u8, u32); 12] = [
    ("once :memory: --at 0", 0, 1),
    ("once read.db --at 0", 0, 1),
    ("once missing.db", 3, 0),
    ("once empty.db", 3, 0),
    ("once bad.csv", 3, 0),
    ("import read.db test.csv --at 0", 1, 0),
    ("migrate read.db", 0, 0),
    ("roll read.db", 0, 0),
    ("status read.db 1", 1, 0),
    ("serve missing.db --port 1 --count 1", 3, 0),
    ("--help", 0, 0),
    ("frob", 2, 0),
];

/// Lines that print, with no need of a file but the last, which makes it.
const PRINTS: [&str; 7] = [
    "--help",
    "--version",
    "serve --help",
    "roll :memory:",
    "once :memory:",
    "import :memory: test.csv",
    "init lost.db",
];

/// The clock is asked when FILE is open.
#[test]
fn the_clock_is_asked_behind_the_opening(rt: HostRuntime) {
    make_files(&rt).expect(&rt, "files");
    for (line, status) in NO_CLOCK {
        same(&rt, asks(&rt, line), Ok((status, false)), line);
    }
}

/// The exit status of a line, and whether it asks the clock.
fn asks(rt: &HostRuntime, line: &str) -> Result<(u8, bool), AllocError> {
    let asked = Cell::new(false);
    let now = || {
        asked.set(true);
        NEW_YEAR
    };
    let status = status_of(rt, line, &now, ROLL.as_bytes(), io::sink(), io::sink())?;
    Ok((status, asked.get()))
}

/// And it is asked once, before the request is read.
#[test]
fn a_request_is_read_behind_the_clock(rt: HostRuntime) {
    let asked = Cell::new(false);
    let times = Cell::new(0_u32);
    let now = || {
        asked.set(true);
        times.set(times.get().saturating_add(1));
        NEW_YEAR
    };
    let input = Behind {
        asked: &asked,
        bytes: ROLL.as_bytes(),
    };
    let ended = status_of(&rt, "once :memory:", &now, input, io::sink(), io::sink());
    same(&rt, ended, Ok(0), "the line");
    same(&rt, times.get(), 1, "how often the clock is asked");
}

/// `once` reads its request and no further, and nothing where it opens no desk. Other lines read
/// nothing.
#[test]
fn lines_read_their_request_alone(rt: HostRuntime) {
    remove(&rt, "read.db", "read.db-wal");
    make_files(&rt).expect(&rt, "files");
    same(&rt, is_made(&rt, "read.db", Unknown), true, "read.db");
    for (line, status, times) in READS {
        same(&rt, reads(&rt, line), Ok((status, times)), line);
    }
}

/// The exit status of a line, and how often it reads its input.
fn reads(rt: &HostRuntime, line: &str) -> Result<(u8, u32), AllocError> {
    let times = Cell::new(0);
    let input = Counted {
        times: &times,
        bytes: ROLL.as_bytes(),
    };
    let status = status_of(rt, line, &|| NEW_YEAR, input, io::sink(), io::sink())?;
    Ok((status, times.get()))
}

#[test]
fn what_cannot_be_read_or_written_is_lost(rt: HostRuntime) {
    remove(&rt, "lost.db", "lost.db-wal");
    make_files(&rt).expect(&rt, "files");
    for line in PRINTS {
        let lost = is_lost(&rt, line, ROLL.as_bytes(), Broken);
        same(&rt, lost, Ok(true), line);
    }
    let lost = is_lost(&rt, "once :memory:", Broken, io::sink());
    same(&rt, lost, Ok(true), "a broken input");
}

/// Whether a line over these streams ends as lost.
fn is_lost<R: Read + Drop, O: Write + Drop>(
    rt: &HostRuntime,
    line: &str,
    input: R,
    output: O,
) -> Result<bool, AllocError> {
    let mut errors = Vec::new(rt.alloc());
    let status = status_of(rt, line, &|| NEW_YEAR, input, output, &mut errors)?;
    Ok(status == 3 && errors.as_slice() == LOST.as_bytes())
}

/// A port is listened on, and none is accepted after a line that is lost.
#[test]
fn a_listening_that_is_not_told_is_lost(rt: HostRuntime) {
    let port = free_port(&rt).expect(&rt, "a port");
    let line = line_of(rt.alloc(), ":memory:", port).expect(&rt, "memory");
    let lost = is_lost(&rt, line.as_str(), io::empty(), Broken);
    same(&rt, lost, Ok(true), "a broken output");
}

/// A port that nobody listens on.
fn free_port(rt: &HostRuntime) -> io::Result<u16> {
    let listener = TcpListener::bind(rt, "127.0.0.1:0")?;
    Ok(listener.local_addr()?.port())
}

/// A `serve` asks the clock for each connection: the second act comes a second before the first.
#[test]
fn each_connection_has_its_own_moment(rt: HostRuntime) -> Result<(), Fail> {
    let port = free_port(&rt)?;
    remove(&rt, "moments.db", "moments.db-wal");
    let made = is_done(&rt, ("init moments.db", "", 0, "ok\n", ""));
    same(&rt, made, Ok(true), "moments.db");
    for file in [":memory:", "moments.db"] {
        let line = format!(in rt.alloc(); "serve {file} --port {port} --count 2")?;
        same(&rt, tells_two(&rt, line.as_str(), port)?, true, file);
    }
    Ok(())
}

/// Whether a line serves two clients on this port, and tells each the line that is wanted.
fn tells_two(rt: &HostRuntime, line: &str, port: u16) -> Result<bool, Fail> {
    let mut callers = Callers {
        rt,
        port,
        clients: Vec::new(rt.alloc()),
    };
    let status = serve_back(rt, line, &mut callers)?;
    Ok(status == 0 && are_told(rt, callers.clients)?)
}

/// The exit status of a line by a clock that goes back by a second each time that it is asked.
fn serve_back(rt: &HostRuntime, line: &str, callers: &mut Callers<'_>) -> Result<u8, AllocError> {
    let moment = Cell::new(NEW_YEAR.saturating_add(2));
    let now = || {
        moment.set(moment.get().saturating_sub(1));
        moment.get()
    };
    status_of(rt, line, &now, io::empty(), callers, io::sink())
}

/// Whether these are two clients, of which the second is refused for its moment.
fn are_told(rt: &HostRuntime, clients: Vec<TcpStream>) -> io::Result<bool> {
    let wanted = ["ok 1", "refused 2 ClockBack"];
    if clients.len() != wanted.len() {
        return Ok(false);
    }
    for (client, wanted) in clients.into_iter().zip(wanted) {
        if !is_told(rt, client, wanted)? {
            return Ok(false);
        }
    }
    Ok(true)
}

/// Bytes that can be read once the clock was asked.
#[derive(Drop)]
struct Behind<'a> {
    asked: &'a Cell<bool>,
    bytes: &'a [u8],
}

impl Read for Behind<'_> {
    fn read(&mut self, buffer: &mut [u8]) -> io::Result<usize> {
        if !self.asked.get() {
            return Err(io::Error::from(io::ErrorKind::Other));
        }
        self.bytes.read(buffer)
    }
}

/// Bytes that tell how often they are read.
#[derive(Drop)]
struct Counted<'a> {
    times: &'a Cell<u32>,
    bytes: &'a [u8],
}

impl Read for Counted<'_> {
    fn read(&mut self, buffer: &mut [u8]) -> io::Result<usize> {
        self.times.set(self.times.get().saturating_add(1));
        self.bytes.read(buffer)
    }
}

/// A stream that nothing comes from, or goes to.
#[derive(Drop)]
struct Broken;

impl Read for Broken {
    fn read(&mut self, _buffer: &mut [u8]) -> io::Result<usize> {
        Err(io::Error::from(io::ErrorKind::Other))
    }
}

impl Write for Broken {
    fn write(&mut self, _bytes: &[u8]) -> io::Result<usize> {
        Err(io::Error::from(io::ErrorKind::Other))
    }

    fn flush(&mut self) -> io::Result<()> {
        Ok(())
    }
}

/// A stream from which two clients learn that a port is listened on, and ask there.
#[derive(Drop)]
struct Callers<'a> {
    rt: &'a HostRuntime,
    port: u16,
    clients: Vec<TcpStream>,
}

impl Write for Callers<'_> {
    fn write(&mut self, bytes: &[u8]) -> io::Result<usize> {
        if bytes.ends_with(b"\n") {
            for _ in 0..2 {
                let mut client = TcpStream::connect(self.rt, (Ipv4Addr::LOCALHOST, self.port))?;
                client.write_all(ALICE.as_bytes())?;
                self.clients.push(client)?;
            }
        }
        Ok(bytes.len())
    }

    fn flush(&mut self) -> io::Result<()> {
        Ok(())
    }
}
