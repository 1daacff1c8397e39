//! Connections over loopback, and the time that they have.
use super::clock::{FAILS, InHand, Listed};
use super::{ALICE, ALICE_IS_IN, NEW_YEAR, same};
use gr_desk::failure::Failure;
use gr_desk::file::new_in_memory;
use gr_desk::serve::{PortDoor, serve_all, serve_one};
use gr_http::answer::Lost;
use gr_http::memory_door::MemoryDoor;
use gr_http::route::Routes;
use gr_http::serve::{NotServed, serve_next};
use gr_office::{Fault, Office};
use sqlite_trees::store::Alter;
use std::alloc::Global;
use std::cell::Cell;
use std::io::{self, Write};
use std::net::{TcpListener, TcpStream};
use std::rt::Clock;
use std::test::Fail;
use std::time::Duration;

/// A request that announces more than a body may have.
const TOO_LARGE: &str = "POST /import HTTP/1.1\r\nContent-Length: 1048577\r\n\r\n";

/// What the clock tells to a connection, to the one read of its request and to the one write of its
/// response, and what comes of it. Nothing is read after these, so it is not asked again.
const TIMES: [(&[u64], Result<u16, NotServed>); 8] = [
    (&[0, 0, 0], Ok(200)),
    (&[0, 4, 4], Ok(200)),
    (&[100, 104, 1_000], Ok(200)),
    (&[0, 5], Err(NotServed::Lost(Lost::Read))),
    (&[100, 106], Err(NotServed::Lost(Lost::Read))),
    (&[FAILS, 0], Err(NotServed::Lost(Lost::Read))),
    (&[0, FAILS], Err(NotServed::Lost(Lost::Read))),
    (&[0, 0, FAILS], Err(NotServed::Lost(Lost::Write))),
];

/// What the clock tells to a connection, to two reads of its request and to the write of its
/// response, and what comes of it.
const TWO_READS: [(&[u64], Result<u16, NotServed>); 4] = [
    (&[0, 0, 0, 0], Ok(200)),
    (&[100, 102, 104, 104], Ok(200)),
    (&[100, 104, 105], Err(NotServed::Lost(Lost::Read))),
    (&[100, 104, FAILS], Err(NotServed::Lost(Lost::Read))),
];

/// The beginnings of requests, what the clock tells to the read of each, to the write of its
/// response, and to the reads after that, of which the last makes none, and the status of the
/// response. A request that was received has no such reads.
const RESTS: [(&str, &[u64], u16); 6] = [
    (
        "POST /developers HTTP/1.1\r\nContent-Length: 3\r\n\r\nabc",
        &[0, 0, 0],
        400,
    ),
    ("GET /rolls HTTP/1.1\r\n\r\n", &[0, 0, 0], 404),
    ("x\r\n\r\n", &[0, 0, 0, 50, 50, 51], 400),
    ("x\r\n\r\n", &[0, 0, 0, 50, 51], 400),
    (TOO_LARGE, &[0, 0, 0, 50, 50, 51], 413),
    (TOO_LARGE, &[0, 0, 0, 50, 51], 413),
];

/// What is asked of one desk, over a connection each, at which moment, and the last line that
/// answers it. Between the call and the close a request for the roll comes at a moment when the
/// vote may be closed, and closes nothing.
const COURSE: [(u64, &str, &str); 7] = [
    (NEW_YEAR, ALICE, "ok 1"),
    (NEW_YEAR, BOB, "ok 2"),
    (NEW_YEAR, "GET /roll HTTP/1.1\r\n\r\n", "D: bob current Bob"),
    (NEW_YEAR, PROPOSE, "ok 3 resolution 1"),
    (CALLED, CALL, "ok 4 places 2 until 1769040000"),
    (ENDED, "GET /roll HTTP/1.1\r\n\r\n", "D: bob current Bob"),
    (ENDED, "POST /resolutions/1/close HTTP/1.1\r\n\r\n", "ok 5"),
];

const BOB: &str = "POST /developers HTTP/1.1\r\nContent-Length: 33\r\n\r\n\
    login=bob&name=Bob&status=current";

const PROPOSE: &str = "POST /resolutions HTTP/1.1\r\nContent-Length: 43\r\n\r\n\
    author=@leader&summary=Red&text=red&ratio=1";

const CALL: &str = "POST /resolutions/1/call HTTP/1.1\r\nContent-Length: 6\r\n\r\ndays=7";

/// Two weeks after the new year, when the discussion ends.
const CALLED: u64 = 1_768_435_200;

/// A week after the call, when the vote ends.
const ENDED: u64 = 1_769_040_000;

/// A client that keeps its writing side open gets its whole response, and the end after it.
#[test]
fn a_connection_is_served(rt: HostRuntime) {
    let (listener, client) = client_with(&rt, ALICE.as_bytes()).expect(&rt, "a connection");
    let served = serve_new(rt.alloc(), &rt, &|| NEW_YEAR, &listener);
    same(&rt, served, Ok(Ok(200)), "a connection");
    let response = io::read_to_string(rt.alloc(), client).expect(&rt, "a text");
    same(&rt, response.as_str(), ALICE_IS_IN, "a connection");
}

/// One desk answers each connection, and does what that one asks and nothing else.
#[test]
fn one_desk_answers_each_connection(rt: HostRuntime) -> Result<(), Fail> {
    let not_answered = first_not_answered(&rt, new_in_memory(rt.alloc())?)?;
    same(&rt, not_answered, None, "the course");
    Ok(())
}

/// The first request of the course that this desk does not answer with the line beside it.
fn first_not_answered<S: Alter + Drop>(
    rt: &HostRuntime,
    office: Office<S>,
) -> Result<Option<&'static str>, Fail> {
    let mut office = office;
    take_course(rt, &mut office)
}

fn take_course<S: Alter>(
    rt: &HostRuntime,
    office: &mut Office<S>,
) -> Result<Option<&'static str>, Fail> {
    for (moment, request, wanted) in COURSE {
        if !is_answered(rt, office, moment, request, wanted)? {
            return Ok(Some(request));
        }
    }
    Ok(None)
}

/// Whether a connection with this request is answered, and this is the last line of that.
fn is_answered<S: Alter>(
    rt: &HostRuntime,
    office: &mut Office<S>,
    moment: u64,
    request: &str,
    wanted: &str,
) -> Result<bool, Fail> {
    let (listener, client) = client_with(rt, request.as_bytes())?;
    let served = serve_over(rt.alloc(), rt, office, &|| moment, &listener)?;
    Ok(served == Ok(200) && is_told(rt, client, wanted)?)
}

/// Whether this is the last line that a client is told.
pub(super) fn is_told(rt: &HostRuntime, client: TcpStream, wanted: &str) -> io::Result<bool> {
    let response = io::read_to_string(rt.alloc(), client)?;
    Ok(response.as_str().lines().next_back() == Some(wanted))
}

/// So many connections are served as are asked for. Where one cannot be accepted, that is reported.
#[test]
fn so_many_connections_are_served(rt: HostRuntime) -> Result<(), Fail> {
    for (count, wanted, served) in [
        (1, Ok(()), 1),
        (2, Ok(()), 2),
        (3, Err(Failure::CannotAccept), 2),
    ] {
        let found = serve_of_two(rt.alloc(), count)?;
        same(&rt, found, (wanted, served), count);
    }
    Ok(())
}

/// What comes of serving so many connections of a door that has two, and how many were served.
fn serve_of_two(alloc: Global, count: u32) -> Result<(Result<(), Failure>, usize), Fault> {
    let office = new_in_memory(alloc)?;
    let requests = [ALICE.as_bytes(), b"".as_slice()];
    let mut door = MemoryDoor::new(alloc, &requests, 1);
    let done = serve_behind(alloc, office, count, &mut door)?;
    Ok((done, door.into_ended().len()))
}

/// What comes of serving so many connections of a door.
fn serve_behind<S: Alter + Drop>(
    alloc: Global,
    office: Office<S>,
    count: u32,
    door: &mut MemoryDoor<'_>,
) -> Result<Result<(), Failure>, Fault> {
    let mut office = office;
    let Ok(routes) = Routes::new(alloc) else {
        return Err(Fault::Memory);
    };
    Ok(serve_all(alloc, &routes, &mut office, count, &|| NEW_YEAR, door))
}

/// A request has five seconds, and what is done after it takes nothing of the response's.
#[test]
fn time_runs_out(rt: HostRuntime) {
    for (moments, wanted) in TIMES {
        let (listener, _client) = client_with(&rt, ALICE.as_bytes()).expect(&rt, "a connection");
        let served = serve_by(rt.alloc(), moments, &listener);
        same(&rt, served, Ok((wanted, moments.len() as u64)), moments);
    }
}

/// The status of the response of a new desk by a clock that tells these moments, and how often that
/// was asked.
fn serve_by(
    alloc: Global,
    moments: &[u64],
    listener: &TcpListener,
) -> Result<(Result<u16, NotServed>, u64), Fault> {
    let clock = Listed::new(moments);
    let served = serve_new(alloc, &clock, &|| NEW_YEAR, listener)?;
    Ok((served, clock.asked()))
}

/// The moment of a request is asked for once, when its connection is there, whose time has begun.
#[test]
fn the_moment_is_behind_the_accept(rt: HostRuntime) {
    let (listener, _client) = client_with(&rt, ALICE.as_bytes()).expect(&rt, "a connection");
    let clock = Listed::new(&[0]);
    let asked = Cell::new(0_u32);
    let now = || {
        asked.set(asked.get().saturating_add(1));
        if clock.asked() == 1 { NEW_YEAR } else { 0 }
    };
    let served = serve_new(rt.alloc(), &clock, &now, &listener);
    same(&rt, served, Ok(Ok(200)), "the connection");
    same(&rt, asked.get(), 1, "how often the moment is asked for");
}

/// Where no request was received, the peer is read on for a second after the response.
#[test]
fn the_rest_of_a_request_has_a_second(rt: HostRuntime) {
    for (head, moments, wanted) in RESTS {
        let (listener, mut client) = client_with(&rt, head.as_bytes()).expect(&rt, "a connection");
        client.write_all(&[b'x'; 32_768]).expect(&rt, "a write");
        let served = serve_by(rt.alloc(), moments, &listener);
        let wanted = Ok((Ok(wanted), moments.len() as u64));
        same(&rt, served, wanted, (head, moments));
        drop(client);
    }
}

/// A connection has its span from its accept on: not from when its door was made, and not from the
/// accept of another one.
#[test]
fn a_span_begins_at_the_accept(rt: HostRuntime) -> Result<(), Fail> {
    let (listener, _first) = client_with(&rt, ALICE.as_bytes())?;
    let mut second = TcpStream::connect(&rt, listener.local_addr()?)?;
    second.write_all(ALICE.as_bytes())?;
    let served = serve_late(rt.alloc(), new_in_memory(rt.alloc())?, &listener)?;
    same(&rt, served, [Some(200); 2], "two connections");
    Ok(())
}

/// The statuses of two connections, before each of which the clock goes on by six seconds.
fn serve_late<S: Alter + Drop>(
    alloc: Global,
    office: Office<S>,
    listener: &TcpListener,
) -> Result<[Option<u16>; 2], Fault> {
    let mut office = office;
    let Ok(routes) = Routes::new(alloc) else {
        return Err(Fault::Memory);
    };
    let clock = InHand::new();
    let mut door = PortDoor::new(listener, &clock);
    let mut statuses = [None; 2];
    for status in &mut statuses {
        clock.go_on(6);
        let served = serve_next(alloc, &routes, &mut office, &|| NEW_YEAR, &mut door);
        *status = served.ok().map(|served| served.status.as_u16());
    }
    Ok(statuses)
}

/// A request that comes in two reads has one span for both.
#[test]
fn two_reads_share_a_span(rt: HostRuntime) -> Result<(), Fail> {
    for (moments, wanted) in TWO_READS {
        let served = serve_in_parts(&rt, moments)?;
        same(&rt, served, (wanted, moments.len() as u64), moments);
    }
    Ok(())
}

/// What comes of a request in two parts, and how often the clock was asked.
fn serve_in_parts(
    rt: &HostRuntime,
    moments: &[u64],
) -> Result<(Result<u16, NotServed>, u64), Fail> {
    let (head, rest) = ALICE.as_bytes().split_at(60);
    let (listener, client) = client_with(rt, head)?;
    Ok(serve_sender(rt.alloc(), moments, &listener, &client, rest)?)
}

/// The same over a listener, whose client has the rest of the request to send.
fn serve_sender(
    alloc: Global,
    moments: &[u64],
    listener: &TcpListener,
    client: &TcpStream,
    rest: &[u8],
) -> Result<(Result<u16, NotServed>, u64), Fault> {
    let clock = Sender {
        listed: Listed::new(moments),
        client,
        rest,
    };
    let served = serve_new(alloc, &clock, &|| NEW_YEAR, listener)?;
    Ok((served, clock.listed.asked()))
}

/// A clock that gives what is listed. When it is asked for the third time, the client sends the
/// rest of its request.
#[derive(Drop)]
struct Sender<'a> {
    listed: Listed<'a>,
    client: &'a TcpStream,
    rest: &'a [u8],
}

impl Clock for Sender<'_> {
    fn monotonic(&self) -> io::Result<Duration> {
        if self.listed.asked() == 2 {
            let mut client = self.client;
            client.write_all(self.rest)?;
        }
        self.listed.monotonic()
    }

    fn since_1970(&self) -> io::Result<Duration> {
        self.listed.since_1970()
    }
}

/// A listener, and a client that has sent these bytes.
fn client_with(rt: &HostRuntime, bytes: &[u8]) -> io::Result<(TcpListener, TcpStream)> {
    let listener = TcpListener::bind(rt, "127.0.0.1:0")?;
    let mut client = TcpStream::connect(rt, listener.local_addr()?)?;
    client.write_all(bytes)?;
    Ok((listener, client))
}

/// The status of the response of a new desk.
fn serve_new<C: Clock, N: Fn() -> u64>(
    alloc: Global,
    clock: &C,
    now: &N,
    listener: &TcpListener,
) -> Result<Result<u16, NotServed>, Fault>
    requires { N.IsAlwaysCallable now.now }
{
    serve_with(alloc, clock, new_in_memory(alloc)?, now, listener)
}

/// The status of the response of a desk that ends after it.
fn serve_with<S: Alter + Drop, C: Clock, N: Fn() -> u64>(
    alloc: Global,
    clock: &C,
    office: Office<S>,
    now: &N,
    listener: &TcpListener,
) -> Result<Result<u16, NotServed>, Fault>
    requires { N.IsAlwaysCallable now.now }
{
    let mut office = office;
    serve_over(alloc, clock, &mut office, now, listener)
}

/// The status of the response of a desk.
fn serve_over<S: Alter, C: Clock, N: Fn() -> u64>(
    alloc: Global,
    clock: &C,
    office: &mut Office<S>,
    now: &N,
    listener: &TcpListener,
) -> Result<Result<u16, NotServed>, Fault>
    requires { N.IsAlwaysCallable now.now }
{
    let Ok(routes) = Routes::new(alloc) else {
        return Err(Fault::Memory);
    };
    match serve_one(alloc, clock, &routes, office, now, listener) {
        Ok(served) => Ok(Ok(served.status.as_u16())),
        Err(not_served) => Ok(Err(not_served)),
    }
}
