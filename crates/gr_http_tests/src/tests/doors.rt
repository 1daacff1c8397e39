//! Connections, one after the other, over one office.
use super::step::response;
use super::{prints, same};
use gr_http::answer::{Lost, answer};
use gr_http::door::{Door, NotAccepted};
use gr_http::input::FromRead;
use gr_http::memory_door::{EndedConnection, MemoryDoor};
use gr_http::output::ToWrite;
use gr_http::route::Routes;
use gr_http::serve::{NotServed, serve_next};
use gr_office::Office;
use gr_office::laws::new_office_in_memory;
use sqlite::Alter;
use std::alloc::{AllocError, Global};
use std::cell::Cell;
use std::process::Abort;
use std::test::Fail;

/// 2026-01-01T00:00:00Z
const NEW_YEAR: u64 = 1_767_225_600;

const ALICE: &str = "POST /developers HTTP/1.1\r\nContent-Length: 37\r\n\r\n\
    login=alice&name=Alice&status=current";

const BOB: &str = "POST /developers HTTP/1.1\r\nContent-Length: 33\r\n\r\n\
    login=bob&name=Bob&status=current";

const ROLL: &str = "GET /roll HTTP/1.1\r\n\r\n";

const TWO: &str = "Developers: 2\nCurrent: 2\nD: alice current Alice\nD: bob current Bob\n";

/// Two commands and a look at the roll are told what became of them, each after one read. Then
/// nobody comes.
#[test]
fn connections_in_memory_are_served(rt: HostRuntime) -> Result<(), Fail> {
    let office = new_office_in_memory(rt.alloc())?;
    let requests = [ALICE.as_bytes(), BOB.as_bytes(), ROLL.as_bytes()];
    let mut door = MemoryDoor::new(rt.alloc(), &requests, 1);
    serve_three(&rt, rt.alloc(), office, &mut door);
    compare_told(&rt, rt.alloc(), door.into_ended().as_slice())
}

/// Wants three connections to be served, and no other to be accepted.
fn serve_three<S: Alter + Drop>(
    rt: &impl Abort,
    alloc: Global,
    office: Office<S>,
    door: &mut MemoryDoor<'_>,
) {
    let mut office = office;
    let now = || NEW_YEAR;
    for _ in 0..3 {
        let status = status_of_next(rt, alloc, &mut office, &now, door);
        same(rt, status, Ok(200), "a connection");
    }
    let status = status_of_next(rt, alloc, &mut office, &now, door);
    same(rt, status, Err(NotServed::Accept), "one more");
}

/// The status that answers the next connection.
fn status_of_next<S: Alter, D: Door, N: Fn() -> u64>(
    rt: &impl Abort,
    alloc: Global,
    office: &mut Office<S>,
    now: &N,
    door: &mut D,
) -> Result<u16, NotServed>
    requires { N.IsAlwaysCallable now.now }
{
    let routes = Routes::new(alloc).expect(rt, "memory");
    match serve_next(alloc, &routes, office, now, door) {
        Ok(served) => Ok(served.status.as_u16()),
        Err(not_served) => Err(not_served),
    }
}

/// Wants the connections to have been told this, and none to have failed.
fn compare_told(rt: &impl Abort, alloc: Global, ended: &[EndedConnection<'_>]) -> Result<(), Fail> {
    let bodies = ["ok 1\n", "ok 2\n", TWO];
    same(rt, ended.len(), bodies.len(), "the connections");
    for (connection, body) in ended.iter().zip(bodies.iter()) {
        let wanted = response(alloc, "200 OK", *body)?;
        same(rt, connection.told.as_slice(), wanted.as_bytes(), *body);
        compare_calls(rt, connection, *body);
    }
    Ok(())
}

/// Wants the connection to have had one read, and none to have failed.
fn compare_calls(rt: &impl Abort, connection: &EndedConnection<'_>, body: &str) {
    same(rt, connection.brought.len(), 1, body);
    same(rt, connection.failed_reads, 0, body);
    same(rt, connection.failed_writes, 0, body);
}

/// Bytes, and whether a request is received of them.
const RECEIVED_OR_NOT: [(&str, bool); 9] = [
    (ALICE, true),
    (ROLL, true),
    ("GET /rolls HTTP/1.1\r\n\r\n", true),
    ("DELETE /roll HTTP/1.1\r\n\r\n", true),
    (
        "POST /developers HTTP/1.1\r\nContent-Length: 3\r\n\r\nabc",
        true,
    ),
    (
        "POST /developers HTTP/1.1\r\nContent-Length: 4\r\n\r\nabc",
        false,
    ),
    (
        "POST /developers HTTP/1.1\r\nContent-Length: x\r\n\r\nabc",
        false,
    ),
    (
        "POST /developers HTTP/1.1\r\nContent-Length: 1048577\r\n\r\nabc",
        false,
    ),
    ("POST /developers", false),
];

/// A bad field is found in a request that was received, and a bad length where none is, by the same
/// status.
#[test]
fn tells_whether_a_request_was_received(rt: HostRuntime) -> Result<(), Fail> {
    let office = new_office_in_memory(rt.alloc())?;
    compare_received(&rt, rt.alloc(), office)
}

fn compare_received<S: Alter + Drop>(
    rt: &impl Abort,
    alloc: Global,
    office: Office<S>,
) -> Result<(), Fail> {
    let mut office = office;
    let routes = Routes::new(alloc)?;
    for (request, is_received) in RECEIVED_OR_NOT {
        let mut input = FromRead::new(request.as_bytes());
        let mut output = ToWrite::new(Vec::new(alloc));
        let served = answer(
            alloc,
            &routes,
            &mut office,
            NEW_YEAR,
            &mut input,
            &mut output,
        )?;
        same(rt, served.is_received, is_received, request);
    }
    Ok(())
}

/// The moment of a request is asked for once, when its connection is there.
#[test]
fn the_moment_is_behind_the_accept(rt: HostRuntime) -> Result<(), Fail> {
    let office = new_office_in_memory(rt.alloc())?;
    asks_once_behind_the_accept(&rt, rt.alloc(), office);
    Ok(())
}

fn asks_once_behind_the_accept<S: Alter + Drop>(rt: &impl Abort, alloc: Global, office: Office<S>) {
    let mut office = office;
    let accepted = Cell::new(false);
    let asked = Cell::new(0_u32);
    let now = || {
        asked.set(asked.get().saturating_add(1));
        if accepted.get() { NEW_YEAR } else { 0 }
    };
    let mut door = Knocks {
        alloc,
        accepted: &accepted,
    };
    let status = status_of_next(rt, alloc, &mut office, &now, &mut door);
    same(rt, status, Ok(200), "the connection");
    same(rt, asked.get(), 1, "how often the moment is asked for");
}

/// A door that tells when it was asked for a connection.
#[derive(Drop)]
struct Knocks<'a> {
    alloc: Global,
    accepted: &'a Cell<bool>,
}

impl<'a> Door for Knocks<'a> {
    type In = FromRead<&'static [u8]>;

    type Out = ToWrite<Vec<u8>>;

    fn accept(&mut self) -> Result<(Self::In, Self::Out), NotAccepted> {
        self.accepted.set(true);
        let input = FromRead::new(ALICE.as_bytes());
        Ok((input, ToWrite::new(Vec::new(self.alloc))))
    }

    fn end(&mut self, _input: Self::In, _output: Self::Out, _may_have_rest: bool) {}
}

#[test]
fn what_is_not_served_says_why(rt: HostRuntime) -> Result<(), AllocError> {
    for (not_served, wanted) in [
        (NotServed::Accept, "no connection could be accepted"),
        (NotServed::Lost(Lost::Read), "a read failed"),
        (NotServed::Lost(Lost::Write), "a write failed"),
    ] {
        prints(&rt, rt.alloc(), &not_served, wanted)?;
    }
    Ok(())
}
