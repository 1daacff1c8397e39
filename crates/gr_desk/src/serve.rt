//! `serve`: connections of a port, one after the other.
ghost use Rattle.std.specs.Prelude.{◌≡◌, ◌↔◌, ◌⊎◌, ◌-◌, ◌^◌, ◌<◌, ⊤, ℕ, List, Option, None, Some, Err, string_bytes, IfOk, IfErr, IsTrue, MatchOption, MatchResult};
ghost use Rattle.std.specs.Io.KnownBytes.{Appends};
ghost use Rattle.gr_http.specs.Fates.{RequestMakes, delivered, undelivered};
ghost use Rattle.gr_http.specs.Response.{Response};
ghost use Rattle.gr_desk.specs.declared.failure.Failure.TheVariants as failures;
ghost use Rattle.gr_desk.specs.Connections.{Between, between, AreAll, AreConnections, ConnectionsAreCalls, DoorRefuses};
ghost use Rattle.gr_desk.specs.Host.{AsksBehind, LeavesFiles, LeavesOthers, ToListen};
ghost use Rattle.gr_desk.specs.Lines.{AsksForPortBehind, IsUnheard, ServeDoes, listening_line};
ghost use Rattle.gr_desk.specs.Spans.{ComesNext};
ghost use Rattle.gr_store.specs.declared.fault.Fault.TheVariants as faults;

use crate::any_store::connection_of;
use crate::ending::Ending;
use crate::failure::Failure;
use crate::host::Host;
use crate::once::moment_or_clock;
use crate::open::open;
use crate::steps::print;
use crate::timed::{TimedReader, TimedWriter};
use gr_http::answer::{Lost, Served};
use gr_http::door::{Door, NotAccepted};
use gr_http::input::FromRead;
use gr_http::output::{Output, ToWrite};
use gr_http::route::Routes;
use gr_http::serve::{NotServed, serve_next};
use gr_office::{Fault, Office};
use sqlite_trees::store::Alter;
use std::alloc::{AllocError, Global};
use std::io::{self, Read};
use std::net::{Shutdown, TcpListener, TcpStream};
use std::rt::Clock;

/// The listener of a port, lent or one's own.
#[derive(Drop)]
enum Listener<'a> {
    Lent(&'a TcpListener),
    Own(TcpListener),
}

impl Listener<'_> {
    /// The next connection.
    fn accept(&self) -> io::Result<TcpStream> {
        let (stream, _) = match self {
            Listener::Lent(listener) => listener.accept()?,
            Listener::Own(listener) => listener.accept()?,
        };
        Ok(stream)
    }
}

/// The door of a port: a listener, whose connections have their time by a clock.
///
/// A connection is lost whose request is not read whole within
/// [`REQUEST_SECONDS`](crate::limits::REQUEST_SECONDS) of its accept, or whose response is not
/// taken within [`RESPONSE_SECONDS`](crate::limits::RESPONSE_SECONDS) of its first write. After a
/// response to no request, the writing side is ended, and what the peer still sends is read and
/// dropped for at most [`DRAIN_SECONDS`](crate::limits::DRAIN_SECONDS).
#[derive(Drop)]
pub struct PortDoor<'a, C: Clock> {
    listener: Listener<'a>,
    clock: &'a C,
}

impl<'a, C: Clock> PortDoor<'a, C> {
    /// The door of this listener.
    pub fn new(listener: &'a TcpListener, clock: &'a C) -> Self {
        PortDoor {
            listener: Listener::Lent(listener),
            clock,
        }
    }

    /// The door of a listener that it owns.
    pub(crate) fn of(listener: TcpListener, clock: &'a C) -> Self {
        PortDoor {
            listener: Listener::Own(listener),
            clock,
        }
    }
}

/// What a connection of the system brings, and what it is told, the system does not say.
impl<'a, C: Clock> Door for PortDoor<'a, C> {
    type In = FromRead<TimedReader<TcpStream, &'a C>>;

    type Out = ToWrite<TimedWriter<TcpStream, &'a C>>;

    fn accept(&mut self) -> Result<(Self::In, Self::Out), NotAccepted> {
        let Ok(stream) = self.listener.accept() else {
            return Err(NotAccepted);
        };
        let Ok(writing) = stream.try_clone() else {
            return Err(NotAccepted);
        };
        let input = FromRead::new(TimedReader::of_request(stream, self.clock));
        let output = ToWrite::new(TimedWriter::of_response(writing, self.clock));
        Ok((input, output))
    }

    fn end(&mut self, input: Self::In, _output: Self::Out, may_have_rest: bool) {
        if may_have_rest {
            drain(input.into_inner().into_inner(), self.clock);
        }
    }
}

/// Accepts a connection of a port, and answers its request at the moment that `now` gives then, in
/// seconds since 1970-01-01T00:00:00Z: [`serve_next`] over its [`PortDoor`].
///
/// [`NotServed::Accept`]: none could be accepted, and nothing was done. [`NotServed::Lost`]: as
/// [`serve_next`] says it; or its time was over.
pub fn serve_one<S: Alter, C: Clock, N: Fn() -> u64>(
    alloc: Global,
    clock: &C,
    routes: &Routes,
    office: &mut Office<S>,
    now: &N,
    listener: &TcpListener,
) -> Result<Served, NotServed>
    requires { N.IsAlwaysCallable now.now }

    // The request, whatever it was, is a call of the crash prefix at a moment that `now` gave: one
    // command at most, which is acknowledged, or of which only the reply was lost. The response is
    // one that the desk gives to what was asked.
    ensures served { IfOk result (λ served. (bytes : Option (List ℕ)) × (at : ℕ)
        × N.post now.now at × (response : Response) × (served.status ≡ response.status)
        × RequestMakes S.Store office.old at bytes response delivered office.new) }
    ensures lost_write { result ≡ Err (NotServed.Lost Lost.Write) → (bytes : Option (List ℕ))
        × (at : ℕ) × N.post now.now at × (response : Response)
        × RequestMakes S.Store office.old at bytes response undelivered office.new }
    ensures lost_read { result ≡ Err (NotServed.Lost Lost.Read)
        → (office.new ≡ office.old) }
    ensures accept { result ≡ Err NotServed.Accept → office.new ≡ office.old }
{
    let mut door = PortDoor::new(listener, clock);
    serve_next(alloc, routes, office, now, &mut door)
}

/// `serve`: serves so many connections of a port from the desk that the file of a host holds, one
/// after the other, and ends it. The desk is opened before the port is listened on, and the line
/// that says so is written after that. The moment of each request is the one that is given, in
/// seconds since 1970-01-01T00:00:00Z, or else that of the clock, which is asked after its accept.
///
/// [`Failure::NoFile`], [`Failure::Fault`]: no desk was opened, as [`open`](crate::open) says it.
/// [`Failure::CannotListen`]: the port cannot be listened on. [`Failure::CannotAccept`]: a
/// connection could not be accepted. [`Failure::Lost`]: the line could not be written.
/// [`Failure::Fault`]: the memory for the routes or the line was refused, or a fault has closed the
/// office. The connections before that were served.
pub fn serve<H: Host, N: Fn() -> u64, O: Output>(
    alloc: Global,
    host: &mut H,
    file: &str,
    port: u16,
    count: u32,
    at: Option<u64>,
    now: &N,
    output: &mut O,
) -> (Result<(), Failure>, Ending<H::Store>)
    requires callable { N.IsAlwaysCallable now.now }
    requires writes { O.failed output.old < 2 ^ 64 - 1 }
    ensures does { ServeDoes H.Store.Store (H.known host.old) file.now
        (DoorRefuses H.Door.Door.refuses H.Door.Door.awaited H.Door.Door.ended)
        (λ t. MatchOption at (N.post now.now t) (λ given. t ≡ given))
        port count (O.written output.old) (O.written output.new) result.0 result.1 }
    ensures asked { AsksForPortBehind result.1 file.now port (H.asked host.old)
        (H.asked host.new) }
    ensures behind { AsksBehind (H.behind host.old) (H.behind host.new) (ToListen port) }
    ensures others { LeavesOthers file.now (H.known host.old) (H.known host.new) }
{
    let mut office = match open(alloc, host, file) {
        Ok(office) => office,
        Err(unopened) => return (Err(unopened.failure), unopened.ending),
    };
    let (routes, mut door) = match listen(alloc, host, port, output) {
        Ok(listening) => listening,
        Err(failure) => return (Err(failure), Ending::LetGo(connection_of(office))),
    };
    let moments = move ||
        requires { N.IsAlwaysCallable now.now }
        ensures { MatchOption at (N.post now.entry.now result) (λ given. result ≡ given) }
    { moment_or_clock(at, now) };
    match serve_all(alloc, &routes, &mut office, count, &moments, &mut door) {
        Ok(()) => (Ok(()), Ending::Close(connection_of(office))),
        Err(failure) => (Err(failure), Ending::LetGo(connection_of(office))),
    }
}

/// Listens on a port of a host, and says so. What is made of memory is made before, so that it is
/// refused while nothing is done.
fn listen<H: Host, O: Output>(
    alloc: Global,
    host: &mut H,
    port: u16,
    output: &mut O,
) -> Result<(Routes, H::Door), Failure>
    requires writes { O.failed output.old < 2 ^ 64 - 1 }
    ensures listens { IfOk result (λ it. Appends (O.written output.old) (O.written output.new)
        (listening_line port) × MatchOption ((H.known host.old).awaited port) ⊤
        (λ all. H.Door.Door.awaited it.1 ≡ Some all)) }
    ensures failed { IfErr result (IsUnheard ((H.known host.old).awaited port) port
        (O.written output.old) (O.written output.new)) }
    ensures asked { MatchResult result
        (λ _. ComesNext (H.asked host.old) (H.asked host.new) (ToListen port))
        (λ _. (H.asked host.new ≡ H.asked host.old)
        ⊎ ComesNext (H.asked host.old) (H.asked host.new) (ToListen port)) }
    ensures behind { AsksBehind (H.behind host.old) (H.behind host.new) (ToListen port) }
    ensures others { LeavesFiles (H.known host.old) (H.known host.new) }
{
    let Ok(routes) = Routes::new(alloc) else {
        return Err(Failure::Fault(Fault::Memory));
    };
    let Ok(line) = listening_line(alloc, port) else {
        return Err(Failure::Fault(Fault::Memory));
    };
    let door = match host.listen(port) {
        Ok(door) => door,
        Err(failure) => return Err(failure),
    };
    match print(output, line.as_str()) {
        Ok(()) => Ok((routes, door)),
        Err(failure) => Err(failure),
    }
}

/// The line that says that connections are accepted.
fn listening_line(alloc: Global, port: u16) -> Result<String, AllocError>
    ensures { IfOk result (λ line. string_bytes line ≡ listening_line port) }
{
    format!(in alloc; "listening 127.0.0.1:{port}\n")
}

/// Serves so many connections of a door, one after the other, each at the moment that `now` gives
/// after its accept, in seconds since 1970-01-01T00:00:00Z. One that is lost counts.
///
/// [`Failure::CannotAccept`]: one could not be accepted. [`Failure::Fault`]: the office is closed.
/// Those before it were served. Where all goes well, as many as that were accepted, and the office
/// is open after the last.
pub fn serve_all<S: Alter, D: Door, N: Fn() -> u64>(
    alloc: Global,
    routes: &Routes,
    office: &mut Office<S>,
    count: u32,
    now: &N,
    door: &mut D,
) -> Result<(), Failure>
    requires { N.IsAlwaysCallable now.now }

    // Each change of the office is that of a connection, which was answered for it.
    ensures served { (betweens : List (Between S)) × AreConnections S.Store (N.post now.now)
        (between office.old (D.awaited door.old) (D.ended door.old)) betweens
        (between office.new (D.awaited door.new) (D.ended door.new))
        × IfOk result (λ done. AreAll count betweens office.new) }
    ensures caused { IfErr result (λ failure. ((failure ≡ failures.CannotAccept)
        × (before : D) × D.refuses before door.new)
        ⊎ ((failure ≡ failures.Fault faults.Closed) × (office.new.desk ≡ None))) }
{
    for _done in 0..count {
        let served = serve_next(alloc, routes, office, now, door);
        if is_none_accepted(&served) {
            return Err(Failure::CannotAccept);
        }
        if office.is_closed() {
            return Err(Fault::Closed.into());
        }
    }
    Ok(())
}

/// Whether no connection could be accepted.
fn is_none_accepted(served: &Result<Served, NotServed>) -> bool
    ensures { IsTrue result ↔ (served.now ≡ Err NotServed.Accept) }
{
    matches!(served, Err(NotServed::Accept))
}

/// Connections, one after the other, are calls of the crash prefix.
pub fn connections_are_calls<S: Alter, N: Fn() -> u64>(_office: &Office<S>, now: &N)
    ensures { ConnectionsAreCalls S.Store (N.post now.now) }
{}

/// Ends the writing side, and reads and drops what the peer still sends, so that it gets the whole
/// response: a connection that is closed with bytes unread is reset (docs/formats.md,
/// "Connections").
fn drain<C: Clock>(stream: TcpStream, clock: &C) {
    if stream.shutdown(Shutdown::Write).is_err() {
        return;
    }
    let mut reader = TimedReader::of_rest(stream, clock);
    let mut buffer = [0; 4_096];
    for _ in 0..u64::MAX {
        match reader.read(&mut buffer) {
            Ok(0) | Err(_) => return,
            Ok(_) => {}
        }
    }
}
