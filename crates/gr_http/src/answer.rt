//! One request in, one response out.
ghost use Rattle.std.specs.Prelude.{◌≡◌, ℕ, ◌-◌, ◌+◌, ◌^◌, ◌<◌, ◌⊎◌, [], false, Some, IfOk, IfErr, IfSome, OnErr, Err};
ghost use Rattle.std.specs.Io.KnownBytes.{Appends};
ghost use Rattle.gr_core.specs.Machine.Act.{act_of};
ghost use Rattle.gr_store.specs.declared.fault.Fault.TheVariants as faults;
ghost use Rattle.gr_http.specs.Reads.{Reads, AreNeeded};
ghost use Rattle.gr_http.specs.Request.{HasRequest};
ghost use Rattle.gr_http.specs.Streams.{AppendsBeginning, CountsFailure};
ghost use Rattle.gr_http.specs.Demand.{Do, Show, demand_of};
ghost use Rattle.gr_http.specs.Response.{Response, response_bytes, fault_response};
ghost use Rattle.gr_http.specs.ReadyResponse.{Prepares, ready_bytes, ready_status};
ghost use Rattle.gr_http.specs.Answer.{Handles, KnowsReceived, Responds, BytesHaveOneReply, BytesHaveAReply, lost_reads, lost_writes, lost_text};
ghost use Rattle.gr_http.specs.Fates.{DemandMakes, RequestMakes, delivered, undelivered};
ghost use Rattle.gr_http.specs.Told.{ResponsesTellWhatWasDone};
ghost use Rattle.gr_http.specs.Exchange.{IsExchange};

use crate::demand::{Demand, understand};
use crate::input::Input;
use crate::output::{Output, write_all};
use crate::problem::{NoDemand, Problem};
use crate::request::{NotReceived, Request, read_request};
use crate::response::{self, ReadyResponse};
use crate::route::Routes;
use crate::streams::Failed;
use gr_core::{Command, Memory};
use gr_office::{ActFault, Fault, Kind, Office, SheetFault};
use http::StatusCode;
use sqlite_trees::store::Alter;
use std::alloc::Global;
use std::error::Error;
use std::fmt;

/// A request was answered, and its response written.
#[derive(Clone, Copy, Debug, PartialEq, Eq)]
pub struct Served {
    /// The status of the response.
    pub status: StatusCode,

    /// Whether a request was received. If none was, the peer may still be sending one.
    pub is_received: bool,
}

/// A response that is ready.
#[derive(Drop)]
struct Prepared {
    response: ReadyResponse,

    /// Whether a request was received.
    is_received: bool,
}

/// A request was not answered, or its response not written whole.
#[derive(Clone, Copy, Debug, PartialEq, Eq)]
pub enum Lost {
    /// A read failed. The office is as it was, and the output too.
    Read,

    /// A write failed. A beginning of the response was written, and what the request did stands.
    Write,
}

impl fmt::Display for Lost {
    ghost output = { λ lost. Some (lost_text lost) };

    fn fmt<W: fmt::Write>(&self, f: &mut fmt::Formatter<W>) -> fmt::Result {
        match self {
            Lost::Read => f.write_str("a read failed"),
            Lost::Write => f.write_str("a write failed"),
        }
    }
}

impl Error for Lost {}

/// Reads one request (RFC 9112), does what it asks at this moment, in seconds since
/// 1970-01-01T00:00:00Z, and writes its response.
///
/// Where nothing fails, the response and the office after it depend on the office, the moment and
/// the bytes that the input has up to its end, and not on how the reads cut them. A fault answers
/// its line, with status 503: running out of memory; a failure of the database, which meets only a
/// command that the desk accepts, and closes the office; and, where something is asked of an office
/// that is closed, that. The line of a fault that closed the office is that of the fault which
/// [`Office::act`] answered: the office remembers it. The response to a command takes no memory, so
/// a command that was done is always answered by its reply.
///
/// A request is a call of the crash prefix of [`gr_office`], whatever the streams know of their
/// bytes. One that asks for a command has that command as its one attempt: it is acknowledged where
/// the whole response to its reply was written, and where a write failed only its reply was lost.
/// Any other request has no attempt, and leaves the office as it was.
///
/// What is written reveals nothing of a vote before it is closed (Constitution, 4.2.3): an office
/// whose desk differs in ballots of such votes alone may respond the same to these bytes.
///
/// No read is made once a head and the body that it announces are there. No contract says, and no
/// test shows, that nothing is allocated once the office has acted: what runs then is given no
/// allocator, and what it writes is proved to fit into texts of fixed size.
///
/// [`Lost::Read`]: a read failed, and nothing was done or written. [`Lost::Write`]: a write failed;
/// a beginning of the response was written, and what the request did stands. Both streams have
/// counted fewer failures before the call than the greatest `u64`.
pub fn answer<S: Alter, I: Input, O: Output>(
    alloc: Global,
    routes: &Routes,
    office: &mut Office<S>,
    at: u64,
    input: &mut I,
    output: &mut O,
) -> Result<Served, Lost>
    requires reads { I.failed input.old < 2 ^ 64 - 1 }
    requires writes { O.failed output.old < 2 ^ 64 - 1 }

    // The whole response to the bytes was written, and what it tells of became of the command. It
    // reveals nothing of votes that are not closed.
    ensures served { IfOk result (λ served. (response : Response)
        × (served.status ≡ response.status)
        × Appends (O.written output.old) (O.written output.new) (response_bytes response)
        × IsExchange S.Store office.old at (I.coming input.old) response delivered office.new) }

    // Nothing was done and nothing written.
    ensures lost_read { result ≡ Err Lost.Read → (office.new ≡ office.old)
        × (O.written output.new ≡ O.written output.old) }

    // A beginning of the response to the bytes was written, which reveals as little, and what the
    // request did stands: a reply was lost on its way.
    ensures lost_write { result ≡ Err Lost.Write → (response : Response)
        × AppendsBeginning (O.written output.old) (O.written output.new) (response_bytes response)
        × IsExchange S.Store office.old at (I.coming input.old) response undelivered office.new }

    // No read is made once a head and the body that it announces are there.
    ensures needed { Reads (I.taken input.old) (I.taken input.new) (AreNeeded HasRequest []) }

    // It is known whether a request was received. If none was, nothing was done.
    ensures received { IfOk result (λ served. IfSome (I.coming input.old) (λ bytes.
        KnowsReceived bytes served.is_received served.status)) }
    ensures unreceived { IfOk result (λ served. served.is_received ≡ false
        → office.new ≡ office.old) }

    // Each comes just where a read or a write failed.
    ensures reads_failed { I.failed input.new ≡ I.failed input.old + lost_reads result }
    ensures writes_failed { O.failed output.new ≡ O.failed output.old + lost_writes result }
{
    // Does nothing: its clause says that what an office responds reveals nothing.
    crate::secrecy::responses_reveal_nothing();
    let Ok(prepared) = respond(alloc, routes, office, at, input) else {
        return Err(Lost::Read);
    };
    write_response(output, &prepared.response, prepared.is_received)
}

/// Writes a response that is ready, where a request was received, or none was. [`Lost::Write`]: a
/// write failed, and a beginning of it was written.
pub fn write_response<O: Output>(
    output: &mut O,
    ready: &ReadyResponse,
    is_received: bool,
) -> Result<Served, Lost>
    requires { O.failed output.old < 2 ^ 64 - 1 }
    ensures served { IfOk result (λ served. (served.status ≡ ready_status ready.now)
        × Appends (O.written output.old) (O.written output.new) (ready_bytes ready.now)) }
    ensures received { IfOk result (λ served. served.is_received ≡ is_received) }
    ensures lost { IfErr result (λ lost. (lost ≡ Lost.Write)
        × AppendsBeginning (O.written output.old) (O.written output.new) (ready_bytes ready.now)) }
    ensures failures { O.failed output.new ≡ O.failed output.old + lost_writes result }
{
    let status = ready.status();
    let Ok(()) = write_all(output, ready.text().as_bytes()) else {
        return Err(Lost::Write);
    };
    Ok(Served {
        status,
        is_received,
    })
}

/// Reads one request and prepares the response to it. `Failed`: a read failed, and nothing was
/// done.
fn respond<S: Alter, I: Input>(
    alloc: Global,
    routes: &Routes,
    office: &mut Office<S>,
    at: u64,
    input: &mut I,
) -> Result<Prepared, Failed>
    requires { I.failed input.old < 2 ^ 64 - 1 }
    ensures ready { IfOk result (λ prepared. Prepares prepared.response (λ response.
        IfSome (I.coming input.old) (λ bytes.
        Responds office.old.desk at bytes response office.new.desk)
        × RequestMakes S.Store office.old at (I.coming input.old) response delivered office.new)) }
    ensures received { IfOk result (λ prepared. IfSome (I.coming input.old) (λ bytes.
        KnowsReceived bytes prepared.is_received (ready_status prepared.response))) }
    ensures unreceived { IfOk result (λ prepared. prepared.is_received ≡ false
        → office.new ≡ office.old) }
    ensures lost { OnErr result (office.new ≡ office.old) }
    ensures needed { Reads (I.taken input.old) (I.taken input.new) (AreNeeded HasRequest []) }
    ensures failures { CountsFailure (I.failed input.old) (I.failed input.new) result }
{
    match read_request(alloc, input) {
        Ok(request) => Ok(Prepared {
            response: respond_to(alloc, routes, office, at, &request),
            is_received: true,
        }),
        Err(NotReceived::Problem(problem)) => Ok(Prepared {
            response: response::of_problem(problem),
            is_received: false,
        }),
        Err(NotReceived::Memory) => Ok(Prepared {
            response: response::of_fault(Fault::Memory),
            is_received: false,
        }),
        Err(NotReceived::Failed(failed)) => Err(failed),
    }
}

/// Does what a whole request asks, and prepares the response to it. Running out of memory may come
/// before it is known what that is.
fn respond_to<S: Alter>(
    alloc: Global,
    routes: &Routes,
    office: &mut Office<S>,
    at: u64,
    request: &Request,
) -> ReadyResponse
    ensures { Prepares result (λ response.
        (Handles office.old.desk at (demand_of (Ok request.now)) response office.new.desk
        × DemandMakes S.Store office.old at (demand_of (Ok request.now)) response delivered
        office.new)
        ⊎ ((response ≡ fault_response faults.Memory) × (office.new ≡ office.old))) }
{
    match understand(alloc, routes, request) {
        Ok(Demand::Do(command)) => carry_out(alloc, office, at, &command),
        Ok(Demand::Show(kind, number)) => show(alloc, office, kind, number),
        Err(NoDemand::Problem(problem)) => response::of_problem(problem),
        Err(NoDemand::Memory) => response::of_fault(Fault::Memory),
    }
}

/// Carries out a command. An office that is closed says so, and takes no memory.
fn carry_out<S: Alter>(
    alloc: Global,
    office: &mut Office<S>,
    at: u64,
    command: &Command,
) -> ReadyResponse
    ensures { Prepares result (λ response.
        Handles office.old.desk at (Ok (Do (act_of command.now))) response office.new.desk
        × DemandMakes S.Store office.old at (Ok (Do (act_of command.now))) response delivered
        office.new) }
{
    match office.act(alloc, at, command) {
        Ok(reply) => response::of_reply(reply),
        Err(ActFault::Refused(refusal)) => response::of_refusal(refusal),
        Err(ActFault::Fault(fault)) => response::of_fault(fault),
    }
}

/// Shows a sheet, or tells why the desk does not show it.
fn show<S: Alter>(alloc: Global, office: &Office<S>, kind: Kind, number: u32) -> ReadyResponse
    ensures { (at : ℕ) → Prepares result (λ response.
        Handles office.now.desk at (Ok (Show kind number)) response office.now.desk) }
{
    match office.sheet(alloc, kind, number) {
        Ok(text) => match response::of_sheet(alloc, text.as_str()) {
            Ok(ready) => ready,
            Err(Memory) => response::of_fault(Fault::Memory),
        },
        Err(SheetFault::Refused(refusal)) => response::of_refusal(refusal),
        Err(SheetFault::Fault(fault)) => response::of_fault(fault),
    }
}

/// The reply to bytes is one at most: one response, and one state after it.
pub fn bytes_have_one_reply()
    ensures { BytesHaveOneReply }
{
    crate::request::received_is_determined();
    gr_sheet::laws::sheets_are_determined();
    gr_core::laws::each_list_has_one_outcome();
}

/// Bytes have a reply, whatever they are. That is stated as a double negation: not every one can be
/// wrong. Whether bytes begin with a head is a question about all heads, and the definitions have
/// no procedure that decides it.
pub fn bytes_have_a_reply()
    ensures { BytesHaveAReply }
{
    gr_sheet::laws::sheets_are_shown_or_refused();
    gr_core::laws::each_list_has_an_outcome();
}

/// A response tells what was done, whatever was asked, and whether its bytes are known or not. One
/// that says `ok` is the response to one act that was done on this desk: the desk made its step, it
/// is kept, and it is acknowledged, or only its reply was lost. With any other response nothing was
/// done; or it is the line of the fault that closed the office, and of no other.
pub fn responses_tell_what_was_done<S: Alter>(_office: &Office<S>)
    ensures { ResponsesTellWhatWasDone S.Store }
{}
