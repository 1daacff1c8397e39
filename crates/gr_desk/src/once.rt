//! `once`: one request, with the routes made for it.
ghost use Rattle.std.specs.Prelude.{◌≡◌, ◌⊎◌, ◌-◌, ◌+◌, ◌^◌, ◌<◌, [], Err, IfOk, IfSome, MatchOption};
ghost use Rattle.std.specs.Io.KnownBytes.{Appends};
ghost use Rattle.gr_http.specs.Reads.{Reads, AreNeeded};
ghost use Rattle.gr_http.specs.Request.{HasRequest};
ghost use Rattle.gr_http.specs.Streams.{AppendsBeginning};
ghost use Rattle.gr_http.specs.Response.{Response, response_bytes};
ghost use Rattle.gr_http.specs.Answer.{KnowsReceived, lost_reads, lost_writes};
ghost use Rattle.gr_http.specs.Fates.{delivered, undelivered};
ghost use Rattle.gr_http.specs.Exchange.{IsExchange};
ghost use Rattle.gr_desk.specs.Host.{AsksFor, LeavesOthers, ToOpen};
ghost use Rattle.gr_desk.specs.Lines.{OnceDoes, ReadsRequest, outcome_of};

use crate::any_store::connection_of;
use crate::ending::Ending;
use crate::failure::Failure;
use crate::host::Host;
use crate::open::open;
use gr_http::answer::{Lost, Served, answer, write_response};
use gr_http::input::Input;
use gr_http::output::Output;
use gr_http::response;
use gr_http::route::Routes;
use gr_office::{Fault, Office};
use sqlite_trees::store::Alter;
use std::alloc::Global;

/// Answers one request at this moment, in seconds since 1970-01-01T00:00:00Z, as [`answer`] does,
/// with its promises. Where the memory for the routes is refused, nothing is read, and the response
/// is the line of that fault.
///
/// [`Lost::Read`] and [`Lost::Write`]: a read or a write failed, as [`answer`] says it.
pub fn answer_once<S: Alter, I: Input, O: Output>(
    alloc: Global,
    office: &mut Office<S>,
    at: u64,
    input: &mut I,
    output: &mut O,
) -> Result<Served, Lost>
    requires reads { I.failed input.old < 2 ^ 64 - 1 }
    requires writes { O.failed output.old < 2 ^ 64 - 1 }
    ensures served { IfOk result (λ served. (response : Response)
        × (served.status ≡ response.status)
        × Appends (O.written output.old) (O.written output.new) (response_bytes response)
        × IsExchange S.Store office.old at (I.coming input.old) response delivered office.new) }
    ensures lost_read { result ≡ Err Lost.Read → (office.new ≡ office.old)
        × (O.written output.new ≡ O.written output.old) }
    ensures lost_write { result ≡ Err Lost.Write → (response : Response)
        × AppendsBeginning (O.written output.old) (O.written output.new) (response_bytes response)
        × IsExchange S.Store office.old at (I.coming input.old) response undelivered office.new }
    ensures needed { Reads (I.taken input.old) (I.taken input.new) (AreNeeded HasRequest []) }
    ensures received { IfOk result (λ served. IfSome (I.coming input.old) (λ bytes.
        KnowsReceived bytes served.is_received served.status)) }
    ensures reads_failed { I.failed input.new ≡ I.failed input.old + lost_reads result }
    ensures writes_failed { O.failed output.new ≡ O.failed output.old + lost_writes result }
{
    let Ok(routes) = Routes::new(alloc) else {
        // This does nothing: its clause says that the line reveals nothing.
        gr_http::secrecy::responses_reveal_nothing();
        return write_response(output, &response::of_fault(Fault::Memory), false);
    };
    answer(alloc, &routes, office, at, input, output)
}

/// `once`: answers one request, from the desk that the file of a host holds, and ends it. The
/// moment is the one that is given, in seconds since 1970-01-01T00:00:00Z, or else that of the
/// clock, which is asked when the desk is open, before the request is read.
///
/// [`Failure::NoFile`], [`Failure::Fault`]: no desk was opened, as [`open`](crate::open) says it,
/// and nothing was read or written. [`Failure::Lost`]: a read or a write failed, as [`answer`] says
/// it.
pub fn once<H: Host, N: Fn() -> u64, I: Input, O: Output>(
    alloc: Global,
    host: &mut H,
    file: &str,
    at: Option<u64>,
    now: &N,
    input: &mut I,
    output: &mut O,
) -> (Result<Served, Failure>, Ending<H::Store>)
    requires callable { N.IsAlwaysCallable now.now }
    requires reads { I.failed input.old < 2 ^ 64 - 1 }
    requires writes { O.failed output.old < 2 ^ 64 - 1 }
    ensures does { OnceDoes H.Store.Store (H.known host.old) file.now
        (λ t. MatchOption at (N.post now.now t) (λ given. t ≡ given))
        (I.coming input.old) (O.written output.old) (O.written output.new) result.0 result.1 }
    ensures received { IfOk result.0 (λ served. IfSome (I.coming input.old) (λ bytes.
        KnowsReceived bytes served.is_received served.status)) }
    ensures needed { ReadsRequest result.1 (I.taken input.old) (I.taken input.new) }
    ensures asked { AsksFor result.1 (ToOpen file.now) (H.asked host.old) (H.asked host.new) }
    ensures behind { H.behind host.new ≡ H.behind host.old }
    ensures others { LeavesOthers file.now (H.known host.old) (H.known host.new) }
{
    let mut office = match open(alloc, host, file) {
        Ok(office) => office,
        Err(unopened) => return (Err(unopened.failure), unopened.ending),
    };
    let at = moment_or_clock(at, now);
    let served = answer_once(alloc, &mut office, at, input, output);
    (outcome_of(served), Ending::Close(connection_of(office)))
}

/// The moment that is given, or else that of the clock.
pub(crate) fn moment_or_clock<N: Fn() -> u64>(at: Option<u64>, now: &N) -> u64
    requires { N.IsAlwaysCallable now.now }
    ensures { MatchOption at (N.post now.now result) (λ given. result ≡ given) }
{
    match at {
        Some(at) => at,
        None => now(),
    }
}

/// Which of the streams failed is not reported.
fn outcome_of(served: Result<Served, Lost>) -> Result<Served, Failure>
    ensures { result ≡ outcome_of served }
{
    match served {
        Ok(served) => Ok(served),
        Err(_) => Err(Failure::Lost),
    }
}
