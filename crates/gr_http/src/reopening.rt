//! What is answered by an office that is opened over what a stop left.
//!
//! The laws on a reopened desk repeat the clauses that they inherit. Two of them differ in what is
//! known of the office, and an abbreviation of the rest would need eight parameters.
ghost use Rattle.std.specs.Prelude.{◌≡◌, ◌+◌, ◌-◌, ◌^◌, ◌<◌, List, Err, IfOk, IfErr, MatchResult};
ghost use Rattle.std.specs.Io.KnownBytes.{Appends};
ghost use Rattle.sqlite.specs.Held.{state};
ghost use Rattle.sqlite.specs.State.{HasCleanDisk, Opens};
ghost use Rattle.gr_core.specs.Desks.State.{State};
ghost use Rattle.gr_store.specs.Faults.{IsOfStore};
ghost use Rattle.gr_office.specs.Crash.{IsAfterPrefix};
ghost use Rattle.gr_office.specs.History.{Attempt, IsLeftBy, IsStart};
ghost use Rattle.gr_office.specs.Office.{IsOpenWith, StillKeeps};
ghost use Rattle.gr_http.specs.Response.{Response, response_bytes};
ghost use Rattle.gr_http.specs.Answer.{lost_reads, lost_writes};
ghost use Rattle.gr_http.specs.Fates.{delivered, undelivered};
ghost use Rattle.gr_http.specs.Exchange.{IsExchangeAfterPrefix};
ghost use Rattle.gr_http.specs.Streams.{AppendsBeginning};

use crate::answer::{Lost, Served, answer};
use crate::input::Input;
use crate::output::Output;
use crate::route::Routes;
use gr_office::laws::starts_are_reopened;
use gr_office::{NotOpened, Office};
use sqlite::Connection;
use sqlite_trees::store::Alter;
use std::alloc::Global;

/// The headline on requests. The connection is as [`starts_are_reopened`] wants it, and the
/// request is one to the office that it opens: its response is what the desk after that same
/// prefix responds to these bytes. So a sheet that is asked for is the sheet of that desk, and a
/// tally has just the ballots of the prefix; or the response is the line of a fault.
///
/// The office that is handed back is as that one exchange leaves the opened one, whether the input
/// knows its bytes or not. Where a write failed, a beginning of such a response was written, and
/// only a reply was lost; where a read failed, nothing was done, and nothing written. Either comes
/// just where the stream counted a failure. Where nothing is opened, it is as there, and the
/// streams are as they were.
pub fn reopened_replies_are_of_a_prefix<S: Alter, I: Input, O: Output>(
    alloc: Global,
    conn: Connection<S>,
    routes: &Routes,
    at: u64,
    input: &mut I,
    output: &mut O,
) -> Result<(Office<S>, Result<Served, Lost>), NotOpened<S>>
    requires reads { I.failed input.old < 2 ^ 64 - 1 }
    requires writes { O.failed output.old < 2 ^ 64 - 1 }
    ensures opened { Opens (state S.Store conn)
        → (s : State) → IsStart s → (attempts : List Attempt) → IsLeftBy S.Store s attempts conn
        → IfOk result (λ reopened. HasCleanDisk (state S.Store reopened.0.conn)
        → IfOk reopened.1 (λ served. (response : Response) × (served.status ≡ response.status)
        × Appends (O.written output.old) (O.written output.new) (response_bytes response)
        × IsExchangeAfterPrefix S.Store s attempts at (I.coming input.old) response delivered
        reopened.0)) }
    ensures cut_off { Opens (state S.Store conn)
        → (s : State) → IsStart s → (attempts : List Attempt) → IsLeftBy S.Store s attempts conn
        → IfOk result (λ reopened. HasCleanDisk (state S.Store reopened.0.conn)
        → reopened.1 ≡ Err Lost.Write → (response : Response)
        × AppendsBeginning (O.written output.old) (O.written output.new) (response_bytes response)
        × IsExchangeAfterPrefix S.Store s attempts at (I.coming input.old) response undelivered
        reopened.0) }
    ensures unread { Opens (state S.Store conn)
        → (s : State) → IsStart s → (attempts : List Attempt) → IsLeftBy S.Store s attempts conn
        → IfOk result (λ reopened. HasCleanDisk (state S.Store reopened.0.conn)
        → reopened.1 ≡ Err Lost.Read → (t : State) × IsAfterPrefix s attempts t
        × IsOpenWith S.Store t reopened.0 × (O.written output.new ≡ O.written output.old)) }
    ensures reads_failed { MatchResult result
        (λ reopened. I.failed input.new ≡ I.failed input.old + lost_reads reopened.1)
        (λ _. I.failed input.new ≡ I.failed input.old) }
    ensures writes_failed { MatchResult result
        (λ reopened. O.failed output.new ≡ O.failed output.old + lost_writes reopened.1)
        (λ _. O.failed output.new ≡ O.failed output.old) }
    ensures unwritten { IfErr result (λ _. O.written output.new ≡ O.written output.old) }
    ensures failed { Opens (state S.Store conn)
        → (s : State) → IsStart s → (attempts : List Attempt) → IsLeftBy S.Store s attempts conn
        → IfErr result (λ e. HasCleanDisk (state S.Store e.conn) → IsOfStore e.fault
        × ((t : State) × IsAfterPrefix s attempts t × StillKeeps S.Store t e.conn)) }
{
    let mut office = starts_are_reopened(alloc, conn)?;
    let served = answer(alloc, routes, &mut office, at, input, output);
    Ok((office, served))
}
