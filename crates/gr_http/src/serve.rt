//! Connections and their requests, one after the other.
ghost use Rattle.std.specs.Prelude.{◌≡◌, ℕ, List, Option, Some, Err, IfOk, IfSome};
ghost use Rattle.gr_http.specs.Response.{Response, response_bytes};
ghost use Rattle.gr_http.specs.Fates.{delivered, undelivered};
ghost use Rattle.gr_http.specs.Answer.{KnowsReceived};
ghost use Rattle.gr_http.specs.Exchange.{IsExchange};
ghost use Rattle.gr_http.specs.Door.{Brings, EndsTold, EndsCutOff, EndsUnread};
ghost use Rattle.gr_http.specs.Serve.{not_served_text};

use crate::answer::{Lost, Served, answer};
use crate::door::Door;
use crate::route::Routes;
use gr_office::Office;
use sqlite_trees::store::Alter;
use std::alloc::Global;
use std::error::Error;
use std::fmt;

/// A connection was not served.
#[derive(Clone, Copy, Debug, PartialEq, Eq)]
pub enum NotServed {
    /// It could not be accepted.
    Accept,

    /// A read or a write failed, or its time was over.
    Lost(Lost),
}

impl fmt::Display for NotServed {
    ghost output = { λ why. Some (not_served_text why) };

    fn fmt<W: fmt::Write>(&self, f: &mut fmt::Formatter<W>) -> fmt::Result {
        match self {
            NotServed::Accept => f.write_str("no connection could be accepted"),
            NotServed::Lost(lost) => write!(f, "{lost}"),
        }
    }
}

impl Error for NotServed {}

/// Accepts a connection, answers its request at the moment that `now` gives then, in seconds since
/// 1970-01-01T00:00:00Z, and ends it.
///
/// What [`answer`] says of the bytes of an input and an output is said here of those that the
/// connection brought, and of those that it was told. It is so whether the door knows them or not.
///
/// [`NotServed::Accept`]: none could be accepted, and nothing was done. [`NotServed::Lost`]: a read
/// failed, and nothing was done and nothing told; or a write failed, a beginning of the response
/// was told, and what the request did stands.
pub fn serve_next<S: Alter, D: Door, N: Fn() -> u64>(
    alloc: Global,
    routes: &Routes,
    office: &mut Office<S>,
    now: &N,
    door: &mut D,
) -> Result<Served, NotServed>
    requires { N.IsAlwaysCallable now.now }
    ensures served { IfOk result (λ served. (bytes : Option (List ℕ)) × (at : ℕ)
        × N.post now.now at × (response : Response) × (served.status ≡ response.status)
        × Brings (D.awaited door.old) (D.awaited door.new) bytes
        × EndsTold (D.ended door.old) (D.ended door.new) (response_bytes response)
        × IsExchange S.Store office.old at bytes response delivered office.new) }
    ensures received { IfOk result (λ served. (bytes : Option (List ℕ))
        × Brings (D.awaited door.old) (D.awaited door.new) bytes
        × IfSome bytes (λ bytes. KnowsReceived bytes served.is_received served.status)) }
    ensures lost_write { result ≡ Err (NotServed.Lost Lost.Write) → (bytes : Option (List ℕ))
        × (at : ℕ) × N.post now.now at × (response : Response)
        × Brings (D.awaited door.old) (D.awaited door.new) bytes
        × EndsCutOff (D.ended door.old) (D.ended door.new) (response_bytes response)
        × IsExchange S.Store office.old at bytes response undelivered office.new }
    ensures lost_read { result ≡ Err (NotServed.Lost Lost.Read) → (bytes : Option (List ℕ))
        × Brings (D.awaited door.old) (D.awaited door.new) bytes
        × EndsUnread (D.ended door.old) (D.ended door.new)
        × (office.new ≡ office.old) }
    ensures accept { result ≡ Err NotServed.Accept → (office.new ≡ office.old)
        × (D.awaited door.new ≡ D.awaited door.old) × (D.ended door.new ≡ D.ended door.old)
        × D.refuses door.old door.new }
{
    let Ok((mut input, mut output)) = door.accept() else {
        return Err(NotServed::Accept);
    };
    let at = now();
    match answer(alloc, routes, office, at, &mut input, &mut output) {
        Ok(served) => {
            door.end(input, output, !served.is_received);
            Ok(served)
        }
        Err(lost) => {
            door.end(input, output, false);
            Err(NotServed::Lost(lost))
        }
    }
}
