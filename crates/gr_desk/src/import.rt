//! `import`: the rows of a roll file, by one command.
ghost use Rattle.std.specs.Prelude.{◌≡◌, ◌⊎◌, ◌-◌, ◌^◌, ◌<◌, MatchOption, MatchResult};
ghost use Rattle.gr_desk.specs.Host.{AsksBehind, LeavesFiles, LeavesOthers, LeavesPorts, ToRead};
ghost use Rattle.gr_desk.specs.Lines.{AsksForRollThen, ImportDoes, ReadsRows};
ghost use Rattle.gr_desk.specs.Spans.{ComesNext};

use crate::any_store::connection_of;
use crate::ending::Ending;
use crate::failure::Failure;
use crate::host::Host;
use crate::once::moment_or_clock;
use crate::open::{look_for, open};
use crate::steps::import_rows;
use gr_core::RollRow;
use gr_http::limits::MAX_BODY_BYTES;
use gr_http::output::Output;
use gr_http::roll_file::{NoRoll, read_roll};
use gr_office::Fault;
use std::alloc::Global;

/// Imports the rows of a roll file into the desk that the file of a host holds, by one command, all
/// or none, and writes the line of its reply. The roll is read before the desk is opened. The
/// moment is the one that is given, or else that of the clock, which is asked when the desk is
/// open.
///
/// [`Failure::NoFile`], [`Failure::Fault`]: no desk was opened, as [`open`](crate::open) says it.
/// [`Failure::CannotRead`], [`Failure::TooLarge`], [`Failure::BadRoll`]: the roll was not read, and
/// no desk was opened. [`Failure::Lost`], [`Failure::Refused`], [`Failure::Fault`]: as
/// [`import_rows`] says it.
pub fn import<H: Host, N: Fn() -> u64, O: Output>(
    alloc: Global,
    host: &mut H,
    file: &str,
    roll: &str,
    at: Option<u64>,
    now: &N,
    output: &mut O,
) -> (Result<(), Failure>, Ending<H::Store>)
    requires callable { N.IsAlwaysCallable now.now }
    requires writes { O.failed output.old < 2 ^ 64 - 1 }
    ensures does { ImportDoes H.Store.Store (H.known host.old) file.now roll.now
        (λ t. MatchOption at (N.post now.now t) (λ given. t ≡ given))
        (O.written output.old) (O.written output.new) result.0 result.1 }
    ensures asked { AsksForRollThen ((H.known host.old).there file.now) result.1 roll.now file.now
        (H.asked host.old) (H.asked host.new) }
    ensures behind { AsksBehind (H.behind host.old) (H.behind host.new) (ToRead roll.now) }
    ensures others { LeavesOthers file.now (H.known host.old) (H.known host.new) }
{
    match look_for(host, file) {
        Ok(()) => {}
        Err(failure) => return (Err(failure), Ending::Nothing),
    }
    let rows = match rows_of(alloc, host, roll) {
        Ok(rows) => rows,
        Err(failure) => return (Err(failure), Ending::Nothing),
    };
    let mut office = match open(alloc, host, file) {
        Ok(office) => office,
        Err(unopened) => return (Err(unopened.failure), unopened.ending),
    };
    let at = moment_or_clock(at, now);
    let done = import_rows(alloc, &mut office, at, rows, output);
    (done, Ending::Close(connection_of(office)))
}

/// The rows of a roll file.
fn rows_of<H: Host>(alloc: Global, host: &mut H, roll: &str) -> Result<Vec<RollRow>, Failure>
    ensures reads { ReadsRows ((H.known host.old).roll roll.now) result }
    ensures asked { MatchResult result
        (λ _. ComesNext (H.asked host.old) (H.asked host.new) (ToRead roll.now))
        (λ _. (H.asked host.new ≡ H.asked host.old)
        ⊎ ComesNext (H.asked host.old) (H.asked host.new) (ToRead roll.now)) }
    ensures behind { AsksBehind (H.behind host.old) (H.behind host.new) (ToRead roll.now) }
    ensures others { LeavesFiles (H.known host.old) (H.known host.new)
        × LeavesPorts (H.known host.old) (H.known host.new) }
{
    let bytes = match host.read_roll(roll, MAX_BODY_BYTES) {
        Ok(bytes) => bytes,
        Err(failure) => return Err(failure),
    };
    if bytes.len() > MAX_BODY_BYTES {
        return Err(Failure::TooLarge);
    }
    match read_roll(alloc, bytes.as_slice()) {
        Ok(rows) => Ok(rows),
        Err(NoRoll::BadLine(record)) => Err(Failure::BadRoll(record)),
        Err(NoRoll::Memory) => Err(Failure::Fault(Fault::Memory)),
    }
}
