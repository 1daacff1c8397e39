//! A vote over several lines of the program, one after the other over one host, which may stop in
//! the act after it.
//!
//! It is proved over any such host, then over a machine on any disks that report the truth
//! (`Truthful`), and last in memory. At the store of files in memory the prover stops at its limit
//! in each call of a line. It does so too where a machine on disks in memory is handed to the
//! function of the lines. So the disks are put in by one call, of a function that names no host.
ghost use Rattle.std.specs.Prelude.{IfOk, IfSome, IsSome, Some};
ghost use Rattle.gr_core.specs.Desks.State.{new_state};
ghost use Rattle.gr_desk_tests.specs.Witness.{AcceptsOne, AnswersSo, HasInFile, HasVoteInFile, ImportsRoll, LeavesRolls, ShowsResult, ShowsTheVote};

use crate::lasting_host::LastingHost;
use crate::one_file::OneFile;
use crate::truthful::Truthful;
use gr_core::DAY;
use gr_desk::failure::Failure;
use gr_desk::import::import;
use gr_desk::init::init;
use gr_desk::once::once;
use gr_desk::show::show;
use gr_http::answer::Served;
use gr_http::input::FromRead;
use gr_http::output::ToWrite;
use gr_office::Kind;
use http::StatusCode;
use sqlite::Files;
use sqlite_disk::{Fuse, Memory};
use std::alloc::Global;

/// The roll is imported and the resolution proposed at 2026-01-01T00:00:00Z.
pub const PROPOSED: u64 = 1_767_225_600;

/// Its vote is called then.
pub const CALLED: u64 = PROPOSED + 14 * DAY;

/// And closed then.
pub const CLOSED: u64 = CALLED + 7 * DAY;

/// The roll file: two developers.
pub const ROLL: &str = "login,name,status\r\nalice,Alice Adams,current\r\n\
    bob,Bob Brown,current\r\n";

/// The Leader makes the resolution.
pub const PROPOSAL: &str = "POST /resolutions HTTP/1.1\r\nContent-Length: 41\r\n\r\n\
    author=@leader&summary=Red&text=a&ratio=1";

/// Its vote is called.
pub const CALL: &str = "POST /resolutions/1/call HTTP/1.1\r\nContent-Length: 6\r\n\r\ndays=7";

/// A developer votes.
pub const VOTE: &str = "POST /resolutions/1/vote HTTP/1.1\r\nContent-Length: 35\r\n\r\n\
    login=alice&ranks=12&token=tokenA01";

/// The vote is closed.
pub const CLOSE: &str = "POST /resolutions/1/close HTTP/1.1\r\nContent-Length: 0\r\n\r\n";

/// A further developer is put on the roll.
pub const FURTHER: &str = "POST /developers HTTP/1.1\r\nContent-Length: 37\r\n\r\n\
    login=carol&name=Carol&status=current";

/// What was found after the further act.
#[derive(Drop)]
pub struct Found {
    /// How the further act was answered.
    pub further: Result<Served, Failure>,

    /// The result of the vote, as the last line wrote it.
    pub sheet: Vec<u8>,
}

/// Why no result is shown.
#[derive(Clone, Copy, Debug, PartialEq, Eq)]
pub enum NoResult {
    /// A line of the vote did not answer Ok, with status 200 where it is `once`. Or the host has
    /// not its file back.
    Vote,

    /// The further act left no connection.
    Further,

    /// The last line did not answer Ok. Or the host has not its file back.
    Sheet,
}

/// Runs `init`, `import`, `once` for each of a proposal by the Leader, its call, a vote and the
/// close, `once` with a further act, in which the host may stop, and `result`, over one host.
pub fn vote_over_a_stop<H: LastingHost, N: Fn() -> u64>(
    alloc: Global,
    host: &mut H,
    file: &str,
    roll: &str,
    now: &N,
) -> Result<Found, NoResult>
    requires { N.IsAlwaysCallable now.now }
    ensures { IfOk result (λ found. ShowsTheVote ((H.known host.old).roll roll.now)
        found.further found.sheet.items) }
{
    hold_vote(alloc, host, file, roll, now).ok_or(NoResult::Vote)?;
    let further = ask(alloc, host, file, CLOSED, now, FURTHER).ok_or(NoResult::Further)?;
    let sheet = result_of(alloc, host, file).ok_or(NoResult::Sheet)?;
    Ok(Found { further, sheet })
}

/// The same over a machine with one file, on whatever disks tell no lie. The roll is that of
/// [`ROLL`].
pub fn vote_on_disks<D: Truthful + Drop>(alloc: Global, files: Files<D>) -> Result<Found, NoResult>
    ensures { IfOk result (λ found.
        ShowsTheVote (Some ROLL.now) found.further found.sheet.items) }
{
    let mut host = OneFile {
        alloc,
        name: "desk.db",
        files: Some(files),
        is_made: false,
        roll: ROLL.as_bytes(),
        awaited: &[],
        asked: Vec::new(alloc),
    };
    vote_over_a_stop(alloc, &mut host, "desk.db", "roll.csv", &|| CLOSED)
}

/// The same in memory, where the log fails for good after so many calls.
pub fn vote_in_memory(alloc: Global, calls: u64) -> Result<Found, NoResult>
    ensures { IfOk result (λ found.
        ShowsTheVote (Some ROLL.now) found.further found.sheet.items) }
{
    let files = Files {
        log: Fuse::new(Memory::new(alloc), calls),
        db: Fuse::new(Memory::new(alloc), u64::MAX),
    };
    vote_on_disks(alloc, files)
}

/// The lines of the vote, each of which answers Ok, with status 200 where it is `once`.
fn hold_vote<H: LastingHost, N: Fn() -> u64>(
    alloc: Global,
    host: &mut H,
    file: &str,
    roll: &str,
    now: &N,
) -> Option<()>
    requires { N.IsAlwaysCallable now.now }
    ensures { IsSome result → HasVoteInFile ((H.known host.old).roll roll.now)
        (H.known host.new) file.now }
{
    make(alloc, host, file)?;
    import_roll(alloc, host, file, roll, now)?;
    act(alloc, host, file, PROPOSED, now, PROPOSAL)?;
    act(alloc, host, file, CALLED, now, CALL)?;
    act(alloc, host, file, CALLED, now, VOTE)?;
    act(alloc, host, file, CLOSED, now, CLOSE)
}

/// `init`, which answers Ok.
fn make<H: LastingHost>(alloc: Global, host: &mut H, file: &str) -> Option<()>
    ensures made { IsSome result → HasInFile (H.known host.new) file.now new_state }
    ensures rolls { LeavesRolls (H.known host.old) (H.known host.new) }
{
    let mut output = ToWrite::new(Vec::new(alloc));
    let (done, mut left) = init(alloc, host, file, false, &mut output);
    let is_back = host.take_back(file, &mut left);
    if done.is_ok() && is_back {
        Some(())
    } else {
        None
    }
}

/// `import`, which answers Ok.
fn import_roll<H: LastingHost, N: Fn() -> u64>(
    alloc: Global,
    host: &mut H,
    file: &str,
    roll: &str,
    now: &N,
) -> Option<()>
    requires { N.IsAlwaysCallable now.now }
    ensures { IsSome result → ImportsRoll (H.known host.old) roll.now file.now
        (H.known host.new) }
{
    // This does nothing: its clause says that a desk stays valid.
    gr_core::laws::commands_keep_a_desk_valid();
    let mut output = ToWrite::new(Vec::new(alloc));
    let (done, mut left) = import(alloc, host, file, roll, Some(PROPOSED), now, &mut output);
    let is_back = host.take_back(file, &mut left);
    if done.is_ok() && is_back {
        Some(())
    } else {
        None
    }
}

/// `once` with a request for an act, which is answered by the status 200.
fn act<H: LastingHost, N: Fn() -> u64>(
    alloc: Global,
    host: &mut H,
    file: &str,
    at: u64,
    now: &N,
    request: &str,
) -> Option<()>
    requires { N.IsAlwaysCallable now.now }
    ensures { IsSome result → AcceptsOne (H.known host.old) at request.now file.now
        (H.known host.new) }
{
    match ask(alloc, host, file, at, now, request) {
        Some(Ok(served)) if served.status == StatusCode::OK => Some(()),
        _ => None,
    }
}

/// `once` with a request for an act, and how it is answered. None where no connection was left.
fn ask<H: LastingHost, N: Fn() -> u64>(
    alloc: Global,
    host: &mut H,
    file: &str,
    at: u64,
    now: &N,
    request: &str,
) -> Option<Result<Served, Failure>>
    requires { N.IsAlwaysCallable now.now }
    ensures { IfSome result (λ outcome. AnswersSo outcome (H.known host.old) at request.now file.now
        (H.known host.new)) }
{
    // This does nothing: its clause says that a desk stays valid.
    gr_core::laws::commands_keep_a_desk_valid();
    let mut input = FromRead::new(request.as_bytes());
    let mut output = ToWrite::new(Vec::new(alloc));
    let (outcome, mut left) = once(alloc, host, file, Some(at), now, &mut input, &mut output);
    if !host.take_back(file, &mut left) {
        return None;
    }
    Some(outcome)
}

/// `result` of the resolution, which answers Ok.
fn result_of<H: LastingHost>(alloc: Global, host: &mut H, file: &str) -> Option<Vec<u8>>
    ensures { IfSome result (λ sheet. ShowsResult (H.known host.old) file.now sheet.items) }
{
    let mut output = ToWrite::new(Vec::new(alloc));
    let (done, mut left) = show(alloc, host, file, Kind::Result, 1, &mut output);
    let is_back = host.take_back(file, &mut left);
    if done.is_ok() && is_back {
        Some(output.into_inner())
    } else {
        None
    }
}
