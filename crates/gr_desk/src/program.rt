//! The program, over any host and any streams.
ghost use Rattle.std.specs.Prelude.{◌≡◌, ◌⊎◌, ◌-◌, ◌^◌, ◌<◌, ◌==◌, ℕ, List, [], Option, if◌then◌else◌, map, string_bytes, IfErr, IfOk};
ghost use Rattle.gr_desk.specs.Connections.{DoorRefuses};
ghost use Rattle.gr_desk.specs.ErrorOutput.{Says};
ghost use Rattle.gr_desk.specs.Failure.{said_of_done, status_of_done};
ghost use Rattle.gr_desk.specs.Host.{LeavesOthers};
ghost use Rattle.gr_http.specs.Reads.{Reads, AreNeeded};
ghost use Rattle.gr_http.specs.Request.{HasRequest};
ghost use Rattle.gr_desk.specs.Program.{InMemoryDoes, LineAsks, LineAsksBehind, LineDoes, LineReads, RunsOn, Tells, WordsAsk, file_of, status_of_outcome};
ghost use Rattle.gr_desk.specs.System.{RunsOnMachine};
ghost use Rattle.sqlite_wal.specs.Files.{image_at};
ghost use Rattle.gr_desk.specs.Words.{AskForHelp, AskForNone, AskForVersion, IsHelp, IsWrong, TellsVersion};

use crate::clock::seconds_since_1970;
use crate::ending::Ending;
use crate::error_output::say;
use crate::failure::{FAILED_STATUS, Failure, REFUSED_STATUS, WRONG_WORDS_STATUS};
use crate::file::{IN_MEMORY, close_ending};
use crate::host::Host;
use crate::import::import;
use crate::in_memory::InMemory;
use crate::init::init;
use crate::line::{Line, NoLine};
use crate::migrate::migrate;
use crate::once::once;
use crate::serve::{PortDoor, serve};
use crate::show::show;
use crate::steps::print;
use crate::system::SystemHost;
use crate::words::read_line;
use gr_http::answer::Served;
use gr_http::door::Door;
use gr_http::input::{FromRead, Input, comes_from_the_reader};
use gr_http::output::{Output, ToWrite, is_written_to_the_writer};
use gr_office::Fault;
use http::StatusCode;
use sqlite::{FileFrom, Start, Unknown};
use sqlite_disk::Disk;
use sqlite_trees::store::Alter;
use std::alloc::Global;
use std::env;
use std::io::{self, ErrorKind, Read, Write};

/// Does what the machine's words ask for, over its streams and by its clock, and answers the exit
/// status: that of [`run`], or 3 where memory runs out for the words, or 2 where one is no UTF-8.
///
/// The contents of a file are of the type `Unknown`, one of two of the toolchain. By it a torn
/// write leaves each byte old or new, as SQLite supposes too, and a commit syncs once. The other
/// type, `Wary`, supposes less and syncs twice, for which each vote would wait some 70 microseconds
/// longer (bench/README.md). No code names the real contents (docs/promises.md, "The program").
pub fn run_machine(rt: &HostRuntime) -> u8 {
    let now = || seconds_since_1970(rt);
    match words_of(rt) {
        Ok(words) => run(
            rt,
            words.as_slice(),
            Unknown,
            &now,
            rt.stdin(),
            rt.stdout(),
            rt.stderr(),
        ),
        Err(error) if error.kind() == ErrorKind::OutOfMemory => {
            let mut errors = ToWrite::new(rt.stderr());
            status_behind(Err(Failure::Fault(Fault::Memory)), &mut errors)
        }
        Err(_) => {
            let mut errors = ToWrite::new(rt.stderr());
            say(&mut errors, &["error: a word is no UTF-8\n"]);
            WRONG_WORDS_STATUS
        }
    }
}

/// The words after the program's name. Fails where one is no UTF-8, or memory runs out.
fn words_of(rt: &HostRuntime) -> io::Result<Vec<String>> {
    let mut words = Vec::new(rt.alloc());
    for word in env::args(rt)?.skip(1) {
        words.push(word)?;
    }
    Ok(words)
}

/// Does what the words of a command line ask for, the program's name left out, and answers the exit
/// status. Without words it is `once :memory:`.
///
/// `start` stands for what the files of the desk hold. `now` gives the moment, in seconds since
/// 1970-01-01T00:00:00Z, where the words have none. What it does is what [`run_on`] says, over the
/// machine's files and ports; after that it closes the file.
pub fn run<S: Start, N: Fn() -> u64, R: Read + Drop, O: Write + Drop, E: Write + Drop>(
    rt: &HostRuntime,
    words: &[String],
    start: S,
    now: &N,
    input: R,
    output: O,
    errors: E,
) -> u8
    requires { N.IsAlwaysCallable now.now }
    ensures { RunsOnMachine ⟦<FileFrom<S> as Disk>⟧ (image_at S.Start)
        (DoorRefuses ⟦<PortDoor<'static, HostRuntime> as Door>⟧.refuses
        ⟦<PortDoor<'static, HostRuntime> as Door>⟧.awaited
        ⟦<PortDoor<'static, HostRuntime> as Door>⟧.ended)
        (map string_bytes words.now) (N.post now.now) (R.remaining input) (O.contents output)
        result }
{
    let mut host = SystemHost::new(rt, start);
    let mut input = FromRead::new(input);
    let mut output = ToWrite::new(output);
    let mut errors = ToWrite::new(errors);
    // These do nothing: their clauses say what is to come, and what was written before.
    comes_from_the_reader(&input);
    is_written_to_the_writer(&output);
    let (status, ending) = run_on(
        rt.alloc(),
        &mut host,
        words,
        now,
        &mut input,
        &mut output,
        &mut errors,
    );
    drop(close_ending(ending));
    status
}

/// Does what the words of a command line ask for over a host, the program's name left out, and
/// answers the exit status, with the connection that is left of the line's file. Without words it
/// is `once :memory:`. A line whose file is `:memory:` has a new desk in memory in its place, of
/// which nothing is left.
///
/// What is said on error output is all written there, or a beginning where a write failed, which
/// changes nothing else.
pub fn run_on<H: Host, N: Fn() -> u64, I: Input, O: Output, E: Output>(
    alloc: Global,
    host: &mut H,
    words: &[String],
    now: &N,
    input: &mut I,
    output: &mut O,
    errors: &mut E,
) -> (u8, Ending<H::Store>)
    requires callable { N.IsAlwaysCallable now.now }
    requires reads { I.failed input.old < 2 ^ 64 - 1 }
    requires writes { O.failed output.old < 2 ^ 64 - 1 }
    requires says { E.failed errors.old < 2 ^ 64 - 1 }
    ensures runs { (said : Option (List ℕ)) × Says (E.written errors.old) (E.written errors.new)
        (E.failed errors.old) (E.failed errors.new) said
        × RunsOn H.Store.Store (H.known host.old) (H.known host.new)
        (DoorRefuses H.Door.Door.refuses H.Door.Door.awaited H.Door.Door.ended)
        (H.asked host.old) (H.asked host.new) (map string_bytes words.now) (N.post now.now)
        (I.coming input.old) (O.written output.old) (O.written output.new) result.0 said
        result.1 }
    ensures needed { Reads (I.taken input.old) (I.taken input.new) (AreNeeded HasRequest []) }
{
    match asked_line(alloc, words) {
        Ok(line) => {
            if line.file() == IN_MEMORY {
                let status = do_in_memory(alloc, host, line, now, input, output, errors);
                (status, Ending::Nothing)
            } else {
                do_line(alloc, host, line, now, input, output, errors)
            }
        }
        Err(no_line) => (tell(no_line, output, errors), Ending::Nothing),
    }
}

/// The line that words ask for.
fn asked_line<'a>(alloc: Global, words: &'a [String]) -> Result<Line<'a>, NoLine>
    ensures line { IfOk result (WordsAsk (map string_bytes words.now)) }
    ensures help { IfErr result (λ no_line.
        IsHelp no_line → AskForHelp (map string_bytes words.now)) }
    ensures version { IfErr result (λ no_line.
        AskForVersion (map string_bytes words.now) → TellsVersion no_line) }
    ensures wrong { IfErr result (λ no_line.
        IsWrong no_line → AskForNone (map string_bytes words.now)) }
{
    if words.is_empty() {
        return Ok(Line::Once {
            file: IN_MEMORY,
            at: None,
        });
    }
    read_line(alloc, words)
}

/// Tells why there is no line, and answers the exit status.
fn tell<O: Output, E: Output>(no_line: NoLine, output: &mut O, errors: &mut E) -> u8
    requires writes { O.failed output.old < 2 ^ 64 - 1 }
    requires says { E.failed errors.old < 2 ^ 64 - 1 }
    ensures { (said : Option (List ℕ)) × Says (E.written errors.old) (E.written errors.new)
        (E.failed errors.old) (E.failed errors.new) said
        × Tells no_line (O.written output.old) (O.written output.new) result said }
{
    match no_line {
        NoLine::Help(text) => status_behind(print(output, text.as_str()), errors),
        NoLine::Words(text) => {
            say(errors, &[text.as_str()]);
            WRONG_WORDS_STATUS
        }
        NoLine::Memory => status_behind(Err(Failure::Fault(Fault::Memory)), errors),
    }
}

/// Does what a line asks for with a new desk in memory, and answers the exit status.
fn do_in_memory<H: Host, N: Fn() -> u64, I: Input, O: Output, E: Output>(
    alloc: Global,
    host: &mut H,
    line: Line<'_>,
    now: &N,
    input: &mut I,
    output: &mut O,
    errors: &mut E,
) -> u8
    requires callable { N.IsAlwaysCallable now.now }
    requires reads { I.failed input.old < 2 ^ 64 - 1 }
    requires writes { O.failed output.old < 2 ^ 64 - 1 }
    requires says { E.failed errors.old < 2 ^ 64 - 1 }
    ensures does { (said : Option (List ℕ)) × Says (E.written errors.old) (E.written errors.new)
        (E.failed errors.old) (E.failed errors.new) said
        × InMemoryDoes (H.known host.old)
        (DoorRefuses H.Door.Door.refuses H.Door.Door.awaited H.Door.Door.ended) line.entry
        (N.post now.now) (I.coming input.old) (O.written output.old) (O.written output.new)
        result said }
    ensures needed { Reads (I.taken input.old) (I.taken input.new) (AreNeeded HasRequest []) }
    ensures behind { LineAsksBehind line.entry
        (record { known = H.known host.old; asked = H.asked host.old; name = 0 })
        (record { known = H.known host.new; asked = H.asked host.new; name = 0 }) }
{
    if line.wants_a_file() {
        return status_behind(Err(Failure::NoFile), errors);
    }
    let mut desks = InMemory {
        alloc,
        behind: host,
    };
    do_line(alloc, &mut desks, line, now, input, output, errors).0
}

/// Does what a line asks for, and answers the exit status.
fn do_line<H: Host, N: Fn() -> u64, I: Input, O: Output, E: Output>(
    alloc: Global,
    host: &mut H,
    line: Line<'_>,
    now: &N,
    input: &mut I,
    output: &mut O,
    errors: &mut E,
) -> (u8, Ending<H::Store>)
    requires callable { N.IsAlwaysCallable now.now }
    requires reads { I.failed input.old < 2 ^ 64 - 1 }
    requires writes { O.failed output.old < 2 ^ 64 - 1 }
    requires says { E.failed errors.old < 2 ^ 64 - 1 }
    ensures does { (said : Option (List ℕ)) × Says (E.written errors.old) (E.written errors.new)
        (E.failed errors.old) (E.failed errors.new) said
        × LineDoes H.Store.Store (H.known host.old)
        (DoorRefuses H.Door.Door.refuses H.Door.Door.awaited H.Door.Door.ended) line.entry
        (N.post now.now) (I.coming input.old) (O.written output.old) (O.written output.new)
        result.0 said result.1 }
    ensures read { LineReads line.entry result.1 (I.taken input.old) (I.taken input.new) }
    ensures asks { LineAsks (H.known host.old) line.entry result.1 (H.asked host.old)
        (H.asked host.new) }
    ensures behind { LineAsksBehind line.entry (H.behind host.old) (H.behind host.new) }
    ensures same_reference { (H.behind host.new).name ≡ (H.behind host.old).name }
    ensures others { LeavesOthers (file_of line.entry) (H.known host.old) (H.known host.new) }
{
    match line {
        Line::Init { file, has_sums } => {
            with_status(init(alloc, host, file, has_sums, output), errors)
        }
        Line::Once { file, at } => {
            let (outcome, left) = once(alloc, host, file, at, now, input, output);
            (status_behind_response(outcome, errors), left)
        }
        Line::Serve {
            file,
            port,
            count,
            at,
        } => with_status(
            serve(alloc, host, file, port, count, at, now, output),
            errors,
        ),
        Line::Import { file, roll, at } => {
            with_status(import(alloc, host, file, roll, at, now, output), errors)
        }
        Line::Show { file, kind, number } => {
            with_status(show(alloc, host, file, kind, number, output), errors)
        }
        Line::Migrate { file } => with_status(migrate(alloc, host, file, output), errors),
    }
}

/// The exit status of a line, beside what it leaves.
fn with_status<S: Alter + Drop, E: Output>(
    of_line: (Result<(), Failure>, Ending<S>),
    errors: &mut E,
) -> (u8, Ending<S>)
    requires { E.failed errors.old < 2 ^ 64 - 1 }
    ensures status { result.0 ≡ status_of_done of_line.0 }
    ensures said { Says (E.written errors.old) (E.written errors.new) (E.failed errors.old)
        (E.failed errors.new) (said_of_done of_line.0) }
    ensures left { result.1 ≡ of_line.1 }
{
    let (done, left) = of_line;
    (status_behind(done, errors), left)
}

/// The exit status, with the line of a failure on error output.
fn status_behind<E: Output>(done: Result<(), Failure>, errors: &mut E) -> u8
    requires { E.failed errors.old < 2 ^ 64 - 1 }
    ensures status { result ≡ status_of_done done }
    ensures said { Says (E.written errors.old) (E.written errors.new) (E.failed errors.old)
        (E.failed errors.new) (said_of_done done) }
{
    match done {
        Ok(()) => 0,
        Err(failure) => {
            failure.say(errors);
            failure.exit_status()
        }
    }
}

/// The exit status after a request, with the line of a failure on error output.
fn status_behind_response<E: Output>(outcome: Result<Served, Failure>, errors: &mut E) -> u8
    requires { E.failed errors.old < 2 ^ 64 - 1 }
    ensures status { result ≡ status_of_outcome outcome }
    ensures said { Says (E.written errors.old) (E.written errors.new) (E.failed errors.old)
        (E.failed errors.new) (said_of_done outcome) }
{
    match outcome {
        Ok(served) => status_of(served.status),
        Err(failure) => status_behind(Err(failure), errors),
    }
}

/// The exit status after a response, which goes by its status, as docs/formats.md says under
/// "The command line": 0 for 200, 3 for 503, and else 1.
fn status_of(status: StatusCode) -> u8
    ensures { result ≡ (if status == 200 then 0 else (if status == 503 then 3 else 1)) }
{
    match status.as_u16() {
        200 => 0,
        503 => FAILED_STATUS,
        _ => REFUSED_STATUS,
    }
}
