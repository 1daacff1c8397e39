//! Offices that are stopped: at each call on the log in turn, and then at each call on the file, up
//! to a run that ends with no stop. Each run ends with the close, which copies the log into the
//! file.
//!
//! After each stop an opening finds the desk before the command in which the stop fell, or after
//! it; and after it, where the command was answered. It is looked for twice: with all that was
//! written, and after a cut of the power, which loses what was not synced.
use super::commands::{NEW_YEAR, commands, developers, first, numbered, push, rest, script};
use super::disks::{
    ALL, Calls, FEW, FRAMES, MANY, NoDatabase, calls_on, closed, copied, cut, database, empty,
    usable,
};
use super::office::{act, close, create, open, run, sheet};
use super::texts::{course, found, text_behind};
use super::{is_fault, puts_alice, same};
use gr_core::Command;
use gr_office::{ActFault, Fault, Kind, NotOpened, Office, SheetFault, Stopped};
use sqlite::{Alter, Connection, Files};
use sqlite_disk::{Disk, Fuse, Memory};
use std::alloc::Global;
use std::process::Abort;
use std::test::Fail;

/// How many calls on the log a new office has made, and how many each command makes.
const NEW: u64 = 23;

const COMMIT: u64 = 5;

/// What an office is asked, between the opening of two files and their close.
#[derive(Clone, Copy)]
struct Run<'a> {
    before: &'a Files<Fuse<Memory>>,

    /// How many frames the log gets before it is copied into the file.
    frames: usize,

    /// Whether the files get a new desk first. That counts as an answer.
    is_new: bool,

    /// Whether the commands come as one list, or one by one.
    is_list: bool,

    commands: &'a [(u64, Command)],

    /// The text of the desk before the first answer, and after each of them.
    texts: &'a [String],
}

/// How a run ended.
#[derive(Drop)]
struct Ended<D: Disk> {
    files: Files<D>,

    /// How many commands were answered; none, where no office was opened.
    answered: Option<usize>,

    /// Whether nothing stopped it, up to the close.
    is_whole: bool,
}

#[test]
fn a_failed_disk_closes_the_office(rt: HostRuntime) {
    stop_new_desk(&rt, rt.alloc(), false, NEW + COMMIT);
}

#[test]
fn a_failed_disk_stops_a_list(rt: HostRuntime) {
    stop_new_desk(&rt, rt.alloc(), true, NEW + 2 * COMMIT - 1);
}

#[test]
fn a_stop_in_a_creation_leaves_no_desk_or_a_new_one(rt: HostRuntime) -> Result<(), Fail> {
    let alloc = rt.alloc();
    says_stops(&rt, stop_creation(&rt, alloc, FRAMES))?;
    says_stops(&rt, stop_creation(&rt, alloc, FEW))
}

#[test]
fn a_stop_in_a_command_up_to_the_ninth_leaves_all_of_it_or_none(
    rt: HostRuntime,
) -> Result<(), Fail> {
    says_stops(&rt, stop_commands(&rt, rt.alloc(), 0, 9))
}

#[test]
fn a_stop_in_a_command_from_the_tenth_on_leaves_all_of_it_or_none(
    rt: HostRuntime,
) -> Result<(), Fail> {
    says_stops(&rt, stop_commands(&rt, rt.alloc(), 9, 18))
}

#[test]
fn a_stop_in_an_import_leaves_all_of_it_or_none(rt: HostRuntime) -> Result<(), Fail> {
    let alloc = rt.alloc();
    says_stops(&rt, stop_import(&rt, alloc, FRAMES))?;
    says_stops(&rt, stop_import(&rt, alloc, FEW))
}

#[test]
fn a_stop_in_a_list_leaves_a_beginning_of_it(rt: HostRuntime) -> Result<(), Fail> {
    says_stops(&rt, stop_list(&rt, rt.alloc(), FRAMES))
}

#[test]
fn a_stop_in_a_list_whose_log_is_copied_leaves_a_beginning_of_it(
    rt: HostRuntime,
) -> Result<(), Fail> {
    says_stops(&rt, stop_list(&rt, rt.alloc(), FEW))
}

/// Says how often something was stopped.
pub fn says_stops(rt: &HostRuntime, stops: u64) -> Result<(), Fail> {
    println!(rt; "{stops} stops")?;
    Ok(())
}

/// Stops a new desk after its first developer, after so many calls on the log: at the first call
/// of the second commit, or at its last, the sync after which it stands. This is short, so that
/// wrong bodies can be tried by it.
fn stop_new_desk(rt: &impl Abort, alloc: Global, is_list: bool, calls: u64) {
    let commands = developers(alloc, &[(NEW_YEAR, "alice"), (NEW_YEAR, "bob")]);
    let commands = commands.expect(rt, "memory");
    let texts = course(rt, alloc, commands.as_slice());
    let run = Run {
        before: &empty(alloc, ALL),
        frames: FRAMES,
        is_new: true,
        is_list,
        commands: commands.as_slice(),
        texts: texts.as_slice(),
    };
    let (answered, is_whole) = stop(rt, alloc, &run, Calls { log: calls, ..ALL });
    assert!(rt; answered == 2 && !is_whole);
}

fn stop_creation(rt: &impl Abort, alloc: Global, frames: usize) -> u64 {
    let texts = course(rt, alloc, &[]);
    let run = Run {
        before: &empty(alloc, ALL),
        frames,
        is_new: true,
        is_list: false,
        commands: &[],
        texts: texts.as_slice(),
    };
    stop_each_call(rt, alloc, &run)
}

/// Stops each of the commands of the script after the first so many, up to so many. How often they
/// were stopped, as below.
fn stop_commands(rt: &impl Abort, alloc: Global, first: usize, end: usize) -> u64 {
    let script = script(alloc).expect(rt, "memory");
    let mut stops = 0u64;
    for number in first..end {
        let more = stop_command(rt, alloc, script.as_slice(), number, FRAMES);
        stops = stops.saturating_add(more);
    }
    stops
}

/// Stops an import of a hundred developers after the first command of the script.
fn stop_import(rt: &impl Abort, alloc: Global, frames: usize) -> u64 {
    let mut commands = commands(alloc, 1, 1).expect(rt, "memory");
    let import = numbered(alloc, "e", 100).expect(rt, "memory");
    push(&mut commands, NEW_YEAR, import).expect(rt, "memory");
    stop_command(rt, alloc, commands.as_slice(), 1, frames)
}

/// Stops the command after the first so many of these.
fn stop_command(
    rt: &impl Abort,
    alloc: Global,
    commands: &[(u64, Command)],
    number: usize,
    frames: usize,
) -> u64 {
    let done = first(commands, number);
    let both = first(commands, number.saturating_add(1));
    let texts = [
        text_behind(alloc, done).expect(rt, "a desk"),
        text_behind(alloc, both).expect(rt, "a desk"),
    ];
    let run = Run {
        before: &made(rt, alloc, done),
        frames,
        is_new: false,
        is_list: false,
        commands: rest(both, number),
        texts: &texts,
    };
    stop_each_call(rt, alloc, &run)
}

/// Stops the script as a list, for a new desk.
fn stop_list(rt: &impl Abort, alloc: Global, frames: usize) -> u64 {
    let script = script(alloc).expect(rt, "memory");
    let course = course(rt, alloc, script.as_slice());
    let (_, texts) = course.as_slice().split_first().expect(rt, "a desk");
    let run = Run {
        before: &made(rt, alloc, &[]),
        frames,
        is_new: false,
        is_list: true,
        commands: script.as_slice(),
        texts,
    };
    stop_each_call(rt, alloc, &run)
}

/// Stops the run at each call on the log in turn, and then at each call on the file. How often it
/// was stopped.
fn stop_each_call(rt: &impl Abort, alloc: Global, run: &Run<'_>) -> u64 {
    let log = stop_each_call_on(rt, alloc, run, true);
    let db = stop_each_call_on(rt, alloc, run, false);
    log.saturating_add(db)
}

/// Stops it at each call on the log, or on the file.
fn stop_each_call_on(rt: &impl Abort, alloc: Global, run: &Run<'_>, is_log: bool) -> u64 {
    for calls in 0..MANY {
        let (answered, is_whole) = stop(rt, alloc, run, calls_on(is_log, calls));
        if is_whole {
            assert!(rt; answered.saturating_add(1) == run.texts.len());
            return calls;
        }
    }
    panic!(rt; "a stop at each call")
}

/// Stops the run after so many calls. How many commands were answered, and whether nothing stopped
/// it. The desk has to be there after these, or after one more.
fn stop(rt: &impl Abort, alloc: Global, run: &Run<'_>, calls: Calls) -> (usize, bool) {
    let left = left(rt, alloc, copied(rt, alloc, run.before, calls), run);
    let kept = copied(rt, alloc, &left.files, ALL);
    let count = left.answered.unwrap_or(0);
    is_there(rt, alloc, kept, run.texts, count);
    is_there(rt, alloc, cut(left.files), run.texts, count);
    (count, left.is_whole)
}

/// Wants the desk in these files to be the one after so many answers, or after one more.
fn is_there(
    rt: &impl Abort,
    alloc: Global,
    files: Files<Fuse<Memory>>,
    texts: &[String],
    answered: usize,
) {
    let found = found_in(rt, alloc, files);
    let is_before = is_text_after(texts, answered, found.as_str());
    let is_behind = is_text_after(texts, answered.saturating_add(1), found.as_str());
    assert!(rt; is_before || is_behind, "behind {answered}: {found}");
}

/// Whether this is the text after so many answers.
fn is_text_after(texts: &[String], answered: usize, found: &str) -> bool {
    match texts.get(answered) {
        Some(text) => text.as_str() == found,
        None => false,
    }
}

/// What an opening finds in these files.
fn found_in<D: Disk + Drop>(rt: &impl Abort, alloc: Global, files: Files<D>) -> String {
    found(rt, alloc, usable(rt, alloc, files))
}

/// How many of these commands are answered where so many calls pass; none, where no office is
/// opened. The new desk has to be as it was.
pub fn answered_by(
    rt: &impl Abort,
    alloc: Global,
    before: &Files<Fuse<Memory>>,
    commands: &[(u64, Command)],
    calls: Calls,
) -> Option<usize> {
    let run = Run {
        before,
        frames: FRAMES,
        is_new: false,
        is_list: false,
        commands,
        texts: &[],
    };
    let left = left(rt, alloc, copied(rt, alloc, before, calls), &run);
    is_as_it_was(rt, alloc, &left.files);
    left.answered
}

/// Wants the new desk in these files to be as it was.
pub fn is_as_it_was(rt: &impl Abort, alloc: Global, files: &Files<Fuse<Memory>>) {
    let found = found_in(rt, alloc, copied(rt, alloc, files, ALL));
    let new = text_behind(alloc, &[]).expect(rt, "a new desk");
    same(rt, found.as_str(), new.as_str());
}

/// The files of a new desk that takes these commands. Its log is copied into the file, so that an
/// opening makes few calls on it.
pub fn made(rt: &impl Abort, alloc: Global, commands: &[(u64, Command)]) -> Files<Fuse<Memory>> {
    let run = Run {
        before: &empty(alloc, ALL),
        frames: FRAMES,
        is_new: true,
        is_list: true,
        commands,
        texts: &[],
    };
    left(rt, alloc, empty(alloc, ALL), &run).files
}

/// What the run leaves in these files.
fn left<D: Disk + Drop>(
    rt: &impl Abort,
    alloc: Global,
    files: Files<D>,
    run: &Run<'_>,
) -> Ended<D> {
    match database(alloc, files, run.frames) {
        Ok(conn) => {
            let (conn, answered) = behind(rt, alloc, conn, run);
            let (files, is_whole) = closed(conn);
            Ended {
                files,
                answered,
                is_whole,
            }
        }
        Err(NoDatabase { fault, files }) => {
            is_fault(rt, fault, Fault::Store);
            Ended {
                files,
                answered: None,
                is_whole: false,
            }
        }
    }
}

/// The database after what was asked, and how much of it was answered; none, where no office was
/// opened.
fn behind<S: Alter + Drop>(
    rt: &impl Abort,
    alloc: Global,
    conn: Connection<S>,
    run: &Run<'_>,
) -> (Connection<S>, Option<usize>) {
    match opening(alloc, conn, run.is_new) {
        Ok(mut office) => {
            let answered = answered(rt, alloc, &mut office, run);
            (close(office), Some(answered))
        }
        Err(NotOpened { conn, fault }) => {
            is_fault(rt, fault, Fault::Store);
            (conn, None)
        }
    }
}

/// The office in this database, which gets a new desk where it is to.
fn opening<S: Alter>(
    alloc: Global,
    conn: Connection<S>,
    is_new: bool,
) -> Result<Office<S>, NotOpened<S>> {
    if is_new {
        create(alloc, conn)
    } else {
        open(alloc, conn)
    }
}

/// How much is answered of what is asked, with the new desk.
fn answered<S: Alter>(
    rt: &impl Abort,
    alloc: Global,
    office: &mut Office<S>,
    run: &Run<'_>,
) -> usize {
    let answered = if run.is_list {
        answered_as_list(rt, alloc, office, run.commands)
    } else {
        answered_one_by_one(rt, alloc, office, run.commands)
    };
    answered.saturating_add(usize::from(run.is_new))
}

fn answered_one_by_one<S: Alter>(
    rt: &impl Abort,
    alloc: Global,
    office: &mut Office<S>,
    commands: &[(u64, Command)],
) -> usize {
    for (count, (at, command)) in commands.iter().enumerate() {
        if let Err(ActFault::Fault(fault)) = act(alloc, office, *at, command) {
            is_closed(rt, alloc, office, fault);
            return count;
        }
    }
    commands.len()
}

fn answered_as_list<S: Alter>(
    rt: &impl Abort,
    alloc: Global,
    office: &mut Office<S>,
    commands: &[(u64, Command)],
) -> usize {
    match run(alloc, office, commands) {
        Ok(answers) => answers.len(),
        Err(Stopped { answers, fault }) => {
            is_closed(rt, alloc, office, fault);
            answers.len()
        }
    }
}

/// Wants the fault to be that of the database, and each call to say then that the office is closed.
/// The office remembers this fault, after these calls too.
fn is_closed<S: Alter>(rt: &impl Abort, alloc: Global, office: &mut Office<S>, fault: Fault) {
    assert!(rt; fault == Fault::Store && office.is_closed());
    puts_alice(rt, alloc, office, NEW_YEAR, "closed by an earlier fault");
    shows_nothing(rt, alloc, office);
    runs_nothing(rt, alloc, office);
    assert!(rt; office.closed_by() == Some(fault));
}

/// Wants no sheet to be shown by a closed office.
fn shows_nothing<S: Alter>(rt: &impl Abort, alloc: Global, office: &Office<S>) {
    let fault = sheet(alloc, office, Kind::Roll).expect_err(rt, "a sheet");
    assert!(rt; fault == SheetFault::Fault(Fault::Closed));
}

/// Wants no command of a list to be answered by a closed office.
fn runs_nothing<S: Alter>(rt: &impl Abort, alloc: Global, office: &mut Office<S>) {
    let alice = developers(alloc, &[(NEW_YEAR, "alice")]).expect(rt, "memory");
    let stopped = run(alloc, office, alice.as_slice()).expect_err(rt, "an answer");
    assert!(rt; stopped.fault == Fault::Closed && stopped.answers.is_empty());
}
