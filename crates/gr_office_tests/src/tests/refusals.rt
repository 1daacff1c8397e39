//! A command that is refused makes no call: it is answered, too, where the disk lets just the calls
//! of an opening pass.
use super::commands::{NEW_YEAR, developers};
use super::disks::{Calls, MANY, calls_on, closed, copied, usable};
use super::office::close;
use super::stops::{answered_by, is_as_it_was, made};
use super::{opened, puts_alice};
use sqlite::{Alter, Connection, Files};
use sqlite_disk::{Fuse, Memory};
use std::alloc::Global;
use std::process::Abort;

/// A command is refused for its moment then, and one that would be accepted is not answered.
#[test]
fn a_refused_command_makes_no_call(rt: HostRuntime) {
    let alloc = rt.alloc();
    let before = made(&rt, alloc, &[]);
    let calls = Calls {
        log: calls_of_an_opening(&rt, alloc, &before, true),
        db: calls_of_an_opening(&rt, alloc, &before, false),
    };
    refuses_the_moment(&rt, alloc, copied(&rt, alloc, &before, calls));
    answers_none(&rt, alloc, &before, calls);
}

/// Wants a command that would be accepted not to be answered where so many calls pass.
fn answers_none(rt: &impl Abort, alloc: Global, before: &Files<Fuse<Memory>>, calls: Calls) {
    let accepted = developers(alloc, &[(NEW_YEAR, "alice")]).expect(rt, "memory");
    let answered = answered_by(rt, alloc, before, accepted.as_slice(), calls);
    assert!(rt; answered == Some(0));
}

/// The fewest calls on the log or the file by which an office is opened.
fn calls_of_an_opening(
    rt: &impl Abort,
    alloc: Global,
    before: &Files<Fuse<Memory>>,
    is_log: bool,
) -> u64 {
    for calls in 0..MANY {
        let answered = answered_by(rt, alloc, before, &[], calls_on(is_log, calls));
        if answered.is_some() {
            return calls;
        }
    }
    panic!(rt; "no office")
}

/// Wants an office over these files to refuse a command for its moment, and the new desk to be as
/// it was.
fn refuses_the_moment(rt: &impl Abort, alloc: Global, files: Files<Fuse<Memory>>) {
    let conn = refused(rt, alloc, usable(rt, alloc, files));
    is_as_it_was(rt, alloc, &closed(conn).0);
}

/// The database of an office that refuses a command for its moment.
fn refused<S: Alter + Drop>(rt: &impl Abort, alloc: Global, conn: Connection<S>) -> Connection<S> {
    let mut office = opened(alloc, conn).expect(rt, "a desk");
    puts_alice(rt, alloc, &mut office, 0, "BadMoment");
    close(office)
}
