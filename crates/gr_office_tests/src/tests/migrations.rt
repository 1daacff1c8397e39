//! A desk of version 1, that of the script after its fifteenth command: no office opens over it,
//! and a migration upgrades it to this version. The migration is stopped at each call on the log in
//! turn, and then at each call on the file, as in `stops.rt`.
use super::commands::{COMMANDS, commands, script};
use super::disks::{
    ALL, Calls, FEW, FRAMES, MANY, NoDatabase, calls_on, closed, copied, cut, database, empty,
};
use super::office::{close, migrate, open};
use super::script::{answers, has_the_script};
use super::statements::{execute, in_memory};
use super::stops::says_stops;
use super::texts::{text_and_database, text_behind, text_of};
use super::{is_fault, opened, same};
use gr_core::Command;
use gr_office::{Fault, NotOpened, Office};
use sqlite::{Alter, Connection, Error, Files};
use sqlite_disk::{Disk, Fuse, Memory};
use std::alloc::Global;
use std::process::Abort;
use std::test::Fail;

/// The tables that both versions have, and their rows after the fifteenth command but for that of
/// `desk`, written by hand.
const SHARED: &str = "
CREATE TABLE desk (id INTEGER PRIMARY KEY, version INTEGER NOT NULL,
  accepted INTEGER NOT NULL, clock INTEGER NOT NULL) STRICT;
CREATE TABLE developer (login TEXT PRIMARY KEY NOT NULL, name TEXT NOT NULL,
  active INTEGER NOT NULL) STRICT;
CREATE TABLE resolution (number INTEGER PRIMARY KEY, stage INTEGER NOT NULL,
  start INTEGER NOT NULL, changed INTEGER NOT NULL, shift INTEGER NOT NULL,
  called INTEGER NOT NULL, days INTEGER NOT NULL, devs INTEGER NOT NULL,
  chosen INTEGER NOT NULL) STRICT;
CREATE TABLE choice (resolution INTEGER NOT NULL, number INTEGER NOT NULL,
  kind INTEGER NOT NULL, proposer TEXT NOT NULL, summary TEXT NOT NULL,
  body TEXT NOT NULL, ratio INTEGER NOT NULL, introduced INTEGER NOT NULL,
  short INTEGER NOT NULL, place INTEGER NOT NULL,
  PRIMARY KEY (resolution, number)) STRICT;
CREATE TABLE sponsor (resolution INTEGER NOT NULL, choice INTEGER NOT NULL,
  login TEXT NOT NULL, active INTEGER NOT NULL,
  PRIMARY KEY (resolution, choice, login)) STRICT;
INSERT INTO developer VALUES ('d1', 'One', 1), ('d2', 'Two', 1), ('d3', 'Three', 1),
  ('d4', 'Four', 1);
INSERT INTO resolution VALUES (1, 2, 1767225600, 1767225600, 0, 1768435200, 7, 4, 0);
INSERT INTO choice VALUES (1, 1, 1, 'd1', 'Red', 'new', 1, 1767225600, 0, 1),
  (1, 2, 3, '', 'Green', 'b', 1, 1767225600, 0, 2);
INSERT INTO sponsor VALUES (1, 1, 'd2', 1);";

/// What version 1 has beside them. The receipts are those that `sha256sum` gives.
const VERSION_1: &str = "
CREATE TABLE ballot (resolution INTEGER NOT NULL, login TEXT NOT NULL,
  ranks TEXT NOT NULL, receipt TEXT NOT NULL,
  PRIMARY KEY (resolution, login)) STRICT;
INSERT INTO desk VALUES (1, 1, 15, 1768435200);
INSERT INTO ballot VALUES
  (1, 'd1', '113', '900eb73ab7e42d7eb72f6524157a5dfa609a0f27b79f9c9ac235cd6931258b07'),
  (1, 'd2', '113', '921e9e589da0a2af233149c221978bdcc2592cd63c52284e55c350b0aac3bdfa'),
  (1, 'd3', '131', '6a9b7694f79df615db603850c8b0a240eb63a6beac4badef0a0d1abdf76d5d46');";

/// What this version has beside them after a migration: one vote was received of each ballot.
const LIFTED: &str = "
CREATE TABLE ballot2 (resolution INTEGER NOT NULL, login TEXT NOT NULL,
  ranks TEXT NOT NULL, receipt TEXT NOT NULL, received INTEGER NOT NULL,
  PRIMARY KEY (resolution, login)) STRICT;
INSERT INTO desk VALUES (1, 2, 15, 1768435200);
INSERT INTO ballot2 VALUES
  (1, 'd1', '113', '900eb73ab7e42d7eb72f6524157a5dfa609a0f27b79f9c9ac235cd6931258b07', 1),
  (1, 'd2', '113', '921e9e589da0a2af233149c221978bdcc2592cd63c52284e55c350b0aac3bdfa', 1),
  (1, 'd3', '131', '6a9b7694f79df615db603850c8b0a240eb63a6beac4badef0a0d1abdf76d5d46', 1);";

/// The first of the commands of the script that come after it, and what they are answered.
const NEXT: u32 = 16;

const LAST_ANSWERS: &str = "\
16 0bc67ed616cd49fd22e8558b7970e6c7cb8c03787029353c747f230a0db7d208
17 Done
18 Done
";

/// A migration that is to be stopped, and what has to be found after it.
#[derive(Clone, Copy)]
struct Run<'a> {
    before: &'a Files<Fuse<Memory>>,

    /// How many frames the log gets before it is copied into the file.
    frames: usize,

    wanted: Wanted<'a>,
}

/// The texts that a desk that was migrated is to have.
#[derive(Clone, Copy)]
struct Wanted<'a> {
    migrated: &'a str,

    /// The last commands of the script, and the text that it is to have after them.
    last: &'a [(u64, Command)],
    ended: &'a str,
}

/// What is done with the database in some files, between its opening and its close. One function
/// does each of them there, since a call over any store has a long proof where the files are its.
#[derive(Clone, Copy)]
enum Step<'a> {
    /// It gets that desk of version 1.
    Make,

    /// It is migrated, which may be stopped.
    Migrate,

    /// Its desk, which has to be there, goes on in this version.
    GoOn(Wanted<'a>),
}

/// How a step ended.
#[derive(Drop)]
struct Ended<D: Disk> {
    files: Files<D>,

    /// Whether a migration gave an office, or whether the desk that went on was of the old version;
    /// none, where no database was opened.
    answer: Option<bool>,

    /// Whether the close copied the log into the file.
    is_copied: bool,
}

impl<D: Disk> Ended<D> {
    /// Whether the migration gave an office.
    fn is_answered(&self) -> bool {
        self.answer == Some(true)
    }
}

#[test]
fn a_desk_of_version_1_is_migrated(rt: HostRuntime) {
    let alloc = rt.alloc();
    let migrated = lifted_in_memory(&rt, alloc);
    is_migrated(
        &rt,
        alloc,
        in_memory(alloc).expect(&rt, "memory"),
        migrated.as_str(),
    );
    is_migrated_again(
        &rt,
        alloc,
        in_memory(alloc).expect(&rt, "memory"),
        migrated.as_str(),
    );
}

/// Wants a desk of version 1 to be too old for an opening, to be this one after a migration, and
/// to take the rest of the script.
fn is_migrated<S: Alter + Drop>(
    rt: &impl Abort,
    alloc: Global,
    conn: Connection<S>,
    migrated: &str,
) {
    let last = commands(alloc, NEXT, COMMANDS).expect(rt, "memory");
    let conn = desk_of_version_1(conn).expect(rt, "a desk of version 1");
    let (office, is_old) = upgraded(alloc, conn).expect(rt, "a desk");
    assert!(rt; is_old);
    let conn = tells(rt, alloc, office, migrated);
    has_the_script(rt, alloc, finished(rt, alloc, conn, last.as_slice()));
}

/// Wants the desk to have this text. The database that it is kept in.
fn tells<S: Alter + Drop>(
    rt: &impl Abort,
    alloc: Global,
    office: Office<S>,
    wanted: &str,
) -> Connection<S> {
    let (found, conn) = text_and_database(alloc, office).expect(rt, "a desk");
    same(rt, found.as_str(), wanted);
    conn
}

/// The office that an opening finds, after the last commands of the script.
fn finished<S: Alter + Drop>(
    rt: &impl Abort,
    alloc: Global,
    conn: Connection<S>,
    last: &[(u64, Command)],
) -> Office<S> {
    let mut office = opened(alloc, conn).expect(rt, "a desk");
    answers(rt, alloc, &mut office, last, LAST_ANSWERS);
    office
}

/// Wants a second migration to leave it as it is.
fn is_migrated_again<S: Alter + Drop>(
    rt: &impl Abort,
    alloc: Global,
    conn: Connection<S>,
    migrated: &str,
) {
    let conn = desk_of_version_1(conn).expect(rt, "a desk of version 1");
    let office = migrated_from(alloc, conn).expect(rt, "a desk");
    let office = migrated_from(alloc, close(office)).expect(rt, "the same desk");
    tells(rt, alloc, office, migrated);
}

#[test]
fn a_stop_in_a_migration_leaves_either_version(rt: HostRuntime) -> Result<(), Fail> {
    let alloc = rt.alloc();
    says_stops(&rt, stop_migration(&rt, alloc, FRAMES))?;
    says_stops(&rt, stop_migration(&rt, alloc, FEW))
}

/// Stops a migration at each call on the log in turn, and then at each call on the file. How often
/// it was stopped.
fn stop_migration(rt: &impl Abort, alloc: Global, frames: usize) -> u64 {
    let migrated = lifted_in_memory(rt, alloc);
    let script = script(alloc).expect(rt, "memory");
    let ended = text_behind(alloc, script.as_slice()).expect(rt, "a desk");
    let last = commands(alloc, NEXT, COMMANDS).expect(rt, "memory");
    let wanted = Wanted {
        migrated: migrated.as_str(),
        last: last.as_slice(),
        ended: ended.as_str(),
    };
    let run = Run {
        before: &made(rt, alloc),
        frames,
        wanted,
    };
    let log = stop_each_call_on(rt, alloc, &run, true);
    let db = stop_each_call_on(rt, alloc, &run, false);
    log.saturating_add(db)
}

/// Stops it at each call on the log, or on the file. Each version has to be found after some stop
/// on the log.
fn stop_each_call_on(rt: &impl Abort, alloc: Global, run: &Run<'_>, is_log: bool) -> u64 {
    let mut old = 0u64;
    for calls in 0..MANY {
        let (is_old, is_whole) = stop(rt, alloc, run, calls_on(is_log, calls));
        old = old.saturating_add(u64::from(is_old));
        if is_whole {
            assert!(rt; !is_old);
            assert!(rt; !is_log || (old > 0 && old < calls), "{old} of {calls}");
            return calls;
        }
    }
    panic!(rt; "a stop at each call")
}

/// Stops it after so many calls. Whether the desk is of the old version after a cut of the power,
/// and whether nothing stopped the migration.
fn stop(rt: &impl Abort, alloc: Global, run: &Run<'_>, calls: Calls) -> (bool, bool) {
    let files = copied(rt, alloc, run.before, calls);
    let left = left(rt, alloc, files, run.frames, Step::Migrate);
    let (is_answered, is_copied) = (left.is_answered(), left.is_copied);
    let kept = copied(rt, alloc, &left.files, ALL);
    let is_old = goes_on_in(rt, alloc, kept, run.wanted);
    assert!(rt; !(is_answered && is_old));
    let is_old = goes_on_in(rt, alloc, cut(left.files), run.wanted);
    assert!(rt; !(is_answered && is_old));
    (is_old, is_answered && is_copied)
}

/// Wants the desk in these files to go on in this version. Whether it was of the old one.
fn goes_on_in<D: Disk + Drop>(
    rt: &impl Abort,
    alloc: Global,
    files: Files<D>,
    wanted: Wanted<'_>,
) -> bool {
    let left = left(rt, alloc, files, FRAMES, Step::GoOn(wanted));
    left.answer.expect(rt, "a database")
}

/// Wants the desk to go on in this version. The database, and whether it was of the old one.
fn goes_on<S: Alter + Drop>(
    rt: &impl Abort,
    alloc: Global,
    conn: Connection<S>,
    wanted: Wanted<'_>,
) -> (Connection<S>, bool) {
    let (office, is_old) = upgraded(alloc, conn).expect(rt, "a desk");
    let conn = tells(rt, alloc, office, wanted.migrated);
    let office = finished(rt, alloc, conn, wanted.last);
    (tells(rt, alloc, office, wanted.ended), is_old)
}

/// The office that an opening finds; or a migration, where the desk is too old for an opening. And
/// whether it was.
pub fn upgraded<S: Alter + Drop>(
    alloc: Global,
    conn: Connection<S>,
) -> Result<(Office<S>, bool), Fault> {
    match open(alloc, conn) {
        Ok(office) => Ok((office, false)),
        Err(
            NotOpened {
                conn,
                fault: Fault::TooOld,
            },
        ) => Ok((migrated_from(alloc, conn)?, true)),
        Err(NotOpened { fault, .. }) => Err(fault),
    }
}

/// The office that a migration gives.
fn migrated_from<S: Alter + Drop>(alloc: Global, conn: Connection<S>) -> Result<Office<S>, Fault> {
    match migrate(alloc, conn) {
        Ok(office) => Ok(office),
        Err(NotOpened { fault, .. }) => Err(fault),
    }
}

/// The database with that desk of version 1.
pub fn desk_of_version_1<S: Alter + Drop>(conn: Connection<S>) -> Result<Connection<S>, Error> {
    let mut conn = conn;
    execute(&mut conn, &[SHARED, VERSION_1])?;
    Ok(conn)
}

/// The text of that desk in this version.
pub fn lifted<S: Alter + Drop>(alloc: Global, conn: Connection<S>) -> Result<String, Fault> {
    let mut conn = conn;
    execute(&mut conn, &[SHARED, LIFTED])?;
    text_of(alloc, opened(alloc, conn)?)
}

fn lifted_in_memory(rt: &impl Abort, alloc: Global) -> String {
    let conn = in_memory(alloc).expect(rt, "memory");
    lifted(alloc, conn).expect(rt, "a desk")
}

/// The files of that desk of version 1. The log is copied into the file, so that an opening makes
/// few calls on it.
fn made(rt: &impl Abort, alloc: Global) -> Files<Fuse<Memory>> {
    let left = left(rt, alloc, empty(alloc, ALL), FRAMES, Step::Make);
    assert!(rt; left.answer.is_some());
    left.files
}

/// What a step leaves in these files.
fn left<D: Disk + Drop>(
    rt: &impl Abort,
    alloc: Global,
    files: Files<D>,
    frames: usize,
    step: Step<'_>,
) -> Ended<D> {
    match database(alloc, files, frames) {
        Ok(conn) => {
            let (conn, answer) = behind(rt, alloc, conn, step);
            let (files, is_copied) = closed(conn);
            Ended {
                files,
                answer: Some(answer),
                is_copied,
            }
        }
        Err(NoDatabase { fault, files }) => {
            is_fault(rt, fault, Fault::Store);
            Ended {
                files,
                answer: None,
                is_copied: false,
            }
        }
    }
}

/// The database after a step, and its answer.
fn behind<S: Alter + Drop>(
    rt: &impl Abort,
    alloc: Global,
    conn: Connection<S>,
    step: Step<'_>,
) -> (Connection<S>, bool) {
    match step {
        Step::Make => (
            desk_of_version_1(conn).expect(rt, "a desk of version 1"),
            false,
        ),
        Step::Migrate => migrated(rt, alloc, conn),
        Step::GoOn(wanted) => goes_on(rt, alloc, conn, wanted),
    }
}

/// The database after a migration, and whether it gave an office.
fn migrated<S: Alter + Drop>(
    rt: &impl Abort,
    alloc: Global,
    conn: Connection<S>,
) -> (Connection<S>, bool) {
    match migrate(alloc, conn) {
        Ok(office) => (close(office), true),
        Err(NotOpened { conn, fault }) => {
            is_fault(rt, fault, Fault::Store);
            (conn, false)
        }
    }
}
