//! A stop over disks in memory or over files, and what is found after it: the headline, applied.
use super::{NEW_YEAR, is_made, remove, same};
use gr_core::{Command, DAY, Proposer, Standing, Wording};
use gr_desk::file::open_file;
use gr_desk::no_office::NoOffice;
use gr_desk::restart::{
    any_disks_hold_a_prefix, crashed_disks_hold_a_prefix, restarted_disks_hold_a_prefix,
};
use gr_office::{Fault, Kind, Office};
use sqlite::{Connection, FileFrom, FileStore, Files, Options, Unknown};
use sqlite_disk::{Crash, Disk, Fuse, Memory};
use sqlite_trees::store::Alter;
use std::alloc::{AllocError, Global};
use std::process::Abort;

/// When the vote is called, and when it is closed.
const CALLED: u64 = NEW_YEAR + 14 * DAY;

const CLOSED: u64 = CALLED + 7 * DAY;

/// So many calls of the log are more than the script makes with an act after it.
const CALLS: u64 = 150;

/// The logins of the developers. All but the last of them vote.
const LOGINS: [&str; 4] = ["d1", "d2", "d3", "d4"];

/// The votes: a login, and its token.
const VOTES: [(&str, &str); 3] = [("d1", "tokenA01"), ("d2", "tokenA02"), ("d3", "tokenA03")];

/// The tally of the votes, written by hand. The receipts are those that `sha256sum` gives.
const TALLY: &str = "\
Tally of resolution 1
Option 1: Red
Option 2: None of the above
Ballots: 3
V: 12 6a9b7694f79df615db603850c8b0a240eb63a6beac4badef0a0d1abdf76d5d46
V: 12 900eb73ab7e42d7eb72f6524157a5dfa609a0f27b79f9c9ac235cd6931258b07
V: 12 921e9e589da0a2af233149c221978bdcc2592cd63c52284e55c350b0aac3bdfa
";

/// And their result.
const RESULT: &str = "\
Result of resolution 1
Voting: 2026-01-15T00:00:00Z to 2026-01-22T00:00:00Z
Developers: 4
Ballots: 3
Received: 3
Option 1: Red
Option 2: None of the above
Test 1: above 3, below 0, ratio 1, quorum met, majority met, kept
Pair 1 2: 3 0
Schwartz: 1
Winner: 1
";

/// What happened where no desk is found.
fn fault_of<D: Disk + Drop>(no_office: NoOffice<D>) -> Fault {
    no_office.fault()
}

/// An office with a new desk over two empty disks.
fn made(alloc: Global) -> Result<Office<FileStore<Memory>>, Fault> {
    let files = Files {
        log: Memory::new(alloc),
        db: Memory::new(alloc),
    };
    made_over(alloc, files)
}

/// An office with a new desk over empty files.
fn made_over<D: Disk + Drop>(
    alloc: Global,
    files: Files<D>,
) -> Result<Office<FileStore<D>>, Fault> {
    if !files.may_be_used() {
        return Err(Fault::Store);
    }
    let Ok(conn) = Connection::open_files(alloc, files, Options::new(7)) else {
        return Err(Fault::Store);
    };
    match Office::create(alloc, conn) {
        Ok(office) => Ok(office),
        Err(refused) => Err(refused.fault),
    }
}

/// The text, in a function with no clause.
fn string(alloc: Global, text: &str) -> Result<String, AllocError> {
    String::from_str(alloc, text)
}

/// The commands from the first developer to the last vote, each with its moment.
fn script(alloc: Global) -> Result<Vec<(u64, Command)>, AllocError> {
    let mut commands = Vec::new(alloc);
    for login in &LOGINS {
        commands.push((NEW_YEAR, developer(alloc, login)?))?;
    }
    commands.push((NEW_YEAR, proposal(alloc)?))?;
    commands.push((CALLED, call()))?;
    for (login, token) in &VOTES {
        commands.push((CALLED, vote(alloc, login, token)?))?;
    }
    Ok(commands)
}

/// Puts a current developer on the roll.
fn developer(alloc: Global, login: &str) -> Result<Command, AllocError> {
    Ok(Command::SetDeveloper {
        login: string(alloc, login)?,
        name: string(alloc, "A Name")?,
        standing: Standing::Current,
    })
}

/// Makes the resolution.
fn proposal(alloc: Global) -> Result<Command, AllocError> {
    Ok(Command::Propose {
        proposer: Proposer::Leader,
        wording: Wording {
            summary: string(alloc, "Red")?,
            text: string(alloc, "a")?,
        },
        ratio: 1,
    })
}

/// Calls its vote.
fn call() -> Command {
    Command::Call {
        resolution: 1,
        days: 7,
    }
}

/// Votes for the choice, with this token.
fn vote(alloc: Global, login: &str, token: &str) -> Result<Command, AllocError> {
    Ok(Command::Vote {
        resolution: 1,
        login: string(alloc, login)?,
        ranks: string(alloc, "12")?,
        token: string(alloc, token)?,
    })
}

/// Wants the office to accept the whole script.
fn takes_the_script<S: Alter>(
    rt: &impl Abort,
    alloc: Global,
    office: &mut Office<S>,
) -> Result<(), Fault> {
    let commands = script(alloc)?;
    let Ok(answers) = office.run(alloc, commands.as_slice()) else {
        return Err(Fault::Closed);
    };
    same(rt, answers.len(), 9, "the answers");
    let are_ok = answers.iter().all(|answer| answer.is_ok());
    same(rt, are_ok, true, "the answers");
    Ok(())
}

/// Wants the office to close the vote, and to show what it says then.
fn closes_the_vote<S: Alter>(rt: &impl Abort, alloc: Global, office: &mut Office<S>) {
    let close = Command::Close { resolution: 1 };
    let is_done = office.act(alloc, CLOSED, &close).is_ok();
    same(rt, is_done, true, "the close");
    shows(rt, alloc, office, Kind::Tally, TALLY);
    shows(rt, alloc, office, Kind::Result, RESULT);
}

/// Wants the sheet of this kind to have this text.
fn shows<S: Alter>(rt: &impl Abort, alloc: Global, office: &Office<S>, kind: Kind, wanted: &str) {
    match office.sheet(alloc, kind, 1) {
        Ok(text) => same(rt, text.as_str(), wanted, kind),
        Err(_) => same(rt, "no sheet", wanted, kind),
    }
}

/// The office is stopped in the midst of a vote, and the desk that is found has the ballots.
fn finds_the_vote(rt: &impl Abort, alloc: Global) -> Result<(), Fault> {
    let mut office = made(alloc)?;
    takes_the_script(rt, alloc, &mut office)?;
    let found = restarted_disks_hold_a_prefix(alloc, office, Options::new(7));
    let mut found = found.map_err(fault_of)?;
    closes_the_vote(rt, alloc, &mut found);
    Ok(())
}

/// So it is over the files of a name, with which an office has a new desk.
fn finds_the_vote_in_files(
    rt: &impl Abort,
    alloc: Global,
    office: Office<FileStore<FileFrom<Unknown>>>,
) -> Result<(), Fault> {
    let mut office = office;
    takes_the_script(rt, alloc, &mut office)?;
    let found = any_disks_hold_a_prefix(alloc, office, Options::new(7));
    let mut found = found.map_err(fault_of)?;
    closes_the_vote(rt, alloc, &mut found);
    Ok(())
}

/// The power fails after an act that follows the script, and the desk that is found has the
/// ballots. Whether the disk had failed in that act; none where it had before.
fn failed_before_a_cut<D: Crash + Drop>(
    rt: &impl Abort,
    alloc: Global,
    files: Files<D>,
) -> Option<bool> {
    let mut office = made_over(alloc, files).ok()?;
    let commands = script(alloc).ok()?;
    office.run(alloc, commands.as_slice()).ok()?;
    let act = developer(alloc, "d5").ok()?;
    let has_failed = office.act(alloc, CALLED, &act).is_err();
    let mut found = crashed_disks_hold_a_prefix(alloc, office, Options::new(7)).ok()?;
    closes_the_vote(rt, alloc, &mut found);
    Some(has_failed)
}

/// The log fails for good at each of its calls in turn.
#[test]
fn a_vote_is_found_behind_a_cut_of_the_power(rt: HostRuntime) {
    let mut has_failed = false;
    let mut was_whole = false;
    for calls in 0..CALLS {
        let files = Files {
            log: Fuse::new(Memory::new(rt.alloc()), calls),
            db: Fuse::new(Memory::new(rt.alloc()), u64::MAX),
        };
        match failed_before_a_cut(&rt, rt.alloc(), files) {
            Some(true) => has_failed = true,
            Some(false) => was_whole = true,
            None => {}
        }
    }
    same(&rt, has_failed, true, "acts in which the disk failed");
    same(&rt, was_whole, true, "acts behind which the power failed");
}

#[test]
fn a_vote_is_found_behind_a_stop(rt: HostRuntime) {
    let is_found = finds_the_vote(&rt, rt.alloc()).is_ok();
    same(&rt, is_found, true, "the restart");
}

#[test]
fn a_vote_is_found_in_files_behind_a_stop(rt: HostRuntime) {
    remove(&rt, "restarted.db", "restarted.db-wal");
    same(
        &rt,
        is_made(&rt, "restarted.db", Unknown),
        true,
        "restarted.db",
    );
    let Ok(office) = open_file(&rt, "restarted.db", Unknown) else {
        panic!(rt; "no office");
    };
    let is_found = finds_the_vote_in_files(&rt, rt.alloc(), office).is_ok();
    same(&rt, is_found, true, "the restart");
}
