//! Offices that are refused memory. Each of these tests bears one want of it, and says what became
//! of the office. `tests/program/test_refused_office.py` refuses each of them its allocations in
//! turn.
//!
//! A test says `asked` before it asks the office, and `answered` after that: running out of memory
//! before or after these is not the office's. What it says between them is what it found: that
//! nothing was opened; that the office was open, or closed, and then that the database had the desk
//! before the command, or after it; or that nothing was migrated, and then of which version the
//! desk was. A test that cannot go on still ends by an `Err` here, since running out of memory is
//! what is looked at.
use super::commands::{first, rest, script};
use super::migrations::{desk_of_version_1, lifted, upgraded};
use super::office::{act, behind, close, migrate, open, run};
use super::statements::in_memory;
use super::texts::{text_and_database, text_behind, text_of};
use super::{created, opened, reopened};
use gr_core::Command;
use gr_office::{ActFault, Fault, NotOpened, Office, Stopped};
use sqlite::{Alter, Connection};
use std::alloc::Global;
use std::test::Fail;

/// What an office is asked while memory may be wanting.
#[derive(Clone, Copy)]
enum Asked {
    /// To be opened again, after all commands.
    Opening,

    /// The commands one by one.
    Acts,

    /// The commands as one list.
    List,
}

#[test]
fn an_opening_bears_a_want_of_memory(rt: HostRuntime) -> Result<(), Fail> {
    takes_the_script(&rt, rt.alloc(), Asked::Opening)
}

#[test]
fn acts_bear_a_want_of_memory(rt: HostRuntime) -> Result<(), Fail> {
    takes_the_script(&rt, rt.alloc(), Asked::Acts)
}

#[test]
fn a_list_bears_a_want_of_memory(rt: HostRuntime) -> Result<(), Fail> {
    takes_the_script(&rt, rt.alloc(), Asked::List)
}

fn takes_the_script(rt: &HostRuntime, alloc: Global, asked: Asked) -> Result<(), Fail> {
    let commands = script(alloc)?;
    takes(rt, alloc, in_memory(alloc)?, commands.as_slice(), asked)
}

#[test]
fn a_migration_bears_a_want_of_memory(rt: HostRuntime) -> Result<(), Fail> {
    let alloc = rt.alloc();
    let wanted = lifted(alloc, in_memory(alloc)?)?;
    migrates(&rt, alloc, in_memory(alloc)?, wanted.as_str())
}

/// Says what has come, or what was found.
fn says(rt: &HostRuntime, word: &str) -> Result<(), Fail> {
    print!(rt; "{word} ")?;
    Ok(())
}

/// Wants a desk of version 1 to be this one after a migration; and after a second one, where
/// memory runs out and it is still of that version.
fn migrates<S: Alter + Drop>(
    rt: &HostRuntime,
    alloc: Global,
    conn: Connection<S>,
    wanted: &str,
) -> Result<(), Fail> {
    let conn = desk_of_version_1(conn)?;
    says(rt, "asked")?;
    let office = migrated(rt, alloc, conn)?;
    let found = text_at_last(rt, alloc, office)?;
    if found.as_str() == wanted {
        Ok(())
    } else {
        Err("another desk".into())
    }
}

/// The office that a migration gives; or a second one, where memory runs out.
fn migrated<S: Alter + Drop>(
    rt: &HostRuntime,
    alloc: Global,
    conn: Connection<S>,
) -> Result<Office<S>, Fail> {
    match migrate(alloc, conn) {
        Ok(office) => Ok(office),
        Err(NotOpened { conn, fault }) => {
            wants_memory(ActFault::Fault(fault))?;
            migrates_again(rt, alloc, conn)
        }
    }
}

/// The office with the desk in this version. The word for the version that it was found in.
fn migrates_again<S: Alter + Drop>(
    rt: &HostRuntime,
    alloc: Global,
    conn: Connection<S>,
) -> Result<Office<S>, Fail> {
    let (office, is_old) = upgraded(alloc, conn)?;
    says_version(rt, is_old)?;
    Ok(office)
}

fn says_version(rt: &HostRuntime, is_old: bool) -> Result<(), Fail> {
    if is_old {
        says(rt, "not-migrated-old")
    } else {
        says(rt, "not-migrated-new")
    }
}

/// The text of the desk of the office, once it has answered.
fn text_at_last<S: Alter + Drop>(
    rt: &HostRuntime,
    alloc: Global,
    office: Office<S>,
) -> Result<String, Fail> {
    says(rt, "answered")?;
    Ok(text_of(alloc, office)?)
}

/// Wants a new office to have the desk after these commands, once it was asked.
fn takes<S: Alter + Drop>(
    rt: &HostRuntime,
    alloc: Global,
    conn: Connection<S>,
    commands: &[(u64, Command)],
    asked: Asked,
) -> Result<(), Fail> {
    let office = answering(rt, alloc, conn, commands, asked)?;
    let found = text_at_last(rt, alloc, office)?;
    count_behind(alloc, found.as_str(), commands, commands.len())?;
    Ok(())
}

/// A new office, once it was asked.
fn answering<S: Alter + Drop>(
    rt: &HostRuntime,
    alloc: Global,
    conn: Connection<S>,
    commands: &[(u64, Command)],
    asked: Asked,
) -> Result<Office<S>, Fail> {
    match asked {
        Asked::Opening => opens_again(rt, alloc, conn, commands),
        Asked::Acts => acts(rt, alloc, new(rt, alloc, conn)?, commands),
        Asked::List => bears(rt, alloc, new(rt, alloc, conn)?, commands, true),
    }
}

/// A new office that is to be asked now.
fn new<S: Alter + Drop>(
    rt: &HostRuntime,
    alloc: Global,
    conn: Connection<S>,
) -> Result<Office<S>, Fail> {
    let office = created(alloc, conn)?;
    says(rt, "asked")?;
    Ok(office)
}

/// A new office after these commands, opened again; and once more, where memory runs out.
fn opens_again<S: Alter + Drop>(
    rt: &HostRuntime,
    alloc: Global,
    conn: Connection<S>,
    commands: &[(u64, Command)],
) -> Result<Office<S>, Fail> {
    let conn = close(behind(alloc, created(alloc, conn)?, commands)?);
    says(rt, "asked")?;
    match open(alloc, conn) {
        Ok(office) => Ok(office),
        Err(NotOpened { conn, fault }) => opens_at_last(rt, alloc, conn, fault),
    }
}

/// The office in a database over which none was opened, for this reason.
fn opens_at_last<S: Alter + Drop>(
    rt: &HostRuntime,
    alloc: Global,
    conn: Connection<S>,
    fault: Fault,
) -> Result<Office<S>, Fail> {
    wants_memory(ActFault::Fault(fault))?;
    says(rt, "not-opened")?;
    Ok(opened(alloc, conn)?)
}

/// The office after these commands, one by one.
fn acts<S: Alter + Drop>(
    rt: &HostRuntime,
    alloc: Global,
    office: Office<S>,
    commands: &[(u64, Command)],
) -> Result<Office<S>, Fail> {
    let mut office = office;
    for count in 1..=commands.len() {
        office = bears(rt, alloc, office, first(commands, count), false)?;
    }
    Ok(office)
}

/// The office after these commands: all of them are asked as one list, or the last one, where the
/// others were answered.
fn bears<S: Alter + Drop>(
    rt: &HostRuntime,
    alloc: Global,
    office: Office<S>,
    commands: &[(u64, Command)],
    is_list: bool,
) -> Result<Office<S>, Fail> {
    let mut office = office;
    match stopped_behind(alloc, &mut office, commands, is_list)? {
        Some(answered) => goes_on(rt, alloc, office, commands, answered),
        None => Ok(office),
    }
}

/// After how many of these commands the office was stopped by running out of memory, where it was.
fn stopped_behind<S: Alter>(
    alloc: Global,
    office: &mut Office<S>,
    commands: &[(u64, Command)],
    is_list: bool,
) -> Result<Option<usize>, Fail> {
    if is_list {
        stopped_in_list(alloc, office, commands)
    } else {
        stopped_at_last(alloc, office, commands)
    }
}

fn stopped_in_list<S: Alter>(
    alloc: Global,
    office: &mut Office<S>,
    commands: &[(u64, Command)],
) -> Result<Option<usize>, Fail> {
    match run(alloc, office, commands) {
        Ok(_) => Ok(None),
        Err(Stopped { answers, fault }) => {
            wants_memory(ActFault::Fault(fault))?;
            Ok(Some(answers.len()))
        }
    }
}

fn stopped_at_last<S: Alter>(
    alloc: Global,
    office: &mut Office<S>,
    commands: &[(u64, Command)],
) -> Result<Option<usize>, Fail> {
    let Some(((at, command), others)) = commands.split_last() else {
        return Err("a command".into());
    };
    match act(alloc, office, *at, command) {
        Ok(_) => Ok(None),
        Err(fault) => {
            wants_memory(fault)?;
            Ok(Some(others.len()))
        }
    }
}

/// The office after all of these commands, of which so many were answered before memory was
/// wanting. Where that left it open, its database has to have the desk after the answered ones;
/// and where it closed it, that one or the desk after one more.
fn goes_on<S: Alter + Drop>(
    rt: &HostRuntime,
    alloc: Global,
    office: Office<S>,
    commands: &[(u64, Command)],
    answered: usize,
) -> Result<Office<S>, Fail> {
    let is_closed = office.is_closed();
    let office = reopened(alloc, office)?;
    let (count, conn) = counted(alloc, office, commands, answered)?;
    says_state(rt, is_closed, count > answered)?;
    Ok(behind(alloc, opened(alloc, conn)?, rest(commands, count))?)
}

/// After how many of these commands the office has the desk, and its database.
fn counted<S: Alter + Drop>(
    alloc: Global,
    office: Office<S>,
    commands: &[(u64, Command)],
    answered: usize,
) -> Result<(usize, Connection<S>), Fail> {
    let (found, conn) = text_and_database(alloc, office)?;
    let count = count_behind(alloc, found.as_str(), commands, answered)?;
    Ok((count, conn))
}

/// After how many of these commands a desk has this text: after so many, or after one more.
fn count_behind(
    alloc: Global,
    text: &str,
    commands: &[(u64, Command)],
    answered: usize,
) -> Result<usize, Fail> {
    for count in answered..=answered.saturating_add(1) {
        if text_behind(alloc, first(commands, count))?.as_str() == text {
            return Ok(count);
        }
    }
    Err("another desk".into())
}

/// Says the word for an office that wanted memory, and for its database.
fn says_state(rt: &HostRuntime, is_closed: bool, is_behind: bool) -> Result<(), Fail> {
    match (is_closed, is_behind) {
        (false, false) => says(rt, "open"),
        (true, false) => says(rt, "closed-before"),
        (true, true) => says(rt, "closed-behind"),
        (false, true) => Err("an open office behind its command".into()),
    }
}

fn wants_memory(fault: ActFault) -> Result<(), Fail> {
    match fault {
        ActFault::Fault(Fault::Memory) => Ok(()),
        fault => Err(Fail::from(fault)),
    }
}
