//! The script of eighteen: commands from the first developer to the casting vote, all accepted.
use gr_core::{Amendment, ChoiceKey, Command, DAY, Proposer, RollRow, Standing, Wording};
use std::alloc::{AllocError, Global};

/// 2026-01-01T00:00:00Z, when the script begins.
pub const NEW_YEAR: u64 = 1_767_225_600;

/// When its vote is called, and when it is closed.
pub const CALLED: u64 = NEW_YEAR + 14 * DAY;

pub const CLOSED: u64 = CALLED + 7 * DAY;

/// How many commands it has.
pub const COMMANDS: u32 = 18;

/// When the command with this number comes.
pub fn moment(number: u32) -> u64 {
    match number {
        0..=11 => NEW_YEAR,
        12..=16 => CALLED,
        _ => CLOSED,
    }
}

/// The commands of the script, each with its moment.
pub fn script(alloc: Global) -> Result<Vec<(u64, Command)>, AllocError> {
    commands(alloc, 1, COMMANDS)
}

/// Those from one number to another.
pub fn commands(alloc: Global, first: u32, last: u32) -> Result<Vec<(u64, Command)>, AllocError> {
    let mut commands = Vec::new(alloc);
    for number in first..=last {
        push(&mut commands, moment(number), command(alloc, number)?)?;
    }
    Ok(commands)
}

/// The first so many of these commands, or all where they are fewer.
pub fn first(commands: &[(u64, Command)], count: usize) -> &[(u64, Command)] {
    match commands.split_at_checked(count) {
        Some((first, _)) => first,
        None => commands,
    }
}

/// The others.
pub fn rest(commands: &[(u64, Command)], count: usize) -> &[(u64, Command)] {
    match commands.split_at_checked(count) {
        Some((_, rest)) => rest,
        None => &[],
    }
}

/// Commands that put current developers with these logins on the roll, each at its moment.
pub fn developers(
    alloc: Global,
    logins: &[(u64, &str)],
) -> Result<Vec<(u64, Command)>, AllocError> {
    let mut commands = Vec::new(alloc);
    for (at, login) in logins {
        push(&mut commands, *at, developer(alloc, login, "A Name")?)?;
    }
    Ok(commands)
}

/// Adds a command with its moment.
pub fn push(
    commands: &mut Vec<(u64, Command)>,
    at: u64,
    command: Command,
) -> Result<(), AllocError> {
    commands.push((at, command))?;
    Ok(())
}

/// The command with this number.
fn command(alloc: Global, number: u32) -> Result<Command, AllocError> {
    match number {
        1..=3 => beginning(alloc, number),
        4..=9 => discussed(alloc, number),
        _ => voted(alloc, number),
    }
}

fn beginning(alloc: Global, number: u32) -> Result<Command, AllocError> {
    match number {
        1 => developer(alloc, "d1", "One"),
        2 => import(alloc, &[("d2", "Two"), ("d3", "Three"), ("d4", "Four")]),
        _ => Ok(Command::Propose {
            proposer: Proposer::Developer(string(alloc, "d1")?),
            wording: wording(alloc, "Red", "a")?,
            ratio: 1,
        }),
    }
}

fn discussed(alloc: Global, number: u32) -> Result<Command, AllocError> {
    match number {
        4 | 9 => Ok(Command::Sponsor {
            choice: choice(1),
            login: string(alloc, "d2")?,
        }),
        5 => Ok(Command::AddChoice {
            resolution: 1,
            proposer: Proposer::Leader,
            wording: wording(alloc, "Green", "b")?,
            ratio: 1,
        }),
        6 => Ok(Command::Withdraw { choice: choice(2) }),
        7 => Ok(Command::Adopt {
            choice: choice(2),
            proposer: Proposer::Committee,
        }),
        _ => Ok(Command::Unsponsor {
            choice: choice(1),
            login: string(alloc, "d2")?,
        }),
    }
}

fn voted(alloc: Global, number: u32) -> Result<Command, AllocError> {
    let resolution = 1;
    match number {
        10 => Ok(Command::Amend {
            choice: choice(1),
            amendment: Amendment::Minor,
            wording: wording(alloc, "Red", "new")?,
        }),
        11 => Ok(Command::Vary {
            resolution,
            days: 0,
        }),
        12 => Ok(Command::Call {
            resolution,
            days: 7,
        }),
        13 => vote(alloc, "d1", "113", "tokenA01"),
        14 => vote(alloc, "d2", "113", "tokenA02"),
        15 => vote(alloc, "d3", "131", "tokenA03"),
        16 => vote(alloc, "d3", "113", "tokenA04"),
        17 => Ok(Command::Close { resolution }),
        _ => Ok(Command::Cast {
            resolution,
            place: 1,
        }),
    }
}

/// Puts a current developer on the roll.
pub fn developer(alloc: Global, login: &str, name: &str) -> Result<Command, AllocError> {
    Ok(Command::SetDeveloper {
        login: string(alloc, login)?,
        name: string(alloc, name)?,
        standing: Standing::Current,
    })
}

/// Imports current developers with these logins and names.
fn import(alloc: Global, developers: &[(&str, &str)]) -> Result<Command, AllocError> {
    let mut rows = Vec::new(alloc);
    for (login, name) in developers {
        rows.push(row(alloc, login, name)?)?;
    }
    Ok(Command::ImportRoll { rows })
}

/// Imports so many current developers, whose logins are a letter and a number from 1 on.
pub fn numbered(alloc: Global, letter: &str, count: u32) -> Result<Command, AllocError> {
    let mut rows = Vec::new(alloc);
    for number in 1..=count {
        let login = with_number(alloc, letter, number)?;
        rows.push(row(alloc, login.as_str(), "A Name")?)?;
    }
    Ok(Command::ImportRoll { rows })
}

/// These letters, and the number after them.
pub fn with_number(alloc: Global, letters: &str, number: u32) -> Result<String, AllocError> {
    format!(in alloc; "{letters}{number}")
}

/// The text, in a function with no clause.
pub fn string(alloc: Global, text: &str) -> Result<String, AllocError> {
    String::from_str(alloc, text)
}

fn row(alloc: Global, login: &str, name: &str) -> Result<RollRow, AllocError> {
    Ok(RollRow {
        login: string(alloc, login)?,
        name: string(alloc, name)?,
        status: string(alloc, "current")?,
    })
}

fn choice(number: u32) -> ChoiceKey {
    ChoiceKey {
        resolution: 1,
        number,
    }
}

pub fn wording(alloc: Global, summary: &str, text: &str) -> Result<Wording, AllocError> {
    Ok(Wording {
        summary: string(alloc, summary)?,
        text: string(alloc, text)?,
    })
}

pub fn vote(alloc: Global, login: &str, ranks: &str, token: &str) -> Result<Command, AllocError> {
    Ok(Command::Vote {
        resolution: 1,
        login: string(alloc, login)?,
        ranks: string(alloc, ranks)?,
        token: string(alloc, token)?,
    })
}
