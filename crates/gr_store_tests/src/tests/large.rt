//! A desk of as many developers as there may be, all of whom have voted on one resolution.
use super::commits::{new_desk, proposal, string, vote};
use super::{database, load, new, same, store_over, taken, totals};
use gr_core::{Command, DAY, Desk, Proposer, RollRow};
use gr_store::Store;
use sqlite::{Alter, Connection};
use std::alloc::{AllocError, Global};
use std::process::Abort;

/// How many developers there are, and ballots.
const DEVELOPERS: usize = 2_000;

/// When the resolution is proposed, and when the vote on it is called for.
const PROPOSED: u64 = 1_000_000;

const CALLED: u64 = PROPOSED + 14 * DAY;

#[test]
fn a_full_vote_is_loaded_as_it_was_committed(rt: HostRuntime) {
    let alloc = rt.alloc();
    loads_a_full_vote(&rt, alloc, database(&rt, alloc, &[]));
}

/// Wants a new desk to take a full vote, and to be loaded so.
fn loads_a_full_vote<S: Alter + Drop>(rt: &impl Abort, alloc: Global, conn: Connection<S>) {
    let mut store = store_over(rt, new_desk(rt, alloc, conn));
    let desk = voted(rt, alloc, &mut store);
    let again = load(alloc, &mut store).expect(rt, "a desk");
    is_the_same(rt, alloc, &again, &desk);
}

/// The desk after the roll, a resolution, the call and the ballots, each of them committed.
fn voted<S: Alter>(rt: &impl Abort, alloc: Global, store: &mut Store<S>) -> Desk {
    let mut desk = called(rt, alloc, store);
    for number in 1..=DEVELOPERS {
        let ballot = ballot(alloc, number).expect(rt, "memory");
        desk = taken(rt, alloc, store, desk, CALLED, ballot);
    }
    desk
}

/// The desk after the roll, a resolution and the call.
fn called<S: Alter>(rt: &impl Abort, alloc: Global, store: &mut Store<S>) -> Desk {
    let roll = roll(alloc).expect(rt, "memory");
    let listed = taken(rt, alloc, store, new(alloc), PROPOSED, roll);
    let proposal = proposal(alloc, Proposer::Leader, "Keep the desk", "It is kept.", 1);
    let proposal = proposal.expect(rt, "memory");
    let proposed = taken(rt, alloc, store, listed, PROPOSED, proposal);
    let call = Command::Call {
        resolution: 1,
        days: 7,
    };
    taken(rt, alloc, store, proposed, CALLED, call)
}

fn is_the_same(rt: &impl Abort, alloc: Global, again: &Desk, desk: &Desk) {
    assert!(rt; ballots_in(desk) == DEVELOPERS);
    let (wanted, found) = (shown(rt, alloc, desk), shown(rt, alloc, again));
    same(rt, found.as_str(), wanted.as_str(), "a full vote");
}

/// How many ballots there are of the resolution.
fn ballots_in(desk: &Desk) -> usize {
    match desk.ballots(1) {
        Some(ballots) => ballots.len(),
        None => 0,
    }
}

/// All that the desk has, in words.
fn shown(rt: &impl Abort, alloc: Global, desk: &Desk) -> String {
    let mut shown = totals(rt, alloc, desk);
    push_developers(&mut shown, desk).expect(rt, "memory");
    push_choices(&mut shown, desk).expect(rt, "memory");
    push_ballots(&mut shown, desk).expect(rt, "memory");
    shown
}

fn push_developers(shown: &mut String, desk: &Desk) -> Result<(), AllocError> {
    for (login, developer) in desk.developers() {
        write!(shown, "\n{login} {developer:?}")?;
    }
    Ok(())
}

/// Adds the resolution and its choices.
fn push_choices(shown: &mut String, desk: &Desk) -> Result<(), AllocError> {
    let resolution = desk.resolution(1);
    write!(shown, "\n{resolution:?}")?;
    for (key, choice) in desk.choices(1) {
        write!(shown, "\n{key:?} {choice:?}")?;
    }
    Ok(())
}

fn push_ballots(shown: &mut String, desk: &Desk) -> Result<(), AllocError> {
    if let Some(ballots) = desk.ballots(1) {
        for (login, ballot) in ballots {
            write!(shown, "\n{login} {ballot:?}")?;
        }
    }
    Ok(())
}

/// The developers, with logins from `d1` on.
fn roll(alloc: Global) -> Result<Command, AllocError> {
    let mut rows = Vec::new(alloc);
    for number in 1..=DEVELOPERS {
        rows.push(row(alloc, number)?)?;
    }
    Ok(Command::ImportRoll { rows })
}

/// The row of the developer with this number.
fn row(alloc: Global, number: usize) -> Result<RollRow, AllocError> {
    Ok(RollRow {
        login: login(alloc, number)?,
        name: string(alloc, "Dora Dean")?,
        status: string(alloc, "current")?,
    })
}

fn login(alloc: Global, number: usize) -> Result<String, AllocError> {
    format!(in alloc; "d{number}")
}

/// The ballot of the developer with this number.
fn ballot(alloc: Global, number: usize) -> Result<Command, AllocError> {
    let login = login(alloc, number)?;
    let ranks = if number % 3 == 0 { "21" } else { "12" };
    vote(alloc, login.as_str(), ranks, "tokenA01")
}
