//! What a store keeps of the commands that a desk accepts: it is loaded again after each of them.
//! And a commit that fails.
use super::created::made;
use super::{
    OTHERS, commit, committed, database, database_of, is_closed, load, new, plan, planned, rows,
    same, store_of, store_over, totals,
};
use gr_core::{ChoiceKey, Command, DAY, Desk, Plan, Proposer, Standing, Wording};
use gr_store::{Fault, Store};
use sqlite::{Alter, Connection};
use std::alloc::{AllocError, Global};
use std::process::Abort;

/// How many commands the desk is given.
const COMMANDS: u32 = 10;

/// When the first choice is proposed, the vote is called, and it is closed.
const PROPOSED: u64 = 1_000_000;

const CALLED: u64 = PROPOSED + 14 * DAY;

const CLOSED: u64 = CALLED + 7 * DAY;

/// What the commands leave, written by hand. The receipts are those that `sha256sum` gives for the
/// tokens; of the two votes of `bob` the later one stands.
const ROWS: &str = "\
desk|1|2|10|2814400
developer|alice|Alice Adams|1
developer|bob|Bob Brown|1
resolution|1|3|1000000|0|0|2209600|7|2|0
resolution|2|1|2814400|0|0|0|0|0|0
choice|1|1|1|alice|Keep the desk|The desk is kept.|1|1000000|0|1
choice|2|1|2||Sell the desk|The desk is sold.|2|2814400|0|0
sponsor|1|1|bob|1
ballot2|1|alice|12|ca9d11638354186aa932e99271bc2606295b7a58b68b5636380827ddbbdcddcb|1
ballot2|1|bob|12|92cb55c2b4ad686ee6f8313b5bc140b190b982feb091f65dcc21bebfec04da57|2
";

/// What stands in the database before the desk: nothing, or a table with an index and a view, or
/// one that refers to a table of the desk.
const BEFORE: [&str; 3] = [
    "",
    "CREATE TABLE desks (name TEXT UNIQUE); CREATE INDEX by_name ON desks (name);
    CREATE VIEW named AS SELECT name FROM desks",
    "CREATE TABLE member (login TEXT REFERENCES developer ON DELETE CASCADE)",
];

#[test]
fn what_was_committed_is_loaded(rt: HostRuntime) {
    let alloc = rt.alloc();
    for before in &BEFORE {
        keeps_the_commands(&rt, alloc, database(&rt, alloc, &[before]));
    }
}

/// Wants a new desk to take all commands, and to leave their rows.
fn keeps_the_commands<S: Alter + Drop>(rt: &impl Abort, alloc: Global, conn: Connection<S>) {
    let conn = new_desk(rt, alloc, conn);
    let mut conn = all_taken(rt, alloc, conn);
    has_rows(rt, alloc, &mut conn, ROWS);
}

#[test]
fn a_failed_commit_closes_the_store(rt: HostRuntime) {
    let alloc = rt.alloc();
    // The table `desk` cannot take a header, which is the last row that a commit puts.
    let statements = ["CREATE TABLE desk (id INTEGER PRIMARY KEY)", OTHERS];
    is_closed_by_a_commit(&rt, alloc, database(&rt, alloc, &statements));
}

/// Wants a commit to fail, the store to be closed then, and no row to be there.
fn is_closed_by_a_commit<S: Alter + Drop>(rt: &impl Abort, alloc: Global, conn: Connection<S>) {
    let mut store = store_over(rt, conn);
    fails_twice(rt, alloc, &mut store);
    loads_nothing(rt, alloc, &mut store);
    has_rows(rt, alloc, &mut database_of(store), "");
}

/// Wants a commit to fail and to close the store, and a second one to find it closed.
fn fails_twice<S: Alter>(rt: &impl Abort, alloc: Global, store: &mut Store<S>) {
    assert!(rt; !is_closed(store));
    let plan = first_plan(rt, alloc);
    fails(rt, alloc, store, &plan, Fault::Store);
    fails(rt, alloc, store, &plan, Fault::Closed);
}

/// The plan of the first command on a new desk.
fn first_plan(rt: &impl Abort, alloc: Global) -> Plan {
    let command = command(alloc, 1).expect(rt, "memory");
    plan(alloc, &new(alloc), PROPOSED, command).expect(rt, "a plan")
}

/// Wants a commit to fail so, and the store to be closed.
fn fails<S: Alter>(
    rt: &impl Abort,
    alloc: Global,
    store: &mut Store<S>,
    plan: &Plan,
    fault: Fault,
) {
    assert!(rt; commit(alloc, store, plan) == Err(fault) && is_closed(store));
}

/// Wants no desk to be loaded from a closed store.
fn loads_nothing<S: Alter>(rt: &impl Abort, alloc: Global, store: &mut Store<S>) {
    assert!(rt; matches!(load(alloc, store), Err(Fault::Closed)) && is_closed(store));
}

/// Wants the six tables to have these rows.
fn has_rows<S: Alter>(rt: &impl Abort, alloc: Global, conn: &mut Connection<S>, wanted: &str) {
    let found = rows(rt, alloc, conn);
    same(rt, found.as_str(), wanted, "the rows");
}

/// The database with a new desk.
pub fn new_desk<S: Alter + Drop>(
    rt: &impl Abort,
    alloc: Global,
    conn: Connection<S>,
) -> Connection<S> {
    database_of(store_of(rt, made(alloc, conn), "a new desk"))
}

/// The database after all commands.
fn all_taken<S: Alter + Drop>(
    rt: &impl Abort,
    alloc: Global,
    conn: Connection<S>,
) -> Connection<S> {
    let mut conn = conn;
    for number in 1..=COMMANDS {
        conn = taken(rt, alloc, conn, number);
    }
    conn
}

/// The database after the command with this number. The desk that is loaded then has to be the one
/// that the command leaves: it plans each of the commands as that one does.
fn taken<S: Alter + Drop>(
    rt: &impl Abort,
    alloc: Global,
    conn: Connection<S>,
    number: u32,
) -> Connection<S> {
    let mut store = store_over(rt, conn);
    let wanted = plans_after(rt, alloc, &mut store, number);
    let mut store = store_over(rt, database_of(store));
    let found = plans_again(rt, alloc, &mut store, number);
    same(rt, found.as_str(), wanted.as_str(), "the loaded desk");
    database_of(store)
}

/// The totals and plans of the desk that the command with this number leaves.
fn plans_after<S: Alter>(
    rt: &impl Abort,
    alloc: Global,
    store: &mut Store<S>,
    number: u32,
) -> String {
    let command = command(alloc, number).expect(rt, "memory");
    let desk = committed(rt, alloc, store, moment(number), command);
    plans_behind(rt, alloc, &desk, number)
}

/// Those of the desk that is loaded then.
fn plans_again<S: Alter>(
    rt: &impl Abort,
    alloc: Global,
    store: &mut Store<S>,
    number: u32,
) -> String {
    let desk = load(alloc, store).expect(rt, "a desk");
    plans_behind(rt, alloc, &desk, number)
}

/// The totals of the desk after the command with this number, and what it plans for each of the
/// commands then, a line for each.
fn plans_behind(rt: &impl Abort, alloc: Global, desk: &Desk, number: u32) -> String {
    let mut plans = totals(rt, alloc, desk);
    for further in 1..=COMMANDS {
        push_plan(rt, alloc, &mut plans, desk, number, further);
    }
    plans
}

/// Adds what the desk after the command with this number plans for a further one.
fn push_plan(
    rt: &impl Abort,
    alloc: Global,
    plans: &mut String,
    desk: &Desk,
    number: u32,
    further: u32,
) {
    let command = command(alloc, further).expect(rt, "memory");
    let planned = planned(rt, alloc, desk, moment(number.saturating_add(1)), command);
    let written = write!(plans, "\nbehind {number}, {further}: {planned}");
    written.expect(rt, "memory");
}

/// When the command comes.
fn moment(number: u32) -> u64 {
    match number {
        1..=4 => PROPOSED,
        5..=8 => CALLED,
        _ => CLOSED,
    }
}

fn command(alloc: Global, number: u32) -> Result<Command, AllocError> {
    match number {
        1 => developer(alloc, "alice", "Alice Adams"),
        2 => developer(alloc, "bob", "Bob Brown"),
        3 => proposal_of_alice(alloc),
        4 => sponsoring(alloc, "bob"),
        5 => Ok(Command::Call {
            resolution: 1,
            days: 7,
        }),
        6 => vote(alloc, "alice", "12", "tokenA01"),
        7 => vote(alloc, "bob", "21", "tokenB01"),
        8 => vote(alloc, "bob", "12", "tokenB02"),
        9 => Ok(Command::Close { resolution: 1 }),
        _ => {
            let leader = Proposer::Leader;
            proposal(alloc, leader, "Sell the desk", "The desk is sold.", 2)
        }
    }
}

/// The text, in a function with no clause.
pub fn string(alloc: Global, text: &str) -> Result<String, AllocError> {
    String::from_str(alloc, text)
}

pub fn developer(alloc: Global, login: &str, name: &str) -> Result<Command, AllocError> {
    Ok(Command::SetDeveloper {
        login: string(alloc, login)?,
        name: string(alloc, name)?,
        standing: Standing::Current,
    })
}

fn proposal_of_alice(alloc: Global) -> Result<Command, AllocError> {
    let alice = Proposer::Developer(string(alloc, "alice")?);
    proposal(alloc, alice, "Keep the desk", "The desk is kept.", 1)
}

pub fn proposal(
    alloc: Global,
    proposer: Proposer,
    summary: &str,
    text: &str,
    ratio: u32,
) -> Result<Command, AllocError> {
    let wording = Wording {
        summary: string(alloc, summary)?,
        text: string(alloc, text)?,
    };
    Ok(Command::Propose {
        proposer,
        wording,
        ratio,
    })
}

fn sponsoring(alloc: Global, login: &str) -> Result<Command, AllocError> {
    Ok(Command::Sponsor {
        choice: ChoiceKey {
            resolution: 1,
            number: 1,
        },
        login: string(alloc, login)?,
    })
}

pub fn vote(alloc: Global, login: &str, ranks: &str, token: &str) -> Result<Command, AllocError> {
    Ok(Command::Vote {
        resolution: 1,
        login: string(alloc, login)?,
        ranks: string(alloc, ranks)?,
        token: string(alloc, token)?,
    })
}
