//! Lists of commands: the script of eighteen, and a list with refusals.
use super::commands::{NEW_YEAR, developers, script};
use super::office::{close, load, run};
use super::statements::{in_memory, lines, push_line};
use super::texts::words;
use super::{created, is_open, reopened, same, shows};
use gr_core::{Command, Desk};
use gr_office::{Answer, Kind, Office};
use gr_sheet::{result_text, tally_text};
use sqlite::{Alter, Connection};
use std::alloc::{AllocError, Global};
use std::process::Abort;

/// What the script is answered, written by hand. The receipts are those that `sha256sum` gives.
const ANSWERS: &str = "\
1 Done
2 Roll(Imported { added: 3, changed: 0, same: 0 })
3 Resolution(1)
4 Done
5 Choice(2)
6 Done
7 Done
8 Done
9 Done
10 Done
11 Done
12 Called { places: 3, until: 1769040000 }
13 900eb73ab7e42d7eb72f6524157a5dfa609a0f27b79f9c9ac235cd6931258b07
14 921e9e589da0a2af233149c221978bdcc2592cd63c52284e55c350b0aac3bdfa
15 6a9b7694f79df615db603850c8b0a240eb63a6beac4badef0a0d1abdf76d5d46
16 0bc67ed616cd49fd22e8558b7970e6c7cb8c03787029353c747f230a0db7d208
17 Done
18 Done
";

/// The tally of the script's resolution, written by hand.
const TALLY: &str = "\
Tally of resolution 1
Option 1: Red
Option 2: Green
Option 3: None of the above
Ballots: 3
V: 113 0bc67ed616cd49fd22e8558b7970e6c7cb8c03787029353c747f230a0db7d208
V: 113 900eb73ab7e42d7eb72f6524157a5dfa609a0f27b79f9c9ac235cd6931258b07
V: 113 921e9e589da0a2af233149c221978bdcc2592cd63c52284e55c350b0aac3bdfa
";

/// And its result.
const RESULT: &str = "\
Result of resolution 1
Voting: 2026-01-15T00:00:00Z to 2026-01-22T00:00:00Z
Developers: 4
Ballots: 3
Received: 4
Option 1: Red
Option 2: Green
Option 3: None of the above
Test 1: above 3, below 0, ratio 1, quorum met, majority met, kept
Test 2: above 3, below 0, ratio 1, quorum met, majority met, kept
Pair 1 2: 0 0
Pair 1 3: 3 0
Pair 2 3: 3 0
Schwartz: 1 2
Winner: 1 by casting vote
";

/// Four logins of developers, each with its moment. The first and the third are refused.
const WITH_REFUSALS: [(u64, &str); 4] = [
    (NEW_YEAR, "Alice"),
    (NEW_YEAR, "alice"),
    (1, "bob"),
    (NEW_YEAR, "carol"),
];

/// What these are answered.
const REFUSED: &str = "BadLogin\n1 Done\nClockBack\n2 Done\n";

/// The row of its desk: how many commands were accepted, and when the last of them came.
const DESK: &str = "18 1769040000\n";

#[test]
fn the_script_is_kept(rt: HostRuntime) {
    let alloc = rt.alloc();
    keeps_the_script(&rt, alloc, in_memory(alloc).expect(&rt, "memory"));
}

/// Wants a new desk to take the script, and to have what it leaves after an opening.
fn keeps_the_script<S: Alter + Drop>(rt: &impl Abort, alloc: Global, conn: Connection<S>) {
    let mut office = created(alloc, conn).expect(rt, "a new desk");
    takes_the_script(rt, alloc, &mut office);
    let office = reopened(alloc, office).expect(rt, "a desk");
    has_the_script(rt, alloc, office);
}

/// Wants a new desk to answer the script.
fn takes_the_script<S: Alter>(rt: &impl Abort, alloc: Global, office: &mut Office<S>) {
    let script = script(alloc).expect(rt, "memory");
    answers(rt, alloc, office, script.as_slice(), ANSWERS);
}

/// Wants the office to have what the script leaves, and the store to load it after the close.
pub fn has_the_script<S: Alter + Drop>(rt: &impl Abort, alloc: Global, office: Office<S>) {
    shows(rt, alloc, &office, Kind::Tally, TALLY);
    shows(rt, alloc, &office, Kind::Result, RESULT);
    let mut conn = close(office);
    let select = "SELECT accepted || ' ' || clock FROM desk";
    let desk = lines(rt, alloc, &mut conn, select);
    same(rt, desk.as_str(), DESK);
    let desk = load(alloc, conn).expect(rt, "a desk");
    is_behind_the_script(rt, alloc, &desk);
}

/// Wants the desk to be the one that the script leaves.
fn is_behind_the_script(rt: &impl Abort, alloc: Global, desk: &Desk) {
    let tally = tally_text(alloc, desk, 1).expect(rt, "a tally");
    same(rt, tally.as_str(), TALLY);
    let result = result_text(alloc, desk, 1).expect(rt, "a result");
    same(rt, result.as_str(), RESULT);
    let row = header_line(alloc, desk).expect(rt, "memory");
    same(rt, row.as_str(), DESK);
}

/// The row of the table `desk`, as a line.
fn header_line(alloc: Global, desk: &Desk) -> Result<String, AllocError> {
    let accepted = desk.accepted();
    let clock = desk.clock();
    format!(in alloc; "{accepted} {clock}\n")
}

/// Wants these answers to the commands, in words: a line for each.
pub fn answers<S: Alter>(
    rt: &impl Abort,
    alloc: Global,
    office: &mut Office<S>,
    commands: &[(u64, Command)],
    texts: &str,
) {
    let answers = run(alloc, office, commands).expect(rt, "answers");
    let found = answer_lines(alloc, answers.as_slice()).expect(rt, "memory");
    same(rt, found.as_str(), texts);
}

/// A line for each answer.
fn answer_lines(alloc: Global, answers: &[Answer]) -> Result<String, AllocError> {
    let mut lines = String::new(alloc);
    for answer in answers {
        push_line(&mut lines, words(alloc, answer)?.as_str())?;
    }
    Ok(lines)
}

#[test]
fn refusals_stop_no_list(rt: HostRuntime) {
    let alloc = rt.alloc();
    goes_on_behind_refusals(&rt, alloc, in_memory(alloc).expect(&rt, "memory"));
}

/// Runs an empty list, and one with refusals, and wants their answers.
fn goes_on_behind_refusals<S: Alter + Drop>(rt: &impl Abort, alloc: Global, conn: Connection<S>) {
    let mut office = created(alloc, conn).expect(rt, "a new desk");
    puts(rt, alloc, &mut office, &[], "");
    puts(rt, alloc, &mut office, &WITH_REFUSALS, REFUSED);
    is_open(rt, &office);
}

/// Wants these answers to commands that put developers with these logins on the roll.
fn puts<S: Alter>(
    rt: &impl Abort,
    alloc: Global,
    office: &mut Office<S>,
    logins: &[(u64, &str)],
    texts: &str,
) {
    let commands = developers(alloc, logins).expect(rt, "memory");
    answers(rt, alloc, office, commands.as_slice(), texts);
}
