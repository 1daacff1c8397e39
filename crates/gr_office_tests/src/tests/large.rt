//! The largest vote that there can be: 34 choices and a ballot of each of 2,000 developers. Its
//! ballots are drawn, and what they come to was counted by A.5 with nothing of this project's.
ghost use Rattle.std.specs.Prelude.{◌<◌};

use super::commands::{CALLED, NEW_YEAR, numbered, vote, with_number, wording};
use super::office::{act, sheet};
use super::statements::in_memory;
use super::{created, reopened, shows};
use gr_core::{Command, DAY, Proposer};
use gr_office::{Kind, Office};
use sqlite::{Alter, Connection};
use std::alloc::{AllocError, Global};
use std::process::Abort;

const DEVELOPERS: u32 = 2_000;

const CHOICES: u32 = 34;

/// The ranks in falling preference.
const RANKS: &[u8] = b"123456789abcdefghijklmnopqrstuvwxyz";

/// When its vote is over.
const OVER: u64 = CALLED + 14 * DAY;

/// The drawn ballots are those that this seed gives.
const SEED: u64 = 199;

/// Draws numbers, the same ones wherever it runs.
#[derive(Drop)]
struct Draw {
    state: u64,
}

impl Draw {
    /// A number below the limit.
    fn below(&mut self, limit: u64) -> u64
        requires { 0 < limit }
        ensures { result < limit }
    {
        self.state = self
            .state
            .wrapping_mul(6_364_136_223_846_793_005)
            .wrapping_add(1_442_695_040_888_963_407);
        (self.state >> 33) % limit
    }

    /// Any rank in so many of eight cases, and else none.
    fn mark(&mut self, eighths: u64) -> char {
        let rank = self.below(RANKS.len() as u64) as usize;
        if self.below(8) < eighths {
            char::from(RANKS[rank])
        } else {
            '-'
        }
    }

    /// The ranks of a ballot: a choice has one in seven of eight cases, and the default option in
    /// one.
    fn ballot(&mut self, alloc: Global) -> Result<String, AllocError> {
        let mut ranks = String::new(alloc);
        for _ in 0..CHOICES {
            ranks.push(self.mark(7))?;
        }
        ranks.push(self.mark(1))?;
        Ok(ranks)
    }
}

#[test]
fn the_largest_vote_is_counted_and_kept(rt: HostRuntime) {
    let alloc = rt.alloc();
    counts_the_largest(&rt, alloc, in_memory(alloc).expect(&rt, "memory"));
}

/// Wants a new desk to take the vote, to print what it comes to, and to print the same after an
/// opening.
fn counts_the_largest<S: Alter + Drop>(rt: &impl Abort, alloc: Global, conn: Connection<S>) {
    let mut office = created(alloc, conn).expect(rt, "a new desk");
    is_discussed(rt, alloc, &mut office);
    is_voted(rt, alloc, &mut office);
    is_kept(rt, alloc, office);
}

/// Wants what was counted in the sheets of the office, and these again after an opening.
fn is_kept<S: Alter + Drop>(rt: &impl Abort, alloc: Global, office: Office<S>) {
    let tally = sheet(alloc, &office, Kind::Tally).expect(rt, "a tally");
    let result = sheet(alloc, &office, Kind::Result).expect(rt, "a result");
    has_ballots(rt, tally.as_str());
    is_counted(rt, result.as_str());
    let office = reopened(alloc, office).expect(rt, "a desk");
    shows(rt, alloc, &office, Kind::Tally, tally.as_str());
    shows(rt, alloc, &office, Kind::Result, result.as_str());
}

/// Wants the command to be accepted at this moment.
fn accepts<S: Alter>(
    rt: &impl Abort,
    alloc: Global,
    office: &mut Office<S>,
    at: u64,
    command: Command,
) {
    let answer = act(alloc, office, at, &command);
    assert!(rt; answer.is_ok(), "{command:?}: {answer:?}");
}

/// Puts all developers on the roll, and has the Leader propose a resolution with all its choices.
fn is_discussed<S: Alter>(rt: &impl Abort, alloc: Global, office: &mut Office<S>) {
    let developers = numbered(alloc, "d", DEVELOPERS).expect(rt, "memory");
    accepts(rt, alloc, office, NEW_YEAR, developers);
    for number in 1..=CHOICES {
        proposes(rt, alloc, office, number);
    }
}

/// Has the Leader propose the choice with this number.
fn proposes<S: Alter>(rt: &impl Abort, alloc: Global, office: &mut Office<S>, number: u32) {
    let choice = choice(alloc, number).expect(rt, "memory");
    accepts(rt, alloc, office, NEW_YEAR, choice);
}

/// The command by which the Leader proposes this choice: the first one with its resolution.
fn choice(alloc: Global, number: u32) -> Result<Command, AllocError> {
    let proposer = Proposer::Leader;
    let summary = with_number(alloc, "C", number)?;
    let wording = wording(alloc, summary.as_str(), "Choice")?;
    if number == 1 {
        Ok(Command::Propose {
            proposer,
            wording,
            ratio: 1,
        })
    } else {
        Ok(Command::AddChoice {
            resolution: 1,
            proposer,
            wording,
            ratio: 1,
        })
    }
}

/// Calls the vote, has each developer vote, and closes it.
fn is_voted<S: Alter>(rt: &impl Abort, alloc: Global, office: &mut Office<S>) {
    let call = Command::Call {
        resolution: 1,
        days: 14,
    };
    accepts(rt, alloc, office, CALLED, call);
    let mut draw = Draw { state: SEED };
    for number in 1..=DEVELOPERS {
        votes(rt, alloc, office, &mut draw, number);
    }
    accepts(rt, alloc, office, OVER, Command::Close { resolution: 1 });
}

/// Has the developer with this number vote.
fn votes<S: Alter>(
    rt: &impl Abort,
    alloc: Global,
    office: &mut Office<S>,
    draw: &mut Draw,
    number: u32,
) {
    let ballot = drawn(alloc, draw, number).expect(rt, "memory");
    accepts(rt, alloc, office, CALLED, ballot);
}

/// The vote of the developer with this number.
fn drawn(alloc: Global, draw: &mut Draw, number: u32) -> Result<Command, AllocError> {
    let login = with_number(alloc, "d", number)?;
    let ranks = draw.ballot(alloc)?;
    vote(alloc, login.as_str(), ranks.as_str(), "tokenA01")
}

/// How many lines of the sheet begin so.
fn lines_with(sheet: &str, beginning: &str) -> usize {
    let mut count = 0usize;
    for line in sheet.lines() {
        count = count.saturating_add(usize::from(line.starts_with(beginning)));
    }
    count
}

/// Wants so many lines of the sheet to begin so.
fn has_lines(rt: &impl Abort, sheet: &str, beginning: &str, count: usize) {
    assert_eq!(rt; lines_with(sheet, beginning), count, "{beginning}");
}

/// Wants a line for each ballot.
fn has_ballots(rt: &impl Abort, tally: &str) {
    has_lines(rt, tally, "V: ", 2_000);
    has_lines(rt, tally, "Option ", 35);
}

/// Wants what another program counted: all options are kept, 94 rounds drop defeats, and the sixth
/// choice wins.
fn is_counted(rt: &impl Abort, sheet: &str) {
    has_lines(rt, sheet, "Developers: 2000", 1);
    has_lines(rt, sheet, "Ballots: 2000", 1);
    has_lines(rt, sheet, "Test ", 34);
    has_lines(rt, sheet, "Pair ", 595);
    has_lines(rt, sheet, "Pair 1 2: 894 1018", 1);
    has_lines(rt, sheet, "Pair 34 35: 1675 127", 1);
    has_lines(rt, sheet, "Round ", 94);
    has_lines(rt, sheet, "Schwartz: 6", 1);
    has_lines(rt, sheet, "Winner: 6", 1);
}
