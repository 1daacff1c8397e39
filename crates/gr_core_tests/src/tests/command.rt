//! Commands in words: the kind, a space, and what the command brings, with bars between its parts.
//!
//! - `developer LOGIN|NAME|STATUS` puts a developer on the roll.
//! - `import LOGIN|NAME|STATUS;..` imports rows, with semicolons between them.
//! - `numbered PREFIX|FIRST|STEP|COUNT` imports so many rows, whose logins end in numbers from the
//!   first one on by this step.
//! - `propose PROPOSER|SUMMARY|TEXT|RATIO` and `add RESOLUTION|PROPOSER|SUMMARY|TEXT|RATIO` propose
//!   choices; a proposer is a login, `@leader` or `@committee`.
//! - `sponsor CHOICE|LOGIN`, `unsponsor CHOICE|LOGIN`, `withdraw CHOICE`, `adopt CHOICE|PROPOSER`
//!   and `amend CHOICE|minor|SUMMARY|TEXT` or `amend CHOICE|substantial|SUMMARY|TEXT` are about a
//!   choice, such as `1.2`.
//! - `vary RESOLUTION|DAYS` and `call RESOLUTION|DAYS` are about a discussion.
//! - `vote RESOLUTION|LOGIN|RANKS|TOKEN`, `close RESOLUTION` and `cast RESOLUTION|PLACE` are about
//!   a vote.
use super::owned;
use super::rows::{column, text};
use gr_core::{Amendment, ChoiceKey, Command, Proposer, RollRow, Standing, Wording};
use std::alloc::Global;
use std::process::Abort;
use std::str::Split;

/// The command that the words say.
pub(super) fn command_of(rt: &impl Abort, alloc: Global, words: &str) -> Command {
    let (kind, rest) = halves(words, " ").unwrap_or((words, ""));
    match kind {
        "developer" => developer(rt, alloc, rest),
        "import" => import(rt, alloc, rest),
        "numbered" => numbered(rt, alloc, rest),
        "propose" => propose(rt, alloc, rest),
        "add" => add(rt, alloc, rest),
        _ => on_choice(rt, alloc, kind, rest),
    }
}

/// The command of this kind on a choice, or on a resolution.
fn on_choice(rt: &impl Abort, alloc: Global, kind: &str, words: &str) -> Command {
    match kind {
        "sponsor" => sponsor(rt, alloc, words),
        "unsponsor" => unsponsor(rt, alloc, words),
        "withdraw" => withdraw(rt, words),
        "adopt" => adopt(rt, alloc, words),
        "amend" => amend(rt, alloc, words),
        _ => on_resolution(rt, alloc, kind, words),
    }
}

/// The command of this kind on a resolution, while it is discussed or voted on.
fn on_resolution(rt: &impl Abort, alloc: Global, kind: &str, words: &str) -> Command {
    match kind {
        "vary" => vary(rt, words),
        "call" => call(rt, words),
        "vote" => vote(rt, alloc, words),
        "close" => close(rt, words),
        "cast" => cast(rt, words),
        _ => panic!(rt; "no such kind of command"),
    }
}

fn propose(rt: &impl Abort, alloc: Global, words: &str) -> Command {
    let mut parts = words.split('|');
    Command::Propose {
        proposer: proposer(rt, alloc, &mut parts),
        wording: wording(rt, alloc, &mut parts),
        ratio: number(rt, &mut parts),
    }
}

fn add(rt: &impl Abort, alloc: Global, words: &str) -> Command {
    let mut parts = words.split('|');
    Command::AddChoice {
        resolution: number(rt, &mut parts),
        proposer: proposer(rt, alloc, &mut parts),
        wording: wording(rt, alloc, &mut parts),
        ratio: number(rt, &mut parts),
    }
}

fn sponsor(rt: &impl Abort, alloc: Global, words: &str) -> Command {
    let mut parts = words.split('|');
    Command::Sponsor {
        choice: choice(rt, &mut parts),
        login: text(rt, alloc, &mut parts),
    }
}

fn unsponsor(rt: &impl Abort, alloc: Global, words: &str) -> Command {
    let mut parts = words.split('|');
    Command::Unsponsor {
        choice: choice(rt, &mut parts),
        login: text(rt, alloc, &mut parts),
    }
}

fn withdraw(rt: &impl Abort, words: &str) -> Command {
    let mut parts = words.split('|');
    Command::Withdraw {
        choice: choice(rt, &mut parts),
    }
}

fn adopt(rt: &impl Abort, alloc: Global, words: &str) -> Command {
    let mut parts = words.split('|');
    Command::Adopt {
        choice: choice(rt, &mut parts),
        proposer: proposer(rt, alloc, &mut parts),
    }
}

fn amend(rt: &impl Abort, alloc: Global, words: &str) -> Command {
    let mut parts = words.split('|');
    Command::Amend {
        choice: choice(rt, &mut parts),
        amendment: amendment(rt, &mut parts),
        wording: wording(rt, alloc, &mut parts),
    }
}

fn vary(rt: &impl Abort, words: &str) -> Command {
    let mut parts = words.split('|');
    Command::Vary {
        resolution: number(rt, &mut parts),
        days: days(rt, &mut parts),
    }
}

fn call(rt: &impl Abort, words: &str) -> Command {
    let mut parts = words.split('|');
    Command::Call {
        resolution: number(rt, &mut parts),
        days: days(rt, &mut parts),
    }
}

fn vote(rt: &impl Abort, alloc: Global, words: &str) -> Command {
    let mut parts = words.split('|');
    Command::Vote {
        resolution: number(rt, &mut parts),
        login: text(rt, alloc, &mut parts),
        ranks: text(rt, alloc, &mut parts),
        token: text(rt, alloc, &mut parts),
    }
}

fn close(rt: &impl Abort, words: &str) -> Command {
    let mut parts = words.split('|');
    Command::Close {
        resolution: number(rt, &mut parts),
    }
}

fn cast(rt: &impl Abort, words: &str) -> Command {
    let mut parts = words.split('|');
    Command::Cast {
        resolution: number(rt, &mut parts),
        place: number(rt, &mut parts),
    }
}

fn developer(rt: &impl Abort, alloc: Global, words: &str) -> Command {
    let mut parts = words.split('|');
    Command::SetDeveloper {
        login: text(rt, alloc, &mut parts),
        name: text(rt, alloc, &mut parts),
        standing: standing(rt, &mut parts),
    }
}

fn import(rt: &impl Abort, alloc: Global, words: &str) -> Command {
    let mut rows = Vec::new(alloc);
    if !words.is_empty() {
        for row in words.split(';') {
            rows.push(roll_row_of(rt, alloc, row)).expect(rt, "memory");
        }
    }
    Command::ImportRoll { rows }
}

fn roll_row_of(rt: &impl Abort, alloc: Global, words: &str) -> RollRow {
    let mut parts = words.split('|');
    RollRow {
        login: text(rt, alloc, &mut parts),
        name: text(rt, alloc, &mut parts),
        status: text(rt, alloc, &mut parts),
    }
}

fn numbered(rt: &impl Abort, alloc: Global, words: &str) -> Command {
    let mut parts = words.split('|');
    let prefix = column(rt, &mut parts);
    let first = number(rt, &mut parts);
    let step = number(rt, &mut parts);
    let times = number(rt, &mut parts);
    let rows = numbered_rows(rt, alloc, prefix, first, step, times);
    import(rt, alloc, rows.as_str().trim_end_matches(';'))
}

/// So many rows of an import, with semicolons after them.
fn numbered_rows(
    rt: &impl Abort,
    alloc: Global,
    prefix: &str,
    first: u32,
    step: u32,
    times: u32,
) -> String {
    let mut rows = String::new(alloc);
    let mut suffix = first;
    for _ in 0..times {
        write!(rows, "{prefix}{suffix}|Dora Dean|current;").expect(rt, "memory");
        suffix = suffix.saturating_add(step);
    }
    rows
}

/// The next part, as a developer, or as who else proposes.
fn proposer(rt: &impl Abort, alloc: Global, parts: &mut Split<'_, char>) -> Proposer {
    match column(rt, parts) {
        "@leader" => Proposer::Leader,
        "@committee" => Proposer::Committee,
        login => Proposer::Developer(owned(rt, alloc, login)),
    }
}

/// The next two parts, as a summary and a text.
fn wording(rt: &impl Abort, alloc: Global, parts: &mut Split<'_, char>) -> Wording {
    Wording {
        summary: text(rt, alloc, parts),
        text: text(rt, alloc, parts),
    }
}

/// The next part, as a choice.
fn choice(rt: &impl Abort, parts: &mut Split<'_, char>) -> ChoiceKey {
    let (resolution, number) = cut(rt, column(rt, parts), ".");
    ChoiceKey {
        resolution: small(rt, resolution),
        number: small(rt, number),
    }
}

fn amendment(rt: &impl Abort, parts: &mut Split<'_, char>) -> Amendment {
    match column(rt, parts) {
        "minor" => Amendment::Minor,
        "substantial" => Amendment::Substantial,
        _ => panic!(rt; "no such kind of amendment"),
    }
}

fn standing(rt: &impl Abort, parts: &mut Split<'_, char>) -> Standing {
    Standing::of_word(column(rt, parts)).expect(rt, "a standing")
}

fn number(rt: &impl Abort, parts: &mut Split<'_, char>) -> u32 {
    small(rt, column(rt, parts))
}

/// So many days, or so many fewer.
fn days(rt: &impl Abort, parts: &mut Split<'_, char>) -> i32 {
    let digits = column(rt, parts);
    digits.parse().expect(rt, digits)
}

/// The number that the decimal digits say.
pub(super) fn small(rt: &impl Abort, digits: &str) -> u32 {
    digits.parse().expect(rt, digits)
}

/// What stands before the first such mark, and after it.
pub(super) fn cut<'w>(rt: &impl Abort, words: &'w str, mark: &str) -> (&'w str, &'w str) {
    halves(words, mark).expect(rt, words)
}

/// What stands before the first such mark, and after it, if there is one.
pub(super) fn halves<'w>(words: &'w str, mark: &str) -> Option<(&'w str, &'w str)> {
    words.split_once(mark)
}
