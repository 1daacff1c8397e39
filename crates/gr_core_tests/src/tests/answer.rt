//! Answers in words.
//!
//! - `ok 3: alice header` is the count of the accepted commands and the rows that were put, or how
//!   many those are where they are more than ten.
//! - `ok 3 added 2 changed 0 same 1: alice bob header` says besides what the rows of an import did.
//! - `refused 8 Full` is the number of a refusal, and what it prints.
use super::script::push;
use super::{NEW_YEAR, owned};
use gr_core::{
    Ballot, Change, Choice, ChoiceKey, Developer, Discussion, Imported, Note, Poll, Proposer,
    Receipt, Refusal, Reply, Resolution, Sponsorship, Standing,
};
use gr_count::{Count, Pairs};
use std::alloc::Global;
use std::collections::BTreeMap;
use std::process::Abort;

/// The answer to an accepted command, with the rows that were put, in words.
pub(super) fn accepted_text(rt: &impl Abort, alloc: Global, reply: Reply, rows: &str) -> String {
    let accepted = reply.accepted;
    let note = note_text(rt, alloc, reply.note);
    format!(in alloc; "ok {accepted}{note}: {rows}").expect(rt, "memory")
}

/// The answer to a refused command.
pub(super) fn refused_text(rt: &impl Abort, alloc: Global, refusal: Refusal) -> String {
    let number = refusal.number();
    format!(in alloc; "refused {number} {refusal}").expect(rt, "memory")
}

fn note_text(rt: &impl Abort, alloc: Global, note: Note) -> String {
    match note {
        Note::Done => String::new(alloc),
        Note::Roll(counts) => counts_text(rt, alloc, counts),
        Note::Resolution(number) => format!(in alloc; " resolution {number}").expect(rt, "memory"),
        Note::Choice(number) => format!(in alloc; " choice {number}").expect(rt, "memory"),
        Note::Called { places, until } => call_text(rt, alloc, places, until),
        Note::Cancelled => owned(rt, alloc, " cancelled"),
        Note::Receipt(receipt) => receipt_text(rt, alloc, &receipt),
    }
}

fn receipt_text(rt: &impl Abort, alloc: Global, receipt: &Receipt) -> String {
    format!(in alloc; " receipt {receipt}").expect(rt, "memory")
}

fn call_text(rt: &impl Abort, alloc: Global, places: usize, until: u64) -> String {
    let until = after_new_year(until);
    format!(in alloc; " places {places} until +{until}").expect(rt, "memory")
}

/// The seconds from the new year to the moment.
fn after_new_year(at: u64) -> u64 {
    at.saturating_sub(NEW_YEAR)
}

fn counts_text(rt: &impl Abort, alloc: Global, counts: Imported) -> String {
    let Imported {
        added,
        changed,
        same,
    } = counts;
    format!(in alloc; " added {added} changed {changed} same {same}").expect(rt, "memory")
}

/// The rows, or how many rows these are.
pub(super) fn rows_text(rt: &impl Abort, alloc: Global, changes: &[Change]) -> String {
    let count = changes.len();
    if count > 10 {
        format!(in alloc; "{count} rows").expect(rt, "memory")
    } else {
        keys_text(rt, alloc, changes)
    }
}

fn keys_text(rt: &impl Abort, alloc: Global, changes: &[Change]) -> String {
    let mut keys = String::new(alloc);
    for change in changes {
        let key = key_text(rt, alloc, change);
        if !keys.is_empty() {
            push(rt, &mut keys, " ");
        }
        push(rt, &mut keys, key.as_str());
    }
    keys
}

/// A row: the key of a developer's, and of the others the key and what the row says, as
/// `resolution:1=discussing(+0,changed+60,shift-2)`, as
/// `choice:1.2=d1,Red,a,1,in+0,short+60,place1`, as `sponsor:1.2:alice=active` or as
/// `ballot:1:alice=4,` with the receipt and `,2`, which is of a ballot with four places after the
/// voter's second vote. Moments are seconds from the new year.
fn key_text(rt: &impl Abort, alloc: Global, change: &Change) -> String {
    match change {
        Change::Header(_) => owned(rt, alloc, "header"),
        Change::Developer { login, .. } => owned(rt, alloc, login.as_str()),
        Change::Resolution { number, resolution } => resolution_text(
            rt,
            alloc,
            *number,
            *resolution,
        ),
        Change::Choice { key, choice } => choice_text(rt, alloc, *key, choice),
        Change::Sponsor {
            choice,
            login,
            sponsorship,
        } => sponsor_text(rt, alloc, *choice, login.as_str(), *sponsorship),
        Change::Ballot {
            resolution,
            login,
            ballot,
        } => ballot_text(rt, alloc, *resolution, login.as_str(), ballot),
    }
}

fn resolution_text(rt: &impl Abort, alloc: Global, number: u32, resolution: Resolution) -> String {
    let stage = stage_text(rt, alloc, resolution);
    format!(in alloc; "resolution:{number}={stage}").expect(rt, "memory")
}

fn stage_text(rt: &impl Abort, alloc: Global, resolution: Resolution) -> String {
    match resolution {
        Resolution::Draft => owned(rt, alloc, "draft"),
        Resolution::Discussing(discussion) => {
            let discussion = discussion_text(rt, alloc, discussion);
            format!(in alloc; "discussing({discussion})").expect(rt, "memory")
        }
        Resolution::Voting(discussion, poll) => voting_text(rt, alloc, discussion, poll),
        Resolution::Closed(discussion, poll, chosen) => {
            closed_text(rt, alloc, discussion, poll, chosen)
        }
        Resolution::Cancelled(discussion) => {
            let discussion = discussion_text(rt, alloc, discussion);
            format!(in alloc; "cancelled({discussion})").expect(rt, "memory")
        }
    }
}

fn voting_text(rt: &impl Abort, alloc: Global, discussion: Discussion, poll: Poll) -> String {
    let discussion = discussion_text(rt, alloc, discussion);
    let poll = poll_text(rt, alloc, poll);
    format!(in alloc; "voting({discussion};{poll})").expect(rt, "memory")
}

fn closed_text(
    rt: &impl Abort,
    alloc: Global,
    discussion: Discussion,
    poll: Poll,
    chosen: Option<u32>,
) -> String {
    let discussion = discussion_text(rt, alloc, discussion);
    let poll = poll_text(rt, alloc, poll);
    let chosen = place_text(rt, alloc, chosen);
    format!(in alloc; "closed({discussion};{poll}{chosen})").expect(rt, "memory")
}

fn poll_text(rt: &impl Abort, alloc: Global, poll: Poll) -> String {
    let called = after_new_year(poll.called);
    let days = poll.days;
    let developers = poll.developers;
    format!(in alloc; "+{called},{days},{developers}").expect(rt, "memory")
}

fn discussion_text(rt: &impl Abort, alloc: Global, discussion: Discussion) -> String {
    let start = after_new_year(discussion.start);
    let changed = moment_text(rt, alloc, ",changed", discussion.changed);
    let shift = shift_text(rt, alloc, discussion.shift);
    format!(in alloc; "+{start}{changed}{shift}").expect(rt, "memory")
}

fn shift_text(rt: &impl Abort, alloc: Global, shift: i32) -> String {
    if shift == 0 {
        String::new(alloc)
    } else {
        format!(in alloc; ",shift{shift}").expect(rt, "memory")
    }
}

/// The word and the moment, if there is one.
fn moment_text(rt: &impl Abort, alloc: Global, word: &str, at: Option<u64>) -> String {
    match at {
        Some(at) => {
            let at = after_new_year(at);
            format!(in alloc; "{word}+{at}").expect(rt, "memory")
        }
        None => String::new(alloc),
    }
}

fn choice_text(rt: &impl Abort, alloc: Global, key: ChoiceKey, choice: &Choice) -> String {
    let ChoiceKey { resolution, number } = key;
    let said = said_text(rt, alloc, choice);
    let stands = standing_text(rt, alloc, choice);
    format!(in alloc; "choice:{resolution}.{number}={said}{stands}").expect(rt, "memory")
}

/// Who proposes the choice, what it says, and its ratio.
fn said_text(rt: &impl Abort, alloc: Global, choice: &Choice) -> String {
    let proposer = proposer_text(&choice.proposer);
    let summary = choice.wording.summary.as_str();
    let text = choice.wording.text.as_str();
    let ratio = choice.ratio;
    format!(in alloc; "{proposer},{summary},{text},{ratio}").expect(rt, "memory")
}

/// When the choice was introduced, since when it is short, and its place, as far as there are any.
fn standing_text(rt: &impl Abort, alloc: Global, choice: &Choice) -> String {
    let introduced = moment_text(rt, alloc, ",in", choice.introduced);
    let short = moment_text(rt, alloc, ",short", choice.short);
    let place = place_text(rt, alloc, choice.place);
    format!(in alloc; "{introduced}{short}{place}").expect(rt, "memory")
}

fn place_text(rt: &impl Abort, alloc: Global, place: Option<u32>) -> String {
    match place {
        Some(place) => format!(in alloc; ",place{place}").expect(rt, "memory"),
        None => String::new(alloc),
    }
}

fn proposer_text(proposer: &Option<Proposer>) -> &str {
    match proposer {
        Some(Proposer::Developer(login)) => login.as_str(),
        Some(Proposer::Leader) => "@leader",
        Some(Proposer::Committee) => "@committee",
        None => "nobody",
    }
}

fn sponsor_text(
    rt: &impl Abort,
    alloc: Global,
    choice: ChoiceKey,
    login: &str,
    sponsorship: Sponsorship,
) -> String {
    let ChoiceKey { resolution, number } = choice;
    let word = match sponsorship {
        Sponsorship::Active => "active",
        Sponsorship::Withdrawn => "withdrawn",
    };
    format!(in alloc; "sponsor:{resolution}.{number}:{login}={word}").expect(rt, "memory")
}

fn ballot_text(
    rt: &impl Abort,
    alloc: Global,
    resolution: u32,
    login: &str,
    ballot: &Ballot,
) -> String {
    let places = ballot.ranks.options();
    let receipt = ballot.receipt;
    let received = ballot.received;
    format!(in alloc; "ballot:{resolution}:{login}={places},{receipt},{received}").expect(
        rt, "memory",
    )
}

/// How many ballots are counted, and for each two places, the lower one first, how many of them
/// prefer the one to the other, a colon, and how many the other to the one.
pub(super) fn pairs_text(rt: &impl Abort, alloc: Global, pairs: &Pairs) -> String {
    let mut text = format!(in alloc; "{}", pairs.ballots()).expect(rt, "memory");
    for first in 0..pairs.options() {
        for second in first + 1..pairs.options() {
            let above = pairs.above(first, second);
            let below = pairs.above(second, first);
            write!(text, " {above}:{below}").expect(rt, "memory");
        }
    }
    text
}

/// The rounds that the count took, and the places of the outcome set, with commas between them.
pub(super) fn outcome_text(rt: &impl Abort, alloc: Global, count: &Count) -> String {
    let rounds = count.rounds();
    let mut outcome = format!(in alloc; "{rounds} ").expect(rt, "memory");
    let mut separator = "";
    for option in 0..count.options() {
        if count.in_set(option) {
            write!(outcome, "{separator}{}", option + 1).expect(rt, "memory");
            separator = ",";
        }
    }
    outcome
}

/// The roll in the words of an import.
pub(super) fn roll_text(
    rt: &impl Abort,
    alloc: Global,
    developers: &BTreeMap<String, Developer>,
) -> String {
    let mut roll = String::new(alloc);
    for (login, developer) in developers {
        if !roll.is_empty() {
            push(rt, &mut roll, ";");
        }
        let row = developer_text(rt, alloc, login.as_str(), developer);
        push(rt, &mut roll, row.as_str());
    }
    roll
}

/// A row of the roll in the words of an import.
pub(super) fn developer_text(
    rt: &impl Abort,
    alloc: Global,
    login: &str,
    developer: &Developer,
) -> String {
    let name = developer.name.as_str();
    let status = match developer.standing {
        Standing::Current => "current",
        Standing::Retired => "retired",
    };
    format!(in alloc; "{login}|{name}|{status}").expect(rt, "memory")
}
