//! Ballots added, told and taken out again.

use super::{add, check_voters, counted, read, same, take_out, tally};
use gr_count::{MAX_OPTIONS, Pairs};
use std::process::Abort;

/// Wants the pairs to tell that a ballot of this text may have been added, or that it was not.
fn check_held(rt: &impl Abort, pairs: &Pairs, text: &[u8], is_held: bool) {
    let found = pairs.holds(&read(rt, pairs.options(), text));
    same(rt, &found, &is_held, &text);
}

/// Wants the pairs to have this many ballots, of which this many prefer the first option to the
/// second, and this many the second.
fn has_ballots(rt: &impl Abort, pairs: &Pairs, ballots: u32, first: u32, second: u32) {
    same(rt, &pairs.ballots(), &ballots, &"ballots");
    check_voters(rt, pairs, &[(0, 1, first, second)]);
}

/// Wants the pairs to have as many ballots as there can be, or not.
fn check_full(rt: &impl Abort, pairs: &Pairs, is_full: bool) {
    same(rt, &pairs.is_full(), &is_full, &"full");
}

/// A voter's later ballots, each in the place of the one before.
#[test]
fn a_later_ballot_takes_the_place_of_the_first(rt: HostRuntime) {
    let mut pairs = tally(&rt, 2, &[(1, b"12")]);
    has_ballots(&rt, &pairs, 1, 1, 0);
    for (old, new, first, second) in [(b"12", b"21", 0, 1), (b"21", b"--", 0, 0)] {
        take_out(&rt, &mut pairs, old);
        has_ballots(&rt, &pairs, 0, 0, 0);
        add(&rt, &mut pairs, new);
        has_ballots(&rt, &pairs, 1, first, second);
    }
}

/// Which ballots may have been added, as far as the counts tell.
#[test]
fn pairs_hold_what_may_have_been_added(rt: HostRuntime) {
    let no_ballot: &[(u32, &[u8])] = &[];
    let one: &[(u32, &[u8])] = &[(1, b"12-")];
    let two: &[(u32, &[u8])] = &[(1, b"12-"), (1, b"21-")];
    let cycle: &[(u32, &[u8])] = &[(1, b"123"), (1, b"312"), (1, b"231")];
    for (ballots, text, is_held) in [
        // no ballot at all
        (no_ballot, b"---", false),
        (no_ballot, b"123", false),
        // what was added, and another text that prefers the same
        (one, b"12-", true),
        (one, b"3a-", true),
        // a preference with no voter: the second option to the first, the third to the second
        (one, b"21-", false),
        (one, b"132", false),
        // a pair left level, with no voter who does: the first two, the last two, all
        (one, b"11-", false),
        (one, b"1--", false),
        (one, b"---", false),
        // the two voters differ on the first two options, and none leaves them level
        (two, b"12-", true),
        (two, b"21-", true),
        (two, b"11-", false),
        // never added, but each preference has a voter
        (cycle, b"213", true),
    ] {
        check_held(&rt, &tally(&rt, 3, ballots), text, is_held);
    }
}

/// A ballot that was taken out is held no more, and the others are.
#[test]
fn what_is_taken_out_is_gone(rt: HostRuntime) {
    let mut pairs = tally(&rt, 3, &[(1, b"12-"), (2, b"-a9"), (1, b"---")]);
    take_out(&rt, &mut pairs, b"12-");
    for (text, is_held) in [(b"12-", false), (b"-a9", true), (b"---", true)] {
        check_held(&rt, &pairs, text, is_held);
    }
    has_ballots(&rt, &pairs, 3, 0, 2);
    check_voters(&rt, &pairs, &[(0, 2, 0, 2), (1, 2, 0, 2)]);
}

#[test]
fn a_vote_is_full_at_2000_ballots(rt: HostRuntime) {
    let mut pairs = tally(&rt, 2, &[(1_999, b"12")]);
    check_full(&rt, &pairs, false);
    add(&rt, &mut pairs, b"-1");
    check_full(&rt, &pairs, true);
    check_voters(&rt, &pairs, &[(0, 1, 1_999, 1)]);
}

/// As many ballots as one vote can have, of as many options: one of them is the other way round.
#[test]
fn a_vote_of_35_options_is_full_at_2000_ballots(rt: HostRuntime) {
    let mut pairs = Pairs::new(MAX_OPTIONS);
    for _ in 0..1_999 {
        add(&rt, &mut pairs, b"123456789abcdefghijklmnopqrstuvwxyz");
    }
    check_full(&rt, &pairs, false);
    add(&rt, &mut pairs, b"zyxwvutsrqponmlkjihgfedcba987654321");
    check_full(&rt, &pairs, true);
    has_ballots(&rt, &pairs, 2_000, 1_999, 1);
    for first in 0..35 {
        for second in first + 1..35 {
            check_voters(&rt, &pairs, &[(first, second, 1_999, 1)]);
        }
    }
    let winner = counted(&rt, &pairs, 2_000).winner();
    same(&rt, &winner, &Some(0), &"winner");
}
