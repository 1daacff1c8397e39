//! A vote over several lines, with a stop in the act after it: the premises of what is proved of
//! it are met.
use super::same;
use crate::witness::{NoResult, vote_in_memory};
use gr_desk::failure::Failure;
use gr_http::answer::Served;
use std::alloc::Global;
use std::process::Abort;

/// The vote takes more calls of the log than these, and all lines less than twice as many.
const CALLS: u64 = 512;

/// The binary digits of a number below that.
const DIGITS: [u64; 9] = [256, 128, 64, 32, 16, 8, 4, 2, 1];

/// The result of the vote, written by hand: one ballot is no quorum.
const RESULT: &str = "\
Result of resolution 1
Voting: 2026-01-15T00:00:00Z to 2026-01-22T00:00:00Z
Developers: 2
Ballots: 1
Received: 1
Option 1: Red
Option 2: None of the above
Test 1: above 1, below 0, ratio 1, quorum failed, majority met, dropped
Schwartz: 2
Winner: 2
";

/// Whether it was answered with status 200.
fn is_granted(outcome: Result<Served, Failure>) -> bool {
    outcome.is_ok_and(|served| served.status.as_u16() == 200)
}

/// Whether the log, which fails for good after so many calls, does so after the further act, or
/// inside it once its connection is open.
fn is_late(rt: &impl Abort, alloc: Global, calls: u64) -> bool {
    match vote_in_memory(alloc, calls) {
        Ok(found) => {
            same(rt, found.sheet.as_slice(), RESULT.as_bytes(), calls);
            true
        }
        Err(no_result) => no_result == NoResult::Sheet,
    }
}

/// The log fails inside the further act, at its first call after the opening.
#[test]
fn the_result_has_the_vote_behind_a_stop(rt: HostRuntime) {
    let mut calls = CALLS;
    for digit in &DIGITS {
        if !is_late(&rt, rt.alloc(), calls | *digit) {
            calls |= *digit;
        }
    }
    let Ok(found) = vote_in_memory(rt.alloc(), calls.saturating_add(1)) else {
        panic!(rt; "no sheet");
    };
    same(&rt, found.sheet.as_slice(), RESULT.as_bytes(), calls);
    same(&rt, is_granted(found.further), false, "the further act");
}

/// The log does not fail.
#[test]
fn the_result_has_the_vote_where_nothing_stops(rt: HostRuntime) {
    let Ok(found) = vote_in_memory(rt.alloc(), u64::MAX) else {
        panic!(rt; "no sheet");
    };
    same(&rt, found.sheet.as_slice(), RESULT.as_bytes(), "no stop");
    same(&rt, is_granted(found.further), true, "the further act");
}
