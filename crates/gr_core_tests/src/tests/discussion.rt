//! The clock of a discussion, at its boundaries.
use super::{LAST, NEW_YEAR};
use gr_core::Discussion;
use std::process::Abort;

const DAY: u64 = 86_400;

/// Days from the start to the last change, days of the shift, and days from the start to the end.
#[test]
fn discussions_end_by_their_last_change(rt: HostRuntime) {
    for (changed, shift, end) in [
        (None, 0, 14),
        (None, -7, 7),
        (None, 7, 21),
        (Some(0), 0, 14),
        (Some(3), 0, 14),
        (Some(7), 0, 14),
        (Some(8), 0, 15),
        (Some(10), 0, 17),
        (Some(14), 0, 21),
        (Some(16), 0, 21),
        (Some(40), 0, 21),
        (Some(0), -7, 7),
        (Some(1), -7, 8),
        (Some(7), -7, 14),
        (Some(8), -7, 14),
        (Some(14), 7, 21),
        (Some(15), 7, 22),
        (Some(21), 7, 28),
        (Some(22), 7, 28),
    ] {
        let changed = changed.map(days_later);
        ends(&rt, NEW_YEAR, changed, shift, days_later(end));
    }
}

fn days_later(days: u8) -> u64 {
    NEW_YEAR + u64::from(days) * DAY
}

/// Seconds from the start to the change and to the end, where the end begins and ceases to move.
#[test]
fn discussions_end_by_the_second(rt: HostRuntime) {
    let start = LAST - 14 * DAY - 1;
    for (changed, end) in [
        (7 * DAY - 1, 14 * DAY),
        (7 * DAY + 1, 14 * DAY + 1),
        (14 * DAY - 1, 21 * DAY - 1),
        (14 * DAY + 1, 21 * DAY),
    ] {
        ends(&rt, start, Some(start + changed), 0, start + end);
    }
}

/// Wants a discussion with this start, this last change and this shift to end at this moment.
fn ends(rt: &impl Abort, start: u64, changed: Option<u64>, shift: i32, end: u64) {
    assert!(rt; start <= LAST && -7 <= shift && shift <= 7);
    if let Some(changed) = changed {
        assert!(rt; changed <= LAST);
    }
    let discussion = Discussion {
        start,
        changed,
        shift,
    };
    assert_eq!(rt; discussion.end(), end, "{shift}");
}
