//! Whole votes, with their outcomes taken from the rules by hand.

use super::{Expected, check_voters, counted, tally};
use gr_count::{Ratios, count};

/// A cycle of three, of which the weakest defeat falls.
#[test]
fn a_cycle_loses_its_weakest_defeat(rt: HostRuntime) {
    let pairs = tally(&rt, 4, &[(4, b"1234"), (3, b"3124"), (2, b"2314")]);
    check_voters(
        &rt,
        &pairs,
        &[
            (0, 1, 6, 3),
            (0, 2, 4, 5),
            (0, 3, 9, 0),
            (1, 2, 7, 2),
            (1, 3, 9, 0),
            (2, 3, 9, 0),
        ],
    );
    Expected {
        kept: &[true, true, true, true],
        members: &[true, false, false, false],
        rounds: 1,
        drops: &[(1, 2, 0)],
        winner: Some(0),
    }
    .check(&rt, &counted(&rt, &pairs, 16));
}

/// Of two defeats with as many voters, the one with more opposition is the weaker.
#[test]
fn opposition_decides_between_equals(rt: HostRuntime) {
    let pairs = tally(
        &rt,
        4,
        &[(3, b"1234"), (3, b"3124"), (3, b"2314"), (1, b"1224")],
    );
    check_voters(
        &rt,
        &pairs,
        &[
            (0, 1, 7, 3),
            (0, 2, 4, 6),
            (0, 3, 10, 0),
            (1, 2, 6, 3),
            (1, 3, 10, 0),
            (2, 3, 10, 0),
        ],
    );
    Expected {
        kept: &[true, true, true, true],
        members: &[true, false, false, false],
        rounds: 1,
        drops: &[(1, 2, 0)],
        winner: Some(0),
    }
    .check(&rt, &counted(&rt, &pairs, 16));
}

/// A cycle of equal defeats falls whole, and the casting vote chooses.
#[test]
fn equal_defeats_fall_together(rt: HostRuntime) {
    let pairs = tally(&rt, 4, &[(1, b"1234"), (1, b"3124"), (1, b"2314")]);
    Expected {
        kept: &[true, true, true, true],
        members: &[true, true, true, false],
        rounds: 1,
        drops: &[(1, 0, 1), (1, 1, 2), (1, 2, 0)],
        winner: None,
    }
    .check(&rt, &counted(&rt, &pairs, 4));
}

/// Without a ballot nothing meets the quorum.
#[test]
fn no_ballot_leaves_the_default_option(rt: HostRuntime) {
    let pairs = tally(&rt, 2, &[]);
    Expected {
        kept: &[false, true],
        members: &[false, true],
        rounds: 0,
        drops: &[],
        winner: Some(1),
    }
    .check(&rt, &counted(&rt, &pairs, 16));
}

/// A majority of 3 to 1 is missed by one voter.
#[test]
fn a_ratio_asks_for_more_voters(rt: HostRuntime) {
    for (voters, met) in [(5, false), (6, true)] {
        let pairs = tally(&rt, 2, &[(voters, b"1-"), (2, b"-1")]);
        let mut ratios = Ratios::new(pairs.options());
        ratios.set(0, 3);
        Expected {
            kept: &[met, true],
            members: &[met, !met],
            rounds: 0,
            drops: &[],
            winner: Some(if met { 0 } else { 1 }),
        }
        .check(&rt, &count(&pairs, 4, &ratios));
    }
}

/// The weakest of all defeats, 1 over 4 by 2 to 0, is outside the Schwartz set and stays.
#[test]
fn drops_are_inside_the_schwartz_set(rt: HostRuntime) {
    let pairs = tally(&rt, 5, &[(4, b"12314"), (3, b"31234"), (2, b"23145")]);
    check_voters(
        &rt,
        &pairs,
        &[
            (0, 1, 6, 3),
            (1, 2, 7, 2),
            (2, 0, 5, 4),
            (0, 3, 2, 0),
            (1, 3, 5, 4),
            (2, 3, 5, 4),
        ],
    );
    Expected {
        kept: &[true, true, true, true, true],
        members: &[true, false, false, false, false],
        rounds: 1,
        drops: &[(1, 2, 0)],
        winner: Some(0),
    }
    .check(&rt, &counted(&rt, &pairs, 16));
}

/// A cycle of four has paths of three steps.
#[test]
fn paths_have_any_length(rt: HostRuntime) {
    let pairs = tally(
        &rt,
        5,
        &[(1, b"12345"), (1, b"41235"), (1, b"34125"), (1, b"23415")],
    );
    check_voters(
        &rt,
        &pairs,
        &[(0, 1, 3, 1), (1, 2, 3, 1), (2, 3, 3, 1), (3, 0, 3, 1)],
    );
    Expected {
        kept: &[true, true, true, true, true],
        members: &[true, true, true, true, false],
        rounds: 1,
        drops: &[(1, 0, 1), (1, 1, 2), (1, 2, 3), (1, 3, 0)],
        winner: None,
    }
    .check(&rt, &counted(&rt, &pairs, 4));
}

/// A second round follows the first.
#[test]
fn rounds_go_on(rt: HostRuntime) {
    let pairs = tally(
        &rt,
        5,
        &[(4, b"12435"), (4, b"41325"), (2, b"34215"), (1, b"24315")],
    );
    check_voters(&rt, &pairs, &[(2, 0, 6, 5), (0, 1, 7, 4), (3, 0, 7, 4)]);
    Expected {
        kept: &[true, true, true, true, true],
        members: &[true, true, false, false, false],
        rounds: 2,
        drops: &[(1, 2, 0), (2, 0, 1), (2, 3, 0)],
        winner: None,
    }
    .check(&rt, &counted(&rt, &pairs, 16));
}

/// More options than there are digits, and each voter prefers them in their order.
#[test]
fn options_beyond_the_digits_are_counted(rt: HostRuntime) {
    let pairs = tally(&rt, 11, &[(6, b"123456789ab")]);
    for first in 0..11 {
        for second in first + 1..11 {
            check_voters(&rt, &pairs, &[(first, second, 6, 0)]);
        }
    }
    let mut members = [false; 11];
    members[0] = true;
    Expected {
        kept: &[true; 11],
        members: &members,
        rounds: 0,
        drops: &[],
        winner: Some(0),
    }
    .check(&rt, &counted(&rt, &pairs, 16));
}
