//! `count` gives what the plain and slow program gives.

use super::definitions::{Outcome, Text, Vote, count_slowly};
use super::{add, is_over, same};
use gr_count::{Count, MAX_DEVELOPERS, MAX_OPTIONS, MAX_RATIO, MIN_OPTIONS, Pairs, Ratios, count};
use std::process::Abort;

/// The most ballots of a vote here.
const MOST: usize = 40;

/// Each way to prefer some of three options to others, spelled in one way or another.
const SHAPES: [[u8; 3]; 13] = [
    *b"---", *b"112", *b"1-1", *b"-aa", *b"1--", *b"-5-", *b"--z", *b"12-", *b"1a9", *b"b-a",
    *b"a1-", *b"-1c", *b"za9",
];

/// The count of the same vote by the crate.
fn counted(rt: &impl Abort, vote: &Vote<'_>) -> Count {
    let options = vote.options;
    assert!(rt; MIN_OPTIONS <= options && options <= MAX_OPTIONS);
    let mut pairs = Pairs::new(options);
    for text in vote.ballots {
        add(rt, &mut pairs, &text[..options]);
    }
    let mut ratios = Ratios::new(pairs.options());
    for option in 0..pairs.options() {
        let ratio = vote.ratios[option];
        assert!(rt; 1 <= ratio && ratio <= MAX_RATIO);
        ratios.set(option, ratio);
    }
    let developers = vote.developers;
    assert!(rt; developers <= MAX_DEVELOPERS);
    count(&pairs, developers, &ratios)
}

/// The two programs agree on the vote.
fn compare(rt: &impl Abort, vote: &Vote<'_>) {
    let count = counted(rt, vote);
    let expected = count_slowly(vote);
    for option in 0..count.options() {
        compare_option(rt, &count, &expected, option);
    }
    same(rt, &count.rounds(), &expected.rounds, &"rounds");
    compare_outcome(rt, &count, &expected);
}

fn compare_option(rt: &impl Abort, count: &Count, expected: &Outcome, option: usize) {
    assert!(rt; option < count.options());
    same(rt, &count.kept(option), &expected.kept[option], &option);
    same(
        rt,
        &count.in_set(option),
        &expected.members[option],
        &option,
    );
    for other in 0..count.options() {
        let dropped_in = expected.dropped_in[option][other];
        is_over(
            rt,
            option,
            other,
            count.dropped_in(option, other),
            dropped_in,
        );
    }
}

fn compare_outcome(rt: &impl Abort, count: &Count, expected: &Outcome) {
    let mut members = 0usize;
    let mut last = None;
    for option in 0..count.options() {
        if expected.members[option] {
            members = members.saturating_add(1);
            last = Some(option);
        }
    }
    same(rt, &count.members(), &members, &"members");
    let winner = if members == 1 { last } else { None };
    same(rt, &count.winner(), &winner, &"winner");
}

/// Every profile of up to four ballots with three options.
#[test]
fn small_profiles(rt: HostRuntime) {
    for profile in 0..14u32 * 14 * 14 * 14 {
        let mut texts = [[b'-'; MAX_OPTIONS]; MOST];
        let mut ballots = 0usize;
        let mut digits = profile;
        for _ in 0..4 {
            if let Some(shape) = SHAPES.get((digits % 14) as usize) {
                assert!(rt; ballots < MOST);
                texts[ballots][0] = shape[0];
                texts[ballots][1] = shape[1];
                texts[ballots][2] = shape[2];
                ballots += 1;
            }
            digits /= 14;
        }
        assert!(rt; ballots <= MOST);
        for (developers, ratio) in [(0, 1), (4, 2)] {
            let mut ratios = [1; MAX_OPTIONS];
            ratios[0] = ratio;
            compare(
                &rt,
                &Vote {
                    options: 3,
                    ballots: &texts[..ballots],
                    developers,
                    ratios,
                },
            );
        }
    }
}

/// Numbers that look drawn, from a fixed beginning.
#[derive(Drop)]
struct Draw {
    state: u64,
}

impl Draw {
    /// A number below `limit`, or 0.
    fn below(&mut self, limit: u64) -> u64 {
        self.state = self
            .state
            .wrapping_mul(6_364_136_223_846_793_005)
            .wrapping_add(1_442_695_040_888_963_407);
        if limit == 0 {
            0
        } else {
            (self.state >> 33) % limit
        }
    }

    /// A number from 0 to `most`.
    fn up_to(&mut self, most: usize) -> usize {
        self.below((most as u64).saturating_add(1)) as usize
    }

    /// A character of a ballot, of the first so many ranks.
    fn character(&mut self, ranked_of_eight: u64, ranks: u64) -> u8 {
        if self.below(8) >= ranked_of_eight {
            return b'-';
        }
        let rank = self.below(ranks).min(34) as u8;
        if rank < 9 {
            b'1' + rank
        } else {
            b'a' + (rank - 9)
        }
    }

    /// A ballot that ranks most of so many options, and seldom the last of them.
    fn text(&mut self, options: usize, ranks: u64) -> Text {
        let mut text = [b'-'; MAX_OPTIONS];
        for option in 0..MAX_OPTIONS {
            let ranked = if option + 1 < options { 7 } else { 1 };
            text[option] = self.character(ranked, ranks);
        }
        text
    }

    /// A ratio, which is 1 for most options.
    fn ratio(&mut self) -> u32 {
        if self.below(4) == 0 { 3 } else { 1 }
    }
}

/// The two programs agree on so many drawn ballots over so many options.
fn compare_drawn(rt: &impl Abort, draw: &mut Draw, options: usize, ballots: usize) {
    let ranks = draw.below(35).saturating_add(1);
    let mut texts = [[b'-'; MAX_OPTIONS]; MOST];
    for text in &mut texts {
        *text = draw.text(options, ranks);
    }
    let mut ratios = [1; MAX_OPTIONS];
    for ratio in &mut ratios {
        *ratio = draw.ratio();
    }
    let developers = draw.below(17).min(16) as u32;
    assert!(rt; ballots <= MOST && options <= MAX_OPTIONS);
    compare(
        rt,
        &Vote {
            options,
            ballots: &texts[..ballots],
            developers,
            ratios,
        },
    );
}

/// A few thousand drawn profiles, of 2 to 17 options.
#[test]
fn drawn_profiles(rt: HostRuntime) {
    let mut draw = Draw { state: 1 };
    for _ in 0..4_000 {
        let options = draw.up_to(15).saturating_add(2);
        let ballots = draw.up_to(12);
        compare_drawn(&rt, &mut draw, options, ballots);
    }
}

/// Drawn profiles of as many options as a vote can have.
#[test]
fn drawn_profiles_of_35_options(rt: HostRuntime) {
    let mut draw = Draw { state: 35 };
    for _ in 0..200 {
        let ballots = draw.up_to(20).saturating_add(20);
        compare_drawn(&rt, &mut draw, MAX_OPTIONS, ballots);
    }
}
