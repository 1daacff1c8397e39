//! Thresholds, with numbers taken from the rules by hand, and what the other tests use. Options are
//! numbers from 0 here.

ghost use Rattle.std.specs.Prelude.{◌≡◌, ◌≤◌};
ghost use Rattle.gr_count.specs.Shown.{options_of_ranks};

use gr_count::{
    Count, MAX_BALLOTS, MAX_DEVELOPERS, MAX_OPTIONS, MAX_RATIO, MIN_OPTIONS, Pairs, Ranks, Ratios,
    count, meets_majority, meets_quorum, meets_sponsors,
};
use std::fmt::Debug;
use std::process::Abort;

mod ballots;
mod comparison;
mod definitions;
mod pairs;
mod votes;

/// Wants what was found about this to be so. Whoever compares does it here, since each assertion
/// costs its function a proof.
fn same<T: PartialEq + Debug>(rt: &impl Abort, found: &T, wanted: &T, about: &impl Debug) {
    assert_eq!(rt; found, wanted, "{about:?}");
}

/// The ballot of this text.
fn read(rt: &impl Abort, options: usize, text: &[u8]) -> Ranks
    requires few { options ≤ MAX_OPTIONS }
    requires enough { MIN_OPTIONS ≤ options }
    ensures { options_of_ranks result ≡ options }
{
    let ranks = Ranks::read(text, options).ok();
    ranks.expect(rt, "the text is a ballot")
}

/// Adds a ballot of this text.
fn add(rt: &impl Abort, pairs: &mut Pairs, text: &[u8]) {
    let ranks = read(rt, pairs.options(), text);
    assert!(rt; !pairs.is_full(), "there is room");
    pairs.add(&ranks);
}

/// Takes a ballot of this text out.
fn take_out(rt: &impl Abort, pairs: &mut Pairs, text: &[u8]) {
    let ranks = read(rt, pairs.options(), text);
    assert!(rt; pairs.holds(&ranks), "it may have been added");
    pairs.take(&ranks);
}

/// The pairs of ballots of these texts, each so many times.
fn tally(rt: &impl Abort, options: usize, ballots: &[(u32, &[u8])]) -> Pairs
    requires few { options ≤ MAX_OPTIONS }
    requires enough { MIN_OPTIONS ≤ options }
{
    let mut pairs = Pairs::new(options);
    for (times, text) in ballots {
        for _ in 0..*times {
            add(rt, &mut pairs, text);
        }
    }
    pairs
}

/// Adds the ballot where it may be added, and says whether it may.
fn add_if_it_fits(pairs: &mut Pairs, ranks: &Ranks) -> bool {
    let fits = ranks.options() == pairs.options() && !pairs.is_full();
    if fits {
        pairs.add(ranks);
    }
    fits
}

/// Takes the ballot out where it may be taken out, and says whether it may.
fn take_if_it_is_held(pairs: &mut Pairs, ranks: &Ranks) -> bool {
    let is_held = ranks.options() == pairs.options() && pairs.holds(ranks);
    if is_held {
        pairs.take(ranks);
    }
    is_held
}

/// The count, where the number of developers and the ratios fit the pairs.
fn count_if_it_fits(pairs: &Pairs, developers: u32, ratios: &Ratios) -> Option<Count> {
    if ratios.options() == pairs.options() && developers <= MAX_DEVELOPERS {
        Some(count(pairs, developers, ratios))
    } else {
        None
    }
}

/// How many voters prefer the first option to the second.
fn above(rt: &impl Abort, pairs: &Pairs, first: usize, second: usize) -> u32 {
    let options = pairs.options();
    assert!(rt; first < options && second < options, "two options");
    pairs.above(first, second)
}

/// Of each two options, as many voters prefer the first, and as many the second, as is said.
fn check_voters(rt: &impl Abort, pairs: &Pairs, rows: &[(usize, usize, u32, u32)]) {
    for &(first, second, voters, others) in rows {
        is_over(rt, first, second, above(rt, pairs, first, second), voters);
        is_over(rt, second, first, above(rt, pairs, second, first), others);
    }
}

/// Wants this number of two options.
fn is_over(rt: &impl Abort, first: usize, second: usize, found: u32, wanted: u32) {
    same(rt, &found, &wanted, &(first, "over", second));
}

/// The count with the ratio 1 for each option.
fn counted(rt: &impl Abort, pairs: &Pairs, developers: u32) -> Count {
    assert!(rt; developers <= MAX_DEVELOPERS, "a number of developers");
    let ratios = Ratios::new(pairs.options());
    count(pairs, developers, &ratios)
}

/// What a count is to find.
#[derive(Drop)]
struct Expected<'a> {
    kept: &'a [bool],
    members: &'a [bool],
    rounds: u32,
    /// Each dropped defeat: its round, and the options that defeats and that is defeated.
    drops: &'a [(u32, usize, usize)],
    winner: Option<usize>,
}

impl Expected<'_> {
    fn dropped_in(&self, first: usize, second: usize) -> u32 {
        for (round, winner, loser) in self.drops {
            if *winner == first && *loser == second {
                return *round;
            }
        }
        0
    }

    fn check(&self, rt: &impl Abort, count: &Count) {
        self.check_sizes(rt, count);
        for option in 0..count.options() {
            self.check_kept(rt, count, option);
            self.check_member(rt, count, option);
            self.check_drops(rt, count, option);
        }
        same(rt, &count.winner(), &self.winner, &"winner");
    }

    fn check_sizes(&self, rt: &impl Abort, count: &Count) {
        same(rt, &count.options(), &self.kept.len(), &"kept");
        same(rt, &count.options(), &self.members.len(), &"members");
        same(rt, &count.rounds(), &self.rounds, &"rounds");
        let members = self.members.iter().filter(|is| **is).count();
        same(rt, &count.members(), &members, &"members");
    }

    fn check_kept(&self, rt: &impl Abort, count: &Count, option: usize) {
        assert!(rt; option < count.options());
        let kept = count.kept(option);
        same(rt, &Some(&kept), &self.kept.get(option), &("kept", option));
    }

    fn check_member(&self, rt: &impl Abort, count: &Count, option: usize) {
        assert!(rt; option < count.options());
        let in_set = count.in_set(option);
        same(
            rt,
            &Some(&in_set),
            &self.members.get(option),
            &("member", option),
        );
    }

    fn check_drops(&self, rt: &impl Abort, count: &Count, first: usize) {
        for second in 0..count.options() {
            assert!(rt; first < count.options());
            let wanted = self.dropped_in(first, second);
            is_over(rt, first, second, count.dropped_in(first, second), wanted);
        }
    }
}

#[test]
fn sponsors_are_enough(rt: HostRuntime) {
    for (sponsors, developers, enough) in [
        (1, 16, false),
        (2, 16, true),
        (2, 17, false),
        (3, 17, true),
        (4, 100, false),
        (5, 100, true),
        (4, 101, false),
        (5, 101, true),
        (5, 2_000, true),
        (0, 0, true),
    ] {
        let found = meets_sponsors(sponsors, developers);
        same(&rt, &found, &enough, &(sponsors, "of", developers));
    }
}

#[test]
fn votes_meet_the_quorum(rt: HostRuntime) {
    for (votes, developers, met) in [
        (6, 16, true),
        (5, 16, false),
        (6, 17, false),
        (7, 17, true),
        (3, 4, true),
        (0, 0, true),
        (2_000, 2_000, true),
    ] {
        assert!(rt; votes <= MAX_BALLOTS && developers <= MAX_DEVELOPERS);
        let found = meets_quorum(votes, developers);
        same(&rt, &found, &met, &(votes, "of", developers));
    }
}

#[test]
fn options_have_their_majority(rt: HostRuntime) {
    for (above, below, ratio, met) in [
        (6, 2, 3, true),
        (5, 2, 3, false),
        (3, 3, 1, false),
        (0, 0, 1, false),
        (4, 3, 1, true),
        (2_000, 0, 9, true),
    ] {
        assert!(rt; above <= MAX_BALLOTS && below <= MAX_BALLOTS);
        assert!(rt; 1 <= ratio && ratio <= MAX_RATIO);
        let found = meets_majority(above, below, ratio);
        same(&rt, &found, &met, &(above, "to", below, "at", ratio));
    }
}

#[test]
fn conditions_are_met_by_tests(rt: HostRuntime) {
    let mut pairs = tally(&rt, 2, &[]);
    for (options, text, fits) in [(2, "1-", true), (2, "12", true), (3, "1-2", false)] {
        let ranks = any_ballot(&rt, options, text);
        same(&rt, &add_if_it_fits(&mut pairs, &ranks), &fits, &text);
    }
    is_over(&rt, 0, 1, above(&rt, &pairs, 0, 1), 2);
    for (options, text, is_held) in [(2, "21", false), (2, "12", true), (3, "1-2", false)] {
        let ranks = any_ballot(&rt, options, text);
        same(
            &rt,
            &take_if_it_is_held(&mut pairs, &ranks),
            &is_held,
            &text,
        );
    }
    is_over(&rt, 0, 1, above(&rt, &pairs, 0, 1), 1);
    for (options, developers, fits) in [(2, 4, true), (3, 4, false), (2, 2_001, false)] {
        check_fit(&rt, &pairs, options, developers, fits);
    }
}

/// The ballot of this text, with as many options as this.
fn any_ballot(rt: &impl Abort, options: usize, text: &str) -> Ranks {
    assert!(rt; MIN_OPTIONS <= options && options <= MAX_OPTIONS);
    read(rt, options, text.as_bytes())
}

/// Wants the pairs, of two options, to be counted among so many developers with ratios for so many
/// options, or not to be.
fn check_fit(rt: &impl Abort, pairs: &Pairs, options: usize, developers: u32, fits: bool) {
    assert!(rt; MIN_OPTIONS <= options && options <= MAX_OPTIONS);
    let count = count_if_it_fits(pairs, developers, &Ratios::new(options));
    let found = count.map(|count| count.options());
    let wanted = if fits { Some(2) } else { None };
    same(rt, &found, &wanted, &(options, "options", developers));
}
