//! The preference counts of a vote.

ghost use Rattle.std.specs.Prelude.{◌≡◌, ℕ, ◌+◌, ◌<◌, ◌≤◌, ◌↔◌, IsTrue, IsNone, Some, List, if◌then◌else◌};
ghost use Rattle.std.specs.Bool.{OnFalse};
ghost use Rattle.std.specs.FinMap.{empty, get, insert, remove};
ghost use Rattle.gr_count.specs.declared.limits.TheConstants.{MAX_BALLOTS, MAX_OPTIONS, MIN_OPTIONS};
ghost use Rattle.gr_count.specs.Ballot.{Vote, prefers};
ghost use Rattle.gr_count.specs.Options.{AreNumbersBelow, number_at};

use crate::limits::{MAX_BALLOTS, MAX_OPTIONS, MIN_OPTIONS};
use crate::numbers::PairNumbers;
use crate::ranks::Ranks;

/// The preference counts of a vote: for each two options, how many ballots prefer the first to the
/// second (Constitution, A.5.3.1). Options are numbers from 0, the default option last.
#[derive(Debug, Drop)]
pub struct Pairs {
    options: usize,
    ballots: u32,
    above: PairNumbers,
    ghost few: { options ≤ MAX_OPTIONS },
    ghost enough: { MIN_OPTIONS ≤ options },
    ghost room: { ballots ≤ MAX_BALLOTS },
    ghost counted: { (a b : ℕ) → number_at above a b + number_at above b a ≤ ballots },
    ghost alone: { (a : ℕ) → number_at above a a ≡ 0 },
    ghost below: { AreNumbersBelow options above },
}

impl Pairs {
    ghost use Rattle.gr_count.specs.Shown.{ballots_in, marks_in, options_of_pairs, options_of_ranks, voters_above};
    ghost use Rattle.gr_count.specs.PairwiseCount.{AddsBallot, HoldsBallot, HoldsPair, IsPairwiseCountOf};

    /// The counts of no ballot, for so many options, the default one counted: from `MIN_OPTIONS`
    /// to `MAX_OPTIONS`.
    pub fn new(options: usize) -> Pairs
        requires few { options ≤ MAX_OPTIONS }
        requires enough { MIN_OPTIONS ≤ options }
        ensures options { options_of_pairs result ≡ options }
        ensures ballots { ballots_in result ≡ 0 }
        ensures counts { (a b : ℕ) → voters_above result a b ≡ 0 }

        // the counts of a vote in which nobody voted
        ensures vote { IsPairwiseCountOf result empty }
    {
        Pairs {
            options,
            ballots: 0,
            above: PairNumbers::zero(),
        }
    }

    /// Adds a ballot over the same options (`options`), where there is room for it (`is_full`;
    /// Constitution, A.5.3.1).
    pub fn add(&mut self, ranks: &Ranks)
        requires room { ballots_in self.old < MAX_BALLOTS }
        requires same { options_of_ranks ranks.now ≡ options_of_pairs self.old }
        ensures added { AddsBallot (marks_in ranks.now) self.old self.new }

        // so from the counts of a vote it makes those of the vote with one voter more
        ensures vote { (vote : Vote) (login : List ℕ)
            → IsPairwiseCountOf self.old vote → IsNone (get vote login)
            → IsPairwiseCountOf self.new (insert vote login (marks_in ranks.now)) }
    {
        let options = self.options;
        self.above.update(
            options,
            |first: usize, second: usize, above: u32| -> u32
                requires first { first < options_of_ranks ranks.now }
                requires second { second < options_of_ranks ranks.now }
                requires room { above ≤ MAX_BALLOTS }
                ensures { result
                    ≡ above + (if prefers (marks_in ranks.entry.now) first second then 1 else 0) }
            { above + u32::from(ranks.prefers(first, second)) },
        );
        self.ballots += 1;
    }

    /// Takes out a ballot over the same options (`options`) that may have been added (`holds`;
    /// Constitution, A.5.3.1).
    pub fn take(&mut self, ranks: &Ranks)
        requires same { options_of_ranks ranks.now ≡ options_of_pairs self.old }
        requires held { HoldsBallot (marks_in ranks.now) self.old }
        ensures taken { AddsBallot (marks_in ranks.now) self.new self.old }

        // so from the counts of a vote it makes those of the vote without that voter
        ensures vote { (vote : Vote) (login : List ℕ)
            → IsPairwiseCountOf self.old vote → get vote login ≡ Some (marks_in ranks.now)
            → IsPairwiseCountOf self.new (remove vote login) }
    {
        let options = self.options;
        self.above.update(
            options,
            |first: usize, second: usize, above: u32| -> u32
                requires first { first < options_of_ranks ranks.now }
                requires second { second < options_of_ranks ranks.now }
                requires some { IsTrue (prefers (marks_in ranks.now) first second) → 1 ≤ above }
                ensures { result
                    + (if prefers (marks_in ranks.entry.now) first second then 1 else 0) ≡ above }
            { above - u32::from(ranks.prefers(first, second)) },
        );
        self.ballots -= 1;
    }

    /// Whether a ballot over the same options (`options`) may have been added, as far as the counts
    /// tell: there is a ballot, for each two options of which this one prefers the first some
    /// ballot does, and for each two that it leaves level some ballot leaves them so. A ballot that
    /// was not added may pass too.
    pub fn holds(&self, ranks: &Ranks) -> bool
        requires same { options_of_ranks ranks.now ≡ options_of_pairs self.now }
        ensures { IsTrue result ↔ HoldsBallot (marks_in ranks.now) self.now }
    {
        for first in 0..self.options {
            if !self.holds_row(ranks, first) {
                return false;
            }
        }
        self.ballots >= 1
    }

    /// Whether the counts tell so of this option and each other one.
    fn holds_row(&self, ranks: &Ranks, first: usize) -> bool
        requires same { options_of_ranks ranks.now ≡ options_of_pairs self.now }
        requires first { first < options_of_pairs self.now }
        ensures { IsTrue result ↔ ((b : ℕ) → b < options_of_pairs self.now
            → HoldsPair (marks_in ranks.now) self.now first b) }
    {
        for second in 0..self.options {
            if !self.holds_pair(ranks, first, second) {
                return false;
            }
        }
        true
    }

    /// Whether the counts tell so of the two options.
    fn holds_pair(&self, ranks: &Ranks, first: usize, second: usize) -> bool
        requires same { options_of_ranks ranks.now ≡ options_of_pairs self.now }
        requires first { first < options_of_pairs self.now }
        requires second { second < options_of_pairs self.now }
        ensures { IsTrue result ↔ HoldsPair (marks_in ranks.now) self.now first second }
    {
        let above = self.above.at(first, second);
        let below = self.above.at(second, first);
        if ranks.prefers(first, second) {
            above >= 1
        } else {
            first == second || ranks.prefers(second, first) || above + below < self.ballots
        }
    }

    /// How many ballots were added and not taken out.
    pub fn ballots(&self) -> u32
        ensures value { result ≡ ballots_in self.now }
        ensures small { result ≤ MAX_BALLOTS }
    {
        self.ballots
    }

    /// V(A,B): how many of the ballots prefer the first option to the second (Constitution,
    /// A.5.3.1). Both are below `options()`.
    pub fn above(&self, first: usize, second: usize) -> u32
        requires first { first < options_of_pairs self.now }
        requires second { second < options_of_pairs self.now }
        ensures value { result ≡ voters_above self.now first second }
        ensures small { result ≤ MAX_BALLOTS }
        ensures together { voters_above self.now first second + voters_above self.now second first
            ≤ ballots_in self.now }
    {
        self.above.at(first, second)
    }

    /// Whether there are as many ballots as one vote can have (this project's profile).
    pub fn is_full(&self) -> bool
        ensures full { IsTrue result ↔ (ballots_in self.now ≡ MAX_BALLOTS) }
        ensures room { OnFalse result (ballots_in self.now < MAX_BALLOTS) }
    {
        self.ballots == MAX_BALLOTS
    }

    /// How many options there are, the default option counted.
    pub fn options(&self) -> usize
        ensures value { result ≡ options_of_pairs self.now }
        ensures enough { MIN_OPTIONS ≤ result }
        ensures few { result ≤ MAX_OPTIONS }
    {
        self.options
    }
}
