//! What a count found.

ghost use Rattle.std.specs.Prelude.{◌≡◌, ℕ, ◌<◌, ◌≤◌, ◌↔◌, IsTrue, IfSome, IsSome};
ghost use Rattle.gr_count.specs.declared.limits.TheConstants.{MAX_OPTIONS, MIN_OPTIONS};
ghost use Rattle.gr_count.specs.Options.{IsSetBelow, Member, number_at};

use crate::limits::{MAX_OPTIONS, MIN_OPTIONS};
use crate::numbers::PairNumbers;
use crate::options::OptionSet;

/// What `count` found. Options are numbers from 0, the default option last.
#[derive(Debug, Drop)]
pub struct Count {
    pub(crate) options: usize,
    pub(crate) kept: OptionSet,
    pub(crate) rounds: u32,
    pub(crate) dropped: PairNumbers,
    pub(crate) outcome: OptionSet,
    ghost few: { options ≤ MAX_OPTIONS },
    ghost enough: { MIN_OPTIONS ≤ options },
    ghost noted: { (a b : ℕ) → number_at dropped a b ≤ rounds },
    ghost below: { IsSetBelow options outcome },
    ghost not_empty: { ∥ ((a : ℕ) × Member outcome a) ∥₁ },
}

impl Count {
    ghost use Rattle.gr_count.specs.Shown.{options_of_count, is_member, keeps, member_count, round_of_drop, rounds_in};

    /// How many options were counted, the default one among them.
    pub fn options(&self) -> usize
        ensures value { result ≡ options_of_count self.now }
        ensures enough { MIN_OPTIONS ≤ result }
        ensures few { result ≤ MAX_OPTIONS }
    {
        self.options
    }

    /// Whether the option, which is below `options()`, is kept: it is the default option, or it has
    /// the quorum and its majority (Constitution, A.5.2 and A.5.3).
    pub fn kept(&self, option: usize) -> bool
        requires { option < options_of_count self.now }
        ensures { result ≡ keeps self.now option }
    {
        self.kept.contains(option)
    }

    /// How many rounds dropped defeats (Constitution, A.5.7).
    pub fn rounds(&self) -> u32
        ensures { result ≡ rounds_in self.now }
    {
        self.rounds
    }

    /// The round, from 1, in which the defeat of `second` by `first` was dropped; 0 for none
    /// (Constitution, A.5.7). Both are below `options()`.
    pub fn dropped_in(&self, first: usize, second: usize) -> u32
        requires first { first < options_of_count self.now }
        requires second { second < options_of_count self.now }
        ensures value { result ≡ round_of_drop self.now first second }
        ensures last { result ≤ rounds_in self.now }
    {
        self.dropped.at(first, second)
    }

    /// Whether the option, which is below `options()`, is in the outcome set (Constitution, A.5.8).
    pub fn in_set(&self, option: usize) -> bool
        requires { option < options_of_count self.now }
        ensures { result ≡ is_member self.now option }
    {
        self.outcome.contains(option)
    }

    /// How many members the outcome set has (Constitution, A.5.8).
    pub fn members(&self) -> usize
        ensures size { result ≡ member_count self.now }
        ensures not_empty { 1 ≤ result }
        ensures few { result ≤ options_of_count self.now }
    {
        self.outcome.size(self.options)
    }

    /// The winner, where the outcome set has one member; `None` where the casting vote chooses
    /// among several (Constitution, A.5.8).
    pub fn winner(&self) -> Option<usize>
        ensures sole { IsSome result ↔ (member_count self.now ≡ 1) }
        ensures there { (winner : ℕ) → IsTrue (is_member self.now winner)
            → ((a : ℕ) → IsTrue (is_member self.now a) → a ≡ winner) → IsSome result }
        ensures option { IfSome result (λ winner. winner < options_of_count self.now) }
        ensures member { IfSome result (λ winner. IsTrue (is_member self.now winner)) }
        ensures only { IfSome result (λ winner.
            (a : ℕ) → IsTrue (is_member self.now a) → a ≡ winner) }
    {
        let is_sole = self.members() == 1;
        if is_sole {
            self.outcome.first(self.options)
        } else {
            None
        }
    }
}
