//! Numbers of options and of pairs of options.

ghost use Rattle.std.specs.Prelude.{◌≡◌, ◌≢◌, ℕ, ◌<◌, ◌≤◌, ◌⊎◌, if◌then◌else◌};
ghost use Rattle.gr_count.specs.Options.{IsRelationBelow, IsSetBelow, has, number_at, number_of, relates};

use crate::limits::MAX_OPTIONS;
use crate::options::OptionSet;
use crate::relation::Relation;

/// A number for each option.
#[derive(Clone, Copy, Debug)]
pub(crate) struct OptionNumbers {
    numbers: [u32; MAX_OPTIONS],
}

impl OptionNumbers {
    /// The numbers that are 0.
    pub(crate) fn zero() -> OptionNumbers
        ensures { (a : ℕ) → number_of result a ≡ 0 }
    {
        OptionNumbers {
            numbers: [0; MAX_OPTIONS],
        }
    }

    /// The numbers that `number` gives to the options below `options`, and 0 to others.
    pub(crate) fn of<F: Fn(usize) -> u32>(options: usize, number: F) -> OptionNumbers
        requires few { options ≤ MAX_OPTIONS }
        requires callable { (a : ℕ) → a < options → F.pre number a }
        ensures within { (a : ℕ) → a < options → F.post number a (number_of result a) }
        ensures below { (a : ℕ) → 0 < number_of result a → a < options }
    {
        let mut numbers = [0; MAX_OPTIONS];
        for option in 0..options {
            numbers[option] = number(option);
        }
        OptionNumbers { numbers }
    }

    /// Gives each option below `options` the number that `number` makes of its own.
    pub(crate) fn update<F: Fn(usize, u32) -> u32>(&mut self, options: usize, number: F)
        requires few { options ≤ MAX_OPTIONS }
        requires callable { (a : ℕ) → a < options → F.pre number a (number_of self.old a) }
        ensures within { (a : ℕ) → a < options
            → F.post number a (number_of self.old a) (number_of self.new a) }
        ensures others { (a : ℕ) → options ≤ a → number_of self.new a ≡ number_of self.old a }
    {
        for option in 0..options {
            self.numbers[option] = number(option, self.numbers[option]);
        }
    }

    /// Gives the option another number.
    pub(crate) fn put(&mut self, option: usize, number: u32)
        requires { option < MAX_OPTIONS }
        ensures changed { number_of self.new option ≡ number }
        ensures others { (a : ℕ) → a ≢ option → number_of self.new a ≡ number_of self.old a }
    {
        self.numbers[option] = number;
    }

    /// Gives each of these options the number.
    fn set_all(&mut self, options: OptionSet, number: u32)
        requires { IsSetBelow MAX_OPTIONS options }
        ensures { (a : ℕ) → number_of self.new a
            ≡ (if has options a then number else number_of self.old a) }
    {
        let mut rest = options;
        while let Some(option) = rest.pop_first() {
            self.put(option, number);
        }
    }

    /// The number of an option.
    pub(crate) fn at(&self, option: usize) -> u32
        requires { option < MAX_OPTIONS }
        ensures { result ≡ number_of self.now option }
    {
        self.numbers[option]
    }
}

/// A number for each pair of options.
#[derive(Clone, Copy, Debug)]
pub(crate) struct PairNumbers {
    rows: [OptionNumbers; MAX_OPTIONS],
}

impl PairNumbers {
    /// The numbers that are 0.
    pub(crate) fn zero() -> PairNumbers
        ensures { (a b : ℕ) → number_at result a b ≡ 0 }
    {
        PairNumbers {
            rows: [OptionNumbers::zero(); MAX_OPTIONS],
        }
    }

    /// Gives each pair of options below `options` the number that `number` makes of its own.
    pub(crate) fn update<F: Fn(usize, usize, u32) -> u32>(&mut self, options: usize, number: F)
        requires few { options ≤ MAX_OPTIONS }
        requires callable { (a b : ℕ) → a < options → b < options
            → F.pre number a b (number_at self.old a b) }
        ensures within { (a b : ℕ) → a < options → b < options
            → F.post number a b (number_at self.old a b) (number_at self.new a b) }
        ensures others { (a b : ℕ) → (options ≤ a) ⊎ (options ≤ b)
            → number_at self.new a b ≡ number_at self.old a b }
    {
        for first in 0..options {
            self.rows[first].update(
                options,
                |second: usize, old: u32| -> u32
                    requires { F.pre number first second old }
                    ensures { F.post number first second old result }
                { number(first, second, old) },
            );
        }
    }

    /// The number of a pair.
    pub(crate) fn at(&self, first: usize, second: usize) -> u32
        requires first { first < MAX_OPTIONS }
        requires second { second < MAX_OPTIONS }
        ensures { result ≡ number_at self.now first second }
    {
        self.rows[first].at(second)
    }

    /// Gives each pair of the relation the number.
    pub(crate) fn set_all(&mut self, options: usize, pairs: &Relation, number: u32)
        requires few { options ≤ MAX_OPTIONS }
        requires below { IsRelationBelow options pairs.now }
        ensures { (a b : ℕ) → number_at self.new a b
            ≡ (if relates pairs.now a b then number else number_at self.old a b) }
    {
        for first in 0..options {
            self.rows[first].set_all(pairs.row(first), number);
        }
    }
}
