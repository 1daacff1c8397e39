//! A set of options.

ghost use Rattle.std.specs.Prelude.{◌≡◌, ◌≢◌, ℕ, ◌<◌, ◌≤◌, ◌&&◌, ◌||◌, not, false, IfNone, IfSome};
ghost use Rattle.gr_count.specs.Options.{IsSetBelow, IsTakenOut, Member, has, size_below};

use crate::limits::MAX_OPTIONS;

/// A set of options, as one word: the bit of an option says whether the set has it.
#[derive(Clone, Copy, Debug)]
pub(crate) struct OptionSet {
    members: u64,
}

/// Each option has a bit of its own.
const _: () = prove!(MAX_OPTIONS <= 64);

impl OptionSet {
    /// The set with no option.
    pub(crate) fn empty() -> OptionSet
        ensures { (a : ℕ) → has result a ≡ false }
    {
        OptionSet { members: 0 }
    }

    /// The options below `options` of which `holds` holds.
    pub(crate) fn of<F: Fn(usize) -> bool>(options: usize, holds: F) -> OptionSet
        requires few { options ≤ MAX_OPTIONS }
        requires callable { (a : ℕ) → a < options → F.pre holds a }
        ensures within { (a : ℕ) → a < options → F.post holds a (has result a) }
        ensures below { IsSetBelow options result }
    {
        let mut set = OptionSet::empty();
        for option in 0..options {
            set = set.and(option, holds(option));
        }
        set
    }

    /// The members of which `holds` holds.
    pub(crate) fn filter<F: Fn(usize) -> bool>(self, holds: F) -> OptionSet
        requires callable { (a : ℕ) → Member self a → F.pre holds a }
        ensures within { (a : ℕ) → Member self a → F.post holds a (has result a) }
        ensures among { (a : ℕ) → Member result a → Member self a }
    {
        let mut set = OptionSet::empty();
        let mut rest = self;
        while let Some(option) = rest.pop_first() {
            set = set.and(option, holds(option));
        }
        set
    }

    /// Takes the first member out, and gives it; `None` where there is none.
    pub(crate) fn pop_first(&mut self) -> Option<usize>
        ensures some { IfSome result (IsTakenOut self.old self.new) }
        ensures none { IfNone result ((a : ℕ) → ¬ Member self.old a) }
        ensures first { IfSome result (λ option. (a : ℕ) → a < option → ¬ Member self.old a) }
        ensures small { IfSome result (λ option. option < 64) }
        ensures fewer { IfSome result (λ _. self.new.members < self.old.members) }
    {
        if self.members == 0 {
            return None;
        }
        let first = self.members.trailing_zeros();
        self.members &= !(1 << first);
        Some(first as usize)
    }

    /// The set, and the option where `is_in`.
    fn and(self, option: usize, is_in: bool) -> OptionSet
        requires option { option < 64 }
        requires new { has self option ≡ false }
        ensures option { has result option ≡ is_in }
        ensures others { (a : ℕ) → a ≢ option → has result a ≡ has self a }
    {
        OptionSet {
            members: self.members | u64::from(is_in) << option,
        }
    }

    /// The options of both sets.
    pub(crate) fn union(self, other: OptionSet) -> OptionSet
        ensures { (a : ℕ) → has result a ≡ (has self a || has other a) }
    {
        OptionSet {
            members: self.members | other.members,
        }
    }

    /// The members that the other set has too.
    pub(crate) fn intersection(self, other: OptionSet) -> OptionSet
        ensures { (a : ℕ) → has result a ≡ (has self a && has other a) }
    {
        OptionSet {
            members: self.members & other.members,
        }
    }

    /// The members that the other set has not.
    pub(crate) fn difference(self, other: OptionSet) -> OptionSet
        ensures { (a : ℕ) → has result a ≡ (has self a && not (has other a)) }
    {
        OptionSet {
            members: self.members & !other.members,
        }
    }

    /// Whether the set has the option.
    pub(crate) fn contains(self, option: usize) -> bool
        requires { option < MAX_OPTIONS }
        ensures { result ≡ has self option }
    {
        self.members >> option & 1 == 1
    }

    /// How many of the options below `options` the set has.
    pub(crate) fn size(self, options: usize) -> usize
        requires { options ≤ MAX_OPTIONS }
        ensures size { result ≡ size_below options (has self) }
        ensures few { result ≤ options }
    {
        (0..options).filter(|option| self.contains(*option)).count()
    }

    /// The first option below `options` that the set has.
    pub(crate) fn first(self, options: usize) -> Option<usize>
        requires { options ≤ MAX_OPTIONS }
        ensures below { IfSome result (λ option. option < options) }
        ensures member { IfSome result (Member self) }
        ensures first { IfSome result (λ option. (a : ℕ) → a < option → ¬ Member self a) }
        ensures none { IfNone result ((a : ℕ) → a < options → ¬ Member self a) }
    {
        (0..options).find(|option| self.contains(*option))
    }
}
