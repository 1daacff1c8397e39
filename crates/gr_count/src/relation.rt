//! A relation between options.

ghost use Rattle.std.specs.Prelude.{◌≡◌, ℕ, ◌<◌, ◌≤◌, ◌⊎◌, ◌↔◌};
ghost use Rattle.gr_count.specs.Options.{IsRelationBelow, Member, Related, has, relates, related_to};

use crate::limits::MAX_OPTIONS;
use crate::options::OptionSet;

/// A relation between options: for each option the set of those that it is related to.
#[derive(Clone, Copy, Debug)]
pub(crate) struct Relation {
    rows: [OptionSet; MAX_OPTIONS],
}

impl Relation {
    /// The pairs of options below `options` of which `holds` holds.
    pub(crate) fn of<F: Fn(usize, usize) -> bool>(options: usize, holds: F) -> Relation
        requires few { options ≤ MAX_OPTIONS }
        requires callable { (a b : ℕ) → a < options → b < options → F.pre holds a b }
        ensures within { (a b : ℕ) → a < options → b < options
            → F.post holds a b (relates result a b) }
        ensures below { IsRelationBelow options result }
    {
        let mut rows = [OptionSet::empty(); MAX_OPTIONS];
        for first in 0..options {
            rows[first] = OptionSet::of(
                options,
                |second: usize| -> bool
                    requires { F.pre holds first second }
                    ensures { F.post holds first second result }
                { holds(first, second) },
            );
        }
        Relation { rows }
    }

    /// The relation of each option below `options` to those that `row` gives.
    fn of_rows<F: Fn(usize) -> OptionSet>(options: usize, row: F) -> Relation
        requires few { options ≤ MAX_OPTIONS }
        requires callable { (a : ℕ) → a < options → F.pre row a }
        ensures rows { (a : ℕ) → a < options → F.post row a (related_to result a) }
        ensures below { (a b : ℕ) → Related result a b → a < options }
    {
        let mut rows = [OptionSet::empty(); MAX_OPTIONS];
        for option in 0..options {
            rows[option] = row(option);
        }
        Relation { rows }
    }

    /// The pairs of the relation of which `holds` holds.
    pub(crate) fn filter<F: Fn(usize, usize) -> bool>(&self, options: usize, holds: F) -> Relation
        requires few { options ≤ MAX_OPTIONS }
        requires below { IsRelationBelow options self.now }
        requires callable { (a b : ℕ) → Related self.now a b → F.pre holds a b }
        ensures within { (a b : ℕ) → Related self.now a b → F.post holds a b (relates result a b) }
        ensures among { (a b : ℕ) → Related result a b → Related self.now a b }
    {
        Relation::of_rows(
            options,
            |first: usize| -> OptionSet
                requires first { first < MAX_OPTIONS }
                requires callable { (b : ℕ) → Related self.now first b → F.pre holds first b }
                ensures within { (b : ℕ) → Related self.entry.now first b
                    → F.post holds first b (has result b) }
                ensures among { (b : ℕ) → Member result b → Related self.entry.now first b }
            {
                self.rows[first].filter(
                    |second: usize| -> bool
                        requires { F.pre holds first second }
                        ensures { F.post holds first second result }
                    { holds(first, second) },
                )
            },
        )
    }

    /// The pairs of two options of the set.
    pub(crate) fn within(&self, options: usize, set: OptionSet) -> Relation
        requires few { options ≤ MAX_OPTIONS }
        requires below { IsRelationBelow options self.now }
        ensures inner { (a b : ℕ) → Related result a b
            ↔ (Related self.now a b × Member set a × Member set b) }
        ensures below { IsRelationBelow options result }
    {
        Relation::of_rows(
            options,
            |first: usize| -> OptionSet
                requires { first < MAX_OPTIONS }
                ensures { (b : ℕ) → Member result b
                    ↔ (Related self.entry.now first b × Member set first × Member set b) }
            {
                if set.contains(first) {
                    self.rows[first].intersection(set)
                } else {
                    OptionSet::empty()
                }
            },
        )
    }

    /// Relates each option that is related to `middle` also to those that `middle` is related to.
    pub(crate) fn join(&mut self, options: usize, middle: usize)
        requires few { options ≤ MAX_OPTIONS }
        requires middle { middle < options }
        requires below { IsRelationBelow options self.old }
        ensures joined { (a b : ℕ) → Related self.new a b
            ↔ (Related self.old a b ⊎ (Related self.old a middle × Related self.old middle b)) }
        ensures below { IsRelationBelow options self.new }
    {
        let onward = self.rows[middle];
        for option in 0..options {
            if self.rows[option].contains(middle) {
                self.rows[option] = self.rows[option].union(onward);
            }
        }
    }

    /// The options that the option is related to.
    pub(crate) fn row(&self, option: usize) -> OptionSet
        requires { option < MAX_OPTIONS }
        ensures { result ≡ related_to self.now option }
    {
        self.rows[option]
    }

    /// Whether the relation has the pair.
    pub(crate) fn holds(&self, first: usize, second: usize) -> bool
        requires first { first < MAX_OPTIONS }
        requires second { second < MAX_OPTIONS }
        ensures { result ≡ relates self.now first second }
    {
        self.rows[first].contains(second)
    }

    /// The pairs that are not in the other relation.
    pub(crate) fn without(&self, options: usize, other: &Relation) -> Relation
        requires few { options ≤ MAX_OPTIONS }
        requires below { IsRelationBelow options self.now }
        ensures left { (a b : ℕ) → Related result a b
            ↔ (Related self.now a b × (¬ Related other.now a b)) }
        ensures below { IsRelationBelow options result }
    {
        Relation::of_rows(
            options,
            |first: usize| -> OptionSet
                requires { first < MAX_OPTIONS }
                ensures { (b : ℕ) → Member result b
                    ↔ (Related self.entry.now first b × (¬ Related other.entry.now first b)) }
            { self.rows[first].difference(other.rows[first]) },
        )
    }
}
