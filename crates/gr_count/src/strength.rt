//! How strong a defeat is, and the weakest of some defeats.

ghost use Rattle.std.specs.Prelude.{◌≡◌, ℕ, ◌<◌, ◌↔◌, IfNone, IfSome, IsTrue};
ghost use Rattle.gr_count.specs.Options.{IsRelationBelow, IsSetBelow, Member, Related};
ghost use Rattle.gr_count.specs.Shown.{options_of_pairs, voters_above};
ghost use Rattle.gr_count.specs.Strength.{IsLeastOf, IsStrengthIn, IsStrengthOver, IsWeaker, IsWeakerOf, IsWeakest, strength_of};

use crate::options::OptionSet;
use crate::pairs::Pairs;
use crate::relation::Relation;

/// The strength of the defeat of an option by another (Constitution, A.5.7.1).
#[derive(Clone, Copy, Debug)]
pub(crate) struct Strength {
    /// How many voters prefer the winner of the defeat.
    support: u32,

    /// How many voters prefer the loser of the defeat.
    opposition: u32,
}

impl Strength {
    /// The strength of the defeat of `second` by `first`.
    pub(crate) fn of(pairs: &Pairs, first: usize, second: usize) -> Strength
        requires first { first < options_of_pairs pairs.now }
        requires second { second < options_of_pairs pairs.now }
        ensures { result ≡ strength_of (voters_above pairs.now) first second }
    {
        Strength {
            support: pairs.above(first, second),
            opposition: pairs.above(second, first),
        }
    }

    /// Whether a defeat of this strength is weaker than one of the other: it has less support, or
    /// as much support and more opposition.
    fn is_weaker(self, other: Strength) -> bool
        ensures { IsTrue result ↔ IsWeaker self other }
    {
        self.support < other.support
            || (self.support == other.support && self.opposition > other.opposition)
    }
}

/// The weakest of some defeats (Constitution, A.5.7.2); `None` where there are none.
pub(crate) fn weakest_defeats(pairs: &Pairs, defeats: &Relation) -> Option<Relation>
    requires { IsRelationBelow (options_of_pairs pairs.now) defeats.now }
    ensures none { IfNone result ((a b : ℕ) → ¬ Related defeats.now a b) }
    ensures weakest { IfSome result (λ weakest. (a b : ℕ) → Related weakest a b
        ↔ IsWeakest (voters_above pairs.now) (Related defeats.now) a b) }
    ensures some { IfSome result (λ weakest. (a : ℕ) × (b : ℕ) × Related weakest a b) }
{
    let Some(least) = least_strength(pairs, defeats) else {
        return None;
    };
    Some(defeats.filter(pairs.options(), |first, second| {
        !least.is_weaker(Strength::of(pairs, first, second))
    }))
}

/// The least strength of some defeats; `None` where there are none.
fn least_strength(pairs: &Pairs, defeats: &Relation) -> Option<Strength>
    requires { IsRelationBelow (options_of_pairs pairs.now) defeats.now }
    ensures { let n = options_of_pairs pairs.now in
        IsLeastOf (IsStrengthIn (voters_above pairs.now) defeats.now n) result }
{
    let mut least = None;
    for first in 0..pairs.options() {
        least = weaker_of(least, least_strength_of(pairs, first, defeats.row(first)));
    }
    least
}

/// The least strength of the defeats of these options by another; `None` where there are none.
fn least_strength_of(pairs: &Pairs, first: usize, losers: OptionSet) -> Option<Strength>
    requires first { first < options_of_pairs pairs.now }
    requires losers { IsSetBelow (options_of_pairs pairs.now) losers }
    ensures { IsLeastOf (IsStrengthOver (voters_above pairs.now) first (Member losers)) result }
{
    let mut least = None;
    let mut rest = losers;
    while let Some(second) = rest.pop_first() {
        least = weaker_of(least, Some(Strength::of(pairs, first, second)));
    }
    least
}

/// The weaker of two strengths, of those that are there.
fn weaker_of(one: Option<Strength>, other: Option<Strength>) -> Option<Strength>
    ensures { IsWeakerOf one other result }
{
    match (one, other) {
        (Some(first), Some(second)) => Some(if second.is_weaker(first) {
            second
        } else {
            first
        }),
        (Some(first), None) => Some(first),
        (None, second) => second,
    }
}
