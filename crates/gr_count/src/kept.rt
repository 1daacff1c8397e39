//! The options that are kept, and the defeats between them.

ghost use Rattle.std.specs.Prelude.{◌≡◌, ℕ, ◌<◌, ◌≤◌, ◌↔◌, IsTrue};
ghost use Rattle.gr_count.specs.Election.{IsKept};
ghost use Rattle.gr_count.specs.Options.{IsRelationBelow, IsSetBelow, Member, Related};
ghost use Rattle.gr_count.specs.Shown.{options_of_pairs, election_of, options_of_ratios, voters_above};

use crate::limits::MAX_DEVELOPERS;
use crate::options::OptionSet;
use crate::pairs::Pairs;
use crate::ratios::Ratios;
use crate::relation::Relation;
use crate::thresholds::{meets_majority, meets_quorum};

/// The options that are kept (Constitution, A.5.2 and A.5.3).
pub(crate) fn kept_options(pairs: &Pairs, developers: u32, ratios: &Ratios) -> OptionSet
    requires same { options_of_ratios ratios.now ≡ options_of_pairs pairs.now }
    requires developers { developers ≤ MAX_DEVELOPERS }
    ensures kept { let e = election_of pairs.now developers ratios.now in
        (a : ℕ) → Member result a ↔ IsKept e a }
    ensures below { IsSetBelow (options_of_pairs pairs.now) result }
{
    OptionSet::of(
        pairs.options(),
        |option| is_kept(pairs, developers, ratios, option),
    )
}

/// Whether the option is the default one, or has the quorum and its majority
/// (Constitution, A.5.2 and A.5.3).
fn is_kept(pairs: &Pairs, developers: u32, ratios: &Ratios, option: usize) -> bool
    requires same { options_of_ratios ratios.now ≡ options_of_pairs pairs.now }
    requires developers { developers ≤ MAX_DEVELOPERS }
    requires option { option < options_of_pairs pairs.now }
    ensures { IsTrue result ↔ IsKept (election_of pairs.now developers ratios.now) option }
{
    let default = pairs.options() - 1;
    if option == default {
        return true;
    }
    let above = pairs.above(option, default);
    let below = pairs.above(default, option);
    meets_quorum(above, developers) && meets_majority(above, below, ratios.at(option))
}

/// The defeats between kept options (Constitution, A.5.4.1).
pub(crate) fn defeats_between(pairs: &Pairs, kept: &OptionSet) -> Relation
    requires { IsSetBelow (options_of_pairs pairs.now) kept.now }
    ensures defeats { (a b : ℕ) → Related result a b
        ↔ (Member kept.now a × Member kept.now b
        × (voters_above pairs.now b a < voters_above pairs.now a b)) }
    ensures below { IsRelationBelow (options_of_pairs pairs.now) result }
{
    Relation::of(pairs.options(), |first, second| {
        kept.contains(first)
            && kept.contains(second)
            && pairs.above(first, second) > pairs.above(second, first)
    })
}
