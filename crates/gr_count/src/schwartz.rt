//! The Schwartz set.

ghost use Rattle.std.specs.Prelude.{ℕ, ◌<◌, ◌≤◌, ◌↔◌, IsTrue};
ghost use Rattle.gr_count.specs.Options.{IsRelationBelow, IsSetBelow, Member, Related};
ghost use Rattle.gr_count.specs.Schwartz.{IsInSchwartzSet};

use crate::limits::MAX_OPTIONS;
use crate::options::OptionSet;
use crate::relation::Relation;
use crate::transitive::transitive_defeats;

/// The Schwartz set of the kept options by these defeats (Constitution, A.5.6.1). Where an option
/// is kept, it is not empty.
pub(crate) fn schwartz_set(options: usize, kept: &OptionSet, defeats: &Relation) -> OptionSet
    requires few { options ≤ MAX_OPTIONS }
    requires kept { IsSetBelow options kept.now }
    requires defeats { IsRelationBelow options defeats.now }
    ensures members { (a : ℕ) → Member result a
        ↔ IsInSchwartzSet (Member kept.now) (Related defeats.now) a }
    ensures below { IsSetBelow options result }
    ensures not_empty { (a : ℕ) → Member kept.now a → (b : ℕ) × Member result b }
{
    let beats = transitive_defeats(options, defeats);
    OptionSet::of(options, |option| {
        kept.contains(option) && beats_its_beaters(options, kept, &beats, option)
    })
}

/// Whether the option beats each kept option that beats it.
fn beats_its_beaters(options: usize, kept: &OptionSet, beats: &Relation, option: usize) -> bool
    requires few { options ≤ MAX_OPTIONS }
    requires option { option < options }
    requires kept { IsSetBelow options kept.now }
    ensures { IsTrue result ↔ ((b : ℕ) → Member kept.now b
        → Related beats.now b option → Related beats.now option b) }
{
    for other in 0..options {
        if kept.contains(other) && beats.holds(other, option) && !beats.holds(option, other) {
            return false;
        }
    }
    true
}

/// The defeats between two members of the set.
pub(crate) fn inner_defeats(options: usize, defeats: &Relation, members: &OptionSet) -> Relation
    requires few { options ≤ MAX_OPTIONS }
    requires below { IsRelationBelow options defeats.now }
    ensures inner { (a b : ℕ) → Related result a b
        ↔ (Related defeats.now a b × Member members.now a × Member members.now b) }
    ensures below { IsRelationBelow options result }
{
    defeats.within(options, *members)
}
