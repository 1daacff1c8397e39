//! Transitive defeats.

ghost use Rattle.std.specs.Prelude.{ℕ, ◌≤◌, ◌↔◌};
ghost use Rattle.gr_count.specs.Options.{IsRelationBelow, Related};
ghost use Rattle.gr_count.specs.Path.{TransitivelyDefeats};

use crate::limits::MAX_OPTIONS;
use crate::relation::Relation;

/// Which options transitively defeat which (Constitution, A.5.5.1): the defeats, and, through one
/// option after another as a middle, those that join two of them.
pub(crate) fn transitive_defeats(options: usize, defeats: &Relation) -> Relation
    requires few { options ≤ MAX_OPTIONS }
    requires below { IsRelationBelow options defeats.now }
    ensures { (a c : ℕ) → Related result a c ↔ TransitivelyDefeats (Related defeats.now) a c }
{
    let mut closed = *defeats;
    for middle in 0..options {
        closed.join(options, middle);
    }
    closed
}
