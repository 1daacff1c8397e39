//! Moments: whole seconds since 1970-01-01T00:00:00Z.
ghost use Rattle.std.specs.Prelude.{◌↔◌, ◌≤◌, IsTrue};
ghost use Rattle.gr_core.specs.Parts.Moment.{IsMoment};

use crate::limits::MAX_MOMENT;

/// Whether a command may be dated at these seconds since 1970: from 1 to the end of 2099.
pub(crate) fn is_moment(at: u64) -> bool
    ensures { IsTrue result ↔ IsMoment at }
{
    (1..=MAX_MOMENT).contains(&at)
}

/// Whether what ends at this moment is over at that one: its end is no part of it.
pub(crate) fn is_over(end: u64, at: u64) -> bool
    ensures { IsTrue result ↔ (end ≤ at) }
{
    end <= at
}
