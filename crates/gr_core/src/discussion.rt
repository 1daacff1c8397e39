//! Discussions and their clock.
ghost use Rattle.std.specs.Prelude.{◌≡◌, pos, ◌≤ℤ◌};
ghost use Rattle.gr_core.specs.declared.limits.TheConstants.{MAX_DISCUSSION_DAYS};
ghost use Rattle.gr_core.specs.Parts.Discussion.{varied, end_of, IsShift, IsTimely};

use crate::limits::{CHANGE_DAYS, DAY, MAX_DISCUSSION_DAYS, MIN_DISCUSSION_DAYS};

/// The discussion of a resolution. Moments are in seconds since 1970-01-01T00:00:00Z.
#[derive(Clone, Copy, Debug, PartialEq, Eq)]
pub struct Discussion {
    /// When it began (Constitution, A.1.1).
    pub start: u64,

    /// When a choice was last introduced after the first one, or an introduced one amended other
    /// than in a minor way, which may move its end (Constitution, A.1.4 and A.1.5).
    pub changed: Option<u64>,

    /// The days by which its least and its greatest length are varied (Constitution, A.1.6), from
    /// -[`MAX_SHIFT_DAYS`](crate::MAX_SHIFT_DAYS) to [`MAX_SHIFT_DAYS`](crate::MAX_SHIFT_DAYS).
    pub shift: i32,
}

impl Discussion {
    /// When the discussion ends, in seconds since 1970-01-01T00:00:00Z: at its earliest end, or, if
    /// a choice was added or amended, at the middle one of its earliest end, a week after that
    /// change and its latest end (Constitution, A.1.1, A.1.4 and A.1.6). Takes no memory.
    pub fn end(&self) -> u64
        requires { IsTimely self.now }
        ensures { result ≡ end_of self.now }
    {
        let earliest = self.start + varied(MIN_DISCUSSION_DAYS, self.shift);
        let latest = self.start + varied(MAX_DISCUSSION_DAYS, self.shift);
        match self.changed {
            None => earliest,
            Some(changed) => (changed + CHANGE_DAYS * DAY).clamp(earliest, latest),
        }
    }
}

/// So many days, varied by a shift, in seconds.
fn varied(days: i32, shift: i32) -> u64
    requires days { (pos 0 ≤ℤ days) × (days ≤ℤ MAX_DISCUSSION_DAYS) }
    requires shift { IsShift shift }
    ensures { result ≡ varied days shift }
{
    u64::from((days + shift).unsigned_abs()) * DAY
}
