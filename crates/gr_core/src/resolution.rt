//! Resolutions: what the project discusses and votes on.
ghost use Rattle.std.specs.Prelude.{◌≡◌, ◌≤◌, pos};
ghost use Rattle.gr_core.specs.declared.limits.TheConstants.{MAX_MOMENT};
ghost use Rattle.gr_core.specs.Parts.Discussion.{IsPeriod};
ghost use Rattle.gr_core.specs.Parts.Resolution.{discussion_of, poll_of, present_discussion, present_poll, chosen_of, is_open, is_closed, end_of_voting, changed, entered};

use crate::discussion::Discussion;
use crate::limits::DAY;

/// What the desk keeps of a resolution, by its stage, so that what a stage forbids cannot be
/// written: a draft has no moments, and only from the call on there is a poll.
#[derive(Clone, Copy, Debug, PartialEq, Eq)]
pub enum Resolution {
    /// Proposed, and its choice is not introduced yet (Constitution, A.0.1).
    Draft,

    /// Under discussion (Constitution, A.1.1), or the discussion is over and the call awaited.
    Discussing(Discussion),

    /// Called for a vote (Constitution, A.3.1): the discussion that was, and the poll that is held.
    Voting(Discussion, Poll),

    /// The vote is over (Constitution, 4.2.3): the discussion and the poll that were, and the place
    /// from 1 that the casting vote chose, if it chose one (Constitution, 4.2.4 and A.5.8).
    Closed(Discussion, Poll, Option<u32>),

    /// Called while no choice was live (Constitution, A.2.4): the discussion that was.
    Cancelled(Discussion),
}

impl Resolution {
    /// The discussion that is or was: a draft has none yet (Constitution, A.1.1).
    pub fn discussion(self) -> Option<Discussion>
        ensures { result ≡ discussion_of self }
    {
        match self {
            Resolution::Draft => None,
            Resolution::Discussing(discussion)
            | Resolution::Voting(discussion, _)
            | Resolution::Closed(discussion, _, _)
            | Resolution::Cancelled(discussion) => Some(discussion),
        }
    }

    /// The poll that is held or was.
    pub fn poll(self) -> Option<Poll>
        ensures { result ≡ poll_of self }
    {
        match self {
            Resolution::Voting(_, poll) | Resolution::Closed(_, poll, _) => Some(poll),
            _ => None,
        }
    }

    /// The discussion, as long as no vote was called for.
    pub(crate) fn present_discussion(self) -> Option<Discussion>
        ensures { result ≡ present_discussion self }
    {
        match self {
            Resolution::Discussing(discussion) => Some(discussion),
            _ => None,
        }
    }

    /// The poll, as long as it is held.
    pub(crate) fn present_poll(self) -> Option<Poll>
        ensures { result ≡ present_poll self }
    {
        match self {
            Resolution::Voting(_, poll) => Some(poll),
            _ => None,
        }
    }

    /// Whether its vote is over (Constitution, 4.2.3).
    pub(crate) fn is_closed(self) -> bool
        ensures { result ≡ is_closed self }
    {
        matches!(self, Resolution::Closed(..))
    }

    /// The place that a casting vote chose (Constitution, A.5.8).
    pub(crate) fn chosen(self) -> Option<u32>
        ensures { result ≡ chosen_of self }
    {
        match self {
            Resolution::Closed(_, _, chosen) => chosen,
            _ => None,
        }
    }

    /// Whether it is not called yet.
    pub(crate) fn is_open(self) -> bool
        ensures { result ≡ is_open self }
    {
        matches!(self, Resolution::Draft | Resolution::Discussing(_))
    }

    /// The resolution after a change of its ballot at this moment (Constitution, A.1.4).
    pub(crate) fn changed(self, at: u64) -> Resolution
        ensures { result ≡ changed at self }
    {
        match self {
            Resolution::Discussing(discussion) => Resolution::Discussing(Discussion {
                changed: Some(at),
                ..discussion
            }),
            other => other,
        }
    }

    /// The resolution after a choice was introduced at this moment: the first one begins the
    /// discussion (Constitution, A.1.1), each later one changes the ballot (Constitution, A.1.4).
    pub(crate) fn entered(self, at: u64) -> Resolution
        ensures { result ≡ entered at self }
    {
        match self {
            Resolution::Draft => Resolution::Discussing(Discussion {
                start: at,
                changed: None,
                shift: 0,
            }),
            other => other.changed(at),
        }
    }
}

/// The poll on a resolution: when it was called for, how long it takes, and whose quorum it needs.
#[derive(Clone, Copy, Debug, PartialEq, Eq)]
pub struct Poll {
    /// When it was called for, in seconds since 1970-01-01T00:00:00Z, at most
    /// [`MAX_MOMENT`](crate::MAX_MOMENT) (Constitution, A.3.1).
    pub called: u64,

    /// For how many days votes are taken: [`MIN_VOTING_DAYS`](crate::MIN_VOTING_DAYS) to
    /// [`MAX_VOTING_DAYS`](crate::MAX_VOTING_DAYS) (Constitution, 4.2.3).
    pub days: u32,

    /// How many developers were current at the call, at most
    /// [`MAX_DEVELOPERS`](gr_count::MAX_DEVELOPERS). The quorum is taken from them (Constitution,
    /// 4.2.4 and 4.2.7; that it is those at the call is this project's profile).
    pub developers: u32,
}

impl Poll {
    /// When no more votes are taken in it (Constitution, 4.2.3), in seconds since
    /// 1970-01-01T00:00:00Z. It may be up to [`MAX_VOTING_DAYS`](crate::MAX_VOTING_DAYS) past the
    /// latest moment.
    pub fn end_of_voting(self) -> u64
        requires called { self.called ≤ MAX_MOMENT }
        requires days { IsPeriod (pos self.days) }
        ensures { result ≡ end_of_voting self }
    {
        self.called + u64::from(self.days) * DAY
    }
}
