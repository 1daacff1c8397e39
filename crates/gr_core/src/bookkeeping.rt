//! The bookkeeping of a choice: what it gains and loses with proposers and sponsors.
ghost use Rattle.std.specs.Prelude.{◌≡◌, ◌&&◌, not, is_some, is_none};
ghost use Rattle.gr_core.specs.Parts.Choice.{choice_model};
ghost use Rattle.gr_core.specs.Machine.Bookkeeping.{is_backed, gain_of, gained};

use crate::choice::{Choice, Proposer};
use gr_count::meets_sponsors;

/// What a choice gains with a proposer or with a sponsor.
#[derive(Clone, Copy, Debug, PartialEq, Eq)]
pub(crate) enum Gain {
    /// It is what it was.
    Nothing,

    /// It is introduced (Constitution, 4.2.1).
    Introduction,

    /// It is short no more (Constitution, A.2.3).
    Remedy,
}

impl Gain {
    /// What the choice gains once it has its proposer and so many sponsors, among so many current
    /// developers.
    pub(crate) fn of(choice: &Choice, sponsors: usize, developers: usize) -> Gain
        ensures { result
            ≡ gain_of (is_backed (choice_model choice.now).proposer sponsors developers)
            choice.now.introduced choice.now.short }
    {
        if !is_backed(choice, sponsors, developers) {
            return Gain::Nothing;
        }
        match (choice.introduced, choice.short) {
            (None, _) => Gain::Introduction,
            (Some(_), Some(_)) => Gain::Remedy,
            (Some(_), None) => Gain::Nothing,
        }
    }
}

impl Choice {
    /// The choice with what it gained at this moment.
    pub(crate) fn gained(self, gain: Gain, at: u64) -> Choice
        ensures { choice_model result ≡ gained gain at (choice_model self) }
    {
        match gain {
            Gain::Nothing => self,
            Gain::Introduction => Choice {
                introduced: Some(at),
                ..self
            },
            Gain::Remedy => Choice {
                short: None,
                ..self
            },
        }
    }
}

/// Whether the choice becomes short with so many sponsors, among so many current developers: it is
/// introduced, is in want, and was not short (Constitution, A.2.3).
pub(crate) fn becomes_short(choice: &Choice, sponsors: usize, developers: usize) -> bool
    ensures { result ≡ (is_some choice.now.introduced && is_none choice.now.short
        && not (is_backed (choice_model choice.now).proposer sponsors developers)) }
{
    choice.introduced.is_some()
        && choice.short.is_none()
        && !is_backed(choice, sponsors, developers)
}

/// Whether the choice can be introduced with so many sponsors, among so many current developers: by
/// the Leader or the Committee, or by a developer and enough sponsors (Constitution, 4.2.1 and
/// 4.2.7).
fn is_backed(choice: &Choice, sponsors: usize, developers: usize) -> bool
    ensures { result ≡ is_backed (choice_model choice.now).proposer sponsors developers }
{
    match &choice.proposer {
        Some(Proposer::Developer(_)) => meets_sponsors(sponsors, developers),
        Some(Proposer::Leader | Proposer::Committee) => true,
        None => false,
    }
}
