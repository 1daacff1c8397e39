//! Choices: what a ballot will rank beside the default option.
ghost use Rattle.std.specs.Prelude.{◌≡◌, ◌↔◌, Some, IfOk, IsTrue, option_map};
ghost use Rattle.std.specs.Option.{option_copied};
ghost use Rattle.gr_core.specs.Parts.Choice.{Developer, proposer_of, login_of_proposer, wording_of, choice_model};
ghost use Rattle.gr_core.specs.Machine.Bookkeeping.{shortened, has_lapsed, is_live};
ghost use Rattle.gr_core.specs.Machine.Effect.{new_choice};

use crate::limits::DAY;
use crate::memory::Memory;
use std::alloc::Global;

/// A choice by the resolution that it belongs to and its number there, both from 1.
#[derive(Clone, Copy, Debug, PartialEq, Eq, PartialOrd, Ord, Drop)]
pub struct ChoiceKey {
    /// The resolution's number.
    pub resolution: u32,

    /// The choice's own number in the resolution.
    pub number: u32,
}

/// Who proposes a choice (Constitution, 4.2.1).
#[derive(Debug, Drop)]
pub enum Proposer {
    /// The developer with this login.
    Developer(String),

    /// The Project Leader.
    Leader,

    /// The Technical Committee.
    Committee,
}

impl Proposer {
    /// The login of a proposer who is a developer.
    pub(crate) fn login(&self) -> Option<&str>
        ensures { option_copied result ≡ login_of_proposer (proposer_of self.now) }
    {
        match self {
            Proposer::Developer(login) => Some(login.as_str()),
            Proposer::Leader | Proposer::Committee => None,
        }
    }

    /// The same proposer, with a login of its own.
    pub(crate) fn copied(&self, alloc: Global) -> Result<Proposer, Memory>
        ensures { IfOk result (λ proposer. proposer_of proposer ≡ proposer_of self.now) }
    {
        Ok(match self {
            Proposer::Developer(login) => {
                Proposer::Developer(String::from_str(alloc, login.as_str())?)
            }
            Proposer::Leader => Proposer::Leader,
            Proposer::Committee => Proposer::Committee,
        })
    }
}

/// What a choice says.
#[derive(Debug, Drop)]
pub struct Wording {
    /// One line of 1 to [`MAX_SUMMARY_CHARACTERS`](crate::MAX_SUMMARY_CHARACTERS) characters and
    /// no control character, as ballots show it (Constitution, A.3.2).
    pub summary: String,

    /// What the project would resolve: 1 to [`MAX_TEXT_BYTES`](crate::MAX_TEXT_BYTES) bytes, and no
    /// control character but tabs, line feeds and carriage returns.
    pub text: String,
}

impl Wording {
    /// The same texts in memory of their own.
    pub(crate) fn copied(&self, alloc: Global) -> Result<Wording, Memory>
        ensures { IfOk result (λ wording. wording_of wording ≡ wording_of self.now) }
    {
        Ok(Wording {
            summary: String::from_str(alloc, self.summary.as_str())?,
            text: String::from_str(alloc, self.text.as_str())?,
        })
    }
}

/// What the desk keeps of a choice. Moments are in seconds since 1970-01-01T00:00:00Z.
#[derive(Debug, Drop)]
pub struct Choice {
    /// Who proposes it: nobody, once its proposer withdrew (Constitution, A.2.1).
    pub proposer: Option<Proposer>,

    /// What it says.
    pub wording: Wording,

    /// The majority ratio, 1 to [`MAX_RATIO`](gr_count::MAX_RATIO), 1 for a simple majority
    /// (Constitution, A.4.1).
    pub ratio: u32,

    /// When it was introduced (Constitution, 4.2.1).
    pub introduced: Option<u64>,

    /// When a withdrawal left it without a proposer or without enough sponsors, unless that was
    /// remedied since (Constitution, A.2.3).
    pub short: Option<u64>,

    /// Its position on the ballot, from 1 (Constitution, A.3.2).
    pub place: Option<u32>,
}

impl Choice {
    /// A choice that was just proposed: it is not introduced yet. Copies the texts.
    pub(crate) fn new(
        alloc: Global,
        proposer: &Proposer,
        wording: &Wording,
        ratio: u32,
    ) -> Result<Choice, Memory>
        ensures { IfOk result (λ choice. choice_model choice
            ≡ new_choice (proposer_of proposer.now) (wording_of wording.now) ratio) }
    {
        Ok(Choice {
            proposer: Some(proposer.copied(alloc)?),
            wording: wording.copied(alloc)?,
            ratio,
            introduced: None,
            short: None,
            place: None,
        })
    }

    /// The same choice, with texts of its own.
    pub(crate) fn copied(&self, alloc: Global) -> Result<Choice, Memory>
        ensures { IfOk result (λ choice. choice_model choice ≡ choice_model self.now) }
    {
        let proposer = match &self.proposer {
            Some(proposer) => Some(proposer.copied(alloc)?),
            None => None,
        };
        Ok(Choice {
            proposer,
            wording: self.wording.copied(alloc)?,
            ratio: self.ratio,
            introduced: self.introduced,
            short: self.short,
            place: self.place,
        })
    }

    /// The choice with this proposer, or with none.
    pub(crate) fn proposed_by(self, proposer: Option<Proposer>) -> Choice
        ensures { choice_model result
            ≡ record (choice_model self) { proposer = option_map proposer_of proposer } }
    {
        Choice { proposer, ..self }
    }

    /// The choice, which is short from this moment on.
    pub(crate) fn shortened(self, at: u64) -> Choice
        ensures { choice_model result ≡ shortened at (choice_model self) }
    {
        Choice {
            short: Some(at),
            ..self
        }
    }

    /// The choice with this place on a ballot.
    pub(crate) fn placed(self, place: u32) -> Choice
        ensures { choice_model result ≡ record (choice_model self) { place = Some place } }
    {
        Choice {
            place: Some(place),
            ..self
        }
    }

    /// Whether its proposer is the developer with this login.
    pub(crate) fn is_proposed_by(&self, login: &str) -> bool
        ensures { IsTrue result
            ↔ ((choice_model self.now).proposer ≡ Some (Developer login.now)) }
    {
        match &self.proposer {
            Some(Proposer::Developer(proposer)) => proposer.as_str() == login,
            _ => false,
        }
    }

    /// Whether it has been short for a day at this moment: no call gives it a place any more
    /// (Constitution, A.2.3; that this is for good is this project's profile).
    pub(crate) fn has_lapsed(&self, at: u64) -> bool
        ensures { result ≡ has_lapsed at (choice_model self.now) }
    {
        self.short
            .is_some_and(|since| at.saturating_sub(since) >= DAY)
    }

    /// Whether a ballot that is made at this moment has it.
    pub(crate) fn is_live(&self, at: u64) -> bool
        ensures { result ≡ is_live at (choice_model self.now) }
    {
        self.introduced.is_some() && !self.has_lapsed(at)
    }
}
