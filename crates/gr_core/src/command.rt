//! Commands: what the Secretary asks of the desk.
ghost use Rattle.std.specs.Prelude.{◌≡◌, map, option_map};
ghost use Rattle.std.specs.Option.{option_copied};
ghost use Rattle.gr_core.specs.Machine.Act.{act_of, actor_of, current_actor_of, login_of, name_of, wording_of_act, ratio_of, shift_of, period_of, token_of, import_of, choice_of, resolution_of};
ghost use Rattle.gr_core.specs.Parts.Choice.{wording_of};
ghost use Rattle.gr_core.specs.Machine.Import.{roll_row};

use crate::choice::{ChoiceKey, Proposer, Wording};
use crate::developer::Standing;
use crate::import::RollRow;

/// What the Secretary asks of the desk. The texts are as they came; the desk judges them.
#[derive(Debug, Drop)]
pub enum Command {
    /// Puts the login on the roll with this name and standing, or gives the developer who has that
    /// login these.
    SetDeveloper {
        /// The developer's login.
        login: String,

        /// The developer's name.
        name: String,

        /// The developer's standing from now on.
        standing: Standing,
    },

    /// Puts each row on the roll, as `SetDeveloper` would. Nobody is removed from it.
    ImportRoll {
        /// The rows, as they stood after a first line with the names of the columns.
        rows: Vec<RollRow>,
    },

    /// Makes a new resolution with its first choice (Constitution, A.0.1 and A.0.2).
    Propose {
        /// Who proposes the choice.
        proposer: Proposer,

        /// What the choice says.
        wording: Wording,

        /// The majority ratio of the choice, 1 to [`MAX_RATIO`](gr_count::MAX_RATIO).
        ratio: u32,
    },

    /// Makes a further choice of a resolution under discussion (Constitution, A.1.2).
    AddChoice {
        /// The number of the resolution.
        resolution: u32,

        /// Who proposes the choice.
        proposer: Proposer,

        /// What the choice says.
        wording: Wording,

        /// The majority ratio of the choice, 1 to [`MAX_RATIO`](gr_count::MAX_RATIO).
        ratio: u32,
    },

    /// Makes a developer a sponsor of a choice (Constitution, 4.2.1).
    Sponsor {
        /// The choice.
        choice: ChoiceKey,

        /// The developer's login.
        login: String,
    },

    /// Ends a developer's sponsorship of a choice (Constitution, A.2.2).
    Unsponsor {
        /// The choice.
        choice: ChoiceKey,

        /// The sponsor's login.
        login: String,
    },

    /// Leaves a choice without its proposer (Constitution, A.2.1).
    Withdraw {
        /// The choice.
        choice: ChoiceKey,
    },

    /// Gives a choice that has no proposer a new one (Constitution, A.2.1).
    Adopt {
        /// The choice.
        choice: ChoiceKey,

        /// Who steps forward.
        proposer: Proposer,
    },

    /// Gives a choice other words (Constitution, A.1.3 and A.1.5).
    Amend {
        /// The choice.
        choice: ChoiceKey,

        /// Whether the amendment is minor.
        amendment: Amendment,

        /// What the choice says from now on.
        wording: Wording,
    },

    /// Varies the least and the greatest length of a discussion (Constitution, A.1.6), in place of
    /// an earlier variation.
    Vary {
        /// The number of the resolution.
        resolution: u32,

        /// The days by which both lengths are varied, up or down, from what they are without a
        /// variation: at most [`MAX_SHIFT_DAYS`](crate::MAX_SHIFT_DAYS). These and those of a call
        /// have a sign, so that the desk judges whatever a request says, and answers `BadDays`.
        days: i32,
    },

    /// Calls for the vote on a resolution (Constitution, A.3.1), or cancels it where no choice is
    /// live (Constitution, A.2.4).
    Call {
        /// The number of the resolution.
        resolution: u32,

        /// For how many days votes are taken: [`MIN_VOTING_DAYS`](crate::MIN_VOTING_DAYS) to
        /// [`MAX_VOTING_DAYS`](crate::MAX_VOTING_DAYS) (Constitution, 4.2.3).
        days: i32,
    },

    /// Takes a developer's ballot on a resolution (Constitution, 4.2.3), in the place of an earlier
    /// one of that developer (this project's profile).
    Vote {
        /// The number of the resolution.
        resolution: u32,

        /// The developer's login.
        login: String,

        /// The ranks: a character for each place, that of the default option last (Constitution,
        /// A.5.1). `1` to `9` and then `a` to `z` are ranks in falling preference, and `-` is for
        /// none. Two options may share a rank, and those without one come last, level with one
        /// another. Ranks may have gaps. The characters and the gaps are this project's profile.
        ranks: String,

        /// The voter's token: [`MIN_TOKEN_CHARACTERS`](crate::MIN_TOKEN_CHARACTERS) to
        /// [`MAX_TOKEN_CHARACTERS`](crate::MAX_TOKEN_CHARACTERS) of `A`..`Z`, `a`..`z` and
        /// `0`..`9`. It goes into the receipt, and is kept nowhere.
        token: String,
    },

    /// Ends the vote on a resolution, whose time is over (Constitution, 4.2.3).
    Close {
        /// The number of the resolution.
        resolution: u32,
    },

    /// Chooses among the several options that a vote left, by the casting vote (Constitution, 4.2.4
    /// and A.5.8).
    Cast {
        /// The number of the resolution.
        resolution: u32,

        /// The place from 1 of the option that is chosen.
        place: u32,
    },
}

/// What an amendment changes.
#[derive(Clone, Copy, Debug, PartialEq, Eq)]
pub enum Amendment {
    /// What the choice would do: it changes the ballot (Constitution, A.1.3 and A.1.4).
    Substantial,

    /// Errors of writing and the like, which leave the end of the discussion (Constitution, A.1.5).
    Minor,
}

impl Command {
    /// The developer who acts.
    pub(crate) fn actor(&self) -> Option<&str>
        ensures { option_copied result ≡ actor_of (act_of self.now) }
    {
        match self {
            Command::Propose { proposer, .. }
            | Command::AddChoice { proposer, .. }
            | Command::Adopt { proposer, .. } => proposer.login(),
            Command::Sponsor { login, .. }
            | Command::Unsponsor { login, .. }
            | Command::Vote { login, .. } => Some(login.as_str()),
            _ => None,
        }
    }

    /// The developer who acts and has to be current: a retired one may still withdraw as a sponsor.
    pub(crate) fn current_actor(&self) -> Option<&str>
        ensures { option_copied result ≡ current_actor_of (act_of self.now) }
    {
        match self {
            Command::Unsponsor { .. } => None,
            _ => self.actor(),
        }
    }

    /// The login of the command, which is to be well formed; those of an import's rows aside.
    pub(crate) fn login(&self) -> Option<&str>
        ensures { option_copied result ≡ login_of (act_of self.now) }
    {
        match self {
            Command::SetDeveloper { login, .. } => Some(login.as_str()),
            _ => self.actor(),
        }
    }

    /// The name that the command brings, which is to be well formed; those of an import's rows
    /// aside.
    pub(crate) fn name(&self) -> Option<&str>
        ensures { option_copied result ≡ name_of (act_of self.now) }
    {
        match self {
            Command::SetDeveloper { name, .. } => Some(name.as_str()),
            _ => None,
        }
    }

    /// The summary and the text that the command brings.
    pub(crate) fn wording(&self) -> Option<&Wording>
        ensures { option_map (λ wording. wording_of wording.now) result
            ≡ wording_of_act (act_of self.now) }
    {
        match self {
            Command::Propose { wording, .. }
            | Command::AddChoice { wording, .. }
            | Command::Amend { wording, .. } => Some(wording),
            _ => None,
        }
    }

    /// The majority ratio that the command brings.
    pub(crate) fn ratio(&self) -> Option<u32>
        ensures { result ≡ ratio_of (act_of self.now) }
    {
        match self {
            Command::Propose { ratio, .. } | Command::AddChoice { ratio, .. } => Some(*ratio),
            _ => None,
        }
    }

    /// The days by which the command varies a discussion.
    pub(crate) fn shift(&self) -> Option<i32>
        ensures { result ≡ shift_of (act_of self.now) }
    {
        match self {
            Command::Vary { days, .. } => Some(*days),
            _ => None,
        }
    }

    /// The days for which the command calls a vote.
    pub(crate) fn period(&self) -> Option<i32>
        ensures { result ≡ period_of (act_of self.now) }
    {
        match self {
            Command::Call { days, .. } => Some(*days),
            _ => None,
        }
    }

    /// The token that goes into the receipt of the ballot that the command brings.
    pub(crate) fn token(&self) -> Option<&str>
        ensures { option_copied result ≡ token_of (act_of self.now) }
    {
        match self {
            Command::Vote { token, .. } => Some(token.as_str()),
            _ => None,
        }
    }

    /// The rows that the command imports.
    pub(crate) fn import(&self) -> Option<&[RollRow]>
        ensures { option_map (λ rows. map roll_row rows.now) result ≡ import_of (act_of self.now) }
    {
        match self {
            Command::ImportRoll { rows } => Some(rows.as_slice()),
            _ => None,
        }
    }

    /// The choice on which the command acts.
    pub(crate) fn choice(&self) -> Option<ChoiceKey>
        ensures { result ≡ choice_of (act_of self.now) }
    {
        match self {
            Command::Sponsor { choice, .. }
            | Command::Unsponsor { choice, .. }
            | Command::Withdraw { choice }
            | Command::Adopt { choice, .. }
            | Command::Amend { choice, .. } => Some(*choice),
            _ => None,
        }
    }

    /// The number of the resolution that the command names.
    pub(crate) fn resolution(&self) -> Option<u32>
        ensures { result ≡ resolution_of (act_of self.now) }
    {
        match self {
            Command::AddChoice { resolution, .. }
            | Command::Vary { resolution, .. }
            | Command::Call { resolution, .. }
            | Command::Vote { resolution, .. }
            | Command::Close { resolution }
            | Command::Cast { resolution, .. } => Some(*resolution),
            _ => self.choice().map(|choice| choice.resolution),
        }
    }
}
