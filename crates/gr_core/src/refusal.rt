//! Refusals: why the desk does not accept a command.
ghost use Rattle.std.specs.Prelude.{◌≡◌};
ghost use Rattle.gr_core.specs.Machine.Refusal.{number, name};

use gr_count::BadRanks;
use std::error::Error;
use std::fmt;

/// Why the desk does not accept a command. Where several apply, that of least number is answered.
#[derive(Clone, Copy, Debug, PartialEq, Eq)]
pub enum Refusal {
    /// The moment is 0 or past [`MAX_MOMENT`](crate::MAX_MOMENT).
    BadMoment,

    /// The moment is before that of the last accepted command.
    ClockBack,

    /// A login of the command, those of an import's rows aside, is no login: those have 1 to
    /// [`MAX_LOGIN_CHARACTERS`](crate::MAX_LOGIN_CHARACTERS) of `a`..`z`, `0`..`9`, `.`, `_` and
    /// `-`, and begin with a letter or a digit.
    BadLogin,

    /// A name of the command, the names of an import's rows aside, is not 1 to
    /// [`MAX_NAME_CHARACTERS`](crate::MAX_NAME_CHARACTERS) characters, or a summary not 1 to
    /// [`MAX_SUMMARY_CHARACTERS`](crate::MAX_SUMMARY_CHARACTERS), or one of them is a control
    /// character; or a text is not 1 to [`MAX_TEXT_BYTES`](crate::MAX_TEXT_BYTES) bytes, or has a
    /// control character that is no tab, line feed or carriage return.
    BadText,

    /// The majority ratio is not 1 to [`MAX_RATIO`](gr_count::MAX_RATIO).
    BadRatio,

    /// The days of a variation are not -[`MAX_SHIFT_DAYS`](crate::MAX_SHIFT_DAYS) to
    /// [`MAX_SHIFT_DAYS`](crate::MAX_SHIFT_DAYS), or those of a call not
    /// [`MIN_VOTING_DAYS`](crate::MIN_VOTING_DAYS) to [`MAX_VOTING_DAYS`](crate::MAX_VOTING_DAYS).
    BadDays,

    /// The token is not [`MIN_TOKEN_CHARACTERS`](crate::MIN_TOKEN_CHARACTERS) to
    /// [`MAX_TOKEN_CHARACTERS`](crate::MAX_TOKEN_CHARACTERS) of `A`..`Z`, `a`..`z` and `0`..`9`.
    BadToken,

    /// The desk accepted [`MAX_ACCEPTED`](crate::MAX_ACCEPTED) commands, or has no room for one
    /// developer, resolution or choice more: it may have
    /// [`MAX_DEVELOPERS`](gr_count::MAX_DEVELOPERS), [`MAX_RESOLUTIONS`](crate::MAX_RESOLUTIONS),
    /// and [`MAX_CHOICES`](crate::MAX_CHOICES) in one resolution. An import may have no more rows
    /// than there may be developers, and the roll and its rows together no more logins.
    Full,

    /// There is no such resolution.
    NoResolution,

    /// There is no such choice; or the resolution is closed, and its ballot has no place with the
    /// number that the casting vote names.
    NoChoice,

    /// The resolution is in a stage in which the command cannot come.
    WrongStage,

    /// The discussion is over: no choice can be added, none amended but in a minor way, none that
    /// is not introduced sponsored or adopted, and the discussion not varied. Or the time for votes
    /// is over (Constitution, 4.2.3).
    Ended,

    /// The discussion is not over, and no vote can be called for (Constitution, A.3.1); or the time
    /// for votes is not over, and the vote cannot be closed (Constitution, 4.2.3).
    TooEarly,

    /// The developer who acts is not on the roll.
    NoDeveloper,

    /// The developer who acts is retired. A retired one may still withdraw as a sponsor.
    NotCurrent,

    /// The choice was short of a proposer or of sponsors for a day: no call gives it a place any
    /// more (Constitution, A.2.3; that this is for good is this project's profile).
    Lapsed,

    /// The new sponsor of the choice is an active one already, or its proposer (Constitution,
    /// 4.2.1); or the casting vote on the resolution was used already.
    Already,

    /// The login is no active sponsor of the choice, and so cannot withdraw as one (Constitution,
    /// A.2.2).
    NotSponsor,

    /// The choice to be adopted has a proposer (Constitution, A.2.1).
    HasProposer,

    /// The choice has no proposer who could withdraw (Constitution, A.2.1).
    NoProposer,

    /// The variation would end the discussion less than [`MIN_NOTICE`](crate::MIN_NOTICE) seconds
    /// from the moment (Constitution, A.1.6).
    EndsTooSoon,

    /// The ranks are not one character of `1`..`9`, `a`..`z` and `-` for each place of the ballot.
    BadRanks,

    /// The casting vote cannot choose this place: the outcome set has one member, or the option of
    /// the place is not in it (Constitution, A.5.8).
    NotTied,

    /// A tally or a result is asked for, and the vote on the resolution is not closed: nothing of
    /// it is revealed before (Constitution, 4.2.3). No command meets this.
    NotRevealed,

    /// An import has a row whose login, name or status breaks its rule, or whose login stands in
    /// an earlier row.
    BadRoll {
        /// The line of the first such row. The names of the columns have line 1.
        line: usize,
    },
}

impl Refusal {
    /// The number that answers show. Takes no memory. Two refusals have the number 19: no command
    /// meets both, so number and command together say which of them it is.
    pub fn number(self) -> u32
        ensures { result ≡ number self }
    {
        match self {
            Refusal::BadMoment => 1,
            Refusal::ClockBack => 2,
            Refusal::BadLogin => 3,
            Refusal::BadText => 4,
            Refusal::BadRatio => 5,
            Refusal::BadDays => 6,
            Refusal::BadToken => 7,
            Refusal::Full => 8,
            Refusal::NoResolution => 9,
            Refusal::NoChoice => 10,
            Refusal::WrongStage => 11,
            Refusal::Ended => 12,
            Refusal::TooEarly => 13,
            Refusal::NoDeveloper => 14,
            Refusal::NotCurrent => 15,
            Refusal::Lapsed => 16,
            Refusal::Already => 17,
            Refusal::NotSponsor => 18,
            Refusal::HasProposer => 19,
            Refusal::NoProposer => 19,
            Refusal::EndsTooSoon => 20,
            Refusal::BadRanks => 21,
            Refusal::NotTied => 22,
            Refusal::NotRevealed => 24,
            Refusal::BadRoll { .. } => 23,
        }
    }

    /// The name that answers show. Takes no memory.
    pub fn name(self) -> &'static str
        ensures { result.now ≡ name self }
    {
        match self {
            Refusal::BadMoment => "BadMoment",
            Refusal::ClockBack => "ClockBack",
            Refusal::BadLogin => "BadLogin",
            Refusal::BadText => "BadText",
            Refusal::BadRatio => "BadRatio",
            Refusal::BadDays => "BadDays",
            Refusal::BadToken => "BadToken",
            Refusal::Full => "Full",
            Refusal::NoResolution => "NoResolution",
            Refusal::NoChoice => "NoChoice",
            Refusal::WrongStage => "WrongStage",
            Refusal::Ended => "Ended",
            Refusal::TooEarly => "TooEarly",
            Refusal::NoDeveloper => "NoDeveloper",
            Refusal::NotCurrent => "NotCurrent",
            Refusal::Lapsed => "Lapsed",
            Refusal::Already => "Already",
            Refusal::NotSponsor => "NotSponsor",
            Refusal::HasProposer => "HasProposer",
            Refusal::NoProposer => "NoProposer",
            Refusal::EndsTooSoon => "EndsTooSoon",
            Refusal::BadRanks => "BadRanks",
            Refusal::NotTied => "NotTied",
            Refusal::NotRevealed => "NotRevealed",
            Refusal::BadRoll { .. } => "BadRoll",
        }
    }
}

/// No contract says that printing succeeds where the writer takes all: an implementation of
/// `Display` or `Write` can add no clause that a caller sees. So tests print each refusal, and a
/// response prints none: `gr_http` puts its line together in a text of fixed size.
impl fmt::Display for Refusal {
    ghost use Rattle.std.specs.Prelude.{Some};
    ghost use Rattle.gr_core.specs.Machine.Refusal.{printed};

    ghost output = { λ refusal. Some (printed refusal) };

    fn fmt<W: fmt::Write>(&self, f: &mut fmt::Formatter<W>) -> fmt::Result {
        f.write_str(self.name())?;
        match self {
            Refusal::BadRoll { line } => write!(f, " {line}"),
            _ => Ok(()),
        }
    }
}

impl Error for Refusal {}

impl From<BadRanks> for Refusal {
    ghost use Rattle.gr_core.specs.declared.refusal.Refusal.TheVariants.{BadRanks};

    ghost from_gives = { λ _ refusal. refusal ≡ BadRanks };

    fn from(_ranks: BadRanks) -> Refusal {
        Refusal::BadRanks
    }
}
