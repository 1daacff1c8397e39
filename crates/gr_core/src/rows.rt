//! Rows: the tables of a desk as they are kept, column by column.
//!
//! Each struct has the columns of one table in their order, as a whole number or a text each. What
//! the numbers say is told here alone: each table's file in `rows/` makes a row of what the desk
//! has, and reads it back. Moments are in seconds since 1970-01-01T00:00:00Z. A moment or a place
//! that there may not be is 0 where there is none.

ghost use Rattle.std.specs.Prelude.{◌≡◌};

mod ballot;
mod choice;
mod developer;
pub(crate) mod header;
mod number;
mod resolution;
mod sponsor;

use crate::memory::Memory;
use std::alloc::AllocError;
use std::error::Error;
use std::fmt;

/// The rows of the six tables, those of each in any order.
#[derive(Debug, Drop)]
pub struct Rows {
    /// The table `desk`, which has one row.
    pub desk: Vec<HeaderRow>,

    /// The table `developer`, by login.
    pub developers: Vec<DeveloperRow>,

    /// The table `resolution`, by number.
    pub resolutions: Vec<ResolutionRow>,

    /// The table `choice`, by the resolution and the number of the choice there.
    pub choices: Vec<ChoiceRow>,

    /// The table `sponsor`, by the choice and the login.
    pub sponsors: Vec<SponsorRow>,

    /// The table `ballot2`, by the resolution and the login.
    pub ballots: Vec<BallotRow>,
}

/// The rows of the six tables in version 1, those of each in any order.
#[derive(Debug, Drop)]
pub struct Rows1 {
    /// The table `desk`, which has one row.
    pub desk: Vec<HeaderRow>,

    /// The table `developer`, by login.
    pub developers: Vec<DeveloperRow>,

    /// The table `resolution`, by number.
    pub resolutions: Vec<ResolutionRow>,

    /// The table `choice`, by the resolution and the number of the choice there.
    pub choices: Vec<ChoiceRow>,

    /// The table `sponsor`, by the choice and the login.
    pub sponsors: Vec<SponsorRow>,

    /// The table `ballot`, by the resolution and the login.
    pub ballots: Vec<BallotRow1>,
}

/// One row of any of the six tables.
#[derive(Debug, Drop)]
pub enum Row {
    /// Of the table `desk`.
    Header(HeaderRow),

    /// Of the table `developer`.
    Developer(DeveloperRow),

    /// Of the table `resolution`.
    Resolution(ResolutionRow),

    /// Of the table `choice`.
    Choice(ChoiceRow),

    /// Of the table `sponsor`.
    Sponsor(SponsorRow),

    /// Of the table `ballot2`.
    Ballot(BallotRow),
}

/// The header, as the row of the table `desk`.
#[derive(Clone, Copy, Debug, PartialEq, Eq, Drop)]
pub struct HeaderRow {
    /// 1: there is one row.
    pub id: i64,

    /// The version of the rows.
    pub version: i64,

    /// How many commands were accepted.
    pub accepted: i64,

    /// The moment of the last one, 0 before the first.
    pub clock: i64,
}

/// A row of the table `developer`.
#[derive(Debug, Drop)]
pub struct DeveloperRow {
    /// The key: whom the row is about.
    pub login: String,

    /// The name that people read.
    pub name: String,

    /// 1 for a current developer, 0 for a retired one.
    pub active: i64,
}

/// A row of the table `resolution`.
#[derive(Clone, Copy, Debug, PartialEq, Eq, Drop)]
pub struct ResolutionRow {
    /// The key, from 1.
    pub number: i64,

    /// 0 for a draft, 1 under discussion, 2 for a vote that is held, 3 for one that is closed, and
    /// 4 for a cancelled resolution.
    pub stage: i64,

    /// When the discussion began.
    pub start: i64,

    /// When the ballot last changed.
    pub changed: i64,

    /// The days by which the lengths of the discussion are varied.
    pub shift: i64,

    /// When the vote was called for.
    pub called: i64,

    /// For how many days votes are taken.
    pub days: i64,

    /// How many developers were current at the call.
    pub devs: i64,

    /// The place that the casting vote chose.
    pub chosen: i64,
}

/// A row of the table `choice`.
#[derive(Debug, Drop)]
pub struct ChoiceRow {
    /// The first part of the key: the resolution.
    pub resolution: i64,

    /// The second part of the key: the number there, from 1.
    pub number: i64,

    /// Who proposes it: 0 nobody, 1 a developer, 2 the Leader, 3 the Committee.
    pub kind: i64,

    /// The login of a proposer who is a developer, else nothing.
    pub proposer: String,

    /// One line, as ballots show it.
    pub summary: String,

    /// The text of the choice.
    pub body: String,

    /// The majority ratio.
    pub ratio: i64,

    /// When it was introduced.
    pub introduced: i64,

    /// Since when it is short of a proposer or of sponsors.
    pub short: i64,

    /// The place on the ballot, from 1.
    pub place: i64,
}

/// A row of the table `sponsor`.
#[derive(Debug, Drop)]
pub struct SponsorRow {
    /// The first part of the key: the resolution.
    pub resolution: i64,

    /// The second part of the key: the number of the choice there.
    pub choice: i64,

    /// The third part of the key: who sponsors it.
    pub login: String,

    /// 1 for an active sponsor, 0 for one who withdrew.
    pub active: i64,
}

/// A row of the table `ballot2`.
#[derive(Debug, Drop)]
pub struct BallotRow {
    /// The first part of the key: the resolution.
    pub resolution: i64,

    /// The second part of the key: who voted.
    pub login: String,

    /// What the ballot says, one character for each place.
    pub ranks: String,

    /// The receipt, 64 digits `0`..`9` and `a`..`f`.
    pub receipt: String,

    /// How many votes of the voter were accepted on the resolution.
    pub received: i64,
}

/// A row of the table `ballot`, which version 1 had in the place of `ballot2`.
#[derive(Debug, Drop)]
pub struct BallotRow1 {
    /// The first part of the key: the resolution.
    pub resolution: i64,

    /// The second part of the key: who voted.
    pub login: String,

    /// What the ballot says, one character for each place.
    pub ranks: String,

    /// The receipt, 64 digits `0`..`9` and `a`..`f`.
    pub receipt: String,
}

/// Why a change has no row to keep.
#[derive(Clone, Copy, Debug, PartialEq, Eq)]
pub enum NoRow {
    /// A moment or a count is past the whole numbers of a column. No plan has such a change, since
    /// those of a valid desk are far below. To require that of a change would put a condition on
    /// every caller.
    TooGreat,

    /// The memory for the row was refused.
    Memory,
}

impl fmt::Display for NoRow {
    ghost use Rattle.std.specs.Prelude.{Some};
    ghost use Rattle.gr_core.specs.Columns.Fields.{no_row_text};

    ghost output = { λ no_row. Some (no_row_text no_row) };

    fn fmt<W: fmt::Write>(&self, f: &mut fmt::Formatter<W>) -> fmt::Result {
        match self {
            NoRow::TooGreat => f.write_str("a number is too great for a column"),
            NoRow::Memory => write!(f, "{Memory}"),
        }
    }
}

impl Error for NoRow {}

impl From<Memory> for NoRow {
    ghost use Rattle.gr_core.specs.declared.rows.NoRow.TheVariants.{Memory};

    ghost from_gives = { λ _ e. e ≡ Memory };

    fn from(_memory: Memory) -> NoRow {
        NoRow::Memory
    }
}

impl From<AllocError> for NoRow {
    ghost use Rattle.gr_core.specs.declared.rows.NoRow.TheVariants.{Memory};

    ghost from_gives = { λ _ e. e ≡ Memory };

    fn from(_error: AllocError) -> NoRow {
        NoRow::Memory
    }
}
