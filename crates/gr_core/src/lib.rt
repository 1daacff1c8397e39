//! The rule book of the desk: what a command does to it, and what it answers.
//!
//! A [`Desk`] holds the roll, and the resolutions with their choices, sponsors and ballots, and
//! counts the commands that it accepted. [`Desk::plan`] says what a command would do at a moment,
//! as rows to put and a reply, or names the refusal; it changes nothing. [`Desk::apply`] gives the
//! desk that has those rows. A contract sees a desk as a `State` of `specs/Desks/State.antt`, and a
//! command as an `Act` of `specs/Machine/Act.antt`.
#![tactic(auto)]

mod ballot;
mod ballots;
mod bookkeeping;
mod change;
mod check;
mod choice;
mod choices;
mod command;
mod counting;
mod desk;
mod developer;
mod discussion;
mod election;
mod finding;
mod header;
mod import;
mod intake;
mod kept_pairs;
mod kept_vote;
pub mod laws;
mod limits;
mod login;
mod memory;
mod moment;
mod plan;
mod receipt;
mod refusal;
mod reply;
mod resolution;
mod resolutions;
mod roll;
mod rows;
mod sponsor;
mod sponsors;
mod tables;
mod text;
mod token;
mod two_levels;
mod unfit;
mod valid;

pub use ballot::Ballot;
pub use ballots::Ballots;
pub use change::Change;
pub use choice::{Choice, ChoiceKey, Proposer, Wording};
pub use command::{Amendment, Command};
pub use desk::Desk;
pub use developer::{Developer, Standing};
pub use discussion::Discussion;
pub use header::Header;
pub use import::RollRow;
pub use intake::{Intake, IntoRow};
pub use limits::{
    CHANGE_DAYS, DAY, MAX_ACCEPTED, MAX_CHOICES, MAX_DISCUSSION_DAYS, MAX_LOGIN_CHARACTERS,
    MAX_MOMENT, MAX_NAME_CHARACTERS, MAX_RESOLUTIONS, MAX_SHIFT_DAYS, MAX_SUMMARY_CHARACTERS,
    MAX_TEXT_BYTES, MAX_TOKEN_CHARACTERS, MAX_VOTING_DAYS, MIN_DISCUSSION_DAYS, MIN_NOTICE,
    MIN_TOKEN_CHARACTERS, MIN_VOTING_DAYS, VERSION, VERSION_1,
};
pub use memory::Memory;
pub use plan::{NoPlan, Plan};
pub use receipt::{Receipt, ReceiptDigits};
pub use refusal::Refusal;
pub use reply::{Imported, Note, Reply};
pub use resolution::{Poll, Resolution};
pub use rows::header::HEADER_ID;
pub use rows::{
    BallotRow, BallotRow1, ChoiceRow, DeveloperRow, HeaderRow, NoRow, ResolutionRow, Row, Rows,
    Rows1, SponsorRow,
};
pub use sponsor::Sponsorship;
pub use sponsors::active_among;
pub use unfit::Unfit;
