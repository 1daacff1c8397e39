//! Who won? Vote counting by the Constitution for the Debian Project, A.5.
//!
//! Ballots are read into `Ranks` and added to `Pairs`; `count` finds the outcome. Options are
//! numbers from 0, the default option last. Nothing here takes memory, and no call can fail but the
//! reading of a text that is no ballot.
#![tactic(auto)]

mod counting;
mod kept;
pub mod laws;
mod limits;
mod mark;
mod numbers;
mod options;
mod outcome;
mod pairs;
mod ranks;
mod ratios;
mod relation;
mod schwartz;
mod strength;
mod thresholds;
mod transitive;

pub use counting::count;
pub use limits::{MAX_BALLOTS, MAX_DEVELOPERS, MAX_OPTIONS, MAX_RATIO, MIN_OPTIONS};
pub use mark::Mark;
pub use outcome::Count;
pub use pairs::Pairs;
pub use ranks::{BadRanks, Ranks};
pub use ratios::Ratios;
pub use thresholds::{meets_majority, meets_quorum, meets_sponsors};
