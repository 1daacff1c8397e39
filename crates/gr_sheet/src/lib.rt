//! The sheets: how the desk reads, as exact texts.
//!
//! [`sheet_text`] gives the sheet of a [`Kind`]. Nothing is looked at but the desk.
#![tactic(auto)]

mod ballot;
mod ballot_test;
mod choice;
mod kind;
pub mod laws;
mod moment;
mod no_sheet;
mod option_pair;
mod result_sheet;
mod roll_sheet;
mod status_sheet;
mod tally_sheet;

pub use kind::{Kind, sheet_text};
pub use moment::{LAST_SHOWN, Moment};
pub use no_sheet::NoSheet;
pub use result_sheet::result_text;
pub use roll_sheet::roll_text;
pub use status_sheet::status_text;
pub use tally_sheet::tally_text;
