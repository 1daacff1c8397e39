//! The desk in one SQLite file.
#![tactic(auto)]

mod commit;
mod create;
mod fault;
pub mod laws;
mod load;
mod migrate;
mod select;
mod store;
mod tables;
mod version;
mod version_1;

pub use fault::Fault;
pub use store::{NotOpened, Store};
pub use version::lacks_ballots;
