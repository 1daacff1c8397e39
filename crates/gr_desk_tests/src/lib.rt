//! The tests of the program: what a user of `gr_desk` sees of it, by its public calls alone.
//!
//! They stand in a crate of their own, since a crate with tests is proved once with them and once
//! without. Besides them there is a vote over several lines, which is proved, and the machine in
//! memory that it runs on.
#![tactic(auto)]

pub mod asked;
pub mod lasting_host;
pub mod one_file;
#[cfg(test)]
mod tests;
pub mod truthful;
pub mod witness;
