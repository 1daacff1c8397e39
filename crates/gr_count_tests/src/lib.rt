//! The tests of the counting: what a user of `gr_count` sees of it, by its public calls alone.
//!
//! They stand in a crate of their own, since a crate with tests is proved once with them and once
//! without. Nothing else is here.
#![tactic(auto)]

#[cfg(test)]
mod tests;
