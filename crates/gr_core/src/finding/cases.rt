//! The cases of a finding: for each command what it brings, and what the desk has of what it names.

use crate::ballot::Ballot;
use crate::choice::{Choice, ChoiceKey, Proposer, Wording};
use crate::command::Amendment;
use crate::developer::Standing;
use crate::discussion::Discussion;
use crate::resolution::{Poll, Resolution};
use gr_count::Ranks;

#[derive(Drop)]
pub(crate) struct SetDeveloper<'a> {
    pub(crate) login: &'a str,
    pub(crate) name: &'a str,
    pub(crate) standing: Standing,
}

#[derive(Drop)]
pub(crate) struct Propose<'a> {
    pub(crate) proposer: &'a Proposer,
    pub(crate) wording: &'a Wording,
    pub(crate) ratio: u32,
}

#[derive(Drop)]
pub(crate) struct AddChoice<'a> {
    pub(crate) number: u32,
    pub(crate) resolution: Resolution,
    pub(crate) proposer: &'a Proposer,
    pub(crate) wording: &'a Wording,
    pub(crate) ratio: u32,
}

#[derive(Drop)]
pub(crate) struct Sponsor<'a> {
    pub(crate) key: ChoiceKey,
    pub(crate) choice: &'a Choice,
    pub(crate) resolution: Resolution,
    pub(crate) login: &'a str,
}

#[derive(Drop)]
pub(crate) struct Unsponsor<'a> {
    pub(crate) key: ChoiceKey,
    pub(crate) choice: &'a Choice,
    pub(crate) login: &'a str,
}

#[derive(Drop)]
pub(crate) struct Withdraw<'a> {
    pub(crate) key: ChoiceKey,
    pub(crate) choice: &'a Choice,
}

#[derive(Drop)]
pub(crate) struct Adopt<'a> {
    pub(crate) key: ChoiceKey,
    pub(crate) choice: &'a Choice,
    pub(crate) resolution: Resolution,
    pub(crate) proposer: &'a Proposer,
}

#[derive(Drop)]
pub(crate) struct Amend<'a> {
    pub(crate) key: ChoiceKey,
    pub(crate) choice: &'a Choice,
    pub(crate) resolution: Resolution,
    pub(crate) amendment: Amendment,
    pub(crate) wording: &'a Wording,
}

/// The resolution is under discussion.
#[derive(Drop)]
pub(crate) struct Vary {
    pub(crate) number: u32,
    pub(crate) discussion: Discussion,
    pub(crate) days: i32,
}

/// The resolution is under discussion, and has so many live choices.
#[derive(Drop)]
pub(crate) struct Call {
    pub(crate) number: u32,
    pub(crate) discussion: Discussion,
    pub(crate) live: usize,
    pub(crate) days: i32,
}

/// The ranks, read, and the ballot of the voter that stands.
#[derive(Drop)]
pub(crate) struct Vote<'a> {
    pub(crate) resolution: u32,
    pub(crate) login: &'a str,
    pub(crate) ranks: Ranks,
    pub(crate) token: &'a str,
    pub(crate) earlier: Option<Ballot>,
}

/// The poll is held.
#[derive(Drop)]
pub(crate) struct Close {
    pub(crate) number: u32,
    pub(crate) discussion: Discussion,
    pub(crate) poll: Poll,
}

/// The poll is over.
#[derive(Drop)]
pub(crate) struct Cast {
    pub(crate) number: u32,
    pub(crate) discussion: Discussion,
    pub(crate) poll: Poll,
    pub(crate) place: u32,
}
