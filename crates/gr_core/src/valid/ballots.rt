//! The rules of a valid desk that speak of ballots, and of what was chosen by them.
ghost use Rattle.std.specs.Prelude.{◌≡◌, ◌↔◌, ◌<◌, ◌≤◌, Some, IsTrue, IsSome, string_bytes};
ghost use Rattle.std.specs.FinMap as finite;
ghost use Rattle.gr_count.specs.Shown.{marks_in};
ghost use Rattle.gr_core.specs.Parts.Ballot.{ballot_model, AreRanks};
ghost use Rattle.gr_core.specs.Desks.Outcome.{place_count};
ghost use Rattle.gr_core.specs.Parts.Receipt.{IsReceipt};
ghost use Rattle.gr_core.specs.Desks.Rules.{HoldsOfEach};
ghost use Rattle.gr_core.specs.InMemory.KeptPairs.{KeepsPairs};
ghost use Rattle.gr_core.specs.Desks.Valid.{AreTables, IsBallotIn, EachBallot, IsRightlyChosen, EachResolution};

use crate::ballot::Ballot;
use crate::election::{cannot_be_chosen, has_poll};
use crate::kept_pairs::KeptPairs;
use crate::receipt::receipts_are_digests;
use crate::resolution::Resolution;
use crate::roll::Roll;
use crate::tables::Tables;
use gr_count::Ranks;
use std::collections::BTreeMap;

/// Whether each ballot is one that its developer may have in its resolution.
pub(super) fn are_ballots(tables: &Tables) -> bool
    ensures { IsTrue result ↔ EachBallot tables.now (IsBallotIn tables.now) }
{
    tables.ballots().by_resolution().iter().all(|(resolution, ballots)| belong(
        tables,
        *resolution,
        ballots,
    ))
}

/// Whether each of these ballots is one that its developer may have in the resolution.
fn belong(tables: &Tables, resolution: u32, ballots: &BTreeMap<String, Ballot>) -> bool
    ensures { IsTrue result ↔ HoldsOfEach (λ entry.
        IsBallotIn tables.now resolution (string_bytes entry.0) (ballot_model entry.1))
        ballots.now }
{
    are_on_roll(tables.roll(), ballots) && are_sound(tables, resolution, ballots)
}

/// Whether the voter of each of these ballots is on the roll. Both stand in the order of logins,
/// so they are walked over side by side, with no search for each. A voter whom that does not find
/// is looked up, so the proof needs no word on the order of either.
fn are_on_roll(roll: &Roll, ballots: &BTreeMap<String, Ballot>) -> bool
    ensures { IsTrue result ↔ HoldsOfEach (λ entry.
        IsSome (finite.get roll.now (string_bytes entry.0))) ballots.now }
{
    let mut ballots = ballots.iter();
    let mut next = ballots.next();
    for (developer, _) in roll.developers() {
        if let Some((voter, _)) = next {
            if voter.as_str() == developer.as_str() {
                next = ballots.next();
            }
        }
    }
    match next {
        Some((voter, _)) => {
            roll.contains(voter.as_str()) && ballots.all(|(voter, _)| roll.contains(voter.as_str()))
        }
        None => true,
    }
}

/// Whether each of these ballots of developers is one that may be had in the resolution.
fn are_sound(tables: &Tables, resolution: u32, ballots: &BTreeMap<String, Ballot>) -> bool
    requires { HoldsOfEach (λ entry.
        IsSome (finite.get tables.now.developers (string_bytes entry.0))) ballots.now }
    ensures { IsTrue result ↔ HoldsOfEach (λ entry.
        IsBallotIn tables.now resolution (string_bytes entry.0) (ballot_model entry.1))
        ballots.now }
{
    let has_poll = has_poll(tables, resolution);
    let places = tables.choices().place_count(resolution);
    let accepted = tables.header().accepted;
    ballots.iter().all(|(_, ballot)| {
        has_poll && has_ranks_for(places, ballot) && is_received(accepted, ballot.received)
    })
}

/// Whether the ballot has a mark for each of so many places.
fn has_ranks_for(places: usize, ballot: &Ballot) -> bool
    ensures { IsTrue result ↔ (AreRanks places (ballot_model ballot.now).ranks
        × IsReceipt (ballot_model ballot.now).receipt) }
{
    // Does nothing: its clause says that the receipt has 32 bytes.
    receipts_are_digests(ballot.receipt);
    are_ranks(places, ballot.ranks)
}

/// Whether so many votes may be those of one developer on a desk that accepted so many commands.
fn is_received(accepted: u64, received: u32) -> bool
    ensures { IsTrue result ↔ ((0 < received) × (received ≤ accepted)) }
{
    0 < received && u64::from(received) <= accepted
}

/// Whether the ranks are those of a ballot with so many places.
fn are_ranks(places: usize, ranks: Ranks) -> bool
    ensures { IsTrue result ↔ AreRanks places (marks_in ranks) }
{
    ranks.options() == places
}

/// Whether each place that was chosen is one that the casting vote could choose.
pub(super) fn are_rightly_chosen(tables: &Tables, kept: &KeptPairs) -> bool
    requires tables { AreTables tables.now.header.clock tables.now }
    requires kept { KeepsPairs tables.now kept.now }
    ensures { IsTrue result ↔ EachResolution tables.now (IsRightlyChosen tables.now) }
{
    for (number, resolution) in tables.resolutions().by_number() {
        if !is_rightly_chosen(tables, kept, *number, *resolution) {
            return false;
        }
    }
    true
}

/// Whether the place that was chosen in this resolution of the tables, if one was, is one that the
/// casting vote could choose (Constitution, A.5.8).
fn is_rightly_chosen(tables: &Tables, kept: &KeptPairs, number: u32, resolution: Resolution) -> bool
    requires tables { AreTables tables.now.header.clock tables.now }
    requires kept { KeepsPairs tables.now kept.now }
    requires row { finite.get tables.now.resolutions number ≡ Some resolution }
    ensures { IsTrue result ↔ IsRightlyChosen tables.now number resolution }
{
    match resolution {
        Resolution::Closed(_, poll, Some(place)) => {
            !cannot_be_chosen(tables, kept, number, poll, place)
        }
        _ => true,
    }
}
