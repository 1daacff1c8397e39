//! Elections: the ballots of a resolution, and what the counting finds of them.
ghost use Rattle.std.specs.Prelude.{◌≡◌, ◌↔◌, Some, IfOk, IsOk, IsSome, IsTrue, map, option_and_then};
ghost use Rattle.std.specs.FinMap as finite;
ghost use Rattle.gr_count.specs.Ballot.{IsBallot, mark_of};
ghost use Rattle.gr_count.specs.Shown.{marks_in, options_of_pairs};
ghost use Rattle.gr_count.specs.PairwiseCount.{IsPairwiseCountOf};
ghost use Rattle.gr_core.specs.Parts.Ballot.{vote_of};
ghost use Rattle.gr_core.specs.Parts.Resolution.{poll_of};
ghost use Rattle.gr_core.specs.InMemory.KeptPairs.{HasPoll, IsKeptOf, KeepsPairs};
ghost use Rattle.gr_core.specs.Desks.Outcome.{place_count, IsPlace, election_at, IsCountOf, CannotBeChosen};
ghost use Rattle.gr_core.specs.Desks.Valid.{AreTables, EachBallot, IsBallotIn, IsValid};

use crate::kept_pairs::KeptPairs;
use crate::kept_vote::KeptVote;
use crate::resolution::Poll;
use crate::tables::Tables;
use gr_count::{BadRanks, Count, Pairs, Ranks, count};

/// The ranks of a ballot on the resolution, on which votes are taken or were. How many places it
/// has, what is kept of the vote says: no choice is looked at.
///
/// [`BadRanks`]: the text has not one character of a rank, or of none, for each place.
pub(crate) fn ranks_of(
    tables: &Tables,
    kept: &KeptPairs,
    resolution: u32,
    text: &str,
) -> Result<Ranks, BadRanks>
    requires kept { KeepsPairs tables.now kept.now }
    requires poll { IsSome
        (option_and_then poll_of (finite.get tables.now.resolutions resolution)) }
    ensures ok { IsOk result ↔ IsBallot (place_count tables.now.choices resolution) text.now }
    ensures marks { IfOk result (λ ranks. marks_in ranks ≡ map mark_of text.now) }
{
    let pairs = kept.pairs(resolution).unwrap();
    Ranks::read(text.as_bytes(), pairs.options())
}

/// Whether votes are taken on the resolution, or were.
pub(crate) fn has_poll(tables: &Tables, number: u32) -> bool
    ensures { IsTrue result
        ↔ IsSome (option_and_then poll_of (finite.get tables.now.resolutions number)) }
{
    match tables.resolutions().get(number) {
        Some(resolution) => resolution.poll().is_some(),
        None => false,
    }
}

/// The preference counts of the ballots on the resolution, on which votes are taken or were, each
/// added (Constitution, A.5.3.1).
fn pairs_of(tables: &Tables, resolution: u32) -> Pairs
    requires tables { AreTables tables.now.header.clock tables.now }
    requires ballots { EachBallot tables.now (IsBallotIn tables.now) }
    requires poll { IsSome
        (option_and_then poll_of (finite.get tables.now.resolutions resolution)) }
    ensures options { options_of_pairs result ≡ place_count tables.now.choices resolution }
    ensures tally { IsPairwiseCountOf result (vote_of tables.now.ballots resolution) }
{
    let places = tables.choices().place_count(resolution);
    tables.ballots().pairs(resolution, places)
}

/// What is kept of the vote on the resolution, on which votes are taken or were. Walks over its
/// ballots.
pub(crate) fn kept_vote(tables: &Tables, resolution: u32) -> KeptVote
    requires tables { AreTables tables.now.header.clock tables.now }
    requires ballots { EachBallot tables.now (IsBallotIn tables.now) }
    requires poll { HasPoll tables.now resolution }
    ensures { IsKeptOf tables.now resolution result }
{
    KeptVote {
        pairs: pairs_of(tables, resolution),
        received: tables.ballots().received(resolution),
    }
}

/// What the counting finds of the ballots on the resolution, by this poll of it and the counts that
/// are kept (Constitution, A.5).
pub(crate) fn count_of(tables: &Tables, kept: &KeptPairs, resolution: u32, poll: Poll) -> Count
    requires tables { AreTables tables.now.header.clock tables.now }
    requires kept { KeepsPairs tables.now kept.now }
    requires poll { option_and_then poll_of (finite.get tables.now.resolutions resolution)
        ≡ Some poll }
    ensures { IsCountOf (election_at tables.now resolution poll)
        (place_count tables.now.choices resolution) result }
{
    let pairs = kept.pairs(resolution).unwrap();
    let ratios = tables.choices().ratios(resolution, pairs.options());
    // Does nothing: its clause says that the pairs have the preference counts of the vote.
    gr_count::laws::pairs_of_a_vote_have_its_preference_counts();
    count(pairs, poll.developers, &ratios)
}

/// Whether the ballot on the resolution has this place.
pub(crate) fn has_place(tables: &Tables, resolution: u32, place: u32) -> bool
    ensures { IsTrue result ↔ IsPlace tables.now resolution place }
{
    (1..=tables.choices().place_count(resolution)).contains(&(place as usize))
}

/// Whether the casting vote on the resolution, with this poll, cannot choose the place: the outcome
/// set has one member, or the ballot has no such place, or its option is not in the set
/// (Constitution, A.5.8).
pub(crate) fn cannot_be_chosen(
    tables: &Tables,
    kept: &KeptPairs,
    resolution: u32,
    poll: Poll,
    place: u32,
) -> bool
    requires tables { AreTables tables.now.header.clock tables.now }
    requires kept { KeepsPairs tables.now kept.now }
    requires poll { option_and_then poll_of (finite.get tables.now.resolutions resolution)
        ≡ Some poll }
    ensures { IsTrue result ↔ CannotBeChosen tables.now resolution poll place }
{
    let count = count_of(tables, kept, resolution, poll);
    count.winner().is_some()
        || !(has_place(tables, resolution, place) && count.in_set(place as usize - 1))
}
