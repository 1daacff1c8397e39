//! The ballots in memory.
ghost use Rattle.std.specs.Prelude.{◌≡◌, ◌<◌, ◌≤◌, ◌^◌, ℕ, [], IfOk, OnOk, OnErr, is_some, length, map, option_map, string_bytes};
ghost use Rattle.std.specs.List.{All, sum_by};
ghost use Rattle.std.specs.String.{string_cmp};
ghost use Rattle.std.specs.BTreeMap.{IsOrdered, values};
ghost use Rattle.std.specs.FinMap.{from_entries};
ghost use Rattle.std.specs.FinMap as finite;
ghost use Rattle.gr_count.specs.PairwiseCount.{IsPairwiseCountOf};
ghost use Rattle.gr_count.specs.declared.limits.TheConstants.{MIN_OPTIONS, MAX_OPTIONS, MAX_BALLOTS};
ghost use Rattle.gr_count.specs.Shown.{options_of_pairs, options_of_ranks};
ghost use Rattle.gr_core.specs.Parts.Ballot.{ballot_model, ballots_of, vote_of, votes_received};
ghost use Rattle.gr_core.specs.InMemory.Table.{entries_in};
ghost use Rattle.gr_core.specs.InMemory.Ballots.{ballot_entry, ballot_rows, voter_in};
ghost use Rattle.gr_core.specs.Machine.Row.{row_of, ballot_of_entry};

use crate::ballot::Ballot;
use crate::change::Change;
use crate::memory::Memory;
use crate::two_levels;
use gr_count::Pairs;
use std::alloc::Global;
use std::collections::BTreeMap;
use std::marker::Model;

/// The ballots by resolution and login, in the order of the resolutions and then of the logins'
/// bytes, so that a tally walks over those of its resolution alone. A contract sees one finite map.
#[derive(Drop)]
pub struct Ballots {
    alloc: Global,
    by_resolution: BTreeMap<u32, BTreeMap<String, Ballot>>,
}

impl Model for Ballots {
    ghost use Rattle.std.specs.FinMap as finite;
    ghost use Rattle.std.specs.Coded.{codes};
    ghost use Rattle.gr_core.specs.Parts.Key.{ballot_cmp};
    ghost use Rattle.gr_core.specs.Parts.Ballot.{BallotModel};

    ghost Value = { finite.FinMap ballot_cmp BallotModel };

    ghost coded = { Prim.hlevel (codes, finite.code) };

    ghost use Rattle.gr_core.specs.InMemory.Ballots.{ballot_map, AreBallotsOrdered};

    ghost view = { λ ballots. ballot_map ballots.by_resolution };

    ghost invariant = { λ ballots. AreBallotsOrdered ballots.by_resolution };
}

impl Ballots {
    /// A table with no ballots. Takes no memory.
    pub(crate) fn new(alloc: Global) -> Ballots
        ensures { result ≡ finite.empty }
    {
        Ballots {
            alloc,
            by_resolution: BTreeMap::new(alloc),
        }
    }

    /// The ballots by resolution, and then by login.
    pub(crate) fn by_resolution(&self) -> &BTreeMap<u32, BTreeMap<String, Ballot>>
        ensures { ballot_rows result.now.entries ≡ finite.entries self.now }
    {
        &self.by_resolution
    }

    /// The ballots on the resolution by login.
    pub(crate) fn on_resolution(&self, resolution: u32) -> Option<&BTreeMap<String, Ballot>>
        ensures { map (ballot_entry resolution) (entries_in result)
            ≡ ballots_of self.now resolution }
    {
        self.by_resolution.get(&resolution)
    }

    /// The ballot of the login on the resolution, if there is one.
    pub(crate) fn get(&self, resolution: u32, login: &str) -> Option<Ballot>
        ensures { option_map ballot_model result ≡ finite.get self.now (resolution, login.now) }
    {
        self.by_resolution.get(&resolution)?.get(login).copied()
    }

    /// The preference counts of the ballots on the resolution, each with so many places
    /// (Constitution, A.5.3.1). Walks over that resolution's rows alone.
    pub(crate) fn pairs(&self, resolution: u32, places: usize) -> Pairs
        requires few { places ≤ MAX_OPTIONS }
        requires enough { MIN_OPTIONS ≤ places }
        requires same { All (λ entry. length entry.1.ranks ≡ places)
            (ballots_of self.now resolution) }
        requires room { length (ballots_of self.now resolution) ≤ MAX_BALLOTS }
        ensures options { options_of_pairs result ≡ places }
        ensures tally { IsPairwiseCountOf result (vote_of self.now resolution) }
    {
        match self.by_resolution.get(&resolution) {
            Some(ballots) => added_up(ballots, places),
            None => Pairs::new(places),
        }
    }

    /// How many votes were accepted on the resolution, by its ballots. Walks over that resolution's
    /// rows alone.
    pub(crate) fn received(&self, resolution: u32) -> u64
        requires { length (ballots_of self.now resolution) ≤ MAX_BALLOTS }
        ensures { result ≡ votes_received self.now resolution }
    {
        match self.on_resolution(resolution) {
            Some(ballots) => received_in(ballots),
            None => 0,
        }
    }

    /// Puts the ballot of the login on the resolution, in the place of an earlier one, and says
    /// whether there was one. Where memory fails, the table stays as it was.
    pub(crate) fn put(
        &mut self,
        resolution: u32,
        login: String,
        ballot: Ballot,
    ) -> Result<bool, Memory>
        ensures earlier { IfOk result (λ earlier. earlier
            ≡ is_some (finite.get self.old (resolution, string_bytes login))) }
        ensures ok { OnOk result (self.new
            ≡ finite.insert self.old (resolution, string_bytes login) (ballot_model ballot)) }
        ensures err { OnErr result (self.new ≡ self.old) }
    {
        two_levels::put(
            self.alloc,
            &mut self.by_resolution,
            resolution,
            login,
            ballot,
        )
    }

    /// Takes out the ballots on the resolution with this number, and gives the changes that put
    /// them, in the order of the logins' bytes. The ballots on other resolutions stay. Those of the
    /// resolutions 1, 2, .. up to [`MAX_RESOLUTIONS`](crate::MAX_RESOLUTIONS) are all ballots of a
    /// desk.
    ///
    /// [`Memory`]: the memory for the changes was refused. The ballots are out all the same.
    pub fn take_out(&mut self, alloc: Global, resolution: u32) -> Result<Vec<Change>, Memory>
        ensures changes { IfOk result (λ changes. map row_of changes.items
            ≡ map ballot_of_entry (ballots_of self.old resolution)) }
        ensures taken { ballots_of self.new resolution ≡ [] }
        ensures others { (other : ℕ) → ¬ (other ≡ resolution)
            → ballots_of self.new other ≡ ballots_of self.old other }
    {
        match self.by_resolution.remove(&resolution) {
            Some(ballots) => changes_of(alloc, resolution, &ballots),
            None => Ok(Vec::new(alloc)),
        }
    }
}

/// The preference counts of these ballots, each with so many places.
fn added_up(ballots: &BTreeMap<String, Ballot>, places: usize) -> Pairs
    requires few { places ≤ MAX_OPTIONS }
    requires enough { MIN_OPTIONS ≤ places }
    requires ordered { IsOrdered string_cmp ballots.now }
    requires same { All (λ entry. options_of_ranks entry.1.ranks ≡ places) ballots.now.entries }
    requires room { length ballots.now.entries ≤ MAX_BALLOTS }
    ensures options { options_of_pairs result ≡ places }
    ensures tally { IsPairwiseCountOf result (from_entries (map voter_in ballots.now.entries)) }
{
    let mut pairs = Pairs::new(places);
    for ballot in ballots.values() {
        pairs.add(&ballot.ranks);
    }
    pairs
}

/// How many votes were accepted of the voters of these ballots.
fn received_in(ballots: &BTreeMap<String, Ballot>) -> u64
    requires { length ballots.now.entries ≤ MAX_BALLOTS }
    ensures { result ≡ sum_by (λ ballot. ballot.received) (values ballots.now) }
{
    let mut received = 0;
    for ballot in ballots.values() {
        received += received_of(ballot);
    }
    received
}

/// How many votes were accepted of the voter of this ballot.
fn received_of(ballot: &Ballot) -> u64
    ensures received { result ≡ ballot.now.received }
    ensures small { result < 2 ^ 32 }
{
    u64::from(ballot.received)
}

/// The changes that put these ballots on the resolution, in the order of the logins' bytes.
///
/// [`Memory`]: the memory for the changes was refused.
pub(crate) fn changes_of(
    alloc: Global,
    resolution: u32,
    ballots: &BTreeMap<String, Ballot>,
) -> Result<Vec<Change>, Memory>
    ensures { IfOk result (λ changes. map row_of changes.items
        ≡ map ballot_of_entry (map (ballot_entry resolution) ballots.now.entries)) }
{
    let mut changes = Vec::new(alloc);
    for (login, ballot) in ballots {
        changes.push(Change::Ballot {
            resolution,
            login: String::from_str(alloc, login.as_str())?,
            ballot: *ballot,
        })?;
    }
    Ok(changes)
}
