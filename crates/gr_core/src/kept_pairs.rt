//! What a desk keeps of votes beside their ballots.
ghost use Rattle.std.specs.Prelude.{◌≡◌, ◌≢◌, ◌+◌, ◌<◌, ◌^◌, ℕ, None, Some, IfOk, IfSome, IsNone, IsSomeAnd, OnOk};
ghost use Rattle.std.proofs.Props.{props};
ghost use Rattle.std.specs.BTreeMap.{IsOrdered};
ghost use Rattle.std.specs.Ordering.{nat_cmp};
ghost use Rattle.gr_core.specs.InMemory.Replaced.{MayReplace, ReplacesBallot};
ghost use Rattle.gr_core.specs.Desks.Valid.{AreTables, EachBallot, IsBallotIn};

use crate::counting::Counting;
use crate::election::kept_vote;
use crate::kept_vote::KeptVote;
use crate::memory::Memory;
use crate::tables::Tables;
use gr_count::{Pairs, Ranks};
use std::alloc::Global;
use std::collections::BTreeMap;

/// What is kept of the resolutions on which votes are taken or were, by the numbers of the
/// resolutions.
#[derive(Drop)]
pub(crate) struct KeptPairs {
    by_resolution: BTreeMap<u32, KeptVote>,
    ghost ordered: { IsOrdered nat_cmp by_resolution } by { Prim.hlevel props },
}

impl KeptPairs {
    ghost use Rattle.gr_core.specs.InMemory.KeptPairs.{IsCountedBehind, KeepsPairs, received_at, vote_at};

    /// Nothing. Takes no memory.
    pub(crate) fn new(alloc: Global) -> KeptPairs
        ensures { (number : ℕ) → vote_at result number ≡ None }
    {
        KeptPairs {
            by_resolution: BTreeMap::new(alloc),
        }
    }

    /// What is kept of the ballots in the tables, each added.
    ///
    /// [`Memory`]: the memory for the counts was refused.
    pub(crate) fn of(alloc: Global, tables: &Tables) -> Result<KeptPairs, Memory>
        requires tables { AreTables tables.now.header.clock tables.now }
        requires ballots { EachBallot tables.now (IsBallotIn tables.now) }
        ensures { IfOk result (KeepsPairs tables.now) }
    {
        let mut kept = KeptPairs::new(alloc);
        for (number, resolution) in tables.resolutions().by_number() {
            if resolution.poll().is_some() {
                kept.put(*number, kept_vote(tables, *number))?;
            }
        }
        Ok(kept)
    }

    /// The counts of the resolution with this number.
    pub(crate) fn pairs(&self, resolution: u32) -> Option<&Pairs>
        ensures none { IsNone result → vote_at self.now resolution ≡ None }
        ensures some { IfSome result (λ pairs.
            IsSomeAnd (vote_at self.now resolution) (λ vote. vote.pairs ≡ pairs.now)) }
    {
        let vote = self.by_resolution.get(&resolution)?;
        Some(&vote.pairs)
    }

    /// How many votes were accepted on the resolution with this number.
    pub(crate) fn received(&self, resolution: u32) -> u64
        ensures { result ≡ received_at (vote_at self.now resolution) }
    {
        match self.by_resolution.get(&resolution) {
            Some(vote) => vote.received,
            None => 0,
        }
    }

    /// Keeps this vote on the resolution.
    ///
    /// [`Memory`]: the memory for it was refused.
    pub(crate) fn put(&mut self, resolution: u32, vote: KeptVote) -> Result<(), Memory>
        ensures kept { OnOk result (vote_at self.new resolution ≡ Some vote) }
        ensures others { OnOk result ((other : ℕ) → other ≢ resolution
            → vote_at self.new other ≡ vote_at self.old other) }
    {
        self.by_resolution.insert(resolution, vote)?;
        Ok(())
    }

    /// Counts what an accepted command does, after which the desk has these tables.
    ///
    /// [`Memory`]: the memory for the counts of a vote that begins was refused.
    pub(crate) fn follow(&mut self, tables: &Tables, counting: Counting) -> Result<(), Memory>
        requires { IsCountedBehind self.old counting tables.now }
        ensures { OnOk result (KeepsPairs tables.now self.new) }
    {
        match counting {
            Counting::Nothing => Ok(()),
            Counting::Begins { resolution } => {
                let pairs = Pairs::new(tables.choices().place_count(resolution));
                self.put(resolution, KeptVote { pairs, received: 0 })
            }
            Counting::Replaces {
                resolution,
                earlier,
                ranks,
            } => {
                // Does nothing: its clause says that the earlier ballot is among those counted.
                gr_count::laws::votes_hold_their_ballots();
                self.replace(resolution, earlier, ranks);
                Ok(())
            }
        }
    }

    /// Takes the earlier ballot of a voter out of the counts of the resolution, if there is one,
    /// and adds the later one.
    fn replace(&mut self, resolution: u32, earlier: Option<Ranks>, ranks: Ranks)
        requires { IsSomeAnd (vote_at self.old resolution) (λ old.
            MayReplace earlier ranks old.pairs × (old.received + 1 < 2 ^ 64)) }
        ensures replaced { IfSome (vote_at self.old resolution) (λ old.
            IsSomeAnd (vote_at self.new resolution) (λ new.
            ReplacesBallot earlier ranks old.pairs new.pairs
            × (new.received ≡ old.received + 1))) }
        ensures others { (other : ℕ) → other ≢ resolution
            → vote_at self.new other ≡ vote_at self.old other }
    {
        let Some(vote) = self.by_resolution.get_mut(&resolution) else {
            unreachable!()
        };
        vote.replace(earlier, ranks);
    }
}
