//! What a desk keeps of one vote beside its ballots.
ghost use Rattle.std.specs.Prelude.{◌≡◌, ◌+◌, ◌<◌, ◌^◌};
ghost use Rattle.gr_core.specs.InMemory.Replaced.{MayReplace, ReplacesBallot};

use gr_count::{Pairs, Ranks};

/// What is kept of the vote on a resolution.
#[derive(Drop)]
pub(crate) struct KeptVote {
    /// The preference counts of the ballots (Constitution, A.5.3.1).
    pub(crate) pairs: Pairs,

    /// How many votes were accepted (this project's profile).
    pub(crate) received: u64,
}

impl KeptVote {
    /// One vote more was accepted: takes the earlier ballot of its voter out of the counts, if
    /// there is one, and adds the later one.
    pub(crate) fn replace(&mut self, earlier: Option<Ranks>, ranks: Ranks)
        requires ballots { MayReplace earlier ranks self.old.pairs }
        requires room { self.old.received + 1 < 2 ^ 64 }
        ensures ballots { ReplacesBallot earlier ranks self.old.pairs self.new.pairs }
        ensures received { self.new.received ≡ self.old.received + 1 }
    {
        self.received += 1;
        if let Some(earlier) = earlier {
            // Does nothing: its clause says that the earlier ballot can be taken out.
            gr_count::laws::votes_hold_their_ballots();
            self.pairs.take(&earlier);
        }
        self.pairs.add(&ranks);
    }
}
