//! Countings: what becomes of what a desk keeps of votes, by an accepted command.

use gr_count::Ranks;

/// What a plan counts: preferences (Constitution, A.5.3.1), and the votes received. Each plan says
/// it itself, so that `apply` guesses nothing from the rows. `IsPlanOn` requires that an act on
/// this desk is counted so, and the clause `counts` of `plan` gives that to whoever has a plan.
#[derive(Debug, Drop)]
pub(crate) enum Counting {
    /// Nothing: the counts stay.
    Nothing,

    /// Votes are taken on the resolution with this number from now on, over the places that the
    /// call put.
    Begins {
        /// The number of the resolution.
        resolution: u32,
    },

    /// A ballot on the resolution, in the place of the voter's earlier one.
    Replaces {
        /// The number of the resolution.
        resolution: u32,

        /// The ranks of the earlier ballot, if there is one.
        earlier: Option<Ranks>,

        /// The ranks of the later one.
        ranks: Ranks,
    },
}
