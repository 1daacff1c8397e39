//! Replies: what the desk answers to a command that it accepts.

use crate::receipt::Receipt;

/// What an accepted command gave, beside its rows.
#[derive(Clone, Copy, Debug, PartialEq, Eq)]
pub enum Note {
    /// Nothing to tell.
    Done,

    /// What an import's rows did to the roll.
    Roll(Imported),

    /// The number of the new resolution, from 1.
    Resolution(u32),

    /// The number of the new choice in its resolution, from 1.
    Choice(u32),

    /// The vote was called for.
    Called {
        /// How many places the ballot has, that of the default option included.
        places: usize,

        /// When the voting ends, in seconds since 1970-01-01T00:00:00Z (Constitution, 4.2.3). It
        /// may be up to [`MAX_VOTING_DAYS`](crate::MAX_VOTING_DAYS) past the latest moment.
        until: u64,
    },

    /// The resolution was called while no choice was live (Constitution, A.2.4).
    Cancelled,

    /// The ballot was taken, and this is its receipt.
    Receipt(Receipt),
}

/// How many rows of an import did what to the roll.
#[derive(Clone, Copy, Debug, PartialEq, Eq)]
pub struct Imported {
    /// Rows whose login was not on the roll.
    pub added: usize,

    /// Rows whose login was there with another name or another standing.
    pub changed: usize,

    /// Rows that say what the roll said already.
    pub same: usize,
}

/// The answer to an accepted command.
#[derive(Clone, Copy, Debug, PartialEq, Eq)]
pub struct Reply {
    /// How many commands the desk accepted, this one included, at most
    /// [`MAX_ACCEPTED`](crate::MAX_ACCEPTED).
    pub accepted: u64,

    /// What the command gave.
    pub note: Note,
}
