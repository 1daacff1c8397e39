//! Changes: the rows that a command puts.

use crate::ballot::Ballot;
use crate::choice::{Choice, ChoiceKey};
use crate::developer::Developer;
use crate::header::Header;
use crate::resolution::Resolution;
use crate::sponsor::Sponsorship;

/// One row of one table, which takes the place of the row under its key.
#[derive(Debug, Drop)]
pub enum Change {
    /// The header, of which there is one.
    Header(Header),

    /// What the roll says of a login.
    Developer {
        /// The key: whom the row is about.
        login: String,

        /// The rest of the row.
        developer: Developer,
    },

    /// What is kept of a resolution.
    Resolution {
        /// The key: the number of the resolution, from 1.
        number: u32,

        /// The rest of the row.
        resolution: Resolution,
    },

    /// What is kept of a choice.
    Choice {
        /// The key: the resolution and the number of the choice there.
        key: ChoiceKey,

        /// The rest of the row.
        choice: Choice,
    },

    /// Whether a developer is a sponsor of a choice.
    Sponsor {
        /// The first part of the key: the choice.
        choice: ChoiceKey,

        /// The second part of the key: who sponsors it.
        login: String,

        /// The rest of the row.
        sponsorship: Sponsorship,
    },

    /// What is kept of a developer's ballot.
    Ballot {
        /// The first part of the key: the number of the resolution.
        resolution: u32,

        /// The second part of the key: who voted.
        login: String,

        /// The rest of the row.
        ballot: Ballot,
    },
}
