//! Ballots: what a developer votes on a resolution.

use crate::receipt::Receipt;
use gr_count::Ranks;

/// What the desk keeps of a developer's ballot on a resolution (Constitution, 4.2.3). It has what
/// each character says, and not the text: a count looks at that, and it takes no memory of its own.
/// Each mark has one character, so the text can be made from it again. `Ranks` has a byte for each
/// option that there may be, however many there are.
#[derive(Clone, Copy, Debug)]
pub struct Ballot {
    /// What it says of the option of each place, that of the default option last (Constitution,
    /// A.5.1).
    pub ranks: Ranks,

    /// What the voter got for it (this project's profile).
    pub receipt: Receipt,

    /// How many votes of the voter were accepted on the resolution, at most
    /// [`MAX_ACCEPTED`](crate::MAX_ACCEPTED).
    pub received: u32,
}
