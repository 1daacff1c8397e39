//! The thresholds, in whole numbers and without rounding.

ghost use Rattle.std.specs.Prelude.{◌≡◌, ◌≤◌};
ghost use Rattle.gr_count.specs.Threshold.{are_enough, meets_majority, meets_quorum};

use crate::limits::{MAX_BALLOTS, MAX_DEVELOPERS, MAX_RATIO, MAX_REQUIRED_SPONSORS};

/// Whether so many sponsors are enough with so many current developers (Constitution, 4.2.7): as
/// many as can be required, or at least half of the square root of `developers`.
pub fn meets_sponsors(sponsors: usize, developers: usize) -> bool
    ensures { result ≡ are_enough sponsors developers }
{
    sponsors >= MAX_REQUIRED_SPONSORS || 4 * sponsors * sponsors >= developers
}

/// Whether so many votes above the default option meet the quorum with so many current developers
/// (Constitution, 4.2.4 and 4.2.7): at least three halves of the square root of `developers`. There
/// are at most `MAX_BALLOTS` votes and `MAX_DEVELOPERS` developers.
pub fn meets_quorum(votes: u32, developers: u32) -> bool
    requires votes { votes ≤ MAX_BALLOTS }
    requires developers { developers ≤ MAX_DEVELOPERS }
    ensures { result ≡ meets_quorum votes developers }
{
    4 * votes * votes >= 9 * developers
}

/// Whether an option that `above` voters prefer to the default option, and `below` voters the other
/// way round, has the majority of its ratio (Constitution, A.5.3.2): at least `ratio` times as many
/// above as below, and more. Both are at most `MAX_BALLOTS`, and the ratio is from 1 to
/// `MAX_RATIO`.
pub fn meets_majority(above: u32, below: u32, ratio: u32) -> bool
    requires above { above ≤ MAX_BALLOTS }
    requires below { below ≤ MAX_BALLOTS }
    requires positive { 1 ≤ ratio }
    requires small { ratio ≤ MAX_RATIO }
    ensures { result ≡ meets_majority above below ratio }
{
    above >= ratio * below && above > below
}
