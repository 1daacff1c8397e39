//! The ranks of one ballot.

ghost use Rattle.std.specs.Prelude.{◌≡◌, ◌≤◌, ◌<◌, ◌↔◌, IfOk, IsOk, Some, map};
ghost use Rattle.std.specs.List.{All};
ghost use Rattle.gr_count.specs.declared.limits.TheConstants.{MAX_OPTIONS, MIN_OPTIONS, RANKS};
ghost use Rattle.gr_count.specs.Ballot.{IsBallot, character_of, mark_of, prefers};

use crate::limits::{MAX_OPTIONS, MIN_OPTIONS};
use crate::mark::Mark;
use std::error::Error;
use std::fmt;

/// The text is no ballot: it has not one character of a rank, or of no rank, for each option.
#[derive(Clone, Copy, PartialEq, Eq, Debug)]
pub struct BadRanks;

impl fmt::Display for BadRanks {
    ghost use Rattle.std.specs.Prelude.{codes};

    ghost output = { λ _. Some (codes "not the ranks of a ballot") };

    fn fmt<W: fmt::Write>(&self, f: &mut fmt::Formatter<W>) -> fmt::Result {
        f.write_str("not the ranks of a ballot")
    }
}

impl Error for BadRanks {}

/// The ranks of one ballot: what it says of each option, the default option last.
#[derive(Clone, Copy, Debug)]
pub struct Ranks {
    ranks: [u8; MAX_OPTIONS],
    options: u8,
    ghost few: { options ≤ MAX_OPTIONS },
    ghost enough: { MIN_OPTIONS ≤ options },
    ghost ranked: { All (λ rank. rank ≤ RANKS) ranks },
}

impl Ranks {
    ghost use Rattle.gr_count.specs.Shown.{marks_in, options_of_ranks};

    /// Reads the text of a ballot with so many options, the default one counted: from
    /// `MIN_OPTIONS` to `MAX_OPTIONS`.
    ///
    /// The text has a character for each option in turn, the default one at the end: its rank,
    /// which is `1` to `9` or, after these, `a` to `z`, an earlier one preferred, or `-` where it
    /// has none (Constitution, A.5.1; the characters are this project's profile). Any other text is
    /// `BadRanks`.
    pub fn read(bytes: &[u8], options: usize) -> Result<Ranks, BadRanks>
        requires few { options ≤ MAX_OPTIONS }
        requires enough { MIN_OPTIONS ≤ options }
        ensures ok { IsOk result ↔ IsBallot options bytes.now }
        ensures marks { IfOk result (λ ranks. marks_in ranks ≡ map mark_of bytes.now) }
        ensures options { IfOk result (λ ranks. options_of_ranks ranks ≡ options) }
    {
        if bytes.len() != options {
            return Err(BadRanks);
        }
        let mut ranks = [0; MAX_OPTIONS];
        for (option, character) in bytes.iter().enumerate() {
            let Some(mark) = Mark::read(*character) else {
                return Err(BadRanks);
            };
            ranks[option] = mark.rank();
        }
        Ok(Ranks {
            ranks,
            options: options as u8,
        })
    }

    /// How many options the ballot is for, the default one counted.
    pub fn options(&self) -> usize
        ensures value { result ≡ options_of_ranks self.now }
        ensures enough { MIN_OPTIONS ≤ result }
        ensures few { result ≤ MAX_OPTIONS }
    {
        usize::from(self.options)
    }

    /// Whether the ballot prefers the first option to the second (Constitution, A.5.1).
    pub(crate) fn prefers(&self, first: usize, second: usize) -> bool
        requires first { first < options_of_ranks self.now }
        requires second { second < options_of_ranks self.now }
        ensures { result ≡ prefers (marks_in self.now) first second }
    {
        Mark::of(self.ranks[first]).is_above(Mark::of(self.ranks[second]))
    }
}

/// The text of the ballot: a character for each option in turn, as [`Ranks::read`] takes it.
impl fmt::Display for Ranks {
    ghost use Rattle.gr_count.specs.Shown.{marks_in};

    ghost output = { λ ranks. Some (map character_of (marks_in ranks)) };

    fn fmt<W: fmt::Write>(&self, f: &mut fmt::Formatter<W>) -> fmt::Result {
        for rank in &self.ranks[..usize::from(self.options)] {
            f.write_char(char::from(Mark::of(*rank).character()))?;
        }
        Ok(())
    }
}
