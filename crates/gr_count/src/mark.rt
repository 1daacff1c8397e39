//! A mark on a ballot: what the ballot says of one option.

ghost use Rattle.std.specs.Prelude.{◌≡◌, ℕ, ◌<◌, ◌≤◌, ◌↔◌, IfSome, IsSome};
ghost use Rattle.gr_count.specs.Ballot.{HasCharacter, IsMarkCharacter, character_of, is_above, mark_of, mark_of_rank};
ghost use Rattle.gr_count.specs.declared.limits.TheConstants.{RANKS};
ghost use Rattle.gr_count.specs.declared.mark.Mark.TheVariants.{Ranked, Unranked};
ghost use Rattle.gr_count.specs.declared.mark.TheConstants.{BEHIND_RANKS};

use crate::limits::{DIGIT_RANKS, FIRST_DIGIT, FIRST_LETTER, LAST_DIGIT, LAST_LETTER, UNRANKED};

/// The number by which an option with no rank is compared: after those of all ranks.
const BEHIND_RANKS: u16 = 256;

/// What a ballot says of one option.
#[derive(Clone, Copy, PartialEq, Eq, Debug)]
pub enum Mark {
    /// The option has this rank, from 1 to 35; a smaller rank is preferred.
    Ranked(u8),

    /// The option has no rank.
    Unranked,
}

impl Mark {
    /// The mark that a character of a ballot stands for, `None` for any other character.
    /// The characters are this project's profile.
    pub(crate) fn read(character: u8) -> Option<Mark>
        ensures some { IsSome result ↔ IsMarkCharacter character }
        ensures mark { IfSome result (λ mark. mark ≡ mark_of character) }
        ensures has { IfSome result HasCharacter }
    {
        match character {
            UNRANKED => Some(Mark::Unranked),
            FIRST_DIGIT..=LAST_DIGIT => Some(Mark::Ranked(character - FIRST_DIGIT + 1)),
            FIRST_LETTER..=LAST_LETTER => {
                Some(Mark::Ranked(character - FIRST_LETTER + 1 + DIGIT_RANKS))
            }
            _ => None,
        }
    }

    /// The mark of a rank, or of 0 for none.
    pub(crate) fn of(rank: u8) -> Mark
        ensures { result ≡ mark_of_rank rank }
    {
        if rank == 0 {
            Mark::Unranked
        } else {
            Mark::Ranked(rank)
        }
    }

    /// The rank of the mark, and 0 for none.
    pub(crate) fn rank(self) -> u8
        requires { HasCharacter self }
        ensures mark { mark_of_rank result ≡ self }
        ensures few { result ≤ RANKS }
    {
        match self {
            Mark::Ranked(rank) => rank,
            Mark::Unranked => 0,
        }
    }

    /// The character of a ballot that stands for the mark.
    pub(crate) fn character(self) -> u8
        requires { HasCharacter self }
        ensures character { result ≡ character_of self }
        ensures ascii { result < 128 }
    {
        match self {
            Mark::Unranked => UNRANKED,
            Mark::Ranked(rank) if rank <= DIGIT_RANKS => FIRST_DIGIT - 1 + rank,
            Mark::Ranked(rank) => FIRST_LETTER + (rank - DIGIT_RANKS - 1),
        }
    }

    /// Whether an option with this mark is preferred to one with the other mark
    /// (Constitution, A.5.1).
    pub(crate) fn is_above(self, other: Mark) -> bool
        ensures { result ≡ is_above (Some self) (Some other) }
    {
        self.order() < other.order()
    }

    /// A number by which marks are compared without a branch: that of a rank is the rank, and that
    /// of no rank is after those of all ranks.
    fn order(self) -> u16
        ensures ranked { (rank : ℕ) → self ≡ Ranked rank
            → (result ≡ rank) × (result < BEHIND_RANKS) }
        ensures unranked { self ≡ Unranked → result ≡ BEHIND_RANKS }
    {
        match self {
            Mark::Ranked(rank) => u16::from(rank),
            Mark::Unranked => BEHIND_RANKS,
        }
    }
}
