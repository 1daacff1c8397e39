//! Why there is no sheet.
ghost use Rattle.std.specs.Prelude.{◌≡◌, Some};
ghost use Rattle.gr_sheet.specs.Sheet.{no_sheet_text};
ghost use Rattle.gr_sheet.specs.declared.no_sheet.NoSheet.TheVariants as missing;

use gr_core::{Memory, Refusal};
use std::alloc::AllocError;
use std::error::Error;
use std::fmt;

/// Why there is no sheet. A refused sheet has the line of a refusal, so it is one: `NoResolution`
/// with the number that it has for commands, and `NotRevealed` with one of its own after theirs.
#[derive(Clone, Copy, Debug, PartialEq, Eq)]
pub enum NoSheet {
    /// The desk does not show it: [`Refusal::NoResolution`] or [`Refusal::NotRevealed`].
    Refused(Refusal),

    /// The memory for its text was refused.
    Memory,
}

impl fmt::Display for NoSheet {
    ghost output = { λ e. Some (no_sheet_text e) };

    fn fmt<W: fmt::Write>(&self, f: &mut fmt::Formatter<W>) -> fmt::Result {
        match self {
            NoSheet::Refused(refusal) => write!(f, "{refusal}"),
            NoSheet::Memory => write!(f, "{}", Memory),
        }
    }
}

impl Error for NoSheet {}

impl From<Refusal> for NoSheet {
    ghost from_gives = { λ refusal e. e ≡ missing.Refused refusal };

    fn from(refusal: Refusal) -> NoSheet {
        NoSheet::Refused(refusal)
    }
}

impl From<Memory> for NoSheet {
    ghost from_gives = { λ _ e. e ≡ missing.Memory };

    fn from(_: Memory) -> NoSheet {
        NoSheet::Memory
    }
}

impl From<AllocError> for NoSheet {
    ghost from_gives = { λ _ e. e ≡ missing.Memory };

    fn from(_: AllocError) -> NoSheet {
        NoSheet::Memory
    }
}
