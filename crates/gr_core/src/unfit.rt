//! Why rows make no desk.
ghost use Rattle.std.specs.Prelude.{◌≡◌};

use crate::memory::Memory;
use std::alloc::{AllocError, AllocFailed};
use std::error::Error;
use std::fmt;

/// The rows are those of no valid desk.
#[derive(Clone, Copy, Debug, PartialEq, Eq)]
pub(crate) struct Damaged;

/// Why there is no desk with some rows.
#[derive(Clone, Copy, Debug, PartialEq, Eq)]
pub enum Unfit {
    /// They are those of no valid desk: a rule is broken, or two rows of a table have one key.
    Damaged,

    /// The memory for the desk was refused.
    Memory,
}

impl fmt::Display for Unfit {
    ghost use Rattle.std.specs.Prelude.{Some};
    ghost use Rattle.gr_core.specs.Columns.Stored.{unfit_text};

    ghost output = { λ unfit. Some (unfit_text unfit) };

    fn fmt<W: fmt::Write>(&self, f: &mut fmt::Formatter<W>) -> fmt::Result {
        match self {
            Unfit::Damaged => f.write_str("the rows of no valid desk"),
            Unfit::Memory => write!(f, "{Memory}"),
        }
    }
}

impl Error for Unfit {}

impl From<Damaged> for Unfit {
    ghost use Rattle.gr_core.specs.declared.unfit.Unfit.TheVariants.{Damaged};

    ghost from_gives = { λ _ e. e ≡ Damaged };

    fn from(_damaged: Damaged) -> Unfit {
        Unfit::Damaged
    }
}

impl From<Memory> for Unfit {
    ghost use Rattle.gr_core.specs.declared.unfit.Unfit.TheVariants.{Memory};

    ghost from_gives = { λ _ e. e ≡ Memory };

    fn from(_memory: Memory) -> Unfit {
        Unfit::Memory
    }
}

impl From<AllocError> for Unfit {
    ghost use Rattle.gr_core.specs.declared.unfit.Unfit.TheVariants.{Memory};

    ghost from_gives = { λ _ e. e ≡ Memory };

    fn from(_error: AllocError) -> Unfit {
        Unfit::Memory
    }
}

impl<T: Drop> From<AllocFailed<T>> for Unfit {
    ghost use Rattle.gr_core.specs.declared.unfit.Unfit.TheVariants.{Memory};

    ghost from_gives = { λ _ e. e ≡ Memory };

    fn from(_error: AllocFailed<T>) -> Unfit {
        Unfit::Memory
    }
}
