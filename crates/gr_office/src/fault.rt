//! Faults: why a command was not carried out, a list of them not to its end, or a sheet not shown.
//! They are those of the store, and so is `NotOpened`. `ActFault` and `SheetFault` add a refusal.
//! They are two types, as `NoPlan` and `NoSheet` are: a sheet is refused for two reasons, an act
//! for most others, and a caller of the one never answers for the other.
ghost use Rattle.std.specs.Prelude.{◌≡◌, Some};
ghost use Rattle.gr_office.specs.Fault.{fault_of_plan, act_fault_text, fault_of_sheet, sheet_fault_text, fault_behind};
ghost use Rattle.gr_office.specs.declared.fault.ActFault.TheVariants as acts;

use gr_core::{NoPlan, Refusal};
use gr_sheet::NoSheet;
use gr_store::Fault;
use std::error::Error;
use std::fmt;

/// Why a command was not carried out.
#[derive(Clone, Copy, Debug, PartialEq, Eq)]
pub enum ActFault {
    /// The desk does not accept the command.
    Refused(Refusal),

    /// The office could not carry it out.
    Fault(Fault),
}

impl fmt::Display for ActFault {
    ghost output = { λ fault. Some (act_fault_text fault) };

    fn fmt<W: fmt::Write>(&self, f: &mut fmt::Formatter<W>) -> fmt::Result {
        match self {
            ActFault::Refused(refusal) => write!(f, "{refusal}"),
            ActFault::Fault(fault) => write!(f, "{fault}"),
        }
    }
}

impl Error for ActFault {}

impl From<NoPlan> for ActFault {
    ghost from_gives = { λ no_plan e. e ≡ fault_of_plan no_plan };

    fn from(no_plan: NoPlan) -> ActFault {
        match no_plan {
            NoPlan::Refused(refusal) => ActFault::Refused(refusal),
            NoPlan::Memory => ActFault::Fault(Fault::Memory),
        }
    }
}

impl From<Fault> for ActFault {
    ghost from_gives = { λ fault e. e ≡ acts.Fault fault };

    fn from(fault: Fault) -> ActFault {
        ActFault::Fault(fault)
    }
}

/// Why a sheet is not shown.
#[derive(Clone, Copy, Debug, PartialEq, Eq)]
pub enum SheetFault {
    /// The desk does not show it.
    Refused(Refusal),

    /// The office could not make it.
    Fault(Fault),
}

impl fmt::Display for SheetFault {
    ghost output = { λ fault. Some (sheet_fault_text fault) };

    fn fmt<W: fmt::Write>(&self, f: &mut fmt::Formatter<W>) -> fmt::Result {
        match self {
            SheetFault::Refused(refusal) => write!(f, "{refusal}"),
            SheetFault::Fault(fault) => write!(f, "{fault}"),
        }
    }
}

impl Error for SheetFault {}

impl From<NoSheet> for SheetFault {
    ghost from_gives = { λ missing e. e ≡ fault_of_sheet missing };

    fn from(missing: NoSheet) -> SheetFault {
        match missing {
            NoSheet::Refused(refusal) => SheetFault::Refused(refusal),
            NoSheet::Memory => SheetFault::Fault(Fault::Memory),
        }
    }
}

/// What the fault of an opening after a migration tells. Where there is no desk still, or one of
/// an earlier version, the database does not hold what it should: it is [`Fault::Damaged`].
pub(crate) fn behind_a_migration(fault: Fault) -> Fault
    ensures { result ≡ fault_behind fault }
{
    match fault {
        Fault::TooOld | Fault::NotADesk => Fault::Damaged,
        other => other,
    }
}
