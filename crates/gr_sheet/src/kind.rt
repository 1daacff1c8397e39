//! Which sheets there are.
ghost use Rattle.std.specs.Prelude.{IfOk, IfErr, string_bytes};
ghost use Rattle.gr_sheet.specs.Sheet.{IsSheet, IsMissing};

use crate::no_sheet::NoSheet;
use crate::result_sheet::result_text;
use crate::roll_sheet::roll_text;
use crate::status_sheet::status_text;
use crate::tally_sheet::tally_text;
use gr_core::Desk;
use std::alloc::Global;

/// Which sheet of a desk.
#[derive(Clone, Copy, Debug, PartialEq, Eq)]
pub enum Kind {
    /// The roll of the developers.
    Roll,

    /// The status of a resolution: its stage, its clock and its choices.
    Status,

    /// The votes that were cast on a resolution, once its vote is closed.
    Tally,

    /// The result of a resolution, once its vote is closed: each step of the count, and who won.
    Result,
}

/// The sheet of this kind, of the resolution with this number; for the roll the number is not
/// looked at.
///
/// [`NoSheet::Refused`] with [`NoResolution`](gr_core::Refusal::NoResolution): there is no such
/// resolution; with [`NotRevealed`](gr_core::Refusal::NotRevealed): a tally or a result is asked
/// for, and the vote is not closed. [`NoSheet::Memory`]: the memory for the text was refused.
pub fn sheet_text(alloc: Global, desk: &Desk, kind: Kind, number: u32) -> Result<String, NoSheet>
    ensures sheet { IfOk result (λ text. IsSheet desk.now kind number (string_bytes text)) }
    ensures missing { IfErr result (IsMissing desk.now kind number) }
{
    match kind {
        Kind::Roll => Ok(roll_text(alloc, desk)?),
        Kind::Status => status_text(alloc, desk, number),
        Kind::Tally => tally_text(alloc, desk, number),
        Kind::Result => result_text(alloc, desk, number),
    }
}
