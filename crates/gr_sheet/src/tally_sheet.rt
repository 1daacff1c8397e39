//! The tally of a resolution.
ghost use Rattle.std.specs.Prelude.{◌≡◌, ◌++◌, IfOk, IfErr, OnOk, map, string_bytes};
ghost use Rattle.std.specs.List.{flat_map};
ghost use Rattle.std.specs.BTreeMap.{values};
ghost use Rattle.gr_core.specs.Parts.Ballot.{ballot_model};
ghost use Rattle.gr_sheet.specs.Sheet.{IsSheet, IsMissing};
ghost use Rattle.gr_sheet.specs.TallySheet.{IsTally, AreShown, ballot_line, shown_ballot, shown_row};
ghost use Rattle.gr_sheet.specs.declared.kind.Kind.TheVariants as kinds;

use crate::ballot::add_options;
use crate::no_sheet::NoSheet;
use gr_core::{Ballot, Desk, Refusal, Resolution};
use std::alloc::{AllocError, Global};
use std::collections::BTreeMap;

/// A ballot as the tally shows it. The order is that of the bytes of the receipts, and of the ranks
/// where receipts are the same.
#[derive(Debug, Drop, PartialEq, Eq, PartialOrd, Ord)]
struct ShownBallot {
    /// The 64 digits of the receipt.
    receipt: String,

    /// A character for what the ballot says of each place.
    ranks: String,
}

/// The tally of the resolution with this number: the options of the ballot, and then each ballot
/// with its receipt, in the order of the receipts (Constitution, 4.2.3). It shows no login. Each
/// line ends with a line feed.
///
/// [`NoSheet::Refused`] with [`Refusal::NoResolution`]: there is none with this number; with
/// [`Refusal::NotRevealed`]: its vote is not closed. [`NoSheet::Memory`]: the memory for the text
/// was refused.
pub fn tally_text(alloc: Global, desk: &Desk, number: u32) -> Result<String, NoSheet>
    ensures sheet { IfOk result (λ text.
        IsSheet desk.now kinds.Tally number (string_bytes text)) }
    ensures missing { IfErr result (IsMissing desk.now kinds.Tally number) }
{
    let Some(resolution) = desk.resolution(number) else {
        return Err(NoSheet::Refused(Refusal::NoResolution));
    };
    let Resolution::Closed(..) = resolution else {
        return Err(NoSheet::Refused(Refusal::NotRevealed));
    };
    Ok(tally(alloc, desk, number)?)
}

/// The tally of the resolution with this number.
fn tally(alloc: Global, desk: &Desk, number: u32) -> Result<String, AllocError>
    ensures { IfOk result (λ text. IsTally desk.now number (string_bytes text)) }
{
    let ballots = shown_ballots(alloc, desk, number)?;
    let count = ballots.len();
    let mut text = format!(in alloc; "Tally of resolution {number}\n")?;
    add_options(&mut text, desk, number, desk.place_count(number))?;
    write!(text, "Ballots: {count}\n")?;
    add_ballots(&mut text, ballots.as_slice())?;
    Ok(text)
}

/// Adds a line for each of the ballots.
fn add_ballots(text: &mut String, ballots: &[ShownBallot]) -> Result<(), AllocError>
    ensures { OnOk result (string_bytes text.new ≡ string_bytes text.old
        ++ flat_map ballot_line (map shown_ballot ballots.now)) }
{
    for ballot in ballots {
        add_ballot(text, ballot)?;
    }
    Ok(())
}

fn add_ballot(text: &mut String, ballot: &ShownBallot) -> Result<(), AllocError>
    ensures { OnOk result (string_bytes text.new
        ≡ string_bytes text.old ++ ballot_line (shown_ballot ballot.now)) }
{
    let ranks = ballot.ranks.as_str();
    let receipt = ballot.receipt.as_str();
    write!(text, "V: {ranks} {receipt}\n")
}

/// The ballots on the resolution in the order of the tally.
fn shown_ballots(alloc: Global, desk: &Desk, number: u32) -> Result<Vec<ShownBallot>, AllocError>
    ensures { IfOk result (λ ballots.
        AreShown desk.now number (map shown_ballot ballots.items)) }
{
    let mut shown = match desk.ballots(number) {
        Some(ballots) => shown_among(alloc, ballots)?,
        None => Vec::new(alloc),
    };
    shown.sort_unstable();
    Ok(shown)
}

/// These ballots as the tally shows them, in the order of their logins.
fn shown_among(
    alloc: Global,
    ballots: &BTreeMap<String, Ballot>,
) -> Result<Vec<ShownBallot>, AllocError>
    ensures { IfOk result (λ shown. map shown_ballot shown.items
        ≡ map (λ ballot. shown_row (ballot_model ballot)) (values ballots.now)) }
{
    let mut shown = Vec::new(alloc);
    for ballot in ballots.values() {
        shown.push(shown_ballot(alloc, ballot)?)?;
    }
    Ok(shown)
}

fn shown_ballot(alloc: Global, ballot: &Ballot) -> Result<ShownBallot, AllocError>
    ensures { IfOk result (λ shown. shown_ballot shown ≡ shown_row (ballot_model ballot.now)) }
{
    let Ballot { receipt, ranks, .. } = ballot;
    Ok(ShownBallot {
        receipt: format!(in alloc; "{receipt}")?,
        ranks: format!(in alloc; "{ranks}")?,
    })
}
