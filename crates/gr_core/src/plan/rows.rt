//! The rows that bookkeeping changes, and what it asks of the tables.
ghost use Rattle.std.specs.Prelude.{◌≡◌, ◌&&◌, IfOk, Some, None, if◌then◌else◌, is_none, is_some, not, option_map};
ghost use Rattle.gr_core.specs.declared.resolution.Resolution.TheVariants.{Discussing};
ghost use Rattle.gr_core.specs.Parts.Developer.{current_count};
ghost use Rattle.gr_core.specs.Parts.Resolution.{entered, changed, present_discussion};
ghost use Rattle.gr_core.specs.Parts.Choice.{choice_model};
ghost use Rattle.gr_core.specs.Machine.Bookkeeping.{is_backed, gain_of, gained};
ghost use Rattle.gr_core.specs.Machine.Row.{ResolutionOf, ChoiceOf, SponsorOf, row_of};
ghost use Rattle.gr_core.specs.Machine.Effect.{is_introduction, is_gain};

use crate::bookkeeping::{Gain, becomes_short};
use crate::change::Change;
use crate::choice::{Choice, ChoiceKey};
use crate::memory::Memory;
use crate::resolution::Resolution;
use crate::sponsor::Sponsorship;
use crate::tables::Tables;
use std::alloc::Global;

/// What the choice gains with so many sponsors, among the developers of the tables.
pub(crate) fn gain_with(tables: &Tables, choice: &Choice, sponsors: usize) -> Gain
    ensures { result ≡ gain_of (is_backed (choice_model choice.now).proposer sponsors
        (current_count tables.now.developers)) choice.now.introduced choice.now.short }
{
    Gain::of(choice, sponsors, tables.roll().current_count())
}

/// Whether the choice becomes short with so many sponsors, among the developers of the tables.
pub(crate) fn becomes_short_with(tables: &Tables, choice: &Choice, sponsors: usize) -> bool
    ensures { result ≡ (is_some choice.now.introduced && is_none choice.now.short
        && not (is_backed (choice_model choice.now).proposer sponsors
        (current_count tables.now.developers))) }
{
    becomes_short(choice, sponsors, tables.roll().current_count())
}

/// The row of the resolution, if a choice of it is introduced at this moment.
pub(crate) fn entered_row(
    number: u32,
    resolution: Resolution,
    gain: Gain,
    at: u64,
) -> Option<Change>
    ensures { option_map row_of result ≡ if is_introduction gain
        then Some (ResolutionOf number (entered at resolution))
        else None }
{
    if gain != Gain::Introduction {
        return None;
    }
    let resolution = resolution.entered(at);
    Some(Change::Resolution { number, resolution })
}

/// The row of the resolution, if its ballot changes at this moment: it is under discussion.
pub(crate) fn changed_row(number: u32, resolution: Resolution, at: u64) -> Option<Change>
    ensures { option_map row_of result
        ≡ option_map (λ discussion.
        ResolutionOf number (changed at (Discussing discussion)))
        (present_discussion resolution) }
{
    resolution.present_discussion()?;
    Some(Change::Resolution {
        number,
        resolution: resolution.changed(at),
    })
}

/// The row of the choice, if it gains anything at this moment.
pub(crate) fn gained_row(
    alloc: Global,
    key: ChoiceKey,
    choice: &Choice,
    gain: Gain,
    at: u64,
) -> Result<Option<Change>, Memory>
    ensures { IfOk result (λ change. option_map row_of change ≡ if is_gain gain
        then Some (ChoiceOf key (gained gain at (choice_model choice.now)))
        else None) }
{
    if gain == Gain::Nothing {
        return Ok(None);
    }
    let choice = choice.copied(alloc)?.gained(gain, at);
    Ok(Some(Change::Choice { key, choice }))
}

/// The row of the login as a sponsor of the choice.
pub(crate) fn sponsorship_of(
    alloc: Global,
    choice: ChoiceKey,
    login: &str,
    sponsorship: Sponsorship,
) -> Result<Change, Memory>
    ensures { IfOk result (λ change. row_of change ≡ SponsorOf (choice, login.now) sponsorship) }
{
    Ok(Change::Sponsor {
        choice,
        login: String::from_str(alloc, login)?,
        sponsorship,
    })
}
