//! The rules of a valid desk that speak of resolutions and of the choices that each has.
ghost use Rattle.std.specs.Prelude.{◌≡◌, ◌<◌, ◌≤◌, ◌↔◌, IsTrue, IfSome, is_some};
ghost use Rattle.std.specs.FinMap as finite;
ghost use Rattle.gr_core.specs.declared.limits.TheConstants.{MAX_CHOICES};
ghost use Rattle.gr_core.specs.declared.resolution.Resolution.TheVariants.{Draft};
ghost use Rattle.gr_core.specs.Parts.Choice.{choice_key};
ghost use Rattle.gr_core.specs.Parts.Resolution.{discussion_of, poll_of};
ghost use Rattle.gr_core.specs.Desks.Valid.{ResolutionsAreNumbered, HasCome, IsDiscussion, IsPoll, HasIntroduced, IsResolution, EachResolution};
ghost use Rattle.gr_core.specs.Desks.Rules.{HasNumberedChoices, ArePlacesInOrder};

use crate::check::{is_period, is_shift};
use crate::choice::ChoiceKey;
use crate::choices::Choices;
use crate::discussion::Discussion;
use crate::limits::{MAX_CHOICES, MAX_RESOLUTIONS};
use crate::resolution::{Poll, Resolution};
use crate::tables::Tables;
use gr_count::MAX_DEVELOPERS;

/// Whether the resolutions are numbered 1, 2, .. without gaps, and not more than allowed.
pub(super) fn are_numbered(tables: &Tables) -> bool
    ensures { IsTrue result ↔ ResolutionsAreNumbered tables.now }
{
    let resolutions = tables.resolutions();
    let count = resolutions.len();
    count <= MAX_RESOLUTIONS
        && (0..count as u32).all(|before| resolutions.get(before + 1).is_some())
}

/// Whether each resolution may stand under its number, with its choices.
pub(super) fn are_resolutions(tables: &Tables) -> bool
    ensures { IsTrue result ↔ EachResolution tables.now
        (IsResolution tables.now.header.clock tables.now) }
{
    tables.resolutions().by_number().iter().all(|(number, resolution)| is_resolution(
        tables,
        *number,
        *resolution,
    ))
}

/// Whether the resolution may stand under this number, with its choices.
fn is_resolution(tables: &Tables, number: u32, resolution: Resolution) -> bool
    ensures { IsTrue result
        ↔ IsResolution tables.now.header.clock tables.now number resolution }
{
    let clock = tables.header().clock;
    let choices = tables.choices();
    has_timely_discussion(clock, resolution)
        && has_timely_poll(clock, resolution)
        && are_choices_numbered(choices, number)
        && (resolution != Resolution::Draft || choices.len_of(number) == 1)
        && (resolution.discussion().is_none() || has_introduced(tables, number))
        && (resolution.poll().is_none() || are_places_in_order(choices, number))
}

/// Whether the moment has come at this clock.
pub(super) fn has_come(clock: u64, at: u64) -> bool
    ensures { IsTrue result ↔ HasCome clock at }
{
    (1..=clock).contains(&at)
}

/// Whether the discussion that the resolution has, if it has one, is as it may be at this clock.
fn has_timely_discussion(clock: u64, resolution: Resolution) -> bool
    ensures { IsTrue result ↔ IfSome (discussion_of resolution) (IsDiscussion clock) }
{
    match resolution.discussion() {
        Some(discussion) => is_discussion(clock, discussion),
        None => true,
    }
}

/// Whether a resolution may have the discussion at this clock.
fn is_discussion(clock: u64, discussion: Discussion) -> bool
    ensures { IsTrue result ↔ IsDiscussion clock discussion }
{
    has_come(clock, discussion.start)
        && lies_between(discussion.start, discussion.changed, clock)
        && is_shift(discussion.shift)
}

/// Whether the moment, if there is one, lies between these two.
fn lies_between(first: u64, at: Option<u64>, last: u64) -> bool
    ensures { IsTrue result ↔ IfSome at (λ moment. (first ≤ moment) × (moment ≤ last)) }
{
    match at {
        Some(moment) => (first..=last).contains(&moment),
        None => true,
    }
}

/// Whether the poll that the resolution has, if it has one, is as it may be at this clock after its
/// discussion.
fn has_timely_poll(clock: u64, resolution: Resolution) -> bool
    ensures { IsTrue result ↔ IfSome (discussion_of resolution)
        (λ discussion. IfSome (poll_of resolution) (IsPoll clock discussion)) }
{
    match resolution {
        Resolution::Voting(discussion, poll) | Resolution::Closed(discussion, poll, _) => {
            is_poll(clock, discussion, poll)
        }
        _ => true,
    }
}

/// Whether a resolution may have the poll after this discussion, at this clock.
fn is_poll(clock: u64, discussion: Discussion, poll: Poll) -> bool
    ensures { IsTrue result ↔ IsPoll clock discussion poll }
{
    (discussion.start..=clock).contains(&poll.called)
        && i32::try_from(poll.days).is_ok_and(is_period)
        && poll.developers <= MAX_DEVELOPERS
}

/// Whether the resolution has choices, numbered 1, 2, .. without gaps, and not more than allowed.
fn are_choices_numbered(choices: &Choices, resolution: u32) -> bool
    ensures { IsTrue result ↔ HasNumberedChoices choices.now resolution }
{
    let count = choices.len_of(resolution);
    is_choice_count(count)
        && (0..count as u32).all(|before| has_choice(choices, resolution, before + 1))
}

/// Whether a resolution may have so many choices.
fn is_choice_count(count: usize) -> bool
    ensures { IsTrue result ↔ ((1 ≤ count) × (count ≤ MAX_CHOICES)) }
{
    (1..=MAX_CHOICES).contains(&count)
}

/// Whether the resolution has a choice of this number.
fn has_choice(choices: &Choices, resolution: u32, number: u32) -> bool
    ensures { result ≡ is_some (finite.get choices.now (choice_key resolution number)) }
{
    choices.get(ChoiceKey { resolution, number }).is_some()
}

/// Whether some choice of the resolution is introduced.
fn has_introduced(tables: &Tables, resolution: u32) -> bool
    ensures { IsTrue result ↔ HasIntroduced tables.now resolution }
{
    tables
        .choices()
        .of_resolution(resolution)
        .any(|(_, choice)| choice.introduced.is_some())
}

/// Whether the choices on the ballot of the resolution have the places 1, 2, .. in their order, and
/// there is one at least.
fn are_places_in_order(choices: &Choices, resolution: u32) -> bool
    ensures { IsTrue result ↔ ArePlacesInOrder choices.now resolution }
{
    let mut placed = 0;
    for (_, choice) in choices.of_resolution(resolution) {
        if let Some(place) = choice.place {
            if place as usize != placed + 1 {
                return false;
            }
            placed += 1;
        }
    }
    placed > 0
}
