//! The rules of a valid desk that speak of single choices.
ghost use Rattle.std.specs.Prelude.{◌↔◌, ◌≤◌, IsTrue, IsSome, IfSome, IsSomeAnd, option_map, option_and_then};
ghost use Rattle.std.specs.FinMap as finite;
ghost use Rattle.gr_core.specs.declared.choice.ChoiceKey.{ChoiceKey};
ghost use Rattle.gr_core.specs.Parts.Choice.{choice_model, login_of_proposer, proposer_of};
ghost use Rattle.gr_core.specs.Parts.Resolution.{discussion_of, poll_of};
ghost use Rattle.gr_core.specs.Desks.Valid.{HasCome, IsChoice, EachChoice};

use super::resolutions::has_come;
use crate::check::is_ratio;
use crate::choice::{Choice, ChoiceKey, Proposer};
use crate::resolution::Resolution;
use crate::roll::Roll;
use crate::tables::Tables;
use crate::text::{is_summary, is_text};

/// Whether each choice has its resolution, and is one that this may have.
pub(super) fn are_choices(tables: &Tables) -> bool
    ensures { IsTrue result ↔ EachChoice tables.now
        (IsChoice tables.now.header.clock tables.now.developers) }
{
    tables
        .choices()
        .by_key()
        .iter()
        .all(|(key, choice)| belongs(tables, *key, choice))
}

/// Whether the choice under this key has its resolution, and is one that this may have.
fn belongs(tables: &Tables, key: ChoiceKey, choice: &Choice) -> bool
    ensures { IsTrue result ↔ IsSomeAnd (finite.get tables.now.resolutions key.resolution)
        (λ resolution. IsChoice tables.now.header.clock tables.now.developers resolution
        (choice_model choice.now)) }
{
    match tables.resolutions().get(key.resolution) {
        Some(resolution) => { is_choice(tables.header().clock, tables.roll(), resolution, choice) }
        None => false,
    }
}

/// Whether the resolution may have the choice at this clock, with this roll.
fn is_choice(clock: u64, roll: &Roll, resolution: Resolution, choice: &Choice) -> bool
    ensures { IsTrue result ↔ IsChoice clock roll.now resolution (choice_model choice.now) }
{
    is_proposer_on_roll(roll, &choice.proposer)
        && is_summary(choice.wording.summary.as_str())
        && is_text(choice.wording.text.as_str())
        && is_ratio(choice.ratio)
        && is_introduced_in_time(clock, resolution, choice.introduced)
        && is_rightly_short(clock, choice.short, choice.introduced)
        && is_rightly_placed(resolution, choice.place, choice.introduced)
}

/// Whether the proposer, if it is a developer, is on the roll.
fn is_proposer_on_roll(roll: &Roll, proposer: &Option<Proposer>) -> bool
    ensures { IsTrue result ↔ IfSome
        (option_and_then login_of_proposer (option_map proposer_of proposer.now))
        (λ login. IsSome (finite.get roll.now login)) }
{
    match proposer {
        Some(Proposer::Developer(login)) => roll.contains(login.as_str()),
        _ => true,
    }
}

/// Whether a choice of the resolution that was introduced at this moment, if it was, was so no
/// earlier than the discussion began, which there is, and no later than the clock (Constitution,
/// A.1.1).
fn is_introduced_in_time(clock: u64, resolution: Resolution, introduced: Option<u64>) -> bool
    ensures { IsTrue result ↔ IfSome introduced (λ at. (at ≤ clock)
        × IsSomeAnd (discussion_of resolution) (λ discussion. discussion.start ≤ at)) }
{
    match (introduced, resolution.discussion()) {
        (Some(at), Some(discussion)) => (discussion.start..=clock).contains(&at),
        (Some(_), None) => false,
        (None, _) => true,
    }
}

/// Whether a choice that is short since this moment, if it is, is so by the clock, and is
/// introduced (Constitution, A.2.3).
fn is_rightly_short(clock: u64, short: Option<u64>, introduced: Option<u64>) -> bool
    ensures { IsTrue result ↔ IfSome short (λ since. HasCome clock since × IsSome introduced) }
{
    match short {
        Some(since) => has_come(clock, since) && introduced.is_some(),
        None => true,
    }
}

/// Whether a choice of the resolution that has this place, if it has one, is introduced, and the
/// resolution was called for a vote.
fn is_rightly_placed(resolution: Resolution, place: Option<u32>, introduced: Option<u64>) -> bool
    ensures { IsTrue result ↔ IfSome place
        (λ place. IsSome introduced × IsSome (poll_of resolution)) }
{
    place.is_none() || (introduced.is_some() && resolution.poll().is_some())
}
