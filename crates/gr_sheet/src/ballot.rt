//! The lines that more than one sheet of a resolution has.
ghost use Rattle.std.specs.Prelude.{◌≡◌, ◌++◌, OnOk, string_bytes};
ghost use Rattle.gr_core.specs.Parts.Choice.{choice_model};
ghost use Rattle.gr_core.specs.Desks.Outcome.{place_count};
ghost use Rattle.gr_sheet.specs.Ballot.{called_lines, line_if_placed, IsTimelyPoll, option_lines};

use crate::moment::Moment;
use gr_core::{Choice, Desk, Poll};
use std::alloc::AllocError;

/// Adds when votes are or were taken, and how many developers were current at the call.
pub(crate) fn add_called(text: &mut String, poll: Poll) -> Result<(), AllocError>
    requires { IsTimelyPoll poll }
    ensures { OnOk result (string_bytes text.new ≡ string_bytes text.old ++ called_lines poll) }
{
    let called = Moment {
        seconds: poll.called,
    };
    let end = Moment {
        seconds: poll.end_of_voting(),
    };
    let developers = poll.developers;
    write!(
        text,
        "Voting: {called} to {end}\nDevelopers: {developers}\n"
    )
}

/// Adds a line for each option on the ballot of the resolution, by place, which has so many places.
pub(crate) fn add_options(
    text: &mut String,
    desk: &Desk,
    number: u32,
    places: usize,
) -> Result<(), AllocError>
    requires { places ≡ place_count desk.now.choices number }
    ensures { OnOk result (string_bytes text.new
        ≡ string_bytes text.old ++ option_lines desk.now number) }
{
    for (_, choice) in desk.choices(number) {
        add_option(text, choice)?;
    }
    write!(text, "Option {places}: None of the above\n")
}

/// Adds the line of the choice, if it is on the ballot.
fn add_option(text: &mut String, choice: &Choice) -> Result<(), AllocError>
    ensures { OnOk result (string_bytes text.new
        ≡ string_bytes text.old ++ line_if_placed (choice_model choice.now)) }
{
    let Some(place) = choice.place else {
        return Ok(());
    };
    let summary = choice.wording.summary.as_str();
    write!(text, "Option {place}: {summary}\n")
}
