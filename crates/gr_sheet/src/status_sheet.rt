//! The status of a resolution.
ghost use Rattle.std.specs.Prelude.{◌≡◌, ◌++◌, IfOk, IfErr, IfSome, OnOk, Some, string_bytes};
ghost use Rattle.std.specs.FinMap as finite;
ghost use Rattle.gr_core.specs.Parts.Discussion.{IsTimely};
ghost use Rattle.gr_core.specs.Desks.Valid.{IsValid};
ghost use Rattle.gr_sheet.specs.Ballot.{IsTimelyPoll};
ghost use Rattle.gr_sheet.specs.Sheet.{IsSheet, IsMissing};
ghost use Rattle.gr_sheet.specs.StatusSheet.{status_head, stage_word, discussion_line, poll_lines, status_sheet};
ghost use Rattle.gr_sheet.specs.declared.kind.Kind.TheVariants as kinds;

use crate::ballot::add_called;
use crate::choice::add_choice;
use crate::moment::Moment;
use crate::no_sheet::NoSheet;
use gr_core::{Desk, Discussion, Poll, Refusal, Resolution};
use std::alloc::{AllocError, Global};

/// The status of the resolution with this number: its stage, when its discussion and its poll begin
/// and end, and each choice with what is known of it and its text. It says nothing of ballots
/// (Constitution, 4.2.3). Each line ends with a line feed.
///
/// [`NoSheet::Refused`] with [`Refusal::NoResolution`]: there is none with this number.
/// [`NoSheet::Memory`]: the memory for the text was refused.
pub fn status_text(alloc: Global, desk: &Desk, number: u32) -> Result<String, NoSheet>
    ensures sheet { IfOk result (λ text.
        IsSheet desk.now kinds.Status number (string_bytes text)) }
    ensures missing { IfErr result (IsMissing desk.now kinds.Status number) }
{
    let resolution = desk
        .resolution(number)
        .ok_or(NoSheet::Refused(Refusal::NoResolution))?;
    Ok(status(alloc, desk, number, resolution)?)
}

/// The status of a resolution of the desk.
fn status(
    alloc: Global,
    desk: &Desk,
    number: u32,
    resolution: Resolution,
) -> Result<String, AllocError>
    requires found { finite.get desk.now.resolutions number ≡ Some resolution }
    requires valid { IsValid desk.now }
    ensures { IfOk result (λ text.
        string_bytes text ≡ status_sheet desk.now number resolution) }
{
    // Does nothing: its clause says that the moments of the discussion can be told as dates.
    gr_core::laws::discussions_are_timely();
    let mut text = head(alloc, number, resolution)?;
    add_discussion(&mut text, resolution.discussion())?;
    add_poll(&mut text, resolution.poll())?;
    for (key, choice) in desk.choices(number) {
        add_choice(&mut text, desk, *key, choice)?;
    }
    Ok(text)
}

fn head(alloc: Global, number: u32, resolution: Resolution) -> Result<String, AllocError>
    ensures { IfOk result (λ text. string_bytes text ≡ status_head number resolution) }
{
    let stage = stage(resolution);
    format!(in alloc; "Resolution {number}\nStage: {stage}\n")
}

fn stage(resolution: Resolution) -> &'static str
    ensures { result.now ≡ stage_word resolution }
{
    match resolution {
        Resolution::Draft => "Draft",
        Resolution::Discussing(..) => "Discussing",
        Resolution::Voting(..) => "Voting",
        Resolution::Closed(..) => "Closed",
        Resolution::Cancelled(..) => "Cancelled",
    }
}

/// Adds when the discussion begins and ends, if there is or was one.
fn add_discussion(text: &mut String, discussion: Option<Discussion>) -> Result<(), AllocError>
    requires { IfSome discussion IsTimely }
    ensures { OnOk result (string_bytes text.new
        ≡ string_bytes text.old ++ discussion_line discussion) }
{
    match discussion {
        Some(discussion) => {
            let start = Moment {
                seconds: discussion.start,
            };
            let end = Moment {
                seconds: discussion.end(),
            };
            write!(text, "Discussion: {start} to {end}\n")
        }
        None => Ok(()),
    }
}

/// Adds the lines of the poll, if there is or was one.
fn add_poll(text: &mut String, poll: Option<Poll>) -> Result<(), AllocError>
    requires { IfSome poll IsTimelyPoll }
    ensures { OnOk result (string_bytes text.new ≡ string_bytes text.old ++ poll_lines poll) }
{
    match poll {
        Some(poll) => add_called(text, poll),
        None => Ok(()),
    }
}
