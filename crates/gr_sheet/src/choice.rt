//! The lines of a choice in the status of its resolution.
ghost use Rattle.std.specs.Prelude.{◌≡◌, ◌++◌, OnOk, string_bytes, option_map, Some, if◌then◌else◌, [], codes};
ghost use Rattle.std.specs.List.{flat_map};
ghost use Rattle.gr_core.specs.Parts.Choice.{choice_model, proposer_of};
ghost use Rattle.gr_core.specs.Parts.Sponsor.{is_active};
ghost use Rattle.gr_sheet.specs.StatusSheet.{title_lines, proposer_line, sponsors_line, active_sponsors, active_logins, moment_line, place_line, bar_line, lines_of, choice_lines, AreShownMoments, IsShownIfAny};

use crate::moment::Moment;
use gr_core::{Choice, ChoiceKey, Desk, Proposer, Sponsorship, active_among};
use std::alloc::AllocError;
use std::collections::BTreeMap;

const LINE_FEED: u8 = b'\n';

/// Adds what is known of a choice, and its text.
pub(crate) fn add_choice(
    text: &mut String,
    desk: &Desk,
    key: ChoiceKey,
    choice: &Choice,
) -> Result<(), AllocError>
    requires { AreShownMoments (choice_model choice.now) }
    ensures { OnOk result (string_bytes text.new ≡ string_bytes text.old
        ++ choice_lines desk.now.sponsors (key, choice_model choice.now)) }
{
    add_title(text, key, choice)?;
    add_proposer(text, &choice.proposer)?;
    add_sponsors(text, desk, key)?;
    add_moment(text, "Introduced", choice.introduced)?;
    add_moment(text, "Short since", choice.short)?;
    add_place(text, choice.place)?;
    add_text(text, choice.wording.text.as_str())
}

fn add_title(text: &mut String, key: ChoiceKey, choice: &Choice) -> Result<(), AllocError>
    ensures { OnOk result (string_bytes text.new
        ≡ string_bytes text.old ++ title_lines (key, choice_model choice.now)) }
{
    let number = key.number;
    let summary = choice.wording.summary.as_str();
    let ratio = choice.ratio;
    write!(text, "Choice {number}: {summary}\nRatio: {ratio}\n")
}

fn add_proposer(text: &mut String, proposer: &Option<Proposer>) -> Result<(), AllocError>
    ensures { OnOk result (string_bytes text.new ≡ string_bytes text.old
        ++ proposer_line (option_map proposer_of proposer.now)) }
{
    match proposer {
        Some(proposer) => add_proposed_by(text, proposer),
        None => write!(text, "Proposer: none\n"),
    }
}

fn add_proposed_by(text: &mut String, proposer: &Proposer) -> Result<(), AllocError>
    ensures { OnOk result (string_bytes text.new
        ≡ string_bytes text.old ++ proposer_line (Some (proposer_of proposer.now))) }
{
    match proposer {
        Proposer::Developer(login) => {
            let login = login.as_str();
            write!(text, "Proposer: developer {login}\n")
        }
        Proposer::Leader => write!(text, "Proposer: leader\n"),
        Proposer::Committee => write!(text, "Proposer: committee\n"),
    }
}

fn add_sponsors(text: &mut String, desk: &Desk, key: ChoiceKey) -> Result<(), AllocError>
    ensures { OnOk result (string_bytes text.new ≡ string_bytes text.old
        ++ sponsors_line (active_sponsors desk.now.sponsors key)) }
{
    match desk.sponsors(key) {
        Some(sponsors) => add_logins(text, sponsors),
        None => write!(text, "Sponsors: 0\n"),
    }
}

/// Adds how many of the sponsors are active, and their logins.
fn add_logins(text: &mut String, sponsors: &BTreeMap<String, Sponsorship>) -> Result<(), AllocError>
    ensures { OnOk result (string_bytes text.new ≡ string_bytes text.old
        ++ sponsors_line (active_logins sponsors.now.entries)) }
{
    let count = active_among(sponsors);
    write!(text, "Sponsors: {count}")?;
    for (login, sponsorship) in sponsors {
        add_login(text, login.as_str(), *sponsorship)?;
    }
    write!(text, "\n")
}

/// Adds the login, if the sponsor is active.
fn add_login(text: &mut String, login: &str, sponsorship: Sponsorship) -> Result<(), AllocError>
    ensures { OnOk result (string_bytes text.new ≡ string_bytes text.old
        ++ (if is_active sponsorship then codes " " ++ login.now else [])) }
{
    if sponsorship.is_active() {
        write!(text, " {login}")
    } else {
        Ok(())
    }
}

fn add_moment(text: &mut String, name: &str, at: Option<u64>) -> Result<(), AllocError>
    requires { IsShownIfAny at }
    ensures { OnOk result (string_bytes text.new
        ≡ string_bytes text.old ++ moment_line name.now at) }
{
    match at {
        Some(seconds) => {
            let moment = Moment { seconds };
            write!(text, "{name}: {moment}\n")
        }
        None => write!(text, "{name}: no\n"),
    }
}

fn add_place(text: &mut String, place: Option<u32>) -> Result<(), AllocError>
    ensures { OnOk result (string_bytes text.new ≡ string_bytes text.old ++ place_line place) }
{
    match place {
        Some(place) => write!(text, "Place: {place}\n"),
        None => write!(text, "Place: none\n"),
    }
}

/// Adds each line of the text of a choice after a bar and a space.
fn add_text(text: &mut String, words: &str) -> Result<(), AllocError>
    ensures { OnOk result (string_bytes text.new
        ≡ string_bytes text.old ++ flat_map bar_line (lines_of words.now)) }
{
    let lines = words.strip_suffix('\n').unwrap_or(words);
    for line in lines.split('\n') {
        write!(text, "| {line}\n")?;
    }
    Ok(())
}
