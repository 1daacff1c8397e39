//! Which refusal a command meets: a test for each condition, and all in the order of the numbers.
ghost use Rattle.std.specs.Prelude.{◌≡◌, ◌↔◌, ℕ, IsTrue, IsFalse, IfOk, IfErr, IfSome, IfNone, IsSome, OnOk, map, option_map};
ghost use Rattle.gr_core.specs.Parts.Choice.{choice_model, IsRatio};
ghost use Rattle.gr_core.specs.Parts.Discussion.{IsShift, IsPeriod, end_of};
ghost use Rattle.gr_core.specs.Machine.Act.{act_of, resolution_at, resolution_of, discussion_at, choice_at};
ghost use Rattle.gr_core.specs.Desks.Valid.{IsValid};
ghost use Rattle.gr_core.specs.InMemory.KeptPairs.{KeepsPairs};
ghost use Rattle.gr_core.specs.Machine.Refusal.{Refuses, IsAccepted, IsBeforeClock, HasBadLogin, HasBadText, HasBadRatio, HasBadDays, OverfillsTheRoll, IsTooLarge, PassesALimit, IsFull};
ghost use Rattle.gr_core.specs.Machine.Refusal.{FindsNoResolution, FindsNoChoice, may_come, FindsWrongStage, NeedsDiscussion, DiscussionHasEnded, HasEnded, IsCalledTooEarly, IsTooEarly, FindsNoDeveloper, IsByRetired};
ghost use Rattle.gr_core.specs.Machine.Refusal.{NamesLapsedChoice, IsSponsorAlready, IsDoneAlready, WithdrawsNoSponsor, HasAProposer, HasNoProposer, MakesItEndTooSoon, HasBadRow};
ghost use Rattle.gr_core.specs.Machine.Finding.{act_in, IsFoundOn};
ghost use Rattle.gr_core.specs.Machine.Import.{roll_row};

mod voting;

use crate::choice::Choice;
use crate::command::{Amendment, Command};
use crate::discussion::Discussion;
use crate::finding::Finding;
use crate::import::{RollRow, first_bad_line, new_logins};
use crate::kept_pairs::KeptPairs;
use crate::limits::{
    MAX_ACCEPTED, MAX_CHOICES, MAX_RESOLUTIONS, MAX_SHIFT_DAYS, MAX_VOTING_DAYS, MIN_NOTICE,
    MIN_VOTING_DAYS,
};
use crate::login::is_login;
use crate::moment::{is_moment, is_over};
use crate::refusal::Refusal;
use crate::resolution::Resolution;
use crate::tables::Tables;
use crate::text::{is_name, is_summary, is_text};
use gr_count::{MAX_DEVELOPERS, MAX_RATIO};
use voting::{
    chooses_without_a_tie, finds_no_place, has_bad_token, is_closed_too_early, is_decided_already,
    voting_has_ended,
};

/// What is found of the command, or the refusal of least number that it meets at this moment, if
/// it meets any. Takes no memory, so that a refusal is always answered. The tables are those of a
/// valid desk, so that each discussion and each vote has an end, and with them the counts of each
/// vote are kept. So no sum of moments and days can overflow, and each vote has places, ratios and
/// ballots that a count takes. The conditions of refusals say nothing of validity.
pub(crate) fn check<'a>(
    tables: &'a Tables,
    kept: &KeptPairs,
    at: u64,
    command: &'a Command,
) -> Result<Finding<'a>, Refusal>
    requires valid { IsValid tables.now }
    requires kept { KeepsPairs tables.now kept.now }
    ensures accepted { OnOk result (IsAccepted tables.now at (act_of command.now)) }
    ensures act { IfOk result (λ finding. act_in finding ≡ act_of command.now) }
    ensures found { IfOk result (IsFoundOn tables.now at) }
    ensures refused { IfErr result (Refuses tables.now at (act_of command.now)) }
{
    refuse_if(!is_moment(at), Refusal::BadMoment)?;
    refuse_if(is_before_clock(tables, at), Refusal::ClockBack)?;
    refuse_if(has_bad_login(command), Refusal::BadLogin)?;
    refuse_if(has_bad_text(command), Refusal::BadText)?;
    refuse_if(has_bad_ratio(command), Refusal::BadRatio)?;
    refuse_if(has_bad_days(command), Refusal::BadDays)?;
    refuse_if(has_bad_token(command), Refusal::BadToken)?;
    refuse_if(is_full(tables, command), Refusal::Full)?;
    refuse_if(finds_no_resolution(tables, command), Refusal::NoResolution)?;
    refuse_if(finds_no_choice(tables, command), Refusal::NoChoice)?;
    refuse_if(finds_wrong_stage(tables, command), Refusal::WrongStage)?;
    refuse_if(has_ended(tables, at, command), Refusal::Ended)?;
    refuse_if(is_too_early(tables, at, command), Refusal::TooEarly)?;
    refuse_if(finds_no_developer(tables, command), Refusal::NoDeveloper)?;
    refuse_if(is_by_retired(tables, command), Refusal::NotCurrent)?;
    refuse_if(names_lapsed_choice(tables, at, command), Refusal::Lapsed)?;
    refuse_if(is_done_already(tables, command), Refusal::Already)?;
    refuse_if(withdraws_no_sponsor(tables, command), Refusal::NotSponsor)?;
    refuse_if(has_a_proposer(tables, command), Refusal::HasProposer)?;
    refuse_if(has_no_proposer(tables, command), Refusal::NoProposer)?;
    refuse_if(
        makes_it_end_too_soon(tables, at, command),
        Refusal::EndsTooSoon,
    )?;
    let finding = Finding::of(tables, kept, at, command)?;
    refuse_if(
        chooses_without_a_tie(tables, kept, &finding),
        Refusal::NotTied,
    )?;
    match bad_line(command) {
        Some(line) => Err(Refusal::BadRoll { line }),
        None => Ok(finding),
    }
}

/// The refusal, if so.
fn refuse_if(applies: bool, refusal: Refusal) -> Result<(), Refusal>
    ensures ok { OnOk result (IsFalse applies) }
    ensures err { IfErr result (λ error. (error ≡ refusal) × IsTrue applies) }
{
    if applies { Err(refusal) } else { Ok(()) }
}

/// Whether the clock of the tables is past the moment.
fn is_before_clock(tables: &Tables, at: u64) -> bool
    ensures { IsTrue result ↔ IsBeforeClock tables.now at }
{
    at < tables.header().clock
}

/// Whether the login of the command breaks its rule.
fn has_bad_login(command: &Command) -> bool
    ensures { IsTrue result ↔ HasBadLogin (act_of command.now) }
{
    command.login().is_some_and(|login| !is_login(login))
}

/// Whether the name, the summary or the text that the command brings breaks its rule.
fn has_bad_text(command: &Command) -> bool
    ensures { IsTrue result ↔ HasBadText (act_of command.now) }
{
    command.name().is_some_and(|name| !is_name(name))
        || command.wording().is_some_and(|wording| {
            !is_summary(wording.summary.as_str()) || !is_text(wording.text.as_str())
        })
}

/// Whether the command brings a number that is no majority ratio.
fn has_bad_ratio(command: &Command) -> bool
    ensures { IsTrue result ↔ HasBadRatio (act_of command.now) }
{
    command.ratio().is_some_and(|ratio| !is_ratio(ratio))
}

/// Whether the number is a majority ratio.
pub(crate) fn is_ratio(ratio: u32) -> bool
    ensures { IsTrue result ↔ IsRatio ratio }
{
    (1..=MAX_RATIO).contains(&ratio)
}

/// Whether the days of the command are none by which a discussion is varied, or for which votes are
/// taken.
fn has_bad_days(command: &Command) -> bool
    ensures { IsTrue result ↔ HasBadDays (act_of command.now) }
{
    command.shift().is_some_and(|days| !is_shift(days))
        || command.period().is_some_and(|days| !is_period(days))
}

/// Whether a discussion may be varied by these days.
pub(crate) fn is_shift(days: i32) -> bool
    ensures { IsTrue result ↔ IsShift days }
{
    (-MAX_SHIFT_DAYS..=MAX_SHIFT_DAYS).contains(&days)
}

/// Whether votes may be taken for these days.
pub(crate) fn is_period(days: i32) -> bool
    ensures { IsTrue result ↔ IsPeriod days }
{
    (MIN_VOTING_DAYS..=MAX_VOTING_DAYS).contains(&days)
}

/// Whether the tables take no more commands, or have no room for what this one puts.
fn is_full(tables: &Tables, command: &Command) -> bool
    ensures { IsTrue result ↔ IsFull tables.now (act_of command.now) }
{
    tables.header().accepted >= MAX_ACCEPTED || passes_a_limit(tables, command)
}

/// Whether the command would put one developer, one resolution or one choice too many.
fn passes_a_limit(tables: &Tables, command: &Command) -> bool
    ensures { IsTrue result ↔ PassesALimit tables.now (act_of command.now) }
{
    match command {
        Command::SetDeveloper { login, .. } => overfills_the_roll(tables, login.as_str()),
        Command::ImportRoll { rows } => is_too_large(tables, rows.as_slice()),
        Command::Propose { .. } => tables.resolutions().len() >= MAX_RESOLUTIONS,
        Command::AddChoice { resolution, .. } => {
            tables.choices().len_of(*resolution) >= MAX_CHOICES
        }
        _ => false,
    }
}

/// Whether the login is new to a full roll.
fn overfills_the_roll(tables: &Tables, login: &str) -> bool
    ensures { IsTrue result ↔ OverfillsTheRoll tables.now login.now }
{
    let roll = tables.roll();
    !roll.contains(login) && roll.len() >= MAX_DEVELOPERS as usize
}

/// Whether the import has too many rows, or the roll and its rows together too many logins.
fn is_too_large(tables: &Tables, rows: &[RollRow]) -> bool
    ensures { IsTrue result ↔ IsTooLarge tables.now (map roll_row rows.now) }
{
    let most = MAX_DEVELOPERS as usize;
    let roll = tables.roll();
    rows.len() > most || roll.len().saturating_add(new_logins(rows, roll)) > most
}

/// Whether there is no resolution with the number that the command names.
fn finds_no_resolution(tables: &Tables, command: &Command) -> bool
    ensures { IsTrue result ↔ FindsNoResolution tables.now (act_of command.now) }
{
    command
        .resolution()
        .is_some_and(|number| tables.resolutions().get(number).is_none())
}

/// Whether there is no choice with the key that the command names, or no such place.
fn finds_no_choice(tables: &Tables, command: &Command) -> bool
    ensures { IsTrue result ↔ FindsNoChoice tables.now (act_of command.now) }
{
    command
        .choice()
        .is_some_and(|key| tables.choices().get(key).is_none())
        || finds_no_place(tables, command)
}

/// What the tables have of the resolution that the command names.
fn resolution_at(tables: &Tables, command: &Command) -> Option<Resolution>
    ensures { result ≡ resolution_at tables.now (act_of command.now) }
{
    tables.resolutions().get(command.resolution()?)
}

/// The discussion of the resolution that the command names, as long as it is not called.
fn discussion_at(tables: &Tables, command: &Command) -> Option<Discussion>
    ensures { result ≡ discussion_at tables.now (act_of command.now) }
{
    resolution_at(tables, command)?.present_discussion()
}

/// What the tables have of the choice on which the command acts.
fn choice_at<'a>(tables: &'a Tables, command: &Command) -> Option<&'a Choice>
    ensures { option_map (λ choice. choice_model choice.now) result
        ≡ choice_at tables.now (act_of command.now) }
{
    tables.choices().get(command.choice()?)
}

/// Whether the resolution that the command names is in a stage in which the command may come.
fn may_come(command: &Command, resolution: Resolution) -> bool
    requires { IsSome (resolution_of (act_of command.now)) }
    ensures { result ≡ may_come (act_of command.now) resolution }
{
    match command {
        Command::AddChoice { .. } | Command::Vary { .. } | Command::Call { .. } => {
            resolution.present_discussion().is_some()
        }
        Command::Sponsor { .. }
        | Command::Unsponsor { .. }
        | Command::Withdraw { .. }
        | Command::Adopt { .. }
        | Command::Amend { .. } => resolution.is_open(),
        Command::Vote { .. } | Command::Close { .. } => resolution.present_poll().is_some(),
        Command::Cast { .. } => resolution.is_closed(),
        // These name no resolution.
        Command::SetDeveloper { .. } | Command::ImportRoll { .. } | Command::Propose { .. } => {
            unreachable!()
        }
    }
}

/// Whether the resolution that the command names is in a stage in which the command cannot come.
fn finds_wrong_stage(tables: &Tables, command: &Command) -> bool
    ensures { IsTrue result ↔ FindsWrongStage tables.now (act_of command.now) }
{
    match resolution_at(tables, command) {
        Some(resolution) => !may_come(command, resolution),
        None => false,
    }
}

/// Whether the command adds a choice, amends one other than in a minor way, sponsors or adopts one
/// that is not introduced, or varies the discussion.
fn needs_discussion(tables: &Tables, command: &Command) -> bool
    ensures { IsTrue result ↔ NeedsDiscussion tables.now (act_of command.now) }
{
    match command {
        Command::AddChoice { .. } | Command::Vary { .. } => true,
        Command::Amend { amendment, .. } => *amendment == Amendment::Substantial,
        Command::Sponsor { choice, .. } | Command::Adopt { choice, .. } => tables
            .choices()
            .get(*choice)
            .is_some_and(|choice| choice.introduced.is_none()),
        _ => false,
    }
}

/// When the discussion ends that the command names, as long as it is not called.
fn end_at(tables: &Tables, command: &Command) -> Option<u64>
    requires { IsValid tables.now }
    ensures { result ≡ option_map end_of (discussion_at tables.now (act_of command.now)) }
{
    let discussion = discussion_at(tables, command)?;
    Some(discussion.end())
}

/// Whether what the command needs is over.
fn has_ended(tables: &Tables, at: u64, command: &Command) -> bool
    requires { IsValid tables.now }
    ensures { IsTrue result ↔ HasEnded tables.now at (act_of command.now) }
{
    discussion_has_ended(tables, at, command) || voting_has_ended(tables, at, command)
}

/// Whether the discussion is over that the command needs.
fn discussion_has_ended(tables: &Tables, at: u64, command: &Command) -> bool
    requires { IsValid tables.now }
    ensures { IsTrue result ↔ DiscussionHasEnded tables.now at (act_of command.now) }
{
    needs_discussion(tables, command) && end_at(tables, command).is_some_and(|end| is_over(end, at))
}

/// Whether what has to be over before the command is not.
fn is_too_early(tables: &Tables, at: u64, command: &Command) -> bool
    requires { IsValid tables.now }
    ensures { IsTrue result ↔ IsTooEarly tables.now at (act_of command.now) }
{
    is_called_too_early(tables, at, command) || is_closed_too_early(tables, at, command)
}

/// Whether a vote is called for before the discussion is over.
fn is_called_too_early(tables: &Tables, at: u64, command: &Command) -> bool
    requires { IsValid tables.now }
    ensures { IsTrue result ↔ IsCalledTooEarly tables.now at (act_of command.now) }
{
    matches!(command, Command::Call { .. })
        && end_at(tables, command).is_some_and(|end| !is_over(end, at))
}

/// Whether the developer who acts is not on the roll.
fn finds_no_developer(tables: &Tables, command: &Command) -> bool
    ensures { IsTrue result ↔ FindsNoDeveloper tables.now (act_of command.now) }
{
    command
        .actor()
        .is_some_and(|login| !tables.roll().contains(login))
}

/// Whether the developer who acts is retired and has to be current.
fn is_by_retired(tables: &Tables, command: &Command) -> bool
    ensures { IsTrue result ↔ IsByRetired tables.now (act_of command.now) }
{
    command
        .current_actor()
        .and_then(|login| tables.roll().get(login))
        .is_some_and(|developer| !developer.standing.is_current())
}

/// Whether the choice on which the command acts has lapsed.
fn names_lapsed_choice(tables: &Tables, at: u64, command: &Command) -> bool
    ensures { IsTrue result ↔ NamesLapsedChoice tables.now at (act_of command.now) }
{
    choice_at(tables, command).is_some_and(|choice| choice.has_lapsed(at))
}

/// Whether what the command would do was done.
fn is_done_already(tables: &Tables, command: &Command) -> bool
    ensures { IsTrue result ↔ IsDoneAlready tables.now (act_of command.now) }
{
    is_sponsor_already(tables, command) || is_decided_already(tables, command)
}

/// Whether the new sponsor of the choice is an active one already, or its proposer.
fn is_sponsor_already(tables: &Tables, command: &Command) -> bool
    ensures { IsTrue result ↔ IsSponsorAlready tables.now (act_of command.now) }
{
    match command {
        Command::Sponsor { choice: key, login } => tables.choices().get(*key).is_some_and(|choice| {
            tables.sponsors().has(*key, login.as_str()) || choice.is_proposed_by(login.as_str())
        }),
        _ => false,
    }
}

/// Whether the login that withdraws as a sponsor of the choice is no active one.
fn withdraws_no_sponsor(tables: &Tables, command: &Command) -> bool
    ensures { IsTrue result ↔ WithdrawsNoSponsor tables.now (act_of command.now) }
{
    match command {
        Command::Unsponsor { choice: key, login } => {
            tables.choices().get(*key).is_some() && !tables.sponsors().has(*key, login.as_str())
        }
        _ => false,
    }
}

/// Whether a choice is adopted that has a proposer.
fn has_a_proposer(tables: &Tables, command: &Command) -> bool
    ensures { IsTrue result ↔ HasAProposer tables.now (act_of command.now) }
{
    matches!(command, Command::Adopt { .. })
        && choice_at(tables, command).is_some_and(|choice| choice.proposer.is_some())
}

/// Whether a proposer withdraws from a choice that has none.
fn has_no_proposer(tables: &Tables, command: &Command) -> bool
    ensures { IsTrue result ↔ HasNoProposer tables.now (act_of command.now) }
{
    matches!(command, Command::Withdraw { .. })
        && choice_at(tables, command).is_some_and(|choice| choice.proposer.is_none())
}

/// When the discussion that the command names would end if it were varied by these days.
fn end_if_varied(tables: &Tables, command: &Command, days: i32) -> Option<u64>
    requires valid { IsValid tables.now }
    requires shift { IsShift days }
    ensures { result ≡ option_map (λ discussion. end_of (record discussion { shift = days }))
        (discussion_at tables.now (act_of command.now)) }
{
    let discussion = Discussion {
        shift: days,
        ..discussion_at(tables, command)?
    };
    Some(discussion.end())
}

/// Whether a variation makes the discussion end sooner than it may.
fn makes_it_end_too_soon(tables: &Tables, at: u64, command: &Command) -> bool
    requires { IsValid tables.now }
    ensures { IsTrue result ↔ MakesItEndTooSoon tables.now at (act_of command.now) }
{
    match command.shift() {
        Some(days) if is_shift(days) => match end_if_varied(tables, command, days) {
            Some(end) => end.saturating_sub(at) < MIN_NOTICE,
            None => false,
        },
        _ => false,
    }
}

/// The line of the first row of the import that the roll cannot take, if there is one.
fn bad_line(command: &Command) -> Option<usize>
    ensures some { IfSome result (HasBadRow (act_of command.now)) }
    ensures none { IfNone result ((line : ℕ) → ¬ (HasBadRow (act_of command.now) line)) }
{
    first_bad_line(command.import()?)
}
