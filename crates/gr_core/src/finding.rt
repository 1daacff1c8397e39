//! Findings: what the check of a command finds, and its plan needs.
//!
//! The tests of `check` look rows up for any command, each by an `Option`. Once they are passed,
//! the rows of a case are there, and it looks them up by its own keys. A test that handed its row
//! on would be no line of `check`.
ghost use Rattle.std.specs.Prelude.{◌≡◌, ℕ, Option, Some, None, IfOk, IsSomeAnd, IsTrue, OnErr, OnOk};
ghost use Rattle.std.specs.FinMap as finite;
ghost use Rattle.gr_core.specs.declared.resolution.Resolution.TheVariants.{Discussing, Voting, Closed};
ghost use Rattle.gr_core.specs.Parts.Choice.{choice_model, proposer_of, wording_of};
ghost use Rattle.gr_core.specs.Parts.Resolution.{is_discussing, is_voting, is_closed};
ghost use Rattle.gr_core.specs.Desks.State.{State};
ghost use Rattle.gr_core.specs.Desks.Valid.{IsValid};
ghost use Rattle.gr_core.specs.InMemory.KeptPairs.{KeepsPairs};
ghost use Rattle.gr_core.specs.Machine.Act.{SetDeveloper, Propose, AddChoice, Sponsor, Unsponsor, Withdraw, Adopt, Amend, Vary, Call, Vote, Close, Cast, act_of};
ghost use Rattle.gr_core.specs.Machine.Finding.{act_in, IsFoundOn};
ghost use Rattle.gr_core.specs.Machine.Refusal.{FindsNoResolution, FindsNoChoice, FindsWrongStage, HasBadRanks};

pub(crate) mod cases;

use crate::choice::{Choice, ChoiceKey, Proposer, Wording};
use crate::command::{Amendment, Command};
use crate::developer::Standing;
use crate::discussion::Discussion;
use crate::election::ranks_of;
use crate::import::RollRow;
use crate::kept_pairs::KeptPairs;
use crate::resolution::{Poll, Resolution};
use crate::tables::Tables;
use gr_count::BadRanks;

/// A command that may come, with what the desk has of what it names, and its ranks as they were
/// read. Each plan is made of its own case; some also walk over the tables. So no text of ranks is
/// read twice, and no plan looks for what may be missing.
#[derive(Drop)]
pub(crate) enum Finding<'a> {
    /// Of [`Command::SetDeveloper`].
    SetDeveloper(cases::SetDeveloper<'a>),

    /// Of [`Command::ImportRoll`].
    ImportRoll(&'a [RollRow]),

    /// Of [`Command::Propose`].
    Propose(cases::Propose<'a>),

    /// Of [`Command::AddChoice`].
    AddChoice(cases::AddChoice<'a>),

    /// Of [`Command::Sponsor`].
    Sponsor(cases::Sponsor<'a>),

    /// Of [`Command::Unsponsor`].
    Unsponsor(cases::Unsponsor<'a>),

    /// Of [`Command::Withdraw`].
    Withdraw(cases::Withdraw<'a>),

    /// Of [`Command::Adopt`].
    Adopt(cases::Adopt<'a>),

    /// Of [`Command::Amend`].
    Amend(cases::Amend<'a>),

    /// Of [`Command::Vary`].
    Vary(cases::Vary),

    /// Of [`Command::Call`].
    Call(cases::Call),

    /// Of [`Command::Vote`].
    Vote(cases::Vote<'a>),

    /// Of [`Command::Close`].
    Close(cases::Close),

    /// Of [`Command::Cast`].
    Cast(cases::Cast),
}

impl<'a> Finding<'a> {
    /// What is found of the command at this moment: it names what there is, in a stage in which it
    /// may come.
    ///
    /// [`BadRanks`]: its ranks are no ballot of the poll that is held.
    pub(crate) fn of(
        tables: &'a Tables,
        kept: &KeptPairs,
        at: u64,
        command: &'a Command,
    ) -> Result<Finding<'a>, BadRanks>
        requires valid { IsValid tables.now }
        requires kept { KeepsPairs tables.now kept.now }
        requires resolution { ¬ (FindsNoResolution tables.now (act_of command.now)) }
        requires choice { ¬ (FindsNoChoice tables.now (act_of command.now)) }
        requires stage { ¬ (FindsWrongStage tables.now (act_of command.now)) }
        ensures act { IfOk result (λ finding. act_in finding ≡ act_of command.now) }
        ensures found { IfOk result (IsFoundOn tables.now at) }
        ensures good { OnOk result (¬ (HasBadRanks tables.now (act_of command.now))) }
        ensures bad { OnErr result (HasBadRanks tables.now (act_of command.now)) }
    {
        match command {
            Command::SetDeveloper {
                login,
                name,
                standing,
            } => Ok(developer_found(login, name, *standing)),
            Command::ImportRoll { rows } => Ok(Finding::ImportRoll(rows.as_slice())),
            Command::Propose {
                proposer,
                wording,
                ratio,
            } => Ok(proposal_found(proposer, wording, *ratio)),
            Command::AddChoice {
                resolution,
                proposer,
                wording,
                ratio,
            } => Ok(addition_found(tables, *resolution, proposer, wording, *ratio)),
            Command::Sponsor { choice, login } => Ok(sponsor_found(tables, *choice, login)),
            Command::Unsponsor { choice, login } => Ok(unsponsor_found(tables, *choice, login)),
            Command::Withdraw { choice } => Ok(withdrawal_found(tables, *choice)),
            Command::Adopt { choice, proposer } => Ok(adoption_found(tables, *choice, proposer)),
            Command::Amend {
                choice,
                amendment,
                wording,
            } => Ok(amendment_found(tables, *choice, *amendment, wording)),
            Command::Vary { resolution, days } => Ok(variation_found(tables, *resolution, *days)),
            Command::Call { resolution, days } => Ok(call_found(tables, at, *resolution, *days)),
            Command::Vote {
                resolution,
                login,
                ranks,
                token,
            } => vote_found(tables, kept, *resolution, login, ranks, token),
            Command::Close { resolution } => Ok(close_found(tables, *resolution)),
            Command::Cast { resolution, place } => Ok(cast_found(tables, *resolution, *place)),
        }
    }
}

/// Of a developer's row.
fn developer_found<'a>(login: &'a str, name: &'a str, standing: Standing) -> Finding<'a>
    ensures act { act_in result ≡ SetDeveloper login.now name.now standing }
    ensures found { (s : State) (at : ℕ) → IsFoundOn s at result }
{
    Finding::SetDeveloper(cases::SetDeveloper {
        login,
        name,
        standing,
    })
}

/// Of a new resolution with its first choice.
fn proposal_found<'a>(proposer: &'a Proposer, wording: &'a Wording, ratio: u32) -> Finding<'a>
    ensures act { act_in result
        ≡ Propose (proposer_of proposer.now) (wording_of wording.now) ratio }
    ensures found { (s : State) (at : ℕ) → IsFoundOn s at result }
{
    Finding::Propose(cases::Propose {
        proposer,
        wording,
        ratio,
    })
}

/// Of a new choice of the resolution, which there is.
fn addition_found<'a>(
    tables: &'a Tables,
    number: u32,
    proposer: &'a Proposer,
    wording: &'a Wording,
    ratio: u32,
) -> Finding<'a>
    requires { ¬ (finite.get tables.now.resolutions number ≡ None) }
    ensures act { act_in result
        ≡ AddChoice number (proposer_of proposer.now) (wording_of wording.now) ratio }
    ensures found { (at : ℕ) → IsFoundOn tables.now at result }
{
    Finding::AddChoice(cases::AddChoice {
        number,
        resolution: resolution_with(tables, number),
        proposer,
        wording,
        ratio,
    })
}

/// Of a new sponsor of the choice, which there is in a resolution that there is.
fn sponsor_found<'a>(tables: &'a Tables, key: ChoiceKey, login: &'a str) -> Finding<'a>
    requires choice { ¬ (finite.get tables.now.choices key ≡ None) }
    requires resolution { ¬ (finite.get tables.now.resolutions key.resolution ≡ None) }
    ensures act { act_in result ≡ Sponsor key login.now }
    ensures found { (at : ℕ) → IsFoundOn tables.now at result }
{
    Finding::Sponsor(cases::Sponsor {
        key,
        choice: choice_with(tables, key),
        resolution: resolution_with(tables, key.resolution),
        login,
    })
}

/// Of a sponsor who leaves the choice, which there is.
fn unsponsor_found<'a>(tables: &'a Tables, key: ChoiceKey, login: &'a str) -> Finding<'a>
    requires { ¬ (finite.get tables.now.choices key ≡ None) }
    ensures act { act_in result ≡ Unsponsor key login.now }
    ensures found { (at : ℕ) → IsFoundOn tables.now at result }
{
    Finding::Unsponsor(cases::Unsponsor {
        key,
        choice: choice_with(tables, key),
        login,
    })
}

/// Of a proposer who leaves the choice, which there is.
fn withdrawal_found(tables: &Tables, key: ChoiceKey) -> Finding<'_>
    requires { ¬ (finite.get tables.now.choices key ≡ None) }
    ensures act { act_in result ≡ Withdraw key }
    ensures found { (at : ℕ) → IsFoundOn tables.now at result }
{
    Finding::Withdraw(cases::Withdraw {
        key,
        choice: choice_with(tables, key),
    })
}

/// Of a new proposer of the choice, which there is in a resolution that there is.
fn adoption_found<'a>(tables: &'a Tables, key: ChoiceKey, proposer: &'a Proposer) -> Finding<'a>
    requires choice { ¬ (finite.get tables.now.choices key ≡ None) }
    requires resolution { ¬ (finite.get tables.now.resolutions key.resolution ≡ None) }
    ensures act { act_in result ≡ Adopt key (proposer_of proposer.now) }
    ensures found { (at : ℕ) → IsFoundOn tables.now at result }
{
    Finding::Adopt(cases::Adopt {
        key,
        choice: choice_with(tables, key),
        resolution: resolution_with(tables, key.resolution),
        proposer,
    })
}

/// Of other words of the choice, which there is in a resolution that there is.
fn amendment_found<'a>(
    tables: &'a Tables,
    key: ChoiceKey,
    amendment: Amendment,
    wording: &'a Wording,
) -> Finding<'a>
    requires choice { ¬ (finite.get tables.now.choices key ≡ None) }
    requires resolution { ¬ (finite.get tables.now.resolutions key.resolution ≡ None) }
    ensures act { act_in result ≡ Amend key amendment (wording_of wording.now) }
    ensures found { (at : ℕ) → IsFoundOn tables.now at result }
{
    Finding::Amend(cases::Amend {
        key,
        choice: choice_with(tables, key),
        resolution: resolution_with(tables, key.resolution),
        amendment,
        wording,
    })
}

/// Of a variation of the discussion of the resolution, which is under discussion.
fn variation_found(tables: &Tables, number: u32, days: i32) -> Finding<'_>
    requires { IsSomeAnd (finite.get tables.now.resolutions number)
        (λ row. IsTrue (is_discussing row)) }
    ensures act { act_in result ≡ Vary number days }
    ensures found { (at : ℕ) → IsFoundOn tables.now at result }
{
    Finding::Vary(cases::Vary {
        number,
        discussion: discussion_on(tables, number),
        days,
    })
}

/// Of a call for the vote on the resolution, which is under discussion.
fn call_found(tables: &Tables, at: u64, number: u32, days: i32) -> Finding<'_>
    requires { IsSomeAnd (finite.get tables.now.resolutions number)
        (λ row. IsTrue (is_discussing row)) }
    ensures act { act_in result ≡ Call number days }
    ensures found { IsFoundOn tables.now at result }
{
    Finding::Call(cases::Call {
        number,
        discussion: discussion_on(tables, number),
        live: tables.choices().live_count(number, at),
        days,
    })
}

/// Of a ballot on the resolution, on which votes are taken.
///
/// [`BadRanks`]: the text of its ranks is no ballot of the resolution.
fn vote_found<'a>(
    tables: &'a Tables,
    kept: &KeptPairs,
    resolution: u32,
    login: &'a str,
    ranks: &str,
    token: &'a str,
) -> Result<Finding<'a>, BadRanks>
    requires valid { IsValid tables.now }
    requires kept { KeepsPairs tables.now kept.now }
    requires resolution { ¬ (FindsNoResolution tables.now
        (Vote resolution login.now ranks.now token.now)) }
    requires stage { ¬ (FindsWrongStage tables.now
        (Vote resolution login.now ranks.now token.now)) }
    ensures act { IfOk result (λ finding. act_in finding
        ≡ Vote resolution login.now ranks.now token.now) }
    ensures found { (at : ℕ) → IfOk result (IsFoundOn tables.now at) }
    ensures good { OnOk result
        (¬ (HasBadRanks tables.now (Vote resolution login.now ranks.now token.now))) }
    ensures bad { OnErr result
        (HasBadRanks tables.now (Vote resolution login.now ranks.now token.now)) }
{
    let ranks = ranks_of(tables, kept, resolution, ranks)?;
    Ok(Finding::Vote(cases::Vote {
        resolution,
        login,
        ranks,
        token,
        earlier: tables.ballots().get(resolution, login),
    }))
}

/// Of the end of the vote on the resolution, on which votes are taken.
fn close_found(tables: &Tables, number: u32) -> Finding<'_>
    requires { IsSomeAnd (finite.get tables.now.resolutions number)
        (λ row. IsTrue (is_voting row)) }
    ensures act { act_in result ≡ Close number }
    ensures found { (at : ℕ) → IsFoundOn tables.now at result }
{
    let (discussion, poll) = poll_held_on(tables, number);
    Finding::Close(cases::Close {
        number,
        discussion,
        poll,
    })
}

/// Of the casting vote on the resolution, which is closed.
fn cast_found(tables: &Tables, number: u32, place: u32) -> Finding<'_>
    requires { IsSomeAnd (finite.get tables.now.resolutions number)
        (λ row. IsTrue (is_closed row)) }
    ensures act { act_in result ≡ Cast number place }
    ensures found { (at : ℕ) → IsFoundOn tables.now at result }
{
    let (discussion, poll) = poll_over_on(tables, number);
    Finding::Cast(cases::Cast {
        number,
        discussion,
        poll,
        place,
    })
}

/// The choice with this key, which there is.
fn choice_with(tables: &Tables, key: ChoiceKey) -> &Choice
    requires { ¬ (finite.get tables.now.choices key ≡ None) }
    ensures { finite.get tables.now.choices key ≡ Some (choice_model result.now) }
{
    tables.choices().get(key).unwrap()
}

/// The resolution with this number, which there is.
fn resolution_with(tables: &Tables, number: u32) -> Resolution
    requires { ¬ (finite.get tables.now.resolutions number ≡ None) }
    ensures { finite.get tables.now.resolutions number ≡ Some result }
{
    tables.resolutions().get(number).unwrap()
}

/// The discussion of the resolution with this number, which is under discussion.
fn discussion_on(tables: &Tables, number: u32) -> Discussion
    requires { IsSomeAnd (finite.get tables.now.resolutions number)
        (λ row. IsTrue (is_discussing row)) }
    ensures { finite.get tables.now.resolutions number ≡ Some (Discussing result) }
{
    match tables.resolutions().get(number) {
        Some(Resolution::Discussing(discussion)) => discussion,
        _ => unreachable!(),
    }
}

/// The discussion that was and the poll that is held on the resolution with this number.
fn poll_held_on(tables: &Tables, number: u32) -> (Discussion, Poll)
    requires { IsSomeAnd (finite.get tables.now.resolutions number)
        (λ row. IsTrue (is_voting row)) }
    ensures { finite.get tables.now.resolutions number ≡ Some (Voting result.0 result.1) }
{
    match tables.resolutions().get(number) {
        Some(Resolution::Voting(discussion, poll)) => (discussion, poll),
        _ => unreachable!(),
    }
}

/// The discussion and the poll that were on the resolution with this number, which is closed.
fn poll_over_on(tables: &Tables, number: u32) -> (Discussion, Poll)
    requires { IsSomeAnd (finite.get tables.now.resolutions number)
        (λ row. IsTrue (is_closed row)) }
    ensures { (chosen : Option ℕ)
        × (finite.get tables.now.resolutions number ≡ Some (Closed result.0 result.1 chosen)) }
{
    match tables.resolutions().get(number) {
        Some(Resolution::Closed(discussion, poll, _)) => (discussion, poll),
        _ => unreachable!(),
    }
}
