//! The tests of a command that speak of votes and of what they decide.
ghost use Rattle.std.specs.Prelude.{◌≡◌, ◌↔◌, ℕ, IsTrue, option_map};
ghost use Rattle.gr_core.specs.Parts.Resolution.{end_of_voting};
ghost use Rattle.gr_core.specs.Machine.Act.{act_of, poll_held_at};
ghost use Rattle.gr_core.specs.Desks.Valid.{IsValid};
ghost use Rattle.gr_core.specs.InMemory.KeptPairs.{KeepsPairs};
ghost use Rattle.gr_core.specs.Machine.Finding.{act_in, IsFoundOn};
ghost use Rattle.gr_core.specs.Machine.Refusal.{HasBadToken, FindsNoPlace, VotingHasEnded, IsClosedTooEarly, IsDecidedAlready, ChoosesWithoutATie};

use super::resolution_at;
use crate::command::Command;
use crate::election::{cannot_be_chosen, has_place};
use crate::finding::Finding;
use crate::kept_pairs::KeptPairs;
use crate::moment::is_over;
use crate::resolution::Poll;
use crate::tables::Tables;
use crate::token::is_token;

/// Whether the token of the command breaks its rule.
pub(super) fn has_bad_token(command: &Command) -> bool
    ensures { IsTrue result ↔ HasBadToken (act_of command.now) }
{
    command.token().is_some_and(|token| !is_token(token))
}

/// The poll that is held on the resolution that the command names.
fn poll_held_at(tables: &Tables, command: &Command) -> Option<Poll>
    ensures { result ≡ poll_held_at tables.now (act_of command.now) }
{
    resolution_at(tables, command)?.present_poll()
}

/// When the time for votes ends in the poll that is held on the resolution that the command names.
fn end_of_voting_at(tables: &Tables, command: &Command) -> Option<u64>
    requires { IsValid tables.now }
    ensures { result
        ≡ option_map end_of_voting (poll_held_at tables.now (act_of command.now)) }
{
    let poll = poll_held_at(tables, command)?;
    Some(poll.end_of_voting())
}

/// Whether the casting vote names a place that the ballot of the closed resolution does not have.
pub(super) fn finds_no_place(tables: &Tables, command: &Command) -> bool
    ensures { IsTrue result ↔ FindsNoPlace tables.now (act_of command.now) }
{
    match command {
        Command::Cast { resolution, place } => {
            let (number, place) = (*resolution, *place);
            tables.resolutions().get(number).is_some_and(|resolution| {
                resolution.is_closed() && !has_place(tables, number, place)
            })
        }
        _ => false,
    }
}

/// Whether the time is over for the ballot that the command brings.
pub(super) fn voting_has_ended(tables: &Tables, at: u64, command: &Command) -> bool
    requires { IsValid tables.now }
    ensures { IsTrue result ↔ VotingHasEnded tables.now at (act_of command.now) }
{
    matches!(command, Command::Vote { .. })
        && end_of_voting_at(tables, command).is_some_and(|end| is_over(end, at))
}

/// Whether a vote is closed before its time is over.
pub(super) fn is_closed_too_early(tables: &Tables, at: u64, command: &Command) -> bool
    requires { IsValid tables.now }
    ensures { IsTrue result ↔ IsClosedTooEarly tables.now at (act_of command.now) }
{
    matches!(command, Command::Close { .. })
        && end_of_voting_at(tables, command).is_some_and(|end| !is_over(end, at))
}

/// Whether the casting vote on the resolution was used already.
pub(super) fn is_decided_already(tables: &Tables, command: &Command) -> bool
    ensures { IsTrue result ↔ IsDecidedAlready tables.now (act_of command.now) }
{
    matches!(command, Command::Cast { .. })
        && resolution_at(tables, command).is_some_and(|resolution| resolution.chosen().is_some())
}

/// Whether what was found is a casting vote that cannot choose its place on the ballot of the
/// closed resolution.
pub(super) fn chooses_without_a_tie(
    tables: &Tables,
    kept: &KeptPairs,
    finding: &Finding<'_>,
) -> bool
    requires valid { IsValid tables.now }
    requires kept { KeepsPairs tables.now kept.now }
    requires found { (at : ℕ) × IsFoundOn tables.now at finding.now }
    ensures { IsTrue result ↔ ChoosesWithoutATie tables.now (act_in finding.now) }
{
    match finding {
        Finding::Cast(cast) => {
            cannot_be_chosen(tables, kept, cast.number, cast.poll, cast.place)
        }
        _ => false,
    }
}
