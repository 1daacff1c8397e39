//! What the commands put that give a choice sponsors or a proposer, and take them from it. The row
//! of a choice is made once, with what the command changes and what the bookkeeping does.
ghost use Rattle.std.specs.Prelude.{◌≡◌, Some, IfOk, map, option_map, option_to_list};
ghost use Rattle.std.specs.FinMap as finite;
ghost use Rattle.gr_core.specs.declared.counting.Counting.TheVariants.{Nothing};
ghost use Rattle.gr_core.specs.declared.reply.Note.TheVariants.{Done};
ghost use Rattle.gr_core.specs.declared.sponsor.Sponsorship.TheVariants.{Withdrawn};
ghost use Rattle.gr_core.specs.Parts.Choice.{proposer_of, login_of_proposer};
ghost use Rattle.gr_core.specs.Parts.Sponsor.{sponsor_count};
ghost use Rattle.gr_core.specs.Machine.Act.{Sponsor, Unsponsor, Withdraw, Adopt};
ghost use Rattle.gr_core.specs.Machine.Finding.{HasChoice};
ghost use Rattle.gr_core.specs.Machine.Row.{SponsorOf, row_of};
ghost use Rattle.gr_core.specs.Machine.Effect.{without_sponsor, sponsors_put, puts_by};

use crate::change::Change;
use crate::choice::{ChoiceKey, Proposer};
use crate::finding::cases;
use crate::memory::Memory;
use crate::plan::Effect;
use crate::plan::rows::{becomes_short_with, entered_row, gain_with, gained_row, sponsorship_of};
use crate::reply::Note;
use crate::sponsor::Sponsorship;
use crate::tables::Tables;
use std::alloc::Global;

/// The login as an active sponsor of the choice, and what the choice gains by that.
pub(crate) fn sponsor(
    alloc: Global,
    tables: &Tables,
    at: u64,
    found: &cases::Sponsor<'_>,
) -> Result<Effect, Memory>
    requires choice { HasChoice tables.now found.now.key found.now.choice.now }
    requires resolution { finite.get tables.now.resolutions found.now.key.resolution
        ≡ Some found.now.resolution }
    ensures rows { IfOk result (λ own. map row_of own.changes.items
        ≡ puts_by tables.now at (Sponsor found.now.key found.now.login.now)) }
    ensures note { IfOk result (λ own. own.note ≡ Done) }
    ensures counts { IfOk result (λ own. own.counting ≡ Nothing) }
{
    let (key, login) = (found.key, found.login);
    let gain = gain_with(
        tables,
        found.choice,
        tables.sponsors().count_with(key, login),
    );
    let resolution = entered_row(key.resolution, found.resolution, gain, at);
    let choice = gained_row(alloc, key, found.choice, gain, at)?;
    let sponsor = sponsorship_of(alloc, key, login, Sponsorship::Active)?;
    Effect::rows(alloc, resolution, choice, Some(sponsor), Note::Done)
}

/// The login as a sponsor of the choice no more, and the choice, if it becomes short by that.
pub(crate) fn unsponsor(
    alloc: Global,
    tables: &Tables,
    at: u64,
    found: &cases::Unsponsor<'_>,
) -> Result<Effect, Memory>
    requires { HasChoice tables.now found.now.key found.now.choice.now }
    ensures rows { IfOk result (λ own. map row_of own.changes.items
        ≡ puts_by tables.now at (Unsponsor found.now.key found.now.login.now)) }
    ensures note { IfOk result (λ own. own.note ≡ Done) }
    ensures counts { IfOk result (λ own. own.counting ≡ Nothing) }
{
    let (key, login) = (found.key, found.login);
    let sponsors = tables.sponsors().count_without(key, login);
    let choice = if becomes_short_with(tables, found.choice, sponsors) {
        let choice = found.choice.copied(alloc)?.shortened(at);
        Some(Change::Choice { key, choice })
    } else {
        None
    };
    let sponsor = sponsorship_of(alloc, key, login, Sponsorship::Withdrawn)?;
    Effect::rows(alloc, None, choice, Some(sponsor), Note::Done)
}

/// The choice without a proposer, and short, if it becomes so by that.
pub(crate) fn withdraw(
    alloc: Global,
    tables: &Tables,
    at: u64,
    found: &cases::Withdraw<'_>,
) -> Result<Effect, Memory>
    requires { HasChoice tables.now found.now.key found.now.choice.now }
    ensures rows { IfOk result (λ own. map row_of own.changes.items
        ≡ puts_by tables.now at (Withdraw found.now.key)) }
    ensures note { IfOk result (λ own. own.note ≡ Done) }
    ensures counts { IfOk result (λ own. own.counting ≡ Nothing) }
{
    let key = found.key;
    let choice = found.choice.copied(alloc)?.proposed_by(None);
    let sponsors = tables.sponsors().active_count(key);
    let choice = if becomes_short_with(tables, &choice, sponsors) {
        choice.shortened(at)
    } else {
        choice
    };
    Effect::rows(
        alloc,
        None,
        Some(Change::Choice { key, choice }),
        None,
        Note::Done,
    )
}

/// The choice with its new proposer, who is an active sponsor of it no more, and what the choice
/// gains by that.
pub(crate) fn adopt(
    alloc: Global,
    tables: &Tables,
    at: u64,
    found: &cases::Adopt<'_>,
) -> Result<Effect, Memory>
    requires choice { HasChoice tables.now found.now.key found.now.choice.now }
    requires resolution { finite.get tables.now.resolutions found.now.key.resolution
        ≡ Some found.now.resolution }
    ensures rows { IfOk result (λ own. map row_of own.changes.items
        ≡ puts_by tables.now at (Adopt found.now.key (proposer_of found.now.proposer.now))) }
    ensures note { IfOk result (λ own. own.note ≡ Done) }
    ensures counts { IfOk result (λ own. own.counting ≡ Nothing) }
{
    let (key, proposer) = (found.key, found.proposer);
    let sponsor = ended_sponsorship(alloc, tables, key, proposer)?;
    let proposed = proposer.copied(alloc)?;
    let choice = found.choice.copied(alloc)?.proposed_by(Some(proposed));
    let gain = gain_with(tables, &choice, sponsors_beside(tables, key, proposer));
    let resolution = entered_row(key.resolution, found.resolution, gain, at);
    let choice = Some(Change::Choice {
        key,
        choice: choice.gained(gain, at),
    });
    Effect::rows(alloc, resolution, choice, sponsor, Note::Done)
}

/// How many active sponsors the choice has beside its new proposer.
fn sponsors_beside(tables: &Tables, key: ChoiceKey, proposer: &Proposer) -> usize
    ensures { result ≡ sponsor_count
        (without_sponsor tables.now.sponsors key
        (login_of_proposer (proposer_of proposer.now))) key }
{
    match proposer.login() {
        Some(login) => tables.sponsors().count_without(key, login),
        None => tables.sponsors().active_count(key),
    }
}

/// The row of the new proposer as a sponsor no more, if that was an active one of the choice.
fn ended_sponsorship(
    alloc: Global,
    tables: &Tables,
    key: ChoiceKey,
    proposer: &Proposer,
) -> Result<Option<Change>, Memory>
    ensures { IfOk result (λ change. option_to_list (option_map row_of change)
        ≡ map (λ choice. SponsorOf choice Withdrawn)
        (sponsors_put tables.now (Adopt key (proposer_of proposer.now)))) }
{
    match proposer.login() {
        Some(login) if tables.sponsors().has(key, login) => Ok(Some(sponsorship_of(
            alloc,
            key,
            login,
            Sponsorship::Withdrawn,
        )?)),
        _ => Ok(None),
    }
}
