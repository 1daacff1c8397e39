//! What the commands put that make choices and amend them.
ghost use Rattle.std.specs.Prelude.{◌≡◌, ◌<◌, Some, IfOk, map, length};
ghost use Rattle.std.specs.FinMap as finite;
ghost use Rattle.gr_core.specs.declared.limits.TheConstants.{MAX_RESOLUTIONS, MAX_CHOICES};
ghost use Rattle.gr_core.specs.Parts.Choice.{proposer_of, wording_of, choices_of};
ghost use Rattle.gr_core.specs.declared.counting.Counting.TheVariants.{Nothing};
ghost use Rattle.gr_core.specs.declared.reply.Note.TheVariants.{Done};
ghost use Rattle.gr_core.specs.Desks.State.{State};
ghost use Rattle.gr_core.specs.Machine.Act.{Propose, AddChoice, Amend};
ghost use Rattle.gr_core.specs.Machine.Finding.{HasChoice};
ghost use Rattle.gr_core.specs.Machine.Row.{row_of};
ghost use Rattle.gr_core.specs.Machine.Effect.{puts_by, note_of};

use crate::bookkeeping::Gain;
use crate::change::Change;
use crate::choice::{Choice, ChoiceKey};
use crate::command::Amendment;
use crate::finding::cases;
use crate::memory::Memory;
use crate::plan::Effect;
use crate::plan::rows::{changed_row, entered_row, gain_with};
use crate::reply::Note;
use crate::resolution::Resolution;
use crate::tables::Tables;
use std::alloc::Global;

/// A new resolution with its first choice.
pub(crate) fn propose(
    alloc: Global,
    tables: &Tables,
    at: u64,
    found: &cases::Propose<'_>,
) -> Result<Effect, Memory>
    requires { finite.len tables.now.resolutions < MAX_RESOLUTIONS }
    ensures rows { IfOk result (λ own. map row_of own.changes.items
        ≡ puts_by tables.now at (Propose
        (proposer_of found.now.proposer.now) (wording_of found.now.wording.now) found.now.ratio)) }
    ensures note { IfOk result (λ own. own.note
        ≡ note_of tables.now at (Propose
        (proposer_of found.now.proposer.now) (wording_of found.now.wording.now) found.now.ratio)) }
    ensures counts { IfOk result (λ own. own.counting ≡ Nothing) }
{
    let number = tables.resolutions().len() as u32 + 1;
    let key = ChoiceKey {
        resolution: number,
        number: 1,
    };
    let choice = Choice::new(alloc, found.proposer, found.wording, found.ratio)?;
    let gain = gain_with(tables, &choice, tables.sponsors().active_count(key));
    let resolution = if gain == Gain::Introduction {
        Resolution::Draft.entered(at)
    } else {
        Resolution::Draft
    };
    let choice = choice.gained(gain, at);
    Effect::rows(
        alloc,
        Some(Change::Resolution { number, resolution }),
        Some(Change::Choice { key, choice }),
        None,
        Note::Resolution(number),
    )
}

/// A new choice of the resolution.
pub(crate) fn add_choice(
    alloc: Global,
    tables: &Tables,
    at: u64,
    found: &cases::AddChoice<'_>,
) -> Result<Effect, Memory>
    requires resolution { finite.get tables.now.resolutions found.now.number
        ≡ Some found.now.resolution }
    requires room { length (choices_of tables.now.choices found.now.number) < MAX_CHOICES }
    ensures rows { IfOk result (λ own. map row_of own.changes.items
        ≡ puts_by tables.now at (AddChoice found.now.number
        (proposer_of found.now.proposer.now) (wording_of found.now.wording.now) found.now.ratio)) }
    ensures note { IfOk result (λ own. own.note
        ≡ note_of tables.now at (AddChoice found.now.number
        (proposer_of found.now.proposer.now) (wording_of found.now.wording.now) found.now.ratio)) }
    ensures counts { IfOk result (λ own. own.counting ≡ Nothing) }
{
    let key = ChoiceKey {
        resolution: found.number,
        number: tables.choices().len_of(found.number) as u32 + 1,
    };
    let choice = Choice::new(alloc, found.proposer, found.wording, found.ratio)?;
    let gain = gain_with(tables, &choice, tables.sponsors().active_count(key));
    let choice = choice.gained(gain, at);
    Effect::rows(
        alloc,
        entered_row(found.number, found.resolution, gain, at),
        Some(Change::Choice { key, choice }),
        None,
        Note::Choice(key.number),
    )
}

/// The choice with other words, and its resolution, if that changes the ballot.
pub(crate) fn amend(alloc: Global, at: u64, found: &cases::Amend<'_>) -> Result<Effect, Memory>
    ensures rows { (s : State) → HasChoice s found.now.key found.now.choice.now
        → finite.get s.resolutions found.now.key.resolution ≡ Some found.now.resolution
        → IfOk result (λ own. map row_of own.changes.items
        ≡ puts_by s at
        (Amend found.now.key found.now.amendment (wording_of found.now.wording.now))) }
    ensures note { IfOk result (λ own. own.note ≡ Done) }
    ensures counts { IfOk result (λ own. own.counting ≡ Nothing) }
{
    let key = found.key;
    let resolution = if found.amendment == Amendment::Substantial
        && found.choice.introduced.is_some()
    {
        changed_row(key.resolution, found.resolution, at)
    } else {
        None
    };
    let choice = Choice {
        wording: found.wording.copied(alloc)?,
        ..found.choice.copied(alloc)?
    };
    let choice = Some(Change::Choice { key, choice });
    Effect::rows(alloc, resolution, choice, None, Note::Done)
}
