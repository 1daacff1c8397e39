//! What the commands put that vary a discussion and call for the vote after it.
ghost use Rattle.std.specs.Prelude.{◌≡◌, ℕ, ◌≤◌, ◌++◌, Some, length, IfOk, OnOk, map};
ghost use Rattle.std.specs.FinMap as finite;
ghost use Rattle.gr_core.specs.declared.limits.TheConstants.{MAX_MOMENT, MAX_CHOICES};
ghost use Rattle.gr_core.specs.declared.resolution.Resolution.TheVariants.{Discussing};
ghost use Rattle.gr_core.specs.declared.counting.Counting.TheVariants.{Nothing};
ghost use Rattle.gr_core.specs.declared.reply.Note.TheVariants.{Done};
ghost use Rattle.gr_core.specs.Parts.Choice.{choices_of};
ghost use Rattle.gr_core.specs.Parts.Discussion.{IsPeriod};
ghost use Rattle.gr_count.specs.declared.limits.TheConstants.{MAX_DEVELOPERS};
ghost use Rattle.gr_core.specs.Parts.Developer.{current_count};
ghost use Rattle.gr_core.specs.Desks.State.{State};
ghost use Rattle.gr_core.specs.Machine.Act.{Vary, Call};
ghost use Rattle.gr_core.specs.Machine.Row.{choice_of_entry, row_of};
ghost use Rattle.gr_core.specs.Machine.Effect.{live_choices, placed, puts_by, note_of};
ghost use Rattle.gr_core.specs.Machine.Counting.{Counts};

use crate::change::Change;
use crate::choices::Choices;
use crate::counting::Counting;
use crate::discussion::Discussion;
use crate::finding::cases;
use crate::memory::Memory;
use crate::plan::Effect;
use crate::reply::Note;
use crate::resolution::{Poll, Resolution};
use crate::tables::Tables;
use std::alloc::Global;

/// The resolution with its discussion varied by these days (Constitution, A.1.6).
pub(crate) fn vary(alloc: Global, found: &cases::Vary) -> Result<Effect, Memory>
    ensures rows { (s : State) (at : ℕ)
        → finite.get s.resolutions found.now.number ≡ Some (Discussing found.now.discussion)
        → IfOk result (λ own. map row_of own.changes.items
        ≡ puts_by s at (Vary found.now.number found.now.days)) }
    ensures note { IfOk result (λ own. own.note ≡ Done) }
    ensures counts { IfOk result (λ own. own.counting ≡ Nothing) }
{
    let varied = Discussion {
        shift: found.days,
        ..found.discussion
    };
    Effect::altered(alloc, found.number, Resolution::Discussing(varied))
}

/// The resolution with its vote called for, and its live choices with their places; or the
/// resolution, cancelled, where no choice is live.
pub(crate) fn call(
    alloc: Global,
    tables: &Tables,
    at: u64,
    found: &cases::Call,
) -> Result<Effect, Memory>
    requires moment { at ≤ MAX_MOMENT }
    requires days { IsPeriod found.now.days }
    requires discussion { finite.get tables.now.resolutions found.now.number
        ≡ Some (Discussing found.now.discussion) }
    requires live { found.now.live
        ≡ length (live_choices tables.now.choices at found.now.number) }
    requires choices { length (choices_of tables.now.choices found.now.number) ≤ MAX_CHOICES }
    requires developers { current_count tables.now.developers ≤ MAX_DEVELOPERS }
    ensures rows { IfOk result (λ own. map row_of own.changes.items
        ≡ puts_by tables.now at (Call found.now.number found.now.days)) }
    ensures note { IfOk result (λ own. own.note
        ≡ note_of tables.now at (Call found.now.number found.now.days)) }
    ensures counts { IfOk result (λ own.
        Counts tables.now at (Call found.now.number found.now.days) own.counting) }
{
    let number = found.number;
    if found.live == 0 {
        let resolution = Resolution::Cancelled(found.discussion);
        let row = Some(Change::Resolution { number, resolution });
        return Effect::rows(alloc, row, None, None, Note::Cancelled);
    }
    let poll = Poll {
        called: at,
        days: found.days.unsigned_abs(),
        developers: tables.roll().current_count() as u32,
    };
    let resolution = Resolution::Voting(found.discussion, poll);
    let mut changes = Vec::new(alloc);
    changes.push(Change::Resolution { number, resolution })?;
    add_places(alloc, &mut changes, tables.choices(), number, at)?;
    Ok(Effect {
        changes,
        note: Note::Called {
            places: found.live + 1,
            until: poll.end_of_voting(),
        },
        counting: Counting::Begins { resolution: number },
    })
}

/// Adds the rows of the live choices of the resolution, with their places from 1 on.
fn add_places(
    alloc: Global,
    changes: &mut Vec<Change>,
    choices: &Choices,
    resolution: u32,
    at: u64,
) -> Result<(), Memory>
    requires { length (choices_of choices.now resolution) ≤ MAX_CHOICES }
    ensures { OnOk result (map row_of changes.new.items ≡ map row_of changes.old.items
        ++ map choice_of_entry (placed 1 (live_choices choices.now at resolution))) }
{
    let mut place = 0;
    for (key, choice) in choices.of_resolution(resolution) {
        if choice.is_live(at) {
            place += 1;
            let choice = choice.copied(alloc)?.placed(place);
            changes.push(Change::Choice { key: *key, choice })?;
        }
    }
    Ok(())
}
