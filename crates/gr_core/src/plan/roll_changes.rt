//! What the commands that change the roll put themselves.
ghost use Rattle.std.specs.Prelude.{◌≡◌, [], ◌∷◌, IfOk, map};
ghost use Rattle.gr_core.specs.declared.counting.Counting.TheVariants.{Nothing};
ghost use Rattle.gr_core.specs.declared.reply.Note.TheVariants.{Done};
ghost use Rattle.gr_core.specs.Machine.Row.{DeveloperOf, row_of};
ghost use Rattle.gr_core.specs.Machine.Import.{roll_row, row_count, counts_of, news_of};
ghost use Rattle.gr_core.specs.Machine.Effect.{imported_row};

use crate::change::Change;
use crate::counting::Counting;
use crate::developer::Developer;
use crate::finding::cases;
use crate::import::{Novelty, RollRow};
use crate::memory::Memory;
use crate::plan::Effect;
use crate::reply::{Imported, Note};
use crate::roll::Roll;
use std::alloc::Global;

/// The login's row with this name and standing.
pub(crate) fn set_developer(
    alloc: Global,
    found: &cases::SetDeveloper<'_>,
) -> Result<Effect, Memory>
    ensures rows { IfOk result (λ own. map row_of own.changes.items
        ≡ DeveloperOf found.now.login.now
        (record { name = found.now.name.now; standing = found.now.standing }) ∷ []) }
    ensures note { IfOk result (λ own. own.note ≡ Done) }
    ensures counts { IfOk result (λ own. own.counting ≡ Nothing) }
{
    let developer = Developer {
        name: String::from_str(alloc, found.name)?,
        standing: found.standing,
    };
    let login = String::from_str(alloc, found.login)?;
    let mut changes = Vec::new(alloc);
    changes.push(Change::Developer { login, developer })?;
    Ok(Effect {
        changes,
        note: Note::Done,
        counting: Counting::Nothing,
    })
}

/// The rows that the roll does not have yet, in their order.
pub(crate) fn import_roll(alloc: Global, roll: &Roll, rows: &[RollRow]) -> Result<Effect, Memory>
    ensures rows { IfOk result (λ own. map row_of own.changes.items
        ≡ map imported_row (news_of roll.now (map roll_row rows.now))) }
    ensures note { IfOk result (λ own. own.note
        ≡ Note.Roll (counts_of roll.now (map roll_row rows.now))) }
    ensures counts { IfOk result (λ own. own.counting ≡ Nothing) }
{
    let mut changes = Vec::new(alloc);
    for row in rows {
        if row.novelty(roll) != Novelty::Same {
            changes.push(imported(alloc, row)?)?;
        }
    }
    Ok(Effect {
        changes,
        note: Note::Roll(counts(roll, rows)),
        counting: Counting::Nothing,
    })
}

/// The row of the roll that a row of an import puts.
fn imported(alloc: Global, row: &RollRow) -> Result<Change, Memory>
    ensures { IfOk result (λ change. row_of change ≡ imported_row (roll_row row.now)) }
{
    let developer = Developer {
        name: String::from_str(alloc, row.name.as_str())?,
        standing: row.standing(),
    };
    let login = String::from_str(alloc, row.login.as_str())?;
    Ok(Change::Developer { login, developer })
}

/// How many of the rows do what to the roll.
fn counts(roll: &Roll, rows: &[RollRow]) -> Imported
    ensures { result ≡ counts_of roll.now (map roll_row rows.now) }
{
    Imported {
        added: count(roll, rows, Novelty::Added),
        changed: count(roll, rows, Novelty::Changed),
        same: count(roll, rows, Novelty::Same),
    }
}

/// How many of the rows do this to the roll.
fn count(roll: &Roll, rows: &[RollRow], kind: Novelty) -> usize
    ensures { result ≡ row_count roll.now (map roll_row rows.now) kind }
{
    rows.iter().filter(|row| row.novelty(roll) == kind).count()
}
