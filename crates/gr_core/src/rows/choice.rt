//! Rows of the table `choice`.
ghost use Rattle.std.specs.Prelude.{◌≡◌, ◌≢◌, pos, Option, IfOk, IsErr, Err, option_map, string_bytes};
ghost use Rattle.gr_core.specs.declared.choice.ChoiceKey.{ChoiceKey};
ghost use Rattle.gr_core.specs.Parts.Choice.{proposer_of, choice_model};
ghost use Rattle.gr_core.specs.Parts.Choice as kept;
ghost use Rattle.gr_core.specs.InMemory.Tables.{choice_entry};
ghost use Rattle.gr_core.specs.Columns.Fields.{kind_code, proposer_text, choice_fields, FitsChoice};
ghost use Rattle.gr_core.specs.Columns.Stored.{fields_of_choice};

use super::number::{moment, place, read_moment, read_place, read_small};
use super::{ChoiceRow, NoRow};
use crate::choice::{Choice, ChoiceKey, Proposer, Wording};
use crate::unfit::Damaged;
use std::alloc::Global;

/// The numbers of the column `kind`.
const NOBODY: i64 = 0;

const DEVELOPER: i64 = 1;

const LEADER: i64 = 2;

const COMMITTEE: i64 = 3;

/// The number of the column `kind` for a proposer.
fn kind(proposer: &Option<Proposer>) -> i64
    ensures { result ≡ pos (kind_code (option_map proposer_of proposer.now)) }
{
    match proposer {
        None => NOBODY,
        Some(Proposer::Developer(_)) => DEVELOPER,
        Some(Proposer::Leader) => LEADER,
        Some(Proposer::Committee) => COMMITTEE,
    }
}

/// The text of the column `proposer`.
fn login(proposer: &Option<Proposer>) -> &str
    ensures { result.now ≡ proposer_text (option_map proposer_of proposer.now) }
{
    match proposer {
        Some(proposer) => proposer.login().unwrap_or(""),
        None => "",
    }
}

/// The proposer that the columns `kind` and `proposer` say.
fn proposer(kind: i64, login: String) -> Result<Option<Proposer>, Damaged>
    ensures kind { IfOk result (λ proposer.
        kind ≡ pos (kind_code (option_map proposer_of proposer))) }
    ensures login { IfOk result (λ proposer. string_bytes login
        ≡ proposer_text (option_map proposer_of proposer)) }
    ensures err { IsErr result → (proposer : Option kept.Proposer) → kind ≡ pos (kind_code proposer)
        → string_bytes login ≢ proposer_text proposer }
{
    match kind {
        DEVELOPER => Ok(Some(Proposer::Developer(login))),
        _ if !login.is_empty() => Err(Damaged),
        NOBODY => Ok(None),
        LEADER => Ok(Some(Proposer::Leader)),
        COMMITTEE => Ok(Some(Proposer::Committee)),
        _ => Err(Damaged),
    }
}

impl ChoiceRow {
    /// The row of the choice under this key, with texts of its own.
    ///
    /// [`NoRow::TooGreat`]: a moment is too great for a column. [`NoRow::Memory`]: the memory for
    /// the texts was refused.
    pub fn of(alloc: Global, key: ChoiceKey, choice: &Choice) -> Result<ChoiceRow, NoRow>
        ensures ok { IfOk result (λ row. fields_of_choice row
            ≡ choice_fields (key, choice_model choice.now)) }
        ensures great { result ≡ Err NoRow.TooGreat → ¬ (FitsChoice key (choice_model choice.now)) }
    {
        let introduced = moment(choice.introduced)?;
        let short = moment(choice.short)?;
        Ok(ChoiceRow {
            resolution: i64::from(key.resolution),
            number: i64::from(key.number),
            kind: kind(&choice.proposer),
            proposer: String::from_str(alloc, login(&choice.proposer))?,
            summary: String::from_str(alloc, choice.wording.summary.as_str())?,
            body: String::from_str(alloc, choice.wording.text.as_str())?,
            ratio: i64::from(choice.ratio),
            introduced,
            short,
            place: place(choice.place),
        })
    }

    /// The key and the choice that the row says.
    pub(crate) fn choice(self) -> Result<(ChoiceKey, Choice), Damaged>
        ensures ok { IfOk result (λ entry.
            (choice_fields (choice_entry entry) ≡ fields_of_choice self)
            × FitsChoice entry.0 (choice_model entry.1)) }
        ensures err { IsErr result → (key : ChoiceKey) (row : kept.ChoiceModel) → FitsChoice key row
            → choice_fields (key, row) ≢ fields_of_choice self }
    {
        let ChoiceRow {
            resolution,
            number,
            kind,
            proposer: login,
            summary,
            body: text,
            ratio,
            introduced,
            short,
            place,
        } = self;
        let key = ChoiceKey {
            resolution: read_small(resolution)?,
            number: read_small(number)?,
        };
        let choice = Choice {
            proposer: proposer(kind, login)?,
            wording: Wording { summary, text },
            ratio: read_small(ratio)?,
            introduced: read_moment(introduced)?,
            short: read_moment(short)?,
            place: read_place(place)?,
        };
        Ok((key, choice))
    }
}
