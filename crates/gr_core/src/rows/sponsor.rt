//! Rows of the table `sponsor`.
ghost use Rattle.std.specs.Prelude.{◌≡◌, ◌≢◌, pos, List, ℕ, IfOk, IsErr, string_bytes};
ghost use Rattle.gr_core.specs.declared.choice.ChoiceKey.{ChoiceKey};
ghost use Rattle.gr_core.specs.declared.sponsor.Sponsorship.{Sponsorship};
ghost use Rattle.gr_core.specs.Columns.Fields.{sponsorship_code, sponsor_fields, FitsKey};
ghost use Rattle.gr_core.specs.Columns.Stored.{fields_of_sponsor};

use super::SponsorRow;
use super::number::read_small;
use crate::choice::ChoiceKey;
use crate::memory::Memory;
use crate::sponsor::Sponsorship;
use crate::unfit::Damaged;
use std::alloc::Global;

/// The number of a column for a sponsorship.
fn code(sponsorship: Sponsorship) -> i64
    ensures { result ≡ pos (sponsorship_code sponsorship) }
{
    match sponsorship {
        Sponsorship::Withdrawn => 0,
        Sponsorship::Active => 1,
    }
}

/// The sponsorship that the number of a column says.
fn sponsorship(code: i64) -> Result<Sponsorship, Damaged>
    ensures ok { IfOk result (λ sponsorship. code ≡ pos (sponsorship_code sponsorship)) }
    ensures err { IsErr result → (sponsorship : Sponsorship)
        → code ≢ pos (sponsorship_code sponsorship) }
{
    match code {
        0 => Ok(Sponsorship::Withdrawn),
        1 => Ok(Sponsorship::Active),
        _ => Err(Damaged),
    }
}

impl SponsorRow {
    /// The row of the sponsor of this choice with this login, with a text of its own. [`Memory`]:
    /// out of memory for it.
    pub fn of(
        alloc: Global,
        choice: ChoiceKey,
        login: &str,
        sponsorship: Sponsorship,
    ) -> Result<SponsorRow, Memory>
        ensures { IfOk result (λ row. fields_of_sponsor row
            ≡ sponsor_fields ((choice, login.now), sponsorship)) }
    {
        Ok(SponsorRow {
            resolution: i64::from(choice.resolution),
            choice: i64::from(choice.number),
            login: String::from_str(alloc, login)?,
            active: code(sponsorship),
        })
    }

    /// The choice, the login and the sponsorship that the row says.
    pub(crate) fn sponsor(self) -> Result<(ChoiceKey, String, Sponsorship), Damaged>
        ensures ok { IfOk result (λ entry.
            (sponsor_fields ((entry.0, string_bytes entry.1), entry.2) ≡ fields_of_sponsor self)
            × FitsKey entry.0) }
        ensures err { IsErr result → (choice : ChoiceKey) (login : List ℕ)
            (sponsorship : Sponsorship) → FitsKey choice
            → sponsor_fields ((choice, login), sponsorship) ≢ fields_of_sponsor self }
    {
        let SponsorRow {
            resolution,
            choice,
            login,
            active,
        } = self;
        let choice = ChoiceKey {
            resolution: read_small(resolution)?,
            number: read_small(choice)?,
        };
        Ok((choice, login, sponsorship(active)?))
    }
}
