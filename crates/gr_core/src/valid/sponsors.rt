//! The rule of a valid desk that speaks of sponsors.
ghost use Rattle.std.specs.Prelude.{◌↔◌, IsTrue, IsSomeAnd, option_map, string_bytes};
ghost use Rattle.std.specs.FinMap as finite;
ghost use Rattle.gr_core.specs.declared.choice.ChoiceKey.{ChoiceKey};
ghost use Rattle.gr_core.specs.Parts.Choice.{choice_model};
ghost use Rattle.gr_core.specs.Desks.Rules.{HoldsOfEach};
ghost use Rattle.gr_core.specs.Desks.Valid.{IsSponsorship, EachSponsor};

use crate::choice::{Choice, ChoiceKey};
use crate::roll::Roll;
use crate::sponsor::Sponsorship;
use crate::tables::Tables;
use std::collections::BTreeMap;

/// Whether each sponsor has its choice, and is one that this may have.
pub(super) fn are_sponsors(tables: &Tables) -> bool
    ensures { IsTrue result ↔ EachSponsor tables.now (IsSponsorship tables.now.developers) }
{
    tables
        .sponsors()
        .by_choice()
        .iter()
        .all(|(key, sponsors)| belong(tables, *key, sponsors))
}

/// Whether each of these sponsors is one that the choice under this key may have, which is there.
fn belong(tables: &Tables, key: ChoiceKey, sponsors: &BTreeMap<String, Sponsorship>) -> bool
    ensures { IsTrue result ↔ HoldsOfEach (λ entry. IsSomeAnd (finite.get tables.now.choices key)
        (λ choice. IsSponsorship tables.now.developers choice (string_bytes entry.0) entry.1))
        sponsors.now }
{
    let choice = tables.choices().get(key);
    sponsors.iter().all(|(login, sponsorship)| {
        is_sponsor_of(tables.roll(), choice, login, *sponsorship)
    })
}

/// Whether the choice is there, and may have this sponsor with this roll.
fn is_sponsor_of(
    roll: &Roll,
    choice: Option<&Choice>,
    login: &String,
    sponsorship: Sponsorship,
) -> bool
    ensures { IsTrue result
        ↔ IsSomeAnd (option_map (λ choice. choice_model choice.now) choice.entry)
        (λ choice. IsSponsorship roll.now choice (string_bytes login.now) sponsorship) }
{
    match choice {
        Some(choice) => {
            roll.contains(login.as_str())
                && !(sponsorship.is_active() && choice.is_proposed_by(login.as_str()))
        }
        None => false,
    }
}
