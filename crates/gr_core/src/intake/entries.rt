//! The entries of the tables, read from rows that are taken one at a time.
ghost use Rattle.std.specs.Prelude.{◌≡◌, ◌++◌, [], ◌∷◌, List, OnOk, Err};
ghost use Rattle.gr_core.specs.Columns.Fields.{Field};
ghost use Rattle.gr_core.specs.Columns.Stored.{fields_of_developer, fields_of_resolution, fields_of_choice};
ghost use Rattle.gr_core.specs.Columns.Stored.{fields_of_sponsor, fields_of_ballot};
ghost use Rattle.gr_core.specs.Columns.Stored.{IsRollOf, AreResolutionsOf, AreChoicesOf, AreSponsorsOf, AreBallotsOf};
ghost use Rattle.gr_core.specs.Columns.Stored.{HaveNoRoll, HaveNoResolutions, HaveNoChoices, HaveNoSponsors, HaveNoBallots};

use crate::ballots::Ballots;
use crate::choices::Choices;
use crate::resolutions::Resolutions;
use crate::roll::Roll;
use crate::rows::{BallotRow, ChoiceRow, DeveloperRow, ResolutionRow, SponsorRow};
use crate::sponsors::Sponsors;
use crate::unfit::Unfit;

/// Puts the developer that the row says.
///
/// [`Unfit::Damaged`]: the row says nothing that a desk has, or its login is on the roll already,
/// whose row it takes the place of. [`Unfit::Memory`]: the memory for the developer was refused.
pub(crate) fn add_developer(roll: &mut Roll, row: DeveloperRow) -> Result<(), Unfit>
    ensures ok { (rows : List (List Field)) → IsRollOf rows roll.old
        → OnOk result (IsRollOf (rows ++ fields_of_developer row ∷ []) roll.new) }
    ensures damaged { (rows behind : List (List Field)) → IsRollOf rows roll.old
        → result ≡ Err Unfit.Damaged → HaveNoRoll (rows ++ fields_of_developer row ∷ behind) }
{
    let (login, developer) = row.developer()?;
    let earlier = roll.put(login, developer)?;
    if earlier {
        return Err(Unfit::Damaged);
    }
    Ok(())
}

/// Puts the resolution that the row says.
///
/// [`Unfit::Damaged`]: the row says nothing that a desk has, or its number is taken by a row, which
/// it takes the place of. [`Unfit::Memory`]: the memory for the resolution was refused.
pub(crate) fn add_resolution(resolutions: &mut Resolutions, row: ResolutionRow) -> Result<(), Unfit>
    ensures ok { (rows : List (List Field)) → AreResolutionsOf rows resolutions.old
        → OnOk result (AreResolutionsOf (rows ++ fields_of_resolution row ∷ []) resolutions.new) }
    ensures damaged { (rows behind : List (List Field)) → AreResolutionsOf rows resolutions.old
        → result ≡ Err Unfit.Damaged
        → HaveNoResolutions (rows ++ fields_of_resolution row ∷ behind) }
{
    let (number, resolution) = row.resolution()?;
    let earlier = resolutions.put(number, resolution)?;
    if earlier {
        return Err(Unfit::Damaged);
    }
    Ok(())
}

/// Puts the choice that the row says.
///
/// [`Unfit::Damaged`]: the row says nothing that a desk has, or its key is taken by a row, which it
/// takes the place of. [`Unfit::Memory`]: the memory for the choice was refused.
pub(crate) fn add_choice(choices: &mut Choices, row: ChoiceRow) -> Result<(), Unfit>
    ensures ok { (rows : List (List Field)) → AreChoicesOf rows choices.old
        → OnOk result (AreChoicesOf (rows ++ fields_of_choice row ∷ []) choices.new) }
    ensures damaged { (rows behind : List (List Field)) → AreChoicesOf rows choices.old
        → result ≡ Err Unfit.Damaged → HaveNoChoices (rows ++ fields_of_choice row ∷ behind) }
{
    let (key, choice) = row.choice()?;
    let earlier = choices.put(key, choice)?;
    if earlier {
        return Err(Unfit::Damaged);
    }
    Ok(())
}

/// Puts the sponsor that the row says.
///
/// [`Unfit::Damaged`]: the row says nothing that a desk has, or the developer is a sponsor of the
/// choice already, whose row it takes the place of. [`Unfit::Memory`]: the memory for the sponsor
/// was refused.
pub(crate) fn add_sponsor(sponsors: &mut Sponsors, row: SponsorRow) -> Result<(), Unfit>
    ensures ok { (rows : List (List Field)) → AreSponsorsOf rows sponsors.old
        → OnOk result (AreSponsorsOf (rows ++ fields_of_sponsor row ∷ []) sponsors.new) }
    ensures damaged { (rows behind : List (List Field)) → AreSponsorsOf rows sponsors.old
        → result ≡ Err Unfit.Damaged → HaveNoSponsors (rows ++ fields_of_sponsor row ∷ behind) }
{
    let (choice, login, sponsorship) = row.sponsor()?;
    let earlier = sponsors.put(choice, login, sponsorship)?;
    if earlier {
        return Err(Unfit::Damaged);
    }
    Ok(())
}

/// Puts the ballot that the row says.
///
/// [`Unfit::Damaged`]: the row says nothing that a desk has, or the developer has a ballot on the
/// resolution already, whose row it takes the place of. [`Unfit::Memory`]: the memory for the
/// ballot was refused.
pub(crate) fn add_ballot(ballots: &mut Ballots, row: BallotRow) -> Result<(), Unfit>
    ensures ok { (rows : List (List Field)) → AreBallotsOf rows ballots.old
        → OnOk result (AreBallotsOf (rows ++ fields_of_ballot row ∷ []) ballots.new) }
    ensures damaged { (rows behind : List (List Field)) → AreBallotsOf rows ballots.old
        → result ≡ Err Unfit.Damaged → HaveNoBallots (rows ++ fields_of_ballot row ∷ behind) }
{
    let (resolution, login, ballot) = row.ballot()?;
    let earlier = ballots.put(resolution, login, ballot)?;
    if earlier {
        return Err(Unfit::Damaged);
    }
    Ok(())
}
