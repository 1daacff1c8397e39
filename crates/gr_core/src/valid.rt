//! Whether the tables are those of a valid desk.
ghost use Rattle.std.specs.Prelude.{◌↔◌, IsOk, IsTrue, OnErr, OnOk};
ghost use Rattle.gr_core.specs.Parts.Header.{IsHeader};
ghost use Rattle.gr_core.specs.Desks.Valid.{AreTables, EachBallot, EachResolution, IsBallotIn, IsRightlyChosen, IsValid};
ghost use Rattle.gr_core.specs.InMemory.KeptPairs.{KeepsPairs};

mod ballots;
mod choices;
mod developers;
mod resolutions;
mod sponsors;

use crate::header::Header;
use crate::kept_pairs::KeptPairs;
use crate::limits::{MAX_ACCEPTED, MAX_MOMENT, VERSION};
use crate::tables::Tables;
use crate::unfit::Damaged;
use ballots::{are_ballots, are_rightly_chosen};
use choices::are_choices;
use developers::are_developers;
use resolutions::{are_numbered, are_resolutions};
use sponsors::are_sponsors;

/// Checks each rule of a valid desk but the one on what was chosen, which a count decides
/// (`check_chosen`). Walks over each table. Takes no memory.
///
/// [`Damaged`]: one of these rules is broken.
pub(crate) fn check_tables(tables: &Tables) -> Result<(), Damaged>
    ensures header { OnOk result (IsHeader tables.now.header) }
    ensures tables { OnOk result (AreTables tables.now.header.clock tables.now) }
    ensures ballots { OnOk result (EachBallot tables.now (IsBallotIn tables.now)) }
    ensures damaged { OnErr result (¬ (IsValid tables.now)) }
{
    hold(is_header(tables.header()))?;
    hold(are_developers(tables))?;
    hold(are_numbered(tables))?;
    hold(are_resolutions(tables))?;
    hold(are_choices(tables))?;
    hold(are_sponsors(tables))?;
    hold(are_ballots(tables))
}

/// Checks the rule on what was chosen, by the counts that are kept. Takes no memory.
///
/// [`Damaged`]: it is broken.
pub(crate) fn check_chosen(tables: &Tables, kept: &KeptPairs) -> Result<(), Damaged>
    requires tables { AreTables tables.now.header.clock tables.now }
    requires kept { KeepsPairs tables.now kept.now }
    ensures { IsOk result ↔ EachResolution tables.now (IsRightlyChosen tables.now) }
{
    hold(are_rightly_chosen(tables, kept))
}

/// That a rule holds.
fn hold(holds: bool) -> Result<(), Damaged>
    ensures { IsOk result ↔ IsTrue holds }
{
    if holds { Ok(()) } else { Err(Damaged) }
}

/// Whether the header is one of this version, within the limits, and with the clock at 0 just where
/// nothing was accepted.
fn is_header(header: Header) -> bool
    ensures { IsTrue result ↔ IsHeader header }
{
    header.version == VERSION
        && header.accepted <= MAX_ACCEPTED
        && header.clock <= MAX_MOMENT
        && (header.clock == 0) == (header.accepted == 0)
}
