//! Rows of the table `ballot2`, and of `ballot`, which version 1 had in its place.
ghost use Rattle.std.specs.Prelude.{◌≡◌, ◌≢◌, ℕ, List, IfOk, IsErr, string_bytes};
ghost use Rattle.gr_count.specs.declared.limits.TheConstants.{MAX_OPTIONS, MIN_OPTIONS};
ghost use Rattle.gr_count.specs.declared.mark.Mark.{Mark};
ghost use Rattle.gr_count.specs.Shown.{marks_in};
ghost use Rattle.gr_core.specs.Parts.Ballot.{ballot_model};
ghost use Rattle.gr_core.specs.Parts.Ballot as kept;
ghost use Rattle.gr_core.specs.Columns.Fields.{ballot_fields, ranks_text, AreRanksKept, FitsBallot};
ghost use Rattle.gr_core.specs.Columns.Stored.{fields_of_ballot};
ghost use Rattle.gr_core.specs.Columns.Rows1.{fields_of_ballot1, lifted_fields};

use super::number::read_small;
use super::{BallotRow, BallotRow1};
use crate::ballot::Ballot;
use crate::memory::Memory;
use crate::receipt::Receipt;
use crate::unfit::Damaged;
use gr_count::{BadRanks, MAX_OPTIONS, MIN_OPTIONS, Ranks};
use std::alloc::Global;

/// The ranks that the text of the column `ranks` says.
fn read_ranks(text: &str) -> Result<Ranks, Damaged>
    ensures ok { IfOk result (λ ranks. ranks_text (marks_in ranks) ≡ text.now) }
    ensures kept { IfOk result (λ ranks. AreRanksKept (marks_in ranks)) }
    ensures err { IsErr result → (ranks : List Mark) → AreRanksKept ranks
        → ranks_text ranks ≢ text.now }
{
    let bytes = text.as_bytes();
    if bytes.len() < MIN_OPTIONS || MAX_OPTIONS < bytes.len() {
        return Err(Damaged);
    }
    // The row does not say how many options there are. The load compares their number with the
    // places of the ballot, once it has the choices.
    match Ranks::read(bytes, bytes.len()) {
        Ok(ranks) => Ok(ranks),
        Err(BadRanks) => Err(Damaged),
    }
}

impl BallotRow {
    /// The row of the ballot on the resolution by the developer with this login, with texts of its
    /// own. [`Memory`]: out of memory for them.
    pub fn of(
        alloc: Global,
        resolution: u32,
        login: &str,
        ballot: &Ballot,
    ) -> Result<BallotRow, Memory>
        ensures { IfOk result (λ row. fields_of_ballot row
            ≡ ballot_fields ((resolution, login.now), ballot_model ballot.now)) }
    {
        let ranks = ballot.ranks;
        let receipt = ballot.receipt;
        Ok(BallotRow {
            resolution: i64::from(resolution),
            login: String::from_str(alloc, login)?,
            ranks: format!(in alloc; "{ranks}")?,
            receipt: format!(in alloc; "{receipt}")?,
            received: i64::from(ballot.received),
        })
    }

    /// The resolution, the login and the ballot that the row says.
    pub(crate) fn ballot(self) -> Result<(u32, String, Ballot), Damaged>
        ensures ok { IfOk result (λ entry.
            (ballot_fields ((entry.0, string_bytes entry.1), ballot_model entry.2)
            ≡ fields_of_ballot self)
            × FitsBallot entry.0 (ballot_model entry.2)) }
        ensures err { IsErr result → (resolution : ℕ) (login : List ℕ) (row : kept.BallotModel)
            → FitsBallot resolution row
            → ballot_fields ((resolution, login), row) ≢ fields_of_ballot self }
    {
        let BallotRow {
            resolution,
            login,
            ranks,
            receipt,
            received,
        } = self;
        let resolution = read_small(resolution)?;
        let ballot = Ballot {
            ranks: read_ranks(ranks.as_str())?,
            receipt: Receipt::read(receipt.as_str())?,
            received: read_small(received)?,
        };
        Ok((resolution, login, ballot))
    }
}

impl BallotRow1 {
    /// The row in this version: one vote of the voter was received. Takes no memory.
    pub fn lifted(self) -> BallotRow
        ensures { fields_of_ballot result ≡ lifted_fields (fields_of_ballot1 self) }
    {
        let BallotRow1 {
            resolution,
            login,
            ranks,
            receipt,
        } = self;
        BallotRow {
            resolution,
            login,
            ranks,
            receipt,
            received: 1,
        }
    }
}
