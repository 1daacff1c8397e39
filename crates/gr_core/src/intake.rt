//! The intake: the rows of a desk, taken one at a time.
ghost use Rattle.std.specs.Prelude.{◌≡◌, ◌≢◌, ◌↔◌, List, [], ◌∷◌, map, Err, IfOk, IfSome, IsErr, IsNone, IsTrue, OnErr, OnOk};
ghost use Rattle.gr_core.specs.Columns.Fields.{Field};
ghost use Rattle.gr_core.specs.Desks.State.{State};
ghost use Rattle.gr_core.specs.Columns.Stored.{Stored, stored, fields_of_header, Fits, HasRows};
ghost use Rattle.gr_core.specs.Columns.Intake.{AreDamaged, AreHeaderRows, HasTaken, IsSpent, joined, nothing_taken};
ghost use Rattle.gr_core.specs.Columns.Intake.{IsHeaderOf, taken_with};
ghost use Rattle.gr_core.specs.Columns.Rows1.{stored1, lifted_rows, HasRows1, IsLiftedOf};
ghost use Rattle.gr_core.specs.Desks.Version1.{IsValid1};
ghost use Rattle.gr_core.specs.Columns.Intake.{with_row, with_more};
ghost use Rattle.gr_core.specs.Desks.Valid.{IsValid};

mod entries;
mod header_rows;
mod into_row;

use crate::ballots::Ballots;
use crate::choices::Choices;
use crate::desk::Desk;
use crate::header::Header;
use crate::memory::Memory;
use crate::resolutions::Resolutions;
use crate::roll::Roll;
use crate::rows::{HeaderRow, Row, Rows, Rows1};
use crate::sponsors::Sponsors;
use crate::tables::Tables;
use crate::unfit::Unfit;
use entries::{add_ballot, add_choice, add_developer, add_resolution, add_sponsor};
use header_rows::HeaderRows;
pub use into_row::IntoRow;
use std::alloc::Global;

/// What became of the rows that were taken.
#[derive(Clone, Copy, Debug, PartialEq, Eq, Drop)]
enum Condition {
    /// The tables have them.
    Kept,

    /// One says nothing that a desk has, or two of a table have one key.
    Damaged,

    /// The memory for one was refused.
    Spent,
}

/// The rows of a desk, taken one at a time: those of each table in any order, and the tables in any
/// order. Of each row it keeps what a desk has, and nothing of the row itself. A contract sees the
/// rows that were taken (`HasTaken`), and whether the intake is spent (`IsSpent`): it is once
/// memory was refused. It keeps the allocator that it was made with, so its calls take none.
#[derive(Drop)]
pub struct Intake {
    alloc: Global,
    desk: HeaderRows,
    roll: Roll,
    resolutions: Resolutions,
    choices: Choices,
    sponsors: Sponsors,
    ballots: Ballots,
    condition: Condition,
}

impl Intake {
    /// An intake that has taken nothing. Takes no memory; `alloc` is for the rows to come.
    pub fn new(alloc: Global) -> Intake
        ensures taken { HasTaken nothing_taken result }
        ensures ready { ¬ (IsSpent result) }
    {
        Intake {
            alloc,
            desk: HeaderRows::Nothing,
            roll: Roll::new(alloc),
            resolutions: Resolutions::new(alloc),
            choices: Choices::new(alloc),
            sponsors: Sponsors::new(alloc),
            ballots: Ballots::new(alloc),
            condition: Condition::Kept,
        }
    }

    /// Takes one more row. One that no desk can have, by itself or beside the rows before it, is
    /// taken too: [`finish`](Intake::finish) reports it. So whoever brings rows has one error at
    /// each, and one place for damage. The rows after it do not change that.
    ///
    /// [`Memory`]: the memory for the row was refused, now or at an earlier call. The intake is
    /// spent then, and takes no more rows.
    pub fn take(&mut self, row: Row) -> Result<(), Memory>
        ensures taken { (rows : Stored) → HasTaken rows self.old
            → OnOk result (HasTaken (with_row rows row) self.new) }
        ensures ready { OnOk result (¬ (IsSpent self.new)) }
        ensures spends { OnErr result (IsSpent self.new) }
        ensures spent { IsSpent self.old → IsErr result × (self.new ≡ self.old) }
    {
        if self.is_spent() {
            return Err(Memory);
        }
        match self.add(row) {
            Ok(()) => Ok(()),
            Err(Unfit::Damaged) => {
                self.condition = Condition::Damaged;
                Ok(())
            }
            Err(Unfit::Memory) => {
                self.condition = Condition::Spent;
                Err(Memory)
            }
        }
    }

    /// The row of the table `desk`, where one was taken and no other. Takes no memory.
    pub fn header_row(&self) -> Option<HeaderRow>
        ensures some { (rows : Stored) → HasTaken rows self.now
            → IfSome result (λ row. rows.desk ≡ fields_of_header row ∷ []) }
        ensures none { (rows : Stored) → HasTaken rows self.now → IsNone result
            → (fields : List Field) → rows.desk ≢ fields ∷ [] }
    {
        self.desk.only()
    }

    /// The desk with the rows that were taken.
    ///
    /// [`Unfit::Damaged`]: no valid desk has these rows: a rule of a valid desk is broken, two rows
    /// of a table have one key, or the table `desk` has not one row. [`Unfit::Memory`]: the memory
    /// for the desk was refused, now or for a row.
    pub fn finish(self) -> Result<Desk, Unfit>
        ensures ok { (rows : Stored) → HasTaken rows self
            → IfOk result (λ desk. HasRows desk rows) }
        ensures damaged { (rows : Stored) → HasTaken rows self → result ≡ Err Unfit.Damaged
            → (s : State) → IsValid s → ¬ (HasRows s rows) }
        ensures valid { IfOk result IsValid }
        ensures spent { IsSpent self → result ≡ Err Unfit.Memory }
    {
        let header = self.header()?;
        self.with_header(header)
    }

    /// What becomes in this version of the desk of version 1 with the rows that were taken, those
    /// of its ballots as [`BallotRow1::lifted`](crate::BallotRow1::lifted) makes them.
    ///
    /// [`Unfit::Damaged`]: no valid desk of version 1 had these rows. [`Unfit::Memory`]: the memory
    /// for the desk was refused, now or for a row.
    pub fn finish_1(self) -> Result<Desk, Unfit>
        ensures ok { (rows : Stored) → HasTaken (lifted_rows rows) self
            → IfOk result (IsLiftedOf rows) }
        ensures damaged { (rows : Stored) → HasTaken (lifted_rows rows) self
            → result ≡ Err Unfit.Damaged → (s : State) → IsValid1 s → ¬ (HasRows1 s rows) }
        ensures valid { IfOk result IsValid }
        ensures spent { IsSpent self → result ≡ Err Unfit.Memory }
    {
        let header = self.header()?.lifted()?;
        self.with_header(header)
    }

    /// The header of the rows that were taken.
    ///
    /// [`Unfit::Damaged`]: no desk has these rows. [`Unfit::Memory`]: memory was refused for a row.
    fn header(&self) -> Result<Header, Unfit>
        ensures ok { (rows : Stored) → HasTaken rows self.now
            → IfOk result (λ header. IsHeaderOf rows self.now header) }
        ensures damaged { (rows : Stored) → HasTaken rows self.now → result ≡ Err Unfit.Damaged
            → (s : State) → Fits s → ¬ (HasRows s rows) }
        ensures spent { IsSpent self.now → result ≡ Err Unfit.Memory }
    {
        match self.condition {
            Condition::Kept => Ok(self.desk.header()?),
            Condition::Damaged => Err(Unfit::Damaged),
            Condition::Spent => Err(Unfit::Memory),
        }
    }

    /// The desk with this header and the tables.
    ///
    /// [`Unfit::Damaged`]: a rule of a valid desk is broken. [`Unfit::Memory`]: the memory for the
    /// preference counts was refused.
    fn with_header(self, header: Header) -> Result<Desk, Unfit>
        ensures ok { IfOk result (λ desk. desk ≡ taken_with header self) }
        ensures damaged { result ≡ Err Unfit.Damaged → ¬ (IsValid (taken_with header self)) }
        ensures valid { IfOk result IsValid }
    {
        let Intake {
            alloc,
            desk: _,
            roll,
            resolutions,
            choices,
            sponsors,
            ballots,
            condition: _,
        } = self;
        let tables = Tables::of(header, roll, resolutions, choices, sponsors, ballots);
        Desk::of(alloc, tables)
    }

    /// Takes the rows of all tables.
    ///
    /// [`Memory`]: the memory for a row was refused.
    pub(crate) fn take_all(&mut self, rows: Rows) -> Result<(), Memory>
        ensures { (taken : Stored) → HasTaken taken self.old
            → OnOk result (HasTaken (joined taken (stored rows)) self.new) }
    {
        let Rows {
            desk,
            developers,
            resolutions,
            choices,
            sponsors,
            ballots,
        } = rows;
        self.take_table(desk)?;
        self.take_table(developers)?;
        self.take_table(resolutions)?;
        self.take_table(choices)?;
        self.take_table(sponsors)?;
        self.take_table(ballots)
    }

    /// Takes the rows of all tables of version 1, those of its ballots in this version.
    ///
    /// [`Memory`]: the memory for a row was refused.
    pub(crate) fn take_all_1(&mut self, rows: Rows1) -> Result<(), Memory>
        ensures { (taken : Stored) → HasTaken taken self.old
            → OnOk result (HasTaken (joined taken (lifted_rows (stored1 rows))) self.new) }
    {
        let Rows1 {
            desk,
            developers,
            resolutions,
            choices,
            sponsors,
            ballots,
        } = rows;
        self.take_all(Rows {
            desk,
            developers,
            resolutions,
            choices,
            sponsors,
            ballots: Vec::new(self.alloc),
        })?;
        self.take_table(ballots)
    }

    /// Takes the rows of one table.
    fn take_table<T: IntoRow>(&mut self, rows: Vec<T>) -> Result<(), Memory>
        ensures { (taken : Stored) → HasTaken taken self.old
            → OnOk result (HasTaken (with_more T.table_name taken
            (map (λ row. T.meant (T.fields row)) rows.items)) self.new) }
    {
        for row in rows {
            self.take(row.into_row())?;
        }
        Ok(())
    }

    /// Whether memory was refused.
    fn is_spent(&self) -> bool
        ensures { IsTrue result ↔ IsSpent self.now }
    {
        matches!(self.condition, Condition::Spent)
    }

    /// Adds the row to its table. What became of the rows before is not changed.
    ///
    /// [`Unfit::Damaged`]: no desk can have the row, by itself or beside those before it.
    /// [`Unfit::Memory`]: the memory for the row was refused.
    fn add(&mut self, row: Row) -> Result<(), Unfit>
        ensures ok { (rows : Stored) → HasTaken rows self.old
            → OnOk result (HasTaken (with_row rows row) self.new) }
        ensures damaged { (rows : Stored) → HasTaken rows self.old → result ≡ Err Unfit.Damaged
            → AreHeaderRows self.new.desk (with_row rows row).desk
            × AreDamaged (with_row rows row) }
        ensures condition { self.new.condition ≡ self.old.condition }
    {
        match row {
            Row::Header(row) => {
                self.desk = self.desk.with(row);
                Ok(())
            }
            Row::Developer(row) => add_developer(&mut self.roll, row),
            Row::Resolution(row) => add_resolution(&mut self.resolutions, row),
            Row::Choice(row) => add_choice(&mut self.choices, row),
            Row::Sponsor(row) => add_sponsor(&mut self.sponsors, row),
            Row::Ballot(row) => add_ballot(&mut self.ballots, row),
        }
    }
}
