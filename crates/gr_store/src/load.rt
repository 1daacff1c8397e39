//! Loading: the desk of the rows that stand in the six tables.
ghost use Rattle.std.specs.Prelude.{◌≡◌, ◌↔◌, ◌⊎◌, pos, false, Err, IfOk, IfErr, IfSome, IsNone, IsTrue, OnOk};
ghost use Rattle.gr_core.specs.Columns.Intake.{HasTaken};
ghost use Rattle.gr_core.specs.Columns.Stored.{BallotTable};
ghost use Rattle.gr_core.specs.Desks.State.{State};
ghost use Rattle.gr_core.specs.Columns.Stored.{Stored};
ghost use Rattle.gr_core.specs.Desks.Valid.{IsValid};
ghost use Rattle.gr_core.specs.Desks.Version1.{IsValid1};
ghost use Rattle.gr_store.specs.declared.fault.Fault.TheVariants as faults;
ghost use Rattle.gr_store.specs.Causes.{DiskFails, CannotSelect, CannotSelectBy};
ghost use Rattle.gr_store.specs.Content.{WritesNothing};
ghost use Rattle.gr_store.specs.Faults.{CanBeUnread, CanFailToLoad};
ghost use Rattle.gr_store.specs.Holds.{Holds, CannotHoldOthers, IsAlone, IsLater, IsEarlier, IsOfThisVersion};
ghost use Rattle.gr_store.specs.Holds.{IsTooNew, IsTooOld, IsCurrent};
ghost use Rattle.gr_store.specs.SelectedTables.{HasPlainAnswer};
ghost use Rattle.gr_store.specs.Selects.{desk_select, ballot1_select};
ghost use Rattle.gr_store.specs.Tabled.{HasTables, HasColumns1, HasColumnsWith};
ghost use Rattle.gr_store.specs.Takes.{TakesOthers};
ghost use Rattle.gr_store.specs.Version1.{Holds1, HasValid1};
ghost use Rattle.sqlite.specs.Held.{state};
ghost use Rattle.sqlite.specs.State.{HasCleanDisk};

use crate::fault::Fault;
use crate::select::take_table;
use crate::tables::{self, SelectedRow};
use gr_core::{
    BallotRow, BallotRow1, ChoiceRow, Desk, DeveloperRow, HEADER_ID, HeaderRow, Intake,
    ResolutionRow, SponsorRow, VERSION,
};
use sqlite::Connection;
use sqlite_trees::store::Alter;
use std::alloc::Global;

/// The desk of the rows that stand in the six tables. Each row is let go once it is taken, so no
/// table's rows are held beside the desk, and a full vote needs memory for the desk alone.
///
/// The version is looked at before the other tables, since a later program may have others. Its
/// database must be called too new, and not damaged. So a later version must leave the four columns
/// of the table `desk` and its one row.
///
/// [`Fault::TooNew`]: the table `desk` has one row, with the id 1 and a version above this
/// program's. [`Fault::TooOld`]: it has one with a version below it. [`Fault::Damaged`]: no valid
/// desk has the rows, or a table or a column is missing.
pub(crate) fn load<S: Alter>(alloc: Global, conn: &mut Connection<S>) -> Result<Desk, Fault>
    ensures holds { HasCleanDisk (state S.Store conn.new)
        → IfOk result (λ desk. Holds desk (state S.Store conn.old).now) }
    ensures valid { IfOk result IsValid }
    ensures damaged { HasCleanDisk (state S.Store conn.new)
        → HasTables (state S.Store conn.old).now.schema → result ≡ Err faults.Damaged
        → (s : State) → IsValid s → ¬ (Holds s (state S.Store conn.old).now) }
    ensures not_too_new { HasCleanDisk (state S.Store conn.new)
        → HasPlainAnswer desk_select (state S.Store conn.old).now
        → result ≡ Err faults.Damaged → ¬ (IsTooNew (state S.Store conn.old).now) }
    ensures too_new { HasCleanDisk (state S.Store conn.new) → result ≡ Err faults.TooNew
        → IsTooNew (state S.Store conn.old).now }
    ensures not_too_old { HasCleanDisk (state S.Store conn.new)
        → HasPlainAnswer desk_select (state S.Store conn.old).now
        → result ≡ Err faults.Damaged → ¬ (IsTooOld (state S.Store conn.old).now) }
    ensures too_old { HasCleanDisk (state S.Store conn.new) → result ≡ Err faults.TooOld
        → IsTooOld (state S.Store conn.old).now }
    ensures faults { IfErr result CanFailToLoad }
    ensures caused { HasCleanDisk (state S.Store conn.new)
        → IfErr result (λ fault. fault ≡ faults.Store
        → DiskFails (state S.Store conn.old) (state S.Store conn.new)
        ⊎ CannotSelect (state S.Store conn.old).step_limit (state S.Store conn.old).now) }
    ensures live { HasCleanDisk (state S.Store conn.new)
        → IfOk result (λ _. IsTrue (state S.Store conn.new).is_open) }
    ensures writes_nothing { WritesNothing (state S.Store conn.old) (state S.Store conn.new) }
    ensures outside { conn.old.in_transaction ≡ false → conn.new.in_transaction ≡ false }
{
    let mut intake = Intake::new(alloc);
    take_table::<HeaderRow, S>(conn, &mut intake)?;
    if is_too_new(&intake) {
        return Err(Fault::TooNew);
    }
    if is_too_old(&intake) {
        return Err(Fault::TooOld);
    }
    if !tables::are_there(conn.schema(), "ballot2") {
        return Err(Fault::Damaged);
    }
    take_others::<BallotRow, S>(conn, &mut intake)?;
    Ok(intake.finish()?)
}

/// The desk of version 1 whose rows stand in the six tables of that version, as it is in this
/// version; `None` where the table `desk` has one row, with the id 1 and this version.
///
/// [`Fault::TooNew`]: the table `desk` has one row, with the id 1 and a version above this
/// program's. [`Fault::Damaged`]: no valid desk of version 1 has the rows, or a table or a column
/// is missing.
pub(crate) fn desk_of_version_1<S: Alter>(
    alloc: Global,
    conn: &mut Connection<S>,
) -> Result<Option<Desk>, Fault>
    ensures desk1 { HasCleanDisk (state S.Store conn.new) → IfOk result (λ found.
        IfSome found (HasValid1 (state S.Store conn.old).now)) }
    ensures current { HasCleanDisk (state S.Store conn.new) → IfOk result (λ found.
        IsNone found → IsCurrent (state S.Store conn.old).now) }
    ensures damaged { HasCleanDisk (state S.Store conn.new)
        → HasColumns1 (state S.Store conn.old).now.schema → result ≡ Err faults.Damaged
        → (s : State) → IsValid1 s → ¬ (Holds1 s (state S.Store conn.old).now) }
    ensures not_too_new { HasCleanDisk (state S.Store conn.new)
        → HasPlainAnswer desk_select (state S.Store conn.old).now
        → result ≡ Err faults.Damaged → ¬ (IsTooNew (state S.Store conn.old).now) }
    ensures not_current { HasCleanDisk (state S.Store conn.new)
        → HasPlainAnswer desk_select (state S.Store conn.old).now
        → result ≡ Err faults.Damaged → ¬ (IsCurrent (state S.Store conn.old).now) }
    ensures too_new { HasCleanDisk (state S.Store conn.new) → result ≡ Err faults.TooNew
        → IsTooNew (state S.Store conn.old).now }
    ensures faults { IfErr result (λ fault. CanBeUnread fault ⊎ (fault ≡ faults.TooNew)) }
    ensures caused { HasCleanDisk (state S.Store conn.new)
        → IfErr result (λ fault. fault ≡ faults.Store
        → DiskFails (state S.Store conn.old) (state S.Store conn.new)
        ⊎ CannotSelectBy ballot1_select (state S.Store conn.old).step_limit
        (state S.Store conn.old).now) }
    ensures live { HasCleanDisk (state S.Store conn.new)
        → IfOk result (λ _. IsTrue (state S.Store conn.new).is_open) }
    ensures unchanged { HasCleanDisk (state S.Store conn.new)
        → IfOk result (λ _. (state S.Store conn.new).now ≡ (state S.Store conn.old).now) }
    ensures writes_nothing { WritesNothing (state S.Store conn.old) (state S.Store conn.new) }
    ensures outside { conn.old.in_transaction ≡ false → conn.new.in_transaction ≡ false }
{
    let mut intake = Intake::new(alloc);
    take_table::<HeaderRow, S>(conn, &mut intake)?;
    if is_too_new(&intake) {
        return Err(Fault::TooNew);
    }
    if is_current(&intake) {
        return Ok(None);
    }
    if !tables::are_there(conn.schema(), "ballot") {
        return Err(Fault::Damaged);
    }
    take_others::<BallotRow1, S>(conn, &mut intake)?;
    Ok(Some(intake.finish_1()?))
}

/// Whether one row of the table `desk` was taken, with the id 1 and a version above this
/// program's.
fn is_too_new(intake: &Intake) -> bool
    ensures { (rows : Stored) → HasTaken rows intake.now
        → (IsTrue result ↔ IsAlone IsLater rows.desk) }
{
    version_of(intake).is_some_and(|version| version > i64::from(VERSION))
}

/// Whether one row of the table `desk` was taken, with the id 1 and a version below this
/// program's.
fn is_too_old(intake: &Intake) -> bool
    ensures { (rows : Stored) → HasTaken rows intake.now
        → (IsTrue result ↔ IsAlone IsEarlier rows.desk) }
{
    version_of(intake).is_some_and(|version| version < i64::from(VERSION))
}

/// Whether one row of the table `desk` was taken, with the id 1 and this program's version.
fn is_current(intake: &Intake) -> bool
    ensures { (rows : Stored) → HasTaken rows intake.now
        → (IsTrue result ↔ IsAlone IsOfThisVersion rows.desk) }
{
    version_of(intake) == Some(i64::from(VERSION))
}

/// The version in the one row of the table `desk` that was taken, where its id is 1.
fn version_of(intake: &Intake) -> Option<i64>
    ensures some { (rows : Stored) → HasTaken rows intake.now → IfSome result (λ version.
        IsAlone (λ row. (row.id ≡ pos 1) × (row.version ≡ version)) rows.desk) }
    ensures none { (rows : Stored) → HasTaken rows intake.now → IsNone result
        → ¬ (IsAlone (λ row. row.id ≡ pos 1) rows.desk) }
{
    let row = intake.header_row()?;
    (row.id == HEADER_ID).then_some(row.version)
}

/// Takes the rows of all tables but `desk`, those of ballots as `B` reads them.
fn take_others<B: SelectedRow, S: Alter>(
    conn: &mut Connection<S>,
    intake: &mut Intake,
) -> Result<(), Fault>
    requires { B.table_name ≡ BallotTable }
    ensures taken { HasCleanDisk (state S.Store conn.new) → OnOk result
        (TakesOthers B.select_text B.meant (state S.Store conn.old).now intake.old intake.new) }
    ensures damaged { HasCleanDisk (state S.Store conn.new)
        → HasColumnsWith B.table (state S.Store conn.old).now.schema
        → result ≡ Err faults.Damaged
        → CannotHoldOthers B.select_text B.kinds (state S.Store conn.old).now }
    ensures faults { IfErr result CanBeUnread }
    ensures caused { HasCleanDisk (state S.Store conn.new)
        → IfErr result (λ fault. fault ≡ faults.Store
        → DiskFails (state S.Store conn.old) (state S.Store conn.new)
        ⊎ CannotSelectBy B.select_text (state S.Store conn.old).step_limit
        (state S.Store conn.old).now) }
    ensures live { HasCleanDisk (state S.Store conn.new)
        → OnOk result (IsTrue (state S.Store conn.new).is_open) }
    ensures unchanged { HasCleanDisk (state S.Store conn.new)
        → OnOk result ((state S.Store conn.new).now ≡ (state S.Store conn.old).now) }
    ensures writes_nothing { WritesNothing (state S.Store conn.old) (state S.Store conn.new) }
    ensures outside { conn.old.in_transaction ≡ false → conn.new.in_transaction ≡ false }
{
    take_table::<DeveloperRow, S>(conn, intake)?;
    take_table::<ResolutionRow, S>(conn, intake)?;
    take_table::<ChoiceRow, S>(conn, intake)?;
    take_table::<SponsorRow, S>(conn, intake)?;
    take_table::<B, S>(conn, intake)
}
