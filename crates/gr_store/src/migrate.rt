//! Migration: a desk of version 1 becomes one of this version.
ghost use Rattle.std.specs.Prelude.{◌≡◌, ◌⊎◌, false, Err, IfErr, OnOk, IsTrue, [], codes};
ghost use Rattle.gr_core.specs.Columns.Stored.{BallotTable};
ghost use Rattle.gr_core.specs.Desks.State.{State};
ghost use Rattle.gr_core.specs.Desks.Valid.{IsValid};
ghost use Rattle.gr_core.specs.Desks.Version1.{IsValid1, lifted};
ghost use Rattle.gr_store.specs.declared.fault.Fault.TheVariants as faults;
ghost use Rattle.gr_store.specs.Causes.{DiskFails, IsCaused, IsTextRefused, CannotMigrate, CannotMove, CannotPutBallots, CannotSelectBy};
ghost use Rattle.gr_store.specs.Clears.{Clears, ballot1_clear};
ghost use Rattle.gr_store.specs.Commits.{LeavesDesk};
ghost use Rattle.gr_store.specs.Content.{IsSettled, WritesNothing};
ghost use Rattle.gr_store.specs.Faults.{IsOfStore, CanFailToMigrate};
ghost use Rattle.gr_store.specs.Holds.{Holds, HasDeskTables, HasDeskTables1, IsTooNew, IsCurrent};
ghost use Rattle.gr_store.specs.Migrates.{AddsBallotTable, LeavesBallots, MayMigrate, Migrates, PutsBallots, StaysCurrent};
ghost use Rattle.gr_store.specs.Own.{HasOwnTable, HasOwnTables, HasOwnTablesWith, IsBallotTable1, in_its_tree};
ghost use Rattle.gr_store.specs.SelectedTables.{HasPlainAnswer};
ghost use Rattle.gr_store.specs.Selects.{desk_select, ballot1_select};
ghost use Rattle.gr_store.specs.Tabled.{HasColumns1};
ghost use Rattle.gr_store.specs.Version1.{Holds1, HoldsValid1, OwnsValid1};
ghost use Rattle.sqlite.specs.Does.{lacks_sequence};
ghost use Rattle.sqlite.specs.Effect.{Database, IsDatabase};
ghost use Rattle.sqlite.specs.Held.{state};
ghost use Rattle.sqlite.specs.State.{HasCleanDisk, Survives};
ghost use Rattle.sqlite_catalog.specs.Change.{is_used};
ghost use Rattle.sqlite_schema.specs.declared.schema.Schema.{Schema};
ghost use Rattle.sqlite_schema.specs.declared.schema.Table.{Table};

use crate::commit::{put, put_changes};
use crate::fault::Fault;
use crate::load::desk_of_version_1;
use crate::tables::{self, TableRow};
use gr_core::{BallotRow, Ballots, Change, Desk, Header, MAX_RESOLUTIONS, VERSION};
use sqlite::{Connection, Error, Transaction};
use sqlite_trees::store::Alter;
use std::alloc::Global;

/// Brings a desk of version 1 to this version, in one transaction. One of this version stays as it
/// is, and nothing is written.
///
/// [`Fault::TooNew`]: the table `desk` has one row, with the id 1 and a version above this
/// program's. [`Fault::Damaged`]: no valid desk of version 1 has the rows, or a table or a column
/// is missing. [`Fault::Occupied`]: the name of the table of ballots of this version is taken.
/// Nothing was written then. After [`Fault::Memory`] and [`Fault::Store`] the database is as it
/// was, or the transaction has been committed. A crash leaves one of these two as well.
pub(crate) fn migrate<S: Alter>(alloc: Global, conn: &mut Connection<S>) -> Result<(), Fault>
    requires { conn.old.in_transaction ≡ false }
    ensures migrates { HasCleanDisk (state S.Store conn.new)
        → HasDeskTables1 (state S.Store conn.old).now → (s : State) → IsValid1 s
        → Holds1 s (state S.Store conn.old).now
        → OnOk result (HasDeskTables (state S.Store conn.new).now
        × Holds (lifted s) (state S.Store conn.new).now) }
    ensures adds { HasCleanDisk (state S.Store conn.new)
        → (tables : HasDeskTables1 (state S.Store conn.old).now)
        → lacks_sequence (state S.Store conn.old).now.schema ≡ false
        → HoldsValid1 (state S.Store conn.old).now
        → OnOk result (AddsBallotTable (state S.Store conn.old).now tables.has.own
        (state S.Store conn.new).now) }
    ensures empties { HasCleanDisk (state S.Store conn.new)
        → (tables : HasDeskTables1 (state S.Store conn.old).now)
        → HoldsValid1 (state S.Store conn.old).now → OnOk result
        ((state S.Store conn.new).now.trees (tables.has.own BallotTable).has.tree ≡ []) }
    ensures settled { HasCleanDisk (state S.Store conn.new) → IsSettled (state S.Store conn.old)
        → OnOk result (IsSettled (state S.Store conn.new)) }
    ensures known { HasCleanDisk (state S.Store conn.new)
        → OnOk result (StaysCurrent (state S.Store conn.old) (state S.Store conn.new)
        ⊎ HoldsValid1 (state S.Store conn.old).now) }
    ensures untouched { (¬ (HoldsValid1 (state S.Store conn.old).now))
        → WritesNothing (state S.Store conn.old) (state S.Store conn.new) }
    ensures spared { IfErr result (λ fault. (¬ (IsOfStore fault))
        → WritesNothing (state S.Store conn.old) (state S.Store conn.new)) }
    ensures crash { HasDeskTables1 (state S.Store conn.old).now → (s : State) → IsValid1 s
        → Holds1 s (state S.Store conn.old).now
        → Survives (state S.Store conn.old) (state S.Store conn.new) (LeavesDesk (lifted s)) }
    ensures leaves { (tables : HasDeskTables1 (state S.Store conn.old).now)
        → lacks_sequence (state S.Store conn.old).now.schema ≡ false
        → Survives (state S.Store conn.old) (state S.Store conn.new)
        (LeavesBallots (state S.Store conn.old).now tables.has.own) }
    ensures occupied { HasCleanDisk (state S.Store conn.new) → result ≡ Err faults.Occupied
        → IsTrue (is_used (state S.Store conn.old).now.schema (codes "ballot2"))
        × HoldsValid1 (state S.Store conn.old).now }
    ensures finds { HasCleanDisk (state S.Store conn.new)
        → HasColumns1 (state S.Store conn.old).now.schema
        → HoldsValid1 (state S.Store conn.old).now
        → OnOk result (is_used (state S.Store conn.old).now.schema (codes "ballot2") ≡ false)
        × IfErr result (λ fault. IsOfStore fault ⊎ (fault ≡ faults.Occupied)) }
    ensures later { HasCleanDisk (state S.Store conn.new)
        → HasPlainAnswer desk_select (state S.Store conn.old).now
        → IsTooNew (state S.Store conn.old).now → OnOk result ⊥
        × IfErr result (λ fault. (fault ≡ faults.TooNew) ⊎ IsOfStore fault) }
    ensures too_new { HasCleanDisk (state S.Store conn.new) → result ≡ Err faults.TooNew
        → IsTooNew (state S.Store conn.old).now }
    ensures current { HasCleanDisk (state S.Store conn.new)
        → HasPlainAnswer desk_select (state S.Store conn.old).now
        → IsCurrent (state S.Store conn.old).now → IfErr result IsOfStore }
    ensures faults { IfErr result CanFailToMigrate }
    ensures caused { HasCleanDisk (state S.Store conn.new)
        → (tables : OwnsValid1 (state S.Store conn.old).now)
        → IfErr result (λ fault. fault ≡ faults.Store
        → DiskFails (state S.Store conn.old) (state S.Store conn.new)
        ⊎ (CannotSelectBy ballot1_select (state S.Store conn.old).step_limit
        (state S.Store conn.old).now
        ⊎ CannotMigrate (state S.Store conn.old).step_limit (state S.Store conn.old).now
        tables)) }
    ensures taken { HasCleanDisk (state S.Store conn.new)
        → IsTrue (is_used (state S.Store conn.old).now.schema (codes "ballot2"))
        → IfErr result (λ fault. fault ≡ faults.Store
        → DiskFails (state S.Store conn.old) (state S.Store conn.new)
        ⊎ CannotSelectBy ballot1_select (state S.Store conn.old).step_limit
        (state S.Store conn.old).now) }
    ensures outside { conn.new.in_transaction ≡ false }
    ensures clean { HasCleanDisk (state S.Store conn.new) → HasCleanDisk (state S.Store conn.old) }
{
    let Some(desk) = desk_of_version_1(alloc, conn)? else {
        return Ok(());
    };
    if tables::is_used(conn.schema(), "ballot2") {
        return Err(Fault::Occupied);
    }
    rewrite(alloc, conn, desk)
}

/// Makes the table of ballots of this version, puts the header and the ballots of the desk, and
/// takes the rows out of the table of ballots of version 1, all in one transaction.
///
/// After an error the database is as it was, or the transaction has been committed. A crash during
/// the call leaves one of these two as well.
fn rewrite<S: Alter>(alloc: Global, conn: &mut Connection<S>, desk: Desk) -> Result<(), Fault>
    requires { conn.old.in_transaction ≡ false }
    ensures makes { HasCleanDisk (state S.Store conn.new) → IsTrue (state S.Store conn.old).is_open
        → (db : Database) (ballots : Table) → IsBallotTable1 ballots
        → (own : HasOwnTablesWith ballots db.schema) → IsDatabase db
        → (state S.Store conn.old).now ≡ db
        → OnOk result (Migrates desk db own (state S.Store conn.new).now) }
    ensures settled { HasCleanDisk (state S.Store conn.new)
        → OnOk result (IsSettled (state S.Store conn.new)) }
    ensures faults { IfErr result IsOfStore }
    ensures caused { HasCleanDisk (state S.Store conn.new)
        → (db : Database) (ballots : Table) → IsBallotTable1 ballots
        → (own : HasOwnTablesWith ballots db.schema) → IsDatabase db
        → (state S.Store conn.old).now ≡ db
        → IfErr result (λ fault. fault ≡ faults.Store
        → DiskFails (state S.Store conn.old) (state S.Store conn.new)
        ⊎ CannotMove (state S.Store conn.old).step_limit desk db own) }
    ensures outside { conn.new.in_transaction ≡ false }
    ensures clean { HasCleanDisk (state S.Store conn.new) → HasCleanDisk (state S.Store conn.old) }
    ensures crash { Survives (state S.Store conn.old) (state S.Store conn.new)
        (MayMigrate desk (state S.Store conn.old).now) }
{
    let mut tx = conn.transaction();
    move_ballots(alloc, &mut tx, desk)?;
    tx.commit()?;
    Ok(())
}

/// Makes the table of ballots of this version, puts the header and the ballots of the desk, and
/// takes the rows out of the table of ballots of version 1. These come last, since the database
/// keeps what it takes out in memory, and by then the desk is gone from there.
fn move_ballots<S: Alter>(
    alloc: Global,
    tx: &mut Transaction<'_, S>,
    desk: Desk,
) -> Result<(), Fault>
    ensures makes { HasCleanDisk (state S.Store tx.new.conn.now)
        → IsTrue (state S.Store tx.old.conn.now).in_transaction
        → (db : Database) (ballots : Table) → IsBallotTable1 ballots
        → (own : HasOwnTablesWith ballots db.schema) → IsDatabase db
        → (state S.Store tx.old.conn.now).now ≡ db
        → OnOk result (Migrates desk db own (state S.Store tx.new.conn.now).now) }
    ensures same_reference { tx.new.conn.ghost_name ≡ tx.old.conn.ghost_name }
    ensures inside { HasCleanDisk (state S.Store tx.new.conn.now)
        → IsTrue (state S.Store tx.old.conn.now).in_transaction
        → OnOk result (IsTrue (state S.Store tx.new.conn.now).in_transaction) }
    ensures survives { Survives (state S.Store tx.old.conn.now) (state S.Store tx.new.conn.now)
        (λ _. ⊥) }
    ensures faults { IfErr result IsOfStore }
    ensures caused { HasCleanDisk (state S.Store tx.new.conn.now)
        → IsTrue (state S.Store tx.old.conn.now).in_transaction
        → (db : Database) (ballots : Table) → IsBallotTable1 ballots
        → (own : HasOwnTablesWith ballots db.schema) → IsDatabase db
        → (state S.Store tx.old.conn.now).now ≡ db
        → IfErr result (λ fault. fault ≡ faults.Store
        → DiskFails (state S.Store tx.old.conn.now) (state S.Store tx.new.conn.now)
        ⊎ CannotMove (state S.Store tx.old.conn.now).step_limit desk db own) }
{
    let header = Header {
        version: VERSION,
        accepted: desk.accepted(),
        clock: desk.clock(),
    };
    BallotRow::create(tx)?;
    put(alloc, tx, &Change::Header(header))?;
    put_ballots(alloc, tx, desk.into_ballots())?;
    clear_ballots(tx)?;
    Ok(())
}

/// Takes all rows out of the table of ballots of version 1.
fn clear_ballots<S: Alter>(tx: &mut Transaction<'_, S>) -> Result<usize, Error>
    ensures clears { HasCleanDisk (state S.Store tx.new.conn.now)
        → IsTrue (state S.Store tx.old.conn.now).in_transaction
        → (ballots : Table) → IsBallotTable1 ballots
        → (own : HasOwnTable (state S.Store tx.old.conn.now).now.schema ballots)
        → OnOk result (Clears (in_its_tree own) (state S.Store tx.old.conn.now).now
        (state S.Store tx.new.conn.now).now) }
    ensures caused { HasCleanDisk (state S.Store tx.new.conn.now)
        → IsTrue (state S.Store tx.old.conn.now).in_transaction
        → (ballots : Table) → IsBallotTable1 ballots
        → HasOwnTable (state S.Store tx.old.conn.now).now.schema ballots
        → IfErr result (IsCaused (state S.Store tx.old.conn.now) (state S.Store tx.new.conn.now)
        (IsTextRefused (state S.Store tx.old.conn.now).step_limit ballot1_clear []
        (state S.Store tx.old.conn.now).now)) }
    ensures same_reference { tx.new.conn.ghost_name ≡ tx.old.conn.ghost_name }
    ensures inside { HasCleanDisk (state S.Store tx.new.conn.now)
        → IsTrue (state S.Store tx.old.conn.now).in_transaction
        → OnOk result (IsTrue (state S.Store tx.new.conn.now).in_transaction) }
    ensures survives { Survives (state S.Store tx.old.conn.now) (state S.Store tx.new.conn.now)
        (λ _. ⊥) }
{
    tx.execute("DELETE FROM ballot", &[])
}

/// Puts these ballots, those on one resolution after those on the one before. The memory of those
/// that were put is given back before the next are, so that the desk and the transaction are never
/// both whole in memory. After a failure there is no desk in memory any more.
fn put_ballots<S: Alter>(
    alloc: Global,
    tx: &mut Transaction<'_, S>,
    mut ballots: Ballots,
) -> Result<(), Fault>
    ensures puts { HasCleanDisk (state S.Store tx.new.conn.now)
        → IsTrue (state S.Store tx.old.conn.now).in_transaction
        → (schema : Schema) (own : HasOwnTables schema)
        → (state S.Store tx.old.conn.now).now.schema ≡ schema
        → (s : State) → IsValid s → s.ballots ≡ ballots
        → OnOk result (PutsBallots own s (state S.Store tx.old.conn.now).now
        (state S.Store tx.new.conn.now).now) }
    ensures same_reference { tx.new.conn.ghost_name ≡ tx.old.conn.ghost_name }
    ensures inside { HasCleanDisk (state S.Store tx.new.conn.now)
        → IsTrue (state S.Store tx.old.conn.now).in_transaction
        → OnOk result (IsTrue (state S.Store tx.new.conn.now).in_transaction) }
    ensures survives { Survives (state S.Store tx.old.conn.now) (state S.Store tx.new.conn.now)
        (λ _. ⊥) }
    ensures faults { IfErr result IsOfStore }
    ensures caused { HasCleanDisk (state S.Store tx.new.conn.now)
        → IsTrue (state S.Store tx.old.conn.now).in_transaction
        → (schema : Schema) (own : HasOwnTables schema)
        → (state S.Store tx.old.conn.now).now.schema ≡ schema
        → (s : State) → IsValid s → s.ballots ≡ ballots
        → IfErr result (λ fault. fault ≡ faults.Store
        → DiskFails (state S.Store tx.old.conn.now) (state S.Store tx.new.conn.now)
        ⊎ CannotPutBallots own (state S.Store tx.old.conn.now).step_limit s
        (state S.Store tx.old.conn.now).now) }
{
    for number in 1..MAX_RESOLUTIONS as u32 + 1 {
        let changes = ballots.take_out(alloc, number)?;
        put_changes(alloc, tx, &changes)?;
    }
    Ok(())
}
