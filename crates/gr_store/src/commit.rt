//! Commits: changes put into the tables in one transaction.
ghost use Rattle.std.specs.Prelude.{◌≡◌, ◌⊎◌, false, map, IfErr, OnOk, IsTrue};
ghost use Rattle.gr_store.specs.declared.fault.Fault.TheVariants as faults;
ghost use Rattle.gr_store.specs.Causes.{DiskFails, CannotPut, CannotPutAll};
ghost use Rattle.gr_store.specs.Content.{IsSettled};
ghost use Rattle.gr_store.specs.Faults.{IsOfStore};
ghost use Rattle.gr_core.specs.Machine.Row.{row_of};
ghost use Rattle.gr_store.specs.Own.{HasOwnTables};
ghost use Rattle.gr_store.specs.Commits.{PutsRow, PutsAll, HasPut};
ghost use Rattle.sqlite.specs.Held.{state};
ghost use Rattle.sqlite.specs.State.{HasCleanDisk, Survives};
ghost use Rattle.sqlite_schema.specs.declared.schema.Schema.{Schema};

use crate::fault::Fault;
use crate::tables::TableRow;
use gr_core::{BallotRow, Change, ChoiceRow, DeveloperRow, HeaderRow, ResolutionRow, SponsorRow};
use sqlite::{Connection, Transaction};
use sqlite_trees::store::Alter;
use std::alloc::Global;

/// Puts the row of the change, in the place of the one with its key where there is one.
pub(crate) fn put<S: Alter>(
    alloc: Global,
    tx: &mut Transaction<'_, S>,
    change: &Change,
) -> Result<(), Fault>
    ensures puts { HasCleanDisk (state S.Store tx.new.conn.now)
        → IsTrue (state S.Store tx.old.conn.now).in_transaction
        → (schema : Schema) (own : HasOwnTables schema)
        → (state S.Store tx.old.conn.now).now.schema ≡ schema
        → OnOk result (PutsRow own (row_of change.now) (state S.Store tx.old.conn.now).now
        (state S.Store tx.new.conn.now).now) }
    ensures same_reference { tx.new.conn.ghost_name ≡ tx.old.conn.ghost_name }
    ensures inside { HasCleanDisk (state S.Store tx.new.conn.now)
        → IsTrue (state S.Store tx.old.conn.now).in_transaction
        → OnOk result (IsTrue (state S.Store tx.new.conn.now).in_transaction) }
    ensures survives { Survives (state S.Store tx.old.conn.now) (state S.Store tx.new.conn.now)
        (λ _. ⊥) }
    ensures faults { IfErr result IsOfStore }
    ensures caused { HasCleanDisk (state S.Store tx.new.conn.now)
        → IsTrue (state S.Store tx.old.conn.now).in_transaction
        → (schema : Schema) (own : HasOwnTables schema)
        → (state S.Store tx.old.conn.now).now.schema ≡ schema
        → IfErr result (λ fault. fault ≡ faults.Store
        → DiskFails (state S.Store tx.old.conn.now) (state S.Store tx.new.conn.now)
        ⊎ CannotPut (state S.Store tx.old.conn.now).step_limit (row_of change.now)
        (state S.Store tx.old.conn.now).now) }
{
    match change {
        Change::Header(header) => {
            let row = HeaderRow::of(*header)?;
            row.put(tx)?;
        }
        Change::Developer { login, developer } => {
            let row = DeveloperRow::of(alloc, login, developer)?;
            row.put(tx)?;
        }
        Change::Resolution { number, resolution } => {
            let row = ResolutionRow::of(*number, *resolution)?;
            row.put(tx)?;
        }
        Change::Choice { key, choice } => {
            let row = ChoiceRow::of(alloc, *key, choice)?;
            row.put(tx)?;
        }
        Change::Sponsor {
            choice,
            login,
            sponsorship,
        } => {
            let row = SponsorRow::of(alloc, *choice, login, *sponsorship)?;
            row.put(tx)?;
        }
        Change::Ballot {
            resolution,
            login,
            ballot,
        } => {
            let row = BallotRow::of(alloc, *resolution, login, ballot)?;
            row.put(tx)?;
        }
    }
    Ok(())
}

/// Puts the rows of the changes, the first of them first.
pub(crate) fn put_changes<S: Alter>(
    alloc: Global,
    tx: &mut Transaction<'_, S>,
    changes: &[Change],
) -> Result<(), Fault>
    ensures puts { HasCleanDisk (state S.Store tx.new.conn.now)
        → IsTrue (state S.Store tx.old.conn.now).in_transaction
        → (schema : Schema) (own : HasOwnTables schema)
        → (state S.Store tx.old.conn.now).now.schema ≡ schema
        → OnOk result (PutsAll own (map row_of changes.now) (state S.Store tx.old.conn.now).now
        (state S.Store tx.new.conn.now).now) }
    ensures same_reference { tx.new.conn.ghost_name ≡ tx.old.conn.ghost_name }
    ensures inside { HasCleanDisk (state S.Store tx.new.conn.now)
        → IsTrue (state S.Store tx.old.conn.now).in_transaction
        → OnOk result (IsTrue (state S.Store tx.new.conn.now).in_transaction) }
    ensures survives { Survives (state S.Store tx.old.conn.now) (state S.Store tx.new.conn.now)
        (λ _. ⊥) }
    ensures faults { IfErr result IsOfStore }
    ensures caused { HasCleanDisk (state S.Store tx.new.conn.now)
        → IsTrue (state S.Store tx.old.conn.now).in_transaction
        → (schema : Schema) (own : HasOwnTables schema)
        → (state S.Store tx.old.conn.now).now.schema ≡ schema
        → IfErr result (λ fault. fault ≡ faults.Store
        → DiskFails (state S.Store tx.old.conn.now) (state S.Store tx.new.conn.now)
        ⊎ CannotPutAll own (state S.Store tx.old.conn.now).step_limit (map row_of changes.now)
        (state S.Store tx.old.conn.now).now) }
{
    for change in changes {
        put(alloc, tx, change)?;
    }
    Ok(())
}

/// Puts the rows of the changes in one transaction, the first of them first.
///
/// After an error the rows are as they were, or the transaction has been committed. A crash during
/// the call leaves one of these two as well. A change that has no row is such an error, though it
/// changes nothing: no plan has one, and one rule for all errors is simpler than two.
pub(crate) fn commit<S: Alter>(
    alloc: Global,
    conn: &mut Connection<S>,
    changes: &[Change],
) -> Result<(), Fault>
    requires { conn.old.in_transaction ≡ false }
    ensures puts { HasCleanDisk (state S.Store conn.new) → IsTrue (state S.Store conn.old).is_open
        → (schema : Schema) (own : HasOwnTables schema)
        → (state S.Store conn.old).now.schema ≡ schema
        → OnOk result (PutsAll own (map row_of changes.now) (state S.Store conn.old).now
        (state S.Store conn.new).now) }
    ensures settled { HasCleanDisk (state S.Store conn.new)
        → OnOk result (IsSettled (state S.Store conn.new)) }
    ensures faults { IfErr result IsOfStore }
    ensures caused { HasCleanDisk (state S.Store conn.new)
        → (schema : Schema) (own : HasOwnTables schema)
        → (state S.Store conn.old).now.schema ≡ schema
        → IfErr result (λ fault. fault ≡ faults.Store
        → DiskFails (state S.Store conn.old) (state S.Store conn.new)
        ⊎ CannotPutAll own (state S.Store conn.old).step_limit (map row_of changes.now)
        (state S.Store conn.old).now) }
    ensures outside { conn.new.in_transaction ≡ false }
    ensures clean { HasCleanDisk (state S.Store conn.new) → HasCleanDisk (state S.Store conn.old) }
    ensures crash { (schema : Schema) (own : HasOwnTables schema)
        → (state S.Store conn.old).now.schema ≡ schema
        → Survives (state S.Store conn.old) (state S.Store conn.new)
        (HasPut own (map row_of changes.now) (state S.Store conn.old).now) }
{
    let mut tx = conn.transaction();
    put_changes(alloc, &mut tx, changes)?;
    tx.commit()?;
    Ok(())
}
