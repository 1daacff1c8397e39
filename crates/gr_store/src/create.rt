//! The tables of a new desk.
ghost use Rattle.std.specs.Prelude.{◌≡◌, ◌⊎◌, false, IfErr, OnOk, IsTrue};
ghost use Rattle.gr_store.specs.declared.fault.Fault.TheVariants as faults;
ghost use Rattle.gr_store.specs.Causes.{DiskFails, CannotMakeDesk};
ghost use Rattle.gr_store.specs.Content.{IsSettled};
ghost use Rattle.gr_store.specs.Faults.{IsOfStore};
ghost use Rattle.gr_store.specs.Commits.{IsNewDesk, HasNewDesk};
ghost use Rattle.sqlite.specs.Effect.{IsDatabase};
ghost use Rattle.sqlite.specs.Held.{state};
ghost use Rattle.sqlite.specs.State.{HasCleanDisk, Survives};

use crate::commit::put;
use crate::fault::Fault;
use crate::tables;
use gr_core::{Change, Header};
use sqlite::Connection;
use sqlite_trees::store::Alter;
use std::alloc::Global;

/// Makes the six tables with the header of a new desk, in one transaction, beside whatever tables
/// there are.
///
/// After an error the database is as it was, or the transaction has been committed. A crash during
/// the call leaves one of these two as well.
pub(crate) fn create<S: Alter>(alloc: Global, conn: &mut Connection<S>) -> Result<(), Fault>
    requires { conn.old.in_transaction ≡ false }
    ensures makes { HasCleanDisk (state S.Store conn.new) → IsTrue (state S.Store conn.old).is_open
        → IsDatabase (state S.Store conn.old).now
        → OnOk result (IsNewDesk (state S.Store conn.old).now (state S.Store conn.new).now) }
    ensures settled { HasCleanDisk (state S.Store conn.new)
        → OnOk result (IsSettled (state S.Store conn.new)) }
    ensures faults { IfErr result IsOfStore }
    ensures caused { HasCleanDisk (state S.Store conn.new)
        → (IsTrue (state S.Store conn.old).is_open → IsDatabase (state S.Store conn.old).now)
        → IfErr result (λ fault. fault ≡ faults.Store
        → DiskFails (state S.Store conn.old) (state S.Store conn.new)
        ⊎ CannotMakeDesk (state S.Store conn.old).step_limit (state S.Store conn.old).now) }
    ensures outside { conn.new.in_transaction ≡ false }
    ensures clean { HasCleanDisk (state S.Store conn.new) → HasCleanDisk (state S.Store conn.old) }
    ensures crash { (IsTrue (state S.Store conn.old).is_open
        → IsDatabase (state S.Store conn.old).now)
        → Survives (state S.Store conn.old) (state S.Store conn.new)
        (HasNewDesk (state S.Store conn.old).now) }
{
    let mut tx = conn.transaction();
    tables::create(&mut tx)?;
    put(alloc, &mut tx, &Change::Header(Header::NEW))?;
    tx.commit()?;
    Ok(())
}
