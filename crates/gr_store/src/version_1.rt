//! A new desk of version 1, as the program of that version made it: what is said of that version
//! speaks of it.
ghost use Rattle.std.specs.Prelude.{◌≡◌, false, IfErr, OnOk, IsTrue};
ghost use Rattle.gr_store.specs.Content.{IsSettled};
ghost use Rattle.gr_store.specs.Faults.{IsOfStore};
ghost use Rattle.gr_store.specs.Makes.{MakesTable};
ghost use Rattle.gr_store.specs.Schema.{ballot1_table};
ghost use Rattle.gr_store.specs.Version1.{HasNewTables1, IsNewDesk1};
ghost use Rattle.sqlite.specs.Effect.{IsDatabase};
ghost use Rattle.sqlite.specs.Held.{state};
ghost use Rattle.sqlite.specs.State.{HasCleanDisk, Survives};

use crate::fault::Fault;
use crate::tables::TableRow;
use gr_core::{ChoiceRow, DeveloperRow, HeaderRow, ResolutionRow, SponsorRow};
use sqlite::{Connection, Error, Transaction};
use sqlite_trees::store::Alter;

/// Makes the six tables of version 1 with the header of a new desk, in one transaction.
pub(crate) fn create<S: Alter>(conn: &mut Connection<S>) -> Result<(), Fault>
    requires { conn.old.in_transaction ≡ false }
    ensures makes { HasCleanDisk (state S.Store conn.new) → IsTrue (state S.Store conn.old).is_open
        → IsDatabase (state S.Store conn.old).now
        → OnOk result (IsNewDesk1 (state S.Store conn.old).now (state S.Store conn.new).now) }
    ensures settled { HasCleanDisk (state S.Store conn.new)
        → OnOk result (IsSettled (state S.Store conn.new)) }
    ensures faults { IfErr result IsOfStore }
    ensures outside { conn.new.in_transaction ≡ false }
{
    let header = HeaderRow {
        id: 1,
        version: 1,
        accepted: 0,
        clock: 0,
    };
    let mut tx = conn.transaction();
    create_tables(&mut tx)?;
    header.put(&mut tx)?;
    tx.commit()?;
    Ok(())
}

/// Makes the six tables of version 1, with no rows, beside whatever tables there are.
fn create_tables<S: Alter>(tx: &mut Transaction<'_, S>) -> Result<(), Error>
    ensures makes { HasCleanDisk (state S.Store tx.new.conn.now)
        → IsTrue (state S.Store tx.old.conn.now).in_transaction
        → (IsTrue (state S.Store tx.old.conn.now).is_open
        → IsDatabase (state S.Store tx.old.conn.now).now)
        → OnOk result (HasNewTables1 (state S.Store tx.old.conn.now).now
        (state S.Store tx.new.conn.now).now) }
    ensures same_reference { tx.new.conn.ghost_name ≡ tx.old.conn.ghost_name }
    ensures inside { HasCleanDisk (state S.Store tx.new.conn.now)
        → IsTrue (state S.Store tx.old.conn.now).in_transaction
        → OnOk result (IsTrue (state S.Store tx.new.conn.now).in_transaction) }
    ensures survives { Survives (state S.Store tx.old.conn.now) (state S.Store tx.new.conn.now)
        (λ _. ⊥) }
{
    HeaderRow::create(tx)?;
    DeveloperRow::create(tx)?;
    ResolutionRow::create(tx)?;
    ChoiceRow::create(tx)?;
    SponsorRow::create(tx)?;
    create_ballots(tx)?;
    Ok(())
}

/// Makes the table of ballots of version 1, with no rows, beside whatever tables there are.
fn create_ballots<S: Alter>(tx: &mut Transaction<'_, S>) -> Result<usize, Error>
    ensures makes { HasCleanDisk (state S.Store tx.new.conn.now)
        → IsTrue (state S.Store tx.old.conn.now).in_transaction
        → (IsTrue (state S.Store tx.old.conn.now).is_open
        → IsDatabase (state S.Store tx.old.conn.now).now)
        → OnOk result (MakesTable ballot1_table (state S.Store tx.old.conn.now).now
        (state S.Store tx.new.conn.now).now) }
    ensures same_reference { tx.new.conn.ghost_name ≡ tx.old.conn.ghost_name }
    ensures inside { HasCleanDisk (state S.Store tx.new.conn.now)
        → IsTrue (state S.Store tx.old.conn.now).in_transaction
        → OnOk result (IsTrue (state S.Store tx.new.conn.now).in_transaction) }
    ensures survives { Survives (state S.Store tx.old.conn.now) (state S.Store tx.new.conn.now)
        (λ _. ⊥) }
{
    tx.execute(
        "CREATE TABLE ballot (resolution INTEGER NOT NULL, login TEXT NOT NULL,
  ranks TEXT NOT NULL, receipt TEXT NOT NULL,
  PRIMARY KEY (resolution, login)) STRICT",
        &[],
    )
}
