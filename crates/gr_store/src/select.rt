//! Selects: the rows of a table, taken one at a time.
//!
//! One loop serves the six tables, with one call of `query` and one of `next`. Each table gives its
//! select as a text, with the promise that it selects the table (`SelectsTable`). A function for
//! each table that gave its rows back would have to repeat what `query` says of a connection that
//! is lent.
ghost use Rattle.std.specs.Prelude.{◌≡◌, ◌⊎◌, false, Err, IfErr, IsTrue, OnOk};
ghost use Rattle.gr_store.specs.declared.fault.Fault.TheVariants as faults;
ghost use Rattle.gr_store.specs.Causes.{DiskFails, IsCaused, IsStopped};
ghost use Rattle.gr_store.specs.Columns.{CannotHold};
ghost use Rattle.gr_store.specs.Content.{WritesNothing};
ghost use Rattle.gr_store.specs.Faults.{CanBeUnread, is_unreadable};
ghost use Rattle.gr_store.specs.SelectedTables.{HasPlainAnswer};
ghost use Rattle.gr_store.specs.Tabled.{HasColumnsOf};
ghost use Rattle.gr_store.specs.Takes.{TakesAnswer};
ghost use Rattle.sqlite.specs.Held.{state};
ghost use Rattle.sqlite.specs.State.{HasCleanDisk, IsUnchanged};

use crate::fault::{Fault, unread};
use crate::tables::SelectedRow;
use gr_core::Intake;
use sqlite::{Connection, Error, ErrorCode};
use sqlite_trees::store::Alter;

/// Takes the rows of one table, in the order of their keys.
///
/// [`Fault::Damaged`]: the table or a column is missing, or a column holds a value of another type.
/// [`Fault::Memory`]: the database, or the intake for a row, was refused memory.
/// [`Fault::Store`]: the rows could not be read. The rows that came before an error are taken.
pub(crate) fn take_table<T: SelectedRow, S: Alter>(
    conn: &mut Connection<S>,
    intake: &mut Intake,
) -> Result<(), Fault>
    ensures taken { HasCleanDisk (state S.Store conn.new) → OnOk result
        (TakesAnswer T.select_text T.table_name T.meant (state S.Store conn.old).now intake.old
        intake.new) }
    ensures damaged { HasCleanDisk (state S.Store conn.new)
        → HasColumnsOf (state S.Store conn.old).now.schema T.table
        → result ≡ Err faults.Damaged
        → CannotHold T.select_text T.kinds (state S.Store conn.old).now }
    ensures plain { HasCleanDisk (state S.Store conn.new)
        → HasPlainAnswer T.select_text (state S.Store conn.old).now → result ≡ Err faults.Damaged
        → CannotHold T.select_text T.kinds (state S.Store conn.old).now }
    ensures faults { IfErr result CanBeUnread }
    ensures caused { HasCleanDisk (state S.Store conn.new)
        → IfErr result (λ fault. fault ≡ faults.Store
        → DiskFails (state S.Store conn.old) (state S.Store conn.new)
        ⊎ IsStopped (state S.Store conn.old).step_limit T.select_text
        (state S.Store conn.old).now) }
    ensures unchanged { HasCleanDisk (state S.Store conn.new)
        → OnOk result (IsUnchanged (state S.Store conn.old) (state S.Store conn.new)) }
    ensures writes_nothing { WritesNothing (state S.Store conn.old) (state S.Store conn.new) }
    ensures outside { conn.old.in_transaction ≡ false → conn.new.in_transaction ≡ false }
{
    take_rows::<T, S>(conn, intake).map_err(unread)
}

/// Takes the rows of one table, and lets each go as soon as it is taken. An error is that of the
/// database, of a row that cannot be read, or running out of memory for a row.
fn take_rows<T: SelectedRow, S: Alter>(
    conn: &mut Connection<S>,
    intake: &mut Intake,
) -> Result<(), Error>
    ensures taken { HasCleanDisk (state S.Store conn.new) → OnOk result
        (TakesAnswer T.select_text T.table_name T.meant (state S.Store conn.old).now intake.old
        intake.new) }
    ensures unreadable { HasCleanDisk (state S.Store conn.new)
        → HasColumnsOf (state S.Store conn.old).now.schema T.table
        → IfErr result (λ e. IsTrue (is_unreadable e)
        → CannotHold T.select_text T.kinds (state S.Store conn.old).now) }
    ensures plain { HasCleanDisk (state S.Store conn.new)
        → HasPlainAnswer T.select_text (state S.Store conn.old).now
        → IfErr result (λ e. IsTrue (is_unreadable e)
        → CannotHold T.select_text T.kinds (state S.Store conn.old).now) }
    ensures caused { HasCleanDisk (state S.Store conn.new)
        → IfErr result (λ e. IsTrue (is_unreadable e)
        ⊎ IsCaused (state S.Store conn.old) (state S.Store conn.new)
        (IsStopped (state S.Store conn.old).step_limit T.select_text
        (state S.Store conn.old).now) e) }
    ensures unchanged { HasCleanDisk (state S.Store conn.new)
        → OnOk result (IsUnchanged (state S.Store conn.old) (state S.Store conn.new)) }
    ensures writes_nothing { WritesNothing (state S.Store conn.old) (state S.Store conn.new) }
    ensures outside { conn.old.in_transaction ≡ false → conn.new.in_transaction ≡ false }
{
    let mut rows = conn.query(T::select(), &[])?;
    'rows: for _ in 0..u64::MAX {
        let Some(row) = rows.next()? else {
            return Ok(());
        };
        let row = T::read(row)?;
        let Ok(()) = intake.take(row.into_row()) else {
            // As the engine says it of its own memory, so that `unread` reads each error here.
            return Err(Error::SqliteFailure(ErrorCode::OutOfMemory));
        };
    }
    // No table has so many rows: the loop has a bound because it is proved to end.
    Err(Error::SqliteFailure(ErrorCode::OutOfMemory))
}
