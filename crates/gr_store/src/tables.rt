//! The six tables: for each the statement that makes it, one that puts a row by its key, and one
//! that reads its rows in the order of their keys.
ghost use Rattle.std.specs.Prelude.{◌≡◌, ◌≢◌, ◌⊎◌, ℕ, List, [], ◌∷◌, IfOk, IfErr, OnOk, IsTrue, is_some, ◌↔◌, length, map};
ghost use Rattle.gr_core.specs.Columns.Fields.{Field};
ghost use Rattle.gr_store.specs.Causes.{IsCaused, IsMemory, IsTextRefused, CannotMakeAll, six_tables};
ghost use Rattle.gr_store.specs.Columns.{Kind, AreOfKinds};
ghost use Rattle.gr_store.specs.Faults.{is_unreadable};
ghost use Rattle.gr_store.specs.Puts.{Puts};
ghost use Rattle.gr_store.specs.Rows.{value_of};
ghost use Rattle.gr_store.specs.Own.{HasOwnTable, in_its_tree};
ghost use Rattle.gr_store.specs.Schema.{HasSixTablesWith, is_occupied};
ghost use Rattle.sqlite_catalog.specs.Change.{is_used};
ghost use Rattle.gr_store.specs.SelectedTables.{SelectsTable};
ghost use Rattle.gr_store.specs.Makes.{MakesTable, MakesDesk};
ghost use Rattle.sqlite.specs.Effect.{IsDatabase};
ghost use Rattle.sqlite.specs.Held.{state};
ghost use Rattle.sqlite.specs.State.{HasCleanDisk, Survives};
ghost use Rattle.sqlite_schema.specs.declared.schema.Schema.{Schema};
ghost use Rattle.sqlite_schema.specs.declared.schema.Table.{Table};
ghost use Rattle.sqlite_schema.specs.Names.{table_named};

mod ballot;
mod ballot1;
mod choice;
mod desk;
mod developer;
mod resolution;
mod sponsor;

use gr_core::{BallotRow, ChoiceRow, DeveloperRow, HeaderRow, IntoRow, ResolutionRow, SponsorRow};
use sqlite::{Error, Row, Transaction};
use sqlite_schema::schema::Schema;
use sqlite_trees::store::Alter;

/// A row of an answer: how the rows of a table are selected, in the order of their keys, and read.
pub(crate) trait SelectedRow: IntoRow {
    /// The table.
    ghost table: { Table };

    /// The text that selects the columns of all rows, in the order of their keys.
    ghost select_text: { List ℕ };

    /// Of what kinds the columns are.
    ghost kinds: { List Kind };

    /// The text that selects the columns of all rows.
    fn select() -> &'static str
        ensures text { result.now ≡ select_text }
        ensures selects { SelectsTable select_text table };

    /// Reads one of these rows.
    fn read(row: &Row) -> Result<Self, Error>
        ensures ok { IfOk result (λ it. map value_of (Self.fields it) ≡ row.now) }
        ensures unreadable { IfErr result (λ e. IsTrue (is_unreadable e) → (kept : List Field)
            → AreOfKinds kinds kept → map value_of kept ≢ row.now) }
        ensures named { IfErr result (λ e. IsTrue (is_unreadable e) ⊎ IsMemory e) };
}

/// A row of one of the six tables: how the table is made, and the row put.
pub(crate) trait TableRow: SelectedRow {
    /// The text that makes the table.
    ghost create_text: { List ℕ };

    /// The text that puts a row.
    ghost put_text: { List ℕ };

    /// Makes the table, with no rows, beside whatever tables there are. Its statement is that of
    /// docs/formats.md, and so is the text in the schema: `gate/stock_sqlite` compares them,
    /// byte for byte, in the files that the store wrote.
    fn create<S: Alter>(tx: &mut Transaction<'_, S>) -> Result<usize, Error>
        ensures makes { HasCleanDisk (state S.Store tx.new.conn.now)
            → IsTrue (state S.Store tx.old.conn.now).in_transaction
            → (IsTrue (state S.Store tx.old.conn.now).is_open
            → IsDatabase (state S.Store tx.old.conn.now).now)
            → OnOk result (MakesTable Self.table (state S.Store tx.old.conn.now).now
            (state S.Store tx.new.conn.now).now) }
        ensures caused { HasCleanDisk (state S.Store tx.new.conn.now)
            → IsTrue (state S.Store tx.old.conn.now).in_transaction
            → IfErr result (IsCaused (state S.Store tx.old.conn.now) (state S.Store tx.new.conn.now)
            (IsTextRefused (state S.Store tx.old.conn.now).step_limit create_text []
            (state S.Store tx.old.conn.now).now)) }
        ensures same_reference { tx.new.conn.ghost_name ≡ tx.old.conn.ghost_name }
        ensures inside { HasCleanDisk (state S.Store tx.new.conn.now)
            → IsTrue (state S.Store tx.old.conn.now).in_transaction
            → OnOk result (IsTrue (state S.Store tx.new.conn.now).in_transaction) }
        ensures survives { Survives (state S.Store tx.old.conn.now) (state S.Store tx.new.conn.now)
            (λ _. ⊥) };

    /// Puts the row, in the place of the one with its key where there is one.
    fn put<S: Alter>(&self, tx: &mut Transaction<'_, S>) -> Result<usize, Error>
        ensures puts { HasCleanDisk (state S.Store tx.new.conn.now)
            → IsTrue (state S.Store tx.old.conn.now).in_transaction
            → (schema : Schema) (own : HasOwnTable schema Self.table)
            → (state S.Store tx.old.conn.now).now.schema ≡ schema
            → OnOk result (Puts (in_its_tree own) (Self.fields self.now)
            (state S.Store tx.old.conn.now).now (state S.Store tx.new.conn.now).now) }
        ensures caused { HasCleanDisk (state S.Store tx.new.conn.now)
            → IsTrue (state S.Store tx.old.conn.now).in_transaction
            → (schema : Schema) → HasOwnTable schema Self.table
            → (state S.Store tx.old.conn.now).now.schema ≡ schema
            → IfErr result (IsCaused (state S.Store tx.old.conn.now) (state S.Store tx.new.conn.now)
            (IsTextRefused (state S.Store tx.old.conn.now).step_limit put_text
            (map value_of (Self.fields self.now)) (state S.Store tx.old.conn.now).now)) }
        ensures same_reference { tx.new.conn.ghost_name ≡ tx.old.conn.ghost_name }
        ensures inside { HasCleanDisk (state S.Store tx.new.conn.now)
            → IsTrue (state S.Store tx.old.conn.now).in_transaction
            → OnOk result (IsTrue (state S.Store tx.new.conn.now).in_transaction) }
        ensures survives { Survives (state S.Store tx.old.conn.now) (state S.Store tx.new.conn.now)
            (λ _. ⊥) };
}

/// Whether an answer's row has so many columns.
fn has_columns(row: &Row, count: usize) -> Result<(), Error>
    ensures ok { IfOk result (λ _. length row.now ≡ count) }
    ensures err { IfErr result (λ e. IsTrue (is_unreadable e) × (length row.now ≢ count)) }
{
    if row.column_count() == count {
        Ok(())
    } else {
        Err(Error::InvalidColumnIndex(count))
    }
}

/// Whether there are tables with the six names, that of ballots with this one. A view in the place
/// of another table than `desk` is damage, though a select would read it.
pub(crate) fn are_there(schema: &Schema, ballots: &str) -> bool
    ensures { IsTrue result ↔ HasSixTablesWith ballots.now schema.now }
{
    is_there(schema, "desk")
        && is_there(schema, "developer")
        && is_there(schema, "resolution")
        && is_there(schema, "choice")
        && is_there(schema, "sponsor")
        && is_there(schema, ballots)
}

/// Whether there is a table with the name, with no regard to the case of ASCII letters, as SQL
/// compares names. A view or an index is no table: in the place of `desk` it leaves no desk.
pub(crate) fn is_there(schema: &Schema, name: &str) -> bool
    ensures { result ≡ is_some (table_named schema.now name.now) }
{
    schema.table_named(name.as_bytes()).is_some()
}

/// Whether one of the six names is taken, by a table, an index or a view.
pub(crate) fn is_occupied(schema: &Schema) -> bool
    ensures { result ≡ is_occupied schema.now }
{
    is_used(schema, "desk")
        || is_used(schema, "developer")
        || is_used(schema, "resolution")
        || is_used(schema, "choice")
        || is_used(schema, "sponsor")
        || is_used(schema, "ballot2")
}

/// Whether the name is taken, with no regard to the case of ASCII letters.
pub(crate) fn is_used(schema: &Schema, name: &str) -> bool
    ensures { result ≡ is_used schema.now name.now }
{
    schema.table_named(name.as_bytes()).is_some()
        || schema.index_named(name.as_bytes()).is_some()
        || schema.view_named(name.as_bytes()).is_some()
}

/// Makes the six tables, with no rows, beside whatever tables there are. It makes a call for each,
/// and not one batch, since `TableRow` says once for all what such a call does.
pub(crate) fn create<S: Alter>(tx: &mut Transaction<'_, S>) -> Result<(), Error>
    ensures makes { HasCleanDisk (state S.Store tx.new.conn.now)
        → IsTrue (state S.Store tx.old.conn.now).in_transaction
        → (IsTrue (state S.Store tx.old.conn.now).is_open
        → IsDatabase (state S.Store tx.old.conn.now).now)
        → OnOk result (MakesDesk (state S.Store tx.old.conn.now).now
        (state S.Store tx.new.conn.now).now) }
    ensures caused { HasCleanDisk (state S.Store tx.new.conn.now)
        → IsTrue (state S.Store tx.old.conn.now).in_transaction
        → (IsTrue (state S.Store tx.old.conn.now).is_open
        → IsDatabase (state S.Store tx.old.conn.now).now)
        → IfErr result (IsCaused (state S.Store tx.old.conn.now) (state S.Store tx.new.conn.now)
        (CannotMakeAll (state S.Store tx.old.conn.now).step_limit six_tables
        (state S.Store tx.old.conn.now).now)) }
    ensures same_reference { tx.new.conn.ghost_name ≡ tx.old.conn.ghost_name }
    ensures inside { HasCleanDisk (state S.Store tx.new.conn.now)
        → IsTrue (state S.Store tx.old.conn.now).in_transaction
        → OnOk result (IsTrue (state S.Store tx.new.conn.now).in_transaction) }
    ensures survives { Survives (state S.Store tx.old.conn.now) (state S.Store tx.new.conn.now)
        (λ _. ⊥) }
{
    HeaderRow::create(tx)?;
    DeveloperRow::create(tx)?;
    ResolutionRow::create(tx)?;
    ChoiceRow::create(tx)?;
    SponsorRow::create(tx)?;
    BallotRow::create(tx)?;
    Ok(())
}
