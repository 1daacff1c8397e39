//! The table `desk`, which has one row.

ghost use Rattle.gr_store.specs.Columns.{desk_kinds};
ghost use Rattle.gr_store.specs.Puts.{desk_put};
ghost use Rattle.gr_store.specs.Schema.{desk_table, desk_text};
ghost use Rattle.gr_store.specs.Selects.{desk_select};

use crate::tables::{SelectedRow, TableRow, has_columns};
use gr_core::HeaderRow;
use sqlite::{Error, Row, Transaction, params};
use sqlite_trees::store::Alter;

impl SelectedRow for HeaderRow {
    ghost table = { desk_table };

    ghost select_text = { desk_select };

    ghost kinds = { desk_kinds };

    fn select() -> &'static str {
        "SELECT id, version, accepted, clock FROM desk ORDER BY id"
    }

    fn read(row: &Row) -> Result<HeaderRow, Error> {
        has_columns(row, 4)?;
        Ok(HeaderRow {
            id: row.get(0)?,
            version: row.get(1)?,
            accepted: row.get(2)?,
            clock: row.get(3)?,
        })
    }
}

impl TableRow for HeaderRow {
    ghost create_text = { desk_text };

    ghost put_text = { desk_put };

    fn create<S: Alter>(tx: &mut Transaction<'_, S>) -> Result<usize, Error> {
        tx.execute(
            "CREATE TABLE desk (id INTEGER PRIMARY KEY, version INTEGER NOT NULL,
  accepted INTEGER NOT NULL, clock INTEGER NOT NULL) STRICT",
            &[],
        )
    }

    fn put<S: Alter>(&self, tx: &mut Transaction<'_, S>) -> Result<usize, Error> {
        tx.execute(
            "INSERT OR REPLACE INTO desk (id, version, accepted, clock) VALUES (?1, ?2, ?3, ?4)",
            params![&self.id, &self.version, &self.accepted, &self.clock],
        )
    }
}
