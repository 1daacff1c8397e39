//! The table `developer`, by login.

ghost use Rattle.gr_store.specs.Columns.{developer_kinds};
ghost use Rattle.gr_store.specs.Puts.{developer_put};
ghost use Rattle.gr_store.specs.Schema.{developer_table, developer_text};
ghost use Rattle.gr_store.specs.Selects.{developer_select};

use crate::tables::{SelectedRow, TableRow, has_columns};
use gr_core::DeveloperRow;
use sqlite::{Error, Row, Transaction, params};
use sqlite_trees::store::Alter;

impl SelectedRow for DeveloperRow {
    ghost table = { developer_table };

    ghost select_text = { developer_select };

    ghost kinds = { developer_kinds };

    fn select() -> &'static str {
        "SELECT login, name, active FROM developer ORDER BY login"
    }

    fn read(row: &Row) -> Result<DeveloperRow, Error> {
        has_columns(row, 3)?;
        Ok(DeveloperRow {
            login: row.get(0)?,
            name: row.get(1)?,
            active: row.get(2)?,
        })
    }
}

impl TableRow for DeveloperRow {
    ghost create_text = { developer_text };

    ghost put_text = { developer_put };

    fn create<S: Alter>(tx: &mut Transaction<'_, S>) -> Result<usize, Error> {
        tx.execute(
            "CREATE TABLE developer (login TEXT PRIMARY KEY NOT NULL, name TEXT NOT NULL,
  active INTEGER NOT NULL) STRICT",
            &[],
        )
    }

    fn put<S: Alter>(&self, tx: &mut Transaction<'_, S>) -> Result<usize, Error> {
        tx.execute(
            "INSERT OR REPLACE INTO developer (login, name, active) VALUES (?1, ?2, ?3)",
            params![&self.login, &self.name, &self.active],
        )
    }
}
