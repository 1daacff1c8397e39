//! The table `sponsor`, by the choice and the login.

ghost use Rattle.gr_store.specs.Columns.{sponsor_kinds};
ghost use Rattle.gr_store.specs.Puts.{sponsor_put};
ghost use Rattle.gr_store.specs.Schema.{sponsor_table, sponsor_text};
ghost use Rattle.gr_store.specs.Selects.{sponsor_select};

use crate::tables::{SelectedRow, TableRow, has_columns};
use gr_core::SponsorRow;
use sqlite::{Error, Row, Transaction, params};
use sqlite_trees::store::Alter;

impl SelectedRow for SponsorRow {
    ghost table = { sponsor_table };

    ghost select_text = { sponsor_select };

    ghost kinds = { sponsor_kinds };

    fn select() -> &'static str {
        "SELECT resolution, choice, login, active FROM sponsor \
             ORDER BY resolution, choice, login"
    }

    fn read(row: &Row) -> Result<SponsorRow, Error> {
        has_columns(row, 4)?;
        Ok(SponsorRow {
            resolution: row.get(0)?,
            choice: row.get(1)?,
            login: row.get(2)?,
            active: row.get(3)?,
        })
    }
}

impl TableRow for SponsorRow {
    ghost create_text = { sponsor_text };

    ghost put_text = { sponsor_put };

    fn create<S: Alter>(tx: &mut Transaction<'_, S>) -> Result<usize, Error> {
        tx.execute(
            "CREATE TABLE sponsor (resolution INTEGER NOT NULL, choice INTEGER NOT NULL,
  login TEXT NOT NULL, active INTEGER NOT NULL,
  PRIMARY KEY (resolution, choice, login)) STRICT",
            &[],
        )
    }

    fn put<S: Alter>(&self, tx: &mut Transaction<'_, S>) -> Result<usize, Error> {
        tx.execute(
            "INSERT OR REPLACE INTO sponsor (resolution, choice, login, active) \
             VALUES (?1, ?2, ?3, ?4)",
            params![&self.resolution, &self.choice, &self.login, &self.active],
        )
    }
}
