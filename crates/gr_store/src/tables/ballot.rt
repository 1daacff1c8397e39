//! The table `ballot2`, by the resolution and the login.
//!
//! A ballot is put by an upsert, and a row of each other table by `INSERT OR REPLACE`. That takes
//! out the row with the key and its entry in the index, and puts both anew. The upsert changes the
//! row in its place, and takes four fifths of the time for a ballot that replaces one
//! (bench/README.md). The header and the resolutions have no index beside their rowid, and rows of
//! the other three tables are seldom replaced. So they keep the shorter text.

ghost use Rattle.gr_store.specs.Columns.{ballot_kinds};
ghost use Rattle.gr_store.specs.Puts.{ballot_put};
ghost use Rattle.gr_store.specs.Schema.{ballot_table, ballot_text};
ghost use Rattle.gr_store.specs.Selects.{ballot_select};

use crate::tables::{SelectedRow, TableRow, has_columns};
use gr_core::BallotRow;
use sqlite::{Error, Row, Transaction, params};
use sqlite_trees::store::Alter;

impl SelectedRow for BallotRow {
    ghost table = { ballot_table };

    ghost select_text = { ballot_select };

    ghost kinds = { ballot_kinds };

    fn select() -> &'static str {
        "SELECT resolution, login, ranks, receipt, received FROM ballot2 \
             ORDER BY resolution, login"
    }

    fn read(row: &Row) -> Result<BallotRow, Error> {
        has_columns(row, 5)?;
        Ok(BallotRow {
            resolution: row.get(0)?,
            login: row.get(1)?,
            ranks: row.get(2)?,
            receipt: row.get(3)?,
            received: row.get(4)?,
        })
    }
}

impl TableRow for BallotRow {
    ghost create_text = { ballot_text };

    ghost put_text = { ballot_put };

    fn create<S: Alter>(tx: &mut Transaction<'_, S>) -> Result<usize, Error> {
        tx.execute(
            "CREATE TABLE ballot2 (resolution INTEGER NOT NULL, login TEXT NOT NULL,
  ranks TEXT NOT NULL, receipt TEXT NOT NULL, received INTEGER NOT NULL,
  PRIMARY KEY (resolution, login)) STRICT",
            &[],
        )
    }

    fn put<S: Alter>(&self, tx: &mut Transaction<'_, S>) -> Result<usize, Error> {
        tx.execute(
            "INSERT INTO ballot2 (resolution, login, ranks, receipt, received) \
             VALUES (?1, ?2, ?3, ?4, ?5) ON CONFLICT (resolution, login) \
             DO UPDATE SET ranks = excluded.ranks, receipt = excluded.receipt, \
             received = excluded.received",
            params![
                &self.resolution,
                &self.login,
                &self.ranks,
                &self.receipt,
                &self.received
            ],
        )
    }
}
