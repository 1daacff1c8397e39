//! The table `choice`, by the resolution and the number of the choice there.

ghost use Rattle.gr_store.specs.Columns.{choice_kinds};
ghost use Rattle.gr_store.specs.Puts.{choice_put};
ghost use Rattle.gr_store.specs.Schema.{choice_table, choice_text};
ghost use Rattle.gr_store.specs.Selects.{choice_select};

use crate::tables::{SelectedRow, TableRow, has_columns};
use gr_core::ChoiceRow;
use sqlite::{Error, Row, Transaction, params};
use sqlite_trees::store::Alter;

impl SelectedRow for ChoiceRow {
    ghost table = { choice_table };

    ghost select_text = { choice_select };

    ghost kinds = { choice_kinds };

    fn select() -> &'static str {
        "SELECT resolution, number, kind, proposer, summary, body, ratio, introduced, short, \
             place FROM choice ORDER BY resolution, number"
    }

    fn read(row: &Row) -> Result<ChoiceRow, Error> {
        has_columns(row, 10)?;
        Ok(ChoiceRow {
            resolution: row.get(0)?,
            number: row.get(1)?,
            kind: row.get(2)?,
            proposer: row.get(3)?,
            summary: row.get(4)?,
            body: row.get(5)?,
            ratio: row.get(6)?,
            introduced: row.get(7)?,
            short: row.get(8)?,
            place: row.get(9)?,
        })
    }
}

impl TableRow for ChoiceRow {
    ghost create_text = { choice_text };

    ghost put_text = { choice_put };

    fn create<S: Alter>(tx: &mut Transaction<'_, S>) -> Result<usize, Error> {
        tx.execute(
            "CREATE TABLE choice (resolution INTEGER NOT NULL, number INTEGER NOT NULL,
  kind INTEGER NOT NULL, proposer TEXT NOT NULL, summary TEXT NOT NULL,
  body TEXT NOT NULL, ratio INTEGER NOT NULL, introduced INTEGER NOT NULL,
  short INTEGER NOT NULL, place INTEGER NOT NULL,
  PRIMARY KEY (resolution, number)) STRICT",
            &[],
        )
    }

    fn put<S: Alter>(&self, tx: &mut Transaction<'_, S>) -> Result<usize, Error> {
        tx.execute(
            "INSERT OR REPLACE INTO choice (resolution, number, kind, proposer, summary, body, \
             ratio, introduced, short, place) \
             VALUES (?1, ?2, ?3, ?4, ?5, ?6, ?7, ?8, ?9, ?10)",
            params![
                &self.resolution,
                &self.number,
                &self.kind,
                &self.proposer,
                &self.summary,
                &self.body,
                &self.ratio,
                &self.introduced,
                &self.short,
                &self.place
            ],
        )
    }
}
