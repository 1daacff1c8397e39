//! The table `resolution`, by number.

ghost use Rattle.gr_store.specs.Columns.{resolution_kinds};
ghost use Rattle.gr_store.specs.Puts.{resolution_put};
ghost use Rattle.gr_store.specs.Schema.{resolution_table, resolution_text};
ghost use Rattle.gr_store.specs.Selects.{resolution_select};

use crate::tables::{SelectedRow, TableRow, has_columns};
use gr_core::ResolutionRow;
use sqlite::{Error, Row, Transaction, params};
use sqlite_trees::store::Alter;

impl SelectedRow for ResolutionRow {
    ghost table = { resolution_table };

    ghost select_text = { resolution_select };

    ghost kinds = { resolution_kinds };

    fn select() -> &'static str {
        "SELECT number, stage, start, changed, shift, called, days, devs, chosen \
             FROM resolution ORDER BY number"
    }

    fn read(row: &Row) -> Result<ResolutionRow, Error> {
        has_columns(row, 9)?;
        Ok(ResolutionRow {
            number: row.get(0)?,
            stage: row.get(1)?,
            start: row.get(2)?,
            changed: row.get(3)?,
            shift: row.get(4)?,
            called: row.get(5)?,
            days: row.get(6)?,
            devs: row.get(7)?,
            chosen: row.get(8)?,
        })
    }
}

impl TableRow for ResolutionRow {
    ghost create_text = { resolution_text };

    ghost put_text = { resolution_put };

    fn create<S: Alter>(tx: &mut Transaction<'_, S>) -> Result<usize, Error> {
        tx.execute(
            "CREATE TABLE resolution (number INTEGER PRIMARY KEY, stage INTEGER NOT NULL,
  start INTEGER NOT NULL, changed INTEGER NOT NULL, shift INTEGER NOT NULL,
  called INTEGER NOT NULL, days INTEGER NOT NULL, devs INTEGER NOT NULL,
  chosen INTEGER NOT NULL) STRICT",
            &[],
        )
    }

    fn put<S: Alter>(&self, tx: &mut Transaction<'_, S>) -> Result<usize, Error> {
        tx.execute(
            "INSERT OR REPLACE INTO resolution (number, stage, start, changed, shift, called, \
             days, devs, chosen) VALUES (?1, ?2, ?3, ?4, ?5, ?6, ?7, ?8, ?9)",
            params![
                &self.number,
                &self.stage,
                &self.start,
                &self.changed,
                &self.shift,
                &self.called,
                &self.days,
                &self.devs,
                &self.chosen
            ],
        )
    }
}
