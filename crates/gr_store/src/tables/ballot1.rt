//! The table `ballot` of version 1, by the resolution and the login. It is read, and no row is put
//! into it.

ghost use Rattle.gr_store.specs.Columns.{ballot1_kinds};
ghost use Rattle.gr_store.specs.Schema.{ballot1_table};
ghost use Rattle.gr_store.specs.Selects.{ballot1_select};

use crate::tables::{SelectedRow, has_columns};
use gr_core::BallotRow1;
use sqlite::{Error, Row};

impl SelectedRow for BallotRow1 {
    ghost table = { ballot1_table };

    ghost select_text = { ballot1_select };

    ghost kinds = { ballot1_kinds };

    fn select() -> &'static str {
        "SELECT resolution, login, ranks, receipt FROM ballot ORDER BY resolution, login"
    }

    fn read(row: &Row) -> Result<BallotRow1, Error> {
        has_columns(row, 4)?;
        Ok(BallotRow1 {
            resolution: row.get(0)?,
            login: row.get(1)?,
            ranks: row.get(2)?,
            receipt: row.get(3)?,
        })
    }
}
