//! The header, as the row of the table `desk`.
ghost use Rattle.std.specs.Prelude.{◌≡◌, ◌≢◌, IfErr, IfOk, IsErr};
ghost use Rattle.gr_core.specs.declared.rows.NoRow.TheVariants.{TooGreat};
ghost use Rattle.gr_core.specs.declared.header.Header.{Header};
ghost use Rattle.gr_core.specs.Columns.Fields.{header_fields, FitsHeader};
ghost use Rattle.gr_core.specs.Columns.Stored.{fields_of_header};

use super::number::{read_small, read_whole, whole};
use super::{HeaderRow, NoRow};
use crate::header::Header;
use crate::unfit::Damaged;

/// The id of the one row.
pub const HEADER_ID: i64 = 1;

impl HeaderRow {
    /// The row of the header. [`NoRow::TooGreat`] alone: a number is too great for a column.
    pub fn of(header: Header) -> Result<HeaderRow, NoRow>
        ensures ok { IfOk result (λ row. fields_of_header row ≡ header_fields header) }
        ensures err { IfErr result (λ no_row. (no_row ≡ TooGreat) × (¬ (FitsHeader header))) }
    {
        Ok(HeaderRow {
            id: HEADER_ID,
            version: i64::from(header.version),
            accepted: whole(header.accepted)?,
            clock: whole(header.clock)?,
        })
    }

    /// The header that the row says.
    pub(crate) fn header(self) -> Result<Header, Damaged>
        ensures ok { IfOk result (λ header. (header_fields header ≡ fields_of_header self)
            × FitsHeader header) }
        ensures err { IsErr result → (header : Header) → FitsHeader header
            → header_fields header ≢ fields_of_header self }
    {
        if self.id != HEADER_ID {
            return Err(Damaged);
        }
        Ok(Header {
            version: read_small(self.version)?,
            accepted: read_whole(self.accepted)?,
            clock: read_whole(self.clock)?,
        })
    }
}
