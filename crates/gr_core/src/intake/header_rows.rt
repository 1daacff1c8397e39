//! The rows of the table `desk` that an intake took.
ghost use Rattle.std.specs.Prelude.{◌≡◌, ◌≢◌, List, [], ◌∷◌, ◌++◌, IfOk, IfSome, IsErr, IsNone};
ghost use Rattle.gr_core.specs.declared.header.Header.{Header};
ghost use Rattle.gr_core.specs.Columns.Fields.{Field, header_fields, FitsHeader};
ghost use Rattle.gr_core.specs.Columns.Intake.{AreHeaderRows};
ghost use Rattle.gr_core.specs.Columns.Stored.{fields_of_header};

use crate::header::Header;
use crate::rows::HeaderRow;
use crate::unfit::Damaged;

/// The rows of the table `desk`, which has one row in a desk.
#[derive(Clone, Copy, Debug, PartialEq, Eq, Drop)]
pub(crate) enum HeaderRows {
    /// No row was taken.
    Nothing,

    /// One row was taken.
    One(HeaderRow),

    /// More than one row was taken.
    Several,
}

impl HeaderRows {
    /// The rows with one more.
    pub(crate) fn with(self, row: HeaderRow) -> HeaderRows
        ensures { (rows : List (List Field)) → AreHeaderRows self rows
            → AreHeaderRows result (rows ++ fields_of_header row ∷ []) }
    {
        match self {
            HeaderRows::Nothing => HeaderRows::One(row),
            HeaderRows::One(_) | HeaderRows::Several => HeaderRows::Several,
        }
    }

    /// The row, where there is one and no other.
    pub(crate) fn only(self) -> Option<HeaderRow>
        ensures some { (rows : List (List Field)) → AreHeaderRows self rows
            → IfSome result (λ row. rows ≡ fields_of_header row ∷ []) }
        ensures none { (rows : List (List Field)) → AreHeaderRows self rows → IsNone result
            → (fields : List Field) → rows ≢ fields ∷ [] }
    {
        match self {
            HeaderRows::One(row) => Some(row),
            HeaderRows::Nothing | HeaderRows::Several => None,
        }
    }

    /// The header that the one row says.
    pub(crate) fn header(self) -> Result<Header, Damaged>
        ensures ok { (rows : List (List Field)) → AreHeaderRows self rows
            → IfOk result (λ header. (rows ≡ header_fields header ∷ []) × FitsHeader header) }
        ensures err { (rows : List (List Field)) → AreHeaderRows self rows → IsErr result
            → (header : Header) → FitsHeader header → rows ≢ header_fields header ∷ [] }
    {
        match self.only() {
            Some(row) => row.header(),
            None => Err(Damaged),
        }
    }
}
