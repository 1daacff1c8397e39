//! The rows of each table, in this version or in version 1, as rows of any table.
ghost use Rattle.std.specs.Prelude.{◌≡◌, List, [], ◌∷◌};
ghost use Rattle.gr_core.specs.Columns.Fields.{Field};
ghost use Rattle.gr_core.specs.Columns.Intake.{as_it_is, with_row, with_more};
ghost use Rattle.gr_core.specs.Columns.Stored.{TableName};
ghost use Rattle.gr_core.specs.Columns.Stored.{DeskTable, DeveloperTable, ResolutionTable, ChoiceTable, SponsorTable, BallotTable};
ghost use Rattle.gr_core.specs.Columns.Stored.{Stored, fields_of_header, fields_of_developer, fields_of_resolution};
ghost use Rattle.gr_core.specs.Columns.Stored.{fields_of_choice, fields_of_sponsor, fields_of_ballot};
ghost use Rattle.gr_core.specs.Columns.Rows1.{fields_of_ballot1, lifted_fields};

use crate::rows::{
    BallotRow, BallotRow1, ChoiceRow, DeveloperRow, HeaderRow, ResolutionRow, Row, SponsorRow,
};

/// A row of one table, in this version or in version 1, as an intake takes it.
pub trait IntoRow: Sized + Drop {
    /// The table.
    ghost table_name: { TableName };

    /// What the row has in its columns.
    ghost fields: { Self → List Field };

    /// What a row with these columns says in this version.
    ghost meant: { List Field → List Field };

    /// The row in this version, as one of any table. Takes no memory.
    fn into_row(self) -> Row
        ensures { (rows : Stored) → with_row rows result
            ≡ with_more table_name rows (meant (fields self) ∷ []) };
}

impl IntoRow for HeaderRow {
    ghost table_name = { DeskTable };

    ghost fields = { fields_of_header };

    ghost meant = { as_it_is };

    fn into_row(self) -> Row {
        Row::Header(self)
    }
}

impl IntoRow for DeveloperRow {
    ghost table_name = { DeveloperTable };

    ghost fields = { fields_of_developer };

    ghost meant = { as_it_is };

    fn into_row(self) -> Row {
        Row::Developer(self)
    }
}

impl IntoRow for ResolutionRow {
    ghost table_name = { ResolutionTable };

    ghost fields = { fields_of_resolution };

    ghost meant = { as_it_is };

    fn into_row(self) -> Row {
        Row::Resolution(self)
    }
}

impl IntoRow for ChoiceRow {
    ghost table_name = { ChoiceTable };

    ghost fields = { fields_of_choice };

    ghost meant = { as_it_is };

    fn into_row(self) -> Row {
        Row::Choice(self)
    }
}

impl IntoRow for SponsorRow {
    ghost table_name = { SponsorTable };

    ghost fields = { fields_of_sponsor };

    ghost meant = { as_it_is };

    fn into_row(self) -> Row {
        Row::Sponsor(self)
    }
}

impl IntoRow for BallotRow {
    ghost table_name = { BallotTable };

    ghost fields = { fields_of_ballot };

    ghost meant = { as_it_is };

    fn into_row(self) -> Row {
        Row::Ballot(self)
    }
}

impl IntoRow for BallotRow1 {
    ghost table_name = { BallotTable };

    ghost fields = { fields_of_ballot1 };

    ghost meant = { lifted_fields };

    fn into_row(self) -> Row {
        Row::Ballot(self.lifted())
    }
}
