//! Rows of the table `developer`.
ghost use Rattle.std.specs.Prelude.{◌≡◌, ◌≢◌, ℕ, pos, List, IfOk, IsErr};
ghost use Rattle.gr_core.specs.declared.developer.Standing.{Standing};
ghost use Rattle.gr_core.specs.Parts.Developer.{developer_model};
ghost use Rattle.gr_core.specs.Parts.Developer as kept;
ghost use Rattle.gr_core.specs.InMemory.Tables.{developer_entry};
ghost use Rattle.gr_core.specs.Columns.Fields.{standing_code, developer_fields};
ghost use Rattle.gr_core.specs.Columns.Stored.{fields_of_developer};

use super::DeveloperRow;
use crate::developer::{Developer, Standing};
use crate::memory::Memory;
use crate::unfit::Damaged;
use std::alloc::Global;

/// The number of a column for a standing.
fn code(standing: Standing) -> i64
    ensures { result ≡ pos (standing_code standing) }
{
    match standing {
        Standing::Retired => 0,
        Standing::Current => 1,
    }
}

/// The standing that the number of a column says.
fn standing(code: i64) -> Result<Standing, Damaged>
    ensures ok { IfOk result (λ standing. code ≡ pos (standing_code standing)) }
    ensures err { IsErr result → (standing : Standing) → code ≢ pos (standing_code standing) }
{
    match code {
        0 => Ok(Standing::Retired),
        1 => Ok(Standing::Current),
        _ => Err(Damaged),
    }
}

impl DeveloperRow {
    /// The row of the developer with this login, with texts of its own. [`Memory`]: out of memory
    /// for them.
    pub fn of(alloc: Global, login: &str, developer: &Developer) -> Result<DeveloperRow, Memory>
        ensures { IfOk result (λ row. fields_of_developer row
            ≡ developer_fields (login.now, developer_model developer.now)) }
    {
        Ok(DeveloperRow {
            login: String::from_str(alloc, login)?,
            name: String::from_str(alloc, developer.name.as_str())?,
            active: code(developer.standing),
        })
    }

    /// The login and the developer that the row says.
    pub(crate) fn developer(self) -> Result<(String, Developer), Damaged>
        ensures ok { IfOk result (λ entry. developer_fields (developer_entry entry)
            ≡ fields_of_developer self) }
        ensures err { IsErr result → (login : List ℕ) (row : kept.DeveloperModel)
            → developer_fields (login, row) ≢ fields_of_developer self }
    {
        let DeveloperRow {
            login,
            name,
            active,
        } = self;
        let standing = standing(active)?;
        Ok((login, Developer { name, standing }))
    }
}
