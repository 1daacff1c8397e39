//! The rules of a valid desk that speak of developers.
ghost use Rattle.std.specs.Prelude.{◌↔◌, ◌≤◌, IsTrue, string_bytes};
ghost use Rattle.std.specs.FinMap.{len};
ghost use Rattle.gr_count.specs.declared.limits.TheConstants.{MAX_DEVELOPERS};
ghost use Rattle.gr_core.specs.Parts.Developer.{IsDeveloper, developer_model};
ghost use Rattle.gr_core.specs.Desks.Valid.{AreDevelopers};

use crate::developer::Developer;
use crate::login::is_login;
use crate::tables::Tables;
use crate::text::is_name;
use gr_count::MAX_DEVELOPERS;

/// Whether there are no more developers than allowed, each with a login and a name as they may be.
pub(super) fn are_developers(tables: &Tables) -> bool
    ensures { IsTrue result ↔ ((len tables.now.developers ≤ MAX_DEVELOPERS)
        × AreDevelopers tables.now.developers) }
{
    tables.roll().len() <= MAX_DEVELOPERS as usize && each_is_developer(tables)
}

/// Whether each developer has a login and a name as they may be.
fn each_is_developer(tables: &Tables) -> bool
    ensures { IsTrue result ↔ AreDevelopers tables.now.developers }
{
    tables
        .roll()
        .developers()
        .iter()
        .all(|(login, developer)| is_developer(login, developer))
}

/// Whether the roll may have the developer under this login.
fn is_developer(login: &String, developer: &Developer) -> bool
    ensures { IsTrue result ↔ IsDeveloper (string_bytes login.now) (developer_model developer.now) }
{
    is_login(login.as_str()) && is_name(developer.name.as_str())
}
