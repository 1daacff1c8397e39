//! Tables in two levels: the rows of each first key by login.
ghost use Rattle.std.specs.Prelude.{◌≡◌, ◌⊎◌, IfOk, OnOk, OnErr, is_some};
ghost use Rattle.std.specs.String.{string_cmp};
ghost use Rattle.std.specs.Option.{option_and_then};
ghost use Rattle.std.specs.BTreeMap.{get};
ghost use Rattle.gr_core.specs.InMemory.Table.{AreOrdered, KeepsUnder, PutsUnder};

use crate::memory::Memory;
use std::alloc::Global;
use std::collections::BTreeMap;

/// Puts the login's row under the first key, in the place of an earlier one, and says whether there
/// was one. Where memory fails, the table stays as it was.
pub(crate) fn put<K: Ord + Drop, V: Drop>(
    alloc: Global,
    table: &mut BTreeMap<K, BTreeMap<String, V>>,
    first: K,
    login: String,
    row: V,
) -> Result<bool, Memory>
    requires ordered { AreOrdered K.cmp string_cmp table.old }
    ensures ordered { AreOrdered K.cmp string_cmp table.new }
    ensures earlier { IfOk result (λ earlier. earlier ≡ is_some
        (option_and_then (λ rows. get string_cmp rows login) (get K.cmp table.old first))) }
    ensures ok { OnOk result (PutsUnder K.cmp string_cmp table.old table.new first login row) }
    ensures err { OnErr result ((table.new.entries ≡ table.old.entries)
        ⊎ KeepsUnder K.cmp table.old table.new first) }
{
    match table.get_mut(&first) {
        Some(rows) => {
            let earlier = rows.insert(login, row)?;
            Ok(earlier.is_some())
        }
        None => {
            let mut rows = BTreeMap::new(alloc);
            rows.insert(login, row)?;
            table.insert(first, rows)?;
            Ok(false)
        }
    }
}
