//! The roll in memory.
ghost use Rattle.std.specs.Prelude.{◌≡◌, IfOk, OnOk, OnErr, is_some, map, option_map, string_bytes};
ghost use Rattle.std.specs.FinMap as finite;
ghost use Rattle.std.specs.BTreeMap.{btree_map_len};
ghost use Rattle.gr_core.specs.Parts.Developer.{developer_model, current_count};
ghost use Rattle.gr_core.specs.InMemory.Tables.{developer_entry};

use crate::developer::Developer;
use crate::memory::Memory;
use std::alloc::Global;
use std::collections::BTreeMap;
use std::marker::Model;

/// The developers by login, in the order of the logins' bytes. A contract sees a finite map.
#[derive(Drop)]
pub(crate) struct Roll {
    developers: BTreeMap<String, Developer>,
}

impl Model for Roll {
    ghost use Rattle.std.specs.FinMap as finite;
    ghost use Rattle.std.specs.Coded.{codes};
    ghost use Rattle.gr_core.specs.Parts.Key.{text_cmp};
    ghost use Rattle.gr_core.specs.Parts.Developer.{DeveloperModel};

    ghost Value = { finite.FinMap text_cmp DeveloperModel };

    ghost coded = { Prim.hlevel (codes, finite.code) };

    ghost use Rattle.std.specs.BTreeMap.{IsOrdered};
    ghost use Rattle.std.specs.String.{string_cmp};
    ghost use Rattle.gr_core.specs.InMemory.Tables.{roll_of};

    ghost view = { λ roll. roll_of roll.developers };

    ghost invariant = { λ roll. IsOrdered string_cmp roll.developers };
}

impl Roll {
    /// A roll with nobody on it. Takes no memory.
    pub(crate) fn new(alloc: Global) -> Roll
        ensures { result ≡ finite.empty }
    {
        Roll {
            developers: BTreeMap::new(alloc),
        }
    }

    /// The developers by login.
    pub(crate) fn developers(&self) -> &BTreeMap<String, Developer>
        ensures entries { map developer_entry result.now.entries ≡ finite.entries self.now }
        ensures len { btree_map_len result.now ≡ finite.len self.now }
    {
        &self.developers
    }

    /// What the roll says of the login, if it is on it.
    pub(crate) fn get(&self, login: &str) -> Option<&Developer>
        ensures { option_map (λ developer. developer_model developer.now) result
            ≡ finite.get self.now login.now }
    {
        self.developers.get(login)
    }

    /// Whether the login is on the roll.
    pub(crate) fn contains(&self, login: &str) -> bool
        ensures { result ≡ is_some (finite.get self.now login.now) }
    {
        self.developers.contains_key(login)
    }

    /// How many developers are on the roll.
    pub(crate) fn len(&self) -> usize
        ensures { result ≡ finite.len self.now }
    {
        self.developers.len()
    }

    /// How many developers on the roll are current. Walks over all of them, and is asked where the
    /// number is needed: one kept beside the roll would be one more thing that could be wrong.
    /// bench/README.md shows what the walk costs.
    pub(crate) fn current_count(&self) -> usize
        ensures { result ≡ current_count self.now }
    {
        self.developers
            .values()
            .filter(|developer| developer.standing.is_current())
            .count()
    }

    /// Puts the login's row, in the place of an earlier one, and says whether there was one. Where
    /// memory fails, the roll stays as it was.
    pub(crate) fn put(&mut self, login: String, developer: Developer) -> Result<bool, Memory>
        ensures earlier { IfOk result (λ earlier. earlier
            ≡ is_some (finite.get self.old (string_bytes login))) }
        ensures ok { OnOk result
            (self.new ≡ finite.insert self.old (string_bytes login) (developer_model developer)) }
        ensures err { OnErr result (self.new ≡ self.old) }
    {
        let earlier = self.developers.insert(login, developer)?;
        Ok(earlier.is_some())
    }
}
