//! The sponsors in memory.
ghost use Rattle.std.specs.Prelude.{◌≡◌, ◌^◌, ◌<◌, IfOk, OnOk, OnErr, is_some, map, string_bytes, count_by};
ghost use Rattle.std.specs.FinMap as finite;
ghost use Rattle.std.specs.BTreeMap.{values};
ghost use Rattle.gr_core.specs.declared.sponsor.Sponsorship.TheVariants.{Active, Withdrawn};
ghost use Rattle.gr_core.specs.InMemory.Table.{entries_in};
ghost use Rattle.gr_core.specs.InMemory.Sponsors.{sponsor_rows, sponsor_entry};
ghost use Rattle.gr_core.specs.Parts.Sponsor.{is_active, is_active_sponsor, sponsor_count, sponsors_of_choice};

use crate::choice::ChoiceKey;
use crate::memory::Memory;
use crate::sponsor::Sponsorship;
use crate::two_levels;
use std::alloc::Global;
use std::collections::BTreeMap;
use std::marker::Model;

/// The sponsors by choice and login, in the order of the choices and then of the logins' bytes.
/// They are in two levels, so that a login is looked up without a copy of it. A contract sees one
/// finite map.
#[derive(Drop)]
pub(crate) struct Sponsors {
    alloc: Global,
    by_choice: BTreeMap<ChoiceKey, BTreeMap<String, Sponsorship>>,
}

impl Model for Sponsors {
    ghost use Rattle.std.specs.FinMap as finite;
    ghost use Rattle.std.specs.Coded.{codes};
    ghost use Rattle.gr_core.specs.Parts.Key.{sponsor_cmp};
    ghost use Rattle.gr_core.specs.declared.sponsor.Sponsorship.{Sponsorship};

    ghost Value = { finite.FinMap sponsor_cmp Sponsorship };

    ghost coded = { Prim.hlevel (codes, finite.code) };

    ghost use Rattle.gr_core.specs.InMemory.Sponsors.{sponsors_of, AreSponsorsOrdered};

    ghost view = { λ sponsors. sponsors_of sponsors.by_choice };

    ghost invariant = { λ sponsors. AreSponsorsOrdered sponsors.by_choice };
}

impl Sponsors {
    /// A table with no sponsors. Takes no memory.
    pub(crate) fn new(alloc: Global) -> Sponsors
        ensures { result ≡ finite.empty }
    {
        Sponsors {
            alloc,
            by_choice: BTreeMap::new(alloc),
        }
    }

    /// The sponsors by choice, and then by login.
    pub(crate) fn by_choice(&self) -> &BTreeMap<ChoiceKey, BTreeMap<String, Sponsorship>>
        ensures { sponsor_rows result.now.entries ≡ finite.entries self.now }
    {
        &self.by_choice
    }

    /// The sponsors of the choice by login.
    pub(crate) fn of_choice(&self, choice: ChoiceKey) -> Option<&BTreeMap<String, Sponsorship>>
        ensures { map (sponsor_entry choice) (entries_in result)
            ≡ sponsors_of_choice self.now choice }
    {
        self.by_choice.get(&choice)
    }

    /// What the table says of the login as a sponsor of the choice.
    pub(crate) fn get(&self, choice: ChoiceKey, login: &str) -> Option<Sponsorship>
        ensures { result ≡ finite.get self.now (choice, login.now) }
    {
        self.by_choice.get(&choice)?.get(login).copied()
    }

    /// How many active sponsors the choice has. Walks over that choice's rows alone.
    pub(crate) fn active_count(&self, choice: ChoiceKey) -> usize
        ensures count { result ≡ sponsor_count self.now choice }
        ensures bound { result < 2 ^ 63 }
    {
        match self.by_choice.get(&choice) {
            Some(sponsors) => active_among(sponsors),
            None => 0,
        }
    }

    /// Whether the login is an active sponsor of the choice.
    pub(crate) fn has(&self, choice: ChoiceKey, login: &str) -> bool
        ensures { result ≡ is_active_sponsor self.now (choice, login.now) }
    {
        self.get(choice, login).is_some_and(Sponsorship::is_active)
    }

    /// How many active sponsors the choice has once the login is one.
    pub(crate) fn count_with(&self, choice: ChoiceKey, login: &str) -> usize
        ensures { result
            ≡ sponsor_count (finite.insert self.now (choice, login.now) Active) choice }
    {
        let count = self.active_count(choice);
        if self.has(choice, login) {
            count
        } else {
            count + 1
        }
    }

    /// How many active sponsors the choice has once the login is none.
    pub(crate) fn count_without(&self, choice: ChoiceKey, login: &str) -> usize
        ensures { result
            ≡ sponsor_count (finite.insert self.now (choice, login.now) Withdrawn) choice }
    {
        let count = self.active_count(choice);
        if self.has(choice, login) {
            count - 1
        } else {
            count
        }
    }

    /// Puts the row of the choice and the login, in the place of an earlier one, and says whether
    /// there was one. Where memory fails, the table stays as it was.
    pub(crate) fn put(
        &mut self,
        choice: ChoiceKey,
        login: String,
        sponsorship: Sponsorship,
    ) -> Result<bool, Memory>
        ensures earlier { IfOk result (λ earlier. earlier
            ≡ is_some (finite.get self.old (choice, string_bytes login))) }
        ensures ok { OnOk result
            (self.new ≡ finite.insert self.old (choice, string_bytes login) sponsorship) }
        ensures err { OnErr result (self.new ≡ self.old) }
    {
        two_levels::put(self.alloc, &mut self.by_choice, choice, login, sponsorship)
    }
}

/// How many of these sponsors are active. Takes no memory.
pub fn active_among(sponsors: &BTreeMap<String, Sponsorship>) -> usize
    ensures count { result ≡ count_by is_active (values sponsors.now) }
    ensures bound { result < 2 ^ 63 }
{
    sponsors
        .values()
        .filter(|sponsorship| sponsorship.is_active())
        .count()
}
