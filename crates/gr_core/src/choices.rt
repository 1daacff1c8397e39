//! The choices in memory.
ghost use Rattle.std.specs.Prelude.{◌≡◌, ◌≤◌, ◌^◌, ◌<◌, ℕ, IfOk, OnOk, OnErr, is_some, map, length, option_map, slice_index};
ghost use Rattle.std.specs.List.{All};
ghost use Rattle.std.specs.FinMap as finite;
ghost use Rattle.gr_count.specs.declared.limits.TheConstants.{MIN_OPTIONS, MAX_OPTIONS};
ghost use Rattle.gr_count.specs.Shown.{options_of_ratios, ratio_at};
ghost use Rattle.gr_core.specs.Parts.Choice.{choice_model, choices_of, IsRatio};
ghost use Rattle.gr_core.specs.Desks.Outcome.{on_ballot, place_count, ratios_on_ballot};
ghost use Rattle.gr_core.specs.Machine.Effect.{live_choices};
ghost use Rattle.gr_core.specs.InMemory.Tables.{choice_entry};

use crate::choice::{Choice, ChoiceKey};
use crate::memory::Memory;
use gr_count::Ratios;
use std::alloc::Global;
use std::collections::BTreeMap;
use std::collections::btree_map::Range;
use std::marker::Model;

/// The choices by key, so that those of one resolution stand side by side: they are a range of the
/// table. The invariant shows that the range leaves no number out: none is greater than a `u32` can
/// hold. A contract sees a finite map.
#[derive(Drop)]
pub(crate) struct Choices {
    by_key: BTreeMap<ChoiceKey, Choice>,
}

impl Model for Choices {
    ghost use Rattle.std.specs.FinMap as finite;
    ghost use Rattle.std.specs.Coded.{codes};
    ghost use Rattle.gr_core.specs.Parts.Key.{choice_cmp};
    ghost use Rattle.gr_core.specs.Parts.Choice.{ChoiceModel};

    ghost Value = { finite.FinMap choice_cmp ChoiceModel };

    ghost coded = { Prim.hlevel (codes, finite.code) };

    ghost use Rattle.gr_core.specs.InMemory.Tables.{choice_map, AreChoices};

    ghost view = { λ choices. choice_map choices.by_key };

    ghost invariant = { λ choices. AreChoices choices.by_key };
}

impl Choices {
    /// No choices. Takes no memory.
    pub(crate) fn new(alloc: Global) -> Choices
        ensures { result ≡ finite.empty }
    {
        Choices {
            by_key: BTreeMap::new(alloc),
        }
    }

    /// What is kept of the choice with this key.
    pub(crate) fn get(&self, key: ChoiceKey) -> Option<&Choice>
        ensures { option_map (λ choice. choice_model choice.now) result ≡ finite.get self.now key }
    {
        self.by_key.get(&key)
    }

    /// The choices by key.
    pub(crate) fn by_key(&self) -> &BTreeMap<ChoiceKey, Choice>
        ensures { map choice_entry result.now.entries ≡ finite.entries self.now }
    {
        &self.by_key
    }

    /// The choices of the resolution, in the order of their numbers. Passes by those of others.
    pub(crate) fn of_resolution(&self, resolution: u32) -> Range<'_, ChoiceKey, Choice>
        ensures entries { map choice_entry result ≡ choices_of self.now resolution }
        ensures fits { length result < 2 ^ 63 }
    {
        let first = ChoiceKey {
            resolution,
            number: 0,
        };
        let last = ChoiceKey {
            resolution,
            number: u32::MAX,
        };
        self.by_key.range(first..=last)
    }

    /// How many choices of the resolution are live at this moment.
    pub(crate) fn live_count(&self, resolution: u32, at: u64) -> usize
        ensures count { result ≡ length (live_choices self.now at resolution) }
        ensures bound { result < 2 ^ 63 }
    {
        self.of_resolution(resolution)
            .filter(|(_, choice)| choice.is_live(at))
            .count()
    }

    /// How many choices the resolution has. Passes by those of others.
    pub(crate) fn len_of(&self, resolution: u32) -> usize
        ensures { result ≡ length (choices_of self.now resolution) }
    {
        self.of_resolution(resolution).count()
    }

    /// How many places the ballot of the resolution has: one for each choice that has a place, and
    /// one for the default option (Constitution, A.3.2).
    pub(crate) fn place_count(&self, resolution: u32) -> usize
        ensures { result ≡ place_count self.now resolution }
    {
        self.of_resolution(resolution)
            .filter(|(_, choice)| choice.place.is_some())
            .count()
            + 1
    }

    /// The majority ratios of the options on the ballot of the resolution, which has so many places
    /// (Constitution, A.5.3.3).
    pub(crate) fn ratios(&self, resolution: u32, places: usize) -> Ratios
        requires places { places ≡ place_count self.now resolution }
        requires few { places ≤ MAX_OPTIONS }
        requires enough { MIN_OPTIONS ≤ places }
        requires ratios { All (λ entry. IsRatio entry.1.ratio) (on_ballot self.now resolution) }
        ensures options { options_of_ratios result ≡ places }
        ensures ratios { (option : ℕ) → ratio_at result option
            ≡ slice_index (ratios_on_ballot self.now resolution) option }
    {
        let mut ratios = Ratios::new(places);
        let mut option = 0;
        for (_, choice) in self.of_resolution(resolution) {
            if choice.place.is_some() {
                ratios.set(option, choice.ratio);
                option += 1;
            }
        }
        ratios
    }

    /// Puts the choice's row, in the place of an earlier one, and says whether there was one. Where
    /// memory fails, the choices stay as they were.
    pub(crate) fn put(&mut self, key: ChoiceKey, choice: Choice) -> Result<bool, Memory>
        ensures earlier { IfOk result (λ earlier. earlier
            ≡ is_some (finite.get self.old key)) }
        ensures ok { OnOk result (self.new ≡ finite.insert self.old key (choice_model choice)) }
        ensures err { OnErr result (self.new ≡ self.old) }
    {
        let earlier = self.by_key.insert(key, choice)?;
        Ok(earlier.is_some())
    }
}
