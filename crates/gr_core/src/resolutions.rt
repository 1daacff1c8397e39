//! The resolutions in memory.
ghost use Rattle.std.specs.Prelude.{◌≡◌, IfOk, OnOk, OnErr, is_some};
ghost use Rattle.std.specs.FinMap as finite;

use crate::memory::Memory;
use crate::resolution::Resolution;
use std::alloc::Global;
use std::collections::BTreeMap;
use std::marker::Model;

/// The resolutions by number. A contract sees a finite map.
#[derive(Drop)]
pub(crate) struct Resolutions {
    by_number: BTreeMap<u32, Resolution>,
}

impl Model for Resolutions {
    ghost use Rattle.std.specs.FinMap as finite;
    ghost use Rattle.std.specs.Coded.{codes};
    ghost use Rattle.std.specs.Ordering.{nat_cmp};
    ghost use Rattle.gr_core.specs.declared.resolution.Resolution.{Resolution};

    ghost Value = { finite.FinMap nat_cmp Resolution };

    ghost coded = { Prim.hlevel (codes, finite.code) };

    ghost use Rattle.std.specs.BTreeMap.{IsOrdered};
    ghost use Rattle.gr_core.specs.InMemory.Tables.{resolution_map};

    ghost view = { λ resolutions. resolution_map resolutions.by_number };

    ghost invariant = { λ resolutions. IsOrdered nat_cmp resolutions.by_number };
}

impl Resolutions {
    /// No resolutions. Takes no memory.
    pub(crate) fn new(alloc: Global) -> Resolutions
        ensures { result ≡ finite.empty }
    {
        Resolutions {
            by_number: BTreeMap::new(alloc),
        }
    }

    /// What is kept of the resolution with this number.
    pub(crate) fn get(&self, number: u32) -> Option<Resolution>
        ensures { result ≡ finite.get self.now number }
    {
        self.by_number.get(&number).copied()
    }

    /// The resolutions by number.
    pub(crate) fn by_number(&self) -> &BTreeMap<u32, Resolution>
        ensures { result.now.entries ≡ finite.entries self.now }
    {
        &self.by_number
    }

    /// How many resolutions there are.
    pub(crate) fn len(&self) -> usize
        ensures { result ≡ finite.len self.now }
    {
        self.by_number.len()
    }

    /// Puts the resolution's row, in the place of an earlier one, and says whether there was one.
    /// Where memory fails, the resolutions stay as they were.
    pub(crate) fn put(&mut self, number: u32, resolution: Resolution) -> Result<bool, Memory>
        ensures earlier { IfOk result (λ earlier. earlier
            ≡ is_some (finite.get self.old number)) }
        ensures ok { OnOk result (self.new ≡ finite.insert self.old number resolution) }
        ensures err { OnErr result (self.new ≡ self.old) }
    {
        let earlier = self.by_number.insert(number, resolution)?;
        Ok(earlier.is_some())
    }
}
