// Which lists of two files mean the same. However many values name two lists, these are compared once.
ghost use Rattle.std.specs.Prelude.{◌↔◌, IsTrue, IfOk};
ghost use Rattle.value_links.specs.Resolved.{MeansList};
ghost use Rattle.value_links.specs.World.{World as AnyWorld};
ghost use Rattle.same_meaning.specs.inside.Compared.{IsSomeWorld, OfBoth, MeanOne, HasListAt, MeanSameList, AreSameLists};

use crate::lists::mean_same_list;
use dw_base::NoMemory;
use list_model::ListKind;
use std::alloc::Global;
use std::collections::BTreeSet;
use value_links::World;

/// The lists of two files that were found to mean the same: of each kind the places of one in the first file and one in the second.
#[derive(Drop)]
pub(crate) struct SameLists {
    alloc: Global,
    ranges: BTreeSet<(u64, u64)>,
    locations: BTreeSet<(u64, u64)>,
}

impl SameLists {
    /// None yet.
    pub(crate) fn new(alloc: Global) -> SameLists
        ensures { (a b : AnyWorld) → AreSameLists a b result }
    {
        SameLists {
            alloc,
            ranges: BTreeSet::new(alloc),
            locations: BTreeSet::new(alloc),
        }
    }

    // Whether the lists of a kind at two places are known to mean the same.
    fn has(&self, kind: ListKind, first: u64, second: u64) -> bool
        ensures { IsTrue result → (a b : AnyWorld) → AreSameLists a b self.now → MeanSameList a b kind (first, second) }
    {
        match kind {
            ListKind::Ranges => self.ranges.contains(&(first, second)),
            ListKind::Locations => self.locations.contains(&(first, second)),
        }
    }

    // Keeps that the lists of a kind at two places mean the same.
    fn add(&mut self, kind: ListKind, first: u64, second: u64) -> Result<(), NoMemory>
        ensures { (a b : AnyWorld) → AreSameLists a b self.old → MeanSameList a b kind (first, second) → AreSameLists a b self.new }
    {
        match kind {
            ListKind::Ranges => self.ranges.insert((first, second))?,
            ListKind::Locations => self.locations.insert((first, second))?,
        };
        Ok(())
    }

    /// Whether the lists of a kind that begin at two places mean the same.
    pub(crate) fn mean_same(
        &mut self,
        before: &World<'_>,
        after: &World<'_>,
        kind: ListKind,
        first: u64,
        second: u64,
    ) -> Result<bool, NoMemory>
        requires before { IsSomeWorld before.now }
        requires after { IsSomeWorld after.now }
        requires first { HasListAt before.now kind first }
        requires second { HasListAt after.now kind second }
        requires lists { AreSameLists before.now after.now self.old }
        ensures same { IfOk result (λ same. OfBoth before.now after.now (λ r s. IsTrue same ↔ MeanOne (MeansList r kind first) (MeansList s kind second))) }
        ensures lists { AreSameLists before.now after.now self.new }
    {
        if self.has(kind, first, second) {
            return Ok(true);
        }
        if !mean_same_list(self.alloc, before, after, kind, first, second)? {
            return Ok(false);
        }
        self.add(kind, first, second)?;
        Ok(true)
    }
}
