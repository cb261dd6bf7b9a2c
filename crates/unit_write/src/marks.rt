// What is counted of a unit for its slots.
ghost use Rattle.std.specs.Prelude.{◌≡◌, ◌≤◌, ◌<◌, ◌+◌, ◌^◌, ℕ, List, length, sum, IfOk};
ghost use Rattle.std.specs.List.{All};
ghost use Rattle.slot_layout.specs.Rows.{form_of, most_slots};
ghost use Rattle.expr_ops.specs.Expressions.{Operation};
ghost use Rattle.expr_ops.specs.Slots.Aim.{Place};
ghost use Rattle.unit_write.specs.Lens.{AreLensFor};
ghost use Rattle.unit_write.specs.Most.{most_bytes};
ghost use Rattle.unit_write.specs.Moved.{IsWritable};
ghost use Rattle.unit_write.specs.inside.Marks.{slot_for, AreMeasured, AreSlotNumbers, AreSlotsCounted, AreEntriesCounted, AreMarks, HasSpot, CountSizes, sizes_before, TakesSizes, ArePlacesWith};

use crate::items::{Items, Next};
use crate::layout::total_of;
use crate::measure::Measured;
use crate::parts::part;
use crate::places::{Places, place_unit};
use crate::slots::Spot;
use abbrev_tables::{Spec, Table};
use dw_base::NoMemory;
use entry_arena::Forest;
use entry_read::Unit;
use slot_layout::{Slot, SlotKind};
use std::alloc::Global;

/// Where the entries of a unit and its codes 0 stand with no byte for any slot, and what stands before them.
#[derive(Drop)]
pub(crate) struct Marks {
    pub places: Places,
    /// How many slots stand before each entry, and last how many there are.
    pub slots_before: Vec<u32>,
    /// How many entries stand before each code 0.
    pub entries_before: Vec<u32>,
}

// The sum of some numbers.
fn sum_of(counts: &[u32]) -> u32
    requires { sum counts.now < 2 ^ 32 }
    ensures { result ≡ sum counts.now }
{
    let mut sum = 0;
    for count in counts {
        sum += *count;
    }
    sum
}

// For each entry how many slots stand before it, and last how many all entries have, where `slots` says it of each value.
fn slots_before_entries(
    alloc: Global,
    forest: &Forest<'_>,
    slots: &[u32],
) -> Result<Vec<u32>, NoMemory>
    requires { sum slots.now < 2 ^ 32 }
    ensures { IfOk result (λ counts. (ops : ℕ → List Operation) → AreSlotNumbers forest.now ops slots.now → AreSlotsCounted forest.now ops counts.items) }
{
    let mut counts: Vec<u32> = Vec::new(alloc);
    let mut count = 0u32;
    for entry in forest.entries() {
        counts.push(count)?;
        count += sum_of(part(slots, entry.first, entry.count));
    }
    counts.push(count)?;
    Ok(counts)
}

// For each code 0 that ends a chain how many entries stand before it.
fn entries_before_ends(alloc: Global, forest: &Forest<'_>) -> Result<Vec<u32>, NoMemory>
    ensures { IfOk result (λ counts. AreEntriesCounted forest.now counts.items) }
{
    let mut counts: Vec<u32> = Vec::new(alloc);
    let mut items = Items::new();
    while let Some(next) = items.next(forest) {
        if let Next::End = next {
            counts.push(items.entries)?;
        }
    }
    Ok(counts)
}

// In place of each count of slots the sum of the sizes of so many.
fn sum_sizes(counts: &mut Vec<u32>, sizes: &[u8])
    requires counts { CountSizes counts.old.items sizes.now }
    requires small { All (λ size. size ≤ 5) sizes.now }
    requires few { length sizes.now ≤ most_slots }
    ensures { counts.new.items ≡ sizes_before sizes.now counts.old.items }
{
    let mut slot = 0;
    let mut sum = 0;
    for number in 0..counts.len() {
        let next = counts[number] as usize;
        sum += total_of(&sizes[slot..next]);
        slot = next;
        counts[number] = sum;
    }
}

impl Marks {
    /// Counts what is needed for the slots of a unit that is written anew with the new columns `specs` and codes `numbers` of its table.
    pub(crate) fn of(
        alloc: Global,
        unit: &Unit<'_>,
        decls: &Table,
        specs: &Vec<Spec>,
        numbers: &Vec<u32>,
        measured: &Measured,
    ) -> Result<Marks, NoMemory>
        requires writable { (lens : List ℕ) → AreLensFor unit.now.forest lens → IsWritable unit.now decls.now specs.now.items numbers.now.items lens }
        requires lens { AreLensFor unit.now.forest measured.now.fixed.items }
        requires few { sum measured.now.slots.items < 2 ^ 32 }
        requires room { most_bytes unit.now < 2 ^ 31 }
        ensures { IfOk result (λ marks. (ops : ℕ → List Operation) → AreMeasured unit.now.forest ops measured.now → AreMarks unit.now decls.now specs.now.items numbers.now.items ops marks) }
    {
        let places = place_unit(alloc, unit, decls, specs, numbers, &measured.fixed, 0)?;
        let forest = unit.forest();
        Ok(Marks {
            places,
            slots_before: slots_before_entries(alloc, forest, &measured.slots)?,
            entries_before: entries_before_ends(alloc, forest)?,
        })
    }

    /// The places that all have with these sizes of the slots: to each mark the sizes of the slots that stand before it are added.
    pub(crate) fn with_sizes(self, sizes: &[u8]) -> Places
        requires sizes { TakesSizes self sizes.now }
        requires small { All (λ size. size ≤ 5) sizes.now }
        requires few { length sizes.now ≤ most_slots }
        ensures { ArePlacesWith self sizes.now result }
    {
        let Marks {
            mut places,
            slots_before: mut before,
            entries_before,
        } = self;
        sum_sizes(&mut before, sizes);
        for id in 0..places.entries.len() {
            places.entries[id] += before[id];
        }
        for number in 0..places.ends.len() {
            places.ends[number] += before[entries_before[number] as usize];
        }
        places.end += u64::from(before[places.entries.len()]);
        places
    }

    /// The slot, which is the one with this number, of a reference to a spot.
    pub(crate) fn slot(&self, kind: SlotKind, spot: Spot) -> Slot
        requires { HasSpot self.now spot }
        ensures { (i n : ℕ) → result ≡ slot_for self.now spot i (Place (form_of kind) n) }
    {
        let (fixed, entries) = match spot {
            Spot::Entry(id) => (self.places.entries[id as usize], id),
            Spot::End(number) => {
                let place = self.places.ends[number as usize];
                (place, self.entries_before[number as usize])
            }
            // A length names nothing.
            Spot::Nothing => unreachable!(),
        };
        Slot {
            kind,
            fixed: u64::from(fixed),
            from: 0,
            to: self.slots_before[entries as usize],
        }
    }
}
