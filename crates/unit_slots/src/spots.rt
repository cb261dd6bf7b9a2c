// What stands before the places of a unit.
ghost use Rattle.std.specs.Prelude.{◌≡◌, ◌≤◌, ◌<◌, ◌+◌, ◌^◌, ◌++◌, ℕ, List, length, IfOk};
ghost use Rattle.slot_layout.specs.Rows.{row_of, form_of, most_slots};
ghost use Rattle.expr_ops.specs.Expressions.{Operation};
ghost use Rattle.entry_read.specs.Slots.{IsPlaceRow};
ghost use Rattle.entry_read.specs.Units.{HeadAndForest};
ghost use Rattle.unit_slots.specs.inside.Own.{AreStarts};
ghost use Rattle.unit_slots.specs.inside.Rows.{AreSumsBefore, HasSpots, IsThere, entry_places};

use dw_base::NoMemory;
use entry_read::Unit;
use slot_layout::{Slot, SlotKind};
use std::alloc::Global;

/// How many slots stand before each entry of a unit, and how many bytes these have.
#[derive(Drop)]
pub(crate) struct Spots {
    // How many slots stand before each entry, and last how many there are.
    starts: Vec<u32>,
    // The bytes of the slots before each one, and last of all.
    sums: Vec<u64>,
}

// The sum of the sizes before each slot, and of all.
fn sums_before(alloc: Global, sizes: &[u32]) -> Result<Vec<u64>, NoMemory>
    requires { length sizes.now ≤ most_slots }
    ensures { IfOk result (λ sums. AreSumsBefore sizes.now sums.items) }
{
    let mut sums = Vec::new(alloc);
    let mut sum = 0;
    sums.push(sum)?;
    for size in sizes {
        sum += u64::from(*size);
        sums.push(sum)?;
    }
    Ok(sums)
}

impl Spots {
    /// Those of a unit: `starts` says how many slots stand before each entry, and last how many there are.
    pub(crate) fn of(alloc: Global, starts: Vec<u32>, sizes: &[u32]) -> Result<Spots, NoMemory>
        requires { length sizes.now ≤ most_slots }
        ensures { IfOk result (λ spots. (unit : HeadAndForest) (ops : ℕ → List Operation) → AreStarts unit ops sizes.now starts.items → HasSpots unit ops sizes.now spots) }
    {
        let sums = sums_before(alloc, sizes)?;
        Ok(Spots { starts, sums })
    }

    /// The slot whose number is that of what stands `n` bytes behind the first byte of the unit.
    pub(crate) fn slot(&self, unit: &Unit<'_>, kind: SlotKind, n: u64) -> Slot
        requires spots { (ops : ℕ → List Operation) × (own : List ℕ) × HasSpots unit.now ops own self.now }
        requires there { IsThere unit.now n }
        requires short { length unit.now.forest.section < 2 ^ 32 }
        ensures row { (ops : ℕ → List Operation) (own listed : List ℕ) → HasSpots unit.now ops own self.now → IsPlaceRow unit.now.forest ops (entry_places unit.now.forest) (own ++ listed) unit.now.head.at (unit.now.head.at + n) (form_of kind) (row_of result) }
        ensures inside { (ops : ℕ → List Operation) (own : List ℕ) → HasSpots unit.now ops own self.now → result.to ≤ length own }
        ensures small { result.fixed < 2 ^ 32 }
    {
        let entries = unit.forest().entries();
        let place = unit.head().at + n;
        let before = entries.partition_point(|entry| u64::from(entry.at) < place);
        let to = self.starts[before];
        Slot {
            kind,
            fixed: n - self.sums[to as usize],
            from: 0,
            to,
        }
    }
}
