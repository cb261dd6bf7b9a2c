// The sizes of slots, each held against the slot's number.
ghost use Rattle.std.specs.Prelude.{◌<◌, ◌^◌, length, IfOk};
ghost use Rattle.leb_codec.specs.Layout.{HoldsNumber};
ghost use Rattle.slot_layout.specs.Rows.{rows_of};
ghost use Rattle.slot_layout.specs.inside.Rounds.{AreStarts};
ghost use Rattle.check_units.specs.inside.Checks.{AreChecked, IsFirstWithout};

use crate::kinds::holds;
use dw_base::NoMemory;
use slot_layout::Slot;
use std::alloc::Global;

// The sum of the sizes before each slot, and of all.
pub(crate) fn sums_before(alloc: Global, sizes: &[u32]) -> Result<Vec<u64>, NoMemory>
    requires { length sizes.now < 2 ^ 32 }
    ensures { IfOk result (λ sums. AreStarts sizes.now sums.items) }
{
    let mut sums = Vec::new(alloc);
    let mut sum = 0;
    sums.push(sum)?;
    for size in sizes {
        sum += u64::from(*size);
        sums.push(sum)?;
    }
    Ok(sums)
}

// The first slot whose size doesn't hold its number, or the count of slots.
pub(crate) fn first_unheld(slots: &[Slot], sizes: &[u32], sums: &[u64]) -> usize
    requires checked { AreChecked (rows_of slots.now) sizes.now }
    requires sums { AreStarts sizes.now sums.now }
    ensures { IsFirstWithout (HoldsNumber (rows_of slots.now) sizes.now) (length slots.now) result }
{
    for i in 0..slots.len() {
        let slot = slots[i];
        let counted = sums[slot.to as usize] - sums[slot.from as usize];
        if !holds(slot.kind, sizes[i], slot.fixed, counted) {
            return i;
        }
    }
    slots.len()
}
