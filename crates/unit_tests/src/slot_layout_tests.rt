// Layouts of worked rows, and of small lists of slots against a plain search.
ghost use Rattle.std.specs.Prelude.{◌≡◌, true};
ghost use Rattle.slot_layout.specs.Rows.{rows_of};
ghost use Rattle.slot_layout.specs.inside.Rounds.{AreSlots};

use dw_base::NoMemory;
use slot_layout::{Layout, Slot, SlotKind, solve};
use std::alloc::Global;

// Whether a few slots are what `solve` needs.
fn are_solvable(slots: &[Slot]) -> bool
    ensures { result ≡ true → AreSlots (rows_of slots.now) }
{
    if slots.len() > 16 {
        return false;
    }
    for slot in slots {
        if slot.from > slot.to || slot.to as usize > slots.len() || slot.fixed >= 1 << 31 {
            return false;
        }
    }
    true
}

fn solved(alloc: Global, slots: &[Slot]) -> Result<Layout, NoMemory> {
    let mut list = Vec::new(alloc);
    for slot in slots {
        list.push(*slot)?;
    }
    if are_solvable(&list) {
        solve(alloc, &list)
    } else {
        Err(NoMemory)
    }
}

fn uleb(fixed: u64, from: u32, to: u32) -> Slot {
    Slot {
        kind: SlotKind::Uleb,
        fixed,
        from,
        to,
    }
}

fn call(fixed: u64, from: u32, to: u32) -> Slot {
    Slot {
        kind: SlotKind::Call,
        fixed,
        from,
        to,
    }
}

#[test]
fn worked_slots_are_laid_out(rt: HostRuntime) -> Result<(), NoMemory> {
    let rows: [(&[Slot], &[u8], &[u64]); 5] = [
        (&[uleb(126, 0, 1)], &[1], &[]),
        (&[call(65533, 0, 1)], &[2], &[]),
        (&[call(65534, 0, 1)], &[4], &[0]),
        (&[uleb(200, 0, 0), uleb(125, 0, 2)], &[2, 2], &[0, 1]),
        (&[], &[], &[]),
    ];
    for (slots, sizes, ranks) in rows {
        let layout = solved(rt.alloc(), slots)?;
        assert_eq!(rt; layout.sizes.as_slice(), sizes);
        assert_eq!(rt; layout.ranks.as_slice(), ranks);
    }
    Ok(())
}

// Whether a slot holds its number under these sizes.
fn holds(slot: Slot, size: u64, sizes: &[u64]) -> bool {
    let mut number = slot.fixed;
    for (i, other) in sizes.iter().enumerate() {
        if slot.from as usize <= i && i < slot.to as usize {
            number = number.saturating_add(*other);
        }
    }
    match (slot.kind, size) {
        (SlotKind::Uleb, 1) => number < 128,
        (SlotKind::Uleb, 2) => number < 16384,
        (SlotKind::Uleb, 3) => number < 2_097_152,
        (SlotKind::Call, 2) => number < 65536,
        (SlotKind::Call, 4) => number < 4_294_967_296,
        _ => false,
    }
}

// The least sum of all sizes of 1 to 4 bytes under which each of three slots holds its number.
fn least_sum(slots: &[Slot; 3]) -> u64 {
    let mut least = 12;
    for choice in 0..64u64 {
        let sizes = [choice % 4 + 1, choice / 4 % 4 + 1, choice / 16 + 1];
        let fits = holds(slots[0], sizes[0], &sizes)
            && holds(slots[1], sizes[1], &sizes)
            && holds(slots[2], sizes[2], &sizes);
        if fits {
            least = least.min(sizes[0].saturating_add(sizes[1]).saturating_add(sizes[2]));
        }
    }
    least
}

#[test]
fn no_sizes_are_smaller(rt: HostRuntime) -> Result<(), NoMemory> {
    let rows = [
        [uleb(125, 0, 3), uleb(126, 0, 2), uleb(127, 0, 1)],
        [uleb(124, 1, 3), uleb(16382, 0, 2), call(65532, 0, 3)],
        [call(65531, 0, 3), uleb(124, 0, 1), uleb(126, 1, 2)],
        [uleb(120, 0, 2), call(65530, 1, 2), uleb(0, 0, 3)],
        [uleb(126, 0, 1), uleb(126, 0, 1), uleb(126, 0, 1)],
    ];
    for slots in rows {
        let layout = solved(rt.alloc(), &slots)?;
        let mut sum = 0u64;
        for size in &layout.sizes {
            sum = sum.saturating_add(u64::from(*size));
        }
        assert_eq!(rt; sum, least_sum(&slots));
    }
    Ok(())
}
