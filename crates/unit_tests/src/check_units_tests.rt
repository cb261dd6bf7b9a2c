// Verdicts on records that were worked out by hand.
ghost use Rattle.std.specs.Prelude.{◌≡◌, ◌≤◌, ◌<◌, ◌^◌, true};
ghost use Rattle.slot_layout.specs.Rows.{rows_of, form_of, CanHaveSize};
ghost use Rattle.check_units.specs.inside.Checks.{AreChecked};

use check_units::accept_layout;
use dw_base::NoMemory;
use slot_layout::{Slot, SlotKind};
use std::alloc::Global;

// Whether a slot among so many can be checked with this size.
fn is_checkable(slot: Slot, size: u32, count: usize) -> bool
    ensures order { result ≡ true → slot.from ≤ slot.to }
    ensures inside { result ≡ true → slot.to ≤ count }
    ensures sized { result ≡ true → CanHaveSize (form_of slot.kind) size }
{
    let has_size = match slot.kind {
        SlotKind::Uleb => size >= 1,
        SlotKind::Call => size == 2 || size == 4,
    };
    has_size && slot.from <= slot.to && slot.to as usize <= count
}

// Whether a few slots and sizes are what `accept_layout` needs.
fn are_checkable(slots: &[Slot], sizes: &[u32]) -> bool
    ensures { result ≡ true → AreChecked (rows_of slots.now) sizes.now }
{
    if slots.len() > 1000 || sizes.len() != slots.len() {
        return false;
    }
    for i in 0..slots.len() {
        if !is_checkable(slots[i], sizes[i], slots.len()) {
            return false;
        }
    }
    true
}

fn refused(
    alloc: Global,
    slots: &[Slot],
    sizes: &[u32],
    ranks: &[u64],
) -> Result<Option<u32>, NoMemory> {
    if are_checkable(slots, sizes) {
        accept_layout(alloc, slots, sizes, ranks)
    } else {
        Err(NoMemory)
    }
}

fn uleb(fixed: u64, from: u32, to: u32) -> Slot {
    Slot {
        kind: SlotKind::Uleb,
        fixed,
        from,
        to,
    }
}

fn call(fixed: u64, from: u32, to: u32) -> Slot {
    Slot {
        kind: SlotKind::Call,
        fixed,
        from,
        to,
    }
}

#[test]
fn short_records(rt: HostRuntime) -> Result<(), NoMemory> {
    // The second needs two bytes once the first has them: 125 and sizes of 1 and 1 make 127, and 2 and 1 make 128.
    let two: &[Slot] = &[uleb(200, 0, 0), uleb(125, 0, 2)];
    // It needs three bytes under all sizes.
    let one: &[Slot] = &[uleb(20000, 0, 0)];
    // The first needs four bytes: with the smallest size its number is 65536. That of the second is 65535.
    let calls: &[Slot] = &[call(65534, 0, 1), call(65533, 1, 2)];
    // 62 bits take nine bytes. The greatest fixed part takes ten, and so does the number 2^64 + 9 that it makes with ten bytes of its
    // own. A call holds no number from 2^32 on.
    let wide: &[Slot] = &[uleb((1 << 62) - 1, 0, 0)];
    let widest: &[Slot] = &[uleb(u64::MAX, 0, 1)];
    let too_wide: &[Slot] = &[call(1 << 32, 0, 0)];
    let wider_still: &[Slot] = &[call(u64::MAX, 0, 1)];
    let rows: [(&[Slot], &[u32], &[u64], Option<u32>); 24] = [
        (two, &[2, 2], &[0, 1], None),
        (two, &[2, 2], &[5, 9], None),
        (two, &[2, 2], &[0, 0], Some(1)),
        (two, &[2, 2], &[1, 0], Some(1)),
        (two, &[2, 2], &[0], Some(1)),
        (two, &[2, 2], &[], Some(0)),
        (two, &[2, 2], &[0, 1, 2], Some(1)),
        (two, &[2, 1], &[0], Some(1)),
        (two, &[3, 2], &[0, 0, 1], Some(0)),
        (two, &[4_294_967_295, 2], &[0, 1], Some(0)),
        (one, &[3], &[0, 0], None),
        (one, &[3], &[0, 7], None),
        (one, &[3], &[7, 0], Some(0)),
        (one, &[2], &[0], Some(0)),
        (calls, &[4, 2], &[0], None),
        (calls, &[4, 4], &[0, 1], Some(1)),
        (wide, &[9], &[0, 0, 0, 0, 0, 0, 0, 0], None),
        (wide, &[8], &[0, 0, 0, 0, 0, 0, 0], Some(0)),
        (widest, &[10], &[0, 0, 0, 0, 0, 0, 0, 0, 0], None),
        (widest, &[9], &[0, 0, 0, 0, 0, 0, 0, 0], Some(0)),
        (wider_still, &[4], &[0], Some(0)),
        (too_wide, &[4], &[0], Some(0)),
        (&[], &[], &[], None),
        (&[], &[], &[0], Some(0)),
    ];
    for (slots, sizes, ranks, slot) in rows {
        assert_eq!(rt; refused(rt.alloc(), slots, sizes, ranks)?, slot);
    }
    Ok(())
}

// 599 slots that need two bytes under all sizes, and one whose number is a fixed part and the sizes of all but the first. That is
// 1198 where it has two bytes itself.
fn many(alloc: Global, fixed: u64) -> Result<Vec<Slot>, NoMemory> {
    let mut slots = vec![in alloc; uleb(128, 0, 0); 599]?;
    slots.push(uleb(fixed, 1, 600))?;
    Ok(slots)
}

#[test]
fn a_long_record(rt: HostRuntime) -> Result<(), NoMemory> {
    let mut sizes = vec![in rt.alloc(); 2u32; 599]?;
    sizes.push(3)?;
    // One of 599 has this rank, and the others have 0. The last slot's steps have ranks 0 and 1, and 15186 + 1198 is 16384.
    let rows = [
        (15186, 0, None),
        (15187, 0, None),
        (15185, 0, Some(599)),
        (15186, 1, Some(599)),
        (15187, 1, None),
    ];
    for (fixed, rank, slot) in rows {
        let slots = many(rt.alloc(), fixed)?;
        let mut ranks = vec![in rt.alloc(); 0u64; 301]?;
        ranks.push(rank)?;
        for rest in [0; 298] {
            ranks.push(rest)?;
        }
        ranks.push(1)?;
        assert_eq!(rt; refused(rt.alloc(), &slots, &sizes, &ranks)?, slot);
    }
    Ok(())
}
