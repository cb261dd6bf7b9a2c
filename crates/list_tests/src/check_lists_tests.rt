// Verdicts on records that were worked out by hand from the bytes of entries (DWARF 5 sections 7.7.3 and 7.25).
use crate::samples::{context_with, range};
use check_lists::accept_list;
use dw_base::{NoMemory, Span};
use list_least::AddressMap;
use list_model::Item;
use std::alloc::Global;

// A section with one table, of the addresses 0x401000 and 0x402000.
const ADDR: [u8; 24] = [
    20, 0, 0, 0, 5, 0, 8, 0, 0, 0x10, 0x40, 0, 0, 0, 0, 0, 0, 0x20, 0x40, 0, 0, 0, 0, 0,
];

// The most items that a case may have.
const MOST_ITEMS: usize = 16384;

// A default location.
fn elsewhere() -> Item {
    Item {
        start: 0,
        end: 0,
        whole: true,
        expr: Span { at: 0, len: 0 },
    }
}

// Verdicts on a record: where indexes are looked up in a map, and where they are sought in the table.
fn verdicts(
    alloc: Global,
    items: &[Item],
    has_table: bool,
    potentials: &[u64],
    size: u64,
) -> Result<(Option<u32>, Option<u32>), NoMemory> {
    if items.len() > MOST_ITEMS {
        return Err(NoMemory);
    }
    let context = context_with(&ADDR, has_table);
    let map = AddressMap::new(alloc, &ADDR, &context.table)?;
    let by_map = accept_list(alloc, items, &context, &ADDR, Some(&map), size, potentials)?;
    let by_table = accept_list(alloc, items, &context, &ADDR, None, size, potentials)?;
    Ok((by_map, by_table))
}

#[test]
fn records_by_hand(rt: HostRuntime) -> Result<(), NoMemory> {
    // A base takes 9 bytes without a table. Under 0 each range takes 9, and under 0x401000 each takes 3.
    let near: &[Item] = &[range(0x401000, 0x401010), range(0x401020, 0x401024)];
    // The index of 0x401000 is 0, so its base takes 2 bytes and the first item 3 under each base. The second takes 9 under 0, and 3
    // under 0x401000.
    let indexed: &[Item] = &[range(0x401000, 0x401004), range(0x401004, 0x401010)];
    // The default location takes 1 byte.
    let whole: &[Item] = &[elsewhere(), range(0x401000, 0x401010)];
    let rows: [(&[Item], bool, &[u64], u64, Option<u32>); 23] = [
        (near, false, &[16, 13], 16, None),
        (near, false, &[16, 12], 16, None),
        (near, false, &[15, 13], 15, None),
        (near, false, &[16, 14], 16, Some(1)),
        (near, false, &[17, 13], 16, Some(0)),
        (near, false, &[17, 14], 17, Some(0)),
        (near, false, &[16, 13], 15, Some(2)),
        (near, false, &[16, 13], 17, Some(2)),
        (near, false, &[15, 13], 16, Some(2)),
        (near, false, &[16, u64::MAX], 16, Some(1)),
        (near, false, &[u64::MAX, u64::MAX], 16, Some(0)),
        (near, false, &[16], 16, Some(0)),
        (near, false, &[16, 13, 1], 16, Some(0)),
        (indexed, true, &[9, 6], 9, None),
        (indexed, true, &[9, 7], 9, Some(1)),
        (indexed, true, &[9, 5], 9, Some(2)),
        (indexed, true, &[10, 6], 9, Some(0)),
        (whole, false, &[13, 3], 4, None),
        (whole, false, &[14, 3], 4, Some(0)),
        (whole, false, &[14, 13], 11, None),
        (&[], false, &[], 1, None),
        (&[], false, &[], 2, Some(0)),
        (&[], false, &[1], 1, Some(0)),
    ];
    for (items, has_table, potentials, size, place) in rows {
        let found = verdicts(rt.alloc(), items, has_table, potentials, size)?;
        assert_eq!(rt; found, (place, place));
    }
    Ok(())
}
