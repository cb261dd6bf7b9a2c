// Lists by hand from the costs of their entries (DWARF 5 sections 7.7.3 and 7.25).
ghost use Rattle.std.specs.Prelude.{◌≡◌, ◌≤◌, ◌<◌, ℕ, length, IfOk};
ghost use Rattle.list_model.specs.declared.entry.ListKind.TheVariants.{Ranges};
ghost use Rattle.list_least.specs.Plans.{bounds_of, IsItemOf, item_at};

use crate::samples::{ADDR, context_with};
use dw_base::Span;
use list_least::{AddressMap, Pick, base_cost, item_cost, least};
use list_model::{Item, ListKind};
use std::alloc::Global;
use std::test::Fail;

// Ranges, and what their shortest list is to be where offsets count from 0 at first.
#[derive(Clone, Copy)]
struct Case<'v> {
    ranges: &'v [(u64, u64)],
    has_table: bool,
    picks: &'v [Pick],
    size: u64,
    potentials: &'v [u64],
}

// An entry.
fn pick(code: u8, a: u64, b: u64) -> Pick {
    Pick { code, a, b }
}

// The items of ranges.
fn items_of(alloc: Global, ranges: &[(u64, u64)]) -> Result<Vec<Item>, Fail>
    ensures count { IfOk result (λ items. length items.items ≡ length ranges.now) }
    ensures fit { IfOk result (λ items. (i : ℕ) → i < length items.items → IsItemOf Ranges (bounds_of (item_at items.items i))) }
{
    let mut items = Vec::new(alloc);
    for (start, end) in ranges {
        items.push(Item {
            start: *start,
            end: *end,
            whole: false,
            expr: Span { at: 0, len: 0 },
        })?;
    }
    Ok(items)
}

// Whether the shortest list is what it is to be.
fn is_met(alloc: Global, case: &Case) -> Result<bool, Fail>
    requires { length case.now.ranges.now ≤ 16384 }
{
    let context = context_with(&ADDR, case.has_table);
    let items = items_of(alloc, case.ranges)?;
    let plan = least(alloc, ListKind::Ranges, &items, &context, &ADDR)?;
    Ok(
        plan.picks.as_slice() == case.picks
            && plan.size == case.size
            && plan.potentials.as_slice() == case.potentials,
    )
}

#[test]
fn lists_are_shortest(rt: HostRuntime) -> Result<(), Fail> {
    let alloc = rt.alloc();
    let near = Case {
        ranges: &[(0x401000, 0x401010), (0x401020, 0x401024)],
        has_table: false,
        picks: &[pick(5, 0x401000, 0), pick(4, 0, 0x10), pick(4, 0x20, 0x24)],
        size: 16,
        potentials: &[16, 13],
    };
    assert!(rt; is_met(alloc, &near)?);
    let one = Case {
        ranges: &[(0x401000, 0x401010)],
        has_table: false,
        picks: &[pick(4, 0x401000, 0x401010)],
        size: 10,
        potentials: &[13],
    };
    assert!(rt; is_met(alloc, &one)?);
    let none = Case {
        ranges: &[],
        has_table: false,
        picks: &[],
        size: 1,
        potentials: &[],
    };
    assert!(rt; is_met(alloc, &none)?);
    let falling = Case {
        ranges: &[(0x402000, 0x402010), (0x401000, 0x401004)],
        has_table: false,
        picks: &[pick(5, 0x401000, 0), pick(4, 0x1000, 0x1010), pick(4, 0, 4)],
        size: 18,
        potentials: &[18, 13],
    };
    assert!(rt; is_met(alloc, &falling)?);
    let indexed = Case {
        has_table: true,
        picks: &[pick(1, 0, 0), pick(4, 0x1000, 0x1010), pick(3, 0, 4)],
        size: 11,
        potentials: &[11, 6],
        ..falling
    };
    assert!(rt; is_met(alloc, &indexed)?);
    Ok(())
}

#[test]
fn costs_are_least(rt: HostRuntime) -> Result<(), Fail> {
    let context = context_with(&ADDR, true);
    // The address 0x401000 has the index 0.
    assert_eq!(rt; base_cost(0x401000, &context, &ADDR), 2);
    assert_eq!(rt; base_cost(0x401001, &context, &ADDR), 9);
    let item = Item {
        start: 0x401000,
        end: 0x401004,
        whole: false,
        expr: Span { at: 0, len: 0 },
    };
    assert_eq!(rt; item_cost(ListKind::Ranges, &item, 0, &context, &ADDR), 3);
    let bare = context_with(&ADDR, false);
    assert_eq!(rt; item_cost(ListKind::Ranges, &item, 0, &bare, &ADDR), 9);
    assert_eq!(rt;
        item_cost(ListKind::Ranges, &item, 0x400000, &bare, &ADDR),
        5
    );
    assert_eq!(rt;
        item_cost(ListKind::Ranges, &item, u64::MAX, &bare, &ADDR),
        10
    );
    let indexes = AddressMap::new(rt.alloc(), &ADDR, &context.table)?;
    assert_eq!(rt; indexes.index_of(0x401000), Some(0));
    assert_eq!(rt; indexes.index_of(0x401001), None);
    assert_eq!(rt; indexes.least_between(0, 0x401000), Some(0));
    assert_eq!(rt; indexes.least_between(0x401001, u64::MAX), None);
    Ok(())
}
