// Items one by one.
use dw_base::Span;
use list_arena::{ListRead, Lists};
use list_model::{Item, Items, Meaning};
use std::process::Abort;
use std::test::Fail;

#[test]
fn items_by_number(rt: HostRuntime) -> Result<(), Fail> {
    let alloc = rt.alloc();
    let items = [
        Item {
            start: 0x40_1000,
            end: 0x8000_0000,
            whole: false,
            expr: Span { at: 23, len: 1 },
        },
        Item {
            start: 0,
            end: 0,
            whole: true,
            expr: Span { at: 42, len: 2 },
        },
        Item {
            start: 0xffff_ffff_ffff_fff0,
            end: 0xffff_ffff_ffff_ffff,
            whole: false,
            expr: Span { at: 45, len: 0 },
        },
    ];
    let mut lists = Lists::new(alloc);
    let first = Meaning::Live(Items::new(items[..1].to_vec(alloc)?));
    lists.push(&ListRead::new(12, 0, Some(0), Vec::new(alloc), first))?;
    lists.push(&ListRead::new(30, 0, None, Vec::new(alloc), Meaning::Dead))?;
    let others = Meaning::Live(Items::new(items[1..].to_vec(alloc)?));
    lists.push(&ListRead::new(40, 0, Some(1), Vec::new(alloc), others))?;
    assert_eq!(&rt; lists.len(), 3);
    for (number, expected) in [(0, &items[..1]), (1, &items[..0]), (2, &items[1..])] {
        assert!(&rt; number < lists.len());
        assert_eq!(&rt; lists.item_count(number), expected.len());
        for (index, item) in expected.iter().enumerate() {
            assert!(&rt; index < lists.item_count(number));
            assert_eq!(&rt; lists.item(number, index), *item);
        }
    }
    Ok(())
}
