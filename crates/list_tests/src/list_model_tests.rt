// Address tables, contributions and entries by hand from the layouts of DWARF 5 sections 7.7.3, 7.25, 7.27 and 7.28.
ghost use Rattle.std.specs.Prelude.{◌<◌};

use dw_base::{Fault, Kind, Reach, Refusal, Span};
use list_model::{
    AddrTable, Context, Contribution, EntryKind, Item, Items, ListKind, RawEntry, ReadEntry, Step,
    addr_table, addr_tables, address, contributions, entry_step, kind_of, list_entry_limit,
    read_entry, table_with_base,
};
use std::alloc::Global;
use std::process::Abort;
use std::test::Fail;

// Where the section stands in the file.
const ORIGIN: u64 = 100;

// A table of two addresses, and one of a single address after it.
const PAIR: [u8; 40] = [
    20, 0, 0, 0, 5, 0, 8, 0, 0, 0x10, 0x40, 0, 0, 0, 0, 0, 0x20, 0x10, 0x40, 0, 0, 0, 0, 0, 12, 0,
    0, 0, 5, 0, 8, 0, 0xf8, 0xf7, 0xf6, 0xf5, 0xf4, 0xf3, 0xf2, 0xf1,
];

const FIRST: AddrTable = AddrTable { at: 0, count: 2 };

const SECOND: AddrTable = AddrTable { at: 24, count: 1 };

fn refused(kind: Kind, at: u64) -> Result<Option<AddrTable>, Fault>
    requires { at < 1000 }
{
    Err(Fault {
        kind,
        place: ORIGIN + at,
    })
}

// The address with a number in the table whose addresses begin at a base.
fn address_in(addr: &[u8], base: u64, index: u64) -> Option<u64> {
    match addr_table(addr, base, ORIGIN) {
        Ok(Some(table)) => address(addr, &table, index),
        _ => None,
    }
}

#[test]
fn a_table_has_one_base(rt: HostRuntime) -> Result<(), Fail> {
    let all = addr_tables(rt.alloc(), &PAIR, ORIGIN)
        .ok()
        .ok_or("no memory")?;
    assert_eq!(rt; all.tables.as_slice(), [FIRST, SECOND].as_slice());
    assert_eq!(rt; all.fault, None);
    let found = [
        (8, Some(FIRST)),
        (32, Some(SECOND)),
        // Before the first address.
        (0, None),
        (7, None),
        // Inside a table, and where a table or an address begins.
        (9, None),
        (16, None),
        (24, None),
        // Past the last address.
        (40, None),
        (48, None),
        (u64::MAX, None),
    ];
    for (base, table) in found {
        assert_eq!(rt; addr_table(&PAIR, base, ORIGIN), Ok(table), "at {base}");
        assert_eq!(rt; table_with_base(&all.tables, base), table, "at {base}");
    }
    assert_eq!(rt; addr_table(&[], 8, ORIGIN), Ok(None));
    // The second table is cut.
    let front = addr_tables(rt.alloc(), &PAIR[..39], ORIGIN)
        .ok()
        .ok_or("no memory")?;
    assert_eq!(rt; front.tables.as_slice(), [FIRST].as_slice());
    assert_eq!(rt;
        front.fault,
        Some(Fault {
            kind: Kind::Short,
            place: 124
        })
    );
    Ok(())
}

#[test]
fn addresses_count_from_0(rt: HostRuntime) {
    assert_eq!(rt; address_in(&PAIR, 8, 0), Some(0x40_1000));
    assert_eq!(rt; address_in(&PAIR, 8, 1), Some(0x40_1020));
    assert_eq!(rt; address_in(&PAIR, 8, 2), None);
    assert_eq!(rt; address_in(&PAIR, 32, 0), Some(0xf1f2_f3f4_f5f6_f7f8));
    assert_eq!(rt; address_in(&PAIR, 32, 1), None);
    assert_eq!(rt; address_in(&PAIR, 8, u64::MAX), None);
}

#[test]
fn a_section_ends_with_a_table(rt: HostRuntime) {
    for cut in 0..PAIR.len() {
        let expected = match cut {
            0 | 24 => Ok(None),
            1..=23 => refused(Kind::Short, 0),
            _ => refused(Kind::Short, 24),
        };
        assert_eq!(rt; addr_table(&PAIR[..cut], 32, ORIGIN), expected, "at {cut}");
    }
    let reserved = [0xf0, 0xff, 0xff, 0xff, 5, 0, 8, 0];
    assert_eq!(rt; addr_table(&reserved, 8, ORIGIN), refused(Kind::Short, 0));
}

#[test]
fn tables_on_the_way_are_in_order(rt: HostRuntime) {
    let altered = [
        // The length: past the end, too small for the header, and with a part of an address.
        (0, 37, 32, refused(Kind::Short, 0)),
        (24, 13, 32, refused(Kind::Short, 24)),
        (0, 3, 32, refused(Kind::ListEntry, 0)),
        (0, 19, 32, refused(Kind::Short, 16)),
        (24, 11, 32, refused(Kind::Short, 32)),
        (24, 4, 32, Ok(Some(AddrTable { at: 24, count: 0 }))),
        // The version, and the sizes of addresses and segment selectors.
        (4, 4, 32, refused(Kind::ListEntry, 0)),
        (28, 4, 32, refused(Kind::ListEntry, 24)),
        (6, 4, 32, refused(Kind::ListEntry, 0)),
        (31, 1, 32, refused(Kind::ListEntry, 24)),
        // A table after the base.
        (28, 4, 8, Ok(Some(FIRST))),
        (28, 4, 31, Ok(None)),
    ];
    for (at, byte, base, expected) in altered {
        let mut section = PAIR;
        if at < section.len() {
            section[at] = byte;
        }
        assert_eq!(rt;
            addr_table(&section, base, ORIGIN),
            expected,
            "{byte} at {at}"
        );
    }
}

// A contribution without offsets, and one with an offset.
const PARTS: [u8; 42] = [
    0x0f, 0, 0, 0, 5, 0, 8, 0, 0, 0, 0, 0, 4, 0, 4, 4, 8, 0x0c, 0, 0x13, 0, 0, 0, 5, 0, 8, 0, 1, 0,
    0, 0, 4, 0, 0, 0, 3, 0, 0x10, 3, 1, 8, 0,
];

const FIRST_PART: Contribution = Contribution {
    at: 0,
    len: 19,
    slots: 0,
};

const SECOND_PART: Contribution = Contribution {
    at: 19,
    len: 23,
    slots: 1,
};

// Whether a section has these contributions.
fn has_parts(alloc: Global, section: &[u8], expected: &[Contribution]) -> Result<bool, Fail> {
    match contributions(alloc, section, ORIGIN) {
        Ok(parts) => Ok(parts.as_slice() == expected),
        Err(Refusal::Refused(_)) => Ok(false),
        Err(Refusal::NoMemory) => Err("no memory")?,
    }
}

// Whether a section is refused with this fault.
fn is_refused(alloc: Global, section: &[u8], kind: Kind, at: u64) -> Result<bool, Fail>
    requires { at < 1000 }
{
    match contributions(alloc, section, ORIGIN) {
        Ok(_) => Ok(false),
        Err(Refusal::Refused(fault)) => Ok(
            fault
                == Fault {
                    kind,
                    place: ORIGIN + at,
                },
        ),
        Err(Refusal::NoMemory) => Err("no memory")?,
    }
}

#[test]
fn contributions_fill_their_section(rt: HostRuntime) -> Result<(), Fail> {
    let alloc = rt.alloc();
    assert!(rt; has_parts(alloc, &PARTS, &[FIRST_PART, SECOND_PART])?);
    for cut in 0..PARTS.len() {
        let front = &PARTS[..cut];
        assert!(rt;
            match cut {
                0 => has_parts(alloc, front, &[])?,
                19 => has_parts(alloc, front, &[FIRST_PART])?,
                1..=18 => is_refused(alloc, front, Kind::Short, 0)?,
                _ => is_refused(alloc, front, Kind::Short, 19)?,
            },
            "at {cut}"
        );
    }
    let altered = [
        // The length: past the end, and too small for the header.
        (19, 0x14, Kind::Short, 19),
        (0, 7, Kind::ListEntry, 0),
        // The version, and the sizes of addresses and segment selectors.
        (4, 4, Kind::ListEntry, 0),
        (25, 4, Kind::ListEntry, 19),
        (26, 1, Kind::ListEntry, 19),
        // More offsets than there is room for.
        (27, 3, Kind::Short, 39),
        (30, 1, Kind::Short, 39),
    ];
    for (at, byte, kind, place) in altered {
        let mut section = PARTS;
        if at < section.len() {
            section[at] = byte;
        }
        assert!(rt; is_refused(alloc, &section, kind, place)?, "{byte} at {at}");
    }
    let mut filled = PARTS;
    filled[27] = 2;
    assert!(rt;
        has_parts(
            alloc,
            &filled,
            &[
                FIRST_PART,
                Contribution {
                    slots: 2,
                    ..SECOND_PART
                }
            ]
        )?
    );
    let reserved = [0xf0, 0xff, 0xff, 0xff, 5, 0, 8, 0, 0, 0, 0, 0];
    assert!(rt; is_refused(alloc, &reserved, Kind::Short, 0)?);
    Ok(())
}

// The entry at the front of the bytes.
fn entry_of(list: ListKind, bytes: &[u8]) -> Result<Option<ReadEntry>, Fault> {
    read_entry(list, bytes, 0, ORIGIN)
}

fn read(code: u8, a: u64, b: u64, end: usize) -> Result<Option<ReadEntry>, Fault> {
    Ok(Some(ReadEntry {
        raw: RawEntry {
            at: 0,
            code,
            a,
            b,
            expr: Span { at: 0, len: 0 },
        },
        end,
    }))
}

fn unread(kind: Kind, at: u64) -> Result<Option<ReadEntry>, Fault>
    requires { at < 1000 }
{
    Err(Fault {
        kind,
        place: ORIGIN + at,
    })
}

#[test]
fn entries_have_their_operands(rt: HostRuntime) {
    let ranges = ListKind::Ranges;
    let locations = ListKind::Locations;
    let base = [5, 0, 0x10, 0x40, 0, 0, 0, 0, 0];
    let pair = [6, 1, 2, 3, 4, 5, 6, 7, 8, 9, 0, 0, 0, 0, 0, 0, 0x80];
    let length = [7, 0, 0x10, 0x40, 0, 0, 0, 0, 0, 0x90, 0x20];
    let wide = [
        4, 0x80, 0x80, 0x80, 0x80, 0x80, 0x80, 0x80, 0x80, 0x80, 2, 0,
    ];
    assert_eq!(rt; entry_of(ranges, &[1, 7]), read(1, 7, 0, 2));
    assert_eq!(rt; entry_of(ranges, &[2, 7, 0x83, 0, 9]), read(2, 7, 3, 4));
    assert_eq!(rt; entry_of(ranges, &[3, 1, 8]), read(3, 1, 8, 3));
    assert_eq!(rt;
        entry_of(locations, &[4, 0x80, 0x20, 8]),
        read(4, 4096, 8, 4)
    );
    assert_eq!(rt; entry_of(locations, &[5, 1]), read(5, 0, 0, 1));
    assert_eq!(rt; entry_of(ranges, &base), read(5, 0x40_1000, 0, 9));
    assert_eq!(rt;
        entry_of(ranges, &pair),
        read(6, 0x807_0605_0403_0201, 0x8000_0000_0000_0009, 17)
    );
    assert_eq!(rt; entry_of(ranges, &length), read(7, 0x40_1000, 4112, 11));
    assert_eq!(rt; entry_of(ranges, &[0, 1]), Ok(None));
    assert_eq!(rt; entry_of(ranges, &[]), unread(Kind::Short, 0));
    assert_eq!(rt; entry_of(ranges, &[4, 4]), unread(Kind::Short, 2));
    assert_eq!(rt; entry_of(ranges, &[4, 0x84, 0x80]), unread(Kind::Short, 1));
    assert_eq!(rt; entry_of(ranges, &base[..8]), unread(Kind::Short, 1));
    assert_eq!(rt; entry_of(ranges, &pair[..16]), unread(Kind::Short, 9));
    assert_eq!(rt; entry_of(ranges, &wide), unread(Kind::LebWide, 1));
    assert_eq!(rt; entry_of(ranges, &[8, 0]), unread(Kind::ListEntry, 0));
    assert_eq!(rt; entry_of(locations, &[9, 0]), unread(Kind::ListEntry, 0));
    assert_eq!(rt; kind_of(ranges, 5), Some(EntryKind::BaseAddress));
    assert_eq!(rt; kind_of(locations, 5), Some(EntryKind::DefaultLocation));
    assert_eq!(rt; kind_of(ranges, 0), None);
    assert_eq!(rt; list_entry_limit(Reach::Narrow), 16_777_216);
    assert_eq!(rt; list_entry_limit(Reach::Wide), 33_554_432);
}

// An item from a start up to an end.
fn item(start: u64, end: u64) -> Item {
    Item {
        start,
        end,
        whole: false,
        expr: Span { at: 0, len: 0 },
    }
}

#[test]
fn items_keep_their_order(rt: HostRuntime) -> Result<(), Fail> {
    let given = [item(7, 9), item(3, 3)];
    let items = Items::new(given.to_vec(rt.alloc())?);
    assert!(rt; items.as_slice() == &given[..]);
    assert!(rt; items.into_vec().as_slice() == &given[..]);
    Ok(())
}

// What the entry at the front of the bytes does under a base, in a context with a table of `addr`, if it has one.
fn step_of(list: ListKind, bytes: &[u8], base: u64, addr: &[u8]) -> Option<Step> {
    let Ok(Some(read)) = read_entry(list, bytes, 0, ORIGIN) else {
        return None;
    };
    let Ok(table) = addr_table(addr, 8, ORIGIN) else {
        return None;
    };
    entry_step(
        list,
        &read.raw,
        base,
        &Context { base, table },
        addr,
        ORIGIN,
    )
    .ok()
}

#[test]
fn entries_of_location_lists_do_the_same(rt: HostRuntime) {
    let list = ListKind::Locations;
    let base = [6, 0, 0x10, 0x40, 0, 0, 0, 0, 0];
    assert_eq!(rt; step_of(list, &[5], 7, &[]), Some(Step::Elsewhere));
    assert_eq!(rt; step_of(list, &base, 7, &[]), Some(Step::Base(0x40_1000)));
    assert_eq!(rt;
        step_of(list, &[4, 1, 2], 7, &[]),
        Some(Step::Between(8, 9))
    );
    assert_eq!(rt; step_of(list, &[4, 1, 0], u64::MAX, &[]), Some(Step::Over));
    assert_eq!(rt;
        step_of(list, &[1, 1], 7, &PAIR),
        Some(Step::Base(0x40_1020))
    );
    assert_eq!(rt;
        step_of(list, &[2, 1, 0], 7, &PAIR),
        Some(Step::Between(0x40_1020, 0x40_1000))
    );
    assert_eq!(rt;
        step_of(list, &[3, 0, 4], 7, &PAIR),
        Some(Step::Between(0x40_1000, 0x40_1004))
    );
    assert_eq!(rt; step_of(list, &[1, 2], 7, &PAIR), None);
}
