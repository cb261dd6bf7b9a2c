// Units of two compilers and of small shapes, entry by entry, and units that are refused.
use abbrev_tables::{Spec, Table};
use dw_base::{Fault, Kind, Refusal, Span};
use entry_arena::{ChainEnd, Entry};
use entry_read::{Counts, UnitHead, columns_of, heads, place_of_value, read_unit};
use form_codec::{Value, Whole};
use std::alloc::Global;
use std::process::Abort;
use std::test::Fail;

// As gcc and clang write them.
const GCC: [u8; 101] = [
    0x61, 0, 0, 0, 5, 0, 1, 8, 0, 0, 0, 0, 1, 0, 0, 0, 0, 0x1d, 0, 0, 0, 0, 4, 0, 0, 0, 0, 0x10,
    0x40, 0, 0, 0, 0, 0, 0x10, 0, 0, 0, 0, 0, 0, 0, 0, 0, 0, 0, 2, 0x66, 0, 1, 0x5d, 0, 0, 0, 0,
    0x10, 0x40, 0, 0, 0, 0, 0, 0x10, 0, 0, 0, 0, 0, 0, 0, 1, 0x9c, 0x5d, 0, 0, 0, 3, 0x78, 0, 1,
    0x5d, 0, 0, 0, 0x10, 0, 0, 0, 0x0c, 0, 0, 0, 0, 4, 4, 5, 0x69, 0x6e, 0x74, 0, 0,
];

const GCC_TABLE: [u8; 71] = [
    1, 0x11, 1, 0x25, 0x0e, 0x13, 0x0b, 3, 0x1f, 0x1b, 0x1f, 0x11, 1, 0x12, 7, 0x10, 0x17, 0, 0, 2,
    0x2e, 1, 0x3f, 0x19, 3, 8, 0x3a, 0x21, 1, 0x3b, 0x0b, 0x49, 0x13, 0x11, 1, 0x12, 7, 0x40, 0x18,
    1, 0x13, 0, 0, 3, 5, 0, 3, 8, 0x3b, 0x0b, 0x49, 0x13, 2, 0x17, 0xb7, 0x42, 0x17, 0, 0, 4, 0x24,
    0, 0x0b, 0x0b, 0x3e, 0x0b, 3, 8, 0, 0, 0,
];

const CLANG: [u8; 77] = [
    0x49, 0, 0, 0, 5, 0, 1, 8, 0, 0, 0, 0, 1, 0, 0x1d, 0, 1, 8, 0, 0, 0, 0, 0, 0, 0, 2, 0, 0, 0, 0,
    0, 0, 0, 0, 0, 8, 0, 0, 0, 0x0c, 0, 0, 0, 0x0c, 0, 0, 0, 2, 0, 0x10, 0, 0, 0, 1, 0x57, 3, 0, 1,
    0x48, 0, 0, 0, 3, 0, 4, 0, 1, 0x48, 0, 0, 0, 0, 4, 5, 5, 4, 0,
];

const CLANG_TABLE: [u8; 76] = [
    1, 0x11, 1, 0x25, 0x25, 0x13, 5, 3, 0x25, 0x72, 0x17, 0x10, 0x17, 0x1b, 0x25, 0x11, 1, 0x55,
    0x23, 0x73, 0x17, 0x74, 0x17, 0x8c, 1, 0x17, 0, 0, 2, 0x2e, 1, 0x11, 0x1b, 0x12, 6, 0x40, 0x18,
    3, 0x25, 0x3a, 0x0b, 0x3b, 0x0b, 0x49, 0x13, 0x3f, 0x19, 0, 0, 3, 5, 0, 2, 0x22, 3, 0x25, 0x3a,
    0x0b, 0x3b, 0x0b, 0x49, 0x13, 0, 0, 4, 0x24, 0, 3, 0x25, 0x3e, 0x0b, 0x0b, 0x0b, 0, 0, 0,
];

// An entry with a block, and a reference to the one after it.
const BLOCK: [u8; 132] = [
    0x80, 0, 0, 0, 5, 0, 1, 8, 0, 0, 0, 0, 1, 2, 0x82, 0, 0, 0, 0x6f, 0, 0, 0, 0, 0, 0, 0, 0, 0, 0,
    0, 0, 0, 0, 0, 0, 0, 0, 0, 0, 0, 0, 0, 0, 0, 0, 0, 0, 0, 0, 0, 0, 0, 0, 0, 0, 0, 0, 0, 0, 0, 0,
    0, 0, 0, 0, 0, 0, 0, 0, 0, 0, 0, 0, 0, 0, 0, 0, 0, 0, 0, 0, 0, 0, 0, 0, 0, 0, 0, 0, 0, 0, 0, 0,
    0, 0, 0, 0, 0, 0, 0, 0, 0, 0, 0, 0, 0, 0, 0, 0, 0, 0, 0, 0, 0, 0, 0, 0, 0, 0, 0, 0, 0, 0, 0, 0,
    0, 0, 0, 0, 0, 3, 0,
];

const BLOCK_TABLE: [u8; 20] = [
    1, 0x11, 1, 0, 0, 2, 0x34, 0, 0x49, 0x13, 0x1c, 0x0a, 0, 0, 3, 0x24, 0, 0, 0, 0,
];

// An entry whose sibling is the end of its chain.
const SIBLING: [u8; 19] = [
    0x0f, 0, 0, 0, 5, 0, 1, 8, 0, 0, 0, 0, 1, 2, 0x12, 0, 0, 0, 0,
];

const SIBLING_TABLE: [u8; 13] = [1, 0x11, 1, 0, 0, 2, 0x34, 0, 1, 0x13, 0, 0, 0];

// A root with children, and an entry with a ULEB128 number and a text.
const PAIR_TABLE: [u8; 15] = [1, 0x11, 1, 0, 0, 2, 0x34, 0, 0x49, 0x0f, 3, 8, 0, 0, 0];

// A root without children.
const BARE_TABLE: [u8; 6] = [1, 0x11, 0, 0, 0, 0];

const NONE_BEFORE: Counts = Counts {
    entries: 0,
    values: 0,
};

// The place, the bytes, the depth, the declaration, the first value and the count of values of an entry.
type Row = (u32, u32, u32, u32, u32, u32);

const GCC_ENTRIES: [Row; 4] = [
    (12, 34, 0, 0, 0, 7),
    (46, 30, 1, 1, 7, 9),
    (76, 16, 2, 2, 16, 5),
    (93, 7, 1, 3, 21, 3),
];

fn int(number: i64) -> Value {
    Value::Int(Whole::signed(number))
}

fn gcc_values() -> [Value; 24] {
    [
        Value::StrOffset(0),
        int(29),
        Value::LineStrOffset(0),
        Value::LineStrOffset(4),
        Value::Addr(0x401000),
        int(16),
        Value::Offset(0),
        Value::Flag(true),
        Value::Text(Span { at: 47, len: 1 }),
        int(1),
        int(1),
        Value::LocalRef(93),
        Value::Addr(0x401000),
        int(16),
        Value::Expr(Span { at: 71, len: 1 }),
        Value::LocalRef(93),
        Value::Text(Span { at: 77, len: 1 }),
        int(1),
        Value::LocalRef(93),
        Value::Offset(16),
        Value::Offset(12),
        int(4),
        int(5),
        Value::Text(Span { at: 96, len: 3 }),
    ]
}

const GCC_ENDS: [ChainEnd; 2] = [
    ChainEnd { entry: 1, at: 92 },
    ChainEnd { entry: 0, at: 100 },
];

const CLANG_ENTRIES: [Row; 4] = [
    (12, 35, 0, 0, 0, 11),
    (47, 15, 1, 1, 11, 8),
    (62, 9, 2, 2, 19, 5),
    (72, 4, 1, 3, 24, 3),
];

fn clang_values() -> [Value; 27] {
    [
        Value::StrIndex(0),
        int(29),
        Value::StrIndex(1),
        Value::Offset(8),
        Value::Offset(0),
        Value::StrIndex(2),
        Value::Addr(0),
        Value::RangeIndex(0),
        Value::Offset(8),
        Value::Offset(12),
        Value::Offset(12),
        Value::AddrIndex(0),
        int(16),
        Value::Expr(Span { at: 54, len: 1 }),
        Value::StrIndex(3),
        int(0),
        int(1),
        Value::LocalRef(72),
        Value::Flag(true),
        Value::LocIndex(0),
        Value::StrIndex(4),
        int(0),
        int(1),
        Value::LocalRef(72),
        Value::StrIndex(5),
        int(5),
        int(4),
    ]
}

const CLANG_ENDS: [ChainEnd; 2] = [ChainEnd { entry: 1, at: 71 }, ChainEnd { entry: 0, at: 76 }];

const BLOCK_ENTRIES: [Row; 3] = [
    (12, 1, 0, 0, 0, 0),
    (13, 117, 1, 1, 0, 2),
    (130, 1, 1, 2, 2, 0),
];

const BLOCK_VALUES: [Value; 2] = [
    Value::LocalRef(130),
    Value::Block(Span { at: 19, len: 111 }),
];

const BLOCK_ENDS: [ChainEnd; 1] = [ChainEnd { entry: 0, at: 131 }];

const SIBLING_ENTRIES: [Row; 2] = [(12, 1, 0, 0, 0, 0), (13, 5, 1, 1, 0, 1)];

const SIBLING_VALUES: [Value; 1] = [Value::LocalRef(18)];

const SIBLING_ENDS: [ChainEnd; 1] = [ChainEnd { entry: 0, at: 18 }];

#[derive(Clone, Copy)]
struct Sample<'s> {
    info: &'s [u8],
    table: &'s [u8],
    entries: &'s [Row],
    values: &'s [Value],
    ends: &'s [ChainEnd],
}

fn entry_of(row: Row) -> Entry {
    let (at, len, depth, decl, first, count) = row;
    Entry {
        at,
        len,
        depth,
        decl,
        first,
        count,
    }
}

// Whether the entries are those of the rows, and no others.
fn are_entries(entries: &[Entry], rows: &[Row]) -> bool {
    entries.len() == rows.len()
        && entries
            .iter()
            .zip(rows.iter())
            .all(|(entry, row)| *entry == entry_of(*row))
}

// The fault of the units of a section that stands at 64 in the file, or none. All of them have one table.
fn fault_of(
    alloc: Global,
    info: &[u8],
    table: &[u8],
    before: Counts,
) -> Result<Option<Fault>, Fail> {
    if table.is_empty() {
        return Err("no table")?;
    }
    let table = Table::read(alloc, table, 0, 0).ok().ok_or("no table")?;
    let heads = match heads(alloc, info, 64) {
        Ok(heads) => heads,
        Err(Refusal::Refused(fault)) => return Ok(Some(fault)),
        Err(Refusal::NoMemory) => return Err("no memory")?,
    };
    for head in heads.iter() {
        match read_unit(alloc, info, head, &table, before, 64) {
            Ok(_) => {}
            Err(Refusal::Refused(fault)) => return Ok(Some(fault)),
            Err(Refusal::NoMemory) => return Err("no memory")?,
        }
    }
    Ok(None)
}

// Whether the first unit is read as the sample says.
fn reads(alloc: Global, sample: &Sample) -> Result<bool, Fail> {
    if sample.table.is_empty() {
        return Err("no table")?;
    }
    let table = Table::read(alloc, sample.table, 0, 0)
        .ok()
        .ok_or("no table")?;
    let heads = heads(alloc, sample.info, 64).ok().ok_or("no heads")?;
    for head in heads.iter() {
        let unit = read_unit(alloc, sample.info, head, &table, NONE_BEFORE, 64)
            .ok()
            .ok_or("refused")?;
        let forest = unit.forest();
        let mut values = Vec::new(alloc);
        forest
            .read_values(0, forest.value_count(), &mut values)
            .ok()
            .ok_or("no memory")?;
        return Ok(
            unit.head() == *head
                && are_entries(forest.entries(), sample.entries)
                && values.as_slice() == sample.values
                && forest.chain_ends() == sample.ends,
        );
    }
    Ok(false)
}

// Whether an entry or the end of a chain stands at a place.
fn is_boundary(sample: &Sample, place: u64) -> bool {
    sample.entries.iter().any(|row| u64::from(row.0) == place)
        || sample.ends.iter().any(|end| u64::from(end.at) == place)
}

// Whether each front of a unit of less than 256 bytes is refused with the right kind: Short while the length says that the
// unit is longer, and with a length of its own Tree between entries, and Short or Text inside one.
fn fronts_are_refused(alloc: Global, sample: &Sample) -> Result<bool, Fail> {
    for cut in 1..sample.info.len() {
        let mut front = sample.info[..cut].to_vec(alloc)?;
        let short = Fault {
            kind: Kind::Short,
            place: 64,
        };
        if fault_of(alloc, &front, sample.table, NONE_BEFORE)? != Some(short) {
            return Ok(false);
        }
        if cut < 12 {
            continue;
        }
        front[0] = u8::try_from(cut - 4).ok().ok_or("too long")?;
        let Some(fault) = fault_of(alloc, &front, sample.table, NONE_BEFORE)? else {
            return Ok(false);
        };
        let right = if is_boundary(sample, cut as u64) {
            fault.kind == Kind::Tree && fault.place == 64
        } else {
            (fault.kind == Kind::Short || fault.kind == Kind::Text) && fault.place > 64 + 12
        };
        if !right {
            return Ok(false);
        }
    }
    Ok(true)
}

// The values of all samples.
#[derive(Clone, Copy)]
struct SampleValues {
    gcc: [Value; 24],
    clang: [Value; 27],
    block: [Value; 2],
    sibling: [Value; 1],
}

fn sample_values() -> SampleValues {
    SampleValues {
        gcc: gcc_values(),
        clang: clang_values(),
        block: BLOCK_VALUES,
        sibling: SIBLING_VALUES,
    }
}

fn samples(values: &SampleValues) -> [Sample<'_>; 4] {
    [
        Sample {
            info: &GCC,
            table: &GCC_TABLE,
            entries: &GCC_ENTRIES,
            values: &values.gcc,
            ends: &GCC_ENDS,
        },
        Sample {
            info: &CLANG,
            table: &CLANG_TABLE,
            entries: &CLANG_ENTRIES,
            values: &values.clang,
            ends: &CLANG_ENDS,
        },
        Sample {
            info: &BLOCK,
            table: &BLOCK_TABLE,
            entries: &BLOCK_ENTRIES,
            values: &values.block,
            ends: &BLOCK_ENDS,
        },
        Sample {
            info: &SIBLING,
            table: &SIBLING_TABLE,
            entries: &SIBLING_ENTRIES,
            values: &values.sibling,
            ends: &SIBLING_ENDS,
        },
    ]
}

#[test]
fn samples_are_read(rt: HostRuntime) -> Result<(), Fail> {
    let values = sample_values();
    for sample in samples(&values).iter() {
        assert!(rt; reads(rt.alloc(), sample)?);
    }
    Ok(())
}

#[test]
fn fronts_of_samples_are_refused(rt: HostRuntime) -> Result<(), Fail> {
    let values = sample_values();
    for sample in samples(&values).iter() {
        assert!(rt; fronts_are_refused(rt.alloc(), sample)?);
    }
    Ok(())
}

// Whether each unit has one entry, which follows a header of 24 bytes in a type unit, 20 in a skeleton unit, and else 12.
// All units have one table.
fn roots_follow_headers(alloc: Global, info: &[u8], table: &[u8]) -> Result<bool, Fail> {
    if table.is_empty() {
        return Err("no table")?;
    }
    let table = Table::read(alloc, table, 0, 0).ok().ok_or("no table")?;
    let heads = heads(alloc, info, 64).ok().ok_or("no heads")?;
    for head in heads.iter() {
        let unit = read_unit(alloc, info, head, &table, NONE_BEFORE, 64)
            .ok()
            .ok_or("refused")?;
        let size = match head.kind {
            2 => 24,
            4 => 20,
            _ => 12,
        };
        let entries = unit.forest().entries();
        if entries.len() != 1 || u64::from(entries[0].at) != head.at.wrapping_add(size) {
            return Ok(false);
        }
    }
    Ok(true)
}

// A partial, a type and a skeleton unit; the last one is padded.
const KINDS: [u8; 61] = [
    9, 0, 0, 0, 5, 0, 3, 8, 2, 1, 0, 0, 1, 0x15, 0, 0, 0, 5, 0, 2, 8, 0, 0, 0, 0, 8, 7, 6, 5, 4, 3,
    2, 1, 24, 0, 0, 0, 1, 0x13, 0, 0, 0, 5, 0, 4, 8, 0, 0, 0, 0, 0x11, 0x22, 0x33, 0x44, 0x55,
    0x66, 0x77, 0x88, 1, 0, 0,
];

#[test]
fn heads_of_each_type(rt: HostRuntime) -> Result<(), Fail> {
    let alloc = rt.alloc();
    let heads = heads(alloc, &KINDS, 64).ok().ok_or("no heads")?;
    let expected = [
        UnitHead {
            at: 0,
            len: 13,
            kind: 3,
            table: 0x102,
            extra: 0,
            type_at: 0,
        },
        UnitHead {
            at: 13,
            len: 25,
            kind: 2,
            table: 0,
            extra: 0x0102030405060708,
            type_at: 24,
        },
        UnitHead {
            at: 38,
            len: 23,
            kind: 4,
            table: 0,
            extra: 0x8877665544332211,
            type_at: 0,
        },
    ];
    assert_eq!(rt; heads.as_slice(), &expected[..]);
    assert!(rt; roots_follow_headers(alloc, &KINDS, &BARE_TABLE)?);
    Ok(())
}

// The bytes of .debug_info, and the kind and the place of its fault.
type Refused = (&'static [u8], Kind, u64);

// Headers that are refused.
const REFUSED_HEADS: [Refused; 9] = [
    // the section ends in a length, and in a unit
    (&[9, 0, 0], Kind::Short, 64),
    (&[9, 0, 0, 0, 5, 0, 1, 8, 0, 0, 0, 0], Kind::Short, 64),
    // a reserved length, and one that is less than a header
    (
        &[0xf0, 0xff, 0xff, 0xff, 5, 0, 1, 8, 0, 0, 0, 0],
        Kind::UnitHead,
        64,
    ),
    (&[7, 0, 0, 0, 5, 0, 1, 8, 0, 0, 0], Kind::UnitHead, 64),
    // version 4, types 0 and 5, addresses of 4 bytes, a type unit with 12 bytes of header
    (&[9, 0, 0, 0, 4, 0, 1, 8, 0, 0, 0, 0, 1], Kind::UnitHead, 64),
    (&[9, 0, 0, 0, 5, 0, 0, 8, 0, 0, 0, 0, 1], Kind::UnitHead, 64),
    (&[9, 0, 0, 0, 5, 0, 5, 8, 0, 0, 0, 0, 1], Kind::UnitHead, 64),
    (&[9, 0, 0, 0, 5, 0, 1, 4, 0, 0, 0, 0, 1], Kind::UnitHead, 64),
    (&[9, 0, 0, 0, 5, 0, 2, 8, 0, 0, 0, 0, 1], Kind::UnitHead, 64),
];

// Trees that don't end, end too early, or are followed by more.
const REFUSED_TREES: [Refused; 3] = [
    // a root of code 0, an open chain, and a byte after the tree
    (&[9, 0, 0, 0, 5, 0, 1, 8, 0, 0, 0, 0, 0], Kind::Tree, 64),
    (&[9, 0, 0, 0, 5, 0, 1, 8, 0, 0, 0, 0, 1], Kind::Tree, 64),
    (
        &[12, 0, 0, 0, 5, 0, 1, 8, 0, 0, 0, 0, 1, 0, 0, 5],
        Kind::Tree,
        64,
    ),
];

// Codes and values that are refused.
const REFUSED_VALUES: [Refused; 6] = [
    // a code that isn't declared, one that is cut, and one that doesn't fit
    (
        &[11, 0, 0, 0, 5, 0, 1, 8, 0, 0, 0, 0, 1, 7, 0],
        Kind::CodeMissing,
        77,
    ),
    (
        &[10, 0, 0, 0, 5, 0, 1, 8, 0, 0, 0, 0, 1, 0x82],
        Kind::Short,
        77,
    ),
    (
        &[
            19, 0, 0, 0, 5, 0, 1, 8, 0, 0, 0, 0, 1, 0xff, 0xff, 0xff, 0xff, 0xff, 0xff, 0xff, 0xff,
            0xff, 2,
        ],
        Kind::LebWide,
        77,
    ),
    // a number that is cut or doesn't fit, and a text that ends in the next unit
    (
        &[11, 0, 0, 0, 5, 0, 1, 8, 0, 0, 0, 0, 1, 2, 0x80],
        Kind::Short,
        78,
    ),
    (
        &[
            20, 0, 0, 0, 5, 0, 1, 8, 0, 0, 0, 0, 1, 2, 0xff, 0xff, 0xff, 0xff, 0xff, 0xff, 0xff,
            0xff, 0xff, 2,
        ],
        Kind::LebWide,
        78,
    ),
    (
        &[
            12, 0, 0, 0, 5, 0, 1, 8, 0, 0, 0, 0, 1, 2, 5, 0x41, 10, 0, 0, 0, 5, 0, 1, 8, 0, 0, 0,
            0, 1, 0,
        ],
        Kind::Text,
        79,
    ),
];

// Faults of a second unit, and first units that are cut by it.
const REFUSED_SECONDS: [Refused; 4] = [
    // the second unit
    (
        &[
            10, 0, 0, 0, 5, 0, 1, 8, 0, 0, 0, 0, 1, 0, 9, 0, 0, 0, 5, 0, 1, 8, 0, 0, 0, 0, 0,
        ],
        Kind::Tree,
        78,
    ),
    (
        &[
            10, 0, 0, 0, 5, 0, 1, 8, 0, 0, 0, 0, 1, 0, 9, 0, 0, 0, 4, 0, 1, 8, 0, 0, 0, 0, 0,
        ],
        Kind::UnitHead,
        78,
    ),
    // the tree of the first unit doesn't end in the second
    (
        &[
            9, 0, 0, 0, 5, 0, 1, 8, 0, 0, 0, 0, 1, 10, 0, 0, 0, 5, 0, 1, 8, 0, 0, 0, 0, 1, 0,
        ],
        Kind::Tree,
        64,
    ),
    // nor does an entry's code
    (
        &[
            10, 0, 0, 0, 5, 0, 1, 8, 0, 0, 0, 0, 1, 0x80, 10, 0, 0, 0, 5, 0, 1, 8, 0, 0, 0, 0, 1, 0,
        ],
        Kind::Short,
        77,
    ),
];

fn check_refused(rt: &impl Abort, alloc: Global, rows: &[Refused]) -> Result<(), Fail> {
    for row in rows {
        let (info, kind, place) = *row;
        let fault = fault_of(alloc, info, &PAIR_TABLE, NONE_BEFORE)?.ok_or("accepted")?;
        assert_eq!(rt; fault, Fault { kind, place });
    }
    Ok(())
}

#[test]
fn heads_are_refused(rt: HostRuntime) -> Result<(), Fail> {
    check_refused(&rt, rt.alloc(), &REFUSED_HEADS)
}

#[test]
fn trees_are_refused(rt: HostRuntime) -> Result<(), Fail> {
    check_refused(&rt, rt.alloc(), &REFUSED_TREES)
}

#[test]
fn values_are_refused(rt: HostRuntime) -> Result<(), Fail> {
    check_refused(&rt, rt.alloc(), &REFUSED_VALUES)
}

#[test]
fn second_units_are_refused(rt: HostRuntime) -> Result<(), Fail> {
    check_refused(&rt, rt.alloc(), &REFUSED_SECONDS)
}

// The entries and the values before a unit of two entries and one value, and the place of its fault.
#[test]
fn limits_count_what_comes_before(rt: HostRuntime) -> Result<(), Fail> {
    let alloc = rt.alloc();
    let rows = [
        ((1u64 << 24) - 2, (1u64 << 26) - 1, None),
        ((1 << 24) - 1, 0, Some(77)),
        (1 << 24, 0, Some(76)),
        (0, 1 << 26, Some(77)),
        (0, (1 << 26) + 1, Some(76)),
        (u64::MAX, u64::MAX, Some(76)),
    ];
    for (entries, values, place) in rows {
        let fault = fault_of(alloc, &SIBLING, &SIBLING_TABLE, Counts { entries, values })?;
        let expected = place.map(|place| Fault {
            kind: Kind::Limit,
            place,
        });
        assert_eq!(rt; fault, expected);
    }
    Ok(())
}

#[test]
fn padding_is_read(rt: HostRuntime) -> Result<(), Fail> {
    let alloc = rt.alloc();
    let rows: [&[u8]; 3] = [
        // no unit
        &[],
        // padded codes of an entry and of the end of a chain
        &[
            14, 0, 0, 0, 5, 0, 1, 8, 0, 0, 0, 0, 0x81, 0x80, 0, 0x80, 0x80, 0,
        ],
        // bytes 0 after the tree
        &[12, 0, 0, 0, 5, 0, 1, 8, 0, 0, 0, 0, 1, 0, 0, 0],
    ];
    for info in rows {
        assert_eq!(rt; fault_of(alloc, info, &PAIR_TABLE, NONE_BEFORE)?, None);
    }
    Ok(())
}

// A padded code, a padded number and a text.
const PADDED: [u8; 21] = [
    17, 0, 0, 0, 5, 0, 1, 8, 0, 0, 0, 0, 1, 0x82, 0x80, 0, 0x85, 0, 0x41, 0, 0,
];

// The place of a value of the first unit.
fn place_in(alloc: Global, info: &[u8], table: &[u8], id: u32, column: u32) -> Result<u64, Fail> {
    if table.is_empty() {
        return Err("no table")?;
    }
    let Ok(table) = Table::read(alloc, table, 0, 0) else {
        return Err("no table")?;
    };
    let heads = heads(alloc, info, 64).ok().ok_or("no heads")?;
    for head in heads.iter() {
        let Ok(unit) = read_unit(alloc, info, head, &table, NONE_BEFORE, 64) else {
            return Err("refused")?;
        };
        if id >= unit.forest().len() || column >= unit.forest().entry(id).count {
            return Err("no value")?;
        }
        return Ok(place_of_value(&unit, &table, id, column));
    }
    Err("no unit")?
}

// An entry, a column, and the place where the bytes of its value begin or would.
#[test]
fn places_of_values(rt: HostRuntime) -> Result<(), Fail> {
    let alloc = rt.alloc();
    let rows: [(&[u8], &[u8], u32, u32, u64); 14] = [
        // the root: right behind its code, behind numbers of one and four bytes, and behind an address
        (&GCC, &GCC_TABLE, 0, 0, 13),
        (&GCC, &GCC_TABLE, 0, 2, 18),
        (&GCC, &GCC_TABLE, 0, 5, 34),
        (&GCC, &GCC_TABLE, 0, 6, 42),
        // a flag without bytes, the text that begins at the same place, a constant of the declaration, and what follows it
        (&GCC, &GCC_TABLE, 1, 0, 47),
        (&GCC, &GCC_TABLE, 1, 1, 47),
        (&GCC, &GCC_TABLE, 1, 2, 49),
        (&GCC, &GCC_TABLE, 1, 3, 49),
        // an expression begins with its count, and the sibling follows its bytes
        (&GCC, &GCC_TABLE, 1, 7, 70),
        (&GCC, &GCC_TABLE, 1, 8, 72),
        // the last value of the last entry, and a block
        (&GCC, &GCC_TABLE, 3, 2, 96),
        (&BLOCK, &BLOCK_TABLE, 1, 1, 18),
        // behind a padded code, and behind a padded number too
        (&PADDED, &PAIR_TABLE, 1, 0, 16),
        (&PADDED, &PAIR_TABLE, 1, 1, 18),
    ];
    for (info, table, id, column, place) in rows {
        assert_eq!(rt; place_in(alloc, info, table, id, column)?, place);
    }
    Ok(())
}

// The columns of a declaration.
fn columns_in(
    rt: &impl Abort,
    alloc: Global,
    table: &[u8],
    number: u32,
    expected: &[Spec],
) -> Result<(), Fail> {
    if table.is_empty() {
        return Err("no table")?;
    }
    let Ok(table) = Table::read(alloc, table, 0, 0) else {
        return Err("no table")?;
    };
    if number >= table.len() {
        return Err("no declaration")?;
    }
    assert_eq!(rt; columns_of(&table, number), expected);
    Ok(())
}

// None of the root, and two of the entries below it.
#[test]
fn columns_of_declarations(rt: HostRuntime) -> Result<(), Fail> {
    let spec = |name, form, constant| Spec {
        name,
        form,
        constant,
    };
    columns_in(&rt, rt.alloc(), &PAIR_TABLE, 0, &[])?;
    let pair = [spec(0x49, 0x0f, 0), spec(3, 8, 0)];
    columns_in(&rt, rt.alloc(), &PAIR_TABLE, 1, &pair)
}
