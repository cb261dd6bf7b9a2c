// Units with their tables, by hand, and units that are refused.
use dw_base::{Fault, Kind, Refusal};
use form_codec::Value;
use std::alloc::Global;
use std::process::Abort;
use std::test::Fail;
use value_links::{Units, read_units};

// Where .debug_info and .debug_abbrev stand in the file.
const INFO_ORIGIN: u64 = 64;

const ABBREV_ORIGIN: u64 = 1000;

// At 0 a table of a root without children, and at 6 one of a root with children and an entry with a reference.
const TABLES: [u8; 19] = [
    1, 0x11, 0, 0, 0, 0, 1, 0x11, 1, 0, 0, 2, 0x34, 0, 0x49, 0x13, 0, 0, 0,
];

// Units at 0, 19 and 32, whose tables stand at 6, 0 and 6.
const UNITS: [u8; 51] = [
    0x0f, 0, 0, 0, 5, 0, 1, 8, 6, 0, 0, 0, 1, 2, 12, 0, 0, 0, 0, 9, 0, 0, 0, 5, 0, 1, 8, 0, 0, 0,
    0, 1, 0x0f, 0, 0, 0, 5, 0, 1, 8, 6, 0, 0, 0, 1, 2, 13, 0, 0, 0, 0,
];

// A table at 0, of which one at 12 has the last declaration.
const OVERLAPPING: [u8; 18] = [
    1, 0x11, 0, 0, 0, 2, 0x34, 0, 0x49, 0x13, 0, 0, 3, 0x11, 0, 0, 0, 0,
];

// Units at 0, 13 and 26, whose tables stand at 0, 12 and 0, and whose roots have the codes 3, 3 and 1.
const ROOTS: [u8; 39] = [
    9, 0, 0, 0, 5, 0, 1, 8, 0, 0, 0, 0, 3, 9, 0, 0, 0, 5, 0, 1, 8, 12, 0, 0, 0, 3, 9, 0, 0, 0, 5,
    0, 1, 8, 0, 0, 0, 0, 1,
];

fn read<'a>(alloc: Global, info: &'a [u8], abbrevs: &[u8]) -> Result<Units<'a>, Refusal> {
    read_units(alloc, info, abbrevs, INFO_ORIGIN, ABBREV_ORIGIN)
}

// The fault of the units of a section, or none.
fn fault_of(alloc: Global, info: &[u8], abbrevs: &[u8]) -> Result<Option<Fault>, Fail> {
    match read(alloc, info, abbrevs) {
        Ok(_) => Ok(None),
        Err(Refusal::Refused(fault)) => Ok(Some(fault)),
        Err(Refusal::NoMemory) => Err("no memory")?,
    }
}

// Stops where other units than those of the three with two tables are held.
fn have_two_tables(rt: &impl Abort, held: &Units<'_>) -> Result<(), Fail> {
    assert_eq!(rt; held.table_of.as_slice(), &[1, 0, 1][..]);
    // the place of each table, its declarations, and its end
    let tables = [(0, 1, 6), (6, 2, 19)];
    assert_eq!(rt; held.tables.len(), tables.len());
    for (named, row) in held.tables.iter().zip(tables.iter()) {
        assert_eq!(rt; (named.place, named.table.len(), named.table.end()), *row);
    }
    // the place of each unit, and its entries and values
    let units = [(0, 2, 1), (19, 1, 0), (32, 2, 1)];
    assert_eq!(rt; held.units.len(), units.len());
    for (unit, row) in held.units.iter().zip(units.iter()) {
        let forest = unit.forest();
        assert_eq!(rt; (unit.head().at, forest.len(), forest.value_count()), *row);
    }
    let last = held.units.iter().last().ok_or("no unit")?;
    assert_eq!(rt; last.forest().value_count(), 1);
    assert_eq!(rt; last.forest().value(0), Value::LocalRef(13));
    Ok(())
}

#[test]
fn units_with_their_tables(rt: HostRuntime) -> Result<(), Fail> {
    match read(rt.alloc(), &UNITS, &TABLES) {
        Ok(held) => have_two_tables(&rt, &held),
        Err(_) => Err("refused")?,
    }
}

// Stops where other units than those with tables that overlap are held.
fn have_tables_that_overlap(rt: &impl Abort, held: &Units<'_>) -> Result<(), Fail> {
    assert_eq!(rt; held.table_of.as_slice(), &[0, 1, 0][..]);
    // the place of each table, how many declarations it has, and where the last of these stands
    let tables = [(0, 3, 12), (12, 1, 12)];
    assert_eq!(rt; held.tables.len(), tables.len());
    for (named, row) in held.tables.iter().zip(tables.iter()) {
        let count = named.table.len();
        assert!(rt; count > 0);
        assert_eq!(rt; (named.place, count, named.table.decl(count - 1).at), *row);
    }
    // of each unit the number of the declaration that its root has
    let numbers = [2, 0, 0];
    assert_eq!(rt; held.units.len(), numbers.len());
    for (unit, number) in held.units.iter().zip(numbers.iter()) {
        for entry in unit.forest().entries() {
            assert_eq!(rt; entry.decl, *number);
        }
    }
    Ok(())
}

#[test]
fn tables_that_overlap(rt: HostRuntime) -> Result<(), Fail> {
    match read(rt.alloc(), &ROOTS, &OVERLAPPING) {
        Ok(held) => have_tables_that_overlap(&rt, &held),
        Err(_) => Err("refused")?,
    }
}

#[test]
fn no_units(rt: HostRuntime) -> Result<(), Fail> {
    match read(rt.alloc(), &[], &TABLES) {
        Ok(held) => {
            assert!(rt;
                held.units.is_empty() && held.tables.is_empty() && held.table_of.is_empty()
            );
            Ok(())
        }
        Err(_) => Err("refused")?,
    }
}

// The bytes of .debug_info and of .debug_abbrev, and the kind and the place of their fault.
#[test]
fn refused_units(rt: HostRuntime) -> Result<(), Fail> {
    let alloc = rt.alloc();
    let rows: [(&[u8], &[u8], Kind, u64); 7] = [
        // the second unit is cut, and it has version 4
        (&UNITS[..31], &TABLES, Kind::Short, 64 + 19),
        (
            &[
                9, 0, 0, 0, 5, 0, 1, 8, 0, 0, 0, 0, 1, 9, 0, 0, 0, 4, 0, 1, 8, 0, 0, 0, 0, 1,
            ],
            &TABLES,
            Kind::UnitHead,
            64 + 13,
        ),
        // the first unit names the place at the end of .debug_abbrev
        (&UNITS, &TABLES[..6], Kind::Pointer, 64),
        // a table that is cut, and one that declares a code twice
        (&UNITS[..19], &TABLES[..18], Kind::Short, 1000 + 18),
        (
            &UNITS[..19],
            &[
                1, 0x11, 0, 0, 0, 0, 1, 0x11, 1, 0, 0, 1, 0x34, 0, 0x49, 0x13, 0, 0, 0,
            ],
            Kind::CodeTwice,
            1000 + 11,
        ),
        // an entry whose code isn't declared in the table of its unit, and a unit that ends in a chain
        (
            &[10, 0, 0, 0, 5, 0, 1, 8, 6, 0, 0, 0, 1, 3],
            &TABLES,
            Kind::CodeMissing,
            64 + 13,
        ),
        (
            &[9, 0, 0, 0, 5, 0, 1, 8, 6, 0, 0, 0, 1],
            &TABLES,
            Kind::Tree,
            64,
        ),
    ];
    for (info, abbrevs, kind, place) in rows.iter() {
        let expected = Fault {
            kind: *kind,
            place: *place,
        };
        assert_eq!(rt; fault_of(alloc, info, abbrevs)?, Some(expected));
    }
    Ok(())
}
